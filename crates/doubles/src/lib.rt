// Definitions and laws only, in specs/: whole numbers held exactly in doubles, and the quotient by a rounded inverse. There is no code here.
#![tactic(auto)]
