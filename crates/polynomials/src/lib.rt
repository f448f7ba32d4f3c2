// Definitions and laws only, in specs/: lists of whole numbers as polynomials, and their places in a base. There is no code here.
#![tactic(auto)]
