// Definitions and laws only, in specs/: how whole numbers are laid out in bytes, and how a buffer begins. There is no code here.
#![tactic(auto)]
