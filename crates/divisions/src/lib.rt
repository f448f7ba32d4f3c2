// Division of polynomials modulo p, and what they are at a number: definitions and laws only, in specs/.
#![tactic(auto)]
