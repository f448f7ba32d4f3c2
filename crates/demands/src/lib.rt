// Demands on the library as a whole, proved from the promises: see specs/. There is no code here.
#![tactic(auto)]
