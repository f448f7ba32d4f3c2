// Document 01's examples, proved from the definitions: see specs/. There is no code here.
#![tactic(auto)]
