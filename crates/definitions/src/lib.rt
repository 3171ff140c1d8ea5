// Document 01 as definitions: see specs/. There is no code here.
#![tactic(auto)]
