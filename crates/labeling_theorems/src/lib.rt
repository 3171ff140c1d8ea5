// Theorems about labelings, from document 01's definitions: see proofs/. There is no code here.
#![tactic(auto)]
