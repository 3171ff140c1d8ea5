// Theorems about stacks, document 01's digit planes, from its definitions: see proofs/. There is no code here.
#![tactic(auto)]
