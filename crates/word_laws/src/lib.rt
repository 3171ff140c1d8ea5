// Laws of words, remainders, lists and error patterns, over n, M and l: see proofs/. There is no code here.
#![tactic(auto)]
