// A mesh from the foundry on paper, in specs/ and proofs/: when it is ours, and what is found of it. There is no code here.
#![tactic(auto)]
