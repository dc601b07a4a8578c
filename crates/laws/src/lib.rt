// The mathematics that the layers share, in specs/ and proofs/. There is no code here.
#![tactic(auto)]
