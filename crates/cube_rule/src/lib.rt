// One cube on paper, in specs/ and proofs/: edges, faces, links and loops over any decider. There is no code here.
#![tactic(auto)]
