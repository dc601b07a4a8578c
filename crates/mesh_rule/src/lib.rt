// The mesh on paper, in specs/ and proofs/: vertices, quads, counts, and what the mesh says of the block. There is no code here.
#![tactic(auto)]
