// No code: theorems on when the mesh of a block is closed, and on how many quads meet at a vertex.
#![tactic(auto)]
