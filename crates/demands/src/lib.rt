// Theorems about the promises of the entry points: the three demands, the idle versions, and what follows from several promises together. No code.
#![tactic(auto)]
