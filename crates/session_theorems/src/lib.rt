#![tactic(auto)]

// Whole lists of calls of the code on one session's slices, and demand 3 told of them (specs/), with its proof (proofs/). There is no code here.
