// A whole read handed over, as the model has it (specs/), and demand 3 over lists in which reads stand among the other calls (proofs/). There is no code here.
#![tactic(auto)]
