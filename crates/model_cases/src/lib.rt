// Trails of the oracle, held against the definitions of the crate `model` (specs/). There is no code here.
#![tactic(auto)]
