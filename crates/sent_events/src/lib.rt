// That every event record of ours can be sent as a message: definitions (specs/) and proofs (proofs/). There is no code here.
#![tactic(auto)]
