// What a session does, as definitions (specs/), and the theorems about whole sessions (proofs/). There is no code here.
#![tactic(auto)]
