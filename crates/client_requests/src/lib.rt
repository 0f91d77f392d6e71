// What becomes of a client's requests: the timed ones wait for their frame, the others are queued or answered at once.
#![tactic(auto)]

pub mod timed;
pub mod untimed;
