// A client's bytes in a call script: handed to the handshake before the session, then to the session; and what a trail has of them.
#![tactic(auto)]

mod call;
mod show;

pub use call::{receive, shake, unhanded};
pub use show::{handshake_message_answer, message_answer};
