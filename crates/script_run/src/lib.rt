// A line of a call script, carried out: before the session on its handshake, then on the session; and what a trail has of it.
#![tactic(auto)]

mod call;

pub use call::{Run, Stage, Told, Took, Why, counted, new_run, no_call, quiet, take, text_of};
