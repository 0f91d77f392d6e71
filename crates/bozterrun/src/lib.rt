// The calls of a station for C and for Rust: a slice passes as a pointer and a length, what is answered as numbers. include/bozterrun.h
// declares them. A function answers 0 where its call is accepted, else the number of the refusal.
// A session's slices and what is written for the caller stand one by one among the arguments, since C has no slices in structs.
#![tactic(auto)]

mod client;
mod delivery;
mod event_bytes;
mod handshakes;
mod message;
mod numbers;
mod read;
mod station;
mod told;
