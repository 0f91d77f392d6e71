// The server half of the ei protocol's handshake: src/handshake.rs of reis.
#![tactic(auto)]

pub mod handshake;
