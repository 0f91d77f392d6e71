// What the turns of the benchmark are made of: the session that they begin with, and what a client sends.
#![tactic(auto)]

mod client;
mod start;
mod word;

pub use crate::start::{DEVICE, begin};
pub use client::{frame, keys, many_keys, next, stroke, with_text, without_text};
pub use word::number;
