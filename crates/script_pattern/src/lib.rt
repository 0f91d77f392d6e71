// Bytes, numbers and patterns with values, put into a lent line: as many as have room.
#![tactic(auto)]

pub mod line;
mod mark;
pub mod table;
