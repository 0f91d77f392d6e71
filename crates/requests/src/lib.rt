// What a client sends (eis), what the station is given (request), and how the latter lies in memory (kinds, cell, row).
#![tactic(auto)]

pub mod cell;
pub mod eis;
pub mod kinds;
pub mod request;
pub mod row;
