// The tables of the protocol: its interfaces, its enums with their numbers, and the capabilities of devices.
#![tactic(auto)]

pub mod eiproto_eis;
pub mod eiproto_enum;
pub mod event;
