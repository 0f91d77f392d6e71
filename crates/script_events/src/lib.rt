// An event's record and its message in a call script: each turned into the other, and what a trail has of that.
#![tactic(auto)]

mod call;
mod show;

pub use call::turn;
pub use show::event_answer;
