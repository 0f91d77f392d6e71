// The lines of a trail, made in a lent line: what a call is answered, with its event records, and delivered requests. Nothing here writes to
// a file.
#![tactic(auto)]

mod lines;
mod records;
mod request;

pub use lines::{
    answer, call_line, ended_first, error_line, handshake_answer, handshake_outcome, in_words,
    next, outcome, read_answer, refusal, whole,
};
