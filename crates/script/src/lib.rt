// Call scripts: a line is a comment, a setting, a call with its arguments, or no call.
#![tactic(auto)]

mod line;
mod text;
mod value;
mod verb;
mod word;

pub use line::{Args, Line, LineEnd, line_end, parse};
pub use text::{Part, Text, text_byte, text_into, text_len};
pub use value::{Value, f32_of, i32_of, part_of, read, text_of, u32_of, u64_of};
pub use verb::{FIRST_REQUEST, Kind, LAST_REQUEST, Verb, find, kind_at};
pub use word::value_of;
