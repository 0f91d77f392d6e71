// A whole call script: its lines taken from a file, one behind the other, and its trail written on standard output.
//
// What is proved of a line, once it stands in the buffer: `script_read::take` has it (what it does is `Takes` of script_read/specs), and the bytes that are
// written for it are those of `trail_of` of script_trail/specs. What is not: that the buffer holds what the file has and the file's lines come here each
// once and in order, since no contract can say what is read or written, nor that a file has ended (behind its last line `script_read::end` is asked);
// and the reason on standard error, which is no part of the trail.
#![tactic(auto)]

mod lines;
mod told;

use control::CONTROL_LENGTH;
use session::{REALS_LENGTH, TEXTS_LENGTH, WORDS_LENGTH};
use std::io;
use std::io::{Read, Write};

// As many records as a read may have, 65,535, of eight words and two reals each.
const RECORDS_LENGTH: usize = 524280;

const POINTS_LENGTH: usize = 131070;

// The memory of a session and of a read, which the calls of the library are lent. A read has 65,535 records, as many as it may have, and texts as
// long as a line may have them.
#[derive(Drop)]
struct Memory {
    control: [u64; CONTROL_LENGTH],
    words: [u64; WORDS_LENGTH],
    reals: [f32; REALS_LENGTH],
    texts: [u8; TEXTS_LENGTH],
    records: [u64; RECORDS_LENGTH],
    points: [f32; POINTS_LENGTH],
    lent: [u8; 32768],
}

// How a script ends. An `io::Error` has no `==`.
#[derive(Clone, Copy, Debug)]
pub enum End {
    // With its last line.
    Played,
    // With a line that is no call, or comes where no such call can be made: standard error has the reason.
    Wrong,
    // The file cannot be read, or the trail cannot be written, and why.
    Unread(io::Error),
    Unwritten(io::Error),
}

// Plays the script that is read, and writes its trail, and the reasons of errors beside it; with `explained` in words too.
pub fn play(
    from: &mut impl Read,
    to: &mut impl Write,
    reasons: &mut impl Write,
    explained: bool,
) -> End {
    // A line of 65,536 bytes and a newline.
    let mut buf = [0u8; 65537];
    let mut memory = Memory {
        control: [0; CONTROL_LENGTH],
        words: [0; WORDS_LENGTH],
        reals: [0.0; REALS_LENGTH],
        texts: [0; TEXTS_LENGTH],
        records: [0; RECORDS_LENGTH],
        points: [0.0; POINTS_LENGTH],
        lent: [0; 32768],
    };
    lines::read_all(from, to, reasons, explained, &mut buf, &mut memory)
}
