// A file in pieces, line by line. A line of more than 65,536 bytes is no call.
ghost use Rattle.std.specs.Prelude.{◌≤◌, ◌<◌, ◌≡◌, length, IfOk, IfSome};
ghost use Rattle.script_read.specs.Read.{Fits};

use crate::{End, Memory, told};
use script::LineEnd;
use script_read::Reading;
use script_run::Run;
use std::io;
use std::io::{Read, Write};

// What a reading says of the input: three answers, and none of them is an absence or a refusal of the others.
#[derive(Clone, Copy, Debug)]
enum Input {
    Open,
    Ended,
    Failed(io::Error),
}

// How much of the buffer is filled, and what the reading says of the input.
#[derive(Clone, Copy, Debug)]
struct Filled {
    filled: usize,
    input: Input,
}

// What the lines have come to, and the read that is open. No derived `==`: it holds a run, and that a handshake's name; so do `Kept` and `Turn`.
#[derive(Clone, Copy)]
struct Play {
    run: Run,
    reading: Reading,
}

// How much of the buffer is filled with a line that has not ended, whether its first bytes are gone, and what the lines before it have come to.
#[derive(Clone, Copy)]
struct Kept {
    filled: usize,
    cut: bool,
    play: Play,
}

// What one reading has come to.
#[derive(Clone, Copy)]
struct Turn {
    kept: Kept,
    input: Input,
}

// Reads once, behind what is filled.
fn fill(from: &mut impl Read, buf: &mut [u8], filled: usize) -> Filled
    requires { filled ≤ length buf.old }
    ensures { result.filled ≤ length buf.new }
{
    match from.read(&mut buf[filled..]) {
        Ok(0) => Filled {
            filled,
            input: Input::Ended,
        },
        Ok(got) => Filled {
            filled: filled + got,
            input: Input::Open,
        },
        Err(e) => Filled {
            filled,
            input: Input::Failed(e),
        },
    }
}

// Where the first line ends, and where the next begins; none where it has not ended. The last line of the input needs no newline, and a carriage
// return at its end is no part of it, as before a newline.
fn end_of(text: &[u8], last: bool) -> Option<LineEnd>
    ensures { IfSome result (λ e. (e.end ≤ length text.now) × ((0 < e.next) × (e.next ≤ length text.now))) }
{
    let ended = script::line_end(text, 0, text.len());
    if ended.is_some() || text.is_empty() || !last {
        return ended;
    }
    let bare = text.strip_suffix(b"\r").unwrap_or(text);
    Some(LineEnd {
        end: bare.len(),
        next: text.len(),
    })
}

// Carries a line out and tells it. Once the trail cannot be written, no line is: the error has ended the run.
fn play_line(
    to: &mut impl Write,
    reasons: &mut impl Write,
    play: Play,
    memory: &mut Memory,
    line: &[u8],
    cut: bool,
    explained: bool,
) -> io::Result<Play>
    requires { Fits play.reading memory.old.records memory.old.points memory.old.lent }
    ensures { IfOk result (λ p. Fits p.reading memory.new.records memory.new.points memory.new.lent) }
{
    let mut out = [0u8; 4096];
    let taken = script_read::take(
        play.run,
        play.reading,
        &mut memory.control,
        &mut memory.words,
        &mut memory.reals,
        &mut memory.texts,
        &mut memory.records,
        &mut memory.points,
        &mut memory.lent,
        line,
        cut,
        &mut out,
    );
    told::tell(to, reasons, taken.took, line, &out, explained)?;
    Ok(Play {
        run: taken.took.run,
        reading: taken.reading,
    })
}

// Goes through the lines that end in the text.
fn take_lines(
    to: &mut impl Write,
    reasons: &mut impl Write,
    explained: bool,
    text: &[u8],
    last: bool,
    kept: Kept,
    memory: &mut Memory,
) -> io::Result<Kept>
    requires { Fits kept.play.reading memory.old.records memory.old.points memory.old.lent }
    ensures { IfOk result (λ k. (k.filled ≤ length text.now) × Fits k.play.reading memory.new.records memory.new.points memory.new.lent) }
{
    let mut rest = text;
    let mut cut = kept.cut;
    let mut play = kept.play;
    while let Some(LineEnd { end, next }) = end_of(rest, last) {
        play = play_line(to, reasons, play, memory, &rest[..end], cut, explained)?;
        cut = false;
        rest = &rest[next..];
    }
    Ok(Kept {
        filled: rest.len(),
        cut,
        play,
    })
}

// Makes room behind the line that has not ended. One that fills the buffer is dropped, and what follows of it.
fn make_room(buf: &mut [u8], filled: usize, kept: Kept) -> Kept
    requires { (kept.filled ≤ filled) × (filled ≤ length buf.old) }
    ensures { (result.filled ≤ length buf.new) × (result.play ≡ kept.play) }
{
    buf.copy_within(filled - kept.filled..filled, 0);
    if kept.filled == buf.len() {
        return Kept {
            filled: 0,
            cut: true,
            ..kept
        };
    }
    kept
}

// Reads once and takes the lines that have ended.
fn read_some(
    from: &mut impl Read,
    to: &mut impl Write,
    reasons: &mut impl Write,
    explained: bool,
    buf: &mut [u8],
    kept: Kept,
    memory: &mut Memory,
) -> io::Result<Turn>
    requires { (kept.filled ≤ length buf.old) × Fits kept.play.reading memory.old.records memory.old.points memory.old.lent }
    ensures { IfOk result (λ t. (t.kept.filled ≤ length buf.new) × Fits t.kept.play.reading memory.new.records memory.new.points memory.new.lent) }
{
    let Filled { filled, input } = fill(from, buf, kept.filled);
    let last = matches!(input, Input::Ended);
    let begun = take_lines(to, reasons, explained, &buf[..filled], last, kept, memory)?;
    Ok(Turn {
        kept: make_room(buf, filled, begun),
        input,
    })
}

// Behind the last line: a read that is still open ends the trail.
fn close(to: &mut impl Write, reasons: &mut impl Write, play: Play, explained: bool) -> End {
    let took = script_read::end(play.run, play.reading);
    match told::tell_end(to, reasons, took, explained) {
        Ok(()) if took.run.ended => End::Wrong,
        Ok(()) => End::Played,
        Err(e) => End::Unwritten(e),
    }
}

// A proved loop has to end, and nothing says that the input does. So the loop counts its turns, up to a number that no run reaches.
pub fn read_all(
    from: &mut impl Read,
    to: &mut impl Write,
    reasons: &mut impl Write,
    explained: bool,
    buf: &mut [u8],
    memory: &mut Memory,
) -> End {
    let mut kept = Kept {
        filled: 0,
        cut: false,
        play: Play {
            run: script_run::new_run(),
            reading: script_read::none(),
        },
    };
    for _ in 0..u64::MAX {
        let turn = match read_some(from, to, reasons, explained, buf, kept, memory) {
            Ok(turn) => turn,
            Err(e) => return End::Unwritten(e),
        };
        kept = turn.kept;
        if kept.play.run.ended {
            return End::Wrong;
        }
        match turn.input {
            Input::Open => {}
            Input::Ended => return close(to, reasons, kept.play, explained),
            Input::Failed(e) => return End::Unread(e),
        }
    }
    End::Played
}
