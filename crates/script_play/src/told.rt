// What a trail has of a line, on standard output; explained, the line itself stands before it.
use script_run::{Told, Took};
use std::io;
use std::io::Write;

fn is_quiet(told: Told) -> bool {
    matches!(told, Told::Nothing)
}

// The first n bytes; an error where there are fewer.
fn put(to: &mut impl Write, bytes: &[u8], n: usize) -> io::Result<()> {
    if n <= bytes.len() {
        return to.write_all(&bytes[..n]);
    }
    Err(io::Error::from(io::ErrorKind::WriteZero))
}

// No answer is so long: a call writes at most 4,096 bytes of records.
fn show(to: &mut impl Write, took: Took, out: &[u8], explained: bool) -> io::Result<()> {
    let mut shown = [0u8; 65536];
    let n = script_trail::written(took, out, explained, &mut shown);
    put(to, &shown, n)
}

// A byte of a line is at most four in letters. A call by itself: inlined, its array would lie on the stack, a quarter of a mebibyte, where no line is
// shown, too.
#[inline(never)]
fn show_call(to: &mut impl Write, line: &[u8]) -> io::Result<()> {
    let mut shown = [0u8; 262147];
    let n = script_show::call_line(&mut shown, line);
    put(to, &shown, n)
}

// Behind the last line there is no line to show.
pub fn tell_end(
    to: &mut impl Write,
    reasons: &mut impl Write,
    took: Took,
    explained: bool,
) -> io::Result<()> {
    if is_quiet(took.told) {
        return Ok(());
    }
    show(to, took, b"", explained)?;
    if let Told::Error(why) = took.told {
        let _ = script_why::say(reasons, took.run.line, why, b"");
    }
    Ok(())
}

// Writes what there is to tell, and the reason of an error on standard error; that this is written is not asked for.
pub fn tell(
    to: &mut impl Write,
    reasons: &mut impl Write,
    took: Took,
    line: &[u8],
    out: &[u8],
    explained: bool,
) -> io::Result<()> {
    if is_quiet(took.told) {
        return Ok(());
    }
    if explained {
        show_call(to, line)?;
    }
    show(to, took, out, explained)?;
    if let Told::Error(why) = took.told {
        let _ = script_why::say(reasons, took.run.line, why, line);
    }
    Ok(())
}
