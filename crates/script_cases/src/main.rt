// Reads the lines of a call script, and writes for each its number and what it is. A line of more than 65,536 bytes is no call.
#![tactic(auto)]

ghost use Rattle.std.specs.Prelude.{◌≤◌, length, IfOk, IfSome};

use script::{Line, LineEnd};
use std::io;
use std::io::{Read, Write};

fn text(to: &mut impl Write, s: &[u8]) -> io::Result<()> {
    to.write_all(s)
}

// The end of the first word.
fn word_end(line: &[u8]) -> usize
    ensures { result ≤ length line.now }
{
    line.iter().position(|&b| b == b' ').unwrap_or(line.len())
}

fn verb(to: &mut impl Write, line: &[u8]) -> io::Result<()> {
    let end = word_end(line);
    text(to, &line[..end])
}

fn answer(to: &mut impl Write, line: &[u8]) -> io::Result<()> {
    match script::parse(line, false) {
        Line::Blank => text(to, b" blank\n"),
        Line::Setting { .. } => text(to, b" setting\n"),
        Line::Call { .. } => {
            text(to, b" call ")?;
            verb(to, line)?;
            text(to, b"\n")
        }
        Line::NoCall => text(to, b" no call\n"),
    }
}

// `cut` says that the line had more bytes than the buffer.
fn say(to: &mut impl Write, number: u64, line: &[u8], cut: bool) -> io::Result<()> {
    write!(to, "{number}")?;
    if cut || 65536 < line.len() {
        return text(to, b" no call\n");
    }
    answer(to, line)
}

// How much of the buffer is filled with a line that has not ended, its number, and whether its first bytes are gone.
#[derive(Clone, Copy, Debug, PartialEq, Eq)]
struct Kept {
    filled: usize,
    number: u64,
    cut: bool,
}

// Goes through the lines that end in the text, and answers what is left of it.
fn lines(to: &mut impl Write, text: &[u8], kept: Kept) -> io::Result<Kept>
    ensures { IfOk result (λ k. k.filled ≤ length text.now) }
{
    let mut rest = text;
    let mut number = kept.number;
    let mut cut = kept.cut;
    while let Some(LineEnd { end, next }) = script::line_end(rest, 0, rest.len()) {
        say(to, number, &rest[..end], cut)?;
        number = number.wrapping_add(1);
        cut = false;
        rest = &rest[next..];
    }
    Ok(Kept {
        filled: rest.len(),
        number,
        cut,
    })
}

// Takes the lines that end, and makes room. A line that fills the buffer is dropped, and what follows of it.
fn take_lines(to: &mut impl Write, buf: &mut [u8], filled: usize, kept: Kept) -> io::Result<Kept>
    requires { filled ≤ length buf.old }
    ensures { IfOk result (λ k. k.filled ≤ length buf.new) }
{
    let begun = lines(to, &buf[..filled], kept)?;
    buf.copy_within(filled - begun.filled..filled, 0);
    if begun.filled == buf.len() {
        return Ok(Kept {
            filled: 0,
            cut: true,
            ..begun
        });
    }
    Ok(begun)
}

// A last line that no newline ends.
fn finish(to: &mut impl Write, line: &[u8], kept: Kept) -> io::Result<()> {
    if kept.cut || !line.is_empty() {
        say(to, kept.number, line, kept.cut)?;
    }
    Ok(())
}

// None where there is no more to read.
fn read_some(
    from: &mut impl Read,
    to: &mut impl Write,
    buf: &mut [u8],
    kept: Kept,
) -> io::Result<Option<Kept>>
    requires { kept.filled ≤ length buf.old }
    ensures { IfOk result (λ read. IfSome read (λ k. k.filled ≤ length buf.new)) }
{
    let got = from.read(&mut buf[kept.filled..])?;
    if got == 0 {
        finish(to, &buf[..kept.filled], kept)?;
        return Ok(None);
    }
    let next = take_lines(to, buf, kept.filled + got, kept)?;
    Ok(Some(next))
}

// A proved loop has to end, and nothing says that the input does. So the loop counts its turns, up to a number that no run reaches.
fn read_all(from: &mut impl Read, to: &mut impl Write, buf: &mut [u8]) -> io::Result<()> {
    let mut kept = Kept {
        filled: 0,
        number: 1,
        cut: false,
    };
    for _ in 0..u64::MAX {
        let Some(next) = read_some(from, to, buf, kept)? else {
            break;
        };
        kept = next;
    }
    Ok(())
}

fn main(rt: HostRuntime) -> io::Result<()> {
    let mut out = io::writer(&rt);
    // A line of 65,536 bytes, a carriage return and a newline.
    let mut buf = [0u8; 65538];
    read_all(&mut rt.stdin(), &mut out, &mut buf)?;
    out.flush()
}
