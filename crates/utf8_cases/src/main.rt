// Reads lines of bytes in hexadecimal, and writes each again with the answer whether they are
// UTF-8. A line that begins with `#` is a comment, and is written as it is.
#![tactic(auto)]

ghost use Rattle.std.specs.Prelude.{◌≡◌, ◌≤◌, length, IfOk, IfSome};
ghost use Rattle.utf8_cases.specs.Answers.{Read, is_comment, answer_to};

use std::io;
use std::io::{Read, Write};

#[derive(Clone, Copy, Debug, PartialEq, Eq)]
enum Verdict {
    Comment,
    // The line has more than 1,024 characters.
    TooLong,
    NotHexadecimal,
    Valid,
    NotValid,
}

// Puts the bytes that the line stands for at the start of text, and answers how many they are. None: it is not in hexadecimal.
fn bytes_of(line: &[u8], text: &mut [u8]) -> Option<usize>
    requires { length line.now ≤ length text.old }
    ensures { Read line.now text.new result }
{
    let mut n: usize = 0;
    // By hand: a step takes one character or two.
    let mut i: usize = 0;
    while i < line.len() {
        if line[i] == b' ' {
            i += 1;
        } else {
            if line.len() - i < 2 {
                return None;
            }
            let high = script::value_of(line[i]);
            let low = script::value_of(line[i + 1]);
            if 15 < high {
                return None;
            }
            if 15 < low {
                return None;
            }
            text[n] = high * 16 + low;
            n += 1;
            i += 2;
        }
    }
    Some(n)
}

fn is_comment(line: &[u8]) -> bool
    ensures { result ≡ is_comment line.now }
{
    line.first() == Some(&b'#')
}

fn answer_to(line: &[u8]) -> Verdict
    ensures { result ≡ answer_to line.now }
{
    if is_comment(line) {
        return Verdict::Comment;
    }
    if 1024 < line.len() {
        return Verdict::TooLong;
    }
    let mut text = [0u8; 1024];
    let Some(n) = bytes_of(line, &mut text) else {
        return Verdict::NotHexadecimal;
    };
    if utf8::valid(&text[..n]) {
        Verdict::Valid
    } else {
        Verdict::NotValid
    }
}

// Writes the end of a line.
fn say(to: &mut impl Write, a: Verdict) -> io::Result<()> {
    to.write_all(match a {
        Verdict::Comment => b"\n",
        Verdict::TooLong => b": too long\n",
        Verdict::NotHexadecimal => b": not hexadecimal\n",
        Verdict::Valid => b": valid\n",
        Verdict::NotValid => b": not valid\n",
    })
}

// Ends a line that was written, whose first n characters are in `line`.
fn end_line(to: &mut impl Write, line: &[u8], n: usize) -> io::Result<()>
    requires { n ≤ length line.now }
{
    say(to, answer_to(&line[..n]))
}

// Goes through a piece of input, where a line is begun whose first n characters are in `line`:
// writes it again, with the answer at the end of each line. Answers how many characters of the line
// that is begun then are in `line`, which takes no more than it has room for.
fn lines(to: &mut impl Write, piece: &[u8], line: &mut [u8], n: usize) -> io::Result<usize>
    requires { n ≤ length line.old }
    ensures { IfOk result (λ begun. begun ≤ length line.new) }
{
    let mut begun = n;
    let mut from = 0;
    for (at, c) in piece.iter().enumerate() {
        if *c == b'\n' {
            to.write_all(&piece[from..at])?;
            end_line(to, line, begun)?;
            begun = 0;
            from = at + 1;
        } else if begun < line.len() {
            line[begun] = *c;
            begun += 1;
        }
    }
    to.write_all(&piece[from..])?;
    Ok(begun)
}

// One read: how much of a line is begun behind it. None: there was nothing more to read.
fn read_some(
    from: &mut impl Read,
    to: &mut impl Write,
    line: &mut [u8],
    n: usize,
) -> io::Result<Option<usize>>
    requires { n ≤ length line.old }
    ensures { IfOk result (λ read. IfSome read (λ begun. begun ≤ length line.new)) }
{
    let mut piece = [0u8; 4096];
    let got = from.read(&mut piece)?;
    if got == 0 {
        // A last line that no newline ends.
        if 0 < n {
            end_line(to, line, n)?;
        }
        return Ok(None);
    }
    let begun = lines(to, &piece[..got], line, n)?;
    Ok(Some(begun))
}

// A proved loop has to end, and nothing says that the input does. So the loop counts its turns,
// up to a number that no run reaches.
fn read_all(from: &mut impl Read, to: &mut impl Write, line: &mut [u8]) -> io::Result<()> {
    let mut n = 0;
    for _ in 0..u64::MAX {
        let Some(begun) = read_some(from, to, line, n)? else {
            break;
        };
        n = begun;
    }
    Ok(())
}

fn main(rt: HostRuntime) -> io::Result<()> {
    let mut out = io::writer(&rt);
    // One character more than a line may have tells that it is too long.
    let mut line = [0u8; 1025];
    read_all(&mut rt.stdin(), &mut out, &mut line)?;
    out.flush()
}
