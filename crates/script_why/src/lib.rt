// Why a line ends the trail, on standard error. What is written there is no part of the trail, and nothing is promised of it.
#![tactic(auto)]

ghost use Rattle.std.specs.Prelude.{◌≤◌, ◌<◌, length};

use script::Kind;
use script_run::Why;
use std::io;
use std::io::Write;

fn put(to: &mut impl Write, words: &[u8]) -> io::Result<()> {
    to.write_all(words)
}

// How many bytes stand before the first space.
fn space(text: &[u8]) -> usize
    ensures { result ≤ length text.now }
{
    text.iter().position(|&b| b == b' ').unwrap_or(text.len())
}

fn letter(b: u8) -> u8 {
    if (0x20..=0x7e).contains(&b) { b } else { b'?' }
}

// A word, its first 64 bytes; a byte that is no letter as `?`.
fn say_word(to: &mut impl Write, word: &[u8]) -> io::Result<()> {
    for &b in word.iter().take(64) {
        put(to, &[letter(b)])?;
    }
    Ok(())
}

fn say_kind(to: &mut impl Write, kind: Kind) -> io::Result<()> {
    match kind {
        Kind::U64 => put(to, b" is no number of 64 bits"),
        Kind::U32 => put(to, b" is no number of 32 bits"),
        Kind::I32 => put(to, b" is no number of 32 bits with a sign"),
        Kind::F32 => put(to, b" is no f32"),
        Kind::Text => put(to, b" is no text"),
        Kind::OptionalText => put(to, b" is neither a text nor none"),
        Kind::State => put(to, b" is no press state"),
        Kind::TypeNumber => put(to, b" is no type"),
        Kind::Reason => put(to, b" is no reason"),
        Kind::Capability => put(to, b" is no capability"),
        Kind::Count => put(to, b" is no number below 65,536"),
        Kind::Part => put(to, b" is no part (p:START:LENGTH)"),
        Kind::Interface => put(to, b" is no number below 256"),
    }
}

// The word behind the space that `rest` begins with: what stands behind it, or none where the reason has been said.
fn word<'a>(to: &mut impl Write, rest: &'a [u8], kind: Kind) -> io::Result<Option<&'a [u8]>> {
    let [_, word @ ..] = rest else {
        put(to, b"a word is missing")?;
        return Ok(None);
    };
    let end = space(word);
    if end == 0 {
        put(to, b"an empty word")?;
        return Ok(None);
    }
    if script::read(word, 0, end, kind).is_none() {
        say_word(to, &word[..end])?;
        say_kind(to, kind)?;
        return Ok(None);
    }
    Ok(Some(&word[end..]))
}

// The words behind the first, for the row of that; `within` a read or outside of one.
fn words(to: &mut impl Write, behind: &[u8], i: usize, within: bool) -> io::Result<()>
    requires { i < 59 }
{
    let mut rest = behind;
    for place in 0..4 {
        let Some(kind) = script::kind_at(i, place, within) else {
            break;
        };
        let Some(next) = word(to, rest, kind)? else {
            return Ok(());
        };
        rest = next;
    }
    put(to, b"a word too many")
}

fn no_call(to: &mut impl Write, line: &[u8]) -> io::Result<()> {
    let (first, behind) = line.split_at(space(line));
    match script::find(first) {
        Some(i) => words(to, behind, i, false),
        None => put(to, b"unknown call"),
    }
}

fn no_record(to: &mut impl Write, line: &[u8]) -> io::Result<()> {
    let (first, behind) = line.split_at(space(line));
    match script::find(first) {
        Some(i) if (script::FIRST_REQUEST..=script::LAST_REQUEST).contains(&i) => {
            words(to, behind, i, true)
        }
        Some(_) => put(to, b"only a client's requests stand in a read"),
        None => put(to, b"unknown call"),
    }
}

fn reason(to: &mut impl Write, why: Why, line: &[u8]) -> io::Result<()> {
    match why {
        Why::Long => put(to, b"longer than 65,536 bytes"),
        Why::NoCall => no_call(to, line),
        Why::NoRecord => no_record(to, line),
        Why::Many => put(to, b"more records than there is room for"),
        Why::Within => put(to, b"the script ends inside a read"),
        Why::Early => put(
            to,
            b"it comes before `start`, or before the session that it needs",
        ),
    }
}

// `line N: ` and the reason.
pub fn say(to: &mut impl Write, number: u64, why: Why, line: &[u8]) -> io::Result<()> {
    write!(to, "line {number}: ")?;
    reason(to, why, line)?;
    put(to, b"\n")
}
