// Lines: where one ends, and what it is. Its words are read at places of the whole line, since a text is told by where it stands there (`Stepped` of
// script/specs).
ghost use Rattle.std.specs.Prelude.{◌≤◌, ◌<◌, ◌≡◌, length};
ghost use Rattle.script.specs.Script.{is_blank};
ghost use Rattle.script.specs.Told.{Stepped, Given, Parsed};
ghost use Rattle.script.specs.Split.{line_end};

use crate::value::Value;
use crate::verb::{Kind, Verb};
use crate::{value, verb, word};

// What the words behind the first stand for, in their order.
#[derive(Clone, Copy, Debug, PartialEq)]
pub struct Args {
    pub a: Value,
    pub b: Value,
    pub c: Value,
    pub d: Value,
}

#[derive(Clone, Copy, Debug, PartialEq)]
pub enum Line {
    // An empty line, or a comment.
    Blank,
    Setting { verb: Verb, args: Args },
    Call { verb: Verb, args: Args },
    NoCall,
}

fn is_blank(line: &[u8]) -> bool
    ensures { result ≡ is_blank line.now }
{
    line.is_empty() || line[0] == b'#'
}

// What stands behind a word that ends at a place, read as a kind, if one is asked for, and where that ends.
fn read_slot(line: &[u8], at: usize, slot: Option<Kind>) -> Option<(Value, usize)>
    requires { at ≤ length line.now }
    ensures { Stepped line.now at slot result }
{
    let Some(kind) = slot else {
        return Some((Value::Nothing, at));
    };
    if line.len() <= at {
        return None;
    }
    let end = word::find_byte(line, at + 1, b' ');
    let value = value::read(line, at + 1, end, kind)?;
    Some((value, end))
}

// The words behind the first, which ends at a place, for the row of that.
fn read_args(line: &[u8], at: usize, i: usize, within: bool) -> Option<Args>
    requires { (at ≤ length line.now) × (i < 59) }
    ensures { Given line.now at i within result }
{
    let (a, p) = read_slot(line, at, verb::kind_at(i, 0, within))?;
    let (b, q) = read_slot(line, p, verb::kind_at(i, 1, within))?;
    let (c, r) = read_slot(line, q, verb::kind_at(i, 2, within))?;
    let (d, s) = read_slot(line, r, verb::kind_at(i, 3, within))?;
    if s < line.len() {
        return None;
    }
    Some(Args { a, b, c, d })
}

// What a line is, without its end; `within` a read it may be one of the read's records, which has a part for a text.
pub fn parse(line: &[u8], within: bool) -> Line
    ensures { Parsed within line.now result }
{
    if is_blank(line) {
        return Line::Blank;
    }
    let end = word::find_byte(line, 0, b' ');
    let Some(i) = verb::find(&line[..end]) else {
        return Line::NoCall;
    };
    let Some(args) = read_args(line, end, i, within) else {
        return Line::NoCall;
    };
    let verb = verb::verb_at(i);
    if i < verb::SETTINGS {
        Line::Setting { verb, args }
    } else {
        Line::Call { verb, args }
    }
}

// Where a line ends, and where the next begins.
#[derive(Clone, Copy, Debug, PartialEq, Eq)]
pub struct LineEnd {
    pub end: usize,
    pub next: usize,
}

// The end of the line that begins at `from`, where the buffer is filled up to `to`; none where the line goes on.
pub fn line_end(buf: &[u8], from: usize, to: usize) -> Option<LineEnd>
    ensures { result ≡ line_end buf.now from to }
{
    let stop = to.min(buf.len());
    if stop <= from {
        return None;
    }
    let newline = word::find_byte(&buf[..stop], from, b'\n');
    if newline == stop {
        return None;
    }
    let next = newline + 1;
    if from < newline && buf[newline - 1] == b'\r' {
        return Some(LineEnd {
            end: newline - 1,
            next,
        });
    }
    Some(LineEnd { end: newline, next })
}
