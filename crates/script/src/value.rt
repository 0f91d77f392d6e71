// What the words behind the first stand for. A word is handed over with its line, `from` and `end`, since a text is told by where it stands there
// (`value_told` of script/specs).
ghost use Rattle.std.specs.Prelude.{ℕ, ◌<◌, ◌≤◌, ◌^◌, ◌≡◌, List, length};
ghost use Rattle.script.specs.Number.{within, fits64};
ghost use Rattle.script.specs.Script.{number64, number32, unsigned_of, one_of_seven, signed_of, float_of, text_of, part_of, read_as};
ghost use Rattle.script.specs.Told.{word_told, one, part, u64_of, u32_of, i32_of, f32_of, text_in, part_in};

use crate::text::{Part, Text};
use crate::verb::Kind;
use crate::{text, word};

#[derive(Clone, Copy, Debug, PartialEq)]
pub enum Value {
    // There is no such word.
    Nothing,
    U64(u64),
    U32(u32),
    I32(i32),
    F32(f32),
    Text(Text),
    // `none`.
    NoText,
    Part(Part),
}

#[tactic(auto, unfolding(crate::specs::Told::value_told))]
fn unsigned64(word: &[u8]) -> Option<Value>
    ensures { (l : List ℕ) → word_told l result ≡ one (unsigned_of number64 fits64 word.now) }
{
    let n = word::number(word)?;
    Some(Value::U64(n))
}

#[tactic(auto, unfolding(crate::specs::Told::value_told))]
fn unsigned32(word: &[u8], least: u64, most: u64) -> Option<Value>
    requires { most < 2 ^ 32 }
    ensures { (l : List ℕ) → word_told l result ≡ one (unsigned_of number32 (within least most) word.now) }
{
    let n = word::number(word)?;
    if n < least || most < n {
        return None;
    }
    Some(Value::U32(n as u32))
}

#[tactic(auto, unfolding(crate::specs::Told::value_told))]
fn capability(word: &[u8]) -> Option<Value>
    ensures { (l : List ℕ) → word_told l result ≡ one (unsigned_of number64 one_of_seven word.now) }
{
    let n = word::number(word)?;
    match n {
        1 | 2 | 4 | 8 | 16 | 32 | 64 => Some(Value::U64(n)),
        _ => None,
    }
}

fn signed(word: &[u8]) -> Option<Value>
    ensures { (l : List ℕ) → word_told l result ≡ one (signed_of word.now) }
{
    if word.starts_with(b"-") {
        let n = word::digits(&word[1..], 10)?;
        if 0x80000000 < n {
            return None;
        }
        Some(Value::I32(word::negative(n)))
    } else {
        let n = word::number(word)?;
        if 0x7fffffff < n {
            return None;
        }
        Some(Value::I32(n as i32))
    }
}

fn float(word: &[u8]) -> Option<Value>
    ensures { (l : List ℕ) → word_told l result ≡ one (float_of word.now) }
{
    if word == b"nan".as_slice() {
        return Some(Value::F32(f32::NAN));
    }
    if !word.starts_with(b"0x") {
        return None;
    }
    let n = word::number(word)?;
    if 0xffffffff < n {
        return None;
    }
    Some(Value::F32(word::of_bits(n as u32)))
}

// The text in a part of a line.
fn text_in(line: &[u8], from: usize, end: usize) -> Option<Value>
    requires { (from ≤ end) × (end ≤ length line.now) }
    ensures { word_told line.now result ≡ one (text_of (part from end line.now)) }
{
    if !text::is_text(&line[from..end]) {
        return None;
    }
    Some(Value::Text(Text {
        start: from + 2,
        bytes: (end - from - 2) / 2,
    }))
}

fn optional_text(line: &[u8], from: usize, end: usize) -> Option<Value>
    requires { (from ≤ end) × (end ≤ length line.now) }
    ensures { word_told line.now result ≡ one (read_as Kind.OptionalText (part from end line.now)) }
{
    if &line[from..end] == b"none".as_slice() {
        return Some(Value::NoText);
    }
    text_in(line, from, end)
}

// `p:`, a number, a colon and a number.
fn part_of_texts(word: &[u8]) -> Option<Value>
    ensures { (l : List ℕ) → word_told l result ≡ one (part_of word.now) }
{
    if !word.starts_with(b"p:") {
        return None;
    }
    let colon = word::find_byte(word, 2, b':');
    if word.len() <= colon {
        return None;
    }
    let start = word::number(&word[2..colon])?;
    let length = word::number(&word[colon + 1..])?;
    Some(Value::Part(Part { start, length }))
}

// The part of a line, read as a kind; none where it cannot be.
pub fn read(line: &[u8], from: usize, end: usize, kind: Kind) -> Option<Value>
    requires { (from ≤ end) × (end ≤ length line.now) }
    ensures { word_told line.now result ≡ one (read_as kind (part from end line.now)) }
{
    match kind {
        Kind::U64 => unsigned64(&line[from..end]),
        Kind::U32 => unsigned32(&line[from..end], 0, 4294967295),
        Kind::I32 => signed(&line[from..end]),
        Kind::F32 => float(&line[from..end]),
        Kind::Text => text_in(line, from, end),
        Kind::OptionalText => optional_text(line, from, end),
        Kind::State => unsigned32(&line[from..end], 0, 1),
        Kind::TypeNumber => unsigned32(&line[from..end], 1, 2),
        Kind::Reason => unsigned32(&line[from..end], 0, 5),
        Kind::Capability => capability(&line[from..end]),
        Kind::Count => unsigned32(&line[from..end], 0, 65535),
        Kind::Part => part_of_texts(&line[from..end]),
        Kind::Interface => unsigned32(&line[from..end], 0, 255),
    }
}

// The number of a value, of either width; 0 where it is none.
pub fn u64_of(v: Value) -> u64
    ensures { result ≡ u64_of v }
{
    match v {
        Value::U64(n) => n,
        Value::U32(n) => u64::from(n),
        _ => 0,
    }
}

// The number of a value of 32 bits; 0 where it is none.
pub fn u32_of(v: Value) -> u32
    ensures { result ≡ u32_of v }
{
    match v {
        Value::U32(n) => n,
        _ => 0,
    }
}

// The signed number of a value; 0 where it is none.
pub fn i32_of(v: Value) -> i32
    ensures { result ≡ i32_of v }
{
    match v {
        Value::I32(z) => z,
        _ => 0,
    }
}

// The float of a value; the NaN where it is none.
pub fn f32_of(v: Value) -> f32
    ensures { result ≡ f32_of v }
{
    match v {
        Value::F32(x) => x,
        _ => f32::NAN,
    }
}

// The text of a value; an empty one where it is none.
pub fn text_of(v: Value) -> Text
    ensures { result ≡ text_in v }
{
    match v {
        Value::Text(t) => t,
        _ => Text { start: 0, bytes: 0 },
    }
}

// The part of a value; an empty one where it is none.
pub fn part_of(v: Value) -> Part
    ensures { result ≡ part_in v }
{
    match v {
        Value::Part(p) => p,
        _ => Part {
            start: 0,
            length: 0,
        },
    }
}
