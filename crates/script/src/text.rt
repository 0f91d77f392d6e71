// Texts in hexadecimal. A text may be as long as its line, so it is told by where its digits stand there.
ghost use Rattle.std.specs.Prelude.{◌≡◌, length, get_or};
ghost use Rattle.script.specs.Text.{pairs, is_text, text_bytes, Copied};

use crate::word;

// Where the first digit stands in the line, and how many bytes the digits are.
#[derive(Clone, Copy, Debug, PartialEq, Eq)]
pub struct Text {
    pub start: usize,
    pub bytes: usize,
}

// A part of a read's texts: where it begins there, and how many bytes it has.
#[derive(Clone, Copy, Debug, PartialEq, Eq)]
pub struct Part {
    pub start: u64,
    pub length: u64,
}

// Whether these are hexadecimal digits, two for each byte.
fn are_pairs(digits: &[u8]) -> bool
    ensures { result ≡ pairs digits.now }
{
    let (pairs, rest) = digits.as_chunks::<2>();
    rest.is_empty()
        && pairs.iter().all(|[high, low]| high.is_ascii_hexdigit() && low.is_ascii_hexdigit())
}

// Whether a word is `t:` and two digits for each byte.
pub fn is_text(word: &[u8]) -> bool
    ensures { result ≡ is_text word.now }
{
    word.starts_with(b"t:") && are_pairs(&word[2..])
}

// How many bytes the text has in this line. No method of `Text`, whose `bytes` says how many its digits are: those past the line's end are none.
pub fn text_len(line: &[u8], t: Text) -> usize
    ensures { result ≡ length (text_bytes line.now t) }
{
    let room = line.len().saturating_sub(t.start) / 2;
    room.min(t.bytes)
}

// The byte at a place of the text; 0 past its end.
pub fn text_byte(line: &[u8], t: Text, i: usize) -> u8
    ensures { result ≡ get_or (text_bytes line.now t) i 0 }
{
    if text_len(line, t) <= i {
        return 0;
    }
    let at = t.start + 2 * i;
    let next = at + 1;
    let high = word::value_of(line[at]) % 16;
    let low = word::value_of(line[next]) % 16;
    high * 16 + low
}

// Puts the text's bytes at the start of `out`, as many as have room, and answers how many.
pub fn text_into(line: &[u8], t: Text, out: &mut [u8]) -> usize
    ensures { Copied (text_bytes line.now t) out.old out.new result }
{
    let n = out.len().min(text_len(line, t));
    for i in 0..n {
        out[i] = text_byte(line, t, i);
    }
    n
}
