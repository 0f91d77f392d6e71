// Event records: in hexadecimal as a trail has them, and in words.
ghost use Rattle.std.specs.Prelude.{[], ◌≡◌, ◌+◌, ◌*◌, ◌%◌, ◌<◌, ◌≤◌, length, take, drop, MatchOption};
ghost use Rattle.std.specs.Iterator.{at_most};
ghost use Rattle.script_pattern.specs.Put.{Writes};
ghost use Rattle.script_show.specs.Records.{record_size, size_within, each_record, one, four, number_at, kind_of};
ghost use Rattle.script_show.specs.Records.{text_start, record_shown, object_shown, record_bytes, trail};
ghost use Rattle.script_pattern.specs.Pattern.{bytes_of};

use script_pattern::line::Line;
use script_pattern::table;
use script_pattern::table::Shown;

// How many bytes a record has: what its header says, or all where that is 0 or more.
fn size_within(said: usize, all: usize) -> usize
    ensures { result ≡ size_within said all }
{
    if said == 0 { all } else { said.min(all) }
}

// The 11 bits behind the kind.
fn length_field(high: u8, low: u8) -> usize
    ensures { result ≡ high % 8 * 256 + low }
{
    usize::from(high % 8) * 256 + usize::from(low)
}

fn record_size(bytes: &[u8]) -> usize
    ensures { result ≡ record_size bytes.now }
{
    if bytes.len() < 2 {
        return bytes.len();
    }
    size_within(length_field(bytes[0], bytes[1]), bytes.len())
}

// Records, one behind the other.
#[derive(Drop)]
struct Records<'a>(&'a [u8]);

impl<'a> Iterator for Records<'a> {
    type Item = &'a [u8];

    ghost next_gives = { λ s r t. MatchOption r
        ((length s.0.now ≡ 0) × (t.0.now ≡ s.0.now))
        (λ x. (x.now ≡ take (record_size s.0.now) s.0.now) × (t.0.now ≡ drop (record_size s.0.now) s.0.now) × (0 < length s.0.now)) };

    ghost remaining = { λ s. at_most (length s.0.now) };

    #[tactic(auto, using(crate::proofs::Sizes::size_bounds))]
    fn next(&mut self) -> Option<&'a [u8]> {
        if self.0.is_empty() {
            return None;
        }
        let (record, behind) = self.0.split_at(record_size(self.0));
        self.0 = behind;
        Some(record)
    }
}

// The byte of a record at a place; 0 past its end.
fn byte_at(event: &[u8], at: usize) -> u8
    ensures { result ≡ one at event.now }
{
    event.get(at).copied().unwrap_or(0)
}

// The number of the four bytes at a place.
fn four(event: &[u8], at: usize) -> u32
    requires { at ≤ 64 }
    ensures { result ≡ four at event.now }
{
    u32::from_be_bytes([
        byte_at(event, at),
        byte_at(event, at + 1),
        byte_at(event, at + 2),
        byte_at(event, at + 3),
    ])
}

// The number of so many bytes at a place.
fn number_at(event: &[u8], size: usize, at: usize) -> u64
    requires { at ≤ 32 }
    ensures { result ≡ number_at size at event.now }
{
    match size {
        1 => u64::from(byte_at(event, at)),
        4 => u64::from(four(event, at)),
        8 => u64::from(four(event, at)) * 4294967296 + u64::from(four(event, at + 4)),
        _ => 0,
    }
}

// The kind, in the upper five bits; 0 where there is no such kind.
fn kind_of(event: &[u8]) -> u8
    ensures { (result ≡ kind_of event.now) × (result < 19) }
{
    let kind = byte_at(event, 0) / 8;
    if kind < 19 { kind } else { 0 }
}

// Where the text of a record begins.
fn text_start(event: &[u8]) -> usize
    ensures { result ≡ text_start event.now }
{
    event_messages::fixed_size(event_messages::shape_of(kind_of(event)))
}

fn record_shown(event: &[u8]) -> Shown
    ensures { result ≡ record_shown event.now }
{
    let kind = kind_of(event);
    let shape = event_messages::shape_of(kind);
    let first = event_messages::width(shape.first);
    let second = event_messages::width(shape.second);
    let third = event_messages::width(shape.third);
    Shown {
        pattern: table::RECORD + usize::from(kind),
        a: number_at(event, first, 10),
        b: number_at(event, second, 10 + first),
        c: number_at(event, third, 10 + first + second),
        d: 0,
        e: 0,
    }
}

fn object_shown(event: &[u8]) -> Shown
    ensures { result ≡ object_shown event.now }
{
    table::single(table::LINE + 2, number_at(event, 8, 2))
}

// What is shown of a record, with its text.
fn text_shown(line: &mut Line, event: &[u8])
    ensures { Writes line.old line.new (bytes_of (record_shown event.now) (drop (text_start event.now) event.now)) }
{
    let start = text_start(event).min(event.len());
    table::show(line, record_shown(event), &event[start..])
}

// A record on a line of its own in words, or behind a space in hexadecimal.
fn tell(line: &mut Line, event: &[u8], words: bool)
    ensures { Writes line.old line.new (record_bytes words event.now) }
{
    if words {
        table::show(line, object_shown(event), b"");
        text_shown(line, event);
        line.byte(b'\n')
    } else {
        line.byte(b' ');
        line.hexadecimal(event)
    }
}

// Each record, one behind the other.
pub fn each(line: &mut Line, bytes: &[u8], words: bool)
    ensures { Writes line.old line.new (each_record (record_bytes words) bytes.now) }
{
    for event in Records(bytes) {
        tell(line, event, words);
    }
}

// ` |` and the records, if there are any.
pub fn trail(line: &mut Line, bytes: &[u8])
    ensures { Writes line.old line.new (trail bytes.now) }
{
    if !bytes.is_empty() {
        line.bytes(b" |");
        each(line, bytes, false)
    }
}
