// A line of a read: one of its records, or none. And the texts of a read, which stand in its first line.
#![tactic(auto)]

ghost use Rattle.std.specs.Prelude.{◌≡◌};
ghost use Rattle.script_record.specs.Record.{part_first, record_of, Records, Lends};

use requests::eis::Request;
use script::{Args, Line, Part, Value};
use script_asked::Asked;
use script_run::Why;

// A line's record: a client's request, on the object of this id and version, with a part of the read's texts for its text.
#[derive(Clone, Copy, Debug, PartialEq)]
pub struct Record {
    pub object: u64,
    pub version: u32,
    pub request: Request,
    pub part: Part,
}

// A part stands first or second; a request without text has the empty one.
fn part_of(args: Args) -> Part
    ensures { result ≡ part_first args }
{
    match args.a {
        Value::Part(part) => part,
        _ => script::part_of(args.b),
    }
}

// No line but a client's request is a record.
fn requested(asked: Asked, part: Part) -> Result<Option<Record>, Why>
    ensures { result ≡ record_of asked part }
{
    if let Asked::Client {
        object,
        version,
        request,
    } = asked
    {
        return Ok(Some(Record {
            object,
            version,
            request,
            part,
        }));
    }
    Err(Why::NoRecord)
}

// The record of a line of a read: none where the line is empty, or a comment. One that is refused ends the trail, and so does one whose first bytes
// are gone (`cut`).
pub fn record_in(line: &[u8], cut: bool) -> Result<Option<Record>, Why>
    ensures { Records line.now cut result }
{
    if cut {
        return Err(Why::Long);
    }
    match script::parse(line, true) {
        Line::Blank => Ok(None),
        Line::Setting { verb, args } => requested(script_asked::of_line(verb, args), part_of(args)),
        Line::Call { verb, args } => requested(script_asked::of_line(verb, args), part_of(args)),
        Line::NoCall => Err(Why::NoRecord),
    }
}

// Puts the text of a call at the start of `lent`, as much as has room, and answers how many bytes that is.
pub fn lend_text(line: &[u8], lent: &mut [u8]) -> usize
    ensures { Lends line.now lent.old lent.new result }
{
    match script::parse(line, false) {
        Line::Call { args, .. } => script::text_into(line, script_run::text_of(args), lent),
        _ => 0,
    }
}
