// The lines of a trail.
ghost use Rattle.std.specs.Prelude.{[], ◌∷◌, ◌++◌, ◌≡◌, true, cond, ◌≤◌, take};
ghost use Rattle.answers.specs.Answer.{error_of, outcome_of, count_of};
ghost use Rattle.model.specs.Plan.{Result};
ghost use Rattle.script_pattern.specs.Put.{Puts, Writes};
ghost use Rattle.script_pattern.specs.Pattern.{bytes_of};
ghost use Rattle.script_show.specs.Answer.{result_shown, handshake_outcome, behind_outcome, line_of, read_refusal, read_line};
ghost use Rattle.script_show.specs.Records.{each_record, record_bytes};
ghost use Rattle.script_show.specs.Answer.{answer_line, handshake_line, next_shown, next_length, next_line, error_line, call_line};

use crate::{records, request};
use answers::{Answer, Error, Outcome};
use handshake::handshake::{EisHandshakeResp, HandshakeAnswer, HandshakeError};
use requests::request::EisRequest;
use script_pattern::line::Line;
use script_pattern::table;
use script_pattern::table::Shown;

// A refusal by its number, or with its name too.
pub fn refusal(number: u32, explained: bool) -> Shown
    requires { number ≤ 26 }
    ensures { result ≡ result_shown explained (Result.refused number) }
{
    if explained {
        return table::single(table::REFUSAL + number as usize, number as u64);
    }
    table::single(table::REFUSAL, number as u64)
}

// 2 has the interface and the version behind it.
fn version_pattern(explained: bool) -> usize
    ensures { result ≡ cond explained 32 29 }
{
    if explained { 32 } else { 29 }
}

fn refused(e: Error, explained: bool) -> Shown
    ensures { result ≡ result_shown explained (error_of e) }
{
    if let Error::InvalidInterfaceVersion { interface, version } = e {
        return Shown {
            pattern: version_pattern(explained),
            a: 2,
            b: interface as u64,
            c: version as u64,
            d: 0,
            e: 0,
        };
    }
    refusal(e.number(), explained)
}

pub fn outcome(a: Result<Answer, Error>, explained: bool) -> Shown
    ensures { result ≡ result_shown explained (outcome_of a) }
{
    match a {
        Err(e) => refused(e, explained),
        Ok(a) => match a.outcome {
            Outcome::Accepted => table::single(table::OUTCOME, 0),
            Outcome::Seat(id) => table::single(table::OUTCOME + 1, id),
            Outcome::Device(id) => table::single(table::OUTCOME + 2, id),
            Outcome::Value(n) => table::single(table::OUTCOME + 3, u64::from(n)),
            Outcome::Truth(b) => table::single(table::OUTCOME + 4, u64::from(b)),
            Outcome::None => table::single(table::OUTCOME + 5, 0),
        },
    }
}

pub fn handshake_outcome(
    o: Result<Option<EisHandshakeResp>, HandshakeError>,
    explained: bool,
) -> Shown
    ensures { result ≡ handshake_outcome explained o }
{
    match o {
        Ok(_) => table::single(table::OUTCOME, 0),
        Err(e) => refusal(e.number(), explained),
    }
}

// So many of the first bytes, or all where there are fewer.
fn first(bytes: &[u8], count: usize) -> &[u8]
    ensures { result.now ≡ take count bytes.now }
{
    &bytes[..count.min(bytes.len())]
}

// What is shown, and the end of its line.
fn ended(line: &mut Line, s: Shown, text: &[u8])
    ensures { Writes line.old line.new (bytes_of s text.now ++ (0x0a ∷ [])) }
{
    table::show(line, s, text);
    line.byte(b'\n')
}

// The records that a call wrote, and the end of the line behind its outcome; explained, then a line for each record.
fn records_behind(line: &mut Line, records: &[u8], explained: bool)
    ensures { Writes line.old line.new (behind_outcome records.now explained) }
{
    records::trail(line, records);
    line.byte(b'\n');
    if explained {
        records::each(line, records, true)
    }
}

// The records that begin `out` in words, a line for each.
pub fn in_words(line: &mut Line, count: usize, out: &[u8])
    ensures { Writes line.old line.new (each_record (record_bytes true) (take count out.now)) }
{
    records::each(line, first(out, count), true)
}

// The outcome of a call, and what stands behind it.
pub fn whole(line: &mut [u8], s: Shown, count: usize, out: &[u8], explained: bool) -> usize
    ensures { Puts line 0 result (line_of s (take count out.now) explained) }
{
    let mut line = Line::new(line);
    table::show(&mut line, s, b"");
    records_behind(&mut line, first(out, count), explained);
    line.at
}

// What a call on a session is answered. Its records begin `out`. Explained, each stands in words on a line of its own behind it.
pub fn answer(line: &mut [u8], a: Result<Answer, Error>, out: &[u8], explained: bool) -> usize
    ensures { Puts line 0 result (answer_line a out.now explained) }
{
    whole(
        line,
        outcome(a, explained),
        answer_numbers::count(a),
        out,
        explained,
    )
}

// What a call of the handshake is answered.
pub fn handshake_answer(line: &mut [u8], a: HandshakeAnswer, out: &[u8], explained: bool) -> usize
    ensures { Puts line 0 result (handshake_line a out.now explained) }
{
    whole(
        line,
        handshake_outcome(a.outcome, explained),
        a.count,
        out,
        explained,
    )
}

// The refusal that ended a read, behind how many of its records were accepted.
fn read_refusal(line: &mut Line, refusal: Option<Error>, explained: bool)
    ensures { Writes line.old line.new (read_refusal explained refusal) }
{
    if let Some(e) = refusal {
        line.byte(b' ');
        table::show(line, refused(e, explained), b"")
    }
}

// What a read is answered: how many of its records were accepted, and how it ended, with the records that these wrote.
pub fn read_answer(
    line: &mut [u8],
    accepted: u64,
    count: usize,
    refusal: Option<Error>,
    out: &[u8],
    explained: bool,
) -> usize
    ensures { Puts line 0 result (read_line accepted count refusal out.now explained) }
{
    let mut line = Line::new(line);
    table::show(&mut line, table::single(table::READ, accepted), b"");
    read_refusal(&mut line, refusal, explained);
    records_behind(&mut line, first(out, count), explained);
    line.at
}

// What is shown of the first n bytes of a text, and the end of its line.
pub fn ended_first(line: &mut Line, s: Shown, n: usize, text: &[u8])
    ensures { Writes line.old line.new (bytes_of s (take n text.now) ++ (0x0a ∷ [])) }
{
    ended(line, s, first(text, n))
}

fn next_shown(next: Result<Option<EisRequest>, Error>, explained: bool) -> Shown
    ensures { result ≡ next_shown explained next }
{
    match next {
        Ok(Some(r)) => request::delivered(r, explained),
        Ok(None) => table::single(table::OUTCOME + 5, 0),
        Err(e) => refused(e, explained),
    }
}

// How many bytes its text has.
fn next_length(next: Result<Option<EisRequest>, Error>) -> usize
    ensures { result ≡ next_length next }
{
    match next {
        Ok(Some(r)) => r.text_length() as usize,
        _ => 0,
    }
}

// What next_request gives. A text begins the buffer.
pub fn next(
    line: &mut [u8],
    next: Result<Option<EisRequest>, Error>,
    buffer: &[u8],
    explained: bool,
) -> usize
    ensures { Puts line 0 result (next_line next buffer.now explained) }
{
    let mut line = Line::new(line);
    ended_first(
        &mut line,
        next_shown(next, explained),
        next_length(next),
        buffer,
    );
    line.at
}

// That a line is no call, or comes where no such call can be made.
pub fn error_line(line: &mut [u8], number: u64) -> usize
    ensures { Puts line 0 result (error_line number) }
{
    let mut line = Line::new(line);
    ended(&mut line, table::single(table::LINE, number), b"");
    line.at
}

// A line of the script.
pub fn call_line(line: &mut [u8], call: &[u8]) -> usize
    ensures { Puts line 0 result (call_line call.now) }
{
    let mut line = Line::new(line);
    ended(&mut line, table::single(table::LINE + 1, 0), call);
    line.at
}
