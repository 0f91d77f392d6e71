// What a trail has of a client's bytes.
ghost use Rattle.std.specs.Prelude.{◌≡◌, ◌+◌, ◌≤◌, cond};
ghost use Rattle.script_pattern.specs.Put.{Puts};
ghost use Rattle.script_message.specs.Shown.{malformed_at, malformed, taken_outcome, handshake_taken, message_shown, message_count, message_line, handshake_message_line};

use answer_numbers::{MALFORMED, NO_OBJECT};
use answers::{Answer, Error, Outcome};
use handshake::handshake::{EisHandshakeResp, HandshakeAnswer, HandshakeError};
use messages::{Handed, Unhanded};
use script_pattern::table;
use script_pattern::table::Shown;
use wire::ParseError;

// The pattern of a case of 23; explained, with its name.
fn malformed_at(place: usize, explained: bool) -> usize
    requires { place ≤ 6 }
    ensures { result ≡ malformed_at place explained }
{
    if explained {
        return table::MALFORMED + 7 + place;
    }
    table::MALFORMED + place
}

// 23, with the case of ParseError and its numbers.
fn case_of(pattern: usize, a: u64, b: u64) -> Shown
    ensures { result ≡ record { pattern = pattern; a = 23; b = a; c = b; d = 0; e = 0 } }
{
    Shown {
        pattern,
        a: u64::from(MALFORMED),
        b: a,
        c: b,
        d: 0,
        e: 0,
    }
}

fn malformed(e: ParseError, explained: bool) -> Shown
    ensures { result ≡ malformed explained e }
{
    match e {
        ParseError::EndOfMessage => case_of(malformed_at(0, explained), 0, 0),
        ParseError::Utf8 => case_of(malformed_at(1, explained), 0, 0),
        ParseError::InvalidOpcode { interface, opcode } => case_of(
            malformed_at(2, explained),
            interface as u64,
            opcode as u64,
        ),
        ParseError::InvalidVariant { variant } => case_of(
            malformed_at(3, explained),
            variant as u64,
            0,
        ),
        ParseError::HeaderLength { length } => case_of(
            malformed_at(4, explained),
            length as u64,
            0,
        ),
        ParseError::MessageLength { read, header } => case_of(
            malformed_at(5, explained),
            read as u64,
            header as u64,
        ),
        ParseError::InvalidNull => case_of(malformed_at(6, explained), 0, 0),
    }
}

// A message that was accepted says what was taken; any other outcome is shown as elsewhere.
fn taken_outcome(a: Result<Answer, Error>, taken: usize, explained: bool) -> Shown
    ensures { result ≡ taken_outcome explained taken a }
{
    match a {
        Ok(
            Answer {
                outcome: Outcome::Accepted,
                ..
            },
        ) => table::single(table::MESSAGE, taken as u64),
        _ => script_show::outcome(a, explained),
    }
}

fn handshake_taken(
    o: Result<Option<EisHandshakeResp>, HandshakeError>,
    taken: usize,
    explained: bool,
) -> Shown
    ensures { result ≡ handshake_taken explained taken o }
{
    match o {
        Ok(_) => table::single(table::MESSAGE, taken as u64),
        Err(_) => script_show::handshake_outcome(o, explained),
    }
}

fn message_shown(r: Result<Handed, Unhanded>, explained: bool) -> Shown
    ensures { result ≡ message_shown explained r }
{
    match r {
        Ok(Handed { answer, taken }) => taken_outcome(answer, taken, explained),
        Err(Unhanded::Wait) => table::single(table::MESSAGE + 1, 0),
        Err(Unhanded::NoObject) => script_show::refusal(NO_OBJECT, explained),
        Err(Unhanded::Malformed(e)) => malformed(e, explained),
    }
}

// How many bytes of records were written.
fn message_count(r: Result<Handed, Unhanded>) -> usize
    ensures { result ≡ message_count r }
{
    match r {
        Ok(Handed { answer, .. }) => answer_numbers::count(answer),
        Err(_) => 0,
    }
}

// What a client's bytes are answered. The records begin `out`.
pub fn message_answer(
    line: &mut [u8],
    r: Result<Handed, Unhanded>,
    out: &[u8],
    explained: bool,
) -> usize
    ensures { Puts line 0 result (message_line r out.now explained) }
{
    script_show::whole(
        line,
        message_shown(r, explained),
        message_count(r),
        out,
        explained,
    )
}

// What the handshake answers to a message that was handed on to it.
pub fn handshake_message_answer(
    line: &mut [u8],
    a: HandshakeAnswer,
    taken: usize,
    out: &[u8],
    explained: bool,
) -> usize
    ensures { Puts line 0 result (handshake_message_line a taken out.now explained) }
{
    script_show::whole(
        line,
        handshake_taken(a.outcome, taken, explained),
        a.count,
        out,
        explained,
    )
}
