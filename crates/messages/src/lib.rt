// A client's bytes handed over: the first message of a lent slice, read by the object that it addresses and handed on as the request that it stands for
// (`Context::pending_request` of src/eis.rs, `Backend::pending` of src/wire/backend.rs).
#![tactic(auto)]

ghost use Rattle.std.specs.Prelude.{ℕ, ◌+◌, ◌≤◌, ◌≡◌, List, Float, length, take, drop};
ghost use Rattle.model.specs.Call.{Input, Call};
ghost use Rattle.session.specs.View.{Whole};
ghost use Rattle.session.specs.Loan.{SameLoan, store_of};
ghost use Rattle.answers.specs.Answer.{outcome_of};
ghost use Rattle.answers.specs.Promise.{Handles};
ghost use Rattle.requests.specs.declared.eis.Request.{Request};
ghost use Rattle.model_reads.specs.Message.{taken_of};
ghost use Rattle.messages.specs.Reading.{request_in, call_in, reading_on};
ghost use Rattle.messages.specs.Received.{Receives, ReceivesBy};

use answers::{Answer, Error};
use client_requests::untimed;
use converter::request;
use lent_read::record::RequestCell;
use lent_read::{numbers, record};
use objects::Object;
use parse::{Arguments, HEADER_LENGTH};
use requests::row;
use session::LentSession;
use wire::ParseError;

// Why no request is handed on; nothing is taken.
// The handshake's `Unhanded` has a case more, an id that a client may not give: here that is an answer, which the request is given.
#[derive(Clone, Copy, Debug, PartialEq, Eq)]
pub enum Unhanded {
    // The message is not yet whole.
    Wait,
    // 24: no object with the addressed id is alive.
    NoObject,
    // 23, and why.
    Malformed(ParseError),
}

// What the request that the message stands for was answered, and how many bytes were taken: those of the message, or none where it was refused.
#[derive(Clone, Copy, Debug, PartialEq, Eq)]
pub struct Handed {
    pub answer: Result<Answer, Error>,
    pub taken: usize,
}

// "A refused message takes nothing."
fn taken_of(answer: Result<Answer, Error>, length: usize) -> usize
    ensures { result ≡ taken_of (outcome_of answer) length }
{
    match answer {
        Ok(_) => length,
        Err(_) => 0,
    }
}

// The request that the arguments are of.
#[tactic(auto, unfolding(crate::specs::Reading::request_in))]
fn request_in(a: Arguments) -> requests::eis::Request
    ensures { result ≡ request_in a }
{
    record::request_of(RequestCell {
        request: a.request,
        object: 0,
        version: 0,
        first: a.first,
        second: a.second,
        third: a.third,
        start: 0,
        length: 0,
        x: a.x,
        y: a.y,
    })
}

// The request of a message with these arguments. A Sync's callback is an object that its message makes.
fn hand_on(
    session: &mut LentSession<'_, '_, '_>,
    texts: &mut [u8],
    object: u64,
    version: u32,
    a: Arguments,
    message: &[u8],
    clock: u64,
    out: &mut [u8],
) -> Result<Answer, Error>
    requires { Whole (store_of session.old texts.old) × (a.start + a.length ≤ length message.now) }
    ensures step { Handles session texts out (call_in a object version message.now) clock result }
    ensures loan { SameLoan session.old session.new }
{
    if a.request == numbers::CONNECTION_SYNC {
        return untimed::sync_message(session.control, a.first, row::low(a.second), out);
    }
    request::handle_on(
        session,
        texts,
        object,
        version,
        request_in(a),
        &message[a.start..a.start + a.length],
        clock,
        out,
    )
}

// A message whose object is alive.
fn receive_on(
    session: &mut LentSession<'_, '_, '_>,
    texts: &mut [u8],
    object: u64,
    alive: Object,
    message: &[u8],
    clock: u64,
    out: &mut [u8],
) -> Result<Handed, Unhanded>
    requires { Whole (store_of session.old texts.old) × (16 ≤ length message.now) }
    ensures step { ReceivesBy session texts out (reading_on object alive.interface alive.version message.now) clock result }
    ensures loan { SameLoan session.old session.new }
{
    // A `match`: `?` and a `From` took 20 instructions more a message.
    match parse::read_first(alive.interface, message) {
        Ok(None) => Err(Unhanded::Wait),
        Err(e) => Err(Unhanded::Malformed(e)),
        Ok(Some(first)) => {
            let answer = hand_on(
                session,
                texts,
                object,
                alive.version,
                first.arguments,
                &message[..first.length],
                clock,
                out,
            );
            let taken = taken_of(answer, first.length);
            Ok(Handed { answer, taken })
        }
    }
}

// The first message of the bytes, at this clock. Bytes behind it are not read.
pub fn pending_request(
    control: &mut [u64],
    words: &mut [u64],
    reals: &mut [f32],
    texts: &mut [u8],
    message: &[u8],
    clock: u64,
    out: &mut [u8],
) -> Result<Handed, Unhanded>
    ensures { Receives control words reals texts out message.now clock result }
{
    // 21 is the answer of a request that was handed on, so the test leaves by no `?`.
    if !session::whole(control, words, reals, texts) {
        return Ok(Handed {
            answer: Err(Error::BadState),
            taken: 0,
        });
    }
    if message.len() < HEADER_LENGTH {
        return Err(Unhanded::Wait);
    }
    let object = parse::number64(message, 0);
    let Some(alive) = objects::find_object(control, object) else {
        return Err(Unhanded::NoObject);
    };
    let mut session = LentSession {
        control,
        words,
        reals,
    };
    receive_on(&mut session, texts, object, alive, message, clock, out)
}
