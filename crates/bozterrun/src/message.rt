// A client's bytes: the first message of a lent slice.
ghost use Rattle.std.specs.Prelude.{◌≡◌, cond};
ghost use Rattle.handshake.specs.View.{is_finished};
ghost use Rattle.messages.specs.Received.{Receives};
ghost use Rattle.lent_handshake.specs.Lent as lent;
ghost use Rattle.bozterrun.specs.Message.{bare, case_number, malformed, told_error, told_answer, told_received, told_unhanded, told_reply, begun_of, Tells};

use crate::handshakes;
use answer_numbers::{INVALID_ID, MALFORMED, NO_OBJECT, WAIT};
use answers::{Answer, Error};
use handshake::handshake::{EisHandshakeResp, HandshakeError};
use handshake_messages::Unhanded;
use lent_handshake::MessageReply;
use messages::Handed;
use wire::ParseError;

// The cases of ParseError as C has them, in its order.
#[derive(Clone, Copy, Debug, PartialEq, Eq)]
pub enum ParseErrorCase {
    EndOfMessage = 1,
    Utf8 = 2,
    InvalidOpcode = 3,
    InvalidVariant = 4,
    HeaderLength = 5,
    MessageLength = 6,
    InvalidNull = 7,
}

// What is told of a message, as numbers. `error` is a `ParseErrorCase`. `first` and `second` are the numbers of that case, or the interface and the
// version of refusal 2. What there is not is 0.
#[derive(Clone, Copy, Debug, PartialEq, Eq)]
pub struct MessageTold {
    pub status: u32,
    pub taken: usize,
    pub count: usize,
    pub error: u32,
    pub first: u32,
    pub second: u32,
}

impl MessageTold {
    // The numbers are written for the caller, and the status is answered.
    fn tell(
        self,
        taken: &mut usize,
        count: &mut usize,
        error: &mut u32,
        first: &mut u32,
        second: &mut u32,
    ) -> u32
        ensures status_is { result ≡ self.status }
        ensures taken_is { taken.new ≡ self.taken }
        ensures count_is { count.new ≡ self.count }
        ensures error_is { error.new ≡ self.error }
        ensures first_is { first.new ≡ self.first }
        ensures second_is { second.new ≡ self.second }
    {
        *taken = self.taken;
        *count = self.count;
        *error = self.error;
        *first = self.first;
        *second = self.second;
        self.status
    }
}

// Nothing is taken or written.
fn bare(status: u32) -> MessageTold
    ensures { result ≡ bare status }
{
    MessageTold {
        status,
        taken: 0,
        count: 0,
        error: 0,
        first: 0,
        second: 0,
    }
}

fn malformed(case: ParseErrorCase, first: u32, second: u32) -> MessageTold
    ensures { result ≡ malformed (case_number case) first second }
{
    MessageTold {
        error: case as u32,
        first,
        second,
        ..bare(MALFORMED)
    }
}

fn told_error(error: ParseError) -> MessageTold
    ensures { result ≡ told_error error }
{
    match error {
        ParseError::EndOfMessage => malformed(ParseErrorCase::EndOfMessage, 0, 0),
        ParseError::Utf8 => malformed(ParseErrorCase::Utf8, 0, 0),
        ParseError::InvalidOpcode { interface, opcode } => malformed(
            ParseErrorCase::InvalidOpcode,
            u32::from(interface),
            opcode,
        ),
        ParseError::InvalidVariant { variant } => malformed(
            ParseErrorCase::InvalidVariant,
            variant,
            0,
        ),
        ParseError::HeaderLength { length } => malformed(ParseErrorCase::HeaderLength, length, 0),
        ParseError::MessageLength { read, header } => malformed(
            ParseErrorCase::MessageLength,
            read,
            header,
        ),
        ParseError::InvalidNull => malformed(ParseErrorCase::InvalidNull, 0, 0),
    }
}

fn told_answer(answer: Result<Answer, Error>, taken: usize) -> MessageTold
    ensures { result ≡ told_answer answer taken }
{
    let refused = answer_numbers::refused_version(answer);
    MessageTold {
        taken,
        count: answer_numbers::count(answer),
        first: refused.interface,
        second: refused.version,
        ..bare(answer_numbers::status(answer))
    }
}

fn told_received(received: Result<Handed, messages::Unhanded>) -> MessageTold
    ensures { result ≡ told_received received }
{
    match received {
        Ok(Handed { answer, taken }) => told_answer(answer, taken),
        Err(messages::Unhanded::Wait) => bare(WAIT),
        Err(messages::Unhanded::NoObject) => bare(NO_OBJECT),
        Err(messages::Unhanded::Malformed(error)) => told_error(error),
    }
}

// The first message of the bytes, in a session.
#[unsafe(no_mangle)]
pub extern "C" fn bozterrun_pending_request(
    control: &mut [u64],
    words: &mut [u64],
    reals: &mut [f32],
    texts: &mut [u8],
    message: &[u8],
    clock: u64,
    out: &mut [u8],
    taken: &mut usize,
    count: &mut usize,
    error: &mut u32,
    first: &mut u32,
    second: &mut u32,
) -> u32
    ensures { Tells (Receives control words reals texts out message.now clock) told_received result taken count error first second (λ _. Unit {0}) }
{
    let received = messages::pending_request(control, words, reals, texts, message, clock, out);
    told_received(received).tell(taken, count, error, first, second)
}

// Why bytes were not handed on.
fn told_unhanded(why: Unhanded) -> MessageTold
    ensures { result ≡ told_unhanded why }
{
    match why {
        Unhanded::Wait => bare(WAIT),
        Unhanded::NoObject => bare(NO_OBJECT),
        Unhanded::Malformed(error) => told_error(error),
        Unhanded::InvalidId => bare(INVALID_ID),
    }
}

fn told_reply(answer: MessageReply) -> MessageTold
    ensures { result ≡ told_reply answer }
{
    match answer.told {
        Ok(()) => MessageTold {
            taken: answer.taken,
            count: answer.reply.count,
            ..bare(handshakes::status(answer.reply.outcome))
        },
        Err(why) => told_unhanded(why),
    }
}

// 1 where a Finish begins the session.
fn begun_by(outcome: Result<Option<EisHandshakeResp>, HandshakeError>) -> u32
    ensures { result ≡ cond (is_finished outcome) 1 0 }
{
    u32::from(matches!(outcome, Ok(Some(_))))
}

// The same in a handshake. A Finish that succeeds begins the session in the control words, and `begun` is then 1.
#[unsafe(no_mangle)]
pub extern "C" fn bozterrun_handshake_pending_request(
    words: &mut [u64],
    name: &mut [u8],
    control: &mut [u64],
    message: &[u8],
    out: &mut [u8],
    taken: &mut usize,
    count: &mut usize,
    begun: &mut u32,
    error: &mut u32,
    first: &mut u32,
    second: &mut u32,
) -> u32
    ensures { Tells (lent.Receives words name control out message.now) told_reply result taken count error first second (λ a. begun.new ≡ begun_of a) }
{
    let answer = lent_handshake::pending_request(words, name, control, message, out);
    *begun = begun_by(answer.reply.outcome);
    told_reply(answer).tell(taken, count, error, first, second)
}
