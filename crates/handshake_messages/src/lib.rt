// A client's messages during the handshake: the first of a lent slice is read, and handed on as the request that it stands for.
#![tactic(auto)]

ghost use Rattle.std.specs.Prelude.{◌+◌, ◌%◌, ◌≤◌, ◌≡◌, length};
ghost use Rattle.handshake.specs.View.{Handled};
ghost use Rattle.handshake_messages.specs.Reading.{object_of, is_peer_id, check_id, reading_of, context_type_in, request_in, Calls, Received};

use eiproto::eiproto_eis;
use eiproto::eiproto_enum::ContextType;
use handshake::handshake::{
    EisHandshaker, HandshakeAnswer, HandshakeError, HandshakeMessage, NAME_LENGTH_LIMIT,
};
use parse::{Arguments, First, HEADER_LENGTH};
use requests::eis::RequestKind;
use requests::row;
use wire::{ParseError, backend};

// The numbers of the handshake's requests, and that of a Sync.
const HANDSHAKE_VERSION: u64 = RequestKind::HandshakeVersion as u64;

const FINISH: u64 = RequestKind::HandshakeFinish as u64;

const CONTEXT_TYPE: u64 = RequestKind::HandshakeContextType as u64;

const NAME: u64 = RequestKind::HandshakeName as u64;

const INTERFACE_VERSION: u64 = RequestKind::HandshakeInterfaceVersion as u64;

const SYNC: u64 = RequestKind::ConnectionSync as u64;

// Why a message's request is not handed on: it is not yet whole, on no object that lives, malformed, or has an id that a client may not give.
#[derive(Clone, Copy, Debug, PartialEq, Eq)]
pub enum Unhanded {
    Wait,
    NoObject,
    Malformed(ParseError),
    InvalidId,
}

// What a call gives: the answer to the request (of one that was not handed on, the handshake as it was), and how many bytes of the slice were taken.
#[derive(Clone, Copy, Debug)]
pub struct HandshakeReceived {
    pub told: Result<(), Unhanded>,
    pub answer: HandshakeAnswer,
    pub taken: usize,
}

// The interface of the object of an id, where one lives: the handshake's until the first id is given, and each id that was given is a
// connection's.
#[tactic(auto, unfolding(crate::specs::Reading::object_of))]
fn find_object(next: u64, id: u64) -> Option<u8>
    ensures { result ≡ object_of next id }
{
    if id == backend::HANDSHAKE_ID {
        return (next == backend::FIRST_SERVER_ID).then_some(0);
    }
    if id < backend::FIRST_SERVER_ID || next <= id {
        return None;
    }
    Some(eiproto_eis::CONNECTION)
}

// Whether an id is one of the client's: none is kept here, so that they start at 1.
#[tactic(auto, unfolding(crate::specs::Reading::is_peer_id))]
fn is_peer_id(id: u64) -> bool
    ensures { result ≡ is_peer_id id }
{
    0 < id && id < backend::FIRST_SERVER_ID
}

// What was read of a message on an object that lives. A callback's id has to be one of the client's.
#[tactic(auto, unfolding(crate::specs::Reading::check_id))]
fn check_id(first: Result<Option<First>, ParseError>) -> Result<First, Unhanded>
    ensures { result ≡ check_id first }
{
    match first {
        Ok(None) => Err(Unhanded::Wait),
        Err(e) => Err(Unhanded::Malformed(e)),
        Ok(Some(message)) => {
            if message.arguments.request == SYNC && !is_peer_id(message.arguments.first) {
                return Err(Unhanded::InvalidId);
            }
            Ok(message)
        }
    }
}

// The first message of a slice, whole and on an object that lives, on a handshake whose next id is this.
#[tactic(auto, unfolding(crate::specs::Reading::reading_of, crate::specs::Reading::body_read))]
pub fn read(next: u64, message: &[u8]) -> Result<First, Unhanded>
    ensures { result ≡ reading_of next message.now }
{
    if message.len() < HEADER_LENGTH {
        return Err(Unhanded::Wait);
    }
    let interface = find_object(next, parse::number64(message, 0)).ok_or(Unhanded::NoObject)?;
    check_id(parse::read_first(interface, message))
}

// Any number but 1 is the other's, as `context_type_in` has it: what is neither was no argument (`parse`), so this is no `TryFrom`.
fn context_type(n: u64) -> ContextType
    ensures { result ≡ context_type_in n }
{
    if n == 1 {
        ContextType::Receiver
    } else {
        ContextType::Sender
    }
}

// A request as the handshake takes it, and how many bytes of its text are lent with it.
#[derive(Clone, Copy, Debug, PartialEq, Eq)]
struct HandshakeCall {
    request: HandshakeMessage,
    length: usize,
}

#[tactic(auto, unfolding(crate::specs::Reading::request_in))]
fn call_of(a: Arguments) -> HandshakeCall
    ensures { Calls a result }
{
    match a.request {
        HANDSHAKE_VERSION => HandshakeCall {
            request: HandshakeMessage::HandshakeVersion {
                version: row::low(a.first),
            },
            length: 0,
        },
        FINISH => HandshakeCall {
            request: HandshakeMessage::Finish,
            length: 0,
        },
        CONTEXT_TYPE => HandshakeCall {
            request: HandshakeMessage::ContextType {
                context: context_type(a.first),
            },
            length: 0,
        },
        NAME => HandshakeCall {
            request: HandshakeMessage::Name,
            length: a.length,
        },
        INTERFACE_VERSION => HandshakeCall {
            request: HandshakeMessage::InterfaceVersion {
                version: row::low(a.first),
            },
            length: a.length,
        },
        _ => HandshakeCall {
            request: HandshakeMessage::Other,
            length: 0,
        },
    }
}

// The handshake's own call, with the text's part of the message.
fn hand_on(h: EisHandshaker, a: Arguments, message: &[u8], out: &mut [u8]) -> HandshakeAnswer
    requires { a.start + a.length ≤ length message.now }
    ensures { Handled h (request_in a message.now) out.old out.new result }
{
    let call = call_of(a);
    h.handle_request(call.request, &message[a.start..a.start + call.length], out)
}

// After `Context::pending_request`: reads the first message of the slice, and hands its request on.
pub fn pending_request(h: EisHandshaker, message: &[u8], out: &mut [u8]) -> HandshakeReceived
    ensures { Received h message.now out.old out.new result }
{
    if NAME_LENGTH_LIMIT < h.name.length {
        return HandshakeReceived {
            told: Ok(()),
            answer: HandshakeAnswer {
                handshaker: h,
                outcome: Err(HandshakeError::BadState),
                count: 0,
            },
            taken: 0,
        };
    }
    match read(h.next, message) {
        Ok(first) => {
            let answer = hand_on(h, first.arguments, &message[..first.length], out);
            HandshakeReceived {
                told: Ok(()),
                answer,
                // A refused message takes nothing.
                taken: if answer.outcome.is_ok() {
                    first.length
                } else {
                    0
                },
            }
        }
        Err(why) => HandshakeReceived {
            told: Err(why),
            answer: HandshakeAnswer {
                handshaker: h,
                outcome: Ok(None),
                count: 0,
            },
            taken: 0,
        },
    }
}
