// The handshake on the server side (`EisHandshaker` of src/handshake.rs): a client says who it is and which interfaces it knows.
// A handshake goes into each call by value and comes back with the answer.
ghost use Rattle.std.specs.Prelude.{◌+◌, ◌≤◌, ◌<◌, true, false, ◌≡◌, length};
ghost use Rattle.std.proofs.Math.Option.{some};
ghost use Rattle.eiproto.specs.Told.{told};
ghost use Rattle.wire.specs.Put.{PutWhole, Wrote};
ghost use Rattle.handshake.specs.Handshake as paper;
ghost use Rattle.handshake.specs.View.{view_of, versions_of, name_of, is_sound, request_of, number, response_of};
ghost use Rattle.handshake.specs.View.{no_name, no_interfaces, quiet, Meets, Done, Quiet, Handled};

use eiproto::eiproto_eis;
use eiproto::eiproto_enum::ContextType;
use wire::event::Event;
use wire::{backend, event};

// The most bytes of a name; a longer one is `NameLong`.
pub const NAME_LENGTH_LIMIT: usize = 254;

// The client's name, or that it has not been said. The bytes past its length say nothing. No `Option`: a length above the limit is a
// damaged handshake whether a name is given or not (`is_sound`, `Handled`). No `PartialEq`, here and in what holds a name: it would compare
// those bytes too.
#[derive(Clone, Copy, Debug)]
pub struct Name {
    pub bytes: [u8; NAME_LENGTH_LIMIT],
    pub length: usize,
    pub given: bool,
}

// A handshake under way. Its context type is there once it was said; its interfaces are the versions negotiated, in the order of their
// numbers, from 1 on.
#[derive(Clone, Copy, Debug)]
pub struct EisHandshaker {
    pub name: Name,
    pub context: Option<ContextType>,
    pub interfaces: [Option<u32>; 12],
    pub serial: u32,
    pub next: u64,
}

// What a client may send. The text of Name, of InterfaceVersion and of another request that has one is lent beside it.
#[derive(Clone, Copy, Debug, PartialEq, Eq)]
pub enum HandshakeMessage {
    HandshakeVersion { version: u32 },
    Name,
    ContextType { context: ContextType },
    InterfaceVersion { version: u32 },
    Finish,
    // A request of any other interface.
    Other,
}

// What a Finish settles that succeeds, and what the session goes on from: its serial and the next object id. It shares no struct with
// `EisHandshaker`: the context type is settled here and the next id another, so a part of three fields would only lengthen each path.
#[derive(Clone, Copy, Debug)]
pub struct EisHandshakeResp {
    pub connection: u64,
    pub name: Name,
    pub context: ContextType,
    pub interfaces: [Option<u32>; 12],
    pub serial: u32,
    pub next: u64,
}

// Why a call is refused: the source's three, then those that the port adds. Each has the number that docs/REFERENCE.md lists.
#[derive(Clone, Copy, Debug, PartialEq, Eq)]
pub enum HandshakeError {
    NonHandshakeEvent = 7,
    DuplicateEvent = 8,
    MissingInterface = 9,
    BadUtf8 = 10,
    NameLong = 11,
    ShortOut = 19,
    IdsSpent = 20,
    BadState = 21,
}

// What a call gives: the handshake after it, its outcome, with what a Finish settled, and how many bytes of events were written:
// `MissingInterface` is refused behind its report, so that the count is no part of the outcome.
#[derive(Clone, Copy, Debug)]
pub struct HandshakeAnswer {
    pub handshaker: EisHandshaker,
    pub outcome: Result<Option<EisHandshakeResp>, HandshakeError>,
    pub count: usize,
}

impl HandshakeError {
    pub fn number(self) -> u32
        ensures { result ≡ number self }
    {
        self as u32
    }
}

#[tactic(auto, unfolding(crate::specs::View::no_name))]
fn no_name() -> Name
    ensures { result ≡ no_name }
{
    Name {
        bytes: [0; NAME_LENGTH_LIMIT],
        length: 0,
        given: false,
    }
}

// The answer of a call that writes nothing: a refusal leaves the handshake as it was.
fn quiet(h: EisHandshaker, outcome: Result<EisHandshaker, HandshakeError>) -> HandshakeAnswer
    ensures { result ≡ quiet h outcome }
{
    match outcome {
        Ok(handshaker) => HandshakeAnswer {
            handshaker,
            outcome: Ok(None),
            count: 0,
        },
        Err(e) => refused(h, e),
    }
}

fn refused(h: EisHandshaker, e: HandshakeError) -> HandshakeAnswer
    ensures { result ≡ quiet h (Err e) }
{
    HandshakeAnswer {
        handshaker: h,
        outcome: Err(e),
        count: 0,
    }
}

// A text that fits, as a name.
fn name_of(text: &[u8]) -> Name
    requires { length text.now ≤ 254 }
    ensures { (name_of result ≡ some text.now) × (result.length ≤ 254) }
{
    let mut bytes = [0; NAME_LENGTH_LIMIT];
    bytes[..text.len()].copy_from_slice(text);
    Name {
        bytes,
        length: text.len(),
        given: true,
    }
}

// `is_sound` is asked from here on, behind 21's test. As a fact of `EisHandshaker` it would leave no handshake that 21 could refuse (`Handled`;
// the edit damaged_is_taken), and a type of a sound one would only be opened again in each of these.

// Name.
fn set_name(h: EisHandshaker, text: &[u8]) -> Result<EisHandshaker, HandshakeError>
    requires { is_sound h ≡ true }
    ensures { Quiet h (paper.Message.Name text.now) result }
{
    if !utf8::valid(text) {
        return Err(HandshakeError::BadUtf8);
    }
    if NAME_LENGTH_LIMIT < text.len() {
        return Err(HandshakeError::NameLong);
    }
    if h.name.given {
        return Err(HandshakeError::DuplicateEvent);
    }
    Ok(EisHandshaker {
        name: name_of(text),
        ..h
    })
}

// ContextType.
fn set_context(h: EisHandshaker, context: ContextType) -> Result<EisHandshaker, HandshakeError>
    requires { is_sound h ≡ true }
    ensures { Quiet h (paper.Message.Context context) result }
{
    if h.context.is_some() {
        return Err(HandshakeError::DuplicateEvent);
    }
    Ok(EisHandshaker {
        context: Some(context),
        ..h
    })
}

// InterfaceVersion. A name may have any length; one that is no interface's is ignored.
fn negotiate(h: EisHandshaker, text: &[u8], version: u32) -> Result<EisHandshaker, HandshakeError>
    requires { is_sound h ≡ true }
    ensures { Quiet h (paper.Message.InterfaceVersion text.now version) result }
{
    if !utf8::valid(text) {
        return Err(HandshakeError::BadUtf8);
    }
    let mut agreed = h;
    if let Some(number) = eiproto_eis::find(text) {
        agreed.interfaces[number as usize - 1] = Some(version.min(eiproto_eis::version(number)));
    }
    Ok(agreed)
}

// A request of another interface, which has no place in a handshake.
fn turn_away(h: EisHandshaker, text: &[u8]) -> HandshakeError
    requires { is_sound h ≡ true }
    ensures { Quiet h (paper.Message.Other text.now) (Err result) }
{
    if utf8::valid(text) {
        HandshakeError::NonHandshakeEvent
    } else {
        HandshakeError::BadUtf8
    }
}

// Whether an interface, by its number, was negotiated. That its version may be 0 makes no difference.
fn has(interfaces: [Option<u32>; 12], number: u8) -> bool
    requires { (0 < number) × (number ≤ 12) }
    ensures { result ≡ paper.is_some (paper.version_of (versions_of interfaces) number) }
{
    interfaces[number as usize - 1].is_some()
}

// Whether those interfaces were negotiated that a session cannot do without.
fn complete(interfaces: [Option<u32>; 12]) -> bool
    ensures { result ≡ paper.complete (versions_of interfaces) }
{
    has(interfaces, eiproto_eis::CONNECTION)
        && has(interfaces, eiproto_eis::PINGPONG)
        && has(interfaces, eiproto_eis::CALLBACK)
}

// Writes an event of the handshake at a place of the buffer, or nothing where there is no room, and answers how many bytes. A place and no part of the
// buffer: `PutWhole` tells every byte of it.
#[tactic(auto, unfolding(crate::specs::Handshake::sent))]
fn send(out: &mut [u8], at: usize, e: Event) -> usize
    ensures { PutWhole out.old out.new at (paper.sent e) result }
{
    event::put_record(out, at, backend::HANDSHAKE_ID, e, b"")
}

// How many bytes the report of the interfaces takes: whether there is room is known before the first is written.
fn report_length(interfaces: [Option<u32>; 12]) -> usize
    ensures { result ≡ length (paper.report 1 (versions_of interfaces)) }
{
    let negotiated = interfaces
        .iter()
        .filter(|version| version.is_some())
        .count();
    let record = Event::InterfaceVersion {
        interface: 1,
        version: 0,
    };
    negotiated * event::fixed_length(record)
}

// Reports the interfaces in the order of their numbers, and answers how many bytes that took. A call by itself: laid out twelve times within
// `handle_request`, it made every message dearer.
#[inline(never)]
fn report(interfaces: [Option<u32>; 12], out: &mut [u8]) -> usize
    requires { length (paper.report 1 (versions_of interfaces)) ≤ length out.old }
    ensures { Wrote out.old out.new 0 result (paper.report 1 (versions_of interfaces)) result }
{
    let mut at: usize = 0;
    for (i, version) in interfaces.iter().enumerate() {
        if let Some(version) = *version {
            let interface = i as u8 + 1;
            at += send(out, at, Event::InterfaceVersion { interface, version });
        }
    }
    at
}

// A Finish that lacks an interface: it reports those that there are.
fn finish_missing(h: EisHandshaker, out: &mut [u8]) -> HandshakeAnswer
    requires { (is_sound h ≡ true) × (paper.complete (versions_of h.interfaces) ≡ false) }
    ensures { Done h out.old out.new (paper.finish (view_of h) (length out.old)) result }
{
    if out.len() < report_length(h.interfaces) {
        return refused(h, HandshakeError::ShortOut);
    }
    HandshakeAnswer {
        handshaker: h,
        outcome: Err(HandshakeError::MissingInterface),
        count: report(h.interfaces, out),
    }
}

// What a Finish settles, its connection being the next object.
fn response_of(h: EisHandshaker, next: u64) -> EisHandshakeResp
    requires { next ≡ h.next + 1 }
    ensures { (response_of result ≡ paper.settled (view_of h)) × (result.name ≡ h.name) }
{
    // A variable: an array that goes straight from field to field gets no proof.
    let interfaces = h.interfaces;
    EisHandshakeResp {
        connection: h.next,
        name: h.name,
        // "Protocol spec says `context_type` is optional, defaults to receiver" (src/handshake.rs).
        context: h.context.unwrap_or(ContextType::Receiver),
        interfaces,
        serial: h.serial,
        next,
    }
}

// A Finish that has all it needs but room.
fn conclude(h: EisHandshaker, next: u64, out: &mut [u8]) -> HandshakeAnswer
    requires { (is_sound h ≡ true) × ((paper.complete (versions_of h.interfaces) ≡ true) × (next ≡ h.next + 1)) }
    ensures { Done h out.old out.new (paper.finish (view_of h) (length out.old)) result }
{
    let connection = Event::Connection {
        id: h.next,
        serial: h.serial,
        version: 1,
    };
    if out.len() < report_length(h.interfaces) + event::fixed_length(connection) {
        return refused(h, HandshakeError::ShortOut);
    }
    let at = report(h.interfaces, out);
    let sent = send(out, at, connection);
    HandshakeAnswer {
        handshaker: EisHandshaker {
            interfaces: [None; 12],
            next,
            ..h
        },
        outcome: Ok(Some(response_of(h, next))),
        count: at + sent,
    }
}

// Finish.
fn finish(h: EisHandshaker, out: &mut [u8]) -> HandshakeAnswer
    requires { is_sound h ≡ true }
    ensures { Done h out.old out.new (paper.finish (view_of h) (length out.old)) result }
{
    if !complete(h.interfaces) {
        return finish_missing(h, out);
    }
    match backend::new_objects(h.next, 1) {
        Some(next) => conclude(h, next, out),
        None => refused(h, HandshakeError::IdsSpent),
    }
}

impl EisHandshaker {
    // Starts a handshake: sends handshake version 1. Refused or not, the handshake is fresh.
    pub fn new(serial: u32, out: &mut [u8]) -> HandshakeAnswer
        ensures { Meets out.old out.new (paper.start serial (length out.old)) result }
    {
        let h = EisHandshaker {
            name: no_name(),
            context: None,
            interfaces: [None; 12],
            serial,
            next: backend::FIRST_SERVER_ID,
        };
        let sent = send(out, 0, Event::HandshakeVersion { version: 1 });
        if sent == 0 {
            return refused(h, HandshakeError::ShortOut);
        }
        HandshakeAnswer {
            handshaker: h,
            outcome: Ok(None),
            count: sent,
        }
    }

    // Handles a request, with the text that it carries.
    pub fn handle_request(
        self,
        request: HandshakeMessage,
        text: &[u8],
        out: &mut [u8],
    ) -> HandshakeAnswer
        ensures { Handled self (request_of request text.now) out.old out.new result }
    {
        if NAME_LENGTH_LIMIT < self.name.length {
            return refused(self, HandshakeError::BadState);
        }
        match request {
            HandshakeMessage::HandshakeVersion { .. } => quiet(self, Ok(self)),
            HandshakeMessage::Name => quiet(self, set_name(self, text)),
            HandshakeMessage::ContextType { context } => quiet(self, set_context(self, context)),
            HandshakeMessage::InterfaceVersion { version } => quiet(
                self,
                negotiate(self, text, version),
            ),
            HandshakeMessage::Finish => finish(self, out),
            HandshakeMessage::Other => refused(self, turn_away(self, text)),
        }
    }
}
