// A handshake in two lent slices, for callers that cannot hold one by value: seventeen words, and the bytes of the client's name.
#![tactic(auto)]

ghost use Rattle.std.specs.Prelude.{◌%◌, ◌≡◌, true, ◌&&◌, [], eqb, length, get_or};
ghost use Rattle.eiproto.specs.Told.{told};
ghost use Rattle.control.specs.Control.{control_length};
ghost use Rattle.handshake.specs.View.{versions_of, view_of, is_sound, request_of};
ghost use Rattle.handshake.specs.declared.handshake.HandshakeError.{HandshakeError};
ghost use Rattle.lent_handshake.specs.Lent.{handshake_length, name_length, version_at, context_at, handshake_in, context_number, is_lent, is_held, Starts, Handles, Finishes, Settleable, Settles, Receives, Names};

use control::CONTROL_LENGTH;
use converter::request;
use eiproto::eiproto_enum::ContextType;
use handshake::handshake::{
    EisHandshakeResp, EisHandshaker, HandshakeAnswer, HandshakeError, HandshakeMessage,
    NAME_LENGTH_LIMIT, Name,
};
use handshake_messages::Unhanded;
use requests::row;

// The words: how long the name is, whether it was said, the context type, the serial, the next id; then a word for each interface. They
// are no struct: the caller's memory holds them (`bozterrun_handshake_new`).
const NAME_LENGTH: usize = 0;

const NAME_GIVEN: usize = 1;

const CONTEXT: usize = 2;

const SERIAL: usize = 3;

const NEXT: usize = 4;

const VERSIONS: usize = 5;

const INTERFACES: usize = 12;

pub const HANDSHAKE_LENGTH: usize = VERSIONS + INTERFACES;

// What a call answers besides the slices.
#[derive(Clone, Copy, Debug)]
pub struct HandshakeReply {
    pub outcome: Result<Option<EisHandshakeResp>, HandshakeError>,
    pub count: usize,
}

impl From<HandshakeAnswer> for HandshakeReply {
    ghost from_gives = { λ answer reply. reply ≡ record { outcome = answer.outcome; count = answer.count } };

    fn from(answer: HandshakeAnswer) -> HandshakeReply {
        HandshakeReply {
            outcome: answer.outcome,
            count: answer.count,
        }
    }
}

// 0 is no version, and any other number one above the version.
fn version_of(n: u64) -> Option<u32>
    ensures { told result ≡ version_at n }
{
    if n == 0 { None } else { Some(row::low(n - 1)) }
}

fn version_word(version: Option<u32>) -> u64
    ensures { version_at result ≡ told version }
{
    match version {
        Some(version) => u64::from(version) + 1,
        None => 0,
    }
}

// The number of a context type, 0 where none was said. Any other number counts as none, also one above 32 bits: `try_from` would take two steps.
#[tactic(auto, unfolding(crate::specs::Lent::context_at))]
fn context_of(n: u64) -> Option<ContextType>
    ensures { told result ≡ context_at n }
{
    match n {
        1 => Some(ContextType::Receiver),
        2 => Some(ContextType::Sender),
        _ => None,
    }
}

fn context_word(context: Option<ContextType>) -> u32
    ensures { (result ≡ context_number (told context)) × (context_at result ≡ told context) }
{
    match context {
        Some(context) => context.number(),
        None => 0,
    }
}

// Into the handshake itself, by a call: handed back, or read in place, twelve versions at once go over the stack.
#[inline(never)]
fn load_versions(words: &[u64], versions: &mut [Option<u32>; INTERFACES])
    requires { length words.now ≡ handshake_length }
    ensures { versions_of versions.new ≡ (handshake_in words.now []).versions }
{
    for i in 0..INTERFACES {
        versions[i] = version_of(words[VERSIONS + i]);
    }
}

// The handshake that the slices hold.
#[tactic(auto, using(crate::proofs::Words::words_long, crate::proofs::Words::name_long))]
fn load(words: &[u64], name: &[u8]) -> EisHandshaker
    requires { is_lent words.now name.now ≡ true }
    ensures result_value { view_of result ≡ handshake_in words.now name.now }
    ensures length_value { result.name.length ≡ get_or words.now 0 0 }
{
    let mut h = EisHandshaker {
        name: Name {
            bytes: [0; NAME_LENGTH_LIMIT],
            length: words[NAME_LENGTH] as usize,
            given: words[NAME_GIVEN] == 1,
        },
        context: context_of(words[CONTEXT]),
        interfaces: [None; INTERFACES],
        serial: row::low(words[SERIAL]),
        next: words[NEXT],
    };
    h.name.bytes.copy_from_slice(name);
    load_versions(words, &mut h.interfaces);
    h
}

fn store_versions(words: &mut [u64], versions: [Option<u32>; INTERFACES])
    requires { length words.old ≡ handshake_length }
    ensures { (handshake_in words.new []).versions ≡ versions_of versions }
{
    for (i, version) in versions.iter().enumerate() {
        words[VERSIONS + i] = version_word(*version);
    }
}

// Of a handshake that is not damaged (as `handshake` asks it, no fact of the type). In its callers, so that of a fresh handshake, which is known there,
// the words are stored at once.
#[inline]
#[tactic(auto, using(crate::proofs::Words::words_long, crate::proofs::Words::name_long))]
fn store(words: &mut [u64], name: &mut [u8], h: EisHandshaker)
    requires { (is_lent words.old name.old ≡ true) × (is_sound h ≡ true) }
    ensures { (is_held words.new name.new ≡ true) × (handshake_in words.new name.new ≡ view_of h) }
{
    name.copy_from_slice(&h.name.bytes);
    store_versions(words, h.interfaces);
    words[NAME_LENGTH] = h.name.length as u64;
    words[NAME_GIVEN] = u64::from(h.name.given);
    words[CONTEXT] = u64::from(context_word(h.context));
    words[SERIAL] = u64::from(h.serial);
    words[NEXT] = h.next;
}

// Whether the slices have a handshake's lengths.
#[tactic(auto, unfolding(crate::specs::Lent::is_lent))]
fn lent(words: &[u64], name: &[u8]) -> bool
    ensures { result ≡ is_lent words.now name.now }
{
    words.len() == HANDSHAKE_LENGTH && name.len() == NAME_LENGTH_LIMIT
}

// Whether the control words have a session's besides.
fn lent_with(words: &[u64], name: &[u8], control: &[u64]) -> bool
    ensures { result ≡ (is_lent words.now name.now && eqb (length control.now) control_length) }
{
    lent(words, name) && control.len() == CONTROL_LENGTH
}

fn bad_state() -> HandshakeReply
    ensures { (result.outcome ≡ Err HandshakeError.BadState) × (result.count ≡ 0) }
{
    HandshakeReply {
        outcome: Err(HandshakeError::BadState),
        count: 0,
    }
}

// `EisHandshaker::new`: refused or not, the slices then hold a fresh handshake.
pub fn new(words: &mut [u64], name: &mut [u8], serial: u32, out: &mut [u8]) -> HandshakeReply
    ensures { Starts words name out serial result }
{
    if !lent(words, name) {
        return bad_state();
    }
    let answer = EisHandshaker::new(serial, out);
    store(words, name, answer.handshaker);
    answer.into()
}

// `EisHandshaker::handle_request`. No session is begun from what a Finish settles: `finish` does that.
pub fn handle_request(
    words: &mut [u64],
    name: &mut [u8],
    request: HandshakeMessage,
    text: &[u8],
    out: &mut [u8],
) -> HandshakeReply
    ensures { Handles words name out (request_of request text.now) result }
{
    if !lent(words, name) {
        return bad_state();
    }
    let answer = load(words, name).handle_request(request, text, out);
    if answer.outcome.is_ok() {
        store(words, name, answer.handshaker);
    }
    answer.into()
}

// Keeps what an answer gives: the handshake where it is no refusal, and where it is a Finish that succeeded, the session that it begins. By a call:
// what it copies then takes no stack while the request is handled.
#[inline(never)]
fn settle(words: &mut [u64], name: &mut [u8], control: &mut [u64], answer: HandshakeAnswer)
    requires { Settleable words.old name.old control.old answer }
    ensures { Settles words name control answer }
{
    let Ok(settled) = answer.outcome else {
        return;
    };
    store(words, name, answer.handshaker);
    if let Some(response) = settled {
        let _ = request::new(control, response);
    }
}

// A Finish, and where it succeeds the session that it begins, in the control words.
pub fn finish(
    words: &mut [u64],
    name: &mut [u8],
    control: &mut [u64],
    out: &mut [u8],
) -> HandshakeReply
    ensures { Finishes words name control out result }
{
    if !lent_with(words, name, control) {
        return bad_state();
    }
    let answer = load(words, name).handle_request(HandshakeMessage::Finish, b"", out);
    settle(words, name, control, answer);
    answer.into()
}

// What a message answers besides the slices: what became of it, the reply to its request, and how many of its bytes were taken.
#[derive(Clone, Copy, Debug)]
pub struct MessageReply {
    pub told: Result<(), Unhanded>,
    pub reply: HandshakeReply,
    pub taken: usize,
}

// `handshake_messages::pending_request`: the first message of a lent slice, read and handed on. A Finish that succeeds begins the session in the
// control words.
pub fn pending_request(
    words: &mut [u64],
    name: &mut [u8],
    control: &mut [u64],
    message: &[u8],
    out: &mut [u8],
) -> MessageReply
    ensures { Receives words name control out message.now result }
{
    if !lent_with(words, name, control) {
        return MessageReply {
            told: Ok(()),
            reply: bad_state(),
            taken: 0,
        };
    }
    let received = handshake_messages::pending_request(load(words, name), message, out);
    if received.told.is_ok() {
        settle(words, name, control, received.answer);
    }
    MessageReply {
        told: received.told,
        reply: received.answer.into(),
        taken: received.taken,
    }
}

// Who the client says it is: how long its name is, whether it was said, and the number of the context type, 0 where none was said.
#[derive(Clone, Copy, Debug, PartialEq, Eq)]
pub struct Client {
    pub length: usize,
    // Not an `Option` of the length: `bozterrun_handshake_client` tells both numbers, whatever the words hold (`client_in`).
    pub given: bool,
    pub context: u32,
}

pub fn who(words: &[u64], name: &[u8]) -> Result<Client, HandshakeError>
    ensures { Names words name result }
{
    if !lent(words, name) {
        return Err(HandshakeError::BadState);
    }
    let h = load(words, name);
    if NAME_LENGTH_LIMIT < h.name.length {
        return Err(HandshakeError::BadState);
    }
    Ok(Client {
        length: h.name.length,
        given: h.name.given,
        context: context_word(h.context),
    })
}
