// Event records read back from the protocol's messages, for a station's test client.
// Values are read leniently, and taken only where the writer makes the same message of them.
#![tactic(auto)]

ghost use Rattle.std.specs.Prelude.{◌+◌, ◌≤◌, ◌<◌, true, ◌≡◌, length};
ghost use Rattle.wire.specs.Fields.{number_of};
ghost use Rattle.event_messages.specs.Shape.{shape_of, width};
ghost use Rattle.event_messages.specs.Stands.{Stands, Turned};
ghost use Rattle.event_messages.specs.declared.MessageError.{MessageError};
ghost use Rattle.message_reader.specs.Read.{word_at, double_at, text_at, name_at, with_name, with_text, with_explanation, argument_read, Onward, read_of, values_read};
ghost use Rattle.message_reader.specs.Back.{Said, record_of};

use eiproto::eiproto_eis;
use event_messages::{EVENT_MESSAGE_LENGTH, EventArgument, MessageError, Shape, Values};
use wire::event;
use wire::event::{Fields, Number};

// Numbers at a place of a message; 0 where it ends before.
#[tactic(auto, unfolding(crate::specs::Read::word_at))]
fn word_at(message: &[u8], at: usize) -> u32
    requires { at ≤ 1000 }
    ensures { result ≡ word_at message.now at }
{
    if message.len() < at + 4 {
        return 0;
    }
    parse::number32(message, at)
}

#[tactic(auto, unfolding(crate::specs::Read::double_at))]
fn double_at(message: &[u8], at: usize) -> u64
    requires { at ≤ 1000 }
    ensures { result ≡ double_at message.now at }
{
    if message.len() < at + 8 {
        return 0;
    }
    parse::number64(message, at)
}

// A part of a message.
#[derive(Clone, Copy, Debug, PartialEq, Eq)]
struct TextPart {
    start: usize,
    length: usize,
}

const NO_PART: TextPart = TextPart {
    start: 0,
    length: 0,
};

// The text of a string, without what closes it; no part where there is none.
fn text_at(message: &[u8], at: usize) -> TextPart
    requires { at ≤ 1000 }
    ensures { (result ≡ text_at message.now at) × ((result.length ≤ 254) × (result.start + result.length ≤ length message.now)) }
{
    let count = word_at(message, at) as usize;
    if count < 1 || 255 < count || message.len() < at + 4 + count {
        return NO_PART;
    }
    TextPart {
        start: at + 4,
        length: count - 1,
    }
}

// The number of the interface that a part of the message names, 0 for none.
fn name_at(message: &[u8], part: TextPart) -> u64
    requires { part.start + part.length ≤ length message.now }
    ensures { result ≡ name_at message.now part }
{
    let end = part.start + part.length;
    match eiproto_eis::find(&message[part.start..end]) {
        Some(number) => u64::from(number),
        None => 0,
    }
}

// How far a message is read: the next value's place, the value before it, and the text's part.
#[derive(Clone, Copy, Debug, PartialEq, Eq)]
struct ReadSoFar {
    at: usize,
    value: u64,
    start: usize,
    length: usize,
}

fn with_name(message: &[u8], p: ReadSoFar) -> ReadSoFar
    requires { (p.at ≤ 600) × (p.start + p.length ≤ length message.now) }
    ensures { Onward message.now p (with_name message.now p) result }
{
    let part = text_at(message, p.at);
    ReadSoFar {
        at: p.at + message_writer::string_length(part.length),
        value: name_at(message, part),
        ..p
    }
}

fn with_text(message: &[u8], p: ReadSoFar, value: u64) -> ReadSoFar
    requires { p.at ≤ 600 }
    ensures { Onward message.now p (with_text message.now p value) result }
{
    let part = text_at(message, p.at);
    ReadSoFar {
        at: p.at + message_writer::string_length(part.length),
        value,
        start: part.start,
        length: part.length,
    }
}

// A string is an explanation, if an empty one; no string is none.
fn with_explanation(message: &[u8], p: ReadSoFar) -> ReadSoFar
    requires { p.at ≤ 600 }
    ensures { Onward message.now p (with_explanation message.now p) result }
{
    if word_at(message, p.at) == 0 {
        return ReadSoFar {
            at: p.at + 4,
            value: 0,
            start: 0,
            length: 0,
        };
    }
    with_text(message, p, 128)
}

fn read_argument(argument: EventArgument, message: &[u8], p: ReadSoFar) -> ReadSoFar
    requires { (p.at ≤ 600) × (p.start + p.length ≤ length message.now) }
    ensures { Onward message.now p (argument_read argument message.now p) result }
{
    match argument {
        EventArgument::None => ReadSoFar { value: 0, ..p },
        EventArgument::Uint32 | EventArgument::Reason | EventArgument::DeviceType => ReadSoFar {
            at: p.at + 4,
            value: u64::from(word_at(message, p.at)),
            ..p
        },
        EventArgument::Uint64 => ReadSoFar {
            at: p.at + 8,
            value: double_at(message, p.at),
            ..p
        },
        EventArgument::Interface => with_name(message, p),
        EventArgument::Text => with_text(message, p, 0),
        EventArgument::Explanation => with_explanation(message, p),
    }
}

// The values in the record's order, and the text's part of the message.
#[derive(Clone, Copy, Debug, PartialEq, Eq)]
struct Read {
    first: u64,
    second: u64,
    third: u64,
    start: usize,
    length: usize,
}

// The three values as they were read, the third last.
fn read_of(first: ReadSoFar, second: ReadSoFar, third: ReadSoFar) -> Read
    ensures { result ≡ read_of first second third third }
{
    Read {
        first: first.value,
        second: second.value,
        third: third.value,
        start: third.start,
        length: third.length,
    }
}

fn read_values(message: &[u8], s: Shape) -> Read
    ensures { (result ≡ values_read message.now s) × (result.start + result.length ≤ length message.now) }
{
    let begun = ReadSoFar {
        at: 16,
        value: 0,
        start: 0,
        length: 0,
    };
    if s.swapped {
        let second = read_argument(s.second, message, begun);
        let first = read_argument(s.first, message, second);
        let third = read_argument(s.third, message, first);
        return read_of(first, second, third);
    }
    let first = read_argument(s.first, message, begun);
    let second = read_argument(s.second, message, first);
    let third = read_argument(s.third, message, second);
    read_of(first, second, third)
}

// Whether the message is the one that is written of the values and the text.
fn is_message(message: &[u8], object: u64, opcode: u32, kind: u8, v: Values, text: &[u8]) -> bool
    requires { kind < 19 }
    ensures { (result ≡ true → Said message.now object opcode (shape_of kind) v text.now) × (Said message.now object opcode (shape_of kind) v text.now → result ≡ true) }
{
    let s = event_messages::shape_of(kind);
    if !event_messages::sendable(s, v, text) {
        return false;
    }
    let length = message_writer::message_length(s, v, text);
    let mut again = [0u8; EVENT_MESSAGE_LENGTH];
    message_writer::put_message(&mut again, object, opcode, s, v, text);
    message == &again[..length]
}

// A value as a record's number.
fn number(argument: EventArgument, value: u64) -> Number
    ensures { result ≡ number_of (width argument) value }
{
    Number {
        bytes: event_messages::width(argument),
        value,
    }
}

// The record of a kind, at the front of the buffer, where there is room for it.
fn write_record(
    out: &mut [u8],
    object: u64,
    kind: u8,
    v: Values,
    text: &[u8],
) -> Result<usize, MessageError>
    requires { (kind < 19) × (length text.now ≤ 254) }
    ensures { Turned (λ bytes. bytes ≡ record_of object kind v text.now) MessageError.Malformed out.old out.new result }
{
    let s = event_messages::shape_of(kind);
    let size = event_messages::fixed_size(s) + text.len();
    if out.len() < size {
        return Err(MessageError::ShortOut);
    }
    let f = Fields {
        kind: u64::from(kind),
        first: number(s.first, v.first),
        second: number(s.second, v.second),
        third: number(s.third, v.third),
        text: true,
    };
    event::put_whole(out, 0, object, f, text);
    Ok(size)
}

// The message, to an object of the interface, read as a record, 0 for the handshake's.
pub fn read_message(interface: u32, message: &[u8], out: &mut [u8]) -> Result<usize, MessageError>
    ensures { Turned (λ bytes. Stands interface bytes message.now) MessageError.Malformed out.old out.new result }
{
    let opcode = word_at(message, 12);
    let kind = event_messages::kind_at(interface, opcode);
    if kind == 0 {
        return Err(MessageError::Malformed);
    }
    let object = double_at(message, 0);
    let read = read_values(message, event_messages::shape_of(kind));
    let end = read.start + read.length;
    let text = &message[read.start..end];
    let v = Values {
        first: read.first,
        second: read.second,
        third: read.third,
    };
    if !is_message(message, object, opcode, kind, v, text) {
        return Err(MessageError::Malformed);
    }
    write_record(out, object, kind, v, text)
}
