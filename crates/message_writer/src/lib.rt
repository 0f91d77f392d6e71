// Event records written as the protocol's messages (the methods of src/eiproto_eis.rs that send events).
#![tactic(auto)]

ghost use Rattle.std.specs.Prelude.{◌+◌, ◌≤◌, ◌<◌, true, ◌≡◌, length, take};
ghost use Rattle.eiproto.specs.Interface.{interface_name};
ghost use Rattle.event_messages.specs.Message.{le, padded, string, message};
ghost use Rattle.event_messages.specs.Shape.{fixed_size, sent, sent_arguments, allowed, allowed_all};
ghost use Rattle.event_messages.specs.Stands.{Stands, Turned};
ghost use Rattle.event_messages.specs.declared.MessageError.{MessageError};
ghost use Rattle.message_writer.specs.Number.{big_at, values_in};
ghost use Rattle.message_writer.specs.Puts.{Puts, Begins, Sends, HasRoom, CanSend};

use eiproto::eiproto_eis;
use event_messages::{EventArgument, MessageError, Shape, Values};
use wire::event;

// The number of k bytes at a place of a record, the most significant first.
fn number_at(bytes: &[u8], at: usize, k: usize) -> u64
    requires { (at + k ≤ length bytes.now) × (k ≤ 8) }
    ensures { result ≡ big_at bytes.now at k }
{
    let mut number = [0u8; 8];
    number[8 - k..].copy_from_slice(&bytes[at..at + k]);
    u64::from_be_bytes(number)
}

fn values_in(bytes: &[u8], s: Shape) -> Values
    requires { fixed_size s ≤ length bytes.now }
    ensures { result ≡ values_in bytes.now s }
{
    let a = event_messages::width(s.first);
    let b = event_messages::width(s.second);
    let c = event_messages::width(s.third);
    Values {
        first: number_at(bytes, 10, a),
        second: number_at(bytes, 10 + a, b),
        third: number_at(bytes, 10 + (a + b), c),
    }
}

// How many bytes a string has: its length, its bytes, a zero, and zeros up to a multiple of four.
pub fn string_length(size: usize) -> usize
    requires { size ≤ 254 }
    ensures { (result ≡ 4 + padded (size + 1)) × (result ≤ 260) }
{
    4 + (size + 4) / 4 * 4
}

// How many bytes a value has in a message.
fn sent_length(argument: EventArgument, x: u64, text: &[u8]) -> usize
    requires { (length text.now ≤ 254) × (allowed argument x (length text.now) ≡ true) }
    ensures { (result ≡ length (sent argument x text.now)) × (result ≤ 260) }
{
    match argument {
        EventArgument::None => 0,
        EventArgument::Uint32 | EventArgument::Reason | EventArgument::DeviceType => 4,
        EventArgument::Uint64 => 8,
        EventArgument::Interface => string_length(eiproto_eis::name_len(x as u8)),
        EventArgument::Text => string_length(text.len()),
        EventArgument::Explanation => {
            if x == 128 {
                return string_length(text.len());
            }
            4
        }
    }
}

// How many bytes a message has.
pub fn message_length(s: Shape, v: Values, text: &[u8]) -> usize
    requires { allowed_all s v text.now ≡ true }
    ensures { result ≡ 16 + length (sent_arguments s v text.now) }
{
    let a = sent_length(s.first, v.first, text);
    let b = sent_length(s.second, v.second, text);
    let c = sent_length(s.third, v.third, text);
    16 + (a + (b + c))
}

// A buffer with room for a message, and the place behind those of its bytes that are written.
#[derive(Drop)]
struct Sent<'a> {
    out: &'a mut [u8],
    at: usize,
}

impl<'a> Sent<'a> {
    fn new(out: &'a mut [u8]) -> Sent<'a>
        ensures { Begins out.entry result }
    {
        Sent { out, at: 0 }
    }

    // The k low bytes of x, the least significant first.
    fn number(&mut self, k: usize, x: u64)
        requires { (k ≤ 8) × HasRoom self.old k }
        ensures { Sends self.old self.new (le k x) }
    {
        self.bytes(&x.to_le_bytes()[..k])
    }

    fn bytes(&mut self, bytes: &[u8])
        requires { HasRoom self.old (length bytes.now) }
        ensures { Sends self.old self.new bytes.now }
    {
        self.at = event::put_text(self.out, self.at, bytes);
    }

    fn string(&mut self, text: &[u8])
        requires { (length text.now ≤ 254) × HasRoom self.old (length (string text.now)) }
        ensures { Sends self.old self.new (string text.now) }
    {
        let size = text.len();
        self.number(4, (size + 1) as u64);
        self.bytes(text);
        self.number((size + 4) / 4 * 4 - size, 0)
    }

    fn argument(&mut self, argument: EventArgument, x: u64, text: &[u8])
        requires { CanSend self.old argument x text.now }
        ensures { Sends self.old self.new (sent argument x text.now) }
    {
        match argument {
            EventArgument::None => {}
            EventArgument::Uint32 | EventArgument::Reason | EventArgument::DeviceType => {
                self.number(4, x)
            }
            EventArgument::Uint64 => self.number(8, x),
            EventArgument::Interface => self.string(eiproto_eis::name(x as u8)),
            EventArgument::Text => self.string(text),
            EventArgument::Explanation => {
                if x == 128 {
                    return self.string(text);
                }
                self.number(4, 0)
            }
        }
    }

    fn arguments(&mut self, s: Shape, v: Values, text: &[u8])
        requires { (allowed_all s v text.now ≡ true) × HasRoom self.old (length (sent_arguments s v text.now)) }
        ensures { Sends self.old self.new (sent_arguments s v text.now) }
    {
        if s.swapped {
            self.argument(s.second, v.second, text);
            self.argument(s.first, v.first, text);
            return self.argument(s.third, v.third, text);
        }
        self.argument(s.first, v.first, text);
        self.argument(s.second, v.second, text);
        self.argument(s.third, v.third, text)
    }
}

// Writes the message of an event to the front of the buffer, where there is room for it, and answers how many bytes.
pub fn put_message(
    out: &mut [u8],
    object: u64,
    opcode: u32,
    s: Shape,
    v: Values,
    text: &[u8],
) -> usize
    requires { (allowed_all s v text.now ≡ true) × (16 + length (sent_arguments s v text.now) ≤ length out.old) }
    ensures { Puts out.old out.new 0 (message object opcode (sent_arguments s v text.now)) result }
{
    let length = message_length(s, v, text);
    let mut sent = Sent::new(out);
    sent.number(8, object);
    sent.number(4, length as u64);
    sent.number(4, opcode as u64);
    sent.arguments(s, v, text);
    sent.at
}

// The record written as a message to an object of the interface, 0 for the handshake's.
pub fn write_message(interface: u32, bytes: &[u8], out: &mut [u8]) -> Result<usize, MessageError>
    ensures { Turned (Stands interface bytes.now) MessageError.Unsendable out.old out.new result }
{
    let size = bytes.len();
    if size < 10 {
        return Err(MessageError::Unsendable);
    }
    let kind = bytes[0] / 8;
    let said = (bytes[0] % 8) as usize * 256 + bytes[1] as usize;
    if said != size {
        return Err(MessageError::Unsendable);
    }
    let Some(opcode) = event_messages::opcode_of(interface, kind) else {
        return Err(MessageError::Unsendable);
    };
    let s = event_messages::shape_of(kind);
    let fixed = event_messages::fixed_size(s);
    if size < fixed {
        return Err(MessageError::Unsendable);
    }
    let v = values_in(bytes, s);
    let text = &bytes[fixed..];
    if !event_messages::sendable(s, v, text) {
        return Err(MessageError::Unsendable);
    }
    let length = message_length(s, v, text);
    if out.len() < length {
        return Err(MessageError::ShortOut);
    }
    let object = number_at(bytes, 2, 8);
    Ok(put_message(out, object, opcode, s, v, text))
}
