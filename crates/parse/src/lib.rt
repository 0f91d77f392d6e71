// A client's message, whole, on an object whose interface is known: its request and its arguments (the `parse` functions of src/eiproto_eis.rs).
#![tactic(auto, unfolding(crate::specs::Table::signature_of, crate::specs::Parse::with_number, crate::specs::Parse::with_real, crate::specs::Parse::with_text, crate::specs::Parse::word_read, crate::specs::Parse::needing, crate::specs::Parse::variant_read, crate::specs::Parse::double_word_read, crate::specs::Parse::real_read, crate::specs::Parse::text_read, crate::specs::Parse::read_by, crate::specs::Parse::begun, crate::specs::Parse::ended, crate::specs::Parse::parsed, crate::specs::Parse::parsed_as, crate::specs::Parse::argument_read, crate::specs::First::first_of, crate::specs::First::first_as))]

ghost use Rattle.std.specs.Prelude.{◌≡◌, ◌+◌, ◌≤◌, leb, length, get_or, Ok};
ghost use Rattle.requests.specs.Kind.{request_number};
ghost use Rattle.std.specs.Float.{binary32};
ghost use Rattle.std.specs.Float.Ieee.{of_bits};
ghost use Rattle.parse.specs.Table.{row, signature_of};
ghost use Rattle.parse.specs.First.{first_of};
ghost use Rattle.parse.specs.Parse.{le32, le64, with_number, with_real, with_text, word_read, variant_read, double_word_read, real_read, text_read, read_by, begun, ended, parsed};

use eiproto::eiproto_eis;
use requests::eis::RequestKind;
use wire::ParseError;

// The object's id, the length and the opcode.
pub const HEADER_LENGTH: usize = 16;

// "Lengths above 1,024 are malformed".
pub const MESSAGE_LENGTH_LIMIT: usize = 1024;

// What an argument is. A signed number is read as its 32 bits, and a new object's id as a number.
// `None` is a case as the others, so that `read_argument` reads each of a request's three: an `Option` would be tested three times.
#[derive(Clone, Copy, Debug, PartialEq, Eq)]
pub enum Argument {
    None,
    Uint32,
    Uint64,
    Float,
    String,
    PressState,
    ContextType,
}

// A request's number and its arguments: no request has more than three.
#[derive(Clone, Copy, Debug, PartialEq, Eq)]
pub struct Signature {
    pub request: u64,
    pub first: Argument,
    pub second: Argument,
    pub third: Argument,
}

// A request's arguments as they are read: whole numbers in their order, a text's part of the message, and reals in their order.
#[derive(Clone, Copy, Debug, PartialEq)]
pub struct Arguments {
    pub request: u64,
    pub first: u64,
    pub second: u64,
    pub third: u64,
    pub start: usize,
    pub length: usize,
    pub x: f32,
    pub y: f32,
}

// How far a message is read: the next argument's place, how many whole numbers and reals were read, and what was read.
#[derive(Clone, Copy, Debug, PartialEq)]
pub struct Progress {
    pub at: usize,
    pub numbers: u64,
    pub reals: u64,
    pub read: Arguments,
}

// The first message of some bytes: its request's arguments and how many bytes it has.
#[derive(Clone, Copy, Debug, PartialEq)]
pub struct First {
    pub arguments: Arguments,
    pub length: usize,
}

// Little-endian numbers at a place of a message.
#[tactic(auto, unfolding(crate::specs::Parse::le32))]
pub fn number32(message: &[u8], at: usize) -> u32
    requires { at + 4 ≤ length message.now }
    ensures { result ≡ le32 message.now at }
{
    u32::from_le_bytes([
        message[at],
        message[at + 1],
        message[at + 2],
        message[at + 3],
    ])
}

// Two numbers of four bytes, as `le64` of specs/Parse has it.
#[tactic(auto, unfolding(crate::specs::Parse::le64))]
pub fn number64(message: &[u8], at: usize) -> u64
    requires { at + 8 ≤ length message.now }
    ensures { result ≡ le64 message.now at }
{
    u64::from(number32(message, at)) + 0x1_0000_0000 * u64::from(number32(message, at + 4))
}

// The real number of a bit pattern; every pattern of a NaN is the NaN. A call by itself, either way of it takes as many instructions: inlined, they
// differed by one jump, and so did messages by their coordinates (tests/timing.py).
#[inline(never)]
fn of_bits(bits: u32) -> f32
    ensures { result ≡ of_bits binary32 bits }
{
    if 0x7f80_0000 < bits % 0x8000_0000 {
        return f32::NAN;
    }
    f32::from_bits(bits)
}

// A row of the table: a request's arguments in their order.
fn row<const N: usize>(request: RequestKind, arguments: [Argument; N]) -> Option<Signature>
    ensures { result ≡ row (request_number request) (get_or arguments.entry 0 Argument.None) (get_or arguments.entry 1 Argument.None) (get_or arguments.entry 2 Argument.None) }
{
    Some(Signature {
        request: request as u64,
        first: arguments.get(0).copied().unwrap_or(Argument::None),
        second: arguments.get(1).copied().unwrap_or(Argument::None),
        third: arguments.get(2).copied().unwrap_or(Argument::None),
    })
}

// The handshake's interface, which no name stands for.
const HANDSHAKE: u8 = 0;

// The requests of an interface, by opcode.
pub fn signature_of(interface: u8, opcode: u32) -> Option<Signature>
    ensures { result ≡ signature_of interface opcode }
{
    match interface {
        HANDSHAKE => match opcode {
            0 => row(RequestKind::HandshakeVersion, [Argument::Uint32]),
            1 => row(RequestKind::HandshakeFinish, []),
            2 => row(RequestKind::HandshakeContextType, [Argument::ContextType]),
            3 => row(RequestKind::HandshakeName, [Argument::String]),
            4 => row(
                RequestKind::HandshakeInterfaceVersion,
                [Argument::String, Argument::Uint32],
            ),
            _ => None,
        },
        eiproto_eis::CONNECTION => match opcode {
            0 => row(
                RequestKind::ConnectionSync,
                [Argument::Uint64, Argument::Uint32],
            ),
            1 => row(RequestKind::ConnectionDisconnect, []),
            _ => None,
        },
        eiproto_eis::CALLBACK => None,
        eiproto_eis::PINGPONG => match opcode {
            0 => row(RequestKind::PingpongDone, [Argument::Uint64]),
            _ => None,
        },
        eiproto_eis::SEAT => match opcode {
            0 => row(RequestKind::SeatRelease, []),
            1 => row(RequestKind::SeatBind, [Argument::Uint64]),
            2 => row(RequestKind::SeatRequestDevice, [Argument::Uint64]),
            _ => None,
        },
        eiproto_eis::DEVICE => match opcode {
            0 => row(RequestKind::DeviceRelease, []),
            1 => row(
                RequestKind::DeviceStartEmulating,
                [Argument::Uint32, Argument::Uint32],
            ),
            2 => row(RequestKind::DeviceStopEmulating, [Argument::Uint32]),
            3 => row(
                RequestKind::DeviceFrame,
                [Argument::Uint32, Argument::Uint64],
            ),
            4 => row(RequestKind::DeviceReady, []),
            _ => None,
        },
        eiproto_eis::POINTER => match opcode {
            0 => row(RequestKind::PointerRelease, []),
            1 => row(
                RequestKind::PointerMotionRelative,
                [Argument::Float, Argument::Float],
            ),
            _ => None,
        },
        eiproto_eis::POINTER_ABSOLUTE => match opcode {
            0 => row(RequestKind::PointerAbsoluteRelease, []),
            1 => row(
                RequestKind::PointerAbsoluteMotionAbsolute,
                [Argument::Float, Argument::Float],
            ),
            _ => None,
        },
        eiproto_eis::SCROLL => match opcode {
            0 => row(RequestKind::ScrollRelease, []),
            1 => row(
                RequestKind::ScrollScroll,
                [Argument::Float, Argument::Float],
            ),
            2 => row(
                RequestKind::ScrollScrollDiscrete,
                [Argument::Uint32, Argument::Uint32],
            ),
            3 => row(
                RequestKind::ScrollScrollStop,
                [Argument::Uint32, Argument::Uint32, Argument::Uint32],
            ),
            _ => None,
        },
        eiproto_eis::BUTTON => match opcode {
            0 => row(RequestKind::ButtonRelease, []),
            1 => row(
                RequestKind::ButtonButton,
                [Argument::Uint32, Argument::PressState],
            ),
            _ => None,
        },
        eiproto_eis::KEYBOARD => match opcode {
            0 => row(RequestKind::KeyboardRelease, []),
            1 => row(
                RequestKind::KeyboardKey,
                [Argument::Uint32, Argument::PressState],
            ),
            _ => None,
        },
        eiproto_eis::TOUCHSCREEN => match opcode {
            0 => row(RequestKind::TouchscreenRelease, []),
            1 => row(
                RequestKind::TouchscreenDown,
                [Argument::Uint32, Argument::Float, Argument::Float],
            ),
            2 => row(
                RequestKind::TouchscreenMotion,
                [Argument::Uint32, Argument::Float, Argument::Float],
            ),
            3 => row(RequestKind::TouchscreenUp, [Argument::Uint32]),
            4 => row(RequestKind::TouchscreenCancel, [Argument::Uint32]),
            _ => None,
        },
        eiproto_eis::TEXT => match opcode {
            0 => row(RequestKind::TextRelease, []),
            1 => row(
                RequestKind::TextKeysym,
                [Argument::Uint32, Argument::PressState],
            ),
            2 => row(RequestKind::TextUtf8, [Argument::String]),
            _ => None,
        },
        _ => None,
    }
}

// Whether the message has so many bytes from a place on. Nothing is added, so no number is too large.
fn has(message: &[u8], at: usize, count: usize) -> bool
    ensures { result ≡ leb (at + count) (length message.now) }
{
    at <= message.len() && count <= message.len() - at
}

// What was read, with one more whole number, real or text, and the next argument's place.
fn with_number(p: Progress, next: usize, number: u64) -> Progress
    ensures { result ≡ with_number p next number }
{
    match p.numbers {
        0 => Progress {
            at: next,
            numbers: 1,
            read: Arguments {
                first: number,
                ..p.read
            },
            ..p
        },
        1 => Progress {
            at: next,
            numbers: 2,
            read: Arguments {
                second: number,
                ..p.read
            },
            ..p
        },
        _ => Progress {
            at: next,
            numbers: 3,
            read: Arguments {
                third: number,
                ..p.read
            },
            ..p
        },
    }
}

fn with_real(p: Progress, next: usize, real: f32) -> Progress
    ensures { result ≡ with_real p next real }
{
    match p.reals {
        0 => Progress {
            at: next,
            reals: 1,
            read: Arguments { x: real, ..p.read },
            ..p
        },
        _ => Progress {
            at: next,
            reals: 2,
            read: Arguments { y: real, ..p.read },
            ..p
        },
    }
}

fn with_text(p: Progress, next: usize, start: usize, length: usize) -> Progress
    ensures { result ≡ with_text p next start length }
{
    Progress {
        at: next,
        read: Arguments {
            start,
            length,
            ..p.read
        },
        ..p
    }
}

// An argument of four bytes that is a whole number, and one that is an enum's, whose cases have these numbers and those between.
fn word(message: &[u8], p: Progress) -> Result<Progress, ParseError>
    ensures { result ≡ word_read message.now p }
{
    if !has(message, p.at, 4) {
        return Err(ParseError::EndOfMessage);
    }
    Ok(with_number(p, p.at + 4, u64::from(number32(message, p.at))))
}

fn variant(message: &[u8], p: Progress, least: u32, most: u32) -> Result<Progress, ParseError>
    ensures { result ≡ variant_read least most message.now p }
{
    if !has(message, p.at, 4) {
        return Err(ParseError::EndOfMessage);
    }
    let number = number32(message, p.at);
    if number < least || most < number {
        return Err(ParseError::InvalidVariant { variant: number });
    }
    Ok(with_number(p, p.at + 4, u64::from(number)))
}

// One of eight bytes.
fn double_word(message: &[u8], p: Progress) -> Result<Progress, ParseError>
    ensures { result ≡ double_word_read message.now p }
{
    if !has(message, p.at, 8) {
        return Err(ParseError::EndOfMessage);
    }
    Ok(with_number(p, p.at + 8, number64(message, p.at)))
}

// A real number.
fn real(message: &[u8], p: Progress) -> Result<Progress, ParseError>
    ensures { result ≡ real_read message.now p }
{
    if !has(message, p.at, 4) {
        return Err(ParseError::EndOfMessage);
    }
    Ok(with_real(p, p.at + 4, of_bits(number32(message, p.at))))
}

// A text: its length with the closing zero, its bytes, and zeros up to a multiple of four. What closes and pads it is not looked at.
fn text(message: &[u8], p: Progress) -> Result<Progress, ParseError>
    ensures { result ≡ text_read message.now p }
{
    if !has(message, p.at, 4) {
        return Err(ParseError::EndOfMessage);
    }
    let count = number32(message, p.at) as usize;
    if count == 0 {
        return Err(ParseError::InvalidNull);
    }
    let start = p.at + 4;
    let padded = (count + 3) / 4 * 4;
    if !has(message, start, padded) {
        return Err(ParseError::EndOfMessage);
    }
    if !utf8::valid(&message[start..][..count - 1]) {
        return Err(ParseError::Utf8);
    }
    Ok(with_text(p, start + padded, start, count - 1))
}

// One argument.
fn read_argument(kind: Argument, message: &[u8], p: Progress) -> Result<Progress, ParseError>
    ensures { result ≡ read_by kind message.now p }
{
    match kind {
        Argument::None => Ok(p),
        Argument::Uint32 => word(message, p),
        Argument::Uint64 => double_word(message, p),
        Argument::Float => real(message, p),
        Argument::String => text(message, p),
        Argument::PressState => variant(message, p, 0, 1),
        Argument::ContextType => variant(message, p, 1, 2),
    }
}

// Nothing is read yet.
fn begin(request: u64) -> Progress
    ensures { Ok result ≡ begun request }
{
    Progress {
        at: HEADER_LENGTH,
        numbers: 0,
        reals: 0,
        read: Arguments {
            request,
            first: 0,
            second: 0,
            third: 0,
            start: 0,
            length: 0,
            x: 0.0,
            y: 0.0,
        },
    }
}

// No bytes may be left.
fn end(message: &[u8], p: Progress) -> Result<Arguments, ParseError>
    requires { length message.now ≤ 1024 }
    ensures { result ≡ ended message.now (Ok p) }
{
    let length = message.len();
    if p.at < length {
        return Err(ParseError::MessageLength {
            read: (length + (length - p.at)) as u32,
            header: length as u32,
        });
    }
    Ok(p.read)
}

// The request of a message and its arguments, or the first thing that is wrong with it.
pub fn parse(interface: u8, message: &[u8]) -> Result<Arguments, ParseError>
    requires { (16 ≤ length message.now) × (length message.now ≤ 1024) }
    ensures { result ≡ parsed interface message.now }
{
    let opcode = number32(message, 12);
    let Some(s) = signature_of(interface, opcode) else {
        return Err(ParseError::InvalidOpcode { interface, opcode });
    };
    let one = read_argument(s.first, message, begin(s.request))?;
    let two = read_argument(s.second, message, one)?;
    let three = read_argument(s.third, message, two)?;
    end(message, three)
}

// The first message of the bytes, on an object of this interface, behind its id; none where it is not yet whole. Bytes behind it are not read.
pub fn read_first(interface: u8, bytes: &[u8]) -> Result<Option<First>, ParseError>
    requires { 16 ≤ length bytes.now }
    ensures { result ≡ first_of interface bytes.now }
{
    let header = number32(bytes, 8);
    let length = header as usize;
    if length < HEADER_LENGTH || MESSAGE_LENGTH_LIMIT < length {
        return Err(ParseError::HeaderLength { length: header });
    }
    if bytes.len() < length {
        return Ok(None);
    }
    let arguments = parse(interface, &bytes[..length])?;
    Ok(Some(First { arguments, length }))
}
