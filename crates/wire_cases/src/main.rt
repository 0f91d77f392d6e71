// Event records as bytes: each kind, texts of several lengths, records at a place and records that do not fit.
#![tactic(auto)]

ghost use Rattle.std.specs.Prelude.{◌≡◌, length};

use std::io;
use std::io::Write;
use wire::backend::HANDSHAKE_ID;
use wire::event::Event;

// The ids of a connection, a seat, a device and its pointer, as a server gives them.
const CONNECTION_ID: u64 = 0xff00_0000_0000_0000;

const SEAT_ID: u64 = 0xff00_0000_0000_0001;

const DEVICE_ID: u64 = 0xff00_0000_0000_0002;

const POINTER_ID: u64 = 0xff00_0000_0000_0003;

// Numbers in which each byte tells its place.
const ID: u64 = 0x0102_0304_0506_0708;

const LONG: u64 = 0x1112_1314_1516_1718;

const WORD: u32 = 0x2122_2324;

const NEXT: u32 = 0x3132_3334;

// A table, since `write!(to, " {b:02x}")` makes two writes of each byte.
const HEX_DIGITS: [u8; 16] = *b"0123456789abcdef";

// A line: a name, and bytes in hexadecimal, each handed over in one write.
fn show(to: &mut impl Write, name: &[u8], bytes: &[u8]) -> io::Result<()> {
    to.write_all(name)?;
    to.write_all(b":")?;
    for b in bytes {
        let high = HEX_DIGITS[usize::from(b / 16)];
        let low = HEX_DIGITS[usize::from(b % 16)];
        to.write_all(&[b' ', high, low])?;
    }
    to.write_all(b"\n")
}

// An event's record. The longest is of 273 bytes.
fn record(to: &mut impl Write, name: &[u8], object: u64, e: Event, text: &[u8]) -> io::Result<()> {
    let mut out = [0u8; 273];
    let n = wire::event::put_record(&mut out, 0, object, e, text);
    show(to, name, &out[..n])
}

fn handshake_version(to: &mut impl Write, version: u32) -> io::Result<()> {
    record(
        to,
        b"handshake version",
        HANDSHAKE_ID,
        Event::HandshakeVersion { version },
        b"",
    )
}

fn interface_version(to: &mut impl Write, interface: u8, version: u32) -> io::Result<()> {
    let e = Event::InterfaceVersion { interface, version };
    record(to, b"interface version", HANDSHAKE_ID, e, b"")
}

fn connection(to: &mut impl Write, id: u64, serial: u32, version: u32) -> io::Result<()> {
    let e = Event::Connection {
        id,
        serial,
        version,
    };
    record(to, b"connection", HANDSHAKE_ID, e, b"")
}

fn seat(to: &mut impl Write, object: u64, id: u64, version: u32) -> io::Result<()> {
    record(to, b"seat", object, Event::Seat { id, version }, b"")
}

fn capability(to: &mut impl Write, object: u64, mask: u64, interface: u8) -> io::Result<()> {
    record(
        to,
        b"capability",
        object,
        Event::Capability { mask, interface },
        b"",
    )
}

fn device(to: &mut impl Write, object: u64, id: u64, version: u32) -> io::Result<()> {
    record(to, b"device", object, Event::Device { id, version }, b"")
}

fn interface(
    to: &mut impl Write,
    object: u64,
    id: u64,
    interface: u8,
    version: u32,
) -> io::Result<()> {
    let e = Event::Interface {
        id,
        interface,
        version,
    };
    record(to, b"interface", object, e, b"")
}

fn start(to: &mut impl Write, object: u64, serial: u32, sequence: u32) -> io::Result<()> {
    record(
        to,
        b"start",
        object,
        Event::StartEmulating { serial, sequence },
        b"",
    )
}

fn frame(to: &mut impl Write, object: u64, serial: u32, time: u64) -> io::Result<()> {
    record(to, b"frame", object, Event::Frame { serial, time }, b"")
}

fn disconnected(
    to: &mut impl Write,
    serial: u32,
    reason: u32,
    explained: bool,
    text: &[u8],
) -> io::Result<()> {
    let e = Event::Disconnected {
        serial,
        reason,
        explained,
    };
    record(to, b"disconnected", CONNECTION_ID, e, text)
}

// A session's records, of each kind one.
fn session(to: &mut impl Write) -> io::Result<()> {
    handshake_version(to, 1)?;
    interface_version(to, 1, 1)?;
    connection(to, CONNECTION_ID, 7, 1)?;
    seat(to, CONNECTION_ID, SEAT_ID, 2)?;
    record(to, b"name", SEAT_ID, Event::Name, b"aa")?;
    capability(to, SEAT_ID, 1, 6)?;
    record(to, b"done", SEAT_ID, Event::Done, b"")?;
    device(to, SEAT_ID, DEVICE_ID, 3)?;
    record(
        to,
        b"device type",
        DEVICE_ID,
        Event::DeviceType { value: 1 },
        b"",
    )?;
    interface(to, DEVICE_ID, POINTER_ID, 6, 1)?;
    record(to, b"resumed", DEVICE_ID, Event::Resumed { serial: 8 }, b"")?;
    record(to, b"paused", DEVICE_ID, Event::Paused { serial: 1 }, b"")?;
    start(to, DEVICE_ID, 2, 9)?;
    record(
        to,
        b"stop",
        DEVICE_ID,
        Event::StopEmulating { serial: 3 },
        b"",
    )?;
    frame(to, DEVICE_ID, 4, 500)?;
    record(
        to,
        b"callback done",
        5,
        Event::CallbackDone { value: 0 },
        b"",
    )?;
    record(
        to,
        b"destroyed",
        SEAT_ID,
        Event::Destroyed { serial: 8 },
        b"",
    )?;
    disconnected(to, 7, 5, true, b"hi")
}

// The order of the fields and of their bytes.
fn orders(to: &mut impl Write) -> io::Result<()> {
    seat(to, ID, LONG, WORD)?;
    capability(to, ID, LONG, 0x41)?;
    device(to, ID, LONG, WORD)?;
    interface(to, ID, LONG, 0x41, WORD)?;
    start(to, ID, WORD, NEXT)?;
    frame(to, ID, WORD, LONG)?;
    record(
        to,
        b"callback done",
        ID,
        Event::CallbackDone { value: LONG },
        b"",
    )?;
    interface_version(to, 0x41, WORD)?;
    connection(to, LONG, WORD, NEXT)
}

// Texts of 0, 1 and 254 bytes, and a text that is lent and not asked for.
fn texts(to: &mut impl Write, long: &[u8]) -> io::Result<()> {
    record(to, b"name", SEAT_ID, Event::Name, b"")?;
    record(to, b"name", SEAT_ID, Event::Name, b"a")?;
    record(to, b"name", SEAT_ID, Event::Name, long)?;
    record(to, b"done", SEAT_ID, Event::Done, long)?;
    disconnected(to, WORD, NEXT, false, b"")?;
    disconnected(to, WORD, NEXT, false, long)?;
    disconnected(to, WORD, NEXT, true, b"")?;
    disconnected(to, WORD, NEXT, true, b"a")?;
    disconnected(to, WORD, NEXT, true, long)
}

// A record at a place of twenty bytes 55: how many bytes are written, and the buffer.
fn placed(to: &mut impl Write, at: usize, e: Event, text: &[u8]) -> io::Result<()> {
    let mut out = [0x55u8; 20];
    let n = wire::event::put_record(&mut out, at, SEAT_ID, e, text);
    write!(to, "at {at} writes {n}")?;
    show(to, b"", &out)
}

// A record of 14 bytes has 14 bytes of room up to place 6; a name of 10 bytes fills the twenty.
fn places(to: &mut impl Write) -> io::Result<()> {
    let e = Event::Destroyed { serial: 8 };
    placed(to, 0, e, b"")?;
    placed(to, 3, e, b"")?;
    placed(to, 6, e, b"")?;
    placed(to, 7, e, b"")?;
    placed(to, 20, e, b"")?;
    placed(to, 21, e, b"")?;
    placed(to, 0xffff_ffff_ffff_ffff, e, b"")?;
    placed(to, 0, Event::Name, b"abcdefghij")?;
    placed(to, 0, Event::Name, b"abcdefghijk")
}

// Three records, one behind the other.
fn row(to: &mut impl Write) -> io::Result<()> {
    let mut out = [0x55u8; 40];
    let a = wire::event::put_record(&mut out, 0, SEAT_ID, Event::Done, b"");
    let b = wire::event::put_record(&mut out, a, SEAT_ID, Event::Name, b"a");
    let e = Event::Destroyed { serial: 8 };
    wire::event::put_record(&mut out, a + b, SEAT_ID, e, b"");
    show(to, b"three", &out)
}

// The letters, over and over: the longest text.
fn letters() -> [u8; 254]
    ensures { 254 ≡ length result }
{
    let mut text = [b'a'; 254];
    for i in 0..254 {
        text[i] = b'a' + (i % 26) as u8;
    }
    text
}

fn main(rt: HostRuntime) -> io::Result<()> {
    let mut out = io::writer(&rt);
    let long = letters();
    session(&mut out)?;
    orders(&mut out)?;
    texts(&mut out, &long)?;
    places(&mut out)?;
    row(&mut out)?;
    out.flush()
}
