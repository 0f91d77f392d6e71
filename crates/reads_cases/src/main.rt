// Whole reads: each with the number accepted, the bytes of events and the first refusal, and what the station is then given.
// The session of each: all twelve interfaces, a seat and a device with every capability.
#![tactic(auto)]

use answers::Error;
use control::{CONTROL_LENGTH, QUEUE_LIMIT};
use converter::request;
use eiproto::eiproto_enum::{DeviceType, KeyState};
use handshake::handshake::{EisHandshaker, HandshakeMessage};
use reads::ReadAnswer;
use reads::record::RequestRecord;
use requests::eis::{
    ConnectionRequest, DeviceRequest, HandshakeRequest, InterfaceRequest, KeyboardRequest, Request,
    SeatRequest, TextRequest, TouchscreenRequest,
};
use requests::request::EisRequest;
use session::{REALS_LENGTH, TEXTS_LENGTH, WORDS_LENGTH};
use std::io;
use std::io::Write;

// The ids that the session's calls give. A device's interfaces follow it, by capability bit.
const CONNECTION: u64 = 0xff00_0000_0000_0000;

const SEAT: u64 = 0xff00_0000_0000_0001;

const DEVICE: u64 = 0xff00_0000_0000_0002;

const KEYBOARD: u64 = 0xff00_0000_0000_0005;

const TOUCHSCREEN: u64 = 0xff00_0000_0000_0006;

const TEXT: u64 = 0xff00_0000_0000_0009;

// ---- the session

// Its memory.
#[derive(Drop)]
struct Session {
    control: [u64; CONTROL_LENGTH],
    words: [u64; WORDS_LENGTH],
    reals: [f32; REALS_LENGTH],
    texts: [u8; TEXTS_LENGTH],
}

// As station has it, which is an example and stands by itself.
fn knows(shaking: EisHandshaker, name: &[u8], version: u32) -> EisHandshaker {
    let message = HandshakeMessage::InterfaceVersion { version };
    shaking.handle_request(message, name, &mut []).handshaker
}

// The interfaces of the protocol itself, and those of a device, with their versions.
const INTERFACES: [(&[u8], u32); 12] = [
    (b"ei_connection", 1),
    (b"ei_callback", 1),
    (b"ei_pingpong", 1),
    (b"ei_seat", 2),
    (b"ei_device", 3),
    (b"ei_pointer", 1),
    (b"ei_pointer_absolute", 1),
    (b"ei_scroll", 1),
    (b"ei_button", 1),
    (b"ei_keyboard", 1),
    (b"ei_touchscreen", 2),
    (b"ei_text", 1),
];

// The last serial is 7.
fn begin(control: &mut [u64]) {
    let mut out = [0u8; 4096];
    let mut shaking = EisHandshaker::new(7, &mut out).handshaker;
    for (name, version) in INTERFACES {
        shaking = knows(shaking, name, version);
    }
    let finished = shaking.handle_request(HandshakeMessage::Finish, b"", &mut out);
    if let Ok(Some(response)) = finished.outcome {
        let _ = request::new(control, response);
    }
    let _ = connection::add_seat(control, None, 127, &mut out);
    let _ = seat::add_device(control, SEAT, None, DeviceType::Virtual, 127, &mut out);
}

// ---- records: each without a part of the texts, or with this one

fn part(object: u64, version: u32, request: Request, start: usize, length: usize) -> RequestRecord {
    RequestRecord {
        object,
        version,
        request,
        start,
        length,
    }
}

fn key_part(key: u32, state: KeyState, start: usize, length: usize) -> RequestRecord {
    let sent = KeyboardRequest::Key { key, state };
    let request = Request::Interface(InterfaceRequest::Keyboard(sent));
    part(KEYBOARD, 1, request, start, length)
}

fn press(key: u32) -> RequestRecord {
    key_part(key, KeyState::Press, 0, 0)
}

fn released(key: u32) -> RequestRecord {
    key_part(key, KeyState::Released, 0, 0)
}

fn release_keyboard() -> RequestRecord {
    let request = Request::Interface(InterfaceRequest::Keyboard(KeyboardRequest::Release));
    part(KEYBOARD, 1, request, 0, 0)
}

fn utf8(object: u64, start: usize, length: usize) -> RequestRecord {
    let request = Request::Interface(InterfaceRequest::Text(TextRequest::Utf8));
    part(object, 1, request, start, length)
}

fn frame(timestamp: u64) -> RequestRecord {
    let request = Request::Device(DeviceRequest::Frame {
        last_serial: 7,
        timestamp,
    });
    part(DEVICE, 3, request, 0, 0)
}

// A capability that no seat has.
fn bind() -> RequestRecord {
    let request = Request::Seat(SeatRequest::Bind { capabilities: 128 });
    part(SEAT, 2, request, 0, 0)
}

fn sync(callback: u64) -> RequestRecord {
    let sent = ConnectionRequest::Sync {
        callback,
        version: 1,
    };
    part(CONNECTION, 1, Request::Connection(sent), 0, 0)
}

fn touch(version: u32, sent: TouchscreenRequest) -> RequestRecord {
    let request = Request::Interface(InterfaceRequest::Touchscreen(sent));
    part(TOUCHSCREEN, version, request, 0, 0)
}

fn name(start: usize, length: usize) -> RequestRecord {
    part(
        0,
        1,
        Request::Handshake(HandshakeRequest::Name),
        start,
        length,
    )
}

// The first records of an array, and what stands behind them.
fn two(a: RequestRecord, b: RequestRecord) -> [RequestRecord; 32] {
    let mut all = [b; 32];
    all[0] = a;
    all
}

fn three(a: RequestRecord, b: RequestRecord, c: RequestRecord) -> [RequestRecord; 32] {
    let mut all = [c; 32];
    all[0] = a;
    all[1] = b;
    all
}

// ---- what is written

// The first n bytes, in hexadecimal.
fn hex(to: &mut impl Write, bytes: &[u8], n: usize) -> io::Result<()> {
    for byte in bytes.iter().take(n) {
        write!(to, "{byte:02x}")?;
    }
    Ok(())
}

fn refused(to: &mut impl Write, error: Error) -> io::Result<()> {
    write!(to, ", refused {}", error.number())?;
    if let Error::InvalidInterfaceVersion { interface, version } = error {
        write!(to, " interface {interface} version {version}")?;
    }
    Ok(())
}

fn answered(to: &mut impl Write, line: &str, r: ReadAnswer, out: &[u8]) -> io::Result<()> {
    write!(to, "{line}: accepted {}, bytes {}", r.accepted, r.count)?;
    if let Some(error) = r.refusal {
        refused(to, error)?;
    }
    if 0 < r.count {
        write!(to, ": ")?;
        hex(to, out, r.count)?;
    }
    writeln!(to)
}

fn act(to: &mut impl Write, given: EisRequest, text: &[u8]) -> io::Result<()> {
    match given {
        EisRequest::KeyboardKey {
            key,
            state,
            time,
            ..
        } => writeln!(to, "    key {key} state {} time {time}", state.number()),
        EisRequest::TextUtf8 { length, time, .. } => {
            write!(to, "    text ")?;
            hex(to, text, length as usize)?;
            writeln!(to, " time {time}")
        }
        EisRequest::Frame {
            last_serial,
            time,
            ..
        } => writeln!(to, "    frame {last_serial} time {time}"),
        _ => writeln!(to, "    another"),
    }
}

// ---- reads

// All that is queued, oldest first.
fn take(to: &mut impl Write, session: &mut Session) -> io::Result<()> {
    let mut text = [0u8; 254];
    for _ in 0..QUEUE_LIMIT {
        let next = request::next_request(
            &mut session.control,
            &session.words,
            &session.reals,
            &session.texts,
            &mut text,
        );
        match next {
            Ok(Some(given)) => act(to, given, &text)?,
            _ => return writeln!(to, "    none"),
        }
    }
    Ok(())
}

// A session with the first n of these records handed over, with these texts and so much of `out`; then a read of a frame at 500, and what is given.
fn read(
    to: &mut impl Write,
    line: &str,
    records: [RequestRecord; 32],
    n: usize,
    lent: &[u8],
    out: &mut [u8],
) -> io::Result<()> {
    let mut session = Session {
        control: [0; CONTROL_LENGTH],
        words: [0; WORDS_LENGTH],
        reals: [0.0; REALS_LENGTH],
        texts: [0; TEXTS_LENGTH],
    };
    begin(&mut session.control);
    let r = read_array::handle_array(
        &mut session.control,
        &mut session.words,
        &mut session.reals,
        &mut session.texts,
        records,
        n,
        lent,
        600,
        out,
    );
    answered(to, line, r, out)?;
    read_array::handle_array(
        &mut session.control,
        &mut session.words,
        &mut session.reals,
        &mut session.texts,
        [frame(500); 32],
        1,
        b"",
        600,
        &mut [],
    );
    take(to, &mut session)
}

// With room enough, and the texts `abcd`.
fn reads(
    to: &mut impl Write,
    line: &str,
    records: [RequestRecord; 32],
    n: usize,
) -> io::Result<()> {
    let mut out = [0u8; 64];
    read(to, line, records, n, b"abcd", &mut out)
}

// The same of one record.
fn one(to: &mut impl Write, line: &str, record: RequestRecord) -> io::Result<()> {
    reads(to, line, [record; 32], 1)
}

// The trial lines by their numbers.
fn keys(to: &mut impl Write) -> io::Result<()> {
    reads(to, "1", [press(30); 32], 0)?;
    reads(to, "2", three(press(30), released(30), frame(500)), 3)?;
    reads(to, "3", three(press(30), bind(), press(31)), 3)?;
    reads(to, "8", two(bind(), utf8(TEXT, 5, 0)), 2)?;
    reads(to, "11", three(press(30), release_keyboard(), press(31)), 3)
}

fn rooms(to: &mut impl Write) -> io::Result<()> {
    let mut short = [0u8; 18];
    let mut long = [0u8; 36];
    read(to, "4, 18 bytes", two(sync(5), sync(6)), 2, b"", &mut short)?;
    read(to, "4, 36 bytes", two(sync(5), sync(6)), 2, b"", &mut long)
}

fn parts(to: &mut impl Write) -> io::Result<()> {
    let mut out = [0u8; 64];
    reads(
        to,
        "5",
        three(utf8(TEXT, 0, 2), utf8(TEXT, 1, 3), utf8(TEXT, 0, 4)),
        3,
    )?;
    one(to, "6, 3+2", utf8(TEXT, 3, 2))?;
    one(to, "6, 4+0", utf8(TEXT, 4, 0))?;
    one(to, "6, 5+0", utf8(TEXT, 5, 0))?;
    one(
        to,
        "6, 18446744073709551615+2",
        utf8(TEXT, 18446744073709551615, 2),
    )?;
    one(to, "7, key 9+9", key_part(30, KeyState::Press, 9, 9))?;
    one(to, "7, on a keyboard 4+1", utf8(KEYBOARD, 4, 1))?;
    one(to, "7, on a keyboard 0+1", utf8(KEYBOARD, 0, 1))?;
    read(
        to,
        "7, on a keyboard, no UTF-8",
        [utf8(KEYBOARD, 0, 1); 32],
        1,
        b"\x80",
        &mut out,
    )
}

fn refusals(to: &mut impl Write) -> io::Result<()> {
    let down = TouchscreenRequest::Down {
        touchid: 1,
        x: 0.0,
        y: 0.0,
    };
    let cancel = TouchscreenRequest::Cancel { touchid: 1 };
    reads(to, "10", two(touch(2, down), touch(1, cancel)), 2)?;
    one(to, "11, name 0+1", name(0, 1))
}

fn main(rt: HostRuntime) -> io::Result<()> {
    let mut out = io::writer(&rt);
    keys(&mut out)?;
    rooms(&mut out)?;
    parts(&mut out)?;
    refusals(&mut out)?;
    out.flush()
}
