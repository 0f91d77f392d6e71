// A first station: it shakes hands, adds a seat and a keyboard, takes a key press and its frame, and writes which key was pressed when.
// What the client sends stands here in its place. A station decodes it from its socket, and sends the first `count` bytes of `out` after each call.
#![tactic(auto)]

use answers::{Answer, Error, Outcome};
use control::{CONTROL_LENGTH, QUEUE_LIMIT};
use converter::request;
use eiproto::eiproto_enum::{DeviceType, KeyState};
use eiproto::event::DeviceCapability;
use handshake::handshake::{EisHandshaker, HandshakeMessage};
use requests::eis::{DeviceRequest, InterfaceRequest, KeyboardRequest, Request, SeatRequest};
use requests::request::EisRequest;
use session::{REALS_LENGTH, TEXTS_LENGTH, WORDS_LENGTH};
use std::io;
use std::io::Write;

// Enough for the events of any call.
const OUT_LENGTH: usize = 1225;

// The memory of a session, which the calls of the library are lent. Its texts are an array beside it: no text comes to
// this station, so that the compiler leaves their 8,192 bytes out of its stack.
#[derive(Drop)]
struct Session {
    control: [u64; CONTROL_LENGTH],
    words: [u64; WORDS_LENGTH],
    reals: [f32; REALS_LENGTH],
}

// Whether a call was accepted. A refusal is told by its number.
fn accepted(to: &mut impl Write, answer: Result<Answer, Error>) -> io::Result<bool> {
    if let Err(error) = answer {
        writeln!(to, "refused: {}", error.number())?;
        return Ok(false);
    }
    Ok(true)
}

// The client knows an interface, in this version.
fn knows(shaking: EisHandshaker, name: &[u8], version: u32) -> EisHandshaker {
    let message = HandshakeMessage::InterfaceVersion { version };
    shaking.handle_request(message, name, &mut []).handshaker
}

// A handshake, whose session's first serial is 7.
fn shake() -> EisHandshaker {
    let mut out = [0u8; OUT_LENGTH];
    EisHandshaker::new(7, &mut out).handshaker
}

// The handshake, and the session that it ends in.
fn begin(to: &mut impl Write, session: &mut Session) -> io::Result<bool> {
    let mut out = [0u8; OUT_LENGTH];
    let mut shaking = shake();
    shaking = knows(shaking, b"ei_connection", 1);
    shaking = knows(shaking, b"ei_callback", 1);
    shaking = knows(shaking, b"ei_pingpong", 1);
    shaking = knows(shaking, b"ei_seat", 2);
    shaking = knows(shaking, b"ei_device", 3);
    shaking = knows(shaking, b"ei_keyboard", 1);
    let answer = shaking.handle_request(HandshakeMessage::Finish, b"", &mut out);
    let Ok(Some(response)) = answer.outcome else {
        writeln!(to, "no handshake")?;
        return Ok(false);
    };
    accepted(to, request::new(&mut session.control, response))
}

// The seat's id, if the call gave one.
fn add_seat(to: &mut impl Write, session: &mut Session) -> io::Result<Option<u64>> {
    let mut out = [0u8; OUT_LENGTH];
    let answer = connection::add_seat(
        &mut session.control,
        Some(b"counter 3"),
        DeviceCapability::KEYBOARD,
        &mut out,
    );
    if let Ok(
        Answer {
            outcome: Outcome::Seat(id),
            ..
        },
    ) = answer
    {
        return Ok(Some(id));
    }
    accepted(to, answer)?;
    Ok(None)
}

// The device's id, if the call gave one.
fn add_device(to: &mut impl Write, session: &mut Session, seat: u64) -> io::Result<Option<u64>> {
    let mut out = [0u8; OUT_LENGTH];
    let answer = seat::add_device(
        &mut session.control,
        seat,
        None,
        DeviceType::Virtual,
        DeviceCapability::KEYBOARD,
        &mut out,
    );
    if let Ok(
        Answer {
            outcome: Outcome::Device(id),
            ..
        },
    ) = answer
    {
        return Ok(Some(id));
    }
    accepted(to, answer)?;
    Ok(None)
}

fn resume(to: &mut impl Write, session: &mut Session, device: u64) -> io::Result<bool> {
    let mut out = [0u8; OUT_LENGTH];
    accepted(to, device::resumed(&mut session.control, device, &mut out))
}

// A request of the client, on the object of this id and version, at this clock.
fn receive(
    to: &mut impl Write,
    session: &mut Session,
    texts: &mut [u8],
    object: u64,
    version: u32,
    sent: Request,
    clock: u64,
) -> io::Result<bool> {
    let mut out = [0u8; OUT_LENGTH];
    let answer = request::handle_request(
        &mut session.control,
        &mut session.words,
        &mut session.reals,
        texts,
        object,
        version,
        sent,
        b"",
        clock,
        &mut out,
    );
    accepted(to, answer)
}

// A seat, which the client binds.
fn open_seat(
    to: &mut impl Write,
    session: &mut Session,
    texts: &mut [u8],
) -> io::Result<Option<u64>> {
    let added = add_seat(to, session)?;
    if let Some(seat) = added {
        let bind = Request::Seat(SeatRequest::Bind {
            capabilities: DeviceCapability::KEYBOARD,
        });
        receive(to, session, texts, seat, 2, bind, 490)?;
    }
    Ok(added)
}

// A device with a keyboard on the seat. Once the client is ready, it may send.
fn open_keyboard(
    to: &mut impl Write,
    session: &mut Session,
    texts: &mut [u8],
    seat: u64,
) -> io::Result<Option<u64>> {
    let added = add_device(to, session, seat)?;
    if let Some(device) = added {
        receive(
            to,
            session,
            texts,
            device,
            3,
            Request::Device(DeviceRequest::Ready),
            492,
        )?;
        resume(to, session, device)?;
    }
    Ok(added)
}

// The clerk presses a key: the key waits for the client's frame, and gets its time.
fn press(
    to: &mut impl Write,
    session: &mut Session,
    texts: &mut [u8],
    device: u64,
) -> io::Result<()> {
    // The ids of a device's interfaces follow its own, by capability bit: this one has a keyboard alone.
    let keyboard = device.wrapping_add(1);
    let start = Request::Device(DeviceRequest::StartEmulating {
        last_serial: 8,
        sequence: 1,
    });
    let key = Request::Interface(InterfaceRequest::Keyboard(KeyboardRequest::Key {
        key: 30,
        state: KeyState::Press,
    }));
    let frame = Request::Device(DeviceRequest::Frame {
        last_serial: 8,
        timestamp: 500,
    });
    receive(to, session, texts, device, 3, start, 499)?;
    receive(to, session, texts, keyboard, 1, key, 500)?;
    receive(to, session, texts, device, 3, frame, 501)?;
    Ok(())
}

// What the station does with a request that it is given.
fn act(to: &mut impl Write, given: EisRequest) -> io::Result<()> {
    match given {
        EisRequest::KeyboardKey { key, time, .. } => writeln!(to, "key {key} at {time}"),
        _ => Ok(()),
    }
}

// All that is queued, oldest first.
fn take(to: &mut impl Write, session: &mut Session, texts: &[u8]) -> io::Result<()> {
    let mut text = [0u8; 254];
    for _ in 0..QUEUE_LIMIT {
        let next = request::next_request(
            &mut session.control,
            &session.words,
            &session.reals,
            texts,
            &mut text,
        );
        let Ok(Some(given)) = next else {
            break;
        };
        act(to, given)?;
    }
    Ok(())
}

fn main(rt: HostRuntime) -> io::Result<()> {
    let mut out = io::writer(&rt);
    let mut session = Session {
        control: [0; CONTROL_LENGTH],
        words: [0; WORDS_LENGTH],
        reals: [0.0; REALS_LENGTH],
    };
    let mut texts = [0; TEXTS_LENGTH];
    if !begin(&mut out, &mut session)? {
        return out.flush();
    }
    let Some(seat) = open_seat(&mut out, &mut session, &mut texts)? else {
        return out.flush();
    };
    let Some(device) = open_keyboard(&mut out, &mut session, &mut texts, seat)? else {
        return out.flush();
    };
    press(&mut out, &mut session, &mut texts, device)?;
    take(&mut out, &mut session, &texts)?;
    out.flush()
}
