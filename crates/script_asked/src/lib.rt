// What a line of a call script asks for, by its first word and the words behind it. Those are read before the cases: each case that calls a function
// makes the check longer.
#![tactic(auto)]

ghost use Rattle.std.specs.Prelude.{◌≡◌};
ghost use Rattle.script_asked.specs.Asked.{asked, told, words_of, key_state, button_state, device_type, reason, capability};

use eiproto::eiproto_enum::{ButtonState, DeviceType, DisconnectReason, KeyState};
use eiproto::event::DeviceCapability;
use requests::eis::{
    ButtonRequest, ConnectionRequest, DeviceRequest, HandshakeRequest, InterfaceRequest,
    KeyboardRequest, PointerAbsoluteRequest, PointerRequest, Request, ScrollRequest, SeatRequest,
    TextRequest, TouchscreenRequest,
};
use script::{Args, Value, Verb};

// The calls that add a seat or a device. The name is lent beside them, and so is every text below.
#[derive(Clone, Copy, Debug, PartialEq, Eq)]
pub enum Add {
    Seat {
        capabilities: u64,
    },
    Device {
        seat: u64,
        kind: DeviceType,
        capabilities: u64,
    },
}

// The calls that remove a seat or a device, or all of them.
#[derive(Clone, Copy, Debug, PartialEq, Eq)]
pub enum Remove {
    Seat { seat: u64 },
    Device { device: u64 },
    All { reason: DisconnectReason },
}

// The calls that tell the client of a device.
#[derive(Clone, Copy, Debug, PartialEq, Eq)]
pub enum Tell {
    Resumed { device: u64 },
    Paused { device: u64 },
    StartEmulating { device: u64, sequence: u32 },
    StopEmulating { device: u64 },
    Frame { device: u64, time: u64 },
}

// The calls that ask.
#[derive(Clone, Copy, Debug, PartialEq, Eq)]
pub enum Ask {
    LastSerial,
    HasInterface,
    InterfaceVersion,
    HasCapability {
        device: u64,
        capability: DeviceCapability,
    },
}

// An event's record written as its message, or read from it, on an interface of this number. The bytes are lent beside it.
#[derive(Clone, Copy, Debug, PartialEq, Eq)]
pub enum Event {
    Write { interface: u32 },
    Read { interface: u32 },
}

// A call of the station. The calls stand in groups that are lent the same slices to be changed.
#[derive(Clone, Copy, Debug, PartialEq, Eq)]
pub enum Station {
    Add(Add),
    Remove(Remove),
    Tell(Tell),
    Ask(Ask),
}

#[derive(Clone, Copy, Debug, PartialEq)]
pub enum Asked {
    // Settings.
    Now(u64),
    Out(u64),
    Buffer(u64),
    // A fresh handshake, with its initial serial.
    Start(u32),
    // A client's request, on the object of this id and version.
    Client {
        object: u64,
        version: u32,
        request: Request,
    },
    NextRequest,
    Station(Station),
    // A read of so many records. Its texts are lent beside it.
    Read(u32),
    // The first message of the bytes that are lent beside it.
    Message,
    Event(Event),
}

// A press state, a device's type, a reason and a capability. A line that has another value is no call (`read_as` of script/specs), so that each has a
// default here, as the definitions have it: no `From<Value>`, which would say that each value stands for one, and no `TryFrom`, whose error nobody
// would see.
fn key_state(v: Value) -> KeyState
    ensures { result ≡ key_state v }
{
    KeyState::try_from(script::u32_of(v)).unwrap_or(KeyState::Released)
}

fn button_state(v: Value) -> ButtonState
    ensures { result ≡ button_state v }
{
    ButtonState::try_from(script::u32_of(v)).unwrap_or(ButtonState::Released)
}

fn device_type(v: Value) -> DeviceType
    ensures { result ≡ device_type v }
{
    DeviceType::try_from(script::u32_of(v)).unwrap_or(DeviceType::Virtual)
}

fn reason_of(v: Value) -> DisconnectReason
    ensures { result ≡ reason v }
{
    DisconnectReason::try_from(script::u32_of(v)).unwrap_or(DisconnectReason::Disconnected)
}

fn capability_of(v: Value) -> DeviceCapability
    ensures { result ≡ capability v }
{
    DeviceCapability::from_mask(script::u64_of(v)).unwrap_or(DeviceCapability::Pointer)
}

// The words behind the first, each as what a call may want of it.
#[derive(Clone, Copy, Debug, PartialEq)]
pub struct Words {
    pub a64: u64,
    pub a32: u32,
    pub b64: u64,
    pub b32: u32,
    pub c64: u64,
    pub c32: u32,
    pub d64: u64,
    pub d32: u32,
    pub bx: f32,
    pub cx: f32,
    pub dx: f32,
    pub bi: i32,
    pub ci: i32,
    pub key: KeyState,
    pub button: ButtonState,
    pub kind: DeviceType,
    pub reason: DisconnectReason,
    pub capability: DeviceCapability,
}

fn words_of(args: Args) -> Words
    ensures { result ≡ words_of args }
{
    let Args { a, b, c, d } = args;
    Words {
        a64: script::u64_of(a),
        a32: script::u32_of(a),
        b64: script::u64_of(b),
        b32: script::u32_of(b),
        c64: script::u64_of(c),
        c32: script::u32_of(c),
        d64: script::u64_of(d),
        d32: script::u32_of(d),
        bx: script::f32_of(b),
        cx: script::f32_of(c),
        dx: script::f32_of(d),
        bi: script::i32_of(b),
        ci: script::i32_of(c),
        key: key_state(c),
        button: button_state(c),
        kind: device_type(c),
        reason: reason_of(a),
        capability: capability_of(b),
    }
}

fn told(verb: Verb, w: Words) -> Asked
    ensures { result ≡ told verb w }
{
    match verb {
        Verb::Now => Asked::Now(w.a64),
        Verb::Out => Asked::Out(w.a64),
        Verb::Buffer => Asked::Buffer(w.a64),
        Verb::Start => Asked::Start(w.a32),
        Verb::HandshakeHandshakeVersion => Asked::Client {
            object: w.a64,
            version: 1,
            request: Request::Handshake(HandshakeRequest::HandshakeVersion { version: w.a32 }),
        },
        Verb::HandshakeName => Asked::Client {
            object: w.a64,
            version: 1,
            request: Request::Handshake(HandshakeRequest::Name),
        },
        Verb::HandshakeContextType => Asked::Client {
            object: w.a64,
            version: 1,
            request: Request::Handshake(HandshakeRequest::ContextType {
                context_type: w.a32,
            }),
        },
        Verb::HandshakeInterfaceVersion => Asked::Client {
            object: w.a64,
            version: 1,
            request: Request::Handshake(HandshakeRequest::InterfaceVersion { version: w.b32 }),
        },
        Verb::HandshakeFinish => Asked::Client {
            object: w.a64,
            version: 1,
            request: Request::Handshake(HandshakeRequest::Finish),
        },
        Verb::ConnectionSync => Asked::Client {
            object: w.a64,
            version: 1,
            request: Request::Connection(ConnectionRequest::Sync {
                callback: w.a64,
                version: w.b32,
            }),
        },
        Verb::ConnectionDisconnect => Asked::Client {
            object: w.a64,
            version: 1,
            request: Request::Connection(ConnectionRequest::Disconnect),
        },
        Verb::PingpongDone => Asked::Client {
            object: w.a64,
            version: 1,
            request: Request::PingpongDone,
        },
        Verb::SeatRelease => Asked::Client {
            object: w.a64,
            version: 1,
            request: Request::Seat(SeatRequest::Release),
        },
        Verb::SeatBind => Asked::Client {
            object: w.a64,
            version: 1,
            request: Request::Seat(SeatRequest::Bind {
                capabilities: w.b64,
            }),
        },
        Verb::SeatRequestDevice => Asked::Client {
            object: w.a64,
            version: 1,
            request: Request::Seat(SeatRequest::RequestDevice {
                capabilities: w.b64,
            }),
        },
        Verb::DeviceRelease => Asked::Client {
            object: w.a64,
            version: 1,
            request: Request::Device(DeviceRequest::Release),
        },
        Verb::DeviceStartEmulating => Asked::Client {
            object: w.a64,
            version: 1,
            request: Request::Device(DeviceRequest::StartEmulating {
                last_serial: w.b32,
                sequence: w.c32,
            }),
        },
        Verb::DeviceStopEmulating => Asked::Client {
            object: w.a64,
            version: 1,
            request: Request::Device(DeviceRequest::StopEmulating { last_serial: w.b32 }),
        },
        Verb::DeviceFrame => Asked::Client {
            object: w.a64,
            version: 1,
            request: Request::Device(DeviceRequest::Frame {
                last_serial: w.b32,
                timestamp: w.c64,
            }),
        },
        Verb::DeviceReady => Asked::Client {
            object: w.a64,
            version: 1,
            request: Request::Device(DeviceRequest::Ready),
        },
        Verb::PointerRelease => Asked::Client {
            object: w.a64,
            version: 1,
            request: Request::Interface(InterfaceRequest::Pointer(PointerRequest::Release)),
        },
        Verb::PointerMotionRelative => Asked::Client {
            object: w.a64,
            version: 1,
            request: Request::Interface(InterfaceRequest::Pointer(PointerRequest::MotionRelative {
                x: w.bx,
                y: w.cx,
            })),
        },
        Verb::PointerAbsoluteRelease => Asked::Client {
            object: w.a64,
            version: 1,
            request: Request::Interface(InterfaceRequest::PointerAbsolute(
                PointerAbsoluteRequest::Release,
            )),
        },
        Verb::PointerAbsoluteMotionAbsolute => Asked::Client {
            object: w.a64,
            version: 1,
            request: Request::Interface(InterfaceRequest::PointerAbsolute(
                PointerAbsoluteRequest::MotionAbsolute { x: w.bx, y: w.cx },
            )),
        },
        Verb::ScrollRelease => Asked::Client {
            object: w.a64,
            version: 1,
            request: Request::Interface(InterfaceRequest::Scroll(ScrollRequest::Release)),
        },
        Verb::ScrollScroll => Asked::Client {
            object: w.a64,
            version: 1,
            request: Request::Interface(InterfaceRequest::Scroll(ScrollRequest::Scroll {
                x: w.bx,
                y: w.cx,
            })),
        },
        Verb::ScrollScrollDiscrete => Asked::Client {
            object: w.a64,
            version: 1,
            request: Request::Interface(InterfaceRequest::Scroll(ScrollRequest::ScrollDiscrete {
                x: w.bi,
                y: w.ci,
            })),
        },
        Verb::ScrollScrollStop => Asked::Client {
            object: w.a64,
            version: 1,
            request: Request::Interface(InterfaceRequest::Scroll(ScrollRequest::ScrollStop {
                x: w.b32,
                y: w.c32,
                is_cancel: w.d32,
            })),
        },
        Verb::ButtonRelease => Asked::Client {
            object: w.a64,
            version: 1,
            request: Request::Interface(InterfaceRequest::Button(ButtonRequest::Release)),
        },
        Verb::ButtonButton => Asked::Client {
            object: w.a64,
            version: 1,
            request: Request::Interface(InterfaceRequest::Button(ButtonRequest::Button {
                button: w.b32,
                state: w.button,
            })),
        },
        Verb::KeyboardRelease => Asked::Client {
            object: w.a64,
            version: 1,
            request: Request::Interface(InterfaceRequest::Keyboard(KeyboardRequest::Release)),
        },
        Verb::KeyboardKey => Asked::Client {
            object: w.a64,
            version: 1,
            request: Request::Interface(InterfaceRequest::Keyboard(KeyboardRequest::Key {
                key: w.b32,
                state: w.key,
            })),
        },
        Verb::TouchscreenRelease => Asked::Client {
            object: w.a64,
            version: 1,
            request: Request::Interface(InterfaceRequest::Touchscreen(TouchscreenRequest::Release)),
        },
        Verb::TouchscreenDown => Asked::Client {
            object: w.a64,
            version: 1,
            request: Request::Interface(InterfaceRequest::Touchscreen(TouchscreenRequest::Down {
                touchid: w.b32,
                x: w.cx,
                y: w.dx,
            })),
        },
        Verb::TouchscreenMotion => Asked::Client {
            object: w.a64,
            version: 1,
            request: Request::Interface(InterfaceRequest::Touchscreen(
                TouchscreenRequest::Motion {
                    touchid: w.b32,
                    x: w.cx,
                    y: w.dx,
                },
            )),
        },
        Verb::TouchscreenUp => Asked::Client {
            object: w.a64,
            version: 1,
            request: Request::Interface(InterfaceRequest::Touchscreen(TouchscreenRequest::Up {
                touchid: w.b32,
            })),
        },
        Verb::TouchscreenCancel => Asked::Client {
            object: w.a64,
            version: w.b32,
            request: Request::Interface(InterfaceRequest::Touchscreen(TouchscreenRequest::Cancel {
                touchid: w.c32,
            })),
        },
        Verb::TextRelease => Asked::Client {
            object: w.a64,
            version: 1,
            request: Request::Interface(InterfaceRequest::Text(TextRequest::Release)),
        },
        Verb::TextKeysym => Asked::Client {
            object: w.a64,
            version: 1,
            request: Request::Interface(InterfaceRequest::Text(TextRequest::Keysym {
                keysym: w.b32,
                state: w.key,
            })),
        },
        Verb::TextUtf8 => Asked::Client {
            object: w.a64,
            version: 1,
            request: Request::Interface(InterfaceRequest::Text(TextRequest::Utf8)),
        },
        Verb::NextRequest => Asked::NextRequest,
        Verb::AddSeat => Asked::Station(Station::Add(Add::Seat {
            capabilities: w.b64,
        })),
        Verb::AddDevice => Asked::Station(Station::Add(Add::Device {
            seat: w.a64,
            kind: w.kind,
            capabilities: w.d64,
        })),
        Verb::RemoveSeat => Asked::Station(Station::Remove(Remove::Seat { seat: w.a64 })),
        Verb::RemoveDevice => Asked::Station(Station::Remove(Remove::Device { device: w.a64 })),
        Verb::Resumed => Asked::Station(Station::Tell(Tell::Resumed { device: w.a64 })),
        Verb::Paused => Asked::Station(Station::Tell(Tell::Paused { device: w.a64 })),
        Verb::StartEmulating => Asked::Station(Station::Tell(Tell::StartEmulating {
            device: w.a64,
            sequence: w.b32,
        })),
        Verb::StopEmulating => Asked::Station(Station::Tell(Tell::StopEmulating { device: w.a64 })),
        Verb::Frame => Asked::Station(Station::Tell(Tell::Frame {
            device: w.a64,
            time: w.b64,
        })),
        Verb::Disconnected => Asked::Station(Station::Remove(Remove::All { reason: w.reason })),
        Verb::LastSerial => Asked::Station(Station::Ask(Ask::LastSerial)),
        Verb::HasInterface => Asked::Station(Station::Ask(Ask::HasInterface)),
        Verb::InterfaceVersion => Asked::Station(Station::Ask(Ask::InterfaceVersion)),
        Verb::HasCapability => Asked::Station(Station::Ask(Ask::HasCapability {
            device: w.a64,
            capability: w.capability,
        })),
        Verb::Read => Asked::Read(w.a32),
        Verb::Message => Asked::Message,
        Verb::WriteMessage => Asked::Event(Event::Write { interface: w.a32 }),
        Verb::ReadMessage => Asked::Event(Event::Read { interface: w.a32 }),
    }
}

// What a line asks for.
#[tactic(auto, unfolding(crate::specs::Asked::asked))]
pub fn of_line(verb: Verb, args: Args) -> Asked
    ensures { result ≡ asked verb args }
{
    told(verb, words_of(args))
}
