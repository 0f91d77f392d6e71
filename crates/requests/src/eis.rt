// What a client sends (the `Request` enums of src/eiproto_eis.rs), by value. The object's id and version come beside it, and so does the text
// of Name, of InterfaceVersion and of Utf8.
use eiproto::eiproto_enum::{ButtonState, KeyState};

// Which request it is. Requests are numbered through, from 0: by interface, then by opcode.
#[derive(Clone, Copy, Debug, PartialEq, Eq)]
pub enum RequestKind {
    HandshakeVersion,
    HandshakeFinish,
    HandshakeContextType,
    HandshakeName,
    HandshakeInterfaceVersion,
    ConnectionSync,
    ConnectionDisconnect,
    PingpongDone,
    SeatRelease,
    SeatBind,
    SeatRequestDevice,
    DeviceRelease,
    DeviceStartEmulating,
    DeviceStopEmulating,
    DeviceFrame,
    DeviceReady,
    PointerRelease,
    PointerMotionRelative,
    PointerAbsoluteRelease,
    PointerAbsoluteMotionAbsolute,
    ScrollRelease,
    ScrollScroll,
    ScrollScrollDiscrete,
    ScrollScrollStop,
    ButtonRelease,
    ButtonButton,
    KeyboardRelease,
    KeyboardKey,
    TouchscreenRelease,
    TouchscreenDown,
    TouchscreenMotion,
    TouchscreenUp,
    TouchscreenCancel,
    TextRelease,
    TextKeysym,
    TextUtf8,
}

#[derive(Clone, Copy, Debug, PartialEq, Eq)]
pub enum HandshakeRequest {
    HandshakeVersion { version: u32 },
    Finish,
    ContextType { context_type: u32 },
    Name,
    InterfaceVersion { version: u32 },
}

#[derive(Clone, Copy, Debug, PartialEq, Eq)]
pub enum ConnectionRequest {
    // The new callback's id, and its version.
    Sync { callback: u64, version: u32 },
    Disconnect,
}

#[derive(Clone, Copy, Debug, PartialEq, Eq)]
pub enum SeatRequest {
    Release,
    Bind { capabilities: u64 },
    RequestDevice { capabilities: u64 },
}

#[derive(Clone, Copy, Debug, PartialEq, Eq)]
pub enum DeviceRequest {
    Release,
    StartEmulating { last_serial: u32, sequence: u32 },
    StopEmulating { last_serial: u32 },
    Frame { last_serial: u32, timestamp: u64 },
    Ready,
}

#[derive(Clone, Copy, Debug, PartialEq)]
pub enum PointerRequest {
    Release,
    MotionRelative { x: f32, y: f32 },
}

#[derive(Clone, Copy, Debug, PartialEq)]
pub enum PointerAbsoluteRequest {
    Release,
    MotionAbsolute { x: f32, y: f32 },
}

#[derive(Clone, Copy, Debug, PartialEq)]
pub enum ScrollRequest {
    Release,
    Scroll { x: f32, y: f32 },
    ScrollDiscrete { x: i32, y: i32 },
    ScrollStop { x: u32, y: u32, is_cancel: u32 },
}

#[derive(Clone, Copy, Debug, PartialEq, Eq)]
pub enum ButtonRequest {
    Release,
    Button { button: u32, state: ButtonState },
}

#[derive(Clone, Copy, Debug, PartialEq, Eq)]
pub enum KeyboardRequest {
    Release,
    Key { key: u32, state: KeyState },
}

#[derive(Clone, Copy, Debug, PartialEq)]
pub enum TouchscreenRequest {
    Release,
    Down { touchid: u32, x: f32, y: f32 },
    Motion { touchid: u32, x: f32, y: f32 },
    Up { touchid: u32 },
    Cancel { touchid: u32 },
}

#[derive(Clone, Copy, Debug, PartialEq, Eq)]
pub enum TextRequest {
    Release,
    Keysym { keysym: u32, state: KeyState },
    Utf8,
}

// A request on an interface of a device.
#[derive(Clone, Copy, Debug, PartialEq)]
pub enum InterfaceRequest {
    Pointer(PointerRequest),
    PointerAbsolute(PointerAbsoluteRequest),
    Scroll(ScrollRequest),
    Button(ButtonRequest),
    Keyboard(KeyboardRequest),
    Touchscreen(TouchscreenRequest),
    Text(TextRequest),
}

#[derive(Clone, Copy, Debug, PartialEq)]
pub enum Request {
    Handshake(HandshakeRequest),
    Connection(ConnectionRequest),
    // Pingpong's Done.
    PingpongDone,
    Seat(SeatRequest),
    Device(DeviceRequest),
    Interface(InterfaceRequest),
}
