// The numbers of a client's requests, in the order of the `Request` enums: by interface, then by opcode; for callers that have numbers, as C.
use requests::eis::RequestKind;

pub const HANDSHAKE_VERSION: u64 = RequestKind::HandshakeVersion as u64;

pub const HANDSHAKE_FINISH: u64 = RequestKind::HandshakeFinish as u64;

pub const HANDSHAKE_CONTEXT_TYPE: u64 = RequestKind::HandshakeContextType as u64;

pub const HANDSHAKE_NAME: u64 = RequestKind::HandshakeName as u64;

pub const HANDSHAKE_INTERFACE_VERSION: u64 = RequestKind::HandshakeInterfaceVersion as u64;

pub const CONNECTION_SYNC: u64 = RequestKind::ConnectionSync as u64;

pub const CONNECTION_DISCONNECT: u64 = RequestKind::ConnectionDisconnect as u64;

pub const PINGPONG_DONE: u64 = RequestKind::PingpongDone as u64;

pub const SEAT_RELEASE: u64 = RequestKind::SeatRelease as u64;

pub const SEAT_BIND: u64 = RequestKind::SeatBind as u64;

pub const SEAT_REQUEST_DEVICE: u64 = RequestKind::SeatRequestDevice as u64;

pub const DEVICE_RELEASE: u64 = RequestKind::DeviceRelease as u64;

pub const DEVICE_START_EMULATING: u64 = RequestKind::DeviceStartEmulating as u64;

pub const DEVICE_STOP_EMULATING: u64 = RequestKind::DeviceStopEmulating as u64;

pub const DEVICE_FRAME: u64 = RequestKind::DeviceFrame as u64;

pub const DEVICE_READY: u64 = RequestKind::DeviceReady as u64;

pub const POINTER_RELEASE: u64 = RequestKind::PointerRelease as u64;

pub const POINTER_MOTION_RELATIVE: u64 = RequestKind::PointerMotionRelative as u64;

pub const POINTER_ABSOLUTE_RELEASE: u64 = RequestKind::PointerAbsoluteRelease as u64;

pub const POINTER_ABSOLUTE_MOTION_ABSOLUTE: u64 = RequestKind::PointerAbsoluteMotionAbsolute as u64;

pub const SCROLL_RELEASE: u64 = RequestKind::ScrollRelease as u64;

pub const SCROLL_SCROLL: u64 = RequestKind::ScrollScroll as u64;

pub const SCROLL_SCROLL_DISCRETE: u64 = RequestKind::ScrollScrollDiscrete as u64;

pub const SCROLL_SCROLL_STOP: u64 = RequestKind::ScrollScrollStop as u64;

pub const BUTTON_RELEASE: u64 = RequestKind::ButtonRelease as u64;

pub const BUTTON_BUTTON: u64 = RequestKind::ButtonButton as u64;

pub const KEYBOARD_RELEASE: u64 = RequestKind::KeyboardRelease as u64;

pub const KEYBOARD_KEY: u64 = RequestKind::KeyboardKey as u64;

pub const TOUCHSCREEN_RELEASE: u64 = RequestKind::TouchscreenRelease as u64;

pub const TOUCHSCREEN_DOWN: u64 = RequestKind::TouchscreenDown as u64;

pub const TOUCHSCREEN_MOTION: u64 = RequestKind::TouchscreenMotion as u64;

pub const TOUCHSCREEN_UP: u64 = RequestKind::TouchscreenUp as u64;

pub const TOUCHSCREEN_CANCEL: u64 = RequestKind::TouchscreenCancel as u64;

pub const TEXT_RELEASE: u64 = RequestKind::TextRelease as u64;

pub const TEXT_KEYSYM: u64 = RequestKind::TextKeysym as u64;

pub const TEXT_UTF8: u64 = RequestKind::TextUtf8 as u64;
