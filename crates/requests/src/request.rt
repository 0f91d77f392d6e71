// The requests that the server hands to the station program, as one enum by value.
// Devices and seats are ids; a text lies beside its request, which carries the length alone.
ghost use Rattle.std.specs.Prelude.{◌≡◌};
ghost use Rattle.requests.specs.Request.{text_length, device_of};

use eiproto::eiproto_enum::{ButtonState, KeyState};

#[derive(Clone, Copy, Debug, PartialEq)]
pub enum EisRequest {
    Disconnect,
    Bind {
        seat: u64,
        capabilities: u64,
    },
    DeviceClosed {
        device: u64,
    },
    RequestDevice {
        seat: u64,
        capabilities: u64,
    },
    Frame {
        device: u64,
        last_serial: u32,
        time: u64,
    },
    Ready {
        device: u64,
    },
    DeviceStartEmulating {
        device: u64,
        last_serial: u32,
        sequence: u32,
    },
    DeviceStopEmulating {
        device: u64,
        last_serial: u32,
    },
    PointerMotion {
        device: u64,
        time: u64,
        dx: f32,
        dy: f32,
    },
    PointerMotionAbsolute {
        device: u64,
        time: u64,
        dx_absolute: f32,
        dy_absolute: f32,
    },
    Button {
        device: u64,
        time: u64,
        button: u32,
        state: ButtonState,
    },
    ScrollDelta {
        device: u64,
        time: u64,
        dx: f32,
        dy: f32,
    },
    ScrollStop {
        device: u64,
        time: u64,
        x: bool,
        y: bool,
    },
    ScrollCancel {
        device: u64,
        time: u64,
        x: bool,
        y: bool,
    },
    ScrollDiscrete {
        device: u64,
        time: u64,
        discrete_dx: i32,
        discrete_dy: i32,
    },
    KeyboardKey {
        device: u64,
        time: u64,
        key: u32,
        state: KeyState,
    },
    TouchDown {
        device: u64,
        time: u64,
        touch_id: u32,
        x: f32,
        y: f32,
    },
    TouchUp {
        device: u64,
        time: u64,
        touch_id: u32,
    },
    TouchMotion {
        device: u64,
        time: u64,
        touch_id: u32,
        x: f32,
        y: f32,
    },
    TouchCancel {
        device: u64,
        time: u64,
        touch_id: u32,
    },
    TextKeysym {
        device: u64,
        time: u64,
        keysym: u32,
        state: KeyState,
    },
    TextUtf8 {
        device: u64,
        time: u64,
        length: u8,
    },
}

impl EisRequest {
    // How many bytes the text beside the request has; 0 where there is none.
    pub fn text_length(self) -> u8
        ensures { result ≡ text_length self }
    {
        match self {
            EisRequest::TextUtf8 { length, .. } => length,
            _ => 0,
        }
    }

    // The device of the request, if it has one.
    pub fn device(self) -> Option<u64>
        ensures { result ≡ device_of self }
    {
        match self {
            EisRequest::DeviceClosed { device }
            | EisRequest::Frame { device, .. }
            | EisRequest::Ready { device }
            | EisRequest::DeviceStartEmulating { device, .. }
            | EisRequest::DeviceStopEmulating { device, .. }
            | EisRequest::PointerMotion { device, .. }
            | EisRequest::PointerMotionAbsolute { device, .. }
            | EisRequest::Button { device, .. }
            | EisRequest::ScrollDelta { device, .. }
            | EisRequest::ScrollStop { device, .. }
            | EisRequest::ScrollCancel { device, .. }
            | EisRequest::ScrollDiscrete { device, .. }
            | EisRequest::KeyboardKey { device, .. }
            | EisRequest::TouchDown { device, .. }
            | EisRequest::TouchUp { device, .. }
            | EisRequest::TouchMotion { device, .. }
            | EisRequest::TouchCancel { device, .. }
            | EisRequest::TextKeysym { device, .. }
            | EisRequest::TextUtf8 { device, .. } => Some(device),
            EisRequest::Disconnect | EisRequest::Bind { .. } | EisRequest::RequestDevice { .. } => {
                None
            }
        }
    }
}
