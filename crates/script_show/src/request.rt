// A delivered request as what is shown of it: the pattern of its kind, and its fields in the order of the crate's struct.
ghost use Rattle.std.specs.Prelude.{◌≡◌, cond};
ghost use Rattle.script_pattern.specs.Pattern.{shown};
ghost use Rattle.script_pattern.specs.Words.{real_number, amount_number, truth_number};
ghost use Rattle.script_show.specs.Request.{delivered};

use requests::kinds;
use requests::request::EisRequest;
use script_pattern::table::Shown;

// A real and a signed amount as numbers: patterns tell 2^32 and more from the bits of a real, and from an amount that is not below 0.
fn real_number(x: f32) -> u64
    ensures { result ≡ real_number x }
{
    if x.is_nan() {
        return 1 << 32;
    }
    u64::from(x.to_bits())
}

fn amount_number(n: i32) -> u64
    ensures { result ≡ amount_number n }
{
    let distance = u64::from(n.unsigned_abs());
    if n < 0 {
        return (1 << 32) + distance;
    }
    distance
}

// What is shown of a request: the pattern of its kind, whose number is the kind's.
fn fields(kind: u64, a: u64, b: u64, c: u64, d: u64, e: u64) -> Shown
    ensures { result ≡ shown kind a b c d e }
{
    Shown {
        pattern: kind as usize,
        a,
        b,
        c,
        d,
        e,
    }
}

fn reals(kind: u64, device: u64, time: u64, x: f32, y: f32) -> Shown
    ensures { result ≡ shown kind device time (real_number x) (real_number y) 0 }
{
    fields(kind, device, time, real_number(x), real_number(y), 0)
}

fn axes(kind: u64, device: u64, time: u64, x: bool, y: bool) -> Shown
    ensures { result ≡ shown kind device time (truth_number x) (truth_number y) 0 }
{
    fields(kind, device, time, u64::from(x), u64::from(y), 0)
}

fn touched(kind: u64, device: u64, time: u64, touch: u64, x: f32, y: f32) -> Shown
    ensures { result ≡ shown kind device time touch (real_number x) (real_number y) }
{
    fields(kind, device, time, touch, real_number(x), real_number(y))
}

// A text is shown in letters too where that is asked for, by the pattern behind its kind's.
fn text_pattern(explained: bool) -> u64
    ensures { result ≡ cond explained 22 21 }
{
    kinds::TEXT_UTF8 + u64::from(explained)
}

pub fn delivered(request: EisRequest, explained: bool) -> Shown
    ensures { result ≡ delivered explained request }
{
    match request {
        EisRequest::Disconnect => fields(kinds::DISCONNECT, 0, 0, 0, 0, 0),
        EisRequest::Bind { seat, capabilities } => fields(kinds::BIND, seat, capabilities, 0, 0, 0),
        EisRequest::DeviceClosed { device } => fields(kinds::DEVICE_CLOSED, device, 0, 0, 0, 0),
        EisRequest::RequestDevice { seat, capabilities } => fields(
            kinds::REQUEST_DEVICE,
            seat,
            capabilities,
            0,
            0,
            0,
        ),
        EisRequest::Frame {
            device,
            last_serial,
            time,
        } => fields(kinds::FRAME, device, last_serial as u64, time, 0, 0),
        EisRequest::Ready { device } => fields(kinds::READY, device, 0, 0, 0, 0),
        EisRequest::DeviceStartEmulating {
            device,
            last_serial,
            sequence,
        } => fields(
            kinds::DEVICE_START_EMULATING,
            device,
            last_serial as u64,
            sequence as u64,
            0,
            0,
        ),
        EisRequest::DeviceStopEmulating {
            device,
            last_serial,
        } => fields(
            kinds::DEVICE_STOP_EMULATING,
            device,
            last_serial as u64,
            0,
            0,
            0,
        ),
        EisRequest::PointerMotion {
            device,
            time,
            dx,
            dy,
        } => reals(kinds::POINTER_MOTION, device, time, dx, dy),
        EisRequest::PointerMotionAbsolute {
            device,
            time,
            dx_absolute,
            dy_absolute,
        } => reals(
            kinds::POINTER_MOTION_ABSOLUTE,
            device,
            time,
            dx_absolute,
            dy_absolute,
        ),
        EisRequest::Button {
            device,
            time,
            button,
            state,
        } => fields(
            kinds::BUTTON,
            device,
            time,
            button as u64,
            state.number() as u64,
            0,
        ),
        EisRequest::ScrollDelta {
            device,
            time,
            dx,
            dy,
        } => reals(kinds::SCROLL_DELTA, device, time, dx, dy),
        EisRequest::ScrollStop { device, time, x, y } => axes(
            kinds::SCROLL_STOP,
            device,
            time,
            x,
            y,
        ),
        EisRequest::ScrollCancel { device, time, x, y } => axes(
            kinds::SCROLL_CANCEL,
            device,
            time,
            x,
            y,
        ),
        EisRequest::ScrollDiscrete {
            device,
            time,
            discrete_dx,
            discrete_dy,
        } => fields(
            kinds::SCROLL_DISCRETE,
            device,
            time,
            amount_number(discrete_dx),
            amount_number(discrete_dy),
            0,
        ),
        EisRequest::KeyboardKey {
            device,
            time,
            key,
            state,
        } => fields(
            kinds::KEYBOARD_KEY,
            device,
            time,
            key as u64,
            state.number() as u64,
            0,
        ),
        EisRequest::TouchDown {
            device,
            time,
            touch_id,
            x,
            y,
        } => touched(kinds::TOUCH_DOWN, device, time, touch_id as u64, x, y),
        EisRequest::TouchUp {
            device,
            time,
            touch_id,
        } => fields(kinds::TOUCH_UP, device, time, touch_id as u64, 0, 0),
        EisRequest::TouchMotion {
            device,
            time,
            touch_id,
            x,
            y,
        } => touched(kinds::TOUCH_MOTION, device, time, touch_id as u64, x, y),
        EisRequest::TouchCancel {
            device,
            time,
            touch_id,
        } => fields(kinds::TOUCH_CANCEL, device, time, touch_id as u64, 0, 0),
        EisRequest::TextKeysym {
            device,
            time,
            keysym,
            state,
        } => fields(
            kinds::TEXT_KEYSYM,
            device,
            time,
            keysym as u64,
            state.number() as u64,
            0,
        ),
        EisRequest::TextUtf8 { device, time, .. } => {
            fields(text_pattern(explained), device, time, 0, 0, 0)
        }
    }
}
