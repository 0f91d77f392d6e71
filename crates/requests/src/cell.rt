// A request as numbers. The requests that come most often are made here without the enum, which would go through memory on its way to a row.
#![tactic(auto, using(crate::proofs::Cells::low_is, crate::proofs::Cells::byte_is, crate::proofs::Cells::button_is, crate::proofs::Cells::key_is), unfolding(crate::specs::Row::request_of, crate::specs::Row::row_of, crate::specs::Row::entry, crate::specs::Row::amount_of))]

ghost use Rattle.std.specs.Prelude.{◌≡◌};
ghost use Rattle.requests.specs.Row.{no_slot, amount_of, cell_of, request_of, row_of, entry};

use crate::kinds;
use crate::request::EisRequest;
use eiproto::eiproto_enum::{ButtonState, KeyState};

// A request's numbers, by value.
#[derive(Clone, Copy, Debug, PartialEq)]
pub struct Cell {
    // The request's place in the enum.
    pub kind: u64,
    // The device, or the seat.
    pub object: u64,
    // The time, or the capabilities.
    pub time: u64,
    pub extra: u64,
    // A further number; of a text, its slot.
    pub flag: u64,
    pub x: f32,
    pub y: f32,
}

// The cell of these numbers; as a row it is what they mean, with the flag for a text's slot. By place, as `cell_of` of specs/Row.
pub fn cell_of(kind: u64, object: u64, time: u64, extra: u64, flag: u64, x: f32, y: f32) -> Cell
    ensures { row_of result ≡ entry (request_of (cell_of kind object time extra flag x y)) flag }
{
    Cell {
        kind,
        object,
        time,
        extra,
        flag,
        x,
        y,
    }
}

// The bits of a signed amount, in two's complement. `amount` of row goes the other way, and takes any number: so no `From` has both.
pub fn amount_bits(x: i32) -> u64
    ensures { amount_of result ≡ x }
{
    u64::from(x.cast_unsigned())
}

// The cells of a frame and of the timed requests, each named after its variant. A slot counts for a text alone.
pub fn frame(device: u64, serial: u32, time: u64) -> Cell
    ensures { row_of result ≡ entry (EisRequest.Frame device serial time) no_slot }
{
    cell_of(kinds::FRAME, device, time, serial as u64, 0, 0.0, 0.0)
}

pub fn pointer_motion(device: u64, time: u64, dx: f32, dy: f32) -> Cell
    ensures { row_of result ≡ entry (EisRequest.PointerMotion device time dx dy) no_slot }
{
    cell_of(kinds::POINTER_MOTION, device, time, 0, 0, dx, dy)
}

pub fn pointer_motion_absolute(device: u64, time: u64, dx: f32, dy: f32) -> Cell
    ensures { row_of result ≡ entry (EisRequest.PointerMotionAbsolute device time dx dy) no_slot }
{
    cell_of(kinds::POINTER_MOTION_ABSOLUTE, device, time, 0, 0, dx, dy)
}

pub fn button(device: u64, time: u64, button: u32, state: ButtonState) -> Cell
    ensures { row_of result ≡ entry (EisRequest.Button device time button state) no_slot }
{
    cell_of(
        kinds::BUTTON,
        device,
        time,
        button as u64,
        state.number() as u64,
        0.0,
        0.0,
    )
}

pub fn scroll_delta(device: u64, time: u64, dx: f32, dy: f32) -> Cell
    ensures { row_of result ≡ entry (EisRequest.ScrollDelta device time dx dy) no_slot }
{
    cell_of(kinds::SCROLL_DELTA, device, time, 0, 0, dx, dy)
}

pub fn scroll_stop(device: u64, time: u64, x: bool, y: bool) -> Cell
    ensures { row_of result ≡ entry (EisRequest.ScrollStop device time x y) no_slot }
{
    cell_of(
        kinds::SCROLL_STOP,
        device,
        time,
        u64::from(x),
        u64::from(y),
        0.0,
        0.0,
    )
}

pub fn scroll_cancel(device: u64, time: u64, x: bool, y: bool) -> Cell
    ensures { row_of result ≡ entry (EisRequest.ScrollCancel device time x y) no_slot }
{
    cell_of(
        kinds::SCROLL_CANCEL,
        device,
        time,
        u64::from(x),
        u64::from(y),
        0.0,
        0.0,
    )
}

pub fn scroll_discrete(device: u64, time: u64, dx: i32, dy: i32) -> Cell
    ensures { row_of result ≡ entry (EisRequest.ScrollDiscrete device time dx dy) no_slot }
{
    cell_of(
        kinds::SCROLL_DISCRETE,
        device,
        time,
        amount_bits(dx),
        amount_bits(dy),
        0.0,
        0.0,
    )
}

pub fn keyboard_key(device: u64, time: u64, key: u32, state: KeyState) -> Cell
    ensures { row_of result ≡ entry (EisRequest.KeyboardKey device time key state) no_slot }
{
    cell_of(
        kinds::KEYBOARD_KEY,
        device,
        time,
        key as u64,
        state.number() as u64,
        0.0,
        0.0,
    )
}

pub fn touch_down(device: u64, time: u64, touch: u32, x: f32, y: f32) -> Cell
    ensures { row_of result ≡ entry (EisRequest.TouchDown device time touch x y) no_slot }
{
    cell_of(kinds::TOUCH_DOWN, device, time, touch as u64, 0, x, y)
}

pub fn touch_up(device: u64, time: u64, touch: u32) -> Cell
    ensures { row_of result ≡ entry (EisRequest.TouchUp device time touch) no_slot }
{
    cell_of(kinds::TOUCH_UP, device, time, touch as u64, 0, 0.0, 0.0)
}

pub fn touch_motion(device: u64, time: u64, touch: u32, x: f32, y: f32) -> Cell
    ensures { row_of result ≡ entry (EisRequest.TouchMotion device time touch x y) no_slot }
{
    cell_of(kinds::TOUCH_MOTION, device, time, touch as u64, 0, x, y)
}

pub fn touch_cancel(device: u64, time: u64, touch: u32) -> Cell
    ensures { row_of result ≡ entry (EisRequest.TouchCancel device time touch) no_slot }
{
    cell_of(kinds::TOUCH_CANCEL, device, time, touch as u64, 0, 0.0, 0.0)
}

pub fn text_keysym(device: u64, time: u64, keysym: u32, state: KeyState) -> Cell
    ensures { row_of result ≡ entry (EisRequest.TextKeysym device time keysym state) no_slot }
{
    cell_of(
        kinds::TEXT_KEYSYM,
        device,
        time,
        keysym as u64,
        state.number() as u64,
        0.0,
        0.0,
    )
}

pub fn text_utf8(device: u64, time: u64, length: u8, slot: usize) -> Cell
    ensures { row_of result ≡ entry (EisRequest.TextUtf8 device time length) slot }
{
    cell_of(
        kinds::TEXT_UTF8,
        device,
        time,
        length as u64,
        slot as u64,
        0.0,
        0.0,
    )
}
