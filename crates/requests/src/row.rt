// A request as a row of lent slices: some words and reals, with no two fields in one word.
// Any numbers mean some request, so what is read needs no test. Rows are named by their number; where they lie is known here alone.
ghost use Rattle.std.specs.Prelude.{◌≡◌, ◌+◌, ◌*◌, ◌<◌, ◌≤◌, ℕ, get_or, length};
ghost use Rattle.requests.specs.Row.{PutRow, low, amount_of, key_state, button_state, request_of, row_of, entry, framed_row, cell_at, row_at, Within, Put, PutFramed};

use crate::cell::Cell;
use crate::request::EisRequest;
use crate::{cell, kinds};
use eiproto::eiproto_enum::{ButtonState, KeyState};

pub const ROW_WORDS: usize = 5;

pub const ROW_REALS: usize = 2;

// "32 texts stand": the slots that texts lie in are those below.
pub const TEXTS_LIMIT: usize = 32;

// That of no text.
pub const NO_SLOT: usize = TEXTS_LIMIT;

// The low 32 bits of any number: no `TryFrom`, and no `From` of std.
pub fn low(n: u64) -> u32
    ensures { result ≡ low n }
{
    (n % 4294967296) as u32
}

// The states that numbers mean. Any number means one (`request_of` of specs/Row), so these are no `TryFrom`.
pub fn button_state(n: u64) -> ButtonState
    ensures { result ≡ button_state n }
{
    if n == 1 {
        ButtonState::Press
    } else {
        ButtonState::Released
    }
}

pub fn key_state(n: u64) -> KeyState
    ensures { result ≡ key_state n }
{
    if n == 1 {
        KeyState::Press
    } else {
        KeyState::Released
    }
}

// A signed amount from its bits, in two's complement. Any number means one, so this is no `TryFrom`.
#[tactic(auto, unfolding(crate::specs::Row::amount_of))]
pub fn amount(n: u64) -> i32
    ensures { result ≡ amount_of n }
{
    low(n).cast_signed()
}

// The cell of a request: decoded, it is the request again, every float and signed amount as it was. The slot counts for a text alone.
#[tactic(auto, using(crate::proofs::Cells::low_is), unfolding(crate::specs::Row::request_of, crate::specs::Row::row_of, crate::specs::Row::entry))]
pub fn encode(r: EisRequest, slot: usize) -> Cell
    ensures { row_of result ≡ entry r slot }
{
    match r {
        EisRequest::Disconnect => cell::cell_of(kinds::DISCONNECT, 0, 0, 0, 0, 0.0, 0.0),
        EisRequest::Bind { seat, capabilities } => cell::cell_of(
            kinds::BIND,
            seat,
            capabilities,
            0,
            0,
            0.0,
            0.0,
        ),
        EisRequest::DeviceClosed { device } => cell::cell_of(
            kinds::DEVICE_CLOSED,
            device,
            0,
            0,
            0,
            0.0,
            0.0,
        ),
        EisRequest::RequestDevice { seat, capabilities } => cell::cell_of(
            kinds::REQUEST_DEVICE,
            seat,
            capabilities,
            0,
            0,
            0.0,
            0.0,
        ),
        EisRequest::Frame {
            device,
            last_serial,
            time,
        } => cell::frame(device, last_serial, time),
        EisRequest::Ready { device } => cell::cell_of(kinds::READY, device, 0, 0, 0, 0.0, 0.0),
        EisRequest::DeviceStartEmulating {
            device,
            last_serial,
            sequence,
        } => cell::cell_of(
            kinds::DEVICE_START_EMULATING,
            device,
            0,
            last_serial as u64,
            sequence as u64,
            0.0,
            0.0,
        ),
        EisRequest::DeviceStopEmulating {
            device,
            last_serial,
        } => cell::cell_of(
            kinds::DEVICE_STOP_EMULATING,
            device,
            0,
            last_serial as u64,
            0,
            0.0,
            0.0,
        ),
        EisRequest::PointerMotion {
            device,
            time,
            dx,
            dy,
        } => cell::pointer_motion(device, time, dx, dy),
        EisRequest::PointerMotionAbsolute {
            device,
            time,
            dx_absolute,
            dy_absolute,
        } => cell::pointer_motion_absolute(device, time, dx_absolute, dy_absolute),
        EisRequest::Button {
            device,
            time,
            button,
            state,
        } => cell::button(device, time, button, state),
        EisRequest::ScrollDelta {
            device,
            time,
            dx,
            dy,
        } => cell::scroll_delta(device, time, dx, dy),
        EisRequest::ScrollStop { device, time, x, y } => cell::scroll_stop(device, time, x, y),
        EisRequest::ScrollCancel { device, time, x, y } => cell::scroll_cancel(device, time, x, y),
        EisRequest::ScrollDiscrete {
            device,
            time,
            discrete_dx,
            discrete_dy,
        } => cell::scroll_discrete(device, time, discrete_dx, discrete_dy),
        EisRequest::KeyboardKey {
            device,
            time,
            key,
            state,
        } => cell::keyboard_key(device, time, key, state),
        EisRequest::TouchDown {
            device,
            time,
            touch_id,
            x,
            y,
        } => cell::touch_down(device, time, touch_id, x, y),
        EisRequest::TouchUp {
            device,
            time,
            touch_id,
        } => cell::touch_up(device, time, touch_id),
        EisRequest::TouchMotion {
            device,
            time,
            touch_id,
            x,
            y,
        } => cell::touch_motion(device, time, touch_id, x, y),
        EisRequest::TouchCancel {
            device,
            time,
            touch_id,
        } => cell::touch_cancel(device, time, touch_id),
        EisRequest::TextKeysym {
            device,
            time,
            keysym,
            state,
        } => cell::text_keysym(device, time, keysym, state),
        EisRequest::TextUtf8 {
            device,
            time,
            length,
        } => cell::text_utf8(device, time, length, slot),
    }
}

// The request that a cell means. A number too wide for its field is cut, and a kind past the last means `Disconnect`.
// An arm for each kind, as `meanings` of specs/Row has them: a row is what C is handed.
#[tactic(auto, unfolding(crate::specs::Row::request_of, crate::specs::Row::amount_of))]
pub fn decode(c: Cell) -> EisRequest
    ensures { result ≡ request_of c }
{
    match c.kind {
        kinds::DISCONNECT => EisRequest::Disconnect,
        kinds::BIND => EisRequest::Bind {
            seat: c.object,
            capabilities: c.time,
        },
        kinds::DEVICE_CLOSED => EisRequest::DeviceClosed { device: c.object },
        kinds::REQUEST_DEVICE => EisRequest::RequestDevice {
            seat: c.object,
            capabilities: c.time,
        },
        kinds::FRAME => EisRequest::Frame {
            device: c.object,
            last_serial: low(c.extra),
            time: c.time,
        },
        kinds::READY => EisRequest::Ready { device: c.object },
        kinds::DEVICE_START_EMULATING => EisRequest::DeviceStartEmulating {
            device: c.object,
            last_serial: low(c.extra),
            sequence: low(c.flag),
        },
        kinds::DEVICE_STOP_EMULATING => EisRequest::DeviceStopEmulating {
            device: c.object,
            last_serial: low(c.extra),
        },
        kinds::POINTER_MOTION => EisRequest::PointerMotion {
            device: c.object,
            time: c.time,
            dx: c.x,
            dy: c.y,
        },
        kinds::POINTER_MOTION_ABSOLUTE => EisRequest::PointerMotionAbsolute {
            device: c.object,
            time: c.time,
            dx_absolute: c.x,
            dy_absolute: c.y,
        },
        kinds::BUTTON => EisRequest::Button {
            device: c.object,
            time: c.time,
            button: low(c.extra),
            state: button_state(c.flag),
        },
        kinds::SCROLL_DELTA => EisRequest::ScrollDelta {
            device: c.object,
            time: c.time,
            dx: c.x,
            dy: c.y,
        },
        kinds::SCROLL_STOP => EisRequest::ScrollStop {
            device: c.object,
            time: c.time,
            x: c.extra == 1,
            y: c.flag == 1,
        },
        kinds::SCROLL_CANCEL => EisRequest::ScrollCancel {
            device: c.object,
            time: c.time,
            x: c.extra == 1,
            y: c.flag == 1,
        },
        kinds::SCROLL_DISCRETE => EisRequest::ScrollDiscrete {
            device: c.object,
            time: c.time,
            discrete_dx: amount(c.extra),
            discrete_dy: amount(c.flag),
        },
        kinds::KEYBOARD_KEY => EisRequest::KeyboardKey {
            device: c.object,
            time: c.time,
            key: low(c.extra),
            state: key_state(c.flag),
        },
        kinds::TOUCH_DOWN => EisRequest::TouchDown {
            device: c.object,
            time: c.time,
            touch_id: low(c.extra),
            x: c.x,
            y: c.y,
        },
        kinds::TOUCH_UP => EisRequest::TouchUp {
            device: c.object,
            time: c.time,
            touch_id: low(c.extra),
        },
        kinds::TOUCH_MOTION => EisRequest::TouchMotion {
            device: c.object,
            time: c.time,
            touch_id: low(c.extra),
            x: c.x,
            y: c.y,
        },
        kinds::TOUCH_CANCEL => EisRequest::TouchCancel {
            device: c.object,
            time: c.time,
            touch_id: low(c.extra),
        },
        kinds::TEXT_KEYSYM => EisRequest::TextKeysym {
            device: c.object,
            time: c.time,
            keysym: low(c.extra),
            state: key_state(c.flag),
        },
        kinds::TEXT_UTF8 => EisRequest::TextUtf8 {
            device: c.object,
            time: c.time,
            length: (c.extra % 256) as u8,
        },
        _ => EisRequest::Disconnect,
    }
}

// The slot of the text; `NO_SLOT` where there is no text.
pub fn slot_of(c: Cell) -> usize
    ensures { result ≡ (row_of c).slot }
{
    if c.kind == kinds::TEXT_UTF8 {
        (c.flag % TEXTS_LIMIT as u64) as usize
    } else {
        NO_SLOT
    }
}

// A pending cell as the frame of its device queues it. The kind tells whether it is timed, so a frame moves cells and decodes none.
fn framed(c: Cell, device: u64, time: u64) -> Cell
    ensures { row_of result ≡ framed_row device time (row_of c) }
{
    if !kinds::is_timed(c.kind) {
        return cell::scroll_stop(device, time, false, false);
    }
    Cell {
        object: device,
        time,
        ..c
    }
}

// The entries of a row, in a table whose rows have so many each.
pub fn entries<T: Copy, const N: usize>(table: &[T], row: usize) -> [T; N]
    requires { row * N + N ≤ length table.now }
    ensures { (j : ℕ) (d : T) → j < N → get_or result j d ≡ get_or table.now (row * N + j) d }
{
    *table[row * N..row * N + N].as_array().unwrap()
}

// A slice as long as the array becomes it. With `copy_from_slice` a row's copy takes 64 instructions in place of 34, its writing 39 in place of 31.
fn set<T: Copy, const N: usize>(part: &mut [T], values: [T; N])
    requires { length part.old ≡ N }
    ensures { part.new ≡ values }
{
    *part.as_mut_array().unwrap() = values;
}

// Stores the entries of a row, and changes no other.
pub fn put_entries<T: Copy, const N: usize>(table: &mut [T], row: usize, values: [T; N])
    requires { row * N + N ≤ length table.old }
    ensures { PutRow N row values table.old table.new }
{
    set(&mut table[row * N..row * N + N], values);
}

// The cell of a row.
#[tactic(auto, unfolding(crate::specs::Row::cell_at))]
pub fn read_cell(words: &[u64], reals: &[f32], row: usize) -> Cell
    requires { Within words.now reals.now row }
    ensures { result ≡ cell_at words.now reals.now row }
{
    let [kind, object, time, extra, flag] = entries::<u64, ROW_WORDS>(words, row);
    let [x, y] = entries::<f32, ROW_REALS>(reals, row);
    Cell {
        kind,
        object,
        time,
        extra,
        flag,
        x,
        y,
    }
}

fn write_cell(words: &mut [u64], reals: &mut [f32], row: usize, c: Cell)
    requires { Within words.old reals.old row }
    ensures { Put (cell_at words.old reals.old) (cell_at words.new reals.new) row c }
{
    put_entries(words, row, [c.kind, c.object, c.time, c.extra, c.flag]);
    put_entries(reals, row, [c.x, c.y]);
}

// The slot of a row's text; `NO_SLOT` where the row has no text.
#[tactic(auto, unfolding(crate::specs::Row::row_at))]
pub fn load_slot(words: &[u64], reals: &[f32], row: usize) -> usize
    requires { Within words.now reals.now row }
    ensures { result ≡ (row_at words.now reals.now row).slot }
{
    slot_of(read_cell(words, reals, row))
}

// Stores a cell in a row.
#[tactic(auto, using(crate::proofs::Stores::mapped), unfolding(crate::specs::Row::row_at))]
pub fn put_cell(words: &mut [u64], reals: &mut [f32], row: usize, c: Cell)
    requires { Within words.old reals.old row }
    ensures { Put (row_at words.old reals.old) (row_at words.new reals.new) row (row_of c) }
{
    write_cell(words, reals, row, c);
}

// Stores a request in a row.
pub fn put(words: &mut [u64], reals: &mut [f32], row: usize, r: EisRequest, slot: usize)
    requires { Within words.old reals.old row }
    ensures { Put (row_at words.old reals.old) (row_at words.new reals.new) row (entry r slot) }
{
    put_cell(words, reals, row, encode(r, slot));
}

// Copies a pending row over another, as the frame of its device queues it.
#[tactic(auto, using(crate::proofs::Stores::mapped), unfolding(crate::specs::Row::row_at))]
pub fn copy_framed(
    words: &mut [u64],
    reals: &mut [f32],
    from: usize,
    to: usize,
    device: u64,
    time: u64,
)
    requires { Within words.old reals.old from × Within words.old reals.old to }
    ensures { PutFramed (row_at words.old reals.old) (row_at words.new reals.new) from to device time }
{
    let c = read_cell(words, reals, from);
    write_cell(words, reals, to, framed(c, device, time));
}
