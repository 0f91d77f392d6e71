// A client's request as numbers: eight words and two reals, with no two fields in one word. Any numbers mean some request, so what is read needs no test.
ghost use Rattle.std.specs.Prelude.{◌≡◌};
ghost use Rattle.requests.specs.Row.{Put};
ghost use Rattle.lent_read.specs.Numbers.{arguments_of, request_of, record_of, has_state, is_request, cell_at, record_at, Within};

use crate::numbers;
use reads::record::RequestRecord;
use requests::eis::{
    ButtonRequest, ConnectionRequest, DeviceRequest, HandshakeRequest, InterfaceRequest,
    KeyboardRequest, PointerAbsoluteRequest, PointerRequest, Request, ScrollRequest, SeatRequest,
    TextRequest, TouchscreenRequest,
};
use requests::{cell, row};

pub const RECORD_WORDS: usize = 8;

pub const RECORD_REALS: usize = 2;

// A record's numbers: which request, on what object, its arguments that are whole numbers and those that are reals, and the part of its text.
#[derive(Clone, Copy, Debug, PartialEq)]
pub struct RequestCell {
    pub request: u64,
    pub object: u64,
    pub version: u64,
    pub first: u64,
    pub second: u64,
    pub third: u64,
    pub start: u64,
    pub length: u64,
    pub x: f32,
    pub y: f32,
}

// The request that the numbers mean. A number too wide for its field is cut, and a request past the last means Pingpong's Done, which does nothing.
// An arm for each number, as `meanings` of specs/Numbers has them: any number means some request, and C hands them.
#[tactic(auto, unfolding(crate::specs::Numbers::request_of))]
pub fn request_of(c: RequestCell) -> Request
    ensures { result ≡ request_of c }
{
    match c.request {
        numbers::HANDSHAKE_VERSION => Request::Handshake(HandshakeRequest::HandshakeVersion {
            version: row::low(c.first),
        }),
        numbers::HANDSHAKE_FINISH => Request::Handshake(HandshakeRequest::Finish),
        numbers::HANDSHAKE_CONTEXT_TYPE => Request::Handshake(HandshakeRequest::ContextType {
            context_type: row::low(c.first),
        }),
        numbers::HANDSHAKE_NAME => Request::Handshake(HandshakeRequest::Name),
        numbers::HANDSHAKE_INTERFACE_VERSION => Request::Handshake(
            HandshakeRequest::InterfaceVersion {
                version: row::low(c.first),
            },
        ),
        numbers::CONNECTION_SYNC => Request::Connection(ConnectionRequest::Sync {
            callback: c.first,
            version: row::low(c.second),
        }),
        numbers::CONNECTION_DISCONNECT => Request::Connection(ConnectionRequest::Disconnect),
        numbers::PINGPONG_DONE => Request::PingpongDone,
        numbers::SEAT_RELEASE => Request::Seat(SeatRequest::Release),
        numbers::SEAT_BIND => Request::Seat(SeatRequest::Bind {
            capabilities: c.first,
        }),
        numbers::SEAT_REQUEST_DEVICE => Request::Seat(SeatRequest::RequestDevice {
            capabilities: c.first,
        }),
        numbers::DEVICE_RELEASE => Request::Device(DeviceRequest::Release),
        numbers::DEVICE_START_EMULATING => Request::Device(DeviceRequest::StartEmulating {
            last_serial: row::low(c.first),
            sequence: row::low(c.second),
        }),
        numbers::DEVICE_STOP_EMULATING => Request::Device(DeviceRequest::StopEmulating {
            last_serial: row::low(c.first),
        }),
        numbers::DEVICE_FRAME => Request::Device(DeviceRequest::Frame {
            last_serial: row::low(c.first),
            timestamp: c.second,
        }),
        numbers::DEVICE_READY => Request::Device(DeviceRequest::Ready),
        numbers::POINTER_RELEASE => Request::Interface(InterfaceRequest::Pointer(
            PointerRequest::Release,
        )),
        numbers::POINTER_MOTION_RELATIVE => Request::Interface(InterfaceRequest::Pointer(
            PointerRequest::MotionRelative { x: c.x, y: c.y },
        )),
        numbers::POINTER_ABSOLUTE_RELEASE => Request::Interface(InterfaceRequest::PointerAbsolute(
            PointerAbsoluteRequest::Release,
        )),
        numbers::POINTER_ABSOLUTE_MOTION_ABSOLUTE => Request::Interface(
            InterfaceRequest::PointerAbsolute(PointerAbsoluteRequest::MotionAbsolute {
                x: c.x,
                y: c.y,
            }),
        ),
        numbers::SCROLL_RELEASE => Request::Interface(InterfaceRequest::Scroll(
            ScrollRequest::Release,
        )),
        numbers::SCROLL_SCROLL => Request::Interface(InterfaceRequest::Scroll(
            ScrollRequest::Scroll { x: c.x, y: c.y },
        )),
        numbers::SCROLL_SCROLL_DISCRETE => Request::Interface(InterfaceRequest::Scroll(
            ScrollRequest::ScrollDiscrete {
                x: row::amount(c.first),
                y: row::amount(c.second),
            },
        )),
        numbers::SCROLL_SCROLL_STOP => Request::Interface(InterfaceRequest::Scroll(
            ScrollRequest::ScrollStop {
                x: row::low(c.first),
                y: row::low(c.second),
                is_cancel: row::low(c.third),
            },
        )),
        numbers::BUTTON_RELEASE => Request::Interface(InterfaceRequest::Button(
            ButtonRequest::Release,
        )),
        numbers::BUTTON_BUTTON => Request::Interface(InterfaceRequest::Button(
            ButtonRequest::Button {
                button: row::low(c.first),
                state: row::button_state(c.second),
            },
        )),
        numbers::KEYBOARD_RELEASE => Request::Interface(InterfaceRequest::Keyboard(
            KeyboardRequest::Release,
        )),
        numbers::KEYBOARD_KEY => Request::Interface(InterfaceRequest::Keyboard(
            KeyboardRequest::Key {
                key: row::low(c.first),
                state: row::key_state(c.second),
            },
        )),
        numbers::TOUCHSCREEN_RELEASE => Request::Interface(InterfaceRequest::Touchscreen(
            TouchscreenRequest::Release,
        )),
        numbers::TOUCHSCREEN_DOWN => Request::Interface(InterfaceRequest::Touchscreen(
            TouchscreenRequest::Down {
                touchid: row::low(c.first),
                x: c.x,
                y: c.y,
            },
        )),
        numbers::TOUCHSCREEN_MOTION => Request::Interface(InterfaceRequest::Touchscreen(
            TouchscreenRequest::Motion {
                touchid: row::low(c.first),
                x: c.x,
                y: c.y,
            },
        )),
        numbers::TOUCHSCREEN_UP => Request::Interface(InterfaceRequest::Touchscreen(
            TouchscreenRequest::Up {
                touchid: row::low(c.first),
            },
        )),
        numbers::TOUCHSCREEN_CANCEL => Request::Interface(InterfaceRequest::Touchscreen(
            TouchscreenRequest::Cancel {
                touchid: row::low(c.first),
            },
        )),
        numbers::TEXT_RELEASE => Request::Interface(InterfaceRequest::Text(TextRequest::Release)),
        numbers::TEXT_KEYSYM => Request::Interface(InterfaceRequest::Text(TextRequest::Keysym {
            keysym: row::low(c.first),
            state: row::key_state(c.second),
        })),
        numbers::TEXT_UTF8 => Request::Interface(InterfaceRequest::Text(TextRequest::Utf8)),
        _ => Request::PingpongDone,
    }
}

#[tactic(auto, unfolding(crate::specs::Numbers::record_of))]
fn record_of(c: RequestCell) -> RequestRecord
    ensures { result ≡ record_of c }
{
    RequestRecord {
        object: c.object,
        version: row::low(c.version),
        request: request_of(c),
        start: c.start as usize,
        length: c.length as usize,
    }
}

// The numbers of a request, on no object and with no part: one whose arguments are whole numbers, and one that has reals too.
// The latter by `..with_numbers(..)` was tried, and is not proved: its contract leaves the object and the part open.
#[tactic(auto, unfolding(crate::specs::Numbers::request_of))]
fn with_numbers(number: u64, first: u64, second: u64, third: u64) -> RequestCell
    ensures { request_of result ≡ request_of (arguments_of number first second third result.x result.y) }
{
    RequestCell {
        request: number,
        object: 0,
        version: 0,
        first,
        second,
        third,
        start: 0,
        length: 0,
        x: 0.0,
        y: 0.0,
    }
}

#[tactic(auto, unfolding(crate::specs::Numbers::request_of))]
fn with_reals(number: u64, first: u64, x: f32, y: f32) -> RequestCell
    ensures { request_of result ≡ request_of (arguments_of number first 0 0 x y) }
{
    RequestCell {
        request: number,
        object: 0,
        version: 0,
        first,
        second: 0,
        third: 0,
        start: 0,
        length: 0,
        x,
        y,
    }
}

// The request as numbers: they mean the request again, every float and signed amount as it was.
#[tactic(auto, using(requests::proofs::Cells::low_is, requests::proofs::Cells::button_is, requests::proofs::Cells::key_is), unfolding(crate::specs::Numbers::request_of))]
fn request_cell(request: Request) -> RequestCell
    ensures { request_of result ≡ request }
{
    match request {
        Request::Handshake(r) => match r {
            HandshakeRequest::HandshakeVersion { version } => with_numbers(
                numbers::HANDSHAKE_VERSION,
                version as u64,
                0,
                0,
            ),
            HandshakeRequest::Finish => with_numbers(numbers::HANDSHAKE_FINISH, 0, 0, 0),
            HandshakeRequest::ContextType { context_type } => with_numbers(
                numbers::HANDSHAKE_CONTEXT_TYPE,
                context_type as u64,
                0,
                0,
            ),
            HandshakeRequest::Name => with_numbers(numbers::HANDSHAKE_NAME, 0, 0, 0),
            HandshakeRequest::InterfaceVersion { version } => with_numbers(
                numbers::HANDSHAKE_INTERFACE_VERSION,
                version as u64,
                0,
                0,
            ),
        },
        Request::Connection(r) => match r {
            ConnectionRequest::Sync { callback, version } => with_numbers(
                numbers::CONNECTION_SYNC,
                callback,
                version as u64,
                0,
            ),
            ConnectionRequest::Disconnect => with_numbers(numbers::CONNECTION_DISCONNECT, 0, 0, 0),
        },
        Request::PingpongDone => with_numbers(numbers::PINGPONG_DONE, 0, 0, 0),
        Request::Seat(r) => match r {
            SeatRequest::Release => with_numbers(numbers::SEAT_RELEASE, 0, 0, 0),
            SeatRequest::Bind { capabilities } => with_numbers(
                numbers::SEAT_BIND,
                capabilities,
                0,
                0,
            ),
            SeatRequest::RequestDevice { capabilities } => with_numbers(
                numbers::SEAT_REQUEST_DEVICE,
                capabilities,
                0,
                0,
            ),
        },
        Request::Device(r) => match r {
            DeviceRequest::Release => with_numbers(numbers::DEVICE_RELEASE, 0, 0, 0),
            DeviceRequest::StartEmulating {
                last_serial,
                sequence,
            } => with_numbers(
                numbers::DEVICE_START_EMULATING,
                last_serial as u64,
                sequence as u64,
                0,
            ),
            DeviceRequest::StopEmulating { last_serial } => with_numbers(
                numbers::DEVICE_STOP_EMULATING,
                last_serial as u64,
                0,
                0,
            ),
            DeviceRequest::Frame {
                last_serial,
                timestamp,
            } => with_numbers(numbers::DEVICE_FRAME, last_serial as u64, timestamp, 0),
            DeviceRequest::Ready => with_numbers(numbers::DEVICE_READY, 0, 0, 0),
        },
        Request::Interface(i) => match i {
            InterfaceRequest::Pointer(r) => match r {
                PointerRequest::Release => with_numbers(numbers::POINTER_RELEASE, 0, 0, 0),
                PointerRequest::MotionRelative { x, y } => with_reals(
                    numbers::POINTER_MOTION_RELATIVE,
                    0,
                    x,
                    y,
                ),
            },
            InterfaceRequest::PointerAbsolute(r) => match r {
                PointerAbsoluteRequest::Release => with_numbers(
                    numbers::POINTER_ABSOLUTE_RELEASE,
                    0,
                    0,
                    0,
                ),
                PointerAbsoluteRequest::MotionAbsolute { x, y } => with_reals(
                    numbers::POINTER_ABSOLUTE_MOTION_ABSOLUTE,
                    0,
                    x,
                    y,
                ),
            },
            InterfaceRequest::Scroll(r) => match r {
                ScrollRequest::Release => with_numbers(numbers::SCROLL_RELEASE, 0, 0, 0),
                ScrollRequest::Scroll { x, y } => with_reals(numbers::SCROLL_SCROLL, 0, x, y),
                ScrollRequest::ScrollDiscrete { x, y } => with_numbers(
                    numbers::SCROLL_SCROLL_DISCRETE,
                    cell::amount_bits(x),
                    cell::amount_bits(y),
                    0,
                ),
                ScrollRequest::ScrollStop { x, y, is_cancel } => with_numbers(
                    numbers::SCROLL_SCROLL_STOP,
                    x as u64,
                    y as u64,
                    is_cancel as u64,
                ),
            },
            InterfaceRequest::Button(r) => match r {
                ButtonRequest::Release => with_numbers(numbers::BUTTON_RELEASE, 0, 0, 0),
                ButtonRequest::Button { button, state } => with_numbers(
                    numbers::BUTTON_BUTTON,
                    button as u64,
                    state.number() as u64,
                    0,
                ),
            },
            InterfaceRequest::Keyboard(r) => match r {
                KeyboardRequest::Release => with_numbers(numbers::KEYBOARD_RELEASE, 0, 0, 0),
                KeyboardRequest::Key { key, state } => with_numbers(
                    numbers::KEYBOARD_KEY,
                    key as u64,
                    state.number() as u64,
                    0,
                ),
            },
            InterfaceRequest::Touchscreen(r) => match r {
                TouchscreenRequest::Release => with_numbers(numbers::TOUCHSCREEN_RELEASE, 0, 0, 0),
                TouchscreenRequest::Down { touchid, x, y } => with_reals(
                    numbers::TOUCHSCREEN_DOWN,
                    touchid as u64,
                    x,
                    y,
                ),
                TouchscreenRequest::Motion { touchid, x, y } => with_reals(
                    numbers::TOUCHSCREEN_MOTION,
                    touchid as u64,
                    x,
                    y,
                ),
                TouchscreenRequest::Up { touchid } => with_numbers(
                    numbers::TOUCHSCREEN_UP,
                    touchid as u64,
                    0,
                    0,
                ),
                TouchscreenRequest::Cancel { touchid } => with_numbers(
                    numbers::TOUCHSCREEN_CANCEL,
                    touchid as u64,
                    0,
                    0,
                ),
            },
            InterfaceRequest::Text(r) => match r {
                TextRequest::Release => with_numbers(numbers::TEXT_RELEASE, 0, 0, 0),
                TextRequest::Keysym { keysym, state } => with_numbers(
                    numbers::TEXT_KEYSYM,
                    keysym as u64,
                    state.number() as u64,
                    0,
                ),
                TextRequest::Utf8 => with_numbers(numbers::TEXT_UTF8, 0, 0, 0),
            },
        },
    }
}

// A record as numbers, which mean that record.
#[tactic(auto, unfolding(crate::specs::Numbers::request_of, crate::specs::Numbers::record_of))]
fn cell_of(one: RequestRecord) -> RequestCell
    ensures { record_of result ≡ one }
{
    RequestCell {
        object: one.object,
        version: u64::from(one.version),
        start: one.start as u64,
        length: one.length as u64,
        ..request_cell(one.request)
    }
}

// Whether a request of this number tells a state, which is then its second argument.
fn has_state(number: u64) -> bool
    ensures { result ≡ has_state number }
{
    matches!(
        number,
        numbers::BUTTON_BUTTON | numbers::KEYBOARD_KEY | numbers::TEXT_KEYSYM
    )
}

// Whether the numbers stand for a case of each enum: the request's for a request, and a state for a press or a release.
pub fn is_request(c: RequestCell) -> bool
    ensures { result ≡ is_request c }
{
    c.request <= numbers::TEXT_UTF8 && (!has_state(c.request) || c.second <= 1)
}

// The numbers at a place.
#[tactic(auto, unfolding(crate::specs::Numbers::cell_at))]
pub fn cell_at(records: &[u64], points: &[f32], i: usize) -> RequestCell
    requires { Within records.now points.now i }
    ensures { result ≡ cell_at records.now points.now i }
{
    let [
        request,
        object,
        version,
        first,
        second,
        third,
        start,
        length,
    ] = row::entries::<u64, RECORD_WORDS>(records, i);
    let [x, y] = row::entries::<f32, RECORD_REALS>(points, i);
    RequestCell {
        request,
        object,
        version,
        first,
        second,
        third,
        start,
        length,
        x,
        y,
    }
}

// The record at a place.
pub fn record_at(records: &[u64], points: &[f32], i: usize) -> RequestRecord
    requires { Within records.now points.now i }
    ensures { result ≡ record_at records.now points.now i }
{
    record_of(cell_at(records, points, i))
}

fn write_cell(records: &mut [u64], points: &mut [f32], i: usize, c: RequestCell)
    requires { Within records.old points.old i }
    ensures { Put (cell_at records.old points.old) (cell_at records.new points.new) i c }
{
    row::put_entries(
        records,
        i,
        [
            c.request, c.object, c.version, c.first, c.second, c.third, c.start, c.length,
        ],
    );
    row::put_entries(points, i, [c.x, c.y]);
}

// Stores a record at a place.
pub fn put_record(records: &mut [u64], points: &mut [f32], i: usize, one: RequestRecord)
    requires { Within records.old points.old i }
    ensures { Put (record_at records.old points.old) (record_at records.new points.new) i one }
{
    write_cell(records, points, i, cell_of(one));
}
