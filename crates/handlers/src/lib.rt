// The handlers of src/request.rs: what becomes of each request that a client sends.
// A session lies in four lent slices; `session` says what they mean.
#![tactic(auto)]

ghost use Rattle.std.specs.Prelude.{List, ℕ};
ghost use Rattle.model.specs.Call.{Input};
ghost use Rattle.control.specs.Sound.{Sound};
ghost use Rattle.session.specs.View.{Whole};
ghost use Rattle.session.specs.Loan.{SameLoan, store_of};
ghost use Rattle.answers.specs.Meets.{HandledControl};
ghost use Rattle.answers.specs.Promise.{Handles, HandlesRows, SilentRows};
ghost use Rattle.client_requests.specs.Decision.{Waits};
ghost use Rattle.handlers.specs.Call.{handshake_call, connection_call, seat_call, device_call, pointer_call, pointer_absolute_call, scroll_call, button_call, keyboard_call, touchscreen_call, text_call};
ghost use Rattle.handlers.specs.Touch.{TouchActs};

use answers::{Answer, Error, NAME_LENGTH_LIMIT};
use client_requests::timed::{Queued, TouchChange};
use client_requests::{timed, untimed};
use eiproto::event::DeviceCapability;
use requests::cell;
use requests::cell::Cell;
use requests::eis::{
    ButtonRequest, ConnectionRequest, DeviceRequest, HandshakeRequest, KeyboardRequest,
    PointerAbsoluteRequest, PointerRequest, ScrollRequest, SeatRequest, TextRequest,
    TouchscreenRequest,
};
use requests::request::EisRequest;
use session::LentSession;

// A handshake's request in a running session, after what its text may meet.
pub fn handle_handshake_request(request: HandshakeRequest, text: &[u8]) -> Result<Answer, Error>
    ensures { (c out : List ℕ) (clock : ℕ) → HandledControl c c out out (handshake_call request text.now) clock result }
{
    match request {
        HandshakeRequest::Name => {
            if !utf8::valid(text) {
                return Err(Error::BadUtf8);
            }
            if NAME_LENGTH_LIMIT < text.len() {
                return Err(Error::NameLong);
            }
        }
        HandshakeRequest::InterfaceVersion { .. } => {
            if !utf8::valid(text) {
                return Err(Error::BadUtf8);
            }
        }
        HandshakeRequest::HandshakeVersion { .. }
        | HandshakeRequest::Finish
        | HandshakeRequest::ContextType { .. } => {}
    }
    Err(Error::UnexpectedHandshakeEvent)
}

pub fn handle_connection_request(
    session: &mut LentSession<'_, '_, '_>,
    request: ConnectionRequest,
    out: &mut [u8],
) -> Result<Answer, Error>
    ensures step { (clock : ℕ) → HandlesRows session out (connection_call request) clock result }
    ensures loan { SameLoan session.old session.new }
{
    match request {
        ConnectionRequest::Sync { callback, version } => untimed::sync(callback, version, out),
        ConnectionRequest::Disconnect => untimed::queue_untimed(session, EisRequest::Disconnect),
    }
}

pub fn handle_seat_request(
    session: &mut LentSession<'_, '_, '_>,
    seat: u64,
    request: SeatRequest,
    out: &mut [u8],
) -> Result<Answer, Error>
    ensures step { (clock : ℕ) → HandlesRows session out (seat_call request seat) clock result }
    ensures loan { SameLoan session.old session.new }
{
    match request {
        SeatRequest::Release => untimed::release_seat(session, seat, out),
        SeatRequest::Bind { capabilities } => {
            let bind = EisRequest::Bind { seat, capabilities };
            untimed::queue_for_seat(session, seat, capabilities, bind)
        }
        SeatRequest::RequestDevice { capabilities } => {
            let request_device = EisRequest::RequestDevice { seat, capabilities };
            untimed::queue_for_seat(session, seat, capabilities, request_device)
        }
    }
}

pub fn handle_device_request(
    session: &mut LentSession<'_, '_, '_>,
    device: u64,
    request: DeviceRequest,
    clock: u64,
) -> Result<Answer, Error>
    ensures step { SilentRows session (device_call request device) clock result }
    ensures loan { SameLoan session.old session.new }
{
    let queued = match request {
        DeviceRequest::Release => EisRequest::DeviceClosed { device },
        DeviceRequest::StartEmulating {
            last_serial,
            sequence,
        } => EisRequest::DeviceStartEmulating {
            device,
            last_serial,
            sequence,
        },
        DeviceRequest::StopEmulating { last_serial } => EisRequest::DeviceStopEmulating {
            device,
            last_serial,
        },
        DeviceRequest::Frame {
            last_serial,
            timestamp,
        } => {
            return untimed::queue_frame(session, device, last_serial, timestamp);
        }
        DeviceRequest::Ready => EisRequest::Ready { device },
    };
    untimed::queue_for_device(session, device, clock, queued)
}

// Slower for a key press: a trait with one generic handler (7 instructions), one function lent the cell as an `Option` (66).
pub fn handle_keyboard_request(
    session: &mut LentSession<'_, '_, '_>,
    keyboard: u64,
    request: KeyboardRequest,
    out: &mut [u8],
) -> Result<Answer, Error>
    ensures step { (version clock : ℕ) → HandlesRows session out (keyboard_call request keyboard version) clock result }
    ensures loan { SameLoan session.old session.new }
{
    let capability = DeviceCapability::Keyboard;
    match request {
        KeyboardRequest::Release => untimed::release_interface(
            session.control,
            capability,
            keyboard,
            out,
        ),
        KeyboardRequest::Key { key, state } => {
            let request = cell::keyboard_key(0, 0, key, state);
            timed::queue_for_interface(session, capability, keyboard, request)
        }
    }
}

pub fn handle_pointer_request(
    session: &mut LentSession<'_, '_, '_>,
    pointer: u64,
    request: PointerRequest,
    out: &mut [u8],
) -> Result<Answer, Error>
    ensures step { (version clock : ℕ) → HandlesRows session out (pointer_call request pointer version) clock result }
    ensures loan { SameLoan session.old session.new }
{
    let capability = DeviceCapability::Pointer;
    match request {
        PointerRequest::Release => untimed::release_interface(
            session.control,
            capability,
            pointer,
            out,
        ),
        PointerRequest::MotionRelative { x, y } => {
            let request = cell::pointer_motion(0, 0, x, y);
            timed::queue_for_interface(session, capability, pointer, request)
        }
    }
}

pub fn handle_pointer_absolute_request(
    session: &mut LentSession<'_, '_, '_>,
    pointer_absolute: u64,
    request: PointerAbsoluteRequest,
    out: &mut [u8],
) -> Result<Answer, Error>
    ensures step { (version clock : ℕ) → HandlesRows session out (pointer_absolute_call request pointer_absolute version) clock result }
    ensures loan { SameLoan session.old session.new }
{
    let capability = DeviceCapability::PointerAbsolute;
    match request {
        PointerAbsoluteRequest::Release => untimed::release_interface(
            session.control,
            capability,
            pointer_absolute,
            out,
        ),
        PointerAbsoluteRequest::MotionAbsolute { x, y } => {
            let request = cell::pointer_motion_absolute(0, 0, x, y);
            timed::queue_for_interface(session, capability, pointer_absolute, request)
        }
    }
}

pub fn handle_button_request(
    session: &mut LentSession<'_, '_, '_>,
    interface: u64,
    request: ButtonRequest,
    out: &mut [u8],
) -> Result<Answer, Error>
    ensures step { (version clock : ℕ) → HandlesRows session out (button_call request interface version) clock result }
    ensures loan { SameLoan session.old session.new }
{
    let capability = DeviceCapability::Button;
    match request {
        ButtonRequest::Release => untimed::release_interface(
            session.control,
            capability,
            interface,
            out,
        ),
        ButtonRequest::Button { button, state } => {
            let request = cell::button(0, 0, button, state);
            timed::queue_for_interface(session, capability, interface, request)
        }
    }
}

// "ScrollStop with `is_cancel` not 0 becomes ScrollCancel; `x` and `y` become true when not 0."
pub fn scroll_stop(x: u32, y: u32, is_cancel: u32) -> Cell
    ensures { Waits (Input.ScrollStop x y is_cancel) result }
{
    if is_cancel != 0 {
        cell::scroll_cancel(0, 0, x != 0, y != 0)
    } else {
        cell::scroll_stop(0, 0, x != 0, y != 0)
    }
}

pub fn handle_scroll_request(
    session: &mut LentSession<'_, '_, '_>,
    scroll: u64,
    request: ScrollRequest,
    out: &mut [u8],
) -> Result<Answer, Error>
    ensures step { (version clock : ℕ) → HandlesRows session out (scroll_call request scroll version) clock result }
    ensures loan { SameLoan session.old session.new }
{
    let capability = DeviceCapability::Scroll;
    match request {
        ScrollRequest::Release => untimed::release_interface(
            session.control,
            capability,
            scroll,
            out,
        ),
        ScrollRequest::Scroll { x, y } => {
            let request = cell::scroll_delta(0, 0, x, y);
            timed::queue_for_interface(session, capability, scroll, request)
        }
        ScrollRequest::ScrollDiscrete { x, y } => {
            let request = cell::scroll_discrete(0, 0, x, y);
            timed::queue_for_interface(session, capability, scroll, request)
        }
        ScrollRequest::ScrollStop { x, y, is_cancel } => {
            let request = scroll_stop(x, y, is_cancel);
            timed::queue_for_interface(session, capability, scroll, request)
        }
    }
}

// What a request on a touchscreen asks for: an enum of its own, since a decision on a timed one may be a refusal, or none.
#[derive(Clone, Copy, Debug, PartialEq)]
pub enum TouchAction {
    Release,
    Timed(Result<Option<Queued>, Error>),
}

// All of its arms meet in one call of `queue_request`: in an arm of its own each would be a call through memory.
fn decide_touchscreen(
    control: &[u64],
    touchscreen: u64,
    version: u32,
    request: TouchscreenRequest,
) -> TouchAction
    requires { Sound control.now }
    ensures { TouchActs control.now request touchscreen version result }
{
    match request {
        TouchscreenRequest::Release => TouchAction::Release,
        TouchscreenRequest::Down { touchid, x, y } => {
            let down = cell::touch_down(0, 0, touchid, x, y);
            TouchAction::Timed(timed::decide_down(control, touchscreen, touchid, down))
        }
        TouchscreenRequest::Motion { touchid, x, y } => {
            let motion = cell::touch_motion(0, 0, touchid, x, y);
            let change = TouchChange::Nothing;
            TouchAction::Timed(timed::decide_held(control, touchscreen, touchid, change, motion))
        }
        TouchscreenRequest::Up { touchid } => {
            let up = cell::touch_up(0, 0, touchid);
            let change = TouchChange::Up(touchid);
            TouchAction::Timed(timed::decide_held(control, touchscreen, touchid, change, up))
        }
        TouchscreenRequest::Cancel { touchid } => {
            let cancel = cell::touch_cancel(0, 0, touchid);
            TouchAction::Timed(timed::decide_cancel(control, touchscreen, version, touchid, cancel))
        }
    }
}

pub fn handle_touchscreen_request(
    session: &mut LentSession<'_, '_, '_>,
    touchscreen: u64,
    version: u32,
    request: TouchscreenRequest,
    out: &mut [u8],
) -> Result<Answer, Error>
    ensures step { (clock : ℕ) → HandlesRows session out (touchscreen_call request touchscreen version) clock result }
    ensures loan { SameLoan session.old session.new }
{
    let control = &mut *session.control;
    let capability = DeviceCapability::Touch;
    match decide_touchscreen(control, touchscreen, version, request) {
        TouchAction::Release => untimed::release_interface(
            session.control,
            capability,
            touchscreen,
            out,
        ),
        TouchAction::Timed(decision) => timed::queue_request(session, decision),
    }
}

pub fn handle_text_request(
    session: &mut LentSession<'_, '_, '_>,
    texts: &mut [u8],
    interface: u64,
    request: TextRequest,
    text: &[u8],
    out: &mut [u8],
) -> Result<Answer, Error>
    requires { Whole (store_of session.old texts.old) }
    ensures step { (version clock : ℕ) → Handles session texts out (text_call request interface version text.now) clock result }
    ensures loan { SameLoan session.old session.new }
{
    let capability = DeviceCapability::Text;
    match request {
        TextRequest::Release => untimed::release_interface(
            session.control,
            capability,
            interface,
            out,
        ),
        TextRequest::Keysym { keysym, state } => {
            let request = cell::text_keysym(0, 0, keysym, state);
            timed::queue_for_interface(session, capability, interface, request)
        }
        TextRequest::Utf8 => {
            if !utf8::valid(text) {
                return Err(Error::BadUtf8);
            }
            timed::queue_utf8(session, texts, interface, text)
        }
    }
}
