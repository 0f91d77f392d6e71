// A client's requests, each a call that is lent what it uses: 21's test, then its handler. A caller that has no `Request` in hand, as one
// that calls from C, needs none.
// The slices are lent one by one, as C and a station have them, of any length: 21 is the answer where they hold no session.
#![tactic(auto)]

ghost use Rattle.std.specs.Prelude.{ℕ};
ghost use Rattle.model.specs.Call.{Input, Plain, Call};
ghost use Rattle.answers.specs.Promise.{Promise, PromiseUnchanged, PromiseRows, Reply};
ghost use Rattle.client_requests.specs.Decision.{OnlyQueued, Waits};
ghost use Rattle.handlers.specs.Call.{handshake_call, seat_call, device_call, touchscreen_call};
ghost use Rattle.client_calls.specs.Request.{AsksControl, AsksRows, AsksRowsAt, AsksAll};

use answers::{Answer, Error};
use client_requests::{timed, untimed};
use eiproto::event::DeviceCapability;
use requests::cell::Cell;
use requests::eis::{
    ConnectionRequest, DeviceRequest, HandshakeRequest, SeatRequest, TextRequest,
    TouchscreenRequest,
};
use session::LentSession;

pub mod cells;

// A timed request of which nothing is asked but a known interface.
pub fn queue_for_interface(
    control: &mut [u64],
    words: &mut [u64],
    reals: &mut [f32],
    capability: DeviceCapability,
    interface: u64,
    request: Cell,
) -> Result<Answer, Error>
    ensures { (version : ℕ) (i : Input) → OnlyQueued capability i → Waits i request → AsksRows control words reals (Call.timed interface version i) result }
{
    answers::check_lent(control, words, reals)?;
    let mut session = LentSession {
        control,
        words,
        reals,
    };
    timed::queue_for_interface(&mut session, capability, interface, request)
}

// A request on a touchscreen. Its Release is `release_interface`'s: here it has no `out`.
pub fn handle_touchscreen_request(
    control: &mut [u64],
    words: &mut [u64],
    reals: &mut [f32],
    touchscreen: u64,
    version: u32,
    request: TouchscreenRequest,
) -> Result<Answer, Error>
    ensures { AsksRows control words reals (touchscreen_call request touchscreen version) result }
{
    answers::check_lent(control, words, reals)?;
    let mut session = LentSession {
        control,
        words,
        reals,
    };
    let mut out = [0u8; 0];
    handlers::handle_touchscreen_request(&mut session, touchscreen, version, request, &mut out)
}

pub fn handle_utf8_request(
    control: &mut [u64],
    words: &mut [u64],
    reals: &mut [f32],
    texts: &mut [u8],
    interface: u64,
    text: &[u8],
) -> Result<Answer, Error>
    ensures { (version : ℕ) → AsksAll control words reals texts (Call.timed interface version (Input.Utf8 text.now)) result }
{
    answers::check_whole(control, words, reals, texts)?;
    let mut session = LentSession {
        control,
        words,
        reals,
    };
    let mut out = [0u8; 0];
    handlers::handle_text_request(
        &mut session,
        texts,
        interface,
        TextRequest::Utf8,
        text,
        &mut out,
    )
}

pub fn handle_device_request(
    control: &mut [u64],
    words: &mut [u64],
    reals: &mut [f32],
    device: u64,
    request: DeviceRequest,
    clock: u64,
) -> Result<Answer, Error>
    ensures { AsksRowsAt control words reals (device_call request device) clock result }
{
    answers::check_lent(control, words, reals)?;
    let mut session = LentSession {
        control,
        words,
        reals,
    };
    handlers::handle_device_request(&mut session, device, request, clock)
}

// A client's Frame by itself: of a device's requests it comes most often.
pub fn queue_frame(
    control: &mut [u64],
    words: &mut [u64],
    reals: &mut [f32],
    device: u64,
    serial: u32,
    time: u64,
) -> Result<Answer, Error>
    ensures { AsksRows control words reals (Call.plain (Plain.device_frame device serial time)) result }
{
    answers::check_lent(control, words, reals)?;
    let mut session = LentSession {
        control,
        words,
        reals,
    };
    untimed::queue_frame(&mut session, device, serial, time)
}

// A request on a seat. Its Release is `release_seat`'s: here it has no `out`.
pub fn handle_seat_request(
    control: &mut [u64],
    words: &mut [u64],
    reals: &mut [f32],
    seat: u64,
    request: SeatRequest,
) -> Result<Answer, Error>
    ensures { AsksRows control words reals (seat_call request seat) result }
{
    answers::check_lent(control, words, reals)?;
    let mut session = LentSession {
        control,
        words,
        reals,
    };
    let mut out = [0u8; 0];
    handlers::handle_seat_request(&mut session, seat, request, &mut out)
}

pub fn disconnect(
    control: &mut [u64],
    words: &mut [u64],
    reals: &mut [f32],
) -> Result<Answer, Error>
    ensures { AsksRows control words reals (Call.plain Plain.disconnect) result }
{
    answers::check_lent(control, words, reals)?;
    let mut session = LentSession {
        control,
        words,
        reals,
    };
    let mut out = [0u8; 0];
    handlers::handle_connection_request(&mut session, ConnectionRequest::Disconnect, &mut out)
}

pub fn release_seat(
    control: &mut [u64],
    words: &mut [u64],
    reals: &mut [f32],
    seat: u64,
    out: &mut [u8],
) -> Result<Answer, Error>
    ensures { PromiseRows control words reals out (Plain.seat_release seat) result }
{
    answers::check_lent(control, words, reals)?;
    let mut session = LentSession {
        control,
        words,
        reals,
    };
    untimed::release_seat(&mut session, seat, out)
}

// The Release of the interface for a capability.
pub fn release_interface(
    control: &mut [u64],
    capability: DeviceCapability,
    interface: u64,
    out: &mut [u8],
) -> Result<Answer, Error>
    ensures { Promise control out (Plain.interface_release capability interface) result }
{
    answers::check_sound(control)?;
    untimed::release_interface(control, capability, interface, out)
}

pub fn sync(control: &[u64], callback: u64, version: u32, out: &mut [u8]) -> Result<Answer, Error>
    ensures { PromiseUnchanged control out (Plain.sync callback version) result }
{
    answers::check_sound(control)?;
    untimed::sync(callback, version, out)
}

pub fn pingpong_done(control: &[u64]) -> Result<Answer, Error>
    ensures { Reply control Plain.pingpong_done result }
{
    answers::check_sound(control)?;
    Ok(Answer::accepted())
}

pub fn handle_handshake_request(
    control: &[u64],
    request: HandshakeRequest,
    text: &[u8],
) -> Result<Answer, Error>
    ensures { AsksControl control (handshake_call request text.now) result }
{
    answers::check_sound(control)?;
    handlers::handle_handshake_request(request, text)
}
