// The requests that are not timed: what is queued at once, what is answered at once, and the flush of a device's pending requests.
ghost use Rattle.std.specs.Prelude.{ℕ, List};
ghost use Rattle.model.specs.Call.{Input, Plain, Call};
ghost use Rattle.model.specs.Decide.{handle_seat, handle_device};
ghost use Rattle.control.specs.Sound.{Sound};
ghost use Rattle.session.specs.Loan.{SameLoan};
ghost use Rattle.answers.specs.Meets.{HandledControl};
ghost use Rattle.answers.specs.Promise.{HandlesControl, HandlesRows, SilentRows};
ghost use Rattle.client_requests.specs.Queueing.{Planned, QueuesRows};

use answers::{Answer, Error};
use eiproto::eiproto_eis::CALLBACK;
use eiproto::event::DeviceCapability;
use events::Mark;
use requests::request::EisRequest;
use session::LentSession;
use wire::backend::FIRST_SERVER_ID;
use wire::event;
use wire::event::Event;

// A request that flushes nothing, behind all others.
pub fn queue_untimed(
    session: &mut LentSession<'_, '_, '_>,
    request: EisRequest,
) -> Result<Answer, Error>
    ensures step { QueuesRows session request result }
    ensures loan { SameLoan session.old session.new }
{
    let control = &mut *session.control;
    if !queue::has_room(control, 1) {
        return Err(Error::FullQueue);
    }
    queue::push(session, request);
    Ok(Answer::accepted())
}

pub fn sync(callback: u64, version: u32, out: &mut [u8]) -> Result<Answer, Error>
    ensures { (c : List ℕ) (clock : ℕ) → HandledControl c c out.old out.new (Call.plain (Plain.sync callback version)) clock result }
{
    if version != 1 {
        return Err(Error::InvalidInterfaceVersion {
            interface: CALLBACK,
            version,
        });
    }
    let done = Event::CallbackDone { value: 0 };
    if out.len() < event::fixed_length(done) {
        return Err(Error::ShortOut);
    }
    Ok(Answer::sent(events::send(out, 0, callback, done, b"")))
}

// Sync as a message: its callback is an object of the client's own, whose id is above the last that it gave and none of the server's.
pub fn sync_message(
    control: &mut [u64],
    callback: u64,
    version: u32,
    out: &mut [u8],
) -> Result<Answer, Error>
    requires { Sound control.old }
    ensures { (clock : ℕ) → HandlesControl control out (Call.plain (Plain.sync_message callback version)) clock result }
{
    if callback <= control::last_peer_id(control) {
        return Err(Error::InvalidId);
    }
    if FIRST_SERVER_ID <= callback {
        return Err(Error::InvalidId);
    }
    let answer = sync(callback, version, out)?;
    session::new_peer_object(control, callback);
    Ok(answer)
}

// "A released seat takes its devices with it .. Seat Release for an unknown seat sends nothing."
pub fn release_seat(
    session: &mut LentSession<'_, '_, '_>,
    seat: u64,
    out: &mut [u8],
) -> Result<Answer, Error>
    ensures step { (clock : ℕ) → HandlesRows session out (Call.plain (Plain.seat_release seat)) clock result }
    ensures loan { SameLoan session.old session.new }
{
    let control = &mut *session.control;
    let Some(_) = control::find_seat(control, seat) else {
        return Ok(Answer::accepted());
    };
    removal::remove_seat(session, seat, out)
}

// Bind and RequestDevice: "on a known seat with a bit above bit 6, or a bit not in the seat's set" is 3.
pub fn queue_for_seat(
    session: &mut LentSession<'_, '_, '_>,
    seat: u64,
    capabilities: u64,
    request: EisRequest,
) -> Result<Answer, Error>
    ensures step { (call : Call Input) (clock : ℕ) → Planned request call clock (λ v u. handle_seat v seat capabilities u) → SilentRows session call clock result }
    ensures loan { SameLoan session.old session.new }
{
    let control = &mut *session.control;
    let Some(k) = control::find_seat(control, seat) else {
        return Ok(Answer::accepted());
    };
    if DeviceCapability::has_unknown(capabilities) {
        return Err(Error::InvalidCapabilities);
    }
    if !DeviceCapability::contains(control::seat_capabilities(control, k), capabilities) {
        return Err(Error::InvalidCapabilities);
    }
    queue_untimed(session, request)
}

// "If the device has pending requests, a Frame with time `now` and the session's last serial goes first .. ; then the request."
pub fn queue_for_device(
    session: &mut LentSession<'_, '_, '_>,
    device: u64,
    clock: u64,
    request: EisRequest,
) -> Result<Answer, Error>
    ensures step { (call : Call Input) → Planned request call clock (λ v u. handle_device v clock device u) → SilentRows session call clock result }
    ensures loan { SameLoan session.old session.new }
{
    let control = &mut *session.control;
    let Some(k) = control::find_device(control, device) else {
        return Ok(Answer::accepted());
    };
    if !queue::has_room(control, queue::frame_entries(control, k) + 1) {
        return Err(Error::FullQueue);
    }
    let serial = control::last_serial(control);
    queue::frame(session, k, serial, clock);
    queue::push(session, request);
    Ok(Answer::accepted())
}

// A client's Frame. It comes most often, so that a caller has it in place: its answer is then not written to memory and read again.
#[inline]
pub fn queue_frame(
    session: &mut LentSession<'_, '_, '_>,
    device: u64,
    serial: u32,
    time: u64,
) -> Result<Answer, Error>
    ensures step { (clock : ℕ) → SilentRows session (Call.plain (Plain.device_frame device serial time)) clock result }
    ensures loan { SameLoan session.old session.new }
{
    let control = &mut *session.control;
    let Some(k) = control::find_device(control, device) else {
        return Ok(Answer::accepted());
    };
    if !queue::frame_fits(control, k) {
        return Err(Error::FullQueue);
    }
    queue::frame(session, k, serial, time);
    Ok(Answer::accepted())
}

// "A released interface now leaves its device's list."
pub fn release_interface(
    control: &mut [u64],
    capability: DeviceCapability,
    interface: u64,
    out: &mut [u8],
) -> Result<Answer, Error>
    requires { Sound control.old }
    ensures { (clock : ℕ) → HandlesControl control out (Call.plain (Plain.interface_release capability interface)) clock result }
{
    let bit = DeviceCapability::lowest(DeviceCapability::mask(capability));
    let Some(k) = control::find_interface(control, bit, interface) else {
        return Ok(Answer::accepted());
    };
    if out.len() < events::DESTROYED_LENGTH {
        return Err(Error::ShortOut);
    }
    let serial = control::last_serial(control);
    let mark = events::destroy(out, Mark { at: 0, serial }, interface);
    session::unlist(control, k, bit);
    session::raise(control, mark.serial);
    Ok(Answer::sent(mark.at))
}
