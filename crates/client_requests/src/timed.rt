// The timed requests. What becomes of one is decided without its payload; then it waits in its device's pending list.
ghost use Rattle.std.specs.Prelude.{◌≡◌, true, false, map, ℕ, ◌<◌, ◌≤◌, ◌⊎◌};
ghost use Rattle.eiproto.specs.Capability.{capability_index};
ghost use Rattle.utf8.specs.Rfc3629.{is_utf8};
ghost use Rattle.model.specs.Call.{Kind, Input, touching, Call};
ghost use Rattle.model.specs.Edit.{Edit};
ghost use Rattle.model.specs.Decide.{lists_as};
ghost use Rattle.control.specs.Table.{first};
ghost use Rattle.control.specs.Control.{device_count, core_at, cores_of};
ghost use Rattle.control.specs.Sound.{Sound};
ghost use Rattle.eiproto.specs.Told.{told};
ghost use Rattle.session.specs.View.{Whole};
ghost use Rattle.session.specs.Loan.{SameLoan, store_of};
ghost use Rattle.session.specs.Enact.{EnactsControl};
ghost use Rattle.texts.specs.Texts.{text_length_limit};
ghost use Rattle.answers.specs.Promise.{Silent, SilentRows};
ghost use Rattle.client_requests.specs.Decision.{amends_of, goes_down, CanChange, queue_on, Fits, Decided, OnlyQueued, OnlyHeld, Waits, CarriesOut};

use answers::{Answer, Error};
use control::PENDING_LIMIT;
use eiproto::event::DeviceCapability;
use requests::cell::Cell;
use requests::row::TEXTS_LIMIT;
use session::LentSession;
use texts::TEXT_LENGTH_LIMIT;
use touches::EIS_MAX_TOUCHES;

// What a request changes of the held touches of its device.
#[derive(Clone, Copy, Debug, PartialEq, Eq)]
pub enum TouchChange {
    Nothing,
    Down(u32),
    Up(u32),
}

// A timed request that waits for its frame, on the device in the slot, whose held touches change before. It has no device and no time yet: they
// come with its frame. What is decided on a request is a refusal, or one that waits, or none: it is on no known interface, or for a touch that is
// not down, and is ignored.
#[derive(Clone, Copy, Debug, PartialEq)]
pub struct Queued {
    pub slot: usize,
    pub change: TouchChange,
    pub request: Cell,
}

// Where nothing else is asked: 16 where the pending list is full.
fn queue_on(
    control: &[u64],
    k: usize,
    change: TouchChange,
    request: Cell,
) -> Result<Option<Queued>, Error>
    requires { Sound control.now × (k < device_count control.now) }
    ensures { result ≡ queue_on control.now k change request }
{
    if PENDING_LIMIT <= control::pending_count(control, k) {
        return Err(Error::FullPending);
    }
    Ok(Some(Queued {
        slot: k,
        change,
        request,
    }))
}

// The slot of the device of which a request's interface is, for the capability.
pub fn device_for_interface(
    control: &[u64],
    capability: DeviceCapability,
    interface: u64,
) -> Option<usize>
    requires { Sound control.now }
    ensures { told result ≡ first (λ d. lists_as (capability_index capability) interface d.interfaces) (cores_of control.now) }
{
    control::find_interface(
        control,
        DeviceCapability::lowest(DeviceCapability::mask(capability)),
        interface,
    )
}

// "TOO_MANY_TOUCHES: Down while 16 ids are held, even for a held id. DUPLICATED_TOUCH_DOWN: Down for a held id, fewer than 16 held."
pub fn decide_down(
    control: &[u64],
    touchscreen: u64,
    touch: u32,
    request: Cell,
) -> Result<Option<Queued>, Error>
    requires { Sound control.now }
    ensures { (version : ℕ) → Decided control.now touchscreen version (touching Kind.TouchDown touch) request result }
{
    let Some(k) = device_for_interface(control, DeviceCapability::Touch, touchscreen) else {
        return Ok(None);
    };
    if EIS_MAX_TOUCHES <= control::touch_count(control, k) {
        return Err(Error::TooManyTouches);
    }
    if control::is_down(control, k, touch) {
        return Err(Error::DuplicatedTouchDown);
    }
    queue_on(control, k, TouchChange::Down(touch), request)
}

// "Touch Motion, Up and Cancel for an id not held: accepted, nothing."
pub fn decide_held(
    control: &[u64],
    touchscreen: u64,
    touch: u32,
    change: TouchChange,
    request: Cell,
) -> Result<Option<Queued>, Error>
    requires { Sound control.now × (goes_down change ≡ false) }
    ensures { (kind : Kind) (version : ℕ) → OnlyHeld kind version touch change → Decided control.now touchscreen version (touching kind touch) request result }
{
    let Some(k) = device_for_interface(control, DeviceCapability::Touch, touchscreen) else {
        return Ok(None);
    };
    if !control::is_down(control, k, touch) {
        return Ok(None);
    }
    queue_on(control, k, change, request)
}

// "touch Cancel on a known touchscreen, the request's version below 2, even for an id not held"
pub fn decide_cancel(
    control: &[u64],
    touchscreen: u64,
    version: u32,
    touch: u32,
    request: Cell,
) -> Result<Option<Queued>, Error>
    requires { Sound control.now }
    ensures { Decided control.now touchscreen version (touching Kind.TouchCancel touch) request result }
{
    if version < 2 {
        return match device_for_interface(control, DeviceCapability::Touch, touchscreen) {
            Some(_) => Err(Error::InvalidInterfaceVersion {
                interface: DeviceCapability::TOUCH_INTERFACE,
                version,
            }),
            None => Ok(None),
        };
    }
    decide_held(control, touchscreen, touch, TouchChange::Up(touch), request)
}

fn change_touches(control: &mut [u64], k: usize, change: TouchChange)
    requires { Sound control.old × ((k < device_count control.old) × CanChange change (core_at control.old k).down_touch_ids) }
    ensures { EnactsControl control (map (λ a. Edit.amend k a) (amends_of change)) }
{
    match change {
        TouchChange::Nothing => {}
        TouchChange::Down(touch) => session::touch_down(control, k, touch),
        TouchChange::Up(touch) => session::touch_up(control, k, touch),
    }
}

// What was decided on a request, carried out.
pub fn queue_request(
    session: &mut LentSession<'_, '_, '_>,
    decision: Result<Option<Queued>, Error>,
) -> Result<Answer, Error>
    requires { Fits session.old.control.now decision }
    ensures step { CarriesOut session decision result }
    ensures loan { SameLoan session.old session.new }
{
    let Some(queued) = decision? else {
        return Ok(Answer::accepted());
    };
    change_touches(session.control, queued.slot, queued.change);
    queue::pend(session, queued.slot, queued.request);
    Ok(Answer::accepted())
}

// A request of which nothing is asked but a known interface.
pub fn queue_for_interface(
    session: &mut LentSession<'_, '_, '_>,
    capability: DeviceCapability,
    interface: u64,
    request: Cell,
) -> Result<Answer, Error>
    ensures step { (version clock : ℕ) (i : Input) → OnlyQueued capability i → Waits i request → SilentRows session (Call.timed interface version i) clock result }
    ensures loan { SameLoan session.old session.new }
{
    let control = &mut *session.control;
    let Some(k) = device_for_interface(control, capability, interface) else {
        return Ok(Answer::accepted());
    };
    if PENDING_LIMIT <= control::pending_count(control, k) {
        return Err(Error::FullPending);
    }
    queue::pend(session, k, request);
    Ok(Answer::accepted())
}

// Whether a text may have so many bytes.
fn is_text_length(n: usize) -> bool
    ensures { (result ≡ true → (0 < n) × (n ≤ text_length_limit)) × (result ≡ false → (n ≡ 0) ⊎ (text_length_limit < n)) }
{
    0 < n && n <= TEXT_LENGTH_LIMIT
}

// Utf8, whose text is UTF-8: "0 bytes or above 254" is 6, then the pending list and the texts must have room.
pub fn queue_utf8(
    session: &mut LentSession<'_, '_, '_>,
    texts: &mut [u8],
    interface: u64,
    text: &[u8],
) -> Result<Answer, Error>
    requires { Whole (store_of session.old texts.old) × (is_utf8 text.now ≡ true) }
    ensures step { (version clock : ℕ) → Silent session texts (Call.timed interface version (Input.Utf8 text.now)) clock result }
    ensures loan { SameLoan session.old session.new }
{
    let control = &mut *session.control;
    let Some(k) = device_for_interface(control, DeviceCapability::Text, interface) else {
        return Ok(Answer::accepted());
    };
    if !is_text_length(text.len()) {
        return Err(Error::InvalidTextLength);
    }
    if PENDING_LIMIT <= control::pending_count(control, k) {
        return Err(Error::FullPending);
    }
    let live = texts::live_texts(session);
    if TEXTS_LIMIT <= live.count {
        return Err(Error::FullTexts);
    }
    let slot = texts::free_slot(live.used);
    texts::pend_text(session, texts, k, slot, text);
    Ok(Answer::accepted())
}
