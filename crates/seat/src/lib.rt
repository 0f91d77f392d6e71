// The methods of `Seat` of src/request.rs.
// The slices are lent one by one, as C and a station have them, of any length: 21 is the answer where they hold no session.
#![tactic(auto)]

ghost use Rattle.std.specs.Prelude.{◌≡◌, ℕ, ◌<◌, length};
ghost use Rattle.model.specs.Call.{Plain, Call};
ghost use Rattle.session.specs.Slices.{given};
ghost use Rattle.answers.specs.Promise.{Promise, PromiseRows, HandlesControl};
ghost use Rattle.control.specs.Control.{seats_limit, control_length};
ghost use Rattle.seat.specs.Seat.{made_with, Tested};

use answers::{Answer, Error, Outcome};
use eiproto::eiproto_enum::DeviceType;
use eiproto::event::DeviceCapability;
use events::NewObject;
use session::LentSession;
use wire::backend;

// The capabilities that a device on the seat in slot k is made with: "Capabilities that were not advertised on the seat will be ignored.", and "a
// device gets no interface for one not negotiated", whatever the seat's set says.
fn made_with(control: &[u64], k: usize, capabilities: u64) -> u64
    requires { (length control.now ≡ control_length) × (k < seats_limit) }
    ensures { result ≡ made_with control.now k capabilities }
{
    let both = DeviceCapability::common(capabilities, control::seat_capabilities(control, k));
    DeviceCapability::common(both, control::negotiated_capabilities(control))
}

// On the seat in slot k, behind the tests of the call: 15, then 20, then 19.
fn add_device_at(
    control: &mut [u64],
    k: usize,
    seat: u64,
    name: Option<&[u8]>,
    kind: DeviceType,
    capabilities: u64,
    out: &mut [u8],
) -> Result<Answer, Error>
    requires { Tested control.old k seat (given name) capabilities }
    ensures { (clock : ℕ) → HandlesControl control out (Call.plain (Plain.add_device seat (given name.entry) kind capabilities)) clock result }
{
    if control::DEVICES_LIMIT <= control::device_count(control) {
        return Err(Error::FullDevices);
    }
    let made = made_with(control, k, capabilities);
    let id = control::next_id(control);
    let more = 1 + DeviceCapability::count(made) as u64;
    let Some(_) = backend::new_objects(id, more) else {
        return Err(Error::IdsSpent);
    };
    let version = control::device_version(control);
    let new = NewObject {
        id,
        version,
        name,
        capabilities: made,
    };
    if out.len() < events::device_length(new) {
        return Err(Error::ShortOut);
    }
    let number = kind.number();
    let count = events::announce_device(control, seat, new, number, out);
    session::add_device(control, seat, made);
    Ok(Answer {
        outcome: Outcome::Device(id),
        count,
    })
}

// `Seat::add_device`, with an empty `before_done_cb`.
pub fn add_device(
    control: &mut [u64],
    seat: u64,
    name: Option<&[u8]>,
    kind: DeviceType,
    capabilities: u64,
    out: &mut [u8],
) -> Result<Answer, Error>
    ensures { Promise control out (Plain.add_device seat (given name.entry) kind capabilities) result }
{
    answers::check_sound(control)?;
    answers::check_optional(name)?;
    if DeviceCapability::has_unknown(capabilities) {
        return Err(Error::BadCapabilities);
    }
    let Some(k) = control::find_seat(control, seat) else {
        return Err(Error::UnknownHandle);
    };
    add_device_at(control, k, seat, name, kind, capabilities, out)
}

// `Seat::remove`: its devices in the order of the table, then itself.
pub fn remove_seat(
    control: &mut [u64],
    words: &mut [u64],
    reals: &mut [f32],
    seat: u64,
    out: &mut [u8],
) -> Result<Answer, Error>
    ensures { PromiseRows control words reals out (Plain.remove_seat seat) result }
{
    answers::check_lent(control, words, reals)?;
    let Some(_) = control::find_seat(control, seat) else {
        return Err(Error::UnknownHandle);
    };
    let mut session = LentSession {
        control,
        words,
        reals,
    };
    removal::remove_seat(&mut session, seat, out)
}
