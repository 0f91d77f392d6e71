// The methods of `Connection` of src/request.rs. Seats and devices are named by their ids.
// The slices are lent one by one, as C and a station have them, of any length: 21 is the answer where they hold no session.
#![tactic(auto)]

ghost use Rattle.std.specs.Prelude.{◌≡◌, ℕ, length, Ok};
ghost use Rattle.eiproto.specs.Interface.{lookup};
ghost use Rattle.model.specs.Call.{Plain, Call};
ghost use Rattle.model.specs.Decide.{negotiated};
ghost use Rattle.eiproto.specs.Told.{told};
ghost use Rattle.control.specs.Control.{control_length, connection_of};
ghost use Rattle.session.specs.Loan.{SameLoan};
ghost use Rattle.session.specs.Slices.{given};
ghost use Rattle.answers.specs.Check.{Checks};
ghost use Rattle.answers.specs.Promise.{Promise, Reply, PromiseRows, HandlesControl, HandlesRows};
ghost use Rattle.connection.specs.Seat.{Tested};

use answers::{Answer, Error, Outcome};
use eiproto::eiproto_eis;
use eiproto::eiproto_enum::DisconnectReason;
use eiproto::event::DeviceCapability;
use events::{Mark, NewObject};
use session::LentSession;
use wire::event::Event;
use wire::{backend, event};

// Behind the tests of the call: 14, then 20, then 19. "A seat's set is cut down to the negotiated capabilities".
fn add_seat_at(
    control: &mut [u64],
    name: Option<&[u8]>,
    capabilities: u64,
    out: &mut [u8],
) -> Result<Answer, Error>
    requires { Tested control.old (given name) capabilities }
    ensures { (clock : ℕ) → HandlesControl control out (Call.plain (Plain.add_seat (given name.entry) capabilities)) clock result }
{
    if control::SEATS_LIMIT <= control::seat_count(control) {
        return Err(Error::FullSeats);
    }
    let id = control::next_id(control);
    let Some(_) = backend::new_objects(id, 1) else {
        return Err(Error::IdsSpent);
    };
    let version = control::seat_version(control);
    let negotiated = control::negotiated_capabilities(control);
    let set = DeviceCapability::common(capabilities, negotiated);
    let new = NewObject {
        id,
        version,
        name,
        capabilities: set,
    };
    if out.len() < events::seat_length(new) {
        return Err(Error::ShortOut);
    }
    let count = events::announce_seat(control, new, out);
    session::add_seat(control, set);
    Ok(Answer {
        outcome: Outcome::Seat(id),
        count,
    })
}

// `Connection::add_seat`. The name counts where it is given.
pub fn add_seat(
    control: &mut [u64],
    name: Option<&[u8]>,
    capabilities: u64,
    out: &mut [u8],
) -> Result<Answer, Error>
    ensures { Promise control out (Plain.add_seat (given name.entry) capabilities) result }
{
    answers::check_sound(control)?;
    answers::check_optional(name)?;
    if DeviceCapability::has_unknown(capabilities) {
        return Err(Error::BadCapabilities);
    }
    add_seat_at(control, name, capabilities, out)
}

// With an explanation that is fine, or none: only 19 is left.
fn disconnected_at(
    session: &mut LentSession<'_, '_, '_>,
    reason: DisconnectReason,
    explanation: Option<&[u8]>,
    out: &mut [u8],
) -> Result<Answer, Error>
    requires { Checks (given explanation) (Ok tt) }
    ensures step { (clock : ℕ) → HandlesRows session out (Call.plain (Plain.disconnected reason (given explanation.entry))) clock result }
    ensures loan { SameLoan session.old session.new }
{
    let control = &mut *session.control;
    let number = reason.number();
    let explained = explanation.is_some();
    let text = explanation.unwrap_or(b"");
    let gone = events::DESTROYED_LENGTH * events::seats_objects(control);
    let mark = Mark {
        at: 0,
        serial: control::last_serial(control),
    };
    let sample = Event::Disconnected {
        serial: 0,
        reason: number,
        explained,
    };
    if out.len() < gone + event::record_length(sample, text) {
        return Err(Error::ShortOut);
    }
    let connection = control::connection_id(control);
    let last = events::destroy_seats(control, out, mark);
    let told = Event::Disconnected {
        serial: last.serial,
        reason: number,
        explained,
    };
    let count = events::send(out, last.at, connection, told, text);
    session::end_connection(control, last.serial);
    removal::remove_seats(session);
    Ok(Answer::sent(count))
}

// `Connection::disconnected`: every seat goes, then the event, with the last of their serials.
pub fn disconnected(
    control: &mut [u64],
    words: &mut [u64],
    reals: &mut [f32],
    reason: DisconnectReason,
    explanation: Option<&[u8]>,
    out: &mut [u8],
) -> Result<Answer, Error>
    ensures { PromiseRows control words reals out (Plain.disconnected reason (given explanation.entry)) result }
{
    answers::check_lent(control, words, reals)?;
    answers::check_optional(explanation)?;
    let mut session = LentSession {
        control,
        words,
        reals,
    };
    disconnected_at(&mut session, reason, explanation, out)
}

// `Connection::last_serial`.
pub fn last_serial(control: &[u64]) -> Result<Answer, Error>
    ensures { Reply control Plain.last_serial result }
{
    answers::check_sound(control)?;
    Ok(Answer::told(Outcome::Value(control::last_serial(control))))
}

// The version of the interface with this name, where it was negotiated.
fn negotiated(control: &[u64], name: &[u8]) -> Option<u32>
    requires { length control.now ≡ control_length }
    ensures { told result ≡ negotiated (connection_of control.now) (lookup name.now) }
{
    let number = eiproto_eis::find(name)?;
    control::version(control, number)
}

// `Connection::has_interface`. A name of any length is looked up.
pub fn has_interface(control: &[u64], name: &[u8]) -> Result<Answer, Error>
    ensures { Reply control (Plain.has_interface name.now) result }
{
    answers::check_sound(control)?;
    if !utf8::valid(name) {
        return Err(Error::BadUtf8);
    }
    let known = negotiated(control, name).is_some();
    Ok(Answer::told(Outcome::Truth(known)))
}

// `Connection::interface_version`.
pub fn interface_version(control: &[u64], name: &[u8]) -> Result<Answer, Error>
    ensures { Reply control (Plain.interface_version name.now) result }
{
    answers::check_sound(control)?;
    if !utf8::valid(name) {
        return Err(Error::BadUtf8);
    }
    match negotiated(control, name) {
        Some(v) => Ok(Answer::told(Outcome::Value(v))),
        None => Ok(Answer::told(Outcome::None)),
    }
}
