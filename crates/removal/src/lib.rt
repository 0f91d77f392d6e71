// Devices and seats that go: the client is told, and they are taken out of the session in place, where whole rows of control words and of pending
// requests move down.
#![tactic(auto)]

ghost use Rattle.std.specs.Prelude.{[], ◌∷◌, ℕ, ◌*◌, ◌≤◌, ◌<◌, length};
ghost use Rattle.model.specs.Call.{Plain, Call};
ghost use Rattle.model.specs.Edit.{Edit};
ghost use Rattle.model.specs.Decide.{objects_of, seat_objects, remove_seats};
ghost use Rattle.control.specs.Control.{device_count, connection_of, core_at};
ghost use Rattle.session.specs.Loan.{EnactsRows, SameLoan};
ghost use Rattle.events.specs.Events.{bare, bare_devices};
ghost use Rattle.answers.specs.Promise.{HandlesRows};
ghost use Rattle.removal.specs.Retire.{Retires, Retirement};

use answers::{Answer, Error};
use control::PENDING_LIMIT;
use events::Mark;
use requests::row::{ROW_REALS, ROW_WORDS};
use session::LentSession;

// The words and the reals of a device's pending rows.
const PENDING_WORDS: usize = ROW_WORDS * PENDING_LIMIT;

const PENDING_REALS: usize = ROW_REALS * PENDING_LIMIT;

// The device in slot k taken out with what it has pending; those behind it move down. What is queued stays.
fn remove_device(session: &mut LentSession<'_, '_, '_>, k: usize)
    requires { k < device_count session.old.control.now }
    ensures step { EnactsRows session (Edit.remove_device k ∷ []) }
    ensures loan { SameLoan session.old session.new }
{
    let control = &mut *session.control;
    let behind = control::device_count(control) - 1 - k;
    control::edits::shift(
        session.words,
        PENDING_WORDS * k,
        PENDING_WORDS * (k + 1),
        PENDING_WORDS * behind,
    );
    control::edits::shift(
        session.reals,
        PENDING_REALS * k,
        PENDING_REALS * (k + 1),
        PENDING_REALS * behind,
    );
    control::edits::remove_device_row(control, k);
}

// Every device of a seat taken out. The table shrinks on the way: a `for` over its slots would pass over a device that moved down.
fn remove_devices_of(session: &mut LentSession<'_, '_, '_>, seat: u64)
    ensures step { EnactsRows session (Edit.remove_devices_of seat ∷ []) }
    ensures loan { SameLoan session.old session.new }
{
    let mut k: usize = 0;
    while k < session.device_count() {
        let control = &mut *session.control;
        if control::device_seat(control, k) == seat {
            remove_device(session, k);
        } else {
            k += 1;
        }
    }
}

// Every seat taken out, each after its devices. The first is the next, as long as one stands.
pub fn remove_seats(session: &mut LentSession<'_, '_, '_>)
    ensures step { EnactsRows session (remove_seats (connection_of session.old.control.now).seats) }
    ensures loan { SameLoan session.old session.new }
{
    while 0 < session.seat_count() {
        let control = &mut *session.control;
        let seat = control::seat_id(control, 0);
        remove_devices_of(session, seat);
        session::remove_seat(session.control, seat);
    }
}

// ---- told and taken out, with room for what is told; how many bytes were written, at the start of `out`

// The device in slot k: its interfaces by capability bit, then itself.
pub fn retire_device(session: &mut LentSession<'_, '_, '_>, k: usize, out: &mut [u8]) -> usize
    requires { (k < device_count session.old.control.now) × (14 * length (objects_of (bare (core_at session.old.control.now k))) ≤ length out.old) }
    ensures step { Retires session out (objects_of (bare (core_at session.old.control.now k))) (Edit.remove_device k ∷ []) result }
    ensures loan { SameLoan session.old session.new }
{
    let control = &mut *session.control;
    let serial = control::last_serial(control);
    let told = events::destroy_device(control, k, out, Mark { at: 0, serial });
    session::raise(control, told.serial);
    remove_device(session, k);
    told.at
}

// A seat: its devices in the order of the table, then itself.
fn retire_seat(session: &mut LentSession<'_, '_, '_>, seat: u64, out: &mut [u8]) -> usize
    requires { 14 * length (seat_objects seat (bare_devices session.old.control.now)) ≤ length out.old }
    ensures step { Retires session out (seat_objects seat (bare_devices session.old.control.now)) (Edit.remove_devices_of seat ∷ Edit.remove_seat seat ∷ []) result }
    ensures loan { SameLoan session.old session.new }
{
    let control = &mut *session.control;
    let serial = control::last_serial(control);
    let last = events::destroy_seat(control, seat, out, Mark { at: 0, serial });
    session::raise(control, last.serial);
    remove_devices_of(session, seat);
    session::remove_seat(session.control, seat);
    last.at
}

// A seat that stands, with its devices: what the station's removal of it and a client's release of it come to. 19 comes first.
pub fn remove_seat(
    session: &mut LentSession<'_, '_, '_>,
    seat: u64,
    out: &mut [u8],
) -> Result<Answer, Error>
    ensures step { (call : Plain) (clock : ℕ) → Retirement call clock seat session.old.control.now → HandlesRows session out (Call.plain call) clock result }
    ensures loan { SameLoan session.old session.new }
{
    let control = &mut *session.control;
    if out.len() < events::DESTROYED_LENGTH * events::seat_objects(control, seat) {
        return Err(Error::ShortOut);
    }
    Ok(Answer::sent(retire_seat(session, seat, out)))
}
