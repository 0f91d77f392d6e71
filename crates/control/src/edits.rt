// The control words of a session, changed where they are. Each change says what it makes of the connection, the devices and the queue
// (specs/Change), and that the words are sound again.
ghost use Rattle.std.specs.Prelude.{◌≡◌, ◌+◌, ◌-◌, ◌*◌, ◌%◌, ◌<◌, ◌≤◌, [], ◌∷◌, ◌++◌, length, slice_set};
ghost use Rattle.std.proofs.Math.Option.{some};
ghost use Rattle.control.specs.Control.{seats_limit, devices_limit, pending_limit, queue_limit, control_length, seat_count, device_count, core_at};
ghost use Rattle.model.specs.Edit.{interfaces_without};
ghost use Rattle.control.specs.Sound.{Sound};
ghost use Rattle.control.specs.Table.{cut_at};
ghost use Rattle.touches.specs.Touches.{touches_limit, held};
ghost use Rattle.touches.specs.Changes.{Holds};
ghost use Rattle.control.specs.Shift.{value_at, Shifted};
ghost use Rattle.control.specs.Change.{Reconnects, Amends, Appended, Removed, Requeued, Fresh};
ghost use Rattle.control.specs.Change.{new_core, with_pending, with_touches, with_interfaces, with_seats, with_serial, with_next_id, with_versions, with_peer, ended};

use crate::{CONTROL_LENGTH, layout};
use touches::{DownTouchIds, EIS_MAX_TOUCHES};

pub fn set_last_serial(control: &mut [u64], serial: u32)
    requires { Sound control.old }
    ensures { Reconnects control.old control.new (with_serial serial) }
{
    control[layout::LAST_SERIAL] = u64::from(serial);
}

pub fn set_next_id(control: &mut [u64], id: u64)
    requires { Sound control.old }
    ensures { Reconnects control.old control.new (with_next_id id) }
{
    control[layout::NEXT_ID] = id;
}

// An object that the client made: its id is the last that it gave.
pub fn set_last_peer_id(control: &mut [u64], id: u64)
    requires { Sound control.old }
    ensures { Reconnects control.old control.new (with_peer id) }
{
    control[layout::LAST_PEER_ID] = id;
}

// The connection's own object is destroyed.
pub fn end_connection(control: &mut [u64])
    requires { Sound control.old }
    ensures { Reconnects control.old control.new ended }
{
    control[layout::GONE] = 1;
}

pub fn set_queue(control: &mut [u64], head: usize, queued: usize)
    requires { Sound control.old × ((head < queue_limit) × (queued ≤ queue_limit)) }
    ensures { Requeued control.old control.new head queued }
{
    control[layout::QUEUE_HEAD] = head as u64;
    control[layout::QUEUE_LENGTH] = queued as u64;
}

// A seat more, with the capabilities that are known.
pub fn append_seat(control: &mut [u64], id: u64, capabilities: u64)
    requires { Sound control.old × (seat_count control.old < seats_limit) }
    ensures { Reconnects control.old control.new (λ n. with_seats (n.seats ++ (record { id = id; capabilities = capabilities % 128 } ∷ [])) n) }
{
    let n = control[layout::SEAT_COUNT];
    let at = layout::SEATS + layout::SEAT_WORDS * (n as usize);
    control[at] = id;
    control[at + layout::SEAT_CAPABILITIES] = capabilities;
    control[layout::SEAT_COUNT] = n + 1;
}

// A device more, with an interface for each of the capabilities that are known.
pub fn append_device(control: &mut [u64], id: u64, seat: u64, capabilities: u64)
    requires { Sound control.old × (device_count control.old < devices_limit) }
    ensures { Appended control.old control.new (new_core id seat (capabilities % 128)) }
{
    let n = control[layout::DEVICE_COUNT];
    let at = layout::DEVICES + layout::DEVICE_WORDS * (n as usize);
    let mask = capabilities % 128;
    control[at] = id;
    control[at + layout::SEAT] = seat;
    control[at + layout::CAPABILITIES] = mask;
    control[at + layout::LISTED] = mask;
    control[at + layout::PENDING] = 0;
    control[at + layout::HELD] = 0;
    control[layout::DEVICE_COUNT] = n + 1;
}

// n values from `from` on, moved down to `to`.
pub fn shift<T: Copy>(a: &mut [T], to: usize, from: usize, n: usize)
    requires { (to ≤ from) × (from + n ≤ length a.old) }
    ensures { (d : T) → Shifted (value_at d a.old) (value_at d a.new) to from n }
{
    // A loop: `copy_within` takes six instructions more.
    for i in 0..n {
        a[to + i] = a[from + i];
    }
}

// Row k of the n rows of a table that begins at AT taken out; those behind it move down. For each table a function hands it the constants.
fn cut_row<const AT: usize, const WIDTH: usize>(control: &mut [u64], k: usize, n: usize)
    requires { (k < n) × (AT + WIDTH * n ≤ length control.old) }
    ensures { Shifted (value_at 0 control.old) (value_at 0 control.new) (AT + WIDTH * k) (AT + WIDTH * k + WIDTH) (WIDTH * (n - 1 - k)) }
{
    let at = AT + WIDTH * k;
    shift(control, at, at + WIDTH, WIDTH * (n - 1 - k));
}

// The seat in slot k taken out; those behind it move down.
pub fn remove_seat_row(control: &mut [u64], k: usize)
    requires { Sound control.old × (k < seat_count control.old) }
    ensures { Reconnects control.old control.new (λ n. with_seats (cut_at k n.seats) n) }
{
    let n = control[layout::SEAT_COUNT];
    cut_row::<{ layout::SEATS }, { layout::SEAT_WORDS }>(control, k, n as usize);
    control[layout::SEAT_COUNT] = n - 1;
}

// The device in slot k taken out; those behind it move down.
pub fn remove_device_row(control: &mut [u64], k: usize)
    requires { Sound control.old × (k < device_count control.old) }
    ensures { Removed control.old control.new k }
{
    let n = control[layout::DEVICE_COUNT];
    cut_row::<{ layout::DEVICES }, { layout::DEVICE_WORDS }>(control, k, n as usize);
    control[layout::DEVICE_COUNT] = n - 1;
}

pub fn set_pending(control: &mut [u64], k: usize, pending: usize)
    requires { Sound control.old × ((k < device_count control.old) × (pending ≤ pending_limit)) }
    ensures { Amends control.old control.new k (with_pending pending) }
{
    control[layout::DEVICES + layout::DEVICE_WORDS * k + layout::PENDING] = pending as u64;
}

// The interface of a bit, which the device in slot k no longer lists.
pub fn unlist(control: &mut [u64], k: usize, bit: u32)
    requires { Sound control.old × (k < device_count control.old) }
    ensures { Amends control.old control.new k (λ d. with_interfaces (interfaces_without bit d.interfaces) d) }
{
    let at = layout::DEVICES + layout::DEVICE_WORDS * k + layout::LISTED;
    let listed = control[at];
    if crate::has_bit(listed, bit) {
        control[at] = listed - (1 << bit);
    }
}

// The touches that are down on the device in slot k.
pub fn down_touch_ids(control: &[u64], k: usize) -> DownTouchIds
    requires { Sound control.now × (k < device_count control.now) }
    ensures { Holds (core_at control.now k).down_touch_ids result }
{
    let at = layout::DEVICES + layout::DEVICE_WORDS * k;
    let count = control[at + layout::HELD] as usize;
    let mut ids: [u32; EIS_MAX_TOUCHES] = [0; EIS_MAX_TOUCHES];
    for j in 0..count {
        ids[j] = (control[at + (layout::TOUCHES + j)] % 4294967296) as u32;
    }
    DownTouchIds { ids, count }
}

pub fn set_down_touch_ids(control: &mut [u64], k: usize, touches: DownTouchIds)
    requires { Sound control.old × ((k < device_count control.old) × (touches.count ≤ touches_limit)) }
    ensures { Amends control.old control.new k (with_touches (held touches)) }
{
    let at = layout::DEVICES + layout::DEVICE_WORDS * k;
    control[at + layout::HELD] = touches.count as u64;
    for j in 0..touches.count {
        control[at + (layout::TOUCHES + j)] = u64::from(touches.ids[j]);
    }
}

// The version of the interface at a place among the twelve.
pub fn set_version(control: &mut [u64], place: usize, version: u32)
    requires { Sound control.old × (place < 12) }
    ensures { Reconnects control.old control.new (λ n. with_versions (slice_set n.versions place (some version)) n) }
{
    control[layout::VERSIONS + place] = u64::from(version) + 1;
}

// The words of a session as a Finish that succeeds leaves it, with no version negotiated yet.
pub fn new(control: &mut [u64], connection: u64, serial: u32, next: u64)
    requires { length control.old ≡ control_length }
    ensures { Fresh control.new connection serial next }
{
    // A loop: `fill` takes five instructions more.
    for i in 0..CONTROL_LENGTH {
        control[i] = 0;
    }
    control[layout::CONNECTION_ID] = connection;
    control[layout::LAST_SERIAL] = u64::from(serial);
    control[layout::NEXT_ID] = next;
}
