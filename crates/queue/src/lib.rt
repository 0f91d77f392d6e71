// The pending lists of the devices and the queue, in place (`session::QUEUE_START` and specs/View of session have their rows).
#![tactic(auto)]

ghost use Rattle.std.specs.Prelude.{◌≡◌, [], ◌∷◌, ◌+◌, ◌≤◌, ◌<◌};
ghost use Rattle.requests.specs.Row.{cell_at, row_at, row_of};
ghost use Rattle.model.specs.Session.{Untimed, Queued};
ghost use Rattle.model.specs.Edit.{Edit};
ghost use Rattle.control.specs.Control.{pending_limit, queue_limit, device_count, queue_head, queue_length, core_at, pending_at};
ghost use Rattle.control.specs.Sound.{Sound};
ghost use Rattle.session.specs.View.{row_count, Lent, request_in, queue_row};
ghost use Rattle.session.specs.Enact.{EnactsControl};
ghost use Rattle.session.specs.Loan.{EnactsRows, SameLoan};
ghost use Rattle.queue.specs.Queue.{Pends, Copyable, Copied, SlotsStay, frame_entries, has_room};

use control::{PENDING_LIMIT, QUEUE_LIMIT};
use requests::cell::Cell;
use requests::request::EisRequest;
use requests::row::NO_SLOT;
use requests::{cell, row};
use session::{LentSession, QUEUE_START};

// The ring of the queued requests: the place of the oldest, and how many there are.
#[derive(Clone, Copy, Debug, PartialEq, Eq)]
struct Ring {
    head: usize,
    length: usize,
    ghost in_bounds: { (head < queue_limit) × (length ≤ queue_limit) },
}

impl Ring {
    fn of(control: &[u64]) -> Ring
        requires { Sound control.now }
        ensures { (result.head ≡ queue_head control.now) × (result.length ≡ queue_length control.now) }
    {
        Ring {
            head: control::queue_head(control),
            length: control::queue_length(control),
        }
    }

    // The row of entry j.
    fn row(self, j: usize) -> usize
        requires { j ≤ queue_limit }
        ensures { (result ≡ queue_row self.head j) × (result < row_count) }
    {
        QUEUE_START + (self.head + j) % QUEUE_LIMIT
    }
}

// Whether the queue has room for n entries more.
#[tactic(auto, unfolding(crate::specs::Queue::has_room))]
pub fn has_room(control: &[u64], n: usize) -> bool
    requires { Sound control.now × (n ≤ queue_limit) }
    ensures { result ≡ has_room control.now n }
{
    control::queue_length(control) + n <= QUEUE_LIMIT
}

// The entries that a frame of the device in slot k needs.
#[tactic(auto, using(crate::proofs::Room::entries))]
pub fn frame_entries(control: &[u64], k: usize) -> usize
    requires { Sound control.now × (k < device_count control.now) }
    ensures { (result ≡ frame_entries (core_at control.now k).pending) × (result ≤ pending_limit + 1) }
{
    let n = control::pending_count(control, k);
    if n == 0 { 0 } else { n + 1 }
}

// Whether the queue has room for a frame of the device in slot k.
#[tactic(auto, using(crate::proofs::Room::entries), unfolding(crate::specs::Queue::has_room))]
pub fn frame_fits(control: &[u64], k: usize) -> bool
    requires { Sound control.now × (k < device_count control.now) }
    ensures { result ≡ has_room control.now (frame_entries (core_at control.now k).pending) }
{
    let n = control::pending_count(control, k);
    n == 0 || has_room(control, n + 1)
}

// A request more in the pending list of the device in slot k.
#[tactic(auto, using(crate::proofs::Room::entries))]
pub fn pend(session: &mut LentSession<'_, '_, '_>, k: usize, request: Cell)
    requires { (k < device_count session.old.control.now) × (pending_at session.old.control.now k < pending_limit) }
    ensures step { Pends session k (row_of request) }
    ensures loan { SameLoan session.old session.new }
{
    let control = &mut *session.control;
    let n = control::pending_count(control, k);
    row::put_cell(session.words, session.reals, PENDING_LIMIT * k + n, request);
    control::edits::set_pending(control, k, n + 1);
}

// An untimed request more in the queue.
pub fn push(session: &mut LentSession<'_, '_, '_>, request: EisRequest)
    requires { queue_length session.old.control.now < queue_limit }
    ensures step { (r : Untimed) → request_in request [] ≡ Queued.untimed r → EnactsRows session (Edit.queue r ∷ []) }
    ensures loan { SameLoan session.old session.new }
{
    let control = &mut *session.control;
    let ring = Ring::of(control);
    row::put(
        session.words,
        session.reals,
        ring.row(ring.length),
        request,
        NO_SLOT,
    );
    control::edits::set_queue(control, ring.head, ring.length + 1);
}

// Copies n pending rows behind the queue, as the frame of their device queues them.
fn copy_pending(
    words: &mut [u64],
    reals: &mut [f32],
    k: usize,
    n: usize,
    ring: Ring,
    device: u64,
    time: u64,
)
    requires { Copyable words.old reals.old k n ring.head ring.length }
    ensures { Copied (row_at words.old reals.old) (row_at words.new reals.new) k n ring.head ring.length device time }
{
    for j in 0..n {
        row::copy_framed(
            words,
            reals,
            PENDING_LIMIT * k + j,
            ring.row(ring.length + j),
            device,
            time,
        );
    }
}

// "Every pending request, in arrival order, gets the frame's time and is queued, then the Frame itself", and nothing where nothing is pending.
#[tactic(auto, using(crate::proofs::Room::entries))]
pub fn frame(session: &mut LentSession<'_, '_, '_>, k: usize, serial: u32, time: u64)
    requires { (k < device_count session.old.control.now) × (queue_length session.old.control.now + frame_entries (pending_at session.old.control.now k) ≤ queue_limit) }
    ensures step { EnactsRows session (Edit.frame k serial time ∷ []) × SlotsStay session k }
    ensures loan { SameLoan session.old session.new }
{
    let control = &mut *session.control;
    let n = control::pending_count(control, k);
    if n == 0 {
        return;
    }
    let ring = Ring::of(control);
    let device = control::device_id(control, k);
    copy_pending(session.words, session.reals, k, n, ring, device, time);
    let frame = cell::frame(device, serial, time);
    row::put_cell(
        session.words,
        session.reals,
        ring.row(ring.length + n),
        frame,
    );
    control::edits::set_queue(control, ring.head, ring.length + n + 1);
    control::edits::set_pending(control, k, 0);
}

// The oldest queued request, as its row has it. The slices are lent to be read, as `next_request` has them: a lent session is made of `&mut`s alone.
pub fn oldest(control: &[u64], words: &[u64], reals: &[f32]) -> Cell
    requires { Lent control.now words.now reals.now × (0 < queue_length control.now) }
    ensures { result ≡ cell_at words.now reals.now (queue_row (queue_head control.now) 0) }
{
    row::read_cell(words, reals, Ring::of(control).row(0))
}

// The oldest queued request taken out.
pub fn pop(control: &mut [u64])
    requires { Sound control.old × (0 < queue_length control.old) }
    ensures { EnactsControl control (Edit.deliver ∷ []) }
{
    let ring = Ring::of(control);
    control::edits::set_queue(control, (ring.head + 1) % QUEUE_LIMIT, ring.length - 1);
}
