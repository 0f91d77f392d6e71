// The edits of a session that change its control words alone, in place. What the four lent slices of a session mean is in specs/View.
#![tactic(auto, unfolding(crate::specs::View::is_lent, crate::specs::View::is_whole))]

ghost use Rattle.std.specs.Prelude.{◌≡◌, false, [], ◌∷◌, ℕ, ◌+◌, ◌≤◌, ◌<◌, length};
ghost use Rattle.eiproto.specs.Bits.{bits_of};
ghost use Rattle.touches.specs.Touches.{touches_limit, member};
ghost use Rattle.model.specs.Edit.{Amend, Edit, raised};
ghost use Rattle.control.specs.Control.{seats_limit, devices_limit, seat_count, device_count, connection_of, touches_at};
ghost use Rattle.control.specs.Sound.{Sound};
ghost use Rattle.session.specs.View.{last_id, is_lent, is_whole, Lent};
ghost use Rattle.session.specs.View.{store};
ghost use Rattle.session.specs.Enact.{EnactsControl};

use control::{DEVICES_LIMIT, PENDING_LIMIT, QUEUE_LIMIT};
use eiproto::event::DeviceCapability;
use requests::row::{ROW_REALS, ROW_WORDS, TEXTS_LIMIT};

// The rows of requests: as many for each device as may be pending on it, and behind them the queue's ring.
pub const QUEUE_START: usize = PENDING_LIMIT * DEVICES_LIMIT;

pub const ROW_COUNT: usize = QUEUE_START + QUEUE_LIMIT;

pub const WORDS_LENGTH: usize = ROW_WORDS * ROW_COUNT;

pub const REALS_LENGTH: usize = ROW_REALS * ROW_COUNT;

// A slot for each text.
pub const SLOT_LENGTH: usize = 256;

pub const TEXTS_LENGTH: usize = SLOT_LENGTH * TEXTS_LIMIT;

// The control words and the rows of requests that a call is lent, behind refusal 21's test: that they hold a session is said here alone. The texts
// are lent beside it. The calls themselves, which C and a station make, are lent slices of any length and content: 21 is the answer to those that
// hold no session. Behind that they write one as a literal: what a constructor made of them would be known by equations, and out of a `Result` not
// at all.
#[derive(Drop)]
pub struct LentSession<'c, 'w, 'r> {
    pub control: &'c mut [u64],
    pub words: &'w mut [u64],
    pub reals: &'r mut [f32],
    ghost lent: { Lent control.now words.now reals.now },
}

impl LentSession<'_, '_, '_> {
    // How many seats stand, and how many devices.
    pub fn seat_count(&self) -> usize
        ensures { result ≡ seat_count self.now.control.now }
    {
        let control = &*self.control;
        control::seat_count(control)
    }

    pub fn device_count(&self) -> usize
        ensures { result ≡ device_count self.now.control.now }
    {
        let control = &*self.control;
        control::device_count(control)
    }
}

// Refusal 21's test, of a call that is lent the control words and the rows of requests. Its time does not grow with what is queued.
pub fn lent(control: &[u64], words: &[u64], reals: &[f32]) -> bool
    ensures { result ≡ is_lent control.now words.now reals.now }
{
    control::sound(control) && words.len() == WORDS_LENGTH && reals.len() == REALS_LENGTH
}

// The same, of a call that is lent all four slices.
pub fn whole(control: &[u64], words: &[u64], reals: &[f32], texts: &[u8]) -> bool
    ensures { result ≡ is_whole (store control.now words.now reals.now texts.now) }
{
    lent(control, words, reals) && texts.len() == TEXTS_LENGTH
}

// The last serial, after events that took the serials up to this one.
pub fn raise(control: &mut [u64], serial: u32)
    requires { Sound control.old }
    ensures { (n : ℕ) → serial ≡ raised n (connection_of control.old).last_serial → EnactsControl control (Edit.raise n ∷ []) }
{
    control::edits::set_last_serial(control, serial);
}

// The same after the last events of a connection, whose own object is destroyed by them.
pub fn end_connection(control: &mut [u64], serial: u32)
    requires { Sound control.old }
    ensures { (n : ℕ) → serial ≡ raised n (connection_of control.old).last_serial → EnactsControl control (Edit.raise n ∷ Edit.end_connection ∷ []) }
{
    control::edits::set_last_serial(control, serial);
    control::edits::end_connection(control);
}

// An object that the client made, with this id.
pub fn new_peer_object(control: &mut [u64], id: u64)
    requires { Sound control.old }
    ensures { EnactsControl control (Edit.peer_object id ∷ []) }
{
    control::edits::set_last_peer_id(control, id);
}

// A seat more, with the next id.
pub fn add_seat(control: &mut [u64], capabilities: u64)
    requires { Sound control.old × ((seat_count control.old < seats_limit) × ((capabilities < 128) × ((connection_of control.old).next_id + 1 ≤ last_id))) }
    ensures { EnactsControl control (Edit.add_seat capabilities ∷ []) }
{
    let id = control::next_id(control);
    control::edits::append_seat(control, id, capabilities);
    control::edits::set_next_id(control, id + 1);
}

// The first seat with the id taken out, if there is one.
pub fn remove_seat(control: &mut [u64], id: u64)
    requires { Sound control.old }
    ensures { EnactsControl control (Edit.remove_seat id ∷ []) }
{
    if let Some(k) = control::find_seat(control, id) {
        control::edits::remove_seat_row(control, k);
    }
}

// A device more, with the next id, and an interface for each capability with the ids behind it.
pub fn add_device(control: &mut [u64], seat: u64, capabilities: u64)
    requires { Sound control.old × ((device_count control.old < devices_limit) × ((capabilities < 128) × ((connection_of control.old).next_id + 1 + length (bits_of capabilities) ≤ last_id))) }
    ensures { EnactsControl control (Edit.add_device seat capabilities ∷ []) }
{
    let id = control::next_id(control);
    let interfaces = u64::from(DeviceCapability::count(capabilities));
    control::edits::append_device(control, id, seat, capabilities);
    control::edits::set_next_id(control, id + 1 + interfaces);
}

// A touch more that is down on the device in slot k.
pub fn touch_down(control: &mut [u64], k: usize, touch: u32)
    requires { Sound control.old × ((k < device_count control.old) × ((length (touches_at control.old k) < touches_limit) × (member touch (touches_at control.old k) ≡ false))) }
    ensures { EnactsControl control (Edit.amend k (Amend.touch_down touch) ∷ []) }
{
    let mut held = control::edits::down_touch_ids(control, k);
    // There is room for it, and it is not held: this is no refusal.
    let _ = held.insert(touch);
    control::edits::set_down_touch_ids(control, k, held);
}

// A touch that is no longer down.
pub fn touch_up(control: &mut [u64], k: usize, touch: u32)
    requires { Sound control.old × (k < device_count control.old) }
    ensures { EnactsControl control (Edit.amend k (Amend.touch_up touch) ∷ []) }
{
    let mut held = control::edits::down_touch_ids(control, k);
    held.remove(touch);
    control::edits::set_down_touch_ids(control, k, held);
}

pub fn clear_touches(control: &mut [u64], k: usize)
    requires { Sound control.old × (k < device_count control.old) }
    ensures { EnactsControl control (Edit.amend k Amend.clear_touches ∷ []) }
{
    let mut held = control::edits::down_touch_ids(control, k);
    held.clear();
    control::edits::set_down_touch_ids(control, k, held);
}

// The interface of a capability's bit, which the device in slot k no longer lists.
pub fn unlist(control: &mut [u64], k: usize, bit: u32)
    requires { Sound control.old × (k < device_count control.old) }
    ensures { EnactsControl control (Edit.amend k (Amend.unlist bit) ∷ []) }
{
    control::edits::unlist(control, k, bit);
}
