// The control words of a session, read where they are (specs/Control says what each means). Each function but `sound` asks that they
// are sound, or only that there are `CONTROL_LENGTH`. Being sound is a clause here, and a ghost field of `session::LentSession` where the rows are lent
// too: as a view of their own the words could not be lent out of that one, since who lent it would then not know what its slices hold.
// That a slot is below a count is no type's: the count lies in words that change.
#![tactic(auto, unfolding(crate::specs::Control::connection_of, crate::specs::Control::seat_at, crate::specs::Control::core_at, crate::specs::Control::interface_id, crate::specs::Sound::row_sound, model::specs::Decide::stated, model::specs::Decide::seat_version, model::specs::Decide::device_version))]

pub mod edits;
mod layout;

ghost use Rattle.std.specs.Prelude.{◌≡◌, ℕ, ◌<◌, ◌≤◌, true, length, nat_eq, slice_index_or};
ghost use Rattle.std.proofs.Math.Option.{none};
ghost use Rattle.eiproto.specs.Bits.{bit};
ghost use Rattle.eiproto.specs.Capability.{interface_of_bit};
ghost use Rattle.touches.specs.Touches.{member};
ghost use Rattle.model.specs.Decide.{is_some, version, stated, seat_version, device_version, negotiated_capabilities, lists_as, lists};
ghost use Rattle.control.specs.Table.{first};
ghost use Rattle.control.specs.Control.{seats_limit, devices_limit, control_length, seat_count, device_count, queue_head, queue_length, capabilities_at, listed_at};
ghost use Rattle.control.specs.Control.{connection_of, seat_at, interface_id, core_at, touches_at, cores_of};
ghost use Rattle.control.specs.Sound.{row_sound, rows_sound, is_sound, Sound};
ghost use Rattle.eiproto.specs.Told.{told};

use eiproto::eiproto_eis;
use eiproto::event::DeviceCapability;
use touches::EIS_MAX_TOUCHES;

// The most seats and devices, pending requests of a device, and queued requests.
pub const SEATS_LIMIT: usize = 4;

pub const DEVICES_LIMIT: usize = 8;

pub const PENDING_LIMIT: usize = 64;

pub const QUEUE_LIMIT: usize = 256;

pub const CONTROL_LENGTH: usize = layout::DEVICES + layout::DEVICE_WORDS * DEVICES_LIMIT;

// Whether the pending requests and the held touches of a row are within their limits.
fn row_sound(control: &[u64], k: usize) -> bool
    requires { (length control.now ≡ control_length) × (k < devices_limit) }
    ensures { result ≡ row_sound control.now k }
{
    let at = layout::DEVICES + layout::DEVICE_WORDS * k;
    control[at + layout::PENDING] <= PENDING_LIMIT as u64
        && control[at + layout::HELD] <= EIS_MAX_TOUCHES as u64
}

// Whether the counts of the first n rows are so far below their limits, which are powers of two, that their bits together show it: a pass
// with no branch for a row. `false` says nothing.
fn rows_low(control: &[u64], n: usize) -> bool
    requires { (length control.now ≡ control_length) × (n ≤ devices_limit) }
    ensures { result ≡ true → (k : ℕ) → k < n → row_sound control.now k ≡ true }
{
    let mut pending: u64 = 0;
    let mut held: u64 = 0;
    for k in 0..n {
        let at = layout::DEVICES + layout::DEVICE_WORDS * k;
        pending |= control[at + layout::PENDING];
        held |= control[at + layout::HELD];
    }
    pending < PENDING_LIMIT as u64 && held < EIS_MAX_TOUCHES as u64
}

// Whether the counts of the first n rows are within their limits.
fn rows_sound(control: &[u64], n: usize) -> bool
    requires { (length control.now ≡ control_length) × (n ≤ devices_limit) }
    ensures { result ≡ rows_sound control.now n }
{
    if rows_low(control, n) {
        return true;
    }
    // A loop: `all` takes one instruction more for each row.
    for k in 0..n {
        if !row_sound(control, k) {
            return false;
        }
    }
    true
}

// Whether these are the words of a session: refusal 21's test. Its time does not grow with what is queued.
#[tactic(auto, unfolding(crate::specs::Sound::is_sound))]
pub fn sound(control: &[u64]) -> bool
    ensures { result ≡ is_sound control.now }
{
    control.len() == CONTROL_LENGTH
        && seat_count(control) <= SEATS_LIMIT
        && device_count(control) <= DEVICES_LIMIT
        && queue_head(control) < QUEUE_LIMIT
        && queue_length(control) <= QUEUE_LIMIT
        && rows_sound(control, device_count(control))
}

// ---- the connection

pub fn connection_id(control: &[u64]) -> u64
    requires { length control.now ≡ control_length }
    ensures { result ≡ (connection_of control.now).id }
{
    control[layout::CONNECTION_ID]
}

pub fn last_serial(control: &[u64]) -> u32
    requires { length control.now ≡ control_length }
    ensures { result ≡ (connection_of control.now).last_serial }
{
    (control[layout::LAST_SERIAL] % 4294967296) as u32
}

pub fn next_id(control: &[u64]) -> u64
    requires { length control.now ≡ control_length }
    ensures { result ≡ (connection_of control.now).next_id }
{
    control[layout::NEXT_ID]
}

// The last id that the client gave to an object of its own.
pub fn last_peer_id(control: &[u64]) -> u64
    requires { length control.now ≡ control_length }
    ensures { result ≡ (connection_of control.now).last_peer_id }
{
    control[layout::LAST_PEER_ID]
}

// Whether the connection's own object is destroyed: `disconnected` was sent.
pub fn connection_gone(control: &[u64]) -> bool
    requires { length control.now ≡ control_length }
    ensures { result ≡ (connection_of control.now).gone }
{
    control[layout::GONE] != 0
}

// The version at a place among the twelve.
fn version_at(control: &[u64], place: usize) -> Option<u32>
    requires { (length control.now ≡ control_length) × (place < 12) }
    ensures { told result ≡ slice_index_or (connection_of control.now).versions place none }
{
    let above = control[layout::VERSIONS + place].checked_sub(1)?;
    Some((above % 4294967296) as u32)
}

// The version of the interface of a number from 1 on: `negotiated_interfaces.get(name)`.
pub fn version(control: &[u64], interface: u8) -> Option<u32>
    requires { length control.now ≡ control_length }
    ensures { told result ≡ version (connection_of control.now) interface }
{
    let place = usize::from(interface.saturating_sub(1));
    if 12 <= place {
        return None;
    }
    version_at(control, place)
}

// "Seats and devices without a negotiated version state 1 themselves."
fn stated(negotiated: Option<u32>) -> u32
    ensures { result ≡ stated (told negotiated) }
{
    negotiated.unwrap_or(1)
}

pub fn seat_version(control: &[u64]) -> u32
    requires { length control.now ≡ control_length }
    ensures { result ≡ seat_version (connection_of control.now) }
{
    stated(version(control, eiproto_eis::SEAT))
}

pub fn device_version(control: &[u64]) -> u32
    requires { length control.now ≡ control_length }
    ensures { result ≡ device_version (connection_of control.now) }
{
    stated(version(control, eiproto_eis::DEVICE))
}

// Whether the interface of the capability at a bit was negotiated.
fn is_negotiated(control: &[u64], bit: u32) -> bool
    requires { length control.now ≡ control_length }
    ensures { result ≡ is_some (version (connection_of control.now) (interface_of_bit bit)) }
{
    version(control, DeviceCapability::interface_of_bit(bit)).is_some()
}

// The mask of the capabilities whose interface was negotiated.
pub fn negotiated_capabilities(control: &[u64]) -> u64
    requires { length control.now ≡ control_length }
    ensures { result ≡ negotiated_capabilities (connection_of control.now) }
{
    let mut mask: u64 = 0;
    for bit in 0..7 {
        if is_negotiated(control, bit) {
            mask += 1 << bit;
        }
    }
    mask
}

// ---- the queue: the place of the oldest request in its ring, and how many there are

pub fn queue_head(control: &[u64]) -> usize
    requires { length control.now ≡ control_length }
    ensures { result ≡ queue_head control.now }
{
    control[layout::QUEUE_HEAD] as usize
}

pub fn queue_length(control: &[u64]) -> usize
    requires { length control.now ≡ control_length }
    ensures { result ≡ queue_length control.now }
{
    control[layout::QUEUE_LENGTH] as usize
}

// ---- seats

pub fn seat_count(control: &[u64]) -> usize
    requires { length control.now ≡ control_length }
    ensures { result ≡ seat_count control.now }
{
    control[layout::SEAT_COUNT] as usize
}

pub fn seat_id(control: &[u64], k: usize) -> u64
    requires { (length control.now ≡ control_length) × (k < seats_limit) }
    ensures { result ≡ (seat_at control.now k).id }
{
    control[layout::SEATS + layout::SEAT_WORDS * k]
}

pub fn seat_capabilities(control: &[u64], k: usize) -> u64
    requires { (length control.now ≡ control_length) × (k < seats_limit) }
    ensures { result ≡ (seat_at control.now k).capabilities }
{
    control[layout::SEATS + layout::SEAT_WORDS * k + layout::SEAT_CAPABILITIES] % 128
}

// The slot of the first seat with the id.
pub fn find_seat(control: &[u64], id: u64) -> Option<usize>
    requires { Sound control.now }
    ensures { told result ≡ first (λ s. nat_eq s.id id) (connection_of control.now).seats }
{
    // A loop: with `find`, `objects::find_object` takes 6 to 12 instructions more.
    for k in 0..seat_count(control) {
        if seat_id(control, k) == id {
            return Some(k);
        }
    }
    None
}

// ---- devices

pub fn device_count(control: &[u64]) -> usize
    requires { length control.now ≡ control_length }
    ensures { result ≡ device_count control.now }
{
    control[layout::DEVICE_COUNT] as usize
}

pub fn device_id(control: &[u64], k: usize) -> u64
    requires { (length control.now ≡ control_length) × (k < devices_limit) }
    ensures { result ≡ (core_at control.now k).id }
{
    control[layout::DEVICES + layout::DEVICE_WORDS * k]
}

pub fn device_seat(control: &[u64], k: usize) -> u64
    requires { (length control.now ≡ control_length) × (k < devices_limit) }
    ensures { result ≡ (core_at control.now k).seat }
{
    control[layout::DEVICES + layout::DEVICE_WORDS * k + layout::SEAT]
}

// The capabilities that a device was made with: the ids of its interfaces follow from them.
pub fn device_capabilities(control: &[u64], k: usize) -> u64
    requires { (length control.now ≡ control_length) × (k < devices_limit) }
    ensures { result ≡ capabilities_at control.now k }
{
    control[layout::DEVICES + layout::DEVICE_WORDS * k + layout::CAPABILITIES] % 128
}

// Those whose interface it still lists.
pub fn device_listed(control: &[u64], k: usize) -> u64
    requires { (length control.now ≡ control_length) × (k < devices_limit) }
    ensures { result ≡ listed_at control.now k }
{
    DeviceCapability::common(
        device_capabilities(control, k),
        control[layout::DEVICES + layout::DEVICE_WORDS * k + layout::LISTED],
    )
}

pub fn pending_count(control: &[u64], k: usize) -> usize
    requires { (length control.now ≡ control_length) × (k < devices_limit) }
    ensures { result ≡ (core_at control.now k).pending }
{
    control[layout::DEVICES + layout::DEVICE_WORDS * k + layout::PENDING] as usize
}

// The id of the interface of a bit, on a device that was made with the capabilities.
pub fn interface_id(device: u64, capabilities: u64, bit: u32) -> u64
    ensures { result ≡ interface_id device capabilities bit }
{
    device.wrapping_add(1 + u64::from(DeviceCapability::count_below(capabilities, bit)))
}

// Whether a mask has a bit.
pub fn has_bit(mask: u64, place: u32) -> bool
    ensures { result ≡ bit place mask }
{
    place < 64 && (mask >> place) % 2 == 1
}

pub fn has_capability(control: &[u64], k: usize, bit: u32) -> bool
    requires { (length control.now ≡ control_length) × (k < devices_limit) }
    ensures { result ≡ lists bit (core_at control.now k).interfaces }
{
    has_bit(device_listed(control, k), bit)
}

// Whether a device lists an interface with the id for the bit.
pub fn lists_interface(control: &[u64], k: usize, bit: u32, id: u64) -> bool
    requires { (length control.now ≡ control_length) × (k < devices_limit) }
    ensures { result ≡ lists_as bit id (core_at control.now k).interfaces }
{
    has_capability(control, k, bit)
        && interface_id(device_id(control, k), device_capabilities(control, k), bit) == id
}

// The slot of the first device with the id.
pub fn find_device(control: &[u64], id: u64) -> Option<usize>
    requires { Sound control.now }
    ensures { told result ≡ first (λ d. nat_eq d.id id) (cores_of control.now) }
{
    // A loop: with `find`, `objects::find_object` takes 6 to 12 instructions more.
    for k in 0..device_count(control) {
        if device_id(control, k) == id {
            return Some(k);
        }
    }
    None
}

// The slot of the first device that lists an interface with the id for the capability of the bit: `device_for_interface`.
pub fn find_interface(control: &[u64], bit: u32, id: u64) -> Option<usize>
    requires { Sound control.now }
    ensures { told result ≡ first (λ d. lists_as bit id d.interfaces) (cores_of control.now) }
{
    // A loop: `find` takes sixteen instructions more for each device that does not list it.
    for k in 0..device_count(control) {
        if lists_interface(control, k, bit, id) {
            return Some(k);
        }
    }
    None
}

// How many touches are down on the device in slot k.
pub fn touch_count(control: &[u64], k: usize) -> usize
    requires { Sound control.now × (k < device_count control.now) }
    ensures { result ≡ length (touches_at control.now k) }
{
    control[layout::DEVICES + layout::DEVICE_WORDS * k + layout::HELD] as usize
}

// Whether a touch is down on the device in slot k.
pub fn is_down(control: &[u64], k: usize, touch: u32) -> bool
    requires { Sound control.now × (k < device_count control.now) }
    ensures { result ≡ member touch (touches_at control.now k) }
{
    let at = layout::DEVICES + layout::DEVICE_WORDS * k + layout::TOUCHES;
    let down = &control[at..at + touch_count(control, k)];
    down.iter().any(|&word| (word % 4294967296) as u32 == touch)
}
