// The events of a running session, written to the lent `out` from control words that no writer changes: what goes is destroyed, what is new is
// announced. Each writer asks for room; how much it needs is told by a function beside it, before the first byte is
// written.
#![tactic(auto)]

ghost use Rattle.std.specs.Prelude.{◌≡◌, ℕ, ◌+◌, ◌*◌, ◌<◌, ◌≤◌, [], ◌∷◌, length};
ghost use Rattle.eiproto.specs.Bits.{bits_of, common};
ghost use Rattle.wire.specs.Record.{record_length};
ghost use Rattle.model.specs.Session.{Connection};
ghost use Rattle.model.specs.Edit.{next_serial, new_interfaces};
ghost use Rattle.model.specs.Plan.{records};
ghost use Rattle.model.specs.Decide.{negotiated_capabilities, name_events, capability_events, interface_events, objects_of, devices_objects, seat_objects, seats_objects, seat_events, device_events};
ghost use Rattle.control.specs.Control.{control_length, connection_of, core_at};
ghost use Rattle.control.specs.Sound.{Sound};
ghost use Rattle.session.specs.Slices.{given};
ghost use Rattle.events.specs.Events.{Writes, WritesDestroyed, bare, bare_devices};
ghost use Rattle.events.specs.Announce.{offered, CanAnnounceInterfaces, CanAnnounceSeat, CanAnnounceDevice};

use eiproto::event::{Bits, DeviceCapability};
use wire::event;
use wire::event::Event;

// A place in `out`, and the last serial so far.
#[derive(Clone, Copy, Debug, PartialEq, Eq)]
pub struct Mark {
    pub at: usize,
    pub serial: u32,
}

// The bytes of a destroyed record, of a seat's capability and of a device's interface.
pub const DESTROYED_LENGTH: usize = 14;

const CAPABILITY_LENGTH: usize = 19;

const INTERFACE_LENGTH: usize = 23;

// One event, at a place that has room for it; the place behind it. A place and no part of `out`, here and below: `Writes` tells every byte of it.
pub fn send(out: &mut [u8], at: usize, object: u64, e: Event, text: &[u8]) -> usize
    requires { at + record_length e text.now ≤ length out.old }
    ensures { Writes out at (record { object = object; event = e; text = text.now } ∷ []) result }
{
    at + event::put_record(out, at, object, e, text)
}

// "The serial of an event is the last plus one, and after 4294967295 comes 0."
pub fn next_serial(serial: u32) -> u32
    ensures { result ≡ next_serial serial }
{
    serial.wrapping_add(1)
}

// ---- what goes is destroyed

// One object, with the serial behind the mark's.
pub fn destroy(out: &mut [u8], mark: Mark, object: u64) -> Mark
    requires { mark.at + 14 ≤ length out.old }
    ensures { WritesDestroyed out mark (object ∷ []) result }
{
    let serial = next_serial(mark.serial);
    let at = send(out, mark.at, object, Event::Destroyed { serial }, b"");
    Mark { at, serial }
}

// The objects that go with the device in slot k: the interfaces that it lists, and itself.
pub fn device_objects(control: &[u64], k: usize) -> usize
    requires { Sound control.now × (k < 8) }
    ensures { (result ≡ length (objects_of (bare (core_at control.now k)))) × (result ≤ 8) }
{
    DeviceCapability::count(control::device_listed(control, k)) as usize + 1
}

// Those that go with a seat: its devices in the order of the table, and itself.
pub fn seat_objects(control: &[u64], seat: u64) -> usize
    requires { Sound control.now }
    ensures { (result ≡ length (seat_objects seat (bare_devices control.now))) × (result ≤ 65) }
{
    let mut total = 1;
    for k in 0..control::device_count(control) {
        if control::device_seat(control, k) == seat {
            total += device_objects(control, k);
        }
    }
    total
}

// Those of all seats.
pub fn seats_objects(control: &[u64]) -> usize
    requires { Sound control.now }
    ensures { (result ≡ length (seats_objects (connection_of control.now).seats (bare_devices control.now))) × (result ≤ 260) }
{
    let mut total = 0;
    for place in 0..control::seat_count(control) {
        total += seat_objects(control, control::seat_id(control, place));
    }
    total
}

// Destroyed for each interface that the device in slot k lists, by capability bit, then for the device.
pub fn destroy_device(control: &[u64], k: usize, out: &mut [u8], mark: Mark) -> Mark
    requires { Sound control.now × ((k < 8) × (mark.at + 14 * length (objects_of (bare (core_at control.now k))) ≤ length out.old)) }
    ensures { WritesDestroyed out mark (objects_of (bare (core_at control.now k))) result }
{
    let id = control::device_id(control, k);
    let made = control::device_capabilities(control, k);
    let mut so_far = mark;
    for bit in Bits(control::device_listed(control, k)) {
        so_far = destroy(out, so_far, control::interface_id(id, made, bit));
    }
    destroy(out, so_far, id)
}

// For each device of a seat, in the order of the table.
fn destroy_devices(control: &[u64], seat: u64, out: &mut [u8], mark: Mark) -> Mark
    requires { Sound control.now × (mark.at + 14 * length (devices_objects seat (bare_devices control.now)) ≤ length out.old) }
    ensures { WritesDestroyed out mark (devices_objects seat (bare_devices control.now)) result }
{
    let mut so_far = mark;
    for slot in 0..control::device_count(control) {
        if control::device_seat(control, slot) == seat {
            so_far = destroy_device(control, slot, out, so_far);
        }
    }
    so_far
}

// Then for the seat.
pub fn destroy_seat(control: &[u64], seat: u64, out: &mut [u8], mark: Mark) -> Mark
    requires { Sound control.now × (mark.at + 14 * length (seat_objects seat (bare_devices control.now)) ≤ length out.old) }
    ensures { WritesDestroyed out mark (seat_objects seat (bare_devices control.now)) result }
{
    let after_devices = destroy_devices(control, seat, out, mark);
    destroy(out, after_devices, seat)
}

// Every seat, each after its devices.
pub fn destroy_seats(control: &[u64], out: &mut [u8], mark: Mark) -> Mark
    requires { Sound control.now × (mark.at + 14 * length (seats_objects (connection_of control.now).seats (bare_devices control.now)) ≤ length out.old) }
    ensures { WritesDestroyed out mark (seats_objects (connection_of control.now).seats (bare_devices control.now)) result }
{
    let mut so_far = mark;
    for place in 0..control::seat_count(control) {
        so_far = destroy_seat(control, control::seat_id(control, place), out, so_far);
    }
    so_far
}

// ---- what is new is announced

// The capabilities of a new seat, by bit.
fn announce_capabilities(seat: u64, capabilities: u64, out: &mut [u8], from: usize) -> usize
    requires { from + length (records (capability_events seat (bits_of capabilities))) ≤ length out.old }
    ensures { Writes out from (capability_events seat (bits_of capabilities)) result }
{
    let mut at = from;
    for bit in Bits(capabilities) {
        let announced = Event::Capability {
            mask: 1 << bit,
            interface: DeviceCapability::interface_of_bit(bit),
        };
        at = send(out, at, seat, announced, b"");
    }
    at
}

// The interface of a bit, with the version that was negotiated for it, at a place that has room for it; none without one. The place behind it.
fn announce_interface(
    control: &[u64],
    device: u64,
    bit: u32,
    id: u64,
    out: &mut [u8],
    at: usize,
) -> usize
    requires { (length control.now ≡ control_length) × (at + length (records (offered control.now device bit id)) ≤ length out.old) }
    ensures { Writes out at (offered control.now device bit id) result }
{
    let interface = DeviceCapability::interface_of_bit(bit);
    let Some(version) = control::version(control, interface) else {
        return at;
    };
    let offered = Event::Interface {
        id,
        interface,
        version,
    };
    send(out, at, device, offered, b"")
}

// The interfaces of a new device, by capability bit, with the ids behind its own.
fn announce_interfaces(
    control: &[u64],
    device: u64,
    capabilities: u64,
    out: &mut [u8],
    from: usize,
) -> usize
    requires { CanAnnounceInterfaces control.now device capabilities out.old from }
    ensures { Writes out from (interface_events (connection_of control.now) device (new_interfaces device capabilities)) result }
{
    let mut at = from;
    let mut id = device + 1;
    for bit in Bits(capabilities) {
        at = announce_interface(control, device, bit, id, out, at);
        id += 1;
    }
    at
}

// The bytes of the event of a name. No slice is longer than half of what a usize counts.
fn named_length(name: &[u8]) -> usize
    ensures { (result ≡ record_length Event.Name name.now) × (result ≤ 10 + 0x7fff_ffff_ffff_ffff) }
{
    event::record_length(Event::Name, name)
}

// The bytes of a name event, 0 where no name is given.
fn name_length(name: Option<&[u8]>) -> usize
    ensures { ((object : ℕ) → result ≡ length (records (name_events object (given name.entry)))) × (result ≤ 10 + 0x7fff_ffff_ffff_ffff) }
{
    match name {
        Some(name) => named_length(name),
        None => 0,
    }
}

// The name event, at a place that has room for it; the place behind it.
fn announce_name(out: &mut [u8], at: usize, object: u64, name: Option<&[u8]>) -> usize
    requires { at + length (records (name_events object (given name))) ≤ length out.old }
    ensures { Writes out at (name_events object (given name.entry)) result }
{
    match name {
        Some(name) => send(out, at, object, Event::Name, name),
        None => at,
    }
}

// A seat or a device that is new. Its name counts where it is given.
#[derive(Clone, Copy, Debug, PartialEq, Eq)]
pub struct NewObject<'a> {
    pub id: u64,
    pub version: u32,
    pub name: Option<&'a [u8]>,
    pub capabilities: u64,
}

// A seat's events: itself, its name, its capabilities, done.
#[tactic(auto, using(crate::proofs::NewSeat::seat_sizes))]
pub fn seat_length(new: NewObject<'_>) -> usize
    ensures { (c : Connection) → result ≡ length (records (seat_events c new.entry.id new.entry.version (given new.entry.name) new.entry.capabilities)) }
{
    let seat = event::fixed_length(Event::Seat {
        id: new.id,
        version: new.version,
    });
    let announced = CAPABILITY_LENGTH * (DeviceCapability::count(new.capabilities) as usize);
    let done = event::fixed_length(Event::Done);
    seat + name_length(new.name) + announced + done
}

// At the start of `out`; how many bytes were written.
pub fn announce_seat(control: &[u64], new: NewObject<'_>, out: &mut [u8]) -> usize
    requires { CanAnnounceSeat control.now new.id new.version (given new.name) new.capabilities out.old }
    ensures { Writes out 0 (seat_events (connection_of control.now) new.entry.id new.entry.version (given new.entry.name) new.entry.capabilities) result }
{
    let NewObject {
        id,
        version,
        name,
        capabilities,
    } = new;
    let connection = control::connection_id(control);
    let seat = send(out, 0, connection, Event::Seat { id, version }, b"");
    let named = announce_name(out, seat, id, name);
    let announced = announce_capabilities(id, capabilities, out, named);
    send(out, announced, id, Event::Done, b"")
}

// A device's events: itself, its name, its type, its interfaces, done, where each of these was negotiated.
#[tactic(auto, using(crate::proofs::NewDevice::device_sizes))]
pub fn device_length(new: NewObject<'_>) -> usize
    ensures { (c : Connection) (seat kind : ℕ) → common new.entry.capabilities (negotiated_capabilities c) ≡ new.entry.capabilities → result ≡ length (records (device_events c seat new.entry.id new.entry.version (given new.entry.name) kind new.entry.capabilities)) }
{
    let device = event::fixed_length(Event::Device {
        id: new.id,
        version: new.version,
    });
    let kind = event::fixed_length(Event::DeviceType { value: 0 });
    let interfaces = INTERFACE_LENGTH * (DeviceCapability::count(new.capabilities) as usize);
    let done = event::fixed_length(Event::Done);
    device + name_length(new.name) + kind + interfaces + done
}

// At the start of `out`; how many bytes were written.
pub fn announce_device(
    control: &[u64],
    seat: u64,
    new: NewObject<'_>,
    kind: u32,
    out: &mut [u8],
) -> usize
    requires { CanAnnounceDevice control.now seat new.id new.version (given new.name) kind new.capabilities out.old }
    ensures { Writes out 0 (device_events (connection_of control.now) seat new.entry.id new.entry.version (given new.entry.name) kind new.entry.capabilities) result }
{
    let NewObject {
        id,
        version,
        name,
        capabilities,
    } = new;
    let device = send(out, 0, seat, Event::Device { id, version }, b"");
    let named = announce_name(out, device, id, name);
    let typed = send(out, named, id, Event::DeviceType { value: kind }, b"");
    let listed = announce_interfaces(control, id, capabilities, out, typed);
    send(out, listed, id, Event::Done, b"")
}
