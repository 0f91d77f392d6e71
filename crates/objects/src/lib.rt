// Which objects live, and of which interface and version each is: read off the control words where they are, nothing is stored for it.
#![tactic(auto)]

ghost use Rattle.std.specs.Prelude.{◌≡◌, ℕ, ◌<◌, List, length, Float};
ghost use Rattle.model.specs.Session.{view};
ghost use Rattle.model.specs.Decide.{version};
ghost use Rattle.model.specs.Live.{listed_as, listed_in, object_of, live};
ghost use Rattle.control.specs.Control.{devices_limit, control_length, connection_of, interfaces_on, core_at};
ghost use Rattle.control.specs.Sound.{Sound};
ghost use Rattle.session.specs.View.{store, session};
ghost use Rattle.eiproto.specs.Told.{told};
ghost use Rattle.objects.specs.Answer.{object_told};

use eiproto::eiproto_eis;
use eiproto::event::{Bits, DeviceCapability};

// The object of an id that lives: its interface's number, and its version.
#[derive(Clone, Copy, Debug, PartialEq, Eq)]
pub struct Object {
    pub interface: u8,
    pub version: u32,
}

// The bit among those listed whose interface has the id, on a device that was made with the capabilities.
fn listed_among(device: u64, capabilities: u64, listed: u64, id: u64) -> Option<u32>
    ensures { told result ≡ listed_as id (interfaces_on device capabilities listed) }
{
    for bit in Bits(listed) {
        if control::interface_id(device, capabilities, bit) == id {
            return Some(bit);
        }
    }
    None
}

// The same of the device in slot k. The ids of a device's interfaces are among the seven that follow its own: a device whose id is not near is
// passed over.
fn listed_on(control: &[u64], k: usize, id: u64) -> Option<u32>
    requires { (length control.now ≡ control_length) × (k < devices_limit) }
    ensures { told result ≡ listed_as id (core_at control.now k).interfaces }
{
    let device = control::device_id(control, k);
    let near = id.wrapping_sub(device);
    if near == 0 || 7 < near {
        return None;
    }
    let capabilities = control::device_capabilities(control, k);
    let listed = control::device_listed(control, k);
    listed_among(device, capabilities, listed, id)
}

// The capability for which some device lists an interface with the id.
pub fn find_listed(control: &[u64], id: u64) -> Option<u32>
    requires { Sound control.now }
    ensures { (w : List ℕ) (q : List Float) (t : List ℕ) → told result ≡ listed_in id (view (session (store control.now w q t))).devices }
{
    // A loop: with `find_map` it isn't proved, since nothing says of what it stopped at that it was found.
    for k in 0..control::device_count(control) {
        if let Some(bit) = listed_on(control, k, id) {
            return Some(bit);
        }
    }
    None
}

// An object of the interface, with the version that was negotiated for it; none without one.
fn object_of(control: &[u64], interface: u8) -> Option<Object>
    requires { length control.now ≡ control_length }
    ensures { object_told result ≡ object_of interface (version (connection_of control.now) interface) }
{
    let version = control::version(control, interface)?;
    Some(Object { interface, version })
}

// The object of an id: the connection until its `disconnected`, a seat, a device, an interface that a device lists.
pub fn find_object(control: &[u64], id: u64) -> Option<Object>
    requires { Sound control.now }
    ensures { (w : List ℕ) (q : List Float) (t : List ℕ) → object_told result ≡ live (view (session (store control.now w q t))) id }
{
    if control::connection_id(control) == id && !control::connection_gone(control) {
        return Some(Object {
            interface: eiproto_eis::CONNECTION,
            version: 1,
        });
    }
    if control::find_seat(control, id).is_some() {
        return Some(Object {
            interface: eiproto_eis::SEAT,
            version: control::seat_version(control),
        });
    }
    if control::find_device(control, id).is_some() {
        return Some(Object {
            interface: eiproto_eis::DEVICE,
            version: control::device_version(control),
        });
    }
    let bit = find_listed(control, id)?;
    object_of(control, DeviceCapability::interface_of_bit(bit))
}
