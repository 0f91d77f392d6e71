// The calls of the station.
ghost use Rattle.std.specs.Prelude.{ℕ, ◌≤◌, ◌<◌, ◌≡◌};
ghost use Rattle.eiproto.specs.declared.event.DeviceCapability.{DeviceCapability};
ghost use Rattle.eiproto.specs.declared.eiproto_enum.DeviceType.{DeviceType};
ghost use Rattle.eiproto.specs.declared.eiproto_enum.DisconnectReason.{DisconnectReason};
ghost use Rattle.model.specs.Call.{Plain};
ghost use Rattle.answers.specs.Promise.{Promise, Reply, PromiseRows};
ghost use Rattle.bozterrun.specs.Reply.{text_if, Sent, Gave, Valued, Unsent, UnsentRows};
ghost use Rattle.answer_numbers.specs.Numbers.{bad_argument};
ghost use Rattle.bozterrun.specs.Numbers.{IsCapability, NoCapability, IsType, NoType, IsReason, NoReason};

use crate::told;
use answer_numbers::BAD_ARGUMENT;
use eiproto::eiproto_enum::{DeviceType, DisconnectReason};
use eiproto::event::DeviceCapability;

// The name counts where `given` is 1: C has no option.
#[unsafe(no_mangle)]
pub extern "C" fn bozterrun_add_seat(
    control: &mut [u64],
    given: u32,
    name: &[u8],
    capabilities: u64,
    out: &mut [u8],
    count: &mut usize,
    id: &mut u64,
) -> u32
    ensures gave { given ≤ 1 → Gave (Promise control out (Plain.add_seat (text_if given name) capabilities)) result count id }
    ensures value { 1 < given → (result ≡ bad_argument) × Unsent control out count id }
{
    if 1 < given {
        *count = 0;
        *id = 0;
        return BAD_ARGUMENT;
    }
    let name = answers::if_given(given == 1, name);
    let answer = connection::add_seat(control, name, capabilities, out);
    told::gave(answer, count, id)
}

// The name counts where `given` is 1: C has no option.
#[unsafe(no_mangle)]
pub extern "C" fn bozterrun_add_device(
    control: &mut [u64],
    seat: u64,
    given: u32,
    name: &[u8],
    kind: u32,
    capabilities: u64,
    out: &mut [u8],
    count: &mut usize,
    id: &mut u64,
) -> u32
    ensures gave { (k : DeviceType) → given ≤ 1 → IsType kind k → Gave (Promise control out (Plain.add_device seat (text_if given name) k capabilities)) result count id }
    ensures value { 1 < given → (result ≡ bad_argument) × Unsent control out count id }
    ensures by_index { (n : ℕ) → NoType kind n → (result ≡ bad_argument) × Unsent control out count id }
{
    if 1 < given {
        *count = 0;
        *id = 0;
        return BAD_ARGUMENT;
    }
    let Ok(kind) = DeviceType::try_from(kind) else {
        *count = 0;
        *id = 0;
        return BAD_ARGUMENT;
    };
    let name = answers::if_given(given == 1, name);
    let answer = seat::add_device(control, seat, name, kind, capabilities, out);
    told::gave(answer, count, id)
}

#[unsafe(no_mangle)]
pub extern "C" fn bozterrun_remove_seat(
    control: &mut [u64],
    words: &mut [u64],
    reals: &mut [f32],
    seat: u64,
    out: &mut [u8],
    count: &mut usize,
) -> u32
    ensures { Sent (PromiseRows control words reals out (Plain.remove_seat seat)) result count }
{
    let answer = seat::remove_seat(control, words, reals, seat, out);
    told::sent(answer, count)
}

#[unsafe(no_mangle)]
pub extern "C" fn bozterrun_remove_device(
    control: &mut [u64],
    words: &mut [u64],
    reals: &mut [f32],
    device: u64,
    out: &mut [u8],
    count: &mut usize,
) -> u32
    ensures { Sent (PromiseRows control words reals out (Plain.remove_device device)) result count }
{
    let answer = device::remove_device(control, words, reals, device, out);
    told::sent(answer, count)
}

#[unsafe(no_mangle)]
pub extern "C" fn bozterrun_resumed(
    control: &mut [u64],
    device: u64,
    out: &mut [u8],
    count: &mut usize,
) -> u32
    ensures { Sent (Promise control out (Plain.resumed device)) result count }
{
    let answer = device::resumed(control, device, out);
    told::sent(answer, count)
}

#[unsafe(no_mangle)]
pub extern "C" fn bozterrun_paused(
    control: &mut [u64],
    device: u64,
    out: &mut [u8],
    count: &mut usize,
) -> u32
    ensures { Sent (Promise control out (Plain.paused device)) result count }
{
    let answer = device::paused(control, device, out);
    told::sent(answer, count)
}

#[unsafe(no_mangle)]
pub extern "C" fn bozterrun_start_emulating(
    control: &mut [u64],
    device: u64,
    sequence: u32,
    out: &mut [u8],
    count: &mut usize,
) -> u32
    ensures { Sent (Promise control out (Plain.start_emulating device sequence)) result count }
{
    let answer = device::start_emulating(control, device, sequence, out);
    told::sent(answer, count)
}

#[unsafe(no_mangle)]
pub extern "C" fn bozterrun_stop_emulating(
    control: &mut [u64],
    device: u64,
    out: &mut [u8],
    count: &mut usize,
) -> u32
    ensures { Sent (Promise control out (Plain.stop_emulating device)) result count }
{
    let answer = device::stop_emulating(control, device, out);
    told::sent(answer, count)
}

#[unsafe(no_mangle)]
pub extern "C" fn bozterrun_frame(
    control: &mut [u64],
    device: u64,
    time: u64,
    out: &mut [u8],
    count: &mut usize,
) -> u32
    ensures { Sent (Promise control out (Plain.frame device time)) result count }
{
    let answer = device::frame(control, device, time, out);
    told::sent(answer, count)
}

// The explanation counts where `given` is 1: C has no option.
#[unsafe(no_mangle)]
pub extern "C" fn bozterrun_disconnected(
    control: &mut [u64],
    words: &mut [u64],
    reals: &mut [f32],
    reason: u32,
    given: u32,
    explanation: &[u8],
    out: &mut [u8],
    count: &mut usize,
) -> u32
    ensures sent { (d : DisconnectReason) → given ≤ 1 → IsReason reason d → Sent (PromiseRows control words reals out (Plain.disconnected d (text_if given explanation))) result count }
    ensures value { 1 < given → (result ≡ bad_argument) × UnsentRows control words reals out count }
    ensures by_index { (n : ℕ) → NoReason reason n → (result ≡ bad_argument) × UnsentRows control words reals out count }
{
    if 1 < given {
        *count = 0;
        return BAD_ARGUMENT;
    }
    let Ok(reason) = DisconnectReason::try_from(reason) else {
        *count = 0;
        return BAD_ARGUMENT;
    };
    let explanation = answers::if_given(given == 1, explanation);
    let answer = connection::disconnected(control, words, reals, reason, explanation, out);
    told::sent(answer, count)
}

#[unsafe(no_mangle)]
pub extern "C" fn bozterrun_last_serial(control: &[u64], serial: &mut u64) -> u32
    ensures { Valued (Reply control Plain.last_serial) result serial }
{
    let answer = connection::last_serial(control);
    told::valued(answer, serial)
}

// 1 where the interface was negotiated, else 0.
#[unsafe(no_mangle)]
pub extern "C" fn bozterrun_has_interface(control: &[u64], name: &[u8], truth: &mut u64) -> u32
    ensures { Valued (Reply control (Plain.has_interface name.now)) result truth }
{
    let answer = connection::has_interface(control, name);
    told::valued(answer, truth)
}

#[unsafe(no_mangle)]
pub extern "C" fn bozterrun_interface_version(
    control: &[u64],
    name: &[u8],
    version: &mut u64,
) -> u32
    ensures { Valued (Reply control (Plain.interface_version name.now)) result version }
{
    let answer = connection::interface_version(control, name);
    told::valued(answer, version)
}

// 1 where the device lists an interface for the capability, which is told by its mask, else 0.
#[unsafe(no_mangle)]
pub extern "C" fn bozterrun_has_capability(
    control: &[u64],
    device: u64,
    capability: u64,
    truth: &mut u64,
) -> u32
    ensures valued { (c : DeviceCapability) → IsCapability capability c → Valued (Reply control (Plain.has_capability device c)) result truth }
    ensures value { NoCapability capability → (result ≡ bad_argument) × (truth.new ≡ 0) }
{
    let Some(capability) = DeviceCapability::from_mask(capability) else {
        *truth = 0;
        return BAD_ARGUMENT;
    };
    let answer = device::has_capability(control, device, capability);
    told::valued(answer, truth)
}
