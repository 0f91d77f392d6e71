// The methods of `Device` of src/request.rs.
// The slices are lent one by one, as C and a station have them, of any length: 21 is the answer where they hold no session.
#![tactic(auto)]

ghost use Rattle.std.specs.Prelude.{◌≡◌, ◌<◌};
ghost use Rattle.model.specs.Call.{Plain};
ghost use Rattle.control.specs.Control.{device_count};
ghost use Rattle.control.specs.Sound.{Sound};
ghost use Rattle.session.specs.Enact.{EnactsControl};
ghost use Rattle.answers.specs.Promise.{Promise, Reply, PromiseRows};
ghost use Rattle.device.specs.Notice.{notice_call, notice_event, notice_edits};

use answers::{Answer, Error, Outcome};
use eiproto::event::DeviceCapability;
use session::LentSession;
use wire::event;
use wire::event::Event;

// `Device::remove`: its interfaces by capability bit, then itself. What it has pending is dropped, what is queued stays.
pub fn remove_device(
    control: &mut [u64],
    words: &mut [u64],
    reals: &mut [f32],
    device: u64,
    out: &mut [u8],
) -> Result<Answer, Error>
    ensures { PromiseRows control words reals out (Plain.remove_device device) result }
{
    answers::check_lent(control, words, reals)?;
    let Some(k) = control::find_device(control, device) else {
        return Err(Error::UnknownHandle);
    };
    if out.len() < events::DESTROYED_LENGTH * events::device_objects(control, k) {
        return Err(Error::ShortOut);
    }
    let mut session = LentSession {
        control,
        words,
        reals,
    };
    Ok(Answer::sent(removal::retire_device(&mut session, k, out)))
}

// An event that a known device is told, with the next serial.
#[derive(Clone, Copy, Debug, PartialEq, Eq)]
pub enum Notice {
    Resumed,
    Paused,
    StartEmulating { sequence: u32 },
    StopEmulating,
    Frame { time: u64 },
}

fn event_of(notice: Notice, serial: u32) -> Event
    ensures { result ≡ notice_event notice serial }
{
    match notice {
        Notice::Resumed => Event::Resumed { serial },
        Notice::Paused => Event::Paused { serial },
        Notice::StartEmulating { sequence } => Event::StartEmulating { serial, sequence },
        Notice::StopEmulating => Event::StopEmulating { serial },
        Notice::Frame { time } => Event::Frame { serial, time },
    }
}

// "`paused` empties the held touches": the one notice that changes its device.
fn enact(control: &mut [u64], k: usize, notice: Notice)
    requires { Sound control.old × (k < device_count control.old) }
    ensures { EnactsControl control (notice_edits notice k) }
{
    match notice {
        Notice::Paused => session::clear_touches(control, k),
        Notice::Resumed => {}
        Notice::StartEmulating { .. } => {}
        Notice::StopEmulating => {}
        Notice::Frame { .. } => {}
    }
}

fn notify(control: &mut [u64], device: u64, notice: Notice, out: &mut [u8]) -> Result<Answer, Error>
    ensures { Promise control out (notice_call notice device) result }
{
    answers::check_sound(control)?;
    let Some(k) = control::find_device(control, device) else {
        return Err(Error::UnknownHandle);
    };
    let serial = events::next_serial(control::last_serial(control));
    let told = event_of(notice, serial);
    if out.len() < event::fixed_length(told) {
        return Err(Error::ShortOut);
    }
    let count = events::send(out, 0, device, told, b"");
    session::raise(control, serial);
    enact(control, k, notice);
    Ok(Answer::sent(count))
}

pub fn resumed(control: &mut [u64], device: u64, out: &mut [u8]) -> Result<Answer, Error>
    ensures { Promise control out (Plain.resumed device) result }
{
    notify(control, device, Notice::Resumed, out)
}

pub fn paused(control: &mut [u64], device: u64, out: &mut [u8]) -> Result<Answer, Error>
    ensures { Promise control out (Plain.paused device) result }
{
    notify(control, device, Notice::Paused, out)
}

pub fn start_emulating(
    control: &mut [u64],
    device: u64,
    sequence: u32,
    out: &mut [u8],
) -> Result<Answer, Error>
    ensures { Promise control out (Plain.start_emulating device sequence) result }
{
    notify(control, device, Notice::StartEmulating { sequence }, out)
}

pub fn stop_emulating(control: &mut [u64], device: u64, out: &mut [u8]) -> Result<Answer, Error>
    ensures { Promise control out (Plain.stop_emulating device) result }
{
    notify(control, device, Notice::StopEmulating, out)
}

pub fn frame(control: &mut [u64], device: u64, time: u64, out: &mut [u8]) -> Result<Answer, Error>
    ensures { Promise control out (Plain.frame device time) result }
{
    notify(control, device, Notice::Frame { time }, out)
}

// `Device::has_capability`: whether the device lists an interface for it.
pub fn has_capability(
    control: &[u64],
    device: u64,
    capability: DeviceCapability,
) -> Result<Answer, Error>
    ensures { Reply control (Plain.has_capability device capability) result }
{
    answers::check_sound(control)?;
    let Some(k) = control::find_device(control, device) else {
        return Err(Error::UnknownHandle);
    };
    let bit = DeviceCapability::lowest(DeviceCapability::mask(capability));
    let listed = control::has_capability(control, k, bit);
    Ok(Answer::told(Outcome::Truth(listed)))
}
