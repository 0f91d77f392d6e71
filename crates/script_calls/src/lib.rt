// The station's calls of a script, made. They go by groups that are lent the same slices to be changed: a function with a case for each call takes
// minutes to check.
// The slices are lent one by one, as C and a station have them, of any length: 21 is the answer where they hold no session.
#![tactic(auto)]

ghost use Rattle.std.specs.Prelude.{◌≡◌};
ghost use Rattle.answers.specs.Promise.{Promise, PromiseRows, Reply};
ghost use Rattle.script_calls.specs.Station.{is_lent, lent_bytes, add_call, remove_call, tell_call, ask_call, PromiseStation};

use answers::{Answer, Error};
use script_asked::{Add, Ask, Remove, Station, Tell};

// The bytes of a text that may be missing; none then.
pub fn or_empty(text: Option<&[u8]>) -> &[u8]
    ensures { result.now ≡ lent_bytes text.entry }
{
    text.unwrap_or(b"")
}

fn add(control: &mut [u64], call: Add, name: Option<&[u8]>, out: &mut [u8]) -> Result<Answer, Error>
    ensures { Promise control out (add_call call (is_lent name.entry) (lent_bytes name.entry)) result }
{
    match call {
        Add::Seat { capabilities } => connection::add_seat(control, name, capabilities, out),
        Add::Device {
            seat,
            kind,
            capabilities,
        } => seat::add_device(control, seat, name, kind, capabilities, out),
    }
}

fn remove(
    control: &mut [u64],
    words: &mut [u64],
    reals: &mut [f32],
    call: Remove,
    explanation: Option<&[u8]>,
    out: &mut [u8],
) -> Result<Answer, Error>
    ensures { PromiseRows control words reals out (remove_call call (is_lent explanation.entry) (lent_bytes explanation.entry)) result }
{
    match call {
        Remove::Seat { seat } => seat::remove_seat(control, words, reals, seat, out),
        Remove::Device { device } => device::remove_device(control, words, reals, device, out),
        Remove::All { reason } => connection::disconnected(
            control,
            words,
            reals,
            reason,
            explanation,
            out,
        ),
    }
}

fn tell(control: &mut [u64], call: Tell, out: &mut [u8]) -> Result<Answer, Error>
    ensures { Promise control out (tell_call call) result }
{
    match call {
        Tell::Resumed { device } => device::resumed(control, device, out),
        Tell::Paused { device } => device::paused(control, device, out),
        Tell::StartEmulating { device, sequence } => device::start_emulating(
            control, device, sequence, out,
        ),
        Tell::StopEmulating { device } => device::stop_emulating(control, device, out),
        Tell::Frame { device, time } => device::frame(control, device, time, out),
    }
}

fn ask(control: &[u64], call: Ask, name: &[u8]) -> Result<Answer, Error>
    ensures { Reply control (ask_call call name.now) result }
{
    match call {
        Ask::LastSerial => connection::last_serial(control),
        Ask::HasInterface => connection::has_interface(control, name),
        Ask::InterfaceVersion => connection::interface_version(control, name),
        Ask::HasCapability { device, capability } => device::has_capability(
            control, device, capability,
        ),
    }
}

// A call of the station, with the line's text if there is one.
pub fn make(
    control: &mut [u64],
    words: &mut [u64],
    reals: &mut [f32],
    call: Station,
    text: Option<&[u8]>,
    out: &mut [u8],
) -> Result<Answer, Error>
    ensures { PromiseStation control words reals out call text.entry result }
{
    match call {
        Station::Add(a) => add(control, a, text, out),
        Station::Remove(a) => remove(control, words, reals, a, text, out),
        Station::Tell(a) => tell(control, a, out),
        Station::Ask(a) => ask(control, a, or_empty(text)),
    }
}
