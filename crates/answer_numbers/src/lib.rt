// What a call answers, as numbers: for C and Rust, and for the lines of a trail.
#![tactic(auto)]

ghost use Rattle.std.specs.Prelude.{◌≡◌};
ghost use Rattle.answers.specs.Answer.{error_of, outcome_of, count_of};
ghost use Rattle.answer_numbers.specs.Numbers.{ending_status, status_of, ending_value, value_of, first_outcome, no_version, version_in};

use answers::{Answer, Error, Outcome};

// Not a refusal: nothing is queued, or the interface was not negotiated. These stay numbers: they are statuses of include/bozterrun.h.
pub const NONE: u32 = 64;

// An argument that stands for no case of its enum. It is tested before anything else, and nothing is touched.
pub const BAD_ARGUMENT: u32 = 65;

// Not a refusal: a message is not yet whole.
pub const WAIT: u32 = 66;

// Refusals that a message alone meets.
pub const MALFORMED: u32 = 23;

pub const NO_OBJECT: u32 = 24;

pub const INVALID_ID: u32 = 25;

// The refusal that a record to be sent alone meets.
pub const UNSENDABLE: u32 = 26;

pub fn status(answer: Result<Answer, Error>) -> u32
    ensures { result ≡ status_of answer }
{
    match answer {
        Ok(answer) => ending_status(answer.outcome),
        Err(error) => error.number(),
    }
}

fn ending_status(outcome: Outcome) -> u32
    ensures { result ≡ ending_status outcome }
{
    match outcome {
        Outcome::None => NONE,
        _ => 0,
    }
}

// How many bytes of events were written: none by a call that is refused.
pub fn count(answer: Result<Answer, Error>) -> usize
    ensures { result ≡ count_of answer }
{
    match answer {
        Ok(answer) => answer.count,
        Err(_) => 0,
    }
}

// The id, the number or the truth that is answered; 0 where there is none.
pub fn value(answer: Result<Answer, Error>) -> u64
    ensures { result ≡ value_of answer }
{
    match answer {
        Ok(answer) => ending_value(answer.outcome),
        Err(_) => 0,
    }
}

fn ending_value(outcome: Outcome) -> u64
    ensures { result ≡ ending_value outcome }
{
    match outcome {
        Outcome::Accepted => 0,
        Outcome::Seat(id) => id,
        Outcome::Device(id) => id,
        Outcome::Value(n) => u64::from(n),
        Outcome::Truth(b) => u64::from(b),
        Outcome::None => 0,
    }
}

// A read by its first refusal, as the answer of one call.
pub fn first_outcome(refusal: Option<Error>) -> Result<Answer, Error>
    ensures { result ≡ first_outcome refusal }
{
    match refusal {
        None => Ok(Answer::accepted()),
        Some(error) => Err(error),
    }
}

// What refusal 2 tells besides its number; 0 at any other outcome.
#[derive(Clone, Copy, Debug, PartialEq, Eq)]
pub struct RefusedVersion {
    pub interface: u32,
    pub version: u32,
}

fn no_version() -> RefusedVersion
    ensures { result ≡ no_version }
{
    RefusedVersion {
        interface: 0,
        version: 0,
    }
}

fn version_in(error: Error) -> RefusedVersion
    ensures { result ≡ version_in (error_of error) }
{
    if let Error::InvalidInterfaceVersion { interface, version } = error {
        RefusedVersion {
            interface: u32::from(interface),
            version,
        }
    } else {
        no_version()
    }
}

pub fn refused_version(answer: Result<Answer, Error>) -> RefusedVersion
    ensures { result ≡ version_in (outcome_of answer) }
{
    match answer {
        Ok(_) => no_version(),
        Err(error) => version_in(error),
    }
}
