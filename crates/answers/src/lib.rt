// What the calls on a running session answer, and the tests that several of them begin with: of the slices and of a text that they are lent.
#![tactic(auto)]

ghost use Rattle.std.specs.Prelude.{◌≡◌};
ghost use Rattle.control.specs.Sound.{is_sound};
ghost use Rattle.session.specs.View.{store, is_lent, is_whole};
ghost use Rattle.session.specs.Slices.{given, optional};
ghost use Rattle.answers.specs.Answer.{number_of};
ghost use Rattle.answers.specs.Check.{Tests, Checks};

// The most bytes of a name or an explanation; a longer one is `NameLong`.
pub const NAME_LENGTH_LIMIT: usize = 254;

// Why a call is refused: `Error` and `RequestError` of the source, then what the port adds.
#[derive(Clone, Copy, Debug, PartialEq, Eq)]
pub enum Error {
    UnexpectedHandshakeEvent,
    InvalidInterfaceVersion { interface: u8, version: u32 },
    InvalidCapabilities,
    TooManyTouches,
    DuplicatedTouchDown,
    InvalidTextLength,
    BadUtf8,
    NameLong,
    UnknownHandle,
    BadCapabilities,
    FullSeats,
    FullDevices,
    FullPending,
    FullQueue,
    FullTexts,
    ShortOut,
    IdsSpent,
    BadState,
    BadPart,
    InvalidId,
}

// How a call ends that is not refused.
#[derive(Clone, Copy, Debug, PartialEq, Eq)]
pub enum Outcome {
    // A call that answers nothing else; an ignored request too.
    Accepted,
    // The id that `add_seat` gives, and `add_device`.
    Seat(u64),
    Device(u64),
    // `last_serial`, `interface_version`.
    Value(u32),
    // `has_interface`, `has_capability`.
    Truth(bool),
    // `interface_version` of what was not negotiated.
    None,
}

// The outcome, and how many bytes of events were written to `out`. A call that is refused answers an `Error` in its place, and writes none.
#[derive(Clone, Copy, Debug, PartialEq, Eq)]
pub struct Answer {
    pub outcome: Outcome,
    pub count: usize,
}

impl Error {
    // Its number, as docs/REFERENCE.md lists them.
    #[tactic(auto, unfolding(crate::specs::Answer::number_of, model::specs::Plan::refusal))]
    pub fn number(self) -> u32
        ensures { result ≡ number_of self }
    {
        match self {
            Error::UnexpectedHandshakeEvent => 1,
            Error::InvalidInterfaceVersion { .. } => 2,
            Error::InvalidCapabilities => 3,
            Error::TooManyTouches => 4,
            Error::DuplicatedTouchDown => 5,
            Error::InvalidTextLength => 6,
            Error::BadUtf8 => 10,
            Error::NameLong => 11,
            Error::UnknownHandle => 12,
            Error::BadCapabilities => 13,
            Error::FullSeats => 14,
            Error::FullDevices => 15,
            Error::FullPending => 16,
            Error::FullQueue => 17,
            Error::FullTexts => 18,
            Error::ShortOut => 19,
            Error::IdsSpent => 20,
            Error::BadState => 21,
            Error::BadPart => 22,
            Error::InvalidId => 25,
        }
    }
}

impl Answer {
    pub fn accepted() -> Answer
        ensures { (result.outcome ≡ Outcome.Accepted) × (result.count ≡ 0) }
    {
        Answer {
            outcome: Outcome::Accepted,
            count: 0,
        }
    }

    // A call that wrote nothing.
    pub fn told(outcome: Outcome) -> Answer
        ensures { (result.outcome ≡ outcome) × (result.count ≡ 0) }
    {
        Answer { outcome, count: 0 }
    }

    // A call that wrote events and answers nothing else.
    pub fn sent(count: usize) -> Answer
        ensures { (result.outcome ≡ Outcome.Accepted) × (result.count ≡ count) }
    {
        Answer {
            outcome: Outcome::Accepted,
            count,
        }
    }
}

// 21's test of a call that is lent the control words alone.
pub fn check_sound(control: &[u64]) -> Result<(), Error>
    ensures { Tests (is_sound control.now) result }
{
    if control::sound(control) {
        Ok(())
    } else {
        Err(Error::BadState)
    }
}

// The same of one that is lent the rows of requests too.
pub fn check_lent(control: &[u64], words: &[u64], reals: &[f32]) -> Result<(), Error>
    ensures { Tests (is_lent control.now words.now reals.now) result }
{
    if session::lent(control, words, reals) {
        Ok(())
    } else {
        Err(Error::BadState)
    }
}

// The same of one that is lent all four slices.
pub fn check_whole(control: &[u64], words: &[u64], reals: &[f32], texts: &[u8]) -> Result<(), Error>
    ensures { Tests (is_whole (store control.now words.now reals.now texts.now)) result }
{
    if session::whole(control, words, reals, texts) {
        Ok(())
    } else {
        Err(Error::BadState)
    }
}

// What a name or an explanation may meet: 10, then 11. One that is not given meets neither.
pub fn check_optional(text: Option<&[u8]>) -> Result<(), Error>
    ensures { Checks (given text.entry) result }
{
    let Some(text) = text else {
        return Ok(());
    };
    if !utf8::valid(text) {
        return Err(Error::BadUtf8);
    }
    if NAME_LENGTH_LIMIT < text.len() {
        return Err(Error::NameLong);
    }
    Ok(())
}

// A text that counts where a flag says so, as callers have it that lend no option.
pub fn if_given(counts: bool, text: &[u8]) -> Option<&[u8]>
    ensures { given result ≡ optional counts text.now }
{
    if counts { Some(text) } else { None }
}
