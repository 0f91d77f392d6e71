// A whole read handed over: what a client sent since the last wakeup, as a list of records, with one slice for their texts and one clock value for all.
// They are handed in one after another, each with what is left of `out`, up to the first that is refused.
#![tactic(auto)]

ghost use Rattle.std.specs.Prelude.{◌≡◌, true, map, ◌+◌, ◌<◌, ◌≤◌, ◌^◌, length};
ghost use Rattle.session.specs.View.{store, is_whole, Whole};
ghost use Rattle.session.specs.Loan.{SameLoan, store_of};
ghost use Rattle.session.specs.Slices.{given};
ghost use Rattle.answers.specs.Answer.{count_of};
ghost use Rattle.reads.specs.Record.{has_text, part_of, entry_of};
ghost use Rattle.reads.specs.Handed.{goes_on, joined, Opens, Taken, Takes, HandsOver};

use answers::{Answer, Error};
use record::RequestRecord;
use requests::eis::{HandshakeRequest, InterfaceRequest, Request, TextRequest};
use session::LentSession;

pub mod record;

// The calls take a session's slices one by one, as `handle_request` of the converter does: what is asked of callers may not change.

// How many records were accepted, ignored ones included; how many bytes of events these wrote; the first refusal, if there was one.
#[derive(Clone, Copy, Debug, PartialEq, Eq)]
pub struct ReadAnswer {
    pub accepted: usize,
    pub count: usize,
    pub refusal: Option<Error>,
}

// Nothing is tried yet; 21 on a damaged session.
pub fn begin(
    control: &mut [u64],
    words: &mut [u64],
    reals: &mut [f32],
    texts: &mut [u8],
) -> ReadAnswer
    ensures { Opens control words reals texts result }
{
    ReadAnswer {
        accepted: 0,
        count: 0,
        refusal: answers::check_whole(control, words, reals, texts).err(),
    }
}

// Whether a record is left to be tried, for a caller that hands its records in one by one.
pub fn goes_on(sofar: ReadAnswer, n: usize) -> bool
    ensures { result ≡ goes_on sofar n }
{
    sofar.refusal.is_none() && sofar.accepted < n
}

// Whether the request carries a text.
fn has_text(request: Request) -> bool
    ensures { result ≡ has_text request }
{
    matches!(
        request,
        Request::Handshake(HandshakeRequest::Name | HandshakeRequest::InterfaceVersion { .. })
            | Request::Interface(InterfaceRequest::Text(TextRequest::Utf8))
    )
}

// What is lent of the texts to a record's request: its part, if that stays within them, and nothing where the request has no text.
#[tactic(auto, unfolding(crate::specs::Record::part_of))]
fn part_of(one: RequestRecord, lent: &[u8]) -> Option<&[u8]>
    ensures { given result ≡ part_of lent.now one }
{
    if !has_text(one.request) {
        return Some(b"");
    }
    let end = one.start.checked_add(one.length)?;
    lent.get(one.start..end)
}

// The answer of one record joined to those before it.
fn join(sofar: ReadAnswer, answer: Result<Answer, Error>) -> ReadAnswer
    requires { (sofar.accepted + 1 < 2 ^ 64) × (sofar.count + count_of answer < 2 ^ 64) }
    ensures { result ≡ joined sofar answer }
{
    match answer {
        Ok(answer) => ReadAnswer {
            accepted: sofar.accepted + 1,
            count: sofar.count + answer.count,
            refusal: None,
        },
        Err(error) => ReadAnswer {
            accepted: sofar.accepted,
            count: sofar.count,
            refusal: Some(error),
        },
    }
}

// One record, behind those that were accepted: its request on the lent session, with what is left of `out`. For a caller that lends a session once
// for all records of a read.
pub fn record_on(
    session: &mut LentSession<'_, '_, '_>,
    texts: &mut [u8],
    one: RequestRecord,
    lent: &[u8],
    clock: u64,
    out: &mut [u8],
    sofar: ReadAnswer,
) -> ReadAnswer
    requires { Whole (store_of session.old texts.old) × ((sofar.count ≤ length out.old) × (sofar.accepted + 1 < 2 ^ 64)) }
    ensures step { Taken (store_of session.old texts.old) (store_of session.new texts.new) out.old out.new (entry_of lent.now one) clock sofar result }
    ensures loan { SameLoan session.old session.new }
{
    let Some(text) = part_of(one, lent) else {
        return join(sofar, Err(Error::BadPart));
    };
    let answer = converter::request::handle_on(
        session,
        texts,
        one.object,
        one.version,
        one.request,
        text,
        clock,
        &mut out[sofar.count..],
    );
    join(sofar, answer)
}

// One record, on a session that is not damaged, behind those that were accepted.
pub fn handle_record(
    control: &mut [u64],
    words: &mut [u64],
    reals: &mut [f32],
    texts: &mut [u8],
    one: RequestRecord,
    lent: &[u8],
    clock: u64,
    out: &mut [u8],
    sofar: ReadAnswer,
) -> ReadAnswer
    requires { (is_whole (store control.old words.old reals.old texts.old) ≡ true) × ((sofar.count ≤ length out.old) × (sofar.accepted + 1 < 2 ^ 64)) }
    ensures { Takes control words reals texts out (entry_of lent.now one) clock sofar result }
{
    let mut session = LentSession {
        control,
        words,
        reals,
    };
    record_on(&mut session, texts, one, lent, clock, out, sofar)
}

// A whole read, on a session's slices. They are lent on once: 21's test is made before the first record.
pub fn handle_requests(
    control: &mut [u64],
    words: &mut [u64],
    reals: &mut [f32],
    texts: &mut [u8],
    records: &[RequestRecord],
    lent: &[u8],
    clock: u64,
    out: &mut [u8],
) -> ReadAnswer
    ensures { HandsOver control words reals texts out (map (entry_of lent.now) records.now) clock result }
{
    let mut sofar = begin(control, words, reals, texts);
    if sofar.refusal.is_some() {
        return sofar;
    }
    let mut session = LentSession {
        control,
        words,
        reals,
    };
    for one in records {
        sofar = record_on(&mut session, texts, *one, lent, clock, out, sofar);
        if sofar.refusal.is_some() {
            return sofar;
        }
    }
    sofar
}
