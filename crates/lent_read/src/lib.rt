// A whole read in lent slices, for callers that have numbers and no `Request`: each record is eight words and two reals (record, numbers).
#![tactic(auto)]

ghost use Rattle.std.specs.Prelude.{◌≡◌, map};
ghost use Rattle.reads.specs.Record.{entry_of};
ghost use Rattle.reads.specs.Handed.{HandsOver};
ghost use Rattle.lent_read.specs.Numbers.{record_count, records_in, are_requests};

use reads::ReadAnswer;
use session::LentSession;

pub mod numbers;
pub mod record;

// The words and the reals of the records are two slices, as a session's are several: C lends them so (`bozterrun_handle_requests`).

// How many records the slices hold, whole ones alone.
pub fn record_count(records: &[u64], points: &[f32]) -> usize
    ensures { result ≡ record_count records.now points.now }
{
    (records.len() / record::RECORD_WORDS).min(points.len() / record::RECORD_REALS)
}

// Whether the slices hold whole records and nothing else, and each is a request's.
pub fn are_requests(records: &[u64], points: &[f32]) -> bool
    ensures { result ≡ are_requests records.now points.now }
{
    let n = record_count(records, points);
    if records.len() != n * record::RECORD_WORDS || points.len() != n * record::RECORD_REALS {
        return false;
    }
    // By `(0..n).all(..)` it was tried, and the check did not find the proof.
    for i in 0..n {
        if !record::is_request(record::cell_at(records, points, i)) {
            return false;
        }
    }
    true
}

// A whole read, on a session's slices.
pub fn handle_requests(
    control: &mut [u64],
    words: &mut [u64],
    reals: &mut [f32],
    texts: &mut [u8],
    records: &[u64],
    points: &[f32],
    lent: &[u8],
    clock: u64,
    out: &mut [u8],
) -> ReadAnswer
    ensures { HandsOver control words reals texts out (map (entry_of lent.now) (records_in records.now points.now)) clock result }
{
    let mut sofar = reads::begin(control, words, reals, texts);
    if sofar.refusal.is_some() {
        return sofar;
    }
    let mut session = LentSession {
        control,
        words,
        reals,
    };
    for i in 0..record_count(records, points) {
        let one = record::record_at(records, points, i);
        sofar = reads::record_on(&mut session, texts, one, lent, clock, out, sofar);
        if sofar.refusal.is_some() {
            return sofar;
        }
    }
    sofar
}
