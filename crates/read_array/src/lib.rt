// A whole read handed over by value: for a caller that gathers its records in an array.
// The slices are lent one by one, as C and a station have them, of any length: 21 is the answer where they hold no session.
#![tactic(auto)]

ghost use Rattle.std.specs.Prelude.{◌≡◌, map, take, min};
ghost use Rattle.reads.specs.Record.{entry_of};
ghost use Rattle.reads.specs.Handed.{HandsOver};

use reads::ReadAnswer;
use reads::record::RequestRecord;

// How many records one call takes.
pub const READ_LIMIT: usize = 32;

// The first n of the records, and all of them where n is beyond.
pub fn handle_array(
    control: &mut [u64],
    words: &mut [u64],
    reals: &mut [f32],
    texts: &mut [u8],
    records: [RequestRecord; READ_LIMIT],
    n: usize,
    lent: &[u8],
    clock: u64,
    out: &mut [u8],
) -> ReadAnswer
    ensures { HandsOver control words reals texts out (map (entry_of lent.now) (take n records)) clock result }
{
    reads::handle_requests(
        control,
        words,
        reals,
        texts,
        &records[..n.min(READ_LIMIT)],
        lent,
        clock,
        out,
    )
}
