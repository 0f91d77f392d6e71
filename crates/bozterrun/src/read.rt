// A whole read: many of a client's requests in one call.
ghost use Rattle.std.specs.Prelude.{◌≡◌, true, false};
ghost use Rattle.bozterrun.specs.Reply.{of_requests, ReadsIn, ToldRead, Unread};
ghost use Rattle.answer_numbers.specs.Numbers.{bad_argument};

use crate::told;
use answer_numbers::BAD_ARGUMENT;

// Each record is eight words and two reals. Refusal 2 tells the interface and the version.
#[unsafe(no_mangle)]
pub extern "C" fn bozterrun_handle_requests(
    control: &mut [u64],
    words: &mut [u64],
    reals: &mut [f32],
    texts: &mut [u8],
    records: &[u64],
    points: &[f32],
    lent: &[u8],
    clock: u64,
    out: &mut [u8],
    accepted: &mut usize,
    count: &mut usize,
    refused_interface: &mut u32,
    refused_version: &mut u32,
) -> u32
    ensures told_read { of_requests records points ≡ true → ToldRead (ReadsIn control words reals texts records points lent clock out) result accepted count refused_interface refused_version }
    ensures value { of_requests records points ≡ false → (result ≡ bad_argument) × Unread control words reals texts out accepted count refused_interface refused_version }
{
    if !lent_read::are_requests(records, points) {
        *accepted = 0;
        *count = 0;
        *refused_interface = 0;
        *refused_version = 0;
        return BAD_ARGUMENT;
    }
    let answer = lent_read::handle_requests(
        control, words, reals, texts, records, points, lent, clock, out,
    );
    *accepted = answer.accepted;
    *count = answer.count;
    let first = answer_numbers::first_outcome(answer.refusal);
    told::detailed(first, refused_interface, refused_version)
}
