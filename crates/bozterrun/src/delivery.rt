// The next request for the station.
ghost use Rattle.bozterrun.specs.Delivery.{Tells};

use answer_numbers::NONE;
use converter::request;

// How many numbers and coordinates a request has.
const NUMBERS: usize = 5;

const COORDINATES: usize = 2;

// The oldest queued request, taken out of the queue: its numbers, its coordinates, and its text in the buffer.
#[unsafe(no_mangle)]
pub extern "C" fn bozterrun_next_request(
    control: &mut [u64],
    words: &[u64],
    reals: &[f32],
    texts: &[u8],
    numbers: &mut [u64; NUMBERS],
    coordinates: &mut [f32; COORDINATES],
    buffer: &mut [u8],
) -> u32
    ensures { Tells control words reals texts buffer numbers coordinates result }
{
    match request::next_cell(control, words, reals, texts, buffer) {
        Ok(Some(given)) => {
            *numbers = [
                given.kind,
                given.object,
                given.time,
                given.extra,
                given.flag,
            ];
            *coordinates = [given.x, given.y];
            0
        }
        Ok(None) => NONE,
        Err(error) => error.number(),
    }
}
