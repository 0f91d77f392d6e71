// A line of a call script on a running session, carried out in the session's four slices: each call is lent so much of a buffer as the script says.
// They stay four slices of any length, as the calls take them: a struct of arrays would ask more, and one of slices has a lifetime and a ghost name
// for each.
#![tactic(auto)]

ghost use Rattle.std.specs.Prelude.{◌≡◌, min};
ghost use Rattle.handlers.specs.Call.{call_of};
ghost use Rattle.script_session.specs.Lent.{PromiseIn, StationIn, DeliversIn};

use answers::{Answer, Error};
use requests::eis::Request;
use requests::request::EisRequest;
use script_asked::Station;

// The length of a buffer that a call is lent: what the script says, within what the program has. No call writes so much. Each caller cuts its buffer
// itself: of a function that returns `&mut out[..n]` the proof did not close.
pub fn room(said: u64, most: usize) -> usize
    ensures { result ≡ min said most }
{
    if said < most as u64 {
        said as usize
    } else {
        most
    }
}

// A client's request on the object of this id and version, at this clock.
pub fn handle(
    control: &mut [u64],
    words: &mut [u64],
    reals: &mut [f32],
    texts: &mut [u8],
    object: u64,
    version: u32,
    request: Request,
    text: &[u8],
    clock: u64,
    said: u64,
    out: &mut [u8],
) -> Result<Answer, Error>
    ensures { PromiseIn control words reals texts said out (call_of request object version text.now) clock result }
{
    let n = room(said, out.len());
    converter::request::handle_request(
        control,
        words,
        reals,
        texts,
        object,
        version,
        request,
        text,
        clock,
        &mut out[..n],
    )
}

// A call of the station, with the line's text if there is one.
pub fn make(
    control: &mut [u64],
    words: &mut [u64],
    reals: &mut [f32],
    call: Station,
    text: Option<&[u8]>,
    said: u64,
    out: &mut [u8],
) -> Result<Answer, Error>
    ensures { StationIn control words reals said out call text.entry result }
{
    let n = room(said, out.len());
    script_calls::make(control, words, reals, call, text, &mut out[..n])
}

// The next request, whose text begins the buffer.
pub fn next(
    control: &mut [u64],
    words: &[u64],
    reals: &[f32],
    texts: &[u8],
    said: u64,
    buffer: &mut [u8],
) -> Result<Option<EisRequest>, Error>
    ensures { DeliversIn control words reals texts said buffer result }
{
    let n = room(said, buffer.len());
    converter::request::next_request(control, words, reals, texts, &mut buffer[..n])
}
