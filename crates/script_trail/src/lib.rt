// What a trail has of a line: the bytes, made in a lent line. No `String`: the library allocates nothing, and what is promised is as much of the line
// as has room (`answer-fits` of script_show/proofs/Fits).
#![tactic(auto)]

ghost use Rattle.script_pattern.specs.Put.{Puts};
ghost use Rattle.script_trail.specs.Trail.{trail_of};

use script_run::{Told, Took};

// Puts the line's part of the trail at the start of `shown`, as much as has room, and answers how many bytes that is.
pub fn written(took: Took, out: &[u8], explained: bool, shown: &mut [u8]) -> usize
    ensures { Puts shown 0 result (trail_of took out.now explained) }
{
    match took.told {
        Told::Nothing => 0,
        Told::Error(_) => script_show::error_line(shown, took.run.line),
        Told::Shaken => script_show::handshake_answer(shown, took.run.shaken, out, explained),
        Told::Answered(a) => script_show::answer(shown, a, out, explained),
        Told::Given(next) => script_show::next(shown, next, out, explained),
        Told::Begun(_) => 0,
        Told::Gathered => 0,
        Told::Handed {
            accepted,
            count,
            refusal,
        } => script_show::read_answer(shown, accepted, count, refusal, out, explained),
        Told::Received(r) => script_message::message_answer(shown, r, out, explained),
        Told::ShakenBy(taken) => script_message::handshake_message_answer(
            shown,
            took.run.shaken,
            taken,
            out,
            explained,
        ),
        Told::Turned { event, written } => script_events::event_answer(
            shown, event, written, out, explained,
        ),
    }
}
