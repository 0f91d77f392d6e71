// What a trail has of an event's message, and of its record.
ghost use Rattle.std.specs.Prelude.{[], ◌≡◌, cond, take};
ghost use Rattle.script_pattern.specs.Put.{Puts, Writes};
ghost use Rattle.script_events.specs.Shown.{refused, event_pattern, event_shown, event_count, event_words, event_line};

use answer_numbers::{MALFORMED, UNSENDABLE};
use answers::Error;
use event_messages::MessageError;
use script_asked::Event;
use script_pattern::line::Line;
use script_pattern::table;
use script_pattern::table::Shown;

fn refused(e: MessageError, explained: bool) -> Shown
    ensures { result ≡ refused explained e }
{
    match e {
        MessageError::Unsendable => script_show::refusal(UNSENDABLE, explained),
        MessageError::Malformed => script_show::refusal(MALFORMED, explained),
        MessageError::ShortOut => script_show::refusal(Error::ShortOut.number(), explained),
    }
}

fn event_pattern(event: Event) -> usize
    ensures { result ≡ event_pattern event }
{
    match event {
        Event::Write { .. } => table::EVENT,
        Event::Read { .. } => table::EVENT + 1,
    }
}

fn event_shown(event: Event, r: Result<usize, MessageError>, explained: bool) -> Shown
    ensures { result ≡ event_shown explained event r }
{
    match r {
        Ok(_) => table::single(event_pattern(event), 0),
        Err(e) => refused(e, explained),
    }
}

fn event_count(r: Result<usize, MessageError>) -> usize
    ensures { result ≡ event_count r }
{
    r.unwrap_or(0)
}

// Explained, the words of a record whose bytes begin `out`; a message has none.
fn event_words(line: &mut Line, event: Event, count: usize, out: &[u8], explained: bool)
    ensures { Writes line.old line.new (cond explained (event_words event (take count out.now)) []) }
{
    match event {
        Event::Read { .. } if explained => script_show::in_words(line, count, out),
        _ => {}
    }
}

// What a line is answered. The bytes that were written begin `out`.
pub fn event_answer(
    line: &mut [u8],
    event: Event,
    r: Result<usize, MessageError>,
    out: &[u8],
    explained: bool,
) -> usize
    ensures { Puts line 0 result (event_line event r out.now explained) }
{
    let count = event_count(r);
    let mut line = Line::new(line);
    script_show::ended_first(&mut line, event_shown(event, r, explained), count, out);
    event_words(&mut line, event, count, out, explained);
    line.at
}
