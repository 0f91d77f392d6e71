// A line's bytes turned into what is asked for, lent so much of a buffer as the script says.
ghost use Rattle.script_events.specs.Lent.{TurnsIn};

use event_messages::MessageError;
use script_asked::Event;

// Needs no session and no handshake, and changes nothing but the buffer.
pub fn turn(event: Event, bytes: &[u8], said: u64, out: &mut [u8]) -> Result<usize, MessageError>
    ensures { TurnsIn event bytes.now said out result }
{
    // The cut is this line. A function that is handed the call as a closure would have it too, and the match would stand in the closure.
    let n = script_session::room(said, out.len());
    match event {
        Event::Write { interface } => {
            message_writer::write_message(interface, bytes, &mut out[..n])
        }
        Event::Read { interface } => message_reader::read_message(interface, bytes, &mut out[..n]),
    }
}
