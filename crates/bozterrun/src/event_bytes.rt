// Event records written as the protocol's messages, and read back.
ghost use Rattle.std.specs.Prelude.{◌≡◌};
ghost use Rattle.event_messages.specs.Stands.{Stands};
ghost use Rattle.event_messages.specs.declared.MessageError.{MessageError};
ghost use Rattle.bozterrun.specs.Events.{error_number, written_status, written_count, Turns};

use answer_numbers::{MALFORMED, UNSENDABLE};
use answers::Error;
use event_messages::MessageError;

// What was written, as numbers.
fn tell(written: Result<usize, MessageError>, count: &mut usize) -> u32
    ensures status_is { result ≡ written_status written }
    ensures count_is { count.new ≡ written_count written }
{
    match written {
        Ok(bytes) => {
            *count = bytes;
            0
        }
        Err(error) => {
            *count = 0;
            error_number(error)
        }
    }
}

fn error_number(error: MessageError) -> u32
    ensures { result ≡ error_number error }
{
    match error {
        MessageError::Unsendable => UNSENDABLE,
        MessageError::Malformed => MALFORMED,
        MessageError::ShortOut => Error::ShortOut.number(),
    }
}

// A record written as a message to an object of the interface, 0 for the handshake's.
#[unsafe(no_mangle)]
pub extern "C" fn bozterrun_write_message(
    interface: u32,
    bytes: &[u8],
    out: &mut [u8],
    count: &mut usize,
) -> u32
    ensures { Turns (Stands interface bytes.now) MessageError.Unsendable out count result }
{
    let written = message_writer::write_message(interface, bytes, out);
    tell(written, count)
}

// Such a message read back as the record.
#[unsafe(no_mangle)]
pub extern "C" fn bozterrun_read_message(
    interface: u32,
    message: &[u8],
    out: &mut [u8],
    count: &mut usize,
) -> u32
    ensures { Turns (λ bytes. Stands interface bytes message.now) MessageError.Malformed out count result }
{
    let written = message_reader::read_message(interface, message, out);
    tell(written, count)
}
