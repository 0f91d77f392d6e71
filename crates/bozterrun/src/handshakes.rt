// The calls of a handshake, which lies in two lent slices.
ghost use Rattle.std.specs.Prelude.{ℕ, ◌≡◌};
ghost use Rattle.eiproto.specs.declared.eiproto_enum.ContextType.{ContextType};
ghost use Rattle.handshake.specs.Handshake as paper;
ghost use Rattle.handshake.specs.View.{request_of};
ghost use Rattle.lent_handshake.specs.Lent.{status_of, Starts, Finishes};
ghost use Rattle.bozterrun.specs.Reply.{Kept};
ghost use Rattle.answer_numbers.specs.Numbers.{bad_argument};
ghost use Rattle.bozterrun.specs.Handshake.{Counted, Says, Introduced};
ghost use Rattle.bozterrun.specs.Numbers.{IsContext, NoContext};

use answer_numbers::BAD_ARGUMENT;
use eiproto::eiproto_enum::ContextType;
use handshake::handshake::{EisHandshakeResp, HandshakeError, HandshakeMessage};
use lent_handshake::HandshakeReply;

pub fn status(outcome: Result<Option<EisHandshakeResp>, HandshakeError>) -> u32
    ensures { result ≡ status_of outcome }
{
    match outcome {
        Ok(_) => 0,
        Err(error) => error.number(),
    }
}

// A reply as numbers: the status, and how many bytes of events were written.
fn tell(reply: HandshakeReply, count: &mut usize) -> u32
    ensures status_is { result ≡ status_of reply.outcome }
    ensures count_is { count.new ≡ reply.count }
{
    *count = reply.count;
    status(reply.outcome)
}

#[unsafe(no_mangle)]
pub extern "C" fn bozterrun_handshake_new(
    words: &mut [u64],
    name: &mut [u8],
    serial: u32,
    out: &mut [u8],
    count: &mut usize,
) -> u32
    ensures { Counted (Starts words name out serial) result count }
{
    let reply = lent_handshake::new(words, name, serial, out);
    tell(reply, count)
}

// A message that writes no event.
fn message(words: &mut [u64], name: &mut [u8], sent: HandshakeMessage, text: &[u8]) -> u32
    ensures { Says words name (request_of sent text.now) result }
{
    let mut none = [0u8; 0];
    let reply = lent_handshake::handle_request(words, name, sent, text, &mut none);
    status(reply.outcome)
}

#[unsafe(no_mangle)]
pub extern "C" fn bozterrun_handshake_handshake_version(
    words: &mut [u64],
    name: &mut [u8],
    version: u32,
) -> u32
    ensures { Says words name (paper.Message.HandshakeVersion version) result }
{
    message(
        words,
        name,
        HandshakeMessage::HandshakeVersion { version },
        b"",
    )
}

#[unsafe(no_mangle)]
pub extern "C" fn bozterrun_handshake_name(words: &mut [u64], name: &mut [u8], text: &[u8]) -> u32
    ensures { Says words name (paper.Message.Name text.now) result }
{
    message(words, name, HandshakeMessage::Name, text)
}

#[unsafe(no_mangle)]
pub extern "C" fn bozterrun_handshake_context_type(
    words: &mut [u64],
    name: &mut [u8],
    kind: u32,
) -> u32
    ensures says { (c : ContextType) → IsContext kind c → Says words name (paper.Message.Context c) result }
    ensures by_index { (n : ℕ) → NoContext kind n → (result ≡ bad_argument) × (Kept words × Kept name) }
{
    let Ok(context) = ContextType::try_from(kind) else {
        return BAD_ARGUMENT;
    };
    message(words, name, HandshakeMessage::ContextType { context }, b"")
}

#[unsafe(no_mangle)]
pub extern "C" fn bozterrun_handshake_interface_version(
    words: &mut [u64],
    name: &mut [u8],
    text: &[u8],
    version: u32,
) -> u32
    ensures { Says words name (paper.Message.InterfaceVersion text.now version) result }
{
    message(
        words,
        name,
        HandshakeMessage::InterfaceVersion { version },
        text,
    )
}

// A request of any other interface, with its text.
#[unsafe(no_mangle)]
pub extern "C" fn bozterrun_handshake_other(words: &mut [u64], name: &mut [u8], text: &[u8]) -> u32
    ensures { Says words name (paper.Message.Other text.now) result }
{
    message(words, name, HandshakeMessage::Other, text)
}

// A Finish, and where it succeeds the session that it begins, in the control words.
#[unsafe(no_mangle)]
pub extern "C" fn bozterrun_handshake_finish(
    words: &mut [u64],
    name: &mut [u8],
    control: &mut [u64],
    out: &mut [u8],
    count: &mut usize,
) -> u32
    ensures { Counted (Finishes words name control out) result count }
{
    let reply = lent_handshake::finish(words, name, control, out);
    tell(reply, count)
}

// Who the client says it is.
#[unsafe(no_mangle)]
pub extern "C" fn bozterrun_handshake_client(
    words: &[u64],
    name: &[u8],
    given: &mut u32,
    length: &mut usize,
    context: &mut u32,
) -> u32
    ensures { Introduced words name given length context result }
{
    match lent_handshake::who(words, name) {
        Err(error) => {
            *given = 0;
            *length = 0;
            *context = 0;
            error.number()
        }
        Ok(client) => {
            *given = u32::from(client.given);
            *length = client.length;
            *context = client.context;
            0
        }
    }
}
