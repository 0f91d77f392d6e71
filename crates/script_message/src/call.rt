// The first message of a line's bytes, lent so much of a buffer as the script says.
ghost use Rattle.std.specs.Prelude.{◌≡◌};
ghost use Rattle.script_message.specs.Lent.{ReceivesIn, ShakesIn, unhanded};

use answers::Error;
use handshake::handshake::EisHandshaker;
use handshake_messages::HandshakeReceived;
use messages::{Handed, Unhanded};

// On the session, at this clock. The four slices are lent one by one, as messages::pending_request takes them.
// In both functions `room` is the one line of the cut: a function that is handed the call as a closure would have it too.
pub fn receive(
    control: &mut [u64],
    words: &mut [u64],
    reals: &mut [f32],
    texts: &mut [u8],
    message: &[u8],
    clock: u64,
    said: u64,
    out: &mut [u8],
) -> Result<Handed, Unhanded>
    ensures { ReceivesIn control words reals texts said out message.now clock result }
{
    let n = script_session::room(said, out.len());
    messages::pending_request(control, words, reals, texts, message, clock, &mut out[..n])
}

// On the handshake.
pub fn shake(h: EisHandshaker, message: &[u8], said: u64, out: &mut [u8]) -> HandshakeReceived
    ensures { ShakesIn h message.now said out result }
{
    let n = script_session::room(said, out.len());
    handshake_messages::pending_request(h, message, &mut out[..n])
}

// What is told of bytes that were not handed on to the handshake is what a session tells of such.
pub fn unhanded(why: handshake_messages::Unhanded) -> Result<Handed, Unhanded>
    ensures { result ≡ unhanded why }
{
    match why {
        handshake_messages::Unhanded::Wait => Err(Unhanded::Wait),
        handshake_messages::Unhanded::NoObject => Err(Unhanded::NoObject),
        handshake_messages::Unhanded::Malformed(e) => Err(Unhanded::Malformed(e)),
        handshake_messages::Unhanded::InvalidId => Ok(Handed {
            answer: Err(Error::InvalidId),
            taken: 0,
        }),
    }
}
