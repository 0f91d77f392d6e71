// A line of a call script before the session: a request of the handshake, at whose end the session begins.
#![tactic(auto)]

ghost use Rattle.std.specs.Prelude.{◌≡◌};
ghost use Rattle.handshake.specs.View.{is_finished};
ghost use Rattle.script_handshake.specs.Shaken.{context_type, handshake_message, message_of, StartsIn, HandledIn, Opens};

use eiproto::eiproto_enum::ContextType;
use handshake::handshake::{EisHandshaker, HandshakeAnswer, HandshakeMessage};
use requests::eis::{HandshakeRequest, Request};

fn handshake_message(request: HandshakeRequest) -> HandshakeMessage
    ensures { result ≡ handshake_message request }
{
    match request {
        HandshakeRequest::HandshakeVersion { version } => HandshakeMessage::HandshakeVersion {
            version,
        },
        HandshakeRequest::Finish => HandshakeMessage::Finish,
        HandshakeRequest::ContextType { context_type } => HandshakeMessage::ContextType {
            // A line that has another number there is no call.
            context: ContextType::try_from(context_type).unwrap_or(ContextType::Receiver),
        },
        HandshakeRequest::Name => HandshakeMessage::Name,
        HandshakeRequest::InterfaceVersion { version } => HandshakeMessage::InterfaceVersion {
            version,
        },
    }
}

// What a client's request is to the handshake.
pub fn message_of(request: Request) -> HandshakeMessage
    ensures { result ≡ message_of request }
{
    match request {
        Request::Handshake(r) => handshake_message(r),
        _ => HandshakeMessage::Other,
    }
}

pub fn is_finished(a: HandshakeAnswer) -> bool
    ensures { result ≡ is_finished a.outcome }
{
    matches!(a.outcome, Ok(Some(_)))
}

// A fresh handshake, lent so much of `out` as the script says.
pub fn start(serial: u32, said: u64, out: &mut [u8]) -> HandshakeAnswer
    ensures { StartsIn serial said out result }
{
    let n = script_session::room(said, out.len());
    EisHandshaker::new(serial, &mut out[..n])
}

// A request of the handshake.
pub fn take(
    h: EisHandshaker,
    request: HandshakeMessage,
    text: &[u8],
    said: u64,
    out: &mut [u8],
) -> HandshakeAnswer
    ensures { HandledIn h request text said out result }
{
    let n = script_session::room(said, out.len());
    h.handle_request(request, text, &mut out[..n])
}

// The session begins where the handshake ends.
pub fn open(control: &mut [u64], a: HandshakeAnswer)
    ensures { Opens control.old control.new a }
{
    if let Ok(Some(response)) = a.outcome {
        let _ = converter::request::new(control, response);
    }
}
