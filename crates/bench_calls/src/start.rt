// The session that the turns of the benchmark begin with.
ghost use Rattle.std.specs.Prelude.{◌≡◌};
ghost use Rattle.handshake.specs.View.{no_response, response_in};
ghost use Rattle.bench_calls.specs.Begun.{Knows, Leaves, Shaken, Added, Begun};

use converter::request;
use eiproto::eiproto_enum::{ContextType, DeviceType};
use handshake::handshake::{
    EisHandshakeResp, EisHandshaker, HandshakeAnswer, HandshakeError, HandshakeMessage as Shake,
    NAME_LENGTH_LIMIT, Name,
};

// The ids that the calls of `begin` give: the seat, then each device with its interfaces behind it.
pub const SEAT: u64 = 0xff00000000000001;

pub const DEVICE: u64 = 0xff00000000000002;

fn negotiated(h: EisHandshaker, name: &[u8]) -> EisHandshaker
    ensures { Knows h name.now result }
{
    let mut out = [0u8; 16];
    let message = Shake::InterfaceVersion { version: 9 };
    h.handle_request(message, name, &mut out).handshaker
}

// What a session begins from where a Finish settles nothing.
#[tactic(auto, unfolding(handshake::specs::View::no_response, handshake::specs::View::no_name, handshake::specs::View::no_interfaces))]
fn blank() -> EisHandshakeResp
    ensures { result ≡ no_response }
{
    EisHandshakeResp {
        connection: 0,
        name: Name {
            bytes: [0; NAME_LENGTH_LIMIT],
            length: 0,
            given: false,
        },
        context: ContextType::Receiver,
        interfaces: [None; 12],
        serial: 0,
        next: 0,
    }
}

fn response_in(outcome: Result<Option<EisHandshakeResp>, HandshakeError>) -> EisHandshakeResp
    ensures { result ≡ response_in outcome }
{
    match outcome {
        Ok(Some(response)) => response,
        Ok(None) => blank(),
        Err(_) => blank(),
    }
}

// The session begins where the handshake ends.
fn open(control: &mut [u64], finished: HandshakeAnswer)
    ensures { Leaves control.old control.new finished }
{
    let _ = request::new(control, response_in(finished.outcome));
}

// The handshake, in which the interfaces that a session needs are negotiated, and those that the benchmark's devices have.
fn shaken(control: &mut [u64])
    ensures { Shaken control.old control.new }
{
    let mut out = [0u8; 16];
    let mut h = EisHandshaker::new(7, &mut out).handshaker;
    h = negotiated(h, b"ei_connection");
    h = negotiated(h, b"ei_callback");
    h = negotiated(h, b"ei_pingpong");
    h = negotiated(h, b"ei_keyboard");
    h = negotiated(h, b"ei_touchscreen");
    h = negotiated(h, b"ei_text");
    let mut reports = [0u8; 4096];
    let finished = h.handle_request(Shake::Finish, b"", &mut reports);
    open(control, finished);
}

fn add_devices(control: &mut [u64], devices: u64, capabilities: u64, out: &mut [u8])
    ensures { Added capabilities devices control.old control.new }
{
    for _added in 0..devices {
        let _ = seat::add_device(control, SEAT, None, DeviceType::Virtual, capabilities, out);
    }
}

// A session with a seat and so many devices, each with these capabilities.
pub fn begin(control: &mut [u64], devices: u64, capabilities: u64)
    ensures { Begun devices capabilities control.old control.new }
{
    let mut out = [0u8; 4096];
    shaken(control);
    let _ = connection::add_seat(control, None, capabilities, &mut out);
    add_devices(control, devices, capabilities, &mut out);
}
