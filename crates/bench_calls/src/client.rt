// What a client sends in the turns of the benchmark, and what it sent, taken. Over slices, and no struct of arrays, since `Sends` and
// `Asked` hold of slices of any length.
ghost use Rattle.std.specs.Prelude.{◌≡◌, ◌%◌, [], ◌∷◌, length};
ghost use Rattle.session.specs.View.{store};
ghost use Rattle.handlers.specs.Call.{call_of};
ghost use Rattle.bench_calls.specs.Sent as said;
ghost use Rattle.bench_calls.specs.Sent.{Sends, Asked, given_by};

use crate::start::DEVICE;
use answers::Error;
use converter::request;
use eiproto::eiproto_enum::KeyState;
use requests::eis::{
    DeviceRequest, InterfaceRequest, KeyboardRequest, Request, TouchscreenRequest,
};
use requests::request::EisRequest;

pub fn with_text(
    control: &mut [u64],
    words: &mut [u64],
    reals: &mut [f32],
    texts: &mut [u8],
    object: u64,
    r: Request,
    text: &[u8],
)
    ensures { Sends control words reals texts (call_of r object 2 text.now ∷ []) }
{
    let mut out = [0u8; 16];
    let _ = request::handle_request(
        control, words, reals, texts, object, 2, r, text, 5, &mut out,
    );
}

pub fn without_text(
    control: &mut [u64],
    words: &mut [u64],
    reals: &mut [f32],
    texts: &mut [u8],
    object: u64,
    r: Request,
)
    ensures { Sends control words reals texts (call_of r object 2 [] ∷ []) }
{
    with_text(control, words, reals, texts, object, r, b"");
}

fn key(code: u32, state: KeyState) -> Request
    ensures { result ≡ Request.Interface (InterfaceRequest.Keyboard (KeyboardRequest.Key code state)) }
{
    Request::Interface(InterfaceRequest::Keyboard(KeyboardRequest::Key { key: code, state }))
}

fn down(touchid: u32, x: f32, y: f32) -> Request
    ensures { result ≡ Request.Interface (InterfaceRequest.Touchscreen (TouchscreenRequest.Down touchid x y)) }
{
    Request::Interface(InterfaceRequest::Touchscreen(TouchscreenRequest::Down { touchid, x, y }))
}

fn motion(touchid: u32, x: f32, y: f32) -> Request
    ensures { result ≡ Request.Interface (InterfaceRequest.Touchscreen (TouchscreenRequest.Motion touchid x y)) }
{
    Request::Interface(InterfaceRequest::Touchscreen(TouchscreenRequest::Motion { touchid, x, y }))
}

fn up(touchid: u32) -> Request
    ensures { result ≡ Request.Interface (InterfaceRequest.Touchscreen (TouchscreenRequest.Up touchid)) }
{
    Request::Interface(InterfaceRequest::Touchscreen(TouchscreenRequest::Up { touchid }))
}

pub fn frame(timestamp: u64) -> Request
    ensures { result ≡ Request.Device (DeviceRequest.Frame 7 timestamp) }
{
    Request::Device(DeviceRequest::Frame {
        last_serial: 7,
        timestamp,
    })
}

// A press and a release.
pub fn keys(
    control: &mut [u64],
    words: &mut [u64],
    reals: &mut [f32],
    texts: &mut [u8],
    keyboard: u64,
    i: u64,
)
    ensures { Sends control words reals texts (said.keys keyboard (i % 256)) }
{
    let code = (i % 256) as u32;
    without_text(
        control,
        words,
        reals,
        texts,
        keyboard,
        key(code, KeyState::Press),
    );
    without_text(
        control,
        words,
        reals,
        texts,
        keyboard,
        key(code, KeyState::Released),
    );
}

// A touch that moves.
pub fn stroke(control: &mut [u64], words: &mut [u64], reals: &mut [f32], texts: &mut [u8], i: u64)
    ensures { Sends control words reals texts (said.stroke i) }
{
    let touchid = (i % 4294967296) as u32;
    // Of 16 bits, which an f32 holds exactly.
    let x = (i % 65536) as u16 as f32;
    let y: f32 = 2.0;
    without_text(
        control,
        words,
        reals,
        texts,
        DEVICE + 1,
        down(touchid, x, y),
    );
    without_text(
        control,
        words,
        reals,
        texts,
        DEVICE + 1,
        motion(touchid, x, y),
    );
    without_text(control, words, reals, texts, DEVICE + 1, up(touchid));
}

pub fn many_keys(
    control: &mut [u64],
    words: &mut [u64],
    reals: &mut [f32],
    texts: &mut [u8],
    n: u32,
)
    ensures { Sends control words reals texts (said.presses n) }
{
    for code in 0..n {
        without_text(
            control,
            words,
            reals,
            texts,
            DEVICE + 1,
            key(code, KeyState::Press),
        );
    }
}

fn next_in(
    control: &mut [u64],
    words: &[u64],
    reals: &[f32],
    texts: &[u8],
    most: u64,
    buffer: &mut [u8],
) -> u64
    ensures { Asked (length buffer.old) most (store control.old words.now reals.now texts.now) (store control.new words.now reals.now texts.now) result }
{
    let mut given: u64 = 0;
    for _asked in 0..most {
        let answer = request::next_request(control, words, reals, texts, buffer);
        given = given.wrapping_add(count(answer));
    }
    given
}

fn count(answer: Result<Option<EisRequest>, Error>) -> u64
    ensures { result ≡ given_by answer }
{
    match answer {
        Ok(Some(_)) => 1,
        Ok(None) | Err(_) => 0,
    }
}

// Takes the queued requests, at most so many; how many there were.
pub fn next(control: &mut [u64], words: &[u64], reals: &[f32], texts: &[u8], most: u64) -> u64
    ensures { Asked 254 most (store control.old words.now reals.now texts.now) (store control.new words.now reals.now texts.now) result }
{
    let mut buffer = [0u8; 254];
    next_in(control, words, reals, texts, most, &mut buffer)
}
