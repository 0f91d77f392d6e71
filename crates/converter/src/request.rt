// `EisRequestConverter` of src/request.rs: what a client sends, gathered into timed frames, and handed over one by one.
// A session lies in four lent slices; `session` says what they mean.
// The slices are lent one by one, as C and a station have them, of any length: 21 is the answer where they hold no session.
ghost use Rattle.std.specs.Prelude.{ℕ};
ghost use Rattle.session.specs.View.{Whole};
ghost use Rattle.session.specs.Loan.{SameLoan, store_of};
ghost use Rattle.answers.specs.Promise.{PromiseAt, Handles};
ghost use Rattle.handlers.specs.Call.{interface_call, call_of};
ghost use Rattle.converter.specs.Next.{Begins, next_of, Delivers};

use answers::{Answer, Error};
use control::CONTROL_LENGTH;
use handshake::handshake::EisHandshakeResp;
use requests::cell::Cell;
use requests::eis::{InterfaceRequest, Request};
use requests::request::EisRequest;
use requests::row;
use session::LentSession;

// A client's request on the object of this id and version, at this clock. The text is that of a request that carries one. In place, so that
// a request is one call, of `handle_on`.
#[inline(always)]
pub fn handle_request(
    control: &mut [u64],
    words: &mut [u64],
    reals: &mut [f32],
    texts: &mut [u8],
    object: u64,
    version: u32,
    request: Request,
    text: &[u8],
    clock: u64,
    out: &mut [u8],
) -> Result<Answer, Error>
    ensures { PromiseAt control words reals texts out (call_of request object version text.now) clock result }
{
    answers::check_whole(control, words, reals, texts)?;
    let mut session = LentSession {
        control,
        words,
        reals,
    };
    handle_on(
        &mut session,
        texts,
        object,
        version,
        request,
        text,
        clock,
        out,
    )
}

// The same behind 21's test, for a caller that has made it.
pub fn handle_on(
    session: &mut LentSession<'_, '_, '_>,
    texts: &mut [u8],
    object: u64,
    version: u32,
    request: Request,
    text: &[u8],
    clock: u64,
    out: &mut [u8],
) -> Result<Answer, Error>
    requires { Whole (store_of session.old texts.old) }
    ensures step { Handles session texts out (call_of request object version text.now) clock result }
    ensures loan { SameLoan session.old session.new }
{
    match request {
        Request::Handshake(r) => handlers::handle_handshake_request(r, text),
        Request::Connection(r) => handlers::handle_connection_request(session, r, out),
        Request::PingpongDone => Ok(Answer::accepted()),
        Request::Seat(r) => handlers::handle_seat_request(session, object, r, out),
        Request::Device(r) => handlers::handle_device_request(session, object, r, clock),
        Request::Interface(r) => handle_interface_request(
            session, texts, object, version, r, text, out,
        ),
    }
}

// A request on an interface of a device.
fn handle_interface_request(
    session: &mut LentSession<'_, '_, '_>,
    texts: &mut [u8],
    interface: u64,
    version: u32,
    request: InterfaceRequest,
    text: &[u8],
    out: &mut [u8],
) -> Result<Answer, Error>
    requires { Whole (store_of session.old texts.old) }
    ensures step { (clock : ℕ) → Handles session texts out (interface_call request interface version text.now) clock result }
    ensures loan { SameLoan session.old session.new }
{
    match request {
        InterfaceRequest::Pointer(r) => handlers::handle_pointer_request(
            session, interface, r, out,
        ),
        InterfaceRequest::PointerAbsolute(r) => handlers::handle_pointer_absolute_request(
            session, interface, r, out,
        ),
        InterfaceRequest::Scroll(r) => handlers::handle_scroll_request(session, interface, r, out),
        InterfaceRequest::Button(r) => handlers::handle_button_request(session, interface, r, out),
        InterfaceRequest::Keyboard(r) => handlers::handle_keyboard_request(
            session, interface, r, out,
        ),
        InterfaceRequest::Touchscreen(r) => handlers::handle_touchscreen_request(
            session, interface, version, r, out,
        ),
        InterfaceRequest::Text(r) => handlers::handle_text_request(
            session, texts, interface, r, text, out,
        ),
    }
}

// A session as a Finish that succeeds leaves it: no seats, no devices, nothing queued. What is in the other slices does not count, so
// that it is begun in the control words alone.
pub fn new(control: &mut [u64], response: EisHandshakeResp) -> Result<Answer, Error>
    ensures { Begins control.old control.new response result }
{
    if control.len() != CONTROL_LENGTH {
        return Err(Error::BadState);
    }
    control::edits::new(control, response.connection, response.serial, response.next);
    for (place, version) in response.interfaces.iter().enumerate() {
        if let Some(version) = *version {
            control::edits::set_version(control, place, version);
        }
    }
    Ok(Answer::accepted())
}

// The oldest queued request as its row has it, taken out of the queue, or none where none is queued. A text goes to the buffer: so many bytes as
// the request says. It is given as numbers: a caller that reads them needs no way through the enum.
pub fn next_cell(
    control: &mut [u64],
    words: &[u64],
    reals: &[f32],
    texts: &[u8],
    buffer: &mut [u8],
) -> Result<Option<Cell>, Error>
    ensures { Delivers control words reals texts buffer (next_of result) }
{
    answers::check_whole(control, words, reals, texts)?;
    if control::queue_length(control) == 0 {
        return Ok(None);
    }
    let oldest = queue::oldest(control, words, reals);
    let request = row::decode(oldest);
    let n = request.text_length() as usize;
    if buffer.len() < n {
        return Err(Error::ShortOut);
    }
    texts::copy_text(texts, row::slot_of(oldest), n, buffer);
    queue::pop(control);
    Ok(Some(oldest))
}

// The oldest queued request, taken out of the queue.
pub fn next_request(
    control: &mut [u64],
    words: &[u64],
    reals: &[f32],
    texts: &[u8],
    buffer: &mut [u8],
) -> Result<Option<EisRequest>, Error>
    ensures { Delivers control words reals texts buffer result }
{
    let Some(oldest) = next_cell(control, words, reals, texts, buffer)? else {
        return Ok(None);
    };
    Ok(Some(row::decode(oldest)))
}
