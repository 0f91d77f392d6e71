// A line of a script, carried out: before the session by `script_handshake`, on a running one by `script_session`. Over slices of any length, as the
// calls are and as `take` promises (docs/PROMISES.md): a struct of arrays would ask more, and one of slices has a lifetime and a ghost name for each.
ghost use Rattle.std.specs.Prelude.{◌≡◌, ℕ, List};
ghost use Rattle.session.specs.Slices.{before, after, rows_before, rows_after};
ghost use Rattle.session.specs.View.{store};
ghost use Rattle.script_calls.specs.Station.{is_lent, lent_bytes};
ghost use Rattle.script_run.specs.Line.{is_given, text_first, line_text};
ghost use Rattle.script_run.specs.Take.{quiet, no_call, answered, given, begun, shaken, received, told_by, shaken_by, turned, counted, at_clock, with_out, with_buffer, first};
ghost use Rattle.script_run.specs.Take.{Starts, Shakes, ShakesBy, Receives, Turns, Handles, Delivers, Makes, Does, Takes};

use answers::{Answer, Error};
use event_messages::MessageError;
use handshake::handshake::{EisHandshaker, HandshakeAnswer};
use handshake_messages::{HandshakeReceived, Unhanded};
use messages::Handed;
use requests::eis::Request;
use requests::request::EisRequest;
use script::{Args, Line, Text, Value};
use script_asked::{Asked, Event, Station};

// How far a run has come: to no handshake yet, to one, or past it to the session.
#[derive(Clone, Copy, Debug, PartialEq, Eq)]
pub enum Stage {
    Early,
    Shaking,
    Running,
}

// What the lines so far have come to. It holds a handshake's name, whose bytes behind its length say nothing, so that a derived `==` would lie; so do
// `Told` and `Took`.
#[derive(Clone, Copy)]
pub struct Run {
    // The number of the last line.
    pub line: u64,
    // What lines have set: the length of the lent `out`, that of the text buffer of next_request, and the clock.
    pub out: u64,
    pub buffer: u64,
    pub clock: u64,
    pub stage: Stage,
    // What the handshake was answered last, whatever that is before there is one.
    pub shaken: HandshakeAnswer,
    // Whether the trail has ended with an error, at any stage: no value stands beside it.
    pub ended: bool,
}

// Why a line ends the trail.
#[derive(Clone, Copy, Debug, PartialEq, Eq)]
pub enum Why {
    // It is longer than a line may be.
    Long,
    // It is no call.
    NoCall,
    // It stands in a read, and is no request of a client's with parts for texts.
    NoRecord,
    // It begins a read of more records than there is room for.
    Many,
    // The script ends inside a read.
    Within,
    // It comes where no such call can be made: before `start`, or a call on a session before there is one.
    Early,
}

// What there is to tell of a line.
#[derive(Clone, Copy)]
pub enum Told {
    Nothing,
    Error(Why),
    // The handshake's answer, which the run has.
    Shaken,
    Answered(Result<Answer, Error>),
    Given(Result<Option<EisRequest>, Error>),
    // A read begins, of so many records: there is no answer before the last of them.
    Begun(u32),
    // A record of a read that goes on.
    Gathered,
    // What a read is answered: how many of its records were accepted, and how it ended.
    Handed {
        accepted: u64,
        count: usize,
        refusal: Option<Error>,
    },
    // What a client's bytes came to, on the session; before it, where they were not handed on.
    Received(Result<Handed, messages::Unhanded>),
    // The handshake's answer to a message, which the run has, and how many bytes of it were taken.
    ShakenBy(usize),
    // What an event's record or message was turned into.
    Turned {
        event: Event,
        written: Result<usize, MessageError>,
    },
}

#[derive(Clone, Copy)]
pub struct Took {
    pub run: Run,
    pub told: Told,
}

// Before the first line.
pub fn new_run() -> Run
    ensures { result ≡ first result.shaken }
{
    Run {
        line: 0,
        out: 4096,
        buffer: 254,
        clock: 0,
        stage: Stage::Early,
        shaken: EisHandshaker::new(0, &mut []),
        ended: false,
    }
}

pub fn quiet(run: Run) -> Took
    ensures { result ≡ quiet run }
{
    Took {
        run,
        told: Told::Nothing,
    }
}

// The trail ends.
pub fn no_call(run: Run, why: Why) -> Took
    ensures { result ≡ no_call why run }
{
    Took {
        run: Run { ended: true, ..run },
        told: Told::Error(why),
    }
}

fn answered(run: Run, a: Result<Answer, Error>) -> Took
    ensures { result ≡ answered a run }
{
    Took {
        run,
        told: Told::Answered(a),
    }
}

fn given(run: Run, next: Result<Option<EisRequest>, Error>) -> Took
    ensures { result ≡ given next run }
{
    Took {
        run,
        told: Told::Given(next),
    }
}

fn begun(run: Run, count: u32) -> Took
    ensures { result ≡ begun count run }
{
    Took {
        run,
        told: Told::Begun(count),
    }
}

// The run after a call of the handshake.
fn shaken(run: Run, a: HandshakeAnswer) -> Took
    ensures { result ≡ shaken a run }
{
    let stage = if script_handshake::is_finished(a) {
        Stage::Running
    } else {
        Stage::Shaking
    };
    Took {
        run: Run {
            stage,
            shaken: a,
            ..run
        },
        told: Told::Shaken,
    }
}

fn received(run: Run, r: Result<Handed, messages::Unhanded>) -> Took
    ensures { result ≡ received r run }
{
    Took {
        run,
        told: Told::Received(r),
    }
}

fn told_by(told: Result<(), Unhanded>, taken: usize) -> Told
    ensures { result ≡ told_by told taken }
{
    match told {
        Ok(()) => Told::ShakenBy(taken),
        Err(why) => Told::Received(script_message::unhanded(why)),
    }
}

// The run after a message on the handshake, whose answer is that of one that changes nothing where the bytes were not handed on.
fn shaken_by(run: Run, r: HandshakeReceived) -> Took
    ensures { result ≡ shaken_by r run }
{
    Took {
        told: told_by(r.told, r.taken),
        ..shaken(run, r.answer)
    }
}

fn turned(run: Run, event: Event, written: Result<usize, MessageError>) -> Took
    ensures { result ≡ turned event written run }
{
    Took {
        run,
        told: Told::Turned { event, written },
    }
}

// One more line.
pub fn counted(run: Run) -> Run
    ensures { result ≡ counted run }
{
    Run {
        line: run.line.wrapping_add(1),
        ..run
    }
}

fn at_clock(run: Run, n: u64) -> Took
    ensures { result ≡ quiet (at_clock n run) }
{
    quiet(Run { clock: n, ..run })
}

fn with_out(run: Run, n: u64) -> Took
    ensures { result ≡ quiet (with_out n run) }
{
    quiet(Run { out: n, ..run })
}

fn with_buffer(run: Run, n: u64) -> Took
    ensures { result ≡ quiet (with_buffer n run) }
{
    quiet(Run { buffer: n, ..run })
}

// A fresh handshake. What there was before is left, but for the settings.
fn start(run: Run, serial: u32, out: &mut [u8]) -> Took
    ensures { Starts run serial out.old out.new result }
{
    shaken(run, script_handshake::start(serial, run.out, out))
}

// A client's request before the session, which begins where the handshake ends.
fn shake(run: Run, control: &mut [u64], request: Request, text: &[u8], out: &mut [u8]) -> Took
    ensures { Shakes run request text.now control.old control.new out.old out.new result }
{
    let message = script_handshake::message_of(request);
    let a = script_handshake::take(run.shaken.handshaker, message, text, run.out, out);
    script_handshake::open(control, a);
    shaken(run, a)
}

// A client's bytes before the session.
fn shake_by(run: Run, control: &mut [u64], message: &[u8], out: &mut [u8]) -> Took
    ensures { ShakesBy run message.now control.old control.new out.old out.new result }
{
    let r = script_message::shake(run.shaken.handshaker, message, run.out, out);
    script_handshake::open(control, r.answer);
    shaken_by(run, r)
}

// A client's bytes on the session.
fn receive(
    run: Run,
    control: &mut [u64],
    words: &mut [u64],
    reals: &mut [f32],
    texts: &mut [u8],
    message: &[u8],
    out: &mut [u8],
) -> Took
    ensures { Receives run message.now (before control words reals texts) (after control words reals texts) out.old out.new result }
{
    let r = script_message::receive(
        control, words, reals, texts, message, run.clock, run.out, out,
    );
    received(run, r)
}

// An event's record or message, whether or not there is a session.
fn turn(run: Run, event: Event, bytes: &[u8], out: &mut [u8]) -> Took
    ensures { Turns run event bytes.now out.old out.new result }
{
    let written = script_events::turn(event, bytes, run.out, out);
    turned(run, event, written)
}

// A client's request on the session.
fn handle(
    run: Run,
    control: &mut [u64],
    words: &mut [u64],
    reals: &mut [f32],
    texts: &mut [u8],
    object: u64,
    version: u32,
    request: Request,
    text: &[u8],
    out: &mut [u8],
) -> Took
    ensures { Handles run object version request text.now (before control words reals texts) (after control words reals texts) out.old out.new result }
{
    let a = script_session::handle(
        control, words, reals, texts, object, version, request, text, run.clock, run.out, out,
    );
    answered(run, a)
}

fn deliver(
    run: Run,
    control: &mut [u64],
    words: &[u64],
    reals: &[f32],
    texts: &[u8],
    out: &mut [u8],
) -> Took
    ensures { Delivers run (store control.old words.now reals.now texts.now) (store control.new words.now reals.now texts.now) out.old out.new result }
{
    let next = script_session::next(control, words, reals, texts, run.buffer, out);
    given(run, next)
}

fn make(
    run: Run,
    control: &mut [u64],
    words: &mut [u64],
    reals: &mut [f32],
    call: Station,
    text: Option<&[u8]>,
    out: &mut [u8],
) -> Took
    ensures { (t : List ℕ) → Makes run call (is_lent text.entry) (lent_bytes text.entry) (rows_before control words reals t) (rows_after control words reals t) out.old out.new result }
{
    let a = script_session::make(control, words, reals, call, text, run.out, out);
    answered(run, a)
}

// What a line asks for, with its text if it has one.
fn carry_out(
    run: Run,
    control: &mut [u64],
    words: &mut [u64],
    reals: &mut [f32],
    texts: &mut [u8],
    asked: Asked,
    text: Option<&[u8]>,
    out: &mut [u8],
) -> Took
    ensures { Does run asked (is_lent text.entry) (lent_bytes text.entry) (before control words reals texts) (after control words reals texts) out.old out.new result }
{
    let bytes = script_calls::or_empty(text);
    match asked {
        Asked::Now(n) => at_clock(run, n),
        Asked::Out(n) => with_out(run, n),
        Asked::Buffer(n) => with_buffer(run, n),
        Asked::Start(serial) => start(run, serial, out),
        Asked::Client {
            object,
            version,
            request,
        } => match run.stage {
            Stage::Running => handle(
                run, control, words, reals, texts, object, version, request, bytes, out,
            ),
            Stage::Shaking => shake(run, control, request, bytes, out),
            Stage::Early => no_call(run, Why::Early),
        },
        Asked::NextRequest => match run.stage {
            Stage::Running => deliver(run, control, words, reals, texts, out),
            _ => no_call(run, Why::Early),
        },
        Asked::Station(call) => match run.stage {
            Stage::Running => make(run, control, words, reals, call, text, out),
            _ => no_call(run, Why::Early),
        },
        Asked::Read(count) => match run.stage {
            Stage::Running => begun(run, count),
            _ => no_call(run, Why::Early),
        },
        Asked::Message => match run.stage {
            Stage::Running => receive(run, control, words, reals, texts, bytes, out),
            Stage::Shaking => shake_by(run, control, bytes, out),
            Stage::Early => no_call(run, Why::Early),
        },
        Asked::Event(event) => turn(run, event, bytes, out),
    }
}

// The text of a line stands first or second.
fn is_given(args: Args) -> bool
    ensures { result ≡ is_given args }
{
    matches!(args.a, Value::Text(_)) || matches!(args.b, Value::Text(_))
}

pub fn text_of(args: Args) -> Text
    ensures { result ≡ text_first args }
{
    match args.a {
        Value::Text(text) => text,
        _ => script::text_of(args.b),
    }
}

// A text is at most half as long as its line.
fn call(
    run: Run,
    control: &mut [u64],
    words: &mut [u64],
    reals: &mut [f32],
    texts: &mut [u8],
    line: &[u8],
    asked: Asked,
    args: Args,
    out: &mut [u8],
) -> Took
    ensures { Does run asked (is_given args) (line_text line.now args) (before control words reals texts) (after control words reals texts) out.old out.new result }
{
    let mut buf = [0u8; 32768];
    let n = script::text_into(line, text_of(args), &mut buf);
    let text = is_given(args).then_some(&buf[..n]);
    carry_out(run, control, words, reals, texts, asked, text, out)
}

// A line; one whose first bytes are gone (`cut`) is no call. Behind the end of the trail nothing is done.
pub fn take(
    run: Run,
    control: &mut [u64],
    words: &mut [u64],
    reals: &mut [f32],
    texts: &mut [u8],
    line: &[u8],
    cut: bool,
    out: &mut [u8],
) -> Took
    ensures { Takes run cut line.now (before control words reals texts) (after control words reals texts) out.old out.new result }
{
    if run.ended {
        return quiet(run);
    }
    let here = counted(run);
    if cut {
        return no_call(here, Why::Long);
    }
    match script::parse(line, false) {
        Line::Blank => quiet(here),
        Line::Setting { verb, args } => call(
            here,
            control,
            words,
            reals,
            texts,
            line,
            script_asked::of_line(verb, args),
            args,
            out,
        ),
        Line::Call { verb, args } => call(
            here,
            control,
            words,
            reals,
            texts,
            line,
            script_asked::of_line(verb, args),
            args,
            out,
        ),
        Line::NoCall => no_call(here, Why::NoCall),
    }
}
