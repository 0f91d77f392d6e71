// The table of patterns, and what a pattern shows with its values.
ghost use Rattle.std.specs.Prelude.{◌≡◌, get_or, map};
ghost use Rattle.eiproto.specs.Interface.{ascii};
ghost use Rattle.script_pattern.specs.Put.{Writes};
ghost use Rattle.script_pattern.specs.Pattern.{shown, values, bytes_of};
ghost use Rattle.script_pattern.specs.Pattern as spec;

use crate::line::Line;
use crate::mark;

// A pattern's number, and the values for its marks in their order.
#[derive(Clone, Copy, Debug, PartialEq, Eq)]
pub struct Shown {
    pub pattern: usize,
    pub a: u64,
    pub b: u64,
    pub c: u64,
    pub d: u64,
    pub e: u64,
}

// Where a group of patterns begins. They stay numbers (no plainer as an enum): the pattern of a refusal or a record is its own number behind these.
pub const OUTCOME: usize = 23;

pub const REFUSAL: usize = 30;

pub const RECORD: usize = 57;

pub const LINE: usize = 76;

pub const READ: usize = 79;

pub const MESSAGE: usize = 80;

pub const MALFORMED: usize = 82;

pub const EVENT: usize = 96;

// The patterns, group by group.
static PATTERNS: [&[u8]; 98] = [
    // Delivered requests.
    b"Disconnect",
    b"Bind seat=# capabilities=$",
    b"DeviceClosed device=#",
    b"RequestDevice seat=# capabilities=$",
    b"Frame device=# last_serial=$ time=$",
    b"Ready device=#",
    b"DeviceStartEmulating device=# last_serial=$ sequence=$",
    b"DeviceStopEmulating device=# last_serial=$",
    b"PointerMotion device=# time=$ dx=~ dy=~",
    b"PointerMotionAbsolute device=# time=$ dx_absolute=~ dy_absolute=~",
    b"Button device=# time=$ button=$ state=$",
    b"ScrollDelta device=# time=$ dx=~ dy=~",
    b"ScrollStop device=# time=$ x=? y=?",
    b"ScrollCancel device=# time=$ x=? y=?",
    b"ScrollDiscrete device=# time=$ discrete_dx=+ discrete_dy=+",
    b"KeyboardKey device=# time=$ key=$ state=$",
    b"TouchDown device=# time=$ touch_id=$ x=~ y=~",
    b"TouchUp device=# time=$ touch_id=$",
    b"TouchMotion device=# time=$ touch_id=$ x=~ y=~",
    b"TouchCancel device=# time=$ touch_id=$",
    b"TextKeysym device=# time=$ keysym=$ state=$",
    b"TextUtf8 device=# time=$ text=t:%",
    b"TextUtf8 device=# time=$ text=t:% \"*\"",
    // Outcomes.
    b"accepted",
    b"seat #",
    b"device #",
    b"$",
    b"?",
    b"none",
    b"refused $ interface=$ version=$",
    // Refusals by number, then each with its name.
    b"refused $",
    b"refused $ (unexpected handshake event)",
    b"refused $ interface=$ version=$ (invalid interface version)",
    b"refused $ (invalid capabilities)",
    b"refused $ (too many touches)",
    b"refused $ (duplicated touch down)",
    b"refused $ (invalid text length)",
    b"refused $ (non-handshake event)",
    b"refused $ (duplicate event)",
    b"refused $ (missing interface)",
    b"refused $ (bad UTF-8)",
    b"refused $ (name long)",
    b"refused $ (unknown handle)",
    b"refused $ (bad capabilities)",
    b"refused $ (full seats)",
    b"refused $ (full devices)",
    b"refused $ (full pending)",
    b"refused $ (full queue)",
    b"refused $ (full texts)",
    b"refused $ (short out)",
    b"refused $ (ids spent)",
    b"refused $ (bad state)",
    b"refused $ (bad part)",
    b"refused $ (malformed)",
    b"refused $ (no object)",
    b"refused $ (invalid id)",
    b"refused $ (unsendable)",
    // Records by kind.
    b"unknown record",
    b"seat # version $",
    b"name \"*\"",
    b"capability $ &",
    b"done",
    b"destroyed, serial $",
    b"device # version $",
    b"device type ^",
    b"interface # & version $",
    b"resumed, serial $",
    b"paused, serial $",
    b"start emulating, serial $ sequence $",
    b"stop emulating, serial $",
    b"frame, serial $ time $",
    b"disconnected, serial $ reason !;",
    b"callback done $",
    b"handshake version $",
    b"interface version & $",
    b"connection # serial $ version $",
    // Other lines.
    b"error line $",
    b"> *",
    b"    #: ",
    // Reads.
    b"accepted $",
    // Messages.
    b"accepted taken $",
    b"wait",
    // Malformed ones, then each with its name.
    b"refused $ EndOfMessage",
    b"refused $ Utf8",
    b"refused $ InvalidOpcode $ $",
    b"refused $ InvalidVariant $",
    b"refused $ HeaderLength $",
    b"refused $ MessageLength $ $",
    b"refused $ InvalidNull",
    b"refused $ EndOfMessage (malformed)",
    b"refused $ Utf8 (malformed)",
    b"refused $ InvalidOpcode $ $ (malformed)",
    b"refused $ InvalidVariant $ (malformed)",
    b"refused $ HeaderLength $ (malformed)",
    b"refused $ MessageLength $ $ (malformed)",
    b"refused $ InvalidNull (malformed)",
    // Events.
    b"message t:%",
    b"record t:%",
];

// A pattern with one value or none.
pub fn single(pattern: usize, a: u64) -> Shown
    ensures { result ≡ shown pattern a 0 0 0 0 }
{
    Shown {
        pattern,
        a,
        b: 0,
        c: 0,
        d: 0,
        e: 0,
    }
}

// The value at a place; 0 past the last.
fn value(s: Shown, place: usize) -> u64
    ensures { result ≡ get_or (values s) place 0 }
{
    match place {
        0 => s.a,
        1 => s.b,
        2 => s.c,
        3 => s.d,
        4 => s.e,
        _ => 0,
    }
}

// The pattern of a number; past the table, none.
fn pattern_at(patterns: &'static [&'static [u8]], n: usize) -> &'static [u8]
    requires { map (λ p. p.now) patterns.now ≡ map ascii spec.patterns }
    ensures { result.now ≡ spec.pattern_at n }
{
    if patterns.len() <= n {
        return b"";
    }
    patterns[n]
}

// A pattern with its values.
fn patterned(line: &mut Line, pattern: &[u8], s: Shown, text: &[u8])
    ensures { Writes line.old line.new (spec.patterned pattern.now (values s) text.now) }
{
    let mut place: usize = 0;
    for &c in pattern {
        mark::show(line, c, value(s, place), text);
        place += mark::takes(c);
    }
}

// What is shown, with the text that lies beside it.
pub fn show(line: &mut Line, s: Shown, text: &[u8])
    ensures { Writes line.old line.new (bytes_of s text.now) }
{
    patterned(line, pattern_at(&PATTERNS, s.pattern), s, text)
}
