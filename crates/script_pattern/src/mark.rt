// What a byte of a pattern shows. A mark stands for the next value, or for the text that lies beside the values.
ghost use Rattle.std.specs.Prelude.{◌≡◌};
ghost use Rattle.eiproto.specs.Interface.{interface_name};
ghost use Rattle.script_pattern.specs.Put.{Writes};
ghost use Rattle.script_pattern.specs.Words.{real, amount, truth, device_type, reason, explanation};
ghost use Rattle.script_pattern.specs.Pattern.{shows, takes};

use crate::line::Line;
use eiproto::eiproto_eis;

// The bits of an f32, or 2^32 for the NaN.
fn real(line: &mut Line, n: u64)
    ensures { Writes line.old line.new (real n) }
{
    match u32::try_from(n) {
        Ok(bits) => {
            line.bytes(b"0x");
            line.hexadecimal(&bits.to_be_bytes())
        }
        Err(_) => line.bytes(b"nan"),
    }
}

// A signed amount: below 0, 2^32 more than its distance from it.
fn amount(line: &mut Line, n: u64)
    ensures { Writes line.old line.new (amount n) }
{
    if n < 4294967296 {
        line.decimal(n)
    } else {
        line.byte(b'-');
        line.decimal(n - 4294967296)
    }
}

fn truth(line: &mut Line, n: u64)
    ensures { Writes line.old line.new (truth n) }
{
    if n == 0 {
        line.bytes(b"false")
    } else {
        line.bytes(b"true")
    }
}

// An interface by its name; nothing for a number that is no interface's.
fn interface(line: &mut Line, n: u64)
    ensures { Writes line.old line.new (interface_name n) }
{
    if let Ok(number) = u8::try_from(n) {
        line.bytes(eiproto_eis::name(number))
    }
}

// By number, as `reason` too: a record may hold one that is no case of the enum, which is shown as it is.
fn device_type(line: &mut Line, n: u64)
    ensures { Writes line.old line.new (device_type n) }
{
    match n {
        1 => line.bytes(b"virtual"),
        2 => line.bytes(b"physical"),
        _ => line.decimal(n),
    }
}

// Why a client is disconnected.
fn reason(line: &mut Line, n: u64)
    ensures { Writes line.old line.new (reason n) }
{
    match n {
        0 => line.bytes(b"disconnected"),
        1 => line.bytes(b"error"),
        2 => line.bytes(b"mode"),
        3 => line.bytes(b"protocol"),
        4 => line.bytes(b"value"),
        5 => line.bytes(b"transport"),
        _ => line.decimal(n),
    }
}

// The explanation of a disconnect, if the byte before it says that there is one.
fn explanation(line: &mut Line, n: u64, text: &[u8])
    ensures { Writes line.old line.new (explanation n text.now) }
{
    if 127 < n {
        line.bytes(b" explanation \"");
        line.escaped(text);
        line.byte(b'"')
    }
}

// How many values a byte of a pattern takes: a mark one. The marks stay bytes: an enum would have these twelve arms once more (no plainer).
pub fn takes(c: u8) -> usize
    ensures { result ≡ takes c }
{
    match c {
        b'#' | b'$' | b'~' | b'+' | b'?' | b'&' | b'^' | b'!' | b'%' | b'*' | b';' | b'.' => 1,
        _ => 0,
    }
}

// What it shows.
pub fn show(line: &mut Line, c: u8, value: u64, text: &[u8])
    ensures { Writes line.old line.new (shows c value text.now) }
{
    match c {
        b'#' => line.ident(value),
        b'$' => line.decimal(value),
        b'~' => real(line, value),
        b'+' => amount(line, value),
        b'?' => truth(line, value),
        b'&' => interface(line, value),
        b'^' => device_type(line, value),
        b'!' => reason(line, value),
        b'%' => line.hexadecimal(text),
        b'*' => line.escaped(text),
        b';' => explanation(line, value, text),
        b'.' => {}
        _ => line.byte(c),
    }
}
