// Puts touches down and up again, and writes each call with its answer and the ids that are held after it. Each change goes through the method on
// a record that is lent, as the session's do.
#![tactic(auto)]

use std::io;
use std::io::Write;
use touches::{DownError, DownTouchIds};

fn held(to: &mut impl Write, d: &DownTouchIds) -> io::Result<()> {
    write!(to, "{} held:", d.len())?;
    for id in d.held() {
        write!(to, " {id}")?;
    }
    writeln!(to)
}

fn down(to: &mut impl Write, d: &mut DownTouchIds, id: u32) -> io::Result<()> {
    let answer = match d.insert(id) {
        Ok(()) => "inserted",
        Err(DownError::TooManyTouches) => "4",
        Err(DownError::DuplicatedTouchDown) => "5",
    };
    write!(to, "down {id}: {answer}, ")?;
    held(to, d)
}

fn up(to: &mut impl Write, d: &mut DownTouchIds, id: u32) -> io::Result<()> {
    let answer = if d.remove(id) { "removed" } else { "not held" };
    write!(to, "up {id}: {answer}, ")?;
    held(to, d)
}

fn main(rt: HostRuntime) -> io::Result<()> {
    let mut out = io::writer(&rt);
    // Sixteen zeros hold no id 0, which is an id like others.
    let mut d = DownTouchIds::new();
    up(&mut out, &mut d, 0)?;
    down(&mut out, &mut d, 0)?;
    down(&mut out, &mut d, 0)?;
    for id in 1..15 {
        down(&mut out, &mut d, id)?;
    }
    // 15 held: 5. 16 held: 4, for a held id and for a new one.
    down(&mut out, &mut d, 7)?;
    down(&mut out, &mut d, 4294967295)?;
    down(&mut out, &mut d, 7)?;
    down(&mut out, &mut d, 16)?;
    // The ids behind it move down, and it comes last when it is down again.
    up(&mut out, &mut d, 7)?;
    up(&mut out, &mut d, 7)?;
    down(&mut out, &mut d, 7)?;
    up(&mut out, &mut d, 0)?;
    up(&mut out, &mut d, 7)?;
    d.clear();
    out.write_all(b"clear, ")?;
    held(&mut out, &d)?;
    // A count above sixteen counts as sixteen.
    let mut d = DownTouchIds {
        ids: [9; 16],
        count: 99,
    };
    down(&mut out, &mut d, 1)?;
    up(&mut out, &mut d, 1)?;
    up(&mut out, &mut d, 9)?;
    out.flush()
}
