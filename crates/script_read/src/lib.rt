// A read of a call script: its records gathered line by line in lent slices, and handed over as one call when the last of them has come. Outside of
// reads a line is `script_run`'s. Over slices of any length that the read fits, as `take` promises (docs/PROMISES.md): a struct of arrays would ask
// more, and one of slices has a lifetime and a ghost name for each.
#![tactic(auto)]

ghost use Rattle.std.specs.Prelude.{◌≡◌, [], ◌∷◌, ◌++◌, ◌+◌, ◌≤◌, ◌<◌};
ghost use Rattle.lent_read.specs.Numbers.{record_count};
ghost use Rattle.script_read.specs.Read.{no_read, onward, gathered, Fits, handed, as_record, closing};
ghost use Rattle.script_read.specs.Read.{HandsLent, SettlesLent, BeginsLent, OpensLent, GoesOnLent, TakesLent};

use lent_read::record;
use reads::ReadAnswer;
use reads::record::RequestRecord;
use script_record::Record;
use script_run::{Run, Told, Took, Why};

// How many lines of a read are still to come, 0 where none is open; how many records stand in the slices; and how long its texts are.
#[derive(Clone, Copy, Debug, PartialEq, Eq)]
pub struct Reading {
    pub left: usize,
    pub held: usize,
    pub length: usize,
}

// What a line has come to, and the read that it leaves open. No derived `==`: it holds a run, and that a handshake's name.
#[derive(Clone, Copy)]
pub struct Taken {
    pub took: Took,
    pub reading: Reading,
}

// No read is open.
pub fn none() -> Reading
    ensures { result ≡ no_read }
{
    Reading {
        left: 0,
        held: 0,
        length: 0,
    }
}

// What there is to tell of a read.
fn handed(a: ReadAnswer) -> Told
    ensures { result ≡ handed a }
{
    Told::Handed {
        accepted: a.accepted as u64,
        count: a.count,
        refusal: a.refusal,
    }
}

// One call for the records that stand in the slices, lent so much of `out` as the script says.
fn hand_over(
    run: Run,
    reading: Reading,
    control: &mut [u64],
    words: &mut [u64],
    reals: &mut [f32],
    texts: &mut [u8],
    records: &[u64],
    points: &[f32],
    lent: &[u8],
    out: &mut [u8],
) -> ReadAnswer
    requires { Fits reading records.now points.now lent.now }
    ensures { HandsLent run reading control words reals texts records points lent out result }
{
    let w = reading.held * record::RECORD_WORDS;
    let p = reading.held * record::RECORD_REALS;
    let n = script_session::room(run.out, out.len());
    lent_read::handle_requests(
        control,
        words,
        reals,
        texts,
        &records[..w],
        &points[..p],
        &lent[..reading.length],
        run.clock,
        &mut out[..n],
    )
}

// Behind a line of a read: its last record hands it over.
fn settle(
    run: Run,
    reading: Reading,
    control: &mut [u64],
    words: &mut [u64],
    reals: &mut [f32],
    texts: &mut [u8],
    records: &[u64],
    points: &[f32],
    lent: &[u8],
    out: &mut [u8],
) -> Taken
    requires { Fits reading records.now points.now lent.now }
    ensures { SettlesLent run reading control words reals texts records points lent out result }
{
    if reading.left == 0 {
        let a = hand_over(
            run, reading, control, words, reals, texts, records, points, lent, out,
        );
        return Taken {
            took: Took {
                run,
                told: handed(a),
            },
            reading: none(),
        };
    }
    Taken {
        took: Took {
            run,
            told: Told::Gathered,
        },
        reading,
    }
}

// A client's request with a part, as a record of the read.
fn record_of(one: Record) -> RequestRecord
    ensures { result ≡ as_record one.object one.version one.request one.part }
{
    RequestRecord {
        object: one.object,
        version: one.version,
        request: one.request,
        start: one.part.start as usize,
        length: one.part.length as usize,
    }
}

// One record more.
fn put(reading: Reading, records: &mut [u64], points: &mut [f32], one: RequestRecord) -> Reading
    requires { (0 < reading.left) × (reading.held + reading.left ≤ record_count records.old points.old) }
    ensures { (result ≡ onward reading) × (gathered result records.new points.new ≡ gathered reading records.old points.old ++ (one ∷ [])) }
{
    record::put_record(records, points, reading.held, one);
    Reading {
        left: reading.left - 1,
        held: reading.held + 1,
        ..reading
    }
}

// A line of a read.
fn go_on(
    run: Run,
    reading: Reading,
    control: &mut [u64],
    words: &mut [u64],
    reals: &mut [f32],
    texts: &mut [u8],
    records: &mut [u64],
    points: &mut [f32],
    lent: &[u8],
    line: &[u8],
    cut: bool,
    out: &mut [u8],
) -> Taken
    requires { (0 < reading.left) × Fits reading records.old points.old lent.now }
    ensures { GoesOnLent run reading cut line control words reals texts records points lent out result }
{
    let here = script_run::counted(run);
    match script_record::record_in(line, cut) {
        Ok(None) => Taken {
            took: script_run::quiet(here),
            reading,
        },
        Ok(Some(one)) => {
            let next = put(reading, records, points, record_of(one));
            settle(
                here, next, control, words, reals, texts, records, points, lent, out,
            )
        }
        Err(why) => Taken {
            took: script_run::no_call(here, why),
            reading: none(),
        },
    }
}

// The first line of a read, whose texts are lent; one of no record is handed over with it.
fn begin(
    run: Run,
    count: u32,
    control: &mut [u64],
    words: &mut [u64],
    reals: &mut [f32],
    texts: &mut [u8],
    records: &[u64],
    points: &[f32],
    lent: &mut [u8],
    line: &[u8],
    out: &mut [u8],
) -> Taken
    ensures { BeginsLent run count line control words reals texts records points lent out result }
{
    let left = count as usize;
    if lent_read::record_count(records, points) < left {
        return Taken {
            took: script_run::no_call(run, Why::Many),
            reading: none(),
        };
    }
    let reading = Reading {
        left,
        held: 0,
        length: script_record::lend_text(line, lent),
    };
    settle(
        run, reading, control, words, reals, texts, records, points, lent, out,
    )
}

// A line outside of a read, which may begin one.
fn open(
    run: Run,
    control: &mut [u64],
    words: &mut [u64],
    reals: &mut [f32],
    texts: &mut [u8],
    records: &[u64],
    points: &[f32],
    lent: &mut [u8],
    line: &[u8],
    cut: bool,
    out: &mut [u8],
) -> Taken
    ensures { OpensLent run cut line control words reals texts records points lent out result }
{
    let took = script_run::take(run, control, words, reals, texts, line, cut, out);
    if let Told::Begun(count) = took.told {
        return begin(
            took.run, count, control, words, reals, texts, records, points, lent, line, out,
        );
    }
    Taken {
        took,
        reading: none(),
    }
}

// A line.
pub fn take(
    run: Run,
    reading: Reading,
    control: &mut [u64],
    words: &mut [u64],
    reals: &mut [f32],
    texts: &mut [u8],
    records: &mut [u64],
    points: &mut [f32],
    lent: &mut [u8],
    line: &[u8],
    cut: bool,
    out: &mut [u8],
) -> Taken
    requires { Fits reading records.old points.old lent.old }
    ensures { TakesLent run reading cut line control words reals texts records points lent out result }
{
    if reading.left == 0 {
        return open(
            run, control, words, reals, texts, records, points, lent, line, cut, out,
        );
    }
    go_on(
        run, reading, control, words, reals, texts, records, points, lent, line, cut, out,
    )
}

// Behind the last line of a script: inside a read that is an error, on the line behind it.
pub fn end(run: Run, reading: Reading) -> Took
    ensures { result ≡ closing run reading }
{
    if run.ended {
        return script_run::quiet(run);
    }
    if reading.left == 0 {
        return script_run::quiet(run);
    }
    script_run::no_call(script_run::counted(run), Why::Within)
}
