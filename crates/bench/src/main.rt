// The turns of the oracle's benchmark, and a few of the queue's own, repeated: `bench WORKLOAD N`. It tells how many requests were given; tests/bench.py times it.
#![tactic(auto)]

mod turns;

use control::CONTROL_LENGTH;
use session::{REALS_LENGTH, TEXTS_LENGTH, WORDS_LENGTH};
use std::env::Env;
use std::io;
use std::io::Write;
use turns::Session;

fn main(rt: HostRuntime) -> io::Result<()> {
    let mut out = io::writer(&rt);
    let mut session = Session {
        control: [0; CONTROL_LENGTH],
        words: [0; WORDS_LENGTH],
        reals: [0.0; REALS_LENGTH],
        texts: [0; TEXTS_LENGTH],
    };
    let mut word = [0u8; 16];
    let mut count = [0u8; 16];
    let _ = rt.arg(1, &mut word);
    let digits = rt.arg(2, &mut count).unwrap_or(0);
    let times = bench_calls::number(&count, digits);
    writeln!(out, "{}", turns::run(&mut session, &word, times))?;
    out.flush()
}
