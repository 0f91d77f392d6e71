// 31 keys and their frame, and their delivery, repeated: `bench_reads WORKLOAD N`, where the requests are sent singly (singles) or handed over in one read
// (reads). It tells how many requests were given; tests/bench.py times it. It is a program of its own: where a request is handed in at one place only,
// as in the program bench, the compiler puts the call's code there.
#![tactic(auto)]

mod read;

use control::CONTROL_LENGTH;
use session::{REALS_LENGTH, TEXTS_LENGTH, WORDS_LENGTH};
use std::env::Env;
use std::io;
use std::io::Write;

// The memory of a session.
#[derive(Drop)]
struct Session {
    control: [u64; CONTROL_LENGTH],
    words: [u64; WORDS_LENGTH],
    reals: [f32; REALS_LENGTH],
    texts: [u8; TEXTS_LENGTH],
}

impl Session {
    // What a client sends in turn i: its requests in one read, or each on its own.
    fn send(&mut self, whole: bool, i: u64) {
        if whole {
            return read::keys(self, i);
        }
        let control = &mut self.control;
        let words = &mut self.words;
        let reals = &mut self.reals;
        let texts = &mut self.texts;
        bench_calls::many_keys(control, words, reals, texts, 31);
        bench_calls::without_text(
            control,
            words,
            reals,
            texts,
            bench_calls::DEVICE,
            bench_calls::frame(i),
        );
    }

    // Turns, and how many requests they were given: each asks until none is left.
    fn repeat(&mut self, whole: bool, times: u64) -> u64 {
        let mut given: u64 = 0;
        for i in 0..times {
            self.send(whole, i);
            given = given.wrapping_add(bench_calls::next(
                &mut self.control,
                &self.words,
                &self.reals,
                &self.texts,
                33,
            ));
        }
        given
    }
}

fn main(rt: HostRuntime) -> io::Result<()> {
    let mut out = io::writer(&rt);
    let mut session = Session {
        control: [0; CONTROL_LENGTH],
        words: [0; WORDS_LENGTH],
        reals: [0.0; REALS_LENGTH],
        texts: [0; TEXTS_LENGTH],
    };
    let mut word = [0u8; 16];
    let mut count = [0u8; 16];
    let _ = rt.arg(1, &mut word);
    let digits = rt.arg(2, &mut count).unwrap_or(0);
    let times = bench_calls::number(&count, digits);
    bench_calls::begin(&mut session.control, 1, 4);
    writeln!(out, "{}", session.repeat(word[0] == b'r', times))?;
    out.flush()
}
