// The turns of each workload.
ghost use Rattle.std.specs.Prelude.{◌<◌, ◌≤◌};

use bench_calls::DEVICE;
use control::CONTROL_LENGTH;
use requests::eis::{ConnectionRequest, InterfaceRequest, Request, TextRequest};
use session::{REALS_LENGTH, TEXTS_LENGTH, WORDS_LENGTH};

// The memory of a session.
#[derive(Drop)]
pub struct Session {
    pub control: [u64; CONTROL_LENGTH],
    pub words: [u64; WORDS_LENGTH],
    pub reals: [f32; REALS_LENGTH],
    pub texts: [u8; TEXTS_LENGTH],
}

// What a turn is. Keys, Eight and Deep are a press and a release of a key; the last two a frame of so many keys.
#[derive(Clone, Copy, Debug, PartialEq, Eq)]
pub enum Workload {
    Keys,
    Touches,
    Texts,
    Eight,
    Deep,
    Push,
    Frame1,
    Frame64,
}

impl Workload {
    // That of a word of the command line.
    fn of(word: &[u8]) -> Workload {
        match word {
            [b't', b'o', ..] => Workload::Touches,
            [b't', ..] => Workload::Texts,
            [b'e', ..] => Workload::Eight,
            [b'd', ..] => Workload::Deep,
            [b'p', ..] => Workload::Push,
            [b'f', _, _, _, _, b'1', ..] => Workload::Frame1,
            [b'f', ..] => Workload::Frame64,
            _ => Workload::Keys,
        }
    }

    fn devices(self) -> u64
        ensures { (0 < result) × (result ≤ 8) }
    {
        if self == Workload::Eight { 8 } else { 1 }
    }

    // The capabilities of each device.
    fn capabilities(self) -> u64 {
        match self {
            Workload::Touches => 8,
            Workload::Texts => 64,
            Workload::Eight => 127,
            _ => 4,
        }
    }

    // The device of turn i. Eight go round.
    fn device(self, i: u64) -> u64
        ensures { result < 0xff00_0000_0001_0000 }
    {
        DEVICE + 8 * (i % self.devices())
    }

    // Its keyboard, the third of seven interfaces or the only one.
    fn keyboard(self, i: u64) -> u64 {
        let place = if self == Workload::Eight { 3 } else { 1 };
        self.device(i) + place
    }

    // Whether a frame ends the turn.
    fn is_framed(self) -> bool {
        self != Workload::Push
    }

    // How often a request is asked for behind a turn: in the turns of the oracle's benchmark that empty the queue, until none is given.
    fn most(self) -> u64 {
        match self {
            Workload::Keys | Workload::Eight => 4,
            Workload::Touches => 5,
            Workload::Texts | Workload::Deep => 3,
            Workload::Push => 1,
            Workload::Frame1 => 2,
            Workload::Frame64 => 65,
        }
    }
}

impl Session {
    // What a client sends in turn i, before its frame.
    fn send(&mut self, workload: Workload, i: u64) {
        let control = &mut self.control;
        let words = &mut self.words;
        let reals = &mut self.reals;
        let texts = &mut self.texts;
        match workload {
            Workload::Touches => bench_calls::stroke(control, words, reals, texts, i),
            Workload::Texts => bench_calls::with_text(
                control,
                words,
                reals,
                texts,
                DEVICE + 1,
                Request::Interface(InterfaceRequest::Text(TextRequest::Utf8)),
                b"01234567890123456789",
            ),
            Workload::Frame1 => bench_calls::many_keys(control, words, reals, texts, 1),
            Workload::Frame64 => bench_calls::many_keys(control, words, reals, texts, 64),
            Workload::Push => bench_calls::without_text(
                control,
                words,
                reals,
                texts,
                0,
                Request::Connection(ConnectionRequest::Disconnect),
            ),
            Workload::Keys | Workload::Eight | Workload::Deep => {
                bench_calls::keys(control, words, reals, texts, workload.keyboard(i), i)
            }
        }
    }

    fn send_framed(&mut self, workload: Workload, i: u64) {
        self.send(workload, i);
        if workload.is_framed() {
            bench_calls::without_text(
                &mut self.control,
                &mut self.words,
                &mut self.reals,
                &mut self.texts,
                workload.device(i),
                bench_calls::frame(i),
            );
        }
    }

    // Takes what is queued, at most so many; how many there were.
    fn take(&mut self, most: u64) -> u64 {
        bench_calls::next(
            &mut self.control,
            &self.words,
            &self.reals,
            &self.texts,
            most,
        )
    }

    // What the turns of a workload begin with: in Deep, sixty-six turns whose requests nobody takes.
    fn prepare(&mut self, workload: Workload) {
        bench_calls::begin(
            &mut self.control,
            workload.devices(),
            workload.capabilities(),
        );
        if workload == Workload::Deep {
            for i in 0..66 {
                self.send_framed(workload, i);
            }
        }
    }

    fn repeat(&mut self, workload: Workload, times: u64) -> u64 {
        let mut given: u64 = 0;
        for i in 0..times {
            self.send_framed(workload, i);
            given = given.wrapping_add(self.take(workload.most()));
        }
        given
    }
}

// Repeats the turn of a workload and takes what is left; how many requests were given, which is how many were sent.
pub fn run(session: &mut Session, word: &[u8], times: u64) -> u64 {
    let workload = Workload::of(word);
    session.prepare(workload);
    let given = session.repeat(workload, times);
    given.wrapping_add(session.take(256))
}
