// Replays a call script: reads calls from a file or from standard input and writes their trail on standard output. With the argument --explain in
// words too. What cannot be done is said on standard error.
#![tactic(auto)]

ghost use Rattle.std.specs.Prelude.{◌≤◌, length};

use script_play::End;
use std::env::{Env, FillError};
use std::fs::File;
use std::io::{Cursor, Read, Write};
use std::{io, str};

fn usage(to: &mut impl Write) {
    let _ = to.write_all(
        b"usage: replay [--explain] [FILE]\n\
    Plays a call script (docs/CALL-SCRIPTS.md), from standard input where no FILE is named, and writes its trail on standard output.\n\
    \x20 --explain  each call before its answer, and event records, refusals and texts in words\n\
    \x20 --help     this\n\
    The exit status is always 0: what goes wrong is said in the last line of standard error.\n",
    );
}

// How much of an error's text is its reason. Behind that stands a number in brackets, or nothing.
fn reason(text: &[u8]) -> usize
    ensures { result ≤ length text.now }
{
    for i in 0..text.len() {
        if text[i] == 0 || text[i..].starts_with(b" (os error ") {
            return i;
        }
    }
    text.len()
}

// What failed, a colon and the system's reason, on standard error.
fn fail(rt: &HostRuntime, what: &[u8], e: io::Error) {
    let mut text = Cursor::new([0u8; 128]);
    let _ = write!(text, "{e}");
    let told = text.get_ref();
    let n = reason(told);
    let mut err = rt.stderr();
    let _ = err.write_all(what);
    let _ = err.write_all(b": ");
    let _ = err.write_all(&told[..n]);
    let _ = err.write_all(b"\n");
}

// How it ended, on standard error.
fn say(rt: &HostRuntime, end: End) {
    match end {
        End::Played => {}
        End::Wrong => {}
        End::Unread(e) => fail(rt, b"replay: the script cannot be read", e),
        End::Unwritten(e) => fail(rt, b"replay: the trail cannot be written", e),
    }
}

fn play(rt: &HostRuntime, from: &mut impl Read, explained: bool) {
    say(
        rt,
        script_play::play(from, &mut rt.stdout(), &mut rt.stderr(), explained),
    );
}

// A path is UTF-8: no other can be opened.
fn open(rt: &HostRuntime, path: &[u8]) -> io::Result<File> {
    match str::from_utf8(path) {
        Ok(path) => File::open(rt, path),
        Err(_) => Err(io::Error::from(io::ErrorKind::InvalidFilename)),
    }
}

fn play_file(rt: &HostRuntime, path: &[u8], explained: bool) {
    match open(rt, path) {
        Ok(mut file) => play(rt, &mut file, explained),
        Err(e) => fail(rt, path, e),
    }
}

// How many bytes of the argument of a number stand in the buffer: 0 where it is missing, or longer.
fn argument(rt: &impl Env, i: usize, word: &mut [u8]) -> usize
    ensures { result ≤ length word.new }
{
    rt.arg(i, word).unwrap_or(0)
}

// How many arguments there are, the program's own name among them; beyond 4 they are not counted.
fn argument_count(rt: &impl Env) -> usize {
    let mut word = [0u8; 1];
    for i in 0..4 {
        if let Err(FillError::NotPresent) = rt.arg(i, &mut word) {
            return i;
        }
    }
    4
}

// A word that begins with `-` is no file's name here; nor is one that is empty or too long.
fn is_path(word: &[u8]) -> bool {
    !word.is_empty() && !word.starts_with(b"-")
}

// The file that the argument of a number names.
fn named(rt: &HostRuntime, i: usize, explained: bool) {
    let mut word = [0u8; 4096];
    let n = argument(rt, i, &mut word);
    let path = &word[..n];
    if is_path(path) {
        play_file(rt, path, explained);
    } else {
        usage(&mut rt.stderr());
    }
}

fn is_argument(rt: &impl Env, i: usize, word: &[u8]) -> bool {
    let mut argument = [0u8; 16];
    let n = self::argument(rt, i, &mut argument);
    &argument[..n] == word
}

fn main(rt: HostRuntime) {
    let count = argument_count(&rt);
    if count < 2 {
        play(&rt, &mut rt.stdin(), false);
        return;
    }
    if is_argument(&rt, 1, b"--help") {
        usage(&mut rt.stdout());
        return;
    }
    if is_argument(&rt, 1, b"--explain") {
        if count == 2 {
            play(&rt, &mut rt.stdin(), true);
            return;
        }
        if count == 3 {
            named(&rt, 2, true);
            return;
        }
        usage(&mut rt.stderr());
        return;
    }
    if count == 2 {
        named(&rt, 1, false);
        return;
    }
    usage(&mut rt.stderr());
}
