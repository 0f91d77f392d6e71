// The texts that lie beside their requests, each in a slot. A slot is in use while a pending or queued request has its text there.
#![tactic(auto)]

ghost use Rattle.std.specs.Prelude.{◌≡◌, false, ◌+◌, ◌*◌, ◌^◌, ◌≤◌, ◌<◌, length, take, drop};
ghost use Rattle.eiproto.specs.Bits.{bit, bits_of};
ghost use Rattle.requests.specs.Row.{texts_limit, row_at};
ghost use Rattle.wire.specs.Bits.{splice};
ghost use Rattle.control.specs.Control.{queue_limit};
ghost use Rattle.session.specs.View.{row_count, slot_length};
ghost use Rattle.session.specs.Loan.{SameLoan, store_of};
ghost use Rattle.texts.specs.Texts.{Scannable, Counted, FirstRun, Live, Pendable, PendsText};

use control::{PENDING_LIMIT, QUEUE_LIMIT};
use requests::row::TEXTS_LIMIT;
use requests::{cell, row};
use session::{LentSession, QUEUE_START, SLOT_LENGTH};

// The most bytes of a text, a name or an explanation: "above 254" is refused.
pub const TEXT_LENGTH_LIMIT: usize = 254;

// How many texts pending and queued requests have, and the slots that they lie in, as a mask with a bit for each slot.
#[derive(Clone, Copy, Debug, PartialEq, Eq)]
pub struct LiveTexts {
    pub count: usize,
    pub used: u32,
}

impl LiveTexts {
    // One request more, with its text's slot, or `NO_SLOT`. Texts are counted, not slots: only damage makes two of them share one.
    fn with_request(self, slot: usize) -> LiveTexts
        requires { self.count < row_count }
        ensures { Counted self result 1 (λ j. slot) }
    {
        if TEXTS_LIMIT <= slot {
            return self;
        }
        LiveTexts {
            count: self.count + 1,
            used: self.used | (1 << slot),
        }
    }

    // With the requests of n rows from `row` on.
    fn with_rows(self, words: &[u64], reals: &[f32], row: usize, n: usize) -> LiveTexts
        requires { Scannable words.now reals.now row n self }
        ensures { Counted self result n (λ j. (row_at words.now reals.now (row + j)).slot) }
    {
        let mut live = self;
        for j in 0..n {
            let slot = row::load_slot(words, reals, row + j);
            // `with_request` tests this too, but that becomes no branch in machine code: a row with no text would take 11 instructions, not 4.
            if slot != row::NO_SLOT {
                live = live.with_request(slot);
            }
        }
        live
    }
}

// How many of the queued requests stand from the head of the ring to its end; the others stand at its start.
fn to_the_end(head: usize, queued: usize) -> usize
    requires { head < queue_limit }
    ensures { FirstRun head queued result }
{
    queued.min(QUEUE_LIMIT - head)
}

// The texts that are live, by one pass over the pending and queued requests.
pub fn live_texts(session: &LentSession<'_, '_, '_>) -> LiveTexts
    ensures { Live session.now.control.now session.now.words.now session.now.reals.now result }
{
    let control = &*session.control;
    let words = &*session.words;
    let reals = &*session.reals;
    let mut live = LiveTexts { count: 0, used: 0 };
    for k in 0..control::device_count(control) {
        let n = control::pending_count(control, k);
        live = live.with_rows(words, reals, PENDING_LIMIT * k, n);
    }
    let queued = control::queue_length(control);
    if queued == 0 {
        return live;
    }
    let head = control::queue_head(control);
    let n = to_the_end(head, queued);
    live.with_rows(words, reals, QUEUE_START + head, n)
        .with_rows(words, reals, QUEUE_START, queued - n)
}

// The lowest slot that is not in use: with fewer bits set than there are slots there is one.
pub fn free_slot(used: u32) -> usize
    requires { length (bits_of used) < texts_limit }
    ensures { (result < texts_limit) × (bit result used ≡ false) }
{
    used.trailing_ones() as usize
}

// Puts a text in a slot.
fn put_text(texts: &mut [u8], slot: usize, text: &[u8])
    requires { slot_length * slot + length text.now ≤ length texts.old }
    ensures { texts.new ≡ splice texts.old (slot_length * slot) text.now }
{
    let at = SLOT_LENGTH * slot;
    texts[at..at + text.len()].copy_from_slice(text);
}

// A text more in the pending list of the device in slot k, in a slot that is free. No other byte of the texts is written.
pub fn pend_text(
    session: &mut LentSession<'_, '_, '_>,
    texts: &mut [u8],
    k: usize,
    slot: usize,
    text: &[u8],
)
    requires { Pendable (store_of session.old texts.old) k slot text.now }
    ensures step { PendsText session texts k slot text.now }
    ensures loan { SameLoan session.old session.new }
{
    put_text(texts, slot, text);
    // Its device and its time come with its frame.
    let request = cell::text_utf8(0, 0, text.len() as u8, slot);
    queue::pend(session, k, request);
}

// Copies the first n bytes of a slot to a buffer, whose other bytes are as they were.
pub fn copy_text(texts: &[u8], slot: usize, n: usize, buffer: &mut [u8])
    requires { (slot_length * slot + n ≤ length texts.now) × (n ≤ length buffer.old) }
    ensures { buffer.new ≡ splice buffer.old 0 (take n (drop (slot_length * slot) texts.now)) }
{
    // Most requests have no text, and a copy of no byte would be a call all the same.
    if n == 0 {
        return;
    }
    let at = SLOT_LENGTH * slot;
    buffer[..n].copy_from_slice(&texts[at..at + n]);
}
