// UTF-8, as RFC 3629 defines it.
#![tactic(auto)]

ghost use Rattle.std.specs.Prelude.{◌≡◌, ℕ, ◌+◌, ◌≤◌, ◌<◌, length, get_or, drop};
ghost use Rattle.utf8.specs.Rfc3629.{utf8_char, after, is_utf8};
ghost use Rattle.utf8.specs.Lead.{asked, begins};

// What a character's first octet says of those that follow it: three answers, so it is no Option.
#[derive(Clone, Copy, Debug, PartialEq, Eq)]
enum Lead {
    // There are none.
    Alone,
    // An octet from the first number to the second, and then so many of UTF8-tail.
    More(u8, u8, usize),
    // No character begins so.
    Bad,
}

// The alternatives of UTF8-char in the RFC's order, ASCII before all others.
fn lead_of(first: u8) -> Lead
    ensures { asked result ≡ after utf8_char first }
{
    if first < 0x80 {
        return Lead::Alone;
    }
    match first {
        0xC2..=0xDF => Lead::More(0x80, 0xBF, 0),
        0xE0 => Lead::More(0xA0, 0xBF, 1),
        0xE1..=0xEC => Lead::More(0x80, 0xBF, 1),
        0xED => Lead::More(0x80, 0x9F, 1),
        0xEE..=0xEF => Lead::More(0x80, 0xBF, 1),
        0xF0 => Lead::More(0x90, 0xBF, 2),
        0xF1..=0xF3 => Lead::More(0x80, 0xBF, 2),
        0xF4 => Lead::More(0x80, 0x8F, 2),
        _ => Lead::Bad,
    }
}

// Whether the text has an octet at this place, from low to high.
fn has_octet(text: &[u8], at: usize, low: u8, high: u8) -> bool
    ensures { result ≡ begins (low, high) (drop at text.now) }
{
    at < text.len() && low <= text[at] && text[at] <= high
}

// Eight octets of the text in one: it is ASCII only where each of them is.
fn eight_or(text: &[u8], at: usize) -> u8
    requires { at + 8 ≤ length text.now }
    ensures { (k : ℕ) → k < 8 → get_or text.now (at + k) 0 ≤ result }
{
    text[at]
        | text[at + 1]
        | text[at + 2]
        | text[at + 3]
        | text[at + 4]
        | text[at + 5]
        | text[at + 6]
        | text[at + 7]
}

// How many octets the text begins with that are ASCII, in whole eights: most texts are little else, and eight at once take less
// time than eight tests.
fn ascii_eights(text: &[u8]) -> usize
    ensures fact_1 { result ≤ length text.now }
    ensures fact_2 { is_utf8 text.now ≡ is_utf8 (drop result text.now) }
{
    let eights = text.len() / 8;
    for eight in 0..eights {
        if eight_or(text, 8 * eight) >= 0x80 {
            return 8 * eight;
        }
    }
    8 * eights
}

// Whether the text is UTF-8.
pub fn valid(text: &[u8]) -> bool
    ensures { result ≡ is_utf8 text.now }
{
    // By hand: a step takes a character of one to four octets.
    let mut i = ascii_eights(text);
    while i < text.len() {
        match lead_of(text[i]) {
            Lead::Alone => i += 1,
            Lead::More(low, high, tails) => {
                if !has_octet(text, i + 1, low, high) {
                    return false;
                }
                i += 2;
                for tail in 0..tails {
                    if !has_octet(text, i, 0x80, 0xBF) {
                        return false;
                    }
                    i += 1;
                }
            }
            Lead::Bad => return false,
        }
    }
    true
}
