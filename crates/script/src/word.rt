// Words: where they end, and the numbers that they stand for.
ghost use Rattle.std.specs.Prelude.{◌+◌, ◌^◌, ◌≤◌, ◌≡◌, eqb, length, drop, position, pos, neg_ℤ};
ghost use Rattle.std.specs.Float.Ieee.{of_bits};
ghost use Rattle.std.specs.Float.{binary32};
ghost use Rattle.eiproto.specs.Told.{told};
ghost use Rattle.script.specs.Words.{before};
ghost use Rattle.script.specs.Number.{digit, digits, number, that, fits64};

// Where the first such byte is, if there is one.
fn first(s: &[u8], b: u8) -> Option<usize>
    ensures { result ≡ position (λ c. eqb c b) s.now }
{
    s.iter().position(|&c| c == b)
}

// Where the first such byte is, from a place on; the length where there is none.
pub fn find_byte(s: &[u8], from: usize, b: u8) -> usize
    requires { from ≤ length s.now }
    ensures { result ≡ from + length (before b (drop from s.now)) }
{
    match first(&s[from..], b) {
        Some(k) => from + k,
        None => s.len(),
    }
}

// The value of a digit, in small or in capital letters; 16 where the character is none.
#[tactic(auto, unfolding(crate::specs::Number::digit), using(std::proofs::lemmas::Bool::Decides::nat_tests))]
pub fn value_of(c: u8) -> u8
    ensures { result ≡ digit c }
{
    match c {
        b'0'..=b'9' => c - b'0',
        b'a'..=b'f' => c - b'a' + 10,
        b'A'..=b'F' => c - b'A' + 10,
        _ => 16,
    }
}

// The number of digits, if there is one digit at least, and 64 bits have room.
pub fn digits(word: &[u8], base: u64) -> Option<u64>
    requires { (1 ≤ base) × (base ≤ 16) }
    ensures { told result ≡ that fits64 (digits base word.now) }
{
    if word.is_empty() {
        return None;
    }
    let mut n: u64 = 0;
    for &c in word {
        let d = u64::from(value_of(c));
        if base <= d {
            return None;
        }
        n = n.checked_mul(base)?.checked_add(d)?;
    }
    Some(n)
}

// The number of a word, decimal or hexadecimal.
pub fn number(word: &[u8]) -> Option<u64>
    ensures { told result ≡ that fits64 (number word.now) }
{
    if word.starts_with(b"0x") {
        digits(&word[2..], 16)
    } else {
        digits(word, 10)
    }
}

// A number below 0, of at most 31 binary digits.
pub fn negative(n: u64) -> i32
    requires { n ≤ 2 ^ 31 }
    ensures { result ≡ neg_ℤ (pos n) }
{
    let z = n as i64;
    (0 - z) as i32
}

// The number of a bit pattern; every pattern of a NaN is the NaN. `f32::from_bits` alone won't do: it asks for a pattern of no NaN.
// parse has the same, kept from being inlined for its count: scripts need nothing else of it.
pub fn of_bits(bits: u32) -> f32
    ensures { result ≡ of_bits binary32 bits }
{
    if 0x7f800000 < bits % 0x80000000 {
        return f32::NAN;
    }
    f32::from_bits(bits)
}
