// A lent line, and what is put there: bytes, digits and texts.
ghost use Rattle.std.specs.Prelude.{[], ◌∷◌, ◌≡◌, ◌<◌};
ghost use Rattle.script_pattern.specs.Put.{Begins, Writes};
ghost use Rattle.script_pattern.specs.Digits.{digit, pair, hexadecimal, ident, decimal, is_plain, escape, escaped};

// The lent bytes, and the place behind those that are put there.
#[derive(Drop)]
pub struct Line<'a> {
    pub lent: &'a mut [u8],
    pub at: usize,
}

impl<'a> Line<'a> {
    pub fn new(lent: &'a mut [u8]) -> Line<'a>
        ensures { Begins lent.entry result }
    {
        Line { lent, at: 0 }
    }

    pub fn byte(&mut self, b: u8)
        ensures { Writes self.old self.new (b ∷ []) }
    {
        if self.at < self.lent.len() {
            self.lent[self.at] = b;
            self.at += 1;
        }
    }

    // `hexadecimal` and `escaped` are this walk too: one over a trait of three types would be longer than three loops of a line (no plainer).
    pub fn bytes(&mut self, s: &[u8])
        ensures { Writes self.old self.new s.now }
    {
        for &b in s {
            self.byte(b);
        }
    }

    // A byte in two hexadecimal digits.
    fn pair(&mut self, b: u8)
        ensures { Writes self.old self.new (pair b) }
    {
        self.byte(digit(b / 16));
        self.byte(digit(b % 16))
    }

    pub fn hexadecimal(&mut self, s: &[u8])
        ensures { Writes self.old self.new (hexadecimal s.now) }
    {
        for &b in s {
            self.pair(b);
        }
    }

    // An id: `0x` and 16 digits.
    pub fn ident(&mut self, n: u64)
        ensures { Writes self.old self.new (ident n) }
    {
        self.bytes(b"0x");
        self.hexadecimal(&n.to_be_bytes())
    }

    // The digits are found from the last to the first.
    pub fn decimal(&mut self, n: u64)
        ensures { Writes self.old self.new (decimal n) }
    {
        let mut digits = [0u8; 20];
        let mut v = n;
        for i in (0..20).rev() {
            digits[i] = b'0' + (v % 10) as u8;
            v /= 10;
            if v == 0 {
                return self.bytes(&digits[i..]);
            }
        }
        self.bytes(&digits)
    }

    // A byte of a text: itself, or `\x` and its two digits.
    fn escape(&mut self, b: u8)
        ensures { Writes self.old self.new (escape b) }
    {
        if is_plain(b) {
            return self.byte(b);
        }
        self.bytes(b"\\x");
        self.pair(b)
    }

    // A text in letters.
    pub fn escaped(&mut self, s: &[u8])
        ensures { Writes self.old self.new (escaped s.now) }
    {
        for &b in s {
            self.escape(b);
        }
    }
}

// A hexadecimal digit.
fn digit(n: u8) -> u8
    requires { n < 16 }
    ensures { result ≡ digit n }
{
    if n < 10 { b'0' + n } else { b'W' + n }
}

// Whether a line shows a byte of a text as it is.
fn is_plain(b: u8) -> bool
    ensures { result ≡ is_plain b }
{
    match b {
        b'"' | b'\\' => false,
        _ => b' ' <= b && b <= b'~',
    }
}
