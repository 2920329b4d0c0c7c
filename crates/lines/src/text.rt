// A line of text in a lent buffer: numbers in decimal and widths as digits.
ghost use Rattle.std.specs.Prelude.{◌≡◌, [], ◌∷◌, ◌++◌, ℕ, ◌+◌, ◌≤◌, ◌<◌, length, get_or};
ghost use Rattle.lines.specs.Text.{decimal, widths};
ghost use Rattle.lines.specs.Wrote.{Wrote};

// A lent buffer, and the place behind what is written there: each call writes at the place and moves it on.
#[derive(Drop)]
pub struct Line<'a> {
    pub out: &'a mut [u8],
    pub at: usize,
}

impl Line<'_> {
    pub fn byte(&mut self, byte: u8)
        requires { self.old.at < length self.old.out.now }
        ensures { Wrote self.old (byte ∷ []) self.new }
    {
        self.out[self.at] = byte;
        self.at += 1;
    }

    pub fn word(&mut self, word: &[u8])
        requires { self.old.at + length word.now ≤ length self.old.out.now }
        ensures { Wrote self.old word.now self.new }
    {
        let behind = self.at + word.len();
        self.out[self.at..behind].copy_from_slice(word);
        self.at = behind;
    }

    // A number, and the blank or the newline behind it.
    pub fn number(&mut self, n: u64, end: u8)
        requires { self.old.at + 21 ≤ length self.old.out.now }
        ensures put { Wrote self.old (decimal n ++ (end ∷ [])) self.new }
        ensures upper_bound { self.new.at ≤ self.old.at + 21 }
    {
        self.digits(n);
        self.byte(end);
    }

    fn digits(&mut self, n: u64)
        requires { self.old.at + 20 ≤ length self.old.out.now }
        ensures put { Wrote self.old (decimal n) self.new }
        ensures upper_bound { self.new.at ≤ self.old.at + 20 }
    {
        let behind = self.at + count_digits(n);
        put_digits(n, &mut self.out[self.at..behind]);
        self.at = behind;
    }

    // The widths of a strip as digits.
    pub fn widths(&mut self, strip: &[u8])
        requires fits { self.old.at + length strip.now ≤ length self.old.out.now }
        requires by_index { (i : ℕ) → get_or strip.now i 0 ≤ 4 }
        ensures { Wrote self.old (widths strip.now) self.new }
    {
        let behind = self.at + strip.len();
        put_widths(strip, &mut self.out[self.at..behind]);
        self.at = behind;
    }
}

// How many decimal digits a number has.
// Stays by hand, as `put_digits` does: std says of a `write!` into a slice how much it took, and not what the slice then holds.
fn count_digits(n: u64) -> usize
    ensures value { result ≡ length (decimal n) }
    ensures upper_bound { result ≤ 20 }
{
    n.checked_ilog10().unwrap_or(0) as usize + 1
}

// The digits of a number, from the last.
fn put_digits(n: u64, digits: &mut [u8])
    requires { length digits.old ≡ length (decimal n) }
    ensures { digits.new ≡ decimal n }
{
    let mut left = n;
    // Stays a `for` over indexes: a proof does not know what `iter_mut().rev()` leaves in the slice, so the loop did not prove.
    for i in (0..digits.len()).rev() {
        digits[i] = b'0' + (left % 10) as u8;
        left /= 10;
    }
}

fn put_widths(strip: &[u8], digits: &mut [u8])
    requires same_length { length digits.old ≡ length strip.now }
    requires by_index { (i : ℕ) → get_or strip.now i 0 ≤ 4 }
    ensures { digits.new ≡ widths strip.now }
{
    // Stays a `for` with an index: a proof does not know what `iter_mut().zip(strip)` leaves in the slice, so the loop did not prove.
    for (i, &width) in strip.iter().enumerate() {
        digits[i] = b'0' + width;
    }
}
