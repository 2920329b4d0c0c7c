// The parts of a line: words with one blank between them, numbers and data.
ghost use Rattle.std.specs.Prelude.{◌<◌, ◌≤◌, length, IfSome};

// The words of a line that are still to be read.
#[derive(Drop)]
pub struct Words<'a> {
    pub left: &'a [u8],
}

impl<'a> Words<'a> {
    // The next word, which is empty if there is none.
    pub fn word(&mut self) -> &'a [u8] {
        let left = self.left;
        match left.iter().position(|&byte| byte == b' ') {
            Some(blank) => {
                self.left = &left[blank + 1..];
                &left[..blank]
            }
            None => {
                self.left = &[];
                left
            }
        }
    }

    // The number that the next word is, up to 999.
    pub fn number(&mut self) -> Option<usize> {
        number(self.word())
    }

    pub fn byte(&mut self) -> Option<u8> {
        u8::try_from(self.number()?).ok()
    }
}

fn number(word: &[u8]) -> Option<usize> {
    if word.is_empty() {
        return None;
    }
    let mut number = 0;
    for &byte in word {
        if !byte.is_ascii_digit() {
            return None;
        }
        number = number * 10 + usize::from(byte - b'0');
        if number > 999 {
            return None;
        }
    }
    Some(number)
}

// How data are written: as text, in which a printed character stands for itself, or as widths, in which a digit stands for its
// value. A backslash and two hexadecimal digits stand for any byte.
#[derive(Clone, Copy)]
pub enum Form {
    Text,
    Widths,
}

impl Form {
    // The character that stands for a byte, if there is one.
    pub fn character(self, byte: u8) -> Option<u8> {
        match (self, byte) {
            (Form::Text, b'\\') => None,
            (Form::Text, b'!'..=b'~') => Some(byte),
            (Form::Widths, 0..=9) => Some(byte + b'0'),
            _ => None,
        }
    }

    // The byte that a character stands for, if it stands for one.
    fn byte(self, character: u8) -> Option<u8> {
        match (self, character) {
            (Form::Text, b'\\') => None,
            (Form::Text, b'!'..=b'~') => Some(character),
            (Form::Widths, b'0'..=b'9') => Some(character - b'0'),
            _ => None,
        }
    }

    // The first byte of data, and what is written behind it.
    fn first(self, text: &[u8]) -> Option<(u8, &[u8])>
        ensures { IfSome result (λ r. length r.1.now < length text.now) }
    {
        match text {
            [b'\\', high, low, rest @ ..] => Some((hex(*high)? * 16 + hex(*low)?, rest)),
            [character, rest @ ..] => Some((self.byte(*character)?, rest)),
            [] => None,
        }
    }

    // Puts data into `out`: how many bytes they are, if they are understood and fit.
    pub fn read(self, text: &[u8], out: &mut [u8]) -> Option<usize>
        ensures { IfSome result (λ n. n ≤ length out.old) }
    {
        let mut left = text;
        let mut count = 0;
        // Stays a `while`: a byte is written with one character or with three, and no iterator of std steps by either.
        while !left.is_empty() {
            let (byte, rest) = self.first(left)?;
            *out.get_mut(count)? = byte;
            count += 1;
            left = rest;
        }
        Some(count)
    }
}

// Stays a `match`: std's `to_digit(16)` takes capital letters too.
fn hex(digit: u8) -> Option<u8>
    ensures { IfSome result (λ n. n < 16) }
{
    match digit {
        b'0'..=b'9' => Some(digit - b'0'),
        b'a'..=b'f' => Some(digit - b'a' + 10),
        _ => None,
    }
}
