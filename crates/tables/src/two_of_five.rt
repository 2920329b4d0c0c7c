// The digits, which Industrial, Interleaved and Matrix 2 of 5 (tables 4.4 to 4.6), EAN and UPC share.
ghost use Rattle.std.specs.Prelude.{◌≡◌, ltb};
ghost use Rattle.laws.specs.Search.{some_if, below};
ghost use Rattle.tables.specs.Alphabet.{value_of, byte_of};
ghost use Rattle.tables.specs.TwoOfFive.{alphabet_digits};

// The characters by value.
const CHARS: [u8; 10] = *b"0123456789";

// The digit of a byte, if it is one.
pub fn value(byte: u8) -> Option<u8>
    ensures { result ≡ below 10 (value_of alphabet_digits byte) }
{
    match byte {
        b'0'..=b'9' => Some(byte - b'0'),
        _ => None,
    }
}

// The byte of a digit, if it is one.
pub fn byte(value: u8) -> Option<u8>
    ensures { result ≡ some_if (ltb value 10) (byte_of alphabet_digits value) }
{
    super::entry(&CHARS, value)
}
