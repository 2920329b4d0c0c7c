// Codabar: table 4.1. Values 0 to 15 are the inner characters, 16 to 19 the letters that start and stop.
ghost use Rattle.std.specs.Prelude.{◌≡◌, ltb};
ghost use Rattle.laws.specs.Search.{some_if, below};
ghost use Rattle.tables.specs.Alphabet.{value_of, byte_of};
ghost use Rattle.tables.specs.Codabar.{alphabet_codabar};

// The characters by value.
const CHARS: [u8; 20] = *b"0123456789-$:/.+ABCD";

// The value of a byte, if it is a character.
pub fn value(byte: u8) -> Option<u8>
    ensures { result ≡ below 20 (value_of alphabet_codabar byte) }
{
    // Stays a `match` of its own, beside `CHARS`: the tables' ranges differ, and a search of `CHARS` would look at up to 43 bytes for each.
    match byte {
        b'0'..=b'9' => Some(byte - b'0'),
        b'A'..=b'D' => Some(byte - b'A' + 16),
        b'-' => Some(10),
        b'$' => Some(11),
        b':' => Some(12),
        b'/' => Some(13),
        b'.' => Some(14),
        b'+' => Some(15),
        _ => None,
    }
}

// The byte of a value, if it is a character's.
pub fn byte(value: u8) -> Option<u8>
    ensures { result ≡ some_if (ltb value 20) (byte_of alphabet_codabar value) }
{
    super::entry(&CHARS, value)
}
