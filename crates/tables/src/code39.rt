// Code 39: table 4.3. Values 0 to 42 are the characters.
ghost use Rattle.std.specs.Prelude.{◌≡◌, ltb};
ghost use Rattle.laws.specs.Search.{some_if, below};
ghost use Rattle.tables.specs.Alphabet.{value_of, byte_of};
ghost use Rattle.tables.specs.Code39.{alphabet39};

// The characters by value.
const CHARS: [u8; 43] = *b"0123456789ABCDEFGHIJKLMNOPQRSTUVWXYZ-. $/+%";

// The value of a byte, if it is a character.
pub fn value(byte: u8) -> Option<u8>
    ensures { result ≡ below 43 (value_of alphabet39 byte) }
{
    // Stays a `match` of its own, beside `CHARS`: the tables' ranges differ, and a search of `CHARS` would look at up to 43 bytes for each.
    match byte {
        b'0'..=b'9' => Some(byte - b'0'),
        b'A'..=b'Z' => Some(byte - b'A' + 10),
        b'-' => Some(36),
        b'.' => Some(37),
        b' ' => Some(38),
        b'$' => Some(39),
        b'/' => Some(40),
        b'+' => Some(41),
        b'%' => Some(42),
        _ => None,
    }
}

// The byte of a value, if it is a character's.
pub fn byte(value: u8) -> Option<u8>
    ensures { result ≡ some_if (ltb value 43) (byte_of alphabet39 value) }
{
    super::entry(&CHARS, value)
}
