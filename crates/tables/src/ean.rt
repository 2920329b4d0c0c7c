// EAN-13: the parities of table 5.2.
ghost use Rattle.std.specs.Prelude.{◌≡◌, ltb};
ghost use Rattle.laws.specs.Search.{some_if, below};
ghost use Rattle.tables.specs.Ean.{parities_of, first_digit};

// The parities of D2 to D7 by D1: the highest bit is D2's, and 1 is even.
const PARITIES: [u16; 10] = [
    0b000000, 0b001011, 0b001101, 0b001110, 0b010011, 0b011001, 0b011100, 0b010101, 0b010110,
    0b011010,
];

// The parities that carry a first digit, if it is a digit.
pub fn parities_of(first: u8) -> Option<u16>
    ensures { result ≡ some_if (ltb first 10) (parities_of first) }
{
    super::entry(&PARITIES, first)
}

// The first digit that parities carry, if they carry one.
pub fn first_digit(parities: u16) -> Option<u8>
    ensures { result ≡ below 10 (first_digit parities) }
{
    u8::try_from(laws::index_in(&PARITIES, parities)?).ok()
}
