// Full ASCII (source 004, 10.1.3, as document 01 words it): what a byte draws, as values of Code 39, and the way back.
ghost use Rattle.std.specs.Prelude.{◌≡◌, [], ◌∷◌};
ghost use Rattle.laws.specs.Search.{below};
ghost use Rattle.laws.specs.Spelling.{byte_for};
ghost use Rattle.symbologies.specs.Coders.{full_coder};
ghost use Rattle.coders.specs.Pieces.{piece_list, edge};

use super::Piece;

// The shift characters, and the letters that the ranges begin with, as values of table 4.3.
pub const SLASH: u8 = 40;

pub const PLUS: u8 = 41;

pub const PERCENT: u8 = 42;

const A: u8 = 10;

const F: u8 = 15;

const K: u8 = 20;

const O: u8 = 24;

const P: u8 = 25;

const V: u8 = 31;

const W: u8 = 32;

const Z: u8 = 35;

// The characters that a byte draws, range by range.
#[tactic(auto, unfolding(symbologies::specs::Coders::full_coder, tables::specs::Alphabet::value_of, tables::specs::Code39::alphabet39, tables::specs::Code39::chars39, laws::specs::Search::index_in, tables::specs::FullAscii::drawing, tables::specs::FullAscii::ranges))]
pub fn drawn(byte: u8) -> Piece
    ensures { piece_list result ≡ full_coder.drawn edge byte }
{
    match byte {
        b' ' => Piece::Alone(38),
        b'-' => Piece::Alone(36),
        b'.' => Piece::Alone(37),
        b'0'..=b'9' => Piece::Alone(byte - b'0'),
        b'A'..=b'Z' => Piece::Alone(byte - b'A' + A),
        0x21..=0x2C => Piece::Pair(SLASH, byte - 0x21 + A),
        0x2F => Piece::Pair(SLASH, O),
        0x3A => Piece::Pair(SLASH, Z),
        0x3B..=0x3F => Piece::Pair(PERCENT, byte - 0x3B + F),
        0x40 => Piece::Pair(PERCENT, V),
        0x5B..=0x5F => Piece::Pair(PERCENT, byte - 0x5B + K),
        0x60 => Piece::Pair(PERCENT, W),
        0x61..=0x7A => Piece::Pair(PLUS, byte - 0x61 + A),
        0x7B..=0x7F => Piece::Pair(PERCENT, byte - 0x7B + P),
        _ => Piece::Nothing,
    }
}

// The byte that draws a character alone, if one does.
pub fn alone(value: u8) -> Option<u8>
    ensures { result ≡ below 256 (byte_for full_coder edge (value ∷ [])) }
{
    if value < 39 {
        tables::code39::byte(value)
    } else {
        None
    }
}

// The byte that draws a pair, by the character behind /, if one does.
// Stays apart from the two below: three columns of source 004's table, with nothing in common but the form.
pub fn behind_slash(value: u8) -> Option<u8>
    ensures { result ≡ below 256 (byte_for full_coder edge (40 ∷ value ∷ [])) }
{
    match value {
        10..=21 => Some(value - 10 + 0x21),
        24 => Some(0x2F),
        35 => Some(0x3A),
        _ => None,
    }
}

// Behind +.
pub fn behind_plus(value: u8) -> Option<u8>
    ensures { result ≡ below 256 (byte_for full_coder edge (41 ∷ value ∷ [])) }
{
    match value {
        10..=35 => Some(value - 10 + 0x61),
        _ => None,
    }
}

// Behind %.
pub fn behind_percent(value: u8) -> Option<u8>
    ensures { result ≡ below 256 (byte_for full_coder edge (42 ∷ value ∷ [])) }
{
    match value {
        15..=19 => Some(value - 15 + 0x3B),
        20..=24 => Some(value - 20 + 0x5B),
        25..=29 => Some(value - 25 + 0x7B),
        31 => Some(0x40),
        32 => Some(0x60),
        _ => None,
    }
}
