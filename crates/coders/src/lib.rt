// What a byte draws where it stands, and the byte that draws a character or a pair, by symbology and mode (document 01, "What is drawn and
// what is read", "Full ASCII"). A place is told by whether it is the first and whether it is the last.
#![tactic(auto)]

mod full_ascii;

ghost use Rattle.std.specs.Prelude.{◌≡◌, [], ◌∷◌, ltb};
ghost use Rattle.laws.specs.Search.{below};
ghost use Rattle.laws.specs.Spelling.{is_end, byte_for};
ghost use Rattle.symbologies.specs.Coders.{placed};
ghost use Rattle.symbologies.specs.Symbologies.{symbology_of};
ghost use Rattle.coders.specs.Pieces.{piece_list, is_nil, listed, drawn_as};

use full_ascii::{PERCENT, PLUS, SLASH};

// The characters that a byte draws: one, a shift character and a letter, or none where it is refused.
// Stays an enum with a case for none: the theorem `is-nothing` is about `is_nothing`, which tells that case from the others.
#[derive(Clone, Copy)]
pub enum Piece {
    Alone(u8),
    Pair(u8, u8),
    Nothing,
}

// Whether a piece has no character.
pub fn is_nothing(piece: Piece) -> bool
    ensures { result ≡ is_nil (piece_list piece) }
{
    matches!(piece, Piece::Nothing)
}

// The symbology whose characters stand at a place: full ASCII's last byte is, in mode 1, a raw character of Code 39.
fn drawn_as(symbology: u8, mode: u8, last: bool) -> u8
    ensures { result ≡ drawn_as symbology mode last }
{
    if symbology == 2 && mode == 1 && last {
        1
    } else {
        symbology
    }
}

// A character that draws itself, if there is one.
fn plain(value: Option<u8>) -> Piece
    ensures { piece_list result ≡ listed value }
{
    value.map_or(Piece::Nothing, Piece::Alone)
}

// Whether a place is the first or the last.
// Stays two flags, `first` and `last`, here and in the calls: each caller has them as two comparisons of an index, and the promises name both.
fn is_end(first: bool, last: bool) -> bool
    ensures { result ≡ is_end (record { first = first; last = last }) }
{
    first || last
}

// Whether a character of Codabar may stand there: the letters at the ends, the others inside.
fn is_placed(end: bool, value: u8) -> bool
    ensures { result ≡ placed end value }
{
    if end {
        (16..20).contains(&value)
    } else {
        value < 16
    }
}

// What a byte draws.
// By the symbology, and by `drawn_as` for full ASCII alone: the symbology is the same for a whole label, and who stands at a place is not.
pub fn drawn(symbology: u8, mode: u8, first: bool, last: bool, byte: u8) -> Piece
    ensures { piece_list result ≡ ((symbology_of symbology).coder mode).drawn (record { first = first; last = last }) byte }
{
    match symbology {
        1 => plain(tables::code39::value(byte)),
        2 if drawn_as(symbology, mode, last) == 2 => full_ascii::drawn(byte),
        2 => plain(tables::code39::value(byte)),
        3 => {
            let end = is_end(first, last);
            plain(tables::codabar::value(byte).filter(|&value| is_placed(end, value)))
        }
        _ => plain(tables::two_of_five::value(byte)),
    }
}

// The byte that draws a character alone, if one does.
pub fn alone(symbology: u8, mode: u8, first: bool, last: bool, value: u8) -> Option<u8>
    ensures { result ≡ below 256 (byte_for ((symbology_of symbology).coder mode) (record { first = first; last = last }) (value ∷ [])) }
{
    match drawn_as(symbology, mode, last) {
        1 => tables::code39::byte(value),
        2 => full_ascii::alone(value),
        3 => {
            if is_placed(is_end(first, last), value) {
                tables::codabar::byte(value)
            } else {
                None
            }
        }
        _ => tables::two_of_five::byte(value),
    }
}

// Whether a byte draws a character alone.
pub fn is_alone(symbology: u8, mode: u8, first: bool, last: bool, value: u8) -> bool
    ensures { result ≡ ltb (byte_for ((symbology_of symbology).coder mode) (record { first = first; last = last }) (value ∷ [])) 256 }
{
    alone(symbology, mode, first, last, value).is_some()
}

// Whether a character begins a pair, where the pair would be the last item or not.
pub fn is_shift(symbology: u8, mode: u8, end: bool, value: u8) -> bool
    ensures { result ≡ ((symbology_of symbology).coder mode).shift end value }
{
    drawn_as(symbology, mode, end) == 2 && matches!(value, SLASH | PLUS | PERCENT)
}

// The byte that draws a pair, if one does.
pub fn pair(symbology: u8, mode: u8, first: bool, last: bool, shift: u8, letter: u8) -> Option<u8>
    ensures { result ≡ below 256 (byte_for ((symbology_of symbology).coder mode) (record { first = first; last = last }) (shift ∷ letter ∷ [])) }
{
    if drawn_as(symbology, mode, last) != 2 {
        return None;
    }
    match shift {
        SLASH => full_ascii::behind_slash(letter),
        PLUS => full_ascii::behind_plus(letter),
        PERCENT => full_ascii::behind_percent(letter),
        _ => None,
    }
}
