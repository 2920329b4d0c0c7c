// Data to characters, by what the bytes of a symbology draw where they stand.
ghost use Rattle.std.specs.Prelude.{◌≡◌, [], ◌<◌, ◌≤◌, length};
ghost use Rattle.coders.specs.Pieces.{piece_list};
ghost use Rattle.symbologies.specs.Sizes.{places};
ghost use Rattle.symbologies.specs.Told.{row_in};
ghost use Rattle.symbologies.specs.Symbologies.{symbology_of};
ghost use Rattle.rows.specs.Held.{pushed, put_all, SpelledAs};

use coders::Piece;
use sums::Sum;
use symbologies::row::Row;
use symbologies::sizes::PLACES;
use words::{Answer, DataPlace};

// A character behind those of a row; past the places none is stored.
pub fn push(row: &mut Row, value: u8)
    requires { row.old.len < 999 }
    ensures { row.new ≡ pushed row.old value }
{
    // In a local, since a length that is read again behind the store to `codes` makes each character wait for memory (docs/SPEED.md).
    let len = row.len;
    // Stays an `if`: tried with `get_mut`, the proof did not close, since what it wrote of an array is not known.
    if len < PLACES {
        row.codes[len] = value;
    }
    row.len = len + 1;
}

// A piece's characters behind those of a row.
fn put(row: &mut Row, piece: Piece)
    requires { row.old.len < 900 }
    ensures { row.new ≡ put_all row.old (piece_list piece) }
{
    match piece {
        Piece::Alone(value) => push(row, value),
        Piece::Pair(shift, letter) => {
            push(row, shift);
            push(row, letter);
        }
        Piece::Nothing => {}
    }
}

// 4, or the characters of data in an empty row, and the sum of those beside the check that the data hold in mode 1.
pub fn spell_text(symbology: u8, mode: u8, text: &[u8], row: &mut Row) -> Result<Sum, Answer>
    requires { ((0 < length text.now) × (length text.now ≤ places)) × (row.old ≡ row_in []) }
    ensures { SpelledAs (symbology_of symbology) mode text.now row.new result }
{
    let own = sums::own_of(mode, text.len());
    let mut sum = sums::start_of(symbology, own);
    for (i, &byte) in text.iter().enumerate() {
        let piece = coders::drawn(symbology, mode, i == 0, i + 1 == text.len(), byte);
        if coders::is_nothing(piece) {
            return Err(Answer::BadByte(DataPlace(i)));
        }
        put(row, piece);
        if i != own {
            sum = sums::take_up(sum, piece);
        }
    }
    Ok(sum)
}
