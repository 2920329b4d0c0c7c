// A row: the drawn characters, as values of their alphabet, in so many places, with their number.
ghost use Rattle.std.specs.Prelude.{◌≡◌, Ok};
ghost use Rattle.words.specs.Order.{turned};
ghost use Rattle.symbologies.specs.Told.{told, filled_as};

use super::sizes::PLACES;
use words::Answer;

#[derive(Clone, Copy)]
pub struct Row {
    pub codes: [u8; PLACES],
    pub len: usize,
}

impl Row {
    // No characters.
    pub const EMPTY: Row = Row {
        codes: [0; PLACES],
        len: 0,
    };
}

// An answer that turns an input away; the lent row is emptied.
pub fn refuse(answer: Answer, row: &mut Row) -> Result<(), Answer>
    ensures { filled_as result row.new ≡ told (turned answer) }
{
    *row = Row::EMPTY;
    Err(answer)
}

// The lent row has so many characters.
pub fn give(len: usize, row: &mut Row) -> Result<(), Answer>
    ensures value { result ≡ Ok tt }
    ensures row_after { row.new ≡ record { codes = row.old.codes; len = len } }
{
    row.len = len;
    Ok(())
}
