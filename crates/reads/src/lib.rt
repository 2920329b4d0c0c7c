// Strip to row: the second of the two translations, its reading half (document 01, "Units and working room").
//
// `row_seen` hands back the drawn characters of a strip in a lent row, or turns it away with the first of 1, 2, 9, 10, 11 that applies.
// The strip's length gives the count of characters; with it the symbology's parts say which units stand where. They are tested left to
// right, and the first that is in no row ends the walk.
//
//   position    the reading position, a struct of slice and place, and thin functions over the plain core (crate search)
//   walk        the loop over a part's units, which hands the position from unit to unit, and in it the search over rows
//   chars       characters from the rows that the units show
#![tactic(auto)]

mod chars;
mod position;
mod walk;

ghost use Rattle.std.specs.Prelude.{◌≡◌, true, [], ℕ, ◌<◌, ◌≤◌, get_or};
ghost use Rattle.laws.specs.Units.{read};
ghost use Rattle.symbologies.specs.Sizes.{places};
ghost use Rattle.symbologies.specs.Strips.{units_of, counted, row_seen};
ghost use Rattle.symbologies.specs.Told.{pad, told, filled_as};
ghost use Rattle.reads.specs.Walk.{SeenIn, row_from, shown, shown_in};

use symbologies::row::Row;
use symbologies::sizes::PLACES;
use symbologies::{judging, lengths, row};
use words::Answer;

// The row of a strip, in the lent row.
pub fn row_seen(symbology: u8, mode: u8, strip: &[u8], row: &mut Row) -> Result<(), Answer>
    ensures { filled_as result row.new ≡ told (row_seen symbology mode strip.now) }
{
    *row = Row::EMPTY;
    let n = lengths::count_for(symbology, strip.len());
    judging::judge_count(symbology, mode, n)?;
    // Stays a `match`: `give` and `refuse` both take the lent row.
    match read_strip(symbology, n, strip, &mut row.codes) {
        Ok(()) => row::give(n, row),
        Err(answer) => row::refuse(answer, row),
    }
}

// 10, 11, or the characters of a row of n, in places that were empty.
// Stays all the places and n: what is promised, `SeenIn`, is of every place, those behind the characters too.
fn read_strip(symbology: u8, n: usize, strip: &[u8], codes: &mut [u8; PLACES]) -> Result<(), Answer>
    requires { (counted symbology n ≡ true) × (codes.old ≡ pad places []) }
    ensures { SeenIn (shown symbology n (read (units_of symbology n) strip.now)) n result codes.new }
{
    walk::read_all(strip, symbology, n, codes).map_err(Answer::NoSuchUnit)?;
    match symbology {
        3 => chars::letters(codes, n),
        5 => chars::pairs(codes, n),
        7 => see_first(codes)?,
        _ => {}
    }
    Ok(())
}

// EAN-13: 11, or the characters, whose first digit stands in the sets of the left units.
fn see_first(codes: &mut [u8; PLACES]) -> Result<(), Answer>
    requires codes_small { (i : ℕ) → get_or codes.old i 0 < 100 }
    requires codes_bound { (get_or codes.old 0 0 < 10) × (((i : ℕ) → 7 ≤ i → get_or codes.old i 0 < 10) × ((i : ℕ) → 13 ≤ i → get_or codes.old i 0 ≡ 0)) }
    ensures { SeenIn (row_from 7 13 (shown_in 7 codes.old)) 13 result codes.new }
{
    let first = tables::ean::first_digit(chars::sides(codes));
    codes[0] = first.ok_or(Answer::NoSuchParities)?;
    Ok(())
}
