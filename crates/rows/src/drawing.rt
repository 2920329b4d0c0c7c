// Data to row, with document 01's refusals in its order: 1, 2, 3, 13, 4, 5, 6, 7.
ghost use Rattle.std.specs.Prelude.{◌≡◌, List, [], ℕ, ◌+◌, ◌<◌, ◌≤◌, length};
ghost use Rattle.symbologies.specs.Sizes.{places};
ghost use Rattle.laws.specs.Rules.{check_of};
ghost use Rattle.symbologies.specs.Limits.{added};
ghost use Rattle.symbologies.specs.Told.{row_in, told, filled_as};
ghost use Rattle.symbologies.specs.Symbologies.{Symbology, symbology_of};
ghost use Rattle.symbologies.specs.Rows.{row_of_field};
ghost use Rattle.sums.specs.Sums.{others_in};
ghost use Rattle.rows.specs.Held.{settled, closed_row, filled_row};

use super::spelling;
use symbologies::row::Row;
use symbologies::{judging, row};
use words::{Answer, CharPlace};

// The drawn characters: mode 2 adds the check.
fn drawn_count(mode: u8, len: usize) -> usize
    requires { len < 900 }
    ensures { result ≡ len + added mode }
{
    len + usize::from(mode == 2)
}

// 7: in mode 1 the check is the last character, mode 2 puts it in behind the others.
fn close(mode: u8, right: u8, row: &mut Row) -> Result<(), Answer>
    requires { (mode < 3) × ((0 < row.old.len) × (row.old.len + added mode ≤ places)) }
    ensures { (y : Symbology) (h : List ℕ) → y.rule.behind ≡ 0 → row.old ≡ row_in h → right ≡ check_of y.rule (others_in mode h) → settled result row.new ≡ told (closed_row y mode h) }
{
    match mode {
        1 => {
            let last = row.len - 1;
            if row.codes[last] != right {
                return Err(Answer::BadCheck(CharPlace(last)));
            }
        }
        2 => spelling::push(row, right),
        _ => {}
    }
    Ok(())
}

// 4, 5, 6, 7, in an empty row. Where one applies, the row holds what was spelled so far.
fn fill(symbology: u8, mode: u8, text: &[u8], row: &mut Row) -> Result<(), Answer>
    requires { (mode < 3) × (((0 < length text.now) × (length text.now ≤ places)) × (row.old ≡ row_in [])) }
    ensures { settled result row.new ≡ told (filled_row (symbology_of symbology) mode text.now) }
{
    let sum = spelling::spell_text(symbology, mode, text, row)?;
    judging::judge_drawn(symbology, drawn_count(mode, row.len))?;
    close(mode, sums::check(sum), row)
}

// The row of a field, by the tests in their order. What is turned away has none.
pub fn row_of_field(
    symbology: u8,
    mode: u8,
    count: usize,
    field: &[u8],
    row: &mut Row,
) -> Result<(), Answer>
    ensures { filled_as result row.new ≡ told (row_of_field symbology mode count field.now) }
{
    *row = Row::EMPTY;
    judging::judge_field(symbology, mode, count, field)?;
    // Stays a `match`: tried with `or_else`, the proof did not close, since what a closure writes to a lent row has no name in it.
    match fill(symbology, mode, &field[..count], row) {
        Ok(()) => Ok(()),
        Err(answer) => row::refuse(answer, row),
    }
}
