// Row to strip: the second of the two translations, its drawing half (document 01, "Two-width strips", "EAN and UPC strips",
// "Units and working room").
//
// `draw_row` lays the drawn characters out as elements, bar first, in a working room of `LONGEST` and copies them to the lent buffer.
// The strip is `strip_of` (symbologies, specs/Strips.antt): the parts of the symbology drawn with the row of each character. Its numbers
// of elements and modules are document 01's formulas, and they are the strip's length and sum (symbologies, proofs/Totals.antt).
//
//   choices    which row each unit shows
//   layout     the parts, by their description (crate shapes)
#![tactic(auto)]

mod choices;
mod layout;

ghost use Rattle.std.specs.Prelude.{◌≡◌, true, length};
ghost use Rattle.symbologies.specs.Strips.{ready};
ghost use Rattle.units.specs.Laid.{chars_of, laid_of, laid_in};

use symbologies::lengths;
use symbologies::row::Row;
use symbologies::sizes::LONGEST;
use words::{Answer, Elements, Modules};

// The strip of a row of its symbology, in the lent buffer: so many elements and modules; where it is too short, so many elements are needed.
// Stays a row by value and a room whose first elements are copied: document 01's forms.
pub fn draw_row(symbology: u8, row: Row, out: &mut [u8]) -> Result<(Elements, Modules), Answer>
    requires { ready symbology (chars_of row) ≡ true }
    ensures value { result ≡ laid_of symbology (chars_of row) (length out.old) }
    ensures out_after { out.new ≡ laid_in symbology (chars_of row) out.old }
{
    let count = lengths::elements_of(symbology, row.len);
    if out.len() < count {
        return Err(Answer::ShortForStrip(Elements(count)));
    }
    let mut room = [0; LONGEST];
    layout::build(&mut room, symbology, &row.codes[..row.len]);
    out[..count].copy_from_slice(&room[..count]);
    let modules = lengths::modules_of(symbology, &row);
    Ok((Elements(count), Modules(modules)))
}
