// The strip, put part by part and unit by unit in lent room (document 01, "Two-width strips", "EAN and UPC strips").
ghost use Rattle.std.specs.Prelude.{◌≡◌, true, false, ◌||◌, [], ◌∷◌, ◌++◌, ◌+◌, ◌*◌, ◌<◌, ◌≤◌, eqb, length};
ghost use Rattle.laws.specs.Units.{strip, Fits};
ghost use Rattle.laws.specs.Writing.{Put, front};
ghost use Rattle.laws.proofs.Spelling.{Below};
ghost use Rattle.symbologies.specs.Strips.{units_of, strip_of, ready};
ghost use Rattle.shapes.specs.Sets.{word_at, sets_of};
ghost use Rattle.shapes.specs.Described.{gap_in, mark_in, row_in, unit_in, is_none, sizeable, within, sound};
ghost use Rattle.units.specs.Units.{laid};

use super::choices;
use shapes::parts::{Mark, Part, Unit};
use shapes::{parts, sets};
use words::ElementPlace;

// The parting space, if there is one, and the place behind it.
// Stays a buffer and a place, here and below: a struct around a `&mut` would only stand before both in each clause, which says `Put` of them.
fn put_gap(out: &mut [u8], place: ElementPlace, gap: bool) -> usize
    requires { place.0 + length (strip (gap_in gap) []) ≤ length out.old }
    ensures { Put out.old place.0 (strip (gap_in gap) []) out.new result }
{
    let at = place.0;
    if gap {
        out[at] = 1;
        at + 1
    } else {
        at
    }
}

// A mark; one of no elements is none.
fn put_mark(out: &mut [u8], place: ElementPlace, mark: Mark) -> ElementPlace
    requires elements_value { (eqb mark.elements 0 || sizeable 9 mark.elements) ≡ true }
    requires mark_in_bounds { place.0 + length (strip (mark_in mark) []) ≤ length out.old }
    ensures { Put out.old place.0 (strip (mark_in mark) []) out.new result.0 }
{
    let k = mark.elements;
    if k == 0 {
        return place;
    }
    let at = put_gap(out, place, mark.gap);
    writers::put_row(out, at, k, mark.word);
    ElementPlace(at + k)
}

// The word of row c, counted through the sets from one on.
fn word_at(sets: &[[u64; 10]], set: usize, c: usize) -> u64
    requires { 10 * set + c < 10 * length sets.now }
    ensures { result ≡ word_at sets.now set c }
{
    sets[set + c / 10][c % 10]
}

// The word of the row that a unit shows for choice c. Where its rows are one set, nothing is divided.
fn word_of(sets: &[[u64; 10]], unit: Unit, c: usize) -> u64
    requires { (10 * unit.set + unit.size ≤ 10 * length sets.now) × (c < unit.size) }
    ensures { result ≡ word_at sets.now unit.set c }
{
    let set = unit.set;
    if unit.size <= 10 {
        return sets[set][c];
    }
    word_at(sets, set, c)
}

// The row that a unit shows for choice c, or the pair.
fn put_shown(out: &mut [u8], at: usize, sets: &[[u64; 10]], unit: Unit, c: usize)
    requires elements_value { (sizeable 10 unit.elements ≡ true) × ((within (length sets.now) unit ≡ true) × (c < unit.size)) }
    requires elements_in_bounds { at + unit.elements ≤ length out.old }
    ensures { Put out.old at (row_in sets.now unit c) out.new (at + unit.elements) }
{
    let k = unit.elements;
    if k < 10 {
        writers::put_row(out, at, k, word_of(sets, unit, c));
    } else {
        writers::put_pair(
            out,
            at,
            word_at(sets, unit.set, c / 10),
            word_at(sets, unit.set, c % 10),
        );
    }
}

// The unit that shows row c.
fn put_unit(
    out: &mut [u8],
    place: ElementPlace,
    sets: &[[u64; 10]],
    unit: Unit,
    c: u8,
) -> ElementPlace
    requires elements_value { (sizeable 10 unit.elements ≡ true) × ((within (length sets.now) unit ≡ true) × (c < unit.size)) }
    requires c_in_bounds { place.0 + length (strip (unit_in sets.now unit) (c ∷ [])) ≤ length out.old }
    ensures { Put out.old place.0 (strip (unit_in sets.now unit) (c ∷ [])) out.new result.0 }
{
    let at = put_gap(out, place, unit.gap);
    put_shown(out, at, sets, unit, c as usize);
    ElementPlace(at + unit.elements)
}

// A part: its mark, then a unit for each choice.
fn put_part(
    out: &mut [u8],
    from: ElementPlace,
    sets: &[[u64; 10]],
    part: Part,
    choices: &[u8],
) -> ElementPlace
    requires part_value { (sound (length sets.now) part ≡ true) × (0 < length choices.now → is_none part.count ≡ false) }
    requires choices_value { Below part.unit.size choices.now }
    requires choices_in_bounds { from.0 + length (strip (mark_in part.mark) [] ++ laid (unit_in sets.now part.unit) choices.now) ≤ length out.old }
    ensures { Put out.old from.0 (strip (mark_in part.mark) [] ++ laid (unit_in sets.now part.unit) choices.now) out.new result.0 }
{
    let mut at = put_mark(out, from, part.mark);
    for &choice in choices {
        at = put_unit(out, at, sets, part.unit, choice);
    }
    at
}

// The parts of a strip of n characters, one behind the other, with a choice for each unit.
fn put_parts(out: &mut [u8], sets: &[[u64; 10]], symbology: u8, choices: &[u8], n: usize)
    requires sets_value { sets.now ≡ sets_of symbology }
    requires fits { Fits (units_of symbology n) choices.now }
    requires choices_in_bounds { length (strip (units_of symbology n) choices.now) ≤ length out.old }
    ensures { out.new ≡ front (strip (units_of symbology n) choices.now) out.old }
{
    let mut at = ElementPlace(0);
    let mut rest = choices;
    for i in 0..parts::part_count(symbology) {
        let part = parts::part_of(symbology, i);
        let (own, others) = rest.split_at(parts::count_in(part.count, n));
        at = put_part(out, at, sets, part, own);
        rest = others;
    }
}

// The strip of drawn characters, by the sets of their symbology and the row that each unit shows.
// Stays a `match` on the number, with a call an arm: the sets are arrays of different sizes, and three symbologies have choices of their own.
pub fn build(out: &mut [u8], symbology: u8, chars: &[u8])
    requires chars_value { ready symbology chars.now ≡ true }
    requires chars_in_bounds { length (strip_of symbology chars.now) ≤ length out.old }
    ensures { out.new ≡ front (strip_of symbology chars.now) out.old }
{
    let n = chars.len();
    match symbology {
        1 | 2 => put_parts(out, &sets::code39(), symbology, chars, n),
        3 => {
            let letters = choices::lettered(chars);
            put_parts(out, &sets::codabar(), symbology, &letters[..n], n);
        }
        4 => put_parts(out, &sets::industrial(), symbology, chars, n),
        5 => {
            let pairs = choices::paired(chars);
            put_parts(out, &sets::digits(), symbology, &pairs[..n / 2], n);
        }
        6 => put_parts(out, &sets::digits(), symbology, chars, n),
        7 => put_parts(out, &sets::ean(), symbology, &choices::sided(chars), n),
        _ => put_parts(out, &sets::ean(), symbology, chars, n),
    }
}
