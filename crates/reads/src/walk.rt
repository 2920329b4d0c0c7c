// The walk over a strip's parts, left to right, to the first unit that is in no row.
//
// A step of the walk is `Ok` of the place behind it, or `Err` of the place of the unit that is in no row.
ghost use Rattle.std.specs.Prelude.{◌≡◌, true, ◌≤◌, length};
ghost use Rattle.laws.specs.Units.{frees, read};
ghost use Rattle.symbologies.specs.Strips.{units_of, counted};
ghost use Rattle.shapes.specs.Sets.{sets_of};
ghost use Rattle.shapes.specs.Searched.{seekable};
ghost use Rattle.shapes.specs.Described.{readable};
ghost use Rattle.reads.specs.Walk.{walk_by, PartRead, Ended, lead};

use super::position::Position;
use search::seek;
use shapes::parts::{Part, Unit};
use shapes::{parts, sets};
use symbologies::sizes::PLACES;
use words::ElementPlace;

// Like units from a place on, one to a lent place: the number of each one's row goes there.
fn read_units<'a>(
    strip: &'a [u8],
    sets: &'a [[u64; 10]],
    unit: Unit,
    from: ElementPlace,
    codes: &mut [u8],
) -> Result<ElementPlace, ElementPlace>
    requires { seekable (length sets.now) unit ≡ true }
    ensures { (result ≡ (walk_by sets.now unit strip.now (length codes.old) from.0 0 codes.old).walked) × (codes.new ≡ (walk_by sets.now unit strip.now (length codes.old) from.0 0 codes.old).codes) }
{
    let mut p = Position::new(strip, from);
    let mut place = 0;
    // Stays a `loop`: document 01 fixes a labelled one, left by its label with the unit's element index, and a `for` can't be left with a value.
    'units: loop {
        if place == codes.len() {
            break 'units Ok(p.at);
        }
        let sought = p.sought(sets, unit);
        let mut found = 0;
        for i in (0..sought.sets).rev() {
            found = seek::found_in(sets, sought, i, found);
        }
        if found == 0 {
            break 'units Err(sought.at);
        }
        codes[place] = ((found - 1) % 256) as u8;
        p = p.moved(sought.next);
        place += 1;
    }
}

// A part: its mark, then its units.
fn read_part<'a>(
    strip: &'a [u8],
    sets: &'a [[u64; 10]],
    part: Part,
    from: ElementPlace,
    codes: &mut [u8],
) -> Result<ElementPlace, ElementPlace>
    requires { readable sets.now part ≡ true }
    ensures { PartRead sets.now part (length codes.old) strip.now from.0 0 codes.old result codes.new }
{
    let mark = seek::mark_at(strip, from, part.mark);
    if !mark.stands {
        return Err(mark.at);
    }
    read_units(strip, sets, part.unit, mark.next, codes)
}

// The parts of a strip of n characters, one behind the other.
fn read_parts<'a>(
    strip: &'a [u8],
    sets: &'a [[u64; 10]],
    symbology: u8,
    n: usize,
    codes: &mut [u8],
) -> Result<(), ElementPlace>
    requires { (sets.now ≡ sets_of symbology) × (frees (units_of symbology n) ≤ length codes.old) }
    ensures { Ended (read (units_of symbology n) strip.now) 0 codes.old result codes.new }
{
    let mut at = ElementPlace(0);
    let mut place = 0;
    for i in 0..parts::part_count(symbology) {
        let part = parts::part_of(symbology, i);
        let count = parts::count_in(part.count, n);
        at = read_part(strip, sets, part, at, &mut codes[place..place + count])?;
        place += count;
    }
    Ok(())
}

// The walk by the symbology's sets. EAN-13's first digit has no unit, so its place is left free.
// Stays a `match` on the number, with a call an arm: the sets are arrays of different sizes.
pub fn read_all(
    strip: &[u8],
    symbology: u8,
    n: usize,
    codes: &mut [u8; PLACES],
) -> Result<(), ElementPlace>
    requires { counted symbology n ≡ true }
    ensures { Ended (read (units_of symbology n) strip.now) (lead symbology) codes.old result codes.new }
{
    match symbology {
        1 | 2 => read_parts(strip, &sets::code39(), symbology, n, codes),
        3 => read_parts(strip, &sets::codabar(), symbology, n, codes),
        4 => read_parts(strip, &sets::industrial(), symbology, n, codes),
        5 | 6 => read_parts(strip, &sets::digits(), symbology, n, codes),
        7 => read_parts(strip, &sets::ean(), symbology, n, &mut codes[1..]),
        _ => read_parts(strip, &sets::ean(), symbology, n, codes),
    }
}
