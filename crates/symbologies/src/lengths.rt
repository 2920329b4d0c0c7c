// How many elements and modules a row has, and the drawn count that a strip's length comes from: document 01's formulas, from the steps
// and bases of its limits.
ghost use Rattle.std.specs.Prelude.{◌≡◌, map, ◌≤◌, length};
ghost use Rattle.laws.specs.Elements.{sum};
ghost use Rattle.symbologies.specs.Sizes.{places};
ghost use Rattle.symbologies.specs.Symbologies.{symbology_of};
ghost use Rattle.symbologies.specs.Strips.{count_for};
ghost use Rattle.symbologies.specs.Told.{elements_within, modules_within};

use super::limits::limits_of;
use super::row::Row;
use super::sizes::{LONGEST, PLACES};

// The elements of n characters; 0 where there are no such places.
// Stays a number, 0 for none: `elements_within`, its promise, is a number for every symbology and every n.
#[tactic(auto, using(crate::proofs::Measuring::small), unfolding(crate::specs::Told::elements_within, crate::specs::Strips::elements_of))]
pub fn elements_of(symbology: u8, n: usize) -> usize
    ensures { result ≡ elements_within symbology n }
{
    if PLACES < n {
        return 0;
    }
    let limits = limits_of(symbology);
    (limits.step * n + limits.more).saturating_sub(1)
}

// What characters have less than the most modules, together: two for each of Codabar's digits, - and $.
// Stays a test of the symbology: outside Codabar there is nothing to look at.
fn less_in(symbology: u8, codes: &[u8]) -> usize
    requires { length codes.now ≤ places }
    ensures { result ≡ sum (map (symbology_of symbology).less codes.now) }
{
    if symbology != 3 {
        return 0;
    }
    2 * codes.iter().filter(|&&value| value < 12).count()
}

// The modules of a row; 0 where its number passes its places.
// Stays a number, 0 for none: `modules_within`, its promise, is a number for every row.
#[tactic(auto, using(crate::proofs::Measuring::small), unfolding(crate::specs::Told::modules_within))]
pub fn modules_of(symbology: u8, row: &Row) -> usize
    ensures { result ≡ modules_within symbology row.now }
{
    if PLACES < row.len {
        return 0;
    }
    let limits = limits_of(symbology);
    let less = less_in(symbology, &row.codes[..row.len]);
    (limits.each * row.len + limits.rest - less).saturating_sub(1)
}

// The number of characters whose strip has so many elements; 0 where there is none.
// Stays a number, 0 for none: `count_for`, its promise, is a number for every length, and `judge_count` refuses 0 as 9.
#[tactic(auto, using(crate::proofs::Numbers::step_some), unfolding(crate::specs::Strips::count_for, crate::specs::Limits::count_in))]
pub fn count_for(symbology: u8, long: usize) -> usize
    ensures { result ≡ count_for symbology long }
{
    if LONGEST < long {
        return 0;
    }
    let limits = limits_of(symbology);
    let ends = long + 1;
    let n = ends.saturating_sub(limits.more) / limits.step;
    if limits.step * n + limits.more == ends {
        n
    } else {
        0
    }
}
