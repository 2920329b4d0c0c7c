// What stands at a place of a strip: a mark, or the row of a unit, by the words of its sets.
ghost use Rattle.std.specs.Prelude.{◌≡◌, true, ◌+◌, ◌*◌, ◌<◌, ◌≤◌, ◌^◌, length};
ghost use Rattle.shapes.specs.Searched.{digit_in, ten_of, found_in, seekable};
ghost use Rattle.search.specs.Sought.{parted_at, begun, marked, among_at, nowhere, mark_of, pair_in, sought_in, sought_of, Bounded};

use super::word;
use shapes::parts::{Mark, Unit};
use words::ElementPlace;

// Whether a mark stands, where its elements begin, and the place behind it.
// Stays a flag with places beside it: what `mark_at` promises, `mark_of`, says all three fields of every mark.
#[derive(Clone, Copy)]
pub struct Marked {
    pub at: ElementPlace,
    pub next: ElementPlace,
    pub stands: bool,
}

// What is sought where a unit should stand: its word, in so many sets from one on. `first` is the number that the unit gives the first row
// of these sets. The unit begins at `at`, and `next` is behind it. No sets are looked through where no row can be.
// Stays a struct with "no sets" in it: what `sought_at` promises, `sought_of`, says all six fields of every place.
#[derive(Clone, Copy)]
pub struct Sought {
    pub at: ElementPlace,
    pub next: ElementPlace,
    pub word: u64,
    pub set: usize,
    pub sets: usize,
    pub first: usize,
}

// Up to so many rows are all looked through.
const FEW: usize = 20;

// Code 39, a half-byte for each of the sixteen ways in which four spaces can be wide: the set of the rows with such spaces.
const TENS: u64 = 0x4344444344404124;

impl Marked {
    fn new(at: usize, next: usize, stands: bool) -> Marked
        ensures { result ≡ marked at next stands }
    {
        Marked {
            at: ElementPlace(at),
            next: ElementPlace(next),
            stands,
        }
    }
}

impl Sought {
    fn among(at: usize, k: usize, word: u64, set: usize, sets: usize, first: usize) -> Sought
        requires { at + k < 2 ^ 64 }
        ensures { result ≡ among_at at k word set sets first }
    {
        Sought {
            at: ElementPlace(at),
            next: ElementPlace(at + k),
            word,
            set,
            sets,
            first,
        }
    }

    // No row can be there.
    fn nowhere(at: usize) -> Sought
        ensures { result ≡ nowhere at }
    {
        Sought::among(at, 0, 0, 0, 0, 0)
    }
}

// Whether a narrow space stands there, where there should be one.
fn is_parted(strip: &[u8], at: usize, gap: bool) -> bool
    ensures { result ≡ parted_at gap strip.now at }
{
    !gap || strip.get(at) == Some(&1)
}

// Where k elements begin, behind a narrow space where there should be one; or else the place where that space or these elements are missing.
fn begin(strip: &[u8], place: usize, gap: bool, k: usize) -> Result<usize, usize>
    ensures { result ≡ begun gap strip.now place k }
{
    if !is_parted(strip, place, gap) {
        return Err(place);
    }
    let at = place + usize::from(gap);
    if at <= strip.len() && k <= strip.len() - at {
        Ok(at)
    } else {
        Err(at)
    }
}

// Whether a mark stands at a place; one of no elements does.
pub fn mark_at(strip: &[u8], place: ElementPlace, mark: Mark) -> Marked
    requires { mark.elements ≤ 9 }
    ensures { result ≡ mark_of mark strip.now place.0 }
{
    let k = mark.elements;
    if k == 0 {
        return Marked::new(place.0, place.0, true);
    }
    match begin(strip, place.0, mark.gap, k) {
        Ok(at) => Marked::new(at, at + k, word::word_of(&strip[at..at + k]) == mark.word),
        Err(at) => Marked::new(at, at, false),
    }
}

// Code 39: the set in which a word can stand, by its wide spaces.
fn ten_of(word: u64) -> usize
    ensures { result ≡ ten_of word }
{
    let spaces = (word >> 9) % 2 * 8
        + (word >> 25) % 2 * 4
        + (word >> 41) % 2 * 2
        + (word >> 57) % 2;
    ((TENS >> (4 * spaces)) % 16) as usize
}

// The digit of a word in a set, and one; 0 where it is not there. All ten are looked at and what is equal is added up: where a search leaves
// at its row, the processor guesses wrong at most characters of a label that it has not seen (docs/SPEED.md, "What was tried").
// Stays a number and one, with 0 for none: `found_in` promises such a number, and a sum of ten gives it without a branch.
fn digit_in(sets: &[[u64; 10]], set: usize, word: u64) -> usize
    requires { set < length sets.now }
    ensures { result ≡ digit_in sets.now set word }
{
    if word == 0 {
        return 0;
    }
    let mut found = 0;
    for (digit, &row) in sets[set].iter().enumerate() {
        found += if row == word { digit + 1 } else { 0 };
    }
    found
}

// Set i of those that are looked through: the number of its row that has the word, and one, or what was found before.
pub fn found_in<'a>(sets: &'a [[u64; 10]], sought: Sought, i: usize, found: usize) -> usize
    requires { Bounded (length sets.now) sought i }
    ensures { result ≡ found_in sets.now (sought.set + i) (sought.first + 10 * i) sought.word found }
{
    let digit = digit_in(sets, sought.set + i, sought.word);
    let row = sought.first + 10 * i + digit;
    if digit == 0 { found } else { row }
}

// A pair: the digit in its bars tells which ten of the hundred pairs; the one in its spaces is sought among them.
fn seek_pair(sets: &[[u64; 10]], elements: &[u8], at: usize, set: usize) -> Sought
    requires { (at + 10 < 2 ^ 64) × (length elements.now ≡ 10) × (set < length sets.now) }
    ensures { result ≡ pair_in sets.now set elements.now at }
{
    let digit = digit_in(sets, set, word::five_of(&elements[..9]));
    if digit == 0 {
        return Sought::nowhere(at);
    }
    Sought::among(
        at,
        10,
        word::five_of(&elements[1..]),
        set,
        1,
        10 * (digit - 1),
    )
}

// By the elements of a unit, which begin at a place.
fn seek(sets: &[[u64; 10]], elements: &[u8], at: usize, unit: Unit) -> Sought
    requires { (at + unit.elements < 2 ^ 64) × (length elements.now ≡ unit.elements) × (seekable (length sets.now) unit ≡ true) }
    ensures { result ≡ sought_in sets.now unit elements.now at }
{
    let k = unit.elements;
    let set = unit.set;
    if k > 9 {
        return seek_pair(sets, elements, at, set);
    }
    let word = word::word_of(elements);
    let size = unit.size;
    if size <= FEW {
        return Sought::among(at, k, word, set, size.div_ceil(10), 0);
    }
    let ten = ten_of(word);
    Sought::among(at, k, word, set + ten, 1, 10 * ten)
}

// What is sought at a place where a unit should stand. A space that is not narrow is a unit of its own, at its own element.
pub fn sought_at<'a>(
    sets: &'a [[u64; 10]],
    strip: &'a [u8],
    place: ElementPlace,
    unit: Unit,
) -> Sought
    requires { seekable (length sets.now) unit ≡ true }
    ensures { result ≡ sought_of sets.now unit strip.now place.0 }
{
    match begin(strip, place.0, unit.gap, unit.elements) {
        Ok(at) => seek(sets, &strip[at..at + unit.elements], at, unit),
        Err(at) => Sought::nowhere(at),
    }
}
