// Characters to data: items of one character or two, each drawn by a byte.
ghost use Rattle.std.specs.Prelude.{◌≡◌, true, ◌++◌, ℕ, ◌<◌, ◌≤◌, length, drop};
ghost use Rattle.laws.specs.Spelling.{unspell};
ghost use Rattle.symbologies.specs.Sizes.{places};
ghost use Rattle.symbologies.specs.Rows.{finds};
ghost use Rattle.symbologies.specs.Symbologies.{symbology_of};
ghost use Rattle.data.specs.Held.{paired_at, item_of, width_of, MeasuredAs, Written};
ghost use Rattle.sums.specs.Sums.{Small, Kept};

use coders::Piece;
use sums::Sum;
use words::CharPlace;

// The byte that draws an item, and how many characters it has.
#[derive(Clone, Copy)]
struct Item {
    byte: u8,
    width: usize,
}

// How many data bytes characters spell, and the sum of the characters beside the check that the data hold in mode 1.
#[derive(Clone, Copy)]
pub struct Measured {
    pub bytes: usize,
    pub sum: Sum,
}

// Whether characters begin with a pair: a shift character that has a neighbour.
fn is_paired(symbology: u8, mode: u8, codes: &[u8]) -> bool
    ensures { result ≡ paired_at ((symbology_of symbology).coder mode) codes.now }
{
    1 < codes.len() && coders::is_shift(symbology, mode, codes.len() == 2, codes[0])
}

// The item that characters begin with, if a byte draws it. They stand at the start of their row or not.
fn item_of(symbology: u8, mode: u8, start: bool, codes: &[u8]) -> Option<Item>
    requires { 0 < length codes.now }
    ensures { result ≡ item_of ((symbology_of symbology).coder mode) start codes.now }
{
    if is_paired(symbology, mode, codes) {
        let byte = coders::pair(symbology, mode, start, codes.len() == 2, codes[0], codes[1])?;
        Some(Item { byte, width: 2 })
    } else {
        let byte = coders::alone(symbology, mode, start, codes.len() == 1, codes[0])?;
        Some(Item { byte, width: 1 })
    }
}

// How many characters that item has, if a byte draws it.
// Stays beside `item_of`: `coders::is_alone`, whose theorem stays, is asked here, and every public function has a caller.
fn width_of(symbology: u8, mode: u8, start: bool, codes: &[u8]) -> Option<usize>
    requires { 0 < length codes.now }
    ensures { result ≡ width_of ((symbology_of symbology).coder mode) start codes.now }
{
    if is_paired(symbology, mode, codes) {
        coders::pair(symbology, mode, start, codes.len() == 2, codes[0], codes[1])?;
        Some(2)
    } else if coders::is_alone(symbology, mode, start, codes.len() == 1, codes[0]) {
        Some(1)
    } else {
        None
    }
}

// The sum with the characters of an item.
fn take_item(sum: Sum, item: &[u8]) -> Sum
    requires { (0 < length item.now) × (length item.now ≤ 2) }
    ensures { (i : ℕ) → i ≤ 1000 → Small i sum → Kept 2 i sum item.now result }
{
    if item.len() == 2 {
        sums::take_up(sum, Piece::Pair(item[0], item[1]))
    } else {
        sums::take_up(sum, Piece::Alone(item[0]))
    }
}

// What characters spell, and their sum, or the place where the first failing item begins.
pub fn measure(symbology: u8, mode: u8, codes: &[u8]) -> Result<Measured, CharPlace>
    requires { length codes.now ≤ places }
    ensures { MeasuredAs (symbology_of symbology) mode codes.now result }
{
    let own = sums::own_of(mode, codes.len());
    let mut sum = sums::start_of(symbology, own);
    let mut bytes = 0;
    let mut at = 0;
    // Stays a `while`: an item is one character or two, and no iterator of std steps by either.
    while at < codes.len() {
        let Some(width) = width_of(symbology, mode, at == 0, &codes[at..]) else {
            return Err(CharPlace(at));
        };
        if at != own {
            sum = take_item(sum, &codes[at..at + width]);
        }
        bytes += 1;
        at += width;
    }
    Ok(Measured { bytes, sum })
}

// The data that characters spell, in the lent buffer.
pub fn write_text(symbology: u8, mode: u8, codes: &[u8], out: &mut [u8])
    requires { Written ((symbology_of symbology).coder mode) codes.now (length out.old) }
    ensures { out.new ≡ finds (unspell ((symbology_of symbology).coder mode) true 0 codes.now) ++ drop (length (finds (unspell ((symbology_of symbology).coder mode) true 0 codes.now))) out.old }
{
    let mut len = 0;
    let mut at = 0;
    // Stays a `while`: an item is one character or two, and no iterator of std steps by either.
    while at < codes.len() {
        // The characters spell data, so each item is drawn.
        let item = item_of(symbology, mode, at == 0, &codes[at..]).unwrap();
        out[len] = item.byte;
        len += 1;
        at += item.width;
    }
}
