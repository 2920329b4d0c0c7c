// Elements as a word: a byte an element, the first the lowest, and of nine elements the ninth in the upper half of the eighth byte.
ghost use Rattle.std.specs.Prelude.{◌≡◌, ◌≤◌, length};
ghost use Rattle.shapes.specs.Sets.{low};
ghost use Rattle.shapes.specs.Searched.{seen, every_second};

// What the ninth element counts in its word.
const TOP: u64 = 0x1000000000000000;

// The word of at most eight.
// Stays an arm for each size: a loop over the elements takes "about 0.5 more" (docs/SPEED.md, "What was tried"), and a copy into `[0; 8]` by
// `copy_from_slice` a fifth more than these arms.
fn several(elements: &[u8]) -> u64
    requires { length elements.now ≤ 8 }
    ensures { result ≡ low elements.now }
{
    match *elements {
        [] => 0,
        [a] => u64::from_le_bytes([a, 0, 0, 0, 0, 0, 0, 0]),
        [a, b] => u64::from_le_bytes([a, b, 0, 0, 0, 0, 0, 0]),
        [a, b, c] => u64::from_le_bytes([a, b, c, 0, 0, 0, 0, 0]),
        [a, b, c, d] => u64::from_le_bytes([a, b, c, d, 0, 0, 0, 0]),
        [a, b, c, d, e] => u64::from_le_bytes([a, b, c, d, e, 0, 0, 0]),
        [a, b, c, d, e, f] => u64::from_le_bytes([a, b, c, d, e, f, 0, 0]),
        [a, b, c, d, e, f, g] => u64::from_le_bytes([a, b, c, d, e, f, g, 0]),
        [a, b, c, d, e, f, g, h, ..] => u64::from_le_bytes([a, b, c, d, e, f, g, h]),
    }
}

// The word that elements make, or 0, which is no row's: nine make none where the eighth or the ninth does not fit its half of a byte.
// Stays beside `several`: with nine as an arm of the same `match` Code 39 takes a fifth more to read.
// Stays a number, 0 for none: `seen`, its promise, is a number for all elements, and `mark_of` and `sought_of` go by it.
pub fn word_of(elements: &[u8]) -> u64
    requires { length elements.now ≤ 9 }
    ensures { result ≡ seen (length elements.now) elements.now }
{
    if elements.len() < 9 {
        return several(elements);
    }
    if elements[7] > 15 || elements[8] > 15 {
        return 0;
    }
    several(&elements[..8]) + u64::from(elements[8]) * TOP
}

// The word of five elements, every second one of nine.
pub fn five_of(elements: &[u8]) -> u64
    requires { length elements.now ≡ 9 }
    ensures { result ≡ low (every_second elements.now) }
{
    u64::from_le_bytes([
        elements[0],
        elements[2],
        elements[4],
        elements[6],
        elements[8],
        0,
        0,
        0,
    ])
}
