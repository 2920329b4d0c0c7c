// Rows put at a place of a lent buffer, each as a word of up to eight elements at a time: a byte an element, the first the lowest (crate
// shapes, specs/Sets.antt).
//
// The main property: what stood before the place and behind the row stays, and between them stands the row (laws, `Put`). A caller has shown
// that there is room.
#![tactic(auto)]

ghost use Rattle.std.specs.Prelude.{◌+◌, ◌≤◌, length};
ghost use Rattle.laws.specs.Writing.{Put};
ghost use Rattle.tables.specs.Bits.{weave};
ghost use Rattle.shapes.specs.Sets.{bytes, row_of};

// Stays a buffer and a place in every function: `Put`, the promise, is of the whole buffer.

// What the ninth element of a row counts in its word.
const TOP: u64 = 0x1000000000000000;

// The first N elements of a word.
fn put_first<const N: usize>(out: &mut [u8], at: usize, word: u64)
    requires { (N ≤ 8) × (at + N ≤ length out.old) }
    ensures { Put out.old at (bytes N word) out.new (at + N) }
{
    out[at..at + N].copy_from_slice(&word.to_le_bytes()[..N]);
}

// k elements, three to eight: the first and the last of them, which lap over.
// Stays two copies of a fixed size and no copy of k bytes: that was tried, and short labels are drawn 17 in a hundred slower, long ones 5.
fn put(out: &mut [u8], at: usize, k: usize, word: u64)
    requires { (3 ≤ k) × ((k ≤ 8) × (at + k ≤ length out.old)) }
    ensures { Put out.old at (bytes k word) out.new (at + k) }
{
    if k < 4 {
        put_first::<2>(out, at, word);
        put_first::<2>(out, at + k - 2, word >> (8 * k - 16));
    } else {
        put_first::<4>(out, at, word);
        put_first::<4>(out, at + k - 4, word >> (8 * k - 32));
    }
}

// A row of k elements, three to nine.
// Stays a test of k: `row_of`, the promise, has the ninth element in the upper half of the eighth byte.
pub fn put_row(out: &mut [u8], at: usize, k: usize, word: u64)
    requires { (3 ≤ k) × ((k ≤ 9) × (at + k ≤ length out.old)) }
    ensures { Put out.old at (row_of k word) out.new (at + k) }
{
    if k < 9 {
        put(out, at, k, word);
    } else {
        put_first::<8>(out, at, word % TOP);
        out[at + 8] = (word / TOP) as u8;
    }
}

// A pair: the first digit's five elements in the bars, the second's in the spaces.
pub fn put_pair(out: &mut [u8], at: usize, bars: u64, spaces: u64)
    requires { at + 10 ≤ length out.old }
    ensures { Put out.old at (weave (bytes 5 bars) (bytes 5 spaces)) out.new (at + 10) }
{
    let bars = bars.to_le_bytes();
    let spaces = spaces.to_le_bytes();
    // Stays a `for` over indexes: a proof does not know what `chunks_exact_mut` leaves in the buffer.
    for i in 0..5 {
        out[at + 2 * i] = bars[i];
        out[at + 2 * i + 1] = spaces[i];
    }
}
