// The way back from the rows that the units show to the drawn characters, in the lent places.
ghost use Rattle.std.specs.Prelude.{◌≡◌, ℕ, ◌+◌, ◌*◌, ◌/◌, ◌%◌, ◌<◌, ◌≤◌, get_or};
ghost use Rattle.symbologies.specs.Sizes.{places};
ghost use Rattle.symbologies.specs.Parts.{parities_in};
ghost use Rattle.reads.specs.Walk.{row_of, shown_in};

use symbologies::sizes::PLACES;

// Codabar: the letters of both ends are the values 16 to 19.
pub fn letters(codes: &mut [u8; PLACES], n: usize)
    requires n_bound { (2 ≤ n) × ((n ≤ places) × ((i : ℕ) → get_or codes.old i 0 < 100)) }
    requires behind { (i : ℕ) → n ≤ i → get_or codes.old i 0 ≡ 0 }
    ensures { codes.new ≡ row_of 3 n (shown_in 3 codes.old) }
{
    codes[0] += 16;
    codes[n - 1] += 16;
}

// Interleaved: a row is two digits, and the last one goes first, so that none is lost.
pub fn pairs(codes: &mut [u8; PLACES], n: usize)
    requires n_bound { (n ≤ places) × (n ≡ 2 * (n / 2)) }
    requires behind { (i : ℕ) → n ≤ i + i → get_or codes.old i 0 ≡ 0 }
    ensures { codes.new ≡ row_of 5 n (shown_in 5 codes.old) }
{
    // Stays from the back by index: a row is read where digits of others are put.
    for i in (0..n / 2).rev() {
        let row = codes[i];
        codes[2 * i] = row / 10;
        codes[2 * i + 1] = row % 10;
    }
}

// EAN-13: the sets of the six left units, D2's the highest bit; their digits stay, and the right units' are digits already.
pub fn sides(codes: &mut [u8; PLACES]) -> u16
    requires codes_small { (i : ℕ) → get_or codes.old i 0 < 100 }
    requires codes_bound { (get_or codes.old 0 0 < 10) × ((i : ℕ) → 7 ≤ i → get_or codes.old i 0 < 10) }
    ensures value { result ≡ parities_in (shown_in 7 codes.old) }
    ensures digits { (i : ℕ) → get_or codes.new i 0 ≡ get_or codes.old i 0 % 10 }
{
    let mut bits = 0;
    for code in &mut codes[1..7] {
        bits = bits * 2 + (*code / 10) as u16;
        *code %= 10;
    }
    bits
}
