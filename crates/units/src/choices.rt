// Which row each unit shows, where it is not simply the character's own number (symbologies, specs/Parts.antt): Codabar's letters are
// counted from 0, a unit of Interleaved is a pair, and in EAN-13 the first digit stands in the sets of the six left units.
ghost use Rattle.std.specs.Prelude.{◌≡◌, true, ◌/◌, ◌≤◌, length, take};
ghost use Rattle.laws.proofs.Spelling.{Below};
ghost use Rattle.symbologies.specs.Sizes.{places};
ghost use Rattle.symbologies.specs.Parts.{lowered, paired, sided};
ghost use Rattle.symbologies.specs.Strips.{all_allowed};
ghost use Rattle.units.specs.Units.{side_of};

use symbologies::sizes::PLACES;

// Codabar: the letters at both ends, 16 to 19, from 0 on.
pub fn lettered(chars: &[u8]) -> [u8; PLACES]
    requires { (2 ≤ length chars.now) × ((length chars.now ≤ places) × (all_allowed 3 true chars.now ≡ true)) }
    ensures { take (length chars.now) result ≡ lowered true chars.now }
{
    let n = chars.len();
    let mut rows = [0; PLACES];
    rows[..n].copy_from_slice(chars);
    rows[0] -= 16;
    rows[n - 1] -= 16;
    rows
}

// Interleaved: two digits a unit.
pub fn paired(chars: &[u8]) -> [u8; PLACES]
    requires { (length chars.now ≤ places) × Below 10 chars.now }
    ensures { take (length chars.now / 2) result ≡ paired chars.now }
{
    let mut rows = [0; PLACES];
    // Stays with an index, here and in `sided`: a proof does not know what `iter_mut().zip(..)` leaves in the rows.
    for (i, pair) in chars.chunks_exact(2).enumerate() {
        rows[i] = 10 * pair[0] + pair[1];
    }
    rows
}

// The set that EAN-13's unit i comes from, by the parities: 0 is odd, 1 is even; the right units have one set.
fn side(parities: u16, i: usize) -> u8
    ensures { result ≡ side_of parities i }
{
    if i < 6 {
        ((parities >> (5 - i)) % 2) as u8
    } else {
        0
    }
}

// EAN-13: twelve units, the six left ones in the odd or the even set.
pub fn sided(chars: &[u8]) -> [u8; 12]
    requires { (length chars.now ≡ 13) × Below 10 chars.now }
    ensures { result ≡ sided chars.now }
{
    let parities = tables::ean::parities_of(chars[0]).unwrap();
    let mut rows = [0; 12];
    for (i, digit) in chars[1..].iter().enumerate() {
        rows[i] = 10 * side(parities, i) + digit;
    }
    rows
}
