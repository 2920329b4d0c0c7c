// The check character (document 01, "Checks"): a weighted sum, taken up one piece at a time, and its remainder by a modulus.
//
// The main property: a sum that was begun for a rule and has taken up characters has the rule's check of them (proofs/Sums.antt, `begins`
// and `checks`); "its state after each character is the definition's" is `state`.
#![tactic(auto)]

ghost use Rattle.std.specs.Prelude.{◌≡◌, ℕ, ◌≤◌, [], ◌∷◌};
ghost use Rattle.coders.specs.Pieces.{piece_list};
ghost use Rattle.symbologies.specs.Symbologies.{symbology_of};
ghost use Rattle.sums.specs.Sums.{Small, Kept, wrapped, check_by, begun, own_in};

use coders::Piece;

// A weighted sum: the weights take turns. Its check is the remainder by the modulus, or what brings the sum up to a multiple of it.
// Stays a struct with a flag, `up`: document 01 fixes a sum struct with modulus and weight, and `check_by` reads the flag of every sum.
#[derive(Clone, Copy)]
pub struct Sum {
    pub modulus: u8,
    pub up: bool,
    pub weight: u8,
    pub other: u8,
    pub total: usize,
}

impl Sum {
    // An empty sum, with the weight due and the other one.
    fn by(modulus: u8, up: bool, weight: u8, other: u8) -> Sum
        ensures { result ≡ record { modulus = modulus; up = up; weight = weight; other = other; total = 0 } }
    {
        Sum {
            modulus,
            up,
            weight,
            other,
            total: 0,
        }
    }

    // With one value more.
    fn take(self, value: u8) -> Sum
        ensures value { result ≡ wrapped self (value ∷ []) }
        ensures by_index { (i : ℕ) → i ≤ 1001 → Small i self → Kept 1 i self (value ∷ []) result }
    {
        Sum {
            weight: self.other,
            other: self.weight,
            total: self
                .total
                .wrapping_add(usize::from(self.weight) * usize::from(value)),
            ..self
        }
    }
}

// An empty sum, with the weights of n characters beside the check: by ten the rightmost weighs 3, then 1, 3 and so on. Where a byte may
// draw a pair (full ASCII), all weigh the same, however many there are.
pub fn start_of(symbology: u8, n: usize) -> Sum
    ensures { result ≡ begun (symbology_of symbology).rule n }
{
    match symbology {
        1 | 2 => Sum::by(43, false, 1, 1),
        4..=9 if n % 2 == 1 => Sum::by(10, true, 3, 1),
        4..=9 => Sum::by(10, true, 1, 3),
        _ => Sum::by(1, false, 0, 0),
    }
}

// With the characters of a piece. A sum of few characters is kept as it is; another one goes round with the machine's word.
pub fn take_up(sum: Sum, piece: Piece) -> Sum
    ensures value { result ≡ wrapped sum (piece_list piece) }
    ensures by_index { (i : ℕ) → i ≤ 1000 → Small i sum → Kept 2 i sum (piece_list piece) result }
{
    match piece {
        Piece::Alone(value) => sum.take(value),
        Piece::Pair(shift, letter) => sum.take(shift).take(letter),
        Piece::Nothing => sum,
    }
}

// The check of what was taken up. No rule has the modulus 0: there it is 0.
// Stays a number, 0 for the modulus 0: `check_by`, its promise, is a number for every sum.
pub fn check(sum: Sum) -> u8
    ensures { result ≡ check_by sum.modulus sum.up sum.total }
{
    let rest = sum.total.checked_rem(usize::from(sum.modulus)).unwrap_or(0) as u8;
    if sum.up && rest != 0 {
        sum.modulus - rest
    } else {
        rest
    }
}

// The index of the check among n data bytes, or characters that spell them: in mode 1 the last, otherwise there is none. So it is also the
// number of the others.
// Stays a number, n for none: `own_in`, its promise, is a number for every mode and n, and the number of the others is asked of it, too.
pub fn own_of(mode: u8, n: usize) -> usize
    ensures { result ≡ own_in mode n }
{
    if mode == 1 { n.saturating_sub(1) } else { n }
}
