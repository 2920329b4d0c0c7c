// The refusals that limits alone decide, in document 01's order: of a field with its count, of a number of characters that are to be drawn,
// and of one that was drawn.
ghost use Rattle.std.specs.Prelude.{◌≡◌, ◌-◌, not, eqb, position};
ghost use Rattle.symbologies.specs.Limits.{added};
ghost use Rattle.symbologies.specs.Told.{limits_for, judged_field, judged_drawn, judged_count};

use super::limits::{Limits, limits_of};
use words::{Answer, DataPlace};

// 1, 2: the limits of a symbology that offers a mode.
#[tactic(auto, unfolding(crate::specs::Told::limits_for))]
fn limits_for(symbology: u8, mode: u8) -> Result<Limits, Answer>
    ensures { result ≡ limits_for symbology mode }
{
    let limits = limits_of(symbology);
    if !limits.known {
        return Err(Answer::NoSymbology);
    }
    if !limits.offers(mode) {
        return Err(Answer::NoMode);
    }
    Ok(limits)
}

// The index of the first byte that is not zero.
fn first_nonzero(rest: &[u8]) -> Option<usize>
    ensures { result ≡ position (λ b. not (eqb b 0)) rest.now }
{
    rest.iter().position(|&byte| byte != 0)
}

// 1, 2, 3, 13: whether a mode of a symbology takes so many bytes of a field, and only zeros stand behind them.
pub fn judge_field(symbology: u8, mode: u8, count: usize, field: &[u8]) -> Result<(), Answer>
    ensures { result ≡ judged_field symbology mode count field.now }
{
    let limits = limits_for(symbology, mode)?;
    if !limits.takes(mode, count) || field.len() < count {
        return Err(Answer::BadCount);
    }
    match first_nonzero(&field[count..]) {
        Some(i) => Err(Answer::FieldNotZero(DataPlace(count + i))),
        None => Ok(()),
    }
}

// 5, 6: whether so many characters may be drawn.
#[tactic(auto, unfolding(crate::specs::Told::judged_drawn))]
pub fn judge_drawn(symbology: u8, count: usize) -> Result<(), Answer>
    ensures { result ≡ judged_drawn symbology count }
{
    let limits = limits_of(symbology);
    if limits.is_odd(count) {
        return Err(Answer::OddCount);
    }
    if limits.room < count {
        return Err(Answer::TooManyDrawn);
    }
    Ok(())
}

// The data bytes behind so many characters, if each drew one: mode 2 added the check.
// Stays beside `own_of` of sums: mode 2 adds a check, where mode 1 has one among the data.
fn data_count(mode: u8, n: usize) -> usize
    ensures { result ≡ n - added mode }
{
    if mode == 2 { n.saturating_sub(1) } else { n }
}

// 1, 2, 9: whether a mode of a symbology can give so many drawn characters.
pub fn judge_count(symbology: u8, mode: u8, n: usize) -> Result<(), Answer>
    ensures { result ≡ judged_count symbology mode n }
{
    let limits = limits_for(symbology, mode)?;
    if !limits.takes(mode, data_count(mode, n)) || limits.is_odd(n) {
        return Err(Answer::BadLength);
    }
    Ok(())
}
