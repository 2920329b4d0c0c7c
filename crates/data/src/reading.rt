// Row to data, with document 01's refusals in its order: 1, 2, 9, 12, 7, and 8 for the lent buffer.
ghost use Rattle.std.specs.Prelude.{◌≡◌, ◌-◌, ◌<◌, ◌≤◌, length, take};
ghost use Rattle.symbologies.specs.Sizes.{places};
ghost use Rattle.symbologies.specs.Limits.{added};
ghost use Rattle.symbologies.specs.Symbologies.{symbology_of};
ghost use Rattle.data.specs.Held.{read_data, data_of_row, handed_of, written};

use super::items;
use symbologies::judging;
use symbologies::row::Row;
use words::{Answer, Bytes, CharPlace};

// The characters that spell the data: mode 2 added the check.
fn spelling(mode: u8, codes: &[u8]) -> &[u8]
    requires { 0 < length codes.now }
    ensures { result.now ≡ take (length codes.now - added mode) codes.now }
{
    if mode == 2 {
        &codes[..codes.len() - 1]
    } else {
        codes
    }
}

// 12, 7, 8, and then the data in the lent buffer.
fn hand_over(symbology: u8, mode: u8, codes: &[u8], out: &mut [u8]) -> Result<Bytes, Answer>
    requires { (mode < 3) × ((added mode < length codes.now) × (length codes.now ≤ places)) }
    ensures value { result ≡ handed_of (read_data (symbology_of symbology) mode codes.now) (length out.old) }
    ensures out_after { out.new ≡ written (read_data (symbology_of symbology) mode codes.now) out.old }
{
    let spelled = spelling(mode, codes);
    let measured = items::measure(symbology, mode, spelled).map_err(Answer::NoExpansion)?;
    let last = codes.len() - 1;
    if mode != 0 && codes[last] != sums::check(measured.sum) {
        return Err(Answer::BadCheck(CharPlace(last)));
    }
    let bytes = measured.bytes;
    if out.len() < bytes {
        return Err(Answer::ShortForData(Bytes(bytes)));
    }
    items::write_text(symbology, mode, spelled, out);
    Ok(Bytes(bytes))
}

// The data of a row, in the lent buffer.
pub fn data_of(symbology: u8, mode: u8, row: &Row, out: &mut [u8]) -> Result<Bytes, Answer>
    ensures value { result ≡ handed_of (data_of_row symbology mode row.now) (length out.old) }
    ensures out_after { out.new ≡ written (data_of_row symbology mode row.now) out.old }
{
    judging::judge_count(symbology, mode, row.len)?;
    hand_over(symbology, mode, &row.codes[..row.len], out)
}
