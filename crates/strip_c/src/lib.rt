// `draw` and `read` of the crate `strip` for callers from C: the answer is written as four numbers. include/strip.h declares both calls.
#![tactic(auto)]

ghost use Rattle.std.specs.Prelude.{◌≡◌};
ghost use Rattle.strip.specs.Drawing.{draw_data};
ghost use Rattle.strip.specs.Reading.{read_strip};
ghost use Rattle.strip.specs.Four.{four_of};

use strip::{draw, read};
use words::{Answer, Said};

// The strip of data.
#[unsafe(no_mangle)]
pub extern "C" fn strip_draw(
    symbology: u8,
    mode: u8,
    text: &[u8],
    out: &mut [u8],
    answer: &mut [u64; 4],
)
    ensures answer_after { answer.new ≡ four_of (draw_data symbology mode text.now out.old).answer }
    ensures out_after { out.new ≡ (draw_data symbology mode text.now out.old).buffer }
{
    *answer = four_of(draw(symbology, mode, text, out));
}

// The data of a strip.
#[unsafe(no_mangle)]
pub extern "C" fn strip_read(
    symbology: u8,
    mode: u8,
    strip: &[u8],
    out: &mut [u8],
    answer: &mut [u64; 4],
)
    ensures answer_after { answer.new ≡ four_of (read_strip symbology mode strip.now out.old).answer }
    ensures out_after { out.new ≡ (read_strip symbology mode strip.now out.old).buffer }
{
    *answer = four_of(read(symbology, mode, strip, out));
}

// Number, place, count and total of an answer.
// Stays a function: the edits `c_count_for_total` and `c_number_without_place` are of its fields, and std has no `From` of a `usize` for a `u64`.
fn four_of(answer: Answer) -> [u64; 4]
    ensures { result ≡ four_of answer }
{
    let said = Said::from(answer);
    [
        said.number as u64,
        said.place as u64,
        said.count as u64,
        said.total as u64,
    ]
}
