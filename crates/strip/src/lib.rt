// The library's calls: data to strip, and strip to data. What the customer demands of them, each sentence with its statement, is in
// proofs/Demands.antt.
//
// `draw` draws data as a strip in a lent buffer, or turns them away with the first of 1, 2, 3, 4, 5, 6, 7, 8 that applies (document
// 01, "Turned away: numbers and order"); `draw_field` does so for a job record's field, with 13 behind 3. Whatever is turned away
// changes no byte of the buffer, and on 0 the bytes behind the strip stay.
//
// `read` hands back the data of a strip in a lent buffer, or turns it away with the first of 1, 2, 9, 10, 11, 12, 7, 8 that applies.
//
// One definition gives the answer and the buffer of a call: `draw_field` (specs/Drawing.antt), of which `draw` is the case of a
// field of just the data's length, and `read_strip` (specs/Reading.antt). Each is the first of a list of checks that applies.
#![tactic(auto)]

ghost use Rattle.std.specs.Prelude.{◌≡◌};
ghost use Rattle.strip.specs.Drawing.{draw_data, draw_field, answer_of};
ghost use Rattle.strip.specs.Reading.{read_strip, answer_for};

use symbologies::lengths;
use symbologies::row::Row;
use words::{Answer, Bytes, Elements, Modules};

// The strip of data.
#[tactic(auto, unfolding(crate::specs::Drawing::draw_data))]
pub fn draw(symbology: u8, mode: u8, text: &[u8], out: &mut [u8]) -> Answer
    ensures value { result ≡ (draw_data symbology mode text.now out.old).answer }
    ensures out_after { out.new ≡ (draw_data symbology mode text.now out.old).buffer }
{
    draw_field(symbology, mode, text.len(), text, out)
}

// The strip of a job record's field, of which `count` bytes are data and the others must be zero.
// Stays a `match`, here and in `read`: an `Answer` is made of either side.
pub fn draw_field(kind: u8, mode: u8, count: usize, field: &[u8], out: &mut [u8]) -> Answer
    ensures value { result ≡ (draw_field kind mode count field.now out.old).answer }
    ensures out_after { out.new ≡ (draw_field kind mode count field.now out.old).buffer }
{
    match lay(kind, mode, count, field, out) {
        Ok((elements, modules)) => Answer::Drawn(elements, modules),
        Err(answer) => answer,
    }
}

// The elements and modules of a field's strip, which is laid out, or the answer that turns the field away.
fn lay(
    kind: u8,
    mode: u8,
    count: usize,
    field: &[u8],
    out: &mut [u8],
) -> Result<(Elements, Modules), Answer>
    ensures value { answer_of result ≡ (draw_field kind mode count field.now out.old).answer }
    ensures out_after { out.new ≡ (draw_field kind mode count field.now out.old).buffer }
{
    let mut row = Row::EMPTY;
    rows::row_of_field(kind, mode, count, field, &mut row)?;
    units::draw_row(kind, row, out)
}

// The data of a strip.
pub fn read(symbology: u8, mode: u8, strip: &[u8], out: &mut [u8]) -> Answer
    ensures value { result ≡ (read_strip symbology mode strip.now out.old).answer }
    ensures out_after { out.new ≡ (read_strip symbology mode strip.now out.old).buffer }
{
    match hand_back(symbology, mode, strip, out) {
        Ok((bytes, modules)) => Answer::HandedBack(bytes, modules),
        Err(answer) => answer,
    }
}

// The bytes of a strip's data, which are handed back, and its modules, or the answer that turns the strip away. What was read is drawn, so
// its total is the formula's.
fn hand_back(
    symbology: u8,
    mode: u8,
    strip: &[u8],
    out: &mut [u8],
) -> Result<(Bytes, Modules), Answer>
    ensures value { answer_for result ≡ (read_strip symbology mode strip.now out.old).answer }
    ensures out_after { out.new ≡ (read_strip symbology mode strip.now out.old).buffer }
{
    let mut row = Row::EMPTY;
    reads::row_seen(symbology, mode, strip, &mut row)?;
    let bytes = data::data_of(symbology, mode, &row, out)?;
    Ok((bytes, Modules(lengths::modules_of(symbology, &row))))
}
