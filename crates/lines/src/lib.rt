// What a line of output is (document 01, "Job file"): a numbered request, drawn, its answer and its strip; and the last line of a run.
//
// `put_line` writes behind what stands in the lent buffer, which holds the longest line; `end_line` and `stop_line` write at its
// front: a buffer that could not hold the longest line is left as it was, and 0 is answered. Where the requests come from is not
// said here. Each text is one definition (specs/Line.antt).
//
//   text      numbers in decimal and widths as digits, written at a place of a lent buffer
//   sizes     the bytes of the longest line
#![tactic(auto)]

pub mod sizes;
mod text;

ghost use Rattle.std.specs.Prelude.{◌≡◌, [], ◌∷◌, ◌++◌, ℕ, ◌+◌, ◌≤◌, length, get_or};
ghost use Rattle.symbologies.specs.Sizes.{longest};
ghost use Rattle.lines.specs.Sizes.{longest_line};
ghost use Rattle.laws.specs.Writing.{Put, front};
ghost use Rattle.lines.specs.Text.{spaced, roomy};
ghost use Rattle.lines.specs.Wrote.{Wrote};
ghost use Rattle.lines.specs.Line.{shown, is_drawn, line_of, end_line, stop_line};

use sizes::LONGEST_LINE;
use symbologies::sizes::LONGEST;
use text::Line;
use words::Said;

// Where a record's line ends, and whether the record was drawn.
// Stays a flag beside a place: `put_line` promises both of every record, drawn or refused.
#[derive(Clone, Copy)]
pub struct Written {
    pub next: usize,
    pub drawn: bool,
}

// Record number, answer, place, elements and modules, each with a blank behind it.
fn put_said(number: u64, said: Said, line: &mut Line<'_>)
    requires { line.old.at + 105 ≤ length line.old.out.now }
    ensures put { Wrote line.old (spaced (number ∷ said.number ∷ said.place ∷ said.count ∷ said.total ∷ [])) line.new }
    ensures upper_bound { line.new.at ≤ line.old.at + 105 }
{
    line.number(number, b' ');
    line.number(said.number as u64, b' ');
    line.number(said.place as u64, b' ');
    line.number(said.count as u64, b' ');
    line.number(said.total as u64, b' ');
}

// The widths of the strip, or - where there is none, and the newline.
// Stays a test of the number, here and in `put_line`: `shown` and `is_drawn` (specs/Line.antt) tell a drawn record by it.
fn put_strip(said: Said, room: &[u8], line: &mut Line<'_>)
    requires longest_in_bounds { (line.old.at + (longest + 1) ≤ length line.old.out.now) × (length room.now ≡ longest) }
    requires count_le_longest { said.number ≡ 0 → said.count ≤ longest }
    requires by_index { (i : ℕ) → get_or room.now i 0 ≤ 4 }
    ensures { Wrote line.old (shown said room.now ++ (10 ∷ [])) line.new }
{
    if said.number == 0 {
        line.widths(&room[..said.count]);
    } else {
        line.byte(b'-');
    }
    line.byte(b'\n');
}

// The line of a record, behind what stands in the buffer.
pub fn put_line(
    number: u64,
    symbology: u8,
    mode: u8,
    count: u8,
    field: &[u8],
    out: &mut [u8],
    at: usize,
) -> Written
    requires { at + longest_line ≤ length out.old }
    ensures put { Put out.old at (line_of number symbology mode count field.now) out.new result.next }
    ensures drawn_value { result.drawn ≡ is_drawn symbology mode count field.now }
{
    let mut room = [0u8; LONGEST];
    let answer = strip::draw_field(symbology, mode, count as usize, field, &mut room);
    let said = Said::from(answer);
    let mut line = Line { out, at };
    put_said(number, said, &mut line);
    put_strip(said, &room, &mut line);
    Written {
        next: line.at,
        drawn: said.number == 0,
    }
}

// The last line of a run that came to the end of its input.
// Stays a number, here and in `stop_line`, 0 where there is no room: the promise is the length of what is written, for every buffer.
pub fn end_line(records: u64, drawn: u64, out: &mut [u8]) -> usize
    ensures value { result ≡ length (roomy (length out.old) (end_line records drawn)) }
    ensures out_after { out.new ≡ front (roomy (length out.old) (end_line records drawn)) out.old }
    ensures in_bounds { result ≤ length out.old }
{
    // Stays a test here and in `stop_line`: one function for both would have to promise what the buffer ends as where it lends no place.
    if out.len() < LONGEST_LINE {
        return 0;
    }
    let mut line = Line { out, at: 0 };
    line.word(b"end ");
    line.number(records, b' ');
    line.number(drawn, b'\n');
    line.at
}

// The last line of a run that met an unknown kind or a cut record.
pub fn stop_line(records: u64, out: &mut [u8]) -> usize
    ensures value { result ≡ length (roomy (length out.old) (stop_line records)) }
    ensures out_after { out.new ≡ front (roomy (length out.old) (stop_line records)) out.old }
    ensures in_bounds { result ≤ length out.old }
{
    if out.len() < LONGEST_LINE {
        return 0;
    }
    let mut line = Line { out, at: 0 };
    line.word(b"stop ");
    line.number(records, b'\n');
    line.at
}
