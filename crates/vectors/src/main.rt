// Draws and reads the vectors of the file stdin, which no theorem names, and prints a line for each. Drawn are document 01's bench
// rows without a P, every refusal of drawing and their order, the examples that the sources publish, zeros at the front, and the
// counts of every mode. Read are strips of every symbology and mode, every refusal of reading and their order, and strips from
// their other end.
//
// A line of stdin is empty, a comment that begins with #, or a vector, words with one blank between them:
//
//     draw NAME SYMBOLOGY MODE DATA         draws data into the whole room, as long as the longest strip
//     lent NAME SYMBOLOGY MODE ROOM DATA    draws data into the first ROOM bytes of the room
//     field NAME KIND MODE COUNT SIZE DATA  draws COUNT bytes of a job record's field of SIZE bytes, DATA and zeros behind them
//     read NAME SYMBOLOGY MODE STRIP        reads a strip into the whole room of 40 bytes
//     into NAME SYMBOLOGY MODE ROOM STRIP   reads a strip into the first ROOM bytes of the room
//
// Numbers are decimal. DATA is text, in which \xx, two hexadecimal digits, stands for a byte that is a blank or a backslash or
// is not printed; STRIP is the widths, in which a digit stands for its value and \xx for any width. Where one is left out there is
// no byte. Of a line that is none of these, or has data or a strip that do not fit, the program prints `bad line`.
//
// A line of stdout is a label and then what a line of a job has: answer, place, count and modules. Behind them is what was
// written, in the form that stdin has it in: the widths of a strip, the text of data, or - if refused. The label is the name of the
// vector, the symbology, the mode and the number of data bytes or of the strip's elements, with / between them. The last word is
// `kept` if the call left every byte behind what it wrote as it was; on a refusal that is every byte of the room.
//
// The file stdout is what must come out. It was not made by this program: it is the output of a second implementation of
// document 01, of drawing and of reading, in Python and with tables of its own from the text of the sources, for the same vectors
// in the same order.
#![tactic(auto)]

mod line;
mod part;
mod vector;

ghost use Rattle.std.specs.Prelude.{◌≤◌, length, IfOk};

use std::io;
use std::io::Read;

// An input that fills the buffer may go on behind it, and is a bad line.
fn main(rt: HostRuntime) -> io::Result<()> {
    let mut space = [0; 65536];
    let count = read_full(&rt, &mut space)?;
    if count < space.len() {
        run_lines(&rt, &space[..count])
    } else {
        line::bad(&rt)
    }
}

// Reads until the input ends or the buffer is full: how many bytes.
// Stays by hand: std's `read_exact` takes an input that is shorter than the buffer for an error.
fn read_full(rt: &HostRuntime, buffer: &mut [u8]) -> io::Result<usize>
    ensures { IfOk result (λ n. n ≤ length buffer.new) }
{
    let mut done = 0;
    while done < buffer.len() {
        let got = rt.stdin().read(&mut buffer[done..])?;
        if got == 0 {
            break;
        }
        done += got;
    }
    Ok(done)
}

// Bytes behind the last line end are a bad line.
fn run_lines(rt: &HostRuntime, input: &[u8]) -> io::Result<()> {
    for line in input.split_inclusive(|&byte| byte == b'\n') {
        match line {
            [vector @ .., b'\n'] => vector::run(rt, vector)?,
            _ => line::bad(rt)?,
        }
    }
    Ok(())
}
