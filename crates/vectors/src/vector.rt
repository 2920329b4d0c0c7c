// A line of the input. What it asks is drawn or read, or it is bad and said to be so.
use crate::line;
use crate::line::{FILL, Line};
use crate::part::{Form, Words};
use std::io;
use symbologies::sizes::LONGEST;
use words::{Answer, Said};

pub fn run(rt: &HostRuntime, line: &[u8]) -> io::Result<()> {
    if matches!(line, [] | [b'#', ..]) {
        return Ok(());
    }
    let mut room = [FILL; LONGEST];
    match answer(line, &mut room) {
        Some(answered) => answered.show(rt, &room),
        None => line::bad(rt),
    }
}

// How long the whole room is that a strip is read into.
const READ: usize = 40;

// Draws or reads into the room what a line asks for, if it is understood.
fn answer<'a>(line: &'a [u8], room: &mut [u8; LONGEST]) -> Option<Line<'a>> {
    let mut words = Words { left: line };
    let command = words.word();
    let mut vector = Vector {
        name: words.word(),
        symbology: words.byte()?,
        mode: words.byte()?,
        words,
    };
    match command {
        b"draw" => vector.draw(room),
        b"lent" => {
            let lent = vector.words.number()?;
            vector.draw(room.get_mut(..lent)?)
        }
        b"field" => vector.draw_field(room),
        b"read" => vector.read(&mut room[..READ]),
        b"into" => {
            let lent = vector.words.number()?;
            vector.read(room[..READ].get_mut(..lent)?)
        }
        _ => None,
    }
}

// What every vector has, and the words behind it.
#[derive(Drop)]
struct Vector<'a> {
    name: &'a [u8],
    symbology: u8,
    mode: u8,
    words: Words<'a>,
}

impl<'a> Vector<'a> {
    // Stays beside `read`: form, buffer and call differ, and each is four lines.
    fn draw(self, room: &mut [u8]) -> Option<Line<'a>> {
        let mut text = [0; 64];
        let count = Form::Text.read(self.words.left, &mut text)?;
        let answer = strip::draw(self.symbology, self.mode, &text[..count], room);
        Some(self.line(count, answer, Form::Widths))
    }

    // Draws the first bytes of a field, which is the data and then zeros.
    fn draw_field(mut self, room: &mut [u8]) -> Option<Line<'a>> {
        let count = self.words.number()?;
        let size = self.words.number()?;
        let mut field = [0; 64];
        if Form::Text.read(self.words.left, &mut field)? > size {
            return None;
        }
        let answer = strip::draw_field(self.symbology, self.mode, count, field.get(..size)?, room);
        Some(self.line(count, answer, Form::Widths))
    }

    fn read(self, room: &mut [u8]) -> Option<Line<'a>> {
        let mut widths = [0; 400];
        let count = Form::Widths.read(self.words.left, &mut widths)?;
        let answer = strip::read(self.symbology, self.mode, &widths[..count], room);
        Some(self.line(count, answer, Form::Text))
    }

    fn line(self, count: usize, answer: Answer, form: Form) -> Line<'a> {
        Line {
            name: self.name,
            symbology: self.symbology,
            mode: self.mode,
            count,
            said: Said::from(answer),
            form,
        }
    }
}
