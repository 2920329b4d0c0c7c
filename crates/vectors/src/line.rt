// A line of the output: a label, what a call answered, and what it left in the room, which was filled with FILL.
use crate::part::Form;
use std::io;
use std::io::Write;
use symbologies::sizes::LONGEST;
use words::Said;

// No element is so wide, and no byte of data so high.
pub const FILL: u8 = 255;

// What a line is made of, but for the room.
#[derive(Clone, Copy)]
pub struct Line<'a> {
    pub name: &'a [u8],
    pub symbology: u8,
    pub mode: u8,
    // Of the data bytes or of the strip's elements.
    pub count: usize,
    pub said: Said,
    // What was written, in this form.
    pub form: Form,
}

impl Line<'_> {
    pub fn show(self, rt: &HostRuntime, room: &[u8; LONGEST]) -> io::Result<()> {
        self.label(rt)?;
        self.answer(rt)?;
        self.written(rt, room)?;
        if is_kept(room, self.said.count) {
            write(rt, b" kept\n")
        } else {
            write(rt, b" changed\n")
        }
    }

    // name/symbology/mode/count
    fn label(self, rt: &HostRuntime) -> io::Result<()> {
        let (symbology, mode, count) = (self.symbology, self.mode, self.count);
        write(rt, self.name)?;
        print!(rt; "/{symbology}/{mode}/{count}")
    }

    fn answer(self, rt: &HostRuntime) -> io::Result<()> {
        let Said {
            number,
            place,
            count,
            total,
        } = self.said;
        print!(rt; " {number} {place} {count} {total} ")
    }

    // The first bytes of the room, or - if there are none.
    fn written(self, rt: &HostRuntime, room: &[u8; LONGEST]) -> io::Result<()> {
        if self.said.count == 0 {
            return write(rt, b"-");
        }
        for &byte in room.iter().take(self.said.count) {
            write_byte(rt, byte, self.form)?;
        }
        Ok(())
    }
}

fn write_byte(rt: &HostRuntime, byte: u8, form: Form) -> io::Result<()> {
    match form.character(byte) {
        Some(character) => write(rt, &[character]),
        None => print!(rt; "\\{byte:02x}"),
    }
}

// Whether every byte of the room from an index on is what the room was filled with.
fn is_kept(room: &[u8], from: usize) -> bool {
    room.iter().skip(from).all(|&byte| byte == FILL)
}

pub fn bad(rt: &HostRuntime) -> io::Result<()> {
    write(rt, b"bad line\n")
}

fn write(rt: &HostRuntime, bytes: &[u8]) -> io::Result<()> {
    rt.stdout().write_all(bytes)
}
