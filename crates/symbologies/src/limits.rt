// What a symbology takes, by mode, and which drawn counts it has: document 01's table.
ghost use Rattle.std.specs.Prelude.{◌≡◌, true, get_or};
ghost use Rattle.symbologies.specs.Limits.{none, offered, holds, odd};
ghost use Rattle.symbologies.specs.Symbologies.{symbology_of};

use super::sizes::PLACES;

// Data bytes at least and at most, by mode; a mode whose most is 0 is not offered. Whether the drawn count must be even, and how many
// characters may be drawn. A strip of n characters has one element less than `step` times n and `more`, and one module less than `each`
// times n and `rest`, if each of its characters has the most.
#[derive(Clone, Copy)]
pub struct Limits {
    pub known: bool,
    pub modes: [(u8, u8); 3],
    pub even: bool,
    pub room: usize,
    pub step: usize,
    pub more: usize,
    pub each: usize,
    pub rest: usize,
}

// The data bytes of a mode that is not offered.
// Stays a pair of numbers: `holds` of specs/Limits.antt speaks of such a mode too, and there of 0 bytes alone.
const NONE: (u8, u8) = (0, 0);

// Up to 32 characters, of which one is the check in modes 1 and 2; mode 2 adds it.
const UP_TO_32: [(u8, u8); 3] = [(1, 32), (2, 32), (1, 31)];

// A line of the table, in its order: what modes 0, 1 and 2 take, whether the drawn count must be even, how many may be drawn, elements, modules.
fn line(
    modes: [(u8, u8); 3],
    even: bool,
    room: usize,
    elements: (usize, usize),
    modules: (usize, usize),
) -> Limits
    ensures { result ≡ record { known = true; modes = modes; even = even; room = room; step = elements.0; more = elements.1; each = modules.0; rest = modules.1 } }
{
    let (step, more) = elements;
    let (each, rest) = modules;
    Limits {
        known: true,
        modes,
        even,
        room,
        step,
        more,
        each,
        rest,
    }
}

// The limits and lengths of a symbology, by number; any other number is not known.
// Stays a flag, `known`: `(symbology_of symbology).limits`, the promise, holds limits for every number, and `judge_drawn` and `lengths` read them.
#[tactic(auto, unfolding(crate::specs::Symbologies::symbology_of, crate::specs::Symbologies::symbologies))]
pub fn limits_of(symbology: u8) -> Limits
    ensures { result ≡ (symbology_of symbology).limits }
{
    match symbology {
        1 => line(UP_TO_32, false, PLACES, (10, 20), (16, 32)),
        2 => line(UP_TO_32, false, 32, (10, 20), (16, 32)),
        3 => line([(3, 34), NONE, NONE], false, PLACES, (8, 0), (14, 0)),
        4 => line(UP_TO_32, false, PLACES, (10, 12), (14, 20)),
        5 => line(UP_TO_32, true, PLACES, (5, 8), (9, 10)),
        6 => line(UP_TO_32, false, PLACES, (6, 12), (10, 16)),
        7 => line([NONE, (13, 13), (12, 12)], false, PLACES, (4, 8), (7, 5)),
        8 => line([NONE, (8, 8), (7, 7)], false, PLACES, (4, 12), (7, 12)),
        9 => line([NONE, (12, 12), (11, 11)], false, PLACES, (4, 12), (7, 12)),
        _ => Limits {
            known: false,
            modes: [NONE; 3],
            even: false,
            room: PLACES,
            step: 1,
            more: 1,
            each: 0,
            rest: 0,
        },
    }
}

impl Limits {
    // The data bytes that a mode takes, at least and at most. One that is not there is not offered.
    fn mode(self, mode: u8) -> (u8, u8)
        ensures { result ≡ get_or self.modes mode none }
    {
        self.modes.get(usize::from(mode)).copied().unwrap_or(NONE)
    }

    // 2: whether a mode is offered.
    pub fn offers(self, mode: u8) -> bool
        ensures { result ≡ offered self mode }
    {
        self.mode(mode).1 > 0
    }

    // 3: whether a mode takes so many data bytes.
    pub fn takes(self, mode: u8, count: usize) -> bool
        ensures { result ≡ holds self mode count }
    {
        let (least, most) = self.mode(mode);
        (usize::from(least)..=usize::from(most)).contains(&count)
    }

    // 5: whether the drawn count must be even and is not.
    pub fn is_odd(self, count: usize) -> bool
        ensures { result ≡ odd self count }
    {
        self.even && count % 2 == 1
    }
}
