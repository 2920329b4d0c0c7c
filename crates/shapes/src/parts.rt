// The parts of each symbology's strip, an arm each (document 01, "Two-width strips", "EAN and UPC strips"; crate symbologies,
// specs/Parts.antt). Constants and one `match`, so that a caller's loop over parts costs nothing.
ghost use Rattle.std.specs.Prelude.{◌≡◌, true, false, length};
ghost use Rattle.symbologies.specs.Symbologies.{symbology_of};
ghost use Rattle.shapes.specs.Sets.{sets_of};
ghost use Rattle.shapes.specs.Described.{count_in, closed, Describes};

// A start, a stop, a guard or the centre: elements of one pattern, behind a parting space or not. One of no elements is none.
// Stays without an `Option`: `mark_in` (specs/Described.antt) says that a mark of no elements draws nothing, and `part_of` may answer any of them.
#[derive(Clone, Copy)]
pub struct Mark {
    pub gap: bool,
    pub elements: usize,
    pub word: u64,
}

// A character or a pair: one of so many rows, from a set on, behind a parting space or not. Ten elements are a pair, woven of the rows of
// its two digits.
// Stays a number for a pair, ten elements: `row_in` (specs/Described.antt) and `sought_in` tell a pair by it.
#[derive(Clone, Copy)]
pub struct Unit {
    pub gap: bool,
    pub elements: usize,
    pub set: usize,
    pub size: usize,
}

// How many units there are: so many, or as many as drawn characters, as those between two ends, or as pairs of them.
#[derive(Clone, Copy)]
pub enum Count {
    Of(usize),
    All,
    Inner,
    Half,
}

// A mark, and then a number of like units.
#[derive(Clone, Copy)]
pub struct Part {
    pub mark: Mark,
    pub count: Count,
    pub unit: Unit,
}

const STAR: u64 = 0x1103010301010301;

const GUARD: u64 = 0x010101;

const CENTRE: u64 = 0x0101010101;

impl Mark {
    fn new(elements: usize, word: u64) -> Mark
        ensures { result ≡ record { gap = false; elements = elements; word = word } }
    {
        Mark {
            gap: false,
            elements,
            word,
        }
    }

    // The mark behind a parting space.
    fn parted(self) -> Mark
        ensures { result ≡ record { gap = true; elements = self.elements; word = self.word } }
    {
        Mark { gap: true, ..self }
    }
}

impl Unit {
    fn new(elements: usize, set: usize, size: usize) -> Unit
        ensures { result ≡ record { gap = false; elements = elements; set = set; size = size } }
    {
        Unit {
            gap: false,
            elements,
            set,
            size,
        }
    }

    // The unit behind a parting space.
    fn parted(self) -> Unit
        ensures { result ≡ record { gap = true; elements = self.elements; set = self.set; size = self.size } }
    {
        Unit { gap: true, ..self }
    }
}

fn line(mark: Mark, count: Count, unit: Unit) -> Part
    ensures { result ≡ record { mark = mark; count = count; unit = unit } }
{
    Part { mark, count, unit }
}

// A mark with nothing behind it.
// Stays a count of no units and no `None`: `closed` and `is_none` (specs/Described.antt) speak of it so, and a caller's loop over units asks nothing.
fn close(mark: Mark) -> Part
    ensures { result ≡ closed mark }
{
    line(mark, Count::Of(0), Unit::new(0, 0, 0))
}

// Part i of a symbology, from 0 on; nothing behind its last, and so it is for any number that is no symbology.
pub fn part_of(symbology: u8, i: usize) -> Part
    ensures { Describes (sets_of symbology) (symbology_of symbology).parts i result }
{
    match (symbology, i) {
        // Code 39, and the same with full ASCII
        (1 | 2, 0) => line(Mark::new(9, STAR), Count::All, Unit::new(9, 0, 43).parted()),
        (1 | 2, 1) => close(Mark::new(9, STAR).parted()),
        // Codabar: the letters start and stop
        (3, 0) => line(Mark::new(0, 0), Count::Of(1), Unit::new(7, 2, 4)),
        (3, 1) => line(Mark::new(0, 0), Count::Inner, Unit::new(7, 0, 16).parted()),
        (3, 2) => line(Mark::new(0, 0), Count::Of(1), Unit::new(7, 2, 4).parted()),
        // Industrial
        (4, 0) => line(
            Mark::new(5, 0x0101030103),
            Count::All,
            Unit::new(9, 0, 10).parted(),
        ),
        (4, 1) => close(Mark::new(5, 0x0301010103).parted()),
        // Interleaved
        (5, 0) => line(Mark::new(4, 0x01010101), Count::Half, Unit::new(10, 0, 100)),
        (5, 1) => close(Mark::new(3, 0x010103)),
        // Matrix
        (6, 0) => line(
            Mark::new(5, 0x0101010103),
            Count::All,
            Unit::new(5, 0, 10).parted(),
        ),
        (6, 1) => close(Mark::new(5, 0x0101010103).parted()),
        // EAN-13, EAN-8, UPC-A
        (7, 0) => line(Mark::new(3, GUARD), Count::Of(6), Unit::new(4, 0, 20)),
        (8, 0) => line(Mark::new(3, GUARD), Count::Of(4), Unit::new(4, 0, 10)),
        (9, 0) => line(Mark::new(3, GUARD), Count::Of(6), Unit::new(4, 0, 10)),
        (7 | 9, 1) => line(Mark::new(5, CENTRE), Count::Of(6), Unit::new(4, 2, 10)),
        (8, 1) => line(Mark::new(5, CENTRE), Count::Of(4), Unit::new(4, 2, 10)),
        (7 | 8 | 9, 2) => close(Mark::new(3, GUARD)),
        _ => close(Mark::new(0, 0)),
    }
}

// How many parts a symbology has.
// Stays a number, 0 for no symbology: its promise is the number of parts, and no symbology has none.
pub fn part_count(symbology: u8) -> usize
    ensures { result ≡ length (symbology_of symbology).parts }
{
    match symbology {
        1 | 2 | 4 | 5 | 6 => 2,
        3 | 7 | 8 | 9 => 3,
        _ => 0,
    }
}

// How many units a part has, for n drawn characters.
pub fn count_in(count: Count, n: usize) -> usize
    ensures { result ≡ count_in count n }
{
    match count {
        Count::Of(k) => k,
        Count::All => n,
        Count::Inner => n.saturating_sub(2),
        Count::Half => n / 2,
    }
}
