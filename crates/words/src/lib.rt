// The words that all crates share: places, counts, and the answer to a request or a strip.
//
// Document 01, "Turned away: numbers and order". Its places count three different things, and its counts three more; each
// is a struct of its own here, so that none can stand for another. An answer is one of the cases below. Each case carries
// the kind of place that its number has, and `Said::from` gives the document's number, place, count and total for it.
//
// Whoever takes an answer apart does so through `Said::from`: a later number is one more case here and no change to a caller.
#![tactic(auto)]

ghost use Rattle.std.specs.Prelude.{◌≡◌};
ghost use Rattle.words.specs.Said.{refused, said_of};

// Stays a tuple struct for each place and each count, alike but for the name: document 01 fixes them so.

// The index of a byte in the data, or in the data field of a job record, whose first bytes are the data.
#[derive(Clone, Copy)]
pub struct DataPlace(pub usize);

// The index of a drawn character in its row.
#[derive(Clone, Copy)]
pub struct CharPlace(pub usize);

// The index of an element in its strip.
#[derive(Clone, Copy)]
pub struct ElementPlace(pub usize);

// How many data bytes.
#[derive(Clone, Copy)]
pub struct Bytes(pub usize);

// How many elements.
#[derive(Clone, Copy)]
pub struct Elements(pub usize);

// How many modules.
#[derive(Clone, Copy)]
pub struct Modules(pub usize);

// What is answered. The number that document 01 gives each case stands behind it.
// Stays one enum, with 0 among the refusals: a call answers one number of document 01, and 0 is one of them.
#[derive(Clone, Copy)]
pub enum Answer {
    // 0, in drawing: so many elements are written.
    Drawn(Elements, Modules),
    // 0, in reading: so many data bytes are written.
    HandedBack(Bytes, Modules),
    // 1
    NoSymbology,
    // 2
    NoMode,
    // 3
    BadCount,
    // 4
    BadByte(DataPlace),
    // 5
    OddCount,
    // 6
    TooManyDrawn,
    // 7
    BadCheck(CharPlace),
    // 8, in drawing: so many elements are needed.
    ShortForStrip(Elements),
    // 8, in reading: so many data bytes are needed.
    ShortForData(Bytes),
    // 9
    BadLength,
    // 10
    NoSuchUnit(ElementPlace),
    // 11
    NoSuchParities,
    // 12
    NoExpansion(CharPlace),
    // 13
    FieldNotZero(DataPlace),
}

// An answer as document 01 words it: number, place, count and total.
// Stays a number in `number`: it is document 01's, and what C gets.
#[derive(Clone, Copy)]
pub struct Said {
    pub number: u8,
    pub place: usize,
    pub count: usize,
    pub total: usize,
}

// A refusal in these words: its count and its total are 0.
// Stays a function beside `from`, which calls it in 14 arms: each would be four fields, two of them 0.
fn refusal(number: u8, place: usize) -> Said
    ensures { result ≡ refused number place }
{
    Said {
        number,
        place,
        count: 0,
        total: 0,
    }
}

// Number, place, count and total of an answer.
impl From<Answer> for Said {
    ghost from_gives = { λ answer said. said ≡ said_of answer };

    fn from(answer: Answer) -> Said {
        match answer {
            Answer::Drawn(elements, modules) => Said {
                number: 0,
                place: 0,
                count: elements.0,
                total: modules.0,
            },
            Answer::HandedBack(bytes, modules) => Said {
                number: 0,
                place: 0,
                count: bytes.0,
                total: modules.0,
            },
            Answer::NoSymbology => refusal(1, 0),
            Answer::NoMode => refusal(2, 0),
            Answer::BadCount => refusal(3, 0),
            Answer::BadByte(place) => refusal(4, place.0),
            Answer::OddCount => refusal(5, 0),
            Answer::TooManyDrawn => refusal(6, 0),
            Answer::BadCheck(place) => refusal(7, place.0),
            Answer::ShortForStrip(elements) => refusal(8, elements.0),
            Answer::ShortForData(bytes) => refusal(8, bytes.0),
            Answer::BadLength => refusal(9, 0),
            Answer::NoSuchUnit(place) => refusal(10, place.0),
            Answer::NoSuchParities => refusal(11, 3),
            Answer::NoExpansion(place) => refusal(12, place.0),
            Answer::FieldNotZero(place) => refusal(13, place.0),
        }
    }
}
