// The reading position: one place over the scanner's strip, handed from unit to unit. Thin functions over the plain core.
ghost use Rattle.std.specs.Prelude.{◌≡◌, true, length};
ghost use Rattle.shapes.specs.Searched.{seekable};
ghost use Rattle.search.specs.Sought.{sought_of};

use search::seek;
use search::seek::Sought;
use shapes::parts::Unit;
use words::ElementPlace;

#[derive(Clone, Copy)]
pub struct Position<'a> {
    pub strip: &'a [u8],
    pub at: ElementPlace,
}

impl<'a> Position<'a> {
    // A place of a strip.
    pub fn new(strip: &'a [u8], at: ElementPlace) -> Position<'a>
        ensures { (result.strip ≡ strip.entry) × (result.at ≡ at) }
    {
        Position { strip, at }
    }

    // What is sought there, where a unit should stand.
    pub fn sought(self, sets: &'a [[u64; 10]], unit: Unit) -> Sought
        requires { seekable (length sets.now) unit ≡ true }
        ensures { result ≡ sought_of sets.now unit self.entry.strip.now self.entry.at.0 }
    {
        seek::sought_at(sets, self.strip, self.at, unit)
    }

    // The position at another place of the same strip.
    pub fn moved(self, to: ElementPlace) -> Position<'a>
        ensures { (result.strip ≡ self.entry.strip) × (result.at ≡ to) }
    {
        Position { at: to, ..self }
    }
}
