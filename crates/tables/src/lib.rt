// The code tables of source 001, as document 01 fixes them: specs/ types them from the source as it is printed. Here stand, a file to a
// table, the characters' values and bytes and EAN-13's parities, each held to that; the codes as rows of elements are `shapes`' own, held to the same.
//
// Every lookup and every search is total. A value or a digit is a number from 0 on, and what the table does not have is `None`. Full ASCII
// (source 004, 10.1.3) is in specs/ alone: its code is a `match` of the crate that expands data.
#![tactic(auto)]

ghost use Rattle.std.specs.Prelude.{◌≡◌, slice_get};

pub mod codabar;
pub mod code39;
pub mod ean;
pub mod two_of_five;

// The entry at an index, if the table is so long.
fn entry<T: Copy>(table: &[T], index: u8) -> Option<T>
    ensures { result ≡ slice_get table.now index }
{
    table.get(usize::from(index)).copied()
}
