// Theory that names no symbology, and a search of a table.
//
//   specs/    what a search, a strip of units, its reading and a weighted sum are
//   proofs/   their laws, each proved once and cited by the crates above
//
// The main properties: what is drawn is read and what is read is drawn; a strip with one changed element is never read; a
// weighted sum tells one replaced value, and exactly one check passes.
#![tactic(auto)]

ghost use Rattle.std.specs.Prelude.{◌≡◌, length};
ghost use Rattle.laws.specs.Search.{below, index_in};

// The first index at which x stands in the table, if it stands there.
pub fn index_in(table: &[u16], x: u16) -> Option<usize>
    ensures { result ≡ below (length table.now) (index_in table.now x) }
{
    table.iter().position(|&y| y == x)
}
