// A symbology is data: document 01's table, a line each (specs/Symbologies.antt), and what follows from a line for the way from data to row
// and back (specs/Rows.antt) and from row to strip and back (specs/Strips.antt), with document 01's refusals in its order.
//
// In code a `match` on the number gives limits and lengths, once (`limits_of`); the others here are worked out from it.
//
// Stays numbers, here and in every crate: a symbology and a mode are any `u8`, since the promise of each public function is of every number, and
// document 01 fixes the `match` on the number. An enum would be made of the number again in each function.
//
//   limits    what a symbology takes, by mode, and which drawn counts it has
//   judging   the refusals that this alone decides
//   lengths   elements, modules, and the count for a length
//   row       the drawn characters, with their number
//   sizes     by name
//
// The main properties: every line is proper, so that what the theorems ask of a symbology is shown of all of them at once
// (proofs/Proper.antt); and `row_of s m d` gives r exactly if `data_of s m r` gives d (proofs/Proper.antt, by proofs/Undo.antt).
#![tactic(auto)]

pub mod judging;
pub mod lengths;
mod limits;
pub mod row;
pub mod sizes;
