// The plain core of reading, on slice and place (document 01, "Units and working room"): what stands at a place of a strip.
//
//   word    elements as a word, as the rows are held in crate shapes
//   seek    whether a mark stands at a place; what is sought where a unit should stand, and the row that it is
//
// The main property: where a unit is sought, the row that is found is the one that has the unit's elements (`unit-found`).
#![tactic(auto)]

pub mod seek;
mod word;
