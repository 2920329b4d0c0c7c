// What a strip is made of, for the code: the parts of each symbology, and its rows as words. Drawing and reading both go by it.
//
//   parts    two or three parts to a symbology, an arm each, as specs/Symbologies.antt of crate symbologies has it: a mark and then a
//            number of like units
//   sets     the rows that the units show, as sets of ten words, indexed by set and digit
//
// The main properties: the parts that the code describes are the symbology's (`part_of`), and its words are the rows of source 001 (`sets`).
// A part may be described in more than one way, and all that `part_of` may answer means the same part (proofs/Only.antt).
#![tactic(auto)]

pub mod parts;
pub mod sets;
