// Row to data: half of the first of the two translations (document 01, "Turned away", "Checks", "Full ASCII"), the way back of crate `rows`.
//
// `data_of` hands a row's data back in the lent buffer, or turns the row away with the first of 1, 2, 9, 12, 7, 8 that applies. What is
// read, and in which order it is turned away, is defined in crate symbologies (specs/Rows.antt).
//
//   items       characters to data
//   reading     the refusals, in their order
#![tactic(auto)]

mod items;
mod reading;

pub use reading::data_of;
