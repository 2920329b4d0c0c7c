// Data to row: half of the first of the two translations (document 01, "Turned away", "Checks", "Full ASCII"); crate `data` is the way back.
//
// A row is the drawn characters as values of their alphabet, in so many places with their number. `row_of_field` draws data, which may
// stand in a longer field, as a row, or turns them away with the first of 1, 2, 3, 13, 4, 5, 6, 7 that applies. What is drawn, and in
// which order it is turned away, is defined in crate symbologies (specs/Rows.antt), and so is the main property, that drawing and
// reading undo one another.
//
//   spelling    data to characters
//   drawing     the refusals, in their order
#![tactic(auto)]

mod drawing;
mod spelling;

pub use drawing::row_of_field;
