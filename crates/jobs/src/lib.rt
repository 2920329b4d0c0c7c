// The job file: records to lines (document 01, "Job file").
//
// A record is a kind byte and a body whose length the kind fixes. `run_held` takes as many whole records as the bytes that are held
// and the lent room allow, and prints a line for each (crate `lines`, which has the last line, too).
// What is printed for an input is `run` (specs/Run.antt), however the input is cut into pieces (proofs/Pieces.antt): what was read
// before never changes a line.
//
//   kinds     what follows a kind byte
//   run       the records that are held
#![tactic(auto)]

mod kinds;
mod run;

pub use run::{Ended, Run, run_held};
