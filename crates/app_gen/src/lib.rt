//! A generated application: an OIL text, task source and arrivals, from a seed.
//!
//! For every seed and 1 to 30 tasks they are exactly those of the definitions. The texts are short enough for the
//! readers; the arrivals are in range and come by moment 901,000. That the texts are accepted is not claimed
//! (`sample`). Defined here: the generator of numbers (`specs/Draws`), the texts (`specs/Pieces`, `specs/Oil`,
//! `specs/Source`) and the arrivals (`specs/Load`). Arrivals in range: `sloth_base` (`Arrivals`).
#![tactic(auto)]

pub mod oil;
pub mod source;

pub use oil::Sample;
pub use source::sample;
