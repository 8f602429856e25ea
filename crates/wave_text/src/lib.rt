//! The waves of a run: a value change dump, as IEEE 1364-2005, section 18, describes it.
//!
//! `waves` gives the text in which each signal's line stands exactly where its value changes, or where the run stops
//! (`specs/Changes`, `specs/Text`, `specs/Header`, `specs/Waves`). Read back, its entries give each signal its value at
//! each count (`waves_read_back`, `specs/Reading`); that a text has one list of entries is not proved. Signals and
//! their values: `specs/Signals`, `specs/Moments`; no two codes have one text (`codes_are_told_apart`). Samples:
//! `run_samples`.
#![tactic(auto)]

pub mod dump;
mod header;
pub mod laws;
pub mod signals;

pub use dump::{Recorded, waves};
