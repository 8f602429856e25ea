//! Response times that runs keep, from a record of costs: in every run of an image that keeps a load each task leaves
//! within the numbers that `run_windows` tells (`images_meet_bounds`; `specs/Meeting`), and ticks have ended within
//! `tick_number` (`specs/TickWindows`, `proofs/TickTimes`).
#![tactic(auto)]

pub mod laws;
mod ticks;

pub use ticks::tick_number;
