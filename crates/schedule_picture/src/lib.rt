//! Pictures of the schedule: a part of a run as SVG 1.1, a lane for each task and each counter.
//!
//! `draw` gives the drawing whose bars are those of what each task, each counter and the generated code show at each
//! count, with arrivals, kept or lost, who wakes or activates which task, at which ticks alarms expire, and the first
//! and last item of a bar that runs; or where the run stops (`specs/Drawn`, `specs/Picture`, `specs/LaneLooks`,
//! `specs/Lanes`, `specs/Samples`, `specs/Marks`, `specs/Items`). Each arrival of the counts, and no other, is told
//! once (`arrivals_are_told_once`). Samples: `run_samples`; bars and lines: `lane_drawing`.
#![tactic(auto)]

pub mod laws;
pub mod marks;
mod picture;
mod text;

pub use picture::{Picture, draw};
