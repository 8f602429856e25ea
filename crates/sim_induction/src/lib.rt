//! When every run of an image is one of the abstract scheduler: `Sound` (`specs/Sound`), and the induction that leads
//! to it, a lemma for any relation between the two states and any arrivals (`proofs/Simulated`, `sound`).
//!
//! It asks laws of a stretch, of boot and of other instructions (`StretchLaw`, ..; `specs/PieceLaws`), and that each
//! piece goes on to the next (`specs/Advances`, `specs/Related`). How short stretches and gaps are: `specs/Short`; that
//! the controller mirrors the scheduler: `specs/Mirror`; that the top task stays so: `specs/Passing`; the trace of a
//! stretch: `specs/Observed`; weights, pace and what a task spends on an item: `specs/Weighed`, `specs/Paced`,
//! `specs/Spent`. Nothing of it has a limit of counts or arrivals, so a run goes on for ever (`specs/Endless`). Laws:
//! `arrivals_of_files_come`, `sound_images_run_for_ever`, `top_task_stays`, `stretches_are_traced`.
//!
//! How many counts the events of a run take at most: of each item its expansion (`lengths`), and of a service its code
//! (`going_counts`, `ending_counts`; `specs/Items`); of each stretch, by its event (`specs/Events`); how soon an event
//! ends behind the one before it (`specs/Pace`). Longest paths of generated code: `code_lengths` (`LongestPaths`).
#![tactic(auto)]

mod items;
pub mod laws;

pub use items::{ItemLengths, ending_counts, going_counts, length_of, lengths};
