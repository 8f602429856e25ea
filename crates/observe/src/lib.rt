//! What is observed of a run: the events of its steps.
//!
//! Fed the steps one after the other, an observer tells exactly their events, with arrivals placed by the rule
//! (`Observer::feed`, `pass_by`, `next`, `is_cut_by_the_rule`, `stretches_are_masked`). Pieces of a run:
//! `specs/Pieces`; what is seen: `specs/Observe`; how far the observer is: `specs/Progress`, `specs/Touches`; the table
//! of marks: `specs/MarkTable`. Arrivals: `sloth_base` (`Arrivals`).
#![tactic(auto)]

pub mod image_view;
pub mod laws;
pub mod observing;
mod touches;

pub use observing::{Observer, passing};
