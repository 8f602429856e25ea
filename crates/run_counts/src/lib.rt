//! The counts that a run's events spend, and whose they are (`laws`; `specs/Stages`); blocking bounds and the latency of
//! the highest task, which every run keeps (`blocking_laws`, `specs/EntryLatency`); the counts of items as weights
//! (`count_weights`). Sums: `walk_sums`; pace and the promise of every run: `sim_induction`.
#![tactic(auto)]

pub mod blocking_laws;
pub mod laws;
mod weights;

pub use weights::{count_weights, weights_by};
