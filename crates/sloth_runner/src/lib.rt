//! Runs of an image: the text of what is observed, the numbers of its events, the events, or the states of its tasks at
//! a count.
//!
//! A runner puts exactly the text of the observed run of any image and any arrivals, ends whole or stopped as the
//! machine does, and on a fault of the sink has put a first part. Its tally is exactly the numbers of the events by
//! their kinds. A run of a sound image never stops (`Runner::run`, `Runner::tally`, `sound_runs_are_whole`).
//! `Runner::state_at` gives where a run stops, that no count finds interrupts open, or the last one that does with the
//! states there. Definitions: `specs/Runner`, `specs/TaskStates`, `specs/Moments`.
#![tactic(auto)]

pub mod events;
pub mod laws;
pub mod runner;
pub mod summary;
pub mod tally;
pub mod task_states;

pub use events::run_events;
pub use runner::{Halt, RunEnd, Runner};
pub use summary::put_summary;
pub use tally::Tally;
pub use task_states::{Interrupts, Seen, Sight, interrupts_shown, level_bytes, tasks_seen};
