//! The abstract scheduler as a program.
//!
//! Of well-formed task code a step leads to the one next state of the event, or, exactly where there is none, changes
//! nothing; it takes no memory, nor does a tick (`Osek::boot`, `step`, `state`, `store::tick`; `specs/Steps`,
//! `specs/Ticks`). `Osek::above` gives the due counters and Ready tasks above a task, a bit for each line
//! (`specs/Above`).
//!
//! What an event changes is a plan, exactly the definition's, and carrying it out is the change that it says
//! (`Store::opening`, `carry_out`, `entry_plan`, `running_plan`, ..; `specs/Plans`, `specs/Changes`,
//! `specs/Running`, `specs/PlanSteps`, `specs/Clocked`). States and outcomes: `osek_scheduler`.
#![tactic(auto)]

pub mod events;
pub mod items;
pub mod osek;
pub mod priority;
pub mod room;
pub mod services;
pub mod store;

pub use events::{answer_plan, back_plan, entry_plan, leave_plan, running_plan};
pub use items::{own_operation, run_plan};
pub use osek::{NotARun, Osek};
pub use priority::{is_active, is_idle, is_next_tick, no_ticks};
pub use services::{call_in, call_plan};
pub use store::{Store, is_suspended};
