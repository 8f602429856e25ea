//! The abstract scheduler: the task model, the services, events, resources and the priority ceiling protocol, counters
//! and alarms of OSEK OS 2.2.3, with no levels, interrupt lines, contexts or addresses; and what every step keeps.
//!
//! States and priorities: `specs/State`, `specs/Priority`; what items and services mean: `specs/Meaning`,
//! `specs/Services`, by plans and changes (`specs/Outcomes`, `specs/Changes`); steps and runs: `specs/Steps`,
//! `specs/Runs`; where arrivals stand: `specs/InTime`. A step has at most one next state, which a computed step finds
//! (`step_is_computed`).
//!
//! With well-formed task code, for all events and services: no two tasks hold one resource, no two Active tasks have
//! one current priority, a task that runs is at an item that means something, and there is always a next event
//! (`validity`: `steps_keep_valid`, `steps_keep_apart`, `runs_are_valid`, `items_mean`, `runs_never_stick`,
//! `tasks_are_tidy`, ..; `specs/Valid`, `specs/Apart`, `specs/Tidy`, `specs/WellFormedRuns`).
//!
//! Parts of a state with room for all that they become: `Stack` (`specs/Frames`), `Held`, `Fresh`, `Data`.
#![tactic(auto)]

pub mod ceilings;
pub mod change;
pub mod data;
pub mod number_lists;
pub mod stack;
pub mod state;
pub mod validity;

pub use ceilings::{ceiling, highest};
pub use change::{Other, Plan, TaskChange};
pub use data::{Data, branch_holds, extended, number_result, register_result, width_bytes};
pub use number_lists::Fresh;
pub use stack::{FrameRoom, Stack};
pub use state::{Alarm, Counter, TaskState};
