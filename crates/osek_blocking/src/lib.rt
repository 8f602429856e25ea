//! Laws of every run of the abstract scheduler: the priority ceiling protocol of OSEK OS 2.2.3 (section 8), how much
//! work of lower priority may stand between a task's becoming Ready and its entry, and the next event where no arrival
//! comes.
//!
//! From each event that makes a task Ready up to its entry, all `run` and `call` events of lower tasks are of one task,
//! whose current priority is then at least the Ready task's, except a `call` in whose stretch the task arrived.
//! GetResource always has status E_OK. No two tasks hold one resource, no two Active tasks have one current priority,
//! and a task that is not Active holds none (`runs_block_once`, `resources_are_got`, `runs_exclude`; all of it:
//! `runs_keep_ceiling_protocol`; `specs/Blocking`, `specs/Protocol`, `specs/ProtocolKept`).
//!
//! Bounds are of walks of task code, of the sections of them at which a task's current priority is that of another or
//! above it. From each event that makes a task Ready up to its entry lower tasks have at most as many `run` and `call`
//! events as its bound (`runs_keep_bounds`). Where each event but the boot ends at most 200 counts behind the one
//! before it (an `enter` or a `tick`: 40 and its own counts), at most 200 times the bound are spent on them
//! (`runs_keep_counts`). Ways through task code: `specs/Walks`; priority along a walk, sections, bounds:
//! `specs/Sections`; what a bound promises of events and of counts: `specs/Kept`, `specs/Spent`, `specs/Pace`,
//! `specs/RunLaws`. Which operation chains its own task: `chains_itself`.
//!
//! Admits and due counters aside at most one event comes next, so without arrivals there is one run of each length
//! (`one_next_event`, `one_run`, `runs_without_arrivals`; `specs/NextEvents`).
#![tactic(auto)]

pub mod bound_laws;
pub mod chaining;
pub mod laws;
pub mod next_event_laws;

pub use chaining::chains_itself;
