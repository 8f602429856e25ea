//! Whether a text of events is that of a run, and what stands behind the verdict.
//!
//! `check` says *Yes* exactly to texts of runs of the abstract scheduler in which arrivals are admitted in time; *Line*
//! with the first line that is no event's or has no LF; *Step* with the first line with which the events are no run;
//! *Time* where only the arrivals do not fit (`specs/Verdicts`, `specs/Answer`). Events are fed one after the other to
//! `Walk`, `Timing` and `Pass`. `explain_trace` tells for `why .. TRACE N` the states in front of the line and exactly
//! the events that may stand there (`specs/NextEvents`), or the first arrival that lacks its admit (`specs/Lateness`).
#![tactic(auto)]

pub mod late;
pub mod laws;
pub mod lines;
mod machine_events;
pub mod pass;
pub mod rows;
pub mod timing;
pub mod walk;

pub use lines::{TraceAnswer, TraceReason, explain_trace, judge_trace};
pub use rows::{NextEvent, Verdict, check, next_events};
pub use timing::Timing;
