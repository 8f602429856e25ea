//! The single steps of blocking bounds: the summary of a function that is called and of a task's body, sums that are
//! counted up to a limit, and what is told of a greatest size (`callee`, `task_summary`, `joined`, `told`;
//! `specs/Items`, `specs/Summaries`, `specs/Tasks`, `specs/Weights`). Walks and sections: `osek_blocking` (`Walks`,
//! `Sections`).
#![tactic(auto)]

pub mod bound;

pub use bound::{
    Body, BodyWeights, Bound, ENDLESS, Summary, UNKNOWN, callee, is_marked, is_schedule, joined,
    number_at, reaches_level, size_behind, summary_of, task_summary, told, weights_at,
};
