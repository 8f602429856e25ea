//! The lines of the command `bounds`, without and with `latency` or `counts`, and those of `why` for one task, from the
//! texts of a configuration and its task source, or their first refusal. Texts have one list of lines of each of the
//! first three (`laws`), and runs keep what is told (`specs/KeptRuns`, `specs/Kept`); bounds are exact up to 1,000,000
//! (`specs/Bounds`). `why` shows a greatest section, or a cycle within one; that it finds one is not proved.
#![tactic(auto)]

pub mod latency;
pub mod laws;
pub mod task_bound;
pub mod task_lines;

pub use latency::{heaviest_ending, latency_lines, longest_item, running_counts};
pub use task_bound::{bounds, task_bound_text};
pub use task_lines::{bounds_text, lower_count_lines};
