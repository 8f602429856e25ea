//! A run beside its load: whether it keeps the load, and the longest responses and ticks that are seen in it, beside
//! the numbers of runs that keep the load.
//!
//! `run_text` gives the lines of texts, or their first refusal: the first arrival that comes too soon, the first round
//! above the `work` of its task, the longest response of each task and the longest tick of each counter. It says that
//! the run keeps the load exactly where it does (`exact` of `HasToldRun`, `specs/RunText`). The events of the image's
//! run are followed along the abstract scheduler for each task (`watch`; `specs/Watched`, `specs/Work`, `specs/Soon`,
//! `specs/Seen`, `specs/Ticks`); lines: `specs/RunLines`.
#![tactic(auto)]

pub mod lines;
mod running;
pub mod soon;
mod text;
pub mod ticks;
pub mod watch;
pub mod work;

pub use lines::ToldRun;
pub use text::run_text;
