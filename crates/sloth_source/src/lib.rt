//! Reads a configuration and its task code whole: what both texts mean, or their first refusal.
//! `read`, `read_checked`, and without V2 to V12 `read_ranked`: texts have one meaning or one first refusal, never
//! both, and do not lack both (`specs/Texts`, `specs/RankedTexts`, `specs/Checked`).
#![tactic(auto)]

mod laws;
mod reading;
mod task_names;

pub use laws::{one_meaning, one_ranked, one_verdict};
pub use reading::{Checked, Ranked, Source, read, read_checked, read_config, read_ranked};
pub use task_names::task_named;
