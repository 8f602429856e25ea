//! What a run of an image shows at each count, and which of its arrivals are lost.
//!
//! The sample of each count: the tasks and the running one as of the last count up to it that finds interrupts open;
//! pending lines, level and mask as they are; the line that is taken; or where the run stops (`Sampler::new`,
//! `Sampler::next`; `specs/Samples`). What the service words say, the address of the instruction (`specs/ServiceWords`,
//! `specs/Addresses`), and the lines of `at .. all` (`push_system`; `specs/SystemText`). Which arrivals are lost:
//! `note_arrivals`, `step_access`, `Noting` (`specs/Accesses`, `specs/Admissions`). Runs: `sloth_runner`.
#![tactic(auto)]

pub mod accesses;
mod admissions;
pub mod lines;
pub mod samples;

pub use accesses::{Access, AccessKind};
pub use admissions::{Admission, Noting};
pub use lines::{push_system, state_line};
pub use samples::{Sample, Sampler, ServiceWords, WordsRead, words_at};
