//! What a run asks of tasks and counters, what of it is lost, and the lines of `losses`. A task is asked for by each
//! arrival at its line, each alarm that expires and activates it, and by ActivateTask and ChainTask; a counter by each
//! arrival at its line. A request is lost where the task is not Suspended, or the counter is due already.
//!
//! `losses_text` gives for each task and counter how many requests came, were taken and were lost in n instructions of
//! an image that is built, and when the first was lost; or the first refusal (`specs/Losses`). Where no request of a
//! line is lost, none of any of its events is (`specs/NothingLost`).
#![tactic(auto)]

pub mod laws;
pub mod requests;

pub use requests::{Request, losses_text};
