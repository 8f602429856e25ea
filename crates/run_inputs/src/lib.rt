//! What a run is made from: a configuration, its task source and arrivals; or an image file and arrivals.
//!
//! The texts are read exactly where they are accepted, or have their first refusal (`read_inputs`; `specs/Inputs`). An
//! image file is read with arrivals, or has its first fault, or they have their first (`read_run`; `specs/RunInputs`).
#![tactic(auto)]

mod inputs;

pub use inputs::{Inputs, RunInputs, Unread, config_arrivals, read_inputs, read_run};
