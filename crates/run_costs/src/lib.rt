//! The record of costs that runs keep, from the configuration, the task code and a load (`IsRunRecord` of
//! `specs/RunRecord`): tasks, makings, raised sections, services, counters and alarms (`specs/RunCosts`). A load has one
//! such record. A sum of 1,000,000 or more counts as endless. That runs keep these numbers: `run_responses`.
#![tactic(auto)]

pub mod record;
mod rounds;
mod sections;
mod services;

pub use record::run_costs;
pub use rounds::round_sums;
