//! Response times by windows that hold what comes into runs, and the demand of a load, from a record of costs: plain
//! numbers by task, counter and alarm. A window's bound is the least number of counts that holds all that comes within
//! it (`specs/RunWindows`, `specs/Windows`); above 8,000,000,000 counts as 8,000,000,001. That runs keep these numbers:
//! `run_responses`.
#![tactic(auto)]

pub mod costs;
pub mod curves;
pub mod level;
pub mod responses;
pub mod rounds;

pub use costs::{
    AlarmCosts, Costs, CounterCosts, Level, Longest, Made, Makings, RunCosts, SectionCosts,
    SectionMakings, Services, Start, TaskCosts, Untold, first_untold,
};
pub use level::{call_path, task};
pub use responses::{Parts, demand, longest_window, window_parts};
pub use rounds::plus;
