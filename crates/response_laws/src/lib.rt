//! Response times: within how many counts of becoming Ready a task has left the processor, in every run whose arrivals
//! keep a load. The classical analysis (Joseph and Pandya 1986) by busy periods of a priority (Lehoczky 1990), with
//! blocking once (Sha, Rajkumar and Lehoczky 1990), of runs of machine code. A busy period begins where no task of at
//! least the task's static priority is due, or where a task that is entered once left last (`specs/Busy`).
//!
//! With costs that are enough (`specs/Demand`, `specs/Bounded`) a task responds within its longest start
//! (`images_respond_by_code`; `specs/Response`, `specs/CodeStarts`), counted from the arrival of the counter where a
//! tick makes it Ready (`IsEdge`). What the others promise stands at each in `laws`; stages, rounds and own counts:
//! `run_counts`.
#![tactic(auto)]

pub mod laws;
