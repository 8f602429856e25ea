//! Loads: how far arrivals are apart, how much work rounds of tasks take, and which responses are wanted.
//!
//! Exactly the load of a text, in range, or exactly its least fault, L1 to L4 (`read_load`); what it says of a line or
//! a task (`distance_of`, `work_of`, `deadline_of`). What the text means, and its faults: `specs/LoadText`; what a load
//! says, and which arrivals keep it: `specs/Loads`. Names and lines: `trace_text` (`ArrivalsText`).
#![tactic(auto)]

pub mod load_line;

pub use load_line::{Entry, Form, deadline_of, distance_of, read_load, work_of};
