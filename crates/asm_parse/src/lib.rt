//! The task code that a text says, or its least refusal.
//! `parse_app`: one task code, in range of the configuration (`specs/AppTexts`, `specs/Apps`, `specs/Operations`), or
//! the least of A1 to A4, or else of A5 to A7 (`specs/NameFaults`).
#![tactic(auto)]

pub mod apps;
mod bodies;
pub mod body_faults;
mod operations;

pub use apps::{app_of, is_taken, is_too_much, one_app, parse_app};
pub use body_faults::{
    Verdict, bytes_of, count_data, count_item, count_items, count_label, is_beyond,
    is_body_missing, is_misnamed, is_strange, is_too_great,
};
pub use operations::Access;
