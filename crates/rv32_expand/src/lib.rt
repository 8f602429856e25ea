//! The instructions of each item of task code and how long they are, and what it is for the items to stand in an image,
//! each with its mark on its last instruction (`specs/InPlace`).
//!
//! The instructions of each item, their number, range and place, and its length with the least set of long branches
//! (`expand`, `length`, `sizes`, `shortest`, `laws`; `specs/Expansion`, `specs/ItemLengths`, `specs/Sizes`,
//! `specs/Long`, `specs/NumberRange`; how the set is found: `specs/Passes`). Instructions: `rv32_instr`.
#![tactic(auto)]

pub mod laws;
pub mod lengths;
pub mod rows;

pub use lengths::{Expansion, expand, item_address, length, shortest, sizes};
