//! The lines of the command `why`: a refusal with what stands behind it.
//!
//! `explain`: that texts are accepted, or their first refusal and the lines behind it (`specs/WhyLines`): of task code
//! (V1 to V12) a witness of `fault_witnesses`, if one is found; of names, forms and limits (O7 to O15, A1 to A7) each
//! fault of the stage and no other, in order and once, up to 1,000, by `stage_faults`.
#![tactic(auto)]

pub mod explaining;
mod item_lines;
mod naming;
mod oil_names;
mod rule_lines;

pub use explaining::{Why, explain, ranked_texts, told_fault};
pub use item_lines::{label_line, label_name};
pub use rule_lines::{push_list_line, push_way_line};
