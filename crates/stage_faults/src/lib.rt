//! The faults of a stage, each and no other, with the names that they concern.
//! Of an OIL tree (`model_notes`, `specs/ToldModel`), of lines (`line_notes`, `specs/ToldLines`), of names and limits
//! (`name_notes`, `specs/ToldNames`), in order, one for each line and code (`told_list`, `specs/Told`).
#![tactic(auto)]

mod bodies;
mod narrow;
pub mod notes;
mod oil_attributes;
mod oil_blocks;
mod oil_objects;

pub use notes::{Note, Notes, Position, line_notes, name_notes, order, put_in_order};
pub use oil_objects::model_notes;
