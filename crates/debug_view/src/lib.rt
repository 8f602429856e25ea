//! What a run of an image shows at each of its counts to one that looks on, who changes nothing (`specs/ShownRun`,
//! `specs/Looks`, `specs/Registers`, `specs/Contexts`): a `Place` stands at a count, and goes on or to another. In
//! words, and that what debuggers show of an image is what the abstract scheduler has: `laws`.
#![tactic(auto)]

mod arriving;
mod instructions;
pub mod laws;
pub mod place;
mod registers;
mod tracing;

pub use place::Place;
