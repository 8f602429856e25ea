//! The meaning of an OIL tree (OIL 2.5, section 3): its configuration, or the least of its faults.
//! `resolve`: one configuration, in range (`specs/Configs`, `specs/Clocks`), or the least of O7 to O15, which `judge`
//! finds (`specs/ModelFaults`). What is kept of earlier objects and attributes: `specs/Fronts`, `specs/KeptReferences`.
#![tactic(auto)]

pub mod blocks;
pub mod front;
pub mod judging;
pub mod references;
mod resolving;

pub use blocks::{Block, blocks_of, first_block, first_in, is_used_in, lacks_part, number_in};
pub use front::{Front, is_above, is_doubled, is_strange_mode, lacks_attribute};
pub use judging::{
    NamedTask, Verdict, is_given_with, is_refused, judge, opened, place_by, refers_to_none,
    repeats_priority,
};
pub use references::References;
pub use resolving::{one_config, resolve};
