//! Every address of an image: its zones, and where each piece of code and data stands in them.
//!
//! `plan` gives, of well-formed task code and the bounds of its stacks, a map in which routines, ticks, the services
//! that items call, items and symbols each have exactly the room of their own length, with no hole between; at most 349
//! of the 640 places of the services' blocks are used. The extents are apart and of one region, which is never full.
//! All basic tasks share one stack, each extended task has one of its own, and the parts of two tasks that may be in
//! use at once are apart.
//!
//! Addresses, stack parts, marks, and a memory in which blocks are written: `place_services`, `handlers`, `part_of`,
//! `mark`, `marks`, `write_blocks` (`specs/Starts`, `specs/StackParts`, `specs/Sections`). What a map promises:
//! `specs/Planned`, `specs/Zones`, `specs/Stacks`, `specs/Plan`, `specs/Wanted`. Lengths: `rv32_expand`,
//! `code_lengths`; stacks: `stack_bounds`.
#![tactic(auto)]

pub mod all_lengths;
mod marking;
mod planning;
mod stacks;
mod writing;
mod zones;

pub use all_lengths::wanted_blocks;
pub use marking::{mark, marks};
pub use planning::plan;
pub use stacks::{first_own, stack_number};
use std::alloc::AllocError;
pub use writing::{write, write_blocks};
pub use zones::data_zone;

/// Numbers of pieces, in their order.
type Numbers = Result<Vec<u32>, AllocError>;
