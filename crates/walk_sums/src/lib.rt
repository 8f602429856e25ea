//! The greatest sums along the walks of task code (`Walks`), for any weights of items, 0 among them: of the turns of a
//! task, of the rounds into which its WaitEvents cut them, and of its raised sections; or that a cycle has a weight, so
//! that there is none. Sums are found function by function (`whole_sums`, `own_sums`), each body by `Caller`.
//! What is told: `specs/Told`, `specs/Sections`, `specs/Rounds`, `specs/Early`; when sums are right: `specs/Known`.
#![tactic(auto)]

pub mod bodies;
pub mod counted;
pub mod graph;
pub mod items;
pub mod levels;
mod loops;
mod paths;
pub mod sections;
pub mod standing;
pub mod walks;

pub use bodies::{greatest_ceiling, is_next_item, numbered_function};
pub use counted::{Counted, calls_object, counted_weights, is_ending_counted, item_weights};
pub use graph::callees_first;
pub use levels::{Kind, numbered_body};
pub use sections::{RoundSums, Sum, greatest_sum};
pub use standing::{Point, Standing, is_same, is_standing};
pub use walks::{Walks, known_code};
