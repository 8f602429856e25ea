//! Where a debugger stands in a run of any machine (`Cursor`), where ways, steps and continues lead it (`specs/Ways`,
//! `specs/Standing`), why (`specs/Causes`), and what it sees there (`specs/Shown`, `specs/Around`). All that looks
//! leaves the run as it is: the clauses `run`. In words: `laws`.
#![tactic(auto)]

pub mod cursor;
pub mod laws;
pub mod machine;
mod marks;
pub mod points;
pub mod standing;
pub mod stepping;
pub mod ways;

pub use cursor::Cursor;
pub use machine::Machine;
pub use points::{Point, passage};
pub use standing::{Access, Cause, Look, Passage, Standing, Step, Target, Wanted, is_own};
pub use ways::{Hits, go_ahead, go_back};

/// What was put, where memory suffices.
pub type Put = sloth_base::Result<()>;
