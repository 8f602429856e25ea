//! Why response times have no number (`reason_if`: the loop that the first without a number comes from, with the least
//! source line of an item on it; `specs/Reasons`, `specs/Loops`), and where in the source parts of numbers come from
//! (`specs/Calls`, `specs/EarlySections`). Walks and their sums: `walk_sums`.
#![tactic(auto)]

mod calls;
mod early;
mod loops;
pub mod reasons;

pub use calls::service_line;
pub use early::greatest_section_line;
pub use loops::{section_line, turn_line};
pub use reasons::{Reason, reason_if};
