//! Ways through raised sections: `lower_way` gives of a bound of a task a lower task and the items of a section of it of
//! an item less, or those of a cycle within one (`specs/ShownWays`, `specs/SectionWays`). They are read back from sizes
//! by function, item and level (`place`, `walking`), and what is given was tried step by step (`steps`, `trial`).
#![tactic(auto)]

mod pair;
mod place;
mod steps;
mod trial;
mod walking;
pub mod ways;

pub use ways::{Way, lower_way};
