//! What is shown of a refusal of task code (V1 to V12): the place at which the rule is broken, a way to it, and calls.
//!
//! `place_at_fault` gives such a place (`specs/Places`); `fault_witness` with it a way of clean steps and the calls
//! that lead on, from the item or from the body of a task that lacks what it uses (`specs/Witnesses`); `cycle_calls`
//! the calls by which a function calls itself. `clean_way` gives a way of clean steps to an item, each of which keeps
//! the lists of the next item and its labels (`specs/CleanWays`), and `way_holds` what is held before its last item;
//! `is_chain` tests a chain of calls (`specs/CallChains`). Rules: `code_rules`.
#![tactic(auto)]

use sloth_base::Result;

pub mod body_lists;
pub mod breaches;
pub mod chains;
pub mod laws;
mod straight_ways;
pub mod users;
pub mod witnesses;

pub use body_lists::{KeptList, is_orderly};
pub use breaches::{Place, held_entering, held_list, label_before};
pub use chains::{Calls, Link, chain_end, cycle_calls};
pub use users::User;
pub use witnesses::{Judged, Way, Witness, fault_witness};

/// What was found, if something was.
pub type Found<T> = Result<Option<T>>;
