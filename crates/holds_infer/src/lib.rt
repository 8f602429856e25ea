//! Task source with the held list of each label filled in, for `infer`; or why no lists keep the rules, for `why`.
//!
//! `fill_source`: the source with the one choice of lists that keeps every rule, exact in bytes; or that none does; or
//! the first refusal before them (`specs/FilledSource`). `infer` finds the lists from the ways through each body
//! (`specs/Filling`). `labels_text`: two ways to a label that hold different resources, or another rule that is broken
//! with the lists that ways hold (`specs/LabelAnswers`).
#![tactic(auto)]

use sloth_base::Result;

mod body_ways;
mod filling;
mod inference;
mod label_answers;
mod laws;
mod other_ways;
pub mod sources;

pub use filling::fill;
pub use inference::{InferError, infer};
pub use label_answers::{LabelAnswer, labels_text};
pub use laws::{filled_is_accepted, lists_alone, one_filling, one_source, ways_exclude_lists};
pub use sources::{FillError, fill_source};

// What was found, if something was.
type Found<T> = Result<Option<T>>;
