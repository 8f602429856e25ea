//! The ORTI file of a kernel: which objects OSEK debuggers show of it (`specs/OrtiTable`, `specs/Tables`), and the
//! formulas by which they find what these are (`specs/Values`). In words, and that all is read back: `laws`.
#![tactic(auto)]

pub mod attributes;
mod formulas;
pub mod laws;
pub mod tables;

pub use attributes::{Attribute, Kind};
use sloth_base::Result;
pub use tables::orti_text;

/// A text, where memory suffices.
pub type Text = Result<Vec<u8>>;

/// What was put, where memory suffices.
pub type Put = Result<()>;
