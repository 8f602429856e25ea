//! What readers and writers of texts share: parts of texts, their lines, digits, lists that grow, the numbers of names,
//! and text put piece by piece (`line!`, `specs/Pieces`). Each has its definition in a file of `specs/`. Names are
//! found by an index map and mean their place in a list.
#![tactic(auto)]

pub mod bytes;
pub mod cutting;
pub mod names;
pub mod numerals;
pub mod pieces;

pub use bytes::{after, before, behind, continues_word, front, has, is_name, same};
pub use cutting::{line_of, lines, split};
pub use names::Names;
pub use numerals::value;
pub use sloth_base::push;
