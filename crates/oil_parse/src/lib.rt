//! Cuts an OIL text into tokens, and reads these into its tree (OIL 2.5, section 5).
//! `tokens`: a text has one cut, or its least fault is one of O1 to O3 (`specs/Tokens`, `specs/Pieces`). `parse`:
//! tokens have one tree, or the least of O4 to O6 (`specs/Grammar`, `specs/Faults`); both by machines (`specs/Cutting`,
//! `specs/Steps`).
#![tactic(auto)]

mod lexer;
mod machine;
pub mod tree;

pub use lexer::{one_cut, tokens};
pub use tree::{
    OilAttr, OilObject, OilTree, OilValue, Token, TokenKind, one_tree, parse, words_of_tree,
};
