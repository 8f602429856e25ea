//! Texts to the file that debuggers read, for the command `symbols`.
//!
//! `symbols_file` gives the one file of an image which is built of what the texts mean, by the image's own map, or their
//! first refusal (`specs/SymbolFiles`). Its symbols, sections and source lines stand where they should (`laws`).
#![tactic(auto)]

mod building;
pub mod laws;

pub use building::symbols_file;
