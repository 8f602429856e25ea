//! The file of an image that debuggers read: an ELF file with sections, symbols and source lines, as DWARF 4 has them.
//!
//! `symbol_file` gives exactly the file of `specs/SymbolFile`. Each byte of the memory is loaded once, sections agree with
//! segments, symbols read back from their tables, the program of lines makes exactly the rows, and entries are read by
//! the table of kinds (`laws`; `specs/Loading`, `Sections`, `Reading`, `LineMachine`, `EntryTree`).
#![tactic(auto)]

pub mod bodies;
pub mod body_frames;
pub mod fields;
pub mod file;
pub mod frames;
pub mod laws;
pub mod layout;
pub mod line_section;
pub mod symbol;

pub use file::{Parts, symbol_file};
