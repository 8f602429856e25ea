//! The ELF file of an image: what the tools of embedded engineers open.
//!
//! `write_elf` gives exactly the file of the definition (`specs/ElfText`), and `read_elf` the image of the file, or the
//! first of the faults E1 to E8 (`specs/Faults`, `Reading`). A file is some image's or has one first fault, never both,
//! and no two images have one file (`laws`).
#![tactic(auto)]

pub mod laws;
pub mod read;
pub mod reading;

pub use read::read_elf;
pub use reading::{put_words, write_elf};
