//! The image file: a memory image, its marks and its names as bytes, without and with counters.
//!
//! `write_image` gives the bytes of the format (`specs/ImageText`, `Parts`): no two images share them, and none are the
//! first part of another's. `read_image` gives the image that bytes are the file of, or exactly the first of the faults
//! I1 to I5 (`laws`; `specs/Faults`, `Reading`). What may be wrong with an ELF file is plain data here (`ElfFault`).
#![tactic(auto)]

pub mod header;
pub mod laws;
pub mod read;
pub mod write;

pub use header::{Sizes, are_ascending, read_marks, read_u32};
pub use read::{
    ElfError, ElfFault, ImageError, ImageFault, Outline, are_right_names, read_image, read_parts,
    service_limit,
};
pub use write::{put_marks, put_names, put_u16, put_u32, write_image};
