//! The code with which an image begins, and that where a line is taken: boot, the vector words, the idle loop, and the
//! prologues of tasks.
//!
//! From the start, with any arrivals: the effect of boot on the lines of tasks and counters, within its bound, and its
//! length; the jumps; the idle loop (`boot`, `vectors`, `idle`; a file of `specs/` for each). Being masked, standing in
//! place, leaving: `masked_code` (`Masked`, `Place`, `Kernel`); service words: `sloth_region` (`Layout`).
//!
//! Prologues, from the taken line of a task, with any arrivals: the effect within 160 instructions, and the length
//! (`prologue`; a file of `specs/` for each way in).
#![tactic(auto)]

mod boot_code;
mod prologue_block;

pub use boot_code::{boot, idle, vectors};
pub use prologue_block::prologue;
use rv32_instr::Instr;
use std::alloc::AllocError;

/// The code of a block.
type Code = Result<Vec<Instr>, AllocError>;

/// What adding instructions to it answers.
type Added = Result<(), AllocError>;
