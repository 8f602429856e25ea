//! Code that stands at one place of memory.

use crate::Instr;
use sloth_base::{List, Mark};

/// A run of instructions, and the marks on them. A generator makes at most 256 instructions.
#[derive(Drop)]
pub struct Block {
    /// The address of the first instruction.
    pub at: u32,
    pub code: List<Instr>,
    pub marks: List<Mark>,
}
