//! Blocks of code, written into a memory.
ghost use Rattle.std.specs.Prelude.{◌≡◌, ◌≤◌, ◌+◌, ◌*◌, length, map, All};
ghost use Rattle.sloth_base.specs.MemoryMap.{memory_base};
ghost use Rattle.mem_map.specs.Sections.{code_bytes, with_bytes, linked_memory, block_section, IsSectionInside};

use rv32_instr::{Block, Instr, encode};
use sloth_base::MEMORY_BASE;

/// Writes these bytes from a place on.
pub fn write(memory: &mut [u8], at: usize, bytes: &[u8])
    requires { at + length bytes.now ≤ length memory.old }
    ensures { memory.new ≡ with_bytes memory.old at bytes.now }
{
    let mut place = at;
    for byte in bytes {
        memory[place] = *byte;
        place += 1;
    }
}

// Writes the words of these instructions.
fn write_code(memory: &mut [u8], at: usize, code: &[Instr])
    requires { at + 4 * length code.now ≤ length memory.old }
    ensures { memory.new ≡ with_bytes memory.old at (code_bytes code.now) }
{
    let mut place = at;
    for instr in code {
        write(memory, place, &encode(*instr).to_le_bytes());
        place += 4;
    }
}

/// Writes each block at its address.
#[tactic(auto, using(crate::proofs::CodeBytes::code_bytes_length))]
pub fn write_blocks(memory: &mut [u8], blocks: &[Block])
    requires above { All (λ b. memory_base ≤ b.at) blocks.now }
    requires inside { All (λ b. IsSectionInside (length memory.old) (block_section b)) blocks.now }
    ensures { memory.new ≡ linked_memory memory.old (map block_section blocks.now) }
{
    for block in blocks {
        let at = (block.at - MEMORY_BASE) as usize;
        write_code(memory, at, block.code.items());
    }
}
