//! Instructions, added to the code of a block.
ghost use Rattle.std.specs.Prelude.{◌≡◌, ◌≤◌, ◌<◌, ◌+◌, ◌-◌, ◌*◌, ◌++◌, ◌∷◌, [], OnOk, pos};
ghost use Rattle.rv32_instr.specs.Range.{InRange, AreInRange, IsSigned};
ghost use Rattle.masked_code.specs.Pieces.{saving_code, restoring_code, clearing_code, words_clearing_code};

use rv32_instr::{Instr, InstrKind, ZERO, addi, lw, sw};
use sloth_base::Reg;
use std::alloc::AllocError;

/// The first register of a context.
pub const X5: Reg = Reg(5);

/// The bytes of so many words.
fn word_offset(words: u32) -> i32
    requires { words < 500 }
    ensures is { result ≡ pos (4 * words) }
    ensures fits { IsSigned 12 result }
{
    4 * words as i32
}

/// How far a branch goes that passes so many instructions.
pub fn past(instructions: u32) -> i32
    requires { instructions < 500 }
    ensures { result ≡ pos (4 + 4 * instructions) }
{
    4 + 4 * instructions as i32
}

fn put(code: &mut Vec<Instr>, kind: InstrKind) -> Result<(), AllocError>
    requires { InRange kind }
    ensures { OnOk result (code.new.items ≡ code.old.items ++ kind ∷ []) }
{
    code.push(Instr::of(kind))?;
    Ok(())
}

/// Adds these instructions.
#[macro_export]
macro_rules! put {
    ($code:expr; $($kind:expr),*) => {
        $crate::emit::emit($code, &[$($kind),*])
    };
}

/// Adds these instructions.
pub fn emit(code: &mut Vec<Instr>, kinds: &[InstrKind]) -> Result<(), AllocError>
    requires { AreInRange kinds.now }
    ensures { OnOk result (code.new.items ≡ code.old.items ++ kinds.now) }
{
    for kind in kinds {
        put(code, *kind)?;
    }
    Ok(())
}

/// Stores the registers from `first` on, below `end`, each at four times its number behind the address in `base`.
pub fn save(code: &mut Vec<Instr>, first: u8, end: u8, base: Reg) -> Result<(), AllocError>
    requires { (first ≤ end) × (end ≤ 32) × (base < 32) }
    ensures { OnOk result (code.new.items ≡ code.old.items ++ saving_code (end - first) first base) }
{
    for number in first..end {
        put(code, sw(Reg(number), base, word_offset(number as u32)))?;
    }
    Ok(())
}

/// Loads them from there.
pub fn restore(code: &mut Vec<Instr>, first: u8, end: u8, base: Reg) -> Result<(), AllocError>
    requires { (first ≤ end) × (end ≤ 32) × (base < 32) }
    ensures { OnOk result (code.new.items ≡ code.old.items ++ restoring_code (end - first) first base) }
{
    for number in first..end {
        put(code, lw(Reg(number), base, word_offset(number as u32)))?;
    }
    Ok(())
}

/// Sets them to zero.
pub fn clear(code: &mut Vec<Instr>, first: u8, end: u8) -> Result<(), AllocError>
    requires { (first ≤ end) × (end ≤ 32) }
    ensures { OnOk result (code.new.items ≡ code.old.items ++ clearing_code (end - first) first) }
{
    for number in first..end {
        put(code, addi(Reg(number), ZERO, 0))?;
    }
    Ok(())
}

/// Stores zero to `count` words from the address in `base` on.
pub fn clear_words(code: &mut Vec<Instr>, count: u32, base: Reg) -> Result<(), AllocError>
    requires { (count ≤ 500) × (base < 32) }
    ensures { OnOk result (code.new.items ≡ code.old.items ++ words_clearing_code count 0 base) }
{
    for number in 0..count {
        put(code, sw(ZERO, base, word_offset(number)))?;
    }
    Ok(())
}
