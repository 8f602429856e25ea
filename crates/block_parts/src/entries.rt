//! Pieces with which an image begins, and those of prologues. x4 holds the base of memory in a prologue.
ghost use Rattle.std.specs.Prelude.{ℕ, ◌≡◌, ◌<◌, ◌+◌, ◌%◌, ◌^◌, ◌++◌, OnOk, if◌then◌else◌, slice_index};
ghost use Rattle.sloth_base.specs.Limits.{task_limit, level_count};
ghost use Rattle.sloth_base.specs.MemoryMap.{line_count};
ghost use Rattle.rv32_instr.specs.Range.{InRange};
ghost use Rattle.block_parts.specs.Boot.{line_code, idle_code, IsJump};
ghost use Rattle.block_parts.specs.Prologues.{preempted_test, own_taking_code};

use masked_code::{past, put};
use rv32_instr::{Instr, InstrKind, MEPC, X1, X2, X3, X4, ZERO, addi, beq, csrrw, jal, lw, sb, sw};
use sloth_base::{Levels, TaskDecl, TaskId};
use sloth_region::{CONTEXT_BYTES, CONTEXT_PC, CUR, pending_byte, resume};
use std::alloc::AllocError;

/// The line is raised where its task is autostarted. x3 holds the controller's address, x4 holds 1.
pub fn raise_autostarted(code: &mut Vec<Instr>, line: u8, autostart: bool) -> Result<(), AllocError>
    requires { line < line_count }
    ensures { OnOk result (code.new.items ≡ code.old.items ++ line_code line autostart) }
{
    if autostart {
        put!(code; sb(X4, X3, pending_byte(line)))?;
    }
    Ok(())
}

/// The level of the counters' lines: above that of the highest task.
pub fn counter_level(levels: &Levels) -> u8
    requires { levels.now.top < level_count }
    ensures { result ≡ levels.now.top + 1 }
{
    levels.top + 1
}

/// The word of the idle loop, which jumps to itself.
pub fn stay(code: &mut Vec<Instr>) -> Result<(), AllocError>
    ensures { OnOk result (code.new.items ≡ code.old.items ++ idle_code) }
{
    put!(code; jal(ZERO, 0))
}

/// The jump from an address to one behind it.
pub fn jump(from: u32, target: u32) -> InstrKind
    requires near { (from < target) × (target < from + 0x100000) }
    requires aligned { (from % 4 ≡ 0) × (target % 4 ≡ 0) × (from + 0x100000 < 2 ^ 32) }
    ensures fits { InRange result }
    ensures jumps { IsJump from target result }
{
    jal(ZERO, (target - from) as i32)
}

/// The registers of a context: x5 to x31.
const REGISTERS: u32 = 27;

/// The level at which a task starts to run: one that isn't preempted starts at the highest.
pub fn start_level(decl: &TaskDecl, task: TaskId, levels: &Levels) -> u8
    requires exists { task < task_limit }
    requires levels { (levels.now.top < level_count) × ((t : ℕ) → slice_index levels.now.task t < level_count) }
    ensures is { result ≡ (if decl.now.non then levels.now.top else slice_index levels.now.task task) }
    ensures low { result < level_count }
{
    if decl.non {
        levels.top
    } else {
        levels.task[task.0 as usize]
    }
}

/// x1 := the place of the context; passes what saves the registers, where no task was running. Leaves `cur` in x2.
pub fn ask_preempted(code: &mut Vec<Instr>) -> Result<(), AllocError>
    ensures { OnOk result (code.new.items ≡ code.old.items ++ preempted_test) }
{
    put!(code; addi(X1, X2, -CONTEXT_BYTES), lw(X2, X4, CUR), beq(X2, ZERO, past(REGISTERS)))
}

/// No context is kept for the task any more; mepc and x2 are those of its context at x1.
pub fn take_own(code: &mut Vec<Instr>, task: u32) -> Result<(), AllocError>
    requires { task < task_limit }
    ensures { OnOk result (code.new.items ≡ code.old.items ++ own_taking_code task) }
{
    put!(code; sw(ZERO, X4, resume(task)), lw(X2, X1, CONTEXT_PC), csrrw(ZERO, MEPC, X2), addi(X2, X1, CONTEXT_BYTES))
}
