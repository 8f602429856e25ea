//! Pieces of a tick. x4 holds the base of memory, and bit T of x3 says whether task T is not Suspended.
ghost use Rattle.std.specs.Prelude.{◌≡◌, ◌<◌, ◌^◌, ◌++◌, [], OnOk, cond};
ghost use Rattle.sloth_base.specs.Limits.{task_limit, alarm_limit};
ghost use Rattle.block_parts.specs.Ticks.{greatest_test, look_code, suspension_test, awaited_events_test};
ghost use Rattle.block_parts.specs.Ticks.{restarting_code};

use masked_code::{past, put};
use rv32_instr::{
    Instr, X1, X3, X4, ZERO, addi, and, andi, beq, bne, hi, lbu, lo, lui, lw, or, slli, srli, sw,
    xori,
};
use sloth_region::{
    CONTROLLER_HIGH, WORDS_HIGH, active, alarm_cycle, alarm_left, enabled_byte, pending_byte, wait,
};
use std::alloc::AllocError;

/// How many instructions add events to a task's.
const ADD: u32 = 6;

/// How many instructions `ask_awaited` adds.
const ASK: u32 = 3;

/// How many instructions wake a task.
const WAKE: u32 = 4;

/// On behind one more where the counter's value, in x1, isn't the greatest, which stays in x3.
pub fn ask_greatest(code: &mut Vec<Instr>, max: u32) -> Result<(), AllocError>
    ensures added { OnOk result (code.new.items ≡ code.old.items ++ greatest_test max) }
    ensures fits { max < 2 ^ 32 }
{
    put!(code; lui(X3, hi(max)), addi(X3, X3, lo(max)), bne(X1, X3, past(1)))
}

/// The task's bit becomes 1 where the task isn't Suspended, unless a later alarm looks at it.
pub fn look_unless_later(code: &mut Vec<Instr>, task: u8, later: bool) -> Result<(), AllocError>
    requires { task < task_limit }
    ensures { OnOk result (code.new.items ≡ code.old.items ++ cond later [] (look_code task)) }
{
    if later {
        return Ok(());
    }
    put!(code; lui(X4, CONTROLLER_HIGH), lbu(X1, X4, enabled_byte(task)), xori(X1, X1, 1),
        lbu(X4, X4, pending_byte(task)), or(X1, X1, X4), lui(X4, WORDS_HIGH), lw(X4, X4, active(task)),
        or(X1, X1, X4), slli(X1, X1, task), or(X3, X3, X1))
}

/// On behind the alarm where the task is Suspended.
pub fn ask_busy(code: &mut Vec<Instr>, task: u8) -> Result<(), AllocError>
    requires { task < task_limit }
    ensures { OnOk result (code.new.items ≡ code.old.items ++ suspension_test task) }
{
    put!(code; srli(X1, X3, task), andi(X1, X1, 1), beq(X1, ZERO, past(ADD + ASK + WAKE + 1)))
}

/// On behind what wakes the task where it waits for none of the events in x1.
pub fn ask_awaited(code: &mut Vec<Instr>, task: u8) -> Result<(), AllocError>
    requires { task < task_limit }
    ensures { OnOk result (code.new.items ≡ code.old.items ++ awaited_events_test task) }
{
    put!(code; lw(X4, X4, wait(task)), and(X1, X1, X4), beq(X1, ZERO, past(WAKE)))
}

/// The alarm starts again with its cycle.
pub fn start_again(code: &mut Vec<Instr>, alarm: u8) -> Result<(), AllocError>
    requires { alarm < alarm_limit }
    ensures { OnOk result (code.new.items ≡ code.old.items ++ restarting_code alarm) }
{
    put!(code; lw(X1, X4, alarm_cycle(alarm)), sw(X1, X4, alarm_left(alarm)))
}
