//! The code of the operating system services on tasks and resources (OSEK OS 2.2.3, sections 13.2 and 13.4).
//!
//! From an opening mark, with any arrivals: the effect within 160 instructions, and the length, of TerminateTask,
//! ActivateTask, ChainTask, GetTaskID, GetTaskState, GetResource, ReleaseResource and Schedule, and from the mark of
//! the way back from Schedule (a file of `specs/` for each).
ghost use Rattle.std.specs.Prelude.{◌≡◌, IfOk, ◌<◌, ◌++◌, OnOk, ◌≤◌};
ghost use Rattle.sloth_base.specs.Limits.{task_limit};
ghost use Rattle.service_gen.specs.TaskPieces.{active_task_test, active_telling_code, waiting_task_test};
ghost use Rattle.service_gen.specs.ActivateTask.{IsActivateTaskCode};
ghost use Rattle.service_gen.specs.TerminateTask.{IsTerminateTaskCode};
ghost use Rattle.service_gen.specs.ChainTask.{IsChainTaskCode};
ghost use Rattle.service_gen.specs.Schedule.{IsScheduleCode};
ghost use Rattle.service_gen.specs.GetTaskID.{IsGetTaskIDCode};
ghost use Rattle.service_gen.specs.GetTaskState.{IsGetTaskStateCode};
ghost use Rattle.sloth_base.specs.ConfigRange.{scheduler_number};
ghost use Rattle.service_gen.specs.GetResource.{IsGetResourceCode};
ghost use Rattle.service_gen.specs.ReleaseResource.{IsReleaseResourceCode};

use crate::{Added, Code};
use block_parts::{
    BACK, ask, end, go_back, leave, look, lower, open, raise, release, take, tell_resting,
};
use masked_code::{past, put};
use rv32_instr::{
    A0, A1, Instr, MEPC, MIE, MSTATUS, PLEVEL, X1, X3, X4, X30, X31, ZERO, addi, beq, bne, csrrci,
    csrrw, jal, lbu, lw, mret, slli, sltu, xori,
};
use sloth_base::{E_OK, E_OS_LIMIT};
use sloth_region::{CUR, active, enabled_byte};
use std::alloc::Global;

/// The look at the task, the raised line, and the way back.
pub(crate) fn activate_task(alloc: Global, task: u8) -> Code
    requires { task < task_limit }
    ensures { IfOk result (λ code. IsActivateTaskCode task code.items) }
{
    let mut code = Vec::new(alloc);
    open(&mut code)?;
    look(&mut code, task)?;
    // E_OK, which is 0, where x1 is 1, and E_OS_LIMIT, which is 4, where it is 0.
    put!(&mut code; xori(A0, X1, 1), slli(A0, A0, 2))?;
    raise(&mut code, task)?;
    go_back(&mut code)?;
    Ok(code)
}

/// The masking instruction, the end of the running task, and the way to what runs below.
pub(crate) fn terminate_task(alloc: Global) -> Code
    ensures { IfOk result (λ code. IsTerminateTaskCode code.items) }
{
    let mut code = Vec::new(alloc);
    open(&mut code)?;
    end(&mut code)?;
    leave(&mut code)?;
    Ok(code)
}

/// The look at the task with the refusal, and then the caller's end, the raised line and the way to what runs below.
pub(crate) fn chain_task(alloc: Global, task: u8) -> Code
    requires { task < task_limit }
    ensures { IfOk result (λ code. IsChainTaskCode task code.items) }
{
    let mut code = Vec::new(alloc);
    open(&mut code)?;
    ask(&mut code, task)?;
    look(&mut code, task)?;
    // Goes on behind the refusal where x1 is 1: the task is Suspended.
    put!(&mut code; bne(X1, ZERO, past(1 + BACK)), addi(A0, ZERO, E_OS_LIMIT as i32))?;
    go_back(&mut code)?;
    end(&mut code)?;
    raise(&mut code, task)?;
    leave(&mut code)?;
    Ok(code)
}

/// Where the way back stands, in bytes from the first instruction.
pub(crate) const WAY_BACK: u32 = 24;

/// How many instructions the way back has.
const COME_BACK: u32 = 4;

/// The lower level, and within it the way back, which is passed; its address is in x1.
pub(crate) fn schedule(alloc: Global) -> Code
    ensures { IfOk result (λ code. IsScheduleCode code.items) }
{
    let mut code = Vec::new(alloc);
    open(&mut code)?;
    lower(&mut code)?;
    put!(&mut code; jal(X1, past(COME_BACK)))?;
    put!(&mut code; csrrci(ZERO, MSTATUS, MIE), csrrw(ZERO, PLEVEL, X30), csrrw(ZERO, MEPC, X31), mret())?;
    put!(&mut code; csrrw(ZERO, MEPC, X1), addi(A0, ZERO, E_OK as i32), mret())?;
    Ok(code)
}

/// The running task's number, and the way back.
pub(crate) fn get_task_id(alloc: Global) -> Code
    ensures { IfOk result (λ code. IsGetTaskIDCode code.items) }
{
    let mut code = Vec::new(alloc);
    open(&mut code)?;
    put!(&mut code; lw(A1, X4, CUR), addi(A1, A1, -1), addi(A0, ZERO, E_OK as i32))?;
    go_back(&mut code)?;
    Ok(code)
}

/// The state's number where the task waits.
const WAITING: i32 = 1;

/// How many instructions `tell_active` adds.
const TELL_ACTIVE: u32 = 4;

/// How many instructions `tell_resting` adds.
const TELL_RESTING: u32 = 2;

/// The number where the task is Active with the way back, and then the number where it is not, with the way back.
pub(crate) fn get_task_state(alloc: Global, task: u8) -> Code
    requires { task < task_limit }
    ensures { IfOk result (λ code. IsGetTaskStateCode task code.items) }
{
    let mut code = Vec::new(alloc);
    open(&mut code)?;
    ask_active(&mut code, task)?;
    tell_active(&mut code, task)?;
    go_back(&mut code)?;
    ask_waiting(&mut code, task)?;
    tell_resting(&mut code, task)?;
    go_back(&mut code)?;
    Ok(code)
}

/// The status E_OK; goes on behind the first way back where the task is not Active.
fn ask_active(code: &mut Vec<Instr>, task: u8) -> Added
    requires { task < task_limit }
    ensures { OnOk result (code.new.items ≡ code.old.items ++ active_task_test task) }
{
    put!(code; addi(A0, ZERO, E_OK as i32), lw(X1, X4, active(task)), beq(X1, ZERO, past(TELL_ACTIVE + BACK)))
}

/// a1 := 1; goes on at the way back where the task waits.
fn ask_waiting(code: &mut Vec<Instr>, task: u8) -> Added
    requires { task < task_limit }
    ensures { OnOk result (code.new.items ≡ code.old.items ++ waiting_task_test task) }
{
    put!(code; lbu(X1, X3, enabled_byte(task)), addi(A1, ZERO, WAITING), beq(X1, ZERO, past(TELL_RESTING)))
}

/// a1 := 0 where the task runs, and 2 where it is preempted.
fn tell_active(code: &mut Vec<Instr>, task: u8) -> Added
    requires { task < task_limit }
    ensures { OnOk result (code.new.items ≡ code.old.items ++ active_telling_code task) }
{
    put!(code; lw(X1, X4, CUR), addi(X1, X1, -1 - task as i32), sltu(A1, ZERO, X1), slli(A1, A1, 1))
}

/// The saved level, the greater level, and the way back.
pub(crate) fn get_resource(alloc: Global, resource: u8, ceiling: u8) -> Code
    requires { resource ≤ scheduler_number }
    ensures { IfOk result (λ code. IsGetResourceCode resource ceiling code.items) }
{
    let mut code = Vec::new(alloc);
    open(&mut code)?;
    take(&mut code, resource, ceiling)?;
    put!(&mut code; addi(A0, ZERO, E_OK as i32))?;
    go_back(&mut code)?;
    Ok(code)
}

/// The saved level, and the way back.
pub(crate) fn release_resource(alloc: Global, resource: u8) -> Code
    requires { resource ≤ scheduler_number }
    ensures { IfOk result (λ code. IsReleaseResourceCode resource code.items) }
{
    let mut code = Vec::new(alloc);
    open(&mut code)?;
    release(&mut code, resource)?;
    Ok(code)
}
