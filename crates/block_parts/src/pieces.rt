//! Pieces of code that several services have, and their marks. x3 and x4 hold the addresses of the controller and of
//! memory.
//! Pieces of the services. x3 and x4 hold the addresses of the controller and of memory, x30 the mask of services on
//! events, a0 and a1 the operands of those on alarms.
ghost use Rattle.std.specs.Prelude.{◌≡◌, ◌<◌, ◌++◌, OnOk, ◌≤◌};
ghost use Rattle.sloth_base.specs.Limits.{task_limit, counter_limit};
ghost use Rattle.sloth_base.specs.ServiceCodes.{code_of};
ghost use Rattle.masked_code.specs.Kernel.{leaving_code, taking_up_code};
ghost use Rattle.block_parts.specs.Marks.{opening, back_mark};
ghost use Rattle.block_parts.specs.Pieces.{opening_code, ending_code, looking_code, raising_code, back_code, ok_level_back_code};
ghost use Rattle.sloth_base.specs.ConfigRange.{scheduler_number};
ghost use Rattle.block_parts.specs.Alarms.{finding_code};
ghost use Rattle.block_parts.specs.Events.{refusal_code, events_telling_code, own_clearing_code, awaited_mask_test, keeping_code};
ghost use Rattle.block_parts.specs.Services.{own_task_code, taking_code, resting_telling_code, releasing_code, level_code};

use masked_code::{X5, past, put, restore};
use rv32_instr::{
    A0, A1, Instr, MEPC, MIE, MSTATUS, PLEVEL, X1, X2, X3, X4, X30, X31, ZERO, add, addi, and, beq,
    bgeu, bltu, bne, csrrci, csrrw, lbu, lui, lw, mret, or, sb, slli, sltu, sub, sw, xor, xori,
};
use sloth_base::{E_OK, E_OS_STATE, Mark, MarkKind, Service};
use sloth_region::{
    BELOW_WORD, CONTEXT_BELOW, CONTEXT_BYTES, CONTEXT_CUR, CONTEXT_LEVEL, CONTEXT_PC,
    CONTROLLER_HIGH, CUR, RESUME_WORDS, active, counter_value, enabled_byte, events, pending_byte,
    saved, wait,
};
use std::alloc::AllocError;

/// The running task's pending byte, from `cur` behind the controller's address, as `cur` is its number and 1 more.
const OWN_PENDING: i32 = -1;

/// Its Active word, from 12 * `cur` behind the service words.
pub const OWN_ACTIVE: i32 = -8;

/// Its events, from there.
pub const OWN_EVENTS: i32 = -4;

/// How many instructions `look` adds.
pub const LOOK: u32 = 5;

/// How many instructions `go_back` adds.
pub const BACK: u32 = 2;

/// Masks interrupts.
pub fn open(code: &mut Vec<Instr>) -> Result<(), AllocError>
    ensures { OnOk result (code.new.items ≡ code.old.items ++ opening_code) }
{
    put!(code; csrrci(ZERO, MSTATUS, MIE))
}

/// Ends the running task: its pending byte, its Active word and its events become 0.
pub fn end(code: &mut Vec<Instr>) -> Result<(), AllocError>
    ensures { OnOk result (code.new.items ≡ code.old.items ++ ending_code) }
{
    put!(code; lw(X1, X4, CUR), add(X5, X1, X3), sb(ZERO, X5, OWN_PENDING), slli(X5, X1, 3), slli(X1, X1, 2),
        add(X1, X1, X5), add(X1, X1, X4), sw(ZERO, X1, OWN_ACTIVE), sw(ZERO, X1, OWN_EVENTS))
}

/// x1 := 1 where the task is Suspended, else 0. Uses a0.
pub fn look(code: &mut Vec<Instr>, task: u8) -> Result<(), AllocError>
    requires { task < task_limit }
    ensures { OnOk result (code.new.items ≡ code.old.items ++ looking_code task) }
{
    put!(code; lbu(X1, X3, enabled_byte(task)), lbu(A0, X3, pending_byte(task)), sltu(X1, A0, X1),
        lw(A0, X4, active(task)), sltu(X1, A0, X1))
}

/// The task's pending byte becomes 1.
pub fn raise(code: &mut Vec<Instr>, task: u8) -> Result<(), AllocError>
    requires { task < task_limit }
    ensures { OnOk result (code.new.items ≡ code.old.items ++ raising_code task) }
{
    put!(code; addi(X1, ZERO, 1), sb(X1, X3, pending_byte(task)))
}

/// Back to the caller, whose address is in x31, at the level in plevel, which is the one that runs.
pub fn go_back(code: &mut Vec<Instr>) -> Result<(), AllocError>
    ensures { OnOk result (code.new.items ≡ code.old.items ++ back_code) }
{
    put!(code; csrrw(ZERO, MEPC, X31), mret())
}

/// Back to the caller, at the level in x1, with the status E_OK.
pub fn answer_ok(code: &mut Vec<Instr>) -> Result<(), AllocError>
    ensures { OnOk result (code.new.items ≡ code.old.items ++ ok_level_back_code) }
{
    put!(code; addi(A0, ZERO, E_OK as i32), csrrw(ZERO, PLEVEL, X1))?;
    go_back(code)
}

/// The registers of a context: x5 to x31.
const REGISTERS: u32 = 27;

/// Goes back to what runs below, as its context says.
pub fn leave(code: &mut Vec<Instr>) -> Result<(), AllocError>
    ensures { OnOk result (code.new.items ≡ code.old.items ++ leaving_code) }
{
    take_up(code)?;
    // Passes what restores the registers where the idle loop runs below.
    put!(code; beq(X5, ZERO, past(REGISTERS)))?;
    restore(code, 5, 32, X1)?;
    put!(code; mret())?;
    Ok(())
}

/// What the context says of all but the registers; its `cur` stays in x5.
fn take_up(code: &mut Vec<Instr>) -> Result<(), AllocError>
    ensures { OnOk result (code.new.items ≡ code.old.items ++ taking_up_code) }
{
    put!(code; lw(X1, X4, BELOW_WORD), lw(X2, X1, CONTEXT_PC), csrrw(ZERO, MEPC, X2), lw(X2, X1, CONTEXT_LEVEL),
        csrrw(ZERO, PLEVEL, X2), lw(X5, X1, CONTEXT_CUR), sw(X5, X4, CUR), lw(X2, X1, CONTEXT_BELOW),
        sw(X2, X4, BELOW_WORD), addi(X2, X1, CONTEXT_BYTES))
}

/// The mark on the instruction with which a service begins.
pub fn opening(address: u32, service: Service) -> Mark
    ensures { result ≡ opening address (code_of service) }
{
    Mark {
        address,
        kind: MarkKind::Opening,
        a: service.code(),
        b: 0,
        c: 0,
    }
}

/// The mark on the instruction with which a task comes back from Schedule.
pub fn back_mark(address: u32) -> Mark
    ensures { result ≡ back_mark address }
{
    Mark {
        address,
        kind: MarkKind::Back,
        a: 0,
        b: 0,
        c: 0,
    }
}

/// How many instructions ChainTask's refusal has before its way back.
const REFUSE: u32 = 2;

/// The state's number where the task is Suspended; 1 more than where it is Ready.
const SUSPENDED: i32 = 3;

/// The level byte of the running task's line, from `cur` behind the controller's address.
const OWN_LEVEL: i32 = 63;

/// ChainTask goes on behind the refusal where the task is the caller.
pub fn ask(code: &mut Vec<Instr>, task: u8) -> Result<(), AllocError>
    requires { task < task_limit }
    ensures { OnOk result (code.new.items ≡ code.old.items ++ own_task_code task) }
{
    put!(code; lw(X1, X4, CUR), addi(A0, ZERO, task as i32 + 1), beq(X1, A0, past(LOOK + REFUSE + BACK)))
}

/// The ceiling is the level for `mret`, and the one that runs, which plevel held, is saved; where that is greater, it
/// stays.
pub fn take(code: &mut Vec<Instr>, resource: u8, ceiling: u8) -> Result<(), AllocError>
    requires { resource ≤ scheduler_number }
    ensures { OnOk result (code.new.items ≡ code.old.items ++ taking_code resource ceiling) }
{
    put!(code; addi(X1, ZERO, ceiling as i32), csrrw(A0, PLEVEL, X1), sw(A0, X4, saved(resource)),
        bgeu(X1, A0, past(1)), csrrw(ZERO, PLEVEL, A0))
}

/// To the level that was saved for the resource, with the status E_OK.
pub fn release(code: &mut Vec<Instr>, resource: u8) -> Result<(), AllocError>
    requires { resource ≤ scheduler_number }
    ensures { OnOk result (code.new.items ≡ code.old.items ++ releasing_code resource) }
{
    put!(code; lw(X1, X4, saved(resource)))?;
    answer_ok(code)
}

/// a1 := 3 where the task is Suspended, and 2 where it is Ready, whose pending byte is 1.
pub fn tell_resting(code: &mut Vec<Instr>, task: u8) -> Result<(), AllocError>
    requires { task < task_limit }
    ensures { OnOk result (code.new.items ≡ code.old.items ++ resting_telling_code task) }
{
    put!(code; lbu(X1, X3, pending_byte(task)), xori(A1, X1, SUSPENDED))
}

/// Leaves the level that runs, which plevel held, in x30, and that of the running task's line for `mret`.
pub fn lower(code: &mut Vec<Instr>) -> Result<(), AllocError>
    ensures { OnOk result (code.new.items ≡ code.old.items ++ level_code) }
{
    put!(code; lw(X1, X4, CUR), add(X1, X1, X3), lbu(X1, X1, OWN_LEVEL), csrrw(X30, PLEVEL, X1))
}

/// How many instructions tell a task's events.
const TELL: u32 = 2;

/// How many instructions raise a task's line and enable it.
pub const WAKE: u32 = 3;

/// The address of its own context, from 4 * `cur` behind the service words, as `cur` is its number and 1 more.
const OWN_RESUME: i32 = RESUME_WORDS - 4;

/// The status E_OS_STATE, and on behind so many instructions where x1 is 1: the task is Suspended.
pub fn refuse(code: &mut Vec<Instr>, passed: u32) -> Result<(), AllocError>
    requires { passed < 500 }
    ensures { OnOk result (code.new.items ≡ code.old.items ++ refusal_code passed) }
{
    put!(code; addi(A0, ZERO, E_OS_STATE as i32), bne(X1, ZERO, past(passed)))
}

/// a1 := the task's events, with the status E_OK; where x1 is 1, the task is Suspended, and the status is E_OS_STATE.
pub fn tell_events(code: &mut Vec<Instr>, task: u8) -> Result<(), AllocError>
    requires { task < task_limit }
    ensures { OnOk result (code.new.items ≡ code.old.items ++ (refusal_code 2 ++ events_telling_code task)) }
{
    refuse(code, TELL)?;
    put!(code; addi(A0, ZERO, E_OK as i32), lw(A1, X4, events(task)))
}

/// Takes the events of the mask out of those at x1, with the status E_OK.
pub fn clear_own(code: &mut Vec<Instr>) -> Result<(), AllocError>
    ensures { OnOk result (code.new.items ≡ code.old.items ++ own_clearing_code) }
{
    put!(code; lw(A0, X1, OWN_EVENTS), or(A0, A0, X30), xor(A0, A0, X30), sw(A0, X1, OWN_EVENTS),
        addi(A0, ZERO, E_OK as i32))
}

/// The status E_OK, and on behind what wakes the task where it waits for none of the events in x1.
pub fn ask_awaited(code: &mut Vec<Instr>, task: u8) -> Result<(), AllocError>
    requires { task < task_limit }
    ensures { OnOk result (code.new.items ≡ code.old.items ++ awaited_mask_test task) }
{
    put!(code; lw(A0, X4, wait(task)), and(X1, X1, A0), addi(A0, ZERO, E_OK as i32), beq(X1, ZERO, past(WAKE)))
}

/// The context at x1 is the running task's own, with the address in x31 to go on at. Leaves `cur` in x5.
pub fn keep(code: &mut Vec<Instr>) -> Result<(), AllocError>
    ensures { OnOk result (code.new.items ≡ code.old.items ++ keeping_code) }
{
    put!(code; sw(X31, X1, CONTEXT_PC), lw(X5, X4, CUR), slli(X30, X5, 2), add(X30, X30, X4), sw(X1, X30, OWN_RESUME))
}

/// a0 := the ticks to the value in a0. x1 holds the greatest value.
pub fn find_ticks(code: &mut Vec<Instr>, counter: u8) -> Result<(), AllocError>
    requires { counter < counter_limit }
    ensures { OnOk result (code.new.items ≡ code.old.items ++ finding_code counter) }
{
    put!(code; lw(X3, X4, counter_value(counter)), bltu(X3, A0, past(2)), sub(X3, X3, X1), addi(X3, X3, -1),
        sub(A0, A0, X3), lui(X3, CONTROLLER_HIGH))
}
