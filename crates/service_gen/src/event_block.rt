//! The code of the operating system services on events (OSEK OS 2.2.3, section 13.5): SetEvent, ClearEvent, GetEvent,
//! WaitEvent.
//!
//! From an opening mark, with any arrivals: the effect within 160 instructions, and the length (a file of `specs/` for
//! each). The way back, the look at a task: `block_parts` (`Back`, `SuspensionTest`).
ghost use Rattle.std.specs.Prelude.{◌≡◌, IfOk, ◌<◌, ◌++◌, OnOk};
ghost use Rattle.sloth_base.specs.MemoryMap.{line_count};
ghost use Rattle.service_gen.specs.EventPieces.{own_finding_code, mask_adding_code, controller_address_code};
ghost use Rattle.service_gen.specs.EventPieces.{own_saving_code};
ghost use Rattle.block_parts.specs.Events.{enabling_code};
ghost use Rattle.sloth_base.specs.Limits.{task_limit};
ghost use Rattle.service_gen.specs.SetEvent.{IsSetEventCode};
ghost use Rattle.service_gen.specs.ClearEvent.{IsClearEventCode};
ghost use Rattle.service_gen.specs.GetEvent.{IsGetEventCode};
ghost use Rattle.service_gen.specs.WaitEvent.{IsWaitEventCode};

use crate::{Added, Code};
use block_parts::pieces::ask_awaited;
use block_parts::{
    BACK, OWN_ACTIVE, OWN_EVENTS, WAKE, clear_own, go_back, keep, leave, look, open, raise, refuse,
    tell_events,
};
use masked_code::{X5, past, put, save};
use rv32_instr::{
    A0, Instr, X1, X2, X3, X4, X30, ZERO, add, addi, and, beq, lui, lw, or, sb, slli, sw,
};
use sloth_base::{E_OK, Reg};
use sloth_region::{CONTEXT_BYTES, CONTROLLER_HIGH, CUR, enabled_byte, events};
use std::alloc::Global;

/// x1 := the place of the running task's words: they stand there and directly before. Uses another register.
fn find_own(code: &mut Vec<Instr>, other: Reg) -> Added
    requires { other < line_count }
    ensures { OnOk result (code.new.items ≡ code.old.items ++ own_finding_code other) }
{
    put!(code; lw(X1, X4, CUR), slli(other, X1, 3), slli(X1, X1, 2), add(X1, X1, other), add(X1, X1, X4))
}

/// How many instructions `add_events` adds.
const ADD: u32 = 3;

/// How many instructions `ask_awaited` adds.
const ASK: u32 = 4;

/// The look at the task, its events, its line where one of them is awaited, and the way back.
pub(crate) fn set_event(alloc: Global, task: u8) -> Code
    requires { task < task_limit }
    ensures { IfOk result (λ code. IsSetEventCode task code.items) }
{
    let mut code = Vec::new(alloc);
    open(&mut code)?;
    look(&mut code, task)?;
    refuse(&mut code, ADD + ASK + WAKE)?;
    add_events(&mut code, task)?;
    ask_awaited(&mut code, task)?;
    raise(&mut code, task)?;
    enable(&mut code, task)?;
    go_back(&mut code)?;
    Ok(code)
}

/// The running task's events without those of the mask, and the way back.
pub(crate) fn clear_event(alloc: Global) -> Code
    ensures { IfOk result (λ code. IsClearEventCode code.items) }
{
    let mut code = Vec::new(alloc);
    open(&mut code)?;
    find_own(&mut code, A0)?;
    clear_own(&mut code)?;
    go_back(&mut code)?;
    Ok(code)
}

/// The look at the task, its events where it isn't Suspended, and the way back.
pub(crate) fn get_event(alloc: Global, task: u8) -> Code
    requires { task < task_limit }
    ensures { IfOk result (λ code. IsGetEventCode task code.items) }
{
    let mut code = Vec::new(alloc);
    open(&mut code)?;
    look(&mut code, task)?;
    tell_events(&mut code, task)?;
    go_back(&mut code)?;
    Ok(code)
}

/// The events that the running task waits for, from 12 * `cur` behind the service words.
const OWN_WAIT: i32 = 0;

/// The enable byte of its line, from `cur` behind the controller's address.
const OWN_ENABLED: i32 = 31;

/// The look at the events, and then the way back, or the rest and the way to what runs below.
pub(crate) fn wait_event(alloc: Global) -> Code
    ensures { IfOk result (λ code. IsWaitEventCode code.items) }
{
    let mut code = Vec::new(alloc);
    open(&mut code)?;
    find_own(&mut code, X3)?;
    put!(&mut code; lw(X3, X1, OWN_EVENTS), and(X3, X3, X30), beq(X3, ZERO, past(2 + BACK)))?;
    hold_controller(&mut code)?;
    put!(&mut code; addi(A0, ZERO, E_OK as i32))?;
    go_back(&mut code)?;
    put!(&mut code; sw(ZERO, X1, OWN_ACTIVE), sw(X30, X1, OWN_WAIT))?;
    save_own(&mut code)?;
    keep(&mut code)?;
    hold_controller(&mut code)?;
    put!(&mut code; add(X5, X5, X3), sb(ZERO, X5, OWN_ENABLED))?;
    leave(&mut code)?;
    Ok(code)
}

/// x3 := the controller's address again.
fn hold_controller(code: &mut Vec<Instr>) -> Added
    ensures { OnOk result (code.new.items ≡ code.old.items ++ controller_address_code) }
{
    put!(code; lui(X3, CONTROLLER_HIGH))
}

/// Saves the registers in the context directly below x2.
fn save_own(code: &mut Vec<Instr>) -> Added
    ensures { OnOk result (code.new.items ≡ code.old.items ++ own_saving_code) }
{
    put!(code; addi(X1, X2, -CONTEXT_BYTES))?;
    save(code, 5, 32, X1)
}

/// Adds the events of the mask in x30 to the task's, which stay in x1.
fn add_events(code: &mut Vec<Instr>, task: u8) -> Added
    requires { task < task_limit }
    ensures { OnOk result (code.new.items ≡ code.old.items ++ mask_adding_code task) }
{
    put!(code; lw(X1, X4, events(task)), or(X1, X1, X30), sw(X1, X4, events(task)))
}

/// Enables the task's line. x1 holds 1.
fn enable(code: &mut Vec<Instr>, task: u8) -> Added
    requires { task < task_limit }
    ensures { OnOk result (code.new.items ≡ code.old.items ++ enabling_code task) }
{
    put!(code; sb(X1, X3, enabled_byte(task)))
}
