//! The tick of a counter: its value grows, and its alarms lose a tick, in order. It runs where the counter's line is
//! taken, saves no register, and leaves x1 alone with anything. Bit T of x3 says whether task T is not Suspended.
//! The alarms of a counter with their numbers, in order.
ghost use Rattle.std.specs.Prelude.{◌≡◌, ◌<◌, ◌^◌, ◌++◌, IfOk, OnOk, ◌≤◌, ◌∷◌, [], length};
ghost use Rattle.sloth_base.specs.Limits.{counter_limit, task_limit, alarm_limit};
ghost use Rattle.service_gen.specs.Alarms.{AreAlarmsInRange, IsActionInRange, IsAlarmInRange, is_target, alarms_from};
ghost use Rattle.service_gen.specs.Tick.{IsTickCode};
ghost use Rattle.service_gen.specs.AlarmPieces.{counting_code, tick_code, basing_code, activating_code, event_adding_code, waking_code, action_code, action_size, losing_code, alarm_code, alarms_code, look_of, looks_code};
ghost use Rattle.block_parts.specs.Ticks.{suspension_test, awaited_events_test};

use crate::{Added, Code};
use block_parts::ticks::ask_awaited;
use block_parts::{ask_busy, ask_greatest, look_unless_later, start_again};
use code_lengths::sets_events_of;
use masked_code::{past, put};
use rv32_instr::{
    Instr, X1, X3, X4, ZERO, addi, beq, bne, hi, lo, lui, lw, mret, or, sb, slli, sw,
};
use sloth_base::{Action, AlarmDecl, TaskId};
use sloth_region::{
    CONTROLLER_HIGH, WORDS_HIGH, alarm_left, counter_value, enabled_byte, events, pending_byte,
};
use std::alloc::{AllocError, Global};

/// The instructions of the tick of a counter with its greatest value and its alarms.
pub fn code(alloc: Global, counter: u8, max: u32, alarms: &[NumberedAlarm]) -> Code
    requires { (counter < counter_limit) × AreAlarmsInRange alarms.now }
    ensures is { IfOk result (λ code. code.items ≡ tick_code counter max alarms.now) }
    ensures effect { IfOk result (λ code. IsTickCode counter max alarms.now code.items) }
{
    let mut code = Vec::new(alloc);
    count(&mut code, counter, max)?;
    put!(&mut code; addi(X3, ZERO, 0))?;
    look_at_all(&mut code, alarms)?;
    put!(&mut code; lui(X4, WORDS_HIGH))?;
    run_all(&mut code, alarms)?;
    put!(&mut code; lui(X3, CONTROLLER_HIGH), mret())?;
    Ok(code)
}

/// The counter's value grows by one, or goes from the greatest to 0.
fn count(code: &mut Vec<Instr>, counter: u8, max: u32) -> Added
    requires { counter < counter_limit }
    ensures added { OnOk result (code.new.items ≡ code.old.items ++ counting_code counter max) }
    ensures fits { max < 2 ^ 32 }
{
    put!(code; lw(X1, X4, counter_value(counter)))?;
    ask_greatest(code, max)?;
    put!(code; addi(X1, ZERO, -1), addi(X1, X1, 1), sw(X1, X4, counter_value(counter)))
}

/// The looks at the tasks whose events the alarms set.
fn look_at_all(code: &mut Vec<Instr>, alarms: &[NumberedAlarm]) -> Added
    requires { AreAlarmsInRange alarms.now }
    ensures { OnOk result (code.new.items ≡ code.old.items ++ looks_code alarms.now) }
{
    for i in 0..alarms.len() {
        look_unless(code, alarms[i].action, &alarms[i + 1..])?;
    }
    Ok(())
}

/// The look at the task of an action, unless a later alarm looks at it.
fn look_unless(code: &mut Vec<Instr>, action: Action, later: &[NumberedAlarm]) -> Added
    requires { IsActionInRange action }
    ensures { OnOk result (code.new.items ≡ code.old.items ++ look_of action later.now) }
{
    match action {
        Action::Activate(_) => Ok(()),
        Action::Set(task, _) => look_unless_later(code, task.0 as u8, is_target(task, later)),
    }
}

fn is_target(task: TaskId, alarms: &[NumberedAlarm]) -> bool
    ensures { result ≡ is_target task alarms.now }
{
    alarms
        .iter()
        .any(|alarm| sets_events_of(task, &alarm.action))
}

fn run_all(code: &mut Vec<Instr>, alarms: &[NumberedAlarm]) -> Added
    requires { AreAlarmsInRange alarms.now }
    ensures { OnOk result (code.new.items ≡ code.old.items ++ alarms_code alarms.now) }
{
    for i in 0..alarms.len() {
        run(code, &alarms[i])?;
    }
    Ok(())
}

fn run(code: &mut Vec<Instr>, alarm: &NumberedAlarm) -> Added
    requires { IsAlarmInRange alarm.now }
    ensures { OnOk result (code.new.items ≡ code.old.items ++ alarm_code alarm.now) }
{
    lose(code, alarm.number, action_size(alarm.action))?;
    act(code, alarm.action)
}

/// An alarm in use loses a tick, and starts again where it expires; else on behind the instructions of its action.
fn lose(code: &mut Vec<Instr>, alarm: u8, size: u32) -> Added
    requires { (alarm < alarm_limit) × (size ≤ 17) }
    ensures { OnOk result (code.new.items ≡ code.old.items ++ losing_code alarm size) }
{
    put!(code; lw(X1, X4, alarm_left(alarm)), beq(X1, ZERO, past(5 + size)), addi(X1, X1, -1),
        sw(X1, X4, alarm_left(alarm)), bne(X1, ZERO, past(2 + size)))?;
    start_again(code, alarm)
}

/// How many instructions `act` adds.
fn action_size(action: Action) -> u32
    ensures is { result ≡ action_size action }
    ensures small { result ≤ 17 }
{
    match action {
        Action::Activate(_) => 6,
        Action::Set(_, _) => 17,
    }
}

fn act(code: &mut Vec<Instr>, action: Action) -> Added
    requires { IsActionInRange action }
    ensures { OnOk result (code.new.items ≡ code.old.items ++ action_code action) }
{
    match action {
        Action::Activate(task) => activate(code, task.0 as u8),
        Action::Set(task, mask) => set(code, task.0 as u8, mask),
    }
}

/// The task's line is raised, and the task isn't Suspended.
fn activate(code: &mut Vec<Instr>, task: u8) -> Added
    requires { task < task_limit }
    ensures { OnOk result (code.new.items ≡ code.old.items ++ activating_code task) }
{
    put!(code; lui(X4, CONTROLLER_HIGH), addi(X1, ZERO, 1), sb(X1, X4, pending_byte(task)), lui(X4, WORDS_HIGH),
        slli(X1, X1, task), or(X3, X3, X1))
}

fn set(code: &mut Vec<Instr>, task: u8, mask: u32) -> Added
    requires { task < task_limit }
    ensures { OnOk result (code.new.items ≡ code.old.items ++ (suspension_test task ++
        (event_adding_code task mask ++ (awaited_events_test task ++ (waking_code task ++ basing_code))))) }
{
    ask_busy(code, task)?;
    add_events(code, task, mask)?;
    ask_awaited(code, task)?;
    // The line is raised and enabled, and x4 is the base of memory again.
    put!(code; lui(X4, CONTROLLER_HIGH), addi(X1, ZERO, 1), sb(X1, X4, pending_byte(task)),
        sb(X1, X4, enabled_byte(task)), lui(X4, WORDS_HIGH))
}

/// The task's events, with those of the mask, stay in x1.
fn add_events(code: &mut Vec<Instr>, task: u8, mask: u32) -> Added
    requires { task < task_limit }
    ensures { OnOk result (code.new.items ≡ code.old.items ++ event_adding_code task mask) }
{
    put!(code; lw(X1, X4, events(task)), lui(X4, hi(mask)), addi(X4, X4, lo(mask)), or(X1, X1, X4),
        lui(X4, WORDS_HIGH), sw(X1, X4, events(task)))
}

/// An alarm with its number and what it does as it expires.
#[derive(Clone, Copy)]
pub struct NumberedAlarm {
    pub number: u8,
    pub action: Action,
}

/// The counter's alarms among these.
pub fn numbered_alarms(
    alloc: Global,
    alarms: &[AlarmDecl],
    counter: u32,
) -> Result<Vec<NumberedAlarm>, AllocError>
    requires { length alarms.now ≤ alarm_limit }
    ensures { IfOk result (λ found. found.items ≡ alarms_from counter 0 alarms.now) }
{
    let mut found = Vec::new(alloc);
    for i in 0..alarms.len() {
        add(&mut found, i as u8, &alarms[i], counter)?;
    }
    Ok(found)
}

/// An alarm with this number, where it is the counter's.
fn add(found: &mut Vec<NumberedAlarm>, number: u8, alarm: &AlarmDecl, counter: u32) -> Added
    ensures { OnOk result (found.new.items ≡ found.old.items ++ alarms_from counter number (alarm.now ∷ [])) }
{
    if alarm.counter == counter {
        let action = alarm.action;
        found.push(NumberedAlarm { number, action })?;
    }
    Ok(())
}
