//! The code of counters and alarms (OSEK OS 2.2.3, sections 9 and 13.6): the ticks of counters, and the services on
//! alarms.
//!
//! From the taking of a counter's line, with any arrivals and any number of alarms: the effect of the tick as a fold
//! over its alarms, which lines it touches, and its length (`tick`; `specs/Tick`, `specs/Alarms`). Of SetRelAlarm,
//! SetAbsAlarm, CancelAlarm and GetAlarm the same as of other services (a file of `specs/` for each).
ghost use Rattle.std.specs.Prelude.{◌≡◌, ◌<◌, [], IfOk, length, slice_index, ◌^◌, ◌++◌, OnOk};
ghost use Rattle.code_lengths.specs.CodeLengths.{service_length, tick_length};
ghost use Rattle.sloth_base.specs.ConfigRange.{InRange};
ghost use Rattle.sloth_base.specs.Named.{counter_declaration};
ghost use Rattle.sloth_base.specs.Owners.{counter_line};
ghost use Rattle.service_gen.specs.Alarms.{counter_alarms};
ghost use Rattle.service_gen.specs.AlarmBlock.{HasAlarmBlock, IsAlarmServiceBlock};
ghost use Rattle.service_gen.specs.Tick.{IsTickCode};
ghost use Rattle.sloth_base.specs.Limits.{alarm_limit, counter_limit};
ghost use Rattle.service_gen.specs.ServicePieces.{used_alarm_test, unused_alarm_test, least_cycle_test};
ghost use Rattle.service_gen.specs.ServicePieces.{greatest_value_test, cycle_test, alarm_value_test, setting_code};
ghost use Rattle.service_gen.specs.ServicePieces.{cancelling_code, telling_code, refusing_code};
ghost use Rattle.service_gen.specs.SetAlarm.{IsSetRelAlarmCode, IsSetAbsAlarmCode};
ghost use Rattle.service_gen.specs.CancelAlarm.{IsCancelAlarmCode};
ghost use Rattle.service_gen.specs.GetAlarm.{IsGetAlarmCode};

use crate::tick_code::numbered_alarms;
use crate::{Added, Code, tick_code};
use block_parts::{BACK, find_ticks, go_back, open};
use masked_code::{past, put};
use rv32_instr::{A0, A1, Block, Instr, X1, X4, ZERO, addi, beq, bltu, bne, hi, lo, lui, lw, sw};
use sloth_base::{
    Config, E_OK, E_OS_NOFUNC, E_OS_STATE, E_OS_VALUE, FIRST_COUNTER_LINE, Levels, List, Result,
    Service,
};
use sloth_region::{Map, alarm_cycle, alarm_left};
use std::alloc::Global;

/// The block of the tick of a counter, 0 or 1, at the address of the handler of its line: 11 instructions, and at most
/// 34 for each alarm of the counter. It saves no register. `NoMemory` where memory is wanting, and no other error.
pub fn tick(
    alloc: Global,
    counter: u32,
    config: &Config,
    levels: &Levels,
    map: &Map,
) -> Result<Block>
    requires exists { counter < length config.now.counters }
    requires range { InRange config.now }
    ensures at { IfOk result (λ block. block.at ≡ slice_index map.now.handlers (counter_line counter)) }
    ensures marks { IfOk result (λ block. block.marks ≡ []) }
    ensures size { IfOk result (λ block. length block.code ≡ tick_length counter config.now.alarms) }
    ensures effect { IfOk result (λ block. IsTickCode counter (counter_declaration config.now counter).max
        (counter_alarms config.now counter) block.code) }
{
    let alarms = numbered_alarms(alloc, config.alarms.items(), counter)?;
    let max = config.counters.items()[counter as usize].max;
    let code = tick_code::code(alloc, counter as u8, max, &alarms)?;
    Ok(Block {
        at: map.handlers[usize::from(FIRST_COUNTER_LINE) + counter as usize],
        code: List::from_vec(code),
        marks: List::from_vec(Vec::new(alloc)),
    })
}

/// The instructions of a service on alarms with its alarm, 0 to 31.
pub(crate) fn code(alloc: Global, service: Service, alarm: u32, config: &Config) -> Code
    requires alarm { HasAlarmBlock config.now service alarm }
    requires range { InRange config.now }
    ensures long { IfOk result (λ code. length code.items ≡ service_length service) }
    ensures serves { IfOk result (λ code. IsAlarmServiceBlock config.now service alarm code.items) }
{
    let counter = config.alarms.items()[alarm as usize].counter;
    let declared = &config.counters.items()[counter as usize];
    let number = alarm as u8;
    match service {
        Service::SetRelAlarm => set_rel_alarm(alloc, number, declared.max, declared.min_cycle),
        Service::SetAbsAlarm => set_abs_alarm(
            alloc,
            number,
            counter as u8,
            declared.max,
            declared.min_cycle,
        ),
        Service::CancelAlarm => cancel_alarm(alloc, number),
        Service::GetAlarm => get_alarm(alloc, number),
        _ => unreachable!(),
    }
}

/// How many instructions `ask_most` adds.
const MOST: u32 = 3;

/// How many instructions `ask_cycle` adds.
const CYCLE: u32 = 4 + MOST;

/// How many instructions `ask_value` adds.
const VALUE: u32 = 1;

/// How many instructions `set` adds.
const SET: u32 = 3 + BACK;

/// How many instructions of `refuse` answer that a value is out of range.
const REFUSAL: u32 = 1 + BACK;

/// The status of an alarm that isn't in use, and on behind two more where this one isn't.
fn ask_used(code: &mut Vec<Instr>, alarm: u8) -> Added
    requires { alarm < alarm_limit }
    ensures { OnOk result (code.new.items ≡ code.old.items ++ used_alarm_test alarm) }
{
    put!(code; lw(X1, X4, alarm_left(alarm)), addi(A0, ZERO, E_OS_NOFUNC as i32), beq(X1, ZERO, past(2)))
}

/// On behind so many instructions where the alarm is in use.
fn ask_unused(code: &mut Vec<Instr>, alarm: u8, passed: u32) -> Added
    requires { (alarm < alarm_limit) × (passed < 100) }
    ensures { OnOk result (code.new.items ≡ code.old.items ++ unused_alarm_test alarm passed) }
{
    put!(code; lw(X1, X4, alarm_left(alarm)), bne(X1, ZERO, past(passed)))
}

/// On behind so many instructions where the cycle isn't in range. Leaves the counter's greatest value in x1.
fn ask_cycle(code: &mut Vec<Instr>, max: u32, least: u32, passed: u32) -> Added
    requires { passed < 100 }
    ensures added { OnOk result (code.new.items ≡ code.old.items ++ cycle_test max least passed) }
    ensures fits { (max < 2 ^ 32) × (least < 2 ^ 32) }
{
    ask_least(code, least, MOST + passed)?;
    ask_most(code, max, passed)
}

/// On behind so many instructions where the cycle is below the least and not 0.
fn ask_least(code: &mut Vec<Instr>, least: u32, passed: u32) -> Added
    requires { passed < 103 }
    ensures { OnOk result (code.new.items ≡ code.old.items ++ least_cycle_test least passed) }
{
    put!(code; beq(A1, ZERO, past(3)), lui(X1, hi(least)), addi(X1, X1, lo(least)), bltu(A1, X1, past(passed)))
}

/// On behind so many instructions where the cycle is above the greatest value.
fn ask_most(code: &mut Vec<Instr>, max: u32, passed: u32) -> Added
    requires { passed < 100 }
    ensures { OnOk result (code.new.items ≡ code.old.items ++ greatest_value_test max passed) }
{
    put!(code; lui(X1, hi(max)), addi(X1, X1, lo(max)), bltu(X1, A1, past(passed)))
}

/// On behind so many instructions where a0 is above the greatest value.
fn ask_value(code: &mut Vec<Instr>, passed: u32) -> Added
    requires { passed < 100 }
    ensures { OnOk result (code.new.items ≡ code.old.items ++ alarm_value_test passed) }
{
    put!(code; bltu(X1, A0, past(passed)))
}

/// The alarm gets the ticks in a0 and the cycle in a1.
fn set(code: &mut Vec<Instr>, alarm: u8) -> Added
    requires { alarm < alarm_limit }
    ensures { OnOk result (code.new.items ≡ code.old.items ++ setting_code alarm) }
{
    put!(code; sw(A0, X4, alarm_left(alarm)), sw(A1, X4, alarm_cycle(alarm)), addi(A0, ZERO, E_OK as i32))?;
    go_back(code)
}

/// The refusals: a value out of range, an alarm in use.
fn refuse(code: &mut Vec<Instr>) -> Added
    ensures { OnOk result (code.new.items ≡ code.old.items ++ refusing_code) }
{
    put!(code; addi(A0, ZERO, E_OS_VALUE as i32))?;
    go_back(code)?;
    put!(code; addi(A0, ZERO, E_OS_STATE as i32))?;
    go_back(code)
}

/// How many instructions look at the ticks.
const TICKS: u32 = 1 + VALUE;

/// The looks at the alarm and at the operands, the ticks and the cycle, and the refusals.
pub(crate) fn set_rel_alarm(alloc: Global, alarm: u8, max: u32, least: u32) -> Code
    requires { alarm < alarm_limit }
    ensures { IfOk result (λ code. IsSetRelAlarmCode alarm max least code.items) }
{
    let mut code = Vec::new(alloc);
    open(&mut code)?;
    ask_unused(&mut code, alarm, CYCLE + TICKS + SET + REFUSAL)?;
    ask_cycle(&mut code, max, least, TICKS + SET)?;
    put!(&mut code; beq(A0, ZERO, past(VALUE + SET)))?;
    ask_value(&mut code, SET)?;
    set(&mut code, alarm)?;
    refuse(&mut code)?;
    Ok(code)
}

/// How many instructions `find_ticks` adds.
const FIND: u32 = 6;

/// The looks at the alarm and at the operands, the ticks and the cycle, and the refusals.
pub(crate) fn set_abs_alarm(alloc: Global, alarm: u8, counter: u8, max: u32, least: u32) -> Code
    requires { (alarm < alarm_limit) × (counter < counter_limit) × (max < 2 ^ 31) }
    ensures { IfOk result (λ code. IsSetAbsAlarmCode alarm counter max least code.items) }
{
    let mut code = Vec::new(alloc);
    open(&mut code)?;
    ask_unused(&mut code, alarm, CYCLE + VALUE + FIND + SET + REFUSAL)?;
    ask_cycle(&mut code, max, least, VALUE + FIND + SET)?;
    ask_value(&mut code, FIND + SET)?;
    find_ticks(&mut code, counter)?;
    set(&mut code, alarm)?;
    refuse(&mut code)?;
    Ok(code)
}

/// The look at the alarm, its end, and the way back.
pub(crate) fn cancel_alarm(alloc: Global, alarm: u8) -> Code
    requires { alarm < alarm_limit }
    ensures { IfOk result (λ code. IsCancelAlarmCode alarm code.items) }
{
    let mut code = Vec::new(alloc);
    open(&mut code)?;
    ask_used(&mut code, alarm)?;
    cancel(&mut code, alarm)?;
    go_back(&mut code)?;
    Ok(code)
}

/// The look at the alarm, its ticks, and the way back.
pub(crate) fn get_alarm(alloc: Global, alarm: u8) -> Code
    requires { alarm < alarm_limit }
    ensures { IfOk result (λ code. IsGetAlarmCode alarm code.items) }
{
    let mut code = Vec::new(alloc);
    open(&mut code)?;
    ask_used(&mut code, alarm)?;
    tell_ticks(&mut code, alarm)?;
    go_back(&mut code)?;
    Ok(code)
}

/// The alarm has no ticks left, with the status E_OK.
fn cancel(code: &mut Vec<Instr>, alarm: u8) -> Added
    requires { alarm < alarm_limit }
    ensures { OnOk result (code.new.items ≡ code.old.items ++ cancelling_code alarm) }
{
    put!(code; sw(ZERO, X4, alarm_left(alarm)), addi(A0, ZERO, E_OK as i32))
}

/// a1 := the ticks that the alarm has left, with the status E_OK.
fn tell_ticks(code: &mut Vec<Instr>, alarm: u8) -> Added
    requires { alarm < alarm_limit }
    ensures { OnOk result (code.new.items ≡ code.old.items ++ telling_code alarm) }
{
    put!(code; lw(A1, X4, alarm_left(alarm)), addi(A0, ZERO, E_OK as i32))
}
