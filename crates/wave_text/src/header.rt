//! The declarations of signals.
ghost use Rattle.std.specs.Prelude.{◌≡◌, ◌≤◌, ◌<◌, ◌+◌, ◌++◌, IfOk, OnOk, All, length};
ghost use Rattle.sloth_base.specs.ImageRange.{InFormat, IsName};
ghost use Rattle.sloth_base.specs.Limits.{task_limit, counter_limit, alarm_limit, name_limit};
ghost use Rattle.wave_text.specs.Header.{scope_name, width_digit, variable_line, variable_lines, scope_line};
ghost use Rattle.wave_text.specs.Header.{scope_text, alarm_name, alarm_lines, clock_text, header};
ghost use Rattle.wave_text.specs.Signals.{code_text, first_code, signal_width};
ghost use Rattle.wave_text.specs.declared.signals.Scope.TheVariants.{Alarms};

use crate::signals::{Scope, Width, first_code, signal_width};
use sloth_base::{ALARM_LIMIT, Image, Name, Result};
use std::alloc::Global;
use trace_text::LineText;

impl Scope {
    fn name(self) -> &'static [u8]
        ensures is { result.now ≡ scope_name self }
        ensures short { length result.now ≤ 8 }
    {
        match self {
            Scope::State => b"state",
            Scope::Runs => b"runs",
            Scope::Pending | Scope::Counters => b"pending",
            Scope::Values => b"counters",
            Scope::Alarms => b"alarms",
        }
    }
}

impl Width {
    fn digits(self) -> &'static [u8]
        ensures is { result.now ≡ width_digit self }
        ensures short { length result.now ≤ 2 }
    {
        match self {
            Width::One => b"1",
            Width::Two => b"2",
            Width::Eight => b"8",
            Width::ThirtyTwo => b"32",
        }
    }
}

#[tactic(auto, unfolding(crate::specs::Signals::code_text))]
fn push_code(line: &mut LineText, code: u8)
    requires { length line.old ≤ 20 }
    ensures text { line.new ≡ line.old ++ code_text code }
    ensures short { length line.new ≤ length line.old + 2 }
{
    if code < 127 {
        line.push(&[code]);
    } else {
        line.push(&[b'!', code - 94]);
    }
}

#[tactic(auto, unfolding(crate::specs::Header::variable_line))]
fn variable_line(width: Width, code: u8, name: &[u8]) -> LineText
    requires { length name.now ≤ name_limit }
    ensures { result ≡ variable_line width code name.now }
{
    let mut line = LineText::new();
    line.push(b"$var wire ");
    line.push(width.digits());
    line.push(b" ");
    push_code(&mut line, code);
    line.push(b" ");
    line.push(name);
    line.push(b" $end\n");
    line
}

#[tactic(auto, unfolding(crate::specs::Header::scope_line))]
fn scope_line(scope: Scope) -> LineText
    ensures { result ≡ scope_line scope }
{
    let mut line = LineText::new();
    line.push(b"$scope module ");
    line.push(scope.name());
    line.push(b" $end\n");
    line
}

fn push_variables(text: &mut Vec<u8>, scope: Scope, names: &[Name]) -> Result<()>
    requires few { length names.now ≤ task_limit }
    requires short { All IsName names.now }
    ensures { OnOk result (text.new.items ≡ text.old.items ++ variable_lines scope names.now (length names.now)) }
{
    for task in 0..names.len() {
        let line = variable_line(
            signal_width(scope),
            first_code(scope) + task as u8,
            names[task].bytes(),
        );
        text.extend_from_slice(line.bytes())?;
    }
    Ok(())
}

// Appends the declaration of an alarm's signal.
#[tactic(auto, unfolding(crate::specs::Header::alarm_name))]
fn push_alarm(text: &mut Vec<u8>, alarm: usize) -> Result<()>
    requires { alarm < alarm_limit }
    ensures { OnOk result (text.new.items ≡ text.old.items
        ++ variable_line (signal_width Alarms) (first_code Alarms + alarm) (alarm_name alarm)) }
{
    let mut name = LineText::new();
    name.push(b"alarm");
    name.push_number(alarm as u32);
    let line = variable_line(
        signal_width(Scope::Alarms),
        first_code(Scope::Alarms) + alarm as u8,
        name.bytes(),
    );
    text.extend_from_slice(line.bytes())?;
    Ok(())
}

fn push_alarms(text: &mut Vec<u8>) -> Result<()>
    ensures { OnOk result (text.new.items ≡ text.old.items ++ alarm_lines alarm_limit) }
{
    for alarm in 0..ALARM_LIMIT {
        push_alarm(text, alarm)?;
    }
    Ok(())
}

// Appends a scope that has a signal for each of these names, and one for the line of each of these counters.
fn push_scope(text: &mut Vec<u8>, scope: Scope, names: &[Name], counters: &[Name]) -> Result<()>
    requires few_names { length names.now ≤ task_limit }
    requires short_names { All IsName names.now }
    requires few_counters { length counters.now ≤ counter_limit }
    requires short_counters { All IsName counters.now }
    ensures { OnOk result (text.new.items ≡ text.old.items ++ scope_text scope names.now counters.now) }
{
    text.extend_from_slice(scope_line(scope).bytes())?;
    push_variables(text, scope, names)?;
    push_variables(text, Scope::Counters, counters)?;
    text.extend_from_slice(b"$upscope $end\n")?;
    Ok(())
}

// Appends the scopes of the counters' values and of the alarms, where there are counters.
#[tactic(auto, unfolding(crate::specs::Header::clock_text))]
fn push_clock(text: &mut Vec<u8>, counters: &[Name]) -> Result<()>
    requires few { length counters.now ≤ counter_limit }
    requires short { All IsName counters.now }
    ensures { OnOk result (text.new.items ≡ text.old.items ++ clock_text counters.now) }
{
    if counters.len() == 0 {
        return Ok(());
    }
    let none: &[Name] = &[];
    push_scope(text, Scope::Values, counters, none)?;
    text.extend_from_slice(scope_line(Scope::Alarms).bytes())?;
    push_alarms(text)?;
    text.extend_from_slice(b"$upscope $end\n")?;
    Ok(())
}

/// The declarations of all signals, with the names of an image.
#[tactic(auto, unfolding(crate::specs::Header::header))]
pub fn header(alloc: Global, image: &Image) -> Result<Vec<u8>>
    requires { InFormat image.now }
    ensures { IfOk result (λ text. text.items ≡ header image.now) }
{
    let mut text = Vec::from_slice(
        alloc,
        b"$comment\n One time unit is one instruction, not a second.\n state: 0 suspended, 1 ready, 2 active, 3 waiting. runs: 1 for the task that runs. Both are unknown while boot runs.\n pending: 1 where the line of the task or counter is pending.\n level: the level that runs, 0 in the idle loop; while a resource is held its ceiling, if that is higher. masked: 1 where interrupts are masked.\n counters: each counter's value. alarms: the ticks that each alarm has left, 0 where it is not in use. Both are of the count of the states.\n$end\n$timescale 1 s $end\n",
    )?;
    let tasks = image.tasks.items();
    let none: &[Name] = &[];
    push_scope(&mut text, Scope::State, tasks, none)?;
    push_scope(&mut text, Scope::Runs, tasks, none)?;
    push_scope(&mut text, Scope::Pending, tasks, image.counters.items())?;
    text.extend_from_slice(
        b"$scope module kernel $end\n$var wire 8 { level $end\n$var wire 1 | masked $end\n$upscope $end\n",
    )?;
    push_clock(&mut text, image.counters.items())?;
    text.extend_from_slice(b"$enddefinitions $end\n")?;
    Ok(text)
}
