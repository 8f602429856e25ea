//! The OIL text. The arrivals. What is generated.
ghost use Rattle.std.specs.Prelude.{◌≡◌, ◌++◌, ◌<◌, ◌^◌, ◌-◌, OnOk, IfOk, ◌≤◌, ◌+◌, ◌%◌};
ghost use Rattle.std.specs.List.{flat_map, range_with_len};
ghost use Rattle.app_gen.specs.Oil.{event_object, resource_object, schedule_of, autostart_of, event_attribute, task_object, oil_text};
ghost use Rattle.sloth_base.specs.Limits.{task_limit};
ghost use Rattle.app_gen.specs.Load.{high_bits, first_arrivals};

use crate::source::{Draws, has_event};
use sloth_base::{Arrival, Line, List, Result};
use std::alloc::Global;
use text_pieces::pieces::Piece::{Number, Word};
use text_pieces::{line, push};

#[tactic(auto, unfolding(crate::specs::Oil::event_object, crate::specs::Pieces::number_behind))]
fn put_event(text: &mut Vec<u8>, task: u32) -> Result<()>
    ensures { OnOk result (text.new.items ≡ text.old.items ++ event_object task) }
{
    if !has_event(task) {
        return Ok(());
    }
    line!(text; Word(b"EVENT E"), Number(task), Word(b" { MASK = AUTO; };\n"))
}

fn put_events(text: &mut Vec<u8>, tasks: u32) -> Result<()>
    ensures { OnOk result (text.new.items ≡ text.old.items ++ flat_map event_object (range_with_len 0 tasks)) }
{
    for task in 0..tasks {
        put_event(text, task)?;
    }
    Ok(())
}

#[tactic(auto, unfolding(crate::specs::Oil::resource_object, crate::specs::Pieces::number_behind))]
fn put_resource(text: &mut Vec<u8>, resource: u32) -> Result<()>
    ensures { OnOk result (text.new.items ≡ text.old.items ++ resource_object resource) }
{
    line!(text; Word(b"RESOURCE R"), Number(resource), Word(b" { RESOURCEPROPERTY = STANDARD; };\n"))
}

#[tactic(auto, unfolding(crate::specs::Oil::schedule_of))]
fn schedule_word(task: u32) -> &'static [u8]
    ensures { result.now ≡ schedule_of task }
{
    if task % 7 == 3 { b"NON" } else { b"FULL" }
}

#[tactic(auto, unfolding(crate::specs::Oil::autostart_of))]
fn autostart_value(task: u32) -> &'static [u8]
    ensures { result.now ≡ autostart_of task }
{
    if task == 0 {
        b"TRUE { APPMODE = OSDEFAULTAPPMODE; }"
    } else {
        b"FALSE"
    }
}

#[tactic(auto, unfolding(crate::specs::Oil::event_attribute, crate::specs::Pieces::number_behind))]
fn put_event_attribute(text: &mut Vec<u8>, task: u32) -> Result<()>
    ensures { OnOk result (text.new.items ≡ text.old.items ++ event_attribute task) }
{
    if !has_event(task) {
        return Ok(());
    }
    line!(text; Word(b" EVENT = E"), Number(task), Word(b";"))
}

fn put_task(text: &mut Vec<u8>, task: u32) -> Result<()>
    requires { task < 2 ^ 32 - 1 }
    ensures { OnOk result (text.new.items ≡ text.old.items ++ task_object task) }
{
    line!(text; Word(b"TASK T"), Number(task), Word(b" { PRIORITY = "), Number(task + 1),
        Word(b"; SCHEDULE = "), Word(schedule_word(task)),
        Word(b"; ACTIVATION = 1; AUTOSTART = "), Word(autostart_value(task)),
        Word(b"; RESOURCE = R"), Number(task % 4), Word(b";"))?;
    put_event_attribute(text, task)?;
    line!(text; Word(b" };\n"))
}

fn put_tasks(text: &mut Vec<u8>, tasks: u32) -> Result<()>
    ensures { OnOk result (text.new.items ≡ text.old.items ++ flat_map task_object (range_with_len 0 tasks)) }
{
    for task in 0..tasks {
        put_task(text, task)?;
    }
    Ok(())
}

/// The OIL text of an application of so many tasks.
#[tactic(auto, unfolding(crate::specs::Oil::oil_text))]
pub fn oil_text(alloc: Global, tasks: u32) -> Result<Vec<u8>>
    ensures { IfOk result (λ text. text.items ≡ oil_text tasks) }
{
    let mut text = Vec::new(alloc);
    text.extend_from_slice(b"OIL_VERSION = \"2.5\";\nCPU c {\nOS o { STATUS = EXTENDED; };\n")?;
    put_events(&mut text, tasks)?;
    put_resource(&mut text, 0)?;
    put_resource(&mut text, 1)?;
    put_resource(&mut text, 2)?;
    put_resource(&mut text, 3)?;
    put_tasks(&mut text, tasks)?;
    text.extend_from_slice(b"};\n")?;
    Ok(text)
}

/// The number of arrivals.
const ARRIVALS: usize = 1_000;

/// The moment that the first gap begins at.
const START: u32 = 1_000;

/// The greatest gap between two arrivals.
const LONGEST_GAP: u32 = 900;

fn gap(draw: u32) -> u32
    ensures is { result ≡ 1 + high_bits draw % 900 }
    ensures short { result ≤ 900 }
{
    1 + (draw >> 16) % LONGEST_GAP
}

fn line(draw: u32, tasks: u32) -> Line
    requires { (1 ≤ tasks) × (tasks ≤ task_limit) }
    ensures { result ≡ high_bits draw % tasks }
{
    Line(((draw >> 16) % tasks) as u8)
}

/// The arrivals of an application of so many tasks, with two draws for each.
pub fn arrivals(alloc: Global, tasks: u32, draws: &mut Draws) -> Result<Vec<Arrival>>
    requires { (1 ≤ tasks) × (tasks ≤ task_limit) }
    ensures { IfOk result (λ arrivals. arrivals.items ≡ first_arrivals draws.old tasks 1000) }
{
    let mut arrivals = Vec::new(alloc);
    let mut at = START;
    for _number in 0..ARRIVALS {
        at += gap(draws.next());
        let line = line(draws.next(), tasks);
        push(&mut arrivals, Arrival { at, line })?;
    }
    Ok(arrivals)
}

/// A generated application: its texts, and the arrivals of a run.
#[derive(Drop)]
pub struct Sample {
    pub oil: List<u8>,
    pub src: List<u8>,
    pub arrivals: List<Arrival>,
}
