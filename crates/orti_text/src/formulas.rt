//! The texts of formulas. The values of attributes.
ghost use Rattle.std.specs.Prelude.{◌≡◌, ◌<◌, ◌++◌, IfOk, codes, decimal, [], OnOk, cond, true};
ghost use Rattle.sloth_base.specs.Limits.{alarm_limit, task_limit};
ghost use Rattle.sloth_base.specs.MemoryMap.{controller_bytes};
ghost use Rattle.sloth_region.specs.Layout.{active, alarm_cycle, alarm_left, enabled_byte, pending_byte};
ghost use Rattle.orti_text.specs.Formulas as Formula;
ghost use Rattle.orti_text.specs.Formulas.{Equal, hex_text, in_brackets, text};
ghost use Rattle.orti_text.specs.Values.{activations_formula, byte, entered_formula, is_one, state_formula, wait_formula, where_in_use, word, action_text, attribute_value, mask_text, resource_number, stack_at};
ghost use Rattle.sloth_base.specs.ConfigRange.{InRange};
ghost use Rattle.mem_map.specs.Zones.{all_stacks};
ghost use Rattle.orti_text.specs.InReach.{IsInReach};
ghost use Rattle.orti_text.specs.Tables.{value_text};

use crate::{Attribute, Put, Text};
use mem_map::stack_number;
use osek_scheduler::ceiling;
use sloth_base::{Action, CONTROLLER_BASE, Config, EventDecl, MEMORY_BASE, RES_SCHEDULER};
use sloth_region::{
    CUR, Extent, Map, active, alarm_cycle, alarm_left, counter_value, enabled_byte, events,
    pending_byte, wait,
};
use std::alloc::Global;
use text_pieces::pieces::Piece::{Number, Word};
use text_pieces::{line, text};
use trace_text::LineText;

/// A number in decimal digits.
pub fn number(alloc: Global, number: u32) -> Text
    ensures { IfOk result (λ text. text.items ≡ decimal number) }
{
    text!(alloc; Number(number))
}

/// A number in hexadecimal digits.
pub fn hex(alloc: Global, number: u32) -> Text
    ensures { IfOk result (λ text. text.items ≡ hex_text number) }
{
    let mut digits = LineText::new();
    digits.push_word(number);
    text!(alloc; Word(b"0x"), Word(digits.bytes()))
}

/// The service word at an offset.
pub fn word(alloc: Global, offset: u32) -> Text
    requires { offset < 1024 }
    ensures { IfOk result (λ bytes. bytes.items ≡ text (word offset)) }
{
    let address = hex(alloc, MEMORY_BASE + offset)?;
    text!(alloc; Word(b"*(unsigned int *)"), Word(address.as_slice()))
}

fn byte(alloc: Global, offset: u32) -> Text
    requires { offset < controller_bytes }
    ensures { IfOk result (λ bytes. bytes.items ≡ text (byte offset)) }
{
    let address = hex(alloc, CONTROLLER_BASE + offset)?;
    text!(alloc; Word(b"*(unsigned char *)"), Word(address.as_slice()))
}

fn in_brackets(alloc: Global, text: &[u8]) -> Text
    ensures { IfOk result (λ bytes. bytes.items ≡ in_brackets text.now) }
{
    text!(alloc; Word(b"("), Word(text), Word(b")"))
}

fn choice<'x>(alloc: Global, test: &'x [u8], then: &'x [u8], other: &'x [u8]) -> Text
    ensures { IfOk result (λ bytes. bytes.items ≡ test.now ++ codes " ? " ++ then.now ++ codes " : " ++ other.now) }
{
    text!(alloc; Word(test), Word(b" ? "), Word(then), Word(b" : "), Word(other))
}

fn where_equal<'x>(alloc: Global, read: &'x [u8], n: u32, then: &'x [u8], other: &'x [u8]) -> Text
    ensures { IfOk result (λ bytes. bytes.items
        ≡ in_brackets (read.now ++ codes " == " ++ decimal n) ++ codes " ? " ++ then.now ++ codes " : " ++ other.now) }
{
    let equal = text!(alloc; Word(read), Word(b" == "), Number(n))?;
    let test = in_brackets(alloc, equal.as_slice())?;
    choice(alloc, test.as_slice(), then, other)
}

fn by_byte<'x>(alloc: Global, offset: u32, one: &'x [u8], other: &'x [u8]) -> Text
    requires { offset < controller_bytes }
    ensures { IfOk result (λ bytes. bytes.items
        ≡ in_brackets (in_brackets (text (is_one (byte offset))) ++ codes " ? " ++ one.now ++ codes " : "
        ++ other.now)) }
{
    let read = byte(alloc, offset)?;
    let whole = where_equal(alloc, read.as_slice(), 1, one, other)?;
    in_brackets(alloc, whole.as_slice())
}

fn by_active<'x>(alloc: Global, task: u8, entered: &'x [u8], other: &'x [u8]) -> Text
    requires { task < task_limit }
    ensures { IfOk result (λ bytes. bytes.items
        ≡ in_brackets (text (is_one (word (active task)))) ++ codes " ? " ++ entered.now ++ codes " : " ++ other.now) }
{
    let read = word(alloc, active(task) as u32)?;
    where_equal(alloc, read.as_slice(), 1, entered, other)
}

// One of two operands where a task is Ready or Suspended, 1 where it is Waiting, and a third where it is Active.
fn by_state<'x>(
    alloc: Global,
    task: u8,
    entered: &'x [u8],
    ready: &'x [u8],
    suspended: &'x [u8],
) -> Text
    requires { task < task_limit }
    ensures { IfOk result (λ bytes. bytes.items
        ≡ in_brackets (text (is_one (word (active task)))) ++ codes " ? " ++ entered.now ++ codes " : "
        ++ in_brackets (in_brackets (text (is_one (byte (enabled_byte task)))) ++ codes " ? "
        ++ in_brackets (in_brackets (text (is_one (byte (pending_byte task)))) ++ codes " ? " ++ ready.now
        ++ codes " : " ++ suspended.now)
        ++ codes " : " ++ decimal 1)) }
{
    let pending = by_byte(alloc, pending_byte(task) as u32, ready, suspended)?;
    let enabled = by_byte(alloc, enabled_byte(task) as u32, pending.as_slice(), b"1")?;
    by_active(alloc, task, entered, enabled.as_slice())
}

/// The state of a task.
pub fn state(alloc: Global, task: u8) -> Text
    requires { task < task_limit }
    ensures { IfOk result (λ bytes. bytes.items ≡ text (state_formula task)) }
{
    let cur = word(alloc, CUR as u32)?;
    let active = where_equal(alloc, cur.as_slice(), u32::from(task) + 1, b"0", b"2")?;
    let entered = in_brackets(alloc, active.as_slice())?;
    by_state(alloc, task, entered.as_slice(), b"2", b"3")
}

/// How often a task is activated: 0 or 1.
pub fn activations(alloc: Global, task: u8) -> Text
    requires { task < task_limit }
    ensures { IfOk result (λ bytes. bytes.items ≡ text (activations_formula task)) }
{
    by_state(alloc, task, b"1", b"1", b"0")
}

/// Whether a task is Active.
#[tactic(auto, using(crate::proofs::Digits::zero_text, crate::proofs::Digits::one_text))]
pub fn entered(alloc: Global, task: u8) -> Text
    requires { task < task_limit }
    ensures { IfOk result (λ bytes. bytes.items ≡ text (entered_formula task)) }
{
    by_active(alloc, task, b"1", b"0")
}

/// The events that a task waits for.
#[tactic(auto, using(crate::proofs::Digits::zero_text))]
pub fn wait_mask(alloc: Global, task: u8) -> Text
    requires { task < task_limit }
    ensures { IfOk result (λ bytes. bytes.items ≡ text (wait_formula task)) }
{
    let mask = word(alloc, wait(task) as u32)?;
    let enabled = by_byte(alloc, enabled_byte(task) as u32, b"0", mask.as_slice())?;
    by_active(alloc, task, b"0", enabled.as_slice())
}

#[tactic(auto, using(crate::proofs::Digits::zero_text))]
fn where_in_use(alloc: Global, alarm: u8, used: &[u8]) -> Text
    requires { alarm < alarm_limit }
    ensures { IfOk result (λ bytes. bytes.items
        ≡ in_brackets (text (Equal (word (alarm_left alarm)) (Formula.Number 0))) ++ codes " ? " ++ decimal 0
        ++ codes " : " ++ used.now) }
{
    let left = word(alloc, alarm_left(alarm) as u32)?;
    where_equal(alloc, left.as_slice(), 0, b"0", used)
}

/// The cycle of an alarm that is in use.
pub fn cycle(alloc: Global, alarm: u8) -> Text
    requires { alarm < alarm_limit }
    ensures { IfOk result (λ bytes. bytes.items ≡ text (where_in_use alarm (word (alarm_cycle alarm)))) }
{
    let cycle = word(alloc, alarm_cycle(alarm) as u32)?;
    where_in_use(alloc, alarm, cycle.as_slice())
}

/// Whether an alarm is in use.
#[tactic(auto, using(crate::proofs::Digits::one_text))]
pub fn is_running(alloc: Global, alarm: u8) -> Text
    requires { alarm < alarm_limit }
    ensures { IfOk result (λ bytes. bytes.items ≡ text (where_in_use alarm (Formula.Number 1))) }
{
    where_in_use(alloc, alarm, b"1")
}

/// The place of the first stack among the extents of a map.
const STACKS: usize = 3;

const NO_EXTENT: Extent = Extent { base: 0, len: 0 };

/// A word that stands before all but the first.
pub fn between(first: bool, word: &'static [u8]) -> &'static [u8]
    ensures { result.now ≡ cond first [] word.now }
{
    if first { b"" } else { word }
}

// The stacks, which are the extents behind the zone of data.
fn stacks(map: &Map) -> &[Extent]
    ensures { result.now ≡ all_stacks map.now }
{
    let extents = map.extents.items();
    if extents.len() < STACKS {
        return &[];
    }
    &extents[STACKS..]
}

// A stack by its place, or an extent without bytes.
fn numbered_stack(map: &Map, number: usize) -> Extent
    ensures { result ≡ stack_at map.now number }
{
    stacks(map).get(number).copied().unwrap_or(NO_EXTENT)
}

fn resource_number(config: &Config, number: usize) -> u32
    requires { InRange config.now }
    ensures { result ≡ resource_number config.now number }
{
    if number < config.resources.items().len() {
        number as u32
    } else {
        RES_SCHEDULER
    }
}

fn push_mask(text: &mut Vec<u8>, mask: u32, events: &[EventDecl]) -> Put
    ensures { OnOk result (text.new.items ≡ text.old.items ++ mask_text true mask events.now) }
{
    let mut first = true;
    for event in events {
        if event.mask == mask {
            line!(text; Word(between(first, b" or ")), Word(event.name.bytes()))?;
            first = false;
        }
    }
    Ok(())
}

fn action_text(alloc: Global, config: &Config, action: Action) -> Text
    ensures { IfOk result (λ text. text.items ≡ action_text config.now action) }
{
    match action {
        Action::Activate(task) => {
            text!(alloc; Word(b"ActivateTask("), Word(config.task_name(task.0 as usize)), Word(b")"))
        },
        Action::Set(task, mask) => {
            let name = config.task_name(task.0 as usize);
            let mut text = text!(alloc; Word(b"SetEvent("), Word(name), Word(b", "))?;
            push_mask(&mut text, mask, config.events.items())?;
            line!(&mut text; Word(b")"))?;
            Ok(text)
        },
    }
}

/// The value of an attribute of the object of a number.
pub fn attribute_value(alloc: Global, config: &Config, map: &Map, a: Attribute, n: usize) -> Text
    requires in_range { InRange config.now }
    requires in_reach { IsInReach config.now a n }
    ensures { IfOk result (λ text. text.items ≡ value_text (attribute_value config.now map.now a n)) }
{
    match a {
        Attribute::RunningTask => word(alloc, CUR as u32),
        Attribute::CounterValue(counter) => word(alloc, counter_value(counter as u8) as u32),
        Attribute::EventMask(event) => match config.events.items().get(event) {
            Some(event) => hex(alloc, event.mask),
            None => hex(alloc, 0),
        },
        Attribute::StaticPriority => number(alloc, config.priority(n)),
        Attribute::TaskState => state(alloc, n as u8),
        Attribute::Entered => entered(alloc, n as u8),
        Attribute::TaskStack => number(alloc, stack_number(config.tasks.items(), n) as u32),
        Attribute::Activations => activations(alloc, n as u8),
        Attribute::Events => word(alloc, events(n as u8) as u32),
        Attribute::WaitMask => wait_mask(alloc, n as u8),
        Attribute::Size => number(alloc, numbered_stack(map, n).len),
        Attribute::BaseAddress => hex(alloc, numbered_stack(map, n).base),
        Attribute::Direction => text!(alloc; Word(b"DOWN")),
        Attribute::AlarmTime => word(alloc, alarm_left(n as u8) as u32),
        Attribute::CycleTime => cycle(alloc, n as u8),
        Attribute::AlarmState => is_running(alloc, n as u8),
        Attribute::Expiry => action_text(alloc, config, config.alarms.items()[n].action),
        Attribute::AlarmCounter => {
            let counter = config.alarms.items()[n].counter as usize;
            text!(alloc; Word(config.counter_name(counter)))
        },
        Attribute::Ceiling => number(alloc, ceiling(config, resource_number(config, n))),
    }
}
