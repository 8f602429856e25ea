//! The kinds of objects that debuggers show of a kernel, and the attributes of each kind.
//! The names of objects, and the texts that values stand for.
ghost use Rattle.std.specs.Prelude.{◌≡◌, ◌++◌, IfOk, OnOk, map, ◌<◌, ◌∷◌, [], codes, filter};
ghost use Rattle.std.specs.List.{range_with_len};
ghost use Rattle.orti_text.specs.Attributes.{attribute_about, attribute_name, attribute_word, attributes, kind_about, kind_word, object_names, state_names};
ghost use Rattle.orti_text.specs.declared.attributes.Attribute.TheVariants as attribute_is;
ghost use Rattle.orti_text.specs.declared.attributes.Kind.TheVariants.{Os, Alarm, Resource, Task};
ghost use Rattle.sloth_base.specs.declared.config.TaskDecl.{TaskDecl as AnyTask};
ghost use Rattle.mem_map.specs.StackParts.{first_own};

use crate::attributes::Attribute::{
    Activations, AlarmCounter, AlarmState, AlarmTime, BaseAddress, Ceiling, CounterValue,
    CycleTime, Direction, Entered, EventMask, Events, Expiry, RunningTask, Size, StaticPriority,
    TaskStack, TaskState, WaitMask,
};
use crate::{Put, Text};
use mem_map::first_own;
use sloth_base::{AlarmDecl, Config, List, Name, Result, TaskDecl, task_names};
use std::alloc::Global;
use text_pieces::pieces::Piece::Word;
use text_pieces::{push, text};

/// A kind of objects.
#[derive(Clone, Copy)]
pub enum Kind {
    Os,
    Task,
    Stack,
    Alarm,
    Resource,
}

/// What a debugger shows of an object.
#[derive(Clone, Copy)]
pub enum Attribute {
    RunningTask,
    /// The value of the counter of this number.
    CounterValue(usize),
    /// The mask of the event of this number.
    EventMask(usize),
    StaticPriority,
    TaskState,
    /// Whether the task is Active.
    Entered,
    TaskStack,
    Activations,
    Events,
    WaitMask,
    Size,
    BaseAddress,
    Direction,
    AlarmTime,
    CycleTime,
    AlarmState,
    /// What the alarm does as it expires.
    Expiry,
    AlarmCounter,
    Ceiling,
}

const OF_TASK: [Attribute; 7] = [
    StaticPriority,
    TaskState,
    Entered,
    TaskStack,
    Activations,
    Events,
    WaitMask,
];

const OF_STACK: [Attribute; 3] = [Size, BaseAddress, Direction];

const OF_ALARM: [Attribute; 5] = [AlarmTime, CycleTime, AlarmState, Expiry, AlarmCounter];

/// The word of a kind or of an attribute, and what is said of it.
#[derive(Clone, Copy)]
pub struct Words {
    pub word: &'static [u8],
    pub about: &'static [u8],
}

fn row(word: &'static [u8], about: &'static [u8]) -> Words
    ensures word { result.word.now ≡ word.now }
    ensures about { result.about.now ≡ about.now }
{
    Words { word, about }
}

/// Those of a kind.
pub fn kind_words(kind: Kind) -> Words
    ensures word { result.word.now ≡ kind_word kind }
    ensures about { result.about.now ≡ kind_about kind }
{
    match kind {
        Kind::Os => row(b"OS", b"OS"),
        Kind::Task => row(b"TASK", b"Tasks"),
        Kind::Stack => row(b"STACK", b"Stacks"),
        Kind::Alarm => row(b"ALARM", b"Alarms"),
        Kind::Resource => row(b"RESOURCE", b"Resources"),
    }
}

/// Those of an attribute; the word of a counter's or an event's stands before the object's name.
pub fn attribute_words(attribute: Attribute) -> Words
    ensures word { result.word.now ≡ attribute_word attribute }
    ensures about { result.about.now ≡ attribute_about attribute }
{
    match attribute {
        RunningTask => row(b"RUNNINGTASK", b"Running task"),
        CounterValue(_) => row(b"vs_COUNTER_", b"Value of the counter"),
        EventMask(_) => row(b"vs_EVENT_", b"Mask of the event"),
        StaticPriority => row(b"vs_STATICPRIORITY", b"Static priority"),
        TaskState => row(b"STATE", b"State"),
        Entered => row(b"vs_ENTERED", b"Entered and not left"),
        TaskStack => row(b"STACK", b"Stack"),
        Activations => row(b"CURRENTACTIVATIONS", b"Activations"),
        Events => row(b"vs_EVENTS", b"Events that are set"),
        WaitMask => row(b"vs_WAITMASK", b"Events that it waits for"),
        Size => row(b"SIZE", b"Bytes"),
        BaseAddress => row(b"BASEADDRESS", b"Lowest address"),
        Direction => row(b"STACKDIRECTION", b"Direction of growth"),
        AlarmTime => row(b"ALARMTIME", b"Ticks to the expiry"),
        CycleTime => row(b"CYCLETIME", b"Cycle"),
        AlarmState => row(b"STATE", b"State"),
        Expiry => row(b"ACTION", b"Action"),
        AlarmCounter => row(b"COUNTER", b"Counter"),
        Ceiling => row(b"PRIORITY", b"Ceiling priority"),
    }
}

/// The name of an attribute.
pub fn attribute_name(alloc: Global, config: &Config, attribute: Attribute) -> Text
    ensures { IfOk result (λ name. name.items ≡ attribute_name config.now attribute) }
{
    let word = attribute_words(attribute).word;
    match attribute {
        CounterValue(counter) => text!(alloc; Word(word), Word(config.counter_name(counter))),
        EventMask(event) => text!(alloc; Word(word), Word(config.event_name(event))),
        _ => text!(alloc; Word(word), Word(b"")),
    }
}

fn push_counters(list: &mut Vec<Attribute>, counters: usize) -> Put
    ensures { OnOk result (list.new.items
        ≡ list.old.items ++ map attribute_is.CounterValue (range_with_len 0 counters)) }
{
    for counter in 0..counters {
        push(list, CounterValue(counter))?;
    }
    Ok(())
}

fn push_events(list: &mut Vec<Attribute>, events: usize) -> Put
    ensures { OnOk result (list.new.items ≡ list.old.items ++ map attribute_is.EventMask (range_with_len 0 events)) }
{
    for event in 0..events {
        push(list, EventMask(event))?;
    }
    Ok(())
}

fn system_attributes(alloc: Global, config: &Config) -> Result<Vec<Attribute>>
    ensures { IfOk result (λ list. list.items ≡ attributes config.now Os) }
{
    let mut list = Vec::from_slice(alloc, &[RunningTask])?;
    push_counters(&mut list, config.counters.items().len())?;
    push_events(&mut list, config.events.items().len())?;
    Ok(list)
}

/// The attributes of a kind, in the order of the file.
pub fn attributes(alloc: Global, config: &Config, kind: Kind) -> Result<Vec<Attribute>>
    ensures { IfOk result (λ list. list.items ≡ attributes config.now kind) }
{
    match kind {
        Kind::Os => system_attributes(alloc, config),
        Kind::Task => Ok(Vec::from_slice(alloc, &OF_TASK)?),
        Kind::Stack => Ok(Vec::from_slice(alloc, &OF_STACK)?),
        Kind::Alarm => Ok(Vec::from_slice(alloc, &OF_ALARM)?),
        Kind::Resource => Ok(Vec::from_slice(alloc, &[Ceiling])?),
    }
}

fn push_name(alloc: Global, names: &mut Vec<Name>, prefix: &[u8], name: &[u8]) -> Put
    ensures { OnOk result (names.new.items ≡ names.old.items ++ (prefix.now ++ name.now) ∷ []) }
{
    let whole = text!(alloc; Word(prefix), Word(name))?;
    push(names, Name::new(alloc, whole.as_slice())?)
}

/// Two names.
pub fn two_names(alloc: Global, one: &[u8], other: &[u8]) -> Result<List<Name>>
    ensures { IfOk result (λ names. names ≡ one.now ∷ other.now ∷ []) }
{
    let mut names = Vec::new(alloc);
    push_name(alloc, &mut names, b"", one)?;
    push_name(alloc, &mut names, b"", other)?;
    Ok(List::from_vec(names))
}

/// The states of a task, by their numbers.
pub fn state_names(alloc: Global) -> Result<List<Name>>
    ensures { IfOk result (λ names. names ≡ state_names) }
{
    let mut names = Vec::new(alloc);
    push_name(alloc, &mut names, b"", b"RUNNING")?;
    push_name(alloc, &mut names, b"", b"WAITING")?;
    push_name(alloc, &mut names, b"", b"READY")?;
    push_name(alloc, &mut names, b"", b"SUSPENDED")?;
    Ok(List::from_vec(names))
}

fn push_names(alloc: Global, names: &mut Vec<Name>, more: &[Name]) -> Put
    ensures { OnOk result (names.new.items ≡ names.old.items ++ more.now) }
{
    for name in more {
        push_name(alloc, names, b"", name.bytes())?;
    }
    Ok(())
}

/// What the number of the running task and 1 more stands for, 0 where none runs.
pub fn running_names(alloc: Global, config: &Config) -> Result<List<Name>>
    ensures { IfOk result (λ names. names ≡ codes "NO_TASK" ∷ object_names config.now Task) }
{
    let tasks = task_names(alloc, config)?;
    let mut names = Vec::new(alloc);
    push_name(alloc, &mut names, b"", b"NO_TASK")?;
    push_names(alloc, &mut names, tasks.items())?;
    Ok(List::from_vec(names))
}

fn push_own(alloc: Global, names: &mut Vec<Name>, tasks: &[TaskDecl]) -> Put
    ensures { OnOk result (names.new.items ≡ names.old.items
        ++ map (λ (d : AnyTask). codes "stack_" ++ d.name) (filter (λ (d : AnyTask). d.extended) tasks.now)) }
{
    for task in tasks {
        if task.extended {
            push_name(alloc, names, b"stack_", task.name.bytes())?;
        }
    }
    Ok(())
}

fn push_alarms(alloc: Global, names: &mut Vec<Name>, alarms: &[AlarmDecl]) -> Put
    ensures { OnOk result (names.new.items ≡ names.old.items ++ map (λ a. a.name) alarms.now) }
{
    for alarm in alarms {
        push_name(alloc, names, b"", alarm.name.bytes())?;
    }
    Ok(())
}

fn push_object_names(alloc: Global, names: &mut Vec<Name>, config: &Config, kind: Kind) -> Put
    requires { names.old.items ≡ [] }
    ensures { OnOk result (names.new.items ≡ object_names config.now kind) }
{
    match kind {
        Kind::Os => push_name(alloc, names, b"", b"sloth"),
        Kind::Task => {
            let tasks = task_names(alloc, config)?;
            push_names(alloc, names, tasks.items())
        }
        Kind::Stack => {
            let tasks = config.tasks.items();
            if first_own(tasks) == 0 {
                return push_own(alloc, names, tasks);
            }
            push_name(alloc, names, b"", b"shared")?;
            push_own(alloc, names, tasks)
        }
        Kind::Alarm => push_alarms(alloc, names, config.alarms.items()),
        Kind::Resource => {
            push_names(alloc, names, config.resources.items())?;
            if config.res_scheduler {
                return push_name(alloc, names, b"", b"RES_SCHEDULER");
            }
            Ok(())
        }
    }
}

/// The names of the objects of a kind, in the order of their numbers.
pub fn object_names(alloc: Global, config: &Config, kind: Kind) -> Result<List<Name>>
    ensures { IfOk result (λ names. names ≡ object_names config.now kind) }
{
    let mut names = Vec::new(alloc);
    push_object_names(alloc, &mut names, config, kind)?;
    Ok(List::from_vec(names))
}
