//! The configuration of a tree, or its least fault. The counters and alarms of a tree that has no fault.
//! The configuration of a tree that has no fault.
ghost use Rattle.std.specs.Prelude.{◌≡◌, ◌≤◌, ◌<◌, All, IfOk, OnOk, IfErr, length, codes, option_copied, ◌==◌};
ghost use Rattle.sloth_base.specs.Order.{NoFault, ErrorIs};
ghost use Rattle.sloth_base.specs.ConfigRange.{InRange};
ghost use Rattle.sloth_base.specs.declared.config.Config.{Config};
ghost use Rattle.sloth_base.specs.Limits.{resource_limit};
ghost use Rattle.sloth_base.specs.MemoryMap.{line_count};
ghost use Rattle.oil_parse.specs.declared.tree.OilTree.{OilTree};
ghost use Rattle.oil_table.specs.Objects.{has_scheduler, names_of};
ghost use Rattle.oil_rules.specs.Trees.{IsTree};
ghost use Rattle.oil_table.specs.Events.{events_of};
ghost use Rattle.oil_rules.specs.ModelFaults.{ModelFault};
ghost use Rattle.oil_rules.specs.Configs.{resource_names, config_of, IsConfig, listed_resource, with_resource, resources_of, tasks_of};
ghost use Rattle.oil_rules.specs.Clocks.{counters_of, number_named, action_of, started, alarms_of};
ghost use Rattle.std.specs.List.{list_any};

use crate::{first_block, first_in, judge, number_in};
use oil_parse::{OilAttr, OilObject, OilTree, OilValue};
use oil_table::{
    EventTable, event_mask, events_of, first_is, first_number, first_use, has_scheduler,
    is_of_kind, is_use, is_used, mask_of_value, names_of,
};
use sloth_base::{
    Action, AlarmDecl, BuildError, Config, CounterDecl, EventDecl, List, Name, ResId, Result,
    TICK_LIMIT, TaskDecl, TaskId,
};
use std::alloc::Global;
use text_pieces::{Names, push};

fn declared_config(
    alloc: Global,
    objects: &[OilObject],
    scheduler: bool,
    resources: &Names,
    event_names: &Names,
    events: Vec<EventDecl>,
) -> Result<Config>
    requires few { length (resource_names objects.now) ≤ resource_limit }
    requires few_tasks { length (names_of (codes "TASK") objects.now) ≤ line_count }
    requires few_counters { length (names_of (codes "COUNTER") objects.now) ≤ line_count }
    requires scheduler { scheduler ≡ has_scheduler objects.now }
    requires resource_numbers { resources.now ≡ resource_names objects.now }
    requires event_numbers { event_names.now ≡ names_of (codes "EVENT") objects.now }
    requires events { events.items ≡ events_of objects.now }
    ensures { IfOk result (λ config. config ≡ config_of objects.now) }
{
    let names = resource_names(alloc, objects)?;
    let table = EventTable::new(events.as_slice(), event_names);
    let tasks = declared_tasks(alloc, resources, &table, objects)?;
    let (counters, alarms) = declared_clocks(alloc, &table, objects)?;
    Ok(Config {
        tasks: List::from_vec(tasks),
        resources: List::from_vec(names),
        events: List::from_vec(events),
        res_scheduler: scheduler,
        counters: List::from_vec(counters),
        alarms: List::from_vec(alarms),
    })
}

fn config_or_refusal(
    alloc: Global,
    tree: &OilTree,
    scheduler: bool,
    resources: &Names,
    event_names: &Names,
    events: Vec<EventDecl>,
) -> Result<Config, BuildError>
    requires tree { IsTree tree.now }
    requires scheduler { scheduler ≡ has_scheduler tree.now.objects }
    requires resource_numbers { resources.now ≡ resource_names tree.now.objects }
    requires event_numbers { event_names.now ≡ names_of (codes "EVENT") tree.now.objects }
    requires events { events.items ≡ events_of tree.now.objects }
    requires fit { All (λ event. event.mask < 4294967296) events.items }
    ensures config { IfOk result (IsConfig tree.now) }
    ensures none { OnOk result (NoFault (ModelFault tree.now)) }
    ensures in_range { IfOk result InRange }
    ensures refused { IfErr result (λ error. ErrorIs (ModelFault tree.now) error) }
{
    let refusal = judge(alloc, tree, scheduler, event_names, events.as_slice())?;
    if let Some(refusal) = refusal {
        return Err(BuildError::Refused(refusal));
    }
    let objects = tree.objects.items();
    let config = declared_config(alloc, objects, scheduler, resources, event_names, events)?;
    Ok(config)
}

/// The configuration of a tree (OIL 2.5), or the least of its faults O7 to O15.
pub fn resolve(alloc: Global, tree: &OilTree) -> Result<Config, BuildError>
    requires { IsTree tree.now }
    ensures config { IfOk result (IsConfig tree.now) }
    ensures none { OnOk result (NoFault (ModelFault tree.now)) }
    ensures in_range { IfOk result InRange }
    ensures refused { IfErr result (λ error. ErrorIs (ModelFault tree.now) error) }
{
    let objects = tree.objects.items();
    let events = events_of(alloc, objects)?;
    let resources = names_of(alloc, objects, b"RESOURCE")?;
    let event_names = names_of(alloc, objects, b"EVENT")?;
    let scheduler = has_scheduler(objects);
    config_or_refusal(alloc, tree, scheduler, &resources, &event_names, events)
}

/// A tree has one configuration.
pub fn one_config()
    ensures { (tree : OilTree) (one other : Config) → IsConfig tree one → IsConfig tree other → one ≡ other }
{}

fn declared_counters(alloc: Global, objects: &[OilObject]) -> Result<Vec<CounterDecl>>
    ensures { IfOk result (λ counters. counters.items ≡ counters_of objects.now) }
{
    let mut counters = Vec::new(alloc);
    for object in objects {
        if !is_of_kind(object, b"COUNTER") {
            continue;
        }
        let attrs = object.attrs.items();
        let counter = CounterDecl {
            name: Name::new(alloc, object.name.bytes())?,
            max: first_number(attrs, b"MAXALLOWEDVALUE").unwrap_or(TICK_LIMIT),
            min_cycle: first_number(attrs, b"MINCYCLE").unwrap_or(1),
        };
        push(&mut counters, counter)?;
    }
    Ok(counters)
}

/// The number of the object that an attribute names, or 0.
fn number_named(names: &Names, attr: Option<&OilAttr>) -> u32
    requires { length names.now ≤ line_count }
    ensures { result ≡ number_named names.now (option_copied attr.entry) }
{
    let Some(attr) = attr else {
        return 0;
    };
    match &attr.value {
        OilValue::Word(word) => match names.number(word.bytes()) {
            Some(number) => number as u32,
            None => 0,
        },
        _ => 0,
    }
}

fn alarm_action(tasks: &Names, events: &EventTable, attrs: &[OilAttr]) -> Action
    requires { length tasks.now ≤ line_count }
    ensures { result ≡ action_of tasks.now events.now attrs.now }
{
    let inner = first_block(attrs, b"ACTION");
    let task = TaskId(number_named(tasks, first_in(inner, b"TASK")));
    if !first_is(attrs, b"ACTION", b"SETEVENT") {
        return Action::Activate(task);
    }
    match first_in(inner, b"EVENT") {
        Some(attr) => Action::Set(task, mask_of_value(events, &attr.value)),
        None => Action::Set(task, 0),
    }
}

/// What an attribute of the block of AUTOSTART = TRUE says; 0 where the alarm does not start by itself.
fn started(attrs: &[OilAttr], name: &[u8]) -> u32
    ensures { result ≡ started attrs.now name.now }
{
    if first_is(attrs, b"AUTOSTART", b"TRUE") {
        number_in(first_block(attrs, b"AUTOSTART"), name).unwrap_or(0)
    } else {
        0
    }
}

fn declared_alarms(
    alloc: Global,
    tasks: &Names,
    counters: &Names,
    events: &EventTable,
    objects: &[OilObject],
) -> Result<Vec<AlarmDecl>>
    requires few_tasks { length tasks.now ≤ line_count }
    requires few_counters { length counters.now ≤ line_count }
    ensures { IfOk result (λ alarms. alarms.items ≡ alarms_of tasks.now counters.now events.now objects.now) }
{
    let mut alarms = Vec::new(alloc);
    for object in objects {
        if !is_of_kind(object, b"ALARM") {
            continue;
        }
        let attrs = object.attrs.items();
        let alarm = AlarmDecl {
            name: Name::new(alloc, object.name.bytes())?,
            counter: number_named(counters, first_use(attrs, b"COUNTER")),
            action: alarm_action(tasks, events, attrs),
            time: started(attrs, b"ALARMTIME"),
            cycle: started(attrs, b"CYCLETIME"),
        };
        push(&mut alarms, alarm)?;
    }
    Ok(alarms)
}

// The counters and alarms of a configuration, in the order of their numbers.
type Clocks = (Vec<CounterDecl>, Vec<AlarmDecl>);

fn declared_clocks(alloc: Global, events: &EventTable, objects: &[OilObject]) -> Result<Clocks>
    requires few_tasks { length (names_of (codes "TASK") objects.now) ≤ line_count }
    requires few_counters { length (names_of (codes "COUNTER") objects.now) ≤ line_count }
    ensures counters { IfOk result (λ clocks. clocks.0.items ≡ counters_of objects.now) }
    ensures alarms { IfOk result (λ clocks. clocks.1.items ≡ alarms_of (names_of (codes "TASK") objects.now)
        (names_of (codes "COUNTER") objects.now) events.now objects.now) }
{
    let tasks = names_of(alloc, objects, b"TASK")?;
    let counters = names_of(alloc, objects, b"COUNTER")?;
    let alarms = declared_alarms(alloc, &tasks, &counters, events, objects)?;
    let counters = declared_counters(alloc, objects)?;
    Ok((counters, alarms))
}

/// The names of the resources, in the order of their numbers.
pub fn resource_names(alloc: Global, objects: &[OilObject]) -> Result<Vec<Name>>
    ensures { IfOk result (λ names. names.items ≡ resource_names objects.now) }
{
    let mut names = Vec::new(alloc);
    for object in objects {
        if !is_of_kind(object, b"RESOURCE") {
            continue;
        }
        push(&mut names, Name::new(alloc, object.name.bytes())?)?;
    }
    Ok(names)
}

fn listed_resource(names: &Names, attr: &OilAttr) -> Option<u32>
    requires { length names.now ≤ resource_limit }
    ensures { result ≡ listed_resource names.now attr.now }
{
    match &attr.value {
        OilValue::Word(word) if is_use(attr, b"RESOURCE") => match names.number(word.bytes()) {
            Some(number) => Some(number as u32),
            None => None,
        },
        _ => None,
    }
}

fn is_listed(listed: &Vec<ResId>, number: u32) -> bool
    ensures { result ≡ list_any (λ earlier. earlier == number) listed.now.items }
{
    listed.iter().any(|earlier| earlier.0 == number)
}

fn add_resource(listed: &mut Vec<ResId>, number: Option<u32>) -> Result<()>
    ensures { OnOk result (listed.new.items ≡ with_resource listed.old.items number) }
{
    match number {
        Some(number) if !is_listed(listed, number) => push(listed, ResId(number)),
        _ => Ok(()),
    }
}

fn listed_resources(alloc: Global, names: &Names, attrs: &[OilAttr]) -> Result<Vec<ResId>>
    requires { length names.now ≤ resource_limit }
    ensures { IfOk result (λ listed. listed.items ≡ resources_of names.now attrs.now) }
{
    let mut listed = Vec::new(alloc);
    for attr in attrs {
        add_resource(&mut listed, listed_resource(names, attr))?;
    }
    Ok(listed)
}

/// The tasks, in the order of their numbers.
pub fn declared_tasks(
    alloc: Global,
    names: &Names,
    events: &EventTable,
    objects: &[OilObject],
) -> Result<Vec<TaskDecl>>
    requires { length names.now ≤ resource_limit }
    ensures { IfOk result (λ tasks. tasks.items ≡ tasks_of names.now events.now objects.now) }
{
    let mut tasks = Vec::new(alloc);
    for object in objects {
        if !is_of_kind(object, b"TASK") {
            continue;
        }
        let attrs = object.attrs.items();
        let task = TaskDecl {
            name: Name::new(alloc, object.name.bytes())?,
            priority: first_number(attrs, b"PRIORITY").unwrap_or(0),
            extended: is_used(attrs, b"EVENT"),
            non: first_is(attrs, b"SCHEDULE", b"NON"),
            autostart: first_is(attrs, b"AUTOSTART", b"TRUE"),
            resources: List::from_vec(listed_resources(alloc, names, attrs)?),
            events: event_mask(events, attrs),
        };
        push(&mut tasks, task)?;
    }
    Ok(tasks)
}
