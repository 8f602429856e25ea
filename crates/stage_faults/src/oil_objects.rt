//! The faults of the objects of a tree, but those in the blocks of alarms. What the objects of a tree are judged by.
//! The faults of an OIL tree's meaning (O7 to O15).
//! The faults of a task's attributes that rest on other tasks and on events (O13, O15), and events without a bit (O15).
ghost use Rattle.std.specs.Prelude.{◌≡◌, ◌&&◌, nat_lt, true, OnOk, codes, IfOk};
ghost use Rattle.sloth_base.specs.declared.refusal.Part.TheVariants.{Oil};
ghost use Rattle.sloth_base.specs.Search.{Somewhere};
ghost use Rattle.oil_table.specs.Objects.{is_of_kind, has_scheduler, names_of, is_used};
ghost use Rattle.oil_table.specs.Events.{events_of, BitFault};
ghost use Rattle.oil_rules.specs.ObjectFaults.{is_known, KindFault};
ghost use Rattle.stage_faults.specs.Told.{Adds, AreAll};
ghost use Rattle.stage_faults.specs.ToldModel.{is_told_above, ToldKnown, ToldInner, ToldObject, ToldTree, ToldModel};
ghost use Rattle.oil_rules.specs.TaskFaults.{TaskFault};
ghost use Rattle.oil_rules.specs.TreeFaults.{TaskFaults};

use crate::notes::{add_bare, add_named, add_placed};
use crate::oil_attributes::{add_attributes, value_word};
use crate::oil_blocks::add_alarms;
use crate::{Notes, Position};
use oil_parse::{OilAttr, OilObject, OilTree};
use oil_rules::{
    Front, References, is_above, is_doubled, is_given_with, is_strange_mode, lacks_attribute,
    repeats_priority,
};
use oil_table::{
    CounterLimits, EventTable, TaskEvents, events_of, has_scheduler, is_nowhere, is_of_kind,
    lacks_bit, names_of, number_masks, place_of, taken_more,
};
use sloth_base::{
    ALARM_LIMIT, COUNTER_LIMIT, Code, EVENT_LIMIT, EventDecl, RESOURCE_LIMIT, Result, TASK_LIMIT,
};
use std::alloc::Global;
use text_pieces::Names;

// ---- an object

fn is_behind_more(kind: &[u8], limit: usize, count: usize, object: &OilObject) -> bool
    ensures { result ≡ (is_of_kind kind.now object.now && nat_lt limit count) }
{
    is_of_kind(object, kind) && limit < count
}

fn is_told_above(front: &Front, object: &OilObject) -> bool
    ensures { result ≡ is_told_above front.now object.now }
{
    is_above(front, object)
        || is_behind_more(b"TASK", TASK_LIMIT, front.tasks(), object)
        || is_behind_more(b"RESOURCE", RESOURCE_LIMIT, front.resources(), object)
        || is_behind_more(b"EVENT", EVENT_LIMIT, front.events(), object)
        || is_behind_more(b"COUNTER", COUNTER_LIMIT, front.counters(), object)
        || is_behind_more(b"ALARM", ALARM_LIMIT, front.alarms(), object)
}

fn add_known<'t>(
    notes: &mut Notes<'t>,
    scheduler: bool,
    front: &Front,
    own: Position,
    object: &'t OilObject,
) -> Result<()>
    ensures { OnOk result (Adds Oil (ToldKnown scheduler front.now object.now) notes.old.items notes.new.items) }
{
    let line = object.line;
    let name = object.name.bytes();
    let doubled = is_doubled(scheduler, front, object);
    add_placed(notes, doubled, line, Code::O9, name, own)?;
    add_bare(notes, lacks_attribute(object), line, Code::O11)?;
    add_placed(notes, is_strange_mode(object), line, Code::O12, name, own)?;
    let above = is_told_above(front, object);
    add_named(notes, above, line, Code::O14, name, None)
}

fn add_known_object<'e, 't: 'e>(
    alloc: Global,
    notes: &mut Notes<'t>,
    tables: &Tables<'e>,
    front: &Front,
    own: Position,
    object: &'t OilObject,
) -> Result<()>
    requires { tables.now.counters.now ≡ tables.now.objects.now }
    ensures { OnOk result (Adds Oil (λ r. (is_known object.now ≡ true) × ToldInner tables.now.objects.now
        tables.now.scheduler tables.now.events.now front.now object.now r) notes.old.items notes.new.items) }
{
    let place = place_of(object.kind.bytes());
    if is_nowhere(place) {
        return Ok(());
    }
    add_known(notes, tables.scheduler, front, own, object)?;
    let attrs = object.attrs.items();
    let limits = tables.counters.limits_of(attrs);
    add_attributes(alloc, notes, tables, limits, place, own, attrs)?;
    add_of_task(alloc, notes, tables.events, front, object)
}

fn add_kind<'t>(notes: &mut Notes<'t>, object: &'t OilObject) -> Result<()>
    ensures { OnOk result (Adds Oil (KindFault object.now) notes.old.items notes.new.items) }
{
    let kind = object.kind.bytes();
    let is_strange = is_nowhere(place_of(kind));
    add_named(notes, is_strange, object.line, Code::O7, kind, None)
}

// ---- all

fn add_objects<'e, 't: 'e>(
    alloc: Global,
    notes: &mut Notes<'t>,
    objects: &'t [OilObject],
    tables: &Tables<'e>,
) -> Result<()>
    requires { tables.now.counters.now ≡ tables.now.objects.now }
    ensures { OnOk result
        (Adds Oil (Somewhere (ToldObject tables.now.objects.now tables.now.scheduler tables.now.events.now) objects.now)
        notes.old.items notes.new.items) }
{
    let mut front = Front::new(alloc);
    for (number, object) in objects.iter().enumerate() {
        let own = Position::of(number);
        add_kind(notes, object)?;
        add_known_object(alloc, notes, tables, &front, own, object)?;
        front = front.with(&objects[..=number], object)?;
    }
    Ok(())
}

/// The faults that are told of a tree's objects, but those in the blocks of alarms.
pub fn add_tree<'e, 't: 'e>(
    alloc: Global,
    notes: &mut Notes<'t>,
    tree: &'t OilTree,
    tables: &Tables<'e>,
) -> Result<()>
    requires objects { tables.now.objects.now ≡ tree.now.objects }
    requires counters { tables.now.counters.now ≡ tables.now.objects.now }
    requires scheduler { tables.now.scheduler ≡ has_scheduler tree.now.objects }
    requires events { tables.now.events.now ≡ events_of tree.now.objects }
    ensures { OnOk result (Adds Oil (ToldTree tree.now) notes.old.items notes.new.items) }
{
    let objects = tree.objects.items();
    add_events(notes, objects)?;
    add_objects(alloc, notes, objects, tables)?;
    let lacking = !tables.objects.has_os();
    add_named(notes, lacking, tree.cpu_line, Code::O11, b"OS", None)
}

/// All objects of a tree, the limits of its counters, whether it has the resource of the scheduler, and its events.
#[derive(Drop)]
pub struct Tables<'t> {
    pub objects: &'t Front<'t>,
    pub counters: &'t CounterLimits<'t>,
    pub scheduler: bool,
    pub events: &'t EventTable<'t>,
}

fn tabled_notes<'e, 't: 'e>(
    alloc: Global,
    tree: &'t OilTree,
    objects: &'e Front<'e>,
    counters: &'e CounterLimits<'e>,
    tasks: &TaskEvents,
    scheduler: bool,
    events: &'e EventTable<'e>,
) -> Result<Notes<'t>>
    requires objects { objects.now ≡ tree.now.objects }
    requires counters { counters.now ≡ tree.now.objects }
    requires tasks { tasks.now ≡ tree.now.objects }
    requires scheduler { scheduler ≡ has_scheduler tree.now.objects }
    requires events { events.now ≡ events_of tree.now.objects }
    ensures { IfOk result (λ notes. AreAll Oil (ToldModel tree.now) notes.items) }
{
    let tables = Tables {
        objects,
        counters,
        scheduler,
        events,
    };
    let mut notes = Vec::new(alloc);
    add_tree(alloc, &mut notes, tree, &tables)?;
    add_alarms(alloc, &mut notes, tasks, counters, tree.objects.items())?;
    Ok(notes)
}

fn notes_with_events<'t>(
    alloc: Global,
    tree: &'t OilTree,
    event_names: &Names,
    events: &[EventDecl],
) -> Result<Notes<'t>>
    requires event_numbers { event_names.now ≡ names_of (codes "EVENT") tree.now.objects }
    requires events { events.now ≡ events_of tree.now.objects }
    ensures { IfOk result (λ notes. AreAll Oil (ToldModel tree.now) notes.items) }
{
    let objects = tree.objects.items();
    let events = EventTable::new(events, event_names);
    let table = Front::of(alloc, objects)?;
    let counters = CounterLimits::of(alloc, objects)?;
    let tasks = TaskEvents::of(alloc, objects)?;
    let scheduler = has_scheduler(objects);
    tabled_notes(alloc, tree, &table, &counters, &tasks, scheduler, &events)
}

/// The faults that are told of a tree. O11 of an object and O13 are without names.
pub fn model_notes<'t>(alloc: Global, tree: &'t OilTree) -> Result<Notes<'t>>
    ensures { IfOk result (λ notes. AreAll Oil (ToldModel tree.now) notes.items) }
{
    let objects = tree.objects.items();
    let events = events_of(alloc, objects)?;
    let event_names = names_of(alloc, objects, b"EVENT")?;
    notes_with_events(alloc, tree, &event_names, events.as_slice())
}

fn add_task_faults<'t>(
    notes: &mut Notes<'t>,
    front: &Front,
    given: bool,
    before: &References,
    attr: &'t OilAttr,
) -> Result<()>
    requires { given ≡ is_used before.now.attrs (codes "PRIORITY") }
    ensures { OnOk result
        (Adds Oil (TaskFault before.now.events front.now before.now.attrs attr.now) notes.old.items notes.new.items) }
{
    let line = attr.line;
    let repeated = repeats_priority(front, given, attr);
    add_bare(notes, repeated, line, Code::O13)?;
    let shared = before.shares_bit(attr);
    let word = value_word(&attr.value);
    add_named(notes, shared, line, Code::O15, word, None)
}

fn add_of_attributes<'e, 't: 'e>(
    alloc: Global,
    notes: &mut Notes<'t>,
    events: &'e EventTable<'e>,
    front: &Front,
    attrs: &'t [OilAttr],
) -> Result<()>
    ensures { OnOk result
        (Adds Oil (Somewhere (TaskFault events.now front.now) attrs.now) notes.old.items notes.new.items) }
{
    let mut before = References::new(alloc, events);
    let mut given = false;
    for (number, attr) in attrs.iter().enumerate() {
        add_task_faults(notes, front, given, &before, attr)?;
        given = is_given_with(given, attr);
        before = before.with(&attrs[..=number], attr)?;
    }
    Ok(())
}

/// O13 and O15 of the attributes of an object, if it is a task.
pub fn add_of_task<'e, 't: 'e>(
    alloc: Global,
    notes: &mut Notes<'t>,
    events: &'e EventTable<'e>,
    front: &Front,
    object: &'t OilObject,
) -> Result<()>
    ensures { OnOk result (Adds Oil (TaskFaults events.now front.now object.now) notes.old.items notes.new.items) }
{
    if is_of_kind(object, b"TASK") {
        return add_of_attributes(alloc, notes, events, front, object.attrs.items());
    }
    Ok(())
}

/// O15 of the events that find no free bit.
pub fn add_events<'t>(notes: &mut Notes<'t>, objects: &'t [OilObject]) -> Result<()>
    ensures { OnOk result (Adds Oil (Somewhere (BitFault objects.now) objects.now) notes.old.items notes.new.items) }
{
    let mut taken = number_masks(objects);
    for object in objects {
        let name = object.name.bytes();
        let lacks = lacks_bit(taken, object);
        add_named(notes, lacks, object.line, Code::O15, name, None)?;
        taken = taken_more(taken, object);
    }
    Ok(())
}
