//! The least fault of a tree. The faults of an attribute of a task that rest on other tasks and on events.
//! The task that a block of an alarm names. The faults of an attribute by the attribute table.
ghost use Rattle.std.specs.Prelude.{◌≡◌, IfOk, codes, true, ◌&&◌, ◌||◌, not, is_none};
ghost use Rattle.sloth_base.specs.Search.{IsSearchResult, Somewhere};
ghost use Rattle.oil_table.specs.Objects.{has_scheduler, names_of, is_use, is_used, number_of, object_named};
ghost use Rattle.oil_table.specs.Events.{events_of};
ghost use Rattle.oil_rules.specs.ObjectFaults.{is_known};
ghost use Rattle.oil_rules.specs.TreeFaults.{TaskFaults, KnownObjectFault, ObjectFault};
ghost use Rattle.oil_rules.specs.ModelFaults.{ModelFault};
ghost use Rattle.oil_rules.specs.TaskFaults.{is_taken, TaskFault};
ghost use Rattle.oil_rules.specs.Blocks.{first_in};
ghost use Rattle.oil_rules.specs.AlarmFaults.{leaves_out, is_left_out};
ghost use Rattle.oil_rules.specs.AttributeFaults.{opened_place, place_by, refers_to_none, is_refused, RowFault, AttributeFault};

use crate::blocks::faults_of_alarms;
use crate::front::{kind_fault, known_fault};
use crate::{Front, References, first_in};
use oil_parse::{OilAttr, OilObject, OilTree, OilValue};
use oil_table::{
    Attribute, EarlierUses, EventTable, Place, TaskEvents, allows, attribute_of, block_place,
    events_without_bit, is_nowhere, is_of_kind, is_second, is_use, number_of, place_of,
};
use sloth_base::refusal::{fault_if, merge};
use sloth_base::{Code, EventDecl, Part, Refusal, Result};
use std::alloc::Global;
use std::marker::Model;
use text_pieces::{Names, same};

/// The least refusal that was found, or none.
pub type Verdict = Result<Option<Refusal>>;

fn fault_of_known(
    alloc: Global,
    table: &Front,
    scheduler: bool,
    events: &EventTable,
    front: &Front,
    object: &OilObject,
) -> Verdict
    ensures { IfOk result (IsSearchResult (λ r. (is_known object.now ≡ true)
        × KnownObjectFault table.now scheduler events.now front.now object.now r)) }
{
    let place = place_of(object.kind.bytes());
    if is_nowhere(place) {
        return Ok(None);
    }
    let known = known_fault(scheduler, front, object);
    let attributes = attribute_faults(alloc, table, scheduler, place, object.attrs.items())?;
    let of_task = task_faults(alloc, events, front, object)?;
    Ok(merge(known, merge(attributes, of_task)))
}

fn object_faults(
    alloc: Global,
    objects: &[OilObject],
    table: &Front,
    scheduler: bool,
    events: &EventTable,
) -> Verdict
    ensures { IfOk result (IsSearchResult (Somewhere (ObjectFault table.now scheduler events.now) objects.now)) }
{
    let mut front = Front::new(alloc);
    let mut least = None;
    for (number, object) in objects.iter().enumerate() {
        let known = fault_of_known(alloc, table, scheduler, events, &front, object)?;
        least = merge(least, merge(kind_fault(object), known));
        front = front.with(&objects[..=number], object)?;
    }
    Ok(least)
}

/// The least fault of a tree with these events, O7 to O15.
pub fn judge(
    alloc: Global,
    tree: &OilTree,
    scheduler: bool,
    event_names: &Names,
    events: &[EventDecl],
) -> Verdict
    requires scheduler { scheduler ≡ has_scheduler tree.now.objects }
    requires event_numbers { event_names.now ≡ names_of (codes "EVENT") tree.now.objects }
    requires events { events.now ≡ events_of tree.now.objects }
    ensures { IfOk result (IsSearchResult (ModelFault tree.now)) }
{
    let objects = tree.objects.items();
    let events = EventTable::new(events, event_names);
    let table = Front::of(alloc, objects)?;
    let of_objects = object_faults(alloc, objects, &table, scheduler, &events)?;
    let without_os = fault_if(!table.has_os(), Part::Oil, tree.cpu_line, Code::O11);
    let of_tree = merge(of_objects, merge(events_without_bit(objects), without_os));
    let of_alarms = faults_of_alarms(alloc, objects)?;
    Ok(merge(of_tree, of_alarms))
}

/// O13: the attribute is the priority of the task, and an earlier task has it.
pub fn repeats_priority(front: &Front, given: bool, attr: &OilAttr) -> bool
    ensures { result
        ≡ ((is_use (codes "PRIORITY") attr.now && not given) && is_taken front.now (number_of attr.now.value)) }
{
    if !is_use(attr, b"PRIORITY") {
        return false;
    }
    if given {
        return false;
    }
    match number_of(&attr.value) {
        Some(priority) => front.has_priority(priority),
        None => false,
    }
}

/// Whether a priority was given, or this attribute gives one.
pub fn is_given_with(given: bool, attr: &OilAttr) -> bool
    ensures { result ≡ (given || is_use (codes "PRIORITY") attr.now) }
{
    given || is_use(attr, b"PRIORITY")
}

fn task_fault(front: &Front, given: bool, before: &References, attr: &OilAttr) -> Option<Refusal>
    requires { given ≡ is_used before.now.attrs (codes "PRIORITY") }
    ensures { IsSearchResult (TaskFault before.now.events front.now before.now.attrs attr.now) result }
{
    let repeated = repeats_priority(front, given, attr);
    let repeated = fault_if(repeated, Part::Oil, attr.line, Code::O13);
    let shared = fault_if(before.shares_bit(attr), Part::Oil, attr.line, Code::O15);
    merge(repeated, shared)
}

// O13 and O15 of the attributes of a task.
fn task_faults<'t>(
    alloc: Global,
    events: &'t EventTable<'t>,
    front: &Front,
    object: &'t OilObject,
) -> Verdict
    ensures { IfOk result (IsSearchResult (TaskFaults events.now front.now object.now)) }
{
    if !is_of_kind(object, b"TASK") {
        return Ok(None);
    }
    let attrs = object.attrs.items();
    let mut before = References::new(alloc, events);
    let mut given = false;
    let mut least = None;
    for (number, attr) in attrs.iter().enumerate() {
        least = merge(least, task_fault(front, given, &before, attr));
        given = is_given_with(given, attr);
        before = before.with(&attrs[..=number], attr)?;
    }
    Ok(least)
}

/// The attributes of a block, and the number of the task that the first TASK among them names.
#[derive(Drop)]
pub struct NamedTask<'t> {
    tasks: &'t TaskEvents<'t>,
    inner: &'t [OilAttr],
    number: Option<usize>,
}

impl<'t> Model for NamedTask<'t> {
    ghost use Rattle.std.specs.Prelude.{◌≡◌};
    ghost use Rattle.oil_rules.specs.Blocks.{ActionBlock, task_in};

    ghost Value = { ActionBlock };

    ghost view = { λ block. record { objects = block.tasks.now; inner = block.inner.now } };

    ghost invariant = { λ block. block.number ≡ task_in block.tasks.now block.inner.now };
}

impl<'t> NamedTask<'t> {
    /// These attributes of a block.
    pub fn new(tasks: &'t TaskEvents<'t>, inner: &'t [OilAttr]) -> NamedTask<'t>
        ensures { result ≡ record { objects = tasks.now; inner = inner.now } }
    {
        NamedTask {
            tasks,
            inner,
            number: tasks.number_named(first_in(inner, b"TASK")),
        }
    }

    /// The attributes.
    pub fn inner(&self) -> &'t [OilAttr]
        ensures { result.now ≡ self.now.inner }
    {
        self.inner
    }

    fn leaves_out_word(&self, word: &[u8]) -> bool
        ensures { result ≡ leaves_out
            (object_named self.now.objects (codes "TASK") (first_in self.now.inner (codes "TASK"))) word.now }
    {
        match self.number {
            Some(number) => !self.tasks.lists(number, word),
            None => false,
        }
    }

    /// Whether there is such a task, and it does not list the event that a value names.
    pub fn leaves_out(&self, value: &OilValue) -> bool
        ensures { result ≡ is_left_out self.now.objects self.now.inner value.now }
    {
        match value {
            OilValue::Word(word) => self.leaves_out_word(word.bytes()),
            _ => false,
        }
    }
}

/// The place of the block behind an attribute of the own block; else as before.
pub fn opened(place: Place, inner: Place, attr: &OilAttr) -> Place
    ensures { result ≡ opened_place place inner attr.now }
{
    if attr.depth == 0 {
        block_place(place, attr)
    } else {
        inner
    }
}

/// The place in which an attribute stands, by its depth.
pub fn place_by(place: Place, inner: Place, attr: &OilAttr) -> Place
    ensures { result ≡ place_by place inner attr.now }
{
    match attr.depth {
        0 => place,
        1 => inner,
        _ => Place::Nowhere,
    }
}

/// O8: the table has no row of this attribute.
pub fn is_unlisted(row: Option<Attribute>) -> bool
    ensures { result ≡ is_none row }
{
    row.is_none()
}

/// O10: the value is a word that names no object of the kind.
pub fn refers_to_none(
    objects: &Front,
    scheduler: bool,
    row: Option<Attribute>,
    value: &OilValue,
) -> bool
    ensures { result ≡ refers_to_none objects.now scheduler row value.now }
{
    let Some(attribute) = row else {
        return false;
    };
    let OilValue::Word(word) = value else {
        return false;
    };
    let word = word.bytes();
    match attribute {
        Attribute::Mode => !same(word, b"OSDEFAULTAPPMODE"),
        Attribute::Resource => {
            !(scheduler && same(word, b"RES_SCHEDULER")) && !objects.has(b"RESOURCE", word)
        }
        Attribute::Event | Attribute::ActionEvent => !objects.has(b"EVENT", word),
        Attribute::ActionTask => !objects.has(b"TASK", word),
        Attribute::Counter => !objects.has(b"COUNTER", word),
        _ => false,
    }
}

/// O12: the value is none that the row allows.
pub fn is_refused(row: Option<Attribute>, value: &OilValue) -> bool
    ensures { result ≡ is_refused row value.now }
{
    row.is_some_and(|attribute| !allows(attribute, value))
}

fn row_fault(
    objects: &Front,
    scheduler: bool,
    row: Option<Attribute>,
    before: &EarlierUses,
    attr: &OilAttr,
) -> Option<Refusal>
    requires { before.now.depth ≡ 0 }
    ensures { IsSearchResult (RowFault objects.now scheduler row before.now.attrs attr.now) result }
{
    let line = attr.line;
    let unknown = fault_if(is_unlisted(row), Part::Oil, line, Code::O8);
    let second = fault_if(is_second(row, before, attr), Part::Oil, line, Code::O9);
    let missing = refers_to_none(objects, scheduler, row, &attr.value);
    let missing = fault_if(missing, Part::Oil, line, Code::O10);
    let refused = fault_if(is_refused(row, &attr.value), Part::Oil, line, Code::O12);
    merge(unknown, merge(second, merge(missing, refused)))
}

/// O8, O9, O10 and O12 of the attributes of an object.
pub fn attribute_faults(
    alloc: Global,
    objects: &Front,
    scheduler: bool,
    place: Place,
    attrs: &[OilAttr],
) -> Verdict
    ensures { IfOk result (IsSearchResult (Somewhere (AttributeFault objects.now scheduler place) attrs.now)) }
{
    let mut before = EarlierUses::new(alloc, 0);
    let mut inner = Place::Nowhere;
    let mut least = None;
    for (number, attr) in attrs.iter().enumerate() {
        let row = attribute_of(place_by(place, inner, attr), attr.name.bytes());
        least = merge(least, row_fault(objects, scheduler, row, &before, attr));
        inner = opened(place, inner, attr);
        before = before.with(&attrs[..=number], attr)?;
    }
    Ok(least)
}
