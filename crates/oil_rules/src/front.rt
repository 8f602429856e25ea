//! The objects before one, and what of them bears on it. The faults of an object as a whole.
ghost use Rattle.std.specs.Prelude.{◌≡◌, ◌+◌, ◌<◌, ◌&&◌, ◌||◌, ◌==◌, ℕ, List, [], ◌∷◌, ◌++◌, if◌then◌else◌, IfOk, OnOk, bytes_eq, codes, count_by};
ghost use Rattle.std.specs.List.{list_any};
ghost use Rattle.oil_table.specs.Objects.{is_declaration, is_declared, is_of_kind};
ghost use Rattle.oil_rules.specs.TaskFaults.{has_priority};
ghost use Rattle.sloth_base.specs.Search.{IsSearchResult};
ghost use Rattle.oil_rules.specs.ObjectFaults.{is_double_of, is_doubled, lacks_attribute, is_strange_mode, is_above, KindFault, KnownFault};

use indexmap::IndexSet;
use oil_parse::OilObject;
use oil_table::{
    comes_behind, declares, first_number, insert, is_clock_more, is_nowhere, is_of_kind, is_used,
    place_of,
};
use sloth_base::refusal::{fault_if, merge};
use sloth_base::{
    Code, EVENT_LIMIT, NAME_LIMIT, Part, RESOURCE_LIMIT, Refusal, Result, TASK_LIMIT,
};
use std::alloc::Global;
use std::marker::Model;
use text_pieces::same;

/// The objects before one: their kinds and names, the priorities of the tasks, and how many there are of a kind.
pub struct Front<'t> {
    objects: &'t [OilObject],
    names: IndexSet<(&'t [u8], &'t [u8])>,
    priorities: IndexSet<u32>,
    tasks: usize,
    resources: usize,
    events: usize,
    counters: usize,
    alarms: usize,
    has_os: bool,
}

// Written out: what is derived is proved anew wherever a value is let go.
impl Drop for Front<'_> {
    fn drop(self) {
        let Front {
            objects: _,
            names: _,
            priorities: _,
            tasks: _,
            resources: _,
            events: _,
            counters: _,
            alarms: _,
            has_os: _,
        } = self;
    }
}

impl<'t> Model for Front<'t> {
    ghost use Rattle.std.specs.Prelude.{◌≡◌, List, codes, count_by};
    ghost use Rattle.oil_parse.specs.declared.tree.OilObject.{OilObject};
    ghost use Rattle.oil_table.specs.Objects.{is_of_kind};
    ghost use Rattle.oil_rules.specs.Fronts.{IsFront};

    ghost Value = { List OilObject };

    ghost view = { λ front. front.objects.now };

    ghost invariant = { λ front. IsFront front.objects.now front.names front.priorities front.tasks front.resources
        front.events front.counters front.alarms front.has_os };
}

impl<'t> Front<'t> {
    /// No objects.
    pub fn new(alloc: Global) -> Front<'t>
        ensures { result ≡ [] }
    {
        Front {
            objects: &[],
            names: IndexSet::new(alloc),
            priorities: IndexSet::new(alloc),
            tasks: 0,
            resources: 0,
            events: 0,
            counters: 0,
            alarms: 0,
            has_os: false,
        }
    }

    /// One object more.
    pub fn with(self, objects: &'t [OilObject], object: &'t OilObject) -> Result<Front<'t>>
        requires { objects.now ≡ self ++ object.now ∷ [] }
        ensures { IfOk result (λ front. front ≡ objects.now) }
    {
        let Front {
            objects: _,
            mut names,
            mut priorities,
            tasks,
            resources,
            events,
            counters,
            alarms,
            has_os,
        } = self;
        add(&mut names, &mut priorities, object)?;
        Ok(Front {
            objects,
            names,
            priorities,
            tasks: more(tasks, object, b"TASK"),
            resources: more(resources, object, b"RESOURCE"),
            events: more(events, object, b"EVENT"),
            counters: more(counters, object, b"COUNTER"),
            alarms: more(alarms, object, b"ALARM"),
            has_os: or_os(has_os, object),
        })
    }

    /// These objects.
    pub fn of(alloc: Global, objects: &'t [OilObject]) -> Result<Front<'t>>
        ensures { IfOk result (λ front. front ≡ objects.now) }
    {
        let mut front = Front::new(alloc);
        for (number, object) in objects.iter().enumerate() {
            front = front.with(&objects[..=number], object)?;
        }
        Ok(front)
    }

    /// Whether one of the objects is of this kind and name.
    pub fn has(&self, kind: &[u8], name: &[u8]) -> bool
        ensures { result ≡ is_declared self.now kind.now name.now }
    {
        self.names.contains(&(kind, name))
    }

    /// Whether one of the tasks has this priority.
    pub fn has_priority(&self, priority: u32) -> bool
        ensures { result ≡ list_any (has_priority priority) self.now }
    {
        self.priorities.contains(&priority)
    }

    /// Whether one of the objects is of the kind OS.
    pub fn has_os(&self) -> bool
        ensures { result ≡ list_any (is_of_kind (codes "OS")) self.now }
    {
        self.has_os
    }

    /// How many are tasks.
    pub fn tasks(&self) -> usize
        ensures { result ≡ count_by (is_of_kind (codes "TASK")) self.now }
    {
        self.tasks
    }

    /// How many are resources.
    pub fn resources(&self) -> usize
        ensures { result ≡ count_by (is_of_kind (codes "RESOURCE")) self.now }
    {
        self.resources
    }

    /// How many are events.
    pub fn events(&self) -> usize
        ensures { result ≡ count_by (is_of_kind (codes "EVENT")) self.now }
    {
        self.events
    }

    /// How many are counters.
    pub fn counters(&self) -> usize
        ensures { result ≡ count_by (is_of_kind (codes "COUNTER")) self.now }
    {
        self.counters
    }

    /// How many are alarms.
    pub fn alarms(&self) -> usize
        ensures { result ≡ count_by (is_of_kind (codes "ALARM")) self.now }
    {
        self.alarms
    }
}

fn more(count: usize, object: &OilObject, kind: &[u8]) -> usize
    requires { count < usize.MAX }
    ensures { result ≡ count + (if is_of_kind kind.now object.now then 1 else 0) }
{
    count + usize::from(is_of_kind(object, kind))
}

fn or_os(has_os: bool, object: &OilObject) -> bool
    ensures { result ≡ (has_os || is_of_kind (codes "OS") object.now) }
{
    has_os || is_of_kind(object, b"OS")
}

fn add_name<'t>(names: &mut IndexSet<(&'t [u8], &'t [u8])>, object: &'t OilObject) -> Result<()>
    ensures { OnOk result ((kind name : List ℕ) → list_any (λ k. bytes_eq k.0.now kind && bytes_eq k.1.now name)
        names.new.keys ≡ (list_any (λ k. bytes_eq k.0.now kind && bytes_eq k.1.now name) names.old.keys
        || is_declaration kind name object.now)) }
{
    insert(names, (object.kind.bytes(), object.name.bytes()))
}

fn add<'t>(
    names: &mut IndexSet<(&'t [u8], &'t [u8])>,
    priorities: &mut IndexSet<u32>,
    object: &'t OilObject,
) -> Result<()>
    ensures names { OnOk result ((kind name : List ℕ) → list_any (λ k. bytes_eq k.0.now kind && bytes_eq k.1.now name)
        names.new.keys ≡ (list_any (λ k. bytes_eq k.0.now kind && bytes_eq k.1.now name) names.old.keys
        || is_declaration kind name object.now)) }
    ensures priorities { OnOk result ((priority : ℕ) → list_any (λ given. given == priority) priorities.new.keys
        ≡ (list_any (λ given. given == priority) priorities.old.keys || has_priority priority object.now)) }
{
    add_name(names, object)?;
    if !is_of_kind(object, b"TASK") {
        return Ok(());
    }
    let Some(priority) = first_number(object.attrs.items(), b"PRIORITY") else {
        return Ok(());
    };
    insert(priorities, priority)?;
    Ok(())
}

fn is_second_os(front: &Front, object: &OilObject) -> bool
    ensures { result ≡ (is_of_kind (codes "OS") object.now && list_any (is_of_kind (codes "OS")) front.now) }
{
    is_of_kind(object, b"OS") && front.has_os()
}

fn is_second(front: &Front, object: &OilObject) -> bool
    ensures { result ≡ list_any (is_double_of object.now) front.now }
{
    front.has(object.kind.bytes(), object.name.bytes()) || is_second_os(front, object)
}

/// O9: an earlier object has its name, or it is a second OS, or a RES_SCHEDULER beside that of the system.
pub fn is_doubled(scheduler: bool, front: &Front, object: &OilObject) -> bool
    ensures { result ≡ is_doubled scheduler front.now object.now }
{
    let name = object.name.bytes();
    is_second(front, object)
        || (is_of_kind(object, b"TASK") && front.has(b"COUNTER", name))
        || (is_of_kind(object, b"COUNTER") && front.has(b"TASK", name))
        || (scheduler && declares(object, b"RESOURCE", b"RES_SCHEDULER"))
}

/// O11: it lacks an attribute that its kind must have.
pub fn lacks_attribute(object: &OilObject) -> bool
    ensures { result ≡ lacks_attribute object.now }
{
    let attrs = object.attrs.items();
    (is_of_kind(object, b"TASK")
        && !(is_used(attrs, b"PRIORITY")
            && is_used(attrs, b"SCHEDULE")
            && is_used(attrs, b"ACTIVATION")
            && is_used(attrs, b"AUTOSTART")))
        || (is_of_kind(object, b"COUNTER") && !is_used(attrs, b"MAXALLOWEDVALUE"))
        || (is_of_kind(object, b"ALARM")
            && !(is_used(attrs, b"COUNTER") && is_used(attrs, b"ACTION")))
}

/// O12: an application mode other than OSDEFAULTAPPMODE.
pub fn is_strange_mode(object: &OilObject) -> bool
    ensures { result ≡ is_strange_mode object.now }
{
    is_of_kind(object, b"APPMODE") && !same(object.name.bytes(), b"OSDEFAULTAPPMODE")
}

/// O14: one object too many of its kind, or a long name.
pub fn is_above(front: &Front, object: &OilObject) -> bool
    ensures { result ≡ is_above front.now object.now }
{
    comes_behind(b"TASK", TASK_LIMIT, front.tasks(), object)
        || comes_behind(b"RESOURCE", RESOURCE_LIMIT, front.resources(), object)
        || comes_behind(b"EVENT", EVENT_LIMIT, front.events(), object)
        || is_clock_more(front.counters(), front.alarms(), object)
        || NAME_LIMIT < object.name.bytes().len()
}

/// O7: an object of no kind.
pub fn kind_fault(object: &OilObject) -> Option<Refusal>
    ensures { IsSearchResult (KindFault object.now) result }
{
    let unknown = is_nowhere(place_of(object.kind.bytes()));
    fault_if(unknown, Part::Oil, object.line, Code::O7)
}

/// O9, O11, O12 and O14 of an object of a kind.
pub fn known_fault(scheduler: bool, front: &Front, object: &OilObject) -> Option<Refusal>
    ensures { IsSearchResult (KnownFault scheduler front.now object.now) result }
{
    let line = object.line;
    let doubled = is_doubled(scheduler, front, object);
    let doubled = fault_if(doubled, Part::Oil, line, Code::O9);
    let lacking = fault_if(lacks_attribute(object), Part::Oil, line, Code::O11);
    let strange = fault_if(is_strange_mode(object), Part::Oil, line, Code::O12);
    let above = fault_if(is_above(front, object), Part::Oil, line, Code::O14);
    merge(doubled, merge(lacking, merge(strange, above)))
}
