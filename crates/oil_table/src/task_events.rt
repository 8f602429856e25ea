//! The events that tasks list.
ghost use Rattle.std.specs.Prelude.{◌≡◌, ◌||◌, ◌&&◌, ◌==◌, ℕ, List, [], ◌∷◌, ◌++◌, IfOk, OnOk, option_copied};
ghost use Rattle.std.specs.List.{list_any};
ghost use Rattle.oil_table.specs.ListedEvents.{event_word, lists_event, tasks_among, attrs_at, is_listing, task_of};

use crate::{insert, is_of_kind, is_use};
use indexmap::IndexSet;
use oil_parse::{OilAttr, OilObject, OilValue};
use sloth_base::Result;
use std::alloc::Global;
use std::marker::Model;
use text_pieces::Names;

// Events that are listed, each with the number of its task.
type Listed<'t> = IndexSet<(usize, &'t [u8])>;

/// The tasks among some objects, found by their names, and the events that they list, each with the number of its task.
pub struct TaskEvents<'t> {
    objects: &'t [OilObject],
    names: Names<'t>,
    listed: Listed<'t>,
}

// Written out: what is derived is proved anew wherever a value is let go.
impl Drop for TaskEvents<'_> {
    fn drop(self) {
        let TaskEvents {
            objects: _,
            names: _,
            listed: _,
        } = self;
    }
}

impl<'t> Model for TaskEvents<'t> {
    ghost use Rattle.std.specs.Prelude.{List};
    ghost use Rattle.oil_parse.specs.declared.tree.OilObject.{OilObject};
    ghost use Rattle.oil_table.specs.ListedEvents.{AreTasks};

    ghost Value = { List OilObject };

    ghost view = { λ tasks. tasks.objects.now };

    ghost invariant = { λ tasks. AreTasks tasks.objects.now tasks.names tasks.listed };
}

/// The event that an attribute refers to.
pub fn event_word<'t>(attr: &'t OilAttr) -> Option<&'t [u8]>
    ensures { option_copied result ≡ event_word attr.now }
{
    match &attr.value {
        OilValue::Word(word) if is_use(attr, b"EVENT") => Some(word.bytes()),
        _ => None,
    }
}

fn add_event<'t>(listed: &mut Listed<'t>, task: usize, attr: &'t OilAttr) -> Result<()>
    ensures { OnOk result ((number : ℕ) (word : List ℕ) → list_any (is_listing number word) listed.new.keys
        ≡ (list_any (is_listing number word) listed.old.keys || ((task == number) && lists_event word attr.now))) }
{
    let Some(word) = event_word(attr) else {
        return Ok(());
    };
    insert(listed, (task, word))?;
    Ok(())
}

fn add_events<'t>(listed: &mut Listed<'t>, task: usize, attrs: &'t [OilAttr]) -> Result<()>
    ensures { OnOk result ((number : ℕ) (word : List ℕ) → list_any (is_listing number word) listed.new.keys ≡ (list_any
        (is_listing number word) listed.old.keys || ((task == number) && list_any (lists_event word) attrs.now))) }
{
    for attr in attrs {
        add_event(listed, task, attr)?;
    }
    Ok(())
}

impl<'t> TaskEvents<'t> {
    fn with(self, objects: &'t [OilObject], object: &'t OilObject) -> Result<TaskEvents<'t>>
        requires { objects.now ≡ self ++ object.now ∷ [] }
        ensures { IfOk result (λ tasks. tasks ≡ objects.now) }
    {
        let TaskEvents {
            objects: _,
            names,
            mut listed,
        } = self;
        if !is_of_kind(object, b"TASK") {
            return Ok(TaskEvents {
                objects,
                names,
                listed,
            });
        }
        add_events(&mut listed, names.count(), object.attrs.items())?;
        let names = names.with(object.name.bytes())?;
        Ok(TaskEvents {
            objects,
            names,
            listed,
        })
    }

    /// The tasks among these objects.
    pub fn of(alloc: Global, objects: &'t [OilObject]) -> Result<TaskEvents<'t>>
        ensures { IfOk result (λ tasks. tasks ≡ objects.now) }
    {
        let mut tasks = TaskEvents {
            objects: &[],
            names: Names::new(alloc),
            listed: IndexSet::new(alloc),
        };
        for (number, object) in objects.iter().enumerate() {
            tasks = tasks.with(&objects[..=number], object)?;
        }
        Ok(tasks)
    }

    /// The number of the task that an attribute names.
    pub fn number_named(&self, attr: Option<&OilAttr>) -> Option<usize>
        ensures { result ≡ task_of self.now (option_copied attr.entry) }
    {
        match &attr?.value {
            OilValue::Word(word) => self.names.number(word.bytes()),
            _ => None,
        }
    }

    /// Whether the task of this number lists the event.
    pub fn lists(&self, task: usize, word: &[u8]) -> bool
        ensures { result ≡ list_any (lists_event word.now) (attrs_at (tasks_among self.now) task) }
    {
        self.listed.contains(&(task, word))
    }
}
