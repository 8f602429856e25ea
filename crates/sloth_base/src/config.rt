//! A configuration: what an OIL text declares (OIL 2.5). The names of what a configuration and task code declare.
ghost use Rattle.std.specs.Prelude.{◌≡◌, IfOk};
ghost use Rattle.sloth_base.specs.DeclaredNames.{AreNamesOf, counter_names, function_names, task_names};

use crate::{App, List, Name, NoMemory, ResId, TaskId, push};
use std::alloc::Global;

/// A TASK object.
#[derive(Drop)]
pub struct TaskDecl {
    pub name: Name,
    /// The static priority; a greater number is a higher priority.
    pub priority: u32,
    /// It has events, so it may wait.
    pub extended: bool,
    /// Its SCHEDULE is NON: it runs at the highest task priority.
    pub non: bool,
    /// It is activated as the system starts.
    pub autostart: bool,
    /// The resources that it lists.
    pub resources: List<ResId>,
    /// The mask of its events, 0 exactly for a basic task.
    pub events: u32,
}

/// An EVENT object.
#[derive(Drop)]
pub struct EventDecl {
    pub name: Name,
    pub mask: u32,
}

/// A COUNTER object.
#[derive(Drop)]
pub struct CounterDecl {
    pub name: Name,
    /// Its greatest value, behind which comes 0.
    pub max: u32,
    /// The least cycle of an alarm that is not 0.
    pub min_cycle: u32,
}

/// What an alarm does as it expires.
#[derive(Clone, Copy)]
pub enum Action {
    /// It activates a task.
    Activate(TaskId),
    /// It sets the events of this mask of a task.
    Set(TaskId, u32),
}

/// An ALARM object.
#[derive(Drop)]
pub struct AlarmDecl {
    pub name: Name,
    /// The number of its counter.
    pub counter: u32,
    pub action: Action,
    /// The ticks to its first expiry as the system starts, 0 where it does not start by itself.
    pub time: u32,
    /// The ticks from one expiry to the next, 0 where it expires once.
    pub cycle: u32,
}

/// A configuration.
pub struct Config {
    /// The tasks, in the order of their numbers.
    pub tasks: List<TaskDecl>,
    /// The resources, in the order of their numbers, without RES_SCHEDULER.
    pub resources: List<Name>,
    pub events: List<EventDecl>,
    /// RES_SCHEDULER exists.
    pub res_scheduler: bool,
    /// The counters, in the order of their numbers.
    pub counters: List<CounterDecl>,
    /// The alarms, in the order of their numbers.
    pub alarms: List<AlarmDecl>,
}

// Written out: what is derived is proved anew wherever a value is let go.
impl Drop for Config {
    fn drop(self) {
        let Config {
            tasks: _,
            resources: _,
            events: _,
            res_scheduler: _,
            counters: _,
            alarms: _,
        } = self;
    }
}

/// The names of the tasks, the functions and the counters.
#[derive(Drop)]
pub struct DeclaredNames {
    pub tasks: List<Name>,
    pub funcs: List<Name>,
    pub counters: List<Name>,
}

/// The names of the tasks.
pub fn task_names(alloc: Global, config: &Config) -> Result<List<Name>, NoMemory>
    ensures { IfOk result (λ names. names ≡ task_names config.now) }
{
    let mut names = Vec::new(alloc);
    for task in config.tasks.items() {
        push(&mut names, Name::new(alloc, task.name.bytes())?)?;
    }
    Ok(List::from_vec(names))
}

/// The names of the counters.
pub fn counter_names(alloc: Global, config: &Config) -> Result<List<Name>, NoMemory>
    ensures { IfOk result (λ names. names ≡ counter_names config.now) }
{
    let mut names = Vec::new(alloc);
    for counter in config.counters.items() {
        push(&mut names, Name::new(alloc, counter.name.bytes())?)?;
    }
    Ok(List::from_vec(names))
}

/// The names of the functions.
pub fn function_names(alloc: Global, app: &App) -> Result<List<Name>, NoMemory>
    ensures { IfOk result (λ names. names ≡ function_names app.now) }
{
    let mut names = Vec::new(alloc);
    for func in app.funcs.items() {
        push(&mut names, Name::new(alloc, func.name.bytes())?)?;
    }
    Ok(List::from_vec(names))
}

/// All of these.
pub fn declared_names(alloc: Global, config: &Config, app: &App) -> Result<DeclaredNames, NoMemory>
    ensures { IfOk result (AreNamesOf config.now app.now) }
{
    let tasks = task_names(alloc, config)?;
    let funcs = function_names(alloc, app)?;
    let counters = counter_names(alloc, config)?;
    Ok(DeclaredNames {
        tasks,
        funcs,
        counters,
    })
}
