//! The system as it stands, with room for all that it may become. Ticks of counters.
ghost use Rattle.std.specs.Prelude.{◌≡◌, ◌<◌, length, map, true, false, IfOk, ◌≤◌, ℕ};
ghost use Rattle.sloth_base.specs.Limits.{task_limit};
ghost use Rattle.osek_scheduler.specs.State.{alarm, counter, no_counter, opening, sleeping_task, task, with_alarm, with_counter};
ghost use Rattle.osek_scheduler.specs.declared.state.TaskState.TheVariants as mode;
ghost use Rattle.osek_scheduler.specs.Steps.{admitted_state, autostarted_tasks, settled_state};
ghost use Rattle.osek_scheduler.specs.Services.{if_suspended, counted_on_state, ticked_state};
ghost use Rattle.osek_machine.specs.Changes.{HasChangeRoom};
ghost use Rattle.osek_machine.specs.Plans.{HasOther, HasPlanRoom, planned_system, is_inside, load_of, with_other};
ghost use Rattle.osek_scheduler.specs.Changes.{with_change};
ghost use Rattle.sloth_base.specs.Named.{alarm_declaration};
ghost use Rattle.osek_machine.specs.Clocked.{IsClocked, NamesTask};
ghost use Rattle.osek_machine.specs.Ticks.{acted_system, alarm_ticked_system, alarms_ticked_system, ticked_system};

use crate::room::TaskRoom;
use osek_scheduler::{
    Alarm, Counter, Data, Fresh, Other, Plan, TaskChange, TaskState, width_bytes,
};
use sloth_base::{Action, App, Config, NoMemory, Result, Width};
use std::alloc::{AllocError, Global};
use std::marker::Model;

// A counter as the system starts, and one that is not declared.
const RESTING: Counter = Counter {
    value: 0,
    due: false,
};

/// The tasks, the data, the counters and the alarms as they stand.
#[derive(Drop)]
pub struct Store {
    tasks: Vec<TaskRoom>,
    symbols: Vec<Data>,
    booted: bool,
    fresh: Fresh,
    counters: Vec<Counter>,
    alarms: Vec<Alarm>,
}

impl Model for Store {
    ghost use Rattle.osek_scheduler.specs.State.{System};

    ghost Value = { System };

    ghost view = { λ s. record {
      tasks = s.tasks.items;
      symbols = s.symbols.items;
      booted = s.booted;
      fresh = s.fresh;
      clock = record { counters = s.counters.items; alarms = s.alarms.items };
    } };
}

fn sleeping_tasks(alloc: Global, config: &Config) -> Result<Vec<TaskRoom>>
    ensures { IfOk result (λ tasks. tasks.items ≡ map (λ _. sleeping_task) config.now.tasks) }
{
    let mut tasks = Vec::new(alloc);
    for _task in config.tasks.items() {
        tasks.push(TaskRoom::new(alloc)?).map_err(|_| NoMemory)?;
    }
    Ok(tasks)
}

fn declared_data(alloc: Global, app: &App) -> Result<Vec<Data>>
    ensures { IfOk result (λ symbols. symbols.items ≡ map (λ y. y.bytes) app.now.symbols) }
{
    let mut symbols = Vec::new(alloc);
    for symbol in app.symbols.items() {
        symbols
            .push(Data::new(alloc, symbol.bytes.items())?)
            .map_err(|_| NoMemory)?;
    }
    Ok(symbols)
}

fn resting_counters(alloc: Global, config: &Config) -> Result<Vec<Counter>, AllocError>
    ensures { IfOk result (λ counters. counters.items ≡ map (λ _. no_counter) config.now.counters) }
{
    let mut counters = Vec::new(alloc);
    for _counter in config.counters.items() {
        counters.push(RESTING)?;
    }
    Ok(counters)
}

fn declared_alarms(alloc: Global, config: &Config) -> Result<Vec<Alarm>, AllocError>
    ensures { IfOk result (λ alarms. alarms.items ≡ map (λ d. record { left = d.time; cycle = d.cycle })
        config.now.alarms) }
{
    let mut alarms = Vec::new(alloc);
    for alarm in config.alarms.items() {
        let (left, cycle) = (alarm.time, alarm.cycle);
        alarms.push(Alarm { left, cycle })?;
    }
    Ok(alarms)
}

fn autostart(tasks: &mut [TaskRoom], config: &Config)
    requires { length config.now.tasks ≡ length tasks.old }
    ensures { tasks.new ≡ autostarted_tasks config.now.tasks tasks.old }
{
    for t in 0..tasks.len() {
        if config.tasks.items()[t].autostart {
            tasks[t].apply(&TaskChange::Activate);
        }
    }
}

/// Whether a task in this state is Suspended.
pub fn is_suspended(state: TaskState) -> bool
    ensures { result ≡ if_suspended state true false }
{
    matches!(state, TaskState::Suspended)
}

impl Store {
    /// Before the system has started.
    pub fn opening(alloc: Global, config: &Config, app: &App) -> Result<Store>
        ensures { IfOk result (λ s. s ≡ opening config.now app.now) }
    {
        Ok(Store {
            tasks: sleeping_tasks(alloc, config)?,
            symbols: declared_data(alloc, app)?,
            booted: false,
            fresh: Fresh::new(),
            counters: resting_counters(alloc, config)?,
            alarms: declared_alarms(alloc, config)?,
        })
    }

    /// Whether the system has started.
    pub fn booted(&self) -> bool
        ensures { result ≡ self.now.booted }
    {
        self.booted
    }

    /// The tasks that arrivals made Ready since the last event of another kind, the newest first.
    pub fn fresh(&self) -> &[u32]
        ensures { result.now ≡ self.now.fresh }
    {
        self.fresh.items()
    }

    /// How many tasks there are.
    pub fn count(&self) -> usize
        ensures { result ≡ length self.now.tasks }
    {
        self.tasks.len()
    }

    /// A task.
    pub fn task(&self, t: usize) -> &TaskRoom
        requires { t < length self.now.tasks }
        ensures { result.now ≡ task self.now t }
    {
        &self.tasks[t]
    }

    /// Whether an access lies inside a symbol.
    pub fn is_inside(&self, symbol: u32, width: Width, offset: u32) -> bool
        ensures { result ≡ is_inside self.now.symbols symbol width offset }
    {
        match self.symbols.get(symbol as usize) {
            Some(data) => offset as usize + width_bytes(width) as usize <= data.len(),
            None => false,
        }
    }

    /// The word that a load gives, where the access lies inside the symbol.
    pub fn load(&self, width: Width, symbol: u32, offset: u32) -> Option<u32>
        ensures { result ≡ load_of self.now.symbols width symbol offset }
    {
        if !self.is_inside(symbol, width, offset) {
            return None;
        }
        Some(self.symbols[symbol as usize].load(width, offset))
    }

    /// A counter; one that is not there is not due.
    pub fn counter(&self, c: usize) -> Counter
        ensures { result ≡ counter self.now c }
    {
        self.counters.get(c).copied().unwrap_or(RESTING)
    }

    /// An alarm; one that is not there is not in use.
    pub fn alarm(&self, a: usize) -> Alarm
        ensures { result ≡ alarm self.now a }
    {
        let unused = Alarm { left: 0, cycle: 0 };
        self.alarms.get(a).copied().unwrap_or(unused)
    }

    /// Replaces a counter.
    pub fn set_counter(&mut self, c: usize, counter: Counter)
        requires { c < length self.old.clock.counters }
        ensures { self.new ≡ with_counter self.old c counter }
    {
        self.counters[c] = counter;
    }

    /// Replaces an alarm.
    pub fn set_alarm(&mut self, a: usize, alarm: Alarm)
        requires { a < length self.old.clock.alarms }
        ensures { self.new ≡ with_alarm self.old a alarm }
    {
        self.alarms[a] = alarm;
    }

    /// Changes a task.
    pub fn change(&mut self, t: usize, change: &TaskChange)
        requires declared { t < length self.old.tasks }
        requires allows { HasChangeRoom change.now (task self.old t) }
        ensures { self.new ≡ with_change t change.now self.old }
    {
        self.tasks[t].apply(change);
    }

    fn change_other(&mut self, other: &Other)
        requires { HasOther other.now self.old }
        ensures { self.new ≡ with_other other.now self.old }
    {
        match *other {
            Other::Nothing => {}
            Other::Activate(task) => self.change(task as usize, &TaskChange::Activate),
            Other::AddEvents { task, mask } => {
                self.change(task as usize, &TaskChange::AddEvents(mask));
            }
            Other::Store {
                symbol,
                width,
                offset,
                value,
            } => self.symbols[symbol as usize].store(width, offset, value),
            Other::SetAlarm { alarm, left, cycle } => {
                self.set_alarm(alarm as usize, Alarm { left, cycle });
            }
        }
    }

    /// Carries out a plan of a task.
    pub fn carry_out(&mut self, t: u32, plan: &Plan)
        requires { HasPlanRoom t plan.now self.old }
        ensures { self.new ≡ planned_system t plan.now self.old }
    {
        self.change(t as usize, &plan.change);
        self.change_other(&plan.other);
    }

    /// The system starts.
    pub fn boot(&mut self, config: &Config)
        requires { length config.now.tasks ≡ length self.old.tasks }
        ensures { self.new ≡ settled_state (record self.old {
          tasks = autostarted_tasks config.now.tasks self.old.tasks;
          booted = true;
        }) }
    {
        autostart(self.tasks.as_mut_slice(), config);
        self.booted = true;
        self.settle();
    }

    /// An arrival activates a task.
    pub fn admit(&mut self, t: u32)
        requires declared { t < length self.old.tasks }
        requires room { (task self.old t).state ≡ mode.Suspended → length self.old.fresh < task_limit }
        ensures { self.new ≡ admitted_state t self.old }
    {
        if is_suspended(self.task(t as usize).state()) {
            self.change(t as usize, &TaskChange::Activate);
            self.fresh.add(t);
        }
    }

    /// No task is fresh after an event that is no admit.
    pub fn settle(&mut self)
        ensures { self.new ≡ settled_state self.old }
    {
        self.fresh.clear();
    }
}

fn count(store: &mut Store, c: usize, max: u32)
    requires declared { c < length store.old.clock.counters }
    requires value { (counter store.old c).value ≤ max }
    ensures { store.new ≡ counted_on_state c max store.old }
{
    let value = store.counter(c).value;
    let value = if value == max { 0 } else { value + 1 };
    store.set_counter(c, Counter { value, due: false });
}

fn act(store: &mut Store, does: Action)
    requires { NamesTask (length store.old.tasks) does }
    ensures { store.new ≡ acted_system does store.old }
{
    match does {
        Action::Activate(task) => {
            if is_suspended(store.task(task.0 as usize).state()) {
                store.change(task.0 as usize, &TaskChange::Activate);
            }
        }
        Action::Set(task, mask) => {
            if !is_suspended(store.task(task.0 as usize).state()) {
                store.change(task.0 as usize, &TaskChange::AddEvents(mask));
            }
        }
    }
}

fn tick_alarm(store: &mut Store, does: Action, a: usize)
    requires declared { a < length store.old.clock.alarms }
    requires names { NamesTask (length store.old.tasks) does }
    ensures { store.new ≡ alarm_ticked_system does a store.old }
{
    let alarm = store.alarm(a);
    let cycle = alarm.cycle;
    if alarm.left == 1 {
        store.set_alarm(a, Alarm { left: cycle, cycle });
        act(store, does);
    } else {
        let left = alarm.left.saturating_sub(1);
        store.set_alarm(a, Alarm { left, cycle });
    }
}

// The alarms of a counter count a tick, in the order of their numbers.
fn tick_alarms(store: &mut Store, config: &Config, c: u32)
    requires tasks { length store.old.tasks ≡ length config.now.tasks }
    requires alarms { length store.old.clock.alarms ≡ length config.now.alarms }
    requires actions { (a : ℕ) → a < length config.now.alarms
        → NamesTask (length config.now.tasks) (alarm_declaration config.now a).action }
    ensures { store.new ≡ alarms_ticked_system c 0 config.now.alarms store.old }
{
    for a in 0..config.alarms.items().len() {
        let alarm = &config.alarms.items()[a];
        if alarm.counter == c {
            tick_alarm(store, alarm.action, a);
        }
    }
}

// The same, by changes of alarms and tasks.
fn count_tick(store: &mut Store, config: &Config, c: u32)
    requires declared { c < length config.now.counters }
    requires tasks { length store.old.tasks ≡ length config.now.tasks }
    requires clocked { IsClocked config.now store.old }
    ensures { store.new ≡ ticked_system config.now c store.old }
{
    count(store, c as usize, config.counters.items()[c as usize].max);
    tick_alarms(store, config, c);
}

/// A counter counts on, and its alarms with it.
pub fn tick(store: &mut Store, config: &Config, c: u32)
    requires declared { c < length config.now.counters }
    requires tasks { length store.old.tasks ≡ length config.now.tasks }
    requires clocked { IsClocked config.now store.old }
    ensures { store.new ≡ ticked_state config.now c store.old }
{
    count_tick(store, config, c);
}
