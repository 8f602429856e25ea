//! The abstract scheduler.
ghost use Rattle.std.specs.Prelude.{◌≡◌, ◌<◌, ℕ, cond, IfOk, IfSome, OnOk, OnErr, Some, length};
ghost use Rattle.std.specs.Int.{bit_at};
ghost use Rattle.code_rules.specs.WellFormed.{WellFormed};
ghost use Rattle.osek_scheduler.specs.State.{System, opening, task as task_of};
ghost use Rattle.osek_scheduler.specs.Steps.{OsekStep};
ghost use Rattle.osek_scheduler.specs.Next.{next_state};
ghost use Rattle.sloth_base.specs.declared.app.App.{App as AnyApp};
ghost use Rattle.sloth_base.specs.declared.service.Event.TheVariants as event;
ghost use Rattle.sloth_base.specs.Limits.{task_limit};
ghost use Rattle.osek_scheduler.specs.declared.state.TaskState.TheVariants as mode;
ghost use Rattle.osek_machine.specs.Above.{is_line_above};
ghost use Rattle.osek_machine.specs.Clocked.{IsClocked};
ghost use Rattle.osek_machine.specs.Plans.{HasPlanRoom};
ghost use Rattle.osek_machine.specs.PlanSteps.{followed_state};
ghost use Rattle.osek_machine.specs.Steps.{Advances, IsSound, Machine};

use crate::priority::lines_above;
use crate::{
    Store, answer_plan, back_plan, entry_plan, is_idle, is_next_tick, leave_plan, no_ticks,
    running_plan,
};
use osek_scheduler::{Counter, Plan, TaskState};
use sloth_base::{App, Config, Event, Result, TaskId};
use std::alloc::Global;
use std::marker::Model;

/// The event has no next state.
#[derive(Clone, Copy)]
pub struct NotARun;

/// The abstract scheduler of a configuration and its task code. Contracts see these and the system as it stands.
pub struct Osek<'t> {
    config: &'t Config,
    app: &'t App,
    store: Store,
}

// Written out: what is derived is proved anew wherever a value is let go.
impl Drop for Osek<'_> {
    fn drop(self) {
        let Osek {
            config: _,
            app: _,
            store: _,
        } = self;
    }
}

impl<'t> Model for Osek<'t> {
    ghost use Rattle.osek_machine.specs.Steps.{IsSound, Machine};

    ghost Value = { Machine };

    ghost view = { λ o. record { config = o.config.now; app = o.app.now; system = o.store } };

    ghost invariant = { λ o. IsSound o.config.now o.app.now o.store };
}

fn act(t: u32, plan: Option<Plan>, store: &mut Store) -> Result<(), NotARun>
    requires { IfSome plan (λ p. HasPlanRoom t p store.old) }
    ensures { Advances (followed_state t store.old plan) store.old store.new result }
{
    let Some(plan) = plan else {
        return Err(NotARun);
    };
    store.carry_out(t, &plan);
    store.settle();
    Ok(())
}

fn boot(config: &Config, store: &mut Store) -> Result<(), NotARun>
    requires { length config.now.tasks ≡ length store.old.tasks }
    ensures { (app : AnyApp) → Advances (next_state config.now app event.Boot store.old) store.old store.new result }
{
    if store.booted() {
        return Err(NotARun);
    }
    store.boot(config);
    Ok(())
}

fn admit(config: &Config, store: &mut Store, t: u32) -> Result<(), NotARun>
    requires count { length store.old.tasks ≡ length config.now.tasks }
    requires room { t < length store.old.tasks → (task_of store.old t).state ≡ mode.Suspended
        → length store.old.fresh < task_limit }
    ensures { (app : AnyApp) → Advances (next_state config.now app (event.Admit t) store.old) store.old store.new result }
{
    if !store.booted() || t as usize >= config.tasks.items().len() {
        return Err(NotARun);
    }
    store.admit(t);
    Ok(())
}

fn idle(config: &Config, store: &mut Store) -> Result<(), NotARun>
    requires { length store.old.tasks ≡ length config.now.tasks }
    ensures { (app : AnyApp) → Advances (next_state config.now app event.Idle store.old) store.old store.new result }
{
    if !store.booted() || !is_idle(config, store) || !no_ticks(config, store) {
        return Err(NotARun);
    }
    store.settle();
    Ok(())
}

fn make_due(config: &Config, store: &mut Store, c: u32) -> Result<(), NotARun>
    requires { length store.old.clock.counters ≡ length config.now.counters }
    ensures { (app : AnyApp) → Advances (next_state config.now app (event.Due c) store.old) store.old store.new result }
{
    if !store.booted() || c as usize >= config.counters.items().len() {
        return Err(NotARun);
    }
    let value = store.counter(c as usize).value;
    store.set_counter(c as usize, Counter { value, due: true });
    Ok(())
}

fn tick(config: &Config, store: &mut Store, c: u32) -> Result<(), NotARun>
    requires tasks { length store.old.tasks ≡ length config.now.tasks }
    requires clocked { IsClocked config.now store.old }
    ensures { (app : AnyApp) → Advances (next_state config.now app (event.Tick c) store.old) store.old store.new result }
{
    if !store.booted() || !is_next_tick(config, store, c) {
        return Err(NotARun);
    }
    crate::store::tick(store, config, c);
    store.settle();
    Ok(())
}

fn step(config: &Config, app: &App, store: &mut Store, event: &Event) -> Result<(), NotARun>
    requires { IsSound config.now app.now store.old }
    ensures { Advances (next_state config.now app.now event.now store.old) store.old store.new result }
{
    match *event {
        Event::Boot => boot(config, store),
        Event::Admit(task) => admit(config, store, task),
        Event::Enter(task) => act(task, entry_plan(config, app, store, task), store),
        Event::Run {
            task,
            func,
            item,
            result,
        } => {
            let plan = running_plan(config, app, store, task, func, item, result);
            act(task, plan, store)
        }
        Event::Call {
            task,
            service,
            status,
        } => {
            let plan = answer_plan(config, app, store, task, service, status);
            act(task, plan, store)
        }
        Event::Left { task, service } => {
            let plan = leave_plan(config, app, store, task, service);
            act(task, plan, store)
        }
        Event::Back(task) => act(task, back_plan(config, store, task), store),
        Event::Idle => idle(config, store),
        Event::Due(counter) => make_due(config, store, counter),
        Event::Tick(counter) => tick(config, store, counter),
        Event::Stray => Err(NotARun),
    }
}

impl<'t> Osek<'t> {
    /// The scheduler before the system has started. All memory of later steps is taken here.
    pub fn boot(alloc: Global, config: &'t Config, app: &'t App) -> Result<Osek<'t>>
        requires { WellFormed config.now app.now }
        ensures { IfOk result (λ o. o
            ≡ record { config = config.now; app = app.now; system = opening config.now app.now }) }
    {
        let store = Store::opening(alloc, config, app)?;
        Ok(Osek { config, app, store })
    }

    /// One event. Where it has no next state, nothing has changed. Takes no memory.
    pub fn step(&mut self, event: &Event) -> Result<(), NotARun>
        ensures next { OnOk result (OsekStep self.old.config self.old.app event.now self.old.system self.new.system) }
        ensures config { self.new.config ≡ self.old.config }
        ensures app { self.new.app ≡ self.old.app }
        ensures none { OnErr result ((next : System)
            → OsekStep self.old.config self.old.app event.now self.old.system next → ⊥) }
        ensures same { OnErr result (self.new ≡ self.old) }
    {
        step(self.config, self.app, &mut self.store, event)
    }

    /// The state of a task of the configuration. Takes no memory.
    pub fn state(&self, task: TaskId) -> TaskState
        requires { task < length self.now.config.tasks }
        ensures { result ≡ (task_of self.now.system task).state }
    {
        self.store.task(task.0 as usize).state()
    }

    /// A bit for each line: the due counters, and the Ready tasks above a task of the configuration. Takes no memory.
    pub fn above(&self, task: TaskId) -> u32
        requires { task < length self.now.config.tasks }
        ensures { (line : ℕ) → bit_at result line ≡ cond (is_line_above self.now.config self.now.system task line) 1 0 }
    {
        lines_above(self.config, &self.store, task.0)
    }

    /// The configuration. Takes no memory.
    pub fn config(&self) -> &Config
        ensures is { result.now ≡ self.now.config }
        ensures sound { IsSound self.now.config self.now.app self.now.system }
    {
        self.config
    }

    /// The task code. Takes no memory.
    pub fn app(&self) -> &App
        ensures { result.now ≡ self.now.app }
    {
        self.app
    }

    /// The system as it stands. Takes no memory.
    pub fn store(&self) -> &Store
        ensures { result.now ≡ self.now.system }
    {
        &self.store
    }

    /// How many tasks the configuration has. Takes no memory.
    pub fn task_count(&self) -> usize
        ensures { result ≡ length self.now.config.tasks }
    {
        self.config.tasks.items().len()
    }
}
