//! Which events have a next state, and which event the next item of a task is.
ghost use Rattle.std.specs.Prelude.{◌≡◌, ◌<◌, is_some, length};
ghost use Rattle.osek_scheduler.specs.Next.{next_state};
ghost use Rattle.osek_machine.specs.PlanSteps.{IsRead};
ghost use Rattle.osek_machine.specs.Steps.{IsSound};
ghost use Rattle.trace_check.specs.MachineEvents.{item_event, planned_event, service_event, shown_result};

use osek_machine::{
    Osek, Store, answer_plan, back_plan, call_in, call_plan, entry_plan, is_idle, is_next_tick,
    leave_plan, no_ticks, own_operation, run_plan, running_plan,
};
use osek_scheduler::Plan;
use sloth_base::{App, Config, Event, Service};

fn is_next(config: &Config, app: &App, store: &Store, event: &Event) -> bool
    requires sound { IsSound config.now app.now store.now }
    requires read { IsRead config.now app.now store.now }
    ensures { result ≡ is_some (next_state config.now app.now event.now store.now) }
{
    match *event {
        Event::Boot => !store.booted(),
        Event::Admit(task) => store.booted() && (task as usize) < config.tasks.items().len(),
        Event::Enter(task) => entry_plan(config, app, store, task).is_some(),
        Event::Run {
            task,
            func,
            item,
            result,
        } => running_plan(config, app, store, task, func, item, result).is_some(),
        Event::Call {
            task,
            service,
            status,
        } => answer_plan(config, app, store, task, service, status).is_some(),
        Event::Left { task, service } => leave_plan(config, app, store, task, service).is_some(),
        Event::Back(task) => back_plan(config, store, task).is_some(),
        Event::Idle => store.booted() && is_idle(config, store) && no_ticks(config, store),
        Event::Due(counter) => {
            store.booted() && (counter as usize) < config.counters.items().len()
        }
        Event::Tick(counter) => store.booted() && is_next_tick(config, store, counter),
        Event::Stray => false,
    }
}

/// Whether an event has a next state.
pub fn has_next(osek: &Osek, event: &Event) -> bool
    ensures { result ≡ is_some (next_state osek.now.config osek.now.app event.now osek.now.system) }
{
    is_next(osek.config(), osek.app(), osek.store(), event)
}

fn shown_result(plan: Option<Plan>) -> Option<u32>
    ensures { result ≡ shown_result plan }
{
    match plan {
        Some(plan) => plan.answer,
        None => None,
    }
}

fn own_run(_config: &Config, app: &App, store: &Store, task: u32) -> Option<Event>
    requires read { IsRead _config.now app.now store.now }
    requires declared { task < length store.now.tasks }
    ensures { result ≡ item_event app.now task store.now }
{
    let own = store.task(task as usize);
    let op = own_operation(app, own)?;
    let plan = run_plan(app, store, own, &op);
    let result = shown_result(plan)?;
    let frame = own.innermost()?;
    Some(Event::Run {
        task,
        func: frame.func(),
        item: frame.item(),
        result,
    })
}

fn planned_event(task: u32, service: Service, plan: Option<Plan>) -> Option<Event>
    ensures { result ≡ planned_event task service plan }
{
    match plan {
        Some(plan) => match plan.answer {
            Some(status) => Some(Event::Call {
                task,
                service,
                status,
            }),
            None => Some(Event::Left { task, service }),
        },
        None => None,
    }
}

fn own_service(config: &Config, app: &App, store: &Store, task: u32) -> Option<Event>
    requires read { IsRead config.now app.now store.now }
    requires declared { task < length store.now.tasks }
    ensures { result ≡ service_event config.now app.now task store.now }
{
    let op = own_operation(app, store.task(task as usize))?;
    let call = call_in(&op)?;
    let service = call.service;
    let plan = call_plan(config, store, service, task, &call);
    planned_event(task, service, plan)
}

/// The run of the next item of a task.
pub fn item_event(osek: &Osek, task: u32) -> Option<Event>
    requires { task < length osek.now.config.tasks }
    ensures { result ≡ item_event osek.now.app task osek.now.system }
{
    own_run(osek.config(), osek.app(), osek.store(), task)
}

/// The service that the next item of a task is.
pub fn service_event(osek: &Osek, task: u32) -> Option<Event>
    requires { task < length osek.now.config.tasks }
    ensures { result ≡ service_event osek.now.config osek.now.app task osek.now.system }
{
    own_service(osek.config(), osek.app(), osek.store(), task)
}
