//! The plans of events.
ghost use Rattle.std.specs.Prelude.{◌≡◌, ◌≤◌, length};
ghost use Rattle.sloth_base.specs.Options.{is_number};
ghost use Rattle.sloth_base.specs.Named.{body_of};
ghost use Rattle.sloth_base.specs.Limits.{task_limit};
ghost use Rattle.osek_scheduler.specs.Next.{is_position};
ghost use Rattle.osek_machine.specs.Running.{back_plan, entry_plan, running_plan, serving_plan};
ghost use Rattle.osek_machine.specs.PlanSteps.{IsRead, answer_plan, leave_plan};

use crate::priority::{is_ready, is_top};
use crate::room::TaskRoom;
use crate::services::plan;
use crate::{Store, call_in, call_plan, is_active, own_operation, run_plan};
use osek_scheduler::{Other, Plan, TaskChange};
use sloth_base::{App, Config, Func, Service};

fn is_body(func: &Func, t: u32) -> bool
    ensures { result ≡ is_number t func.now.task }
{
    matches!(func.task, Some(task) if task.0 == t)
}

// The number of a task's body, or the number of functions.
fn body_number(app: &App, t: u32) -> usize
    ensures { result ≡ body_of app.now.funcs t }
{
    let mut place = 0;
    for func in app.funcs.items() {
        if is_body(func, t) {
            return place;
        }
        place += 1;
    }
    place
}

/// The plan of an entry.
pub fn entry_plan(config: &Config, app: &App, store: &Store, t: u32) -> Option<Plan>
    requires { IsRead config.now app.now store.now }
    ensures { result ≡ entry_plan config.now app.now t store.now }
{
    if !store.booted() || !is_top(config, store, &[], t) {
        return None;
    }
    let task = store.task(t as usize);
    if !is_ready(task.state()) {
        return None;
    }
    let body = body_number(app, t);
    let func = app.funcs.items().get(body)?;
    let non = config.tasks.items()[t as usize].non;
    let change = if task.frames.depth() == 0 {
        let (func, words) = (body as u32, func.frame_words);
        TaskChange::Start { func, words, non }
    } else {
        TaskChange::Resume(non)
    };
    Some(plan(None, change, Other::Nothing))
}

fn is_position(task: &TaskRoom, func: u32, item: u32) -> bool
    ensures { result ≡ is_position func item task.now.frames }
{
    matches!(task.innermost(), Some(frame) if frame.func() == func && frame.item() == item)
}

fn shows(plan: &Plan, answer: u32) -> bool
    ensures { result ≡ is_number answer plan.now.answer }
{
    matches!(plan.answer, Some(shown) if shown == answer)
}

/// The plan of a run of an item.
pub fn running_plan(
    config: &Config,
    app: &App,
    store: &Store,
    t: u32,
    func: u32,
    item: u32,
    answer: u32,
) -> Option<Plan>
    requires { IsRead config.now app.now store.now }
    ensures { result ≡ running_plan config.now app.now t func item answer store.now }
{
    if !store.booted() || !is_top(config, store, &[], t) {
        return None;
    }
    let task = store.task(t as usize);
    if !is_position(task, func, item) {
        return None;
    }
    let op = own_operation(app, task)?;
    let plan = run_plan(app, store, task, &op)?;
    if !shows(&plan, answer) {
        return None;
    }
    Some(plan)
}

// The plan of a service, where that is the next item of the running task.
fn serving_plan(config: &Config, app: &App, store: &Store, t: u32, served: Service) -> Option<Plan>
    requires { IsRead config.now app.now store.now }
    ensures { result ≡ serving_plan config.now app.now t served store.now }
{
    if !store.booted() || !is_top(config, store, store.fresh(), t) {
        return None;
    }
    let op = own_operation(app, store.task(t as usize))?;
    let call = call_in(&op)?;
    call_plan(config, store, served, t, &call)
}

/// The plan of a service by which its caller goes on with a status.
pub fn answer_plan(
    config: &Config,
    app: &App,
    store: &Store,
    t: u32,
    served: Service,
    status: u32,
) -> Option<Plan>
    requires { IsRead config.now app.now store.now }
    ensures { result ≡ answer_plan config.now app.now t served status store.now }
{
    let plan = serving_plan(config, app, store, t, served)?;
    if !shows(&plan, status) {
        return None;
    }
    Some(plan)
}

/// The plan of a service by which its caller leaves.
pub fn leave_plan(config: &Config, app: &App, store: &Store, t: u32, kind: Service) -> Option<Plan>
    requires { IsRead config.now app.now store.now }
    ensures { result ≡ leave_plan config.now app.now t kind store.now }
{
    let plan = serving_plan(config, app, store, t, kind)?;
    if plan.answer.is_some() {
        return None;
    }
    Some(plan)
}

/// The plan of a return from Schedule.
pub fn back_plan(config: &Config, store: &Store, t: u32) -> Option<Plan>
    requires count { length store.now.tasks ≡ length config.now.tasks }
    requires few { length config.now.tasks ≤ task_limit }
    ensures { result ≡ back_plan config.now t store.now }
{
    if !store.booted() || !is_top(config, store, &[], t) {
        return None;
    }
    let task = store.task(t as usize);
    if !is_active(task.state()) || !task.owed {
        return None;
    }
    let non = config.tasks.items()[t as usize].non;
    Some(plan(None, TaskChange::ComeBack(non), Other::Nothing))
}
