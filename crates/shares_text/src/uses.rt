//! Whether something uses an object, a symbol or a function.
ghost use Rattle.std.specs.Prelude.{◌≡◌, ◌==◌, ◌≤◌, ◌||◌, ◌&&◌, length};
ghost use Rattle.sloth_base.specs.Limits.{task_limit};
ghost use Rattle.std.specs.List.{list_any};
ghost use Rattle.shares_text.specs.Uses.{has_bits, is_use, activates, sets, is_declared_use};
ghost use Rattle.shares_text.specs.UsesBy.{has_task, is_function_use, is_code_use, is_used_by};

use crate::sites::accessed_symbol;
use crate::unused::{Kind, event_mask};
use crate::verdict::entry;
use call_graph::has;
use sloth_base::{Action, App, Config, Func, Op, Service};

fn has_bits(mask: u32, bits: u32) -> bool
    ensures { result ≡ has_bits mask bits }
{
    mask & bits == bits
}

fn is_use(config: &Config, kind: Kind, number: usize, op: Op) -> bool
    ensures { result ≡ is_use config.now kind number op }
{
    match kind {
        Kind::Task => matches!(op, Op::Serve(call)
            if matches!(call.service, Service::ActivateTask | Service::ChainTask) && call.object as usize == number),
        Kind::Resource => matches!(op, Op::Serve(call)
            if matches!(call.service, Service::GetResource) && call.object as usize == number),
        Kind::Event => matches!(op, Op::Serve(call)
            if call.service.has_mask() && has_bits(call.mask, event_mask(config, number))),
        Kind::Alarm => matches!(op, Op::Serve(call)
            if matches!(call.service, Service::SetRelAlarm | Service::SetAbsAlarm) && call.object as usize == number),
        Kind::Symbol => accessed_symbol(op).is_some_and(|symbol| symbol as usize == number),
        Kind::Function => matches!(op, Op::Invoke { func } if func.0 as usize == number),
    }
}

fn activates(task: usize, action: Action) -> bool
    ensures { result ≡ activates task action }
{
    matches!(action, Action::Activate(activated) if activated.0 as usize == task)
}

fn sets(bits: u32, action: Action) -> bool
    ensures { result ≡ sets bits action }
{
    matches!(action, Action::Set(_, mask) if has_bits(mask, bits))
}

fn is_activated_by_alarm(config: &Config, task: usize) -> bool
    ensures { result ≡ list_any (λ alarm. activates task alarm.action) config.now.alarms }
{
    let alarms = config.alarms.items();
    alarms.iter().any(|alarm| activates(task, alarm.action))
}

fn is_set_by_alarm(config: &Config, bits: u32) -> bool
    ensures { result ≡ list_any (λ alarm. sets bits alarm.action) config.now.alarms }
{
    let alarms = config.alarms.items();
    alarms.iter().any(|alarm| sets(bits, alarm.action))
}

fn is_declared_use(config: &Config, app: &App, kind: Kind, number: usize) -> bool
    ensures { result ≡ is_declared_use config.now app.now kind number }
{
    let (tasks, alarms) = (config.tasks.items(), config.alarms.items());
    let funcs = app.funcs.items();
    match kind {
        Kind::Task => {
            tasks.get(number).is_some_and(|task| task.autostart)
                || is_activated_by_alarm(config, number)
        },
        Kind::Event => is_set_by_alarm(config, event_mask(config, number)),
        Kind::Alarm => alarms.get(number).is_some_and(|alarm| alarm.time != 0),
        Kind::Function => funcs.get(number).is_some_and(|func| func.task.is_some()),
        Kind::Resource | Kind::Symbol => false,
    }
}

fn has_task(tasks: usize, set: u32) -> bool
    requires { tasks ≤ task_limit }
    ensures { result ≡ has_task tasks set }
{
    let mut found = false;
    for task in 0..tasks {
        found = found || has(u64::from(set), task);
    }
    found
}

fn is_function_use(config: &Config, kind: Kind, number: usize, func: &Func) -> bool
    ensures { result ≡ is_function_use config.now kind number func.now }
{
    let items = func.items.items();
    items
        .iter()
        .any(|item| is_use(config, kind, number, item.op))
}

fn is_code_use(config: &Config, funcs: &[Func], users: &[u32], kind: Kind, number: usize) -> bool
    requires { length config.now.tasks ≤ task_limit }
    ensures { result ≡ is_code_use config.now funcs.now users.now kind number }
{
    let tasks = config.tasks.items().len();
    let mut used = false;
    for (place, func) in funcs.iter().enumerate() {
        let set = entry(users, place, 0);
        used = used || (has_task(tasks, set) && is_function_use(config, kind, number, func));
    }
    used
}

/// Whether it is used, by the sets of tasks that reach each function.
pub fn is_used(config: &Config, app: &App, users: &[u32], kind: Kind, number: usize) -> bool
    requires { length config.now.tasks ≤ task_limit }
    ensures { result ≡ is_used_by config.now app.now users.now kind number }
{
    is_declared_use(config, app, kind, number)
        || is_code_use(config, app.funcs.items(), users, kind, number)
}
