//! Tasks that nothing but their arrivals makes Ready, or one alarm. Tasks no activation of which is lost.
ghost use Rattle.std.specs.Prelude.{◌≡◌, ◌<◌, ◌==◌, length, position, ◌*◌, IfSome};
ghost use Rattle.std.specs.List.{list_any};
ghost use Rattle.sloth_base.specs.declared.service.Service.TheVariants as service;
ghost use Rattle.response_laws.specs.Made.{calls_either, is_call_for, has_call, are_called, is_activating, is_plain, is_made_from_outside, is_made_by_arrivals, is_made_by_one_alarm};
ghost use Rattle.response_laws.specs.Ticks.{activates};
ghost use Rattle.sloth_base.specs.ConfigRange.{InRange};
ghost use Rattle.sloth_base.specs.Limits.{counter_limit};
ghost use Rattle.load_text.specs.Loads.{distance};
ghost use Rattle.response_text.specs.Lines.{is_within, is_within_limit, is_within_cycle, is_spaced, has_spaced, keeps_expiries, is_lossless};

use load_text::{Entry, distance_of};
use sloth_base::{
    Action, AlarmDecl, App, Config, FIRST_COUNTER_LINE, Func, Item, Op, Service, TaskDecl,
};

// Whether an operation is a call of one of two services for an object.
fn calls_either(one: Service, other: Service, object: u32, op: Op) -> bool
    ensures { result ≡ calls_either one other object op }
{
    match op {
        Op::Serve(call) => {
            (call.service.code() == one.code() || call.service.code() == other.code())
                && call.object == object
        }
        _ => false,
    }
}

fn is_call_for(one: Service, other: Service, object: u32, item: &Item) -> bool
    ensures { result ≡ is_call_for one other object item.now }
{
    calls_either(one, other, object, item.op)
}

fn has_call(one: Service, other: Service, object: u32, func: &Func) -> bool
    ensures { result ≡ has_call one other object func.now }
{
    func.items
        .items()
        .iter()
        .any(|item| is_call_for(one, other, object, item))
}

// Whether some body has an item that is.
fn are_called(one: Service, other: Service, object: u32, funcs: &[Func]) -> bool
    ensures { result ≡ are_called one other object funcs.now }
{
    funcs.iter().any(|func| has_call(one, other, object, func))
}

/// Whether an item sets an alarm.
pub fn is_set(app: &App, alarm: u32) -> bool
    ensures { result ≡ are_called service.SetRelAlarm service.SetAbsAlarm alarm app.now.funcs }
{
    let funcs = app.funcs.items();
    are_called(Service::SetRelAlarm, Service::SetAbsAlarm, alarm, funcs)
}

fn activates(task: u32, action: Action) -> bool
    ensures { result ≡ activates task action }
{
    match action {
        Action::Activate(other) => other.0 == task,
        Action::Set(_, _) => false,
    }
}

fn is_activating(task: u32, alarm: &AlarmDecl) -> bool
    ensures { result ≡ is_activating task alarm.now }
{
    activates(task, alarm.action)
}

// Whether an alarm activates the task.
fn is_activated(task: u32, alarms: &[AlarmDecl]) -> bool
    ensures { result ≡ list_any (is_activating task) alarms.now }
{
    alarms.iter().any(|alarm| is_activating(task, alarm))
}

fn is_plain(task: &TaskDecl) -> bool
    ensures { result ≡ is_plain task.now }
{
    !task.extended && !task.autostart
}

/// The first alarm that activates the task.
pub fn activating_alarm(task: u32, alarms: &[AlarmDecl]) -> Option<usize>
    ensures { result ≡ position (is_activating task) alarms.now }
{
    alarms.iter().position(|alarm| is_activating(task, alarm))
}

// Whether nothing but its arrivals and alarms makes a task Ready.
fn is_made_from_outside(config: &Config, app: &App, task: u32) -> bool
    requires { task < length config.now.tasks }
    ensures { result ≡ is_made_from_outside config.now app.now task }
{
    let funcs = app.funcs.items();
    is_plain(&config.tasks.items()[task as usize])
        && !are_called(Service::ActivateTask, Service::ChainTask, task, funcs)
}

/// Whether nothing but its arrivals makes a task Ready.
pub fn is_made_by_arrivals(config: &Config, app: &App, task: u32) -> bool
    requires { task < length config.now.tasks }
    ensures { result ≡ is_made_by_arrivals config.now app.now task }
{
    is_made_from_outside(config, app, task) && !is_activated(task, config.alarms.items())
}

/// Whether nothing but its arrivals and just one alarm does.
pub fn is_made_by_one_alarm(config: &Config, app: &App, task: u32) -> bool
    requires { task < length config.now.tasks }
    ensures { result ≡ is_made_by_one_alarm config.now app.now task }
{
    is_made_from_outside(config, app, task)
        && config
            .alarms
            .items()
            .iter()
            .filter(|alarm| activates(task, alarm.action))
            .count()
            == 1
}

/// Whether a number is at most so great.
pub fn is_within(number: Option<u32>, limit: u32) -> bool
    ensures { result ≡ is_within number limit }
{
    match number {
        Some(counts) => counts <= limit,
        None => false,
    }
}

/// Whether it is at most a limit, if there is one.
pub fn is_within_limit(number: Option<u32>, limit: Option<u32>) -> bool
    ensures { result ≡ is_within_limit number limit }
{
    match limit {
        Some(limit) => is_within(number, limit),
        None => false,
    }
}

// Whether it is at most so many times so much.
fn is_within_product(number: Option<u32>, times: u32, distance: u32) -> bool
    ensures { result ≡ is_within number (times * distance) }
{
    match number {
        Some(counts) => u64::from(counts) <= u64::from(times) * u64::from(distance),
        None => false,
    }
}

fn is_within_cycle(number: Option<u32>, distance: Option<u32>, cycle: u32) -> bool
    ensures { result ≡ is_within_cycle number distance cycle }
{
    match distance {
        Some(distance) => cycle == 0 || is_within_product(number, cycle, distance),
        None => false,
    }
}

// Whether an alarm starts with the system, is set by no item, and expires once, or so seldom.
fn is_spaced(app: &App, load: &[Entry], alarm: u32, declared: &AlarmDecl, most: Option<u32>) -> bool
    requires { declared.now.counter < counter_limit }
    ensures { result ≡ is_spaced app.now load.now alarm declared.now most }
{
    let distance = distance_of(load, FIRST_COUNTER_LINE + declared.counter as u8);
    declared.time != 0 && (!is_set(app, alarm) && is_within_cycle(most, distance, declared.cycle))
}

fn has_spaced(
    config: &Config,
    app: &App,
    load: &[Entry],
    alarm: Option<usize>,
    number: Option<u32>,
) -> bool
    requires in_range { InRange config.now }
    requires inside { IfSome alarm (λ a. a < length config.now.alarms) }
    ensures { result ≡ has_spaced config.now app.now load.now alarm number }
{
    match alarm {
        Some(alarm) => {
            let declared = &config.alarms.items()[alarm];
            is_spaced(app, load, alarm as u32, declared, number)
        }
        None => false,
    }
}

// Whether each expiry of the only alarm that makes a task Ready finds it Suspended: it left before that expires again.
fn keeps_expiries(config: &Config, app: &App, load: &[Entry], task: u32, most: Option<u32>) -> bool
    requires in_range { InRange config.now }
    requires there { task < length config.now.tasks }
    ensures { result ≡ keeps_expiries config.now app.now load.now task most }
{
    let alarm = activating_alarm(task, config.alarms.items());
    is_made_by_one_alarm(config, app, task)
        && (distance_of(load, task as u8).is_none() && has_spaced(config, app, load, alarm, most))
}

/// Whether no activation of a task is lost, which responds within this number.
pub fn is_lossless(config: &Config, app: &App, load: &[Entry], task: u32, most: Option<u32>) -> bool
    requires in_range { InRange config.now }
    requires there { task < length config.now.tasks }
    ensures { result ≡ is_lossless config.now app.now load.now task most }
{
    is_made_by_arrivals(config, app, task) && is_within_limit(most, distance_of(load, task as u8))
        || keeps_expiries(config, app, load, task, most)
}
