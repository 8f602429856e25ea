//! The task that lacks what an item uses (V12).
ghost use Rattle.std.specs.Prelude.{◌≡◌, ◌<◌, ◌⊎◌, length, true, IfOk, IfSome};
ghost use Rattle.sloth_base.specs.Named.{function, IsBodyOf};
ghost use Rattle.fault_witnesses.specs.Witnesses.{is_lacking, names_task, IsLackedEvent, IsUser};

use crate::chains::calls_between;
use crate::{Found, Judged, Link};
use sloth_base::{App, Code, Config, List, Op, Service};
use task_verify::held_resources::{is_task_body, lacks, lists};

/// A task that lacks what an item uses, with an event that it lacks; and the calls from its body to that of the item.
#[derive(Drop)]
pub struct User {
    pub task: usize,
    /// The number of its body.
    pub body: usize,
    pub event: Option<usize>,
    pub links: List<Link>,
}

fn is_lacking(config: &Config, task: usize, op: Op) -> bool
    requires { task < length config.now.tasks }
    ensures { result ≡ is_lacking config.now task op }
{
    match op {
        Op::Serve(call) => match call.service {
            Service::GetResource | Service::ReleaseResource => {
                !lists(&config.tasks.items()[task], call.object)
            },
            Service::ClearEvent | Service::WaitEvent => lacks(config, task, call.mask),
            Service::SetEvent => task == call.object as usize && lacks(config, task, call.mask),
            Service::GetEvent => task == call.object as usize
                && !config.tasks.items()[task].extended,
            _ => false,
        },
        _ => false,
    }
}

fn names_task(op: Op) -> bool
    ensures { result ≡ names_task op }
{
    match op {
        Op::Serve(call) => matches!(call.service, Service::SetEvent | Service::GetEvent),
        _ => false,
    }
}

fn lacks_event(config: &Config, task: usize, event: usize) -> bool
    requires { task < length config.now.tasks }
    ensures { result ≡ true → IsLackedEvent config.now task event }
{
    event < config.events.items().len() && lacks(config, task, config.events.items()[event].mask)
}

fn event_lacked(config: &Config, task: usize, events: &[usize]) -> Option<usize>
    requires { task < length config.now.tasks }
    ensures { IfSome result (IsLackedEvent config.now task) }
{
    for event in events {
        if lacks_event(config, task, *event) {
            return Some(*event);
        }
    }
    None
}

fn task_body(app: &App, task: usize) -> Option<usize>
    ensures { IfSome result (λ b. IsBodyOf app.now task b) }
{
    for number in 0..app.funcs.items().len() {
        if is_task_body(app.function(number), task) {
            return Some(number);
        }
    }
    None
}

// The task as a user of the item, if it is one: the item names it, or it reaches the item.
fn one_user(judged: &Judged, body: usize, item: usize, task: usize) -> Found<User>
    requires task { task < length judged.now.config.now.tasks }
    requires known { body < length judged.now.app.now.funcs }
    requires inside { item < length (function judged.now.app.now body).items }
    ensures { IfOk result (λ user. IfSome user (IsUser judged.now.config.now judged.now.app.now body item)) }
{
    let func = judged.app.function(body);
    if !is_lacking(judged.config, task, func.op(item)) {
        return Ok(None);
    }
    let event = event_lacked(judged.config, task, judged.events);
    if names_task(func.op(item)) {
        let links = List::from_vec(Vec::new(judged.alloc));
        let user = User {
            task,
            body,
            event,
            links,
        };
        return Ok(Some(user));
    }
    let Some(start) = task_body(judged.app, task) else {
        return Ok(None);
    };
    match calls_between(judged.alloc, judged.app, start, body)? {
        Some(links) => Ok(Some(User {
            task,
            body: start,
            event,
            links,
        })),
        None => Ok(None),
    }
}

// The one with fewer calls, the first where they have as many.
fn nearer(first: Option<User>, second: Option<User>) -> Option<User>
    ensures { (result ≡ first) ⊎ (result ≡ second) }
{
    let Some(one) = first else {
        return second;
    };
    let Some(other) = second else {
        return Some(one);
    };
    if other.links.items().len() < one.links.items().len() {
        Some(other)
    } else {
        Some(one)
    }
}

/// The task that lacks what an item uses (V12): the first that reaches it by the fewest calls; of other rules none.
pub fn lacking_user(judged: &Judged, body: usize, item: usize) -> Found<User>
    requires known { body < length judged.now.app.now.funcs }
    requires inside { item < length (function judged.now.app.now body).items }
    ensures { IfOk result (λ user. IfSome user (IsUser judged.now.config.now judged.now.app.now body item)) }
{
    if !matches!(judged.refusal.code, Code::V12) {
        return Ok(None);
    }
    let mut best = None;
    for task in 0..judged.config.tasks.items().len() {
        let user = one_user(judged, body, item, task)?;
        best = nearer(best, user);
    }
    Ok(best)
}
