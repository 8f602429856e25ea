//! V7 to V10: what is held at an item. V12: what the tasks that reach an item may use there.
ghost use Rattle.std.specs.Prelude.{◌≡◌, ◌==◌, ◌<◌, ℕ, Some, length, Decides, IfOk, true};
ghost use Rattle.std.specs.List.{list_any};
ghost use Rattle.code_rules.specs.Code.{is_in, is_last, held_behind, held_after};
ghost use Rattle.code_rules.specs.WellFormed.{IsOtherListJump};
ghost use Rattle.call_graph.specs.Bits.{is_member};
ghost use Rattle.task_verify.specs.Labels.{list_of};
ghost use Rattle.task_verify.specs.Tests.{is_wrong_release, is_second_take, is_leave_with_resource};
ghost use Rattle.task_verify.specs.Ways.{HasBodyLabel};
ghost use Rattle.sloth_base.specs.Options.{is_number};
ghost use Rattle.task_verify.specs.Uses.{is_unlisted, lacks, is_lacked, OperandsOf, is_undeclared_use};

use crate::way;
use crate::ways::is_ending;
use call_graph::{Ranks, has};
use sloth_base::{Call, Config, Func, Op, RES_SCHEDULER, ResId, Result, Service, TaskDecl};
use std::alloc::Global;
use text_pieces::push;

/// The numbers of resources that are held, in the order taken.
pub type Held = Vec<u32>;

/// Whether a label's list is the held one.
pub fn is_held(holds: &[ResId], held: &[u32]) -> bool
    ensures { Decides result (holds.now ≡ held.now) }
{
    if holds.len() != held.len() {
        return false;
    }
    for (number, resource) in holds.iter().enumerate() {
        if resource.0 != held[number] {
            return false;
        }
    }
    true
}

/// V7: a jump or branch to a label whose list is not the held one.
pub fn is_other_list_jump(func: &Func, held: &[u32], op: Op) -> bool
    requires { HasBodyLabel func.now op }
    ensures { Decides result (IsOtherListJump func.now held.now op) }
{
    match way(op) {
        Some(label) => !is_held(func.labels.items()[label as usize].holds.items(), held),
        None => false,
    }
}

fn is_last(held: &[u32], resource: u32) -> bool
    ensures { result ≡ is_last resource held.now }
{
    if held.is_empty() {
        return false;
    }
    held[held.len() - 1] == resource
}

/// V8: a release of a resource that is not the last of the held list.
pub fn is_wrong_release(held: &[u32], op: Op) -> bool
    ensures { result ≡ is_wrong_release held.now op }
{
    match op {
        Op::Serve(call) => matches!(call.service, Service::ReleaseResource)
            && !is_last(held, call.object),
        _ => false,
    }
}

fn equals_one(held: &[u32], resource: u32) -> bool
    ensures { result ≡ list_any (λ taken. taken == resource) held.now }
{
    held.iter().any(|taken| *taken == resource)
}

/// Whether the resource is held.
pub fn is_taken(held: &[u32], resource: u32) -> bool
    ensures { result ≡ is_in resource held.now }
{
    equals_one(held, resource)
}

fn takes_one(taken: u64, held: &[u32]) -> bool
    ensures { result ≡ list_any (λ r. is_member taken r) held.now }
{
    held.iter().any(|it| contains(taken, *it as usize))
}

/// V9: taking a resource of the held list; a call of a function that reaches taking one.
pub fn is_second_take(ranks: &Ranks, held: &[u32], op: Op) -> bool
    ensures { result ≡ is_second_take ranks.now held.now op }
{
    match op {
        Op::Serve(call) => matches!(call.service, Service::GetResource)
            && is_taken(held, call.object),
        Op::Invoke { func } => {
            let resources = ranks.resources.items().get(func.0 as usize);
            takes_one(resources.copied().unwrap_or(0), held)
        },
        _ => false,
    }
}

/// V10: an end, a wait, a Schedule or a `ret` while something is held, or a call of what reaches a wait or a Schedule.
pub fn is_leave_with_resource(ranks: &Ranks, held: &[u32], op: Op) -> bool
    ensures { result ≡ is_leave_with_resource ranks.now held.now op }
{
    match op {
        Op::Serve(call) => {
            let pauses = matches!(call.service, Service::WaitEvent | Service::Schedule);
            (is_ending(call.service) || pauses) && !held.is_empty()
        },
        Op::Return => !held.is_empty(),
        Op::Invoke { func } => {
            let pauses = ranks.pauses.items().get(func.0 as usize);
            pauses.copied().unwrap_or(false) && !held.is_empty()
        },
        _ => false,
    }
}

fn held_behind(held: Held, call: Call) -> Result<Held>
    ensures { IfOk result (λ next. next.items ≡ held_behind call.service call.object held.items) }
{
    let mut held = held;
    match call.service {
        Service::GetResource => {
            push(&mut held, call.object)?;
            Ok(held)
        }
        Service::ReleaseResource => {
            held.pop();
            Ok(held)
        }
        _ => Ok(held),
    }
}

/// What is held behind the operation.
pub fn held_after(held: Held, op: Op) -> Result<Held>
    ensures { IfOk result (λ next. next.items ≡ held_after op held.items) }
{
    match op {
        Op::Serve(call) => held_behind(held, call),
        _ => Ok(held),
    }
}

/// The list of a label as the held one.
pub fn held_by(alloc: Global, holds: &[ResId]) -> Result<Vec<u32>>
    ensures { IfOk result (λ held. held.items ≡ holds.now) }
{
    let mut held = Vec::new(alloc);
    for resource in holds {
        push(&mut held, resource.0)?;
    }
    Ok(held)
}

/// What is held behind the last label of a place.
pub fn held_at_label(alloc: Global, func: &Func, last: Option<usize>, held: Held) -> Result<Held>
    requires { (k : ℕ) → last ≡ Some k → k < length func.now.labels }
    ensures { IfOk result (λ next. next.items ≡ list_of func.now.labels last held.items) }
{
    match last {
        Some(label) => held_by(alloc, func.labels.items()[label].holds.items()),
        None => Ok(held),
    }
}

// The members of a set are below this.
const SET_SIZE: usize = 64;

/// Whether the set has this member.
pub fn contains(set: u64, member: usize) -> bool
    ensures { result ≡ is_member set member }
{
    member < SET_SIZE && has(set, member)
}

fn is_listed(resources: &[ResId], resource: u32) -> bool
    ensures { result ≡ list_any (λ listed. listed == resource) resources.now }
{
    resources.iter().any(|listed| listed.0 == resource)
}

/// Whether the task lists the resource.
pub fn lists(task: &TaskDecl, resource: u32) -> bool
    ensures { result ≡ is_in resource task.now.resources }
{
    is_listed(task.resources.items(), resource)
}

fn is_unlisted(config: &Config, users: u64, resource: u32) -> bool
    ensures { result ≡ is_unlisted config.now users resource }
{
    let mut unlisted = false;
    for (number, task) in config.tasks.items().iter().enumerate() {
        unlisted = unlisted || (contains(users, number) && !lists(task, resource));
    }
    unlisted
}

/// Whether the task lacks one of these events.
pub fn lacks(config: &Config, task: usize, mask: u32) -> bool
    requires { task < length config.now.tasks }
    ensures { result ≡ lacks config.now task mask }
{
    mask & config.tasks.items()[task].events != mask
}

fn is_lacked(config: &Config, users: u64, mask: u32) -> bool
    ensures { result ≡ is_lacked config.now users mask }
{
    let mut lacked = false;
    for number in 0..config.tasks.items().len() {
        lacked = lacked || (contains(users, number) && lacks(config, number, mask));
    }
    lacked
}

/// V12, where these tasks reach the item.
pub fn is_undeclared_use(config: &Config, users: u64, op: Op) -> bool
    requires { OperandsOf config.now op }
    ensures { result ≡ is_undeclared_use config.now users op }
{
    let Op::Serve(call) = op else {
        return false;
    };
    match call.service {
        Service::GetResource | Service::ReleaseResource => {
            call.object != RES_SCHEDULER && is_unlisted(config, users, call.object)
        }
        Service::ClearEvent | Service::WaitEvent => is_lacked(config, users, call.mask),
        Service::SetEvent => lacks(config, call.object as usize, call.mask),
        Service::GetEvent => !config.tasks.items()[call.object as usize].extended,
        _ => false,
    }
}

/// Whether it is the body of this task.
pub fn is_task_body(func: &Func, task: usize) -> bool
    ensures is { result ≡ is_number task func.now.task }
    ensures owner { result ≡ true → func.now.task ≡ Some task }
{
    match func.task {
        Some(owner) => owner.0 as usize == task,
        None => false,
    }
}
