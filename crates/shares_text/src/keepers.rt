//! What keeps higher users of a symbol out while lower ones use it.
ghost use Rattle.std.specs.Prelude.{◌≡◌, ◌<◌, ◌==◌, ◌&&◌, ◌||◌, not, ℕ, Some, length, IfOk};
ghost use Rattle.call_graph.specs.Bits.{is_member};
ghost use Rattle.shares_text.specs.Computed.{is_under, IsNextUser, is_held_at_some, is_reaching, IsKeeperBy};
ghost use Rattle.shares_text.specs.Computed.{AreKeepersBy, higher_of};

use crate::contexts::Use;
use crate::verdict::{common, with_resource};
use call_graph::{has, union};
use sloth_base::{Result, TaskDecl};
use std::alloc::Global;
use text_pieces::push;

/// A user of a symbol, with what keeps those above it out: not preemptable, or resources that it holds at accesses.
#[derive(Clone, Copy)]
pub struct Keeper {
    pub task: usize,
    pub non: bool,
    pub held: u64,
}

fn is_under(priority: u32, above: Option<u32>) -> bool
    ensures { result ≡ is_under priority above }
{
    match above {
        Some(above) => priority < above,
        None => true,
    }
}

fn higher_user(tasks: &[TaskDecl], best: Option<usize>, task: usize) -> Option<usize>
    requires inside { task < length tasks.now }
    requires best { (t : ℕ) → best ≡ Some t → t < length tasks.now }
    ensures { result ≡ higher_of tasks.now best task }
{
    match best {
        Some(other) if tasks[task].priority <= tasks[other].priority => Some(other),
        _ => Some(task),
    }
}

fn next_user(tasks: &[TaskDecl], users: u32, above: Option<u32>) -> Option<usize>
    requires { length tasks.now < 33 }
    ensures { IsNextUser tasks.now users above (length tasks.now) result }
{
    let mut best = None;
    for (number, task) in tasks.iter().enumerate() {
        if is_under(task.priority, above) && has(u64::from(users), number) {
            best = higher_user(tasks, best, number);
        }
    }
    best
}

fn reaching(ceilings: &[u32], priority: u32) -> u64
    ensures { (r : ℕ) → r < 64 → is_member result r ≡ is_reaching ceilings.now priority r }
{
    let mut set = 0;
    for (resource, ceiling) in ceilings.iter().enumerate() {
        if *ceiling >= priority {
            set = with_resource(set, resource);
        }
    }
    set
}

fn held_once_more(held: u64, used: &Use, task: usize) -> u64
    ensures { (r : ℕ) → is_member result r
        ≡ (is_member held r || ((used.now.task == task) && is_member used.now.held r)) }
{
    if used.task == task {
        union(held, used.held)
    } else {
        held
    }
}

fn held_at_some(uses: &[Use], task: usize) -> u64
    ensures { (r : ℕ) → is_member result r ≡ is_held_at_some uses.now task r }
{
    let mut held = 0;
    for used in uses {
        held = held_once_more(held, used, task);
    }
    held
}

// What the task holds that keeps the next higher user out, whose priority is this; nothing where it is not preemptable.
fn held_below(ceilings: &[u32], uses: &[Use], task: usize, priority: u32, non: bool) -> u64
    ensures { (r : ℕ) → r < 64 → is_member result r
        ≡ (not non && (is_held_at_some uses.now task r && is_reaching ceilings.now priority r)) }
{
    if non {
        0
    } else {
        common(held_at_some(uses, task), reaching(ceilings, priority))
    }
}

// What keeps the next higher user out, whose priority this is, if there is one.
fn user_keeper(
    tasks: &[TaskDecl],
    ceilings: &[u32],
    uses: &[Use],
    task: usize,
    above: Option<u32>,
) -> Keeper
    requires { task < length tasks.now }
    ensures { IsKeeperBy tasks.now ceilings.now uses.now task above result }
{
    match above {
        None => Keeper {
            task,
            non: false,
            held: 0,
        },
        Some(priority) => {
            let non = tasks[task].non;
            let held = held_below(ceilings, uses, task, priority, non);
            Keeper { task, non, held }
        },
    }
}

/// The users of a symbol from the highest priority down, each with what keeps those above it out.
pub fn keepers(
    alloc: Global,
    tasks: &[TaskDecl],
    ceilings: &[u32],
    users: u32,
    uses: &[Use],
) -> Result<Vec<Keeper>>
    requires { length tasks.now < 33 }
    ensures { IfOk result (λ list. AreKeepersBy tasks.now ceilings.now users uses.now None list.items) }
{
    let mut list = Vec::new(alloc);
    let mut above = None;
    loop {
        match next_user(tasks, users, above) {
            Some(task) => {
                push(&mut list, user_keeper(tasks, ceilings, uses, task, above))?;
                above = Some(tasks[task].priority);
            }
            None => return Ok(list),
        }
    }
}
