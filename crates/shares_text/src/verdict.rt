//! What keeps the users of one symbol apart. Sets of tasks and of resources as bits.
ghost use Rattle.std.specs.Prelude.{◌≡◌, ◌==◌, ◌<◌, true, length, IfOk, ◌&&◌, ◌||◌, ltb, ℕ, get_or};
ghost use Rattle.std.specs.List.{list_any, list_all};
ghost use Rattle.shares_text.specs.VerdictsBy.{AreTasksOf, AreCommon, AreOfTwo, IsVerdictBy};
ghost use Rattle.sloth_base.specs.Limits.{ceiling_count};
ghost use Rattle.code_rules.specs.Code.{is_in};
ghost use Rattle.call_graph.specs.Bits.{is_member};

use crate::contexts::Use;
use crate::keepers::{Keeper, keepers};
use crate::open_pairs::{OpenPair, open_pair};
use call_graph::rows;
use sloth_base::{List, Result, TaskDecl};
use std::alloc::Global;

/// What keeps the users of a symbol apart.
#[derive(Drop)]
pub enum Verdict {
    /// No task uses it.
    Unused,
    /// One task alone does.
    One(usize),
    /// These tasks load it, and none stores into it.
    Reads(u32),
    /// These resources are held at each access.
    Guarded(u64),
    /// Each lower user keeps the higher ones out: the users, from the highest down.
    Ordered(List<Keeper>),
    /// A higher user may come between.
    Open(OpenPair),
}

fn is_of_one(uses: &[Use], task: usize) -> bool
    ensures { result ≡ list_all (λ u. u.task == task) uses.now }
{
    uses.iter().all(|used| used.task == task)
}

fn has_store(uses: &[Use]) -> bool
    ensures { result ≡ list_any (λ u. u.stores) uses.now }
{
    uses.iter().any(|used| used.stores)
}

fn user_set(uses: &[Use]) -> u32
    ensures { AreTasksOf uses.now result }
{
    let mut users = 0;
    for used in uses {
        users = with_task(users, used.task);
    }
    users
}

fn guard_set(uses: &[Use]) -> u64
    ensures { AreCommon uses.now result }
{
    let mut guards = all_resources();
    for used in uses {
        guards = common(guards, used.held);
    }
    guards
}

fn first_user(uses: &[Use]) -> usize
    requires { 0 < length uses.now }
    ensures { list_any (λ u. u.task == result) uses.now ≡ true }
{
    uses[0].task
}

// Of a symbol that some tasks share.
fn shared(alloc: Global, tasks: &[TaskDecl], ceilings: &[u32], uses: &[Use]) -> Result<Verdict>
    requires few { length tasks.now < 33 }
    requires two { AreOfTwo uses.now }
    ensures { IfOk result (IsVerdictBy tasks.now ceilings.now uses.now) }
{
    if !has_store(uses) {
        return Ok(Verdict::Reads(user_set(uses)));
    }
    let guards = guard_set(uses);
    if guards != 0 {
        return Ok(Verdict::Guarded(guards));
    }
    if let Some(pair) = open_pair(alloc, tasks, uses)? {
        return Ok(Verdict::Open(pair));
    }
    let list = keepers(alloc, tasks, ceilings, user_set(uses), uses)?;
    Ok(Verdict::Ordered(List::from_vec(list)))
}

/// The verdict by the uses of a symbol.
pub fn judge(alloc: Global, tasks: &[TaskDecl], ceilings: &[u32], uses: &[Use]) -> Result<Verdict>
    requires { length tasks.now < 33 }
    ensures { IfOk result (IsVerdictBy tasks.now ceilings.now uses.now) }
{
    if uses.is_empty() {
        return Ok(Verdict::Unused);
    }
    let first = first_user(uses);
    if is_of_one(uses, first) {
        return Ok(Verdict::One(first));
    }
    shared(alloc, tasks, ceilings, uses)
}

/// The members of both.
pub fn common(one: u64, other: u64) -> u64
    ensures { (r : ℕ) → is_member result r ≡ (is_member one r && is_member other r) }
{
    one & other
}

/// The set with one member more, if it has room for it.
pub fn with_resource(set: u64, resource: usize) -> u64
    ensures { (r : ℕ) → r < 64 → is_member result r ≡ (is_member set r || (resource == r)) }
{
    if resource < 64 {
        rows::with(set, resource as u32)
    } else {
        set
    }
}

/// The same of a task.
pub fn with_task(set: u32, task: usize) -> u32
    ensures { (t : ℕ) → t < 32 → is_member result t ≡ (is_member set t || (task == t)) }
{
    if task < 32 {
        rows::with_task(set, task as u32)
    } else {
        set
    }
}

/// The resources of a list.
pub fn resource_set(held: &[u32]) -> u64
    ensures { (r : ℕ) → r < 64 → is_member result r ≡ is_in r held.now }
{
    let mut set = 0;
    for resource in held {
        set = with_resource(set, *resource as usize);
    }
    set
}

/// All resources, RES_SCHEDULER behind the others.
pub fn all_resources() -> u64
    ensures { (r : ℕ) → is_member result r ≡ ltb r ceiling_count }
{
    0x1_ffff_ffff
}

/// What stands at a place of a table; `none` behind its end.
pub fn entry<T: Copy>(table: &[T], place: usize, none: T) -> T
    ensures { result ≡ get_or table.now place none }
{
    table.get(place).copied().unwrap_or(none)
}
