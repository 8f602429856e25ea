//! Lists with an entry for each function. What is known of the functions of task code from their calls.
//! What a function does itself: which functions it calls, which resources it takes, whether it waits or calls Schedule.
ghost use Rattle.std.specs.Prelude.{◌≡◌, ℕ, ◌<◌, ◌≤◌, false, length, map, get_or, count_ones, IfOk, ◌==◌, ◌||◌, ◌&&◌, true};
ghost use Rattle.sloth_base.specs.Limits.{body_limit};
ghost use Rattle.call_graph.specs.Bits.{is_member};
ghost use Rattle.call_graph.specs.Rows.{row_has, is_call, is_get, is_taking, is_pause};
ghost use Rattle.call_graph.specs.Reached.{AreFew, func_of, is_direct_call, takes_by, pauses_by, used_by};
ghost use Rattle.call_graph.specs.Gathered.{AreGathered};
ghost use Rattle.std.specs.List.{list_any};

use crate::Result;
use crate::rows::{reached_resources, reaches_pause, reaching_tasks, with};
use sloth_base::{Call, Func, Item, List, NoMemory, Op, Service};
use std::alloc::Global;
use text_pieces::push;

/// The rows of direct calls.
pub fn direct_calls(alloc: Global, funcs: &[Func]) -> Result<Vec<u64>>
    requires { AreFew funcs.now }
    ensures count { IfOk result (λ rows. length rows.items ≡ length funcs.now) }
    ensures calls { IfOk result (λ rows. (f g : ℕ) → f < length funcs.now
        → row_has rows.items f g ≡ is_direct_call (func_of funcs.now f) g) }
{
    let mut rows = Vec::new(alloc);
    for func in funcs {
        push(&mut rows, called(func.items.items()))?;
    }
    Ok(rows)
}

/// The number of functions that each row has.
fn rank_list(alloc: Global, rows: &[u64]) -> Result<List<u32>>
    ensures { IfOk result (λ list. list ≡ map count_ones rows.now) }
{
    let mut list = Vec::new(alloc);
    for row in rows {
        list.push(row.count_ones()).map_err(|_| NoMemory)?;
    }
    Ok(List::from_vec(list))
}

fn resource_sets(alloc: Global, funcs: &[Func], rows: &[u64]) -> Result<List<u64>>
    requires small { AreFew funcs.now }
    ensures count { IfOk result (λ list. length list ≡ length rows.now) }
    ensures sets { IfOk result (λ list. (f r : ℕ) → f < length rows.now
        → is_member (get_or list f 0) r ≡ takes_by funcs.now f (get_or rows.now f 0) r) }
{
    let mut list = Vec::new(alloc);
    for (number, row) in rows.iter().enumerate() {
        list.push(reached_resources(funcs, number, *row))
            .map_err(|_| NoMemory)?;
    }
    Ok(List::from_vec(list))
}

fn pausing_functions(alloc: Global, funcs: &[Func], rows: &[u64]) -> Result<List<bool>>
    requires { length funcs.now ≤ body_limit }
    ensures count { IfOk result (λ list. length list ≡ length rows.now) }
    ensures pauses { IfOk result (λ list. (f : ℕ) → f < length rows.now
        → get_or list f false ≡ pauses_by funcs.now f (get_or rows.now f 0)) }
{
    let mut list = Vec::new(alloc);
    for (number, row) in rows.iter().enumerate() {
        list.push(reaches_pause(funcs, number, *row))
            .map_err(|_| NoMemory)?;
    }
    Ok(List::from_vec(list))
}

fn user_sets(alloc: Global, funcs: &[Func], rows: &[u64]) -> Result<List<u32>>
    requires small { AreFew funcs.now }
    requires same { length rows.now ≡ length funcs.now }
    ensures count { IfOk result (λ list. length list ≡ length funcs.now) }
    ensures sets { IfOk result (λ list. (f t : ℕ) → f < length funcs.now
        → is_member (get_or list f 0) t ≡ used_by funcs.now rows.now f t) }
{
    let mut list = Vec::new(alloc);
    for number in 0..funcs.len() {
        push(&mut list, reaching_tasks(funcs, rows, number))?;
    }
    Ok(List::from_vec(list))
}

/// What closed rows say of each function.
pub fn gathered(alloc: Global, funcs: &[Func], rows: &[u64]) -> Result<Ranks>
    requires few { AreFew funcs.now }
    requires same { length rows.now ≡ length funcs.now }
    ensures { IfOk result (AreGathered funcs.now rows.now) }
{
    Ok(Ranks {
        rank: rank_list(alloc, rows)?,
        resources: resource_sets(alloc, funcs, rows)?,
        pauses: pausing_functions(alloc, funcs, rows)?,
        users: user_sets(alloc, funcs, rows)?,
    })
}

/// What the calls of task code reach, function by function.
pub struct Ranks {
    /// A rank above that of every function that it calls.
    pub rank: List<u32>,
    /// The resources that it reaches taking, as bits.
    pub resources: List<u64>,
    /// Whether it reaches a WaitEvent or a Schedule.
    pub pauses: List<bool>,
    /// The tasks that reach it, as bits.
    pub users: List<u32>,
}

// Written out: what is derived is proved anew wherever a value is let go.
impl Drop for Ranks {
    fn drop(self) {
        let Ranks {
            rank: _,
            resources: _,
            pauses: _,
            users: _,
        } = self;
    }
}

fn with_call(calls: u64, op: Op) -> u64
    requires { (g : ℕ) → is_call g op ≡ true → g < 64 }
    ensures { (g : ℕ) → is_member result g ≡ (is_member calls g || is_call g op) }
{
    match op {
        Op::Invoke { func } => with(calls, func.0),
        _ => calls,
    }
}

/// The functions that these items call.
pub fn called(items: &[Item]) -> u64
    requires { (g : ℕ) → list_any (λ item. is_call g item.op) items.now ≡ true → g < 64 }
    ensures { (g : ℕ) → is_member result g ≡ list_any (λ item. is_call g item.op) items.now }
{
    let mut calls = 0;
    for item in items {
        calls = with_call(calls, item.op);
    }
    calls
}

fn with_object(taken: u64, call: Call) -> u64
    requires { (r : ℕ) → (is_get call.service && (call.object == r)) ≡ true → r < 64 }
    ensures { (r : ℕ) → is_member result r ≡ (is_member taken r || (is_get call.service && (call.object == r))) }
{
    match call.service {
        Service::GetResource => with(taken, call.object),
        _ => taken,
    }
}

fn with_taken(taken: u64, op: Op) -> u64
    requires { (r : ℕ) → is_taking r op ≡ true → r < 64 }
    ensures { (r : ℕ) → is_member result r ≡ (is_member taken r || is_taking r op) }
{
    match op {
        Op::Serve(call) => with_object(taken, call),
        _ => taken,
    }
}

/// The resources that these items take.
pub fn taken(items: &[Item]) -> u64
    requires { (r : ℕ) → list_any (λ item. is_taking r item.op) items.now ≡ true → r < 64 }
    ensures { (r : ℕ) → is_member result r ≡ list_any (λ item. is_taking r item.op) items.now }
{
    let mut resources = 0;
    for item in items {
        resources = with_taken(resources, item.op);
    }
    resources
}

/// Whether one of these items waits or calls Schedule.
pub fn pauses(items: &[Item]) -> bool
    ensures { result ≡ list_any (λ item. is_pause item.op) items.now }
{
    items.iter().any(|item| (match item.op {
        Op::Serve(call) => matches!(call.service, Service::WaitEvent | Service::Schedule),
        _ => false,
    }))
}
