//! What the items of one body add to parts of walks.
ghost use Rattle.std.specs.Prelude.{◌≡◌, ◌-◌, ◌≤◌, ◌<◌, ℕ, cond, false, length, get_or, IfOk};
ghost use Rattle.sloth_base.specs.Named.{item_of};
ghost use Rattle.sloth_base.specs.Limits.{size_limit};
ghost use Rattle.bound_rules.specs.Summaries.{summary_of, AreCountedUp};
ghost use Rattle.walk_sums.specs.Trails.{AreSizesInLimit};
ghost use Rattle.walk_sums.specs.Kinds.{is_going};
ghost use Rattle.walk_sums.specs.Computed.{is_alive, is_passed, going_size, ending_size, leaving_size};

use crate::Kind;
use crate::graph::Sizes;
use crate::levels::is_going;
use bound_rules::{Body, Summary, is_marked, joined, number_at, reaches_level, summary_of};
use sloth_base::{Func, Op, Result};
use std::alloc::Global;
use text_pieces::push;

/// The items that walks reach and before which the task is raised.
pub fn alive_items(alloc: Global, func: &Func, body: &Body, level: Option<u32>) -> Result<Vec<bool>>
    ensures count { IfOk result (λ alive. length alive.items ≡ length func.now.items) }
    ensures exact { IfOk result (λ alive. (i : ℕ) → i < length func.now.items
        → get_or alive.items i false ≡ is_alive body.now level i) }
{
    let mut alive = Vec::new(alloc);
    for number in 0..func.items.items().len() {
        let is_raised = reaches_level(level, number_at(body.ceilings.items(), number));
        let is_reached = is_marked(body.reached.items(), number);
        push(&mut alive, is_reached && is_raised)?;
    }
    Ok(alive)
}

/// Those of the items of one table from which parts go on.
pub fn going_items(alloc: Global, func: &Func, kind: Kind, alive: &[bool]) -> Result<Vec<bool>>
    ensures count { IfOk result (λ going. length going.items ≡ length func.now.items) }
    ensures exact { IfOk result (λ going. (i : ℕ) → i < length func.now.items
        → get_or going.items i false ≡ is_going func.now kind alive.now i) }
{
    let mut going = Vec::new(alloc);
    for number in 0..func.items.items().len() {
        push(&mut going, is_going(func, kind, alive, number))?;
    }
    Ok(going)
}

/// The functions through which a part may go.
pub fn passed_functions(alloc: Global, whole: &[Summary]) -> Result<Vec<bool>>
    ensures { IfOk result (λ passed. (g : ℕ) → get_or passed.items g false ≡ is_passed (summary_of whole.now g)) }
{
    let mut passed = Vec::new(alloc);
    for summary in whole {
        push(&mut passed, 0 < summary.back)?;
    }
    Ok(passed)
}

/// What an item of this weight adds to a part that goes on behind it, with the function that it calls.
fn going_size(whole: &[Summary], weight: u32, op: Op) -> u32
    requires whole_small { AreCountedUp whole.now }
    requires small { weight ≤ size_limit }
    ensures { result ≡ going_size whole.now weight op }
{
    match op {
        Op::Invoke { func } => joined(weight, summary_of(whole, func).back.saturating_sub(1)),
        _ => weight,
    }
}

/// The size of a part that ends with it, or in a function that it calls; 0 where it is not alive.
fn ending_size(alive: bool, whole: &[Summary], weight: u32, op: Op) -> u32
    requires whole_small { AreCountedUp whole.now }
    requires small { weight ≤ size_limit }
    ensures { result ≡ cond alive (ending_size whole.now weight op) 0 }
{
    if !alive {
        return 0;
    }
    match op {
        Op::Invoke { func } => joined(weight, summary_of(whole, func).on.max(1)),
        _ => joined(weight, 1),
    }
}

/// That of a part that leaves the function with it.
fn leaving_size(alive: bool, weight: u32, op: Op) -> u32
    requires small { weight ≤ size_limit }
    ensures { result ≡ cond alive (leaving_size weight op) 0 }
{
    if !alive {
        return 0;
    }
    match op {
        Op::Return => joined(weight, 1),
        _ => 0,
    }
}

/// What each item adds to a part that goes on behind it.
pub fn going_sizes(alloc: Global, func: &Func, weights: &[u32], whole: &[Summary]) -> Sizes
    requires whole { AreCountedUp whole.now }
    requires small { AreSizesInLimit weights.now }
    ensures count { IfOk result (λ sizes. length sizes.items ≡ length func.now.items) }
    ensures exact { IfOk result (λ sizes. (i : ℕ) → i < length func.now.items
        → get_or sizes.items i 0 ≡ going_size whole.now (get_or weights.now i 0) (item_of func.now i).op) }
{
    let mut sizes = Vec::new(alloc);
    for number in 0..func.items.items().len() {
        let weight = number_at(weights, number);
        push(&mut sizes, going_size(whole, weight, func.op(number)))?;
    }
    Ok(sizes)
}

/// The size of a part that ends with each item, or in a function that it calls.
pub fn ending_sizes(
    alloc: Global,
    func: &Func,
    weights: &[u32],
    alive: &[bool],
    whole: &[Summary],
) -> Sizes
    requires whole { AreCountedUp whole.now }
    requires small { AreSizesInLimit weights.now }
    ensures count { IfOk result (λ sizes. length sizes.items ≡ length func.now.items) }
    ensures exact { IfOk result (λ sizes. (i : ℕ) → i < length func.now.items
        → get_or sizes.items i 0 ≡ cond (get_or alive.now i false)
        (ending_size whole.now (get_or weights.now i 0) (item_of func.now i).op) 0) }
{
    let mut sizes = Vec::new(alloc);
    for number in 0..func.items.items().len() {
        let weight = number_at(weights, number);
        let size = ending_size(is_marked(alive, number), whole, weight, func.op(number));
        push(&mut sizes, size)?;
    }
    Ok(sizes)
}

/// That of a part that leaves the function with it.
pub fn leaving_sizes(alloc: Global, func: &Func, weights: &[u32], alive: &[bool]) -> Sizes
    requires small { AreSizesInLimit weights.now }
    ensures count { IfOk result (λ sizes. length sizes.items ≡ length func.now.items) }
    ensures exact { IfOk result (λ sizes. (i : ℕ) → i < length func.now.items
        → get_or sizes.items i 0 ≡ cond (get_or alive.now i false)
        (leaving_size (get_or weights.now i 0) (item_of func.now i).op) 0) }
{
    let mut sizes = Vec::new(alloc);
    for number in 0..func.items.items().len() {
        let weight = number_at(weights, number);
        let size = leaving_size(is_marked(alive, number), weight, func.op(number));
        push(&mut sizes, size)?;
    }
    Ok(sizes)
}
