//! What is known of bodies before any level; the greatest sizes of parts of sections, function by function; the summary
//! of a task's body, and the bound that is told of a greatest size.
//! What items weigh. Tables with an entry for each item or function.
ghost use Rattle.std.specs.Prelude.{◌≡◌, ◌<◌, length, ◌≤◌, ◌+◌, get_or, false};
ghost use Rattle.call_graph.specs.Tables.{HasTaskBody};
ghost use Rattle.bound_rules.specs.Tasks.{task_summary, told};
ghost use Rattle.bound_rules.specs.Items.{callee_of, reaches_level};
ghost use Rattle.bound_rules.specs.Summaries.{summary_of, IsCountedUp, AreCountedUp};
ghost use Rattle.osek_blocking.specs.Sections.{is_schedule};
ghost use Rattle.sloth_base.specs.Limits.{size_limit};
ghost use Rattle.bound_rules.specs.Weights.{no_weights, joined};

use sloth_base::{COUNT_LIMIT, Func, FuncId, Item, List, Op, SIZE_LIMIT, Service, TaskDecl};
use stack_bounds::body_of;

/// How much work of lower tasks may stand between a task's becoming Ready and its entry.
#[derive(Clone, Copy)]
pub enum Bound {
    /// At most so many items, 0 to the greatest that is told: 0 where no task is lower.
    Items(u32),
    /// More than the greatest that is told, but not without limit.
    Huge,
    /// Without limit.
    Endless,
}

/// The summary of a task's body: a task that is not preemptable counts as always raised.
pub fn task_summary(
    tasks: &[TaskDecl],
    funcs: &[Func],
    whole: &[Summary],
    own: &[Summary],
    task: usize,
) -> Summary
    requires inside { task < length tasks.now }
    requires body { HasTaskBody funcs.now task }
    requires whole_count { length whole.now ≡ length funcs.now }
    requires own_count { length own.now ≡ length funcs.now }
    ensures { result ≡ task_summary tasks.now funcs.now whole.now own.now task }
{
    let body = body_of(funcs, task);
    if tasks[task].non {
        whole[body]
    } else {
        own[body]
    }
}

/// What is told of a greatest size.
pub fn told(most: u32) -> Bound
    ensures { result ≡ told most }
{
    if most < COUNT_LIMIT {
        Bound::Items(most + 1)
    } else {
        Bound::Huge
    }
}

/// The summary of a function.
pub fn summary_of(table: &[Summary], func: FuncId) -> Summary
    ensures { result ≡ summary_of table.now func }
{
    table.get(func.0 as usize).copied().unwrap_or(UNKNOWN)
}

/// The summary of the function that item `number` calls.
pub fn callee(
    body: &Body,
    level: Option<u32>,
    whole: &[Summary],
    own: &[Summary],
    number: usize,
    func: FuncId,
) -> Summary
    requires whole_small { AreCountedUp whole.now }
    requires own_small { AreCountedUp own.now }
    ensures is { result ≡ callee_of body.now level whole.now own.now number func }
    ensures small { IsCountedUp result }
{
    if reaches_level(level, number_at(body.ceilings.items(), number)) {
        summary_of(whole, func)
    } else {
        summary_of(own, func)
    }
}

/// The items of a body that walks reach, and the greatest ceiling that the function itself holds before each, or 0.
#[derive(Drop)]
pub struct Body {
    pub reached: List<bool>,
    pub ceilings: List<u32>,
}

/// Whether what is held reaches a level.
pub fn reaches_level(level: Option<u32>, ceiling: u32) -> bool
    ensures { result ≡ reaches_level level ceiling }
{
    match level {
        Some(priority) => priority <= ceiling,
        None => true,
    }
}

/// Whether an operation is a Schedule.
pub fn is_schedule(op: Op) -> bool
    ensures { result ≡ is_schedule op }
{
    match op {
        Op::Serve(call) => call.service.code() == Service::Schedule.code(),
        _ => false,
    }
}

/// The greatest sizes of a function's parts, counted up to 1,000,001, 0 where there is none; or that some is endless.
#[derive(Clone, Copy)]
pub struct Summary {
    /// Some part that begins in the function or in what it calls is larger than any number.
    pub is_endless: bool,
    /// From its first item, inside the function and what it calls.
    pub on: u32,
    /// From its first item up to its `ret`.
    pub back: u32,
    /// From any item of it or of what it calls, inside the function and what it calls.
    pub most: u32,
    /// From any item of it or of what it calls up to its `ret`.
    pub out: u32,
}

/// A function of which nothing is known.
pub const UNKNOWN: Summary = Summary {
    is_endless: false,
    on: 0,
    back: 0,
    most: 0,
    out: 0,
};

/// A function in which parts have no limit.
pub const ENDLESS: Summary = Summary {
    is_endless: true,
    on: 0,
    back: 0,
    most: 0,
    out: 0,
};

/// What the items of a body weigh: where a part goes on behind an item, and where it ends with it.
#[derive(Drop)]
pub struct BodyWeights {
    pub going: List<u32>,
    pub ending: List<u32>,
}

/// The weights of a body.
pub fn weights_at(weights: &[BodyWeights], number: usize) -> &BodyWeights
    requires { number < length weights.now }
    ensures { result.now ≡ get_or weights.now number no_weights }
{
    &weights[number]
}

/// The sum, or the greatest size that is counted.
pub fn joined(one: u32, other: u32) -> u32
    requires one_small { one ≤ size_limit }
    requires other_small { other ≤ size_limit }
    ensures { result ≡ joined one other }
{
    let sum = one + other;
    if sum < SIZE_LIMIT { sum } else { SIZE_LIMIT }
}

/// The size of what goes on behind a call, by the sizes from each item on.
pub fn size_behind(items: &[Item], table: &[u32], number: usize) -> u32
    requires { number < length items.now }
    ensures { result ≡ get_or table.now (number + 1) 0 }
{
    number_at(table, number + 1)
}

/// Whether this one is marked.
pub fn is_marked(marks: &[bool], number: usize) -> bool
    ensures { result ≡ get_or marks.now number false }
{
    marks.get(number).copied().unwrap_or(false)
}

/// The number of this one, 0 where the table has none.
pub fn number_at(table: &[u32], number: usize) -> u32
    ensures { result ≡ get_or table.now number 0 }
{
    table.get(number).copied().unwrap_or(0)
}
