//! What is known of each body before any level: the ways between its items, which of them walks reach, and the greatest
//! ceiling of what the function holds before each (OSEK OS 2.2.3, section 8.6). Which tasks are not preemptable and reach
//! no Schedule (section 13.2.3.4).
ghost use Rattle.std.specs.Prelude.{◌≡◌, ◌<◌, ◌↔◌, ℕ, false, length, get_or, Decides, IfOk, not, ◌≤◌, ◌+◌, map, None, true};
ghost use Rattle.sloth_base.specs.Named.{item_of, function};
ghost use Rattle.code_rules.specs.WellFormed.{WellFormed};
ghost use Rattle.osek_blocking.specs.Walks.{chains_itself};
ghost use Rattle.walk_sums.specs.Graph.{HasMark, ways_of};
ghost use Rattle.walk_sums.specs.Activations.{ReachesItem, CanReturn};
ghost use Rattle.walk_sums.specs.CallOrder.{IsCallOrder};
ghost use Rattle.walk_sums.specs.KnownBodies.{returns_of, IsKnownBody, AreKnownBodies, KnowsReturns};
ghost use Rattle.walk_sums.specs.Ceilings.{AreResourceCeilings};
ghost use Rattle.walk_sums.specs.Rounds.{IsSteady};
ghost use Rattle.sloth_base.specs.Limits.{ceiling_count};
ghost use Rattle.code_rules.specs.Code.{held_list_at, is_followed};
ghost use Rattle.osek_scheduler.specs.Priority.{greatest, ceiling};
ghost use Rattle.task_verify.specs.Labels.{last_label_below};
ghost use Rattle.task_verify.specs.Ways.{HasBodyLabel};
ghost use Rattle.walk_sums.specs.Links.{open_way, goes_past, next_way, label_way, item_ways};

use crate::graph::{Ways, no_marks, reachable};
use crate::{Counted, Kind, Walks, counted_weights};
use bound_rules::{Body, is_marked};
use osek_blocking::chains_itself;
use osek_scheduler::ceiling;
use sloth_base::{App, Config, Func, List, Op, RES_SCHEDULER, Result};
use std::alloc::Global;
use task_verify::{falls, held_after, held_at_label, last_labels, way};
use text_pieces::push;

/// A function by its number.
pub fn numbered_function(app: &App, number: usize) -> &Func
    requires { number < length app.now.funcs }
    ensures { result.now ≡ function app.now number }
{
    &app.funcs.items()[number]
}

fn onward_items(alloc: Global, func: &Func) -> Result<Vec<bool>>
    ensures count { IfOk result (λ marks. length marks.items ≡ length func.now.items) }
    ensures exact { IfOk result (λ marks. (i : ℕ) → i < length func.now.items
        → get_or marks.items i false ≡ not (chains_itself func.now (item_of func.now i).op)) }
{
    let mut marks = Vec::new(alloc);
    for number in 0..func.items.items().len() {
        push(&mut marks, !chains_itself(func, func.op(number)))?;
    }
    Ok(marks)
}

/// The items of function `number` that walks reach, from which of the functions that it calls return.
fn reached_items(
    alloc: Global,
    config: &Config,
    app: &App,
    returns: &[bool],
    number: usize,
    func: &Func,
) -> Result<Vec<bool>>
    requires well_formed { WellFormed config.now app.now }
    requires known { number < length app.now.funcs }
    requires func { func.now ≡ function app.now number }
    requires returns { KnowsReturns app.now number returns.now }
    ensures count { IfOk result (λ marks. length marks.items ≡ length (function app.now number).items) }
    ensures exact { IfOk result (λ marks. (i : ℕ) → HasMark marks.items i ↔ ReachesItem app.now number i) }
{
    let onward = onward_items(alloc, func)?;
    let all = vec![in alloc; true; func.items.items().len()]?;
    let ways = body_ways(alloc, func, returns, &onward, &all)?;
    let marks = reachable(alloc, &ways, 0)?;
    Ok(marks)
}

fn has_return(func: &Func, reached: &[bool]) -> bool
    ensures { result ≡ returns_of func.now reached.now }
{
    let mut returns = false;
    for (number, item) in func.items.items().iter().enumerate() {
        returns = returns || (is_marked(reached, number) && matches!(item.op, Op::Return));
    }
    returns
}

/// Which functions a walk may return from.
fn returning(alloc: Global, config: &Config, app: &App, order: &[usize]) -> Result<Vec<bool>>
    requires well_formed { WellFormed config.now app.now }
    requires order { IsCallOrder app.now order.now }
    ensures { IfOk result (λ returns. (g : ℕ) → g < length app.now.funcs
        → Decides (get_or returns.items g false) (CanReturn app.now g)) }
{
    let mut returns = no_marks(alloc, app.funcs.items().len())?;
    for number in order {
        let func = numbered_function(app, *number);
        let reached = reached_items(alloc, config, app, &returns, *number, func)?;
        returns[*number] = has_return(func, &reached);
    }
    Ok(returns)
}

fn known_body(
    alloc: Global,
    config: &Config,
    app: &App,
    table: &[u32],
    returns: &[bool],
    number: usize,
) -> Result<Body>
    requires well_formed { WellFormed config.now app.now }
    requires table { AreResourceCeilings config.now table.now }
    requires returns { KnowsReturns app.now number returns.now }
    requires known { number < length app.now.funcs }
    ensures { IfOk result (IsKnownBody config.now app.now number) }
{
    let func = numbered_function(app, number);
    let reached = reached_items(alloc, config, app, returns, number, func)?;
    let last = last_labels(alloc, func)?;
    let ceilings = item_ceilings(alloc, config, table, func, &last)?;
    Ok(Body {
        reached: List::from_vec(reached),
        ceilings: List::from_vec(ceilings),
    })
}

/// What is known of each body.
pub fn bodies(alloc: Global, config: &Config, app: &App, order: &[usize]) -> Result<Vec<Body>>
    requires well_formed { WellFormed config.now app.now }
    requires order { IsCallOrder app.now order.now }
    ensures { IfOk result (λ bodies. AreKnownBodies config.now app.now bodies.items) }
{
    let table = ceilings(alloc, config)?;
    let returns = returning(alloc, config, app, order)?;
    let mut bodies = Vec::new(alloc);
    for number in 0..app.funcs.items().len() {
        let body = known_body(alloc, config, app, &table, &returns, number)?;
        push(&mut bodies, body)?;
    }
    Ok(bodies)
}

impl Walks<'_> {
    /// Of each task whether it is not preemptable and no walk of it reaches a Schedule.
    pub fn steady_tasks(&self) -> Result<Vec<bool>>
        ensures { IfOk result (λ steady. (t : ℕ) → t < length self.now.config.tasks
            → Decides (get_or steady.items t false) (IsSteady self.now.config self.now.app t)) }
    {
        let weights = counted_weights(self.alloc(), self.app(), Counted::Schedules)?;
        let table = self.whole_sums(&weights, Kind::Turns)?;
        let mut steady = Vec::new(self.alloc());
        for task in 0..self.tasks() {
            let summary = self.body_summary(&table, task);
            push(&mut steady, self.task(task).non && summary.on <= 1)?;
        }
        Ok(steady)
    }
}

/// The ceilings of all resources, that of RES_SCHEDULER behind the others.
pub fn ceilings(alloc: Global, config: &Config) -> Result<Vec<u32>>
    ensures count { IfOk result (λ table. length table.items ≡ ceiling_count) }
    ensures exact { IfOk result (λ table. AreResourceCeilings config.now table.items) }
{
    let mut table = Vec::new(alloc);
    for resource in 0..RES_SCHEDULER + 1 {
        push(&mut table, ceiling(config, resource))?;
    }
    Ok(table)
}

fn table_ceiling(config: &Config, table: &[u32], resource: u32) -> u32
    requires { AreResourceCeilings config.now table.now }
    ensures { result ≡ ceiling config.now resource }
{
    match table.get(resource as usize) {
        Some(entry) => *entry,
        None => ceiling(config, resource),
    }
}

/// The greatest ceiling of these resources, 0 where there is none.
pub fn greatest_ceiling(config: &Config, table: &[u32], held: &[u32]) -> u32
    requires { AreResourceCeilings config.now table.now }
    ensures { result ≡ greatest (map (ceiling config.now) held.now) }
{
    let mut top = 0;
    for resource in held {
        top = table_ceiling(config, table, *resource).max(top);
    }
    top
}

/// The greatest ceiling of what the function itself holds before each item, 0 where it holds nothing.
fn item_ceilings(
    alloc: Global,
    config: &Config,
    table: &[u32],
    func: &Func,
    last: &[Option<usize>],
) -> Result<Vec<u32>>
    requires table { AreResourceCeilings config.now table.now }
    requires count { length last.now ≡ length func.now.items + 1 }
    requires lasts { (place : ℕ) → place ≤ length func.now.items
        → get_or last.now place None ≡ last_label_below func.now.labels place (length func.now.labels) }
    ensures count { IfOk result (λ ceilings. length ceilings.items ≡ length func.now.items) }
    ensures exact { IfOk result (λ ceilings. (i : ℕ) → i < length func.now.items
        → get_or ceilings.items i 0 ≡ greatest (map (ceiling config.now) (held_list_at func.now i))) }
{
    let mut ceilings = Vec::new(alloc);
    let mut held = Vec::new(alloc);
    for number in 0..func.items.items().len() {
        let entered = held_at_label(alloc, func, last[number], held)?;
        push(&mut ceilings, greatest_ceiling(config, table, &entered))?;
        held = held_after(entered, func.items.items()[number].op)?;
    }
    Ok(ceilings)
}

/// Whether a path goes on to the next item, which is this one.
pub fn is_next_item(op: Op, from: usize, to: usize) -> bool
    ensures goes { result ≡ true → is_followed op ≡ true }
    ensures next { result ≡ true → to ≡ from + 1 }
{
    falls(op) && 0 < to && to - 1 == from
}

fn open_way(open_items: &[bool], place: usize) -> Option<usize>
    ensures { result ≡ open_way open_items.now place }
{
    is_marked(open_items, place).then_some(place)
}

/// Whether what is behind an item is reached from it.
fn goes_past(passed: &[bool], op: Op) -> bool
    ensures { result ≡ goes_past passed.now op }
{
    match op {
        Op::Invoke { func } => is_marked(passed, func.0 as usize),
        _ => falls(op),
    }
}

fn next_way(func: &Func, passed: &[bool], open_items: &[bool], from: usize) -> Option<usize>
    requires { from < length func.now.items }
    ensures { result ≡ next_way func.now passed.now open_items.now from }
{
    if goes_past(passed, func.items.items()[from].op) {
        open_way(open_items, from + 1)
    } else {
        None
    }
}

fn label_way(func: &Func, open_items: &[bool], way: Option<u32>) -> Option<usize>
    requires { (k : ℕ) → way ≡ Some k → k < length func.now.labels }
    ensures { result ≡ label_way func.now open_items.now way }
{
    match way {
        Some(label) => {
            let place = func.labels.items()[label as usize].item;
            open_way(open_items, place as usize)
        }
        None => None,
    }
}

/// The ways of an item, if it is one from which ways go.
fn item_ways(func: &Func, passed: &[bool], going: &[bool], open_items: &[bool], from: usize) -> Ways
    requires inside { from < length func.now.items }
    requires labels { HasBodyLabel func.now (item_of func.now from).op }
    ensures { result ≡ item_ways func.now passed.now going.now open_items.now from }
{
    if is_marked(going, from) {
        Ways {
            next: next_way(func, passed, open_items, from),
            jump: label_way(func, open_items, way(func.op(from))),
        }
    } else {
        Ways {
            next: None,
            jump: None,
        }
    }
}

/// The ways of a body: from the items of one table to those of another, past calls of the functions that may be passed.
pub fn body_ways(
    alloc: Global,
    func: &Func,
    passed: &[bool],
    going: &[bool],
    open_items: &[bool],
) -> Result<Vec<Ways>>
    requires labels { (i : ℕ) → i < length func.now.items → HasBodyLabel func.now (item_of func.now i).op }
    ensures count { IfOk result (λ ways. length ways.items ≡ length func.now.items) }
    ensures exact { IfOk result (λ ways. (i : ℕ) → i < length func.now.items
        → ways_of ways.items i ≡ item_ways func.now passed.now going.now open_items.now i) }
{
    let mut ways = Vec::new(alloc);
    for from in 0..func.items.items().len() {
        push(&mut ways, item_ways(func, passed, going, open_items, from))?;
    }
    Ok(ways)
}
