//! Chains of calls. The calls by which a function calls itself (V1).
//! The calls that lead from an item to what breaks V9 or V10.
//! The search for the shortest chain of calls: breadth first, items in their order.
ghost use Rattle.std.specs.Prelude.{◌≡◌, ◌&&◌, ◌==◌, ◌<◌, true, length, IfOk, IfSome};
ghost use Rattle.std.specs.List.{list_any};
ghost use Rattle.sloth_base.specs.Named.{function, operation};
ghost use Rattle.sloth_base.specs.declared.app.Item.{Item};
ghost use Rattle.call_graph.specs.Rows.{is_call, is_pause};
ghost use Rattle.fault_witnesses.specs.CallChains.{IsCallOn, IsChain, chain_end, IsCycle};
ghost use Rattle.code_rules.specs.AppRange.{AppInRange};
ghost use Rattle.code_rules.specs.Code.{held_list_at};
ghost use Rattle.sloth_base.specs.declared.app.Op.TheVariants as op;
ghost use Rattle.fault_witnesses.specs.declared.breaches.Place.TheVariants as place;
ghost use Rattle.fault_witnesses.specs.Places.{IsPlace};
ghost use Rattle.fault_witnesses.specs.Witnesses.{is_culprit, AreShownCalls};

use crate::body_lists::is_own_second_take;
use crate::{Found, Judged, held_list};
use sloth_base::{App, Code, Func, List, Op, Result, Service};
use std::alloc::Global;
use text_pieces::push;

/// A call: the number of the function that is called, and the line of the item that calls it.
#[derive(Clone, Copy)]
pub struct Link {
    pub func: usize,
    pub line: u32,
}

/// A chain of calls, and the number of an item in the body that it leads to.
#[derive(Drop)]
pub struct Calls {
    pub links: List<Link>,
    pub item: usize,
}

/// Whether the operation calls the function.
pub fn is_call(op: Op, func: usize) -> bool
    ensures { result ≡ is_call func op }
{
    match op {
        Op::Invoke { func: called } => called.0 as usize == func,
        _ => false,
    }
}

fn has_line_call(caller: &Func, func: usize, line: u32) -> bool
    ensures { result ≡ list_any (λ (item : Item). is_call func item.op && (item.line == line)) caller.now.items }
{
    let items = caller.items.items();
    items
        .iter()
        .any(|item| is_call(item.op, func) && item.line == line)
}

fn makes_call(app: &App, caller: usize, link: Link) -> bool
    ensures { result ≡ true → IsCallOn app.now caller link }
{
    caller < app.funcs.items().len() && has_line_call(app.function(caller), link.func, link.line)
}

/// Whether each of these calls stands in the body before.
pub fn is_chain(app: &App, start: usize, links: &[Link]) -> bool
    ensures { result ≡ true → IsChain app.now start links.now }
{
    let mut caller = start;
    for (number, link) in links.iter().enumerate() {
        if !makes_call(app, caller, *link) {
            return false;
        }
        caller = link.func;
    }
    true
}

/// The function that the last of these calls calls, or the start.
pub fn chain_end(start: usize, links: &[Link]) -> usize
    ensures { result ≡ chain_end start links.now }
{
    if links.is_empty() {
        return start;
    }
    links[links.len() - 1].func
}

/// Whether these calls lead from one body to another.
pub fn leads(app: &App, start: usize, links: &[Link], end: usize) -> bool
    ensures chain { result ≡ true → IsChain app.now start links.now }
    ensures ends { result ≡ true → chain_end start links.now ≡ end }
{
    is_chain(app, start, links) && chain_end(start, links) == end
}

// The line of an item of a function, 0 where there is none.
fn item_line(app: &App, func: usize, item: usize) -> u32 {
    match app.funcs.items().get(func) {
        Some(func) => func.items.items().get(item).map_or(0, |item| item.line),
        None => 0,
    }
}

// The calls to a body that calls the function, and that call, if they lead back to the function.
fn closed_cycle(alloc: Global, app: &App, body: usize, calls: &Calls) -> Found<List<Link>>
    ensures { IfOk result (λ found. IfSome found (λ links. IsCycle app.now body links)) }
{
    let links = calls.links.items();
    let line = item_line(app, chain_end(body, links), calls.item);
    let mut longer = links.to_vec(alloc)?;
    push(&mut longer, Link { func: body, line })?;
    if !leads(app, body, &longer, body) {
        return Ok(None);
    }
    Ok(Some(List::from_vec(longer)))
}

/// The shortest chain of calls by which a function calls itself, if there is one: its last call is of the function.
pub fn cycle_calls(alloc: Global, app: &App, body: usize) -> Found<List<Link>>
    ensures { IfOk result (λ found. IfSome found (λ links. IsCycle app.now body links)) }
{
    match shortest_chain(alloc, app, body, Aim::CallOf(body))? {
        Some(calls) => closed_cycle(alloc, app, body, &calls),
        None => Ok(None),
    }
}

fn is_culprit(code: Code, held: &[u32], op: Op) -> bool
    ensures { result ≡ is_culprit code held.now op }
{
    match code {
        Code::V9 => is_own_second_take(held, op),
        Code::V10 => is_pause(op),
        _ => false,
    }
}

fn is_culprit_item(app: &App, code: Code, held: &[u32], body: usize, item: usize) -> bool
    ensures known { result ≡ true → body < length app.now.funcs }
    ensures inside { result ≡ true → item < length (function app.now body).items }
    ensures culprit { result ≡ true → is_culprit code held.now (operation app.now body item) ≡ true }
{
    if body >= app.funcs.items().len() {
        return false;
    }
    let items = app.function(body).items.items();
    item < items.len() && is_culprit(code, held, items[item].op)
}

fn reaches_culprit(app: &App, code: Code, held: &[u32], callee: usize, calls: &Calls) -> bool
    ensures chain { result ≡ true → IsChain app.now callee calls.now.links }
    ensures known { result ≡ true → chain_end callee calls.now.links < length app.now.funcs }
    ensures inside { result ≡ true → calls.now.item < length
        (function app.now (chain_end callee calls.now.links)).items }
    ensures culprit { result ≡ true
        → is_culprit code held.now (operation app.now (chain_end callee calls.now.links) calls.now.item) ≡ true }
{
    let end = chain_end(callee, calls.links.items());
    is_chain(app, callee, calls.links.items()) && is_culprit_item(app, code, held, end, calls.item)
}

fn chain_calls(judged: &Judged, body: usize, item: usize, func: usize, held: &[u32]) -> Found<Calls>
    requires is { operation judged.now.app.now body item ≡ op.Invoke func }
    requires held { held.now ≡ held_list_at (function judged.now.app.now body) item }
    ensures { IfOk result (λ calls.
        AreShownCalls judged.now.app.now judged.now.refusal.code (place.Item body item) calls) }
{
    let aim = match judged.refusal.code {
        Code::V9 => Aim::Taking(held),
        _ => Aim::Pause,
    };
    let Some(calls) = shortest_chain(judged.alloc, judged.app, func, aim)? else {
        return Ok(None);
    };
    if !reaches_culprit(judged.app, judged.refusal.code, held, func, &calls) {
        return Ok(None);
    }
    Ok(Some(calls))
}

/// The calls behind V9 and V10, where the item calls a function; of other rules none.
pub fn calls_to_culprit(judged: &Judged, body: usize, item: usize) -> Found<Calls>
    requires in_range { AppInRange judged.now.config.now judged.now.app.now }
    requires is_place { IsPlace judged.now.app.now (place.Item body item) }
    ensures { IfOk result (λ calls.
        AreShownCalls judged.now.app.now judged.now.refusal.code (place.Item body item) calls) }
{
    if !matches!(judged.refusal.code, Code::V9 | Code::V10) {
        return Ok(None);
    }
    let func = judged.app.function(body);
    let Some(callee) = func.items.items()[item].op.callee() else {
        return Ok(None);
    };
    let held = held_list(judged.alloc, func, item)?;
    chain_calls(judged, body, item, callee, &held)
}

/// What a chain is to lead to.
#[derive(Clone, Copy)]
pub enum Aim<'t> {
    /// A call of this function.
    CallOf(usize),
    /// An item that takes one of these resources.
    Taking(&'t [u32]),
    /// An item that waits, or calls Schedule.
    Pause,
    /// This function itself.
    Function(usize),
}

// A function that was reached, by a call, and the place of its caller among those that were reached.
#[derive(Clone, Copy)]
struct Reached {
    link: Link,
    before: usize,
}

/// Whether the operation waits or calls Schedule.
pub fn is_pause(op: Op) -> bool
    ensures { result ≡ is_pause op }
{
    match op {
        Op::Serve(call) => matches!(call.service, Service::WaitEvent | Service::Schedule),
        _ => false,
    }
}

// The first item of the function with this number that is looked for.
fn aimed_item(aim: Aim, number: usize, func: &Func) -> Option<usize> {
    if let Aim::Function(wanted) = aim {
        return if wanted == number { Some(0) } else { None };
    }
    for (place, item) in func.items.items().iter().enumerate() {
        let is_aim = match aim {
            Aim::CallOf(func) => is_call(item.op, func),
            Aim::Taking(held) => is_own_second_take(held, item.op),
            Aim::Pause => is_pause(item.op),
            Aim::Function(_) => false,
        };
        if is_aim {
            return Some(place);
        }
    }
    None
}

// What the items of a function call, if it was not reached.
fn reach_all(reached: &mut Vec<Reached>, before: usize, func: &Func) -> Result<()> {
    for item in func.items.items() {
        if let Some(func) = item.op.callee() {
            if !reached.as_slice().iter().any(|one| one.link.func == func) {
                let line = item.line;
                let link = Link { func, line };
                push(reached, Reached { link, before })?;
            }
        }
    }
    Ok(())
}

// The calls from the first on, found from the last one back.
fn reached_links(alloc: Global, reached: &[Reached], last: usize) -> Result<List<Link>> {
    let mut links = Vec::new(alloc);
    let mut at = last;
    for _turn in 0..reached.len() {
        if at > 0 && at < reached.len() {
            push(&mut links, reached[at].link)?;
            at = reached[at].before;
        }
    }
    links.reverse();
    Ok(List::from_vec(links))
}

/// The shortest chain of calls from a function to what is looked for, if there is one.
pub fn shortest_chain(alloc: Global, app: &App, start: usize, aim: Aim) -> Found<Calls> {
    let count = app.funcs.items().len();
    let (func, line) = (start, 0);
    let (link, before) = (Link { func, line }, 0);
    let mut reached = Vec::new(alloc);
    push(&mut reached, Reached { link, before })?;
    for turn in 0..count + 1 {
        if turn >= reached.len() || reached[turn].link.func >= count {
            return Ok(None);
        }
        let number = reached[turn].link.func;
        let func = app.function(number);
        if let Some(item) = aimed_item(aim, number, func) {
            let links = reached_links(alloc, &reached, turn)?;
            return Ok(Some(Calls { links, item }));
        }
        reach_all(&mut reached, turn, func)?;
    }
    Ok(None)
}

/// The shortest chain of calls from one body to another, if there is one.
pub fn calls_between(alloc: Global, app: &App, start: usize, end: usize) -> Found<List<Link>>
    ensures { IfOk result (λ found.
        IfSome found (λ links. IsChain app.now start links × (chain_end start links ≡ end))) }
{
    let aim = Aim::Function(end);
    let Some(Calls { links, item: _ }) = shortest_chain(alloc, app, start, aim)? else {
        return Ok(None);
    };
    if !leads(app, start, links.items(), end) {
        return Ok(None);
    }
    Ok(Some(links))
}
