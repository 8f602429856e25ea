//! The ways through a body: breadth first, the lower item first, and as far as the rules on resources are kept.
//! The held lists at the items of a body, spread along its ways.
ghost use Rattle.std.specs.Prelude.{◌≡◌, ◌<◌, ℕ, length, set, get_or, is_some, Some, None, IfOk, IfSome, OnOk, ◌==◌};
ghost use Rattle.holds_infer.specs.RightLists.{HasItsLabels};
ghost use Rattle.holds_infer.specs.WayLists.{AreWayLists, AreHeldBehind};
ghost use Rattle.std.specs.List.{list_any};
ghost use Rattle.code_rules.specs.Code.{is_in};
ghost use Rattle.holds_infer.specs.Places.{list_at};
ghost use Rattle.holds_infer.specs.Spread.{list_behind, list_after, IsListVisit, AreLists, AreSpreading};

use crate::Found;
use crate::other_ways::goes;
use fault_witnesses::is_orderly;
use sloth_base::{Call, Func, List, Op, ResId, Result, Service};
use std::alloc::Global;
use task_verify::{held_after, held_by, is_held, jump_of, next_of};
use text_pieces::push;

/// An item, and a place to which it may lead.
#[derive(Clone, Copy)]
pub struct Step {
    pub item: usize,
    pub place: usize,
}

/// What the first way to each place holds, the last item of that way, and the step by which a way first meets one that
/// holds different resources, if some does.
#[derive(Drop)]
pub struct BodyWays {
    pub lists: List<Held>,
    pub before: List<usize>,
    pub meeting: Option<Step>,
}

/// These as the list of a label.
pub fn resources(alloc: Global, held: &[u32]) -> Result<Vec<ResId>>
    ensures { IfOk result (λ list. list.items ≡ held.now) }
{
    let mut list = Vec::new(alloc);
    for resource in held {
        push(&mut list, ResId(*resource))?;
    }
    Ok(list)
}

fn keep(alloc: Global, lists: &mut [Held], place: usize, held: &[u32]) -> Result<()>
    requires { place < length lists.old }
    ensures { OnOk result (lists.new ≡ set lists.old place (Some held.now)) }
{
    let list = resources(alloc, held)?;
    lists[place] = Some(List::from_vec(list));
    Ok(())
}

fn has_list(lists: &[Held], item: usize) -> bool
    ensures { result ≡ is_some (get_or lists.now item None) }
{
    match lists.get(item) {
        Some(list) => list.is_some(),
        None => false,
    }
}

fn held_behind(alloc: Global, func: &Func, lists: &[Held], item: usize) -> Found<List<u32>>
    requires inside { item < length func.now.items }
    requires lists { AreWayLists func.now lists.now }
    ensures { IfOk result (λ found. IfSome found (AreHeldBehind func.now item)) }
{
    if !has_list(lists, item) {
        return Ok(None);
    }
    let held = held_by(alloc, place_list(lists, item))?;
    let op = func.op(item);
    if !is_orderly(&held, &op) {
        return Ok(None);
    }
    let behind = held_after(held, op)?;
    Ok(Some(List::from_vec(behind)))
}

// Comes by a step to its place with these held. Whether the place has another list already.
fn arrive(
    alloc: Global,
    func: &Func,
    lists: &mut [Held],
    before: &mut [usize],
    reached: &mut Vec<usize>,
    step: Step,
    held: &[u32],
) -> Result<bool>
    requires inside { step.item < length func.now.items }
    requires labels { HasItsLabels func.now }
    requires held { AreHeldBehind func.now step.item held.now }
    requires lists { AreWayLists func.now lists.old }
    ensures { OnOk result (AreWayLists func.now lists.new) }
{
    let to = step.place;
    if to >= lists.len() || to >= before.len() {
        return Ok(false);
    }
    if !goes(func, step.item, to) {
        return Ok(false);
    }
    if lists[to].is_some() {
        return Ok(!is_held(place_list(lists, to), held));
    }
    keep(alloc, lists, to, held)?;
    before[to] = step.item;
    push(reached, to)?;
    Ok(false)
}

// Goes on from an item. The step to a place at which other resources are held, if there is one.
fn leave(
    alloc: Global,
    func: &Func,
    lists: &mut [Held],
    before: &mut [usize],
    reached: &mut Vec<usize>,
    item: usize,
) -> Found<Step>
    requires inside { item < length func.now.items }
    requires labels { HasItsLabels func.now }
    requires lists { AreWayLists func.now lists.old }
    ensures { OnOk result (AreWayLists func.now lists.new) }
{
    let Some(held) = held_behind(alloc, func, lists, item)? else {
        return Ok(None);
    };
    let next = next_of(func, item);
    let jump = jump_of(func, item);
    let place = next.min(jump);
    let first = Step { item, place };
    if arrive(alloc, func, lists, before, reached, first, held.items())? {
        return Ok(Some(first));
    }
    let place = next.max(jump);
    let second = Step { item, place };
    if arrive(alloc, func, lists, before, reached, second, held.items())? {
        return Ok(Some(second));
    }
    Ok(None)
}

fn reach_all(
    alloc: Global,
    func: &Func,
    lists: &mut [Held],
    before: &mut [usize],
    reached: &mut Vec<usize>,
) -> Found<Step>
    requires labels { HasItsLabels func.now }
    requires lists { AreWayLists func.now lists.old }
    ensures { OnOk result (AreWayLists func.now lists.new) }
{
    let count = func.items.items().len();
    for turn in 0..count {
        if turn >= reached.len() || reached[turn] >= count {
            return Ok(None);
        }
        let item = reached[turn];
        if let Some(meeting) = leave(alloc, func, lists, before, reached, item)? {
            return Ok(Some(meeting));
        }
    }
    Ok(None)
}

fn walk(alloc: Global, func: &Func, lists: &mut [Held], before: &mut [usize]) -> Found<Step>
    requires labels { HasItsLabels func.now }
    requires clear { (i : ℕ) → get_or lists.old i None ≡ None }
    ensures { OnOk result (AreWayLists func.now lists.new) }
{
    if lists.is_empty() {
        return Ok(None);
    }
    keep(alloc, lists, 0, &[])?;
    let mut reached = Vec::new(alloc);
    push(&mut reached, 0)?;
    reach_all(alloc, func, lists, before, &mut reached)
}

/// The ways from the first item of a body.
pub fn body_ways(alloc: Global, func: &Func) -> Result<BodyWays>
    requires { HasItsLabels func.now }
    ensures { IfOk result (λ ways. AreWayLists func.now ways.lists) }
{
    let count = func.items.items().len();
    let mut lists = no_lists(alloc, count)?;
    let mut before = vec![in alloc; 0; count]?;
    let meeting = walk(alloc, func, &mut lists, &mut before)?;
    Ok(BodyWays {
        lists: List::from_vec(lists),
        before: List::from_vec(before),
        meeting,
    })
}

/// What is held at a place, where it has a list.
pub type Held = Option<List<ResId>>;

fn is_any(held: &[ResId], resource: u32) -> bool
    ensures { result ≡ list_any (λ taken. taken == resource) held.now }
{
    held.iter().any(|taken| taken.0 == resource)
}

fn is_listed(held: &[ResId], resource: u32) -> bool
    ensures { result ≡ is_in resource held.now }
{
    is_any(held, resource)
}

fn list_behind(held: Vec<ResId>, call: Call) -> Result<Vec<ResId>>
    ensures { IfOk result (λ next. next.items ≡ list_behind call.service call.object held.items) }
{
    let mut held = held;
    match call.service {
        Service::GetResource => {
            if !is_listed(held.as_slice(), call.object) {
                push(&mut held, ResId(call.object))?;
            }
            Ok(held)
        }
        Service::ReleaseResource => {
            held.pop();
            Ok(held)
        }
        _ => Ok(held),
    }
}

fn list_after(alloc: Global, held: &[ResId], op: Op) -> Result<Vec<ResId>>
    ensures { IfOk result (λ next. next.items ≡ list_after op held.now) }
{
    let held = held.to_vec(alloc)?;
    match op {
        Op::Serve(call) => list_behind(held, call),
        _ => Ok(held),
    }
}

/// The list at a place, empty where it has none.
pub fn place_list(lists: &[Held], place: usize) -> &[ResId]
    ensures { result.now ≡ list_at lists.now place }
{
    match lists.get(place) {
        Some(Some(held)) => held.items(),
        _ => &[],
    }
}

// Gives a place this list and keeps it to go on from, where it has none yet.
fn visit(
    alloc: Global,
    lists: &mut [Held],
    pending: &mut Vec<usize>,
    at: usize,
    held: &[ResId],
) -> Result<()>
    requires { at < length lists.old }
    ensures { OnOk result (IsListVisit lists.old lists.new pending.old.items pending.new.items at held.now) }
{
    if lists[at].is_some() {
        return Ok(());
    }
    let held = held.to_vec(alloc)?;
    push(pending, at)?;
    lists[at] = Some(List::from_vec(held));
    Ok(())
}

fn spread(alloc: Global, func: &Func, lists: &mut [Held], pending: &mut Vec<usize>) -> Result<()>
    requires labels { HasItsLabels func.now }
    requires spreading { AreSpreading func.now lists.old pending.old.items }
    ensures { OnOk result (AreLists func.now lists.new) }
{
    loop {
        match pending.pop() {
            None => return Ok(()),
            Some(from) => {
                let behind = list_after(alloc, place_list(lists, from), func.op(from))?;
                let held = behind.as_slice();
                visit(alloc, lists, pending, next_of(func, from), held)?;
                visit(alloc, lists, pending, jump_of(func, from), held)?;
            }
        }
    }
}

/// So many places without a list.
pub fn no_lists(alloc: Global, count: usize) -> Result<Vec<Held>>
    ensures count { IfOk result (λ lists. length lists.items ≡ count) }
    ensures clear { IfOk result (λ lists. (i : ℕ) → get_or lists.items i None ≡ None) }
{
    let mut lists = Vec::new(alloc);
    for place in 0..count {
        push(&mut lists, None)?;
    }
    Ok(lists)
}

/// The lists of all places that paths from the first one, where nothing is held, reach.
pub fn places(alloc: Global, func: &Func) -> Result<Vec<Held>>
    requires labels { HasItsLabels func.now }
    requires some { 0 < length func.now.items }
    ensures { IfOk result (λ lists. AreLists func.now lists.items) }
{
    let mut lists = no_lists(alloc, func.items.items().len())?;
    let mut pending = Vec::new(alloc);
    visit(alloc, &mut lists, &mut pending, 0, &[])?;
    spread(alloc, func, &mut lists, &mut pending)?;
    Ok(lists)
}
