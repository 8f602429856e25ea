//! Two ways to a label that hold different resources. Whether items are a way to a place, and what they hold.
ghost use Rattle.std.specs.Prelude.{◌≡◌, ◌<◌, length, IfOk, IfSome, true};
ghost use Rattle.holds_infer.specs.RightLists.{HasItsLabels};
ghost use Rattle.holds_infer.specs.LabelWays.{AreOtherWays, way_place, HoldsOnWay, IsHoldingWay};
ghost use Rattle.sloth_base.specs.Named.{item_of};
ghost use Rattle.code_rules.specs.Code.{IsPathStep};
ghost use Rattle.fault_witnesses.specs.CleanWays.{is_orderly};

use crate::Found;
use crate::body_ways::{Step, body_ways, resources};
use fault_witnesses::is_orderly;
use sloth_base::{Func, List, Result};
use std::alloc::Global;
use task_verify::{held_after, is_held, jump_of, next_of};
use text_pieces::push;

/// A label by its number, and two ways to it that hold different resources.
#[derive(Drop)]
pub struct OtherWays {
    pub label: usize,
    pub one: HoldingWay,
    pub other: HoldingWay,
}

// The items of the first way to an item, and the item itself, found from that one back.
fn way_through(alloc: Global, before: &[usize], item: usize) -> Result<Vec<usize>> {
    let mut way = Vec::new(alloc);
    let mut at = item;
    for _turn in 0..before.len() {
        if at > 0 && at < before.len() {
            push(&mut way, at)?;
            at = before[at];
        }
    }
    push(&mut way, 0)?;
    way.reverse();
    Ok(way)
}

// The two ways that meet, if they lead to the label and hold different resources.
fn meeting_ways(alloc: Global, func: &Func, before: &[usize], meeting: Step) -> Found<OtherWays>
    requires { HasItsLabels func.now }
    ensures { IfOk result (λ found. IfSome found (AreOtherWays func.now)) }
{
    let (labels, place) = (func.labels.items(), meeting.place);
    let Some(label) = labels.iter().position(|label| label.item as usize == place) else {
        return Ok(None);
    };
    let place = labels[label].item as usize;
    let mut way = way_through(alloc, before, meeting.place)?;
    way.pop();
    let Some(one) = holding_way(alloc, func, place, way)? else {
        return Ok(None);
    };
    let way = way_through(alloc, before, meeting.item)?;
    let Some(other) = holding_way(alloc, func, place, way)? else {
        return Ok(None);
    };
    let held = resources(alloc, one.held.items())?;
    if is_held(&held, other.held.items()) {
        return Ok(None);
    }
    Ok(Some(OtherWays { label, one, other }))
}

/// The first two ways through a body that meet at a label with different resources held, if some do.
pub fn other_ways(alloc: Global, func: &Func) -> Found<OtherWays>
    requires { HasItsLabels func.now }
    ensures { IfOk result (λ found. IfSome found (AreOtherWays func.now)) }
{
    let ways = body_ways(alloc, func)?;
    match ways.meeting {
        Some(meeting) => meeting_ways(alloc, func, ways.before.items(), meeting),
        None => Ok(None),
    }
}

/// A way through a body, by the numbers of its items, and the resources that are held behind the last of them, in the
/// order in which they were taken.
#[derive(Drop)]
pub struct HoldingWay {
    pub items: List<usize>,
    pub held: List<u32>,
}

fn way_place(way: &[usize], goal: usize, number: usize) -> usize
    ensures { result ≡ way_place way.now goal number }
{
    match way.get(number) {
        Some(item) => *item,
        None => goal,
    }
}

fn starts(way: &[usize], goal: usize) -> bool
    ensures { result ≡ true → way_place way.now goal 0 ≡ 0 }
{
    way_place(way, goal, 0) == 0
}

/// Whether an item goes on or jumps to a place, another one.
pub fn goes(func: &Func, item: usize, place: usize) -> bool
    requires inside { item < length func.now.items }
    requires labels { HasItsLabels func.now }
    ensures { result ≡ true → IsPathStep func.now item place }
{
    item != place && (next_of(func, item) == place || jump_of(func, item) == place)
}

// Whether an item of the body leads to a place, and is orderly with these held.
fn leads(func: &Func, held: &[u32], item: usize, place: usize) -> bool
    requires { HasItsLabels func.now }
    ensures inside { result ≡ true → item < length func.now.items }
    ensures orderly { result ≡ true → is_orderly held.now (item_of func.now item).op ≡ true }
    ensures goes { result ≡ true → IsPathStep func.now item place }
{
    item < func.items.items().len()
        && is_orderly(held, &func.items.items()[item].op)
        && goes(func, item, place)
}

fn held_on_way(alloc: Global, func: &Func, goal: usize, way: &[usize]) -> Found<List<u32>>
    requires { HasItsLabels func.now }
    ensures { IfOk result (λ found. IfSome found (HoldsOnWay func.now goal way.now)) }
{
    if !starts(way, goal) {
        return Ok(None);
    }
    let mut held = Vec::new(alloc);
    for number in 0..way.len() {
        let item = way[number];
        if !leads(func, &held, item, way_place(way, goal, number + 1)) {
            return Ok(None);
        }
        held = held_after(held, func.op(item))?;
    }
    Ok(Some(List::from_vec(held)))
}

/// The way with what its items hold, if it leads from the first item of the body to the goal and keeps the rules on
/// resources.
pub fn holding_way(alloc: Global, func: &Func, goal: usize, way: Vec<usize>) -> Found<HoldingWay>
    requires { HasItsLabels func.now }
    ensures { IfOk result (λ found. IfSome found (IsHoldingWay func.now goal)) }
{
    match held_on_way(alloc, func, goal, way.as_slice())? {
        Some(held) => Ok(Some(HoldingWay {
            items: List::from_vec(way),
            held,
        })),
        None => Ok(None),
    }
}
