//! Ways in the order of the text, from the last label in front.
ghost use Rattle.std.specs.Prelude.{◌≡◌, ◌<◌, ◌≤◌, ◌+◌, ◌-◌, ℕ, length, true, Some, None, IfOk};
ghost use Rattle.sloth_base.specs.Named.{label_of};
ghost use Rattle.task_verify.specs.Labels.{last_label_below, ArePlaced};
ghost use Rattle.fault_witnesses.specs.BodyLists.{AreLastLabels};
ghost use Rattle.fault_witnesses.specs.CleanWays.{IsCleanStep, IsShownWay, way_item};

use crate::{Found, Way, is_orderly};
use sloth_base::{Func, Item, List, Result};
use std::alloc::Global;
use task_verify::{falls, held_after, held_by, last_labels};
use text_pieces::push;

fn label_in_front(last: &[Option<usize>], goal: usize) -> Option<usize> {
    if goal >= last.len() {
        return None;
    }
    for number in 0..goal + 1 {
        if let Some(label) = last[goal - number] {
            return Some(label);
        }
    }
    None
}

fn is_straight(
    alloc: Global,
    func: &Func,
    last: &[Option<usize>],
    label: usize,
    goal: usize,
) -> Result<bool>
    requires count { length last.now ≡ length func.now.items + 1 }
    requires lasts { AreLastLabels func.now last.now }
    requires known { label < length func.now.labels }
    requires behind { last_label_below func.now.labels (label_of func.now label).item (length func.now.labels)
        ≡ Some label }
    requires inside { goal < length func.now.items }
    ensures { IfOk result (λ straight. straight ≡ true → (i : ℕ) → (label_of func.now label).item ≤ i → i < goal
        → IsCleanStep func.now i (i + 1)) }
{
    let label = &func.labels.items()[label];
    let mut held = held_by(alloc, label.holds.items())?;
    for item in label.item as usize..goal {
        let op = &func.items.items()[item].op;
        if !falls(*op) || last[item + 1].is_some() || !is_orderly(&held, op) {
            return Ok(false);
        }
        held = held_after(held, *op)?;
    }
    Ok(true)
}

fn items_between(alloc: Global, items: &[Item], first: usize, goal: usize) -> Result<Vec<usize>>
    requires ordered { first ≤ goal }
    requires inside { goal < length items.now }
    ensures count { IfOk result (λ way. length way.items ≡ goal - first + 1) }
    ensures each { IfOk result (λ way. (n : ℕ) → n < goal - first + 1 → way_item way.items n ≡ first + n) }
{
    let mut way = Vec::new(alloc);
    for number in 0..goal - first + 1 {
        push(&mut way, first + number)?;
    }
    Ok(way)
}

fn labelled_way(alloc: Global, func: &Func, last: &[Option<usize>], goal: usize) -> Found<Way>
    requires count { length last.now ≡ length func.now.items + 1 }
    requires lasts { AreLastLabels func.now last.now }
    requires inside { goal < length func.now.items }
    ensures { IfOk result (IsShownWay func.now goal) }
{
    let Some(label) = label_in_front(last, goal) else {
        return Ok(None);
    };
    if !stands_last(func, last, label, goal) || !is_straight(alloc, func, last, label, goal)? {
        return Ok(None);
    }
    let first = func.labels.items()[label].item as usize;
    let way = items_between(alloc, func.items.items(), first, goal)?;
    Ok(Some(Way {
        label: Some(label),
        items: List::from_vec(way),
    }))
}

fn is_number(found: Option<usize>, number: usize) -> bool
    ensures { result ≡ true → found ≡ Some number }
{
    match found {
        Some(other) => other == number,
        None => false,
    }
}

// Whether the label is the last one at its place, which is not behind the goal.
fn stands_last(func: &Func, last: &[Option<usize>], label: usize, goal: usize) -> bool
    requires lasts { AreLastLabels func.now last.now }
    requires inside { goal < length func.now.items }
    ensures known { result ≡ true → label < length func.now.labels }
    ensures before { result ≡ true → (label_of func.now label).item ≤ goal }
    ensures behind { result ≡ true → last_label_below func.now.labels (label_of func.now label).item
        (length func.now.labels) ≡ Some label }
{
    if label >= func.labels.items().len() {
        return false;
    }
    let place = func.labels.items()[label].item as usize;
    place <= goal && place < last.len() && is_number(last[place], label)
}

/// A way of clean steps in the order of the text, from the last label in front of an item, if these are clean.
pub fn straight_way(alloc: Global, func: &Func, goal: usize) -> Found<Way>
    requires placed { ArePlaced func.now }
    requires inside { goal < length func.now.items }
    ensures { IfOk result (IsShownWay func.now goal) }
{
    let last = last_labels(alloc, func)?;
    let way = labelled_way(alloc, func, &last, goal)?;
    Ok(way)
}
