//! The labels at each place of a body.
ghost use Rattle.std.specs.Prelude.{◌≡◌, ◌≢◌, ℕ, ◌+◌, ◌<◌, ◌≤◌, ◌||◌, [], Some, None, length, get_or, Decides, IfOk};
ghost use Rattle.sloth_base.specs.Search.{IsSearchResult};
ghost use Rattle.sloth_base.specs.Named.{label_of};
ghost use Rattle.task_verify.specs.Labels.{or_else, first_label_below, last_label_below, ArePlaced};
ghost use Rattle.task_verify.specs.Cases.{IsBehindOther, LabelFault, LabelFaults};

use crate::Verdict;
use sloth_base::refusal::{fault_if, merge};
use sloth_base::{Code, Func, Label, Part, Refusal, ResId, Result};
use std::alloc::Global;
use text_pieces::push;

/// As many places without a label.
pub fn no_labels(alloc: Global, count: usize) -> Result<Vec<Option<usize>>>
    ensures count { IfOk result (λ places. length places.items ≡ count) }
    ensures clear { IfOk result (λ places. (place : ℕ) → place < count → get_or places.items place None ≡ None) }
{
    Ok(vec![in alloc; None; count]?)
}

/// The last label at each place, also behind the last item.
pub fn last_labels(alloc: Global, func: &Func) -> Result<Vec<Option<usize>>>
    requires { ArePlaced func.now }
    ensures count { IfOk result (λ places. length places.items ≡ length func.now.items + 1) }
    ensures exact { IfOk result (λ places. (place : ℕ) → place ≤ length func.now.items
        → get_or places.items place None ≡ last_label_below func.now.labels place (length func.now.labels)) }
{
    let mut places = no_labels(alloc, func.items.items().len() + 1)?;
    for (number, label) in func.labels.items().iter().enumerate() {
        places[label.item as usize] = Some(number);
    }
    Ok(places)
}

fn or_else(first: Option<usize>, number: usize) -> Option<usize>
    ensures { result ≡ or_else first (Some number) }
{
    match first {
        Some(first) => Some(first),
        None => Some(number),
    }
}

/// The first label at each place, also behind the last item.
pub fn first_labels(alloc: Global, func: &Func) -> Result<Vec<Option<usize>>>
    requires { ArePlaced func.now }
    ensures count { IfOk result (λ places. length places.items ≡ length func.now.items + 1) }
    ensures exact { IfOk result (λ places. (place : ℕ) → place ≤ length func.now.items
        → get_or places.items place None ≡ first_label_below func.now.labels place (length func.now.labels)) }
{
    let mut places = no_labels(alloc, func.items.items().len() + 1)?;
    for (number, label) in func.labels.items().iter().enumerate() {
        let place = label.item as usize;
        places[place] = or_else(places[place], number);
    }
    Ok(places)
}

fn same_list(one: &[ResId], other: &[ResId]) -> bool
    ensures { Decides result (one.now ≡ other.now) }
{
    if one.len() != other.len() {
        return false;
    }
    for (number, resource) in one.iter().enumerate() {
        let counterpart = &other[number];
        if resource.0 != counterpart.0 {
            return false;
        }
    }
    true
}

fn have_other_lists(func: &Func, one: usize, other: usize) -> bool
    requires one { one < length func.now.labels }
    requires other { other < length func.now.labels }
    ensures { Decides result ((label_of func.now one).holds ≢ (label_of func.now other).holds) }
{
    let labels = func.labels.items();
    !same_list(labels[one].holds.items(), labels[other].holds.items())
}

fn is_behind_other(func: &Func, number: usize, before: Option<usize>) -> bool
    requires inside { number < length func.now.labels }
    requires before { before ≡ last_label_below func.now.labels (label_of func.now number).item number }
    ensures { Decides result (IsBehindOther func.now number) }
{
    match before {
        Some(earlier) => have_other_lists(func, number, earlier),
        None => false,
    }
}

/// Whether something is held at a label in front of the first item.
pub fn is_start_with_resource(label: &Label) -> bool
    ensures { Decides result ((label.now.item ≡ 0) × (label.now.holds ≢ [])) }
{
    label.item == 0 && !label.holds.items().is_empty()
}

fn either(one: bool, other: bool) -> bool
    ensures { result ≡ (one || other) }
{
    one || other
}

fn label_fault(func: &Func, number: usize, before: Option<usize>) -> Option<Refusal>
    requires inside { number < length func.now.labels }
    requires before { before ≡ last_label_below func.now.labels (label_of func.now number).item number }
    ensures { IsSearchResult (LabelFault func.now number) result }
{
    let label = &func.labels.items()[number];
    let differs = either(
        is_behind_other(func, number, before),
        is_start_with_resource(label),
    );
    line_fault!(label; V7 if differs)
}

/// For each label the last one before it at its place.
fn labels_before(alloc: Global, func: &Func) -> Result<Vec<Option<usize>>>
    requires { ArePlaced func.now }
    ensures count { IfOk result (λ before. length before.items ≡ length func.now.labels) }
    ensures exact { IfOk result (λ before. (k : ℕ) → k < length func.now.labels
        → get_or before.items k None ≡ last_label_below func.now.labels (label_of func.now k).item k) }
{
    let mut places = no_labels(alloc, func.items.items().len() + 1)?;
    let mut before = Vec::new(alloc);
    for (number, label) in func.labels.items().iter().enumerate() {
        let place = label.item as usize;
        push(&mut before, places[place])?;
        places[place] = Some(number);
    }
    Ok(before)
}

fn judged_labels(func: &Func, before: &[Option<usize>]) -> Option<Refusal>
    requires count { length before.now ≡ length func.now.labels }
    requires exact { (k : ℕ) → k < length func.now.labels
        → get_or before.now k None ≡ last_label_below func.now.labels (label_of func.now k).item k }
    ensures { IsSearchResult (LabelFaults func.now) result }
{
    let mut least = None;
    for number in 0..func.labels.items().len() {
        least = merge(least, label_fault(func, number, before[number]));
    }
    least
}

/// V7 of labels that stand behind others at their place, or before the first item.
pub fn label_faults(alloc: Global, func: &Func) -> Verdict
    requires { ArePlaced func.now }
    ensures { IfOk result (IsSearchResult (LabelFaults func.now)) }
{
    let before = labels_before(alloc, func)?;
    Ok(judged_labels(func, &before))
}
