//! V2 to V12 of task code, body by body. V7 to V10: a walk over the items of a body with the list of held resources.
ghost use Rattle.std.specs.Prelude.{◌≡◌, ◌<◌, length, IfOk, ◌≢◌, ◌≤◌, true, Decides};
ghost use Rattle.sloth_base.specs.Search.{IsSearchResult};
ghost use Rattle.code_rules.specs.AppRange.{AppInRange, IsOp};
ghost use Rattle.sloth_base.specs.Named.{function, item_of, label_of};
ghost use Rattle.code_rules.specs.WellFormed.{BodyFault, RuleFault};
ghost use Rattle.call_graph.specs.Ranks.{RanksOf};
ghost use Rattle.code_rules.specs.Code.{held_list_fallen_into, is_fallen_into};
ghost use Rattle.task_verify.specs.Labels.{first_label_below, ArePlaced, AreTables};
ghost use Rattle.task_verify.specs.Cases.{FallIntoFault, FallFault, HeldFault, PlacesFault, AreOps};

use crate::labels::{first_labels, label_faults};
use crate::{
    falls, held_after, held_at_label, is_held, is_leave_with_resource, is_other_list_jump,
    is_second_take, is_wrong_release, item_faults, last_labels,
};
use call_graph::Ranks;
use sloth_base::refusal::{fault_if, merge};
use sloth_base::{App, Code, Config, Func, Part, Refusal, Result};
use std::alloc::Global;

/// The least refusal that was found, or none.
pub type Verdict = Result<Option<Refusal>>;

fn body_fault(
    alloc: Global,
    config: &Config,
    app: &App,
    ranks: &Ranks,
    body: usize,
    func: &Func,
) -> Verdict
    requires in_range { AppInRange config.now app.now }
    requires belong { RanksOf app.now ranks.now }
    requires known { body < length app.now.funcs }
    requires is { func.now ≡ function app.now body }
    ensures { IfOk result (IsSearchResult (BodyFault config.now app.now body)) }
{
    let users = u64::from(ranks.users.items()[body]);
    let empty = line_fault!(func; V5 if func.items.items().is_empty());
    let labels = label_faults(alloc, func)?;
    let items = item_faults(alloc, config, app, body, users, func)?;
    let held = held_faults(alloc, config, app, ranks, func)?;
    Ok(merge(empty, merge(labels, merge(items, held))))
}

/// The least of V2 to V12.
pub fn judge(alloc: Global, config: &Config, app: &App, ranks: &Ranks) -> Verdict
    requires in_range { AppInRange config.now app.now }
    requires belong { RanksOf app.now ranks.now }
    ensures { IfOk result (IsSearchResult (RuleFault config.now app.now)) }
{
    let mut least = None;
    for (body, func) in app.funcs.items().iter().enumerate() {
        let found = body_fault(alloc, config, app, ranks, body, func)?;
        least = merge(least, found);
    }
    Ok(least)
}

/// Whether the item before a place goes on to it.
pub fn is_fallen_into(func: &Func, place: usize) -> bool
    requires { place ≤ length func.now.items }
    ensures { result ≡ is_fallen_into func.now place }
{
    if place == 0 {
        return true;
    }
    falls(func.items.items()[place - 1].op)
}

// Whether the place is fallen into with another list than that of its label.
fn falls_other(func: &Func, place: usize, label: usize, held: &[u32]) -> bool
    requires inside { place ≤ length func.now.items }
    requires known { label < length func.now.labels }
    ensures { Decides result ((is_fallen_into func.now place ≡ true) × ((label_of func.now label).holds ≢ held.now)) }
{
    is_fallen_into(func, place) && !is_held(func.labels.items()[label].holds.items(), held)
}

// V7 of a label where its place is fallen into.
fn labelled_fault(func: &Func, place: usize, label: usize, held: &[u32]) -> Option<Refusal>
    requires inside { place ≤ length func.now.items }
    requires known { label < length func.now.labels }
    requires held { held.now ≡ held_list_fallen_into func.now place }
    ensures { IsSearchResult (FallIntoFault func.now place label) result }
{
    let differs = falls_other(func, place, label, held);
    let at = &func.labels.items()[label];
    line_fault!(at; V7 if differs)
}

fn fall_fault(func: &Func, place: usize, first: Option<usize>, held: &[u32]) -> Option<Refusal>
    requires inside { place ≤ length func.now.items }
    requires first { first ≡ first_label_below func.now.labels place (length func.now.labels) }
    requires held { held.now ≡ held_list_fallen_into func.now place }
    ensures { IsSearchResult (FallFault func.now place) result }
{
    match first {
        Some(label) => labelled_fault(func, place, label, held),
        None => None,
    }
}

fn held_fault(
    config: &Config,
    app: &App,
    ranks: &Ranks,
    func: &Func,
    number: usize,
    held: &[u32],
) -> Option<Refusal>
    requires in_range { AppInRange config.now app.now }
    requires belong { RanksOf app.now ranks.now }
    requires inside { number < length func.now.items }
    requires item { IsOp config.now app.now func.now (item_of func.now number).op }
    ensures { IsSearchResult (HeldFault app.now func.now held.now (item_of func.now number).line
        (item_of func.now number).op) result }
{
    let item = &func.items.items()[number];
    let other = line_fault!(item; V7 if is_other_list_jump(func, held, item.op));
    let releases = line_fault!(item; V8 if is_wrong_release(held, item.op));
    let takes = line_fault!(item; V9 if is_second_take(ranks, held, item.op));
    let leaves = line_fault!(item; V10 if is_leave_with_resource(ranks, held, item.op));
    merge(other, merge(releases, merge(takes, leaves)))
}

fn walk(
    alloc: Global,
    config: &Config,
    app: &App,
    ranks: &Ranks,
    func: &Func,
    first: &[Option<usize>],
    last: &[Option<usize>],
) -> Verdict
    requires in_range { AppInRange config.now app.now }
    requires belong { RanksOf app.now ranks.now }
    requires items { AreOps config.now app.now func.now }
    requires tables { AreTables func.now first.now last.now }
    ensures { IfOk result (IsSearchResult (PlacesFault app.now func.now)) }
{
    let mut least = None;
    let mut held = Vec::new(alloc);
    for number in 0..func.items.items().len() {
        let falling = fall_fault(func, number, first[number], &held);
        let entered = held_at_label(alloc, func, last[number], held)?;
        let here = held_fault(config, app, ranks, func, number, &entered);
        least = merge(least, merge(falling, here));
        let item = &func.items.items()[number];
        held = held_after(entered, item.op)?;
    }
    let count = func.items.items().len();
    Ok(merge(least, fall_fault(func, count, first[count], &held)))
}

/// The least of V7 to V10 at the places of a body.
pub fn held_faults(alloc: Global, config: &Config, app: &App, ranks: &Ranks, func: &Func) -> Verdict
    requires in_range { AppInRange config.now app.now }
    requires belong { RanksOf app.now ranks.now }
    requires placed { ArePlaced func.now }
    requires items { AreOps config.now app.now func.now }
    ensures { IfOk result (IsSearchResult (PlacesFault app.now func.now)) }
{
    let first = first_labels(alloc, func)?;
    let last = last_labels(alloc, func)?;
    walk(alloc, config, app, ranks, func, &first, &last)
}
