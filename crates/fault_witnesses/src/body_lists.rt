//! What is held before each item of a body, and where all labels say so.
//! Steps from item to item that keep the rules on resources.
//! The search for the shortest clean way: breadth first, lower items first.
ghost use Rattle.std.specs.Prelude.{◌≡◌, ◌<◌, ◌+◌, ℕ, length, get_or, true, false, IfOk, Decides};
ghost use Rattle.code_rules.specs.Code.{held_list_at, IsPathStep, held_after};
ghost use Rattle.task_verify.specs.Labels.{ArePlaced};
ghost use Rattle.fault_witnesses.specs.BodyLists.{AreLastLabels, AreLists, AreAgreed, AreBodyLists, AreLed};
ghost use Rattle.sloth_base.specs.Named.{item_of};
ghost use Rattle.task_verify.specs.Ways.{HasBodyLabel};
ghost use Rattle.fault_witnesses.specs.CleanWays.{is_own_second_take, is_orderly, IsCleanStep, way_item};

use sloth_base::{Func, Label, List, Op, Result, Service};
use std::alloc::Global;
use task_verify::held_resources::is_taken;
use task_verify::{
    held_after, held_at_label, is_held, is_wrong_release, jump_of, last_labels, next_of,
};
use text_pieces::push;

/// More resources than a clean way can hold.
const LONG: usize = 64;

/// What is held before an item, if it is kept: lists of 64 resources or more are not.
#[derive(Drop)]
pub struct KeptList {
    pub kept: bool,
    pub list: List<u32>,
}

/// What is held before each item of a body; and where each label has that list.
#[derive(Drop)]
pub struct BodyLists {
    pub lists: List<KeptList>,
    pub agreed: List<bool>,
}

fn kept_list(alloc: Global, held: &[u32]) -> Result<KeptList>
    ensures { IfOk result (λ row. row.kept ≡ true → row.list ≡ held.now) }
{
    if held.len() >= LONG {
        let list = List::from_vec(Vec::new(alloc));
        return Ok(KeptList { kept: false, list });
    }
    let list = List::from_vec(held.to_vec(alloc)?);
    Ok(KeptList { kept: true, list })
}

fn kept_lists(alloc: Global, func: &Func, last: &[Option<usize>]) -> Result<Vec<KeptList>>
    requires count { length last.now ≡ length func.now.items + 1 }
    requires lasts { AreLastLabels func.now last.now }
    ensures { IfOk result (λ rows. AreLists func.now rows.items) }
{
    let mut rows = Vec::new(alloc);
    let mut held = Vec::new(alloc);
    for number in 0..func.items.items().len() {
        let entered = held_at_label(alloc, func, last[number], held)?;
        let row = kept_list(alloc, &entered)?;
        push(&mut rows, row)?;
        held = held_after(entered, func.items.items()[number].op)?;
    }
    Ok(rows)
}

fn has_label_list(func: &Func, rows: &[KeptList], label: &Label) -> bool
    requires { AreLists func.now rows.now }
    ensures { result ≡ true → label.now.holds ≡ held_list_at func.now label.now.item }
{
    let place = label.item as usize;
    place < rows.len() && rows[place].kept && is_held(label.holds.items(), rows[place].list.items())
}

fn unmark(marks: &mut [bool], place: usize)
    ensures kept { (k : ℕ) → get_or marks.new k false ≡ true → get_or marks.old k false ≡ true }
    ensures lowered { get_or marks.new place false ≡ false }
{
    if place < marks.len() {
        marks[place] = false;
    }
}

fn judge_label(func: &Func, rows: &[KeptList], label: &Label, marks: &mut [bool])
    requires { AreLists func.now rows.now }
    ensures kept { (k : ℕ) → get_or marks.new k false ≡ true → get_or marks.old k false ≡ true }
    ensures agreed { get_or marks.new label.now.item false ≡ true
        → label.now.holds ≡ held_list_at func.now label.now.item }
{
    if !has_label_list(func, rows, label) {
        unmark(marks, label.item as usize);
    }
}

fn judge_labels(func: &Func, rows: &[KeptList], marks: &mut [bool])
    requires { AreLists func.now rows.now }
    ensures { AreAgreed func.now marks.new }
{
    for (number, label) in func.labels.items().iter().enumerate() {
        judge_label(func, rows, label, marks);
    }
}

/// The tables of a body.
pub fn body_lists(alloc: Global, func: &Func) -> Result<BodyLists>
    requires { ArePlaced func.now }
    ensures { IfOk result (AreBodyLists func.now) }
{
    let last = last_labels(alloc, func)?;
    let rows = kept_lists(alloc, func, &last)?;
    let mut marks = vec![in alloc; true; func.items.items().len()]?;
    judge_labels(func, &rows, &mut marks);
    Ok(BodyLists {
        lists: List::from_vec(rows),
        agreed: List::from_vec(marks),
    })
}

/// Whether it is a service that takes one of these.
pub fn is_own_second_take(held: &[u32], op: Op) -> bool
    ensures { result ≡ is_own_second_take held.now op }
{
    match op {
        Op::Serve(call) => {
            matches!(call.service, Service::GetResource) && is_taken(held, call.object)
        },
        _ => false,
    }
}

/// Whether the operation takes none of these, and releases none but the last.
pub fn is_orderly(held: &[u32], op: &Op) -> bool
    ensures { result ≡ is_orderly held.now op.now }
{
    !is_wrong_release(held, *op) && !is_own_second_take(held, *op)
}

fn goes(func: &Func, from: usize, to: usize) -> bool
    requires inside { from < length func.now.items }
    requires labels { HasBodyLabel func.now (item_of func.now from).op }
    ensures { result ≡ true → IsPathStep func.now from to }
{
    from != to && (next_of(func, from) == to || jump_of(func, from) == to)
}

fn is_same(one: &[u32], other: &[u32]) -> bool
    ensures { Decides result (one.now ≡ other.now) }
{
    one == other
}

fn is_led(alloc: Global, before: &KeptList, op: &Op, behind: &KeptList) -> Result<bool>
    ensures { IfOk result (λ clean. clean ≡ true → AreLed before.now op.now behind.now) }
{
    if !before.kept || !behind.kept || !is_orderly(before.list.items(), op) {
        return Ok(false);
    }
    let held = before.list.items().to_vec(alloc)?;
    let held = held_after(held, *op)?;
    Ok(is_same(&held, behind.list.items()))
}

// Whether item `from` steps cleanly to item `to`. It may answer no where lists are long.
fn is_clean(alloc: Global, func: &Func, lists: &BodyLists, from: usize, to: usize) -> Result<bool>
    requires labels { (i : ℕ) → i < length func.now.items → HasBodyLabel func.now (item_of func.now i).op }
    requires tables { AreBodyLists func.now lists.now }
    ensures { IfOk result (λ clean. clean ≡ true → IsCleanStep func.now from to) }
{
    let items = func.items.items();
    let rows = lists.lists.items();
    let agreed = lists.agreed.items();
    if from >= items.len() || to >= items.len() || from >= rows.len() || to >= rows.len() {
        return Ok(false);
    }
    if to >= agreed.len() || !agreed[to] || !goes(func, from, to) {
        return Ok(false);
    }
    is_led(alloc, &rows[from], &items[from].op, &rows[to])
}

/// Whether each of these items steps cleanly to the next.
pub fn are_clean_steps(alloc: Global, func: &Func, lists: &BodyLists, way: &[usize]) -> Result<bool>
    requires labels { (i : ℕ) → i < length func.now.items → HasBodyLabel func.now (item_of func.now i).op }
    requires tables { AreBodyLists func.now lists.now }
    ensures { IfOk result (λ clean. clean ≡ true → (n : ℕ) → n + 1 < length way.now
        → IsCleanStep func.now (way_item way.now n) (way_item way.now (n + 1))) }
{
    for number in 1..way.len() {
        if !is_clean(alloc, func, lists, way[number - 1], way[number])? {
            return Ok(false);
        }
    }
    Ok(true)
}

fn note(before: &mut [usize], item: usize, from: usize) {
    if item < before.len() {
        before[item] = from;
    }
}

// The items from the first one of a body to another one, where the table tells the item before each.
fn way_through(alloc: Global, before: &[usize], item: usize) -> Result<Vec<usize>> {
    let mut way = Vec::new(alloc);
    let mut at = item;
    for _turn in 0..before.len() {
        if at > 0 && at < before.len() {
            push(&mut way, at)?;
            at = before[at];
        }
    }
    push(&mut way, 0)?;
    way.reverse();
    Ok(way)
}

/// The shortest way of clean steps from the first item of a body to another one, of several the one of the lower items;
/// no items, where none is found.
pub fn shortest_way(alloc: Global, func: &Func, lists: &BodyLists, end: usize) -> Result<Vec<usize>>
    requires labels { (i : ℕ) → i < length func.now.items → HasBodyLabel func.now (item_of func.now i).op }
    requires tables { AreBodyLists func.now lists.now }
{
    let count = func.items.items().len();
    // Of an item that was not reached it tells `count`.
    let mut before = vec![in alloc; count; count]?;
    note(&mut before, 0, 0);
    let mut reached = Vec::new(alloc);
    push(&mut reached, 0)?;
    for turn in 0..count {
        if turn >= reached.len() || reached[turn] >= count {
            return Ok(Vec::new(alloc));
        }
        let from = reached[turn];
        if from == end {
            return way_through(alloc, &before, from);
        }
        let (next, jump) = (next_of(func, from), jump_of(func, from));
        let places = [next.min(jump), next.max(jump)];
        for number in 0..2 {
            let item = places[number];
            if item < before.len()
                && before[item] == count
                && is_clean(alloc, func, lists, from, item)?
            {
                note(&mut before, item, from);
                push(&mut reached, item)?;
            }
        }
    }
    Ok(Vec::new(alloc))
}
