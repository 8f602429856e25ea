//! Where items of a body go on, and V11: what ends a task, and what a function.
//! V6: which items the paths from the first one reach.
ghost use Rattle.std.specs.Prelude.{◌≡◌, ◌<◌, length, ℕ, ◌+◌, ◌*◌, ◌≤◌, ◌↔◌, false, get_or, [], IfOk, OnOk};
ghost use Rattle.sloth_base.specs.Named.{item_of};
ghost use Rattle.code_rules.specs.Code.{is_followed, way};
ghost use Rattle.task_verify.specs.Tests.{is_ending, is_run_out, is_wrong_leave};
ghost use Rattle.task_verify.specs.Ways.{inside_or, next_of, jump_of, HasBodyLabel, IsMarked, IsReachedItem, unmarked_count, IsMarkVisit, IsMarking};

use sloth_base::{Func, Op, Result, Service};
use std::alloc::Global;
use text_pieces::push;

/// Whether a path goes on to the next item.
pub fn falls(op: Op) -> bool
    ensures { result ≡ is_followed op }
{
    match op {
        Op::Jump { .. } | Op::Return => false,
        Op::Serve(call) => !matches!(call.service, Service::TerminateTask),
        _ => true,
    }
}

/// The label of a branch or a jump.
pub fn way(op: Op) -> Option<u32>
    ensures { result ≡ way op }
{
    match op {
        Op::Branch { label, .. } | Op::Jump { label } => Some(label),
        _ => None,
    }
}

/// V5: whether the item can go on past the last one.
pub fn is_run_out(func: &Func, number: usize) -> bool
    requires inside { number < length func.now.items }
    requires labels { HasBodyLabel func.now (item_of func.now number).op }
    ensures { result ≡ is_run_out func.now number }
{
    let items = func.items.items();
    let falls_out = falls(items[number].op) && items.len() <= number + 1;
    let jumps_out = match way(items[number].op) {
        Some(label) => items.len() <= func.labels.items()[label as usize].item as usize,
        None => false,
    };
    falls_out || jumps_out
}

fn inside_or(func: &Func, place: usize, itself: usize) -> usize
    ensures { result ≡ inside_or func.now place itself }
{
    if place < func.items.items().len() {
        place
    } else {
        itself
    }
}

/// Where item `from` goes on to the next one; itself, where it does not.
pub fn next_of(func: &Func, from: usize) -> usize
    requires { from < length func.now.items }
    ensures { result ≡ next_of func.now from }
{
    if falls(func.items.items()[from].op) {
        inside_or(func, from + 1, from)
    } else {
        from
    }
}

/// Where item `from` jumps to; itself, where it does not.
pub fn jump_of(func: &Func, from: usize) -> usize
    requires inside { from < length func.now.items }
    requires labels { HasBodyLabel func.now (item_of func.now from).op }
    ensures { result ≡ jump_of func.now from }
{
    match way(func.items.items()[from].op) {
        Some(label) => {
            let place = func.labels.items()[label as usize].item as usize;
            inside_or(func, place, from)
        },
        None => from,
    }
}

/// A service that ends the caller.
pub fn is_ending(service: Service) -> bool
    ensures { result ≡ is_ending service }
{
    matches!(service, Service::TerminateTask | Service::ChainTask)
}

/// V11: an end of the task in the body of a function, a `ret` in that of a task.
pub fn is_wrong_leave(func: &Func, op: Op) -> bool
    ensures { result ≡ is_wrong_leave func.now op }
{
    match op {
        Op::Serve(call) => is_ending(call.service) && func.task.is_none(),
        Op::Return => func.task.is_some(),
        _ => false,
    }
}

/// Marks an item and keeps it to go on from, where it is not marked yet.
fn visit(marks: &mut [bool], pending: &mut Vec<usize>, at: usize) -> Result<()>
    requires { at < length marks.old }
    ensures visited { OnOk result (IsMarkVisit marks.old marks.new pending.old.items pending.new.items at) }
    ensures cost { OnOk result
        (2 * unmarked_count marks.new + length pending.new.items
        ≤ 2 * unmarked_count marks.old + length pending.old.items) }
{
    if marks[at] {
        return Ok(());
    }
    push(pending, at)?;
    marks[at] = true;
    Ok(())
}

/// Marks what the items that are kept lead to.
fn spread(func: &Func, marks: &mut [bool], pending: &mut Vec<usize>) -> Result<()>
    requires labels { (i : ℕ) → i < length func.now.items → HasBodyLabel func.now (item_of func.now i).op }
    requires searching { IsMarking func.now marks.old pending.old.items }
    ensures { OnOk result ((i : ℕ) → IsMarked marks.new i ↔ IsReachedItem func.now i) }
{
    loop {
        match pending.pop() {
            None => return Ok(()),
            Some(from) => {
                visit(marks, pending, next_of(func, from))?;
                visit(marks, pending, jump_of(func, from))?;
            }
        }
    }
}

/// Marks the items that paths from the first one reach, and no others.
fn mark_reached(func: &Func, marks: &mut [bool], pending: &mut Vec<usize>) -> Result<()>
    requires some { 0 < length marks.old }
    requires clear { (i : ℕ) → i < length marks.old → get_or marks.old i false ≡ false }
    requires count { length marks.old ≡ length func.now.items }
    requires none { pending.old.items ≡ [] }
    requires labels { (i : ℕ) → i < length func.now.items → HasBodyLabel func.now (item_of func.now i).op }
    ensures { OnOk result ((i : ℕ) → IsMarked marks.new i ↔ IsReachedItem func.now i) }
{
    visit(marks, pending, 0)?;
    spread(func, marks, pending)
}

fn no_marks(alloc: Global, count: usize) -> Result<Vec<bool>>
    ensures count { IfOk result (λ marks. length marks.items ≡ count) }
    ensures clear { IfOk result (λ marks. (i : ℕ) → i < count → get_or marks.items i false ≡ false) }
{
    Ok(vec![in alloc; false; count]?)
}

/// The items that paths from the first one reach.
pub fn reached(alloc: Global, func: &Func) -> Result<Vec<bool>>
    requires some { 0 < length func.now.items }
    requires labels { (i : ℕ) → i < length func.now.items → HasBodyLabel func.now (item_of func.now i).op }
    ensures count { IfOk result (λ marks. length marks.items ≡ length func.now.items) }
    ensures exact { IfOk result (λ marks. (i : ℕ) → IsMarked marks.items i ↔ IsReachedItem func.now i) }
{
    let mut marks = no_marks(alloc, func.items.items().len())?;
    let mut pending = Vec::new(alloc);
    mark_reached(func, &mut marks, &mut pending)?;
    Ok(marks)
}
