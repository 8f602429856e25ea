//! The most bytes that each function's calls need. The most bytes that all basic tasks need on one stack.
ghost use Rattle.std.specs.Prelude.{◌≡◌, ℕ, ◌<◌, max, length, get_or, IfOk};
ghost use Rattle.sloth_base.specs.Named.{no_item};
ghost use Rattle.call_graph.specs.Tables.{most_called, table_entry, func_of, IsTable, IsKnownCall, IsTableInLimit};
ghost use Rattle.call_graph.specs.Tables.{AreCallable, bytes_with_lower, most_stacked, AreStacks};

use call_graph::{bytes_below, bytes_called};
use sloth_base::{Func, Item, Result, TaskDecl};
use std::alloc::Global;
use text_pieces::push;

/// The larger of two numbers.
pub fn larger(one: u32, other: u32) -> u32
    ensures { result ≡ max one other }
{
    if one < other { other } else { one }
}

fn most_called(funcs: &[Func], table: &[u32], items: &[Item]) -> u32
    requires known { (i : ℕ) → i < length items.now → IsKnownCall funcs.now (get_or items.now i no_item).op }
    requires frames { AreCallable funcs.now }
    requires small { IsTableInLimit funcs.now table.now }
    ensures { result ≡ most_called funcs.now (table_entry table.now) items.now }
{
    let mut most = 0;
    for item in items {
        most = larger(most, bytes_called(funcs, table, item.op));
    }
    most
}

/// The table of calls that are one deeper.
fn deeper(alloc: Global, funcs: &[Func], table: &[u32]) -> Result<Vec<u32>>
    requires frames { AreCallable funcs.now }
    requires small { IsTableInLimit funcs.now table.now }
    ensures count { IfOk result (λ next. length next.items ≡ length funcs.now) }
    ensures calls { IfOk result (λ next. (f : ℕ) → f < length funcs.now
        → table_entry next.items f ≡ most_called funcs.now (table_entry table.now) (func_of funcs.now f).items) }
{
    let mut next = Vec::new(alloc);
    for func in funcs {
        push(&mut next, most_called(funcs, table, func.items.items()))?;
    }
    Ok(next)
}

fn no_calls(alloc: Global, count: usize) -> Result<Vec<u32>>
    ensures count { IfOk result (λ table. length table.items ≡ count) }
    ensures none { IfOk result (λ table. (f : ℕ) → table_entry table.items f ≡ 0) }
{
    let mut table = Vec::new(alloc);
    for _number in 0..count {
        push(&mut table, 0)?;
    }
    Ok(table)
}

/// The most bytes that each function's calls need, as deep as there are functions.
pub fn most_calls(alloc: Global, funcs: &[Func]) -> Result<Vec<u32>>
    requires { AreCallable funcs.now }
    ensures { IfOk result (λ table. IsTable funcs.now (length funcs.now) table.items) }
{
    let mut table = no_calls(alloc, funcs.len())?;
    for _depth in 0..funcs.len() {
        table = deeper(alloc, funcs, &table)?;
    }
    Ok(table)
}

fn bytes_with_lower(tasks: &[TaskDecl], yielding: &[bool], bytes: &[u32], number: usize) -> u32
    requires stacks { AreStacks tasks.now yielding.now bytes.now }
    requires known { number < length tasks.now }
    ensures { result ≡ bytes_with_lower tasks.now yielding.now bytes.now number }
{
    let task = &tasks[number];
    if task.extended {
        0
    } else {
        bytes_below(tasks, yielding, bytes, task.priority) + bytes[number]
    }
}

/// The most bytes of a basic task with all that may stand below it.
pub fn most_stacked(tasks: &[TaskDecl], yielding: &[bool], bytes: &[u32]) -> u32
    requires { AreStacks tasks.now yielding.now bytes.now }
    ensures { result ≡ most_stacked tasks.now yielding.now bytes.now }
{
    let mut most = 0;
    for number in 0..tasks.len() {
        most = larger(most, bytes_with_lower(tasks, yielding, bytes, number));
    }
    most
}
