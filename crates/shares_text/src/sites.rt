//! The items of all functions that call a function or use a symbol, with what their own function holds there.
//! Calls in an order in which those of callers stand first.
//! What a function itself holds before each of its items: the resources, and their greatest ceiling.
ghost use Rattle.std.specs.Prelude.{◌≡◌, ◌<◌, ◌++◌, get_or, length, OnOk, IfOk, filter, ◌≤◌, ◌+◌, ℕ, None};
ghost use Rattle.shares_text.specs.Accesses.{symbol_of, is_store};
ghost use Rattle.shares_text.specs.Sites.{call_at, call_of, access_at, gather_items, gather, no_row, is_of_rank, down_from, IsHeld, AreHeld, AreAllHeld};
ghost use Rattle.osek_scheduler.specs.Priority.{greatest};
ghost use Rattle.code_rules.specs.WellFormed.{WellFormed};
ghost use Rattle.task_verify.specs.Labels.{last_label_below};
ghost use Rattle.walk_sums.specs.Ceilings.{AreResourceCeilings};

use crate::verdict::{entry, resource_set};
use sloth_base::{App, Config, Func, Item, List, Op, Result};
use std::alloc::Global;
use task_verify::{held_after, held_at_label, last_labels};
use text_pieces::push;
use walk_sums::greatest_ceiling;

/// A call, with what its function holds there.
#[derive(Clone, Copy)]
pub struct CallSite {
    pub caller: usize,
    pub item: usize,
    pub callee: usize,
    pub held: Held,
}

/// A load or store of a symbol, the same way.
#[derive(Clone, Copy)]
pub struct Access {
    pub func: usize,
    pub item: usize,
    pub line: u32,
    pub symbol: u32,
    pub stores: bool,
    pub held: Held,
}

/// The symbol that an operation loads or stores.
pub fn accessed_symbol(op: Op) -> Option<u32>
    ensures { result ≡ symbol_of op }
{
    match op {
        Op::Load { symbol, .. } | Op::LoadAt { symbol, .. } => Some(symbol.0),
        Op::Store { symbol, .. } | Op::StoreAt { symbol, .. } => Some(symbol.0),
        _ => None,
    }
}

/// Whether it stores.
pub fn is_store(op: Op) -> bool
    ensures { result ≡ is_store op }
{
    matches!(op, Op::Store { .. } | Op::StoreAt { .. })
}

const NOTHING_HELD: Held = Held { members: 0, top: 0 };

fn add_call(list: &mut Vec<CallSite>, caller: usize, item: usize, op: Op, held: Held) -> Result<()>
    ensures { OnOk result (list.new.items ≡ list.old.items ++ call_of caller item op held) }
{
    match op {
        Op::Invoke { func } => push(
            list,
            CallSite {
                caller,
                item,
                callee: func.0 as usize,
                held,
            },
        ),
        _ => Ok(()),
    }
}

fn add_access(list: &mut Vec<Access>, func: usize, at: usize, item: &Item, held: Held) -> Result<()>
    ensures { OnOk result (list.new.items ≡ list.old.items ++ access_at func at item.now held) }
{
    match accessed_symbol(item.op) {
        Some(symbol) => push(
            list,
            Access {
                func,
                item: at,
                line: item.line,
                symbol,
                stores: is_store(item.op),
                held,
            },
        ),
        None => Ok(()),
    }
}

fn add_calls(calls: &mut Vec<CallSite>, caller: usize, items: &[Item], rows: &[Held]) -> Result<()>
    ensures { OnOk result (calls.new.items ≡ calls.old.items ++ gather_items call_at caller 0 items.now rows.now) }
{
    for (number, item) in items.iter().enumerate() {
        let held = entry(rows, number, NOTHING_HELD);
        add_call(calls, caller, number, item.op, held)?;
    }
    Ok(())
}

fn add_accesses(list: &mut Vec<Access>, func: usize, items: &[Item], rows: &[Held]) -> Result<()>
    ensures { OnOk result (list.new.items ≡ list.old.items
        ++ gather_items access_at func 0 items.now rows.now) }
{
    for (number, item) in items.iter().enumerate() {
        let held = entry(rows, number, NOTHING_HELD);
        add_access(list, func, number, item, held)?;
    }
    Ok(())
}

fn held_row(table: &[HeldRow], func: usize) -> &[Held]
    requires { func < length table.now }
    ensures { result.now ≡ (get_or table.now func no_row).items }
{
    table[func].items.items()
}

/// The calls of all functions.
pub fn all_calls(alloc: Global, funcs: &[Func], table: &[HeldRow]) -> Result<Vec<CallSite>>
    requires { length table.now ≡ length funcs.now }
    ensures { IfOk result (λ calls. calls.items ≡ gather call_at 0 funcs.now table.now) }
{
    let mut calls = Vec::new(alloc);
    for (number, func) in funcs.iter().enumerate() {
        let rows = held_row(table, number);
        add_calls(&mut calls, number, func.items.items(), rows)?;
    }
    Ok(calls)
}

/// Their accesses.
pub fn all_accesses(alloc: Global, funcs: &[Func], table: &[HeldRow]) -> Result<Vec<Access>>
    requires { length table.now ≡ length funcs.now }
    ensures { IfOk result (λ accesses. accesses.items ≡ gather access_at 0 funcs.now table.now) }
{
    let mut accesses = Vec::new(alloc);
    for (number, func) in funcs.iter().enumerate() {
        let rows = held_row(table, number);
        add_accesses(&mut accesses, number, func.items.items(), rows)?;
    }
    Ok(accesses)
}

fn greatest_rank(ranks: &[u32]) -> u32
    ensures { result ≡ greatest ranks.now }
{
    let mut top = 0;
    for rank in ranks {
        top = (*rank).max(top);
    }
    top
}

fn push_rank(list: &mut Vec<CallSite>, ranks: &[u32], calls: &[CallSite], rank: u32) -> Result<()>
    ensures { OnOk result (list.new.items ≡ list.old.items ++ filter (is_of_rank ranks.now rank) calls.now) }
{
    for call in calls {
        if entry(ranks, call.caller, 0) == rank {
            push(list, *call)?;
        }
    }
    Ok(())
}

// The calls of callers of this rank, then those of lower ranks, down to 0.
fn push_down(ordered: &mut Vec<CallSite>, ranks: &[u32], calls: &[CallSite], top: u32) -> Result<()>
    ensures { OnOk result (ordered.new.items ≡ ordered.old.items ++ down_from ranks.now calls.now top) }
{
    for step in 0..top {
        push_rank(ordered, ranks, calls, top - step)?;
    }
    push_rank(ordered, ranks, calls, 0)
}

/// All calls, by the ranks of their callers, the greatest first.
pub fn callers_first(alloc: Global, ranks: &[u32], calls: &[CallSite]) -> Result<Vec<CallSite>>
    ensures { IfOk result (λ ordered. ordered.items ≡ down_from ranks.now calls.now (greatest ranks.now)) }
{
    let mut ordered = Vec::new(alloc);
    push_down(&mut ordered, ranks, calls, greatest_rank(ranks))?;
    Ok(ordered)
}

/// Resources, and the greatest of their ceilings, 0 where there is none.
#[derive(Clone, Copy)]
pub struct Held {
    pub members: u64,
    pub top: u32,
}

/// What is held before each item of a function.
#[derive(Drop)]
pub struct HeldRow {
    pub items: List<Held>,
}

fn listed_held(config: &Config, table: &[u32], held: &[u32]) -> Held
    requires { AreResourceCeilings config.now table.now }
    ensures { IsHeld config.now held.now result }
{
    Held {
        members: resource_set(held),
        top: greatest_ceiling(config, table, held),
    }
}

// By the last label at each place.
fn held_rows(
    alloc: Global,
    config: &Config,
    table: &[u32],
    func: &Func,
    last: &[Option<usize>],
) -> Result<Vec<Held>>
    requires table { AreResourceCeilings config.now table.now }
    requires count { length last.now ≡ length func.now.items + 1 }
    requires lasts { (place : ℕ) → place ≤ length func.now.items
        → get_or last.now place None ≡ last_label_below func.now.labels place (length func.now.labels) }
    ensures { IfOk result (λ rows. AreHeld config.now func.now rows.items) }
{
    let mut rows = Vec::new(alloc);
    let mut held = Vec::new(alloc);
    for number in 0..func.items.items().len() {
        let entered = held_at_label(alloc, func, last[number], held)?;
        push(&mut rows, listed_held(config, table, &entered))?;
        held = held_after(entered, func.items.items()[number].op)?;
    }
    Ok(rows)
}

/// What each function itself holds before each of its items.
pub fn all_held(alloc: Global, config: &Config, table: &[u32], app: &App) -> Result<Vec<HeldRow>>
    requires well_formed { WellFormed config.now app.now }
    requires table { AreResourceCeilings config.now table.now }
    ensures { IfOk result (λ rows. AreAllHeld config.now app.now rows.items) }
{
    let mut rows = Vec::new(alloc);
    for number in 0..app.funcs.items().len() {
        let func = app.function(number);
        let last = last_labels(alloc, func)?;
        let row = held_rows(alloc, config, table, func, &last)?;
        let items = List::from_vec(row);
        push(&mut rows, HeldRow { items })?;
    }
    Ok(rows)
}
