//! V2 to V6, V11 and V12: the items of a body, one by one. V2, V3 and V4: accesses of the frame and of symbols.
ghost use Rattle.std.specs.Prelude.{◌≡◌, ℕ, ◌<◌, ◌↔◌, length, IfOk};
ghost use Rattle.sloth_base.specs.Search.{IsSearchResult};
ghost use Rattle.code_rules.specs.AppRange.{AppInRange, IsOp};
ghost use Rattle.sloth_base.specs.Named.{item_of, symbol_size};
ghost use Rattle.task_verify.specs.Ways.{IsMarked, IsReachedItem};
ghost use Rattle.task_verify.specs.Cases.{AccessFault, FlowFault, PathFault, ItemFaults, AreOps, AreUsers};
ghost use Rattle.sloth_base.specs.Arithmetic.{size_of};
ghost use Rattle.task_verify.specs.Tests.{is_access_past, is_uneven, is_mask_past};

use crate::{Verdict, is_run_out, is_undeclared_use, is_wrong_leave, reached};
use sloth_base::refusal::{fault_if, merge};
use sloth_base::{App, Code, Config, Func, MASK_LIMIT, Op, Part, Refusal, SymId, Width};
use std::alloc::Global;

fn access_fault(app: &App, func: &Func, number: usize) -> Option<Refusal>
    requires { number < length func.now.items }
    ensures { IsSearchResult (AccessFault app.now func.now number) result }
{
    let item = &func.items.items()[number];
    let past = line_fault!(item; V2 if is_access_past(app, func, item.op));
    let uneven = line_fault!(item; V3 if is_uneven(item.op));
    let masked = line_fault!(item; V4 if is_mask_past(app, item.op));
    merge(past, merge(uneven, masked))
}

fn flow_fault(
    config: &Config,
    app: &App,
    body: usize,
    users: u64,
    func: &Func,
    number: usize,
) -> Option<Refusal>
    requires in_range { AppInRange config.now app.now }
    requires users { AreUsers app.now body users }
    requires inside { number < length func.now.items }
    requires items { IsOp config.now app.now func.now (item_of func.now number).op }
    ensures { IsSearchResult (FlowFault config.now app.now body func.now number) result }
{
    let item = &func.items.items()[number];
    let out = line_fault!(item; V5 if is_run_out(func, number));
    let wrong = line_fault!(item; V11 if is_wrong_leave(func, item.op));
    let undeclared = line_fault!(item; V12 if is_undeclared_use(config, users, item.op));
    merge(out, merge(wrong, undeclared))
}

fn path_fault(func: &Func, marks: &[bool], number: usize) -> Option<Refusal>
    requires count { length marks.now ≡ length func.now.items }
    requires exact { (i : ℕ) → IsMarked marks.now i ↔ IsReachedItem func.now i }
    requires inside { number < length func.now.items }
    ensures { IsSearchResult (PathFault func.now number) result }
{
    let item = &func.items.items()[number];
    line_fault!(item; V6 if !marks[number])
}

fn marked_faults(
    config: &Config,
    app: &App,
    body: usize,
    users: u64,
    func: &Func,
    marks: &[bool],
) -> Option<Refusal>
    requires in_range { AppInRange config.now app.now }
    requires users { AreUsers app.now body users }
    requires items { AreOps config.now app.now func.now }
    requires count { length marks.now ≡ length func.now.items }
    requires exact { (i : ℕ) → IsMarked marks.now i ↔ IsReachedItem func.now i }
    ensures { IsSearchResult (ItemFaults config.now app.now body func.now) result }
{
    let mut least = None;
    for number in 0..func.items.items().len() {
        let flow = flow_fault(config, app, body, users, func, number);
        let here = merge(
            access_fault(app, func, number),
            merge(flow, path_fault(func, marks, number)),
        );
        least = merge(least, here);
    }
    least
}

/// The least of V2 to V6, V11 and V12 of the items of a body that these tasks reach.
pub fn item_faults(
    alloc: Global,
    config: &Config,
    app: &App,
    body: usize,
    users: u64,
    func: &Func,
) -> Verdict
    requires in_range { AppInRange config.now app.now }
    requires users { AreUsers app.now body users }
    requires items { AreOps config.now app.now func.now }
    ensures { IfOk result (IsSearchResult (ItemFaults config.now app.now body func.now)) }
{
    if func.items.items().is_empty() {
        return Ok(None);
    }
    let marks = reached(alloc, func)?;
    Ok(marked_faults(config, app, body, users, func, &marks))
}

fn size(width: Width) -> usize
    ensures { result ≡ size_of width }
{
    match width {
        Width::Byte | Width::ByteU => 1,
        Width::Half | Width::HalfU => 2,
        Width::Word => 4,
    }
}

fn symbol_size(app: &App, symbol: SymId) -> usize
    ensures { result ≡ symbol_size app.now symbol }
{
    match app.symbols.items().get(symbol.0 as usize) {
        Some(symbol) => symbol.bytes.items().len(),
        None => 0,
    }
}

// A load or a store with these fields.
macro_rules! access {
    ($load:ident, $store:ident; $($field:ident),+) => {
        Op::$load { $($field,)+ .. } | Op::$store { $($field,)+ .. }
    };
}

/// V2: an access past the frame, or a direct access past its symbol.
pub fn is_access_past(app: &App, func: &Func, op: Op) -> bool
    ensures { result ≡ is_access_past app.now func.now op }
{
    match op {
        Op::FrameLoad { word, .. } | Op::FrameStore { word, .. } => func.frame_words <= word,
        access!(Load, Store; width, symbol, offset) => {
            symbol_size(app, symbol) < offset as usize + size(width)
        },
        _ => false,
    }
}

/// V3: a direct offset or a mask that is no multiple of the access size.
pub fn is_uneven(op: Op) -> bool
    ensures { result ≡ is_uneven op }
{
    match op {
        access!(Load, Store; width, offset) => offset as usize % size(width) != 0,
        access!(LoadAt, StoreAt; width, mask) => mask as usize % size(width) != 0,
        _ => false,
    }
}

/// V4: a mask above the greatest, or mask plus access size above the symbol's size.
pub fn is_mask_past(app: &App, op: Op) -> bool
    ensures { result ≡ is_mask_past app.now op }
{
    match op {
        access!(LoadAt, StoreAt; width, symbol, mask) => {
            mask > MASK_LIMIT || symbol_size(app, symbol) < mask as usize + size(width)
        },
        _ => false,
    }
}
