//! Which line of the source each address of task code comes from.
ghost use Rattle.std.specs.Prelude.{◌≡◌, ◌≤◌, ◌+◌, ◌++◌, IfOk, OnOk, length};
ghost use Rattle.sloth_base.specs.Limits.{item_limit};
ghost use Rattle.map_text.specs.LineRows.{body_rows, item_address, item_count, item_rows, last_row, line_rows};

use sloth_base::{Func, Item, Places, Result, WORD};
use std::alloc::Global;
use text_pieces::push;

/// An address, and the line of the source that it comes from.
#[derive(Clone, Copy)]
pub struct LineRow {
    pub address: u32,
    pub line: u32,
}

impl LineRow {
    /// Goes on to another row.
    pub fn advance(&mut self, next: LineRow)
        ensures { self.new ≡ next }
    {
        self.address = next.address;
        self.line = next.line;
    }
}

/// The address of the first instruction of an item, by its place among the items of all bodies; behind them the address
/// behind the code.
pub fn item_address(places: &Places, end: u32, number: usize) -> u32
    ensures { result ≡ item_address places.now end number }
{
    places.items.items().get(number).copied().unwrap_or(end)
}

/// The address behind the last item of a body, the first of which has this place.
pub fn body_end(places: &Places, end: u32, number: usize, func: &Func) -> u32
    requires { number + length func.now.items ≤ item_limit }
    ensures { result ≡ item_address places.now end (number + length func.now.items) }
{
    item_address(places, end, number + func.items.items().len())
}

fn push_items(to: &mut Vec<LineRow>, spots: &Places, end: u32, n: usize, all: &[Item]) -> Result<()>
    requires { n + length all.now ≤ item_limit }
    ensures { OnOk result (to.new.items ≡ to.old.items ++ item_rows spots.now end n all.now) }
{
    for k in 0..all.len() {
        let (address, line) = (item_address(spots, end, n + k), all[k].line);
        push(to, LineRow { address, line })?;
    }
    Ok(())
}

// Appends the row of the last instruction of an item that has more than one.
fn push_last(rows: &mut Vec<LineRow>, first: u32, next: u32, line: u32) -> Result<()>
    ensures { OnOk result (rows.new.items ≡ rows.old.items ++ last_row first next line) }
{
    if next.saturating_sub(first) > WORD {
        let address = next - WORD;
        push(rows, LineRow { address, line })?;
    }
    Ok(())
}

// Appends the rows of a body, the first item of which has this place.
fn push_body(rows: &mut Vec<LineRow>, spots: &Places, end: u32, n: usize, func: &Func) -> Result<()>
    requires { n + length func.now.items ≤ item_limit }
    ensures { OnOk result (rows.new.items ≡ rows.old.items ++ body_rows spots.now end n func.now) }
{
    let (address, line) = (item_address(spots, end, n), func.line);
    push(rows, LineRow { address, line })?;
    let Some((item, rest)) = func.items.items().split_first() else {
        return Ok(());
    };
    let line = item.line;
    push(rows, LineRow { address, line })?;
    push_last(rows, address, item_address(spots, end, n + 1), line)?;
    push_items(rows, spots, end, n + 1, rest)
}

/// The rows of bodies, by rising addresses.
pub fn line_rows(alloc: Global, places: &Places, end: u32, funcs: &[Func]) -> Result<Vec<LineRow>>
    requires { item_count funcs.now ≤ item_limit }
    ensures { IfOk result (λ rows. rows.items ≡ line_rows places.now end 0 funcs.now) }
{
    let mut rows = Vec::new(alloc);
    let mut number = 0;
    for func in funcs {
        push_body(&mut rows, places, end, number, func)?;
        number += func.items.items().len();
    }
    Ok(rows)
}
