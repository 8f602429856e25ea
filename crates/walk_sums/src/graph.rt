//! Nodes with two ways on at most: an order in which each stands behind those that it leads to, or a loop; the longest
//! trails through nodes in such an order; what a search from a node reaches. Such an order of the functions by calls.
ghost use Rattle.std.specs.Prelude.{◌≡◌, ℕ, ◌<◌, [], ◌∷◌, ◌++◌, length, get_or, set, true, false, IfOk, OnOk, ◌≤◌, Some, ◌↔◌};
ghost use Rattle.walk_sums.specs.Graph.{unseen_way, unseen_of, leads_to_open, AreInside, IsSearching, IsSearchEnd, IsSearched, IsFound, HasWay, IsOrder, HasMark};
ghost use Rattle.code_rules.specs.Code.{HasCall};
ghost use Rattle.call_graph.specs.Ranks.{RanksOf};
ghost use Rattle.walk_sums.specs.CallOrder.{IsCallOrder, IsLeastRank, lesser};
ghost use Rattle.sloth_base.specs.Limits.{size_limit};
ghost use Rattle.walk_sums.specs.Trails.{along, longest_from, AreSizes, AreSizesInLimit, IsLongest};
ghost use Rattle.walk_sums.specs.Search.{IsReachable, IsSpreading};

use bound_rules::{is_marked, joined, number_at};
use call_graph::Ranks;
use sloth_base::{App, List, Result};
use std::alloc::Global;
use text_pieces::push;

/// A number for each node or item.
pub type Sizes = Result<Vec<u32>>;

/// Where a node leads.
#[derive(Clone, Copy)]
pub struct Ways {
    pub next: Option<usize>,
    pub jump: Option<usize>,
}

/// Where the way leads, if that is not seen yet.
fn unseen_way(seen: &[bool], way: Option<usize>) -> Option<usize>
    requires { (j : ℕ) → way ≡ Some j → j < length seen.now }
    ensures { result ≡ unseen_way seen.now way }
{
    match way {
        Some(node) => { if seen[node] { None } else { Some(node) } }
        None => None,
    }
}

/// A node that this one leads to and that is not seen yet.
pub fn unseen_next(ways: &[Ways], seen: &[bool], from: usize) -> Option<usize>
    requires inside { AreInside ways.now }
    requires count { length seen.now ≡ length ways.now }
    requires known { from < length ways.now }
    ensures { result ≡ unseen_of ways.now seen.now from }
{
    match unseen_way(seen, ways[from].next) {
        Some(node) => Some(node),
        None => unseen_way(seen, ways[from].jump),
    }
}

fn leads_to_open(ways: &[Ways], done: &[bool], from: usize) -> bool
    requires inside { AreInside ways.now }
    requires count { length done.now ≡ length ways.now }
    requires known { from < length ways.now }
    ensures { result ≡ leads_to_open ways.now done.now from }
{
    unseen_next(ways, done, from).is_some()
}

/// Marks a node and puts it at the end of the list.
pub fn keep(marks: &mut [bool], list: &mut Vec<usize>, node: usize) -> Result<()>
    requires { node < length marks.old }
    ensures marks { OnOk result (marks.new ≡ set marks.old node true) }
    ensures list { OnOk result (list.new.items ≡ list.old.items ++ node ∷ []) }
{
    push(list, node)?;
    marks[node] = true;
    Ok(())
}

/// Goes on from the nodes of the stack until each that they lead to is done, or a loop is found.
fn dive(
    ways: &[Ways],
    seen: &mut [bool],
    done: &mut [bool],
    stack: &mut Vec<usize>,
    order: &mut Vec<usize>,
) -> Result<bool>
    requires inside { AreInside ways.now }
    requires searching { IsSearching ways.now seen.old done.old stack.old.items order.old.items }
    ensures { IfOk result (IsSearchEnd ways.now seen.old seen.new done.new stack.new.items order.new.items) }
{
    loop {
        match stack.pop() {
            None => return Ok(false),
            Some(from) => match unseen_next(ways, seen, from) {
                Some(node) => {
                    push(stack, from)?;
                    keep(seen, stack, node)?;
                }
                None => {
                    if leads_to_open(ways, done, from) {
                        return Ok(true);
                    }
                    keep(done, order, from)?;
                }
            },
        }
    }
}

pub fn no_marks(alloc: Global, count: usize) -> Result<Vec<bool>>
    ensures count { IfOk result (λ marks. length marks.items ≡ count) }
    ensures clear { IfOk result (λ marks. (i : ℕ) → i < count → get_or marks.items i false ≡ false) }
{
    let marks = vec![in alloc; false; count]?;
    Ok(marks)
}

fn search(
    ways: &[Ways],
    seen: &mut [bool],
    done: &mut [bool],
    stack: &mut Vec<usize>,
    order: &mut Vec<usize>,
) -> Result<bool>
    requires inside { AreInside ways.now }
    requires searching { IsSearching ways.now seen.old done.old stack.old.items order.old.items }
    requires none { stack.old.items ≡ [] }
    ensures { IfOk result (IsSearched ways.now order.new.items) }
{
    for node in 0..ways.len() {
        if !seen[node] {
            keep(seen, stack, node)?;
            if dive(ways, seen, done, stack, order)? {
                return Ok(true);
            }
        }
    }
    Ok(false)
}

/// An order in which each node stands behind those that it leads to; none where there is a loop.
pub fn finish_order(alloc: Global, ways: &[Ways]) -> Result<Option<List<usize>>>
    requires { AreInside ways.now }
    ensures { IfOk result (IsFound ways.now) }
{
    let mut seen = no_marks(alloc, ways.len())?;
    let mut done = no_marks(alloc, ways.len())?;
    let mut stack = Vec::new(alloc);
    let mut order = Vec::new(alloc);
    if search(ways, &mut seen, &mut done, &mut stack, &mut order)? {
        Ok(None)
    } else {
        Ok(Some(List::from_vec(order)))
    }
}

/// The one of lesser rank, where the function is not done.
fn lesser(ranks: &[u32], done: &[bool], best: Option<usize>, func: usize) -> Option<usize>
    ensures { result ≡ lesser ranks.now done.now best func }
{
    if is_marked(done, func) {
        return best;
    }
    match best {
        Some(other) if number_at(ranks, other) <= number_at(ranks, func) => Some(other),
        _ => Some(func),
    }
}

/// A function of least rank among those that are not done.
fn least(ranks: &[u32], done: &[bool]) -> Option<usize>
    ensures { IsLeastRank ranks.now done.now (length ranks.now) result }
{
    let mut best = None;
    for func in 0..ranks.len() {
        best = lesser(ranks, done, best, func);
    }
    best
}

/// All functions, each behind those that it calls.
pub fn callees_first(alloc: Global, app: &App, ranks: &Ranks) -> Result<Vec<usize>>
    requires belong { RanksOf app.now ranks.now }
    requires known { (f g : ℕ) → HasCall app.now f g → g < length app.now.funcs }
    ensures { IfOk result (λ order. IsCallOrder app.now order.items) }
{
    let mut done = no_marks(alloc, ranks.rank.items().len())?;
    let mut order = Vec::new(alloc);
    loop {
        match least(ranks.rank.items(), &done) {
            Some(func) => keep(&mut done, &mut order, func)?,
            None => return Ok(order),
        }
    }
}

/// The longest trail that goes on along this way, 0 where there is none.
fn along(table: &[u32], step: u32, way: Option<usize>) -> u32
    requires inside { (j : ℕ) → way ≡ Some j → j < length table.now }
    requires small { AreSizesInLimit table.now }
    requires step_small { step ≤ size_limit }
    ensures { result ≡ along table.now step way }
{
    match way {
        Some(node) if table[node] != 0 => joined(step, table[node]),
        _ => 0,
    }
}

pub fn longest_size(ways: &[Ways], table: &[u32], steps: &[u32], ends: &[u32], node: usize) -> u32
    requires inside { (j : ℕ) → HasWay ways.now node j → j < length table.now }
    requires small { AreSizesInLimit table.now }
    requires sizes { AreSizes ways.now steps.now ends.now }
    requires known { node < length ways.now }
    ensures { result ≡ longest_from ways.now table.now steps.now ends.now node }
{
    let next = along(table, steps[node], ways[node].next);
    let jump = along(table, steps[node], ways[node].jump);
    ends[node].max(next.max(jump))
}

pub fn zeros(alloc: Global, count: usize) -> Sizes
    ensures count { IfOk result (λ table. length table.items ≡ count) }
    ensures none { IfOk result (λ table. (i : ℕ) → get_or table.items i 0 ≡ 0) }
{
    let table = vec![in alloc; 0; count]?;
    Ok(table)
}

/// For each node the size of the longest trail from it.
pub fn longest(alloc: Global, ways: &[Ways], order: &[usize], steps: &[u32], ends: &[u32]) -> Sizes
    requires order { IsOrder ways.now order.now }
    requires sizes { AreSizes ways.now steps.now ends.now }
    ensures count { IfOk result (λ table. length table.items ≡ length ways.now) }
    ensures longest { IfOk result (λ table. (i : ℕ) → i < length ways.now
        → IsLongest ways.now steps.now ends.now i (get_or table.items i 0)) }
{
    let mut table = zeros(alloc, ways.len())?;
    for node in order {
        table[*node] = longest_size(ways, &table, steps, ends, *node);
    }
    Ok(table)
}

/// Goes on from the nodes of the stack until all that they lead to are marked.
fn spread(ways: &[Ways], first: usize, marks: &mut [bool], stack: &mut Vec<usize>) -> Result<()>
    requires inside { AreInside ways.now }
    requires spreading { IsSpreading ways.now first marks.old stack.old.items }
    ensures { OnOk result ((i : ℕ) → HasMark marks.new i ↔ IsReachable ways.now first i) }
{
    loop {
        match stack.pop() {
            None => return Ok(()),
            Some(from) => match unseen_next(ways, marks, from) {
                Some(node) => {
                    push(stack, from)?;
                    keep(marks, stack, node)?;
                }
                None => {}
            },
        }
    }
}

fn spread_out(ways: &[Ways], first: usize, marks: &mut [bool], stack: &mut Vec<usize>) -> Result<()>
    requires inside { AreInside ways.now }
    requires some { first < length ways.now }
    requires count { length marks.old ≡ length ways.now }
    requires clear { (i : ℕ) → i < length ways.now → get_or marks.old i false ≡ false }
    requires none { stack.old.items ≡ [] }
    ensures { OnOk result ((i : ℕ) → HasMark marks.new i ↔ IsReachable ways.now first i) }
{
    keep(marks, stack, first)?;
    spread(ways, first, marks, stack)
}

/// The nodes that this one reaches.
pub fn reachable(alloc: Global, ways: &[Ways], first: usize) -> Result<Vec<bool>>
    requires some { first < length ways.now }
    requires inside { AreInside ways.now }
    ensures count { IfOk result (λ marks. length marks.items ≡ length ways.now) }
    ensures exact { IfOk result (λ marks. (i : ℕ) → HasMark marks.items i ↔ IsReachable ways.now first i) }
{
    let mut marks = no_marks(alloc, ways.len())?;
    let mut stack = Vec::new(alloc);
    spread_out(ways, first, &mut marks, &mut stack)?;
    Ok(marks)
}
