//! The functions that each function reaches by chains of calls: a row of bits for each. Sets of small numbers as bits.
//! V1: functions that lie on a cycle of calls. What a function reaches, from its number and its row.
ghost use Rattle.std.specs.Prelude.{◌≡◌, ℕ, ◌<◌, ◌≤◌, ◌||◌, ◌&&◌, length, Decides, ◌==◌};
ghost use Rattle.call_graph.specs.Bits.{is_member};
ghost use Rattle.call_graph.specs.Rows.{row_has, widened_row, IsRowChain};
ghost use Rattle.sloth_base.specs.Limits.{body_limit};
ghost use Rattle.sloth_base.specs.Search.{IsSearchResult};
ghost use Rattle.call_graph.specs.Cycles.{RowCycle};
ghost use Rattle.sloth_base.specs.Options.{is_number};
ghost use Rattle.call_graph.specs.Reached.{AreFew, TakesFew, IsOfFew, is_direct_taking, is_direct_pause, reaches_by, takes_by, pauses_by, used_by};

use crate::lists::{pauses, taken};
use sloth_base::refusal::{fault_if, merge};
use sloth_base::{Code, Func, Part, Refusal};

/// A row that also has what the row of k has, where it has k.
fn joined(own: u64, row: u64, k: usize) -> u64
    requires { k < 64 }
    ensures { (j : ℕ) → is_member result j ≡ (is_member own j || (is_member own k && is_member row j)) }
{
    if has(own, k) { union(own, row) } else { own }
}

fn round(rows: &mut [u64], k: usize)
    requires inside { k < length rows.old }
    requires few { length rows.old ≤ 64 }
    ensures { (i j : ℕ) → i < length rows.old → row_has rows.new i j ≡ widened_row rows.old k i j }
{
    let row = rows[k];
    for own in rows.iter_mut() {
        *own = joined(*own, row, k);
    }
}

fn close(rows: &mut [u64])
    requires { length rows.old ≤ 64 }
    ensures { (i j : ℕ) → Decides (row_has rows.new i j) ((between : _) × IsRowChain rows.old i between j) }
{
    for k in 0..rows.len() {
        round(rows, k);
    }
}

/// The rows of direct calls closed: a row has what chains of calls reach.
pub fn closed(direct: Vec<u64>) -> Vec<u64>
    requires { length direct.items ≤ 64 }
    ensures count { length result.items ≡ length direct.items }
    ensures reach { (i j : ℕ) → Decides (row_has result.items i j)
        ((between : _) × IsRowChain direct.items i between j) }
{
    let mut rows = direct;
    close(&mut rows);
    rows
}

/// The set with one member more.
pub fn with(set: u64, member: u32) -> u64
    requires { member < 64 }
    ensures { (k : ℕ) → is_member result k ≡ (is_member set k || (member == k)) }
{
    set | (1 << member)
}

/// The set of tasks with one more.
pub fn with_task(set: u32, task: u32) -> u32
    requires { task < 32 }
    ensures { (k : ℕ) → is_member result k ≡ (is_member set k || (task == k)) }
{
    set | (1 << task)
}

/// Whether the set has this member.
pub fn has(set: u64, member: usize) -> bool
    requires { member < 64 }
    ensures { result ≡ is_member set member }
{
    (set >> member) & 1 == 1
}

/// The members of both.
pub fn union(one: u64, other: u64) -> u64
    ensures { (k : ℕ) → is_member result k ≡ (is_member one k || is_member other k) }
{
    one | other
}

/// The least function that its own row has, by its header's line.
pub fn cycle(funcs: &[Func], rows: &[u64]) -> Option<Refusal>
    requires same { length rows.now ≡ length funcs.now }
    requires few { length funcs.now ≤ body_limit }
    ensures { IsSearchResult (RowCycle funcs.now rows.now) result }
{
    let mut least = None;
    for (number, func) in funcs.iter().enumerate() {
        let itself = has(rows[number], number);
        least = merge(least, fault_if(itself, Part::Src, func.line, Code::V1));
    }
    least
}

fn is_reached(from: usize, row: u64, to: usize) -> bool
    requires { to < 64 }
    ensures { result ≡ reaches_by from row to }
{
    from == to || has(row, to)
}

fn with_taken(resources: u64, reached: bool, func: &Func) -> u64
    requires { TakesFew func.now }
    ensures { (r : ℕ) → is_member result r ≡ (is_member resources r || (reached && is_direct_taking func.now r)) }
{
    if reached {
        union(resources, taken(func.items.items()))
    } else {
        resources
    }
}

/// The resources that the function with this number and this row reaches taking.
pub fn reached_resources(funcs: &[Func], from: usize, row: u64) -> u64
    requires { AreFew funcs.now }
    ensures { (r : ℕ) → is_member result r ≡ takes_by funcs.now from row r }
{
    let mut resources = 0;
    for (number, func) in funcs.iter().enumerate() {
        resources = with_taken(resources, is_reached(from, row, number), func);
    }
    resources
}

fn either_pauses(pausing: bool, reached: bool, func: &Func) -> bool
    ensures { result ≡ (pausing || (reached && is_direct_pause func.now)) }
{
    pausing || (reached && pauses(func.items.items()))
}

/// Whether the function with this number and this row reaches a WaitEvent or a Schedule.
pub fn reaches_pause(funcs: &[Func], from: usize, row: u64) -> bool
    requires { length funcs.now ≤ body_limit }
    ensures { result ≡ pauses_by funcs.now from row }
{
    let mut pausing = false;
    for (number, func) in funcs.iter().enumerate() {
        pausing = either_pauses(pausing, is_reached(from, row, number), func);
    }
    pausing
}

fn with_user(users: u32, reaches: bool, func: &Func) -> u32
    requires { IsOfFew func.now }
    ensures { (t : ℕ) → is_member result t ≡ (is_member users t || (reaches && is_number t func.now.task)) }
{
    match func.task {
        Some(task) if reaches => with_task(users, task.0),
        _ => users,
    }
}

/// The tasks whose body is the function, or reaches it by these rows.
pub fn reaching_tasks(funcs: &[Func], rows: &[u64], to: usize) -> u32
    requires few { AreFew funcs.now }
    requires same { length rows.now ≡ length funcs.now }
    requires known { to < length funcs.now }
    ensures { (t : ℕ) → is_member result t ≡ used_by funcs.now rows.now to t }
{
    let mut users = 0;
    for (number, func) in funcs.iter().enumerate() {
        users = with_user(users, is_reached(number, rows[number], to), func);
    }
    users
}
