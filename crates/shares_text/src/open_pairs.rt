//! Open pairs: accesses of two tasks, one a store, between which nothing keeps the higher task out.
ghost use Rattle.std.specs.Prelude.{◌≡◌, None, IfOk};
ghost use Rattle.shares_text.specs.Verdicts.{is_before};
ghost use Rattle.shares_text.specs.Computed.{no_firsts, least_line, firsts_with, firsts_of, high_line, pair_of};
ghost use Rattle.shares_text.specs.Computed.{first_of, first_pair, first_pairs, AreFirsts, IsPairBy};

use crate::contexts::Use;
use crate::verdict::entry;
use sloth_base::{Result, TaskDecl};
use std::alloc::Global;
use text_pieces::push;

/// The lower task at one line may be preempted by the higher one, which does the other line.
#[derive(Clone, Copy)]
pub struct OpenPair {
    pub low: usize,
    pub low_line: u32,
    pub high: usize,
    pub high_line: u32,
}

/// The least lines of a task's accesses and of its stores.
#[derive(Clone, Copy)]
pub struct Firsts {
    pub access: Option<u32>,
    pub store: Option<u32>,
}

const NO_FIRSTS: Firsts = Firsts {
    access: None,
    store: None,
};

fn least_line(least: Option<u32>, line: u32) -> Option<u32>
    ensures { result ≡ least_line least line }
{
    match least {
        Some(other) => Some(line.min(other)),
        None => Some(line),
    }
}

fn lesser_firsts(firsts: Firsts, used: &Use) -> Firsts
    ensures { result ≡ firsts_with firsts used.now }
{
    Firsts {
        access: least_line(firsts.access, used.line),
        store: if used.stores {
            least_line(firsts.store, used.line)
        } else {
            firsts.store
        },
    }
}

fn task_firsts(uses: &[Use], task: usize) -> Firsts
    ensures { result ≡ firsts_of task no_firsts uses.now }
{
    let mut firsts = NO_FIRSTS;
    for used in uses {
        if used.task == task {
            firsts = lesser_firsts(firsts, used);
        }
    }
    firsts
}

fn all_firsts(alloc: Global, uses: &[Use], count: usize) -> Result<Vec<Firsts>>
    ensures { IfOk result (λ table. AreFirsts uses.now count table.items) }
{
    let mut table = Vec::new(alloc);
    for task in 0..count {
        push(&mut table, task_firsts(uses, task))?;
    }
    Ok(table)
}

// The line of the higher task: of an access where the lower one stores, else of a store.
fn high_line(firsts: Firsts, low_stores: bool) -> Option<u32>
    ensures { result ≡ high_line firsts low_stores }
{
    if low_stores {
        firsts.access
    } else {
        firsts.store
    }
}

fn use_pair(low: &Use, high: usize, priority: u32, firsts: Firsts) -> Option<OpenPair>
    ensures { result ≡ pair_of low.now high priority firsts }
{
    if priority <= low.least {
        return None;
    }
    Some(OpenPair {
        low: low.task,
        low_line: low.line,
        high,
        high_line: high_line(firsts, low.stores)?,
    })
}

// Whether the pair stands before another one: by the lines, then by the tasks.
fn is_before(one: &OpenPair, other: &OpenPair) -> bool
    ensures { result ≡ is_before one.now other.now }
{
    if one.low_line != other.low_line {
        return one.low_line < other.low_line;
    }
    if one.high_line != other.high_line {
        return one.high_line < other.high_line;
    }
    if one.low != other.low {
        return one.low < other.low;
    }
    one.high < other.high
}

fn earlier_pair(one: Option<OpenPair>, other: Option<OpenPair>) -> Option<OpenPair>
    ensures { result ≡ first_of one other }
{
    match (one, other) {
        (None, pair) => pair,
        (Some(one), None) => Some(one),
        (Some(one), Some(other)) if is_before(&other, &one) => Some(other),
        (Some(one), Some(_)) => Some(one),
    }
}

fn first_pair(
    tasks: &[TaskDecl],
    firsts: &[Firsts],
    found: Option<OpenPair>,
    low: &Use,
) -> Option<OpenPair>
    ensures { result ≡ first_pair firsts.now low.now 0 found tasks.now }
{
    let mut first = found;
    for (high, task) in tasks.iter().enumerate() {
        let lines = entry(firsts, high, NO_FIRSTS);
        first = earlier_pair(first, use_pair(low, high, task.priority, lines));
    }
    first
}

fn first_pairs(tasks: &[TaskDecl], firsts: &[Firsts], uses: &[Use]) -> Option<OpenPair>
    ensures { result ≡ first_pairs tasks.now firsts.now None uses.now }
{
    let mut first = None;
    for low in uses {
        first = first_pair(tasks, firsts, first, low);
    }
    first
}

/// The first open pair of a symbol's uses, if there is one.
pub fn open_pair(alloc: Global, tasks: &[TaskDecl], uses: &[Use]) -> Result<Option<OpenPair>>
    ensures { IfOk result (IsPairBy tasks.now uses.now) }
{
    let firsts = all_firsts(alloc, uses, tasks.len())?;
    Ok(first_pairs(tasks, &firsts, uses))
}
