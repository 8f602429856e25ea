//! Priorities, the task that is due, and what stands above a task in the order of all that are due.
ghost use Rattle.std.specs.Prelude.{◌≡◌, ◌<◌, ◌≤◌, not, true, length, map, ◌*◌, ◌%◌, ◌^◌, ℕ, bit_or, cond};
ghost use Rattle.sloth_base.specs.Limits.{task_limit, counter_limit};
ghost use Rattle.osek_scheduler.specs.Priority.{ceiling, greatest, is_active, rank};
ghost use Rattle.code_rules.specs.Code.{is_in};
ghost use Rattle.osek_scheduler.specs.State.{counter};
ghost use Rattle.osek_scheduler.specs.Next.{all_below, is_due, is_next_tick, is_ready, is_top, no_ticks, yields_to};
ghost use Rattle.std.specs.Int.{bit_at};
ghost use Rattle.sloth_base.specs.MemoryMap.{line_count};
ghost use Rattle.osek_machine.specs.Above.{is_above, is_line_above};

use crate::Store;
use osek_scheduler::{TaskState, ceiling, highest};
use sloth_base::{Config, FIRST_COUNTER_LINE};

/// Whether a task in this state is Ready.
pub fn is_ready(state: TaskState) -> bool
    ensures { result ≡ is_ready state }
{
    matches!(state, TaskState::Ready)
}

/// Whether a task in this state is Active.
pub fn is_active(state: TaskState) -> bool
    ensures { result ≡ is_active state }
{
    matches!(state, TaskState::Active)
}

fn includes(number: u32, numbers: &[u32]) -> bool
    ensures { result ≡ is_in number numbers.now }
{
    for other in numbers {
        if *other == number {
            return true;
        }
    }
    false
}

fn highest_ceiling(config: &Config, held: &[u32]) -> u32
    ensures { result ≡ greatest (map (ceiling config.now) held.now) }
{
    let mut top = 0;
    for resource in held {
        top = ceiling(config, *resource).max(top);
    }
    top
}

/// The place of a task in the order of the tasks that are due.
pub fn rank(config: &Config, store: &Store, t: usize) -> u64
    requires declared { t < length config.now.tasks }
    requires there { t < length store.now.tasks }
    ensures { result ≡ rank config.now store.now t }
{
    let declared = &config.tasks.items()[t];
    let task = store.task(t);
    if is_active(task.state()) {
        let held = highest_ceiling(config, task.held.items());
        let raised = if task.raised { highest(config) } else { 0 };
        let priority = declared.priority.max(held.max(raised));
        return 2 * u64::from(priority) + 1;
    }
    2 * u64::from(declared.priority)
}

/// Whether a task is Ready or Active.
pub fn is_due(store: &Store, t: usize) -> bool
    requires { t < length store.now.tasks }
    ensures { result ≡ is_due store.now t }
{
    let state = store.task(t).state();
    is_ready(state) || is_active(state)
}

// Whether a task is not due, or left out, or of no greater rank than another.
fn yields(config: &Config, store: &Store, others: &[u32], t: usize, u: usize) -> bool
    requires count { length store.now.tasks ≡ length config.now.tasks }
    requires first { t < length config.now.tasks }
    requires second { u < length config.now.tasks }
    requires small { u < 4294967296 }
    ensures { result ≡ yields_to config.now store.now others.now t u }
{
    !is_due(store, u)
        || includes(u as u32, others)
        || rank(config, store, u) <= rank(config, store, t)
}

// Whether all tasks yield to one.
fn is_greatest(config: &Config, store: &Store, others: &[u32], t: usize) -> bool
    requires count { length store.now.tasks ≡ length config.now.tasks }
    requires few { length config.now.tasks ≤ task_limit }
    requires declared { t < length config.now.tasks }
    ensures { result ≡ all_below (length config.now.tasks) (yields_to config.now store.now others.now t) }
{
    for u in 0..config.tasks.items().len() {
        if !yields(config, store, others, t, u) {
            return false;
        }
    }
    true
}

/// Whether no counter is due.
pub fn no_ticks(config: &Config, store: &Store) -> bool
    ensures { result ≡ no_ticks config.now store.now }
{
    none_due(store, config.counters.items().len())
}

// Whether no counter of a lower number is due.
fn none_due(store: &Store, c: usize) -> bool
    ensures { result ≡ all_below c (λ d. not (counter store.now d).due) }
{
    for d in 0..c {
        if store.counter(d).due {
            return false;
        }
    }
    true
}

/// Whether a counter is due, and none of lower number.
pub fn is_next_tick(config: &Config, store: &Store, c: u32) -> bool
    ensures { result ≡ is_next_tick config.now store.now c }
{
    let place = c as usize;
    place < config.counters.items().len() && store.counter(place).due && none_due(store, place)
}

/// Whether a task is the greatest of those that are due and not left out, and no counter is due.
pub fn is_top(config: &Config, store: &Store, others: &[u32], t: u32) -> bool
    requires count { length store.now.tasks ≡ length config.now.tasks }
    requires few { length config.now.tasks ≤ task_limit }
    ensures top { result ≡ is_top config.now store.now others.now t }
    ensures declared { result ≡ true → t < length config.now.tasks }
{
    let place = t as usize;
    place < config.tasks.items().len()
        && is_due(store, place)
        && !includes(t, others)
        && is_greatest(config, store, others, place)
        && no_ticks(config, store)
}

/// Whether no task is due.
pub fn is_idle(config: &Config, store: &Store) -> bool
    requires { length store.now.tasks ≡ length config.now.tasks }
    ensures { result ≡ all_below (length config.now.tasks) (λ t. not (is_due store.now t)) }
{
    for t in 0..config.tasks.items().len() {
        if is_due(store, t) {
            return false;
        }
    }
    true
}

// The line of the first counter; the others follow it.
const FIRST_COUNTER: u32 = FIRST_COUNTER_LINE as u32;

// Whether a task is Ready and has a greater rank than another, whose rank is given.
fn is_above(config: &Config, store: &Store, rank_of_task: u64, task: usize, other: usize) -> bool
    requires count { length store.now.tasks ≡ length config.now.tasks }
    requires declared { other < length config.now.tasks }
    requires rank { rank_of_task ≡ rank config.now store.now task }
    ensures { result ≡ is_above config.now store.now task other }
{
    is_ready(store.task(other).state()) && rank_of_task < rank(config, store, other)
}

fn with_line(row: u32, line: u32) -> u32
    requires { line < line_count }
    ensures { result ≡ bit_or row (1 * 2 ^ line % 2 ^ 32) }
{
    row | 1 << line
}

fn tasks_above(config: &Config, store: &Store, task: u32) -> u32
    requires count { length store.now.tasks ≡ length config.now.tasks }
    requires few { length config.now.tasks ≤ task_limit }
    requires declared { task < length config.now.tasks }
    ensures { (u : ℕ) → bit_at result u ≡ cond (is_above config.now store.now task u) 1 0 }
{
    let place = task as usize;
    let rank_of_task = rank(config, store, place);
    let mut row = 0;
    for other in 0..config.tasks.items().len() {
        if is_above(config, store, rank_of_task, place, other) {
            row = with_line(row, other as u32);
        }
    }
    row
}

/// The due counters, and the Ready tasks that stand above a task, a bit for each line.
pub fn lines_above(config: &Config, store: &Store, task: u32) -> u32
    requires count { length store.now.tasks ≡ length config.now.tasks }
    requires few { length config.now.tasks ≤ task_limit }
    requires declared { task < length config.now.tasks }
    requires few_counters { length config.now.counters ≤ counter_limit }
    ensures { (line : ℕ) → bit_at result line ≡ cond (is_line_above config.now store.now task line) 1 0 }
{
    let mut row = tasks_above(config, store, task);
    for counter in 0..config.counters.items().len() {
        if store.counter(counter).due {
            row = with_line(row, FIRST_COUNTER + counter as u32);
        }
    }
    row
}
