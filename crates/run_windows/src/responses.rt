//! The least numbers and counts of windows, bounds by them, response times, of what they are made, and a load's demand.
ghost use Rattle.std.specs.Prelude.{◌≡◌, ◌<◌, ◌+◌, ◌-◌, Bool, length, IfOk, ◌++◌, OnOk, Some, cond, true, false};
ghost use Rattle.run_windows.specs.Settling.{TakeCounts, AreBelow, slack, IsMet, HasGrown, IsFound};
ghost use Rattle.run_windows.specs.RunWindows.{margin, begun_item, lead_of, run_window, run_starts, IsNumber};
ghost use Rattle.run_windows.specs.RunWindows.{start_if, task_starts, start_service};
ghost use Rattle.run_windows.specs.Longest.{longer, IsLongest, AreParts};
ghost use Rattle.run_windows.specs.Costs.{greatest_sum, window_limit};
ghost use Rattle.run_windows.specs.Windows.{IsBound};
ghost use Rattle.run_windows.specs.Demand.{IsDemand};

use crate::costs::{Costs, Longest, Made, NEVER, RunCosts, Start, Window, first_untold};
use crate::curves::{counts_ahead, has_cycle, raise_rates};
use crate::level::{
    activation_front, front_of, is_apart, is_boot, is_joined, is_lower, section, setting_front,
    start_counts, start_service,
};
use crate::rounds::{WINDOW_LIMIT, made_within, number_of, window_counts};
use sloth_base::{List, Result, TASK_LIMIT};
use std::alloc::Global;
use text_pieces::push;

/// The item that a lower task has begun where a window begins.
pub fn begun_item(longest: u32, start: Start) -> u32
    ensures { result ≡ begun_item longest start }
{
    if is_boot(start) { 0 } else { longest }
}

/// The window of a start.
pub fn window_of(run: &RunCosts, h: usize, opens: bool, start: Start) -> Window
    ensures { result ≡ run_window run.now.longest run.now.late run.now.costs h opens start }
{
    let stretches = u64::from(run.late) + u64::from(run.late);
    let items = u64::from(run.longest) + u64::from(begun_item(run.longest, start));
    let margin = items + stretches;
    Window {
        target: Some(h),
        start,
        front: margin + front_of(&run.costs, h, opens, start),
        span: None,
    }
}

// A bound with what stands in front of where its window begins, without the margin.
fn less_margin(longest: u32, late: u32, opens: bool, bound: u32) -> u32
    ensures { result ≡ bound + lead_of opens late - margin longest late }
{
    let less = bound.saturating_sub(longest).saturating_sub(late);
    let second = if opens { 0 } else { late };
    less.saturating_sub(second)
}

fn number(run: &RunCosts, h: usize, opens: bool, start: Start, made: &mut [Made]) -> Option<u32>
    requires costs { TakeCounts run.now.costs }
    requires count { length made.old ≡ length run.now.costs.tasks }
    ensures number { IsNumber run.now.longest run.now.late run.now.costs h opens start result }
    ensures count { length made.new ≡ length run.now.costs.tasks }
{
    let window = window_of(run, h, opens, start);
    let bound = window_bound(&run.costs, &window, made)?;
    Some(less_margin(run.longest, run.late, opens, bound))
}

fn longer(most: Longest, start: Start, opens: bool, number: u32) -> Longest
    ensures { result ≡ longer most start opens number }
{
    if most.number < number {
        Longest {
            number,
            start,
            opens,
        }
    } else {
        most
    }
}

// The longest of the windows of these starts, where all that they are computed from has a number.
fn told_longest(run: &RunCosts, h: usize, starts: &[Start], made: &mut [Made]) -> Option<Longest>
    requires costs { TakeCounts run.now.costs }
    requires count { length made.old ≡ length run.now.costs.tasks }
    ensures { h < length run.now.costs.tasks → (boot : Bool) → starts.now ≡ run_starts run.now.costs h boot
        → IsLongest run.now.longest run.now.late run.now.costs h boot result }
{
    if first_untold(&run.costs, h).is_some() {
        return None;
    }
    let mut most = Longest {
        number: 0,
        start: Start::Free,
        opens: true,
    };
    for start in starts {
        let opening = number(run, h, true, *start, made)?;
        let serving = number(run, h, false, *start, made)?;
        let first = longer(most, *start, true, opening);
        most = longer(first, *start, false, serving);
    }
    Some(most)
}

/// The longest window of a task, less than their number, and within how many counts the task leaves the processor
/// behind what makes it Ready, in runs that keep these costs, where no item has more instructions than the longest, and
/// no stretch takes more counts than `late`: the least number that all windows allow; or, where what makes it is behind
/// boot, all but boot's. None where what it needs has no number, or a window has more than 2,147,483,647 counts.
pub fn longest_window(
    alloc: Global,
    run: &RunCosts,
    h: usize,
    boot: bool,
) -> Result<Option<Longest>>
    requires { TakeCounts run.now.costs }
    ensures { IfOk result (λ l. h < length run.now.costs.tasks
        → IsLongest run.now.longest run.now.late run.now.costs h boot l) }
{
    let starts = run_starts(alloc, &run.costs, h, boot)?;
    let mut made = room(alloc, run.costs.tasks.items().len())?;
    Ok(told_longest(run, h, &starts, &mut made))
}

fn push_if(starts: &mut Vec<Start>, test: bool, start: Start) -> Result<()>
    ensures { OnOk result (starts.new.items ≡ starts.old.items ++ start_if test start) }
{
    if test {
        push(starts, start)?;
    }
    Ok(())
}

// A task of the level is made in front, if that takes anything; a lower one is raised, or a round of it is under way.
fn push_task(starts: &mut Vec<Start>, costs: &Costs, h: usize, j: usize) -> Result<()>
    ensures { OnOk result (starts.new.items ≡ starts.old.items ++ task_starts costs.now h j) }
{
    let upper = !is_lower(costs, h, j);
    let activation = activation_front(costs, h, j);
    push_if(starts, upper && activation != 0, Start::Activation(j))?;
    let setting = setting_front(costs, h, j);
    push_if(starts, upper && setting != 0, Start::Setting(j))?;
    let has_some = is_apart(costs, h, j) && section(costs, h, j).exists;
    push_if(starts, has_some, Start::Section(j))?;
    push_if(starts, is_joined(costs, h, j), Start::Round(j))
}

/// All starts of a task; or all but boot.
pub fn run_starts(alloc: Global, costs: &Costs, h: usize, boot: bool) -> Result<Vec<Start>>
    ensures { IfOk result (λ list. list.items ≡ run_starts costs.now h boot) }
{
    let mut starts = Vec::new(alloc);
    push(&mut starts, Start::Free)?;
    push_if(&mut starts, boot, Start::Boot)?;
    for j in 0..costs.tasks.items().len() {
        push_task(&mut starts, costs, h, j)?;
    }
    Ok(starts)
}

/// What a window has in front, and what comes within it.
#[derive(Drop)]
pub struct Parts {
    /// The stretch in front of the end of its first event.
    pub stretch: u32,
    /// The item that a lower task has begun.
    pub item: u32,
    /// The section of a lower task.
    pub section: u64,
    /// The service behind admissions.
    pub service: u32,
    /// Within how many counts arrivals are counted.
    pub counts: u64,
    /// How often each task is made.
    pub numbers: List<Made>,
}

fn lead_of(opens: bool, late: u32) -> u32
    ensures { result ≡ lead_of opens late }
{
    if opens { late } else { 0 }
}

// The service of a window, where it does not open with its event.
fn service_of(costs: &Costs, h: usize, window: Longest) -> u32
    ensures { result ≡ cond window.opens 0 (start_service costs.now h window.start) }
{
    if window.opens {
        0
    } else {
        start_service(costs, h, window.start)
    }
}

/// Those of a window of a task whose number is not 0.
pub fn window_parts(alloc: Global, run: &RunCosts, h: usize, window: Longest) -> Result<Parts>
    requires costs { TakeCounts run.now.costs }
    requires number { IsNumber run.now.longest run.now.late run.now.costs h window.opens window.start
        (Some window.number) }
    requires some { 0 < window.number }
    ensures { IfOk result (λ parts. AreParts run.now.longest run.now.late run.now.costs h window parts) }
{
    let costs = &run.costs;
    let mut numbers = room(alloc, costs.tasks.items().len())?;
    let bounded = window_of(run, h, window.opens, window.start);
    let counts = settle(costs, &bounded, WINDOW_LIMIT, &mut numbers).unwrap_or(0);
    Ok(Parts {
        stretch: lead_of(window.opens, run.late),
        item: begun_item(run.longest, window.start),
        section: start_counts(costs, h, window.start),
        service: service_of(costs, h, window),
        counts,
        numbers: List::from_vec(numbers),
    })
}

/// The bound of a window up to a limit: the counts of its least solution, or 0 where its target is not made in it.
pub fn bound(costs: &Costs, window: &Window, limit: u64, numbers: &mut [Made]) -> Option<u64>
    requires costs { TakeCounts costs.now }
    requires limit { limit < greatest_sum }
    requires count { length numbers.old ≡ length costs.now.tasks }
    ensures bound { IsBound limit costs.now window.now result }
    ensures count { length numbers.new ≡ length costs.now.tasks }
{
    let counts = settle(costs, window, limit, numbers)?;
    let Some(h) = window.target else {
        return Some(counts);
    };
    let made = number_of(numbers, h);
    let unmade = made.activations == 0 && made.settings == 0;
    Some(if unmade { 0 } else { counts })
}

/// The bound of a window up to 2,147,483,647 counts.
pub fn window_bound(costs: &Costs, window: &Window, numbers: &mut [Made]) -> Option<u32>
    requires costs { TakeCounts costs.now }
    requires count { length numbers.old ≡ length costs.now.tasks }
    ensures bound { IsBound window_limit costs.now window.now result }
    ensures count { length numbers.new ≡ length costs.now.tasks }
{
    let counts = bound(costs, window, WINDOW_LIMIT, numbers)?;
    Some(counts as u32)
}

/// Numbers of so many tasks.
pub fn room(alloc: Global, count: usize) -> Result<Vec<Made>>
    ensures { IfOk result (λ numbers. length numbers.items ≡ count) }
{
    Ok(Vec::from_elem(alloc, NEVER, count)?)
}

/// Makes the numbers of a task what comes of it, where that is more: whether one has grown.
fn grow(costs: &Costs, window: &Window, numbers: &mut [Made], counts: u64, j: usize) -> bool
    requires below { AreBelow costs.now window.now numbers.old counts }
    requires inside { j < length costs.now.tasks }
    ensures below { AreBelow costs.now window.now numbers.new counts }
    ensures grown { result ≡ true → slack numbers.new < slack numbers.old }
    ensures same { result ≡ false → (numbers.new ≡ numbers.old) × IsMet costs.now window.now numbers.old counts j }
{
    let made = made_within(costs, window, numbers, counts, j);
    let old = numbers[j];
    if made.activations <= old.activations && made.settings <= old.settings {
        return false;
    }
    numbers[j] = Made {
        activations: old.activations.max(made.activations),
        settings: old.settings.max(made.settings),
    };
    true
}

/// A pass over all tasks: whether a number has grown.
fn pass(costs: &Costs, window: &Window, numbers: &mut [Made], counts: u64) -> bool
    requires below { AreBelow costs.now window.now numbers.old counts }
    ensures below { AreBelow costs.now window.now numbers.new counts }
    ensures grown { HasGrown costs.now window.now numbers.old numbers.new counts (length costs.now.tasks) result }
{
    let mut grown = false;
    for j in 0..costs.tasks.items().len() {
        if grow(costs, window, numbers, counts, j) {
            grown = true;
        }
    }
    grown
}

// How many passes go by before cycles and rates are looked for, at first and then.
const FEW_PASSES: u32 = 16;

const MANY_PASSES: u32 = 1000;

/// The counts of the least solution of a window, where they are within the limit, and its numbers, from zeros up.
pub fn settle(costs: &Costs, window: &Window, limit: u64, numbers: &mut [Made]) -> Option<u64>
    requires costs { TakeCounts costs.now }
    requires limit { limit < greatest_sum }
    requires count { length numbers.old ≡ length costs.now.tasks }
    ensures found { IsFound limit costs.now window.now numbers.new result }
    ensures count { length numbers.new ≡ length costs.now.tasks }
{
    for made in numbers.iter_mut() {
        *made = NEVER;
    }
    let mut rates = [NEVER; TASK_LIMIT];
    let mut passes: u32 = 0;
    let mut counts = 0;
    loop {
        let due = passes == FEW_PASSES;
        if due && has_cycle(costs, window, numbers, counts) {
            return None;
        }
        raise_rates(costs, window, due, &mut rates);
        passes = passes.wrapping_add(1) % MANY_PASSES;
        let from = counts.max(counts_ahead(costs, window, numbers, &rates, counts));
        if limit < from {
            return None;
        }
        let grown = pass(costs, window, numbers, from);
        let filled = window_counts(costs, window, numbers, from);
        if limit < filled {
            return None;
        }
        if !grown && filled <= from {
            return Some(from);
        }
        counts = from.max(filled);
    }
}

// The counts above which a demand is not told, and those of which it is told.
const DEMAND_LIMIT: u64 = 8_000_000_000;

const DEMAND_SPAN: u64 = 2_000_000_000;

/// How many hundredths of the processor's counts the arrivals within 2,000,000,000 counts ask for, rounded up; none
/// where it is above 400, or where what it is computed from has no limit.
pub fn demand(alloc: Global, costs: &Costs) -> Result<Option<u32>>
    requires { TakeCounts costs.now }
    ensures { IfOk result (λ p. IsDemand costs.now p) }
{
    let mut numbers = room(alloc, costs.tasks.items().len())?;
    let window = Window {
        target: None,
        start: Start::Free,
        front: 0,
        span: Some(DEMAND_SPAN),
    };
    match bound(costs, &window, DEMAND_LIMIT, &mut numbers) {
        Some(counts) => Ok(Some(((counts + 19_999_999) / 20_000_000) as u32)),
        None => Ok(None),
    }
}
