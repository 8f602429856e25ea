//! What comes within a window: arrivals, expiries of alarms, activations, settings of events and counts.
//! Numbers up to 8,000,000,001, for which all that is greater, or has no limit, stands.
ghost use Rattle.std.specs.Prelude.{◌≡◌, ◌+◌, ◌*◌, ◌≤◌};
ghost use Rattle.run_windows.specs.Costs.{capped, greatest_sum, reckoned};
ghost use Rattle.run_windows.specs.Windows.{numbers_of, shared, of_makings, round_makings, rule_of, counted};
ghost use Rattle.run_windows.specs.Windows.{activations, settings, round_counts, window_counts};
ghost use Rattle.run_windows.specs.Arrivals.{arrivals, cyclic_expiries, expiries, acts_on, expiring, ticking};
ghost use Rattle.run_windows.specs.Arrivals.{tick_counts};

use crate::costs::{AlarmCosts, Costs, CounterCosts, Made, Makings, NEVER, TaskCosts, Window};
use crate::level::{begun, counted, is_boot, makers, rule_of, task};

/// How often task k is made; never behind the last one.
pub fn number_of(numbers: &[Made], k: usize) -> Made
    ensures { result ≡ numbers_of numbers.now k }
{
    numbers.get(k).copied().unwrap_or(NEVER)
}

// A number for each activation and one for each setting.
fn shared(made: Made, first: Option<u32>, next: Option<u32>) -> u64
    ensures { result ≡ capped (shared made first next) }
{
    let firsts = times(made.activations, reckoned(first));
    plus(firsts, times(made.settings, reckoned(next)))
}

/// How often the rounds of a task that is made so often activate another one, or set its events.
pub fn of_makings(sets: bool, made: Made, makings: &Makings) -> u64
    ensures { result ≡ capped (of_makings sets made makings.now) }
{
    if sets {
        shared(made, makings.first_settings, makings.next_settings)
    } else {
        shared(made, makings.first_activations, makings.next_activations)
    }
}

/// How often rounds activate a task, or set its events.
pub fn round_makings(sets: bool, numbers: &[Made], makers: &[Makings]) -> u64
    ensures { result ≡ capped (round_makings sets (numbers_of numbers.now) 0 makers.now) }
{
    let mut total = 0;
    for (k, makings) in makers.iter().enumerate() {
        total = plus(total, of_makings(sets, number_of(numbers, k), makings));
    }
    total
}

fn round_counts(numbers: &[Made], tasks: &[TaskCosts]) -> u64
    ensures { result ≡ capped (round_counts (numbers_of numbers.now) 0 tasks.now) }
{
    let mut total = 0;
    for (k, task) in tasks.iter().enumerate() {
        total = plus(total, shared(number_of(numbers, k), task.first, task.next));
    }
    total
}

/// How often a task is made within a window of so many counts, in which all are made that often.
pub fn made_within(costs: &Costs, window: &Window, numbers: &[Made], counts: u64, j: usize) -> Made
    ensures { result ≡ counted (rule_of costs.now window.now j)
        (capped (activations costs.now window.now (numbers_of numbers.now) counts j))
        (capped (settings costs.now window.now (numbers_of numbers.now) counts j)) }
{
    let (boot, span) = (is_boot(window.start), window.span.unwrap_or(counts));
    let begun = begun(costs, window, j);
    let arrived = plus(begun.activations, arrivals(span, task(costs, j).distance));
    let started = plus(arrived, ticking(boot, false, costs, j, span));
    let activated = plus(started, round_makings(false, numbers, makers(costs, j)));
    let signalled = plus(begun.settings, ticking(boot, true, costs, j, span));
    let set = plus(signalled, round_makings(true, numbers, makers(costs, j)));
    counted(rule_of(costs, window, j), activated, set)
}

/// The counts of a window of so many counts, in which tasks are made that often.
pub fn window_counts(costs: &Costs, window: &Window, numbers: &[Made], counts: u64) -> u64
    ensures { result ≡ capped (window_counts costs.now window.now (numbers_of numbers.now) counts) }
{
    let rounds = round_counts(numbers, costs.tasks.items());
    let ticks = tick_counts(window.span.unwrap_or(counts), costs.counters.items());
    plus(plus(window.front, rounds), ticks)
}

/// The most arrivals within so many counts, where two are this far apart.
pub fn arrivals(counts: u64, distance: Option<u32>) -> u64
    ensures { result ≡ arrivals counts distance }
{
    let Some(distance) = distance else {
        return 0;
    };
    if counts == 0 || distance == 0 {
        return 0;
    }
    ((counts - 1) / u64::from(distance)).saturating_add(1)
}

// Those of an alarm that a tick may expire, each of these or the first alone.
fn cyclic_expiries(cycle: u32, ticks: u64) -> u64
    ensures { result ≡ cyclic_expiries cycle ticks }
{
    if cycle == 0 {
        ticks.min(1)
    } else {
        arrivals(ticks, Some(cycle))
    }
}

/// The most expiries of an alarm within so many ticks; behind boot the first comes with its time.
pub fn expiries(boot: bool, alarm: &AlarmCosts, ticks: u64) -> u64
    ensures { result ≡ expiries boot alarm.now ticks }
{
    if alarm.is_set {
        return ticks;
    }
    if alarm.time == 0 {
        return 0;
    }
    if boot {
        let behind = ticks.saturating_sub(u64::from(alarm.time - 1));
        return cyclic_expiries(alarm.cycle, behind);
    }
    cyclic_expiries(alarm.cycle, ticks)
}

/// Whether an alarm of this counter activates the task, or sets events of it.
pub fn acts_on(sets: bool, counter: usize, task: usize, alarm: &AlarmCosts) -> bool
    ensures { result ≡ acts_on sets counter task alarm.now }
{
    alarm.counter as usize == counter && (alarm.task as usize == task && alarm.sets_events == sets)
}

fn expiring(boot: bool, sets: bool, costs: &Costs, c: usize, j: usize, ticks: u64) -> u64
    ensures { result ≡ capped (expiring boot sets c j ticks costs.now.alarms) }
{
    let mut total = 0;
    for alarm in costs.alarms.items() {
        if acts_on(sets, c, j, alarm) {
            total = plus(total, expiries(boot, alarm, ticks));
        }
    }
    total
}

// How often ticks set events of a task, or activate it.
fn ticking(boot: bool, sets: bool, costs: &Costs, j: usize, counts: u64) -> u64
    ensures { result ≡ capped (ticking boot sets j counts costs.now.alarms 0 costs.now.counters) }
{
    let mut total = 0;
    for (c, counter) in costs.counters.items().iter().enumerate() {
        let ticks = arrivals(counts, counter.distance);
        let made = expiring(boot, sets, costs, c, j, ticks);
        total = plus(total, ticks.min(made));
    }
    total
}

/// The counts of the ticks.
pub fn tick_counts(counts: u64, counters: &[CounterCosts]) -> u64
    ensures { result ≡ capped (tick_counts counts counters.now) }
{
    let mut total = 0;
    for counter in counters {
        let ticks = arrivals(counts, counter.distance);
        total = plus(total, times(ticks, u64::from(counter.tick)));
    }
    total
}

/// What an endless number counts as.
pub const ENDLESS: u64 = 8_000_000_001;

/// The counts above which a window has no bound.
pub const WINDOW_LIMIT: u64 = 2_147_483_647;

/// A greatest number as a number of counts: `ENDLESS` where there is none.
pub fn reckoned(most: Option<u32>) -> u64
    ensures is { result ≡ reckoned most }
    ensures short { result ≤ greatest_sum }
{
    match most {
        Some(most) => u64::from(most).min(ENDLESS),
        None => ENDLESS,
    }
}

/// The sum of two numbers, `ENDLESS` where it is that or more.
pub fn plus(one: u64, other: u64) -> u64
    ensures { result ≡ capped (one + other) }
{
    one.saturating_add(other).min(ENDLESS)
}

/// The product of two numbers, `ENDLESS` where it is that or more.
pub fn times(one: u64, other: u64) -> u64
    ensures { result ≡ capped (one * other) }
{
    one.saturating_mul(other).min(ENDLESS)
}
