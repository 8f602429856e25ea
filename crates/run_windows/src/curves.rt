//! How much comes within windows at least, for each of their counts; and makings without end, round a cycle.
ghost use Rattle.std.specs.Prelude.{◌≤◌, ◌+◌, ◌*◌, ℕ, ◌≡◌, ◌<◌, None, length, true};
ghost use Rattle.run_windows.specs.Windows.{Numbers, numbers_of, round_counts, IsAtMost, IsSolution, rule_of};
ghost use Rattle.run_windows.specs.Windows.{counted, round_makings};
ghost use Rattle.run_windows.specs.Arrivals.{tick_counts, arrivals, expiries, expiring, ticking};
ghost use Rattle.run_windows.specs.Settling.{AreBelow};
ghost use Rattle.run_windows.specs.Cycles.{IsRate, AreRatesOf, AreRates, IsCurve, IsOpen, HasNone, share_of};
ghost use Rattle.run_windows.specs.Cycles.{one_share, AreMultiples, unmarked, rest};
ghost use Rattle.run_windows.specs.Costs.{capped};

use crate::costs::{AlarmCosts, Costs, Made, Makings, NEVER, Rule, Window};
use crate::level::{counted, is_boot, makers, rule_of, task};
use crate::rounds::{
    ENDLESS, acts_on, arrivals, made_within, number_of, of_makings, plus, reckoned, round_makings,
    times,
};
use sloth_base::TASK_LIMIT;

/// A number of makings of each task.
pub type Row = [Made; TASK_LIMIT];

/// At least `burst`, and besides `rate` in each 2,147,483,647 counts.
#[derive(Clone, Copy)]
pub struct Curve {
    pub burst: u64,
    pub rate: u64,
}

// Besides a curve what is at least the number, and what comes by the rate, of so many counts each: by that which is
// more from these counts on.
fn with_more(curve: Curve, number: u64, rate: u64, counts: u64, each: u64) -> Curve
    ensures { (more x y : ℕ) → number ≤ x → IsRate rate more x → IsCurve curve more y
        → IsCurve result more (y + x * each) }
{
    let mut sum = curve;
    if rate.saturating_mul(counts) >= number.saturating_mul(RATE_SPAN) {
        sum.rate = plus(curve.rate, times(rate, each));
    } else {
        sum.burst = plus(curve.burst, times(number, each));
    }
    sum
}

// Besides a curve the counts of rounds.
fn with_rounds(curve: Curve, made: &[Made], rates: &Row, counts: u64, costs: &Costs) -> Curve
    ensures { (more y : ℕ) (m : Numbers) → IsCurve curve more y
        → ((k : ℕ) → IsAtMost (numbers_of made.now k) (m k))
        → ((k : ℕ) → AreRatesOf (numbers_of rates.now k) more (m k))
        → IsCurve result more (y + round_counts m 0 costs.now.tasks) }
{
    let mut sum = curve;
    for (k, task) in costs.tasks.items().iter().enumerate() {
        let number = number_of(made, k);
        let by = number_of(rates, k);
        let (first, next) = (reckoned(task.first), reckoned(task.next));
        let firsts = with_more(sum, number.activations, by.activations, counts, first);
        sum = with_more(firsts, number.settings, by.settings, counts, next);
    }
    sum
}

// Besides a curve those of ticks.
fn with_ticks(curve: Curve, counts: u64, costs: &Costs) -> Curve
    ensures { (more y : ℕ) → IsCurve curve more y → counts ≤ more
        → IsCurve result more (y + tick_counts more costs.now.counters) }
{
    let mut sum = curve;
    for counter in costs.counters.items() {
        let ticks = arrivals(counts, counter.distance);
        let rate = arrival_rate(RATE_SPAN, counter.distance);
        sum = with_more(sum, ticks, rate, counts, u64::from(counter.tick));
    }
    sum
}

// The counts below which none are as many as the curve asks for.
fn least_counts(curve: Curve) -> u64
    ensures { (more : ℕ) → IsCurve curve more more → result ≤ more }
{
    if curve.rate < RATE_SPAN {
        return curve.burst.saturating_mul(RATE_SPAN) / (RATE_SPAN - curve.rate);
    }
    if curve.burst == 0 { 0 } else { ENDLESS }
}

/// The counts below which there is no solution of a window, of which tasks are made that often, and by these rates.
pub fn counts_ahead(costs: &Costs, window: &Window, made: &[Made], rates: &Row, counts: u64) -> u64
    requires below { AreBelow costs.now window.now made.now counts }
    requires rates { AreRates costs.now window.now rates.now }
    ensures { (m : Numbers) (more : ℕ) → IsSolution costs.now window.now m more → result ≤ more }
{
    if window.span.is_some() {
        return counts;
    }
    let front = Curve {
        burst: window.front,
        rate: 0,
    };
    let rounds = with_rounds(front, made, rates, counts, costs);
    least_counts(with_ticks(rounds, counts, costs))
}

/// The counts for which rates are told.
pub const RATE_SPAN: u64 = 2_147_483_647;

/// Of what comes at this rate each multiple of a distance.
pub fn arrival_rate(rate: u64, distance: Option<u32>) -> u64
    ensures { (counts x : ℕ) → IsRate rate counts x → IsRate result counts (arrivals x distance) }
{
    match distance {
        Some(distance) if distance != 0 => rate / u64::from(distance),
        _ => 0,
    }
}

// Of the expiries of an alarm, where ticks come at this rate.
fn expiry_rate(boot: bool, alarm: &AlarmCosts, ticks: u64) -> u64
    ensures { (counts x : ℕ) → IsRate ticks counts x → IsRate result counts (expiries boot alarm.now x) }
{
    if alarm.is_set {
        return ticks;
    }
    if boot || alarm.time == 0 {
        return 0;
    }
    arrival_rate(ticks, Some(alarm.cycle))
}

fn expiring_rate(boot: bool, sets: bool, costs: &Costs, c: usize, j: usize, ticks: u64) -> u64
    ensures { (counts x : ℕ) → IsRate ticks counts x
        → IsRate result counts (expiring boot sets c j x costs.now.alarms) }
{
    let mut total = 0;
    for alarm in costs.alarms.items() {
        if acts_on(sets, c, j, alarm) {
            total = plus(total, expiry_rate(boot, alarm, ticks));
        }
    }
    total
}

// How often ticks set events of a task, or activate it.
fn ticking_rate(boot: bool, sets: bool, costs: &Costs, j: usize) -> u64
    ensures { (counts : ℕ) → IsRate result counts (ticking boot sets j counts costs.now.alarms 0 costs.now.counters) }
{
    let mut total = 0;
    for (c, counter) in costs.counters.items().iter().enumerate() {
        let ticks = arrival_rate(RATE_SPAN, counter.distance);
        let made = expiring_rate(boot, sets, costs, c, j, ticks);
        total = plus(total, ticks.min(made));
    }
    total
}

// The rates of a task, by those of the tasks that make it: whether they were less.
fn raise(costs: &Costs, window: &Window, j: usize, rates: &mut Row) -> bool
    requires inside { j < length costs.now.tasks }
    requires whole { window.now.span ≡ None }
    requires rates { AreRates costs.now window.now rates.old }
    ensures { AreRates costs.now window.now rates.new }
{
    let rule = rule_of(costs, window, j);
    if j >= TASK_LIMIT || !is_open(rule) {
        return false;
    }
    let boot = is_boot(window.start);
    let arrived = arrival_rate(RATE_SPAN, task(costs, j).distance);
    let ticked = ticking_rate(boot, false, costs, j);
    let made = round_makings(false, rates, makers(costs, j));
    let activated = plus(plus(arrived, ticked), made);
    let signalled = ticking_rate(boot, true, costs, j);
    let set = plus(signalled, round_makings(true, rates, makers(costs, j)));
    let rate = counted(rule, activated, set);
    let old = rates[j];
    if rate.activations <= old.activations && rate.settings <= old.settings {
        return false;
    }
    rates[j] = rate;
    true
}

/// Raises rates to those that follow from arrivals, where this is due.
pub fn raise_rates(costs: &Costs, window: &Window, due: bool, rates: &mut Row)
    requires rates { AreRates costs.now window.now rates.old }
    ensures { AreRates costs.now window.now rates.new }
{
    if !due || window.span.is_some() {
        return;
    }
    for _turn in 0..2 * TASK_LIMIT {
        let mut grown = false;
        for j in 0..costs.tasks.items().len() {
            grown = raise(costs, window, j, rates) || grown;
        }
        if !grown {
            return;
        }
    }
}

/// Whether what counts of a task grows with what is made of it.
pub fn is_open(which: Rule) -> bool
    ensures { result ≡ true → IsOpen which }
{
    !matches!(which, Rule::Once)
}

// How often events of a task are set; or how often it is activated.
fn share(sets: bool, all: Made) -> u64
    ensures { result ≡ share_of sets all }
{
    if sets { all.settings } else { all.activations }
}

fn one_share(sets: bool) -> Made
    ensures { result ≡ one_share sets }
{
    Made::new(u64::from(!sets), u64::from(sets))
}

// Marks a task that marked ones make: whether it was not marked.
fn mark(costs: &Costs, window: &Window, sets: bool, t: usize, j: usize, marks: &mut Row) -> bool
    requires inside { j < length costs.now.tasks }
    requires marked { AreMultiples costs.now window.now sets t marks.old }
    ensures { AreMultiples costs.now window.now sets t marks.new }
{
    let rule = rule_of(costs, window, j);
    if j >= TASK_LIMIT || !is_open(rule) {
        return false;
    }
    let activated = round_makings(false, marks, makers(costs, j)).min(1);
    let signalled = round_makings(true, marks, makers(costs, j)).min(1);
    let made = counted(rule, activated, signalled);
    let old = marks[j];
    if made.activations <= old.activations && made.settings <= old.settings {
        return false;
    }
    marks[j] = Made {
        activations: old.activations.max(made.activations),
        settings: old.settings.max(made.settings),
    };
    true
}

fn reach(costs: &Costs, window: &Window, sets: bool, t: usize, marks: &mut Row)
    requires marked { AreMultiples costs.now window.now sets t marks.old }
    ensures { AreMultiples costs.now window.now sets t marks.new }
{
    for _turn in 0..2 * TASK_LIMIT {
        let mut grown = false;
        for j in 0..costs.tasks.items().len() {
            grown = mark(costs, window, sets, t, j, marks) || grown;
        }
        if !grown {
            return;
        }
    }
}

fn unmarked(marks: Made, numbers: Made) -> Made
    ensures { result ≡ unmarked marks numbers }
{
    let (one, other) = (numbers.activations, numbers.settings);
    let activations = if marks.activations == 0 { one } else { 0 };
    let settings = if marks.settings == 0 { other } else { 0 };
    Made::new(activations, settings)
}

// How often rounds of tasks that are not marked activate a task, or set its events.
fn rest_makings(sets: bool, marks: &Row, numbers: &[Made], makers: &[Makings]) -> u64
    ensures { result ≡ capped (round_makings sets (rest (numbers_of marks.now) (numbers_of numbers.now)) 0 makers.now) }
{
    let mut total = 0;
    for (k, makings) in makers.iter().enumerate() {
        let rest = unmarked(number_of(marks, k), number_of(numbers, k));
        total = plus(total, of_makings(sets, rest, makings));
    }
    total
}

// Whether a task, which something else makes, makes itself by the rounds that follow from its own.
fn closes(costs: &Costs, window: &Window, made: &[Made], counts: u64, sets: bool, t: usize) -> bool
    requires inside { t < length costs.now.tasks }
    requires below { AreBelow costs.now window.now made.now counts }
    ensures { result ≡ true → HasNone costs.now window.now }
{
    let rule = rule_of(costs, window, t);
    if t >= TASK_LIMIT || !is_open(rule) || share(sets, counted(rule, 1, 1)) == 0 {
        return false;
    }
    let mut marks = [NEVER; TASK_LIMIT];
    marks[t] = one_share(sets);
    reach(costs, window, sets, t, &mut marks);
    if round_makings(sets, &marks, makers(costs, t)) == 0 {
        return false;
    }
    if share(sets, made_within(costs, window, &[], counts, t)) != 0 {
        return true;
    }
    rest_makings(sets, &marks, made, makers(costs, t)) != 0
}

/// Whether some task makes itself so, of those that are made that often at least: then what comes has no end.
pub fn has_cycle(costs: &Costs, window: &Window, numbers: &[Made], counts: u64) -> bool
    requires below { AreBelow costs.now window.now numbers.now counts }
    ensures { result ≡ true → HasNone costs.now window.now }
{
    for t in 0..costs.tasks.items().len() {
        if closes(costs, window, numbers, counts, false, t)
            || closes(costs, window, numbers, counts, true, t)
        {
            return true;
        }
    }
    false
}
