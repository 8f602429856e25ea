//! The signals of waves, and their values.
//! Whether signals keep their values: told by one look at the parts of two moments, since most counts change nothing.
ghost use Rattle.std.specs.Prelude.{◌≡◌, ◌≤◌, ◌<◌, ℕ, IsTrue, false, get_or, length};
ghost use Rattle.sloth_base.specs.Limits.{alarm_limit, task_limit};
ghost use Rattle.wave_text.specs.Signals.{first_code, signal_width, most_signals, alarm_count, number_seen, moment_value, signal_value, level_value, masked_value, KeepValues, state_value, running_value};
ghost use Rattle.osek_scheduler.specs.declared.state.TaskState.TheVariants as mode;
ghost use Rattle.sloth_inspect.specs.StateNumbers.{state_number};

use crate::dump::Moment;
use osek_scheduler::TaskState;
use sloth_base::{ALARM_LIMIT, TASK_LIMIT};
use sloth_inspect::state_number;
use sloth_runner::task_states::Seen;

/// How many binary digits a signal has.
#[derive(Clone, Copy)]
pub enum Width {
    One,
    Two,
    Eight,
    ThirtyTwo,
}

/// Signals of one kind: one for each task, counter or alarm.
#[derive(Clone, Copy)]
pub enum Scope {
    State,
    Runs,
    Pending,
    /// The counters' lines, which stand in the scope of pending lines.
    Counters,
    /// The counters' values.
    Values,
    /// The ticks that alarms have left.
    Alarms,
}

/// The code of the signal `level`.
pub const LEVEL: u8 = b'{';

/// The code of the signal `masked`.
pub const MASKED: u8 = b'|';

/// The code of the first signal. The others follow.
pub fn first_code(scope: Scope) -> u8
    ensures is { result ≡ first_code scope }
    ensures small { result ≤ 129 }
{
    match scope {
        Scope::State => b'!',
        Scope::Runs => b'?',
        Scope::Pending => b']',
        Scope::Counters => b'}',
        Scope::Values => 127,
        Scope::Alarms => 129,
    }
}

/// How many digits the signals of a scope have.
pub fn signal_width(scope: Scope) -> Width
    ensures { result ≡ signal_width scope }
{
    match scope {
        Scope::State => Width::Two,
        Scope::Runs | Scope::Pending | Scope::Counters => Width::One,
        Scope::Values | Scope::Alarms => Width::ThirtyTwo,
    }
}

/// How many signals of alarms there are beside so many counters: those of all alarms that there may be, or none where
/// no counter ticks.
pub fn alarm_count(counters: usize) -> usize
    ensures is { result ≡ alarm_count counters }
    ensures few { result ≤ alarm_limit }
{
    if counters == 0 { 0 } else { ALARM_LIMIT }
}

fn number_seen(seen: &Option<Seen>, number: u32) -> Option<u32>
    ensures { result ≡ number_seen seen.now number }
{
    match seen {
        Some(_) => Some(number),
        None => None,
    }
}

fn moment_value(scope: Scope, moment: &Moment, place: usize) -> Option<u32>
    requires { place < most_signals scope }
    ensures { result ≡ moment_value scope moment.now place }
{
    match scope {
        Scope::State => match &moment.sample.seen {
            Some(seen) => Some(u32::from(state_number(seen.tasks[place]))),
            None => None,
        },
        Scope::Runs => match &moment.sample.seen {
            Some(seen) => Some(u32::from(seen.running == place as u32 + 1)),
            None => None,
        },
        Scope::Pending => Some(u32::from(moment.sample.interrupts.pending[place])),
        Scope::Counters => Some(u32::from(moment.sample.interrupts.counters_pending[place])),
        Scope::Values => number_seen(&moment.sample.seen, moment.words.counters[place]),
        Scope::Alarms => number_seen(&moment.sample.seen, moment.words.alarms[place]),
    }
}

/// The same; before the first moment it has none.
pub fn signal_value(scope: Scope, moment: &Option<Moment>, place: usize) -> Option<u32>
    requires { place < most_signals scope }
    ensures { result ≡ signal_value scope moment.now place }
{
    match moment {
        Some(moment) => moment_value(scope, moment, place),
        None => None,
    }
}

/// The value of `level`.
pub fn level_value(moment: &Option<Moment>) -> Option<u32>
    ensures { result ≡ level_value moment.now }
{
    match moment {
        Some(moment) => Some(u32::from(moment.sample.interrupts.level)),
        None => None,
    }
}

/// The value of `masked`.
pub fn masked_value(moment: &Option<Moment>) -> Option<u32>
    ensures { result ≡ masked_value moment.now }
{
    match moment {
        Some(moment) => Some(u32::from(moment.sample.interrupts.masked)),
        None => None,
    }
}

fn same_states(tasks: usize, one: &[TaskState; TASK_LIMIT], other: &[TaskState; TASK_LIMIT]) -> bool
    requires { tasks ≤ task_limit }
    ensures { IsTrue result → (t : ℕ) → t < tasks → state_number (get_or one.now t mode.Suspended)
        ≡ state_number (get_or other.now t mode.Suspended) }
{
    for task in 0..tasks {
        if state_number(one[task]) != state_number(other[task]) {
            return false;
        }
    }
    true
}

fn same_flags(count: usize, one: &[bool], other: &[bool]) -> bool
    requires { (count ≤ length one.now) × (count ≤ length other.now) }
    ensures { IsTrue result → (t : ℕ) → t < count → get_or one.now t false ≡ get_or other.now t false }
{
    for place in 0..count {
        if one[place] != other[place] {
            return false;
        }
    }
    true
}

fn same_numbers(count: usize, one: &[u32], other: &[u32]) -> bool
    requires { (count ≤ length one.now) × (count ≤ length other.now) }
    ensures { IsTrue result → (t : ℕ) → t < count → get_or one.now t 0 ≡ get_or other.now t 0 }
{
    for place in 0..count {
        if one[place] != other[place] {
            return false;
        }
    }
    true
}

// Whether the tasks were seen before and are seen, whatever they are.
fn both_seen(before: &Option<Seen>, after: &Option<Seen>) -> bool
    ensures { IsTrue result → (m n : ℕ) → m ≡ n → number_seen before.now m ≡ number_seen after.now n }
{
    before.is_some() && after.is_some()
}

// Whether the tasks were seen before and are seen in the same states.
fn keeps_states(tasks: usize, before: &Option<Seen>, after: &Option<Seen>) -> bool
    requires { tasks ≤ task_limit }
    ensures { IsTrue result → (t : ℕ) → t < tasks → state_value before.now t ≡ state_value after.now t }
{
    let (Some(before), Some(after)) = (before, after) else {
        return false;
    };
    same_states(tasks, &before.tasks, &after.tasks)
}

// Whether the tasks were seen before and the same one is seen to run.
fn keeps_running(before: &Option<Seen>, after: &Option<Seen>) -> bool
    ensures { IsTrue result → (t : ℕ) → running_value before.now t ≡ running_value after.now t }
{
    let (Some(before), Some(after)) = (before, after) else {
        return false;
    };
    before.running == after.running
}

fn keeps_values(scope: Scope, count: usize, before: &Moment, after: &Moment) -> bool
    requires { count ≤ most_signals scope }
    ensures { IsTrue result → (t : ℕ) → t < count → moment_value scope before.now t ≡ moment_value scope after.now t }
{
    match scope {
        Scope::State => keeps_states(count, &before.sample.seen, &after.sample.seen),
        Scope::Runs => keeps_running(&before.sample.seen, &after.sample.seen),
        Scope::Pending => same_flags(
            count,
            &before.sample.interrupts.pending,
            &after.sample.interrupts.pending,
        ),
        Scope::Counters => same_flags(
            count,
            &before.sample.interrupts.counters_pending,
            &after.sample.interrupts.counters_pending,
        ),
        Scope::Values => both_seen(&before.sample.seen, &after.sample.seen)
            && same_numbers(count, &before.words.counters, &after.words.counters),
        Scope::Alarms => both_seen(&before.sample.seen, &after.sample.seen)
            && same_numbers(count, &before.words.alarms, &after.words.alarms),
    }
}

/// Whether the signals of a scope are known to keep their values from one moment to the next.
pub fn keeps(scope: Scope, count: usize, before: &Option<Moment>, after: &Option<Moment>) -> bool
    requires { count ≤ most_signals scope }
    ensures { IsTrue result → KeepValues scope count before.now after.now }
{
    let (Some(before), Some(after)) = (before, after) else {
        return false;
    };
    keeps_values(scope, count, before, after)
}
