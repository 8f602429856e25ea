//! The first round that is above the work which a load says of its task.
ghost use Rattle.std.specs.Prelude.{◌≡◌, ◌≤◌, false, IfSome, None};
ghost use Rattle.run_counts.specs.Rounds.{goes_on_waiting, is_left};
ghost use Rattle.run_load.specs.Work.{open_behind, with_own, is_above, first_above, earlier};

use crate::watch::Watched;
use sloth_base::{Event, Service};

/// The event with which a round is above the work of its task, by its place among those of the run.
#[derive(Clone, Copy)]
pub struct Excess {
    pub task: u32,
    pub place: usize,
    /// The last count of the event.
    pub at: u32,
    /// The own counts of the round up to it.
    pub own: u128,
    pub limit: u32,
}

fn goes_on_waiting(task: u32, event: &Event) -> bool
    ensures { result ≡ goes_on_waiting task event.now }
{
    match *event {
        Event::Call {
            task: other,
            service,
            ..
        } => other == task && service.code() == Service::WaitEvent.code(),
        _ => false,
    }
}

/// Whether the task leaves with an event.
pub fn is_left(task: u32, event: &Event) -> bool
    ensures { result ≡ is_left task event.now }
{
    matches!(*event, Event::Left { task: other, .. } if other == task)
}

fn open_behind(cuts: bool, task: u32, begun: Option<u128>, event: &Event) -> Option<u128>
    requires { IfSome begun (λ counts. counts ≤ 4294967295) }
    ensures is { result ≡ open_behind cuts task begun event.now }
    ensures within { IfSome result (λ counts. counts ≤ 4294967295) }
{
    if cuts && goes_on_waiting(task, event) {
        Some(0)
    } else if is_left(task, event) {
        None
    } else if matches!(*event, Event::Enter(other) if other == task) {
        Some(begun.unwrap_or(0))
    } else {
        begun
    }
}

fn with_own(begun: Option<u128>, own: u64) -> Option<u128>
    requires { IfSome begun (λ counts. counts ≤ 4294967295) }
    ensures { result ≡ with_own begun own }
{
    Some(begun? + u128::from(own))
}

fn is_above(begun: Option<u128>, limit: u32) -> bool
    ensures is { result ≡ is_above begun limit }
    ensures within { result ≡ false → IfSome begun (λ counts. counts ≤ 4294967295) }
{
    match begun {
        Some(counts) => u128::from(limit) < counts,
        None => false,
    }
}

/// The first event with which a round of a task is above a limit of its own counts.
pub fn first_above(cuts: bool, task: u32, limit: u32, watched: &[Watched]) -> Option<Excess>
    ensures { result ≡ first_above cuts task limit None 0 watched.now }
{
    let mut begun = None;
    for (place, seen) in watched.iter().enumerate() {
        let counts = with_own(begun, seen.own);
        if is_above(counts, limit) {
            let (at, own) = (seen.event.stamp.at, counts.unwrap_or(0));
            return Some(Excess {
                task,
                place,
                at,
                own,
                limit,
            });
        }
        begun = open_behind(cuts, task, counts, &seen.event.event);
    }
    None
}

/// The earlier of both, if there is one; of one event the first.
pub fn earlier(one: Option<Excess>, other: Option<Excess>) -> Option<Excess>
    ensures { result ≡ earlier one other }
{
    match (one, other) {
        (Some(first), Some(second)) => Some(if second.place < first.place {
            second
        } else {
            first
        }),
        (Some(first), None) => Some(first),
        (None, second) => second,
    }
}
