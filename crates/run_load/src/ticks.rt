//! How long ticks are seen to take in a run, from an arrival of their counter on.
ghost use Rattle.std.specs.Prelude.{◌≡◌, ◌&&◌, ◌||◌, false};
ghost use Rattle.run_load.specs.Ticks.{arrives, ticks, is_due, tick_end, tick_time, longest_tick};

use crate::watch::end_count;
use sloth_base::{Event, Stamped};

fn arrives(counter: u32, event: &Event) -> bool
    ensures { result ≡ arrives counter event.now }
{
    matches!(*event, Event::Due(other) if other == counter)
}

fn ticks(counter: u32, event: &Event) -> bool
    ensures { result ≡ ticks counter event.now }
{
    matches!(*event, Event::Tick(other) if other == counter)
}

// Whether the counter is due after an event.
fn is_due(counter: u32, due: bool, event: &Event) -> bool
    ensures { result ≡ is_due counter due event.now }
{
    arrives(counter, event) || (due && !ticks(counter, event))
}

// The count after the first tick of the counter, or after the last event.
fn tick_end(counter: u32, before: u64, later: &[Stamped]) -> u64
    ensures { result ≡ tick_end counter before later.now }
{
    let mut last = before;
    for event in later {
        if ticks(counter, &event.event) {
            return u64::from(event.stamp.at) + 1;
        }
        last = end_count(last, event);
    }
    last
}

// How long the tick of an arrival takes, where it is the first since the last tick.
fn tick_time(counter: u32, due: bool, last: u64, event: &Stamped, later: &[Stamped]) -> u64
    ensures { result ≡ tick_time counter due last event.now later.now }
{
    if arrives(counter, &event.event) && !due {
        tick_end(counter, last, later).saturating_sub(u64::from(event.stamp.at))
    } else {
        0
    }
}

/// The longest time from a counter's arrival to the end of its tick, or else of the last event; 0 where none arrives.
pub fn longest_tick(counter: u32, events: &[Stamped]) -> u64
    ensures { result ≡ longest_tick counter false 0 events.now }
{
    let mut most = 0;
    let mut due = false;
    let mut last = 0;
    let mut rest = events;
    while let Some((event, later)) = rest.split_first() {
        most = tick_time(counter, due, last, event, later).max(most);
        due = is_due(counter, due, &event.event);
        last = end_count(last, event);
        rest = later;
    }
    most
}
