//! One pass over events and arrivals: stamps, where admits stand, and the order of admits next to each other.
ghost use Rattle.std.specs.Prelude.{◌≡◌, ◌<◌, cond, option_copied, true, Some, None, IfSome};
ghost use Rattle.sloth_base.specs.Events.{admitted_line, is_single};
ghost use Rattle.trace_check.specs.Scan.{scan_after_admit, scan_after_other, behind_first, from_moment, is_stamped};
ghost use Rattle.trace_check.specs.Scan.{scan_after_event, scan_start};

use sloth_base::{Arrival, Event, FIRST_COUNTER_LINE, Stamped};
use std::marker::Model;

/// Where a pass stands.
#[derive(Drop)]
pub struct Pass<'a> {
    // One more than the `at` of the last event that is no admit, 0 where there is none.
    ends: u32,
    // One more than its `from`.
    begins: u32,
    // The greatest moment of an admit.
    latest: u32,
    // The arrivals behind its `from`.
    base: &'a [Arrival],
    // Those that the admits since then leave.
    rest: &'a [Arrival],
}

impl<'a> Model for Pass<'a> {
    ghost use Rattle.trace_check.specs.Scan.{Scan};

    ghost Value = { Scan };

    ghost view = { λ pass.
        record { ends = pass.ends; begins = pass.begins; latest = pass.latest; base = pass.base.now; rest = pass.rest.now } };
}

fn behind_first<'a>(arrivals: &'a [Arrival], moment: u32, line: u64) -> Option<&'a [Arrival]>
    ensures { option_copied result ≡ behind_first moment line arrivals.now }
{
    for i in 0..arrivals.len() {
        let arrival = &arrivals[i];
        if u64::from(arrival.line.0) == line && arrival.at == moment {
            return Some(&arrivals[i + 1..]);
        }
    }
    None
}

fn from_moment<'a>(arrivals: &'a [Arrival], moment: u32) -> &'a [Arrival]
    ensures { result.now ≡ from_moment moment arrivals.now }
{
    for i in 0..arrivals.len() {
        if arrivals[i].at >= moment {
            return &arrivals[i..];
        }
    }
    &arrivals[arrivals.len()..]
}

/// The line whose arrival an event admits.
pub fn admitted_line(event: &Event) -> Option<u64>
    ensures line { result ≡ admitted_line event.now }
    ensures small { IfSome result (λ line. line < 4294967326) }
{
    match *event {
        Event::Admit(task) => Some(u64::from(task)),
        Event::Due(counter) => Some(u64::from(FIRST_COUNTER_LINE) + u64::from(counter)),
        _ => None,
    }
}

// Whether an event of this kind spans one count.
fn is_single(event: &Event) -> bool
    ensures { result ≡ is_single event.now }
{
    matches!(
        *event,
        Event::Idle | Event::Run { .. } | Event::Admit(_) | Event::Due(_)
    )
}

fn is_stamped(n: u32, event: &Stamped) -> bool
    ensures { result ≡ is_stamped n event.now }
{
    let spans = if is_single(&event.event) {
        event.stamp.from == event.stamp.at
    } else {
        event.stamp.from <= event.stamp.at
    };
    spans && event.stamp.at < n
}

impl<'a> Pass<'a> {
    /// Before the first event.
    pub fn new(arrivals: &'a [Arrival]) -> Pass<'a>
        ensures { result ≡ scan_start arrivals.now }
    {
        Pass {
            ends: 0,
            begins: 0,
            latest: 0,
            base: arrivals,
            rest: arrivals,
        }
    }

    /// One more than the last count of an event that is no admit, 0 where there is none.
    pub fn ends(&self) -> u32
        ensures { result ≡ self.now.ends }
    {
        self.ends
    }

    fn admit(&mut self, line: u64, moment: u32) -> bool
        ensures { cond result (Some self.new) None ≡ scan_after_admit self.old line moment }
    {
        if self.begins > moment {
            return false;
        }
        let Some(rest) = behind_first(self.rest, moment, line) else {
            return false;
        };
        self.latest = self.latest.max(moment);
        self.rest = rest;
        true
    }

    fn pass(&mut self, from: u32, at: u32) -> bool
        requires from { from < 4294967295 }
        requires at { at < 4294967295 }
        ensures { cond result (Some self.new) None ≡ scan_after_other self.old from at }
    {
        if self.ends > from || self.latest > at {
            return false;
        }
        self.ends = at + 1;
        self.begins = from + 1;
        self.base = from_moment(self.base, from + 1);
        self.rest = self.base;
        true
    }

    /// Takes an event, if it may stand there in a run of n instructions.
    pub fn look(&mut self, n: u32, event: &Stamped) -> bool
        ensures looked { cond result (Some self.new) None ≡ scan_after_event n self.old event.now }
        ensures inside { result ≡ true → event.now.stamp.at < 4294967295 }
    {
        if !is_stamped(n, event) {
            return false;
        }
        match admitted_line(&event.event) {
            Some(line) => self.admit(line, event.stamp.at),
            None => self.pass(event.stamp.from, event.stamp.at),
        }
    }
}
