//! Events looked at one after the other, and whether arrivals are admitted in time.
//! Admissions and arrivals counted by one number for each moment and line, and where they differ first.
ghost use Rattle.std.specs.Prelude.{◌≡◌, ◌<◌, ◌∷◌, ◌++◌, [], cond, IfOk, OnOk, All, List, ◌≤◌, length, ◌+◌, ◌*◌, ◌==◌, count_by, map};
ghost use Rattle.std.specs.Bool.{Decides};
ghost use Rattle.sloth_base.specs.Arrivals.{AreRisingMoments};
ghost use Rattle.sloth_base.specs.declared.service.Stamped.{Stamped as AnyEvent};
ghost use Rattle.sloth_base.specs.Events.{is_boot, admitted_line};
ghost use Rattle.sloth_base.specs.Stretches.{longest_stretch};
ghost use Rattle.osek_scheduler.specs.InTime.{InTime};
ghost use Rattle.trace_check.specs.Counts.{AreLinesInRange, SameCounts, arrival_number, last_moment, may_leave, number_at, with_admit, admit_numbers, least_apart};
ghost use Rattle.trace_check.specs.Timed.{HasFewClocks, TimedBy, is_late};
ghost use Rattle.sloth_base.specs.Named.{most_alarms};
ghost use Rattle.sloth_base.specs.Limits.{counter_limit};
ghost use Rattle.std.specs.Ordering.{nat_cmp};
ghost use Rattle.std.specs.List.Sorted.{IsPermutation, IsSorted};
ghost use Rattle.trace_check.specs.Lateness.{IsFirstDifference};

use crate::pass::{Pass, admitted_line};
use sloth_base::{
    ALARM_INSTRUCTIONS, AlarmDecl, Arrival, BOOT_INSTRUCTIONS, Config, Event, Result,
    STRETCH_INSTRUCTIONS, Stamped,
};
use std::alloc::Global;
use std::marker::Model;
use text_pieces::push;

/// The arrivals of a run, and what is kept of its events to tell whether they are admitted in time.
#[derive(Drop)]
pub struct Timing<'a> {
    config: &'a Config,
    n: u32,
    arrivals: &'a [Arrival],
    pass: Pass<'a>,
    // The admits, a number for each; no more than one above the number of arrivals.
    admits: Vec<u64>,
    // How long a stretch is that the end may cut off.
    most: u32,
    // An event stands where none may.
    stopped: bool,
}

impl<'a> Model for Timing<'a> {
    ghost use Rattle.trace_check.specs.Timed.{HasFewClocks, KeptPass};

    ghost Value = { KeptPass };

    ghost view = { λ t. record {
      config = t.config.now;
      n = t.n;
      arrivals = t.arrivals.now;
      scan = t.pass;
      admits = t.admits.items;
      most = t.most;
      stopped = t.stopped;
    } };

    ghost invariant = { λ t. HasFewClocks t.config.now };
}

fn most_behind(config: &Config, event: &Event, most: u32) -> u32
    requires { HasFewClocks config.now }
    ensures { result ≡ cond (is_boot event.now) (longest_stretch config.now) most }
{
    match *event {
        Event::Boot => longest_stretch(config),
        _ => most,
    }
}

impl<'a> Timing<'a> {
    /// Before the first event of a run of n instructions.
    pub fn new(alloc: Global, config: &'a Config, n: u32, arrivals: &'a [Arrival]) -> Timing<'a>
        requires { HasFewClocks config.now }
        ensures timed { TimedBy [] result }
        ensures config { result.config ≡ config.now }
        ensures n { result.n ≡ n }
        ensures arrivals { result.arrivals ≡ arrivals.now }
    {
        Timing {
            config,
            n,
            arrivals,
            pass: Pass::new(arrivals),
            admits: Vec::new(alloc),
            most: BOOT_INSTRUCTIONS,
            stopped: false,
        }
    }

    fn is_late(&self) -> bool
        ensures { result ≡ is_late self.now }
    {
        self.stopped || self.admits.as_slice().len() > self.arrivals.len()
    }

    /// Takes an event.
    pub fn take(&mut self, event: &Stamped) -> Result<()>
        ensures timed { OnOk result
            ((events : List AnyEvent) → TimedBy events self.old → TimedBy (events ++ event.now ∷ []) self.new) }
        ensures config { self.new.config ≡ self.old.config }
        ensures n { self.new.n ≡ self.old.n }
        ensures arrivals { self.new.arrivals ≡ self.old.arrivals }
    {
        if self.is_late() {
            return Ok(());
        }
        if !self.pass.look(self.n, event) {
            self.stopped = true;
            return Ok(());
        }
        push_number(&mut self.admits, event)?;
        self.most = most_behind(self.config, &event.event, self.most);
        Ok(())
    }

    /// Whether the events stand where the arrivals allow.
    pub fn in_time(&mut self, alloc: Global) -> Result<bool>
        requires rising { AreRisingMoments 1 self.old.arrivals }
        requires lines { All (λ a. a.line < 4294967296) self.old.arrivals }
        ensures { IfOk result (λ b. (events : List AnyEvent) → AreLinesInRange events → TimedBy events self.old
            → Decides b (InTime self.old.config self.old.n self.old.arrivals events)) }
    {
        if self.is_late() {
            return Ok(false);
        }
        let (front, back) = self.arrivals.split_at(self.admits.as_slice().len());
        if !are_admitted(alloc, front, &mut self.admits)? {
            return Ok(false);
        }
        let ends = self.pass.ends();
        let last = last_moment(front);
        Ok(may_leave(self.n, self.most, ends, last, back))
    }
}

fn alarm_count(alarms: &[AlarmDecl], counter: u32) -> usize
    ensures is { result ≡ count_by (λ alarm. alarm.counter == counter) alarms.now }
    ensures few { result ≤ length alarms.now }
{
    alarms
        .iter()
        .filter(|alarm| alarm.counter == counter)
        .count()
}

fn most_alarms(config: &Config) -> usize
    requires { length config.now.counters ≤ counter_limit }
    ensures is { result ≡ most_alarms config.now }
    ensures few { result ≤ length config.now.alarms }
{
    let mut most = 0;
    for counter in 0..config.counters.items().len() {
        most = alarm_count(config.alarms.items(), counter as u32).max(most);
    }
    most
}

/// The most instructions of any stretch behind boot.
pub fn longest_stretch(config: &Config) -> u32
    requires { HasFewClocks config.now }
    ensures { result ≡ longest_stretch config.now }
{
    STRETCH_INSTRUCTIONS + ALARM_INSTRUCTIONS * most_alarms(config) as u32
}

fn moment_number(moment: u32, line: u64) -> u64
    requires { moment * 4294967296 + line < 18446744073709551616 }
    ensures { result ≡ number_at moment line }
{
    u64::from(moment) * 4_294_967_296 + line
}

/// One more number, where the event is an admission.
pub fn push_number(numbers: &mut Vec<u64>, event: &Stamped) -> Result<()>
    requires { event.now.stamp.at < 4294967295 }
    ensures { OnOk result
        (numbers.new.items ≡ numbers.old.items ++ with_admit (admitted_line event.now.event) event.now.stamp.at []) }
{
    match admitted_line(&event.event) {
        Some(line) => push(numbers, moment_number(event.stamp.at, line)),
        None => Ok(()),
    }
}

/// The numbers of arrivals.
pub fn arrival_numbers(alloc: Global, arrivals: &[Arrival]) -> Result<Vec<u64>>
    ensures { IfOk result (λ numbers. numbers.items ≡ map arrival_number arrivals.now) }
{
    let mut numbers = Vec::new(alloc);
    for arrival in arrivals {
        let number = moment_number(arrival.at, u64::from(arrival.line.0));
        push(&mut numbers, number)?;
    }
    Ok(numbers)
}

/// Sorts numbers.
pub fn sort(numbers: &mut Vec<u64>) -> Result<()>
    ensures permutation { OnOk result (IsPermutation numbers.old.items numbers.new.items) }
    ensures sorted { OnOk result (IsSorted nat_cmp numbers.new.items) }
{
    numbers.sort()?;
    Ok(())
}

/// Whether the admissions of these numbers are those of the arrivals, by moment and line. Sorts the numbers.
pub fn are_admitted(alloc: Global, arrivals: &[Arrival], admits: &mut Vec<u64>) -> Result<bool>
    ensures { IfOk result (λ b. Decides b (SameCounts admits.old.items (map arrival_number arrivals.now))) }
{
    let mut numbers = arrival_numbers(alloc, arrivals)?;
    sort(admits)?;
    sort(&mut numbers)?;
    Ok(admits.as_slice() == numbers.as_slice())
}

/// The moment of the last of these arrivals, 0 where there is none.
pub fn last_moment(arrivals: &[Arrival]) -> u32
    ensures { result ≡ last_moment arrivals.now }
{
    match arrivals.last() {
        Some(arrival) => arrival.at,
        None => 0,
    }
}

/// Whether the end of a run of n instructions may leave these arrivals out.
pub fn may_leave(n: u32, most: u32, ends: u32, last: u32, arrivals: &[Arrival]) -> bool
    ensures { result ≡ may_leave n most ends last arrivals.now }
{
    match arrivals.first() {
        None => true,
        Some(first) => n <= first.at
            || (last < first.at && ends <= first.at && n - first.at < most),
    }
}

fn admit_numbers(alloc: Global, events: &[Stamped]) -> Result<Vec<u64>>
    requires { All (λ e. e.stamp.at < 4294967295) events.now }
    ensures { IfOk result (λ numbers. numbers.items ≡ admit_numbers events.now) }
{
    let mut numbers = Vec::new(alloc);
    for event in events {
        push_number(&mut numbers, event)?;
    }
    Ok(numbers)
}

fn least_apart(ones: &[u64], others: &[u64]) -> u64
    ensures { result ≡ least_apart ones.now others.now }
{
    for i in 0..ones.len() {
        if i >= others.len() {
            return ones[i];
        }
        if ones[i] != others[i] {
            return if others[i] < ones[i] {
                others[i]
            } else {
                ones[i]
            };
        }
    }
    if ones.len() < others.len() {
        return others[ones.len()];
    }
    u64::MAX
}

/// The least number of a moment and line with not as many admissions as arrivals; else the greatest of 64 bits.
pub fn first_difference(alloc: Global, arrivals: &[Arrival], events: &[Stamped]) -> Result<u64>
    requires stamps { All (λ e. e.stamp.at < 4294967295) events.now }
    requires admits { AreLinesInRange events.now }
    requires lines { All (λ a. a.line < 4294967296) arrivals.now }
    ensures { IfOk result (IsFirstDifference arrivals.now events.now) }
{
    let mut admits = admit_numbers(alloc, events)?;
    let mut numbers = arrival_numbers(alloc, arrivals)?;
    sort(&mut admits)?;
    sort(&mut numbers)?;
    Ok(least_apart(admits.as_slice(), numbers.as_slice()))
}
