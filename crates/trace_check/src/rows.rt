//! The rows of the events that may come next behind a walk, and before which count each must begin.
//! The verdict on a text.
ghost use Rattle.std.specs.Prelude.{◌≡◌, ◌<◌, ◌≤◌, ◌++◌, IfOk, List, OnOk, Some, length, ◌==◌, cond, ◌↔◌, All};
ghost use Rattle.sloth_base.specs.declared.app.App.{App as AnyApp};
ghost use Rattle.sloth_base.specs.declared.config.Config.{Config as AnyConfig};
ghost use Rattle.sloth_base.specs.declared.service.Stamped.{Stamped as AnyEvent};
ghost use Rattle.sloth_base.specs.Limits.{counter_limit, task_limit};
ghost use Rattle.trace_check.specs.Walk.{IsWalked};
ghost use Rattle.trace_check.specs.NextEvents.{AreNextEvents};
ghost use Rattle.trace_check.specs.Rows.{all_rows, event_of, rows_below, rows_of, task_rows, event_limit, least_moment, leaves_count, lesser_limit, task_limit as service_limit};
ghost use Rattle.std.specs.Int.{bit_at};
ghost use Rattle.sloth_base.specs.MemoryMap.{line_count};
ghost use Rattle.sloth_base.specs.Arrivals.{AreArrivals, AreRisingMoments};
ghost use Rattle.sloth_base.specs.Owners.{owners_in};
ghost use Rattle.code_rules.specs.WellFormed.{WellFormed};
ghost use Rattle.trace_check.specs.TraceText.{AreReadable};
ghost use Rattle.trace_check.specs.Verdicts.{Checked};
ghost use Rattle.trace_check.specs.Answer.{IsVerdict};
ghost use Rattle.trace_check.specs.Begun.{IsBegun};

use crate::Timing;
use crate::machine_events::{has_next, item_event, service_event};
use crate::walk::Walk;
use sloth_base::config::declared_names;
use sloth_base::{App, Arrival, Config, DeclaredNames, Event, LINE_COUNT, Result, TaskId};
use std::alloc::Global;
use text_pieces::{behind, push};

/// An event that may come next, if it begins before the limit, where there is one.
#[derive(Clone, Copy)]
pub struct NextEvent {
    pub event: Event,
    pub limit: Option<u32>,
}

fn push_event(rows: &mut Vec<NextEvent>, walk: &Walk, event: Option<Event>) -> Result<()>
    ensures { OnOk result (rows.new.items ≡ rows.old.items ++ rows_of walk.now event) }
{
    let Some(event) = event else {
        return Ok(());
    };
    let limit = event_limit(walk, &event);
    if has_next(walk.osek(), &event) && leaves_count(limit) {
        return push(rows, NextEvent { event, limit });
    }
    Ok(())
}

fn push_task(rows: &mut Vec<NextEvent>, walk: &Walk, task: u32) -> Result<()>
    requires { task < length walk.now.machine.config.tasks }
    ensures { OnOk result (rows.new.items ≡ rows.old.items ++ task_rows walk.now task) }
{
    push_event(rows, walk, Some(Event::Enter(task)))?;
    push_event(rows, walk, Some(Event::Back(task)))?;
    push_event(rows, walk, item_event(walk.osek(), task))?;
    push_event(rows, walk, service_event(walk.osek(), task))
}

fn push_tasks(rows: &mut Vec<NextEvent>, walk: &Walk, tasks: u32) -> Result<()>
    requires { tasks ≡ length walk.now.machine.config.tasks }
    ensures { OnOk result (rows.new.items ≡ rows.old.items ++ rows_below tasks (task_rows walk.now)) }
{
    for task in 0..tasks {
        push_task(rows, walk, task)?;
    }
    Ok(())
}

// An event that tells of nothing but a task or a counter.
#[derive(Clone, Copy)]
enum Kind {
    Tick,
    Admit,
    Due,
}

fn event(kind: Kind, number: u32) -> Event
    ensures { result ≡ event_of kind number }
{
    match kind {
        Kind::Tick => Event::Tick(number),
        Kind::Admit => Event::Admit(number),
        Kind::Due => Event::Due(number),
    }
}

fn push_each(rows: &mut Vec<NextEvent>, walk: &Walk, kind: Kind, count: u32) -> Result<()>
    ensures { OnOk result (rows.new.items ≡ rows.old.items
        ++ rows_below count (λ k. rows_of walk.now (Some (event_of kind k)))) }
{
    for number in 0..count {
        push_event(rows, walk, Some(event(kind, number)))?;
    }
    Ok(())
}

fn push_all(rows: &mut Vec<NextEvent>, walk: &Walk, tasks: u32, counters: u32) -> Result<()>
    requires tasks { tasks ≡ length walk.now.machine.config.tasks }
    requires counters { counters ≡ length walk.now.machine.config.counters }
    ensures { OnOk result (rows.new.items ≡ rows.old.items ++ all_rows walk.now) }
{
    push_event(rows, walk, Some(Event::Boot))?;
    push_tasks(rows, walk, tasks)?;
    push_each(rows, walk, Kind::Tick, counters)?;
    push_event(rows, walk, Some(Event::Idle))?;
    push_each(rows, walk, Kind::Admit, tasks)?;
    push_each(rows, walk, Kind::Due, counters)
}

/// The events that may come next behind those of a walk.
pub fn next_events(alloc: Global, walk: &Walk) -> Result<Vec<NextEvent>>
    requires tasks { length walk.now.machine.config.tasks ≤ task_limit }
    requires counters { length walk.now.machine.config.counters ≤ counter_limit }
    ensures { IfOk result
        (λ rows. (config : AnyConfig) (app : AnyApp) (past : List AnyEvent) → IsWalked config app past walk.now
        → AreNextEvents config app past rows.items) }
{
    let config = walk.osek().config();
    let tasks = config.tasks.items().len() as u32;
    let counters = config.counters.items().len() as u32;
    let mut rows = Vec::new(alloc);
    push_all(&mut rows, walk, tasks, counters)?;
    Ok(rows)
}

#[tactic(auto, using(std::proofs::lemmas::Nat::Bits::shr_and_one))]
fn row_limit(row: u32, line: u32, limit: Option<u32>, moment: u32) -> Option<u32>
    requires { line < line_count }
    ensures { result ≡ cond (bit_at row line == 1) (lesser_limit limit moment) limit }
{
    if row >> line & 1 != 1 {
        return limit;
    }
    match limit {
        Some(limit) => Some(if moment < limit { moment } else { limit }),
        None => Some(moment),
    }
}

fn least_moment(row: u32, moments: &[u32; LINE_COUNT]) -> Option<u32>
    ensures { result ≡ least_moment line_count (λ u. bit_at row u == 1) moments.now }
{
    let mut limit = None;
    for line in 0..LINE_COUNT {
        limit = row_limit(row, line as u32, limit, moments[line]);
    }
    limit
}

fn task_limit(walk: &Walk, task: u32) -> Option<u32>
    ensures { result ≡ service_limit walk.now task }
{
    if !walk.is_running(task) {
        return None;
    }
    let osek = walk.osek();
    least_moment(osek.above(TaskId(task)), walk.moments())
}

/// The limit of an event.
pub fn event_limit(walk: &Walk, event: &Event) -> Option<u32>
    ensures { result ≡ event_limit walk.now event.now }
{
    match *event {
        Event::Call { task, .. } | Event::Left { task, .. } => task_limit(walk, task),
        _ => None,
    }
}

/// Whether there is a count before a limit.
pub fn leaves_count(limit: Option<u32>) -> bool
    ensures { result ≡ leaves_count limit }
{
    match limit {
        Some(limit) => limit != 0,
        None => true,
    }
}

/// What is said of a text of events.
#[derive(Clone, Copy)]
pub enum Verdict {
    /// It is that of a run.
    Yes,
    /// The first line that is no event's, or that no LF ends.
    Line(u32),
    /// All lines are events', and this is the first with which they are no run.
    Step(u32),
    /// The events are a run, and not in time.
    Time,
}

fn judge_lines(
    alloc: Global,
    names: &DeclaredNames,
    walk: &mut Walk,
    timing: &mut Timing,
    text: &[u8],
) -> Result<Verdict>
    requires names { AreReadable names.now }
    requires rising { AreRisingMoments 1 timing.old.arrivals }
    requires lines { All (λ a. a.line < 4294967296) timing.old.arrivals }
    requires short { length text.now < 4294967295 }
    ensures { IfOk result (λ v. (config : AnyConfig) (app : AnyApp) → IsBegun config app names.now walk.old timing.old
        → IsVerdict config app timing.old.arrivals text.now timing.old.n v) }
{
    let mut stray = None;
    let mut line = 0;
    let mut rest = text;
    while !rest.is_empty() {
        line += 1;
        let Some(event) = crate::late::next_event(names, rest) else {
            return Ok(Verdict::Line(line));
        };
        stray = walk.follow(stray, &event, line);
        timing.take(&event)?;
        rest = behind(rest, b'\n');
    }
    if let Some(line) = stray {
        return Ok(Verdict::Step(line));
    }
    if timing.in_time(alloc)? {
        return Ok(Verdict::Yes);
    }
    Ok(Verdict::Time)
}

/// Whether a text in the counted form is that of a run of n instructions with these arrivals, and if not, why not.
pub fn check(
    alloc: Global,
    config: &Config,
    app: &App,
    arrivals: &[Arrival],
    text: &[u8],
    n: u32,
) -> Result<Verdict>
    requires well_formed { WellFormed config.now app.now }
    requires arrivals { AreArrivals (owners_in config.now) arrivals.now }
    requires short { length text.now < 4294967295 }
    ensures verdict { IfOk result (λ v. IsVerdict config.now app.now arrivals.now text.now n v) }
    ensures exact { IfOk result (λ v. (v ≡ Verdict.Yes) ↔ Checked config.now app.now arrivals.now text.now n) }
{
    let names = declared_names(alloc, config, app)?;
    let mut walk = Walk::new(alloc, config, app)?;
    let mut timing = Timing::new(alloc, config, n, arrivals);
    judge_lines(alloc, &names, &mut walk, &mut timing, text)
}
