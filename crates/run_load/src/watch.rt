//! What is seen of the events of a run for one task.
ghost use Rattle.std.specs.Prelude.{◌≡◌, ◌<◌, ◌≤◌, ◌+◌, ◌-◌, ◌&&◌, not, cond, get_or, length, None, IfOk};
ghost use Rattle.code_rules.specs.WellFormed.{WellFormed};
ghost use Rattle.osek_scheduler.specs.InTime.{is_admit};
ghost use Rattle.osek_scheduler.specs.Next.{is_ready};
ghost use Rattle.osek_scheduler.specs.State.{task as task_of};
ghost use Rattle.run_counts.specs.Stages.{is_turn, state_behind};
ghost use Rattle.response_laws.specs.Busy.{is_quiet};
ghost use Rattle.sim_induction.specs.Spent.{is_running};
ghost use Rattle.run_load.specs.Watched.{noted, edge, watched_run};

use crate::running::{is_quiet, is_running};
use osek_machine::priority::is_ready;
use osek_machine::{Osek, Store};
use sloth_base::{App, COUNTER_LIMIT, Config, Event, Result, Stamped, TaskId};
use std::alloc::Global;
use text_pieces::push;

/// What is seen of an event.
#[derive(Clone, Copy)]
pub struct Watched {
    pub event: Stamped,
    /// The counts that are the task's own.
    pub own: u64,
    /// It makes the task Ready.
    pub made: bool,
    /// The state that it finds is quiet for the task.
    pub quiet: bool,
    /// The moment from which a response to it counts.
    pub edge: u32,
}

// The state between two events.
#[derive(Clone, Copy)]
struct Between {
    running: bool,
    ready: bool,
    quiet: bool,
}

fn found_state(config: &Config, store: &Store, task: u32) -> Between
    requires count { length store.now.tasks ≡ length config.now.tasks }
    requires declared { task < length config.now.tasks }
    ensures running { result.running ≡ is_running config.now store.now task }
    ensures ready { result.ready ≡ is_ready (task_of store.now task).state }
    ensures quiet { result.quiet ≡ is_quiet config.now task store.now }
{
    let place = task as usize;
    Between {
        running: is_running(config, store, place),
        ready: is_ready(store.task(place).state()),
        quiet: is_quiet(config, store, place),
    }
}

fn found(osek: &Osek, task: u32) -> Between
    requires { task < length osek.now.config.tasks }
    ensures running { result.running ≡ is_running osek.now.config osek.now.system task }
    ensures ready { result.ready ≡ is_ready (task_of osek.now.system task).state }
    ensures quiet { result.quiet ≡ is_quiet osek.now.config task osek.now.system }
{
    found_state(osek.config(), osek.store(), task)
}

// Whether a task is Ready that was not.
fn is_made(ready: bool, osek: &Osek, task: u32) -> bool
    requires { task < length osek.now.config.tasks }
    ensures { result ≡ (not ready && is_ready (task_of osek.now.system task).state) }
{
    !ready && is_ready(osek.state(TaskId(task)))
}

// One event more; where it may not come, nothing has changed.
fn follow(osek: &mut Osek, event: &Event)
    ensures system { osek.new.system ≡ state_behind osek.old.config osek.old.app event.now osek.old.system }
    ensures config { osek.new.config ≡ osek.old.config }
    ensures app { osek.new.app ≡ osek.old.app }
{
    match osek.step(event) {
        Ok(()) => {}
        Err(_) => {}
    }
}

/// Whether an event is the admission of an arrival.
pub fn is_admission(event: &Stamped) -> bool
    ensures { result ≡ is_admit event.now }
{
    matches!(event.event, Event::Admit(_) | Event::Due(_))
}

// Whether an event comes in a turn of the task.
fn is_turn(task: u32, event: &Event) -> bool
    ensures { result ≡ is_turn task event.now }
{
    match *event {
        Event::Run { task: other, .. } => other == task,
        Event::Call { task: other, .. } => other == task,
        Event::Left { task: other, .. } => other == task,
        Event::Back(other) => other == task,
        _ => false,
    }
}

/// The first count behind the events up to this one.
pub fn end_count(start: u64, event: &Stamped) -> u64
    ensures { result ≡ cond (is_admit event.now) start (event.now.stamp.at + 1) }
{
    if is_admission(event) {
        start
    } else {
        u64::from(event.stamp.at) + 1
    }
}

// The counts in front of an event, behind those before it.
fn unseen(start: u64, event: &Stamped) -> u64
    ensures is { result ≡ cond (is_admit event.now) 0 (event.now.stamp.from - start) }
    ensures small { result ≤ 4294967295 }
{
    if is_admission(event) {
        0
    } else {
        u64::from(event.stamp.from).saturating_sub(start)
    }
}

fn spanned(event: &Stamped) -> u64
    ensures is { result ≡ cond (is_admit event.now) 0 (event.now.stamp.at + 1 - event.now.stamp.from) }
    ensures small { result ≤ 4294967296 }
{
    if is_admission(event) {
        0
    } else {
        (u64::from(event.stamp.at) + 1).saturating_sub(u64::from(event.stamp.from))
    }
}

fn counted(test: bool, counts: u64) -> u64
    ensures is { result ≡ cond test counts 0 }
    ensures within { result ≤ counts }
{
    if test { counts } else { 0 }
}

// The counts of an event, and those in front of it, where they are the task's.
fn own_counts(start: u64, event: &Stamped, running: bool, turn: bool) -> u64
    ensures { result ≡ cond running (cond (is_admit event.now) 0 (event.now.stamp.from - start)) 0
        + cond turn (cond (is_admit event.now) 0 (event.now.stamp.at + 1 - event.now.stamp.from)) 0 }
{
    counted(running, unseen(start, event)) + counted(turn, spanned(event))
}

/// The moment in a place, if there is one.
pub fn moment(moments: &[Option<u32>], place: usize) -> Option<u32>
    ensures { result ≡ get_or moments.now place None }
{
    moments.get(place).copied().unwrap_or(None)
}

// The moments behind an event: an arrival of a counter is noted, where none is since its last tick.
fn note(moments: &mut [Option<u32>; COUNTER_LIMIT], event: &Stamped)
    ensures { moments.new ≡ noted event.now.event event.now.stamp.at moments.old }
{
    match event.event {
        Event::Due(counter) => {
            let place = counter as usize;
            if place < COUNTER_LIMIT {
                moments[place] = Some(moments[place].unwrap_or(event.stamp.at));
            }
        }
        Event::Tick(counter) => {
            let place = counter as usize;
            if place < COUNTER_LIMIT {
                moments[place] = None;
            }
        }
        _ => {}
    }
}

fn edge(moments: &[Option<u32>; COUNTER_LIMIT], event: &Stamped) -> u32
    ensures { result ≡ edge event.now.event event.now.stamp.at moments.now }
{
    match event.event {
        Event::Tick(counter) => { moment(moments, counter as usize).unwrap_or(event.stamp.at) }
        _ => event.stamp.at,
    }
}

/// What is seen of the events of a run for a task of the configuration.
pub fn watch(
    alloc: Global,
    config: &Config,
    app: &App,
    events: &[Stamped],
    task: u32,
) -> Result<Vec<Watched>>
    requires well_formed { WellFormed config.now app.now }
    requires declared { task < length config.now.tasks }
    ensures { IfOk result (λ watched. watched.items ≡ watched_run config.now app.now task events.now) }
{
    let mut osek = Osek::boot(alloc, config, app)?;
    let mut moments = [None; COUNTER_LIMIT];
    let mut start = 0;
    let mut watched = Vec::new(alloc);
    let mut rest = events;
    while let Some((event, behind)) = rest.split_first() {
        let before = found(&osek, task);
        let turn = is_turn(task, &event.event);
        follow(&mut osek, &event.event);
        let seen = Watched {
            event: *event,
            own: own_counts(start, event, before.running, turn),
            made: is_made(before.ready, &osek, task),
            quiet: before.quiet,
            edge: edge(&moments, event),
        };
        push(&mut watched, seen)?;
        start = end_count(start, event);
        note(&mut moments, event);
        rest = behind;
    }
    Ok(watched)
}
