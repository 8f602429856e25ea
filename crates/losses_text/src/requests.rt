//! What an event asks for. Requests, and how many there are. What the events of a run ask for.
//! The lines of a configuration, its task source and arrivals. What is printed of the requests of a run.
ghost use Rattle.std.specs.Prelude.{◌≡◌, ◌≤◌, ◌++◌, [], false, length, IfOk, OnOk, option_to_list, IfErr, ◌<◌, ◌+◌, get_or};
ghost use Rattle.sloth_base.specs.Limits.{counter_limit, count_limit, file_limit};
ghost use Rattle.osek_scheduler.specs.State.{task as task_of, opening};
ghost use Rattle.losses_text.specs.Expiries.{expiries, expiry, is_asked};
ghost use Rattle.losses_text.specs.Requests.{activation, call_request, event_requests, is_busy, next_call, tick, tick_requests, AreRequests};
ghost use Rattle.std.specs.Option.{option_map};
ghost use Rattle.losses_text.specs.RequestCounts.{came_count, taken_count, lost_count, first_lost};
ghost use Rattle.code_rules.specs.WellFormed.{WellFormed};
ghost use Rattle.osek_scheduler.specs.Runs.{OsekRun};
ghost use Rattle.run_inputs.specs.Inputs.{InputsErrorIs};
ghost use Rattle.sim_induction.specs.Sound.{AreComing, Sound};
ghost use Rattle.sloth_base.specs.Arrivals.{AreArrivals};
ghost use Rattle.sloth_base.specs.ImageRange.{InFormat};
ghost use Rattle.sloth_base.specs.Owners.{owners_in, owners_named, counter_line};
ghost use Rattle.losses_text.specs.Losses.{IsLossesText, IsRunText};
ghost use Rattle.losses_text.specs.RequestsText.{count_line, task_counts, counter_counts, first_text, requests_text};

use osek_machine::{NotARun, Osek, Store, call_in, own_operation};
use osek_scheduler::TaskState;
use sloth_base::{
    Action, App, Arrival, BuildError, Call, Config, Event, FIRST_COUNTER_LINE, Image, NoMemory,
    Result, Service, Stamped,
};
use sloth_build::gathering::image;
use sloth_runner::run_events;
use sloth_source::{Source, read};
use std::alloc::Global;
use text_pieces::pieces::Piece::{Count, Number, Word};
use text_pieces::{line, push};
use trace_text::read_arrivals;

// Whether a task is not Suspended.
#[tactic(auto, using(crate::proofs::Along::rests_beyond))]
fn is_busy(store: &Store, task: u32) -> bool
    ensures { result ≡ is_busy store.now task }
{
    if task as usize >= store.count() {
        return false;
    }
    !matches!(store.task(task as usize).state(), TaskState::Suspended)
}

// That a task be activated.
fn activation(store: &Store, task: u32, at: u32) -> Request
    ensures { result ≡ activation task at store.now }
{
    Request {
        line: task,
        at,
        lost: is_busy(store, task),
    }
}

// That a counter of the configuration tick.
fn tick(config: &Config, store: &Store, c: u32, at: u32) -> Option<Request>
    requires few { length config.now.counters ≤ counter_limit }
    ensures { result ≡ tick config.now c at store.now }
{
    if c as usize >= config.counters.items().len() {
        return None;
    }
    Some(Request {
        line: u32::from(FIRST_COUNTER_LINE) + c,
        at,
        lost: store.counter(c as usize).due,
    })
}

fn is_asked(before: &[Request], line: u32) -> bool
    ensures { result ≡ is_asked before.now line }
{
    before.iter().any(|r| r.line == line)
}

// Appends what an alarm asks for as it counts a tick.
fn push_expiry(all: &mut Vec<Request>, store: &Store, does: Action, a: usize, at: u32) -> Result<()>
    ensures { OnOk result (all.new.items ≡ all.old.items ++ expiry does a at all.old.items store.now) }
{
    match does {
        Action::Activate(task) => {
            if store.alarm(a).left == 1 {
                let lost = is_busy(store, task.0) || is_asked(all.as_slice(), task.0);
                let line = task.0;
                push(all, Request { line, at, lost })?;
            }
        }
        Action::Set(..) => {}
    }
    Ok(())
}

// What the alarms of a counter ask for as they count a tick, in the order of their numbers.
fn expiries(alloc: Global, config: &Config, store: &Store, c: u32, at: u32) -> Result<Vec<Request>>
    ensures { IfOk result (λ all. all.items ≡ expiries c 0 at config.now.alarms store.now []) }
{
    let mut all = Vec::new(alloc);
    for a in 0..config.alarms.items().len() {
        let alarm = &config.alarms.items()[a];
        if alarm.counter == c {
            push_expiry(&mut all, store, alarm.action, a, at)?;
        }
    }
    Ok(all)
}

// Appends what a tick of a counter asks for.
fn push_ticks(alloc: Global, all: &mut Vec<Request>, osek: &Osek, c: u32, at: u32) -> Result<()>
    ensures { OnOk result (all.new.items ≡ all.old.items ++ tick_requests osek.now.config c at osek.now.system) }
{
    let asked = expiries(alloc, osek.config(), osek.store(), c, at)?;
    all.extend_from_slice(asked.as_slice())?;
    Ok(())
}

// The call that is next in a task.
#[tactic(auto, using(crate::proofs::Along::calls_none_beyond))]
fn next_call(app: &App, store: &Store, t: u32) -> Option<Call>
    ensures { result ≡ next_call app.now (task_of store.now t) }
{
    if t as usize >= store.count() {
        return None;
    }
    let op = own_operation(app, store.task(t as usize))?;
    call_in(&op)
}

// A service that a task calls, on the object of the call that is next in the task.
fn call_request(app: &App, store: &Store, served: Service, t: u32, at: u32) -> Option<Request>
    ensures { result ≡ call_request app.now served t at store.now }
{
    let object = next_call(app, store, t)?.object;
    match served {
        Service::ActivateTask => Some(activation(store, object, at)),
        Service::ChainTask => Some(Request {
            line: object,
            at,
            lost: object != t && is_busy(store, object),
        }),
        _ => None,
    }
}

fn push_single(all: &mut Vec<Request>, asked: Option<Request>) -> Result<()>
    ensures { OnOk result (all.new.items ≡ all.old.items ++ option_to_list asked) }
{
    if let Some(request) = asked {
        push(all, request)?;
    }
    Ok(())
}

/// Appends what an event asks for in the state of the abstract scheduler that it finds.
pub fn push_requests(
    alloc: Global,
    all: &mut Vec<Request>,
    osek: &Osek,
    event: &Stamped,
) -> Result<()>
    ensures { OnOk result
        (all.new.items ≡ all.old.items ++ event_requests osek.now.config osek.now.app event.now osek.now.system) }
{
    let at = event.stamp.at;
    let store = osek.store();
    match event.event {
        Event::Admit(task) => push(all, activation(store, task, at))?,
        Event::Due(counter) => push_single(all, tick(osek.config(), store, counter, at))?,
        Event::Tick(counter) => push_ticks(alloc, all, osek, counter, at)?,
        Event::Call { task, service, .. } | Event::Left { task, service } => {
            push_single(all, call_request(osek.app(), store, service, task, at))?;
        }
        _ => {}
    }
    Ok(())
}

/// A request: that a task be activated, or that a counter tick.
#[derive(Clone, Copy)]
pub struct Request {
    /// The line of the task or of the counter.
    pub line: u32,
    /// The last count of the event that asks for it.
    pub at: u32,
    pub lost: bool,
}

/// How many requests of a line came.
pub fn came_count(all: &[Request], line: u32) -> usize
    ensures { result ≡ came_count all.now line }
{
    all.iter().filter(|r| r.line == line).count()
}

/// How many of them were taken.
pub fn taken_count(all: &[Request], line: u32) -> usize
    ensures { result ≡ taken_count all.now line }
{
    all.iter().filter(|r| r.line == line && !r.lost).count()
}

/// How many of them were lost.
pub fn lost_count(all: &[Request], line: u32) -> usize
    ensures { result ≡ lost_count all.now line }
{
    all.iter().filter(|r| r.line == line && r.lost).count()
}

/// The first one that was lost, if one was.
pub fn first_lost(all: &[Request], line: u32) -> Option<&Request>
    ensures { option_map (λ r. r.now) result ≡ first_lost all.now line }
{
    all.iter().find(|r| r.line == line && r.lost)
}

/// What the events of a run of the abstract scheduler ask for, in their order.
pub fn requests_along(
    alloc: Global,
    config: &Config,
    app: &App,
    events: &[Stamped],
) -> Result<Vec<Request>>
    requires well_formed { WellFormed config.now app.now }
    requires run { OsekRun config.now app.now events.now }
    ensures { IfOk result (λ all. AreRequests config.now app.now events.now (opening config.now app.now) all.items) }
{
    let mut osek = Osek::boot(alloc, config, app)?;
    let mut all = Vec::new(alloc);
    for event in events {
        push_requests(alloc, &mut all, &osek, event)?;
        match osek.step(&event.event) {
            Ok(()) => {}
            Err(NotARun) => return Ok(all),
        }
    }
    Ok(all)
}

// The lines of a run of n instructions of an image whose runs are those of the abstract scheduler.
fn run_text(
    alloc: Global,
    config: &Config,
    app: &App,
    image: &Image,
    arrivals: &[Arrival],
    n: u32,
) -> Result<Vec<u8>>
    requires well_formed { WellFormed config.now app.now }
    requires sound { Sound config.now app.now image.now }
    requires format { InFormat image.now }
    requires arrivals { AreArrivals (owners_named image.now) arrivals.now }
    requires coming { AreComing (owners_in config.now) arrivals.now }
    requires few { n ≤ count_limit }
    ensures { IfOk result (λ text. IsRunText config.now app.now image.now arrivals.now n text.items) }
{
    let events = run_events(alloc, image, arrivals, n)?;
    let all = requests_along(alloc, config, app, events.as_slice())?;
    let text = requests_text(alloc, image, all.as_slice())?;
    Ok(text)
}

/// How many requests of each task and counter came, were taken and were lost in n instructions (at most `COUNT_LIMIT`)
/// of the image with these arrivals, and the count of the first lost; or the first refusal. Texts have at most 4 MiB.
pub fn losses_text(
    alloc: Global,
    oil: &[u8],
    src: &[u8],
    arr: &[u8],
    n: u32,
) -> Result<Vec<u8>, BuildError>
    requires oil { length oil.now ≤ file_limit }
    requires src { length src.now ≤ file_limit }
    requires arr { length arr.now ≤ file_limit }
    requires few { n ≤ count_limit }
    ensures text { IfOk result (λ text. IsLossesText oil.now src.now arr.now n text.items) }
    ensures refused { IfErr result (InputsErrorIs oil.now src.now arr.now) }
{
    let Source {
        config,
        app,
        bounds,
    } = read(alloc, oil, src)?;
    let image = image(alloc, &config, &app, &bounds)?;
    let arrivals = read_arrivals(alloc, arr, image.tasks.items(), image.counters.items())?;
    let text = run_text(alloc, &config, &app, &image, arrivals.as_slice(), n)?;
    Ok(text)
}

fn push_first(text: &mut Vec<u8>, first: Option<&Request>) -> Result<()>
    ensures { OnOk result (text.new.items ≡ text.old.items ++ first_text (option_map (λ a. a.now) first.entry)) }
{
    match first {
        Some(first) => line!(text; Word(b" "), Number(first.at)),
        None => Ok(()),
    }
}

#[tactic(auto, unfolding(crate::specs::RequestsText::count_line))]
fn push_counts(text: &mut Vec<u8>, name: &[u8], all: &[Request], number: u32) -> Result<()>
    ensures { OnOk result (text.new.items ≡ text.old.items ++ count_line name.now all.now number) }
{
    line!(text; Word(name), Word(b" "), Count(came_count(all, number)))?;
    line!(text; Word(b" "), Count(taken_count(all, number)))?;
    line!(text; Word(b" "), Count(lost_count(all, number)))?;
    push_first(text, first_lost(all, number))?;
    line!(text; Word(b"\n"))
}

fn push_task(text: &mut Vec<u8>, image: &Image, all: &[Request], task: usize) -> Result<()>
    requires format { InFormat image.now }
    requires task { task < length image.now.tasks }
    ensures { OnOk result (text.new.items ≡ text.old.items
        ++ count_line (get_or image.now.tasks task []) all.now task) }
{
    push_counts(text, image.tasks.items()[task].bytes(), all, task as u32)
}

fn push_counter(text: &mut Vec<u8>, image: &Image, all: &[Request], counter: usize) -> Result<()>
    requires format { InFormat image.now }
    requires counter { counter < length image.now.counters }
    ensures { OnOk result (text.new.items ≡ text.old.items
        ++ count_line (get_or image.now.counters counter []) all.now (counter_line counter)) }
{
    let line = u32::from(FIRST_COUNTER_LINE) + counter as u32;
    push_counts(text, image.counters.items()[counter].bytes(), all, line)
}

fn push_tasks(text: &mut Vec<u8>, image: &Image, all: &[Request], tasks: usize) -> Result<()>
    requires format { InFormat image.now }
    requires tasks { tasks ≡ length image.now.tasks }
    ensures { OnOk result (text.new.items ≡ text.old.items ++ task_counts image.now all.now tasks) }
{
    for task in 0..tasks {
        push_task(text, image, all, task)?;
    }
    Ok(())
}

fn push_counters(text: &mut Vec<u8>, image: &Image, all: &[Request], counters: usize) -> Result<()>
    requires format { InFormat image.now }
    requires counters { counters ≡ length image.now.counters }
    ensures { OnOk result (text.new.items ≡ text.old.items ++ counter_counts image.now all.now counters) }
{
    for counter in 0..counters {
        push_counter(text, image, all, counter)?;
    }
    Ok(())
}

/// What is printed of the requests of a run: a line for each task of the image, then one for each counter.
pub fn requests_text(alloc: Global, image: &Image, all: &[Request]) -> Result<Vec<u8>>
    requires { InFormat image.now }
    ensures { IfOk result (λ text. text.items ≡ requests_text image.now all.now) }
{
    let mut text = Vec::new(alloc);
    push_tasks(&mut text, image, all, image.tasks.items().len())?;
    push_counters(&mut text, image, all, image.counters.items().len())?;
    Ok(text)
}
