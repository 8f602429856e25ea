//! The whole record, and in it what tasks, counters and alarms cost.
ghost use Rattle.std.specs.Prelude.{◌≡◌, length, IfOk, None, ◌&&◌, ◌<◌, [], cond, ◌≤◌, ℕ, true, Decides};
ghost use Rattle.code_rules.specs.WellFormed.{WellFormed};
ghost use Rattle.call_graph.specs.Ranks.{RanksOf};
ghost use Rattle.run_counts.specs.Counts.{AreCounts};
ghost use Rattle.walk_sums.specs.Weights.{AreWeights};
ghost use Rattle.run_costs.specs.CostsOf.{AreEach, IsGreatest, no_counter, Names, task_of, sets_events, no_alarm};
ghost use Rattle.run_costs.specs.CostsOf.{IsAlarm};
ghost use Rattle.run_costs.specs.Services.{AreServiceTops, reaches, reached_path};
ghost use Rattle.run_costs.specs.Makings.{AreCleanMarks, AreRoundSums};
ghost use Rattle.run_costs.specs.RunCosts.{AreRunTaskCosts, AreTaskCosts, AreRunCosts, round_entry, raising_counts};
ghost use Rattle.run_costs.specs.RunCosts.{has_raised_waits, counts_once, IsRunCounter};
ghost use Rattle.run_costs.specs.RunRecord.{IsRunRecord};
ghost use Rattle.sloth_base.specs.Named.{declaration, item_of};
ghost use Rattle.sloth_base.specs.ServiceCodes.{service_of};
ghost use Rattle.code_lengths.specs.LongestPaths.{enter_path};
ghost use Rattle.run_windows.specs.RunWindows.{call_path};
ghost use Rattle.run_costs.specs.Rounds.{round_cost};
ghost use Rattle.sloth_base.specs.Limits.{alarm_limit, counter_limit};
ghost use Rattle.walk_sums.specs.Counted.{calls_for};
ghost use Rattle.sloth_base.specs.declared.service.Service.TheVariants as service;

use crate::rounds::{makings, many, numbered_sums, round_sums};
use crate::sections::levels;
use crate::services::{
    Row, all_naming_tops, all_setting_tops, coming, reaches, service_tops, services,
};
use bound_rules::{BodyWeights, is_marked};
use bounds_text::{heaviest_ending, longest_item, running_counts};
use call_graph::Ranks;
use code_lengths::{boot_path, entry_path, tick_path};
use load_text::{Entry, distance_of, work_of};
use run_counts::count_weights;
use run_windows::level::lesser;
use run_windows::{AlarmCosts, Costs, CounterCosts, RunCosts, TaskCosts, call_path};
use sim_induction::lengths;
use sloth_base::{Action, App, Config, FIRST_COUNTER_LINE, Func, List, Result, Service};
use std::alloc::Global;
use text_pieces::push;
use walk_sums::{RoundSums, Sum, Walks, calls_object, known_code, numbered_function};

fn costs(walks: &Walks, load: &[Entry], weights: &[BodyWeights]) -> Result<Costs>
    requires counts { AreCounts walks.now.app weights.now }
    requires fit { AreWeights walks.now.app weights.now }
    ensures { IfOk result (AreRunCosts walks.now.config walks.now.app load.now) }
{
    let (config, app) = (walks.config(), walks.app());
    let clean = walks.clean_tasks()?;
    let steady = walks.steady_tasks()?;
    let naming = all_naming_tops(walks)?;
    let settings = all_setting_tops(walks)?;
    Ok(Costs {
        tasks: tasks(walks, load, weights, &clean)?,
        comes: coming(walks, load, &naming, &settings)?,
        counters: counters(walks.alloc(), config, load)?,
        alarms: alarms(walks.alloc(), config, app)?,
        makings: makings(walks, &clean, &steady, &naming)?,
        services: services(walks, &naming)?,
        levels: levels(walks, weights, &naming)?,
    })
}

/// The costs that runs keep under a load, with the longest item and the longest stretch, boot among them.
pub fn run_costs(
    alloc: Global,
    config: &Config,
    app: &App,
    ranks: &Ranks,
    load: &[Entry],
) -> Result<RunCosts>
    requires well_formed { WellFormed config.now app.now }
    requires belong { RanksOf app.now ranks.now }
    ensures { IfOk result (IsRunRecord config.now app.now load.now) }
{
    let known = known_code(alloc, config, app, ranks)?;
    let walks = Walks::of(alloc, config, app, &known);
    let lengths = lengths(alloc, app)?;
    let weights = count_weights(alloc, app)?;
    let longest = longest_item(&lengths).max(1);
    let late = running_counts(config, app, heaviest_ending(&weights)).max(boot_path(config));
    let costs = costs(&walks, load, &weights)?;
    Ok(RunCosts {
        costs,
        longest,
        late,
    })
}

// The entry of a task, that starts anew or goes on behind a wait.
fn entry(walks: &Walks, resumed: bool, task: usize) -> u32
    requires { task < length walks.now.config.tasks }
    ensures { result ≡ enter_path walks.now.config walks.now.app resumed task }
{
    let words = walks.app().funcs.items()[walks.body(task)].frame_words;
    entry_path(walks.task(task).extended, resumed, words)
}

fn round_entry(walks: &Walks, clean: bool, resumed: bool, task: usize) -> u32
    requires { task < length walks.now.config.tasks }
    ensures { result ≡ round_entry walks.now.config walks.now.app clean resumed task }
{
    let either = entry(walks, clean && resumed, task);
    either.max(entry(walks, true, task))
}

// An entry and a round: by the greatest sum, and by what the load says of the task's work.
fn round_cost(entry: u32, work: Option<u32>, sum: Sum) -> Option<u32>
    ensures { result ≡ round_cost entry work sum }
{
    let own = lesser(work, many(sum))?;
    entry.checked_add(own)
}

fn raising_counts(walks: &Walks, task: usize) -> u32
    requires { task < length walks.now.config.tasks }
    ensures { result ≡ raising_counts walks.now.config task }
{
    if walks.task(task).non {
        0
    } else {
        call_path(Service::GetResource)
    }
}

// Whether sections of a task may have several rounds.
fn has_raised_waits(walks: &Walks, clean: bool, services: &[List<u64>], task: usize) -> bool
    requires { task < length walks.now.config.tasks }
    ensures { result ≡ has_raised_waits walks.now.config clean (reaches services.now service.WaitEvent task) task }
{
    walks.task(task).non && (clean && reaches(services, Service::WaitEvent, task))
}

// The work that bounds the sections of a task.
fn section_work(raised: bool, work: Option<u32>) -> Option<u32>
    ensures { result ≡ cond raised None work }
{
    if raised { None } else { work }
}

// Whether a task counts once in its own windows.
fn counts_once(walks: &Walks, clean: bool, task: usize) -> bool
    requires { task < length walks.now.config.tasks }
    ensures { result ≡ counts_once walks.now.config clean task }
{
    let task = walks.task(task);
    !task.non && !(clean && task.extended)
}

// Whether rounds of a task are counted from its waits.
fn is_cut(walks: &Walks, clean: bool, task: usize) -> bool
    requires { task < length walks.now.config.tasks }
    ensures { result ≡ (clean && (declaration walks.now.config task).extended) }
{
    clean && walks.task(task).extended
}

fn reached_path(all: &[List<u64>], task: usize, code: u8) -> u32
    ensures { result ≡ reached_path call_path all.now task (service_of code) }
{
    match Service::from_code(code) {
        Some(service) if reaches(all, service, task) => call_path(service),
        _ => 0,
    }
}

// The longest service that a task reaches, with the item of its call.
fn longest_service(walks: &Walks, all: &[List<u64>], task: usize) -> u32
    requires well_formed { WellFormed walks.now.config walks.now.app }
    requires inside { task < length walks.now.config.tasks }
    requires all { AreEach 16 [] (AreServiceTops walks.now.config walks.now.app) all.now }
    ensures { IsGreatest walks.now.app task call_path result }
{
    let mut most: u32 = 0;
    for code in 0..16 {
        most = reached_path(all, task, code).max(most);
    }
    most
}

fn task_costs(
    walks: &Walks,
    load: &[Entry],
    weights: &[BodyWeights],
    rounds: &[RoundSums],
    clean: &[bool],
    services: &[List<u64>],
    task: usize,
) -> TaskCosts
    requires rounds { AreRoundSums walks.now.config walks.now.app clean.now weights.now rounds.now }
    requires clean { AreCleanMarks walks.now.config walks.now.app clean.now }
    requires services { AreEach 16 [] (AreServiceTops walks.now.config walks.now.app) services.now }
    requires inside { task < length walks.now.config.tasks }
    ensures { AreRunTaskCosts walks.now.config walks.now.app load.now weights.now task result }
{
    let declared = walks.task(task);
    let is_clean = is_marked(clean, task);
    let sums = numbered_sums(rounds, task);
    let work = work_of(load, task as u8);
    let raised = has_raised_waits(walks, is_clean, services, task);
    let entry = round_entry(walks, is_clean, false, task);
    let resumed = round_entry(walks, is_clean, true, task);
    TaskCosts {
        priority: walks.priority(task),
        is_entered_once: counts_once(walks, is_clean, task),
        is_autostarted: declared.autostart,
        is_cut: is_cut(walks, is_clean, task),
        distance: distance_of(load, task as u8),
        first: round_cost(entry, work, sums.first),
        next: round_cost(resumed, work, sums.later),
        raising: raising_counts(walks, task),
        has_raised_waits: raised,
        section_work: section_work(raised, work),
        service: longest_service(walks, services, task),
    }
}

fn tasks(walks: &Walks, load: &[Entry], weights: &[BodyWeights], clean: &[bool]) -> Row<TaskCosts>
    requires weights { AreWeights walks.now.app weights.now }
    requires clean { AreCleanMarks walks.now.config walks.now.app clean.now }
    ensures { IfOk result (AreTaskCosts walks.now.config walks.now.app load.now weights.now) }
{
    let services = service_tops(walks)?;
    let rounds = round_sums(walks, weights, clean)?;
    let mut list = Vec::new(walks.alloc());
    for task in 0..walks.tasks() {
        let costs = task_costs(walks, load, weights, &rounds, clean, &services, task);
        push(&mut list, costs)?;
    }
    Ok(List::from_vec(list))
}

// Whether an item of a body calls the service for the alarm.
fn body_names(service: Service, alarm: u32, func: &Func) -> bool
    ensures some { result ≡ true → (i : ℕ) × (calls_for alarm service (item_of func.now i).op ≡ true) }
    ensures none { (i : ℕ) → calls_for alarm service (item_of func.now i).op ≡ true → result ≡ true }
{
    for number in 0..func.items.items().len() {
        if calls_object(alarm, service, func.items.items()[number].op) {
            return true;
        }
    }
    false
}

fn is_named(app: &App, service: Service, alarm: u32) -> bool
    ensures { Decides result (Names app.now service alarm) }
{
    for number in 0..app.funcs.items().len() {
        if body_names(service, alarm, numbered_function(app, number)) {
            return true;
        }
    }
    false
}

/// The task of an action.
pub fn action_task(action: &Action) -> u32
    ensures { result ≡ task_of action.now }
{
    match *action {
        Action::Activate(task) => task.0,
        Action::Set(task, _) => task.0,
    }
}

/// Whether it sets events of that.
pub fn sets_events(action: &Action) -> bool
    ensures { result ≡ sets_events action.now }
{
    matches!(*action, Action::Set(_, _))
}

fn alarm(config: &Config, app: &App, number: usize) -> AlarmCosts
    requires inside { number < length config.now.alarms }
    requires few { length config.now.alarms ≤ alarm_limit }
    ensures { IsAlarm config.now app.now number result }
{
    let declared = &config.alarms.items()[number];
    let (relative, absolute) = (Service::SetRelAlarm, Service::SetAbsAlarm);
    AlarmCosts {
        counter: declared.counter,
        task: action_task(&declared.action),
        sets_events: sets_events(&declared.action),
        time: declared.time,
        cycle: declared.cycle,
        is_set: is_named(app, relative, number as u32) || is_named(app, absolute, number as u32),
    }
}

fn alarms(alloc: Global, config: &Config, app: &App) -> Row<AlarmCosts>
    requires { length config.now.alarms ≤ alarm_limit }
    ensures { IfOk result (AreEach (length config.now.alarms) no_alarm (IsAlarm config.now app.now)) }
{
    let mut list = Vec::new(alloc);
    for number in 0..config.alarms.items().len() {
        push(&mut list, alarm(config, app, number))?;
    }
    Ok(List::from_vec(list))
}

fn counters(alloc: Global, config: &Config, load: &[Entry]) -> Row<CounterCosts>
    requires few { length config.now.counters ≤ counter_limit }
    requires alarms { length config.now.alarms ≤ alarm_limit }
    ensures { IfOk result (AreEach (length config.now.counters) no_counter (IsRunCounter config.now load.now)) }
{
    let mut list = Vec::new(alloc);
    for number in 0..config.counters.items().len() {
        let counter = CounterCosts {
            distance: distance_of(load, FIRST_COUNTER_LINE + number as u8),
            tick: tick_path(config, number as u32),
        };
        push(&mut list, counter)?;
    }
    Ok(List::from_vec(list))
}
