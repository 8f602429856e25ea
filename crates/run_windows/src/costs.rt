//! What response times are computed from, windows, and the longest of them; and the first thing that has no number.
ghost use Rattle.std.specs.Prelude.{◌≡◌, Some, None, cond, length};
ghost use Rattle.run_windows.specs.Longest.{number_of};
ghost use Rattle.run_windows.specs.declared.costs.Untold.{Untold};
ghost use Rattle.run_windows.specs.FirstUntold.{IsInside, is_told, untold_rounds, untold_making, level_makings, untold_joined, untold_apart, untold_lower, first_untold};

use crate::level::{
    is_apart, is_joined, is_left_out, is_lower, making, section_counts, section_making,
};
use crate::rounds::{ENDLESS, reckoned};
use crate::task;
use sloth_base::List;

/// A task. A greatest number that is none has no limit, or is greater than what sums of rounds and sections tell.
#[derive(Clone, Copy)]
pub struct TaskCosts {
    /// The static priority.
    pub priority: u32,
    /// It is FULL, and basic or not clean: it counts once in windows of its own.
    pub is_entered_once: bool,
    /// It is activated as the system starts.
    pub is_autostarted: bool,
    /// It is extended and clean: WaitEvents cut its turns into rounds.
    pub is_cut: bool,
    /// It is not preemptable, and clean, and waits: sections of it may have several rounds.
    pub has_raised_waits: bool,
    /// How many counts two of its arrivals are apart at least; none where it never arrives.
    pub distance: Option<u32>,
    /// The counts of an entry and of a round that begins with the first item.
    pub first: Option<u32>,
    /// The counts of an entry and of a round that begins behind a WaitEvent.
    pub next: Option<u32>,
    /// The counts of what raises it within a window.
    pub raising: u32,
    /// How many counts of its own a section of it takes at most, where the load says so.
    pub section_work: Option<u32>,
    /// The counts of the longest service that it reaches, with the item of its call.
    pub service: u32,
}

/// A counter.
#[derive(Clone, Copy)]
pub struct CounterCosts {
    /// How many counts two of its arrivals are apart at least; none where it never arrives.
    pub distance: Option<u32>,
    /// The counts of a tick.
    pub tick: u32,
}

/// An alarm.
#[derive(Clone, Copy)]
pub struct AlarmCosts {
    pub counter: u32,
    /// The task that it activates, or whose events it sets.
    pub task: u32,
    pub sets_events: bool,
    /// The ticks to its first expiry as the system starts, 0 where it does not start by itself.
    pub time: u32,
    /// The ticks from one expiry to the next, 0 where it expires once.
    pub cycle: u32,
    /// An item may set it: it may expire at each tick.
    pub is_set: bool,
}

/// How often a round of one task makes another one Ready at most, by activating it and by setting its events.
#[derive(Clone, Copy)]
pub struct Makings {
    /// In a round that begins with the first item.
    pub first_activations: Option<u32>,
    pub first_settings: Option<u32>,
    /// In a round that begins behind a WaitEvent.
    pub next_activations: Option<u32>,
    pub next_settings: Option<u32>,
}

/// Which services that name one task another one reaches: ActivateTask, ChainTask, SetEvent.
#[derive(Clone, Copy)]
pub struct Services {
    pub activates: bool,
    pub chains: bool,
    pub sets_events: bool,
}

/// The sections of a task for another one.
#[derive(Clone, Copy)]
pub struct SectionCosts {
    /// It may have some.
    pub exists: bool,
    /// Walks of them have no greatest sum.
    pub is_endless: bool,
    /// The counts of the longest, by walks.
    pub counts: Option<u32>,
}

/// How often a section makes a task Ready at most.
#[derive(Clone, Copy)]
pub struct SectionMakings {
    pub activations: Option<u32>,
    pub settings: Option<u32>,
}

/// The sections for one task.
#[derive(Drop)]
pub struct Level {
    /// Of each task.
    pub sections: List<SectionCosts>,
    /// By the task that is made, of each task that makes it.
    pub makings: List<List<SectionMakings>>,
}

/// What response times of a configuration's tasks under a load are computed from. Lists are in its numbers' order.
#[derive(Drop)]
pub struct Costs {
    pub tasks: List<TaskCosts>,
    /// Which tasks something may make Ready.
    pub comes: List<bool>,
    pub counters: List<CounterCosts>,
    pub alarms: List<AlarmCosts>,
    /// By the task that is made, of each task that makes it.
    pub makings: List<List<Makings>>,
    /// By the task that is named, of each task that reaches the services.
    pub services: List<List<Services>>,
    /// By the task for which sections are.
    pub levels: List<Level>,
}

/// Costs that runs keep, where no item has more instructions than `longest`, and no stretch more counts than `late`.
#[derive(Drop)]
pub struct RunCosts {
    pub costs: Costs,
    pub longest: u32,
    pub late: u32,
}

/// How a window begins.
#[derive(Clone, Copy)]
pub enum Start {
    /// Something of a lower task, or a tick, is under way.
    Free,
    /// The system starts.
    Boot,
    /// A lower task, or the task itself as it leaves, activates this task.
    Activation(usize),
    /// A lower task, or the task itself, sets events of this task.
    Setting(usize),
    /// This lower task is raised.
    Section(usize),
    /// A round of this lower task is under way, which is not preemptable, and further ones may follow.
    Round(usize),
}

/// A window.
#[derive(Clone, Copy)]
pub struct Window {
    /// The task whose response is looked for, with all of at least its priority; none: all tasks are counted.
    pub target: Option<usize>,
    pub start: Start,
    /// The counts in front, which no task of the level has.
    pub front: u64,
    /// Within how many counts arrivals are counted; none: within those of the window.
    pub span: Option<u64>,
}

/// How often a task is made Ready.
#[derive(Clone, Copy)]
pub struct Made {
    pub activations: u64,
    /// By setting its events.
    pub settings: u64,
}

impl Made {
    /// So many times.
    pub fn new(activations: u64, settings: u64) -> Made
        ensures { result ≡ record { activations = activations; settings = settings } }
    {
        Made {
            activations,
            settings,
        }
    }
}

/// Never.
pub const NEVER: Made = Made {
    activations: 0,
    settings: 0,
};

/// Which makings of a task count.
#[derive(Clone, Copy)]
pub enum Rule {
    /// None: it is lower, or never comes.
    Out,
    /// Each setting of its events: it is lower, and a round of it is under way.
    Settings,
    /// Each.
    Each,
    /// One.
    Once,
}

/// A window of a start, and its number.
#[derive(Clone, Copy)]
pub struct Longest {
    /// Within how many counts the task leaves in it: 0 where nothing makes it Ready.
    pub number: u32,
    pub start: Start,
    /// It opens with the event of its start; else with admissions in front of a service.
    pub opens: bool,
}

/// The number of a window, if there is one.
pub fn number_of(window: Option<Longest>) -> Option<u32>
    ensures { result ≡ number_of window }
{
    Some(window?.number)
}

/// Something without a number, of a level.
#[derive(Clone, Copy)]
pub enum Untold {
    /// Rounds of this task.
    Rounds(usize),
    /// How often rounds of the first task make the second one Ready.
    Makings(usize, usize),
    /// Sections of this lower task.
    Section(usize),
    /// How often they make some task of the level Ready.
    SectionMakings(usize),
}

fn is_told(number: Option<u32>) -> bool
    ensures { result ≡ is_told number }
{
    reckoned(number) < ENDLESS
}

fn unless_told(told: bool, thing: Untold) -> Option<Untold>
    ensures { result ≡ cond told None (Some thing) }
{
    if told { None } else { Some(thing) }
}

// Rounds of task k, where they are not left out.
fn untold_rounds(costs: &Costs, out: bool, k: usize) -> Option<Untold>
    ensures { result ≡ cond out None (untold_rounds costs.now k) }
{
    let task = task(costs, k);
    let told = is_told(task.first) && is_told(task.next);
    unless_told(out || told, Untold::Rounds(k))
}

// How often they make task j Ready, where that is not left out.
fn untold_making(costs: &Costs, out: bool, k: usize, j: usize) -> Option<Untold>
    ensures { result ≡ cond out None (untold_making costs.now k j) }
{
    let m = making(costs, k, j);
    let next = is_told(m.next_activations) && is_told(m.next_settings);
    let told = is_told(m.first_activations) && (is_told(m.first_settings) && next);
    unless_told(out || told, Untold::Makings(k, j))
}

fn level_makings(costs: &Costs, h: usize, k: usize) -> Option<Untold>
    ensures { result ≡ level_makings costs.now h k }
{
    let mut found = None;
    for j in 0..costs.tasks.items().len() {
        let out = is_left_out(costs, h, k) || is_lower(costs, h, j);
        found = found.or(untold_making(costs, out, k, j));
    }
    found
}

// Of a lower task whose rounds join: how often they make one of the level Ready, or itself, and the level makes it.
fn untold_joined(costs: &Costs, h: usize, k: usize) -> Option<Untold>
    ensures { result ≡ untold_joined costs.now h k }
{
    let mut makings = None;
    let mut makers = None;
    for j in 0..costs.tasks.items().len() {
        let out = is_lower(costs, h, j) && k != j;
        makings = makings.or(untold_making(costs, out, k, j));
        makers = makers.or(untold_making(costs, is_left_out(costs, h, j), j, k));
    }
    untold_rounds(costs, false, k).or(makings.or(makers))
}

// Of one whose sections count.
fn untold_apart(costs: &Costs, h: usize, k: usize) -> Option<Untold>
    ensures { result ≡ untold_apart costs.now h k }
{
    let mut makings = None;
    for j in 0..costs.tasks.items().len() {
        let made = section_making(costs, h, k, j);
        let told = is_told(made.activations) && is_told(made.settings);
        makings = makings.or(unless_told(is_lower(costs, h, j) || told, Untold::SectionMakings(k)));
    }
    unless_told(is_told(section_counts(costs, h, k)), Untold::Section(k)).or(makings)
}

fn untold_lower(costs: &Costs, h: usize, k: usize) -> Option<Untold>
    ensures { result ≡ untold_lower costs.now h k }
{
    if is_joined(costs, h, k) {
        untold_joined(costs, h, k)
    } else if is_apart(costs, h, k) {
        untold_apart(costs, h, k)
    } else {
        None
    }
}

/// The first that has no number, of all that the windows of a task are computed from: rounds of its level, how often
/// they make tasks of it Ready, by the task that makes them first, and for each lower task in turn its sections, and
/// how often they make tasks of the level Ready; or its rounds, if they join, and how often these make such tasks and
/// it Ready, and the level makes it Ready.
pub fn first_untold(costs: &Costs, h: usize) -> Option<Untold>
    ensures is { result ≡ first_untold costs.now h }
    ensures inside { (u : Untold) → result ≡ Some u → IsInside (length costs.now.tasks) u }
{
    let mut rounds = None;
    let mut makings = None;
    let mut lower = None;
    for k in 0..costs.tasks.items().len() {
        let out = is_left_out(costs, h, k);
        rounds = rounds.or(untold_rounds(costs, out, k));
        makings = makings.or(level_makings(costs, h, k));
        lower = lower.or(untold_lower(costs, h, k));
    }
    rounds.or(makings.or(lower))
}
