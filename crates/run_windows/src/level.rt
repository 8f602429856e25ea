//! Which makings of a task count in a window, what a start makes, and the counts in front of windows.
ghost use Rattle.std.specs.Prelude.{◌≡◌, ◌≤◌, ◌&&◌};
ghost use Rattle.run_windows.specs.Costs.{greatest_sum, reckoned, task, comes, making, makers, section_making};
ghost use Rattle.run_windows.specs.Costs.{section, joins, lesser, section_counts};
ghost use Rattle.run_windows.specs.Windows.{is_lower, is_left_out, is_round, rule_of, counted, greater};
ghost use Rattle.run_windows.specs.Windows.{begun, is_boot};
ghost use Rattle.run_windows.specs.RunWindows.{is_joined, is_apart, call_path, may_serve, services_front, makes};
ghost use Rattle.run_windows.specs.RunWindows.{services_of, is_made_in_front, activation_front, setting_front};
ghost use Rattle.run_windows.specs.RunWindows.{start_counts, start_service, front_of};

use crate::costs::{NEVER, Rule, Window};
use crate::rounds::reckoned;
use crate::{Costs, Made, Makings, SectionCosts, SectionMakings, Services, Start, TaskCosts};
use code_lengths::{leaving_path, served_path};
use sloth_base::Service;

/// A task; nothing behind the last one.
pub fn task(costs: &Costs, t: usize) -> TaskCosts
    ensures { result ≡ task costs.now t }
{
    let none = TaskCosts {
        priority: 0,
        is_entered_once: false,
        is_autostarted: false,
        is_cut: false,
        has_raised_waits: false,
        distance: None,
        first: Some(0),
        next: Some(0),
        raising: 0,
        section_work: None,
        service: 0,
    };
    costs.tasks.items().get(t).copied().unwrap_or(none)
}

/// The makings of a task, by the task that makes it.
pub fn makers(costs: &Costs, j: usize) -> &[Makings]
    ensures { result.now ≡ makers costs.now j }
{
    match costs.makings.items().get(j) {
        Some(makers) => makers.items(),
        None => &[],
    }
}

/// The makings of task j by task k.
pub fn making(costs: &Costs, k: usize, j: usize) -> Makings
    ensures { result ≡ making costs.now k j }
{
    let none = Makings {
        first_activations: Some(0),
        first_settings: Some(0),
        next_activations: Some(0),
        next_settings: Some(0),
    };
    makers(costs, j).get(k).copied().unwrap_or(none)
}

/// How often the sections of task k for task h make task j.
pub fn section_making(costs: &Costs, h: usize, k: usize, j: usize) -> SectionMakings
    ensures { result ≡ section_making costs.now h k j }
{
    let none = SectionMakings {
        activations: Some(0),
        settings: Some(0),
    };
    match costs.levels.items().get(h) {
        Some(level) => match level.makings.items().get(j) {
            Some(makers) => makers.items().get(k).copied().unwrap_or(none),
            None => none,
        },
        None => none,
    }
}

/// Whether k is lower than h.
pub fn is_lower(costs: &Costs, h: usize, k: usize) -> bool
    ensures { result ≡ is_lower costs.now h k }
{
    task(costs, k).priority < task(costs, h).priority
}

/// Whether something may make a task Ready.
pub fn comes(costs: &Costs, t: usize) -> bool
    ensures { result ≡ comes costs.now t }
{
    costs.comes.items().get(t).copied().unwrap_or(false)
}

/// Whether a task has no rounds in windows of h: it is lower, or never comes.
pub fn is_left_out(costs: &Costs, h: usize, k: usize) -> bool
    ensures { result ≡ is_left_out costs.now h k }
{
    is_lower(costs, h, k) || !comes(costs, k)
}

/// Whether a window begins in a round of task j.
pub fn is_round(start: Start, j: usize) -> bool
    ensures { result ≡ is_round start j }
{
    matches!(start, Start::Round(k) if k == j)
}

/// Which makings of a task count in a window.
pub fn rule_of(costs: &Costs, window: &Window, j: usize) -> Rule
    ensures { result ≡ rule_of costs.now window.now j }
{
    let Some(h) = window.target else {
        return Rule::Each;
    };
    if is_left_out(costs, h, j) {
        if is_round(window.start, j) {
            Rule::Settings
        } else {
            Rule::Out
        }
    } else if j == h && task(costs, h).is_entered_once {
        Rule::Once
    } else {
        Rule::Each
    }
}

/// Of so many activations and settings those that count.
pub fn counted(rule: Rule, activations: u64, settings: u64) -> Made
    ensures { result ≡ counted rule activations settings }
{
    match rule {
        Rule::Out => NEVER,
        Rule::Settings => Made::new(0, settings),
        Rule::Each => Made::new(activations, settings),
        Rule::Once => Made::new(activations.max(settings).min(1), 0),
    }
}

/// The greater of two greatest numbers.
pub fn greater(one: Option<u32>, other: Option<u32>) -> u64
    ensures is { result ≡ greater one other }
    ensures short { result ≤ greatest_sum }
{
    reckoned(one).max(reckoned(other))
}

/// What the start of a window makes of a task.
pub fn begun(costs: &Costs, window: &Window, j: usize) -> Made
    ensures { result ≡ begun costs.now window.now j }
{
    match window.start {
        Start::Free => NEVER,
        Start::Boot => Made::new(u64::from(task(costs, j).is_autostarted), 0),
        Start::Activation(t) => Made::new(u64::from(t == j), 0),
        Start::Setting(t) => Made::new(0, u64::from(t == j)),
        Start::Section(k) => {
            let made = section_making(costs, window.target.unwrap_or(0), k, j);
            Made::new(reckoned(made.activations), reckoned(made.settings))
        }
        Start::Round(k) => {
            let makings = making(costs, k, j);
            let settings = greater(makings.first_settings, makings.next_settings);
            let activations = greater(makings.first_activations, makings.next_activations);
            Made::new(activations, settings + u64::from(k == j))
        }
    }
}

/// Whether a window begins with the system.
pub fn is_boot(start: Start) -> bool
    ensures { result ≡ is_boot start }
{
    matches!(start, Start::Boot)
}

/// How a task may be made Ready in front of a window: by ActivateTask, ChainTask or SetEvent.
#[derive(Clone, Copy)]
pub enum Way {
    Activation,
    Chain,
    Setting,
}

/// Whether task k may serve in front of a window of h: it comes and is lower, or is h itself, which is entered once.
pub fn may_serve(costs: &Costs, h: usize, k: usize) -> bool
    ensures { result ≡ may_serve costs.now h k }
{
    comes(costs, k) && (is_lower(costs, h, k) || (k == h && task(costs, h).is_entered_once))
}

/// The counts of the longest way of a service, with the item of its call.
pub fn call_path(service: Service) -> u32
    ensures { result ≡ call_path service }
{
    let words = if service.has_mask() { 3 } else { 1 };
    words + served_path(service).max(leaving_path(service, false))
}

/// The longest service of a task that may serve.
pub fn services_front(costs: &Costs, h: usize) -> u32
    ensures { result ≡ services_front costs.now h 0 costs.now.tasks }
{
    let mut most: u32 = 0;
    for (k, task) in costs.tasks.items().iter().enumerate() {
        if may_serve(costs, h, k) {
            most = most.max(task.service);
        }
    }
    most
}

fn services_of(costs: &Costs, j: usize) -> &[Services]
    ensures { result.now ≡ services_of costs.now j }
{
    match costs.services.items().get(j) {
        Some(services) => services.items(),
        None => &[],
    }
}

// Whether it makes one Ready in this way, where it may serve.
fn makes(way: Way, serves: bool, services: &Services) -> bool
    ensures { result ≡ (serves && makes way services.now) }
{
    serves
        && match way {
            Way::Activation => services.activates,
            Way::Chain => services.chains,
            Way::Setting => services.sets_events,
        }
}

// Whether some task that may serve makes a task Ready in a way, which these services name.
fn is_made_in_front(way: Way, costs: &Costs, h: usize, services: &[Services]) -> bool
    ensures { result ≡ is_made_in_front way costs.now h 0 services.now }
{
    for (k, service) in services.iter().enumerate() {
        if makes(way, may_serve(costs, h, k), service) {
            return true;
        }
    }
    false
}

/// The longest service by which a task is activated in front of a window of h; 0 where it is not.
pub fn activation_front(costs: &Costs, h: usize, j: usize) -> u32
    ensures { result ≡ activation_front costs.now h j }
{
    if is_made_in_front(Way::Chain, costs, h, services_of(costs, j)) {
        call_path(Service::ChainTask)
    } else if is_made_in_front(Way::Activation, costs, h, services_of(costs, j)) {
        call_path(Service::ActivateTask)
    } else {
        0
    }
}

/// That by which its events are set.
pub fn setting_front(costs: &Costs, h: usize, j: usize) -> u32
    ensures { result ≡ setting_front costs.now h j }
{
    if is_made_in_front(Way::Setting, costs, h, services_of(costs, j)) {
        call_path(Service::SetEvent)
    } else {
        0
    }
}

/// The sections of task k for task h.
pub fn section(costs: &Costs, h: usize, k: usize) -> SectionCosts
    ensures { result ≡ section costs.now h k }
{
    let none = SectionCosts {
        exists: false,
        is_endless: false,
        counts: Some(0),
    };
    match costs.levels.items().get(h) {
        Some(level) => level.sections.items().get(k).copied().unwrap_or(none),
        None => none,
    }
}

// Whether rounds of task k join windows of task h: sections of it have no end, but wait.
fn joins(costs: &Costs, h: usize, k: usize) -> bool
    ensures { result ≡ joins costs.now h k }
{
    task(costs, k).has_raised_waits && section(costs, h, k).is_endless
}

/// Whether they do, of a lower task that comes.
pub fn is_joined(costs: &Costs, h: usize, k: usize) -> bool
    ensures { result ≡ is_joined costs.now h k }
{
    is_lower(costs, h, k) && comes(costs, k) && joins(costs, h, k)
}

/// Whether its sections count in their place.
pub fn is_apart(costs: &Costs, h: usize, k: usize) -> bool
    ensures { result ≡ is_apart costs.now h k }
{
    is_lower(costs, h, k) && comes(costs, k) && !joins(costs, h, k)
}

/// The lesser of two greatest numbers, if there is one.
pub fn lesser(work: Option<u32>, sum: Option<u32>) -> Option<u32>
    ensures { result ≡ lesser work sum }
{
    match (work, sum) {
        (Some(own), Some(counts)) => Some(own.min(counts)),
        (Some(_), None) => work,
        (None, _) => sum,
    }
}

/// The counts of the longest section of task k for task h.
pub fn section_counts(costs: &Costs, h: usize, k: usize) -> Option<u32>
    ensures { result ≡ section_counts costs.now h k }
{
    lesser(task(costs, k).section_work, section(costs, h, k).counts)
}

/// The counts of other tasks with which a start begins.
pub fn start_counts(costs: &Costs, h: usize, start: Start) -> u64
    ensures is { result ≡ start_counts costs.now h start }
    ensures short { result ≤ greatest_sum }
{
    match start {
        Start::Section(k) => reckoned(section_counts(costs, h, k)),
        Start::Round(k) => greater(task(costs, k).first, task(costs, k).next),
        Start::Free | Start::Boot | Start::Activation(_) | Start::Setting(_) => 0,
    }
}

/// The counts of the service of a start, behind admissions that came while it was running.
pub fn start_service(costs: &Costs, h: usize, start: Start) -> u32
    ensures { result ≡ start_service costs.now h start }
{
    match start {
        Start::Free => services_front(costs, h),
        Start::Boot | Start::Round(_) => 0,
        Start::Activation(j) => activation_front(costs, h, j),
        Start::Setting(j) => setting_front(costs, h, j),
        Start::Section(k) => task(costs, k).raising,
    }
}

/// Those of other tasks in front of a window of h that opens with the event of its start; or with admissions in front
/// of a service.
pub fn front_of(costs: &Costs, h: usize, opens: bool, start: Start) -> u64
    ensures is { result ≡ front_of opens costs.now h start }
    ensures short { result ≤ 12294967296 }
{
    let counts = start_counts(costs, h, start);
    if opens {
        counts
    } else {
        counts + u64::from(start_service(costs, h, start))
    }
}
