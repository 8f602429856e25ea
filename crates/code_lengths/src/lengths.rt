//! How many instructions each piece of generated code has. How many instructions generated code executes at most.
ghost use Rattle.std.specs.Prelude.{◌≡◌, ◌<◌, ◌≤◌, ◌*◌, ◌↔◌, ℕ, All, IsTrue, length, ◌+◌, ◌==◌, cond};
ghost use Rattle.sloth_base.specs.Blocks.{block_count};
ghost use Rattle.sloth_base.specs.Limits.{task_limit, counter_limit, frame_limit, alarm_limit};
ghost use Rattle.code_lengths.specs.Bodies.{IsBodyPlace};
ghost use Rattle.code_lengths.specs.CodeLengths.{lines_length, boot_length, prologue_length, service_counts, service_length, block_length, IsPrologueLength, sets_events_of, is_looked_at, action_length, tick_length};
ghost use Rattle.code_lengths.specs.LongestPaths.{going_path, leaving_path, served_path, entry_path, tick_path, boot_path};

use sloth_base::{Action, AlarmDecl, App, Config, Func, Service, TaskDecl, TaskId, block_service};

// The instructions of boot that start a counter, or a task that is not autostarted.
const LINE: u32 = 3;

/// How many instructions of boot start these tasks.
fn lines_length(tasks: &[TaskDecl]) -> u32
    requires { length tasks.now ≤ task_limit }
    ensures is { result ≡ lines_length tasks.now }
    ensures short { result ≤ 4 * length tasks.now }
{
    let mut total = 0;
    for task in tasks {
        total += LINE + u32::from(task.autostart);
    }
    total
}

/// How many instructions boot of these tasks and of so many counters has.
pub fn boot_length(tasks: &[TaskDecl], counters: u32) -> u32
    requires { (length tasks.now ≤ task_limit) × (counters ≤ counter_limit) }
    ensures is { result ≡ boot_length tasks.now counters }
    ensures short { result ≤ 136 }
{
    10 + lines_length(tasks) + LINE * counters
}

/// How many instructions a prologue has, of an extended task or of a basic one, whose body has so many frame words.
pub fn prologue_length(extended: bool, words: u32) -> u32
    requires { words ≤ frame_limit }
    ensures is { result ≡ prologue_length extended words }
{
    if extended { 108 + words } else { 73 + words }
}

/// How many instructions the prologue of a task has.
pub fn start_length(task: TaskId, config: &Config, app: &App) -> u32
    requires exists { task < length config.now.tasks }
    requires body { (body : ℕ) × IsBodyPlace app.now.funcs task body }
    requires frames { All (λ func. func.frame_words ≤ frame_limit) app.now.funcs }
    ensures { IsPrologueLength task config.now app.now result }
{
    let body = body_of(app.funcs.items(), task);
    let words = app.funcs.items()[body].frame_words;
    prologue_length(config.tasks.items()[task.0 as usize].extended, words)
}

/// The instructions of a service's code, whatever its object.
#[derive(Clone, Copy)]
pub struct ServiceCounts {
    /// All of them.
    pub all: u32,
    /// Those of its longest path behind which its caller goes on; 0 where it never does.
    pub going: u32,
}

fn counts(all: u32, going: u32) -> ServiceCounts
    ensures { result ≡ record { all = all; going = going } }
{
    ServiceCounts { all, going }
}

/// The instructions of a service's code, of each service.
pub fn service_counts(service: Service) -> ServiceCounts
    ensures { result ≡ service_counts service }
{
    match service {
        Service::ActivateTask => counts(12, 12),
        Service::TerminateTask => counts(49, 0),
        Service::ChainTask => counts(63, 13),
        Service::Schedule => counts(13, 9),
        Service::GetTaskID => counts(6, 6),
        Service::GetTaskState => counts(17, 11),
        Service::GetResource => counts(9, 9),
        Service::ReleaseResource => counts(6, 6),
        Service::SetEvent => counts(20, 20),
        Service::ClearEvent => counts(13, 13),
        Service::GetEvent => counts(12, 12),
        Service::WaitEvent => counts(90, 13),
        Service::SetRelAlarm => counts(23, 17),
        Service::SetAbsAlarm => counts(28, 22),
        Service::CancelAlarm | Service::GetAlarm => counts(8, 8),
    }
}

/// How many instructions the code of a service has, whatever its object.
pub fn service_length(service: Service) -> u32
    ensures { result ≡ service_length service }
{
    service_counts(service).all
}

/// How many instructions the code of the service has that stands at a place in the table of blocks.
pub fn block_length(number: usize) -> u32
    requires { number < block_count }
    ensures { result ≡ block_length number }
{
    block_service(number).map_or(0, |service| service_length(service))
}

/// The place of the task's body among these functions. There is one.
pub fn body_of(funcs: &[Func], task: TaskId) -> usize
    requires { (body : ℕ) × IsBodyPlace funcs.now task body }
    ensures { IsBodyPlace funcs.now task result }
{
    for i in 0..funcs.len() {
        if is_task_body(&funcs[i], task) {
            return i;
        }
    }
    0
}

fn is_task_body(func: &Func, task: TaskId) -> bool
    ensures { IsTrue result ↔ (func.now.task ≡ Some task) }
{
    matches!(func.task, Some(owner) if owner.0 == task.0)
}

/// Whether an action sets events of this task.
pub fn sets_events_of(task: TaskId, action: &Action) -> bool
    ensures { result ≡ sets_events_of task action.now }
{
    matches!(*action, Action::Set(other, _) if other.0 == task.0)
}

// Whether one of these alarms is the counter's and sets events of the task.
fn is_looked_at(counter: u32, task: TaskId, alarms: &[AlarmDecl]) -> bool
    ensures { result ≡ is_looked_at counter task alarms.now }
{
    alarms.iter().any(|alarm| alarm.counter == counter && sets_events_of(task, &alarm.action))
}

// How many instructions an alarm adds to the tick of a counter: none where it is another's. The last one that sets
// events of a task has ten more, the look at it.
fn alarm_length(counter: u32, alarm: &AlarmDecl, later: &[AlarmDecl]) -> u32
    ensures is { result ≡ cond (alarm.now.counter == counter) (action_length counter alarm.now.action later.now) 0 }
    ensures short { result ≤ 34 }
{
    if alarm.counter != counter {
        return 0;
    }
    match alarm.action {
        Action::Activate(_) => 13,
        Action::Set(task, _) if is_looked_at(counter, task, later) => 24,
        Action::Set(..) => 34,
    }
}

/// How many instructions, each of one word, the tick of a counter has among these alarms, at most 32: from 11 to 1,099.
pub fn tick_length(counter: u32, alarms: &[AlarmDecl]) -> u32
    requires { length alarms.now ≤ alarm_limit }
    ensures is { result ≡ tick_length counter alarms.now }
    ensures short { result ≤ 11 + 34 * length alarms.now }
{
    let mut total = 11;
    for i in 0..alarms.len() {
        total += alarm_length(counter, &alarms[i], &alarms[i + 1..]);
    }
    total
}

/// The code of a service behind which its caller goes on; 0 where it never does.
pub fn going_path(service: Service) -> u32
    ensures is { result ≡ going_path service }
    ensures short { result ≤ 22 }
{
    service_counts(service).going
}

/// The code of a service with which its caller leaves, by whether it chains itself; 0 where it never does.
pub fn leaving_path(service: Service, itself: bool) -> u32
    ensures is { result ≡ leaving_path service itself }
    ensures short { result ≤ 86 }
{
    match service {
        Service::TerminateTask => 49,
        Service::ChainTask if itself => 54,
        Service::ChainTask => 60,
        Service::WaitEvent => 86,
        _ => 0,
    }
}

/// What a service adds to its caller's counts where the caller goes on, with the way back from Schedule.
pub fn served_path(service: Service) -> u32
    ensures is { result ≡ served_path service }
    ensures short { result ≤ 22 }
{
    match service {
        Service::Schedule => going_path(service) + 4,
        _ => going_path(service),
    }
}

/// The entry of a task, extended or not, that goes on behind a wait or starts anew, whose body has so many frame words.
pub fn entry_path(extended: bool, resumed: bool, words: u32) -> u32
    requires { words ≤ frame_limit }
    ensures is { result ≡ entry_path extended resumed words }
    ensures short { result ≤ 108 }
{
    match (extended, resumed) {
        (false, _) => 74 + words,
        (true, false) => 76 + words,
        (true, true) => 78,
    }
}

/// The tick of a counter, whose alarms all expire at once.
pub fn tick_path(config: &Config, counter: u32) -> u32
    requires { length config.now.alarms ≤ alarm_limit }
    ensures is { result ≡ tick_path config.now counter }
    ensures short { result ≤ 12 + 34 * length config.now.alarms }
{
    1 + tick_length(counter, config.alarms.items())
}

/// Boot.
pub fn boot_path(config: &Config) -> u32
    requires tasks { length config.now.tasks ≤ task_limit }
    requires counters { length config.now.counters ≤ counter_limit }
    ensures is { result ≡ boot_path config.now }
    ensures short { result ≤ 136 }
{
    boot_length(config.tasks.items(), config.counters.items().len() as u32)
}
