//! What a service does, those on alarms too.
ghost use Rattle.std.specs.Prelude.{◌≡◌, ◌<◌, ◌==◌, Some, None, length, ◌≤◌};
ghost use Rattle.osek_scheduler.specs.State.{task, alarm, counter};
ghost use Rattle.osek_scheduler.specs.Services.{if_suspended, is_there, state_number, allows_absolute, allows_cycle};
ghost use Rattle.osek_scheduler.specs.Services.{allows_relative, is_in_use};
ghost use Rattle.osek_machine.specs.Clocked.{IsClocked};
ghost use Rattle.osek_scheduler.specs.Outcomes.{plan, other_decision, plan_in, alarm_setting_decision, value_decision};
ghost use Rattle.osek_scheduler.specs.Outcomes.{alarm_use_decision};
ghost use Rattle.osek_machine.specs.Plans.{service_plan};
ghost use Rattle.osek_machine.specs.Running.{call_in, call_plan};
ghost use Rattle.sloth_base.specs.Named.{alarm_declaration, counter_of};
ghost use Rattle.sloth_base.specs.Ticks.{ticks_to};

use crate::room::TaskRoom;
use crate::{Store, is_suspended};
use osek_scheduler::{Other, Plan, TaskChange, TaskState};
use sloth_base::{
    Call, Config, E_OK, E_OS_LIMIT, E_OS_NOFUNC, E_OS_STATE, E_OS_VALUE, ObjectKind, Op,
    RES_SCHEDULER, Reg, Service,
};

// The state of a task; one that is not there is Suspended.
fn task_state(store: &Store, t: u32) -> TaskState
    ensures { result ≡ (task store.now t).state }
{
    let place = t as usize;
    if place < store.count() {
        return store.task(place).state();
    }
    TaskState::Suspended
}

fn task_events(store: &Store, t: u32) -> u32
    ensures { result ≡ (task store.now t).events }
{
    let place = t as usize;
    if place < store.count() {
        return store.task(place).events;
    }
    0
}

/// What is shown behind a change of the caller, if it goes on, and what is done besides.
pub fn plan(answer: Option<u32>, change: TaskChange, other: Other) -> Plan
    ensures { result ≡ plan answer change other }
{
    Plan {
        answer,
        change,
        other,
    }
}

/// A change of the caller alone, with a status.
pub fn answers(status: u32, change: TaskChange) -> Plan
    ensures { result ≡ plan (Some status) change Other.Nothing }
{
    plan(Some(status), change, Other::Nothing)
}

/// The caller goes on with a status, and nothing is done besides.
pub fn goes_on(status: u32) -> Plan
    ensures { result ≡ plan (Some status) (TaskChange.Answer status) Other.Nothing }
{
    continues(status, Other::Nothing)
}

/// The caller goes on with a status, after what is done besides.
pub fn continues(status: u32, other: Other) -> Plan
    ensures { result ≡ plan (Some status) (TaskChange.Answer status) other }
{
    plan(Some(status), TaskChange::Answer(status), other)
}

// One of two plans: where a task is Suspended, or else.
fn by_state(store: &Store, t: u32, suspended: Plan, other: Plan) -> Plan
    ensures { result ≡ if_suspended (task store.now t).state suspended other }
{
    if is_suspended(task_state(store, t)) {
        suspended
    } else {
        other
    }
}

// The number of a task's state: running 0, waiting 1, ready or preempted 2, suspended 3.
fn state_number(caller: u32, t: u32, state: TaskState) -> u32
    ensures { result ≡ state_number caller t state }
{
    match state {
        TaskState::Suspended => 3,
        TaskState::Ready => 2,
        TaskState::Active => if t == caller { 0 } else { 2 },
        TaskState::Waiting(_) => 1,
    }
}

fn service_plan(config: &Config, store: &Store, service: Service, caller: u32, call: &Call) -> Plan
    requires there { caller < length store.now.tasks }
    requires clocked { IsClocked config.now store.now }
    ensures { result ≡ service_plan config.now service call.now.object call.now.mask caller store.now }
{
    let (object, mask) = (call.object, call.mask);
    let task = store.task(caller as usize);
    let (first, second) = (task.register(Reg(10)), task.register(Reg(11)));
    match service {
        Service::ActivateTask => {
            let activates = continues(E_OK, Other::Activate(object));
            by_state(store, object, activates, goes_on(E_OS_LIMIT))
        }
        Service::TerminateTask => plan(None, TaskChange::End, Other::Nothing),
        Service::ChainTask if object == caller => {
            plan(None, TaskChange::End, Other::Activate(caller))
        }
        Service::ChainTask => {
            let chains = plan(None, TaskChange::End, Other::Activate(object));
            by_state(store, object, chains, goes_on(E_OS_LIMIT))
        }
        Service::Schedule => answers(E_OK, TaskChange::Pause),
        Service::GetTaskID => answers(E_OK, TaskChange::AnswerWith(caller)),
        Service::GetTaskState => {
            let number = state_number(caller, object, task_state(store, object));
            answers(E_OK, TaskChange::AnswerWith(number))
        }
        Service::GetResource => answers(E_OK, TaskChange::Take(object)),
        Service::ReleaseResource => answers(E_OK, TaskChange::Release),
        Service::SetEvent => {
            let sets = continues(E_OK, Other::AddEvents { task: object, mask });
            by_state(store, object, goes_on(E_OS_STATE), sets)
        }
        Service::ClearEvent => answers(E_OK, TaskChange::ClearEvents(mask)),
        Service::GetEvent => {
            let gets = answers(E_OK, TaskChange::AnswerWith(task_events(store, object)));
            by_state(store, object, goes_on(E_OS_STATE), gets)
        }
        Service::WaitEvent if task.events & mask == 0 => {
            plan(None, TaskChange::Wait(mask), Other::Nothing)
        }
        Service::WaitEvent => goes_on(E_OK),
        Service::SetRelAlarm => set_relative(config, store, object, first, second),
        Service::SetAbsAlarm => set_absolute(config, store, object, first, second),
        Service::CancelAlarm => cancel_alarm(store, object),
        Service::GetAlarm => get_alarm(store, object),
    }
}

fn is_there(config: &Config, task: &TaskRoom, service: Service, object: u32) -> bool
    ensures { result ≡ is_there config.now task.now.held service object }
{
    if service.is(Service::ReleaseResource) {
        return task.held.is_last(object);
    }
    match service.object_kind() {
        ObjectKind::Nothing => true,
        ObjectKind::Task => (object as usize) < config.tasks.items().len(),
        ObjectKind::Resource if object == RES_SCHEDULER => config.res_scheduler,
        ObjectKind::Resource => (object as usize) < config.resources.items().len(),
        ObjectKind::Alarm => (object as usize) < config.alarms.items().len(),
    }
}

/// The call that an operation is.
pub fn call_in(op: &Op) -> Option<Call>
    ensures { result ≡ call_in op.now }
{
    match *op {
        Op::Serve(call) => Some(call),
        _ => None,
    }
}

/// The plan of a call of a service by a task, where what it names is there.
pub fn call_plan(config: &Config, store: &Store, kind: Service, t: u32, call: &Call) -> Option<Plan>
    requires there { t < length store.now.tasks }
    requires clocked { IsClocked config.now store.now }
    ensures { result ≡ call_plan config.now kind t store.now call.now }
{
    let there = is_there(config, store.task(t as usize), kind, call.object);
    if call.service.code() != kind.code() || !there {
        return None;
    }
    Some(service_plan(config, store, kind, t, call))
}

fn is_in_use(store: &Store, a: u32) -> bool
    ensures { result ≡ is_in_use store.now a }
{
    store.alarm(a as usize).left != 0
}

fn counter_number(config: &Config, a: u32) -> u32
    ensures { result ≡ (alarm_declaration config.now a).counter }
{
    match config.alarms.items().get(a as usize) {
        Some(alarm) => alarm.counter,
        None => 0,
    }
}

fn greatest_value(config: &Config, a: u32) -> u32
    ensures { result ≡ (counter_of config.now a).max }
{
    let number = counter_number(config, a) as usize;
    match config.counters.items().get(number) {
        Some(counter) => counter.max,
        None => 0,
    }
}

fn allows_cycle(config: &Config, a: u32, cycle: u32) -> bool
    ensures { result ≡ allows_cycle (counter_of config.now a) cycle }
{
    let number = counter_number(config, a) as usize;
    let least = match config.counters.items().get(number) {
        Some(counter) => counter.min_cycle,
        None => 0,
    };
    cycle == 0 || (least <= cycle && cycle <= greatest_value(config, a))
}

fn set_alarm(alarm: u32, left: u32, cycle: u32) -> Plan
    ensures { result ≡ plan (Some E_OK) (TaskChange.Answer E_OK) (Other.SetAlarm alarm left cycle) }
{
    continues(E_OK, Other::SetAlarm { alarm, left, cycle })
}

/// SetRelAlarm.
pub fn set_relative(config: &Config, store: &Store, a: u32, ticks: u32, cycle: u32) -> Plan
    ensures { result ≡ plan_in store.now (alarm_setting_decision a
        (allows_relative (counter_of config.now a) ticks cycle) ticks cycle store.now) }
{
    if is_in_use(store, a) {
        return goes_on(E_OS_STATE);
    }
    let allowed = ticks != 0
        && ticks <= greatest_value(config, a)
        && allows_cycle(config, a, cycle);
    if !allowed {
        return goes_on(E_OS_VALUE);
    }
    set_alarm(a, ticks, cycle)
}

/// SetAbsAlarm.
pub fn set_absolute(config: &Config, store: &Store, a: u32, start: u32, cycle: u32) -> Plan
    requires small { (counter_of config.now a).max < 2147483648 }
    requires value { (counter store.now (alarm_declaration config.now a).counter).value
        ≤ (counter_of config.now a).max }
    ensures { result ≡ plan_in store.now (alarm_setting_decision a
        (allows_absolute (counter_of config.now a) start cycle)
        (ticks_to (counter_of config.now a).max (counter store.now (alarm_declaration config.now a).counter).value
        start) cycle store.now) }
{
    if is_in_use(store, a) {
        return goes_on(E_OS_STATE);
    }
    let allowed = start <= greatest_value(config, a) && allows_cycle(config, a, cycle);
    if !allowed {
        return goes_on(E_OS_VALUE);
    }
    let value = store.counter(counter_number(config, a) as usize).value;
    if value < start {
        return set_alarm(a, start - value, cycle);
    }
    set_alarm(a, start + (greatest_value(config, a) + 1) - value, cycle)
}

/// CancelAlarm.
pub fn cancel_alarm(store: &Store, a: u32) -> Plan
    ensures { result ≡ plan_in store.now (alarm_use_decision a
        (other_decision (Other.SetAlarm a 0 (alarm store.now a).cycle)) store.now) }
{
    if is_in_use(store, a) {
        return set_alarm(a, 0, store.alarm(a as usize).cycle);
    }
    goes_on(E_OS_NOFUNC)
}

/// GetAlarm.
pub fn get_alarm(store: &Store, a: u32) -> Plan
    ensures { result ≡ plan_in store.now (alarm_use_decision a (value_decision (alarm store.now a).left) store.now) }
{
    if is_in_use(store, a) {
        return answers(E_OK, TaskChange::AnswerWith(store.alarm(a as usize).left));
    }
    goes_on(E_OS_NOFUNC)
}
