//! Which services tasks reach, by tops: whether walks come to what counts, under which ceiling. Which tasks come.
ghost use Rattle.std.specs.Prelude.{◌≡◌, ◌<◌, [], length, get_or, IfOk, ◌+◌, ◌&&◌, true, false, ltb, Decides};
ghost use Rattle.run_costs.specs.Services.{no_tops, AreNamingTops, AreAllNamingTops, AreServiceTops};
ghost use Rattle.run_costs.specs.Services.{services_by, reaches};
ghost use Rattle.run_costs.specs.CostsOf.{AreEach, AreServiceRow, AreServiceTable};
ghost use Rattle.run_costs.specs.Tops.{item_top, body_top, AreTops, AreTaskTops};
ghost use Rattle.run_costs.specs.Coming.{SomeReaches, IsUsed, MayActivate, SomeExpires, IsMade, marked, AreInAll};
ghost use Rattle.run_costs.specs.Coming.{AreComing, AreSettingTops, AreAllSettingTops, AreMakers, IsSettled};
ghost use Rattle.run_costs.specs.Coming.{unmarked, HasMarked};

use crate::record::{action_task, sets_events};
use bound_rules::{Body, is_marked, number_at};
use load_text::{Entry, distance_of};
use run_windows::Services;
use sloth_base::{FIRST_COUNTER_LINE, Func, List, Op, Result, Service};
use text_pieces::push;
use walk_sums::graph::no_marks;
use walk_sums::{Counted, Walks, is_ending_counted, numbered_body, numbered_function};

/// A list with an entry for each task, if there is memory.
pub type Row<T> = Result<List<T>>;

/// One of such lists.
pub type Table<T> = Row<List<T>>;

/// How tasks make one task Ready: the tops of each of them, by ActivateTask, ChainTask, either, and SetEvent.
#[derive(Drop)]
pub struct NamingTops {
    pub activation: List<u64>,
    pub chain: List<u64>,
    pub either: List<u64>,
    pub setting: List<u64>,
}

fn naming_tops(walks: &Walks, named: u32) -> Result<NamingTops>
    ensures { IfOk result (AreNamingTops walks.now.config walks.now.app named) }
{
    Ok(NamingTops {
        activation: task_tops(walks, Counted::CallsFor(Service::ActivateTask, named))?,
        chain: task_tops(walks, Counted::Chains(named))?,
        either: task_tops(walks, Counted::Activations(named))?,
        setting: task_tops(walks, Counted::Settings(named))?,
    })
}

/// Those of all tasks, by the task that is named.
pub fn all_naming_tops(walks: &Walks) -> Result<Vec<NamingTops>>
    ensures { IfOk result (λ all. AreAllNamingTops walks.now.config walks.now.app all.items) }
{
    let mut all = Vec::new(walks.alloc());
    for named in 0..walks.tasks() {
        let tops = naming_tops(walks, named as u32)?;
        push(&mut all, tops)?;
    }
    Ok(all)
}

fn reached_services(tops: &NamingTops, task: usize) -> Services
    ensures { result ≡ services_by tops.now task }
{
    Services {
        activates: 0 < numbered_top(tops.activation.items(), task),
        chains: 0 < numbered_top(tops.chain.items(), task),
        sets_events: 0 < numbered_top(tops.setting.items(), task),
    }
}

fn naming_services(walks: &Walks, tops: &NamingTops, named: usize) -> Row<Services>
    requires { AreNamingTops walks.now.config walks.now.app named tops.now }
    ensures { IfOk result (AreServiceRow walks.now.config walks.now.app named) }
{
    let mut row = Vec::new(walks.alloc());
    for task in 0..walks.tasks() {
        push(&mut row, reached_services(tops, task))?;
    }
    Ok(List::from_vec(row))
}

/// The tops by the task that is named.
pub fn numbered_tops(all: &[NamingTops], named: usize) -> &NamingTops
    requires { named < length all.now }
    ensures { result.now ≡ get_or all.now named no_tops }
{
    &all[named]
}

/// The services of all tasks, by the task that they name.
pub fn services(walks: &Walks, all: &[NamingTops]) -> Table<Services>
    requires { AreAllNamingTops walks.now.config walks.now.app all.now }
    ensures { IfOk result (AreServiceTable walks.now.config walks.now.app) }
{
    let mut table = Vec::new(walks.alloc());
    for named in 0..walks.tasks() {
        let row = naming_services(walks, numbered_tops(all, named), named)?;
        push(&mut table, row)?;
    }
    Ok(List::from_vec(table))
}

fn code_tops(walks: &Walks, code: u8) -> Row<u64>
    ensures { IfOk result (AreServiceTops walks.now.config walks.now.app code) }
{
    match Service::from_code(code) {
        Some(service) => task_tops(walks, Counted::Calls(service)),
        None => Ok(List::from_vec(Vec::new(walks.alloc()))),
    }
}

/// The tops of each service, by its code.
pub fn service_tops(walks: &Walks) -> Result<Vec<List<u64>>>
    ensures { IfOk result (λ all. AreEach 16 [] (AreServiceTops walks.now.config walks.now.app) all.items) }
{
    let mut all = Vec::new(walks.alloc());
    for code in 0..16 {
        let tops = code_tops(walks, code)?;
        push(&mut all, tops)?;
    }
    Ok(all)
}

/// Whether a task reaches a service.
pub fn reaches(all: &[List<u64>], service: Service, task: usize) -> bool
    ensures { result ≡ reaches all.now service task }
{
    let tops = all.get(usize::from(service.code()));
    tops.is_some_and(|tops| 0 < numbered_top(tops.items(), task))
}

/// The top of this number; 0 behind the last one.
pub fn numbered_top(table: &[u64], number: usize) -> u64
    ensures { result ≡ get_or table.now number 0 }
{
    table.get(number).copied().unwrap_or(0)
}

fn item_top(counted: Counted, func: &Func, body: &Body, table: &[u64], number: usize) -> u64
    requires { number < length func.now.items }
    ensures { result ≡ item_top counted func.now body.now table.now number }
{
    if !is_marked(body.reached.items(), number) {
        return 0;
    }
    let own = u64::from(number_at(body.ceilings.items(), number)) + 1;
    let op = func.items.items()[number].op;
    match op {
        Op::Invoke { func } => {
            let top = numbered_top(table, func.0 as usize);
            if top == 0 { 0 } else { top.max(own) }
        }
        _ if is_ending_counted(counted, op) => own,
        _ => 0,
    }
}

fn body_top(counted: Counted, func: &Func, body: &Body, table: &[u64]) -> u64
    ensures { result ≡ body_top counted func.now body.now table.now }
{
    let mut top = 0;
    for number in 0..func.items.items().len() {
        top = item_top(counted, func, body, table, number).max(top);
    }
    top
}

/// For each function one more than the greatest ceiling under which its walks come to what counts, 0 where none does.
fn function_tops(walks: &Walks, counted: Counted) -> Result<Vec<u64>>
    ensures { IfOk result (λ table. AreTops walks.now.config walks.now.app counted table.items) }
{
    let app = walks.app();
    let bodies = walks.bodies();
    let mut table = Vec::from_elem(walks.alloc(), 0, app.funcs.items().len())?;
    for number in walks.order() {
        let func = numbered_function(app, *number);
        let body = numbered_body(bodies, *number);
        let top = body_top(counted, func, body, &table);
        table[*number] = top;
    }
    Ok(table)
}

/// The same for each task.
pub fn task_tops(walks: &Walks, counted: Counted) -> Row<u64>
    ensures { IfOk result (AreTaskTops walks.now.config walks.now.app counted) }
{
    let table = function_tops(walks, counted)?;
    let mut tops = Vec::new(walks.alloc());
    for task in 0..walks.tasks() {
        push(&mut tops, numbered_top(&table, walks.body(task)))?;
    }
    Ok(List::from_vec(tops))
}

/// Which tasks set an alarm: the tops of each of them, by SetRelAlarm and by SetAbsAlarm.
#[derive(Drop)]
pub struct SettingTops {
    pub relative: List<u64>,
    pub absolute: List<u64>,
}

fn setting_tops(walks: &Walks, alarm: u32) -> Result<SettingTops>
    ensures { IfOk result (AreSettingTops walks.now.config walks.now.app alarm) }
{
    Ok(SettingTops {
        relative: task_tops(walks, Counted::CallsFor(Service::SetRelAlarm, alarm))?,
        absolute: task_tops(walks, Counted::CallsFor(Service::SetAbsAlarm, alarm))?,
    })
}

/// Those of all alarms.
pub fn all_setting_tops(walks: &Walks) -> Result<Vec<SettingTops>>
    ensures { IfOk result (λ all. AreAllSettingTops walks.now.config walks.now.app all.items) }
{
    let config = walks.config();
    let mut all = Vec::new(walks.alloc());
    for alarm in 0..config.alarms.items().len() {
        let tops = setting_tops(walks, alarm as u32)?;
        push(&mut all, tops)?;
    }
    Ok(all)
}

fn comes_and_reaches(marks: &[bool], tops: &[u64], task: usize) -> bool
    ensures { result ≡ (marked marks.now task && ltb 0 (get_or tops.now task 0)) }
{
    is_marked(marks, task) && 0 < numbered_top(tops, task)
}

fn is_reached(walks: &Walks, marks: &[bool], tops: &[u64], counted: Counted) -> bool
    requires { AreTaskTops walks.now.config walks.now.app counted tops.now }
    ensures { Decides result (SomeReaches walks.now.config walks.now.app (marked marks.now) counted) }
{
    for task in 0..walks.tasks() {
        if comes_and_reaches(marks, tops, task) {
            return true;
        }
    }
    false
}

/// What makes tasks come: arrivals, and the tops of what names them and of what sets alarms.
#[derive(Clone, Copy)]
pub struct Makers<'a> {
    load: &'a [Entry],
    naming: &'a [NamingTops],
    settings: &'a [SettingTops],
}

fn is_used(walks: &Walks, marks: &[bool], settings: &[SettingTops], alarm: usize) -> bool
    requires settings { AreAllSettingTops walks.now.config walks.now.app settings.now }
    requires inside { alarm < length walks.now.config.alarms }
    ensures { Decides result (IsUsed walks.now.config walks.now.app (marked marks.now) alarm) }
{
    let declared = &walks.config().alarms.items()[alarm];
    let tops = &settings[alarm];
    let relative = Counted::CallsFor(Service::SetRelAlarm, alarm as u32);
    let absolute = Counted::CallsFor(Service::SetAbsAlarm, alarm as u32);
    0 < declared.time
        || (is_reached(walks, marks, tops.relative.items(), relative)
            || is_reached(walks, marks, tops.absolute.items(), absolute))
}

// Whether an alarm that is used activates the task, on a counter that arrives.
fn expires(walks: &Walks, makers: &Makers, marks: &[bool], alarm: usize, named: usize) -> bool
    requires makers { AreMakers walks.now.config walks.now.app makers.now.naming.now makers.now.settings.now }
    requires inside { alarm < length walks.now.config.alarms }
    ensures { Decides result (MayActivate walks.now.config makers.now.load.now alarm named
        × IsUsed walks.now.config walks.now.app (marked marks.now) alarm) }
{
    let declared = &walks.config().alarms.items()[alarm];
    let arrives = distance_of(makers.load, FIRST_COUNTER_LINE + declared.counter as u8).is_some();
    let activates = !sets_events(&declared.action)
        && action_task(&declared.action) as usize == named;
    arrives && activates && is_used(walks, marks, makers.settings, alarm)
}

fn some_expires(walks: &Walks, makers: &Makers, marks: &[bool], named: usize) -> bool
    requires { AreMakers walks.now.config walks.now.app makers.now.naming.now makers.now.settings.now }
    ensures { Decides result (SomeExpires walks.now.config walks.now.app makers.now.load.now (marked marks.now) named) }
{
    for alarm in 0..walks.config().alarms.items().len() {
        if expires(walks, makers, marks, alarm, named) {
            return true;
        }
    }
    false
}

// Whether something makes the task, where those that are marked come.
fn is_made(walks: &Walks, makers: &Makers, marks: &[bool], task: usize) -> bool
    requires makers { AreMakers walks.now.config walks.now.app makers.now.naming.now makers.now.settings.now }
    requires inside { task < length walks.now.config.tasks }
    ensures { Decides result (IsMade walks.now.config walks.now.app makers.now.load.now (marked marks.now) task) }
{
    let either = numbered_tops(makers.naming, task).either.items();
    walks.task(task).autostart
        || (distance_of(makers.load, task as u8).is_some()
            || (is_reached(walks, marks, either, Counted::Activations(task as u32))
                || some_expires(walks, makers, marks, task)))
}

// Marks the task, if something makes it and it is not marked.
fn mark(walks: &Walks, makers: &Makers, marks: &mut [bool], task: usize) -> bool
    requires makers { AreMakers walks.now.config walks.now.app makers.now.naming.now makers.now.settings.now }
    requires inside { task < length walks.now.config.tasks }
    requires count { length marks.old ≡ length walks.now.config.tasks }
    requires within { AreInAll walks.now.config walks.now.app makers.now.load.now marks.old }
    ensures count { length marks.new ≡ length walks.now.config.tasks }
    ensures within { AreInAll walks.now.config walks.now.app makers.now.load.now marks.new }
    ensures marked { result ≡ true → unmarked marks.new < unmarked marks.old }
    ensures same { result ≡ false → (marks.new ≡ marks.old)
        × IsSettled walks.now.config walks.now.app makers.now.load.now marks.old task }
{
    if is_marked(marks, task) || !is_made(walks, makers, marks, task) {
        return false;
    }
    marks[task] = true;
    true
}

fn pass(walks: &Walks, makers: &Makers, marks: &mut [bool]) -> bool
    requires makers { AreMakers walks.now.config walks.now.app makers.now.naming.now makers.now.settings.now }
    requires count { length marks.old ≡ length walks.now.config.tasks }
    requires within { AreInAll walks.now.config walks.now.app makers.now.load.now marks.old }
    ensures count { length marks.new ≡ length walks.now.config.tasks }
    ensures within { AreInAll walks.now.config walks.now.app makers.now.load.now marks.new }
    ensures marked { HasMarked walks.now.config walks.now.app makers.now.load.now marks.old marks.new
        (length walks.now.config.tasks) result }
{
    let mut grown = false;
    for task in 0..walks.tasks() {
        if mark(walks, makers, marks, task) {
            grown = true;
        }
    }
    grown
}

/// Which tasks come.
pub fn coming<'a>(
    walks: &Walks,
    load: &'a [Entry],
    naming: &'a [NamingTops],
    settings: &'a [SettingTops],
) -> Row<bool>
    requires naming { AreAllNamingTops walks.now.config walks.now.app naming.now }
    requires settings { AreAllSettingTops walks.now.config walks.now.app settings.now }
    ensures { IfOk result (AreComing walks.now.config walks.now.app load.now) }
{
    let mut marks = no_marks(walks.alloc(), walks.tasks())?;
    let makers = Makers {
        load,
        naming,
        settings,
    };
    loop {
        if !pass(walks, &makers, &mut marks) {
            return Ok(List::from_vec(marks));
        }
    }
}
