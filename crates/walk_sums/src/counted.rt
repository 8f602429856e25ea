//! Weights by which walks are counted for what they do, and for their items: 1 or 0. Which tasks clear what they wait
//! for (OSEK OS 2.2.3, sections 13.5.3.2 and 13.5.3.4). A function's summary, from those of the functions that it calls.
ghost use Rattle.std.specs.Prelude.{◌≡◌, IfOk, ◌<◌, ◌+◌, ◌^◌, ℕ, false, get_or, length, Decides, cond, ◌≤◌};
ghost use Rattle.walk_sums.specs.Weights.{AreWeights, body_weights, item_weights};
ghost use Rattle.walk_sums.specs.Counted.{calls_for, is_going_counted, is_ending_counted, body_counts, counted_weights};
ghost use Rattle.walk_sums.specs.Rounds.{IsClean};
ghost use Rattle.walk_sums.specs.Clears.{AreClearing};
ghost use Rattle.osek_blocking.specs.Sections.{is_counted};
ghost use Rattle.sloth_base.specs.Named.{item_of};
ghost use Rattle.sloth_base.specs.Limits.{size_limit};
ghost use Rattle.bound_rules.specs.Summaries.{IsCountedUp};
ghost use Rattle.walk_sums.specs.Trails.{AreSizesInLimit};
ghost use Rattle.walk_sums.specs.Computed.{called_summary, calls_endless, joined_both, begun, most_of, out_of, summary_by};
ghost use Rattle.walk_sums.specs.Known.{IsBefore, IsSummaryFor};
ghost use Rattle.walk_sums.specs.Lists.{ArePaths};

use crate::levels::{Caller, may_begin};
use crate::paths::{Paths, is_endless};
use crate::{Kind, Walks};
use bound_rules::{
    BodyWeights, ENDLESS, Summary, UNKNOWN, callee, is_marked, is_schedule, joined, number_at,
    size_behind,
};
use sloth_base::{App, Func, List, Op, Result, Service};
use std::alloc::Global;
use text_pieces::push;

/// What is counted.
#[derive(Clone, Copy)]
pub enum Counted {
    /// That the task activates this one, which is another: ActivateTask, or ChainTask as the last item.
    Activations(u32),
    /// That the task chains itself: ChainTask of this one, as the last item.
    Chains(u32),
    /// That the task sets events of this one.
    Settings(u32),
    /// That the walk ends with a WaitEvent for some of these events.
    Waits(u32),
    /// That it ends with a Schedule.
    Schedules,
    /// That it ends with a call of this service.
    Calls(Service),
    /// That it ends with a call of this service for this task, resource or alarm.
    CallsFor(Service, u32),
}

/// Whether an operation is a call of this service for a task, or another object of this number.
pub fn calls_object(task: u32, wanted: Service, op: Op) -> bool
    ensures { result ≡ calls_for task wanted op }
{
    match op {
        Op::Serve(call) => call.service.code() == wanted.code() && call.object == task,
        _ => false,
    }
}

/// Whether an item counts where a walk goes on behind it.
fn is_going_counted(counted: Counted, op: Op) -> bool
    ensures { result ≡ is_going_counted counted op }
{
    match counted {
        Counted::Activations(task) => calls_object(task, Service::ActivateTask, op),
        Counted::Settings(task) => calls_object(task, Service::SetEvent, op),
        _ => false,
    }
}

/// Whether it counts where the walk ends with it.
pub fn is_ending_counted(counted: Counted, op: Op) -> bool
    ensures { result ≡ is_ending_counted counted op }
{
    match counted {
        Counted::Activations(task) => match op {
            Op::Serve(call) => {
                (call.service.code() == Service::ActivateTask.code() && call.object == task)
                    || (call.service.code() == Service::ChainTask.code() && call.object == task)
            }
            _ => false,
        },
        Counted::Chains(task) => calls_object(task, Service::ChainTask, op),
        Counted::Settings(task) => calls_object(task, Service::SetEvent, op),
        Counted::Waits(events) => match op {
            Op::Serve(call) => {
                call.service.code() == Service::WaitEvent.code() && call.mask & events != 0
            }
            _ => false,
        },
        Counted::Schedules => is_schedule(op),
        Counted::Calls(wanted) => {
            matches!(op, Op::Serve(call) if call.service.code() == wanted.code())
        }
        Counted::CallsFor(wanted, object) => calls_object(object, wanted, op),
    }
}

fn body_counts(alloc: Global, counted: Counted, func: &Func) -> Result<BodyWeights>
    ensures { IfOk result (λ weights. weights ≡ body_counts counted func.now) }
{
    let mut going = Vec::new(alloc);
    let mut ending = Vec::new(alloc);
    for item in func.items.items() {
        push(&mut going, u32::from(is_going_counted(counted, item.op)))?;
        push(&mut ending, u32::from(is_ending_counted(counted, item.op)))?;
    }
    Ok(BodyWeights {
        going: List::from_vec(going),
        ending: List::from_vec(ending),
    })
}

/// The weights of all items.
pub fn counted_weights(alloc: Global, app: &App, counted: Counted) -> Result<Vec<BodyWeights>>
    ensures is { IfOk result (λ weights. weights.items ≡ counted_weights counted app.now) }
    ensures fit { IfOk result (λ weights. AreWeights app.now weights.items) }
{
    let mut weights = Vec::new(alloc);
    for func in app.funcs.items() {
        let own = body_counts(alloc, counted, func)?;
        push(&mut weights, own)?;
    }
    Ok(weights)
}

fn bit_mask(bit: u32) -> u32
    requires { bit < 32 }
    ensures { result ≡ 2 ^ bit }
{
    1 << bit
}

impl Walks<'_> {
    /// Of each task whether it clears one bit more: no walk of it from one WaitEvent to the next, on which nothing
    /// clears the event, waits for it again.
    fn next_bit(&self, bit: u32, marks: &[bool]) -> Result<Vec<bool>>
        requires bit { bit < 32 }
        requires marks { AreClearing self.now.app (length self.now.config.tasks) bit marks.now }
        ensures { IfOk result (λ both. AreClearing self.now.app (length self.now.config.tasks) (bit + 1) both.items) }
    {
        let events = bit_mask(bit);
        let weights = counted_weights(self.alloc(), self.app(), Counted::Waits(events))?;
        let table = self.whole_sums(&weights, Kind::Uncleared(events))?;
        let mut both = Vec::new(self.alloc());
        for task in 0..self.tasks() {
            let summary = self.body_summary(&table, task);
            push(&mut both, is_marked(marks, task) && summary.most <= 1)?;
        }
        Ok(both)
    }

    /// Of each task whether it clears, on each walk from a WaitEvent to the next, all events that the next waits for.
    pub fn clean_tasks(&self) -> Result<Vec<bool>>
        ensures count { IfOk result (λ clean. length clean.items ≡ length self.now.config.tasks) }
        ensures exact { IfOk result (λ clean. (t : ℕ) → t < length self.now.config.tasks
            → Decides (get_or clean.items t false) (IsClean self.now.app t)) }
    {
        let mut clean = vec![in self.alloc(); true; self.tasks()]?;
        for bit in 0..32 {
            clean = self.next_bit(bit, &clean)?;
        }
        Ok(clean)
    }
}

fn count(op: Op) -> u32
    ensures { result ≡ cond (is_counted op) 1 0 }
{
    match op {
        Op::Serve(call) if matches!(call.service, Service::TerminateTask) => 0,
        _ => 1,
    }
}

fn body_weights(alloc: Global, func: &Func) -> Result<BodyWeights>
    ensures { IfOk result (λ weights. weights ≡ body_weights func.now) }
{
    let mut going = Vec::new(alloc);
    let mut ending = Vec::new(alloc);
    for item in func.items.items() {
        push(&mut going, count(item.op))?;
        push(&mut ending, count(item.op))?;
    }
    Ok(BodyWeights {
        going: List::from_vec(going),
        ending: List::from_vec(ending),
    })
}

/// The weights that count items: each counts 1 but TerminateTask, which is no event of its task's work.
pub fn item_weights(alloc: Global, app: &App) -> Result<Vec<BodyWeights>>
    ensures is { IfOk result (λ weights. weights.items ≡ item_weights app.now) }
    ensures fit { IfOk result (λ weights. AreWeights app.now weights.items) }
{
    let mut weights = Vec::new(alloc);
    for func in app.funcs.items() {
        let own = body_weights(alloc, func)?;
        push(&mut weights, own)?;
    }
    Ok(weights)
}

fn joined_both(one: u32, other: u32) -> u32
    requires one_small { one ≤ size_limit }
    requires other_small { other ≤ size_limit }
    ensures { result ≡ joined_both one other }
{
    if 0 < one && 0 < other {
        joined(one, other - 1)
    } else {
        0
    }
}

impl Caller<'_> {
    /// The summary of what an item that walks reach calls; of which nothing is known, where it calls nothing.
    fn called(&self, number: usize) -> Summary
        requires { number < length self.now.known.func.items }
        ensures is { result ≡ called_summary self.now.known number (item_of self.now.known.func number).op }
        ensures small { IsCountedUp result }
    {
        match self.func.op(number) {
            Op::Invoke { func } if is_marked(self.body.reached.items(), number) => {
                callee(self.body, self.level, self.whole, self.own, number, func)
            }
            _ => UNKNOWN,
        }
    }

    fn calls_endless(&self) -> bool
        ensures is { result ≡ calls_endless self.now.known }
        ensures before { IsBefore self.now }
    {
        let mut endless = false;
        for number in 0..self.func.items.items().len() {
            endless = endless || self.called(number).is_endless;
        }
        endless
    }

    fn begun(&self, table: &[u32], number: usize) -> u32
        requires { number < length self.now.known.func.items }
        ensures { result ≡ begun self.now.known self.now.kind table.now number }
    {
        if may_begin(self.kind, self.func, self.body.reached.items(), number) {
            number_at(table, number)
        } else {
            0
        }
    }

    /// The greatest size of a part that begins in the body or in what it calls.
    fn most(&self, on: &[u32]) -> u32
        requires { AreSizesInLimit on.now }
        ensures { result ≡ most_of self.now.known self.now.kind on.now }
    {
        let items = self.func.items.items();
        let mut most = 0;
        for number in 0..items.len() {
            let called = self.called(number);
            let behind = joined_both(called.out, size_behind(items, on, number));
            let inner = called.most.max(behind);
            most = self.begun(on, number).max(inner).max(most);
        }
        most
    }

    /// The greatest size of a part that begins in the body or in what it calls and ends with the body's `ret`.
    fn most_out(&self, back: &[u32]) -> u32
        requires { AreSizesInLimit back.now }
        ensures { result ≡ out_of self.now.known self.now.kind back.now }
    {
        let items = self.func.items.items();
        let mut out = 0;
        for number in 0..items.len() {
            let behind = joined_both(self.called(number).out, size_behind(items, back, number));
            out = self.begun(back, number).max(behind).max(out);
        }
        out
    }

    /// The summary by the sizes of the longest trails from each item, and of those that end with the body's `ret`.
    fn trail_summary(&self, on: &[u32], back: &[u32]) -> Summary
        requires on_small { AreSizesInLimit on.now }
        requires back_small { AreSizesInLimit back.now }
        ensures { result ≡ summary_by self.now.known self.now.kind on.now back.now }
    {
        Summary {
            is_endless: false,
            on: number_at(on, 0),
            back: number_at(back, 0),
            most: self.most(on),
            out: self.most_out(back),
        }
    }

    fn summary_along(&self, paths: &Paths) -> Result<Summary>
        requires before { IsBefore self.now }
        requires bounded { calls_endless self.now.known ≡ false }
        requires paths { ArePaths self.now paths.now }
        ensures is { IfOk result (IsSummaryFor self.now) }
        ensures small { IfOk result IsCountedUp }
    {
        if is_endless(&paths.shape) {
            return Ok(ENDLESS);
        }
        let on = self.ending_trails(paths)?;
        let back = self.leaving_trails(paths)?;
        Ok(self.trail_summary(&on, &back))
    }

    /// The summary of the function.
    pub fn summary(&self) -> Result<Summary>
        ensures is { IfOk result (IsSummaryFor self.now) }
        ensures small { IfOk result IsCountedUp }
    {
        if self.calls_endless() {
            return Ok(ENDLESS);
        }
        let paths = self.paths()?;
        self.summary_along(&paths)
    }
}
