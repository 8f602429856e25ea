//! How soon ticks have ended behind the arrivals of their counters.
ghost use Rattle.std.specs.Prelude.{◌≡◌, cond, true, false, length, IfOk};
ghost use Rattle.run_windows.specs.Costs.{comes};
ghost use Rattle.run_responses.specs.TickWindows.{tick_costs, longest_service, tick_window, IsTickBound};
ghost use Rattle.run_responses.specs.TickWindows.{greater_number, IsTickNumber};

use run_windows::costs::Window;
use run_windows::level::comes;
use run_windows::responses::{room, window_bound};
use run_windows::{Costs, Made, RunCosts, Start, TaskCosts};
use sloth_base::{List, Result};
use std::alloc::Global;

// The costs of counters alone.
fn tick_costs(alloc: Global, costs: &Costs) -> Result<Costs>
    ensures { IfOk result (λ ticks. ticks ≡ tick_costs costs.now) }
{
    let counters = costs.counters.items().to_vec(alloc)?;
    Ok(Costs {
        tasks: List::from_vec(Vec::new(alloc)),
        comes: List::from_vec(Vec::new(alloc)),
        counters: List::from_vec(counters),
        alarms: List::from_vec(Vec::new(alloc)),
        makings: List::from_vec(Vec::new(alloc)),
        services: List::from_vec(Vec::new(alloc)),
        levels: List::from_vec(Vec::new(alloc)),
    })
}

// The longest service that a task reaches, if it comes.
fn reached_service(costs: &Costs, k: usize, task: &TaskCosts) -> u32
    ensures { result ≡ cond (comes costs.now k) task.now.service 0 }
{
    if comes(costs, k) { task.service } else { 0 }
}

// The longest service that a task which comes reaches.
fn longest_service(costs: &Costs) -> u32
    ensures { result ≡ longest_service costs.now 0 costs.now.tasks }
{
    let mut most: u32 = 0;
    for (k, task) in costs.tasks.items().iter().enumerate() {
        most = most.max(reached_service(costs, k, task));
    }
    most
}

// The counts in front of a window.
fn tick_front(run: &RunCosts, opens: bool) -> u64
    ensures { result ≡ (tick_window run.now.longest run.now.late run.now.costs opens).front }
{
    let costs = &run.costs;
    let service = if opens { 0 } else { longest_service(costs) };
    let stretches = u64::from(run.late) + u64::from(run.late);
    let items = u64::from(run.longest) + u64::from(run.longest);
    items + stretches + u64::from(service)
}

// The bound of a window, with the costs of counters alone.
fn tick_bound(run: &RunCosts, ticks: &Costs, opens: bool, numbers: &mut [Made]) -> Option<u32>
    requires ticks { ticks.now ≡ tick_costs run.now.costs }
    requires count { length numbers.old ≡ 0 }
    ensures bound { IsTickBound run.now.longest run.now.late run.now.costs opens result }
    ensures count { length numbers.new ≡ 0 }
{
    let window = Window {
        target: None,
        start: Start::Free,
        front: tick_front(run, opens),
        span: None,
    };
    window_bound(ticks, &window, numbers)
}

fn greater_number(run: &RunCosts, opening: Option<u32>, serving: Option<u32>) -> Option<u32>
    ensures { result ≡ greater_number run.now.longest run.now.late opening serving }
{
    let one = opening?
        .saturating_sub(run.longest)
        .saturating_sub(run.late);
    let other = serving?
        .saturating_sub(run.longest)
        .saturating_sub(run.late);
    Some(one.max(other.saturating_sub(run.late)))
}

/// Within how many counts of an arrival of its counter a tick has ended, in runs that keep these costs: the greater
/// number of two windows. None where one has more than 2,147,483,647 counts.
pub fn tick_number(alloc: Global, run: &RunCosts) -> Result<Option<u32>>
    ensures { IfOk result (λ told. IsTickNumber run.now.longest run.now.late run.now.costs told) }
{
    let ticks = tick_costs(alloc, &run.costs)?;
    let mut numbers = room(alloc, 0)?;
    let opening = tick_bound(run, &ticks, true, &mut numbers);
    let serving = tick_bound(run, &ticks, false, &mut numbers);
    Ok(greater_number(run, opening, serving))
}
