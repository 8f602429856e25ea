//! The states of the tasks at a count of a run. What a machine shows of its tasks at a count.
ghost use Rattle.std.specs.Prelude.{◌≡◌, ◌<◌, ◌≤◌, length, ◌+◌};
ghost use Rattle.sloth_base.specs.Limits.{task_limit, count_limit};
ghost use Rattle.sloth_runner.specs.Moments.{sloth_state};
ghost use Rattle.sloth_runner.specs.Runner.{image_of, count_of};
ghost use Rattle.sloth_runner.specs.TaskStates.{image_states, pending_counters_in, interrupts_in, task_levels, open_states};
ghost use Rattle.sloth_inspect.specs.States.{states_in, running_number_in};

use crate::Runner;
use osek_scheduler::TaskState;
use rv32_machine::{Machine, SlothBus, Stop};
use sloth_base::{COUNTER_LIMIT, FIRST_COUNTER_LINE, Line, TASK_LIMIT};
use sloth_inspect::{levels, pending, running, states};

/// What the machine shows of interrupts at a count.
#[derive(Clone, Copy)]
pub struct Interrupts {
    /// Whether each task's line is pending, in `TASK_LIMIT` places.
    pub pending: [bool; TASK_LIMIT],
    /// Whether the line of each counter is pending.
    pub counters_pending: [bool; COUNTER_LIMIT],
    /// The running level, 0 to 255.
    pub level: u8,
    /// Whether interrupts are masked.
    pub masked: bool,
}

/// What a run shows of its tasks.
#[derive(Clone, Copy)]
pub enum Sight {
    /// At the last count that finds interrupts open.
    At(Seen),
    /// No count finds interrupts open.
    Booting,
    /// The machine stops before the last instruction.
    Stopped { pc: u32, stop: Stop },
}

fn counters_pending(bus: &SlothBus) -> [bool; COUNTER_LIMIT]
    ensures { result ≡ pending_counters_in bus.now }
{
    [
        bus.is_pending(Line(FIRST_COUNTER_LINE)),
        bus.is_pending(Line(FIRST_COUNTER_LINE + 1)),
    ]
}

/// What the machine of a run shows of the tasks, where interrupts are open.
pub fn tasks_seen(runner: &mut Runner) -> Option<Seen>
    requires { length (image_of runner.old).tasks ≤ task_limit }
    ensures seen { result ≡ image_states (image_of runner.old) (count_of runner.old) (sloth_state runner.old.machine) }
    ensures same { runner.new ≡ runner.old }
{
    let tasks = runner.image.tasks.items().len() as u32;
    let count = runner.machine.count;
    look(&mut runner.machine, count, tasks)
}

/// What it shows of interrupts.
pub fn interrupts_shown(runner: &mut Runner) -> Interrupts
    requires { length (image_of runner.old).tasks ≤ task_limit }
    ensures interrupts { result ≡ interrupts_in (image_of runner.old) (sloth_state runner.old.machine) }
    ensures same { runner.new ≡ runner.old }
{
    let tasks = runner.image.tasks.items().len() as u32;
    Interrupts {
        pending: pending(runner.machine.bus_mut(), tasks),
        counters_pending: counters_pending(runner.machine.bus_mut()),
        level: runner.machine.level(),
        masked: !runner.machine.enabled(),
    }
}

/// The level byte of each task's line, in `TASK_LIMIT` places.
pub fn level_bytes(runner: &mut Runner) -> [u8; TASK_LIMIT]
    requires { length (image_of runner.old).tasks ≤ task_limit }
    ensures levels { result ≡ task_levels (image_of runner.old) (sloth_state runner.old.machine) }
    ensures same { runner.new ≡ runner.old }
{
    let tasks = runner.image.tasks.items().len() as u32;
    levels(runner.machine.bus_mut(), tasks)
}

impl<'a> Runner<'a> {
    ghost use Rattle.sloth_runner.specs.Runner.{IsFresh, image_of, given_arrivals};
    ghost use Rattle.sloth_runner.specs.TaskStates.{AreStatesAt};

    /// Runs k + 1 instructions, and tells the states of the tasks at the last count that finds interrupts open.
    pub fn state_at(&mut self, k: u32) -> Sight
        requires fresh { IsFresh self.old }
        requires few { k < count_limit }
        ensures { AreStatesAt (image_of self.old) (given_arrivals self.old) k result }
    {
        let n = instructions_through(k);
        let mut last = None;
        while self.machine.count < n {
            self.arrive_now();
            last = tasks_seen(self).or(last);
            if let Err(halt) = self.execute() {
                return Sight::Stopped {
                    pc: halt.pc,
                    stop: halt.stop,
                };
            }
        }
        match last {
            Some(seen) => Sight::At(seen),
            None => Sight::Booting,
        }
    }
}

/// The states of the tasks at a count, in `TASK_LIMIT` places.
#[derive(Clone, Copy)]
pub struct Seen {
    pub count: u32,
    pub tasks: [TaskState; TASK_LIMIT],
    /// The number of the running task and 1 more, or 0 where none runs.
    pub running: u32,
}

// What memory and the controller show of so many tasks, at a count.
fn seen_states(bus: &mut SlothBus, count: u32, tasks: u32) -> Seen
    requires { tasks ≤ task_limit }
    ensures is { result ≡ record { count = count; tasks = states_in bus.old tasks; running = running_number_in bus.old } }
    ensures same { bus.new ≡ bus.old }
{
    Seen {
        count,
        tasks: states(bus, tasks),
        running: running(bus),
    }
}

/// What the machine shows of so many tasks at a count, where interrupts are open.
pub fn look(machine: &mut Machine<SlothBus>, count: u32, tasks: u32) -> Option<Seen>
    requires { tasks ≤ task_limit }
    ensures seen { result ≡ open_states tasks count (sloth_state machine.old) }
    ensures same { machine.new ≡ machine.old }
{
    if !machine.enabled() {
        return None;
    }
    Some(seen_states(machine.bus_mut(), count, tasks))
}

/// How many instructions a run has that ends with the one of this count.
pub fn instructions_through(count: u32) -> u32
    requires { count < 4294967295 }
    ensures { result ≡ count + 1 }
{
    count + 1
}
