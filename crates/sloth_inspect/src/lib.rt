//! The states of tasks, as the memory and the interrupt controller of the machine show them: exactly the definition
//! (`specs/States`); and the number of each state (`specs/StateNumbers`); and what the service words say of events,
//! counters and alarms (`specs/ServiceWords`). Service words: `sloth_region` (`Layout`); memory: `rv32_instr`
//! (`Memory`).
#![tactic(auto)]

ghost use Rattle.std.specs.Prelude.{◌≡◌, ◌≤◌, ◌<◌, ◌+◌, ◌%◌};
ghost use Rattle.sloth_base.specs.Limits.{task_limit};
ghost use Rattle.sloth_base.specs.MemoryMap.{memory_bytes};
ghost use Rattle.rv32_instr.specs.Ram.{word_at};
ghost use Rattle.sloth_inspect.specs.States.{state_in, states_in, running_number_in, pending_lines_in, levels_in};

pub mod service_words;
pub mod state_numbers;

use osek_scheduler::TaskState;
use rv32_machine::{Bus, SlothBus};
pub use service_words::ServiceWords;
use sloth_base::{Line, MEMORY_BASE, TASK_LIMIT, Width};
use sloth_region::{CUR, active, wait};
pub use state_numbers::state_number;

// The word at an offset in RAM.
pub(crate) fn word(bus: &mut SlothBus, offset: u32) -> u32
    requires aligned { offset % 4 ≡ 0 }
    requires inside { offset + 4 ≤ memory_bytes }
    ensures is { result ≡ word_at bus.old.ram offset }
    ensures same { bus.new ≡ bus.old }
{
    match bus.load(MEMORY_BASE + offset, Width::Word) {
        Ok(word) => word,
        Err(_) => unreachable!(),
    }
}

#[tactic(auto, unfolding(crate::specs::States::state_in))]
fn state(bus: &mut SlothBus, task: u8) -> TaskState
    requires { task < task_limit }
    ensures is { result ≡ state_in bus.old task }
    ensures same { bus.new ≡ bus.old }
{
    if word(bus, active(task) as u32) == 1 {
        return TaskState::Active;
    }
    if !bus.is_enabled(Line(task)) {
        return TaskState::Waiting(word(bus, wait(task) as u32));
    }
    if bus.is_pending(Line(task)) {
        TaskState::Ready
    } else {
        TaskState::Suspended
    }
}

/// The states of so many tasks, as the machine shows them; an unused place has Suspended. The bus keeps its contents.
pub fn states(bus: &mut SlothBus, tasks: u32) -> [TaskState; TASK_LIMIT]
    requires { tasks ≤ task_limit }
    ensures states { result ≡ states_in bus.old tasks }
    ensures same { bus.new ≡ bus.old }
{
    let mut states = [TaskState::Suspended; TASK_LIMIT];
    for task in 0..tasks {
        states[task as usize] = state(bus, task as u8);
    }
    states
}

/// The number of the running task and 1 more, or 0 where none runs. The bus keeps its contents.
pub fn running(bus: &mut SlothBus) -> u32
    ensures running { result ≡ running_number_in bus.old }
    ensures same { bus.new ≡ bus.old }
{
    word(bus, CUR as u32)
}

/// Whether the line of each of so many tasks is pending; an unused place has false.
pub fn pending(bus: &SlothBus, tasks: u32) -> [bool; TASK_LIMIT]
    requires { tasks ≤ task_limit }
    ensures { result ≡ pending_lines_in bus.now tasks }
{
    let mut pending = [false; TASK_LIMIT];
    for task in 0..tasks {
        pending[task as usize] = bus.is_pending(Line(task as u8));
    }
    pending
}

/// The level byte of the line of each of so many tasks; an unused place has 0.
pub fn levels(bus: &SlothBus, tasks: u32) -> [u8; TASK_LIMIT]
    requires { tasks ≤ task_limit }
    ensures { result ≡ levels_in bus.now tasks }
{
    let mut levels = [0; TASK_LIMIT];
    for task in 0..tasks {
        levels[task as usize] = bus.level_of(Line(task as u8));
    }
    levels
}
