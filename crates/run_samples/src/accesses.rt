//! What arrivals and masked code do with the pending bytes of lines.
ghost use Rattle.std.specs.Prelude.{◌≡◌, ◌<◌, ◌++◌, OnOk, replicate, slice_set};
ghost use Rattle.sloth_base.specs.MemoryMap.{line_count};
ghost use Rattle.rv32_instr.specs.Memory.{memory_of};
ghost use Rattle.rv32_machine.specs.Start.{start};
ghost use Rattle.rv32_machine.specs.Run.{state_after};
ghost use Rattle.run_samples.specs.Accesses.{is_waiting, is_waiting_line, arrival_access, arrival_accesses};
ghost use Rattle.run_samples.specs.Accesses.{accesses_at, access_of, code_access};
ghost use Rattle.sloth_runner.specs.Moments.{AreLines, sloth_state};
ghost use Rattle.sloth_runner.specs.Runner.{HasRun, image_of, count_of, given_arrivals};

use observe::passing;
use osek_scheduler::TaskState;
use rv32_instr::{Instr, InstrKind};
use rv32_machine::{Bus, SlothBus, Step, pending_line};
use sloth_base::{Arrival, FIRST_COUNTER_LINE, Line, Result, TASK_LIMIT};
use sloth_inspect::states;
use sloth_runner::Runner;
use text_pieces::push;

/// What is done with a line's pending byte.
#[derive(Clone, Copy)]
pub enum AccessKind {
    /// An arrival makes it 1.
    Raises,
    /// An arrival finds that it is 1, or that the line's task waits.
    Finds,
    /// Masked code loads it.
    Loads,
    /// Masked code stores to it.
    Stores,
}

/// An access to a line's pending byte: the moment of an arrival or the count of an instruction, and the line.
#[derive(Clone, Copy)]
pub struct Access {
    pub arrival: Arrival,
    pub kind: AccessKind,
}

fn is_waiting(state: TaskState) -> bool
    ensures { result ≡ is_waiting state }
{
    matches!(state, TaskState::Waiting(mask) if mask != 0)
}

// Whether the line is that of a task that waits for events. The bus keeps its contents.
fn is_waiting_line(bus: &mut SlothBus, line: Line) -> bool
    requires { line < line_count }
    ensures is { result ≡ is_waiting_line bus.old line }
    ensures same { bus.new ≡ bus.old }
{
    if line.0 >= FIRST_COUNTER_LINE {
        return false;
    }
    let tasks = states(bus, TASK_LIMIT as u32);
    is_waiting(tasks[usize::from(line.0)])
}

// What an arrival does behind others of its moment, which have raised these lines.
fn arrival_access(bus: &mut SlothBus, raised: &[u8; 32], arrival: &Arrival) -> Access
    requires { arrival.now.line < line_count }
    ensures is { result ≡ arrival_access bus.old raised.now arrival.now }
    ensures same { bus.new ≡ bus.old }
{
    let line = arrival.line;
    let raises = raised[usize::from(line.0)] == 0
        && (!bus.is_pending(line) && !is_waiting_line(bus, line));
    Access {
        arrival: *arrival,
        kind: if raises {
            AccessKind::Raises
        } else {
            AccessKind::Finds
        },
    }
}

fn set_raised(raised: &mut [u8; 32], arrival: &Arrival)
    requires { arrival.now.line < line_count }
    ensures { raised.new ≡ slice_set raised.old arrival.now.line 1 }
{
    raised[usize::from(arrival.line.0)] = 1;
}

fn push_arrivals(bus: &mut SlothBus, arrivals: &[Arrival], noted: &mut Vec<Access>) -> Result<()>
    requires { AreLines arrivals.now }
    ensures noted { OnOk result (noted.new.items ≡ noted.old.items
        ++ arrival_accesses bus.old (replicate line_count 0) arrivals.now) }
    ensures same { bus.new ≡ bus.old }
{
    let mut raised = [0u8; 32];
    for arrival in arrivals {
        push(noted, arrival_access(bus, &raised, arrival))?;
        set_raised(&mut raised, arrival);
    }
    Ok(())
}

// A store, or else a load of what a step touched.
fn noted_access(at: u32, stored: &Option<Line>, touched: &Option<Line>) -> Option<Access>
    ensures { result ≡ access_of at stored.now touched.now }
{
    let (line, kind) = match (stored, touched) {
        (Some(line), _) => (*line, AccessKind::Stores),
        (None, Some(line)) => (*line, AccessKind::Loads),
        (None, None) => return None,
    };
    let arrival = Arrival { at, line };
    Some(Access { arrival, kind })
}

// What a step did with a pending byte. The bus keeps its contents.
fn code_access(bus: &mut SlothBus, step: &Step) -> Option<Access>
    ensures is { result ≡ code_access step.now bus.old }
    ensures same { bus.new ≡ bus.old }
{
    if step.enabled_before {
        return None;
    }
    let stored = match bus.fetch(step.pc) {
        Ok(Some(instr)) => match instr.kind() {
            InstrKind::Sb { rs1, imm, .. } => {
                pending_line(step.regs[usize::from(rs1.0)].wrapping_add(imm.cast_unsigned()))
            }
            _ => None,
        },
        _ => None,
    };
    noted_access(step.count, &stored, &step.touched)
}

/// Notes what the arrivals of the next moment of a run do. They do not come yet.
pub fn note_arrivals(runner: &mut Runner, noted: &mut Vec<Access>) -> Result<()>
    requires { HasRun runner.old (image_of runner.old) (count_of runner.old) }
    ensures noted { OnOk result (noted.new.items ≡ noted.old.items
        ++ accesses_at (given_arrivals runner.old) (count_of runner.old)
        (state_after (count_of runner.old) (given_arrivals runner.old) (start (image_of runner.old)))) }
    ensures same { runner.new ≡ runner.old }
{
    let due = passing(runner.coming, runner.machine.count);
    let (here, _) = runner.coming.split_at(due);
    push_arrivals(runner.machine.bus_mut(), here, noted)
}

/// What the last step of a run did with a pending byte.
pub fn step_access(runner: &mut Runner, step: &Step) -> Option<Access>
    ensures is { result ≡ code_access step.now (memory_of (sloth_state runner.old.machine).core) }
    ensures same { runner.new ≡ runner.old }
{
    code_access(runner.machine.bus_mut(), step)
}
