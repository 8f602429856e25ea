//! A task as it stands, with room for all that it may become.
ghost use Rattle.std.specs.Prelude.{◌≡◌, IfOk, bit_or, slice_get};
ghost use Rattle.std.specs.Option.{option_copied};
ghost use Rattle.osek_scheduler.specs.State.{sleeping_task};
ghost use Rattle.osek_scheduler.specs.Meaning.{register, with_register};
ghost use Rattle.osek_scheduler.specs.Services.{answered_task};
ghost use Rattle.osek_scheduler.specs.Frames.{CanMove};
ghost use Rattle.osek_machine.specs.Changes.{HasChangeRoom};
ghost use Rattle.osek_scheduler.specs.Changes.{changed_task, woken_task_state};

use osek_scheduler::number_lists::Held;
use osek_scheduler::{FrameRoom, Stack, TaskChange, TaskState};
use sloth_base::{E_OK, Reg, Result};
use std::alloc::Global;
use std::marker::Model;

/// The registers of task code besides x0: x5 to x29.
const REGISTERS: usize = 25;

/// The number of x5, the first register besides x0.
const FIRST: usize = 5;

/// The place of a0, x10.
const STATUS: usize = 5;

/// The place of a1, x11.
const VALUE: usize = 6;

/// A task as it stands.
#[derive(Drop)]
pub struct TaskRoom {
    state: TaskState,
    registers: [u32; REGISTERS],
    pub(crate) frames: Stack,
    /// The mask of its events.
    pub(crate) events: u32,
    /// The resources that it holds, in the order taken.
    pub(crate) held: Held,
    /// Whether it has its internal resource.
    pub(crate) raised: bool,
    /// Whether its Schedule has not come back yet.
    pub(crate) owed: bool,
}

impl Model for TaskRoom {
    ghost use Rattle.osek_scheduler.specs.State.{Task};

    ghost Value = { Task };

    ghost view = { λ t. record {
      state = t.state;
      registers = t.registers;
      frames = t.frames;
      events = t.events;
      held = t.held;
      raised = t.raised;
      owed = t.owed;
    } };
}

impl TaskRoom {
    /// A task that was not activated yet.
    pub fn new(alloc: Global) -> Result<TaskRoom>
        ensures { IfOk result (λ t. t ≡ sleeping_task) }
    {
        let frames = Stack::new(alloc)?;
        let held = Held::new(alloc)?;
        Ok(TaskRoom {
            state: TaskState::Suspended,
            registers: [0; REGISTERS],
            frames,
            events: 0,
            held,
            raised: false,
            owed: false,
        })
    }

    /// Its state.
    pub fn state(&self) -> TaskState
        ensures { result ≡ self.now.state }
    {
        self.state
    }

    /// Its innermost function.
    pub fn innermost(&self) -> Option<&FrameRoom>
        ensures { option_copied result ≡ slice_get self.now.frames 0 }
    {
        self.frames.innermost()
    }

    /// The value of a register of task code.
    pub fn register(&self, r: Reg) -> u32
        ensures { result ≡ register self.now.registers r }
    {
        if r.0 == 0 {
            return 0;
        }
        let place = usize::from(r.0).saturating_sub(FIRST);
        self.registers.get(place).copied().unwrap_or(0)
    }

    // Gives a register a value; x0 stays zero.
    fn write(&mut self, rd: Reg, value: u32)
        ensures { self.new ≡ record self.old { registers = with_register self.old.registers rd value } }
    {
        let place = usize::from(rd.0).saturating_sub(FIRST);
        if rd.0 != 0 && place < REGISTERS {
            self.registers[place] = value;
        }
    }

    fn answer(&mut self, status: u32)
        requires { CanMove self.old.frames }
        ensures { self.new ≡ answered_task status self.old }
    {
        self.registers[STATUS] = status;
        self.frames.advance();
    }

    fn add_events(&mut self, mask: u32)
        ensures { self.new ≡ record self.old {
          events = bit_or self.old.events mask;
          state = woken_task_state self.old.state (bit_or self.old.events mask);
        } }
    {
        self.events |= mask;
        match self.state {
            TaskState::Waiting(waited) if self.events & waited != 0 => {
                self.state = TaskState::Ready;
            }
            _ => {}
        }
    }

    /// Makes a change.
    pub fn apply(&mut self, change: &TaskChange)
        requires { HasChangeRoom change.now self.old }
        ensures { self.new ≡ changed_task change.now self.old }
    {
        match *change {
            TaskChange::Activate => self.state = TaskState::Ready,
            TaskChange::AddEvents(mask) => self.add_events(mask),
            TaskChange::Answer(status) => self.answer(status),
            TaskChange::AnswerWith(value) => {
                self.answer(E_OK);
                self.registers[VALUE] = value;
            }
            TaskChange::End => {
                self.state = TaskState::Suspended;
                self.registers = [0; REGISTERS];
                self.frames.clear();
                self.events = 0;
                self.raised = false;
            }
            TaskChange::Wait(mask) => {
                self.state = TaskState::Waiting(mask);
                self.frames.advance();
                self.raised = false;
            }
            TaskChange::Pause => {
                self.answer(E_OK);
                self.raised = false;
                self.owed = true;
            }
            TaskChange::Take(resource) => {
                self.answer(E_OK);
                self.held.take(resource);
            }
            TaskChange::Release => {
                self.answer(E_OK);
                self.held.release();
            }
            TaskChange::ClearEvents(mask) => {
                self.answer(E_OK);
                self.events &= !mask;
            }
            TaskChange::Start { func, words, non } => {
                self.registers = [0; REGISTERS];
                self.frames.clear();
                self.frames.enter(FrameRoom::entry(func, words));
                self.state = TaskState::Active;
                self.raised = non;
            }
            TaskChange::Resume(non) => {
                self.registers[STATUS] = E_OK;
                self.state = TaskState::Active;
                self.raised = non;
            }
            TaskChange::ComeBack(non) => {
                self.owed = false;
                self.raised = non;
            }
            TaskChange::Write { rd, value } => {
                self.write(rd, value);
                self.frames.advance();
            }
            TaskChange::GoTo(item) => self.frames.jump(item),
            TaskChange::MoveOn => self.frames.advance(),
            TaskChange::StoreWord { word, value } => {
                self.frames.store(word, value);
                self.frames.advance();
            }
            TaskChange::Invoke { func, words } => self.frames.enter(FrameRoom::entry(func, words)),
            TaskChange::Return => self.frames.leave(),
        }
    }
}
