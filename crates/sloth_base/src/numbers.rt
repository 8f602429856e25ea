//! Numbers that name things. Contracts see each as its number. What is seen of one step of the machine.
//! What the lines of the interrupt controller are for.
ghost use Rattle.std.specs.Prelude.{◌≡◌};
ghost use Rattle.sloth_base.specs.Owners.{line_kind};

use crate::{RESOURCE_LIMIT, TASK_LIMIT};
use std::marker::Model;

/// A task: its place among the TASK objects of the configuration, from 0. Its interrupt line has the same number.
#[derive(Clone, Copy)]
pub struct TaskId(pub u32);

impl Model for TaskId {
    ghost use Rattle.std.specs.Prelude.{ℕ};

    ghost Value = { ℕ };

    ghost view = { λ id. id.0 };

    ghost inverse = { λ number. record { 0 = number } };
}

/// The number of the resource RES_SCHEDULER, behind those of RESOURCE objects.
pub const RES_SCHEDULER: u32 = RESOURCE_LIMIT as u32;

/// A resource: its place among the RESOURCE objects of the configuration, from 0, or `RES_SCHEDULER`.
#[derive(Clone, Copy)]
pub struct ResId(pub u32);

impl Model for ResId {
    ghost use Rattle.std.specs.Prelude.{ℕ};

    ghost Value = { ℕ };

    ghost view = { λ id. id.0 };

    ghost inverse = { λ number. record { 0 = number } };
}

/// A function of the task code: its place among the bodies, from 0.
#[derive(Clone, Copy)]
pub struct FuncId(pub u32);

impl Model for FuncId {
    ghost use Rattle.std.specs.Prelude.{ℕ};

    ghost Value = { ℕ };

    ghost view = { λ id. id.0 };

    ghost inverse = { λ number. record { 0 = number } };
}

/// A named piece of data of the task code: its place among the `data` statements, from 0.
#[derive(Clone, Copy)]
pub struct SymId(pub u32);

impl Model for SymId {
    ghost use Rattle.std.specs.Prelude.{ℕ};

    ghost Value = { ℕ };

    ghost view = { λ id. id.0 };

    ghost inverse = { λ number. record { 0 = number } };
}

/// A line of the interrupt controller, 0 to 31.
#[derive(Clone, Copy)]
pub struct Line(pub u8);

impl Model for Line {
    ghost use Rattle.std.specs.Prelude.{ℕ};

    ghost Value = { ℕ };

    ghost view = { λ id. id.0 };

    ghost inverse = { λ number. record { 0 = number } };
}

/// A register, x0 to x31.
#[derive(Clone, Copy)]
pub struct Reg(pub u8);

impl Model for Reg {
    ghost use Rattle.std.specs.Prelude.{ℕ};

    ghost Value = { ℕ };

    ghost view = { λ id. id.0 };

    ghost inverse = { λ number. record { 0 = number } };
}

/// One step: the line taken before it, if one was, and the instruction executed.
#[derive(Clone, Copy)]
pub struct Step {
    /// Instructions executed before this one.
    pub count: u32,
    /// The address of the instruction.
    pub pc: u32,
    /// The line that was taken before the instruction.
    pub entered: Option<Line>,
    /// MIE before a line was taken.
    pub enabled_before: bool,
    /// MIE after the instruction.
    pub enabled_after: bool,
    /// The first word of memory before the instruction.
    pub cur_before: u32,
    /// The same word after it.
    pub cur_after: u32,
    /// The line whose pending byte the instruction loaded, or set to zero by a store.
    pub touched: Option<Line>,
    /// The registers after the instruction.
    pub regs: [u32; 32],
}

/// What a line is for.
#[derive(Clone, Copy)]
pub enum LineKind {
    /// It enters this task.
    Task(u32),
    /// Each arrival is a tick of this counter.
    Counter(u32),
    Unused,
}

/// The line of the first counter; the others follow it.
pub const FIRST_COUNTER_LINE: u8 = TASK_LIMIT as u8;

/// The owners of lines: so many tasks, and so many counters.
#[derive(Clone, Copy)]
pub struct Owners {
    pub tasks: usize,
    pub counters: usize,
}

impl Owners {
    /// What a line is for.
    pub fn kind(&self, line: Line) -> LineKind
        ensures { result ≡ line_kind self.now line }
    {
        if usize::from(line.0) < self.tasks {
            LineKind::Task(u32::from(line.0))
        } else if FIRST_COUNTER_LINE <= line.0
            && usize::from(line.0 - FIRST_COUNTER_LINE) < self.counters
        {
            LineKind::Counter(u32::from(line.0 - FIRST_COUNTER_LINE))
        } else {
            LineKind::Unused
        }
    }
}
