//! The answers of tools. The answer of a tool that writes no file. How a command ended.
ghost use Rattle.std.specs.Prelude.{◌≡◌, []};
ghost use Rattle.command_line.specs.declared.answer.ToolAnswer.TheVariants as tool_answer;

use image_file::{ElfFault, ImageFault};
use rv32_instr::Stop;
use sloth_base::{List, Refusal};
use std::alloc::Global;

/// Why a text is no trace of a run.
#[derive(Clone, Copy)]
pub enum TraceFault {
    /// The line of this number, from 1, is no event line.
    Line(u32),
    /// The events up to this line are those of no run.
    Step(u32),
    /// The arrivals do not stand in time.
    Time,
}

/// What a tool writes to its file, if it has one, and what it prints.
#[derive(Drop)]
pub struct Outcome {
    pub file: List<u8>,
    pub text: List<u8>,
}

/// What a tool answers to the files that it reads.
#[derive(Drop)]
pub enum ToolAnswer {
    Done(Outcome),
    Refused(Refusal),
    Stopped { pc: u32, stop: Stop },
    NotAnImage(ImageFault),
    NotAnElf(ElfFault),
    BadTrace(TraceFault),
    NoHolds,
    /// A text that says what is not met: a deadline, or the load of a run.
    Unmet(List<u8>),
    /// The whole text of an answer with what stands behind it.
    Explained { kind: Explanation, text: List<u8> },
    /// No task has the name that is asked for.
    NoTask,
}

impl ToolAnswer {
    ghost use Rattle.command_line.specs.Statuses.{tool_status};

    /// The status that it ends with.
    pub fn status(&self) -> Status
        ensures { result ≡ tool_status self.now }
    {
        match self {
            ToolAnswer::Done(_) => Status::Done,
            ToolAnswer::Refused(_) => Status::Refused,
            ToolAnswer::Stopped { .. } => Status::Stopped,
            ToolAnswer::NotAnImage(_) => Status::NotAnImage,
            ToolAnswer::NotAnElf(_) => Status::NotAnElf,
            ToolAnswer::BadTrace(_) => Status::BadTrace,
            ToolAnswer::NoHolds => Status::NoHolds,
            ToolAnswer::Unmet(_) => Status::Unmet,
            ToolAnswer::Explained { kind, .. } => Status::Explained(*kind),
            ToolAnswer::NoTask => Status::Usage,
        }
    }
}

/// A text alone.
pub fn told(alloc: Global, text: Vec<u8>) -> ToolAnswer
    ensures { result ≡ tool_answer.Done (record { file = []; text = text.items }) }
{
    ToolAnswer::Done(Outcome {
        file: List::from_vec(Vec::new(alloc)),
        text: List::from_vec(text),
    })
}

/// What an explanation stands behind.
#[derive(Clone, Copy, Debug)]
pub enum Explanation {
    /// A refusal.
    Refusal,
    /// That no lists of labels keep the rules.
    NoHolds,
    /// That a text is no trace of a run.
    BadTrace,
}

impl Explanation {
    ghost use Rattle.command_line.specs.Statuses.{explained_status};

    fn code(self) -> u8
        ensures { result ≡ explained_status self }
    {
        match self {
            Explanation::Refusal => 2,
            Explanation::NoHolds => 11,
            Explanation::BadTrace => 10,
        }
    }
}

/// How a command ended.
#[derive(Clone, Copy, Debug)]
pub enum Status {
    Done,
    Usage,
    Refused,
    ReadFault,
    WriteFault,
    NoMemory,
    TooLong,
    Stopped,
    NotAnImage,
    NotAnElf,
    BadTrace,
    NoHolds,
    Unmet,
    /// Ended so, with what stands behind it.
    Explained(Explanation),
}

impl Status {
    ghost use Rattle.command_line.specs.Statuses.{exit_status};

    /// The exit status of the process, 0 to 12.
    pub fn code(self) -> u8
        ensures { result ≡ exit_status self }
    {
        match self {
            Status::Done => 0,
            Status::Usage => 1,
            Status::Refused => 2,
            Status::ReadFault => 3,
            Status::WriteFault => 4,
            Status::NoMemory => 5,
            Status::TooLong => 6,
            Status::Stopped => 7,
            Status::NotAnImage => 8,
            Status::NotAnElf => 9,
            Status::BadTrace => 10,
            Status::NoHolds => 11,
            Status::Unmet => 12,
            Status::Explained(kind) => kind.code(),
        }
    }
}
