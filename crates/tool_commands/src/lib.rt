//! The commands that read files, judge what they hold, and end with one answer: all but those that build and run, and
//! `debug`.
//!
//! The files have exactly the answer that one table of all such commands says (`judge`; `specs/Answers`, with a row for
//! each command in a file of `specs/` of its name), and one at most (`one_answer`), but for `symbols` and `losses`,
//! which answer for each image, `why`, as one refusal may have several true witnesses, and `response` of one task. What
//! rows share: `specs/SourceAnswers`, `specs/RunAnswers`, `specs/Lines`, `specs/StatesText`. Words and
//! the answer of `check`: `command_line` (`Tools`, `Statuses`).
#![tactic(auto)]

// The answer to what is made of texts, or the refusal of the texts.
macro_rules! answer {
    ($made:expr, $of:ident => $answer:expr) => {
        match $made {
            Ok($of) => $answer,
            Err(BuildError::Refused(refusal)) => Ok(ToolAnswer::Refused(refusal)),
            Err(BuildError::Memory) => Err(NoMemory),
        }
    };
}

mod elf_commands;
pub mod judging;
pub mod laws;
pub mod response_command;
mod run_commands;
mod source_commands;
mod why_command;

pub use command_line::{Outcome, ToolAnswer, TraceFault};
pub use judging::{bad_trace_line, judge, no_elf_line};
