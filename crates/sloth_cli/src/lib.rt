//! The program's top call, `sloth_top`, for any store of files and any sink; and what the program does with its words:
//! those of `debug` have a session (`debug_command`), all others go to the top call over the system's files and
//! standard output.
//!
//! Clause `answers`: each answer has its cause, the sink took exactly the text that is due, and the files hold what it
//! says. The other clauses say which answer comes, that what was read are the first of the command's files (`reads`),
//! that each line of a tool's text is one put (`lines`), and of every image that is built what all its runs do
//! (`bounds`, `responses`, `checked`, `formulas`, `registers`, `requests`). All are defined in `core_commands` (`Top`,
//! `ImageAnswers`, `SampleAnswers`), for a program with any tools, and in `sloth_commands` (`ToolAnswers`, `ToolLines`,
//! `Built..`). Of the program as it ships `top::run_over` says the same for the bytes that the reads delivered
//! (`specs/ProgramRun`).
#![tactic(auto)]

pub mod top;

pub use command_line::Status;
pub use core_commands::laws;
pub use sloth_runner::{RunEnd, Runner, Tally};
pub use top::{run_program, run_words, sloth_top};
