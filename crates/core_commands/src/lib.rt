//! The commands that build and run (`build`, `run`, `order`, `exec`, `list`, `sample`): what each reads, judges, writes
//! and puts, what each answer requires; and `core_top`, the top call of a program that has these alone, for any store
//! and any sink.
//!
//! Each command is performed as its answer requires, or is not for one of the causes of `specs/Failures`, and then its
//! last line is put. An answer and its cause hold for exactly what the reads of the call delivered, in their order, and
//! nothing is written but the file that the answer names. Calls in memory work (`calls_work_in_memory`,
//! `lines_work_in_memory`, `sample_works_in_memory`).
//!
//! What a top call promises: `specs/Top`, `specs/ImageAnswers`, `specs/SampleAnswers`; of a program over the system's
//! files: `specs/ProgramRun`. It holds for a program with any tools, whose answers are its first argument
//! (`specs/ToolTables`); `core_top` has none (`specs/NoTools`), `sloth_cli` has all. The text of a generated
//! application of 30 tasks declares 30 tasks (`all_tasks_are_declared`, `no_counter_is_declared`).
#![tactic(auto)]

pub mod build_command;
pub mod failure;
pub mod image_commands;
pub mod laws;
pub mod sample_command;
pub mod sample_laws;
pub mod top;

pub use build_command::fetch;
pub use failure::{Failure, close, finish, say};
pub use top::{core_top, is_tool_input, run_program, words_given};
