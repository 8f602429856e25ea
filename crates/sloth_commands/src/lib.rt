//! The commands that are tools: what each reads, writes and puts, up to its last line, and what each of its answers
//! requires (`use_tool`). An answer and its cause hold for exactly what the reads of the call delivered, nothing is
//! written but the file that the answer names, and each line of its text is one put.
//!
//! Laws of every image that is built (`laws`): each run keeps the blocking bounds (`built_runs_keep_blocking_bounds`),
//! `check` answers yes to its text (`built_runs_are_checked`, `runs_are_checked`), and what it asks of tasks and
//! counters is what `losses` counts (`built_runs_have_requests`); runs that keep a load keep what `response` tells
//! (`built_runs_keep_responses`); the map that `map` prints is the image's (`prints_map_of_image`); the formulas of
//! `orti` and the registers that `debug` shows are right (`built_files_are_right`, `built_images_show_registers`).
//! Definitions: `specs/Built..`, `specs/CheckedRuns`, `specs/PrintedMap`.
//!
//! What the top call promises of tools: `specs/ToolFiles`, `specs/ToolAnswers`, `specs/ToolLines`. What a tool answers:
//! `tool_commands`.
#![tactic(auto)]

pub mod laws;
pub mod tool_command;

pub use tool_command::use_tool;
