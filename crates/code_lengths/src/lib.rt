//! How many instructions each piece of generated code has, and how many it executes at most: boot, the prologues, the
//! ticks and the services.
//!
//! The lengths are those of one table (`boot_length`, `prologue_length`, `start_length`, `tick_length`,
//! `service_length`, `block_length`; `specs/CodeLengths`), and so are those of its longest paths (`going_path`,
//! `leaving_path`, `served_path`, `entry_path`, `tick_path`, `boot_path`; `specs/LongestPaths`). Besides: whether an
//! alarm's action sets events of a task (`sets_events_of`), and which function is the body of a task (`body_of`,
//! `specs/Bodies`).
#![tactic(auto)]

mod lengths;

pub use lengths::{
    block_length, body_of, boot_length, boot_path, entry_path, going_path, leaving_path,
    prologue_length, served_path, service_length, sets_events_of, start_length, tick_length,
    tick_path,
};
