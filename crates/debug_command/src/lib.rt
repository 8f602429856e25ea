//! The command `debug`: reads an image file and arrivals, and serves a session of GDB's remote serial protocol over
//! their run (`specs/DebugAnswers`; over the system's files, `specs/DebugRun`), or tells why there is none.
#![tactic(auto)]

pub mod command;

pub use command::{DebugWords, debug, debug_over, debug_words};
