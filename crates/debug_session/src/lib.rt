//! A session of GDB's remote serial protocol (the GDB manual, appendix E) over a run. `serve` writes exactly the
//! answers to the messages among the bytes that come (`specs/Serving`, `specs/Sessions`, `specs/Replies`), and hands
//! each reply on before it asks for the next byte (`Transcript`, `specs/Transcripts`). In words: `laws`.
#![tactic(auto)]

pub mod byte_reader;
pub mod commands;
pub mod hex;
pub mod input;
pub mod laws;
pub mod notes;
pub mod replies;
pub mod serving;
pub mod session;
pub mod threads;
mod words;

pub use byte_reader::ByteReader;
pub use input::{Input, MemInput};
pub use serving::{SessionFault, Transcript, serve};
