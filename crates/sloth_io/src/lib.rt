//! The outside: stores of files and sinks of text, in memory and at the system (`specs/Store`, `specs/Sink`). Those in
//! memory do exactly what their definitions say. Those at the system tell what was delivered and given: a write is done
//! by exactly the calls of a replacement (`specs/Replaced`). The system's own calls (`Host`) are trusted.
#![tactic(auto)]

pub mod buffer;
pub mod buffered;
pub mod file_store;
mod history;
pub mod mem_sink;
pub mod mem_store;
pub mod out_sink;
pub mod replaced_files;
pub mod sink;
pub mod store;
pub mod system;

pub use file_store::{FileStore, SystemFiles};
pub use mem_sink::MemSink;
pub use mem_store::{MemFile, MemStore};
pub use out_sink::OutSink;
pub use replaced_files::Found;
pub use sink::{Sink, SinkFault, put_lines};
pub use store::{Outcome, Store, StoreFault};
pub use system::{Host, System};
