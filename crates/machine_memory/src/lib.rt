//! The memory of the machine: RAM and the controller's bytes, as loads and stores see them; and where the vector word
//! of each interrupt line stands.
//!
//! Each load and store is that of the definition, and refused exactly where that refuses it; a fetch gives the
//! instruction of the word there; the line that is chosen is the greatest that may be taken (`Bus`, `SlothBus`,
//! `vector`). The memory as the machine starts: `specs/Fresh`; lines and places: `specs/Choice`, `specs/Place`;
//! instructions that are kept: `specs/CodeRam`; RAM keeps its first bytes alone, as far as they were written (`front`).
#![tactic(auto)]

pub mod bus;
pub mod code_ram;
pub mod sloth;

pub use bus::Bus;
pub use code_ram::Ram;
pub use sloth::{Place, SlothBus, extended, locate, vector};
