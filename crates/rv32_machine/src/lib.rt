//! The machine: an RV32I hart over a bus, with or without an interrupt controller.
//!
//! A step is one of the definition over any bus; where it stops nothing has changed (`Machine::step`; `step_into`,
//! which writes a record that is lent; `step_front` and `show`, which write it in two parts; `SlothBus`, `FlatBus`).
//! Laws: one line is chosen, steps hang together, a run goes on or stops (`one_line_is_chosen`, `steps_hang_together`,
//! `a_run_goes_on`, `a_run_stops`). A step: `specs/Advance`; runs: `specs/Run`; the start: `specs/Start`; steps that
//! hang together: `specs/Coherent`; how the code has its state: `specs/Flat`, `specs/Lends`, `specs/State`. One
//! instruction: `rv32_instr` (`Effect`, `Execute`); lines: `sloth_base` (`Choose`, `Take`, `Arrive`).
#![tactic(auto)]

pub mod effect;
pub mod laws;
mod machine;
mod step;

pub use effect::FlatBus;
pub use machine::Machine;
pub use machine_memory::{Bus, SlothBus};
pub use rv32_instr::{Bad, Stop};
pub use sloth_base::Step;
pub use step::{StepFront, blank_step, pending_line};
