//! Routines of generated code: how their instructions are put together, and what they do whatever interrupt lines
//! arrive before each of them.
//!
//! Masked code that owes what a definition computes from its instructions does it, whatever lines arrive: the soundness
//! theorem (`proofs/Routines`, `masked`). Runs of instructions that all routines share: `save`, `restore`, `clear`,
//! `clear_words`, `emit`. Being masked: `specs/Masked`, `specs/Trace`; what a proof owes: `proofs/Owes`; standing in
//! place: `specs/Place`; leaving a stretch, and what is left of the machine: `specs/Kernel`; runs of instructions:
//! `specs/Pieces`. Contexts: `sloth_region` (`Layout`).
#![tactic(auto)]

pub mod emit;

pub use emit::{X5, clear, clear_words, past, restore, save};
