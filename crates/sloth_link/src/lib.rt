//! The image of task code: blocks of code, items, symbols and the words of alarms at their addresses, zeros elsewhere,
//! and the marks.
//!
//! In the image that `link` gives the blocks of routines stand at their addresses, each item with its mark and each
//! symbol's bytes at the addresses of the map, the time and the cycle of each alarm in its words; the marks are by
//! rising addresses, and the names are there, of counters too. So the items are in place. What may be linked, and that
//! there is room: `specs/Image`, `room_follows`, `specs/Room`; what stands: `specs/Linked`, `specs/Items`,
//! `specs/Standing`, `specs/Symbols`. Code in place: `masked_code` (`Place`); items in place: `rv32_expand`
//! (`InPlace`); the map: `mem_map` (`Zones`).
#![tactic(auto)]

pub mod laws;
pub mod linking;

pub use linking::link;
