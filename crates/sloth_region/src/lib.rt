//! Addresses of the machine: extents, the allocator that places them, and the map of an image.
//!
//! An extent is the least aligned one behind all earlier ones; the answer is Full exactly where it does not fit, and
//! then nothing has changed (`Region::place`). Defined here: extents (`specs/Region`), and the offsets of service words
//! and contexts (`specs/Layout`).
#![tactic(auto)]

pub mod layout;
pub mod region;

pub use layout::{
    BELOW_WORD, CONTEXT_BELOW, CONTEXT_BYTES, CONTEXT_CUR, CONTEXT_LEVEL, CONTEXT_PC,
    CONTROLLER_HIGH, CUR, IDLE_CONTEXT, RESUME_WORDS, WORDS_HIGH, active, alarm_cycle, alarm_left,
    counter_value, enabled_byte, events, level_byte, pending_byte, resume, saved, wait,
};
pub use region::{Extent, Full, Map, Region};
