//! Lanes of bars over counts, drawn as SVG 1.1.
//!
//! Each line of the drawing is as defined (`specs/Drawing`, `Scale`, `Arrivals`, `Marks`). The bars of a lane are its
//! longest stretches of counts that show the same, and no others (`Strip`; `specs/Bars`, `Strips`, `TaskLooks`).
#![tactic(auto)]

pub mod drawing;
mod frame;
pub mod scale;

pub use drawing::{
    Bar, Look, Strip, is_activated, is_over, is_woken, push_bar, push_lane, push_name, task_look,
};
pub use frame::{push_axis, push_head, push_legend};
pub use scale::{Scale, arrival_line, arrow_line, expiry_line};
