//! Event lines, what is printed of a run and of an image, and the arrivals that are given to a run.
//!
//! Both forms of each event's line, and exactly the event of a counted line; listings; summaries; exactly the arrivals
//! of a text, or its least fault, T1 to T4 (`specs/Lines`, `EventsRead`, `Listing`, `Summary`, `ArrivalsText`).
#![tactic(auto)]

pub mod arrivals;
pub mod event_line;
pub mod events;
pub mod laws;

pub use arrivals::{are_digits, is_comment, owner_line, read_arrivals, task_line};
pub use event_line::{listing_line, push_mark, read_line};
pub use events::{
    Form, KINDS, LineText, instructions, kind_line, kind_of, number_below, print, push_counts,
    push_event, stopped_line,
};
