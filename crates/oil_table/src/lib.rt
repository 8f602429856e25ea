//! The table of OIL objects and attributes (OIL 2.5, section 3): which attribute may stand where, how often, with which
//! values; and the events of a tree with their masks.
//! `specs/Table`, `specs/Beyond`; what an object declares: `specs/Objects`; by names: `specs/ListedEvents`,
//! `specs/AlarmCounters`; masks: `specs/Events`.
#![tactic(auto)]

pub mod counter_limits;
pub mod events;
pub mod object_limits;
pub mod table;
pub mod task_events;
pub mod uses;

pub use counter_limits::{CounterLimits, Limits, is_beyond};
pub use events::{events_of, events_without_bit, lacks_bit, number_masks, taken_more};
pub use object_limits::{comes_behind, is_clock_more};
pub use table::{
    Attribute, Place, allows, attribute_of, block_place, is_nowhere, is_single, is_word, place_of,
};
pub use task_events::{TaskEvents, event_word};
pub use uses::{
    EarlierUses, EventTable, declares, event_mask, first_is, first_number, first_use,
    has_scheduler, insert, is_of_kind, is_second, is_use, is_used, mask_of_value, names_of,
    number_of,
};
