//! What the blocks of all services share: pieces of their code, their marks, what they need of the machine, the way
//! back to the caller; and the pieces of all routines on which their effects turn.
//!
//! Each piece is appended as the list of instructions that is its definition (`opening`, `back_mark`, `open`, `end`,
//! `look`, `raise`, `go_back`, `answer_ok`; `specs/Marks`, `specs/Pieces`, `specs/SuspensionTest`, `specs/Back`;
//! `leave`, `ask_busy`, `find_ticks`, `take`, `release`, `keep`, `start_level`, `jump`, .., with a file of `specs/` for
//! each kind of routine). What the code and the block of each service promise: `specs/ServiceCode`,
//! `specs/ServiceBlock`, `specs/Objects`. Leaving a stretch: `masked_code` (`Kernel`).
#![tactic(auto)]

pub mod entries;
pub mod pieces;
pub mod ticks;

pub use entries::{
    ask_preempted, counter_level, jump, raise_autostarted, start_level, stay, take_own,
};
pub use pieces::{
    BACK, OWN_ACTIVE, OWN_EVENTS, WAKE, ask, back_mark, clear_own, end, find_ticks, go_back, keep,
    leave, look, lower, open, opening, raise, refuse, release, take, tell_events, tell_resting,
};
pub use ticks::{ask_busy, ask_greatest, look_unless_later, start_again};
