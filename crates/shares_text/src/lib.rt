//! The lines of the commands `shares` and `unused`: which data tasks share, and what keeps their accesses apart; what
//! nothing uses.
//!
//! `shares_text` gives a line for each symbol of accepted texts, or the first refusal (`one_text`; `specs/SharesText`);
//! verdicts and what they promise of runs: `symbol_verdicts` (`specs/Verdicts`, `specs/RunLaws`). `unused_text` gives a
//! line for each resource, event, alarm, symbol and function that nothing uses, and each task that nothing but arrivals
//! activates (`one_unused_text`; `specs/UnusedText`); its symbols are those that `shares` calls unused
//! (`symbols_agree`). What a use is: `specs/Uses`, `specs/UsesBy`.
#![tactic(auto)]

pub mod contexts;
pub mod keepers;
pub mod laws;
mod lines;
pub mod open_pairs;
pub mod sites;
pub mod symbol_verdicts;
pub mod unused;
mod uses;
pub mod verdict;

pub use symbol_verdicts::shares_text;
pub use unused::unused_text;
