//! The rules of well-formed task code: what its numbers may name, where its items go, and the faults V1 to V12.
//! Definitions alone.
//!
//! Task code in range of a configuration (`specs/AppRange`); items, chains of calls, paths and held resources
//! (`specs/Code`); V1 to V12 (`specs/WellFormed`). They stand on `sloth_base` (`ConfigRange`, `Named`) and
//! `sloth_base` (`Order`).
#![tactic(auto)]
