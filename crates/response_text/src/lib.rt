//! The lines of the command `response`: how soon each task has left the processor after what makes it Ready, in runs
//! that keep a load.
//!
//! `response_text` gives for each task of accepted texts the least number of a definition, where it has one
//! (`IsRunResponse` of `run_windows`), and that after boot; whether its deadline is met, and whether no activation is
//! lost; for each counter the number of its ticks (`IsTickNumber` of `run_responses`); the demand of the load; or the
//! first refusal. Where there is no number its reason stands there (`response_reasons`). Texts have one such answer
//! (`one_text`). `response_parts` gives the line of one task and the parts of its numbers, which add up to them, with
//! what each of them is (`specs/TaskText`, `specs/Parts`, `specs/PartNames`).
//!
//! Every run of an image that keeps the load keeps these numbers, and loses nothing that is called lossless
//! (`RunsKeepResponses`, `ImageLosesNone`, `ImageKeepsExpiries`, `ImageKeepsTicks`, `ImageServesArrivals` of
//! `specs/ResponseText`). Lines: `specs/Lines`; refusals: `specs/Inputs`. Costs: `run_costs`; laws: `run_responses`,
//! `response_laws`.
#![tactic(auto)]

pub mod laws;
pub mod lines;
mod made;
pub mod part_lines;
mod part_names;
mod parts;
pub mod task_text;
pub mod text;

pub use task_text::{Told, response_parts};
pub use text::{response_text, responses};
