//! The builder: texts to image, which is sound.
//!
//! `build` gives an image exactly where the texts are accepted, unless memory is wanting; else the first refusal. The
//! image is sound, within its weights and its pace, shows the task states, has the items in place, and bytes below 256
//! (clauses `sound`, `weighed`, `paced`, `shows`, `items`, `bytes`). The promise: `sim_induction`, `rv32_expand`
//! (`InPlace`), `sim_laws` (`TaskStates`); texts: `sloth_source`.
//!
//! Of well-formed task code and its stacks `gathering::image` gives such an image, each of whose pieces stands where the
//! planned map has it (`specs/ImageOf`), of blocks with no hole between them (`gathering::gather`; `specs/Gathered`).
#![tactic(auto)]

pub mod gathering;

pub use gathering::{Built, build};
