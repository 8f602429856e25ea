//! The lines of the command `map`: what an image takes of memory, and what its tasks need of the stacks.
//!
//! `map_text` gives the lines of the map planned for what the texts mean, or the first refusal; there is one such list,
//! and each piece has its own bytes there (`one_text`, `rows_are_exact`). A line of the source comes from the last
//! `#line 16 "door.c"` above it in its body, else from itself (`line_origins`, `places_are_stated`). `specs/MapText`,
//! `Rows`, `PieceRows`, `Totals`, `Borders`, `PieceNames`, `LineRows`, `LinePlaces`, `ExactRows`, `StatedPlaces`.
#![tactic(auto)]

pub mod laws;
pub mod line_places;
pub mod line_rows;
pub mod lines;
pub mod piece_starts;

pub use line_places::{NO_PLACE, Origins, Place, line_origins};
pub use line_rows::{LineRow, body_end, item_address};
pub use lines::{Part, map_text};
pub use piece_starts::{Borders, Kind, Row, block_symbol, copied, image_borders, joined, map_rows};
