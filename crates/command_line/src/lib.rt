//! The program's words, the answers of its tools, and the lines that say why a command ended.
//! Words are one command at most (`command`, `specs/Command`, a row for each tool in `specs/Tools`); an answer has its
//! status, and a status its number (`specs/Statuses`). Texts of answers: `specs/Lines`.
#![tactic(auto)]

pub mod answer;
pub mod command;
pub mod counts;
pub mod last_line;
pub mod tool;
mod tool_words;

pub use answer::{Explanation, Outcome, Status, ToolAnswer, TraceFault, told};
pub use command::{BuildWords, CommandWords, ExecWords, RunWords};
pub use counts::{Counts, Window, number_of, window_of};
pub use last_line::{built_line, code_text, no_image_line, refusal_line};
pub use tool::{Tool, file_words};
