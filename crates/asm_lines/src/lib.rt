//! Reads task source line by line: what each line is, and the least fault of the lines.
//! `read`: the lines, or the least of A1 to A4 (`specs/Lines`, `specs/Table`, `specs/Forms`, `specs/Faults`), and the
//! same as a drawing, by laws (`specs/Grammar`).
#![tactic(auto)]

mod forms;
mod laws;
mod operands;
pub mod source_line;
mod table;

pub use forms::{Form, Mnemonic, closes, form_of, is_outer, opens, takes};
pub use laws::{lines_are_parts, one_number, one_place, one_remains, one_shape, register_rows};
pub use operands::Operand;
pub use source_line::{SourceLine, after_line, is_a1, is_a2, is_a3, is_a4, read, read_lines};
