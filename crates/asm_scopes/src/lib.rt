//! The names of task source: what its lines and bodies declare, and what a name may stand for where it is used.
//! The bodies of lines, the names of each kind in the order of their numbers, what an operand names (`bodies_of`,
//! `scope_of`, `kind_of`; `specs/Statements`, `specs/Bodies`, `specs/Scopes`). Lines: `asm_lines` (`Lines`).
#![tactic(auto)]

mod scope;
mod statements;
mod tables;

pub use scope::{Kind, Scope, kind_of};
pub use statements::{
    Body, bodies_of, closes_body, first_name, is_data, is_item, is_label, is_task, label_names,
    name_of, number_of, opens_body, symbol_names, written,
};
pub use tables::{scope_of, task_body_names};
