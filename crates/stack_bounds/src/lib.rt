//! The bytes of stack that tasks may need: each for itself, and the basic tasks together on one stack.
//! `bound`: exactly the greatest sum of bytes over chains of calls with one context, and over tasks that may stand on
//! one another (`specs/Bounds`); `offsets`: the part of each basic task on the one stack.
#![tactic(auto)]

ghost use Rattle.std.specs.Prelude.{IfOk};
ghost use Rattle.call_graph.specs.Ranks.{RanksOf};
ghost use Rattle.stack_bounds.specs.Bounds.{AreBounds};

mod calls;
pub mod stacking;

use crate::calls::{most_calls, most_stacked};
use crate::stacking::{task_bytes, yielding_tasks};
use call_graph::Ranks;
use sloth_base::{Bounds, List, Result};
pub use stacking::{body_of, offsets};
use std::alloc::Global;
use task_verify::Verified;

/// The bytes each task needs at most (128 to 8,572, whole words), and all basic tasks together (at most 269,824).
pub fn bound(alloc: Global, verified: &Verified, ranks: &Ranks) -> Result<Bounds>
    requires { RanksOf verified.now.app ranks.now }
    ensures { IfOk result (AreBounds verified.now.config verified.now.app) }
{
    let tasks = verified.config().tasks.items();
    let funcs = verified.app().funcs.items();
    let table = most_calls(alloc, funcs)?;
    let bytes = task_bytes(alloc, funcs, &table, tasks.len())?;
    let yielding = yielding_tasks(alloc, tasks, funcs, ranks.pauses.items())?;
    let shared = most_stacked(tasks, &yielding, &bytes);
    Ok(Bounds {
        bytes: List::from_vec(bytes),
        shared,
    })
}
