//! Which functions call which: no function may call itself by way of others (V1), and of each is known what its calls
//! reach.
//! `ranks`: what each function reaches, exactly, or the least of V1 (`specs/Ranks`, `specs/Cycles`), by rows of bits
//! that are closed (`specs/Rows`). Bytes of calls and of what stands below a task: `specs/Tables`.
#![tactic(auto)]

ghost use Rattle.std.specs.Prelude.{IfErr, IfOk, OnOk};
ghost use Rattle.sloth_base.specs.Order.{NoFault, ErrorIs};
ghost use Rattle.code_rules.specs.AppRange.{IsTaskCode};
ghost use Rattle.code_rules.specs.WellFormed.{CycleFault};
ghost use Rattle.call_graph.specs.Ranks.{RanksOf};

pub mod called_bytes;
pub mod lists;
pub mod rows;
pub mod stack_offsets;

use crate::lists::{direct_calls, gathered};
use crate::rows::{closed, cycle};
pub use called_bytes::bytes_called;
pub use lists::Ranks;
pub use rows::{has, union};
use sloth_base::{App, BuildError, NoMemory};
pub use stack_offsets::{bytes_below, offsets_of_tasks};
use std::alloc::Global;

/// What may fail for want of memory alone, unless another error is named.
pub type Result<T, E = NoMemory> = std::result::Result<T, E>;

/// What the calls of the task code reach, unless a function calls itself by way of others.
pub fn ranks(alloc: Global, app: &App) -> Result<Ranks, BuildError>
    requires { IsTaskCode app.now }
    ensures belong { IfOk result (RanksOf app.now) }
    ensures none { OnOk result (NoFault (CycleFault app.now)) }
    ensures refused { IfErr result (ErrorIs (CycleFault app.now)) }
{
    let funcs = app.funcs.items();
    let direct = direct_calls(alloc, funcs)?;
    let rows = closed(direct);
    if let Some(refusal) = cycle(funcs, &rows) {
        return Err(BuildError::Refused(refusal));
    }
    Ok(gathered(alloc, funcs, &rows)?)
}
