//! The bytes of a call.
ghost use Rattle.std.specs.Prelude.{◌≡◌};
ghost use Rattle.call_graph.specs.Tables.{bytes_called, table_entry, IsKnownCall, IsTableInLimit, AreCallable};

use sloth_base::{Func, Op, WORD};

/// The bytes of the call that an operation may be, with the calls that the function then makes by the table.
pub fn bytes_called(funcs: &[Func], table: &[u32], op: Op) -> u32
    requires known { IsKnownCall funcs.now op }
    requires frames { AreCallable funcs.now }
    requires small { IsTableInLimit funcs.now table.now }
    ensures { result ≡ bytes_called funcs.now (table_entry table.now) op }
{
    match op {
        Op::Invoke { func } => {
            let callee = func.0 as usize;
            WORD + WORD * funcs[callee].frame_words + table[callee]
        }
        _ => 0,
    }
}
