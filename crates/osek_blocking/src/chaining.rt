//! Tasks that chain themselves.
ghost use Rattle.std.specs.Prelude.{◌≡◌};
ghost use Rattle.osek_blocking.specs.Walks.{chains_itself};

use sloth_base::{Func, Op, Service};

/// Whether the operation is a ChainTask of the task whose body the function is.
pub fn chains_itself(func: &Func, op: Op) -> bool
    ensures { result ≡ chains_itself func.now op }
{
    match op {
        Op::Serve(call) => {
            call.service.code() == Service::ChainTask.code()
                && func.task.is_some_and(|owner| owner.0 == call.object)
        }
        _ => false,
    }
}
