//! The number of a task's state.
ghost use Rattle.std.specs.Prelude.{◌≡◌};
ghost use Rattle.sloth_inspect.specs.StateNumbers.{state_number};

use osek_scheduler::TaskState;

/// The number of a task's state, in two binary digits.
pub fn state_number(state: TaskState) -> u8
    ensures { result ≡ state_number state }
{
    match state {
        TaskState::Suspended => 0,
        TaskState::Ready => 1,
        TaskState::Active => 2,
        TaskState::Waiting(_) => 3,
    }
}
