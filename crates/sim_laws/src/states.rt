//! What the machine shows of the tasks of a kernel in place, at each count at which interrupts are open.
ghost use Rattle.sim_laws.specs.TaskStates.{KernelHasTaskStates};

/// In every run of an image with a kernel in place the machine shows each task's state in the abstract scheduler.
pub fn kernel_has_task_states()
    ensures { KernelHasTaskStates }
{}
