//! The bytes that may stand below each task on the stack that all basic tasks share.
ghost use Rattle.std.specs.Prelude.{◌≡◌, ◌<◌, ◌≤◌, length, cond, nat_lt, ◌&&◌, IfOk};
ghost use Rattle.call_graph.specs.Tables.{sum_below, bytes_under, bytes_lower, AreStacks, AreOffsets};

use crate::Result;
use sloth_base::TaskDecl;
use std::alloc::Global;
use text_pieces::push;

fn bytes_under(task: &TaskDecl, yielding: bool, bytes: u32, priority: u32) -> u32
    ensures { result ≡ cond (yielding && nat_lt task.now.priority priority) bytes 0 }
{
    if yielding && task.priority < priority {
        bytes
    } else {
        0
    }
}

/// The bytes of all tasks that may stand below one of this priority.
pub fn bytes_below(tasks: &[TaskDecl], yielding: &[bool], bytes: &[u32], priority: u32) -> u32
    requires { AreStacks tasks.now yielding.now bytes.now }
    ensures is { result ≡ sum_below (length tasks.now) (bytes_under tasks.now yielding.now bytes.now priority) }
    ensures small { result ≤ 261120 }
{
    let mut sum = 0;
    for (number, task) in tasks.iter().enumerate() {
        sum += bytes_under(task, yielding[number], bytes[number], priority);
    }
    sum
}

/// The bytes of all that may stand below a basic task, and 0 for an extended one.
fn bytes_lower(tasks: &[TaskDecl], yielding: &[bool], bytes: &[u32], number: usize) -> u32
    requires stacks { AreStacks tasks.now yielding.now bytes.now }
    requires known { number < length tasks.now }
    ensures { result ≡ bytes_lower tasks.now yielding.now bytes.now number }
{
    let task = &tasks[number];
    if task.extended {
        0
    } else {
        bytes_below(tasks, yielding, bytes, task.priority)
    }
}

/// The bytes of all that may stand below each task.
pub fn offsets_of_tasks(
    alloc: Global,
    tasks: &[TaskDecl],
    yielding: &[bool],
    bytes: &[u32],
) -> Result<Vec<u32>>
    requires { AreStacks tasks.now yielding.now bytes.now }
    ensures { IfOk result (λ offsets. AreOffsets tasks.now yielding.now bytes.now offsets.items) }
{
    let mut offsets = Vec::new(alloc);
    for number in 0..tasks.len() {
        push(&mut offsets, bytes_lower(tasks, yielding, bytes, number))?;
    }
    Ok(offsets)
}
