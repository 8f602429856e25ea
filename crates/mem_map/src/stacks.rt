//! The stacks of the tasks: how long each is, which of them a task has, and where its part of it ends.
//! Which stack each task has, and where its part of it ends.
ghost use Rattle.std.specs.Prelude.{ℕ, ◌≡◌, ◌<◌, ◌≤◌, IfOk, length, ◌+◌, get_or};
ghost use Rattle.sloth_base.specs.Limits.{task_limit};
ghost use Rattle.stack_bounds.specs.Bounds.{bytes_of};
ghost use Rattle.mem_map.specs.StackParts.{first_own, HasStack, no_extent, own_before, stack_number};
ghost use Rattle.mem_map.specs.Stacks.{AreStackLengths, AreStacksBefore};

use crate::Numbers;
use sloth_base::{Bounds, List, TaskDecl};
use sloth_region::Extent;
use std::alloc::{AllocError, Global};

/// The length of the shared stack is a multiple of this.
const WHOLE: u32 = 16;

/// The length of the shared stack, if there is one.
fn shared_lengths(alloc: Global, tasks: &[TaskDecl], bounds: &Bounds) -> Numbers
    requires some { 0 < first_own tasks.now → 1 ≤ bounds.now.shared }
    requires small { bounds.now.shared ≤ 269824 }
    ensures { IfOk result (λ lengths. AreStackLengths tasks.now bounds.now 0 lengths.items) }
{
    let mut lengths = Vec::new(alloc);
    if first_own(tasks) == 1 {
        lengths.push((bounds.shared + (WHOLE - 1)) / WHOLE * WHOLE)?;
    }
    Ok(lengths)
}

/// The lengths of all stacks: that of the shared one, if some task is basic, and behind it those of the extended tasks.
pub fn stack_lengths(alloc: Global, tasks: &[TaskDecl], bounds: &Bounds) -> Numbers
    requires count { length bounds.now.bytes ≡ length tasks.now }
    requires some { 0 < first_own tasks.now → 1 ≤ bounds.now.shared }
    requires lengths { (t : ℕ) → t < length tasks.now → (1 ≤ bytes_of bounds.now t) × (bytes_of bounds.now t ≤ 8572) }
    requires small { bounds.now.shared ≤ 269824 }
    ensures { IfOk result (λ lengths. AreStackLengths tasks.now bounds.now (length tasks.now) lengths.items) }
{
    let mut lengths = shared_lengths(alloc, tasks, bounds)?;
    let bytes = bounds.bytes.items();
    for (number, task) in tasks.iter().enumerate() {
        if task.extended {
            lengths.push(bytes[number])?;
        }
    }
    Ok(lengths)
}

/// The stack of each task, and the address behind its part of it.
#[derive(Drop)]
pub struct Parts {
    pub stacks: List<Extent>,
    pub tops: List<u32>,
}

/// The stack of each task among all stacks, and its part of it, so many bytes below the end.
pub fn task_parts(
    alloc: Global,
    tasks: &[TaskDecl],
    all: &[Extent],
    offsets: &[u32],
) -> Result<Parts, AllocError>
    requires few { length tasks.now ≤ task_limit }
    requires count { length offsets.now ≡ length tasks.now }
    requires fit { (t : ℕ) → t < length tasks.now → HasStack tasks.now all.now offsets.now t }
    ensures { IfOk result (λ parts. AreStacksBefore tasks.now all.now offsets.now
        (length tasks.now) parts.stacks parts.tops) }
{
    let mut stacks = Vec::new(alloc);
    let mut tops = Vec::new(alloc);
    for task in 0..tasks.len() {
        let part = part_of(tasks, all, offsets, task);
        stacks.push(part.stack)?;
        tops.push(part.top)?;
    }
    let (stacks, tops) = (List::from_vec(stacks), List::from_vec(tops));
    Ok(Parts { stacks, tops })
}

/// How many of the tasks before this one are extended.
fn own_before(tasks: &[TaskDecl], end: usize) -> usize
    requires { end ≤ length tasks.now }
    ensures is { result ≡ own_before tasks.now end }
    ensures few { result ≤ end }
{
    let mut count = 0;
    for number in 0..end {
        if tasks[number].extended {
            count += 1;
        }
    }
    count
}

/// The place of the first extended task's stack among the stacks: behind the shared one, if some task is basic.
pub fn first_own(tasks: &[TaskDecl]) -> usize
    ensures is { result ≡ first_own tasks.now }
    ensures small { result ≤ 1 }
{
    if own_before(tasks, tasks.len()) == tasks.len() {
        0
    } else {
        1
    }
}

/// The place of a task's stack among the stacks.
pub fn stack_number(tasks: &[TaskDecl], task: usize) -> usize
    requires few { length tasks.now ≤ task_limit }
    requires known { task < length tasks.now }
    ensures is { result ≡ stack_number tasks.now task }
    ensures few { result ≤ task_limit }
{
    if tasks[task].extended {
        first_own(tasks) + own_before(tasks, task)
    } else {
        0
    }
}

/// A task's stack, and the address behind its part of it.
#[derive(Clone, Copy)]
pub struct Part {
    pub stack: Extent,
    pub top: u32,
}

/// That of a task, so many bytes below the end of the stack that it has among these.
pub fn part_of(tasks: &[TaskDecl], all: &[Extent], offsets: &[u32], task: usize) -> Part
    requires few { length tasks.now ≤ task_limit }
    requires known { task < length tasks.now }
    requires count { length offsets.now ≡ length tasks.now }
    requires fits { HasStack tasks.now all.now offsets.now task }
    ensures stack { result.stack ≡ get_or all.now (stack_number tasks.now task) no_extent }
    ensures top { result.top + get_or offsets.now task 0 ≡ result.stack.base + result.stack.len }
{
    let stack = all[stack_number(tasks, task)];
    let top = stack.base + (stack.len - offsets[task]);
    Part { stack, top }
}
