//! Levels: the numbers by which the interrupt controller does the work of the scheduler.
//! The level of a priority is the number of tasks of no greater priority; ceilings are those of the priority ceiling
//! protocol (`assign`, `specs/Levels`). In range: `sloth_base` (`ConfigRange`).
#![tactic(auto)]

ghost use Rattle.std.specs.Prelude.{◌≡◌, ◌<◌, ◌≤◌, ℕ, if◌then◌else◌, max, length, Contains, slice_index};
ghost use Rattle.std.specs.Prelude.{slice_index_or};
ghost use Rattle.sloth_base.specs.declared.config.TaskDecl.{TaskDecl};
ghost use Rattle.sloth_base.specs.ConfigRange.{InRange};
ghost use Rattle.prio_levels.specs.Levels.{lists, ceiling, AreCeilings, AreLevels, AreTaskLevels};
ghost use Rattle.sloth_base.specs.PriorityLevels.{level_among};
ghost use Rattle.sloth_base.specs.Limits.{task_limit};

use sloth_base::{CEILING_COUNT, Config, Levels, RES_SCHEDULER, TASK_LIMIT, TaskDecl};

/// The level of a priority: how many of the tasks have no greater one.
fn level(tasks: &[TaskDecl], priority: u32) -> usize
    ensures level { result ≡ level_among tasks.now priority }
    ensures few { result ≤ length tasks.now }
{
    tasks.iter().filter(|it| it.priority <= priority).count()
}

/// The levels of the tasks in the order of their numbers, then zeros.
fn task_levels(tasks: &[TaskDecl]) -> [u8; TASK_LIMIT]
    requires { length tasks.now ≤ task_limit }
    ensures { AreTaskLevels tasks.now result }
{
    let mut levels = [0; TASK_LIMIT];
    for (number, task) in tasks.iter().enumerate() {
        levels[number] = level(tasks, task.priority) as u8;
    }
    levels
}

fn lists_resource(task: &TaskDecl, resource: u32) -> bool
    ensures { result ≡ lists resource task.now }
{
    task.resources.items().iter().any(|it| it.0 == resource)
}

/// The greater of two levels, where the second counts.
fn raised(greatest: u8, counts: bool, level: u8) -> u8
    ensures { result ≡ (if counts then max greatest level else greatest) }
{
    if counts && greatest < level {
        level
    } else {
        greatest
    }
}

/// The greatest level of the tasks that list the resource, 0 where none does.
fn ceiling(tasks: &[TaskDecl], resource: u32) -> u8
    requires { length tasks.now ≤ task_limit }
    ensures { result ≡ ceiling tasks.now resource }
{
    let mut greatest = 0;
    for task in tasks {
        let level = level(tasks, task.priority) as u8;
        greatest = raised(greatest, lists_resource(task, resource), level);
    }
    greatest
}

/// The ceilings of the resources 0 to 31, and that of RES_SCHEDULER.
fn ceilings(tasks: &[TaskDecl]) -> [u8; CEILING_COUNT]
    requires { length tasks.now ≤ task_limit }
    ensures { AreCeilings tasks.now result }
{
    let mut ceilings = [0; CEILING_COUNT];
    for resource in 0..RES_SCHEDULER {
        ceilings[resource as usize] = ceiling(tasks, resource);
    }
    ceilings[RES_SCHEDULER as usize] = tasks.len() as u8;
    ceilings
}

/// A task's level is that of its priority, from 1. A resource's ceiling is the level of the highest task that lists it,
/// 0 if none does (OSEK OS 2.2.3, section 8.5); that of RES_SCHEDULER, the last entry, the highest level.
pub fn assign(config: &Config) -> Levels
    requires { InRange config.now }
    ensures levels { AreLevels config.now result }
    // A greater priority is a greater level.
    ensures ordered { (s t : ℕ) (d : TaskDecl) → s < length config.now.tasks → t < length config.now.tasks
        → (slice_index_or config.now.tasks s d).priority < (slice_index_or config.now.tasks t d).priority
        → slice_index result.task s < slice_index result.task t }
    // Levels go from 1 to `top`.
    ensures within { (t : ℕ) → t < length config.now.tasks
        → (0 < slice_index result.task t) × (slice_index result.task t ≤ result.top) }
    // A ceiling is no less than the level of a task that lists the resource.
    ensures covers { (t r : ℕ) (d : TaskDecl) → t < length config.now.tasks
        → Contains (slice_index_or config.now.tasks t d).resources r
        → slice_index result.task t ≤ slice_index result.ceiling r }
{
    let tasks = config.tasks.items();
    Levels {
        task: task_levels(tasks),
        ceiling: ceilings(tasks),
        top: tasks.len() as u8,
    }
}
