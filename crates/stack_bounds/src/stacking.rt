//! The parts of the shared stack. What each task needs for itself, and which tasks may be preempted.
//! The bodies of tasks.
ghost use Rattle.std.specs.Prelude.{IfOk, ◌≡◌, ℕ, ◌<◌, false, length, get_or};
ghost use Rattle.code_rules.specs.WellFormed.{WellFormed};
ghost use Rattle.call_graph.specs.Ranks.{RanksOf};
ghost use Rattle.stack_bounds.specs.Bounds.{AreBounds, AreParts};
ghost use Rattle.sloth_base.specs.Named.{body_of};
ghost use Rattle.call_graph.specs.Tables.{AreCallable, HasTaskBody, IsTableInLimit, task_at, task_bytes, gives_way};

use call_graph::{Ranks, offsets_of_tasks, ranks};
use sloth_base::{App, Bounds, BuildError, Config, Func, NoMemory, Result, TaskDecl, WORD};
use std::alloc::Global;
use task_verify::held_resources::is_task_body;
use text_pieces::push;

fn ranked_offsets(
    alloc: Global,
    config: &Config,
    app: &App,
    ranks: &Ranks,
    bounds: &Bounds,
) -> Result<Vec<u32>>
    requires well_formed { WellFormed config.now app.now }
    requires belong { RanksOf app.now ranks.now }
    requires bounds { AreBounds config.now app.now bounds.now }
    ensures { IfOk result (λ offsets. AreParts config.now app.now bounds.now offsets.items) }
{
    let tasks = config.tasks.items();
    let funcs = app.funcs.items();
    let yielding = yielding_tasks(alloc, tasks, funcs, ranks.pauses.items())?;
    offsets_of_tasks(alloc, tasks, &yielding, bounds.bytes.items())
}

/// For a basic task the bytes from its part's end to the end of the basic tasks' stack, 0 for an extended one.
pub fn offsets(alloc: Global, config: &Config, app: &App, bounds: &Bounds) -> Result<Vec<u32>>
    requires well_formed { WellFormed config.now app.now }
    requires bounds { AreBounds config.now app.now bounds.now }
    ensures { IfOk result (λ offsets. AreParts config.now app.now bounds.now offsets.items) }
{
    match ranks(alloc, app) {
        Ok(ranks) => ranked_offsets(alloc, config, app, &ranks, bounds),
        Err(BuildError::Memory) => Err(NoMemory),
        Err(BuildError::Refused(_)) => unreachable!(),
    }
}

/// The bytes of a context, 32 words: where a task goes on, what was below it, and its registers.
const CONTEXT: u32 = 128;

/// The bytes of each task: the frame of its body, the calls that need most, and a context.
pub fn task_bytes(alloc: Global, funcs: &[Func], table: &[u32], count: usize) -> Result<Vec<u32>>
    requires frames { AreCallable funcs.now }
    requires small { IsTableInLimit funcs.now table.now }
    requires bodies { (t : ℕ) → t < count → HasTaskBody funcs.now t }
    ensures count { IfOk result (λ bytes. length bytes.items ≡ count) }
    ensures bytes { IfOk result (λ bytes. (t : ℕ) → t < count
        → get_or bytes.items t 0 ≡ task_bytes funcs.now table.now t) }
{
    let mut bytes = Vec::new(alloc);
    for task in 0..count {
        let body = body_of(funcs, task);
        let size = WORD * funcs[body].frame_words + table[body] + CONTEXT;
        push(&mut bytes, size)?;
    }
    Ok(bytes)
}

/// Whether it is a basic task that may be preempted, by whether its body waits or calls Schedule.
fn gives_way(task: &TaskDecl, pauses: bool) -> bool
    ensures { result ≡ gives_way task.now pauses }
{
    !task.extended && (!task.non || pauses)
}

/// Whether each task is a basic one that may be preempted, from the functions that wait or call Schedule.
pub fn yielding_tasks(
    alloc: Global,
    tasks: &[TaskDecl],
    funcs: &[Func],
    pauses: &[bool],
) -> Result<Vec<bool>>
    requires bodies { (t : ℕ) → t < length tasks.now → HasTaskBody funcs.now t }
    requires same { length pauses.now ≡ length funcs.now }
    ensures count { IfOk result (λ yielding. length yielding.items ≡ length tasks.now) }
    ensures yielding { IfOk result (λ yielding. (t : ℕ) → t < length tasks.now
        → get_or yielding.items t false ≡ gives_way (task_at tasks.now t)
        (get_or pauses.now (body_of funcs.now t) false)) }
{
    let mut yielding = Vec::new(alloc);
    for (number, task) in tasks.iter().enumerate() {
        let pauses = pauses[body_of(funcs, number)];
        push(&mut yielding, gives_way(task, pauses))?;
    }
    Ok(yielding)
}

/// The number of the task's body. There is one.
pub fn body_of(funcs: &[Func], task: usize) -> usize
    requires { HasTaskBody funcs.now task }
    ensures is { result ≡ body_of funcs.now task }
    ensures known { result < length funcs.now }
{
    for (number, func) in funcs.iter().enumerate() {
        if is_task_body(func, task) {
            return number;
        }
    }
    funcs.len()
}
