//! The block of a prologue: what was preempted is saved; where a context is kept for an extended task, the task goes on
//! behind its wait; else it starts anew.
ghost use Rattle.std.specs.Prelude.{◌≡◌, ◌+◌, ◌-◌, ◌<◌, ◌≤◌, ℕ, [], All, IfOk, slice_index, length, ◌++◌, OnOk};
ghost use Rattle.sloth_base.specs.MemoryMap.{memory_base};
ghost use Rattle.sloth_base.specs.Limits.{task_limit, level_count, frame_limit};
ghost use Rattle.code_lengths.specs.Bodies.{IsBodyPlace};
ghost use Rattle.code_lengths.specs.CodeLengths.{prologue_length, IsPrologueLength};
ghost use Rattle.vector_gen.specs.Places.{IsStackTop, IsTaskPrologue, IsPrologueCode, frame_at};
ghost use Rattle.vector_gen.specs.Pieces.{going_on_code, context_taking_code, context_saving_code, active_marking_code};
ghost use Rattle.vector_gen.specs.Pieces.{beginning_code, fresh_start_code};

use crate::{Added, Code};
use block_parts::{ask_preempted, start_level, take_own};
use code_lengths::body_of;
use masked_code::{X5, clear, clear_words, past, put, restore, save};
use rv32_instr::{
    A0, Block, Instr, MEPC, PLEVEL, X1, X2, X4, ZERO, addi, beq, csrrs, csrrw, csrrwi, hi, lo, lui,
    lw, mret, sw,
};
use sloth_base::{App, Config, E_OK, Levels, List, Result, TaskId};
use sloth_region::{
    BELOW_WORD, CONTEXT_BELOW, CONTEXT_CUR, CONTEXT_LEVEL, CONTEXT_PC, CUR, Map, active, resume,
};
use std::alloc::Global;

/// The prologue of a task, at the address of its line's handler in the map: 73 instructions for a basic task, 108 for
/// an extended one, and one for each word of the frame of the task's body.
pub fn prologue(
    alloc: Global,
    task: TaskId,
    config: &Config,
    app: &App,
    levels: &Levels,
    map: &Map,
) -> Result<Block>
    requires exists { (task < length config.now.tasks) × (length config.now.tasks ≤ task_limit) }
    requires levels { (levels.now.top < level_count) × ((t : ℕ) → slice_index levels.now.task t < level_count) }
    requires body { (body : ℕ) × IsBodyPlace app.now.funcs task body }
    requires frames { All (λ func. func.frame_words ≤ frame_limit) app.now.funcs }
    requires tops { (length map.now.tops ≡ length config.now.tasks) × All IsStackTop map.now.tops }
    requires items { (length app.now.funcs ≤ length map.now.places.first)
        × All (λ i. i < length map.now.places.items) map.now.places.first }
    ensures at { IfOk result (λ block. block.at ≡ slice_index map.now.handlers task) }
    ensures marks { IfOk result (λ block. block.marks ≡ []) }
    ensures size { IfOk result (λ block. IsPrologueLength task config.now app.now (length block.code)) }
    ensures effect { IfOk result (λ block. IsTaskPrologue task config.now app.now levels.now map.now block.code) }
{
    let body = body_of(app.funcs.items(), task);
    let words = app.funcs.items()[body].frame_words;
    let top = map.tops.items()[task.0 as usize];
    let first = map.places.items.items()[map.places.first.items()[body] as usize];
    let decl = &config.tasks.items()[task.0 as usize];
    let level = start_level(decl, task, levels);
    let frame = frame_address(top, words);
    let code = prologue_code(alloc, decl.extended, task.0, level, frame, words, first)?;
    Ok(Block {
        at: map.handlers[task.0 as usize],
        code: List::from_vec(code),
        marks: List::from_vec(Vec::new(alloc)),
    })
}

/// The address of a frame of so many words that ends at an address.
fn frame_address(top: u32, words: u32) -> u32
    requires { IsStackTop top × (words ≤ frame_limit) }
    ensures { result ≡ memory_base + frame_at top words }
{
    top - 4 * words
}

/// The code of a prologue, which is that of an extended task or of a basic one.
fn prologue_code(
    alloc: Global,
    extended: bool,
    task: u32,
    level: u8,
    frame: u32,
    words: u32,
    first: u32,
) -> Code
    requires small { (task < task_limit) × (level < level_count) × (words ≤ frame_limit) }
    requires in_ram { memory_base ≤ frame }
    ensures size { IfOk result (λ code. length code.items ≡ prologue_length extended words) }
    ensures enters { IfOk result (λ code.
        IsPrologueCode extended task level first (frame - memory_base) words code.items) }
{
    let mut code = Vec::new(alloc);
    save_context(&mut code, level)?;
    mark_active(&mut code, task)?;
    take_up(&mut code, extended, task)?;
    start_anew(&mut code, frame, words, first)?;
    Ok(code)
}

/// How many instructions take up a task's own context.
const GOES_ON: u32 = 33;

/// Takes up the context that is kept for an extended task, at x1, and passes that where there is none.
fn take_up(code: &mut Vec<Instr>, extended: bool, task: u32) -> Added
    requires { task < task_limit }
    ensures { OnOk result (code.new.items ≡ code.old.items ++ context_taking_code extended task) }
{
    if extended {
        put!(code; lw(X1, X4, resume(task)), beq(X1, ZERO, past(GOES_ON)))?;
        end_wait(code, task)?;
    }
    Ok(())
}

/// The task goes on behind its wait, as its context at x1 says, with the status E_OK.
fn end_wait(code: &mut Vec<Instr>, task: u32) -> Added
    requires { task < task_limit }
    ensures { OnOk result (code.new.items ≡ code.old.items ++ going_on_code task) }
{
    take_own(code, task)?;
    restore(code, 5, 32, X1)?;
    put!(code; addi(A0, ZERO, E_OK as i32), mret())
}

/// Saves the registers where a task was running, and then what the CSRs and the service words say, in the context
/// directly below x2. The level is then this one.
fn save_context(code: &mut Vec<Instr>, level: u8) -> Added
    requires { level < level_count }
    ensures { OnOk result (code.new.items ≡ code.old.items ++ context_saving_code level) }
{
    ask_preempted(code)?;
    save(code, 5, 32, X1)?;
    put!(code; csrrs(X5, MEPC, ZERO), sw(X5, X1, CONTEXT_PC), csrrwi(X5, PLEVEL, level), sw(X5, X1, CONTEXT_LEVEL),
        sw(X2, X1, CONTEXT_CUR), lw(X2, X4, BELOW_WORD), sw(X2, X1, CONTEXT_BELOW), sw(X1, X4, BELOW_WORD))
}

/// The task becomes the running one and Active.
fn mark_active(code: &mut Vec<Instr>, task: u32) -> Added
    requires { task < task_limit }
    ensures { OnOk result (code.new.items ≡ code.old.items ++ active_marking_code task) }
{
    put!(code; addi(X2, ZERO, task as i32 + 1), sw(X2, X4, CUR), addi(X2, ZERO, 1), sw(X2, X4, active(task as u8)))
}

/// x2 := the address of the frame, mepc := that of the first item.
fn begin(code: &mut Vec<Instr>, frame: u32, first: u32) -> Added
    ensures { OnOk result (code.new.items ≡ code.old.items ++ beginning_code frame first) }
{
    put!(code; lui(X2, hi(frame)), addi(X2, X2, lo(frame)), lui(X1, hi(first)), addi(X1, X1, lo(first)),
        csrrw(ZERO, MEPC, X1))
}

/// The task begins at its first item, with a frame of zeros at this address and x5 to x29 zero.
fn start_anew(code: &mut Vec<Instr>, frame: u32, words: u32, first: u32) -> Added
    requires { words ≤ frame_limit }
    ensures { OnOk result (code.new.items ≡ code.old.items ++ fresh_start_code frame words first) }
{
    begin(code, frame, first)?;
    clear_words(code, words, X2)?;
    clear(code, 5, 30)?;
    put!(code; mret())?;
    Ok(())
}
