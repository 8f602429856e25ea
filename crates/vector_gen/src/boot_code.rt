//! Boot: the levels and enable bytes of the lines of tasks and counters, and the first activations.
//! The idle loop: one word that jumps to itself, with interrupts open. The vector words: for each line a jump to its
//! handler.
ghost use Rattle.std.specs.Prelude.{ℕ, ◌^◌, slice_index, ◌≡◌, ◌++◌, [], ◌<◌, ◌≤◌, IfOk, OnOk, length, ◌∷◌};
ghost use Rattle.sloth_base.specs.MemoryMap.{boot_base, vectors_base, line_count};
ghost use Rattle.sloth_base.specs.ConfigRange.{InRange};
ghost use Rattle.code_lengths.specs.CodeLengths.{boot_length};
ghost use Rattle.vector_gen.specs.Boot.{line_start_code, lines_code, counters_code, finishing_code, IsBootCode};
ghost use Rattle.sloth_base.specs.Owners.{first_counter_line};
ghost use Rattle.sloth_base.specs.Limits.{task_limit, counter_limit, level_count};
ghost use Rattle.vector_gen.specs.Vectors.{AreInReach, AreJumps, StepToHandlers};
ghost use Rattle.vector_gen.specs.Idle.{idle_mark, IsIdleCode};

use crate::Added;
use block_parts::{counter_level, jump, raise_autostarted, stay};
use masked_code::put;
use rv32_instr::{
    Block, Instr, MEPC, MPIE, MSTATUS, X1, X2, X3, X4, ZERO, addi, csrrw, hi, lo, lui, mret, sb,
};
use sloth_base::{
    BOOT_BASE, Config, CounterDecl, FIRST_COUNTER_LINE, LINE_COUNT, Levels, List, Mark, MarkKind,
    NoMemory, Result, TASK_LIMIT, TaskDecl, VECTORS_BASE,
};
use sloth_region::{
    CONTEXT_BYTES, CONTROLLER_HIGH, IDLE_CONTEXT, Map, WORDS_HIGH, enabled_byte, level_byte,
};
use std::alloc::Global;

/// The block of boot. It stores no zero to a pending byte and loads none.
pub fn boot(alloc: Global, config: &Config, levels: &Levels, map: &Map) -> Result<Block>
    requires range { InRange config.now }
    requires levels { levels.now.top < level_count }
    ensures at { IfOk result (λ block. block.at ≡ boot_base) }
    ensures marks { IfOk result (λ block. block.marks ≡ []) }
    ensures size { IfOk result (λ block. length block.code
        ≡ boot_length config.now.tasks (length config.now.counters)) }
    ensures effect { IfOk result (λ block.
        IsBootCode config.now.tasks (length config.now.counters) levels.now.task levels.now.top map.now.idle
        block.code) }
{
    let mut code = Vec::new(alloc);
    put!(&mut code; lui(X3, CONTROLLER_HIGH), addi(X4, ZERO, 1))?;
    start_all(&mut code, config.tasks.items(), levels.task)?;
    start_counters(&mut code, config.counters.items(), counter_level(levels))?;
    finish(&mut code, map.idle)?;
    Ok(Block {
        at: BOOT_BASE,
        code: List::from_vec(code),
        marks: List::from_vec(Vec::new(alloc)),
    })
}

/// A line gets its level and is enabled, and is raised where its task is autostarted.
fn start(code: &mut Vec<Instr>, line: u8, level: u8, autostart: bool) -> Added
    requires { line < line_count }
    ensures { OnOk result (code.new.items ≡ code.old.items ++ line_start_code line level autostart) }
{
    put!(code; addi(X1, ZERO, level as i32), sb(X1, X3, level_byte(line)), sb(X4, X3, enabled_byte(line)))?;
    raise_autostarted(code, line, autostart)
}

fn start_all(code: &mut Vec<Instr>, tasks: &[TaskDecl], levels: [u8; TASK_LIMIT]) -> Added
    requires { length tasks.now ≤ task_limit }
    ensures added { OnOk result (code.new.items ≡ code.old.items ++ lines_code 0 tasks.now levels) }
    ensures bytes { (line : ℕ) → slice_index levels line < 256 }
{
    for i in 0..tasks.len() {
        start(code, i as u8, levels[i], tasks[i].autostart)?;
    }
    Ok(())
}

/// The lines of all counters, at one level.
fn start_counters(code: &mut Vec<Instr>, counters: &[CounterDecl], level: u8) -> Added
    requires { length counters.now ≤ counter_limit }
    ensures added { OnOk result (code.new.items
        ≡ code.old.items ++ counters_code (length counters.now) first_counter_line level) }
    ensures byte { level < 256 }
{
    for i in 0..counters.len() {
        start(code, FIRST_COUNTER_LINE + i as u8, level, false)?;
    }
    Ok(())
}

/// x4 := the base of memory, x2 := the end of the idle loop's context, MPIE := 1, and on to the idle loop.
fn finish(code: &mut Vec<Instr>, idle: u32) -> Added
    ensures added { OnOk result (code.new.items ≡ code.old.items ++ finishing_code idle) }
    ensures fits { idle < 2 ^ 32 }
{
    put!(code; lui(X4, WORDS_HIGH), addi(X2, X4, IDLE_CONTEXT + CONTEXT_BYTES), addi(X1, ZERO, MPIE),
        csrrw(ZERO, MSTATUS, X1), lui(X1, hi(idle)), addi(X1, X1, lo(idle)), csrrw(ZERO, MEPC, X1), mret())
}

/// The idle loop, under its mark.
pub fn idle(alloc: Global, map: &Map) -> Result<Block>
    ensures at { IfOk result (λ block. block.at ≡ map.now.idle) }
    ensures marks { IfOk result (λ block. block.marks ≡ idle_mark map.now.idle ∷ []) }
    ensures size { IfOk result (λ block. length block.code ≤ 256) }
    ensures effect { IfOk result (λ block. IsIdleCode block.code) }
{
    let mut code = Vec::new(alloc);
    stay(&mut code)?;
    let mark = Mark {
        address: map.idle,
        kind: MarkKind::Idle,
        a: 0,
        b: 0,
        c: 0,
    };
    let marks = Vec::from_slice(alloc, &[mark])?;
    Ok(Block {
        at: map.idle,
        code: List::from_vec(code),
        marks: List::from_vec(marks),
    })
}

/// The 32 vector words.
pub fn vectors(alloc: Global, map: &Map) -> Result<Block>
    requires { AreInReach map.now.handlers }
    ensures at { IfOk result (λ block. block.at ≡ vectors_base) }
    ensures marks { IfOk result (λ block. block.marks ≡ []) }
    ensures size { IfOk result (λ block. length block.code ≤ 256) }
    ensures effect { IfOk result (λ block. AreJumps line_count map.now.handlers block.code) }
    ensures steps { IfOk result (λ block. StepToHandlers map.now.handlers block.code) }
{
    let mut code = Vec::new(alloc);
    for line in 0..LINE_COUNT as u32 {
        let from = VECTORS_BASE + 4 * line;
        put!(&mut code; jump(from, map.handlers[line as usize]))?;
    }
    Ok(Block {
        at: VECTORS_BASE,
        code: List::from_vec(code),
        marks: List::from_vec(Vec::new(alloc)),
    })
}
