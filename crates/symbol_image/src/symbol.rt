//! The symbols of the pieces of an image, and of the kernel's words; their table, and that of their names.
ghost use Rattle.std.specs.Prelude.{◌≡◌, ◌≤◌, ◌<◌, ◌++◌, ◌∷◌, [], IfOk, OnOk, length};
ghost use Rattle.std.specs.List.{flat_map};
ghost use Rattle.map_text.specs.PieceNames.{block_symbol, joined};
ghost use Rattle.sloth_base.specs.ConfigRange.{scheduler_number};
ghost use Rattle.sloth_region.specs.Layout.{saved_level};
ghost use Rattle.sloth_base.specs.Limits.{alarm_limit, counter_limit, resource_limit, task_limit};
ghost use Rattle.symbol_image.specs.Symbols.{alarm_words, counter_words, global_symbols, local_at, local_symbols};
ghost use Rattle.symbol_image.specs.Symbols.{resume_words, saved_words, scheduler_words, state_words, word_symbol};
ghost use Rattle.symbol_image.specs.Symbols.{word_symbols};
ghost use Rattle.symbol_image.specs.WordSymbols.{HasWords};
ghost use Rattle.symbol_image.specs.SymbolTable.{name_table, section_number, symbol_bytes, symbol_info, symbol_table};

use crate::fields::{put_bytes, put_lengths, put_text};
use image_file::put_u16;
use map_text::{Borders, Kind, Row, block_symbol, copied, joined};
use sloth_base::{
    AlarmDecl, App, Config, CounterDecl, List, MEMORY_BASE, Name, RES_SCHEDULER, Result, TaskDecl,
    VECTORS_BASE,
};
use sloth_region::{
    BELOW_WORD, CONTEXT_BYTES, CUR, IDLE_CONTEXT, active, alarm_cycle, alarm_left, counter_value,
    events, resume, saved, wait,
};
use std::alloc::Global;
use text_pieces::push;

/// What stands at a symbol's address.
#[derive(Clone, Copy)]
pub enum SymbolKind {
    Object,
    Function,
}

/// Who sees a symbol: those of the kernel are local, those of the task code global.
#[derive(Clone, Copy)]
pub enum Binding {
    Local,
    Global,
}

/// A name for so many bytes at an address.
#[derive(Drop)]
pub struct Symbol {
    pub name: List<u8>,
    pub address: u32,
    pub size: usize,
    pub kind: SymbolKind,
    pub binding: Binding,
}

/// The symbol of these parts.
pub fn named(name: List<u8>, at: u32, size: usize, kind: SymbolKind, binding: Binding) -> Symbol
    ensures { result ≡ record { name = name; address = at; size = size; kind = kind; binding = binding } }
{
    Symbol {
        name,
        address: at,
        size,
        kind,
        binding,
    }
}

fn push_local(all: &mut Vec<Symbol>, name: List<u8>, kind: SymbolKind, row: &Row) -> Result<()>
    ensures { OnOk result (all.new.items ≡ all.old.items ++ local_at name kind row.now) }
{
    let symbol = named(name, row.base, row.len as usize, kind, Binding::Local);
    push(all, symbol)
}

fn push_kernel(
    alloc: Global,
    all: &mut Vec<Symbol>,
    name: &[u8],
    kind: SymbolKind,
    row: &Row,
) -> Result<()>
    ensures { OnOk result (all.new.items ≡ all.old.items ++ local_at name.now kind row.now) }
{
    let name = copied(alloc, name)?;
    push_local(all, name, kind, row)
}

fn push_row_local(alloc: Global, all: &mut Vec<Symbol>, config: &Config, row: &Row) -> Result<()>
    ensures { OnOk result (all.new.items ≡ all.old.items ++ local_symbols config.now row.now) }
{
    let (code, data) = (SymbolKind::Function, SymbolKind::Object);
    let number = row.number;
    match row.kind {
        Kind::Words | Kind::Code | Kind::Data | Kind::End | Kind::Between => Ok(()),
        Kind::Vectors => push_kernel(alloc, all, b"kernel$vectors", code, row),
        Kind::Boot => push_kernel(alloc, all, b"kernel$boot", code, row),
        Kind::Idle => push_kernel(alloc, all, b"kernel$idle", code, row),
        Kind::Prologue => {
            let name = joined(alloc, b"prologue", config.task_name(number))?;
            push_local(all, name, code, row)
        }
        Kind::Tick => {
            let name = joined(alloc, b"tick", config.counter_name(number))?;
            push_local(all, name, code, row)
        }
        Kind::Service => push_local(all, block_symbol(alloc, config, number)?, code, row),
        Kind::Shared => push_kernel(alloc, all, b"kernel$stack", data, row),
        Kind::Stack => {
            let name = joined(alloc, b"stack", config.task_name(number))?;
            push_local(all, name, data, row)
        }
    }
}

fn push_row_global(alloc: Global, all: &mut Vec<Symbol>, app: &App, row: &Row) -> Result<()>
    ensures { OnOk result (all.new.items ≡ all.old.items ++ global_symbols app.now row.now) }
{
    let (code, data) = (SymbolKind::Function, SymbolKind::Object);
    let global = Binding::Global;
    match row.kind {
        Kind::Code => {
            let name = copied(alloc, app.function_name(row.number))?;
            let symbol = named(name, row.base, row.len as usize, code, global);
            push(all, symbol)
        }
        Kind::Data => {
            let name = copied(alloc, app.symbol_name(row.number))?;
            let size = match app.symbols.items().get(row.number) {
                Some(symbol) => symbol.bytes.items().len(),
                None => 0,
            };
            push(all, named(name, row.base, size, data, global))
        }
        Kind::Words | Kind::Vectors | Kind::Boot | Kind::Idle | Kind::Prologue => Ok(()),
        Kind::Tick | Kind::Service | Kind::End | Kind::Shared | Kind::Stack => Ok(()),
        Kind::Between => Ok(()),
    }
}

/// Appends the symbols of the kernel's pieces, in the order of the rows.
pub fn push_locals(alloc: Global, to: &mut Vec<Symbol>, config: &Config, rows: &[Row]) -> Result<()>
    ensures { OnOk result (to.new.items ≡ to.old.items ++ flat_map (local_symbols config.now) rows.now) }
{
    for row in rows {
        push_row_local(alloc, to, config, row)?;
    }
    Ok(())
}

/// Appends the symbols of bodies and data, in the order of the rows.
pub fn push_globals(alloc: Global, all: &mut Vec<Symbol>, app: &App, rows: &[Row]) -> Result<()>
    ensures { OnOk result (all.new.items ≡ all.old.items ++ flat_map (global_symbols app.now) rows.now) }
{
    for row in rows {
        push_row_global(alloc, all, app, row)?;
    }
    Ok(())
}

fn section_number(borders: &Borders, address: u32) -> u16
    ensures { result ≡ section_number borders.now address }
{
    if address < VECTORS_BASE {
        1
    } else if address < borders.code_end {
        2
    } else if address < borders.end {
        3
    } else {
        4
    }
}

fn symbol_info(symbol: &Symbol) -> u8
    ensures { result ≡ symbol_info symbol.now }
{
    let binding = match symbol.binding {
        Binding::Local => 0,
        Binding::Global => 1,
    };
    let kind = match symbol.kind {
        SymbolKind::Object => 1,
        SymbolKind::Function => 2,
    };
    binding * 16 + kind
}

fn put_symbol(table: &mut Vec<u8>, borders: &Borders, name: usize, symbol: &Symbol) -> Result<()>
    ensures { OnOk result (table.new.items ≡ table.old.items ++ symbol_bytes borders.now name symbol.now) }
{
    put_lengths(table, &[name, symbol.address as usize, symbol.size])?;
    put_bytes(table, &[symbol_info(symbol), 0])?;
    put_u16(table, section_number(borders, symbol.address))
}

/// The two tables.
#[derive(Drop)]
pub struct Tables {
    pub table: Vec<u8>,
    pub names: Vec<u8>,
}

/// The tables of symbols.
#[tactic(auto, unfolding(crate::specs::SymbolTable::symbol_table, crate::specs::SymbolTable::name_table))]
pub fn symbol_tables(alloc: Global, borders: &Borders, symbols: &[Symbol]) -> Result<Tables>
    ensures symbols { IfOk result (λ tables. tables.table.items ≡ symbol_table borders.now symbols.now) }
    ensures names { IfOk result (λ tables. tables.names.items ≡ name_table symbols.now) }
{
    let mut table = Vec::from_slice(alloc, &[0; 16])?;
    let mut names = Vec::from_slice(alloc, &[0])?;
    for symbol in symbols {
        put_symbol(&mut table, borders, names.len(), symbol)?;
        put_text(&mut names, symbol.name.items())?;
    }
    Ok(Tables { table, names })
}

/// The bytes of a word.
const BYTES: usize = 4;

// Appends a word, by two names that are joined.
fn push_word(alloc: Global, all: &mut Vec<Symbol>, one: &[u8], other: &[u8], at: u32) -> Result<()>
    requires { at ≤ 1023 }
    ensures { OnOk result (all.new.items ≡ all.old.items ++ word_symbol (joined one.now other.now) at ∷ []) }
{
    let name = joined(alloc, one, other)?;
    let (kind, binding) = (SymbolKind::Object, Binding::Local);
    push(all, named(name, MEMORY_BASE + at, BYTES, kind, binding))
}

fn push_states(alloc: Global, all: &mut Vec<Symbol>, tasks: &[TaskDecl]) -> Result<()>
    requires { length tasks.now ≤ task_limit }
    ensures { OnOk result (all.new.items ≡ all.old.items ++ state_words 0 tasks.now) }
{
    for number in 0..tasks.len() {
        let name = tasks[number].name.bytes();
        let task = number as u8;
        push_word(alloc, all, b"active", name, active(task) as u32)?;
        push_word(alloc, all, b"events", name, events(task) as u32)?;
        push_word(alloc, all, b"wait", name, wait(task) as u32)?;
    }
    Ok(())
}

fn push_counters(alloc: Global, all: &mut Vec<Symbol>, counters: &[CounterDecl]) -> Result<()>
    requires { length counters.now ≤ counter_limit }
    ensures { OnOk result (all.new.items ≡ all.old.items ++ counter_words 0 counters.now) }
{
    for number in 0..counters.len() {
        let name = counters[number].name.bytes();
        let offset = counter_value(number as u8) as u32;
        push_word(alloc, all, b"value", name, offset)?;
    }
    Ok(())
}

fn push_alarms(alloc: Global, all: &mut Vec<Symbol>, alarms: &[AlarmDecl]) -> Result<()>
    requires { length alarms.now ≤ alarm_limit }
    ensures { OnOk result (all.new.items ≡ all.old.items ++ alarm_words 0 alarms.now) }
{
    for number in 0..alarms.len() {
        let name = alarms[number].name.bytes();
        let alarm = number as u8;
        push_word(alloc, all, b"left", name, alarm_left(alarm) as u32)?;
        push_word(alloc, all, b"cycle", name, alarm_cycle(alarm) as u32)?;
    }
    Ok(())
}

fn push_resumes(alloc: Global, all: &mut Vec<Symbol>, tasks: &[TaskDecl]) -> Result<()>
    requires { length tasks.now ≤ task_limit }
    ensures { OnOk result (all.new.items ≡ all.old.items ++ resume_words 0 tasks.now) }
{
    for number in 0..tasks.len() {
        let name = tasks[number].name.bytes();
        let offset = resume(number as u32) as u32;
        push_word(alloc, all, b"resume", name, offset)?;
    }
    Ok(())
}

fn push_levels(alloc: Global, all: &mut Vec<Symbol>, resources: &[Name]) -> Result<()>
    requires { length resources.now ≤ resource_limit }
    ensures { OnOk result (all.new.items ≡ all.old.items ++ saved_words 0 resources.now) }
{
    for number in 0..resources.len() {
        let name = resources[number].bytes();
        push_word(alloc, all, b"saved", name, saved(number as u8) as u32)?;
    }
    Ok(())
}

fn scheduler_level() -> u32
    ensures { result ≡ saved_level scheduler_number }
{
    saved(RES_SCHEDULER as u8) as u32
}

fn push_scheduler(alloc: Global, all: &mut Vec<Symbol>, exists: bool) -> Result<()>
    ensures { OnOk result (all.new.items ≡ all.old.items ++ scheduler_words exists) }
{
    if exists {
        let level = scheduler_level();
        return push_word(alloc, all, b"saved", b"RES_SCHEDULER", level);
    }
    Ok(())
}

/// Appends the symbols of all service words, and that of the context of the idle loop.
#[tactic(auto, unfolding(crate::specs::Symbols::word_symbols))]
pub fn push_words(alloc: Global, all: &mut Vec<Symbol>, config: &Config) -> Result<()>
    requires { HasWords config.now }
    ensures { OnOk result (all.new.items ≡ all.old.items ++ word_symbols config.now) }
{
    push_word(alloc, all, b"kernel", b"cur", CUR as u32)?;
    push_states(alloc, all, config.tasks.items())?;
    push_counters(alloc, all, config.counters.items())?;
    push_alarms(alloc, all, config.alarms.items())?;
    push_word(alloc, all, b"kernel", b"below", BELOW_WORD as u32)?;
    push_resumes(alloc, all, config.tasks.items())?;
    push_levels(alloc, all, config.resources.items())?;
    push_scheduler(alloc, all, config.res_scheduler)?;
    let name = joined(alloc, b"kernel", b"idle_context")?;
    let (kind, binding) = (SymbolKind::Object, Binding::Local);
    let (at, size) = (MEMORY_BASE + IDLE_CONTEXT as u32, CONTEXT_BYTES as usize);
    push(all, named(name, at, size, kind, binding))
}
