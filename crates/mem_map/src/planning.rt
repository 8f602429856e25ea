//! The map of an image. Addresses of pieces, each right behind the one before it.
//! The lengths of code and symbols in bytes.
//! The addresses of services, each right behind the one before it, and those to which the vector words jump.
ghost use Rattle.std.specs.Prelude.{ℕ, ◌≡◌, ◌≤◌, ◌<◌, ◌⊎◌, IfOk, All, length, map, get_or, slice_index, take};
ghost use Rattle.code_rules.specs.WellFormed.{WellFormed};
ghost use Rattle.stack_bounds.specs.Bounds.{AreBounds};
ghost use Rattle.mem_map.specs.Starts.{starts, end_of, code_byte_count};
ghost use Rattle.mem_map.specs.Zones.{HasZones};
ghost use Rattle.mem_map.specs.Stacks.{HasStacks};
ghost use Rattle.mem_map.specs.Plan.{MayPlan, HasAddresses, idle_at, prologues_at, ticks_at, tick_starts, services_at};
ghost use Rattle.mem_map.specs.Plan.{items_at, code_end, symbol_bytes};
ghost use Rattle.sloth_base.specs.Owners.{first_counter_line, counter_line};
ghost use Rattle.sloth_base.specs.Limits.{task_limit, counter_limit, item_limit, data_limit};
ghost use Rattle.sloth_base.specs.MemoryMap.{line_count};
ghost use Rattle.mem_map.specs.Planned.{IsPlanned};

use crate::all_lengths::{CodeLengths, all_lengths};
use crate::stacks::{stack_lengths, task_parts};
use crate::zones::plan_zones;
use sloth_base::{
    App, BLOCK_COUNT, BOOT_BASE, Bounds, Config, FIRST_COUNTER_LINE, Func, LINE_COUNT, List,
    NoMemory, Places, Result, Symbol, VECTORS_BASE, WORD,
};
use sloth_region::Map;
use stack_bounds::offsets;
use std::alloc::{AllocError, Global};

/// The addresses of all code behind boot, and the address behind the last item.
#[derive(Drop)]
struct Code {
    idle: u32,
    handlers: [u32; LINE_COUNT],
    services: [u32; BLOCK_COUNT],
    items: List<u32>,
    end: u32,
}

// The addresses of pieces of code of so many instructions, the first at `from`.
fn place_code(alloc: Global, from: u32, sizes: &[u32]) -> Result<Pieces, AllocError>
    requires small { All (λ size. size ≤ 2048) sizes.now }
    requires fits { end_of from (map code_byte_count sizes.now) < 4294967296 }
    ensures starts { IfOk result (λ pieces. pieces.starts ≡ starts from (map code_byte_count sizes.now)) }
    ensures end { IfOk result (λ pieces. pieces.end ≡ end_of from (map code_byte_count sizes.now)) }
{
    let lengths = code_in_bytes(alloc, sizes)?;
    place_pieces(alloc, from, &lengths)
}

fn plan_code(alloc: Global, lengths: &CodeLengths) -> Result<Code, AllocError>
    requires boot { lengths.now.boot ≤ 136 }
    requires few { (length lengths.now.prologues ≤ task_limit) × (length lengths.now.ticks ≤ counter_limit) }
    requires prologues { All (λ size. size ≤ 2048) lengths.now.prologues }
    requires ticks { All (λ size. size ≤ 2048) lengths.now.ticks }
    requires items { All (λ size. size ≤ 2048) lengths.now.items }
    requires fits { (ticks_at lengths.now < 4294967296) × (services_at lengths.now < 4294967296)
        × (items_at lengths.now < 4294967296)
        × (code_end lengths.now < 4294967296) }
    ensures idle { IfOk result (λ code. code.idle ≡ idle_at lengths.now) }
    ensures lines { IfOk result (λ code. length code.handlers ≡ line_count) }
    ensures prologues { IfOk result (λ code. take (length lengths.now.prologues) code.handlers
        ≡ starts (prologues_at lengths.now) (map code_byte_count lengths.now.prologues)) }
    ensures ticks { IfOk result (λ code. (c : ℕ) → c < length lengths.now.ticks
        → slice_index code.handlers (counter_line c)
        ≡ get_or (tick_starts lengths.now) c 0) }
    ensures unused { IfOk result (λ code. (line : ℕ) → length lengths.now.prologues ≤ line → line < line_count
        → (line < first_counter_line) ⊎ (counter_line (length lengths.now.ticks) ≤ line)
        → slice_index code.handlers line ≡ code.idle) }
    ensures services { IfOk result (λ code. code.services ≡ starts (services_at lengths.now)
        (map code_byte_count lengths.now.services)) }
    ensures items { IfOk result (λ code. code.items ≡ starts (items_at lengths.now)
        (map code_byte_count lengths.now.items)) }
    ensures end { IfOk result (λ code. code.end ≡ code_end lengths.now) }
{
    let idle = BOOT_BASE + WORD * lengths.boot;
    let prologues = place_code(alloc, idle + WORD, lengths.prologues.items())?;
    let ticks = place_code(alloc, prologues.end, lengths.ticks.items())?;
    let services = place_services(ticks.end, &lengths.services);
    let items = place_code(alloc, services.end, lengths.items.items())?;
    let services = services.starts;
    Ok(Code {
        idle,
        handlers: handlers(idle, prologues.starts.items(), ticks.starts.items()),
        services,
        items: items.starts,
        end: items.end,
    })
}

// The number of items before those of each function.
fn plan_first(alloc: Global, app: &App) -> Result<Pieces, AllocError>
    requires few { All (λ f. length f.items ≤ item_limit) app.now.funcs }
    requires fits { end_of 0 (map (λ f. length f.items) app.now.funcs) < 4294967296 }
    ensures { IfOk result (λ pieces. pieces.starts ≡ starts 0 (map (λ f. length f.items) app.now.funcs)) }
{
    let counts = item_counts(alloc, app.funcs.items())?;
    place_pieces(alloc, 0, &counts)
}

// The addresses of the symbols, the first at `from`.
fn plan_symbols(alloc: Global, from: u32, app: &App) -> Result<Pieces, AllocError>
    requires few { All (λ y. length y.bytes ≤ data_limit) app.now.symbols }
    requires fits { end_of from (map symbol_bytes app.now.symbols) < 4294967296 }
    ensures starts { IfOk result (λ pieces. pieces.starts ≡ starts from (map symbol_bytes app.now.symbols)) }
    ensures end { IfOk result (λ pieces. pieces.end ≡ end_of from (map symbol_bytes app.now.symbols)) }
{
    let lengths = symbol_lengths(alloc, app.symbols.items())?;
    place_pieces(alloc, from, &lengths)
}

fn make_map(
    alloc: Global,
    config: &Config,
    app: &App,
    lengths: &CodeLengths,
    bounds: &Bounds,
    offsets: &[u32],
) -> Result<Map>
    requires { MayPlan config.now app.now lengths.now bounds.now offsets.now }
    ensures zones { IfOk result (λ plan. HasZones plan config.now) }
    ensures stacks { IfOk result (HasStacks config.now app.now bounds.now) }
    ensures addresses { IfOk result (HasAddresses config.now app.now lengths.now) }
{
    let declared = config.tasks.items();
    let code = plan_code(alloc, lengths)?;
    let first = plan_first(alloc, app)?;
    let symbols = plan_symbols(alloc, code.end, app)?;
    let stack_lens = stack_lengths(alloc, declared, bounds)?;
    let zones = plan_zones(
        alloc,
        code.end - VECTORS_BASE,
        symbols.end + WORD - code.end,
        &stack_lens,
    )?;
    let parts = task_parts(alloc, declared, zones.stacks.items(), offsets)?;
    let blocks = code.services;
    let handlers = code.handlers;
    Ok(Map {
        extents: zones.extents,
        places: Places {
            items: code.items,
            first: first.starts,
            symbols: symbols.starts,
            blocks,
        },
        stacks: parts.stacks,
        tops: parts.tops,
        words: zones.words,
        idle: code.idle,
        handlers,
    })
}

/// The map of the image of well-formed task code: in this order the vector words, boot, the idle loop, each task's
/// prologue, each counter's tick, the services called, all items, each right behind the one before, all symbols, the
/// stack of all basic tasks, and one for each extended task. All have room; only the map may lack memory.
pub fn plan(alloc: Global, app: &App, config: &Config, bounds: &Bounds) -> Result<Map>
    requires well_formed { WellFormed config.now app.now }
    requires bounds { AreBounds config.now app.now bounds.now }
    ensures { IfOk result (IsPlanned config.now app.now bounds.now) }
{
    let lengths = all_lengths(alloc, config, app)?;
    let offsets = offsets(alloc, config, app, bounds)?;
    let map = make_map(alloc, config, app, &lengths, bounds, &offsets)?;
    Ok(map)
}

/// The address of each piece, and the address behind the last one.
#[derive(Drop)]
pub struct Pieces {
    pub starts: List<u32>,
    pub end: u32,
}

/// The addresses of pieces of these lengths, the first at `from`.
pub fn place_pieces(alloc: Global, from: u32, lengths: &[u32]) -> Result<Pieces, AllocError>
    requires { end_of from lengths.now < 4294967296 }
    ensures starts { IfOk result (λ pieces. pieces.starts ≡ starts from lengths.now) }
    ensures end { IfOk result (λ pieces. pieces.end ≡ end_of from lengths.now) }
{
    let mut starts = Vec::new(alloc);
    let mut end = from;
    for len in lengths {
        starts.push(end)?;
        end += *len;
    }
    let starts = List::from_vec(starts);
    Ok(Pieces { starts, end })
}

/// The bytes of pieces of code with so many instructions, at most 2,048 each.
pub fn code_in_bytes(alloc: Global, sizes: &[u32]) -> Result<Vec<u32>, AllocError>
    requires { All (λ size. size ≤ 2048) sizes.now }
    ensures { IfOk result (λ lengths. lengths.items ≡ map code_byte_count sizes.now) }
{
    let mut lengths = Vec::new(alloc);
    for size in sizes {
        lengths.push(WORD * *size)?;
    }
    Ok(lengths)
}

/// The number of items of each function, at most `ITEM_LIMIT`.
pub fn item_counts(alloc: Global, funcs: &[Func]) -> Result<Vec<u32>, AllocError>
    requires { All (λ f. length f.items ≤ item_limit) funcs.now }
    ensures { IfOk result (λ counts. counts.items ≡ map (λ f. length f.items) funcs.now) }
{
    let mut counts = Vec::new(alloc);
    for func in funcs {
        counts.push(func.items.items().len() as u32)?;
    }
    Ok(counts)
}

/// The bytes of each symbol, at most `DATA_LIMIT`, to the next multiple of 4.
pub fn symbol_lengths(alloc: Global, symbols: &[Symbol]) -> Result<Vec<u32>, AllocError>
    requires { All (λ y. length y.bytes ≤ data_limit) symbols.now }
    ensures { IfOk result (λ lengths. lengths.items ≡ map symbol_bytes symbols.now) }
{
    let mut lengths = Vec::new(alloc);
    for symbol in symbols {
        let len = symbol.bytes.items().len() as u32;
        lengths.push((len + (WORD - 1)) / WORD * WORD)?;
    }
    Ok(lengths)
}

// Those of the lines of counters: their ticks. All others go to the idle loop.
fn with_ticks(idle: u32, ticks: &[u32]) -> [u32; LINE_COUNT]
    requires { length ticks.now ≤ counter_limit }
    ensures ticks { (c : ℕ) → c < length ticks.now → slice_index result (counter_line c) ≡ get_or ticks.now c 0 }
    ensures unused { (line : ℕ) → line < line_count → (line < first_counter_line)
        ⊎ (counter_line (length ticks.now) ≤ line) → slice_index result line ≡ idle }
    ensures lines { length result ≡ line_count }
{
    let mut handlers = [idle; LINE_COUNT];
    for counter in 0..ticks.len() {
        handlers[usize::from(FIRST_COUNTER_LINE) + counter] = ticks[counter];
    }
    handlers
}

/// Where the vector word of each line jumps to: the prologue of its task, the tick of its counter, or the idle loop.
pub fn handlers(idle: u32, prologues: &[u32], ticks: &[u32]) -> [u32; LINE_COUNT]
    requires { (length prologues.now ≤ task_limit) × (length ticks.now ≤ counter_limit) }
    ensures prologues { take (length prologues.now) result ≡ prologues.now }
    ensures ticks { (c : ℕ) → c < length ticks.now → slice_index result (counter_line c) ≡ get_or ticks.now c 0 }
    ensures unused { (line : ℕ) → length prologues.now ≤ line → line < line_count → (line < first_counter_line)
        ⊎ (counter_line (length ticks.now) ≤ line)
        → slice_index result line ≡ idle }
    ensures lines { length result ≡ line_count }
{
    let mut handlers = with_ticks(idle, ticks);
    for task in 0..prologues.len() {
        handlers[task] = prologues[task];
    }
    handlers
}

/// The address of each service by its number, and the address behind the last one.
#[derive(Drop)]
pub struct Services {
    pub starts: [u32; BLOCK_COUNT],
    pub end: u32,
}

/// The addresses of services of so many instructions, the first at `from`. One that has none takes no room.
pub fn place_services(from: u32, sizes: &[u32; BLOCK_COUNT]) -> Services
    requires { end_of from (map code_byte_count sizes.now) < 4294967296 }
    ensures starts { result.starts ≡ starts from (map code_byte_count sizes.now) }
    ensures end { result.end ≡ end_of from (map code_byte_count sizes.now) }
{
    let mut starts = [0; BLOCK_COUNT];
    let mut end = from;
    for number in 0..BLOCK_COUNT {
        starts[number] = end;
        end += WORD * sizes[number];
    }
    Services { starts, end }
}
