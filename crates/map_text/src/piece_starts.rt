//! What an image takes of memory: where each piece begins, where zones end, and a row for each piece and each extent.
//! The names of pieces of code, and names that are joined.
ghost use Rattle.std.specs.Prelude.{◌≡◌, ◌<◌, ◌+◌, ◌++◌, ◌∷◌, [], IfOk, OnOk, get_or, ◌≤◌, All, length, drop};
ghost use Rattle.mem_map.specs.StackParts.{no_extent};
ghost use Rattle.map_text.specs.Listable.{IsListable};
ghost use Rattle.mem_map.specs.Stacks.{address_behind_data};
ghost use Rattle.map_text.specs.Rows.{address_behind_code, code_places, first_starts, last_starts, numbered_starts, routine_starts, single_start, starts_of, has_basic, map_rows, own_rows, extent_row, shared_rows, rows_sum};
ghost use Rattle.sloth_base.specs.MemoryMap.{memory_end};
ghost use Rattle.map_text.specs.Borders.{HasBorders, image_borders, stacks_base, stacks_end};
ghost use Rattle.map_text.specs.PieceRows.{first_start, row_to, rows_between};
ghost use Rattle.sloth_base.specs.Blocks.{block_object, block_service};
ghost use Rattle.sloth_base.specs.ServiceCodes.{object_kind};
ghost use Rattle.map_text.specs.PieceNames.{block_symbol, joined};

use crate::item_address;
use sloth_base::{
    BLOCK_COUNT, BOOT_BASE, Config, FIRST_COUNTER_LINE, List, MEMORY_BASE, NoMemory, ObjectKind,
    TaskDecl, VECTORS_BASE, WORD, block_object, block_service,
};
use sloth_region::{Extent, Map};
use std::alloc::{AllocError, Global};
use text_pieces::pieces::Piece::Word;
use text_pieces::text;

/// The place of the zone of code among the extents of a map.
const CODE: usize = 1;

/// That of the zone of data.
pub const DATA: usize = 2;

/// That of the first stack.
pub const STACKS: usize = 3;

/// An extent of a list, or none.
pub fn extent_or_none(extents: &[Extent], place: usize) -> Extent
    ensures { result ≡ get_or extents.now place no_extent }
{
    let none = Extent { base: 0, len: 0 };
    extents.get(place).copied().unwrap_or(none)
}

/// The address behind an extent.
pub fn behind(extent: Extent) -> u32
    requires { extent.base + extent.len < 4294967296 }
    ensures { result ≡ extent.base + extent.len }
{
    extent.base + extent.len
}

fn code_places(alloc: Global, map: &Map) -> Result<Vec<u32>, AllocError>
    requires { address_behind_code map.now < 4294967296 }
    ensures { IfOk result (λ places. places.items ≡ code_places map.now) }
{
    let end = behind(extent_or_none(map.extents.items(), CODE));
    let mut places = Vec::new(alloc);
    for first in map.places.first.items() {
        places.push(item_address(&map.places, end, *first as usize))?;
    }
    Ok(places)
}

fn push_single(starts: &mut Vec<Start>, kind: Kind, at: u32) -> Result<(), AllocError>
    ensures { OnOk result (starts.new.items ≡ starts.old.items ++ single_start kind at ∷ []) }
{
    let number = 0;
    starts.push(Start { kind, number, at })?;
    Ok(())
}

fn push_numbered(starts: &mut Vec<Start>, kind: Kind, addresses: &[u32]) -> Result<(), AllocError>
    ensures { OnOk result (starts.new.items ≡ starts.old.items ++ numbered_starts kind 0 addresses.now) }
{
    for number in 0..addresses.len() {
        let at = addresses[number];
        starts.push(Start { kind, number, at })?;
    }
    Ok(())
}

fn push_first(starts: &mut Vec<Start>, map: &Map) -> Result<(), AllocError>
    ensures { OnOk result (starts.new.items ≡ starts.old.items ++ first_starts map.now) }
{
    push_single(starts, Kind::Words, MEMORY_BASE)?;
    push_single(starts, Kind::Vectors, VECTORS_BASE)?;
    push_single(starts, Kind::Boot, BOOT_BASE)?;
    push_single(starts, Kind::Idle, map.idle)
}

fn push_routines(starts: &mut Vec<Start>, config: &Config, map: &Map) -> Result<(), AllocError>
    requires { IsListable config.now map.now }
    ensures { OnOk result (starts.new.items ≡ starts.old.items ++ routine_starts config.now map.now) }
{
    let tasks = config.tasks.items().len();
    let first = usize::from(FIRST_COUNTER_LINE);
    let end = first + tick_count(config);
    push_numbered(starts, Kind::Prologue, &map.handlers[..tasks])?;
    push_numbered(starts, Kind::Tick, &map.handlers[first..end])?;
    push_numbered(starts, Kind::Service, &map.places.blocks)
}

// Appends where functions begin, at these addresses, and symbols, and the end of all.
fn push_last(starts: &mut Vec<Start>, code: &[u32], map: &Map) -> Result<(), AllocError>
    requires { address_behind_data map.now < 4294967296 }
    ensures { OnOk result (starts.new.items ≡ starts.old.items ++ last_starts code.now map.now) }
{
    let end = behind(extent_or_none(map.extents.items(), DATA)).saturating_sub(WORD);
    push_numbered(starts, Kind::Code, code)?;
    push_numbered(starts, Kind::Data, map.places.symbols.items())?;
    push_single(starts, Kind::End, end)
}

/// Where each piece begins, in the order of the addresses.
pub fn starts(alloc: Global, config: &Config, map: &Map) -> Result<Vec<Start>, AllocError>
    requires { IsListable config.now map.now }
    ensures { IfOk result (λ starts. starts.items ≡ starts_of config.now map.now) }
{
    let code = code_places(alloc, map)?;
    let mut starts = Vec::new(alloc);
    push_first(&mut starts, map)?;
    push_routines(&mut starts, config, map)?;
    push_last(&mut starts, code.as_slice(), map)?;
    Ok(starts)
}

/// Where the zones behind the code begin, and where they end.
#[derive(Clone, Copy)]
pub struct Borders {
    /// The address of the data, behind the code.
    pub code_end: u32,
    /// The address behind the image's memory, which ends with the data.
    pub end: u32,
    /// The address of the first stack.
    pub stacks: u32,
    /// The address behind the last stack.
    pub top: u32,
}

fn stacks_base(stacks: &[Extent], end: u32) -> u32
    ensures { result ≡ stacks_base stacks.now end }
{
    let Some((stack, _)) = stacks.split_first() else {
        return end;
    };
    stack.base
}

fn stacks_end(stacks: &[Extent], end: u32) -> u32
    requires { All (λ e. e.base + e.len ≤ memory_end) stacks.now }
    ensures { result ≡ stacks_end stacks.now end }
{
    let mut top = end;
    for stack in stacks {
        top = stack.base + stack.len;
    }
    top
}

/// The borders of an image with so many bytes of memory.
pub fn image_borders(map: &Map, memory: usize) -> Borders
    requires { HasBorders map.now memory }
    ensures { result ≡ image_borders map.now memory }
{
    let extents = map.extents.items();
    let stacks = &extents[STACKS..];
    let end = MEMORY_BASE + memory as u32;
    Borders {
        code_end: extents[DATA].base,
        end,
        stacks: stacks_base(stacks, end),
        top: stacks_end(stacks, end),
    }
}

fn extent_row(kind: Kind, number: usize, extent: Extent) -> Row
    ensures { result ≡ extent_row kind number extent }
{
    Row {
        kind,
        number,
        base: extent.base,
        len: extent.len,
    }
}

fn has_basic(tasks: &[TaskDecl]) -> bool
    ensures { result ≡ has_basic tasks.now }
{
    tasks.iter().any(|task| !task.extended)
}

fn push_shared(rows: &mut Vec<Row>, config: &Config, map: &Map) -> Result<(), AllocError>
    ensures { OnOk result (rows.new.items ≡ rows.old.items ++ shared_rows config.now map.now) }
{
    if has_basic(config.tasks.items()) {
        let stack = extent_or_none(map.extents.items(), STACKS);
        rows.push(extent_row(Kind::Shared, 0, stack))?;
    }
    Ok(())
}

fn push_own(rows: &mut Vec<Row>, config: &Config, map: &Map) -> Result<(), AllocError>
    ensures { OnOk result (rows.new.items ≡ rows.old.items ++ own_rows config.now map.now (length config.now.tasks)) }
{
    let tasks = config.tasks.items();
    for task in 0..tasks.len() {
        if tasks[task].extended {
            let stack = extent_or_none(map.stacks.items(), task);
            rows.push(extent_row(Kind::Stack, task, stack))?;
        }
    }
    Ok(())
}

/// The rows of an image.
pub fn map_rows(alloc: Global, config: &Config, map: &Map) -> Result<Vec<Row>, AllocError>
    requires { IsListable config.now map.now }
    ensures { IfOk result (λ rows. rows.items ≡ map_rows config.now map.now) }
{
    let starts = starts(alloc, config, map)?;
    let end = behind(extent_or_none(map.extents.items(), DATA));
    let mut rows = rows_between(alloc, starts.as_slice(), end)?;
    push_shared(&mut rows, config, map)?;
    push_own(&mut rows, config, map)?;
    Ok(rows)
}

/// The bytes of rows together.
#[tactic(auto, using(crate::proofs::OneRow::sum_more, crate::proofs::OneRow::sum_end))]
pub fn rows_sum(rows: &[Row]) -> u128
    ensures { result ≡ rows_sum rows.now }
{
    let mut sum = 0;
    for i in 0..rows.len() {
        sum += u128::from(rows[i].len);
    }
    sum
}

/// What stands in an extent.
#[derive(Clone, Copy)]
pub enum Kind {
    /// The service words.
    Words,
    Vectors,
    Boot,
    Idle,
    /// The prologue of a task.
    Prologue,
    /// The handler of a counter's line.
    Tick,
    /// The code of a service with its object.
    Service,
    /// The code of a function.
    Code,
    /// A symbol.
    Data,
    /// The word behind all symbols.
    End,
    /// The stack that all basic tasks share.
    Shared,
    /// The stack of an extended task.
    Stack,
    /// Bytes between two parts, of neither.
    Between,
}

/// Where a piece begins: the task, counter, service block, function or symbol of this number, or the one piece of its
/// kind, with the number 0.
#[derive(Clone, Copy)]
pub struct Start {
    pub kind: Kind,
    pub number: usize,
    pub at: u32,
}

/// A piece of this kind and number, its address and its bytes.
#[derive(Clone, Copy)]
pub struct Row {
    pub kind: Kind,
    pub number: usize,
    pub base: u32,
    pub len: u32,
}

/// How many ticks a configuration has.
pub fn tick_count(config: &Config) -> usize
    ensures { result ≡ length config.now.counters }
{
    config.counters.items().len()
}

fn push_row(rows: &mut Vec<Row>, start: Start, to: u32) -> Result<(), AllocError>
    ensures { OnOk result (rows.new.items ≡ rows.old.items ++ row_to start to) }
{
    if start.at < to {
        rows.push(Row {
            kind: start.kind,
            number: start.number,
            base: start.at,
            len: to - start.at,
        })?;
    }
    Ok(())
}

// Where the piece at a place begins, or an address where there is none.
#[tactic(auto, using(crate::proofs::OnePieceRow::first_some, crate::proofs::OnePieceRow::first_none))]
fn first_start(starts: &[Start], place: usize, end: u32) -> u32
    ensures { result ≡ first_start (drop place starts.now) end }
{
    match starts.get(place) {
        Some(start) => start.at,
        None => end,
    }
}

/// The rows of pieces, each of which goes to the next, and the last one to an address.
pub fn rows_between(alloc: Global, starts: &[Start], end: u32) -> Result<Vec<Row>, AllocError>
    ensures { IfOk result (λ rows. rows.items ≡ rows_between starts.now end) }
{
    let mut rows = Vec::new(alloc);
    for i in 0..starts.len() {
        push_row(&mut rows, starts[i], first_start(starts, i + 1, end))?;
    }
    Ok(rows)
}

/// Two names, joined by `$`, which no name of a text has.
pub fn joined<'x>(alloc: Global, one: &'x [u8], other: &'x [u8]) -> Result<List<u8>, NoMemory>
    ensures { IfOk result (λ name. name ≡ joined one.now other.now) }
{
    let name = text!(alloc; Word(one), Word(b"$"), Word(other))?;
    Ok(List::from_vec(name))
}

/// A copy of a name.
pub fn copied(alloc: Global, name: &[u8]) -> Result<List<u8>, NoMemory>
    ensures { IfOk result (λ copy. copy ≡ name.now) }
{
    let name = Vec::from_slice(alloc, name)?;
    Ok(List::from_vec(name))
}

/// The service that has a place in the table of the services' code, joined to its object, or without one to the kernel.
#[tactic(auto, using(crate::proofs::Services::no_service))]
pub fn block_symbol(alloc: Global, config: &Config, number: usize) -> Result<List<u8>, NoMemory>
    ensures { IfOk result (λ name. name ≡ block_symbol config.now (block_service number) (block_object number)) }
{
    if number >= BLOCK_COUNT {
        return copied(alloc, b"-");
    }
    let Some(service) = block_service(number) else {
        return copied(alloc, b"-");
    };
    let (name, object) = (service.name(), block_object(number) as usize);
    match service.object_kind() {
        ObjectKind::Nothing => joined(alloc, b"kernel", name),
        ObjectKind::Task => joined(alloc, name, config.task_name(object)),
        ObjectKind::Resource => joined(alloc, name, config.resource_name(object)),
        ObjectKind::Alarm => joined(alloc, name, config.alarm_name(object)),
    }
}
