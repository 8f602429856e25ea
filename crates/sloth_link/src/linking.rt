//! The image of blocks of code, of the items of task code, and of its symbols. Bytes at an address.
//! Runs of bytes, written into a memory. The data of an image. The words of alarms in an image.
//! The items of task code, each as a block of its own.
ghost use Rattle.std.specs.Prelude.{◌≡◌, ◌<◌, ◌≤◌, ◌+◌, ◌++◌, IfOk, All, length, replicate, ℕ, slice_index, map};
ghost use Rattle.std.specs.List.Sorted.{IsPermutation, IsStrictlyIncreasing};
ghost use Rattle.std.specs.Vec.{vec_len};
ghost use Rattle.sloth_base.specs.MemoryMap.{vectors_base, memory_base};
ghost use Rattle.sloth_base.specs.Limits.{alarm_limit, body_limit};
ghost use Rattle.rv32_instr.specs.Range.{InRange};
ghost use Rattle.rv32_expand.specs.InPlace.{ItemsInPlace, IsAppItem};
ghost use Rattle.mem_map.specs.Zones.{data_zone};
ghost use Rattle.sloth_link.specs.Image.{MayLink, HasMemory, all_blocks, all_data, memory_size};
ghost use Rattle.mem_map.specs.Sections.{marks_of, HaveOwnAddresses, addresses, linked_memory, IsSectionInside};
ghost use Rattle.sloth_link.specs.Linked.{HaveRoom, AreLinked, sections_of, BlockStands, datum_section, HasSectionBytes};
ghost use Rattle.sloth_base.specs.DeclaredNames.{task_names, counter_names, function_names};
ghost use Rattle.sloth_link.specs.Standing.{HasItemsInPlace};
ghost use Rattle.sloth_link.specs.Symbols.{data_of, alarm_bytes, alarm_data};
ghost use Rattle.sloth_region.specs.Layout.{alarm_left};
ghost use Rattle.sloth_base.specs.Named.{function, item_of};
ghost use Rattle.rv32_expand.specs.Sizes.{AgreeWithSizes, HasWordAddresses, IsVerified};
ghost use Rattle.sloth_link.specs.Items.{item_block, items_of, item_blocks};

use mem_map::{data_zone, mark, marks, write, write_blocks};
use rv32_expand::{expand, item_address};
use rv32_instr::{Block, Instr};
use sloth_base::config::declared_names;
use sloth_base::{AlarmDecl, App, Config, Image, Item, List, MEMORY_BASE, Mark, Places, Result};
use sloth_region::{Map, alarm_left};
use std::alloc::{AllocError, Global};
use text_pieces::push;

/// A memory and its marks.
#[derive(Drop)]
pub struct Linked {
    pub memory: List<u8>,
    pub marks: List<Mark>,
}

// The law that instructions are in range.
fn in_range(code: &[Instr])
    ensures { All InRange code.now }
{
    for instr in code {
        let _kind = instr.kind();
    }
}

/// The law that all instructions of blocks are in range.
pub fn are_in_range(blocks: &[Block])
    ensures { All (λ b. All InRange b.code) blocks.now }
{
    for block in blocks {
        in_range(block.code.items());
    }
}

fn write_all(memory: &mut [u8], blocks: &[Block], items: &[Block], symbols: &[Datum])
    requires room { HaveRoom (length memory.old) (blocks.now ++ items.now) symbols.now }
    ensures { memory.new ≡ linked_memory memory.old (sections_of (blocks.now ++ items.now) symbols.now) }
{
    write_blocks(memory, blocks);
    write_blocks(memory, items);
    write_data(memory, symbols);
}

// The law that bytes are below 256.
fn are_bytes(bytes: &[u8])
    ensures { (i : ℕ) → slice_index bytes.now i < 256 }
{
    let _count = bytes.len();
}

fn zeros(alloc: Global, size: usize) -> Result<Vec<u8>, AllocError>
    ensures is { IfOk result (λ zeros. zeros.items ≡ replicate size 0) }
    ensures long { IfOk result (λ zeros. vec_len zeros ≡ size) }
{
    let mut zeros = Vec::new(alloc);
    zeros.resize(size, 0)?;
    Ok(zeros)
}

fn memory(
    alloc: Global,
    blocks: &[Block],
    items: &[Block],
    symbols: &[Datum],
    size: usize,
) -> Result<Vec<u8>, AllocError>
    requires room { HaveRoom size (blocks.now ++ items.now) symbols.now }
    ensures { IfOk result (λ memory. AreLinked size (sections_of (blocks.now ++ items.now) symbols.now) memory.items) }
{
    let mut memory = zeros(alloc, size)?;
    write_all(&mut memory, blocks, items, symbols);
    Ok(memory)
}

// A memory of `size` bytes with these blocks, items and bytes at their addresses, and zeros elsewhere.
fn link_all(
    alloc: Global,
    blocks: &[Block],
    items: &[Block],
    symbols: &[Datum],
    size: usize,
) -> Result<Linked>
    requires room { HaveRoom size (blocks.now ++ items.now) symbols.now }
    requires marks { HaveOwnAddresses (marks_of (blocks.now ++ items.now)) }
    ensures range { All (λ b. All InRange b.code) (blocks.now ++ items.now) }
    ensures code { IfOk result (λ linked. All (BlockStands linked.memory) (blocks.now ++ items.now)) }
    ensures symbols { IfOk result (λ linked. All (λ d. HasSectionBytes linked.memory (datum_section d)) symbols.now) }
    ensures linked { IfOk result (λ linked. AreLinked size (sections_of (blocks.now ++ items.now) symbols.now) linked.memory) }
    ensures bytes { IfOk result (λ linked. (i : ℕ) → slice_index linked.memory i < 256) }
    ensures marks { IfOk result (λ linked. IsPermutation (marks_of (blocks.now ++ items.now)) linked.marks) }
    ensures ascending { IfOk result (λ linked. IsStrictlyIncreasing (addresses linked.marks)) }
{
    are_in_range(blocks);
    are_in_range(items);
    let memory = memory(alloc, blocks, items, symbols, size)?;
    are_bytes(&memory);
    Ok(Linked {
        memory: List::from_vec(memory),
        marks: List::from_vec(marks(alloc, blocks, items)?),
    })
}

// The bytes of the memory, up to the end of the zone of data.
fn memory_size(map: &Map) -> usize
    requires zones { 2 < length map.now.extents }
    requires above { vectors_base ≤ (data_zone map.now).base }
    requires below { (data_zone map.now).base + (data_zone map.now).len < 4294967296 }
    ensures { result ≡ memory_size map.now }
{
    let data = data_zone(map);
    (data.base - MEMORY_BASE + data.len) as usize
}

// The words of the alarms, and the bytes of the symbols.
fn all_data(alloc: Global, config: &Config, app: &App, map: &Map) -> Result<Vec<Datum>>
    requires few { length config.now.alarms ≤ alarm_limit }
    requires symbols { length map.now.places.symbols ≡ length app.now.symbols }
    ensures { IfOk result (λ all. all.items ≡ all_data config.now app.now map.now) }
{
    let mut all = alarms(alloc, config)?;
    let mut declared = symbols(alloc, app, &map.places)?;
    all.append(&mut declared)?;
    Ok(all)
}

fn link_memory(
    alloc: Global,
    blocks: &[Block],
    app: &App,
    config: &Config,
    map: &Map,
) -> Result<Linked>
    requires { MayLink config.now app.now map.now blocks.now }
    ensures { IfOk result (λ linked. HasMemory config.now app.now map.now blocks.now linked.memory linked.marks) }
{
    let items = items(alloc, app, &map.places)?;
    let data = all_data(alloc, config, app, map)?;
    let linked = link_all(alloc, blocks, &items, &data, memory_size(map))?;
    Ok(linked)
}

/// The image of well-formed task code by its map: the blocks of routines at their addresses, each item at its address
/// with its mark, each symbol's bytes at its address, the time and the cycle of each alarm in its words, and zeros
/// elsewhere; the marks of the blocks and items by rising addresses; and the names.
pub fn link(alloc: Global, blocks: &[Block], app: &App, config: &Config, map: &Map) -> Result<Image>
    requires { MayLink config.now app.now map.now blocks.now }
    ensures items { IfOk result (λ image. ItemsInPlace image config.now app.now) }
    ensures stand { IfOk result (λ image. HasItemsInPlace app.now map.now.places image.memory image.marks) }
    ensures range { IfOk result (λ image. All (λ b. All InRange b.code) (all_blocks app.now map.now blocks.now)) }
    ensures code { IfOk result (λ image. All (BlockStands image.memory) (all_blocks app.now map.now blocks.now)) }
    ensures data_stands { IfOk result (λ image. All (λ d. HasSectionBytes image.memory (datum_section d)) (all_data config.now app.now map.now)) }
    ensures linked { IfOk result (λ image.
        AreLinked (memory_size map.now) (sections_of (all_blocks app.now map.now blocks.now) (all_data config.now app.now map.now)) image.memory) }
    ensures bytes { IfOk result (λ image. (i : ℕ) → slice_index image.memory i < 256) }
    ensures marks { IfOk result (λ image. IsPermutation (marks_of (all_blocks app.now map.now blocks.now)) image.marks) }
    ensures ascending { IfOk result (λ image. IsStrictlyIncreasing (addresses image.marks)) }
    ensures tasks { IfOk result (λ image. image.tasks ≡ task_names config.now) }
    ensures functions { IfOk result (λ image. image.funcs ≡ function_names app.now) }
    ensures counters { IfOk result (λ image. image.counters ≡ counter_names config.now) }
{
    let linked = link_memory(alloc, blocks, app, config, map)?;
    let names = declared_names(alloc, config, app)?;
    Ok(Image {
        tasks: names.tasks,
        funcs: names.funcs,
        counters: names.counters,
        memory: linked.memory,
        marks: linked.marks,
    })
}

/// Bytes, and the address of the first.
#[derive(Drop)]
pub struct Datum {
    pub at: u32,
    pub bytes: List<u8>,
}

/// Writes each run of bytes at its address.
pub fn write_data(memory: &mut [u8], symbols: &[Datum])
    requires above { All (λ d. memory_base ≤ d.at) symbols.now }
    requires inside { All (λ d. IsSectionInside (length memory.old) (datum_section d)) symbols.now }
    ensures { memory.new ≡ linked_memory memory.old (map datum_section symbols.now) }
{
    for datum in symbols {
        let at = (datum.at - MEMORY_BASE) as usize;
        write(memory, at, datum.bytes.items());
    }
}

/// The bytes of each symbol, at its address in the places.
pub fn symbols(alloc: Global, app: &App, places: &Places) -> Result<Vec<Datum>>
    requires { length places.now.symbols ≡ length app.now.symbols }
    ensures { IfOk result (λ symbols. symbols.items ≡ data_of places.now.symbols app.now.symbols) }
{
    let mut symbols = Vec::new(alloc);
    let declared = app.symbols.items();
    let addresses = places.symbols.items();
    for index in 0..declared.len() {
        let bytes = List::from_vec(Vec::from_slice(alloc, declared[index].bytes.items())?);
        let at = addresses[index];
        push(&mut symbols, Datum { at, bytes })?;
    }
    Ok(symbols)
}

/// The ticks to the first expiry and the cycle of each alarm, at its words.
pub fn alarms(alloc: Global, config: &Config) -> Result<Vec<Datum>>
    requires { length config.now.alarms ≤ alarm_limit }
    ensures { IfOk result (λ alarms. alarms.items ≡ alarm_data 0 config.now.alarms) }
{
    let mut alarms = Vec::new(alloc);
    let declared = config.alarms.items();
    for number in 0..declared.len() {
        let datum = words(alloc, number as u8, &declared[number])?;
        push(&mut alarms, datum)?;
    }
    Ok(alarms)
}

// The two words of an alarm with this number.
fn words(alloc: Global, number: u8, alarm: &AlarmDecl) -> Result<Datum>
    requires { number < 32 }
    ensures { IfOk result (λ datum. datum ≡ record { at = memory_base + alarm_left number; bytes = alarm_bytes alarm.now }) }
{
    let mut bytes = Vec::from_slice(alloc, &alarm.time.to_le_bytes())?;
    bytes.extend_from_slice(&alarm.cycle.to_le_bytes())?;
    Ok(Datum {
        at: MEMORY_BASE + alarm_left(number) as u32,
        bytes: List::from_vec(bytes),
    })
}

/// The bytes of an instruction.
const INSTRUCTION: u32 = 4;

// An item of a function: its code where it stands, and its mark on the last instruction.
fn one(
    alloc: Global,
    item: &Item,
    func: u32,
    index: u32,
    app: &App,
    places: &Places,
) -> Result<Block>
    requires verified { IsVerified app.now }
    requires few { func < body_limit }
    requires is_item { IsAppItem app.now func index }
    requires is { item.now ≡ item_of (function app.now func) index }
    requires covers { HasWordAddresses app.now places.now }
    requires agree { AgreeWithSizes app.now places.now }
    ensures { IfOk result (λ block. block ≡ item_block app.now places.now func index) }
{
    let expansion = expand(item, func, index, app, places);
    let code = Vec::from_slice(alloc, &expansion.code[..expansion.len as usize])?;
    let at = item_address(places, func, index);
    let last = at + INSTRUCTION * (expansion.len - 1);
    let marks = Vec::from_slice(alloc, &[mark(item.op, last, func, index)])?;
    Ok(Block {
        at,
        code: List::from_vec(code),
        marks: List::from_vec(marks),
    })
}

fn items_in(app: &App, func: u32) -> &[Item]
    requires { func < length app.now.funcs }
    ensures { result.now ≡ (function app.now func).items }
{
    app.funcs.items()[func as usize].items.items()
}

fn of_function(alloc: Global, func: u32, app: &App, places: &Places) -> Result<Vec<Block>>
    requires verified { IsVerified app.now }
    requires exists { func < length app.now.funcs }
    requires covers { HasWordAddresses app.now places.now }
    requires agree { AgreeWithSizes app.now places.now }
    ensures { IfOk result (λ blocks. blocks.items ≡ items_of app.now places.now func) }
{
    let items = items_in(app, func);
    let mut blocks = Vec::new(alloc);
    let count = items.len() as u32;
    for index in 0..count {
        push(
            &mut blocks,
            one(alloc, &items[index as usize], func, index, app, places)?,
        )?;
    }
    Ok(blocks)
}

/// Each item of the task code, by functions and their items in order: its code at its address in the places, its mark.
pub fn items(alloc: Global, app: &App, places: &Places) -> Result<Vec<Block>>
    requires verified { IsVerified app.now }
    requires covers { HasWordAddresses app.now places.now }
    requires agree { AgreeWithSizes app.now places.now }
    ensures { IfOk result (λ blocks. blocks.items ≡ item_blocks app.now places.now (length app.now.funcs)) }
{
    let mut blocks = Vec::new(alloc);
    let count = app.funcs.items().len() as u32;
    for func in 0..count {
        blocks.append(&mut of_function(alloc, func, app, places)?)?;
    }
    Ok(blocks)
}
