//! The zones of an image, placed in one region. Extents of given lengths, placed in a region one behind the other.
ghost use Rattle.std.specs.Prelude.{◌≡◌, ◌<◌, ◌≤◌, ◌+◌, ◌%◌, ◌∷◌, IfOk, All, length, map, ◌-◌, ◌⊎◌, ◌++◌, []};
ghost use Rattle.sloth_base.specs.MemoryMap.{memory_end, vectors_base, memory_bytes, words_base};
ghost use Rattle.sloth_base.specs.Limits.{task_limit};
ghost use Rattle.sloth_region.specs.Region.{AreApartWithin, aligned, first_free_address};
ghost use Rattle.mem_map.specs.Run.{room_for, run, AreRun};
ghost use Rattle.mem_map.specs.Zones.{data_zone};

use sloth_base::{List, MEMORY_END, Result, WORD, WORDS_BASE};
use sloth_region::{Extent, Full, Map, Region};
use std::alloc::{AllocError, Global};

/// The bytes behind the first word of RAM.
const RAM_LEN: u32 = MEMORY_END - WORDS_BASE;
/// The bytes of the service words.
const WORDS_LEN: u32 = 1020;

/// Stacks begin at multiples of 16, words at multiples of 4.
const STACK: u32 = 16;

/// The place of the zone of data among the extents of a map.
const DATA: usize = 2;

/// The zone of data of a map: its symbols, and one word behind them.
pub fn data_zone(map: &Map) -> Extent
    requires { 2 < length map.now.extents }
    ensures { result ≡ data_zone map.now }
{
    map.extents.items()[DATA]
}

/// Service words, code, data and stacks, one behind the other.
#[derive(Drop)]
pub struct Zones {
    pub words: Extent,
    pub code: Extent,
    pub data: Extent,
    pub stacks: List<Extent>,
    /// All of them, in this order.
    pub extents: List<Extent>,
}

/// Places zones of these lengths in bytes in RAM, behind its first word: there is room.
pub fn plan_zones(alloc: Global, code_len: u32, data_len: u32, stack_lens: &[u32]) -> Result<Zones>
    requires some { (1 ≤ code_len) × (1 ≤ data_len) × All (λ len. 1 ≤ len) stack_lens.now }
    requires words { code_len % 4 ≡ 0 }
    requires few { length stack_lens.now ≤ task_limit }
    requires room { 1024 + code_len + 3 + data_len + 3 + room_for 16 stack_lens.now ≤ memory_bytes }
    ensures extents { IfOk result (λ zones. zones.extents ≡ zones.words ∷ zones.code ∷ zones.data ∷ zones.stacks) }
    ensures apart { IfOk result (λ zones. AreApartWithin words_base memory_end zones.extents) }
    ensures words { IfOk result (λ zones. zones.words ≡ record { base = words_base; len = 1020 }) }
    ensures code { IfOk result (λ zones. zones.code ≡ record { base = vectors_base; len = code_len }) }
    ensures data_zone { IfOk result (λ zones. zones.data ≡ record { base = vectors_base + code_len; len = data_len }) }
    ensures stacks { IfOk result (λ zones. map (λ e. e.len) zones.stacks ≡ stack_lens.now) }
    ensures stacks_are { IfOk result (λ zones. zones.stacks ≡ run 16
        (zones.data.base + zones.data.len) stack_lens.now) }
    ensures stacks_aligned { IfOk result (λ zones. All (λ e. e.base % 16 ≡ 0) zones.stacks) }
{
    let mut region = Region::new(WORDS_BASE, RAM_LEN);
    let words = put(&mut region, WORDS_LEN, WORD);
    let code = put(&mut region, code_len, WORD);
    let data = put(&mut region, data_len, WORD);
    let stacks = place_all(alloc, &mut region, stack_lens, STACK)?;
    let extents = Vec::from_slice(alloc, region.extents())?;
    Ok(Zones {
        words,
        code,
        data,
        stacks: List::from_vec(stacks),
        extents: List::from_vec(extents),
    })
}

/// Places the next `len` bytes in a region that has room for them.
pub fn put(region: &mut Region, len: u32, align: u32) -> Extent
    requires some { 1 ≤ len }
    requires word { (align ≡ 4) ⊎ (align ≡ 16) }
    requires few { length region.old.placed < 96 }
    requires room { first_free_address region.old.base region.old.placed + ((align - 1) + len) ≤ region.old.end }
    ensures is { result
        ≡ record { base = aligned (first_free_address region.old.base region.old.placed) align; len = len } }
    ensures placed { region.new ≡ record region.old { placed = region.old.placed ++ result ∷ [] } }
{
    match region.place(len, align) {
        Ok(extent) => extent,
        Err(Full) => Extent { base: 0, len: 0 },
    }
}

/// Places extents of these lengths in a region that has room for them.
pub fn place_all(
    alloc: Global,
    region: &mut Region,
    lengths: &[u32],
    align: u32,
) -> Result<Vec<Extent>, AllocError>
    requires some { All (λ len. 1 ≤ len) lengths.now }
    requires word { (align ≡ 4) ⊎ (align ≡ 16) }
    requires few { length region.old.placed + length lengths.now ≤ 96 }
    requires room { first_free_address region.old.base region.old.placed + room_for align lengths.now ≤ region.old.end }
    ensures is { IfOk result (λ extents. extents.items ≡ run align
        (first_free_address region.old.base region.old.placed) lengths.now) }
    ensures run { IfOk result (λ extents. AreRun align (first_free_address region.old.base region.old.placed)
        region.old.end lengths.now extents.items) }
    ensures placed { IfOk result (λ extents. region.new ≡ record region.old
        { placed = region.old.placed ++ extents.items }) }
{
    let mut extents = Vec::new(alloc);
    for len in lengths {
        extents.push(put(region, *len, align))?;
    }
    Ok(extents)
}
