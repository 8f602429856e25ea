//! An allocator of addresses: extents one behind the other, each aligned. Runs of addresses.
//! The map of an image: where everything stands.
ghost use Rattle.std.specs.Prelude.{◌≡◌, ◌⊎◌, ◌+◌, ◌<◌, ◌≤◌, length, [], ◌∷◌, ◌++◌, IsErr, IfOk};
ghost use Rattle.sloth_region.specs.Region.{AreApartWithin, aligned, first_free_address, Area};

use sloth_base::{LINE_COUNT, List, Places};
use std::marker::Model;

/// The most extents of one region.
const MOST: usize = 96;

/// The extent would end behind the region's end.
#[derive(Clone, Copy)]
pub struct Full;

/// A run of addresses in which extents are placed. It holds its extents in itself, up to 96.
#[derive(Drop)]
pub struct Region {
    base: u32,
    len: u32,
    /// The first address behind all that is placed.
    free: u32,
    count: usize,
    extents: [Extent; 96],
}

impl Model for Region {
    ghost use Rattle.std.specs.Prelude.{◌≡◌, ◌+◌, ◌<◌, ◌≤◌, take};
    ghost use Rattle.sloth_region.specs.Region.{Area, first_free_address, FollowWithin};

    ghost Value = { Area };

    ghost view = { λ region. record {
      base = region.base;
      end = region.base + region.len;
      placed = take region.count region.extents;
    } };

    ghost invariant = { λ region. (region.count ≤ 96)
        × (region.base + region.len < 4294967296)
        × (region.free ≤ region.base + region.len)
        × (region.free ≡ first_free_address region.base (take region.count region.extents))
        × FollowWithin region.base (region.base + region.len) (take region.count region.extents) };
}

impl Region {
    /// The region of the `len` addresses from `base` on, with nothing placed.
    pub fn new(base: u32, len: u32) -> Region
        requires { base + len ≤ 4294967295 }
        ensures { result ≡ record { base = base; end = base + len; placed = [] } }
    {
        Region {
            base,
            len,
            free: base,
            count: 0,
            extents: [Extent { base: 0, len: 0 }; 96],
        }
    }

    /// Places the next `len` bytes, at the least multiple of `align` behind all that is placed.
    pub fn place(&mut self, len: u32, align: u32) -> Result<Extent, Full>
        requires some { 1 ≤ len }
        requires word { (align ≡ 4) ⊎ (align ≡ 16) }
        requires room { length self.old.placed < 96 }
        ensures next { IfOk result (λ extent. extent ≡ record
            { base = aligned (first_free_address self.old.base self.old.placed) align; len = len }) }
        ensures placed { IfOk result (λ extent. self.new ≡ record self.old
            { placed = self.old.placed ++ extent ∷ [] }) }
        ensures inside { IfOk result (λ extent. extent.base + extent.len ≤ self.old.end) }
        ensures full { IsErr result → self.old.end < aligned (first_free_address self.old.base self.old.placed) align
            + len }
        ensures unchanged { IsErr result → self.new ≡ self.old }
    {
        let free = self.free;
        let past = free % align;
        let gap = if past == 0 { 0 } else { align - past };
        let end = self.base + self.len;
        if end - free < gap || end - free - gap < len {
            return Err(Full);
        }
        let extent = Extent {
            base: free + gap,
            len,
        };
        self.extents[self.count] = extent;
        self.count += 1;
        self.free = extent.base + len;
        Ok(extent)
    }

    /// All extents that were placed, in order.
    pub fn extents(&self) -> &[Extent]
        ensures all { result.now ≡ self.now.placed }
        ensures apart { AreApartWithin self.now.base self.now.end self.now.placed }
    {
        &self.extents[..self.count]
    }
}

/// The `len` addresses from `base` on.
#[derive(Clone, Copy)]
pub struct Extent {
    pub base: u32,
    pub len: u32,
}

/// The map of an image. The vector words stand at the base of the vectors, and boot at the base of boot.
pub struct Map {
    /// All extents, in the order in which they were placed.
    pub extents: List<Extent>,
    /// The addresses of items, symbols and service blocks.
    pub places: Places,
    /// The stack of each task, in the order of the tasks: one for all basic tasks, and one for each extended task.
    pub stacks: List<Extent>,
    /// The address behind the part of its stack that each task has, in the order of the tasks.
    pub tops: List<u32>,
    /// The service words, but for the first word of RAM, which names the running task.
    pub words: Extent,
    /// The address of the idle loop.
    pub idle: u32,
    /// For each line the address of the routine to which its vector word jumps: `idle` where the line has none.
    pub handlers: [u32; LINE_COUNT],
}

// Written out: what is derived is proved anew wherever a value is let go.
impl Drop for Map {
    fn drop(self) {
        let Map {
            extents: _,
            places: _,
            stacks: _,
            tops: _,
            words: _,
            idle: _,
            handlers: _,
        } = self;
    }
}
