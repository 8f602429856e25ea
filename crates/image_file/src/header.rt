//! The header of a file: the magic, and the numbers of its parts with their limits. Marks: twelve bytes each.
ghost use Rattle.std.specs.Prelude.{◌≡◌, IfSome, IfNone, Decides, codes, take, ◌≤◌, ◌+◌, ◌++◌, length, drop, ◌≢◌, ◌*◌, IfOk, IfErr};
ghost use Rattle.image_file.specs.Faults.{HasMagic};
ghost use Rattle.image_file.specs.Reading.{HasSizes, NoSizes, MarkStands, NoMark, MarksStand, IsMarksError};
ghost use Rattle.image_file.specs.Fields.{four_bytes, two_bytes};
ghost use Rattle.image_file.specs.Limits.{SizesFit, header_size};
ghost use Rattle.image_file.specs.ImageText.{kind_number};
ghost use Rattle.sloth_base.specs.ImageRange.{AreFields, IsMark, AreAscending};
ghost use Rattle.sloth_base.specs.declared.image.MarkKind.{MarkKind as KindOfMark};
ghost use Rattle.sloth_base.specs.Limits.{body_limit, mark_limit};
ghost use Rattle.sloth_base.specs.MemoryMap.{memory_bytes};

pub use crate::service_limit;
use crate::{ImageError, ImageFault};
use sloth_base::{
    BODY_LIMIT, COUNTER_LIMIT, MARK_LIMIT, MEMORY_BASE, MEMORY_BYTES, Mark, MarkKind, TASK_LIMIT,
};
use std::alloc::Global;

fn has_plain_magic(bytes: &[u8]) -> bool
    ensures { Decides result (take 8 bytes.now ≡ codes "SLOTHIM1") }
{
    bytes.starts_with(b"SLOTHIM1")
}

/// Whether the file begins as an image file does.
pub fn has_magic(bytes: &[u8]) -> bool
    ensures { Decides result (HasMagic bytes.now) }
{
    has_plain_magic(bytes) || bytes.starts_with(b"SLOTHIM2")
}

/// The numbers of the header, where the file has one and they are within the limits.
pub fn read_sizes(bytes: &[u8]) -> Option<Sizes>
    requires { HasMagic bytes.now }
    ensures read { IfSome result (λ sizes. HasSizes bytes.now sizes) }
    ensures none { IfNone result (NoSizes bytes.now) }
{
    if has_plain_magic(bytes) {
        if bytes.len() < 24 {
            return None;
        }
        let sizes = Sizes {
            tasks: read_u32(bytes, 8) as usize,
            funcs: read_u32(bytes, 12) as usize,
            counters: 0,
            memory: read_u32(bytes, 16) as usize,
            marks: read_u32(bytes, 20) as usize,
        };
        return sizes.are_within().then_some(sizes);
    }
    if bytes.len() < 28 {
        return None;
    }
    let sizes = Sizes {
        tasks: read_u32(bytes, 8) as usize,
        funcs: read_u32(bytes, 12) as usize,
        counters: read_u32(bytes, 16) as usize,
        memory: read_u32(bytes, 20) as usize,
        marks: read_u32(bytes, 24) as usize,
    };
    if sizes.counters == 0 {
        return None;
    }
    sizes.are_within().then_some(sizes)
}

/// The number in the four bytes at `at`.
pub fn read_u32(bytes: &[u8], at: usize) -> u32
    requires { at + 4 ≤ length bytes.now }
    ensures stands { drop at bytes.now ≡ four_bytes result ++ drop (at + 4) bytes.now }
{
    u32::from_le_bytes([bytes[at], bytes[at + 1], bytes[at + 2], bytes[at + 3]])
}

/// The number in the two bytes at `at`.
pub fn read_u16(bytes: &[u8], at: usize) -> u16
    requires { at + 2 ≤ length bytes.now }
    ensures stands { drop at bytes.now ≡ two_bytes result ++ drop (at + 2) bytes.now }
{
    u16::from_le_bytes([bytes[at], bytes[at + 1]])
}

/// The numbers of tasks, functions, counters, bytes of memory and marks.
#[derive(Clone, Copy)]
pub struct Sizes {
    pub tasks: usize,
    pub funcs: usize,
    pub counters: usize,
    pub memory: usize,
    pub marks: usize,
}

impl Sizes {
    /// The length of a header with these numbers, in bytes.
    pub fn header(&self) -> usize
        ensures { result ≡ header_size self.now.counters }
    {
        if self.counters == 0 { 24 } else { 28 }
    }

    /// The numbers are within the limits.
    pub fn are_within(&self) -> bool
        ensures { Decides result (SizesFit self.now) }
    {
        self.tasks <= TASK_LIMIT
            && self.funcs <= BODY_LIMIT
            && self.counters <= COUNTER_LIMIT
            && self.memory <= MEMORY_BYTES
            && self.memory % 4 == 0
            && self.marks <= MARK_LIMIT
    }
}

/// So many marks from `at` on, of an image of so many services, functions and bytes of memory.
pub fn read_marks(
    alloc: Global,
    bytes: &[u8],
    at: usize,
    count: usize,
    services: u8,
    funcs: usize,
    size: usize,
) -> Result<Vec<Mark>, ImageError>
    requires short { count ≤ mark_limit }
    requires within { at + count * 12 ≤ length bytes.now }
    requires few { funcs ≤ body_limit }
    requires fits { size ≤ memory_bytes }
    ensures read { IfOk result (λ marks. MarksStand bytes.now at services funcs size marks.items) }
    ensures counted { IfOk result (λ marks. length marks.items ≡ count) }
    ensures failed { IfErr result (λ failure. IsMarksError failure bytes.now at count services funcs size) }
{
    let mut marks = Vec::new(alloc);
    for i in 0..count {
        marks.push(read_mark(bytes, at + i * 12, services, funcs, size).ok_or(ImageFault::I3)?)?;
    }
    Ok(marks)
}

fn read_mark(bytes: &[u8], at: usize, services: u8, funcs: usize, size: usize) -> Option<Mark>
    requires within { at + 12 ≤ length bytes.now }
    requires few { funcs ≤ body_limit }
    requires fits { size ≤ memory_bytes }
    ensures some { IfSome result (λ mark. MarkStands bytes.now at services funcs size mark) }
    ensures none { IfNone result (NoMark bytes.now at services funcs size) }
{
    let kind = mark_kind(bytes[at + 4])?;
    let mark = Mark {
        address: read_u32(bytes, at),
        kind,
        a: bytes[at + 5],
        b: read_u16(bytes, at + 6),
        c: read_u32(bytes, at + 8),
    };
    is_mark(&mark, services, funcs, size).then_some(mark)
}

fn mark_kind(number: u8) -> Option<MarkKind>
    ensures some { IfSome result (λ kind. kind_number kind ≡ number) }
    ensures none { IfNone result ((kind : KindOfMark) → kind_number kind ≢ number) }
{
    match number {
        0 => Some(MarkKind::Item),
        1 => Some(MarkKind::Jump),
        2 => Some(MarkKind::Opening),
        3 => Some(MarkKind::Idle),
        4 => Some(MarkKind::Back),
        _ => None,
    }
}

fn is_mark(mark: &Mark, services: u8, funcs: usize, size: usize) -> bool
    requires { size ≤ memory_bytes }
    ensures { Decides result (IsMark services funcs size mark.now) }
{
    mark.address % 4 == 0
        && mark.address >= MEMORY_BASE
        && mark.address as usize - (MEMORY_BASE as usize) < size
        && are_fields(mark, services, funcs)
}

fn are_fields(mark: &Mark, services: u8, funcs: usize) -> bool
    ensures { Decides result (AreFields services funcs mark.now.kind mark.now.a mark.now.b mark.now.c) }
{
    match mark.kind {
        MarkKind::Item => mark.a < 32 && (mark.b as usize) < funcs && mark.c <= 4095,
        MarkKind::Jump => mark.a < services && (mark.b as usize) < funcs && mark.c <= 4095,
        MarkKind::Opening => mark.a < services && mark.b == 0 && mark.c == 0,
        MarkKind::Idle | MarkKind::Back => mark.a == 0 && mark.b == 0 && mark.c == 0,
    }
}

/// Whether their addresses rise strictly.
pub fn are_ascending(marks: &[Mark]) -> bool
    ensures { Decides result (AreAscending marks.now) }
{
    for i in 1..marks.len() {
        if marks[i].address <= marks[i - 1].address {
            return false;
        }
    }
    true
}
