//! RAM, and the instructions of its words that were decoded before.
//! The first bytes of RAM, where all behind them are zero.
//! RAM: 2 MiB of bytes. An offset is an address less 0x80000000.
ghost use Rattle.std.specs.Prelude.{◌≡◌, ◌≤◌, ◌+◌, ◌/◌, ◌%◌, ◌^◌, ◌<◌, ◌⊎◌, [], IfOk, None, Some, get_or, set, length, slice_index, vec_capacity};
ghost use Rattle.rv32_instr.specs.Ram.{word_at, half_at, with_byte, with_half, with_word};
ghost use Rattle.rv32_instr.specs.Table.{Decode};
ghost use Rattle.sloth_base.specs.Arithmetic.{size_of};
ghost use Rattle.sloth_base.specs.MemoryMap.{memory_bytes};
ghost use Rattle.machine_memory.specs.Fresh.{ram_of};
ghost use Rattle.machine_memory.specs.Place.{bytes_at, with_bytes};

use rv32_instr::{Instr, decode};
use sloth_base::{MEMORY_BYTES, Result, Width};
use std::alloc::Global;
use std::marker::Model;

/// RAM, with the instructions of words that were decoded. Contracts see the bytes.
#[derive(Drop)]
pub struct CodeRam {
    ram: Ram,
    // For each word of the image: its instruction, if it is kept.
    kept: Vec<Option<Instr>>,
}

impl Model for CodeRam {
    ghost use Rattle.std.specs.Prelude.{List, ℕ};
    ghost use Rattle.machine_memory.specs.CodeRam.{AreDecoded};

    ghost Value = { List ℕ };

    ghost view = { λ code. code.ram };

    ghost invariant = { λ code. AreDecoded code.ram code.kept.items };
}

#[inline(always)]
fn kept_instr(kept: &[Option<Instr>], word: usize) -> Option<Instr>
    ensures { result ≡ get_or kept.now word None }
{
    if word < kept.len() { kept[word] } else { None }
}

// What is kept of a word from now on, if it has a place.
#[inline(always)]
fn keep(kept: &mut Vec<Option<Instr>>, word: usize, instr: &Option<Instr>)
    ensures { kept.new.items ≡ set kept.old.items word instr.now }
{
    if word < kept.len() {
        kept[word] = *instr;
    }
}

// Keeps what another one keeps, or nothing where that has other places.
fn keep_same(kept: &mut Vec<Option<Instr>>, other: &[Option<Instr>])
    ensures { (kept.new.items ≡ other.now) ⊎ (kept.new.items ≡ []) }
{
    if kept.len() == other.len() {
        kept.copy_from_slice(other);
    } else {
        kept.clear();
    }
}

impl CodeRam {
    /// RAM that begins with these bytes; the rest is zero.
    pub fn new(alloc: Global, image: &[u8]) -> Result<CodeRam>
        requires { length image.now ≤ memory_bytes }
        ensures { IfOk result (λ code. code ≡ ram_of image.now) }
    {
        let kept = vec![in alloc; None; image.len() / 4]?;
        let ram = Ram::new(alloc, image)?;
        Ok(CodeRam { ram, kept })
    }

    /// Takes the bytes of another one.
    pub fn set_to(&mut self, other: &CodeRam)
        ensures { self.new ≡ other.now }
    {
        self.ram.set_to(&other.ram);
        keep_same(&mut self.kept, other.kept.as_slice());
    }

    /// The bytes of an access, low byte first.
    #[inline(always)]
    pub fn load(&self, offset: u32, width: Width) -> u32
        requires { offset + size_of width ≤ memory_bytes }
        ensures is { result ≡ bytes_at self.now offset width }
        ensures below { result < 256 ^ size_of width }
    {
        self.ram.load(offset, width)
    }

    /// Writes the low bytes of a value, low byte first. The instruction of the word that it meets is dropped.
    #[inline(always)]
    pub fn store(&mut self, offset: u32, width: Width, value: u32)
        requires inside { offset + size_of width ≤ memory_bytes }
        requires aligned { offset % size_of width ≡ 0 }
        ensures { self.new ≡ with_bytes self.old offset width value }
    {
        self.ram.store(offset, width, value);
        keep(&mut self.kept, (offset / 4) as usize, &None);
    }

    /// The instruction whose word stands at an offset, if it is one's.
    #[inline(always)]
    pub fn instruction(&mut self, offset: u32) -> Option<Instr>
        requires aligned { offset % 4 ≡ 0 }
        requires inside { offset + 4 ≤ memory_bytes }
        ensures is { result ≡ Decode (word_at self.old offset) }
        ensures same { self.new ≡ self.old }
    {
        match kept_instr(&self.kept, (offset / 4) as usize) {
            Some(instr) => Some(instr),
            None => self.decode(offset),
        }
    }

    // The same of a word whose instruction is not kept; it is from now on, if there is one.
    #[inline(never)]
    fn decode(&mut self, offset: u32) -> Option<Instr>
        requires aligned { offset % 4 ≡ 0 }
        requires inside { offset + 4 ≤ memory_bytes }
        ensures is { result ≡ Decode (word_at self.old offset) }
        ensures same { self.new ≡ self.old }
    {
        let instr = decode(self.ram.word(offset));
        keep(&mut self.kept, (offset / 4) as usize, &instr);
        instr
    }
}

/// So many bytes become there at once.
const PAGE: usize = 4096;

/// The byte in a place, zero behind the last one.
#[inline(always)]
pub fn byte_in(bytes: &[u8], place: usize) -> u8
    ensures { result ≡ slice_index bytes.now place }
{
    if place < bytes.len() { bytes[place] } else { 0 }
}

/// The word in a place, low byte first.
#[inline(always)]
#[tactic(auto, unfolding(rv32_instr::specs::Ram::word_at))]
pub fn word_in(bytes: &[u8], place: usize) -> u32
    requires { place + 4 ≤ memory_bytes }
    ensures { result ≡ word_at bytes.now place }
{
    if place + 4 > bytes.len() {
        return word_at_end(bytes, place);
    }
    let first = u32::from(bytes[place]);
    let second = u32::from(bytes[place + 1]) * 256;
    let third = u32::from(bytes[place + 2]) * 65536;
    let fourth = u32::from(bytes[place + 3]) * 16_777_216;
    first + second + third + fourth
}

// The same of a word that is not all there.
#[inline(never)]
#[tactic(auto, unfolding(rv32_instr::specs::Ram::word_at))]
fn word_at_end(bytes: &[u8], place: usize) -> u32
    requires { place + 4 ≤ memory_bytes }
    ensures { result ≡ word_at bytes.now place }
{
    let first = u32::from(byte_in(bytes, place));
    let second = u32::from(byte_in(bytes, place + 1)) * 256;
    let third = u32::from(byte_in(bytes, place + 2)) * 65536;
    let fourth = u32::from(byte_in(bytes, place + 3)) * 16_777_216;
    first + second + third + fourth
}

/// The bytes below a place are there from now on.
#[inline(always)]
pub fn reach(bytes: &mut Vec<u8>, end: usize)
    requires end { end ≤ memory_bytes }
    requires few { length bytes.old.items ≤ memory_bytes }
    requires space { memory_bytes ≤ vec_capacity bytes.old }
    ensures same { ram_of bytes.new.items ≡ ram_of bytes.old.items }
    ensures there { end ≤ length bytes.new.items }
    ensures few { length bytes.new.items ≤ memory_bytes }
    ensures space { memory_bytes ≤ vec_capacity bytes.new }
{
    if bytes.len() < end {
        grow(bytes, end);
    }
}

// The same, where some are not.
#[inline(never)]
#[tactic(auto, using(crate::proofs::FirstBytes::grown))]
fn grow(bytes: &mut Vec<u8>, end: usize)
    requires end { end ≤ memory_bytes }
    requires more { length bytes.old.items < end }
    requires space { memory_bytes ≤ vec_capacity bytes.old }
    ensures same { ram_of bytes.new.items ≡ ram_of bytes.old.items }
    ensures there { end ≤ length bytes.new.items }
    ensures few { length bytes.new.items ≤ memory_bytes }
    ensures space { memory_bytes ≤ vec_capacity bytes.new }
{
    match bytes.resize((end + PAGE - 1) / PAGE * PAGE, 0) {
        Ok(()) => {}
        Err(_) => unreachable!(),
    }
}

/// Writes the low byte of a value.
pub fn put_byte(bytes: &mut Vec<u8>, place: usize, value: u32)
    requires { place < length bytes.old.items }
    ensures items { bytes.new.items ≡ with_byte bytes.old.items place value }
    ensures space { vec_capacity bytes.new ≡ vec_capacity bytes.old }
{
    bytes[place] = (value % 256) as u8;
}

/// Writes the low half word of a value.
#[tactic(auto, unfolding(rv32_instr::specs::Ram::with_half))]
pub fn put_half(bytes: &mut Vec<u8>, place: usize, value: u32)
    requires { place + 2 ≤ length bytes.old.items }
    ensures items { bytes.new.items ≡ with_half bytes.old.items place value }
    ensures space { vec_capacity bytes.new ≡ vec_capacity bytes.old }
{
    bytes[place] = (value % 256) as u8;
    bytes[place + 1] = (value / 256 % 256) as u8;
}

/// Writes a word.
#[inline(always)]
#[tactic(auto, unfolding(rv32_instr::specs::Ram::with_word))]
pub fn put_word(bytes: &mut Vec<u8>, place: usize, value: u32)
    requires { place + 4 ≤ length bytes.old.items }
    ensures items { bytes.new.items ≡ with_word bytes.old.items place value }
    ensures space { vec_capacity bytes.new ≡ vec_capacity bytes.old }
{
    let bytes = bytes.as_mut_slice();
    bytes[place] = (value % 256) as u8;
    bytes[place + 1] = (value / 256 % 256) as u8;
    bytes[place + 2] = (value / 65536 % 256) as u8;
    bytes[place + 3] = (value / 16_777_216 % 256) as u8;
}

/// RAM, which contracts see as its bytes.
#[derive(Drop)]
pub struct Ram {
    // The first bytes; all behind them are zero. There is space for all, so that no store takes memory.
    front: Vec<u8>,
}

impl Model for Ram {
    ghost use Rattle.std.specs.Prelude.{◌≤◌, List, ℕ, length, vec_capacity};
    ghost use Rattle.sloth_base.specs.MemoryMap.{memory_bytes};
    ghost use Rattle.machine_memory.specs.Fresh.{ram_of};

    ghost Value = { List ℕ };

    ghost view = { λ ram. ram_of ram.front.items };

    ghost invariant = { λ ram. (length ram.front.items ≤ memory_bytes) × (memory_bytes ≤ vec_capacity ram.front) };
}

impl Ram {
    /// RAM that begins with these bytes; the rest is zero.
    pub fn new(alloc: Global, image: &[u8]) -> Result<Ram>
        requires { length image.now ≤ memory_bytes }
        ensures { IfOk result (λ ram. ram ≡ ram_of image.now) }
    {
        let mut front = Vec::with_capacity(alloc, MEMORY_BYTES)?;
        front.extend_from_slice(image)?;
        Ok(Ram { front })
    }

    /// Takes the bytes of another one.
    pub fn set_to(&mut self, other: &Ram)
        ensures { self.new ≡ other.now }
    {
        self.front.clear();
        match self.front.extend_from_slice(other.front.as_slice()) {
            Ok(()) => {}
            Err(_) => unreachable!(),
        }
    }

    /// The byte at an offset.
    pub fn byte(&self, offset: u32) -> u8
        requires { offset < memory_bytes }
        ensures { result ≡ slice_index self.now offset }
    {
        byte_in(&self.front, offset as usize)
    }

    /// The half word at an offset, low byte first.
    #[tactic(auto, unfolding(rv32_instr::specs::Ram::half_at))]
    pub fn half(&self, offset: u32) -> u32
        requires { offset + 2 ≤ memory_bytes }
        ensures is { result ≡ half_at self.now offset }
        ensures below { result < 65536 }
    {
        u32::from(self.byte(offset)) + u32::from(self.byte(offset + 1)) * 256
    }

    /// The word at an offset, low byte first.
    #[inline(always)]
    pub fn word(&self, offset: u32) -> u32
        requires { offset + 4 ≤ memory_bytes }
        ensures { result ≡ word_at self.now offset }
    {
        word_in(&self.front, offset as usize)
    }

    /// The bytes of an access, low byte first.
    #[inline(always)]
    pub fn load(&self, offset: u32, width: Width) -> u32
        requires { offset + size_of width ≤ memory_bytes }
        ensures is { result ≡ bytes_at self.now offset width }
        ensures below { result < 256 ^ size_of width }
    {
        match width {
            Width::Byte | Width::ByteU => u32::from(self.byte(offset)),
            Width::Half | Width::HalfU => self.half(offset),
            Width::Word => self.word(offset),
        }
    }

    /// Writes the low bytes of a value, low byte first.
    #[inline(always)]
    #[tactic(auto, using(crate::proofs::FirstBytes::front_with_byte, crate::proofs::FirstBytes::length_with_byte, crate::proofs::FirstBytes::front_with_half, crate::proofs::FirstBytes::length_with_half, crate::proofs::FirstBytes::front_with_word, crate::proofs::FirstBytes::length_with_word))]
    pub fn store(&mut self, offset: u32, width: Width, value: u32)
        requires { offset + size_of width ≤ memory_bytes }
        ensures { self.new ≡ with_bytes self.old offset width value }
    {
        let place = offset as usize;
        match width {
            Width::Byte | Width::ByteU => {
                reach(&mut self.front, place + 1);
                put_byte(&mut self.front, place, value);
            }
            Width::Half | Width::HalfU => {
                reach(&mut self.front, place + 2);
                put_half(&mut self.front, place, value);
            }
            Width::Word => {
                reach(&mut self.front, place + 4);
                put_word(&mut self.front, place, value);
            }
        }
    }
}
