//! A bus of RAM and the interrupt controller. Where an access goes. Where the vector words stand.
ghost use Rattle.std.specs.Prelude.{◌≡◌, ◌<◌, ◌==◌, None, Some, IfOk, IfErr, OnOk, OnErr, slice_set, slice_index, ◌^◌, ◌+◌, ◌*◌, ◌%◌};
ghost use Rattle.rv32_instr.specs.Memory.{refusal, loaded_number, stored_memory};
ghost use Rattle.sloth_base.specs.declared.app.Width.TheVariants as kind;
ghost use Rattle.sloth_base.specs.ImageRange.{InFormat};
ghost use Rattle.sloth_base.specs.MemoryMap.{line_count, vectors_base};
ghost use Rattle.machine_memory.specs.Fresh.{sloth_start};
ghost use Rattle.sloth_base.specs.Arithmetic.{size_of, extended_number};
ghost use Rattle.machine_memory.specs.Place.{IsPlace, bare_memory};

use crate::Bus;
use crate::code_ram::CodeRam;
use irq_ctrl::Controller;
use rv32_instr::{Bad, Instr};
use sloth_base::{
    CONTROLLER_BASE, CONTROLLER_BYTES, Image, LEVELS_OFFSET, Line, MEMORY_BASE, MEMORY_END, Result,
    VECTORS_BASE, Width,
};
use std::alloc::Global;
use std::marker::Model;

/// RAM and a controller. Contracts see it as memory.
#[derive(Drop)]
pub struct SlothBus {
    ram: CodeRam,
    controller: Controller,
}

impl Model for SlothBus {
    ghost use Rattle.std.specs.Prelude.{true};
    ghost use Rattle.rv32_instr.specs.Memory.{Memory};

    ghost Value = { Memory };

    ghost view = { λ bus. record { ram = bus.ram; lines = bus.controller; controller = true } };
}

impl SlothBus {
    /// RAM that begins with the image's memory, and zero in all else.
    pub fn new(alloc: Global, image: &Image) -> Result<SlothBus>
        requires { InFormat image.now }
        ensures { IfOk result (λ bus. bus ≡ sloth_start image.now) }
    {
        let ram = CodeRam::new(alloc, image.memory.items())?;
        let controller = Controller::new();
        Ok(SlothBus { ram, controller })
    }

    /// Takes the contents of another one.
    pub fn set_to(&mut self, other: &SlothBus)
        ensures { self.new ≡ other.now }
    {
        self.ram.set_to(&other.ram);
        self.controller = other.controller.copy();
    }

    /// The line's pending byte becomes 1.
    pub fn arrive(&mut self, line: Line)
        requires { line < line_count }
        ensures { self.new ≡ record self.old {
          lines = record self.old.lines { pending = slice_set self.old.lines.pending line 1 };
        } }
    {
        self.controller.arrive(line);
    }

    /// Whether the line is pending.
    pub fn is_pending(&self, line: Line) -> bool
        requires { line < line_count }
        ensures { result ≡ (slice_index self.now.lines.pending line == 1) }
    {
        self.controller.is_pending(line)
    }

    /// Whether the line is enabled.
    pub fn is_enabled(&self, line: Line) -> bool
        requires { line < line_count }
        ensures { result ≡ (slice_index self.now.lines.enabled line == 1) }
    {
        self.controller.is_enabled(line)
    }

    /// The line's level byte, 0 to 255.
    #[tactic(auto, using(std::proofs::lemmas::Bool::Decides::nat_tests), unfolding(sloth_base::specs::Lines::controller_byte))]
    pub fn level_of(&self, line: Line) -> u8
        requires { line < line_count }
        ensures { result ≡ slice_index self.now.lines.levels line }
    {
        self.controller
            .load(LEVELS_OFFSET as u32 + u32::from(line.0))
    }

    // What `load` gives, inlined for a width.
    #[inline(always)]
    #[tactic(auto, using(crate::proofs::Places::refusal_bare, crate::proofs::Places::loaded_ram, crate::proofs::Places::loaded_controller))]
    fn load_as(&mut self, address: u32, width: Width) -> Result<u32, Bad>
        ensures ok { IfOk result (λ value. (refusal self.old address width ≡ None)
            × (value ≡ loaded_number self.old address width)) }
        ensures err { IfErr result (λ reason. refusal self.old address width ≡ Some reason) }
        ensures byte { IfOk result (λ value. width ≡ kind.ByteU → value < 256) }
        ensures same { self.new ≡ self.old }
    {
        match locate(address, width, true) {
            Ok(Place::Ram(offset)) => Ok(extended(width, self.ram.load(offset, width))),
            Ok(Place::Controller(offset)) => Ok(extended(
                width,
                u32::from(self.controller.load(offset)),
            )),
            Err(bad) => Err(bad),
        }
    }

    #[inline(never)]
    fn load_part(&mut self, address: u32, width: Width) -> Result<u32, Bad>
        ensures ok { IfOk result (λ value. (refusal self.old address width ≡ None)
            × (value ≡ loaded_number self.old address width)) }
        ensures err { IfErr result (λ reason. refusal self.old address width ≡ Some reason) }
        ensures byte { IfOk result (λ value. width ≡ kind.ByteU → value < 256) }
        ensures same { self.new ≡ self.old }
    {
        self.load_as(address, width)
    }

    // What `store` does, inlined for a width.
    #[inline(always)]
    #[tactic(auto, using(crate::proofs::Places::refusal_bare, crate::proofs::Places::stored_ram, crate::proofs::Places::stored_controller))]
    fn store_as(&mut self, address: u32, width: Width, value: u32) -> Result<(), Bad>
        ensures ok { OnOk result ((refusal self.old address width ≡ None)
            × (self.new ≡ stored_memory self.old address width value)) }
        ensures err { IfErr result (λ reason. refusal self.old address width ≡ Some reason) }
        ensures same { OnErr result (self.new ≡ self.old) }
    {
        match locate(address, width, true) {
            Ok(Place::Ram(offset)) => self.ram.store(offset, width, value),
            Ok(Place::Controller(offset)) => self.controller.store(offset, (value % 256) as u8),
            Err(bad) => return Err(bad),
        }
        Ok(())
    }

    #[inline(never)]
    fn store_part(&mut self, address: u32, width: Width, value: u32) -> Result<(), Bad>
        ensures ok { OnOk result ((refusal self.old address width ≡ None)
            × (self.new ≡ stored_memory self.old address width value)) }
        ensures err { IfErr result (λ reason. refusal self.old address width ≡ Some reason) }
        ensures same { OnErr result (self.new ≡ self.old) }
    {
        self.store_as(address, width, value)
    }
}

impl Bus for SlothBus {
    ghost memory = { λ bus. bus };

    // (words apart, as most accesses are of one)
    #[inline(always)]
    fn load(&mut self, address: u32, width: Width) -> Result<u32, Bad> {
        match width {
            Width::Word => self.load_as(address, Width::Word),
            _ => self.load_part(address, width),
        }
    }

    #[inline(always)]
    fn store(&mut self, address: u32, width: Width, value: u32) -> Result<(), Bad> {
        match width {
            Width::Word => self.store_as(address, Width::Word, value),
            _ => self.store_part(address, width, value),
        }
    }

    #[inline(always)]
    #[tactic(auto, using(crate::proofs::Places::refusal_bare, crate::proofs::Places::fetched))]
    fn fetch(&mut self, address: u32) -> Result<Option<Instr>, Bad> {
        match locate(address, Width::Word, true) {
            Ok(Place::Ram(offset)) => Ok(self.ram.instruction(offset)),
            Ok(Place::Controller(_)) => unreachable!(),
            Err(bad) => Err(bad),
        }
    }

    fn choose(&self, level: u8) -> Option<Line> {
        self.controller.choose(level)
    }

    fn take(&mut self, line: Line) {
        self.controller.take(line);
    }
}

/// An offset in RAM, or in the controller.
#[derive(Clone, Copy)]
pub enum Place {
    Ram(u32),
    Controller(u32),
}

fn size_of(width: Width) -> u32
    ensures { result ≡ size_of width }
{
    match width {
        Width::Byte | Width::ByteU => 1,
        Width::Half | Width::HalfU => 2,
        Width::Word => 4,
    }
}

/// Where an access goes on a bus with a controller or without one.
#[tactic(auto, using(std::proofs::lemmas::Bool::Decides::nat_tests), unfolding(rv32_instr::specs::Memory::refusal))]
pub fn locate(address: u32, width: Width, controller: bool) -> Result<Place, Bad>
    ensures accepted { IfOk result (λ place. refusal (bare_memory controller) address width ≡ None) }
    ensures ok { IfOk result (λ place. IsPlace controller address width place) }
    ensures err { IfErr result (λ reason. refusal (bare_memory controller) address width ≡ Some reason) }
{
    let size = size_of(width);
    if address % size != 0 {
        return Err(Bad::Misaligned);
    }
    if MEMORY_BASE <= address && address <= MEMORY_END - size {
        return Ok(Place::Ram(address - MEMORY_BASE));
    }
    if controller
        && size == 1
        && CONTROLLER_BASE <= address
        && address < CONTROLLER_BASE + CONTROLLER_BYTES
    {
        return Ok(Place::Controller(address - CONTROLLER_BASE));
    }
    Err(Bad::Access)
}

/// The word that a load makes of its bytes.
pub fn extended(width: Width, value: u32) -> u32
    requires { value < 256 ^ size_of width }
    ensures { result ≡ extended_number width value }
{
    match width {
        Width::Byte if value >= 0x80 => value + 0xffff_ff00,
        Width::Half if value >= 0x8000 => value + 0xffff_0000,
        _ => value,
    }
}

/// The address of a line's vector word.
pub fn vector(line: Line) -> u32
    ensures is { result ≡ vectors_base + 4 * line }
    ensures whole { result % 4 ≡ 0 }
{
    VECTORS_BASE + 4 * u32::from(line.0)
}
