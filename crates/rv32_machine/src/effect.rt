//! What each instruction does. A bus of RAM alone.
ghost use Rattle.std.specs.Prelude.{◌≡◌, ◌<◌, ◌-◌, ◌%◌, slice_index, if◌then◌else◌, ◌==◌, IfOk};
ghost use Rattle.std.specs.Int.{w32, cast_signed};
ghost use Rattle.rv32_instr.specs.Range.{InRange};
ghost use Rattle.rv32_instr.specs.Effect.{effect};
ghost use Rattle.sloth_base.specs.Arithmetic.{plus};
ghost use Rattle.rv32_instr.specs.declared.encoding.Effect.TheVariants as asks;
ghost use Rattle.rv32_instr.specs.declared.encoding.Change.TheVariants as change;
ghost use Rattle.rv32_machine.specs.RegisterRange.{HasRegisterInRange};
ghost use Rattle.sloth_base.specs.ImageRange.{InFormat};
ghost use Rattle.rv32_machine.specs.Start.{flat_start};

use machine_memory::{Bus, Place, Ram, extended, locate};
use rv32_instr::{Bad, Change, Effect, Instr, InstrKind, decode};
use sloth_base::{Image, Line, Reg, Result, Width};
use std::alloc::Global;

/// What the instruction at `pc` does, with the registers `x`.
#[inline(always)]
pub fn effect(kind: InstrKind, pc: u32, x: &[u32; 32]) -> Effect
    requires { InRange kind }
    ensures is { result ≡ effect kind pc x.now }
    ensures fits { HasRegisterInRange result }
{
    asked(kind, pc, x)
}

#[inline(always)]
fn asked(kind: InstrKind, pc: u32, x: &[u32; 32]) -> Effect
    requires { InRange kind }
    ensures { result ≡ effect kind pc x.now }
{
    match kind {
        InstrKind::Lui { rd, imm } => write(rd, imm << 12),
        InstrKind::Auipc { rd, imm } => write(rd, pc.wrapping_add(imm << 12)),
        InstrKind::Jal { rd, imm } => Effect::Jump {
            rd,
            target: plus(pc, imm),
        },
        InstrKind::Jalr { rd, rs1, imm } => Effect::Jump {
            rd,
            target: even(plus(at(x, rs1), imm)),
        },
        InstrKind::Beq { rs1, rs2, imm } => branch(at(x, rs1) == at(x, rs2), pc, imm),
        InstrKind::Bne { rs1, rs2, imm } => branch(at(x, rs1) != at(x, rs2), pc, imm),
        InstrKind::Blt { rs1, rs2, imm } => branch(signed(x, rs1) < signed(x, rs2), pc, imm),
        InstrKind::Bge { rs1, rs2, imm } => branch(signed(x, rs1) >= signed(x, rs2), pc, imm),
        InstrKind::Bltu { rs1, rs2, imm } => branch(at(x, rs1) < at(x, rs2), pc, imm),
        InstrKind::Bgeu { rs1, rs2, imm } => branch(at(x, rs1) >= at(x, rs2), pc, imm),
        InstrKind::Lb { rd, rs1, imm } => load(Width::Byte, rd, at(x, rs1), imm),
        InstrKind::Lh { rd, rs1, imm } => load(Width::Half, rd, at(x, rs1), imm),
        InstrKind::Lw { rd, rs1, imm } => load(Width::Word, rd, at(x, rs1), imm),
        InstrKind::Lbu { rd, rs1, imm } => load(Width::ByteU, rd, at(x, rs1), imm),
        InstrKind::Lhu { rd, rs1, imm } => load(Width::HalfU, rd, at(x, rs1), imm),
        InstrKind::Sb { rs1, rs2, imm } => store(Width::Byte, at(x, rs1), imm, at(x, rs2)),
        InstrKind::Sh { rs1, rs2, imm } => store(Width::Half, at(x, rs1), imm, at(x, rs2)),
        InstrKind::Sw { rs1, rs2, imm } => store(Width::Word, at(x, rs1), imm, at(x, rs2)),
        InstrKind::Addi { rd, rs1, imm } => write(rd, plus(at(x, rs1), imm)),
        InstrKind::Slti { rd, rs1, imm } => write(rd, (signed(x, rs1) < imm) as u32),
        InstrKind::Sltiu { rd, rs1, imm } => write(rd, (at(x, rs1) < imm.cast_unsigned()) as u32),
        InstrKind::Xori { rd, rs1, imm } => write(rd, at(x, rs1) ^ imm.cast_unsigned()),
        InstrKind::Ori { rd, rs1, imm } => write(rd, at(x, rs1) | imm.cast_unsigned()),
        InstrKind::Andi { rd, rs1, imm } => write(rd, at(x, rs1) & imm.cast_unsigned()),
        InstrKind::Slli { rd, rs1, amount } => write(rd, at(x, rs1) << amount),
        InstrKind::Srli { rd, rs1, amount } => write(rd, at(x, rs1) >> amount),
        InstrKind::Srai { rd, rs1, amount } => write(
            rd,
            (signed(x, rs1) >> amount).cast_unsigned(),
        ),
        InstrKind::Add { rd, rs1, rs2 } => write(rd, at(x, rs1).wrapping_add(at(x, rs2))),
        InstrKind::Sub { rd, rs1, rs2 } => write(rd, at(x, rs1).wrapping_sub(at(x, rs2))),
        InstrKind::Sll { rd, rs1, rs2 } => write(rd, at(x, rs1) << (at(x, rs2) % 32)),
        InstrKind::Slt { rd, rs1, rs2 } => write(rd, (signed(x, rs1) < signed(x, rs2)) as u32),
        InstrKind::Sltu { rd, rs1, rs2 } => write(rd, (at(x, rs1) < at(x, rs2)) as u32),
        InstrKind::Xor { rd, rs1, rs2 } => write(rd, at(x, rs1) ^ at(x, rs2)),
        InstrKind::Srl { rd, rs1, rs2 } => write(rd, at(x, rs1) >> (at(x, rs2) % 32)),
        InstrKind::Sra { rd, rs1, rs2 } => write(
            rd,
            (signed(x, rs1) >> (at(x, rs2) % 32)).cast_unsigned(),
        ),
        InstrKind::Or { rd, rs1, rs2 } => write(rd, at(x, rs1) | at(x, rs2)),
        InstrKind::And { rd, rs1, rs2 } => write(rd, at(x, rs1) & at(x, rs2)),
        InstrKind::Fence { .. } => Effect::Nothing,
        InstrKind::Csrrw { rd, rs1, csr } => on_csr(rd, csr, Change::Replace(at(x, rs1))),
        InstrKind::Csrrs { rd, rs1, csr } => on_csr(rd, csr, set(rs1.0, at(x, rs1))),
        InstrKind::Csrrc { rd, rs1, csr } => on_csr(rd, csr, clear(rs1.0, at(x, rs1))),
        InstrKind::Csrrwi { rd, number, csr } => on_csr(rd, csr, Change::Replace(number as u32)),
        InstrKind::Csrrsi { rd, number, csr } => on_csr(rd, csr, set(number, number as u32)),
        InstrKind::Csrrci { rd, number, csr } => on_csr(rd, csr, clear(number, number as u32)),
        InstrKind::Ecall | InstrKind::Ebreak => Effect::Environment,
        InstrKind::Mret => Effect::Return,
    }
}

fn at(x: &[u32; 32], number: Reg) -> u32
    requires { number < 32 }
    ensures { result ≡ slice_index x.now number }
{
    x[usize::from(number.0)]
}

fn signed(x: &[u32; 32], number: Reg) -> i32
    requires { number < 32 }
    ensures { result ≡ cast_signed w32 (slice_index x.now number) }
{
    at(x, number).cast_signed()
}

fn plus(value: u32, imm: i32) -> u32
    ensures { result ≡ plus value imm }
{
    value.wrapping_add(imm.cast_unsigned())
}

fn even(address: u32) -> u32
    ensures { result ≡ address - address % 2 }
{
    address - address % 2
}

fn branch(taken: bool, pc: u32, imm: i32) -> Effect
    ensures { result ≡ asks.Branch taken (plus pc imm) }
{
    let target = plus(pc, imm);
    Effect::Branch { taken, target }
}

#[inline(always)]
fn write(rd: Reg, value: u32) -> Effect
    ensures { result ≡ asks.Write rd value }
{
    Effect::Write { rd, value }
}

fn load(width: Width, rd: Reg, base: u32, imm: i32) -> Effect
    ensures { result ≡ asks.Load width rd (plus base imm) }
{
    let address = plus(base, imm);
    Effect::Load { width, rd, address }
}

fn store(width: Width, base: u32, imm: i32, value: u32) -> Effect
    ensures { result ≡ asks.Store width (plus base imm) value }
{
    Effect::Store {
        width,
        address: plus(base, imm),
        value,
    }
}

// Sets bits, unless the instruction's field is zero.
fn set(field: u8, bits: u32) -> Change
    ensures { result ≡ (if field == 0 then change.Keep else change.Set bits) }
{
    if field == 0 {
        Change::Keep
    } else {
        Change::Set(bits)
    }
}

fn clear(field: u8, bits: u32) -> Change
    ensures { result ≡ (if field == 0 then change.Keep else change.Clear bits) }
{
    if field == 0 {
        Change::Keep
    } else {
        Change::Clear(bits)
    }
}

#[inline(always)]
fn on_csr(rd: Reg, csr: u16, change: Change) -> Effect
    ensures { result ≡ asks.Csr rd csr change }
{
    Effect::Csr { rd, csr, change }
}

/// RAM without a controller.
#[derive(Drop)]
pub struct FlatBus {
    ram: Ram,
}

impl FlatBus {
    ghost use Rattle.rv32_machine.specs.Flat.{flat_memory};

    /// RAM that begins with the image's memory; the rest is zero.
    pub fn new(alloc: Global, image: &Image) -> Result<FlatBus>
        requires { InFormat image.now }
        ensures { IfOk result (λ bus. flat_memory bus ≡ flat_start image.now) }
    {
        let ram = Ram::new(alloc, image.memory.items())?;
        Ok(FlatBus { ram })
    }
}

impl Bus for FlatBus {
    ghost use Rattle.rv32_machine.specs.Flat.{flat_memory};

    ghost memory = { flat_memory };

    #[tactic(auto, using(machine_memory::proofs::Places::refusal_bare, machine_memory::proofs::Places::loaded_ram))]
    fn load(&mut self, address: u32, width: Width) -> Result<u32, Bad> {
        match locate(address, width, false) {
            Ok(Place::Ram(offset)) => Ok(extended(width, self.ram.load(offset, width))),
            Ok(Place::Controller(_)) => unreachable!(),
            Err(bad) => Err(bad),
        }
    }

    #[tactic(auto, using(machine_memory::proofs::Places::refusal_bare, machine_memory::proofs::Places::stored_ram))]
    fn store(&mut self, address: u32, width: Width, value: u32) -> Result<(), Bad> {
        match locate(address, width, false) {
            Ok(Place::Ram(offset)) => self.ram.store(offset, width, value),
            Ok(Place::Controller(_)) => unreachable!(),
            Err(bad) => return Err(bad),
        }
        Ok(())
    }

    fn fetch(&mut self, address: u32) -> Result<Option<Instr>, Bad> {
        match self.load(address, Width::Word) {
            Ok(word) => Ok(decode(word)),
            Err(bad) => Err(bad),
        }
    }

    fn choose(&self, _level: u8) -> Option<Line> {
        None
    }

    fn take(&mut self, _line: Line) {}
}
