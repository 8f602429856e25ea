//! Instructions by mnemonic, operands in the order of RISC-V assembly; loads and stores name the base, then the offset.
//! The loads and stores of memory by their width.
ghost use Rattle.std.specs.Prelude.{◌≡◌};
ghost use Rattle.rv32_instr.specs.declared.InstrKind.TheVariants.{Lui, Auipc, Jal, Jalr, Beq, Bne, Bltu, Bgeu, Lb, Lh};
ghost use Rattle.rv32_instr.specs.declared.InstrKind.TheVariants.{Lw, Lbu, Lhu, Sb, Sh, Sw, Addi, Xori, Andi, Slli};
ghost use Rattle.rv32_instr.specs.declared.InstrKind.TheVariants.{Srli, Srai, Add, Sub, Sltu, Xor, Or, And, Csrrw, Csrrs};
ghost use Rattle.rv32_instr.specs.declared.InstrKind.TheVariants.{Csrrwi, Csrrci, Mret};
ghost use Rattle.rv32_instr.specs.Access.{load, store};

use crate::InstrKind;
use sloth_base::{Reg, Width};

pub const ZERO: Reg = Reg(0);

pub const X1: Reg = Reg(1);

pub const X2: Reg = Reg(2);

pub const X3: Reg = Reg(3);

pub const X4: Reg = Reg(4);

pub const A0: Reg = Reg(10);

pub const A1: Reg = Reg(11);

pub const X30: Reg = Reg(30);

pub const X31: Reg = Reg(31);

/// rd := imm * 4096.
pub fn lui(rd: Reg, imm: u32) -> InstrKind
    ensures { result ≡ Lui rd imm }
{
    InstrKind::Lui { rd, imm }
}

/// rd := this instruction's address + imm * 4096.
pub fn auipc(rd: Reg, imm: u32) -> InstrKind
    ensures { result ≡ Auipc rd imm }
{
    InstrKind::Auipc { rd, imm }
}

/// rd := the next address, and on at `imm` bytes from here.
pub fn jal(rd: Reg, imm: i32) -> InstrKind
    ensures { result ≡ Jal rd imm }
{
    InstrKind::Jal { rd, imm }
}

/// rd := the next address, and on at rs1 + imm.
pub fn jalr(rd: Reg, rs1: Reg, imm: i32) -> InstrKind
    ensures { result ≡ Jalr rd rs1 imm }
{
    InstrKind::Jalr { rd, rs1, imm }
}

/// On at `imm` bytes from here, where the registers are equal.
pub fn beq(rs1: Reg, rs2: Reg, imm: i32) -> InstrKind
    ensures { result ≡ Beq rs1 rs2 imm }
{
    InstrKind::Beq { rs1, rs2, imm }
}

/// The same where they differ.
pub fn bne(rs1: Reg, rs2: Reg, imm: i32) -> InstrKind
    ensures { result ≡ Bne rs1 rs2 imm }
{
    InstrKind::Bne { rs1, rs2, imm }
}

/// The same where rs1 is less than rs2.
pub fn bltu(rs1: Reg, rs2: Reg, imm: i32) -> InstrKind
    ensures { result ≡ Bltu rs1 rs2 imm }
{
    InstrKind::Bltu { rs1, rs2, imm }
}

/// The same where rs1 is not less than rs2.
pub fn bgeu(rs1: Reg, rs2: Reg, imm: i32) -> InstrKind
    ensures { result ≡ Bgeu rs1 rs2 imm }
{
    InstrKind::Bgeu { rs1, rs2, imm }
}

/// rd := the word at rs1 + imm.
pub fn lw(rd: Reg, rs1: Reg, imm: i32) -> InstrKind
    ensures { result ≡ Lw rd rs1 imm }
{
    InstrKind::Lw { rd, rs1, imm }
}

/// rd := the byte at rs1 + imm.
pub fn lbu(rd: Reg, rs1: Reg, imm: i32) -> InstrKind
    ensures { result ≡ Lbu rd rs1 imm }
{
    InstrKind::Lbu { rd, rs1, imm }
}

/// The word at rs1 + imm := rs2.
pub fn sw(rs2: Reg, rs1: Reg, imm: i32) -> InstrKind
    ensures { result ≡ Sw rs1 rs2 imm }
{
    InstrKind::Sw { rs1, rs2, imm }
}

/// The byte at rs1 + imm := the low byte of rs2.
pub fn sb(rs2: Reg, rs1: Reg, imm: i32) -> InstrKind
    ensures { result ≡ Sb rs1 rs2 imm }
{
    InstrKind::Sb { rs1, rs2, imm }
}

/// rd := rs1 + imm.
pub fn addi(rd: Reg, rs1: Reg, imm: i32) -> InstrKind
    ensures { result ≡ Addi rd rs1 imm }
{
    InstrKind::Addi { rd, rs1, imm }
}

/// rd := rs1 ^ imm.
pub fn xori(rd: Reg, rs1: Reg, imm: i32) -> InstrKind
    ensures { result ≡ Xori rd rs1 imm }
{
    InstrKind::Xori { rd, rs1, imm }
}

/// rd := rs1 & imm.
pub fn andi(rd: Reg, rs1: Reg, imm: i32) -> InstrKind
    ensures { result ≡ Andi rd rs1 imm }
{
    InstrKind::Andi { rd, rs1, imm }
}

/// rd := rs1 << amount.
pub fn slli(rd: Reg, rs1: Reg, amount: u8) -> InstrKind
    ensures { result ≡ Slli rd rs1 amount }
{
    InstrKind::Slli { rd, rs1, amount }
}

/// rd := rs1 >> amount.
pub fn srli(rd: Reg, rs1: Reg, amount: u8) -> InstrKind
    ensures { result ≡ Srli rd rs1 amount }
{
    InstrKind::Srli { rd, rs1, amount }
}

/// rd := rs1 >> amount, with the sign.
pub fn srai(rd: Reg, rs1: Reg, amount: u8) -> InstrKind
    ensures { result ≡ Srai rd rs1 amount }
{
    InstrKind::Srai { rd, rs1, amount }
}

/// rd := rs1 + rs2.
pub fn add(rd: Reg, rs1: Reg, rs2: Reg) -> InstrKind
    ensures { result ≡ Add rd rs1 rs2 }
{
    InstrKind::Add { rd, rs1, rs2 }
}

/// rd := rs1 - rs2.
pub fn sub(rd: Reg, rs1: Reg, rs2: Reg) -> InstrKind
    ensures { result ≡ Sub rd rs1 rs2 }
{
    InstrKind::Sub { rd, rs1, rs2 }
}

/// rd := 1 where rs1 is less than rs2, else 0.
pub fn sltu(rd: Reg, rs1: Reg, rs2: Reg) -> InstrKind
    ensures { result ≡ Sltu rd rs1 rs2 }
{
    InstrKind::Sltu { rd, rs1, rs2 }
}

/// rd := rs1 ^ rs2.
pub fn xor(rd: Reg, rs1: Reg, rs2: Reg) -> InstrKind
    ensures { result ≡ Xor rd rs1 rs2 }
{
    InstrKind::Xor { rd, rs1, rs2 }
}

/// rd := rs1 | rs2.
pub fn or(rd: Reg, rs1: Reg, rs2: Reg) -> InstrKind
    ensures { result ≡ Or rd rs1 rs2 }
{
    InstrKind::Or { rd, rs1, rs2 }
}

/// rd := rs1 & rs2.
pub fn and(rd: Reg, rs1: Reg, rs2: Reg) -> InstrKind
    ensures { result ≡ And rd rs1 rs2 }
{
    InstrKind::And { rd, rs1, rs2 }
}

/// rd := the CSR, and the CSR := rs1.
pub fn csrrw(rd: Reg, csr: u16, rs1: Reg) -> InstrKind
    ensures { result ≡ Csrrw rd rs1 csr }
{
    InstrKind::Csrrw { rd, rs1, csr }
}

/// rd := the CSR, and the CSR := the CSR | rs1.
pub fn csrrs(rd: Reg, csr: u16, rs1: Reg) -> InstrKind
    ensures { result ≡ Csrrs rd rs1 csr }
{
    InstrKind::Csrrs { rd, rs1, csr }
}

/// rd := the CSR, and the CSR := the number.
pub fn csrrwi(rd: Reg, csr: u16, number: u8) -> InstrKind
    ensures { result ≡ Csrrwi rd number csr }
{
    InstrKind::Csrrwi { rd, number, csr }
}

/// rd := the CSR, and the number's bits in the CSR := 0.
pub fn csrrci(rd: Reg, csr: u16, number: u8) -> InstrKind
    ensures { result ≡ Csrrci rd number csr }
{
    InstrKind::Csrrci { rd, number, csr }
}

/// On at mepc, at the level in plevel, with MIE as MPIE says.
pub fn mret() -> InstrKind
    ensures { result ≡ Mret }
{
    InstrKind::Mret
}

/// rd := what stands at rs1 + imm.
pub fn load(width: Width, rd: Reg, rs1: Reg, imm: i32) -> InstrKind
    ensures { result ≡ load width rd rs1 imm }
{
    match width {
        Width::Byte => InstrKind::Lb { rd, rs1, imm },
        Width::Half => InstrKind::Lh { rd, rs1, imm },
        Width::Word => InstrKind::Lw { rd, rs1, imm },
        Width::ByteU => InstrKind::Lbu { rd, rs1, imm },
        Width::HalfU => InstrKind::Lhu { rd, rs1, imm },
    }
}

/// What stands at rs1 + imm := the low part of rs2.
pub fn store(width: Width, rs2: Reg, rs1: Reg, imm: i32) -> InstrKind
    ensures { result ≡ store width rs2 rs1 imm }
{
    match width {
        Width::Byte | Width::ByteU => InstrKind::Sb { rs1, rs2, imm },
        Width::Half | Width::HalfU => InstrKind::Sh { rs1, rs2, imm },
        Width::Word => InstrKind::Sw { rs1, rs2, imm },
    }
}
