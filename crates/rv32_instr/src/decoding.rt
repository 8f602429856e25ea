//! From a word to its instruction.
//! Parts of a word. The two parts of a 32-bit constant: `lui` loads the one, and `addi` adds the other.
ghost use Rattle.std.specs.Prelude.{◌≡◌, Some, ◌↔◌, ◌<◌, ◌^◌};
ghost use Rattle.rv32_instr.specs.Words.{rd, funct3, rs1, rs2, funct7, imm_i, imm_s, imm_b, imm_u, imm_j};
ghost use Rattle.rv32_instr.specs.Table.{Decode, jump, branch, load, store, immediate, register, control, fence, system};
ghost use Rattle.rv32_instr.specs.Encode.{IsWordOf};
ghost use Rattle.rv32_instr.specs.declared.InstrKind.{InstrKind};
ghost use Rattle.rv32_instr.specs.Fields.{bits, part};
ghost use Rattle.sloth_base.specs.Arithmetic.{signed, hi, lo};
ghost use Rattle.rv32_instr.specs.Range.{IsSigned};

use crate::asm::{auipc, jal, lui};
use crate::encoding::{
    AUIPC, BRANCH, EBREAK, ECALL, JAL, JALR, LOAD, LUI, MISC_MEM, MRET, OP, OP_IMM, STORE, SYSTEM,
};
use crate::{Instr, InstrKind};
use sloth_base::Reg;

fn rd(word: u32) -> Reg
    ensures { result ≡ rd word }
{
    Reg(bits(word, 7, 5) as u8)
}

fn funct3(word: u32) -> u32
    ensures { result ≡ funct3 word }
{
    bits(word, 12, 3)
}

fn rs1(word: u32) -> Reg
    ensures { result ≡ rs1 word }
{
    Reg(bits(word, 15, 5) as u8)
}

fn rs2(word: u32) -> Reg
    ensures { result ≡ rs2 word }
{
    Reg(bits(word, 20, 5) as u8)
}

fn funct7(word: u32) -> u32
    ensures { result ≡ funct7 word }
{
    bits(word, 25, 7)
}

fn imm_i(word: u32) -> i32
    ensures { result ≡ imm_i word }
{
    signed(bits(word, 20, 12), 12)
}

#[tactic(auto, using(crate::proofs::Joins::or_pieces))]
fn imm_s(word: u32) -> i32
    ensures { result ≡ imm_s word }
{
    signed(bits(word, 25, 7) << 5 | bits(word, 7, 5), 12)
}

#[tactic(auto, using(crate::proofs::Joins::or_branch))]
fn imm_b(word: u32) -> i32
    ensures { result ≡ imm_b word }
{
    let pieces = bits(word, 31, 1) << 12
        | bits(word, 7, 1) << 11
        | bits(word, 25, 6) << 5
        | bits(word, 8, 4) << 1;
    signed(pieces, 13)
}

fn imm_u(word: u32) -> u32
    ensures { result ≡ imm_u word }
{
    bits(word, 12, 20)
}

#[tactic(auto, using(crate::proofs::Joins::or_target))]
fn imm_j(word: u32) -> i32
    ensures { result ≡ imm_j word }
{
    let pieces = bits(word, 31, 1) << 20
        | bits(word, 12, 8) << 12
        | bits(word, 20, 1) << 11
        | bits(word, 21, 10) << 1;
    signed(pieces, 21)
}

#[tactic(auto, using(std::proofs::lemmas::Bool::Decides::nat_tests), unfolding(crate::specs::Table::jump))]
fn jump(funct3: u32, rd: Reg, rs1: Reg, imm: i32) -> Option<InstrKind>
    ensures { result ≡ jump funct3 rd rs1 imm }
{
    match funct3 {
        0b000 => Some(InstrKind::Jalr { rd, rs1, imm }),
        _ => None,
    }
}

#[tactic(auto, using(std::proofs::lemmas::Bool::Decides::nat_tests), unfolding(crate::specs::Table::branch))]
fn branch(funct3: u32, rs1: Reg, rs2: Reg, imm: i32) -> Option<InstrKind>
    ensures { result ≡ branch funct3 rs1 rs2 imm }
{
    match funct3 {
        0b000 => Some(InstrKind::Beq { rs1, rs2, imm }),
        0b001 => Some(InstrKind::Bne { rs1, rs2, imm }),
        0b100 => Some(InstrKind::Blt { rs1, rs2, imm }),
        0b101 => Some(InstrKind::Bge { rs1, rs2, imm }),
        0b110 => Some(InstrKind::Bltu { rs1, rs2, imm }),
        0b111 => Some(InstrKind::Bgeu { rs1, rs2, imm }),
        _ => None,
    }
}

#[tactic(auto, using(std::proofs::lemmas::Bool::Decides::nat_tests), unfolding(crate::specs::Table::load))]
fn load(funct3: u32, rd: Reg, rs1: Reg, imm: i32) -> Option<InstrKind>
    ensures { result ≡ load funct3 rd rs1 imm }
{
    match funct3 {
        0b000 => Some(InstrKind::Lb { rd, rs1, imm }),
        0b001 => Some(InstrKind::Lh { rd, rs1, imm }),
        0b010 => Some(InstrKind::Lw { rd, rs1, imm }),
        0b100 => Some(InstrKind::Lbu { rd, rs1, imm }),
        0b101 => Some(InstrKind::Lhu { rd, rs1, imm }),
        _ => None,
    }
}

#[tactic(auto, using(std::proofs::lemmas::Bool::Decides::nat_tests), unfolding(crate::specs::Table::store))]
fn store(funct3: u32, rs1: Reg, rs2: Reg, imm: i32) -> Option<InstrKind>
    ensures { result ≡ store funct3 rs1 rs2 imm }
{
    match funct3 {
        0b000 => Some(InstrKind::Sb { rs1, rs2, imm }),
        0b001 => Some(InstrKind::Sh { rs1, rs2, imm }),
        0b010 => Some(InstrKind::Sw { rs1, rs2, imm }),
        _ => None,
    }
}

#[tactic(auto, using(std::proofs::lemmas::Bool::Decides::nat_tests), unfolding(crate::specs::Table::immediate))]
fn immediate(funct7: u32, funct3: u32, rd: Reg, rs1: Reg, imm: i32, amount: u8) -> Option<InstrKind>
    ensures { result ≡ immediate funct7 funct3 rd rs1 imm amount }
{
    match (funct3, funct7) {
        (0b000, _) => Some(InstrKind::Addi { rd, rs1, imm }),
        (0b010, _) => Some(InstrKind::Slti { rd, rs1, imm }),
        (0b011, _) => Some(InstrKind::Sltiu { rd, rs1, imm }),
        (0b100, _) => Some(InstrKind::Xori { rd, rs1, imm }),
        (0b110, _) => Some(InstrKind::Ori { rd, rs1, imm }),
        (0b111, _) => Some(InstrKind::Andi { rd, rs1, imm }),
        (0b001, 0b0000000) => Some(InstrKind::Slli { rd, rs1, amount }),
        (0b101, 0b0000000) => Some(InstrKind::Srli { rd, rs1, amount }),
        (0b101, 0b0100000) => Some(InstrKind::Srai { rd, rs1, amount }),
        _ => None,
    }
}

#[tactic(auto, using(std::proofs::lemmas::Bool::Decides::nat_tests), unfolding(crate::specs::Table::register))]
fn register(funct7: u32, funct3: u32, rd: Reg, rs1: Reg, rs2: Reg) -> Option<InstrKind>
    ensures { result ≡ register funct7 funct3 rd rs1 rs2 }
{
    match (funct3, funct7) {
        (0b000, 0b0000000) => Some(InstrKind::Add { rd, rs1, rs2 }),
        (0b000, 0b0100000) => Some(InstrKind::Sub { rd, rs1, rs2 }),
        (0b001, 0b0000000) => Some(InstrKind::Sll { rd, rs1, rs2 }),
        (0b010, 0b0000000) => Some(InstrKind::Slt { rd, rs1, rs2 }),
        (0b011, 0b0000000) => Some(InstrKind::Sltu { rd, rs1, rs2 }),
        (0b100, 0b0000000) => Some(InstrKind::Xor { rd, rs1, rs2 }),
        (0b101, 0b0000000) => Some(InstrKind::Srl { rd, rs1, rs2 }),
        (0b101, 0b0100000) => Some(InstrKind::Sra { rd, rs1, rs2 }),
        (0b110, 0b0000000) => Some(InstrKind::Or { rd, rs1, rs2 }),
        (0b111, 0b0000000) => Some(InstrKind::And { rd, rs1, rs2 }),
        _ => None,
    }
}

#[tactic(auto, using(std::proofs::lemmas::Bool::Decides::nat_tests), unfolding(crate::specs::Table::control))]
fn control(funct3: u32, rd: Reg, rs1: Reg, csr: u16) -> Option<InstrKind>
    ensures { result ≡ control funct3 rd rs1 csr }
{
    let number = rs1.0;
    match funct3 {
        0b001 => Some(InstrKind::Csrrw { rd, rs1, csr }),
        0b010 => Some(InstrKind::Csrrs { rd, rs1, csr }),
        0b011 => Some(InstrKind::Csrrc { rd, rs1, csr }),
        0b101 => Some(InstrKind::Csrrwi { rd, number, csr }),
        0b110 => Some(InstrKind::Csrrsi { rd, number, csr }),
        0b111 => Some(InstrKind::Csrrci { rd, number, csr }),
        _ => None,
    }
}

#[tactic(auto, using(crate::proofs::Joins::or_fence, std::proofs::lemmas::Bool::Decides::nat_tests), unfolding(crate::specs::Table::fence))]
fn fence(word: u32) -> Option<InstrKind>
    ensures { result ≡ fence word }
{
    if funct3(word) == 0b000 {
        let bits = bits(word, 15, 17) << 15 | bits(word, 7, 5) << 7;
        Some(InstrKind::Fence { bits })
    } else {
        None
    }
}

#[tactic(auto, using(std::proofs::lemmas::Bool::Decides::nat_tests), unfolding(crate::specs::Table::system))]
fn system(word: u32) -> Option<InstrKind>
    ensures { result ≡ system word }
{
    match word {
        ECALL => Some(InstrKind::Ecall),
        EBREAK => Some(InstrKind::Ebreak),
        MRET => Some(InstrKind::Mret),
        _ => control(funct3(word), rd(word), rs1(word), bits(word, 20, 12) as u16),
    }
}

#[tactic(auto, using(crate::proofs::Table::at_lui, crate::proofs::Table::at_auipc, crate::proofs::Table::at_jal, crate::proofs::Table::at_jalr, crate::proofs::Table::at_branch, crate::proofs::Table::at_load, crate::proofs::Table::at_store, crate::proofs::Table::at_immediate, crate::proofs::Table::at_register, crate::proofs::Table::at_fence, crate::proofs::Table::at_system, crate::proofs::Table::at_other))]
fn decode_kind(word: u32) -> Option<InstrKind>
    ensures { result ≡ Decode word }
{
    match bits(word, 0, 7) {
        LUI => Some(lui(rd(word), imm_u(word))),
        AUIPC => Some(auipc(rd(word), imm_u(word))),
        JAL => Some(jal(rd(word), imm_j(word))),
        JALR => jump(funct3(word), rd(word), rs1(word), imm_i(word)),
        BRANCH => branch(funct3(word), rs1(word), rs2(word), imm_b(word)),
        LOAD => load(funct3(word), rd(word), rs1(word), imm_i(word)),
        STORE => store(funct3(word), rs1(word), rs2(word), imm_s(word)),
        OP_IMM => immediate(
            funct7(word),
            funct3(word),
            rd(word),
            rs1(word),
            imm_i(word),
            rs2(word).0,
        ),
        OP => register(funct7(word), funct3(word), rd(word), rs1(word), rs2(word)),
        MISC_MEM => fence(word),
        SYSTEM => system(word),
        _ => None,
    }
}

/// The instruction of a word, if it has one.
#[tactic(auto, using(crate::proofs::Table::decode_is, crate::proofs::Table::decode_exact))]
pub fn decode(word: u32) -> Option<Instr>
    ensures is { result ≡ Decode word }
    ensures exact { (i : InstrKind) → (result ≡ Some i) ↔ IsWordOf word i }
{
    let kind = decode_kind(word)?;
    Some(Instr::of(kind))
}

/// `count` bits of a word, from bit `low` up.
pub fn bits(word: u32, low: u32, count: u32) -> u32
    requires { (low < 32) × (count < 32) }
    ensures is { result ≡ bits word low count }
    ensures below { result < 2 ^ count }
{
    (word >> low) & ((1 << count) - 1)
}

/// The signed number whose two's complement is the low `count` bits of `value`.
pub fn signed(value: u32, count: u32) -> i32
    requires { (0 < count) × (count < 31) × (value < 2 ^ count) }
    ensures is { result ≡ signed count value }
    ensures fits { IsSigned count result }
{
    if value < 1 << (count - 1) {
        value as i32
    } else {
        value as i32 - (1 << count)
    }
}

/// `count` bits of a number's two's complement, from bit `low` up.
pub fn part(value: i32, low: u32, count: u32) -> u32
    requires { (low < 32) × (count < 32) }
    ensures is { result ≡ part value low count }
    ensures below { result < 2 ^ count }
{
    bits(value.cast_unsigned(), low, count)
}

/// Bits 31 to 12 of a constant, rounded so that `lo` is all that is left.
#[tactic(auto, unfolding(sloth_base::specs::Arithmetic::hi))]
pub fn hi(value: u32) -> u32
    ensures is { result ≡ hi value }
    ensures fits { result < 2 ^ 20 }
{
    ((value as u64 + 0x800) / 0x1000 % 0x10_0000) as u32
}

/// What is left of a constant behind `hi`.
#[tactic(auto, unfolding(sloth_base::specs::Arithmetic::lo))]
pub fn lo(value: u32) -> i32
    ensures is { result ≡ lo value }
    ensures fits { IsSigned 12 result }
{
    signed(value % 0x1000, 12)
}
