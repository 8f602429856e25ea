//! The instructions of RV32I, with the CSR instructions and `mret`, and their words.
//!
//! The table of instructions, both ways, each the other's inverse (`encode`, `decode`; `specs/Encode`, `specs/Table`,
//! `specs/Range`). Instructions by mnemonics, and the two parts of a constant (`asm`, `access`, `constant`;
//! `specs/Access`). What an instruction does: `specs/Effect`, `specs/Execute`; loads and stores: `specs/Memory`,
//! `specs/Ram`. They restate the RISC-V unprivileged manual. The state: `sloth_base` (`Machine`, `Lines`).
#![tactic(auto)]

ghost use Rattle.std.specs.Prelude.{◌≡◌};

use sloth_base::Reg;
use std::marker::Model;

pub mod asm;
pub mod block;
pub mod csr;
pub mod decoding;
pub mod encoding;

pub use asm::{
    A0, A1, X1, X2, X3, X4, X30, X31, ZERO, add, addi, and, andi, auipc, beq, bgeu, bltu, bne,
    csrrci, csrrs, csrrw, csrrwi, jal, jalr, lbu, load, lui, lw, mret, or, sb, slli, sltu, srai,
    srli, store, sub, sw, xor, xori,
};
pub use block::Block;
pub use csr::{ILEVEL, MEPC, MIE, MPIE, MSCRATCH, MSTATUS, PLEVEL};
pub use decoding::{decode, hi, lo};
pub use encoding::{Bad, Change, Effect, Stop, encode};

/// One instruction: its mnemonic and its fields. `specs/Range.antt` has the ranges of the fields.
#[derive(Clone, Copy)]
pub enum InstrKind {
    /// `imm` is bits 31 to 12 of the number that is loaded.
    Lui { rd: Reg, imm: u32 },
    /// `imm` is bits 31 to 12 of the number that is added.
    Auipc { rd: Reg, imm: u32 },
    /// `imm` is in bytes, and even.
    Jal { rd: Reg, imm: i32 },
    Jalr { rd: Reg, rs1: Reg, imm: i32 },
    /// `imm` is in bytes, and even.
    Beq { rs1: Reg, rs2: Reg, imm: i32 },
    Bne { rs1: Reg, rs2: Reg, imm: i32 },
    Blt { rs1: Reg, rs2: Reg, imm: i32 },
    Bge { rs1: Reg, rs2: Reg, imm: i32 },
    Bltu { rs1: Reg, rs2: Reg, imm: i32 },
    Bgeu { rs1: Reg, rs2: Reg, imm: i32 },
    Lb { rd: Reg, rs1: Reg, imm: i32 },
    Lh { rd: Reg, rs1: Reg, imm: i32 },
    Lw { rd: Reg, rs1: Reg, imm: i32 },
    Lbu { rd: Reg, rs1: Reg, imm: i32 },
    Lhu { rd: Reg, rs1: Reg, imm: i32 },
    Sb { rs1: Reg, rs2: Reg, imm: i32 },
    Sh { rs1: Reg, rs2: Reg, imm: i32 },
    Sw { rs1: Reg, rs2: Reg, imm: i32 },
    Addi { rd: Reg, rs1: Reg, imm: i32 },
    Slti { rd: Reg, rs1: Reg, imm: i32 },
    Sltiu { rd: Reg, rs1: Reg, imm: i32 },
    Xori { rd: Reg, rs1: Reg, imm: i32 },
    Ori { rd: Reg, rs1: Reg, imm: i32 },
    Andi { rd: Reg, rs1: Reg, imm: i32 },
    Slli { rd: Reg, rs1: Reg, amount: u8 },
    Srli { rd: Reg, rs1: Reg, amount: u8 },
    Srai { rd: Reg, rs1: Reg, amount: u8 },
    Add { rd: Reg, rs1: Reg, rs2: Reg },
    Sub { rd: Reg, rs1: Reg, rs2: Reg },
    Sll { rd: Reg, rs1: Reg, rs2: Reg },
    Slt { rd: Reg, rs1: Reg, rs2: Reg },
    Sltu { rd: Reg, rs1: Reg, rs2: Reg },
    Xor { rd: Reg, rs1: Reg, rs2: Reg },
    Srl { rd: Reg, rs1: Reg, rs2: Reg },
    Sra { rd: Reg, rs1: Reg, rs2: Reg },
    Or { rd: Reg, rs1: Reg, rs2: Reg },
    And { rd: Reg, rs1: Reg, rs2: Reg },
    /// `bits` is the whole word with its funct3 and opcode set to zero.
    Fence { bits: u32 },
    Csrrw { rd: Reg, rs1: Reg, csr: u16 },
    Csrrs { rd: Reg, rs1: Reg, csr: u16 },
    Csrrc { rd: Reg, rs1: Reg, csr: u16 },
    Csrrwi { rd: Reg, number: u8, csr: u16 },
    Csrrsi { rd: Reg, number: u8, csr: u16 },
    Csrrci { rd: Reg, number: u8, csr: u16 },
    Ecall,
    Ebreak,
    Mret,
}

/// An instruction whose fields are in range, so that it has a word. Contracts see its kind.
#[derive(Clone, Copy)]
pub struct Instr {
    kind: InstrKind,
}

impl Model for Instr {
    ghost use Rattle.rv32_instr.specs.declared.InstrKind.{InstrKind};
    ghost use Rattle.rv32_instr.specs.Range.{InRange};

    ghost Value = { InstrKind };

    ghost view = { λ i. i.kind };

    ghost invariant = { λ i. InRange i.kind };

    ghost inverse = { λ k. record { kind = k } };
}

impl Instr {
    ghost use Rattle.rv32_instr.specs.Range.{InRange};

    /// The instruction of this kind, whose fields are in range.
    pub fn of(kind: InstrKind) -> Instr
        requires { InRange kind }
        ensures { result ≡ kind }
    {
        Instr { kind }
    }

    /// Its mnemonic and its fields, which are in range.
    pub fn kind(&self) -> InstrKind
        ensures is { result ≡ self.now }
        ensures fits { InRange self.now }
    {
        self.kind
    }
}
