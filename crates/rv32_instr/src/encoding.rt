//! From an instruction to its word.
//! The opcodes of the RISC-V unprivileged manual, and the words of the instructions without fields.
//! What an instruction asks of the machine. Why the machine stops.
ghost use Rattle.std.specs.Prelude.{◌≡◌, ◌<◌, ◌^◌, Some};
ghost use Rattle.rv32_instr.specs.Range.{InRange};
ghost use Rattle.rv32_instr.specs.Words.{word, upper_word, r_word, i_word, s_word, b_word, j_word};
ghost use Rattle.rv32_instr.specs.Encode.{Encode};
ghost use Rattle.rv32_instr.specs.Table.{Decode};

use crate::decoding::part;
use crate::{Instr, InstrKind};
use sloth_base::{Reg, Width};

/// The word of its bits 31 to 20, rs1, funct3, rd and the opcode.
#[tactic(auto, using(crate::proofs::Joins::or_word), unfolding(crate::specs::Words::word))]
fn word(high: u32, rs1: u8, funct3: u32, rd: u8, opcode: u32) -> u32
    requires { (high < 2 ^ 12) × (rs1 < 32) × (funct3 < 8) × (rd < 32) × (opcode < 128) }
    ensures { result ≡ word high rs1 funct3 rd opcode }
{
    high << 20 | (rs1 as u32) << 15 | funct3 << 12 | (rd as u32) << 7 | opcode
}

/// Format U: the word of its bits 31 to 12, rd and the opcode.
#[tactic(auto, using(crate::proofs::Joins::or_upper), unfolding(crate::specs::Words::upper_word))]
fn upper_word(high: u32, rd: Reg, opcode: u32) -> u32
    requires { (high < 2 ^ 20) × (rd < 32) × (opcode < 128) }
    ensures { result ≡ upper_word high rd opcode }
{
    high << 12 | (rd.0 as u32) << 7 | opcode
}

/// Format R, and the shifts by a number, which stands in the place of rs2.
fn r_word(funct7: u32, rs2: u8, rs1: Reg, funct3: u32, rd: Reg, opcode: u32) -> u32
    requires { (funct7 < 128) × (rs2 < 32) × (rs1 < 32) × (funct3 < 8) × (rd < 32) × (opcode < 128) }
    ensures { result ≡ r_word funct7 rs2 rs1 funct3 rd opcode }
{
    word(funct7 << 5 | rs2 as u32, rs1.0, funct3, rd.0, opcode)
}

fn i_word(imm: i32, rs1: Reg, funct3: u32, rd: Reg, opcode: u32) -> u32
    requires { (rs1 < 32) × (funct3 < 8) × (rd < 32) × (opcode < 128) }
    ensures { result ≡ i_word imm rs1 funct3 rd opcode }
{
    word(part(imm, 0, 12), rs1.0, funct3, rd.0, opcode)
}

fn s_word(imm: i32, rs2: Reg, rs1: Reg, funct3: u32, opcode: u32) -> u32
    requires { (rs2 < 32) × (rs1 < 32) × (funct3 < 8) × (opcode < 128) }
    ensures { result ≡ s_word imm rs2 rs1 funct3 opcode }
{
    let high = part(imm, 5, 7) << 5 | rs2.0 as u32;
    word(high, rs1.0, funct3, part(imm, 0, 5) as u8, opcode)
}

fn b_word(imm: i32, rs2: Reg, rs1: Reg, funct3: u32, opcode: u32) -> u32
    requires { (rs2 < 32) × (rs1 < 32) × (funct3 < 8) × (opcode < 128) }
    ensures { result ≡ b_word imm rs2 rs1 funct3 opcode }
{
    let funct7 = part(imm, 12, 1) << 6 | part(imm, 5, 6);
    let high = funct7 << 5 | rs2.0 as u32;
    let low = part(imm, 1, 4) << 1 | part(imm, 11, 1);
    word(high, rs1.0, funct3, low as u8, opcode)
}

#[tactic(auto, using(crate::proofs::Joins::or_jump))]
fn j_word(imm: i32, rd: Reg, opcode: u32) -> u32
    requires { (rd < 32) × (opcode < 128) }
    ensures { result ≡ j_word imm rd opcode }
{
    let high = part(imm, 20, 1) << 19
        | part(imm, 1, 10) << 9
        | part(imm, 11, 1) << 8
        | part(imm, 12, 8);
    upper_word(high, rd, opcode)
}

/// The word of a CSR instruction: a register or a number stands in the place of rs1.
fn csr_word(csr: u16, field: u8, funct3: u32, rd: Reg) -> u32
    requires { (csr < 4096) × (field < 32) × (funct3 < 8) × (rd < 32) }
    ensures { result ≡ word csr field funct3 rd 0b1110011 }
{
    word(csr as u32, field, funct3, rd.0, SYSTEM)
}

#[tactic(auto, using(crate::proofs::Joins::or_low))]
fn encode_kind(kind: InstrKind) -> u32
    requires { InRange kind }
    ensures { result ≡ Encode kind }
{
    match kind {
        InstrKind::Lui { rd, imm } => upper_word(imm, rd, LUI),
        InstrKind::Auipc { rd, imm } => upper_word(imm, rd, AUIPC),
        InstrKind::Jal { rd, imm } => j_word(imm, rd, JAL),
        InstrKind::Jalr { rd, rs1, imm } => i_word(imm, rs1, 0b000, rd, JALR),
        InstrKind::Beq { rs1, rs2, imm } => b_word(imm, rs2, rs1, 0b000, BRANCH),
        InstrKind::Bne { rs1, rs2, imm } => b_word(imm, rs2, rs1, 0b001, BRANCH),
        InstrKind::Blt { rs1, rs2, imm } => b_word(imm, rs2, rs1, 0b100, BRANCH),
        InstrKind::Bge { rs1, rs2, imm } => b_word(imm, rs2, rs1, 0b101, BRANCH),
        InstrKind::Bltu { rs1, rs2, imm } => b_word(imm, rs2, rs1, 0b110, BRANCH),
        InstrKind::Bgeu { rs1, rs2, imm } => b_word(imm, rs2, rs1, 0b111, BRANCH),
        InstrKind::Lb { rd, rs1, imm } => i_word(imm, rs1, 0b000, rd, LOAD),
        InstrKind::Lh { rd, rs1, imm } => i_word(imm, rs1, 0b001, rd, LOAD),
        InstrKind::Lw { rd, rs1, imm } => i_word(imm, rs1, 0b010, rd, LOAD),
        InstrKind::Lbu { rd, rs1, imm } => i_word(imm, rs1, 0b100, rd, LOAD),
        InstrKind::Lhu { rd, rs1, imm } => i_word(imm, rs1, 0b101, rd, LOAD),
        InstrKind::Sb { rs1, rs2, imm } => s_word(imm, rs2, rs1, 0b000, STORE),
        InstrKind::Sh { rs1, rs2, imm } => s_word(imm, rs2, rs1, 0b001, STORE),
        InstrKind::Sw { rs1, rs2, imm } => s_word(imm, rs2, rs1, 0b010, STORE),
        InstrKind::Addi { rd, rs1, imm } => i_word(imm, rs1, 0b000, rd, OP_IMM),
        InstrKind::Slti { rd, rs1, imm } => i_word(imm, rs1, 0b010, rd, OP_IMM),
        InstrKind::Sltiu { rd, rs1, imm } => i_word(imm, rs1, 0b011, rd, OP_IMM),
        InstrKind::Xori { rd, rs1, imm } => i_word(imm, rs1, 0b100, rd, OP_IMM),
        InstrKind::Ori { rd, rs1, imm } => i_word(imm, rs1, 0b110, rd, OP_IMM),
        InstrKind::Andi { rd, rs1, imm } => i_word(imm, rs1, 0b111, rd, OP_IMM),
        InstrKind::Slli { rd, rs1, amount } => r_word(0b0000000, amount, rs1, 0b001, rd, OP_IMM),
        InstrKind::Srli { rd, rs1, amount } => r_word(0b0000000, amount, rs1, 0b101, rd, OP_IMM),
        InstrKind::Srai { rd, rs1, amount } => r_word(0b0100000, amount, rs1, 0b101, rd, OP_IMM),
        InstrKind::Add { rd, rs1, rs2 } => r_word(0b0000000, rs2.0, rs1, 0b000, rd, OP),
        InstrKind::Sub { rd, rs1, rs2 } => r_word(0b0100000, rs2.0, rs1, 0b000, rd, OP),
        InstrKind::Sll { rd, rs1, rs2 } => r_word(0b0000000, rs2.0, rs1, 0b001, rd, OP),
        InstrKind::Slt { rd, rs1, rs2 } => r_word(0b0000000, rs2.0, rs1, 0b010, rd, OP),
        InstrKind::Sltu { rd, rs1, rs2 } => r_word(0b0000000, rs2.0, rs1, 0b011, rd, OP),
        InstrKind::Xor { rd, rs1, rs2 } => r_word(0b0000000, rs2.0, rs1, 0b100, rd, OP),
        InstrKind::Srl { rd, rs1, rs2 } => r_word(0b0000000, rs2.0, rs1, 0b101, rd, OP),
        InstrKind::Sra { rd, rs1, rs2 } => r_word(0b0100000, rs2.0, rs1, 0b101, rd, OP),
        InstrKind::Or { rd, rs1, rs2 } => r_word(0b0000000, rs2.0, rs1, 0b110, rd, OP),
        InstrKind::And { rd, rs1, rs2 } => r_word(0b0000000, rs2.0, rs1, 0b111, rd, OP),
        InstrKind::Fence { bits } => bits | MISC_MEM,
        InstrKind::Csrrw { rd, rs1, csr } => csr_word(csr, rs1.0, 0b001, rd),
        InstrKind::Csrrs { rd, rs1, csr } => csr_word(csr, rs1.0, 0b010, rd),
        InstrKind::Csrrc { rd, rs1, csr } => csr_word(csr, rs1.0, 0b011, rd),
        InstrKind::Csrrwi { rd, number, csr } => csr_word(csr, number, 0b101, rd),
        InstrKind::Csrrsi { rd, number, csr } => csr_word(csr, number, 0b110, rd),
        InstrKind::Csrrci { rd, number, csr } => csr_word(csr, number, 0b111, rd),
        InstrKind::Ecall => ECALL,
        InstrKind::Ebreak => EBREAK,
        InstrKind::Mret => MRET,
    }
}

/// The word of an instruction.
#[tactic(auto, using(crate::proofs::Table::decode_encode))]
pub fn encode(instr: Instr) -> u32
    ensures is { result ≡ Encode instr }
    ensures back { Decode result ≡ Some instr }
    ensures fits { InRange instr }
{
    encode_kind(instr.kind())
}

pub const LUI: u32 = 0b011_0111;

pub const AUIPC: u32 = 0b001_0111;

pub const JAL: u32 = 0b110_1111;

pub const JALR: u32 = 0b110_0111;

pub const BRANCH: u32 = 0b110_0011;

pub const LOAD: u32 = 0b000_0011;

pub const STORE: u32 = 0b010_0011;

pub const OP_IMM: u32 = 0b001_0011;

pub const OP: u32 = 0b011_0011;

pub const MISC_MEM: u32 = 0b000_1111;

pub const SYSTEM: u32 = 0b111_0011;

pub const ECALL: u32 = 0x0000_0073;

pub const EBREAK: u32 = 0x0010_0073;

pub const MRET: u32 = 0x3020_0073;

/// What happens to a CSR.
#[derive(Clone, Copy)]
pub enum Change {
    /// It isn't written.
    Keep,
    /// It becomes this value.
    Replace(u32),
    /// These bits are set.
    Set(u32),
    /// These bits are cleared.
    Clear(u32),
}

/// What an instruction does, its registers read.
#[derive(Clone, Copy)]
pub enum Effect {
    Nothing,
    /// A value for a register.
    Write {
        rd: Reg,
        value: u32,
    },
    /// On at the target, where the branch is taken.
    Branch {
        taken: bool,
        target: u32,
    },
    /// On at the target, with the address of the next instruction in a register.
    Jump {
        rd: Reg,
        target: u32,
    },
    Load {
        width: Width,
        rd: Reg,
        address: u32,
    },
    Store {
        width: Width,
        address: u32,
        value: u32,
    },
    /// The CSR's old value for a register, and the change of the CSR.
    Csr {
        rd: Reg,
        csr: u16,
        change: Change,
    },
    /// ECALL or EBREAK.
    Environment,
    /// MRET.
    Return,
}

/// Why an instruction isn't executed.
#[derive(Clone, Copy)]
pub enum Stop {
    /// pc isn't in RAM: its value.
    Fetch(u32),
    /// No instruction has this word, or it names a CSR that isn't there: the word.
    Illegal(u32),
    /// ECALL or EBREAK.
    Environment,
    /// An access off its multiple, or a taken jump off a multiple of 4: the address.
    Misaligned(u32),
    /// An access outside RAM and controller, or a half or word access to the controller: the address.
    Access(u32),
}

/// Why memory refuses an access. `Misaligned` comes first.
#[derive(Clone, Copy)]
pub enum Bad {
    Misaligned,
    Access,
}
