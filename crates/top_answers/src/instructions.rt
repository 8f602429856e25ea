//! The listing of instructions.
use crate::rows::Piece::{Address, Number, Text};
use crate::rows::Rows;
use rv32_instr::InstrKind::*;
use rv32_instr::{Instr, InstrKind, decode, encode};
use sloth_base::Reg;

// Appends a mnemonic and its fields, by rows of the mnemonics that have the same fields.
macro_rules! put_fields {
    ($rows:expr, $kind:expr; $([$($name:ident)*] $fields:tt $numbers:expr;)*) => {
        match $kind { $($($name $fields => put($rows, stringify!($name), $numbers),)*)* }
    };
}

fn put(rows: &mut Rows, name: &str, numbers: [i64; 3]) {
    form!(rows; " % % % %\n"; Text(name), Number(numbers[0]), Number(numbers[1]), Number(numbers[2]))
}

// Appends a mnemonic and its fields: the numbers of two registers, and a number; 0 for those that it does not have.
fn put_kind(rows: &mut Rows, kind: &InstrKind) {
    put_fields!(rows, kind;
        [Add Sub Sll Slt Sltu Xor Srl Sra Or And] { rd, rs1, rs2 }
            [rd.0 as i64, rs1.0 as i64, rs2.0 as i64];
        [Slli Srli Srai] { rd, rs1, amount } [rd.0 as i64, rs1.0 as i64, *amount as i64];
        [Addi Slti Sltiu Xori Ori Andi] { rd, rs1, imm } [rd.0 as i64, rs1.0 as i64, *imm as i64];
        [Jalr Lb Lh Lw Lbu Lhu] { rd, rs1, imm } [rd.0 as i64, rs1.0 as i64, *imm as i64];
        [Beq Bne Blt Bge Bltu Bgeu] { rs1, rs2, imm } [rs1.0 as i64, rs2.0 as i64, *imm as i64];
        [Sb Sh Sw] { rs1, rs2, imm } [rs1.0 as i64, rs2.0 as i64, *imm as i64];
        [Csrrw Csrrs Csrrc] { rd, rs1, csr } [rd.0 as i64, rs1.0 as i64, *csr as i64];
        [Csrrwi Csrrsi Csrrci] { rd, number, csr } [rd.0 as i64, *number as i64, *csr as i64];
        [Lui Auipc] { rd, imm } [rd.0 as i64, *imm as i64, 0];
        [Jal] { rd, imm } [rd.0 as i64, *imm as i64, 0];
        [Fence] { bits } [*bits as i64, 0, 0];
        [Ecall Ebreak Mret] {} [0, 0, 0];
    )
}

/// Prints the words of a text, one on each line in hexadecimal, and behind each the word of the instruction that it is,
/// its mnemonic and its fields.
pub fn list_instructions(rows: &mut Rows, text: &str) {
    for line in text.lines() {
        if let Ok(word) = u32::from_str_radix(line, 16) {
            match decode(word) {
                Some(instr) => {
                    form!(rows; "% %"; Address(word), Address(encode(instr)));
                    put_kind(rows, &instr.kind())
                }
                None => form!(rows; "% none\n"; Address(word)),
            }
        }
    }
}

/// An instruction as a word, and as the word of what is read of that and taken apart.
pub fn list_instruction(rows: &mut Rows) {
    let word = encode(Instr::of(rv32_instr::addi(Reg(5), Reg(0), 7)));
    if let Some(instr) = decode(word) {
        form!(rows; "addi % %\n"; Address(word), Address(encode(Instr::of(instr.kind()))));
    }
}
