//! What an item does.
ghost use Rattle.std.specs.Prelude.{◌≡◌, ◌<◌, ◌^◌, length};
ghost use Rattle.asm_parse.specs.Numbered.{IsNumbered};
ghost use Rattle.asm_parse.specs.Operations.{as_word, as_short, register_op, number_op};
ghost use Rattle.asm_parse.specs.Operations.{access_op, jump_op, op_of};

use crate::bodies::{place_number, service_call};
use asm_lines::Operand::{Direct, Frame, Indexed, Name, Number, Register};
use asm_lines::{Mnemonic, Operand, SourceLine};
use asm_scopes::Scope;
use sloth_base::{Config, FuncId, ImmKind, Op, Reg, SymId, Width};
use text_pieces::Names;

// The word of a number from -2,147,483,648 to 4,294,967,295.
fn as_word(n: i64) -> u32
    ensures { result ≡ as_word n }
{
    if n >= 0 && n <= 4_294_967_295 {
        n as u32
    } else if n < 0 && n >= -2_147_483_648 {
        (n + 4_294_967_296) as u32
    } else {
        0
    }
}

// A number from -2048 to 2047.
fn as_short(n: i64) -> i32
    ensures { result ≡ as_short n }
{
    if n >= -2048 && n <= 2047 { n as i32 } else { 0 }
}

// An operation with these fields.
macro_rules! op {
    ($name:ident; $($field:ident = $value:expr),*) => {
        Some(Op::$name { $($field: $value),* })
    };
}

fn register_op(mnemonic: Mnemonic, operands: &[Operand]) -> Option<Op>
    ensures { result ≡ register_op mnemonic operands.now }
{
    match (mnemonic, operands) {
        (Mnemonic::Alu(kind), [Register(rd), Register(rs1), Register(rs2)]) =>
            op!(Alu; kind = kind, rd = *rd, rs1 = *rs1, rs2 = *rs2),
        (Mnemonic::Move, [Register(rd), Register(rs1)]) =>
            op!(AluImm; kind = ImmKind::Addi, rd = *rd, rs1 = *rs1, imm = 0),
        (Mnemonic::Nop, []) =>
            op!(AluImm; kind = ImmKind::Addi, rd = Reg(0), rs1 = Reg(0), imm = 0),
        (Mnemonic::Return, []) => Some(Op::Return),
        _ => None,
    }
}

fn number_op(mnemonic: Mnemonic, operands: &[Operand]) -> Option<Op>
    ensures { result ≡ number_op mnemonic operands.now }
{
    match (mnemonic, operands) {
        (Mnemonic::Imm(kind), [Register(rd), Register(rs1), Number(n)]) =>
            op!(AluImm; kind = kind, rd = *rd, rs1 = *rs1, imm = as_short(*n)),
        (Mnemonic::Shift(kind), [Register(rd), Register(rs1), Number(n)]) =>
            op!(AluImm; kind = kind, rd = *rd, rs1 = *rs1, imm = as_short(*n)),
        (Mnemonic::Lui, [Register(rd), Number(n)]) => op!(Lui; rd = *rd, imm = as_word(*n)),
        (Mnemonic::Li, [Register(rd), Number(n)]) => op!(Li; rd = *rd, value = as_word(*n)),
        _ => None,
    }
}

/// Which way a value goes: from memory to a register, or back.
#[derive(Clone, Copy)]
pub enum Access {
    Load,
    Store,
}

fn access_op(symbols: &Names, access: Access, width: Width, operands: &[Operand]) -> Option<Op>
    requires { length symbols.now < 2 ^ 32 }
    ensures { result ≡ access_op symbols.now access width operands.now }
{
    match (width, operands) {
        (_, [Register(register), Direct { name, offset }]) => {
            let symbol = SymId(place_number(symbols, name.bytes()));
            match access {
                Access::Load =>
                    op!(Load; width = width, rd = *register, symbol = symbol, offset = *offset),
                Access::Store =>
                    op!(Store; width = width, rs = *register, symbol = symbol, offset = *offset),
            }
        },
        (_, [Register(register), Indexed { name, index, mask }]) => {
            let symbol = SymId(place_number(symbols, name.bytes()));
            match access {
                Access::Load =>
                    op!(LoadAt; width = width, rd = *register, symbol = symbol, index = *index,
                    mask = *mask),
                Access::Store =>
                    op!(StoreAt; width = width, rs = *register, symbol = symbol, index = *index,
                    mask = *mask),
            }
        },
        (Width::Word, [Register(register), Frame(word)]) => match access {
            Access::Load => op!(FrameLoad; rd = *register, word = *word),
            Access::Store => op!(FrameStore; rs = *register, word = *word),
        },
        _ => None,
    }
}

fn jump_op(scope: &Scope, labels: &Names, mnemonic: Mnemonic, operands: &[Operand]) -> Option<Op>
    requires labels { length labels.now < 2 ^ 32 }
    requires numbered { IsNumbered scope.now }
    ensures { result ≡ jump_op scope.now labels.now mnemonic operands.now }
{
    match (mnemonic, operands) {
        (Mnemonic::Branch(kind), [Register(rs1), Register(rs2), Name(name)]) =>
            op!(Branch; kind = kind, rs1 = *rs1, rs2 = *rs2, label = place_number(labels, name.bytes())),
        (Mnemonic::Jump, [Name(name)]) => op!(Jump; label = place_number(labels, name.bytes())),
        (Mnemonic::Invoke, [Name(name)]) =>
            op!(Invoke; func = FuncId(place_number(&scope.functions, name.bytes()))),
        _ => None,
    }
}

/// The operation of a line, if it is an item.
pub fn operation(config: &Config, scope: &Scope, labels: &Names, line: &SourceLine) -> Option<Op>
    requires labels { length labels.now < 2 ^ 32 }
    requires numbered { IsNumbered scope.now }
    ensures { result ≡ op_of config.now scope.now labels.now line.now }
{
    let SourceLine::Statement { mnemonic, operands } = line else {
        return None;
    };
    let (mnemonic, operands) = (*mnemonic, operands.items());
    match mnemonic {
        Mnemonic::Load(width) => access_op(&scope.symbols, Access::Load, width, operands),
        Mnemonic::Store(width) => access_op(&scope.symbols, Access::Store, width, operands),
        Mnemonic::Branch(_) | Mnemonic::Jump | Mnemonic::Invoke => {
            jump_op(scope, labels, mnemonic, operands)
        },
        Mnemonic::Serve(service) => Some(Op::Serve(service_call(config, scope, service, operands))),
        Mnemonic::Imm(_) | Mnemonic::Shift(_) | Mnemonic::Lui | Mnemonic::Li => {
            number_op(mnemonic, operands)
        },
        _ => register_op(mnemonic, operands),
    }
}
