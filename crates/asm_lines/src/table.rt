//! The statements of task source by their words.
ghost use Rattle.std.specs.Prelude.{◌≡◌};
ghost use Rattle.asm_lines.specs.Table.{alu_of, imm_of, shift_of, load_of, store_of, branch_of, plain_of, mnemonic_of};

use crate::Mnemonic;
use sloth_base::{AluKind, BranchKind, ImmKind, Width, service_named};
use text_pieces::same;

// The kind of the first row with this word.
macro_rules! kind_named {
    ($word:expr; $($name:literal => $kind:expr),+) => {{
        $(if same($word, $name) {
            return Some($kind);
        })+
        None
    }};
}

// The statement of the first kind that has the word.
macro_rules! first_kind {
    ($word:expr; $($kind_named:ident => $statement:path),+) => {
        $(if let Some(kind) = $kind_named($word) {
            return Some($statement(kind));
        })+
    };
}

#[tactic(auto, unfolding(crate::specs::Table::alu_of))]
fn alu_kind(word: &[u8]) -> Option<AluKind>
    ensures { result ≡ alu_of word.now }
{
    kind_named!(word; b"add" => AluKind::Add, b"sub" => AluKind::Sub, b"sll" => AluKind::Sll, b"slt" => AluKind::Slt,
        b"sltu" => AluKind::Sltu, b"xor" => AluKind::Xor, b"srl" => AluKind::Srl, b"sra" => AluKind::Sra,
        b"or" => AluKind::Or, b"and" => AluKind::And)
}

#[tactic(auto, unfolding(crate::specs::Table::imm_of))]
fn imm_kind(word: &[u8]) -> Option<ImmKind>
    ensures { result ≡ imm_of word.now }
{
    kind_named!(word; b"addi" => ImmKind::Addi, b"slti" => ImmKind::Slti, b"sltiu" => ImmKind::Sltiu,
        b"xori" => ImmKind::Xori, b"ori" => ImmKind::Ori, b"andi" => ImmKind::Andi)
}

#[tactic(auto, unfolding(crate::specs::Table::shift_of))]
fn shift_kind(word: &[u8]) -> Option<ImmKind>
    ensures { result ≡ shift_of word.now }
{
    kind_named!(word; b"slli" => ImmKind::Slli, b"srli" => ImmKind::Srli, b"srai" => ImmKind::Srai)
}

#[tactic(auto, unfolding(crate::specs::Table::load_of))]
fn load_width(word: &[u8]) -> Option<Width>
    ensures { result ≡ load_of word.now }
{
    kind_named!(word; b"lb" => Width::Byte, b"lh" => Width::Half, b"lw" => Width::Word, b"lbu" => Width::ByteU,
        b"lhu" => Width::HalfU)
}

#[tactic(auto, unfolding(crate::specs::Table::store_of))]
fn store_width(word: &[u8]) -> Option<Width>
    ensures { result ≡ store_of word.now }
{
    kind_named!(word; b"sb" => Width::Byte, b"sh" => Width::Half, b"sw" => Width::Word)
}

#[tactic(auto, unfolding(crate::specs::Table::branch_of))]
fn branch_kind(word: &[u8]) -> Option<BranchKind>
    ensures { result ≡ branch_of word.now }
{
    kind_named!(word; b"beq" => BranchKind::Beq, b"bne" => BranchKind::Bne, b"blt" => BranchKind::Blt,
        b"bge" => BranchKind::Bge, b"bltu" => BranchKind::Bltu, b"bgeu" => BranchKind::Bgeu)
}

#[tactic(auto, unfolding(crate::specs::Table::plain_of))]
fn plain_mnemonic(word: &[u8]) -> Option<Mnemonic>
    ensures { result ≡ plain_of word.now }
{
    kind_named!(word; b"data" => Mnemonic::Data, b"task" => Mnemonic::Task, b"func" => Mnemonic::Func,
        b"end" => Mnemonic::End, b"label" => Mnemonic::Label, b"lui" => Mnemonic::Lui, b"li" => Mnemonic::Li,
        b"mv" => Mnemonic::Move, b"nop" => Mnemonic::Nop, b"j" => Mnemonic::Jump, b"call" => Mnemonic::Invoke,
        b"ret" => Mnemonic::Return)
}

/// The statement that a word begins.
#[tactic(auto, unfolding(crate::specs::Table::mnemonic_of))]
pub fn mnemonic(word: &[u8]) -> Option<Mnemonic>
    ensures { result ≡ mnemonic_of word.now }
{
    first_kind!(word; alu_kind => Mnemonic::Alu, imm_kind => Mnemonic::Imm, shift_kind => Mnemonic::Shift,
        load_width => Mnemonic::Load, store_width => Mnemonic::Store, branch_kind => Mnemonic::Branch,
        service_named => Mnemonic::Serve);
    plain_mnemonic(word)
}
