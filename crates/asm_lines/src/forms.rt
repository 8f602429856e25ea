//! The statements of task source: how many operands they have, and of which forms.
ghost use Rattle.std.specs.Prelude.{◌≡◌};
ghost use Rattle.asm_lines.specs.Forms.{is_operand_count, form_of, is_outer};
ghost use Rattle.asm_lines.specs.Forms.{is_body_start, is_body_end};

use sloth_base::{AluKind, BranchKind, ImmKind, OPERAND_LIMIT, ObjectKind, Service, Width};

/// A statement by its first word.
#[derive(Clone, Copy)]
pub enum Mnemonic {
    Data,
    Task,
    Func,
    End,
    Label,
    Alu(AluKind),
    Imm(ImmKind),
    Shift(ImmKind),
    Lui,
    Li,
    Move,
    Nop,
    Load(Width),
    Store(Width),
    Branch(BranchKind),
    Jump,
    Invoke,
    Return,
    Serve(Service),
}

/// What an operand may be.
#[derive(Clone, Copy)]
pub enum Form {
    Register,
    Number { low: i64, high: i64 },
    Name,
    /// A place in a symbol.
    Place,
    /// A place in a symbol, or a word of the frame.
    WordPlace,
    Bytes,
}

/// Whether a statement may have so many operands.
pub fn takes(mnemonic: Mnemonic, count: usize) -> bool
    ensures { result ≡ is_operand_count mnemonic count }
{
    match mnemonic {
        Mnemonic::Data => count == 2 || count == 3,
        Mnemonic::Task | Mnemonic::Func => count == 1 || count == 2,
        Mnemonic::End | Mnemonic::Nop | Mnemonic::Return => count == 0,
        Mnemonic::Label => count >= 1,
        Mnemonic::Alu(_) | Mnemonic::Imm(_) | Mnemonic::Shift(_) | Mnemonic::Branch(_) => {
            count == 3
        },
        Mnemonic::Lui | Mnemonic::Li | Mnemonic::Move | Mnemonic::Load(_) | Mnemonic::Store(_) => {
            count == 2
        },
        Mnemonic::Jump | Mnemonic::Invoke => count == 1,
        Mnemonic::Serve(service) => match (service.has_mask(), service.object_kind()) {
            (true, ObjectKind::Nothing) => count >= 1,
            (true, _) => count >= 2,
            (false, ObjectKind::Nothing) => count == 0,
            (false, _) => count == 1,
        },
    }
}

fn number_form(low: i64, high: i64) -> Form
    ensures { result ≡ Form.Number low high }
{
    Form::Number { low, high }
}

/// The form of the operand at this place, from 0.
pub fn form_of(mnemonic: Mnemonic, place: usize) -> Form
    ensures { result ≡ form_of mnemonic place }
{
    match mnemonic {
        Mnemonic::Data if place == 1 => number_form(1, OPERAND_LIMIT),
        Mnemonic::Data if place == 2 => Form::Bytes,
        Mnemonic::Task | Mnemonic::Func if place > 0 => number_form(0, OPERAND_LIMIT),
        Mnemonic::Alu(_) | Mnemonic::Move => Form::Register,
        Mnemonic::Imm(_) | Mnemonic::Shift(_) | Mnemonic::Branch(_) if place < 2 => Form::Register,
        Mnemonic::Imm(_) => number_form(-2048, 2047),
        Mnemonic::Shift(_) => number_form(0, 31),
        Mnemonic::Lui | Mnemonic::Li | Mnemonic::Load(_) | Mnemonic::Store(_) if place == 0 => {
            Form::Register
        },
        Mnemonic::Lui => number_form(0, 1_048_575),
        Mnemonic::Li => number_form(-2_147_483_648, 4_294_967_295),
        Mnemonic::Load(Width::Word) | Mnemonic::Store(Width::Word) => Form::WordPlace,
        Mnemonic::Load(_) | Mnemonic::Store(_) => Form::Place,
        _ => Form::Name,
    }
}

/// Whether the statement stands outside bodies.
pub fn is_outer(mnemonic: Mnemonic) -> bool
    ensures { result ≡ is_outer mnemonic }
{
    matches!(mnemonic, Mnemonic::Data | Mnemonic::Task | Mnemonic::Func)
}

/// Whether the statement opens a body.
pub fn opens(mnemonic: Mnemonic) -> bool
    ensures { result ≡ is_body_start mnemonic }
{
    matches!(mnemonic, Mnemonic::Task | Mnemonic::Func)
}

/// Whether the statement closes a body.
pub fn closes(mnemonic: Mnemonic) -> bool
    ensures { result ≡ is_body_end mnemonic }
{
    matches!(mnemonic, Mnemonic::End)
}
