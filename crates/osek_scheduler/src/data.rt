//! The bytes of a symbol, and the operations of task code on words.
ghost use Rattle.std.specs.Prelude.{◌≡◌, ◌<◌, ◌≤◌, ◌+◌, ◌%◌, ◌^◌, length, take, drop, set, slice_index, IfOk};
ghost use Rattle.sloth_base.specs.Arithmetic.{size_of, branch_holds, complement, extended_number, number_result};
ghost use Rattle.sloth_base.specs.Arithmetic.{register_result};
ghost use Rattle.osek_scheduler.specs.Meaning.{loaded_word, number_of, bytes_after_store};
ghost use Rattle.code_rules.specs.AppRange.{IsNumberOf};

use sloth_base::{AluKind, BranchKind, ImmKind, Result, Width};
use std::alloc::Global;
use std::marker::Model;

/// The bytes of a symbol as they stand.
#[derive(Drop)]
pub struct Data {
    bytes: Vec<u8>,
}

impl Model for Data {
    ghost use Rattle.std.specs.Prelude.{List, ℕ};

    ghost Value = { List ℕ };

    ghost view = { λ d. d.bytes.items };
}

impl Data {
    /// A copy of these bytes.
    pub fn new(alloc: Global, bytes: &[u8]) -> Result<Data>
        ensures { IfOk result (λ d. d ≡ bytes.now) }
    {
        let bytes = Vec::from_slice(alloc, bytes)?;
        Ok(Data { bytes })
    }

    /// How many bytes there are.
    pub fn len(&self) -> usize
        ensures { result ≡ length self.now }
    {
        self.bytes.len()
    }

    fn byte(&self, offset: u32, more: u32) -> u32
        requires { offset + more < length self.now }
        ensures is { result ≡ slice_index self.now (offset + more) }
        ensures below { result < 256 }
    {
        u32::from(self.bytes[offset as usize + more as usize])
    }

    // The number in the bytes of an access, low byte first.
    #[tactic(auto, using(crate::proofs::Lists::number_one, crate::proofs::Lists::number_two, crate::proofs::Lists::number_four))]
    fn number(&self, width: Width, offset: u32) -> u32
        requires { offset + size_of width ≤ length self.now }
        ensures is { result ≡ number_of (take (size_of width) (drop offset self.now)) }
        ensures below { result < 256 ^ size_of width }
    {
        match width {
            Width::Byte | Width::ByteU => self.byte(offset, 0),
            Width::Half | Width::HalfU => self.byte(offset, 0) + 256 * self.byte(offset, 1),
            Width::Word => {
                let low = self.byte(offset, 0) + 256 * self.byte(offset, 1);
                let high = self.byte(offset, 2) + 256 * self.byte(offset, 3);
                low + 65536 * high
            }
        }
    }

    /// The word that a load at an offset gives.
    pub fn load(&self, width: Width, offset: u32) -> u32
        requires { offset + size_of width ≤ length self.now }
        ensures { result ≡ loaded_word width self.now offset }
    {
        extended(width, self.number(width, offset))
    }

    fn set_byte(&mut self, offset: u32, more: u32, value: u32)
        requires { offset + more < length self.old }
        ensures { self.new ≡ set self.old (offset + more) (value % 256) }
    {
        self.bytes[offset as usize + more as usize] = (value % 256) as u8;
    }

    /// Stores a value at an offset.
    #[tactic(auto, using(crate::proofs::Lists::byte_written, crate::proofs::Lists::half_written, crate::proofs::Lists::word_written))]
    pub fn store(&mut self, width: Width, offset: u32, value: u32)
        requires { offset + size_of width ≤ length self.old }
        ensures { self.new ≡ bytes_after_store width self.old offset value }
    {
        self.set_byte(offset, 0, value);
        match width {
            Width::Byte | Width::ByteU => {}
            Width::Half | Width::HalfU => self.set_byte(offset, 1, value / 256),
            Width::Word => {
                self.set_byte(offset, 1, value / 256);
                self.set_byte(offset, 2, value / 65536);
                self.set_byte(offset, 3, value / 16_777_216);
            }
        }
    }
}

/// The result of an operation on two registers.
pub fn register_result(kind: AluKind, a: u32, b: u32) -> u32
    ensures { result ≡ register_result kind a b }
{
    match kind {
        AluKind::Add => a.wrapping_add(b),
        AluKind::Sub => a.wrapping_sub(b),
        AluKind::Sll => a << (b % 32),
        AluKind::Slt => (a.cast_signed() < b.cast_signed()) as u32,
        AluKind::Sltu => (a < b) as u32,
        AluKind::Xor => a ^ b,
        AluKind::Srl => a >> (b % 32),
        AluKind::Sra => (a.cast_signed() >> (b % 32)).cast_unsigned(),
        AluKind::Or => a | b,
        AluKind::And => a & b,
    }
}

/// The result of an operation on a register and a number.
pub fn number_result(kind: ImmKind, a: u32, number: i32) -> u32
    requires { IsNumberOf kind number }
    ensures { result ≡ number_result kind a (complement number) }
{
    match kind {
        ImmKind::Addi => a.wrapping_add(number.cast_unsigned()),
        ImmKind::Slti => (a.cast_signed() < number) as u32,
        ImmKind::Sltiu => (a < number.cast_unsigned()) as u32,
        ImmKind::Xori => a ^ number.cast_unsigned(),
        ImmKind::Ori => a | number.cast_unsigned(),
        ImmKind::Andi => a & number.cast_unsigned(),
        ImmKind::Slli => a << number.cast_unsigned(),
        ImmKind::Srli => a >> number.cast_unsigned(),
        ImmKind::Srai => (a.cast_signed() >> number.cast_unsigned()).cast_unsigned(),
    }
}

/// Whether a test of two registers holds.
pub fn branch_holds(kind: BranchKind, a: u32, b: u32) -> bool
    ensures { result ≡ branch_holds kind a b }
{
    match kind {
        BranchKind::Beq => a == b,
        BranchKind::Bne => a != b,
        BranchKind::Blt => a.cast_signed() < b.cast_signed(),
        BranchKind::Bge => a.cast_signed() >= b.cast_signed(),
        BranchKind::Bltu => a < b,
        BranchKind::Bgeu => a >= b,
    }
}

/// The bytes of an access.
pub fn width_bytes(width: Width) -> u32
    ensures { result ≡ size_of width }
{
    match width {
        Width::Byte | Width::ByteU => 1,
        Width::Half | Width::HalfU => 2,
        Width::Word => 4,
    }
}

/// The word that a load makes of the number in its bytes.
pub fn extended(width: Width, value: u32) -> u32
    requires { value < 256 ^ size_of width }
    ensures { result ≡ extended_number width value }
{
    match width {
        Width::Byte if value >= 0x80 => value + 0xffff_ff00,
        Width::Half if value >= 0x8000 => value + 0xffff_0000,
        _ => value,
    }
}
