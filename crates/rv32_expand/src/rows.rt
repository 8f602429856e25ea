//! The instructions of each operation. The instructions of a call. How many instructions an item has.
//! Instructions of one kind of operation.
ghost use Rattle.std.specs.Prelude.{◌≡◌, ◌≤◌, ◌<◌, ◌+◌, ◌*◌, ◌^◌, ◌∷◌, [], length, pos, ℕ};
ghost use Rattle.sloth_base.specs.Arithmetic.{hi};
ghost use Rattle.sloth_base.specs.Limits.{frame_limit};
ghost use Rattle.rv32_instr.specs.Range.{IsSigned};
ghost use Rattle.rv32_instr.specs.declared.InstrKind.TheVariants.{Lui, Addi, Lw, Jalr};
ghost use Rattle.rv32_expand.specs.Expansion.{distance, block_address, indexed, branch_code, mask_of, service_jump, operation_code, call_code, register_operation, number_operation, test, opposite};
ghost use Rattle.rv32_expand.specs.NumberRange.{HasBranchRoom, HasNumbersInRange};
ghost use Rattle.sloth_base.specs.Named.{function};
ghost use Rattle.rv32_expand.specs.Long.{size};
ghost use Rattle.code_rules.specs.AppRange.{IsNumberOf};

use crate::item_address;
use crate::lengths::{Draft, block_address, label_address, symbol_address};
use rv32_instr::{
    InstrKind, X2, X30, X31, ZERO, add, addi, and, andi, auipc, hi, jal, jalr, lo, load, lui, lw,
    slli, srai, srli, store, sw,
};
use sloth_base::{AluKind, App, BranchKind, Call, FuncId, ImmKind, Item, Op, Places, Reg, Service};

/// An access to an address of data, whose low part is in the access.
fn direct(address: u32, access: InstrKind) -> Draft
    ensures { result ≡ Lui 31 (hi address) ∷ access ∷ [] }
{
    Draft::of(&[lui(X31, hi(address)), access])
}

/// The same behind an index under a mask, which may have no place in an instruction.
fn indexed(index: Reg, mask: u32, address: u32, access: InstrKind) -> Draft
    ensures { result ≡ indexed index mask address access }
{
    let (base, sum) = (lui(X30, hi(address)), add(X31, X31, X30));
    if mask <= NEAR_MASK {
        return Draft::of(&[andi(X31, index, mask as i32), base, sum, access]);
    }
    let (low, masked) = (addi(X30, X30, lo(mask)), and(X31, index, X30));
    Draft::of(&[lui(X30, hi(mask)), low, masked, base, sum, access])
}

fn branch(long: bool, kind: BranchKind, a: Reg, b: Reg, at: u32, target: u32) -> Draft
    requires { HasBranchRoom long at target }
    ensures { result ≡ branch_code long kind a b at target }
{
    if !long {
        return one(test(kind, a, b, distance(at, target)));
    }
    let next = at + 24;
    Draft::of(&[
        lui(X31, hi(next)),
        addi(X31, X31, lo(next)),
        test(opposite(kind), a, b, 12),
        lui(X31, hi(target)),
        addi(X31, X31, lo(target)),
        jalr(ZERO, X31, 0),
    ])
}

fn way_back(words: u32) -> Draft
    requires { words ≤ frame_limit }
    ensures { result ≡ Lw 31 2 (pos (4 * words)) ∷ Addi 2 2 (pos (4 + 4 * words)) ∷ Jalr 0 31 (pos 12) ∷ [] }
{
    let offset = frame_offset(words);
    Draft::of(&[
        lw(X31, X2, offset),
        addi(X2, X2, 4 + offset),
        jalr(ZERO, X31, 12),
    ])
}

fn mask_of(service: Service, mask: u32) -> Draft
    ensures is { result ≡ mask_of service mask }
    ensures few { length result ≤ 2 }
{
    if service.has_mask() {
        return Draft::of(&[lui(X30, hi(mask)), addi(X30, X30, lo(mask))]);
    }
    Draft::of(&[])
}

/// The jump, from `at` on, to the block of a service.
fn serve(call: Call, at: u32, places: &Places) -> Draft
    requires at_in { at < 2 ^ 31 + 2 ^ 22 }
    requires near { IsSigned 21 (distance (at + 4 * length (mask_of call.service call.mask))
        (block_address places.now call.service call.object)) }
    ensures { result ≡ service_jump places.now call at }
{
    let mut draft = mask_of(call.service, call.mask);
    let from = at + 4 * mask_length(call.service);
    let block = block_address(places, call.service, call.object);
    draft.push(jal(X31, distance(from, block)));
    draft
}

/// The instructions of an item of a function, at its address, where a branch is long or not.
pub fn draft(item: &Item, func: u32, at: u32, long: bool, app: &App, places: &Places) -> Draft
    requires { HasNumbersInRange app.now places.now func at long item.now.op }
    ensures { result ≡ operation_code app.now places.now func at long item.now.op }
{
    match item.op {
        Op::Alu { kind, rd, rs1, rs2 } => one(register_operation(kind, rd, rs1, rs2)),
        Op::AluImm { kind, rd, rs1, imm } => one(number_operation(kind, rd, rs1, imm)),
        Op::Lui { rd, imm } => one(lui(rd, imm)),
        Op::Li { rd, value } => Draft::of(&[lui(X31, hi(value)), addi(rd, X31, lo(value))]),
        Op::FrameLoad { rd, word } => one(lw(rd, X2, frame_offset(word))),
        Op::FrameStore { rs, word } => one(sw(rs, X2, frame_offset(word))),
        Op::Load {
            width,
            rd,
            symbol,
            offset,
        } => {
            let address = symbol_address(places, symbol) + offset;
            direct(address, load(width, rd, X31, lo(address)))
        }
        Op::Store {
            width,
            rs,
            symbol,
            offset,
        } => {
            let address = symbol_address(places, symbol) + offset;
            direct(address, store(width, rs, X31, lo(address)))
        }
        Op::LoadAt {
            width,
            rd,
            symbol,
            index,
            mask,
        } => {
            let address = symbol_address(places, symbol);
            indexed(index, mask, address, load(width, rd, X31, lo(address)))
        }
        Op::StoreAt {
            width,
            rs,
            symbol,
            index,
            mask,
        } => {
            let address = symbol_address(places, symbol);
            indexed(index, mask, address, store(width, rs, X31, lo(address)))
        }
        Op::Branch {
            kind,
            rs1,
            rs2,
            label,
        } => {
            let target = label_address(app, places, func, label);
            branch(long, kind, rs1, rs2, at, target)
        }
        Op::Jump { label } => {
            one(jal(ZERO, distance(at, label_address(app, places, func, label))))
        }
        Op::Invoke { func } => call(at, frame_words(app, func), item_address(places, func.0, 0)),
        Op::Return => way_back(frame_words(app, FuncId(func))),
        Op::Serve(call) => serve(call, at, places),
    }
}

/// How far it is from one address to another.
pub fn distance(from: u32, to: u32) -> i32
    requires { IsSigned 21 (distance from to) }
    ensures { result ≡ distance from to }
{
    (i64::from(to) - i64::from(from)) as i32
}

/// One instruction.
pub fn one(kind: InstrKind) -> Draft
    ensures { result ≡ kind ∷ [] }
{
    Draft::of(&[kind])
}

/// Where a word of the frame stands behind x2.
pub fn frame_offset(word: u32) -> i32
    requires { word ≤ 36 }
    ensures { result ≡ pos (4 * word) }
{
    4 * word as i32
}

/// The call, at `at`, of a function with so many words of frame.
pub fn call(at: u32, words: u32, target: u32) -> Draft
    requires few { words ≤ frame_limit }
    requires at_in { at < 2 ^ 31 + 2 ^ 22 }
    requires near { IsSigned 21 (distance (at + 4 * (words + 3)) target) }
    ensures { result ≡ call_code at words target }
{
    let mut draft = one(addi(X2, X2, -4 - frame_offset(words)));
    for word in 0..words {
        draft.push(sw(ZERO, X2, frame_offset(word)));
    }
    draft.push(auipc(X31, 0));
    draft.push(sw(X31, X2, frame_offset(words)));
    draft.push(jal(ZERO, distance(at + 4 * (words + 3), target)));
    draft
}

/// The greatest mask that has a place in an instruction.
pub const NEAR_MASK: u32 = 2047;

/// The words of the frame of a function.
pub fn frame_words(app: &App, func: FuncId) -> u32
    ensures { result ≡ (function app.now func).frame_words }
{
    match app.funcs.items().get(func.0 as usize) {
        Some(func) => func.frame_words,
        None => 0,
    }
}

/// How many instructions load the mask of a service.
pub fn mask_length(service: Service) -> u32
    ensures is { (mask : ℕ) → result ≡ length (mask_of service mask) }
    ensures few { result ≤ 2 }
{
    if service.has_mask() { 2 } else { 0 }
}

/// How many instructions an operation has, where a branch is long or not.
#[tactic(auto, unfolding(crate::specs::Long::size), using(crate::proofs::Counts::size_invoke, crate::proofs::Counts::size_serve, crate::proofs::Counts::size_load_at, crate::proofs::Counts::size_store_at))]
pub fn size(op: Op, app: &App, long: bool) -> u32
    requires { (func : ℕ) → (function app.now func).frame_words ≤ frame_limit }
    ensures is { result ≡ size app.now long op }
    ensures few { result ≤ 36 }
{
    match op {
        Op::Alu { .. } | Op::AluImm { .. } | Op::Lui { .. } => 1,
        Op::FrameLoad { .. } | Op::FrameStore { .. } | Op::Jump { .. } => 1,
        Op::Li { .. } | Op::Load { .. } | Op::Store { .. } => 2,
        Op::LoadAt { mask, .. } | Op::StoreAt { mask, .. } => {
            if mask <= NEAR_MASK { 4 } else { 6 }
        }
        Op::Branch { .. } => { if long { 6 } else { 1 } }
        Op::Invoke { func } => 4 + frame_words(app, func),
        Op::Return => 3,
        Op::Serve(call) => mask_length(call.service) + 1,
    }
}

/// An operation on two registers.
pub fn register_operation(kind: AluKind, rd: Reg, rs1: Reg, rs2: Reg) -> InstrKind
    ensures { result ≡ register_operation kind rd rs1 rs2 }
{
    match kind {
        AluKind::Add => InstrKind::Add { rd, rs1, rs2 },
        AluKind::Sub => InstrKind::Sub { rd, rs1, rs2 },
        AluKind::Sll => InstrKind::Sll { rd, rs1, rs2 },
        AluKind::Slt => InstrKind::Slt { rd, rs1, rs2 },
        AluKind::Sltu => InstrKind::Sltu { rd, rs1, rs2 },
        AluKind::Xor => InstrKind::Xor { rd, rs1, rs2 },
        AluKind::Srl => InstrKind::Srl { rd, rs1, rs2 },
        AluKind::Sra => InstrKind::Sra { rd, rs1, rs2 },
        AluKind::Or => InstrKind::Or { rd, rs1, rs2 },
        AluKind::And => InstrKind::And { rd, rs1, rs2 },
    }
}

/// An operation on a register and a number.
pub fn number_operation(kind: ImmKind, rd: Reg, rs1: Reg, imm: i32) -> InstrKind
    requires { IsNumberOf kind imm }
    ensures { result ≡ number_operation kind rd rs1 imm }
{
    match kind {
        ImmKind::Addi => InstrKind::Addi { rd, rs1, imm },
        ImmKind::Slti => InstrKind::Slti { rd, rs1, imm },
        ImmKind::Sltiu => InstrKind::Sltiu { rd, rs1, imm },
        ImmKind::Xori => InstrKind::Xori { rd, rs1, imm },
        ImmKind::Ori => InstrKind::Ori { rd, rs1, imm },
        ImmKind::Andi => InstrKind::Andi { rd, rs1, imm },
        ImmKind::Slli => slli(rd, rs1, imm as u8),
        ImmKind::Srli => srli(rd, rs1, imm as u8),
        ImmKind::Srai => srai(rd, rs1, imm as u8),
    }
}

/// Goes on at `imm` bytes from here where the test of two registers holds.
pub fn test(kind: BranchKind, rs1: Reg, rs2: Reg, imm: i32) -> InstrKind
    ensures { result ≡ test kind rs1 rs2 imm }
{
    match kind {
        BranchKind::Beq => InstrKind::Beq { rs1, rs2, imm },
        BranchKind::Bne => InstrKind::Bne { rs1, rs2, imm },
        BranchKind::Blt => InstrKind::Blt { rs1, rs2, imm },
        BranchKind::Bge => InstrKind::Bge { rs1, rs2, imm },
        BranchKind::Bltu => InstrKind::Bltu { rs1, rs2, imm },
        BranchKind::Bgeu => InstrKind::Bgeu { rs1, rs2, imm },
    }
}

/// The test that holds where the other does not.
pub fn opposite(kind: BranchKind) -> BranchKind
    ensures { result ≡ opposite kind }
{
    match kind {
        BranchKind::Beq => BranchKind::Bne,
        BranchKind::Bne => BranchKind::Beq,
        BranchKind::Blt => BranchKind::Bge,
        BranchKind::Bge => BranchKind::Blt,
        BranchKind::Bltu => BranchKind::Bgeu,
        BranchKind::Bgeu => BranchKind::Bltu,
    }
}
