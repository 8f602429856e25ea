//! The listing of task code.
ghost use Rattle.code_rules.specs.AppRange.{IsTaskCode};

use crate::rows::Piece::{Bytes, Number, Text};
use crate::rows::{Rows, Told};
use rv32_expand::sizes;
use sloth_base::Op::*;
use sloth_base::{App, Bounds, Func, Op, ResId};

// Names of variants in their order.
const ALU_KINDS: &str = "Add Sub Sll Slt Sltu Xor Srl Sra Or And";

const IMM_KINDS: &str = "Addi Slti Sltiu Xori Ori Andi Slli Srli Srai";

const BRANCH_KINDS: &str = "Beq Bne Blt Bge Bltu Bgeu";

const WIDTHS: &str = "Byte Half Word ByteU HalfU";

/// The name of this number, from 0.
pub fn name(names: &'static str, number: usize) -> &'static str {
    names.split(' ').nth(number).unwrap_or("?")
}

/// Prints a row for each resource: a text, and its number.
pub fn list_numbers(rows: &mut Rows, text: &str, resources: &[ResId]) {
    for resource in resources {
        rows.numbers(text, &[resource.0]);
    }
}

// Appends an operation with its fields.
fn put_op(rows: &mut Rows, op: &Op) {
    form_value!(rows, op;
        Alu { kind, rd, rs1, rs2 } => "Alu { kind: %, rd: Reg(%), rs1: Reg(%), rs2: Reg(%) }"
            [Text(name(ALU_KINDS, *kind as usize))] rd.0, rs1.0, rs2.0;
        AluImm { kind, rd, rs1, imm } => "AluImm { kind: %, rd: Reg(%), rs1: Reg(%), imm: % }"
            [Text(name(IMM_KINDS, *kind as usize))] rd.0, rs1.0, *imm;
        Branch { kind, rs1, rs2, label } => "Branch { kind: %, rs1: Reg(%), rs2: Reg(%), label: % }"
            [Text(name(BRANCH_KINDS, *kind as usize))] rs1.0, rs2.0, *label;
        Load { width, rd, symbol, offset } => "Load { width: %, rd: Reg(%), symbol: SymId(%), offset: % }"
            [Text(name(WIDTHS, *width as usize))] rd.0, symbol.0, *offset;
        Store { width, rs, symbol, offset } => "Store { width: %, rs: Reg(%), symbol: SymId(%), offset: % }"
            [Text(name(WIDTHS, *width as usize))] rs.0, symbol.0, *offset;
        LoadAt { width, rd, symbol, index, mask } =>
            "LoadAt { width: %, rd: Reg(%), symbol: SymId(%), index: Reg(%), mask: % }"
            [Text(name(WIDTHS, *width as usize))] rd.0, symbol.0, index.0, *mask;
        StoreAt { width, rs, symbol, index, mask } =>
            "StoreAt { width: %, rs: Reg(%), symbol: SymId(%), index: Reg(%), mask: % }"
            [Text(name(WIDTHS, *width as usize))] rs.0, symbol.0, index.0, *mask;
        Lui { rd, imm } => "Lui { rd: Reg(%), imm: % }" [] rd.0, *imm;
        Li { rd, value } => "Li { rd: Reg(%), value: % }" [] rd.0, *value;
        FrameLoad { rd, word } => "FrameLoad { rd: Reg(%), word: % }" [] rd.0, *word;
        FrameStore { rs, word } => "FrameStore { rs: Reg(%), word: % }" [] rs.0, *word;
        Jump { label } => "Jump { label: % }" [] *label;
        Invoke { func } => "Invoke { func: FuncId(%) }" [] func.0;
        Return => "Return" [];
        Serve(call) => "Serve(Call { service: %, object: %, mask: % })"
            [Bytes(call.service.name())] call.object, call.mask;
    )
}

/// Prints how many bodies, items, labels, symbols and bytes there are.
fn list_counts(rows: &mut Rows, app: &App) {
    let (mut items, mut labels, mut bytes): (i64, i64, i64) = (0, 0, 0);
    let (funcs, symbols) = (app.funcs.items(), app.symbols.items());
    for func in funcs {
        items = items.saturating_add(func.items.items().len() as i64);
        labels = labels.saturating_add(func.labels.items().len() as i64);
    }
    for symbol in symbols {
        bytes = bytes.saturating_add(symbol.bytes.items().len() as i64);
    }
    form!(rows; "bodies % items % labels %\n"; Number(funcs.len() as i64), Number(items), Number(labels));
    form!(rows; "symbols % bytes %\n"; Number(symbols.len() as i64), Number(bytes))
}

// Prints a body with its items and labels.
fn list_func(rows: &mut Rows, func: &Func) {
    form!(rows; "body % line % frame %\n"; Bytes(func.name.bytes()); func.line, func.frame_words);
    if let Some(task) = func.task {
        rows.numbers("of task", &[task.0]);
    }
    for item in func.items.items() {
        form!(rows; "% "; ; item.line);
        put_op(rows, &item.op);
        rows.text("\n");
    }
    for label in func.labels.items() {
        form!(rows; "label % line % item %\n"; Bytes(label.name.bytes()); label.line, label.item);
        list_numbers(rows, "holds", label.holds.items());
    }
}

/// Prints the symbols with their bytes, and the bodies.
fn list_app(rows: &mut Rows, app: &App) {
    for symbol in app.symbols.items() {
        form!(rows; "symbol % "; Bytes(symbol.name.bytes()));
        rows.debug(&symbol.bytes.items());
        rows.text("\n");
    }
    for func in app.funcs.items() {
        list_func(rows, func);
    }
}

/// Prints the number of instructions of the first item, and of all items.
fn list_sizes(rows: &mut Rows, app: &App) -> Told
    requires { IsTaskCode app.now }
{
    let sizes = sizes(rows.alloc, app)?;
    let mut all: i64 = 0;
    for size in sizes.as_slice() {
        all = all.saturating_add(i64::from(*size));
    }
    let first = sizes.first().copied().unwrap_or(0);
    form!(rows; "first % all %\n"; Number(i64::from(first)), Number(all));
    Ok(())
}

/// Lists task code (`listing`), its `sizes`, or how much there is of each kind.
pub fn list_code(rows: &mut Rows, asked: &str, app: &App) -> Told
    requires { IsTaskCode app.now }
{
    match asked {
        "listing" => list_app(rows, app),
        "sizes" => return list_sizes(rows, app),
        _ => list_counts(rows, app),
    }
    Ok(())
}

/// Prints the bytes of each task, the offset of its part in its stack, and the bytes of the shared stack.
pub fn list_stacks(rows: &mut Rows, bounds: &Bounds, offsets: &[u32]) {
    rows.numbers("bytes", bounds.bytes.items());
    rows.numbers("offsets", offsets);
    rows.numbers("shared", &[bounds.shared])
}
