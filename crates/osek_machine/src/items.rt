//! What an item of task code does.
ghost use Rattle.std.specs.Prelude.{◌≡◌, ◌<◌, length, Some};
ghost use Rattle.std.specs.List.{list_all};
ghost use Rattle.osek_scheduler.specs.Meaning.{is_own, registers_of};
ghost use Rattle.osek_scheduler.specs.Frames.{CanMove};
ghost use Rattle.osek_machine.specs.Plans.{branch_plan, item_plan, load_plan, store_plan, write_plan};
ghost use Rattle.osek_machine.specs.Running.{IsComputed, own_operation, run_plan};

use crate::room::TaskRoom;
use crate::services::{answers, plan};
use crate::{Store, is_active};
use osek_scheduler::{
    FrameRoom, Other, Plan, TaskChange, branch_holds, number_result, register_result,
};
use sloth_base::{App, Func, FuncId, Op, Reg, Width};

fn write_plan(rd: Reg, value: u32) -> Plan
    ensures { result ≡ write_plan rd value }
{
    let shown = if rd.0 == 0 { 0 } else { value };
    answers(shown, TaskChange::Write { rd, value })
}

fn load_plan(store: &Store, width: Width, rd: Reg, symbol: u32, offset: u32) -> Option<Plan>
    ensures { result ≡ load_plan store.now.symbols width rd symbol offset }
{
    let value = store.load(width, symbol, offset)?;
    Some(write_plan(rd, value))
}

fn store_plan(store: &Store, width: Width, value: u32, symbol: u32, offset: u32) -> Option<Plan>
    ensures { result ≡ store_plan store.now.symbols width value symbol offset }
{
    if !store.is_inside(symbol, width, offset) {
        return None;
    }
    let other = Other::Store {
        symbol,
        width,
        offset,
        value,
    };
    Some(plan(Some(value), TaskChange::MoveOn, other))
}

fn branch_plan(func: &Func, holds: bool, item: u32, label: u32) -> Option<Plan>
    requires { item < 4294967295 }
    ensures { result ≡ branch_plan func.now holds item label }
{
    let target = func.labels.items().get(label as usize)?.item;
    let next = if holds { target } else { item + 1 };
    Some(answers(0, TaskChange::GoTo(next)))
}

fn item_plan(
    app: &App,
    store: &Store,
    task: &TaskRoom,
    func: &Func,
    frame: &FrameRoom,
    op: &Op,
) -> Option<Plan>
    requires computed { IsComputed op.now }
    requires moves { frame.now.item < 4294967295 }
    ensures { result ≡ item_plan app.now op.now func.now frame.now
        (length task.now.frames) task.now.registers store.now.symbols }
{
    match *op {
        Op::Alu { kind, rd, rs1, rs2 } => {
            let value = register_result(kind, task.register(rs1), task.register(rs2));
            Some(write_plan(rd, value))
        }
        Op::AluImm { kind, rd, rs1, imm } => {
            Some(write_plan(rd, number_result(kind, task.register(rs1), imm)))
        }
        Op::Lui { rd, imm } => Some(write_plan(rd, imm * 4096)),
        Op::Li { rd, value } => Some(write_plan(rd, value)),
        Op::FrameLoad { rd, word } => Some(write_plan(rd, frame.word(word)?)),
        Op::FrameStore { rs, word } => {
            frame.word(word)?;
            let value = task.register(rs);
            Some(answers(value, TaskChange::StoreWord { word, value }))
        }
        Op::Load {
            width,
            rd,
            symbol,
            offset,
        } => load_plan(store, width, rd, symbol.0, offset),
        Op::Store {
            width,
            rs,
            symbol,
            offset,
        } => store_plan(store, width, task.register(rs), symbol.0, offset),
        Op::LoadAt {
            width,
            rd,
            symbol,
            index,
            mask,
        } => load_plan(store, width, rd, symbol.0, task.register(index) & mask),
        Op::StoreAt {
            width,
            rs,
            symbol,
            index,
            mask,
        } => {
            let offset = task.register(index) & mask;
            store_plan(store, width, task.register(rs), symbol.0, offset)
        }
        Op::Branch {
            kind,
            rs1,
            rs2,
            label,
        } => {
            let holds = branch_holds(kind, task.register(rs1), task.register(rs2));
            branch_plan(func, holds, frame.item(), label)
        }
        Op::Jump { label } => branch_plan(func, true, frame.item(), label),
        Op::Invoke { func: FuncId(func) } => {
            let words = app.funcs.items().get(func as usize)?.frame_words;
            Some(answers(0, TaskChange::Invoke { func, words }))
        }
        Op::Return if task.frames.depth() > 1 => Some(answers(0, TaskChange::Return)),
        Op::Return | Op::Serve(_) => None,
    }
}

fn is_own(r: Reg) -> bool
    ensures { result ≡ is_own r }
{
    r.0 == 0 || (5 <= r.0 && r.0 < 30)
}

fn names_own(op: &Op) -> bool
    ensures { result ≡ list_all is_own (registers_of op.now) }
{
    match *op {
        Op::Alu { rd, rs1, rs2, .. } => is_own(rd) && is_own(rs1) && is_own(rs2),
        Op::AluImm { rd, rs1, .. } => is_own(rd) && is_own(rs1),
        Op::Lui { rd, .. } | Op::Li { rd, .. } | Op::FrameLoad { rd, .. } | Op::Load { rd, .. } => {
            is_own(rd)
        }
        Op::FrameStore { rs, .. } | Op::Store { rs, .. } => is_own(rs),
        Op::LoadAt { rd, index, .. } => is_own(rd) && is_own(index),
        Op::StoreAt { rs, index, .. } => is_own(rs) && is_own(index),
        Op::Branch { rs1, rs2, .. } => is_own(rs1) && is_own(rs2),
        Op::Jump { .. } | Op::Invoke { .. } | Op::Return | Op::Serve(_) => true,
    }
}

/// The next operation of a task that runs and owes no `back`.
pub fn own_operation(app: &App, task: &TaskRoom) -> Option<Op>
    ensures { result ≡ own_operation app.now task.now }
{
    if !is_active(task.state()) || task.owed {
        return None;
    }
    let frame = task.innermost()?;
    let func = app.funcs.items().get(frame.func() as usize)?;
    let item = func.items.items().get(frame.item() as usize)?;
    Some(item.op)
}

/// The plan of an item that is no service.
pub fn run_plan(app: &App, store: &Store, task: &TaskRoom, op: &Op) -> Option<Plan>
    requires computed { IsComputed op.now }
    requires moves { CanMove task.now.frames }
    ensures { result ≡ run_plan app.now op.now task.now store.now.symbols }
{
    if !names_own(op) {
        return None;
    }
    let frame = task.innermost()?;
    let func = app.funcs.items().get(frame.func() as usize)?;
    item_plan(app, store, task, func, frame, op)
}
