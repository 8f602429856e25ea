//! Task code: functions of items, and named data. What numbers name in a configuration and in task code.
ghost use Rattle.std.specs.Prelude.{◌≡◌, ◌<◌, IfSome, length, get_or};
ghost use Rattle.sloth_base.specs.ConfigRange.{no_event, resource_name};
ghost use Rattle.sloth_base.specs.Named.{alarm_declaration, counter_declaration, declaration, function, item_of, no_symbol};
ghost use Rattle.sloth_base.specs.declared.app.Op.TheVariants as op_is;

use crate::{Config, FuncId, List, Name, RES_SCHEDULER, Reg, ResId, Service, SymId, TaskId};

/// An operation on two registers.
#[derive(Clone, Copy)]
pub enum AluKind {
    Add,
    Sub,
    Sll,
    Slt,
    Sltu,
    Xor,
    Srl,
    Sra,
    Or,
    And,
}

/// An operation on a register and a number.
#[derive(Clone, Copy)]
pub enum ImmKind {
    Addi,
    Slti,
    Sltiu,
    Xori,
    Ori,
    Andi,
    Slli,
    Srli,
    Srai,
}

/// A test of two registers.
#[derive(Clone, Copy)]
pub enum BranchKind {
    Beq,
    Bne,
    Blt,
    Bge,
    Bltu,
    Bgeu,
}

/// The width of an access, and for a load whether it extends the sign: `lb`, `lh`, `lw`, `lbu`, `lhu`.
#[derive(Clone, Copy)]
pub enum Width {
    Byte,
    Half,
    Word,
    ByteU,
    HalfU,
}

/// A service with its operands: the task, resource or alarm, or 0; the mask of the events, or 0.
#[derive(Clone, Copy)]
pub struct Call {
    pub service: Service,
    pub object: u32,
    pub mask: u32,
}

/// What an item does.
#[derive(Clone, Copy)]
pub enum Op {
    Alu {
        kind: AluKind,
        rd: Reg,
        rs1: Reg,
        rs2: Reg,
    },
    AluImm {
        kind: ImmKind,
        rd: Reg,
        rs1: Reg,
        imm: i32,
    },
    Lui {
        rd: Reg,
        imm: u32,
    },
    Li {
        rd: Reg,
        value: u32,
    },
    FrameLoad {
        rd: Reg,
        word: u32,
    },
    FrameStore {
        rs: Reg,
        word: u32,
    },
    Load {
        width: Width,
        rd: Reg,
        symbol: SymId,
        offset: u32,
    },
    Store {
        width: Width,
        rs: Reg,
        symbol: SymId,
        offset: u32,
    },
    LoadAt {
        width: Width,
        rd: Reg,
        symbol: SymId,
        index: Reg,
        mask: u32,
    },
    StoreAt {
        width: Width,
        rs: Reg,
        symbol: SymId,
        index: Reg,
        mask: u32,
    },
    Branch {
        kind: BranchKind,
        rs1: Reg,
        rs2: Reg,
        label: u32,
    },
    Jump {
        label: u32,
    },
    Invoke {
        func: FuncId,
    },
    Return,
    Serve(Call),
}

/// An item: one statement of a body that does something, and its line in the source.
#[derive(Clone, Copy)]
pub struct Item {
    pub line: u32,
    pub op: Op,
}

/// A place to jump to, with the resources that are held there, in the order taken.
#[derive(Drop)]
pub struct Label {
    pub name: Name,
    pub line: u32,
    /// The number of the item that it stands before.
    pub item: u32,
    pub holds: List<ResId>,
}

/// A body: that of a task, or of a function that is called.
#[derive(Drop)]
pub struct Func {
    pub name: Name,
    /// The line of its header.
    pub line: u32,
    pub task: Option<TaskId>,
    /// The words of its frame, 0 to `FRAME_LIMIT`.
    pub frame_words: u32,
    pub items: List<Item>,
    pub labels: List<Label>,
}

/// Named data, with the bytes that it holds as the system starts.
#[derive(Drop)]
pub struct Symbol {
    pub name: Name,
    pub bytes: List<u8>,
}

/// All task code.
pub struct App {
    pub funcs: List<Func>,
    pub symbols: List<Symbol>,
}

// Written out: what is derived is proved anew wherever a value is let go.
impl Drop for App {
    fn drop(self) {
        let App {
            funcs: _,
            symbols: _,
        } = self;
    }
}

impl Config {
    /// The name of a task, empty where it is not declared.
    pub fn task_name(&self, task: usize) -> &[u8]
        ensures { result.now ≡ (declaration self.now task).name }
    {
        match self.tasks.items().get(task) {
            Some(task) => task.name.bytes(),
            None => b"",
        }
    }

    /// The static priority of a task.
    pub fn priority(&self, task: usize) -> u32
        requires { task < length self.now.tasks }
        ensures { result ≡ (declaration self.now task).priority }
    {
        self.tasks.items()[task].priority
    }

    /// The name of a counter, empty where it is not declared.
    pub fn counter_name(&self, counter: usize) -> &[u8]
        ensures { result.now ≡ (counter_declaration self.now counter).name }
    {
        match self.counters.items().get(counter) {
            Some(counter) => counter.name.bytes(),
            None => b"",
        }
    }

    /// The name of an alarm, empty where it is not declared.
    pub fn alarm_name(&self, alarm: usize) -> &[u8]
        ensures { result.now ≡ (alarm_declaration self.now alarm).name }
    {
        match self.alarms.items().get(alarm) {
            Some(alarm) => alarm.name.bytes(),
            None => b"",
        }
    }

    /// The name of an event, empty where it is not declared.
    pub fn event_name(&self, event: usize) -> &[u8]
        ensures { result.now ≡ (get_or self.now.events event no_event).name }
    {
        match self.events.items().get(event) {
            Some(event) => event.name.bytes(),
            None => b"",
        }
    }

    /// The name of a resource, empty where it is not declared; at `RES_SCHEDULER` that name.
    pub fn resource_name(&self, resource: usize) -> &[u8]
        ensures { result.now ≡ resource_name self.now resource }
    {
        if resource == RES_SCHEDULER as usize {
            return b"RES_SCHEDULER";
        }
        match self.resources.items().get(resource) {
            Some(name) => name.bytes(),
            None => b"",
        }
    }
}

impl App {
    /// A function by its number.
    pub fn function(&self, number: usize) -> &Func
        requires { number < length self.now.funcs }
        ensures { result.now ≡ function self.now number }
    {
        &self.funcs.items()[number]
    }

    /// The name of a function, empty where there is none of the number.
    pub fn function_name(&self, number: usize) -> &[u8]
        ensures { result.now ≡ (function self.now number).name }
    {
        match self.funcs.items().get(number) {
            Some(func) => func.name.bytes(),
            None => b"",
        }
    }

    /// The line of a function's header, 0 where there is none of the number.
    pub fn function_line(&self, number: usize) -> u32
        ensures { result ≡ (function self.now number).line }
    {
        match self.funcs.items().get(number) {
            Some(func) => func.line,
            None => 0,
        }
    }

    /// The name of a symbol, empty where there is none of the number.
    pub fn symbol_name(&self, number: usize) -> &[u8]
        ensures { result.now ≡ (get_or self.now.symbols number no_symbol).name }
    {
        match self.symbols.items().get(number) {
            Some(symbol) => symbol.name.bytes(),
            None => b"",
        }
    }
}

impl Func {
    /// What an item does.
    pub fn op(&self, item: usize) -> Op
        requires { item < length self.now.items }
        ensures { result ≡ (item_of self.now item).op }
    {
        self.items.items()[item].op
    }
}

impl Op {
    /// The function that it calls, if it is a call of one.
    pub fn callee(self) -> Option<usize>
        ensures { IfSome result (λ g. self ≡ op_is.Invoke g) }
    {
        match self {
            Op::Invoke { func } => Some(func.0 as usize),
            _ => None,
        }
    }
}
