//! Plain data of `sloth`: names and numbers, configurations, task code, images, states of the machine, and what is
//! observed of a run; with lists, and look-ups by number (`List`, `Name`,
//! `Service::code`, `Config::task_name`, `App::function`, `Func::op`, ..).
//!
//! Defined here for many crates: what is in range (`specs/ConfigRange`, `specs/ImageRange`, `specs/Arrivals`); the
//! machine's state, its controller and the taking of a line (`specs/Machine`, `specs/Lines`, `specs/Choose`,
//! `specs/Take`, `specs/Arrive`); words of 32 bits (`specs/Arithmetic`); what numbers name (`specs/Named`,
//! `specs/DeclaredNames`); services and blocks (`specs/ServiceCodes`, `specs/Blocks`); events (`specs/Events`); memory
//! (`specs/MemoryMap`); what lines are for (`specs/Owners`); how long code may stay masked (`specs/Stretches`). The
//! limits of the program stand once, in `limits` and `specs/Limits`.
//!
//! Which of several faults is answered: the one of the least line, and on that line of the least number. A rule says
//! its faults as a set of refusals, finds the least of them, and the findings of rules are merged
//! (`refusal::merge`, `lesser`, `fault_if`). Defined here: the order of refusals (`specs/Order`), and what a search
//! has found (`specs/Search`).
#![tactic(auto)]

pub mod app;
pub mod config;
pub mod image;
pub mod limits;
pub mod list;
pub mod memory_map;
pub mod numbers;
pub mod refusal;
pub mod service;

pub use app::{AluKind, App, BranchKind, Call, Func, ImmKind, Item, Label, Op, Symbol, Width};
pub use config::{
    Action, AlarmDecl, Config, CounterDecl, DeclaredNames, EventDecl, TaskDecl, counter_names,
    task_names,
};
pub use image::{Image, Mark, MarkKind};
pub use limits::{
    ALARM_INSTRUCTIONS, ALARM_LIMIT, ARRIVAL_LIMIT, BLOCK_COUNT, BODY_LIMIT, BOOT_INSTRUCTIONS,
    Bounds, CEILING_COUNT, COUNT_LIMIT, COUNTER_LIMIT, DATA_LIMIT, EVENT_LIMIT, FILE_LIMIT,
    FRAME_LIMIT, ITEM_COUNTS, ITEM_LIMIT, Levels, MARK_LIMIT, MASK_LIMIT, NAME_LIMIT,
    OPERAND_LIMIT, PICTURE_LIMIT, PRIORITY_LIMIT, Places, RESOURCE_LIMIT, SIZE_LIMIT,
    STRETCH_INSTRUCTIONS, SYMBOL_LIMIT, TASK_LIMIT, TICK_LIMIT, block_number, block_object,
    block_service,
};
pub use list::{List, Name, NoMemory, Result, is_name, push};
pub use memory_map::{
    BOOT_BASE, CONTROLLER_BASE, CONTROLLER_BYTES, ENABLED_OFFSET, LEVELS_OFFSET, LINE_COUNT,
    MEMORY_BASE, MEMORY_BYTES, MEMORY_END, VECTORS_BASE, WORD, WORDS_BASE,
};
pub use numbers::{
    FIRST_COUNTER_LINE, FuncId, Line, LineKind, RES_SCHEDULER, Reg, ResId, Step, SymId, TaskId,
};
pub use refusal::{BuildError, Code, Part, Refusal};
pub use service::{
    Arrival, E_OK, E_OS_LIMIT, E_OS_NOFUNC, E_OS_STATE, E_OS_VALUE, Event, ObjectKind, Service,
    Stamp, Stamped, service_named,
};
