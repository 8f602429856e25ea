//! The code of a kernel of one task, at places that are written out.
ghost use Rattle.std.specs.Prelude.{ℕ, true, ◌≡◌, ◌<◌, ◌≤◌, ◌∷◌, [], All, IfOk, length, slice_index};
ghost use Rattle.code_lengths.specs.Bodies.{IsBodyPlace};
ghost use Rattle.service_gen.specs.Calls.{IsCalledWith};
ghost use Rattle.vector_gen.specs.Places.{IsStackTop};
ghost use Rattle.sloth_base.specs.ConfigRange.{InRange};
ghost use Rattle.sloth_base.specs.Limits.{frame_limit, level_count};
ghost use Rattle.vector_gen.specs.Vectors.{AreInReach};

use crate::rows::Piece::{Address, Text};
use crate::rows::{Rows, Told};
use crate::task_code::name;
use rv32_instr::{Block, encode};
use service_gen::tick;
use sloth_base::{
    App, BLOCK_COUNT, CEILING_COUNT, Config, FRAME_LIMIT, Func, LINE_COUNT, Levels, List, Name,
    NoMemory, ObjectKind, Places, Result, Service, TASK_LIMIT, TaskId, service_named,
};
use sloth_region::{Extent, Map};
use std::alloc::Global;
use vector_gen::{boot, idle, prologue, vectors};

const IDLE: u32 = 0x8000_0548;

const MARK_KINDS: &str = "Item Jump Opening Idle Back";

// A list of one thing.
fn only<T: Drop>(alloc: Global, thing: T) -> Result<Vec<T>>
    ensures { IfOk result (λ list. list.items ≡ thing ∷ []) }
{
    let mut list = Vec::new(alloc);
    list.push(thing).map_err(|_| NoMemory)?;
    Ok(list)
}

// A body of the task, with a frame of so many words.
fn app(alloc: Global, frame_words: u32) -> Result<App>
    requires { frame_words ≤ frame_limit }
    ensures body { IfOk result (λ app. IsBodyPlace app.funcs 0 0) }
    ensures frames { IfOk result (λ app. All (λ func. func.frame_words ≤ frame_limit) app.funcs) }
    ensures one { IfOk result (λ app. length app.funcs ≡ 1) }
{
    let main = Func {
        name: Name::new(alloc, b"Main")?,
        line: 1,
        task: Some(TaskId(0)),
        frame_words,
        items: List::from_vec(Vec::new(alloc)),
        labels: List::from_vec(Vec::new(alloc)),
    };
    let funcs = only(alloc, main)?;
    Ok(App {
        funcs: List::from_vec(funcs),
        symbols: List::from_vec(Vec::new(alloc)),
    })
}

// A level of the task, that of a task that is not preempted, and the ceilings of the resources 1 and RES_SCHEDULER.
fn levels() -> Levels
    ensures { (result.top < level_count) × ((t : ℕ) → slice_index result.task t < level_count) }
{
    let mut task = [0; TASK_LIMIT];
    task[0] = 5;
    let mut ceiling = [0; CEILING_COUNT];
    ceiling[1] = 2;
    ceiling[32] = 30;
    Levels {
        task,
        ceiling,
        top: 30,
    }
}

// Where all stands: the task's prologue, the end of its stack, and the first item of its body.
fn map(alloc: Global) -> Result<Map>
    ensures reach { IfOk result (λ map. AreInReach map.handlers) }
    ensures tops { IfOk result (λ map. (length map.tops ≡ 1) × All IsStackTop map.tops) }
    ensures items { IfOk
        result (λ map. (length map.places.first ≡ 1) × All (λ i. i < length map.places.items) map.places.first) }
{
    let tops = Vec::from_slice(alloc, &[0x8000_2e00])?;
    let items = Vec::from_slice(alloc, &[0x8000_1b74])?;
    let first = Vec::from_slice(alloc, &[0])?;
    let places = Places {
        items: List::from_vec(items),
        first: List::from_vec(first),
        symbols: List::from_vec(Vec::new(alloc)),
        blocks: [0x8000_1000; BLOCK_COUNT],
    };
    let mut handlers = [IDLE; LINE_COUNT];
    handlers[0] = 0x800f_fffc;
    Ok(Map {
        extents: List::from_vec(Vec::new(alloc)),
        places,
        stacks: List::from_vec(Vec::new(alloc)),
        tops: List::from_vec(tops),
        words: Extent {
            base: 0x8000_0004,
            len: 1020,
        },
        idle: IDLE,
        handlers,
    })
}

// Whether a service is called with an object of this number.
fn is_called(service: Service, object: u32, config: &Config) -> bool
    ensures { result ≡ true → IsCalledWith config.now service object }
{
    match service.object_kind() {
        ObjectKind::Nothing => object == 0,
        ObjectKind::Task => object < TASK_LIMIT as u32,
        ObjectKind::Resource => object < CEILING_COUNT as u32,
        ObjectKind::Alarm => (object as usize) < config.alarms.items().len(),
    }
}

// The prologue of the task of a configuration, with a frame of so many words.
fn entry(alloc: Global, words: u32, config: &Config, map: &Map) -> Result<Block>
    requires tops { (length map.now.tops ≡ 1) × All IsStackTop map.now.tops }
    requires items { (length map.now.places.first ≡ 1)
        × All (λ i. i < length map.now.places.items) map.now.places.first }
{
    if words > FRAME_LIMIT as u32 || config.tasks.items().len() != 1 {
        return Err(NoMemory);
    }
    let app = app(alloc, words)?;
    prologue(alloc, TaskId(0), config, &app, &levels(), map)
}

// The block of a service with an object.
fn block(alloc: Global, asked: &str, config: &Config, map: &Map) -> Result<Block>
    requires { InRange config.now }
{
    let (name, number) = asked.split_once(' ').ok_or(NoMemory)?;
    let service = service_named(name.as_bytes()).ok_or(NoMemory)?;
    let object = number.parse::<u32>().unwrap_or(0);
    if !is_called(service, object, config) {
        return Err(NoMemory);
    }
    service_gen::block(alloc, service, object, config, &levels(), map)
}

// The tick of the first counter, if there is one.
fn first_tick(alloc: Global, config: &Config, map: &Map) -> Result<Block>
    requires { InRange config.now }
{
    if config.counters.items().len() == 0 {
        return Err(NoMemory);
    }
    tick(alloc, 0, config, &levels(), map)
}

// Prints the name of a block, its address and its marks, and its words, each on a line.
fn list_block(rows: &mut Rows, title: &str, block: &Block) {
    form!(rows; "% %\n"; Text(title), Address(block.at));
    for mark in block.marks.items() {
        let kind = name(MARK_KINDS, mark.kind as usize);
        form!(rows; "mark % % % % %\n"; Address(mark.address), Text(kind); mark.a, mark.b, mark.c);
    }
    for instr in block.code.items() {
        form!(rows; "%\n"; Address(encode(*instr)));
    }
}

/// Prints a kernel's code: `vectors`, `idle`, `boot`, `tick` of the first counter, the prologue of the task with so
/// many frame words (`prologue 32`), or the block of a service with an object (`service ActivateTask 29`).
pub fn list_kernel(rows: &mut Rows, asked: &str, config: &Config) -> Told
    requires { InRange config.now }
{
    let alloc = rows.alloc;
    let map = map(alloc)?;
    let (title, rest) = asked.split_once(' ').unwrap_or((asked, ""));
    let made = match title {
        "vectors" => vectors(alloc, &map),
        "idle" => idle(alloc, &map),
        "boot" => boot(alloc, config, &levels(), &map),
        "tick" => first_tick(alloc, config, &map),
        "prologue" => entry(alloc, rest.parse::<u32>().unwrap_or(0), config, &map),
        _ => block(alloc, rest, config, &map),
    };
    list_block(rows, title, &made?);
    Ok(())
}
