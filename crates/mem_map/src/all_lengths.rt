//! How long the code of an image is. Which code of services task code needs.
ghost use Rattle.std.specs.Prelude.{ℕ, ◌≡◌, ◌<◌, ◌≤◌, IfOk, cond, length, get_or, ◌||◌, false};
ghost use Rattle.code_lengths.specs.CodeLengths.{block_length, tick_length, IsPrologueLength};
ghost use Rattle.code_rules.specs.WellFormed.{WellFormed};
ghost use Rattle.sloth_base.specs.Blocks.{block_count};
ghost use Rattle.sloth_base.specs.Limits.{counter_limit, alarm_limit};
ghost use Rattle.mem_map.specs.Lengths.{AreLengths, wanted_length};
ghost use Rattle.mem_map.specs.Wanted.{is_call_of, is_called_by, is_wanted, wanted_blocks};

use code_lengths::{block_length, boot_length, start_length, tick_length};
use rv32_expand::sizes;
use sloth_base::{App, BLOCK_COUNT, Config, Func, List, Op, Result, TaskId, block_number};
use std::alloc::{AllocError, Global};

/// How many instructions each piece of the code of an image has.
#[derive(Drop)]
pub struct CodeLengths {
    pub boot: u32,
    /// The prologue of each task, in the order of the tasks.
    pub prologues: List<u32>,
    /// The tick of each counter, in the order of the counters.
    pub ticks: List<u32>,
    /// The code of each service with its object, at its place in the table of blocks; 0 where no item calls it.
    pub services: [u32; BLOCK_COUNT],
    /// Each item, over all bodies in order.
    pub items: List<u32>,
}

// The lengths of the services that items call, and 0 for the others.
fn service_lengths(app: &App) -> [u32; BLOCK_COUNT]
    ensures all { length result ≡ block_count }
    ensures each { (number : ℕ) → number < block_count → get_or result number 0 ≡ wanted_length app.now number }
{
    let wanted = wanted_blocks(app);
    let mut lengths = [0; BLOCK_COUNT];
    for number in 0..BLOCK_COUNT {
        lengths[number] = length_if(wanted[number], number);
    }
    lengths
}

// The length of the code at a place in the table of blocks, where it is wanted.
fn length_if(wanted: bool, number: usize) -> u32
    requires { number < block_count }
    ensures { result ≡ cond wanted (block_length number) 0 }
{
    if wanted { block_length(number) } else { 0 }
}

fn prologue_lengths(alloc: Global, config: &Config, app: &App) -> Result<Vec<u32>, AllocError>
    requires { WellFormed config.now app.now }
    ensures count { IfOk result (λ lengths. length lengths.items ≡ length config.now.tasks) }
    ensures each { IfOk result (λ lengths. (t : ℕ) → t < length config.now.tasks
        → IsPrologueLength t config.now app.now (get_or lengths.items t 0)) }
{
    let mut lengths = Vec::new(alloc);
    let count = config.tasks.items().len() as u32;
    for task in 0..count {
        lengths.push(start_length(TaskId(task), config, app))?;
    }
    Ok(lengths)
}

fn tick_lengths(alloc: Global, config: &Config) -> Result<Vec<u32>, AllocError>
    requires { (length config.now.counters ≤ counter_limit) × (length config.now.alarms ≤ alarm_limit) }
    ensures count { IfOk result (λ lengths. length lengths.items ≡ length config.now.counters) }
    ensures each { IfOk result (λ lengths. (c : ℕ) → c < length config.now.counters → get_or lengths.items c 0
        ≡ tick_length c config.now.alarms) }
{
    let mut lengths = Vec::new(alloc);
    let count = config.counters.items().len() as u32;
    for counter in 0..count {
        lengths.push(tick_length(counter, config.alarms.items()))?;
    }
    Ok(lengths)
}

/// How many instructions each piece of the code of well-formed task code has.
pub fn all_lengths(alloc: Global, config: &Config, app: &App) -> Result<CodeLengths>
    requires { WellFormed config.now app.now }
    ensures { IfOk result (AreLengths config.now app.now) }
{
    let items = sizes(alloc, app)?;
    let prologues = prologue_lengths(alloc, config, app)?;
    let ticks = tick_lengths(alloc, config)?;
    let counters = config.counters.items().len() as u32;
    Ok(CodeLengths {
        boot: boot_length(config.tasks.items(), counters),
        prologues: List::from_vec(prologues),
        ticks: List::from_vec(ticks),
        services: service_lengths(app),
        items: List::from_vec(items),
    })
}

// What the operation calls is wanted too.
fn mark_call(wanted: &mut [bool; BLOCK_COUNT], op: Op)
    ensures { (number : ℕ) → number < block_count → get_or wanted.new number false
        ≡ (get_or wanted.old number false || is_call_of number op) }
{
    if let Op::Serve(call) = op {
        let number = block_number(call.service, call.object);
        if number < BLOCK_COUNT {
            wanted[number] = true;
        }
    }
}

// So is what the function calls.
fn mark_calls(wanted: &mut [bool; BLOCK_COUNT], func: &Func)
    ensures { (number : ℕ) → number < block_count → get_or wanted.new number false
        ≡ (get_or wanted.old number false || is_called_by number func.now) }
{
    for item in func.items.items() {
        mark_call(wanted, item.op);
    }
}

// Whether an item calls the service with its object, place by place.
fn marked(app: &App) -> [bool; BLOCK_COUNT]
    ensures { (number : ℕ) → number < block_count → get_or result number false ≡ is_wanted number app.now }
{
    let mut wanted = [false; BLOCK_COUNT];
    for func in app.funcs.items() {
        mark_calls(&mut wanted, func);
    }
    wanted
}

/// Whether an item calls the service with its object, for each place in the table of blocks.
pub fn wanted_blocks(app: &App) -> [bool; BLOCK_COUNT]
    ensures { result ≡ wanted_blocks app.now }
{
    marked(app)
}
