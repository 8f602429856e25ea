//! The registers of the machine at a count, with a line taken where one is.
//! Where the registers of a task stand that does not run.
ghost use Rattle.std.specs.Prelude.{◌≡◌, ◌<◌, ◌≤◌};
ghost use Rattle.sloth_base.specs.Limits.{task_limit};
ghost use Rattle.sloth_base.specs.Take.{execution_state};
ghost use Rattle.rv32_machine.specs.State.{state};
ghost use Rattle.rv32_instr.specs.Memory.{memory_of};
ghost use Rattle.sloth_inspect.specs.States.{running_number_in};
ghost use Rattle.debug_view.specs.Looks.{named};
ghost use Rattle.debug_view.specs.Registers.{csr_number, executed_csr, machine_register, is_live, thread_register, shown_byte};
ghost use Rattle.debug_view.specs.Contexts.{loaded_word, is_word, is_link, word_or_zero, chain_context, whole, task_context, kept_register};

use rv32_instr::{ILEVEL, MEPC, MSCRATCH, MSTATUS, PLEVEL};
use rv32_machine::{Bus, Machine, SlothBus};
use sloth_base::{CONTROLLER_BASE, MEMORY_BASE, TASK_LIMIT, VECTORS_BASE, Width};
use sloth_inspect::running;
use sloth_region::{BELOW_WORD, CONTEXT_BELOW, CONTEXT_BYTES, CONTEXT_CUR, RESUME_WORDS, active};

/// The number of a task and 1 more, or 0 where there are not so many.
pub fn named(tasks: u32, number: u32) -> u32
    ensures is { result ≡ named tasks number }
    ensures few { result ≤ tasks }
{
    if number <= tasks { number } else { 0 }
}

/// The number of the running task and 1 more, as it stands in memory.
pub fn running_number(machine: &mut Machine<SlothBus>) -> u32
    ensures number { result ≡ running_number_in (memory_of (state (λ bus. bus) machine.old).core) }
    ensures same { machine.new ≡ machine.old }
{
    running(machine.bus_mut())
}

fn csr_number(number: u32) -> u16
    ensures { result ≡ csr_number number }
{
    match number {
        33 => MSTATUS,
        34 => MSCRATCH,
        35 => MEPC,
        36 => ILEVEL,
        _ => PLEVEL,
    }
}

fn own_csr(machine: &Machine<SlothBus>, number: u32) -> u32
    ensures { result ≡ executed_csr (state (λ bus. bus) machine.now).core number }
{
    machine.csr(csr_number(number)).unwrap_or(0)
}

fn csr(machine: &mut Machine<SlothBus>, number: u32) -> u32
    ensures csr { result ≡ executed_csr (execution_state (state (λ bus. bus) machine.old)).core number }
    ensures same { machine.new ≡ machine.old }
{
    match machine.line_to_take() {
        Some(line) => match number {
            33 => u32::from(machine.enabled()) * 128,
            34 => own_csr(machine, number),
            35 => machine.pc(),
            36 => u32::from(machine.bus_mut().level_of(line)),
            _ => u32::from(machine.level()),
        },
        None => own_csr(machine, number),
    }
}

/// A register of the count.
pub fn machine_register(machine: &mut Machine<SlothBus>, number: u32) -> u32
    ensures register { result ≡ machine_register (state (λ bus. bus) machine.old) number }
    ensures same { machine.new ≡ machine.old }
{
    if number < 32 {
        machine.registers()[number as usize]
    } else if number == 32 {
        machine.next_pc()
    } else {
        csr(machine, number)
    }
}

fn is_live(machine: &mut Machine<SlothBus>, tasks: u32, began: Option<u32>, thread: u32) -> bool
    requires { tasks ≤ task_limit }
    ensures live { result ≡ is_live tasks began (state (λ bus. bus) machine.old) thread }
    ensures same { machine.new ≡ machine.old }
{
    let number = running_number(machine);
    thread == 1
        || named(tasks, number) + 1 == thread
        || named(tasks, began.unwrap_or(number)) + 1 == thread
}

/// A register of a thread of so many tasks, where it is known.
pub fn thread_register(
    machine: &mut Machine<SlothBus>,
    tasks: u32,
    began: Option<u32>,
    thread: u32,
    number: u32,
) -> Option<u32>
    requires { tasks ≤ task_limit }
    ensures register { result ≡ thread_register tasks began (state (λ bus. bus) machine.old) thread number }
    ensures same { machine.new ≡ machine.old }
{
    if is_live(machine, tasks, began, thread) {
        return Some(machine_register(machine, number));
    }
    kept_register(machine.bus_mut(), tasks, thread.saturating_sub(2), number)
}

/// The byte at an address at the count.
pub fn shown_byte(machine: &mut Machine<SlothBus>, address: u32) -> Option<u8>
    ensures byte { result ≡ shown_byte (state (λ bus. bus) machine.old) address }
    ensures same { machine.new ≡ machine.old }
{
    match machine.line_to_take() {
        Some(line) if CONTROLLER_BASE + u32::from(line.0) == address => Some(0),
        _ => match machine.bus_mut().load(address, Width::ByteU) {
            Ok(byte) => Some(byte as u8),
            Err(_) => None,
        },
    }
}

// The last word of a context.
const LAST_WORD: u32 = CONTEXT_BYTES as u32 - 4;

fn loaded_word(bus: &mut SlothBus, address: u32) -> Option<u32>
    ensures word { result ≡ loaded_word bus.old address }
    ensures same { bus.new ≡ bus.old }
{
    bus.load(address, Width::Word).ok()
}

fn is_word(bus: &mut SlothBus, address: u32) -> bool
    ensures is { result ≡ is_word bus.old address }
    ensures same { bus.new ≡ bus.old }
{
    loaded_word(bus, address).is_some()
}

fn is_link(bus: &mut SlothBus, address: u32) -> bool
    ensures is { result ≡ is_link bus.old address }
    ensures same { bus.new ≡ bus.old }
{
    is_word(bus, address) && is_word(bus, address.wrapping_add(CONTEXT_BELOW as u32))
}

fn word_or_zero(bus: &mut SlothBus, address: u32) -> u32
    ensures word { result ≡ word_or_zero bus.old address }
    ensures same { bus.new ≡ bus.old }
{
    loaded_word(bus, address).unwrap_or(0)
}

fn chain_context(bus: &mut SlothBus, links: u32, first: u32, task: u32) -> Option<u32>
    requires { task < 4294967295 }
    ensures link { result ≡ chain_context bus.old links first task }
    ensures same { bus.new ≡ bus.old }
{
    let mut address = first;
    let mut left = links;
    while left > 0 && is_link(bus, address) {
        left -= 1;
        if word_or_zero(bus, address.wrapping_add(CONTEXT_CUR as u32)) == task + 1 {
            return Some(address);
        }
        address = word_or_zero(bus, address.wrapping_add(CONTEXT_BELOW as u32));
    }
    None
}

fn whole(bus: &mut SlothBus, address: u32) -> Option<u32>
    ensures whole { result ≡ whole bus.old address }
    ensures same { bus.new ≡ bus.old }
{
    if is_word(bus, address) && is_word(bus, address.wrapping_add(LAST_WORD)) {
        Some(address)
    } else {
        None
    }
}

// Where a task's registers stand, if they do: an Active one's in the chain below what runs, which has a link for each
// task and one for the idle loop; another's where it goes on from a wait.
fn task_context(bus: &mut SlothBus, tasks: u32, task: u32) -> Option<u32>
    requires task { task < task_limit }
    requires tasks { tasks ≤ task_limit }
    ensures context { result ≡ task_context bus.old tasks task }
    ensures same { bus.new ≡ bus.old }
{
    if word_or_zero(bus, MEMORY_BASE + active(task as u8) as u32) == 1 {
        let first = word_or_zero(bus, MEMORY_BASE + BELOW_WORD as u32);
        let address = chain_context(bus, tasks + 1, first, task)?;
        return whole(bus, address);
    }
    let address = word_or_zero(bus, MEMORY_BASE + RESUME_WORDS as u32 + 4 * task);
    if address == 0 {
        None
    } else {
        whole(bus, address)
    }
}

/// A register of a task that does not run, where it is known.
pub fn kept_register(bus: &mut SlothBus, tasks: u32, task: u32, number: u32) -> Option<u32>
    requires { tasks ≤ task_limit }
    ensures register { result ≡ kept_register bus.old tasks task number }
    ensures same { bus.new ≡ bus.old }
{
    if task >= TASK_LIMIT as u32 {
        return None;
    }
    match task_context(bus, tasks, task) {
        Some(context) => match number {
            0 => Some(0),
            2 => Some(context.wrapping_add(CONTEXT_BYTES as u32)),
            5..=31 => loaded_word(bus, context.wrapping_add(4 * number)),
            32 => loaded_word(bus, context),
            _ => None,
        },
        None => match number {
            0 => Some(0),
            32 => Some(VECTORS_BASE + 4 * task),
            _ => None,
        },
    }
}
