//! Regions of addresses, the controller, the buses and the machine over an image's memory.
ghost use Rattle.std.specs.Prelude.{◌≤◌, ◌<◌, ◌+◌};
ghost use Rattle.sloth_base.specs.ImageRange.{InFormat};
ghost use Rattle.sloth_base.specs.Limits.{count_limit};

use crate::rows::Piece::{Address, Flag, Number};
use crate::rows::{Rows, Told};
use irq_ctrl::Controller;
use rv32_machine::{Bus, FlatBus, Machine, SlothBus, Stop};
use sloth_base::{Image, Line, Step, Width};
use sloth_region::Region;

/// The numbers in front of a line, in hexadecimal digits; 99 of other words, and behind the last.
pub fn hex_words(line: &str) -> [u32; 5] {
    let mut numbers = [99; 5];
    for (place, word) in line.split(' ').enumerate() {
        if place < 5 {
            numbers[place] = u32::from_str_radix(word, 16).unwrap_or(99);
        }
    }
    numbers
}

/// Which of the pieces with these lengths and alignments, a line each, are placed in a region of this address and
/// length, and its extents then.
pub fn list_region(rows: &mut Rows, words: &str, lines: &str) {
    let numbers = hex_words(words);
    let (base, len) = (numbers[0], numbers[1]);
    if base.checked_add(len).is_none() {
        return;
    }
    let mut region = Region::new(base, len);
    for line in lines.lines() {
        let numbers = hex_words(line);
        let (len, align) = (numbers[0], numbers[1]);
        if len == 0 || region.extents().len() >= 90 {
            return;
        }
        let placed = region.place(len, if align == 16 { 16 } else { 4 }).is_ok();
        form!(rows; "placed %\n"; Flag(placed));
    }
    for extent in region.extents() {
        form!(rows; "extent % %\n"; Address(extent.base); extent.len);
    }
}

// The number of a line, 32 for none.
fn number(line: Option<Line>) -> u8 {
    match line {
        Some(line) => line.0,
        None => 32,
    }
}

/// A line that is enabled at level 2, arrives, is chosen and is taken.
pub fn list_controller(rows: &mut Rows) {
    let mut lines = Controller::new();
    lines.store(35, 1);
    lines.store(67, 2);
    lines.arrive(Line(3));
    form!(rows; "line % pending %\n"; ; number(lines.choose(1)), lines.load(3));
    lines.take(Line(3));
    form!(rows; "line % pending %\n"; ; number(lines.choose(1)), lines.load(3))
}

// Whether a byte or word is stored.
fn is_stored<B: Bus>(bus: &mut B, address: u32, width: Width, value: u32) -> bool {
    bus.store(address, width, value).is_ok()
}

/// A word of a memory without a controller that is stored and loaded again.
pub fn list_word(rows: &mut Rows, image: &Image) -> Told
    requires { InFormat image.now }
{
    let mut memory = FlatBus::new(rows.alloc, image)?;
    let stored = is_stored(&mut memory, 0x8000_0000, Width::Word, 42);
    let loaded = memory.load(0x8000_0000, Width::Word).unwrap_or(0);
    form!(rows; "stored % loaded %\n"; Flag(stored); loaded);
    Ok(())
}

// The line that a bus chooses at which line 1 arrives, once the line is enabled at level 2, and none behind its taking.
fn list_choices(rows: &mut Rows, bus: &mut SlothBus) {
    bus.arrive(Line(1));
    let enabled = is_stored(bus, 0x1000_0021, Width::Byte, 1);
    let leveled = is_stored(bus, 0x1000_0041, Width::Byte, 2);
    form!(rows; "enabled % %\n"; Flag(enabled), Flag(leveled));
    form!(rows; "chosen %\n"; ; number(bus.choose(1)));
    bus.take(Line(1));
    form!(rows; "chosen %\n"; ; number(bus.choose(1)))
}

// The first step of a machine, and where the next one is behind an arrival.
fn list_first_step(rows: &mut Rows, machine: &mut Machine<SlothBus>)
    requires { machine.old.count < count_limit }
{
    match machine.step() {
        Ok(step) => form!(rows; "step % at %\n"; Number(step.count as i64), Address(step.pc)),
        Err(_) => rows.text("stopped\n"),
    }
    machine.bus_mut().arrive(Line(1));
    form!(rows; "next %\n"; Address(machine.next_pc()))
}

fn list_stop(rows: &mut Rows, stop: Stop) {
    form_value!(rows, stop;
        Stop::Fetch(pc) => "Fetch(%)\n" [] pc;
        Stop::Illegal(word) => "Illegal(%)\n" [] word;
        Stop::Environment => "Environment\n" [];
        Stop::Misaligned(address) => "Misaligned(%)\n" [] address;
        Stop::Access(address) => "Access(%)\n" [] address;
    )
}

// What the second of two instructions does.
fn second_step<B: Bus + Drop>(bus: B, first: u32, second: u32) -> Result<Step, Stop> {
    let mut bus = bus;
    let _ = is_stored(&mut bus, 0x8000_0480, Width::Word, first);
    let _ = is_stored(&mut bus, 0x8000_0484, Width::Word, second);
    let mut machine = Machine::new(bus);
    if let Err(stop) = machine.step() {
        return Err(stop);
    }
    machine.step()
}

// How the second of two instructions stops, or which line it touches: over a memory without a controller, or with one.
fn list_pair(rows: &mut Rows, flat: bool, image: &Image, line: &str) -> Told
    requires { InFormat image.now }
{
    let numbers = hex_words(line);
    let (first, second) = (numbers[0], numbers[1]);
    let step = if flat {
        second_step(FlatBus::new(rows.alloc, image)?, first, second)
    } else {
        second_step(SlothBus::new(rows.alloc, image)?, first, second)
    };
    match step {
        Ok(step) => form!(rows; "touches %\n"; ; number(step.touched)),
        Err(stop) => list_stop(rows, stop),
    }
    Ok(())
}

/// The same of the two words in front of each line.
pub fn list_pairs(rows: &mut Rows, flat: bool, image: &Image, lines: &str) -> Told
    requires { InFormat image.now }
{
    for line in lines.lines() {
        list_pair(rows, flat, image, line)?;
    }
    Ok(())
}

// How a step stops, or that it does not.
fn list_next(rows: &mut Rows, machine: &mut Machine<SlothBus>)
    requires { machine.old.count < count_limit }
    ensures { machine.new.count ≤ machine.old.count + 1 }
{
    match machine.step() {
        Ok(_) => rows.text("no stop\n"),
        Err(stop) => list_stop(rows, stop),
    }
}

// Three steps of a machine over that bus, at which line 3 arrives, once the line is enabled at level 2. The first
// instruction enables interrupts (csrrsi x0, mstatus, 8), and no code stands at the line's vector.
fn list_waiting(rows: &mut Rows, bus: SlothBus) {
    let mut bus = bus;
    let _ = is_stored(&mut bus, 0x1000_0023, Width::Byte, 1);
    let _ = is_stored(&mut bus, 0x1000_0043, Width::Byte, 2);
    let _ = is_stored(&mut bus, 0x8000_0480, Width::Word, 0x3004_6073);
    let mut machine = Machine::new(bus);
    machine.arrive(Line(3));
    list_next(rows, &mut machine);
    list_next(rows, &mut machine);
    form!(rows; "next %\n"; Address(machine.next_pc()));
    list_next(rows, &mut machine)
}

/// The choices of a bus (`chosen`), the first `step` of a machine over it, or its steps to a vector (`vector`).
pub fn list_machine(rows: &mut Rows, asked: &str, image: &Image) -> Told
    requires { InFormat image.now }
{
    let mut bus = SlothBus::new(rows.alloc, image)?;
    match asked {
        "chosen" => list_choices(rows, &mut bus),
        "step" => list_first_step(rows, &mut Machine::new(bus)),
        _ => list_waiting(rows, bus),
    }
    Ok(())
}
