//! What the instruction of a count is. What decides where a way through a run ends.
ghost use Rattle.std.specs.Prelude.{◌≡◌, ◌≤◌};
ghost use Rattle.sloth_base.specs.Arithmetic.{size_of};
ghost use Rattle.rv32_machine.specs.State.{state};
ghost use Rattle.debug_view.specs.Looks.{fetched_instr, instr_effect, effect_of, change_keeps_open};
ghost use Rattle.debug_view.specs.Looks.{effect_access, is_plain, machine_look};
ghost use Rattle.sloth_base.specs.Limits.{task_limit};

use crate::registers::{named, running_number};
use debug_ways::{Access, Look};
use rv32_instr::{Change, Effect, Instr, MSTATUS};
use rv32_machine::effect::effect;
use rv32_machine::{Bus, Machine, SlothBus};
use sloth_base::Width;

fn fetched_instr(bus: &mut SlothBus, address: u32) -> Option<Instr>
    ensures instr { result ≡ fetched_instr bus.old address }
    ensures same { bus.new ≡ bus.old }
{
    match bus.fetch(address) {
        Ok(instr) => instr,
        Err(_) => None,
    }
}

fn instr_effect(instr: &Option<Instr>, pc: u32, registers: &[u32; 32]) -> Option<Effect>
    ensures { result ≡ instr_effect instr.now pc registers.now }
{
    match instr {
        Some(instr) => Some(effect(instr.kind(), pc, registers)),
        None => None,
    }
}

/// What the instruction of the machine's count does, if its word is one's.
pub fn next_effect(machine: &mut Machine<SlothBus>) -> Option<Effect>
    ensures effect { result ≡ effect_of (state (λ bus. bus) machine.old) }
    ensures same { machine.new ≡ machine.old }
{
    let pc = machine.next_pc();
    let instr = fetched_instr(machine.bus_mut(), pc);
    instr_effect(&instr, pc, machine.registers())
}

fn change_keeps_open(change: Change) -> bool
    ensures { result ≡ change_keeps_open change }
{
    match change {
        Change::Keep => true,
        Change::Replace(value) => value / 8 % 2 == 1,
        Change::Set(_) => true,
        Change::Clear(bits) => bits / 8 % 2 == 0,
    }
}

fn width_bytes(width: Width) -> u32
    ensures { result ≡ size_of width }
{
    match width {
        Width::Byte | Width::ByteU => 1,
        Width::Half | Width::HalfU => 2,
        Width::Word => 4,
    }
}

/// The load or store that an effect is.
pub fn effect_access(effect: &Option<Effect>) -> Option<Access>
    ensures { result ≡ effect_access effect.now }
{
    match effect {
        Some(Effect::Load { width, address, .. }) => Some(Access {
            address: *address,
            length: width_bytes(*width),
            stores: false,
        }),
        Some(Effect::Store { width, address, .. }) => Some(Access {
            address: *address,
            length: width_bytes(*width),
            stores: true,
        }),
        _ => None,
    }
}

/// Whether the instruction of this effect is in no stretch.
pub fn is_plain(machine: &Machine<SlothBus>, effect: &Option<Effect>) -> bool
    requires { effect.now ≡ effect_of (state (λ bus. bus) machine.now) }
    ensures { result ≡ is_plain (state (λ bus. bus) machine.now) }
{
    if !machine.enabled() || machine.line_to_take().is_some() {
        return false;
    }
    match effect {
        Some(Effect::Csr { csr, change, .. }) if *csr == MSTATUS => change_keeps_open(*change),
        Some(Effect::Return) => machine.enabled_behind_return(),
        _ => true,
    }
}

/// What is looked at of a machine of so many tasks, with what is carried along.
pub fn machine_look(
    machine: &mut Machine<SlothBus>,
    tasks: u32,
    began: Option<u32>,
    open_count: Option<u32>,
) -> Look
    requires { tasks ≤ task_limit }
    ensures look { result ≡ machine_look tasks began open_count (state (λ bus. bus) machine.old) }
    ensures same { machine.new ≡ machine.old }
{
    let number = running_number(machine);
    let running = named(tasks, began.unwrap_or(number)) as u8;
    let effect = next_effect(machine);
    let plain = is_plain(machine, &effect);
    Look {
        pc: machine.next_pc(),
        running,
        masked: !plain,
        serves: machine.enabled() && machine.line_to_take().is_none() && !plain,
        access: effect_access(&effect),
        open_count,
    }
}
