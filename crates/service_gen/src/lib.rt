//! The code of the operating system services (OSEK OS 2.2.3, section 13), and of the ticks of counters.
//!
//! Of each of the sixteen services: its block at its place with its marks, and with the effect that one table says
//! (`block`, `specs/Calls`, which also says with which objects a service is called). From an opening mark, with any
//! arrivals: the effect within 160 instructions, and the length, a file of `specs/` for each: services on tasks and
//! resources (`task_block`, `specs/TaskBlock`), on events (`event_block`, `specs/EventBlock`), on alarms
//! (`alarm_block`, `specs/AlarmBlock`); there the tick of a counter too, from the taking of its line
//! (`alarm_block::tick`). What all blocks share: `block_parts` (`ServiceBlock`); leaving: `masked_code` (`Kernel`).
#![tactic(auto)]

ghost use Rattle.std.specs.Prelude.{IfOk, length, ◌≡◌, ◌∷◌};
ghost use Rattle.sloth_base.specs.ConfigRange.{InRange};
ghost use Rattle.sloth_base.specs.ServiceCodes.{code_of};
ghost use Rattle.code_lengths.specs.CodeLengths.{service_length};
ghost use Rattle.block_parts.specs.Marks.{opening};
ghost use Rattle.block_parts.specs.ServiceBlock.{IsServiceBlock};
ghost use Rattle.service_gen.specs.TaskBlock.{further_marks};
ghost use Rattle.service_gen.specs.Calls.{IsCalledWith, IsAnyServiceBlock};

mod alarm_block;
mod event_block;
mod task_block;
pub mod tick_code;

use crate::event_block::{clear_event, get_event, set_event, wait_event};
use crate::task_block::{
    WAY_BACK, activate_task, chain_task, get_resource, get_task_id, get_task_state,
    release_resource, schedule, terminate_task,
};
pub use alarm_block::tick;
use block_parts::{back_mark, opening};
use rv32_instr::{Block, Instr};
use sloth_base::{Config, Levels, List, Mark, Result, Service, block_number};
use sloth_region::Map;
use std::alloc::{AllocError, Global};

/// The code of a block.
type Code = Result<Vec<Instr>, AllocError>;

/// What adding instructions to it answers.
type Added = Result<(), AllocError>;

/// The block of a service with its object, at its address in the map. Its first instruction, under an opening mark,
/// masks interrupts. `NoMemory` where memory is wanting, and no other error.
pub fn block(
    alloc: Global,
    service: Service,
    object: u32,
    config: &Config,
    levels: &Levels,
    map: &Map,
) -> Result<Block>
    requires called { IsCalledWith config.now service object }
    requires range { InRange config.now }
    ensures block { IfOk result (IsServiceBlock service object map.now.places.blocks (further_marks service)) }
    ensures serves { IfOk result (λ block. IsAnyServiceBlock config.now service object levels.now block.code) }
{
    let number = block_number(service, object);
    let at = map.places.blocks.get(number).copied().unwrap_or(0);
    let code = code(alloc, service, object, config, levels)?;
    let marks = marks(alloc, service, at)?;
    Ok(Block {
        at,
        code: List::from_vec(code),
        marks: List::from_vec(marks),
    })
}

/// The opening mark of a block at this address, and behind Schedule's the mark of the way back.
fn marks(alloc: Global, service: Service, at: u32) -> Result<Vec<Mark>, AllocError>
    ensures { IfOk result (λ marks. marks.items ≡ opening at (code_of service) ∷ further_marks service at) }
{
    let mut marks = Vec::new(alloc);
    marks.push(opening(at, service))?;
    if let Service::Schedule = service {
        marks.push(back_mark(at.wrapping_add(WAY_BACK)))?;
    }
    Ok(marks)
}

fn code(alloc: Global, service: Service, object: u32, config: &Config, levels: &Levels) -> Code
    requires called { IsCalledWith config.now service object }
    requires range { InRange config.now }
    ensures long { IfOk result (λ code. length code.items ≡ service_length service) }
    ensures serves { IfOk result (λ code. IsAnyServiceBlock config.now service object levels.now code.items) }
{
    match service {
        Service::ActivateTask => activate_task(alloc, object as u8),
        Service::TerminateTask => terminate_task(alloc),
        Service::ChainTask => chain_task(alloc, object as u8),
        Service::Schedule => schedule(alloc),
        Service::GetTaskID => get_task_id(alloc),
        Service::GetTaskState => get_task_state(alloc, object as u8),
        Service::GetResource => {
            get_resource(alloc, object as u8, levels.ceiling[object as usize])
        }
        Service::ReleaseResource => release_resource(alloc, object as u8),
        Service::SetEvent => set_event(alloc, object as u8),
        Service::ClearEvent => clear_event(alloc),
        Service::GetEvent => get_event(alloc, object as u8),
        Service::WaitEvent => wait_event(alloc),
        Service::SetRelAlarm | Service::SetAbsAlarm | Service::CancelAlarm | Service::GetAlarm =>
            alarm_block::code(alloc, service, object, config),
    }
}
