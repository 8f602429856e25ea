//! The limits of configurations, task code, images, files and runs. `specs/Limits.antt` has them under the same names.
//! What the builder computes before it generates code.
ghost use Rattle.std.specs.Prelude.{◌≡◌, ◌<◌};
ghost use Rattle.sloth_base.specs.Blocks.{block_count, block_number, block_service, block_object};

use crate::{List, Service};

/// How many TASK objects a configuration may have. Each has the interrupt line of its number; the counters' are behind.
pub const TASK_LIMIT: usize = 30;

/// How many RESOURCE objects, without RES_SCHEDULER.
pub const RESOURCE_LIMIT: usize = 32;

/// The ceilings of so many resources, and that of RES_SCHEDULER.
pub const CEILING_COUNT: usize = 33;

/// How many EVENT objects: a mask has 32 bits.
pub const EVENT_LIMIT: usize = 32;

/// How many COUNTER objects: there are two lines behind those of the tasks.
pub const COUNTER_LIMIT: usize = 2;

/// How many ALARM objects: the service words have room for so many.
pub const ALARM_LIMIT: usize = 32;

/// The greatest static priority.
pub const PRIORITY_LIMIT: u32 = 65_535;

/// The greatest value of a counter (OSEK OS 2.2.3, section 9: a TickType, here of 31 bits).
pub const TICK_LIMIT: u32 = 2_147_483_647;

/// How many bytes a name may have.
pub const NAME_LIMIT: usize = 64;

/// How many bodies task code may have.
pub const BODY_LIMIT: usize = 64;

/// How many items all bodies may have.
pub const ITEM_LIMIT: usize = 4096;

/// How many words a frame may have.
pub const FRAME_LIMIT: usize = 32;

/// How many symbols task code may have.
pub const SYMBOL_LIMIT: usize = 256;

/// How many bytes all symbols may have.
pub const DATA_LIMIT: usize = 32_768;

/// The greatest mask of an indexed access: the data has no more bytes.
pub const MASK_LIMIT: u32 = 32_767;

/// The greatest number of an operand that counts: a size, a place in a symbol, a mask, a word of the frame.
pub const OPERAND_LIMIT: i64 = 65_535;

/// How many marks an image may have.
pub const MARK_LIMIT: usize = 16_384;

/// How many bytes a file may have that is read.
pub const FILE_LIMIT: usize = 4_194_304;

/// How many arrivals an arrivals file may have.
pub const ARRIVAL_LIMIT: usize = 100_000;

/// How many instructions a run may have, and the last moment of an arrival.
pub const COUNT_LIMIT: u32 = 1_000_000;

/// Sizes of critical sections are counted up to here; a bound tells those below.
pub const SIZE_LIMIT: u32 = 1_000_001;

/// How many counts a picture of a schedule may show.
pub const PICTURE_LIMIT: u32 = 100_000;

/// The most instructions of a stretch that keeps interrupts masked behind boot, without those for alarms.
pub const STRETCH_INSTRUCTIONS: u32 = 160;

/// The most instructions that a tick needs for each alarm of its counter.
pub const ALARM_INSTRUCTIONS: u32 = 40;

/// The most instructions of boot.
pub const BOOT_INSTRUCTIONS: u32 = 400;

/// The most counts of an item: those that show no event, and a stretch behind them.
pub const ITEM_COUNTS: u32 = 200;

/// The places that a service has in the table of the services' code, one for each object.
pub const BLOCK_OBJECTS: u32 = 40;

/// The places of that table.
pub const BLOCK_COUNT: usize = 640;

/// The levels of the tasks, of the resources' ceilings and of RES_SCHEDULER (the last entry of `ceiling`).
#[derive(Clone, Copy)]
pub struct Levels {
    pub task: [u8; TASK_LIMIT],
    pub ceiling: [u8; CEILING_COUNT],
    /// The number of tasks, which is the highest task's level.
    pub top: u8,
}

/// The bytes of stack that each task may need.
#[derive(Drop)]
pub struct Bounds {
    pub bytes: List<u32>,
    pub shared: u32,
}

/// Addresses of items, symbols and service blocks.
#[derive(Drop)]
pub struct Places {
    /// The address of each item's first word, over all bodies in order.
    pub items: List<u32>,
    /// The place in `items` of each function's first item.
    pub first: List<u32>,
    pub symbols: List<u32>,
    /// The address of each service block, at its place.
    pub blocks: [u32; BLOCK_COUNT],
}

/// The place of a service with its object.
pub fn block_number(service: Service, object: u32) -> usize
    ensures { result ≡ block_number service object }
{
    usize::from(service.code()) * BLOCK_OBJECTS as usize + object as usize
}

/// The service of a place.
pub fn block_service(number: usize) -> Option<Service>
    requires { number < block_count }
    ensures { result ≡ block_service number }
{
    Service::from_code((number as u32 / BLOCK_OBJECTS) as u8)
}

/// The object of a place.
pub fn block_object(number: usize) -> u32
    requires { number < block_count }
    ensures { result ≡ block_object number }
{
    number as u32 % BLOCK_OBJECTS
}
