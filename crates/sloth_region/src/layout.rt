//! The offsets of `specs/Layout.antt` as numbers for instructions: service words, contexts, and the controller's bytes.
ghost use Rattle.std.specs.Prelude.{◌≡◌, ◌<◌, ◌≤◌, pos};
ghost use Rattle.sloth_base.specs.Limits.{task_limit, counter_limit, alarm_limit};
ghost use Rattle.sloth_base.specs.ConfigRange.{scheduler_number};
ghost use Rattle.sloth_base.specs.MemoryMap.{line_count};
ghost use Rattle.sloth_region.specs.Layout.{active, events, wait, counter_value, alarm_left, alarm_cycle, resume};
ghost use Rattle.sloth_region.specs.Layout.{saved_level, pending_byte, enabled_byte, level_byte};

use sloth_base::{ENABLED_OFFSET, LEVELS_OFFSET};

/// Bits 31 to 12 of the address of the service words.
pub const WORDS_HIGH: u32 = 0x8_0000;

/// The running task's number and 1 more, or 0.
pub const CUR: i32 = 0;

/// The address of the context of what runs below.
pub const BELOW_WORD: i32 = 628;

/// Where the addresses of the tasks' own contexts begin.
pub const RESUME_WORDS: i32 = 632;

/// The context of the idle loop.
pub const IDLE_CONTEXT: i32 = 884;

pub const CONTEXT_BYTES: i32 = 128;

/// The pc in a context.
pub const CONTEXT_PC: i32 = 0;

/// The level in a context.
pub const CONTEXT_LEVEL: i32 = 4;

/// The word `CUR` of what was preempted.
pub const CONTEXT_CUR: i32 = 8;

/// The word `BELOW_WORD` of what was preempted.
pub const CONTEXT_BELOW: i32 = 12;

/// Bits 31 to 12 of the address of the controller.
pub const CONTROLLER_HIGH: u32 = 0x1_0000;

/// Whether a task is Active.
pub fn active(task: u8) -> i32
    requires { task < task_limit }
    ensures { result ≡ pos (active task) }
{
    4 + 12 * task as i32
}

/// A task's events.
pub fn events(task: u8) -> i32
    requires { task < task_limit }
    ensures { result ≡ pos (events task) }
{
    8 + 12 * task as i32
}

/// The events that a task waits for.
pub fn wait(task: u8) -> i32
    requires { task < task_limit }
    ensures { result ≡ pos (wait task) }
{
    12 + 12 * task as i32
}

/// The value of a counter, 0 or 1: from 0 to the counter's greatest value.
pub fn counter_value(counter: u8) -> i32
    requires { counter < counter_limit }
    ensures { result ≡ pos (counter_value counter) }
{
    364 + 4 * counter as i32
}

/// The ticks that an alarm, 0 to 31, has left: 0 if it isn't in use, at most 1 more than its counter's greatest value.
pub fn alarm_left(alarm: u8) -> i32
    requires { alarm < alarm_limit }
    ensures { result ≡ pos (alarm_left alarm) }
{
    372 + 8 * alarm as i32
}

/// The cycle of an alarm, 0 to 31: in ticks, 0 where it expires once.
pub fn alarm_cycle(alarm: u8) -> i32
    requires { alarm < alarm_limit }
    ensures { result ≡ pos (alarm_cycle alarm) }
{
    376 + 8 * alarm as i32
}

/// Where the address of a task's own context stands.
pub fn resume(task: u32) -> i32
    requires { task < task_limit }
    ensures { result ≡ pos (resume task) }
{
    RESUME_WORDS + 4 * task as i32
}

/// The level at which a held resource was taken.
pub fn saved(resource: u8) -> i32
    requires { resource ≤ scheduler_number }
    ensures { result ≡ pos (saved_level resource) }
{
    752 + 4 * resource as i32
}

/// Whether a line is pending.
pub fn pending_byte(line: u8) -> i32
    requires { line < line_count }
    ensures { result ≡ pos (pending_byte line) }
{
    line as i32
}

/// Whether a line is enabled.
pub fn enabled_byte(line: u8) -> i32
    requires { line < line_count }
    ensures { result ≡ pos (enabled_byte line) }
{
    ENABLED_OFFSET as i32 + line as i32
}

/// The level of a line.
pub fn level_byte(line: u8) -> i32
    requires { line < line_count }
    ensures { result ≡ pos (level_byte line) }
{
    LEVELS_OFFSET as i32 + line as i32
}
