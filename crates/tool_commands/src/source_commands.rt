//! The commands that tell what two texts mean: `bounds` alone and with `latency` or `counts`, `map`, `shares`, `unused`,
//! `losses`, `orti`.
ghost use Rattle.std.specs.Prelude.{◌≤◌, IfOk, length};
ghost use Rattle.sloth_base.specs.Limits.{count_limit, file_limit};
ghost use Rattle.tool_commands.specs.BoundsAnswers.{IsBoundsAnswer, IsLatencyAnswer, IsLowerCountsAnswer};
ghost use Rattle.tool_commands.specs.LossesAnswers.{IsLossesAnswer};
ghost use Rattle.tool_commands.specs.MapAnswers.{IsMapAnswer};
ghost use Rattle.tool_commands.specs.SharesAnswers.{IsSharesAnswer};
ghost use Rattle.tool_commands.specs.UnusedAnswers.{IsUnusedAnswer};
ghost use Rattle.tool_commands.specs.OrtiAnswers.{IsOrtiAnswer};

use crate::elf_commands::written;
use bounds_text::{bounds_text, latency_lines, lower_count_lines};
use command_line::{ToolAnswer, told};
use losses_text::losses_text;
use map_text::map_text;
use orti_text::orti_text;
use shares_text::{shares_text, unused_text};
use sloth_base::{BuildError, NoMemory, Result};
use std::alloc::Global;

/// How much work of lower tasks may stand between each task's becoming Ready and its entry; or the first refusal.
pub fn bounds(alloc: Global, oil: &[u8], src: &[u8]) -> Result<ToolAnswer>
    requires oil { length oil.now ≤ file_limit }
    requires src { length src.now ≤ file_limit }
    ensures { IfOk result (λ answer. IsBoundsAnswer oil.now src.now answer) }
{
    answer!(bounds_text(alloc, oil, src), text => Ok(told(alloc, text)))
}

/// The same, and how long the task of highest priority may wait for its entry; or the first refusal.
pub fn latency(alloc: Global, oil: &[u8], src: &[u8]) -> Result<ToolAnswer>
    requires oil { length oil.now ≤ file_limit }
    requires src { length src.now ≤ file_limit }
    ensures { IfOk result (λ answer. IsLatencyAnswer oil.now src.now answer) }
{
    answer!(latency_lines(alloc, oil, src), text => Ok(told(alloc, text)))
}

/// How many counts of lower tasks may stand between each task's becoming Ready and its entry; or the first refusal.
pub fn lower_counts(alloc: Global, oil: &[u8], src: &[u8]) -> Result<ToolAnswer>
    requires oil { length oil.now ≤ file_limit }
    requires src { length src.now ≤ file_limit }
    ensures { IfOk result (λ answer. IsLowerCountsAnswer oil.now src.now answer) }
{
    answer!(lower_count_lines(alloc, oil, src), text => Ok(told(alloc, text)))
}

/// What the image of these texts takes of memory, and what its tasks need of the stacks; or the first refusal.
pub fn map(alloc: Global, oil: &[u8], src: &[u8]) -> Result<ToolAnswer>
    requires oil { length oil.now ≤ file_limit }
    requires src { length src.now ≤ file_limit }
    ensures { IfOk result (λ answer. IsMapAnswer oil.now src.now answer) }
{
    answer!(map_text(alloc, oil, src), text => Ok(told(alloc, text)))
}

/// Which data the tasks of these texts share, and what keeps their accesses apart; or the first refusal.
pub fn shares(alloc: Global, oil: &[u8], src: &[u8]) -> Result<ToolAnswer>
    requires oil { length oil.now ≤ file_limit }
    requires src { length src.now ≤ file_limit }
    ensures { IfOk result (λ answer. IsSharesAnswer oil.now src.now answer) }
{
    answer!(shares_text(alloc, oil, src), text => Ok(told(alloc, text)))
}

/// What nothing in these texts uses, and the tasks that nothing activates; or the first refusal.
pub fn unused(alloc: Global, oil: &[u8], src: &[u8]) -> Result<ToolAnswer>
    requires oil { length oil.now ≤ file_limit }
    requires src { length src.now ≤ file_limit }
    ensures { IfOk result (λ answer. IsUnusedAnswer oil.now src.now answer) }
{
    answer!(unused_text(alloc, oil, src), text => Ok(told(alloc, text)))
}

/// What n instructions of a run of these texts ask of tasks and counters, and what of it is lost; or the first refusal.
pub fn losses(alloc: Global, oil: &[u8], src: &[u8], arr: &[u8], n: u32) -> Result<ToolAnswer>
    requires oil { length oil.now ≤ file_limit }
    requires src { length src.now ≤ file_limit }
    requires arr { length arr.now ≤ file_limit }
    requires n { n ≤ count_limit }
    ensures { IfOk result (λ answer. IsLossesAnswer oil.now src.now arr.now n answer) }
{
    answer!(losses_text(alloc, oil, src, arr, n), text => Ok(told(alloc, text)))
}

/// The file by which debuggers find the objects of the kernel of these texts; or the first refusal.
pub fn orti(alloc: Global, oil: &[u8], src: &[u8]) -> Result<ToolAnswer>
    requires oil { length oil.now ≤ file_limit }
    requires src { length src.now ≤ file_limit }
    ensures { IfOk result (λ answer. IsOrtiAnswer oil.now src.now answer) }
{
    answer!(orti_text(alloc, oil, src), file => Ok(ToolAnswer::Done(written(alloc, file)?)))
}
