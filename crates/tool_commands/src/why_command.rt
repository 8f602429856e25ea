//! The commands that tell why: `why`, of the lists of labels, of one task's bound, of a text of events; and `infer`.
ghost use Rattle.std.specs.Prelude.{◌≤◌, IfOk, length};
ghost use Rattle.sloth_base.specs.Limits.{file_limit};
ghost use Rattle.why_text.specs.WhyLines.{IsWhy};
ghost use Rattle.why_text.specs.declared.explaining.Why.TheVariants as why_is;
ghost use Rattle.tool_commands.specs.WhyAnswers.{IsExplained, IsWhyAnswer, IsTaskBoundAnswer};
ghost use Rattle.sloth_base.specs.declared.refusal.Refusal.{Refusal as AnyRefusal};
ghost use Rattle.sloth_source.specs.RankedTexts.{EarlyRefusal};
ghost use Rattle.tool_commands.specs.LabelsAnswers.{IsLabelsAnswer};
ghost use Rattle.tool_commands.specs.InferAnswers.{IsInferAnswer};
ghost use Rattle.tool_commands.specs.TraceReasons.{IsTraceReasonAnswer};

use crate::elf_commands::written;
use bounds_text::task_bound_text;
use command_line::{Explanation, Outcome, ToolAnswer, refusal_line, told};
use holds_infer::{FillError, LabelAnswer, fill_source, labels_text};
use sloth_base::{BuildError, List, NoMemory, Refusal, Result};
use std::alloc::Global;
use trace_check::{TraceReason, explain_trace};
use why_text::{Why, explain};

// The line of a refusal, and the lines behind it.
fn explained(
    alloc: Global,
    oil: &[u8],
    src: &[u8],
    refusal: Refusal,
    lines: &[u8],
) -> Result<List<u8>>
    requires { IsWhy oil.now src.now (why_is.Refused refusal lines.now) }
    ensures { IfOk result (IsExplained oil.now src.now) }
{
    let line = refusal_line(refusal);
    let mut text = Vec::from_slice(alloc, line.bytes())?;
    text.extend_from_slice(lines)?;
    Ok(List::from_vec(text))
}

/// That these texts are accepted, or their first refusal and what stands behind it.
pub fn why(alloc: Global, oil: &[u8], src: &[u8]) -> Result<ToolAnswer>
    requires oil { length oil.now ≤ file_limit }
    requires src { length src.now ≤ file_limit }
    ensures { IfOk result (λ answer. IsWhyAnswer oil.now src.now answer) }
{
    match explain(alloc, oil, src)? {
        Why::Accepted => Ok(told(alloc, Vec::from_slice(alloc, b"accepted\n")?)),
        Why::Refused { refusal, lines } => {
            let text = explained(alloc, oil, src, refusal, lines.items())?;
            Ok(ToolAnswer::Explained {
                kind: Explanation::Refusal,
                text,
            })
        },
    }
}

/// Of one task its bound and of what that is made, or the first refusal; or that no task has the name.
pub fn task_bound(alloc: Global, oil: &[u8], src: &[u8], name: &[u8]) -> Result<ToolAnswer>
    requires oil { length oil.now ≤ file_limit }
    requires src { length src.now ≤ file_limit }
    ensures { IfOk result (λ answer. IsTaskBoundAnswer oil.now src.now name.now answer) }
{
    match task_bound_text(alloc, oil, src, name) {
        Ok(Some(text)) => Ok(ToolAnswer::Done(Outcome {
            file: List::from_vec(Vec::new(alloc)),
            text,
        })),
        Ok(None) => Ok(ToolAnswer::NoTask),
        Err(BuildError::Refused(refusal)) => Ok(ToolAnswer::Refused(refusal)),
        Err(BuildError::Memory) => Err(NoMemory),
    }
}

// What stands behind a refusal before the rules of task code.
fn refused(alloc: Global, oil: &[u8], src: &[u8]) -> Result<ToolAnswer>
    requires oil { length oil.now ≤ file_limit }
    requires src { length src.now ≤ file_limit }
    requires early { (refusal : AnyRefusal) × EarlyRefusal oil.now src.now refusal }
    ensures { IfOk result (λ answer. IsLabelsAnswer oil.now src.now answer) }
{
    why(alloc, oil, src)
}

/// Whether lists of these texts' labels keep the rules, or why none do; or the first refusal, with what is behind it.
pub fn labels(alloc: Global, oil: &[u8], src: &[u8]) -> Result<ToolAnswer>
    requires oil { length oil.now ≤ file_limit }
    requires src { length src.now ≤ file_limit }
    ensures { IfOk result (λ answer. IsLabelsAnswer oil.now src.now answer) }
{
    match labels_text(alloc, oil, src)? {
        LabelAnswer::Filled => Ok(told(alloc, Vec::from_slice(alloc, b"filled\n")?)),
        LabelAnswer::NoLists(text) => Ok(ToolAnswer::Explained {
            kind: Explanation::NoHolds,
            text,
        }),
        LabelAnswer::Unjudged => refused(alloc, oil, src),
    }
}

/// The source with all labels' lists filled in; or that none keep every rule; or the first refusal before V2 to V12.
pub fn infer(alloc: Global, oil: &[u8], src: &[u8]) -> Result<ToolAnswer>
    requires oil { length oil.now ≤ file_limit }
    requires src { length src.now ≤ file_limit }
    ensures { IfOk result (λ answer. IsInferAnswer oil.now src.now answer) }
{
    let file = match fill_source(alloc, oil, src) {
        Ok(file) => file,
        Err(FillError::Refused(refusal)) => return Ok(ToolAnswer::Refused(refusal)),
        Err(FillError::NoHolds) => return Ok(ToolAnswer::NoHolds),
        Err(FillError::Memory) => return Err(NoMemory),
    };
    Ok(ToolAnswer::Done(written(alloc, file)?))
}

/// Whether events are a run's of n instructions, or where not and what fits there; or the other texts' first refusal.
pub fn trace_reason(
    alloc: Global,
    oil: &[u8],
    src: &[u8],
    arr: &[u8],
    text: &[u8],
    n: u32,
) -> Result<ToolAnswer>
    requires oil { length oil.now ≤ file_limit }
    requires src { length src.now ≤ file_limit }
    requires arr { length arr.now ≤ file_limit }
    requires text { length text.now ≤ file_limit }
    ensures { IfOk result (λ answer. IsTraceReasonAnswer oil.now src.now arr.now text.now n answer) }
{
    match explain_trace(alloc, oil, src, arr, text, n)? {
        TraceReason::Refused(refusal) => Ok(ToolAnswer::Refused(refusal)),
        TraceReason::Yes => Ok(told(alloc, Vec::from_slice(alloc, b"yes\n")?)),
        TraceReason::No(text) => Ok(ToolAnswer::Explained {
            kind: Explanation::BadTrace,
            text,
        }),
    }
}
