//! The answer of a tool. The lines of tools.
ghost use Rattle.std.specs.Prelude.{◌≡◌, ◌≤◌, ◌<◌, IfOk, All, length};
ghost use Rattle.sloth_base.specs.Limits.{file_limit};
ghost use Rattle.command_line.specs.Command.{words_of};
ghost use Rattle.command_line.specs.Tools.{input_count, file_count, counts_limit, AreCounts};
ghost use Rattle.tool_commands.specs.Answers.{IsAnswer, input};
ghost use Rattle.tool_commands.specs.Lines.{written_line};
ghost use Rattle.command_line.specs.Lines.{elf_fault_text, no_elf_line, bad_trace_line};

use crate::elf_commands::{elf, symbols, unelf};
use crate::response_command::{response, run_response, task_response};
use crate::run_commands::{at, at_all, picture, wave};
use crate::source_commands::{bounds, latency, losses, lower_counts, map, orti, shares, unused};
use crate::why_command::{infer, labels, task_bound, trace_reason, why};
use command_line::{Counts, Tool, ToolAnswer, TraceFault, number_of, window_of};
use image_file::ElfFault;
use itoa::Buffer;
use sloth_base::{List, Result};
use std::alloc::Global;
use trace_check::lines::check;
use trace_text::LineText;

// A name, by its place in the order of the words.
fn name(names: &[String], place: usize) -> &[u8]
    requires { place < length names.now }
    ensures { result.now ≡ input (words_of names.now) place }
{
    names[place].as_str().as_bytes()
}

// The bytes of a file, by its place in the order of the words; none where there is no such file.
fn bytes(inputs: &[List<u8>], place: usize) -> &[u8]
    ensures { result.now ≡ input inputs.now place }
{
    match inputs.get(place) {
        Some(file) => file.items(),
        None => b"",
    }
}

// The same, where all files are short.
fn file(inputs: &[List<u8>], place: usize) -> &[u8]
    requires { All (λ input. length input ≤ file_limit) inputs.now }
    ensures is { result.now ≡ input inputs.now place }
    ensures short { length result.now ≤ file_limit }
{
    bytes(inputs, place)
}

/// The answer of a tool with these counts, if it takes any, and these names to files of these bytes.
pub fn judge(
    alloc: Global,
    tool: Tool,
    counts: Option<Counts>,
    names: &[String],
    inputs: &[List<u8>],
) -> Result<ToolAnswer>
    requires named { length names.now ≡ input_count tool }
    requires counted { length inputs.now ≡ file_count tool }
    requires counts { AreCounts (counts_limit tool) counts }
    requires short { All (λ input. length input ≤ file_limit) inputs.now }
    ensures { IfOk result (λ answer. IsAnswer tool counts (words_of names.now) inputs.now answer) }
{
    let n = number_of(counts);
    let first = file(inputs, 0);
    let second = file(inputs, 1);
    let third = file(inputs, 2);
    let fourth = file(inputs, 3);
    match tool {
        Tool::Elf => elf(alloc, first),
        Tool::Unelf => unelf(alloc, first),
        Tool::Infer => infer(alloc, first, second),
        Tool::At => at(alloc, first, second, n),
        Tool::AtAll => at_all(alloc, first, second, n),
        Tool::Losses => losses(alloc, first, second, third, n),
        Tool::Wave => wave(alloc, first, second, n),
        Tool::Picture => picture(alloc, first, second, window_of(counts)),
        Tool::Check => check(alloc, first, second, third, fourth, n),
        Tool::Bounds => bounds(alloc, first, second),
        Tool::Latency => latency(alloc, first, second),
        Tool::LowerCounts => lower_counts(alloc, first, second),
        Tool::Map => map(alloc, first, second),
        Tool::Shares => shares(alloc, first, second),
        Tool::Response => response(alloc, first, second, third),
        Tool::Why => why(alloc, first, second),
        Tool::TaskBound => task_bound(alloc, first, second, name(names, 2)),
        Tool::TaskResponse => task_response(alloc, first, second, third, name(names, 3)),
        Tool::Symbols => symbols(alloc, first, second, name(names, 1)),
        Tool::Orti => orti(alloc, first, second),
        Tool::Labels => labels(alloc, first, second),
        Tool::TraceReason => trace_reason(alloc, first, second, third, fourth, n),
        Tool::Unused => unused(alloc, first, second),
        Tool::RunResponse => run_response(alloc, first, second, third, fourth, n),
    }
}

fn elf_fault_text(fault: ElfFault) -> &'static [u8]
    ensures is { result.now ≡ elf_fault_text fault }
    ensures short { length result.now ≤ 2 }
{
    match fault {
        ElfFault::E1 => b"E1",
        ElfFault::E2 => b"E2",
        ElfFault::E3 => b"E3",
        ElfFault::E4 => b"E4",
        ElfFault::E5 => b"E5",
        ElfFault::E6 => b"E6",
        ElfFault::E7 => b"E7",
        ElfFault::E8 => b"E8",
    }
}

/// The line of a file that is no image's ELF file: its first fault.
pub fn no_elf_line(fault: ElfFault) -> LineText
    ensures { result ≡ no_elf_line fault }
{
    let mut line = LineText::new();
    line.push(b"not an elf ");
    line.push(elf_fault_text(fault));
    line.push(b"\n");
    line
}

/// The line of a text that is no trace.
pub fn bad_trace_line(fault: TraceFault) -> LineText
    ensures { result ≡ bad_trace_line fault }
{
    let mut line = LineText::new();
    line.push(b"no ");
    match fault {
        TraceFault::Line(k) => {
            line.push_number(k);
            line.push(b" line\n");
        }
        TraceFault::Step(k) => {
            line.push_number(k);
            line.push(b" step\n");
        }
        TraceFault::Time => line.push(b"time\n"),
    }
    line
}

/// The line of a tool that wrote a file: its length, in bytes.
pub fn written_line(length: usize) -> LineText
    ensures { result ≡ written_line length }
{
    let mut buffer = Buffer::new();
    let mut line = LineText::new();
    line.push(b"written ");
    line.push(buffer.format(length).as_bytes());
    line.push(b"\n");
    line
}
