//! The commands that are tools: they read files, come to one answer, write one file at most, and put the answer's text.
ghost use Rattle.std.specs.Prelude.{◌≡◌, ◌++◌, IfOk, IfErr, OnOk};
ghost use Rattle.sloth_io.specs.Lines.{lines_in};
ghost use Rattle.sloth_io.specs.Store.{KeepsFiles, AreDelivered, call_files};
ghost use Rattle.command_line.specs.Command.{Uses};
ghost use Rattle.command_line.specs.Tools.{IsToolUse, file_names};
ghost use Rattle.command_line.specs.Words.{use_of};
ghost use Rattle.command_line.specs.Lines.{tool_text};
ghost use Rattle.command_line.specs.declared.answer.ToolAnswer.TheVariants as tool_answer;
ghost use Rattle.command_line.specs.Statuses.{tool_status};
ghost use Rattle.core_commands.specs.CommandFiles.{inputs_of, AreFirstDelivered};
ghost use Rattle.core_commands.specs.ToolInputs.{AreToolInputs, input_deliveries};
ghost use Rattle.core_commands.specs.Top.{world, IsTextTaken, FilesAfter, IsOutputWritten};
ghost use Rattle.core_commands.specs.Failures.{IsReadFailure, IsOutputFailure, IsLineFailure, IsTellFailure};
ghost use Rattle.core_commands.specs.Failures.{IsCommandFailure, IsPerformed};
ghost use Rattle.sloth_commands.specs.ToolFiles.{IsToolAnswer};
ghost use Rattle.sloth_commands.specs.ToolLines.{IsAnswerUntold, IsToldByLine, IsToolUntold};

use command_line::tool::ToolWords;
use command_line::{Outcome, Status, ToolAnswer, file_words, no_image_line, refusal_line};
use core_commands::{Failure, fetch};
use sloth_base::List;
use sloth_io::{Sink, Store, put_lines};
use std::alloc::Global;
use tool_commands::{bad_trace_line, judge, no_elf_line};
use trace_text::stopped_line;

// The bytes of the files of a tool, in their order.
fn fetch_inputs<F: Store>(
    alloc: Global,
    files: &mut F,
    words: &ToolWords,
) -> Result<Vec<List<u8>>, Failure>
    ensures ok { IfOk result (λ inputs. AreToolInputs (F.seen files.old) (file_names (use_of words.now)) inputs.items) }
    ensures err { IfErr result
        (λ failure. IsReadFailure failure (F.seen files.old) (F.seen files.new) (file_names (use_of words.now))) }
    ensures keeps { KeepsFiles (F.seen files.old) (F.seen files.new) }
    ensures delivered { IfOk result (λ inputs. AreDelivered
        (F.seen files.old) (F.seen files.new) (input_deliveries (file_names (use_of words.now)) inputs.items)) }
    ensures front { IfErr
        result (λ _. AreFirstDelivered (F.seen files.old) (F.seen files.new) (file_names (use_of words.now))) }
{
    let names = file_words(words);
    let mut inputs = Vec::new(alloc);
    for name in names {
        let bytes = fetch(alloc, files, name.as_str())?;
        inputs.push(List::from_vec(bytes))?;
    }
    Ok(inputs)
}

// Writes the file of a tool that was done, if it writes one.
fn write_output<F: Store>(files: &mut F, words: &ToolWords, bytes: &[u8]) -> Result<(), Failure>
    ensures ok { OnOk
        result (IsOutputWritten (F.seen files.old) (F.seen files.new) (use_of words.now).output bytes.now) }
    ensures err { IfErr result (λ failure.
        IsOutputFailure failure (F.seen files.old) (F.seen files.new) (use_of words.now).output bytes.now) }
    ensures reads { (F.seen files.new).reads ≡ (F.seen files.old).reads }
{
    let Some(name) = words.output else {
        return Ok(());
    };
    files.write(name, bytes).map_err(|_| Failure::WriteFile)
}

// Writes the file of a tool that was done, if it writes one, and puts its text, a line at a time.
fn tell_outcome<F: Store, S: Sink>(
    files: &mut F,
    out: &mut S,
    words: &ToolWords,
    outcome: &Outcome,
) -> Result<(), Failure>
    ensures files { OnOk
        result (IsOutputWritten (F.seen files.old) (F.seen files.new) (use_of words.now).output outcome.now.file) }
    ensures text { OnOk result (IsTextTaken (S.seen out.old) (S.seen out.new) outcome.now.text) }
    ensures err { IfErr result (λ failure. IsTellFailure failure (tool_answer.Done outcome.now) (world
        (F.seen files.old) (S.seen out.old)) (world (F.seen files.new) (S.seen out.new)) (use_of words.now).output) }
    ensures reads { (F.seen files.new).reads ≡ (F.seen files.old).reads }
    ensures lines { OnOk result (S.pieces out.new ≡ S.pieces out.old ++ lines_in outcome.now.text) }
    ensures untold { IfErr result (λ failure. IsAnswerUntold
        failure (S.seen out.old) (S.seen out.new) (S.pieces out.old) (S.pieces out.new) outcome.now.text) }
{
    write_output(files, words, outcome.file.items())?;
    put_lines(out, outcome.text.items())?;
    Ok(())
}

// Puts the last line of an answer.
fn tell_line<S: Sink>(out: &mut S, line: &[u8]) -> Result<(), Failure>
    ensures ok { OnOk result (IsTextTaken (S.seen out.old) (S.seen out.new) line.now) }
    ensures err { IfErr result (λ failure. IsLineFailure failure (S.seen out.old) (S.seen out.new) line.now) }
    ensures lines { OnOk result (S.pieces out.new ≡ S.pieces out.old ++ lines_in line.now) }
    ensures untold { IfErr result (λ failure.
        IsAnswerUntold failure (S.seen out.old) (S.seen out.new) (S.pieces out.old) (S.pieces out.new) line.now) }
{
    put_lines(out, line)?;
    Ok(())
}

// Tells an answer: its file, if it has one, and then its text.
fn tell_text<F: Store, S: Sink>(
    files: &mut F,
    out: &mut S,
    words: &ToolWords,
    answer: &ToolAnswer,
) -> Result<(), Failure>
    ensures text { OnOk result (IsTextTaken (S.seen out.old) (S.seen out.new) (tool_text answer.now)) }
    ensures files { OnOk
        result (FilesAfter answer.now (F.seen files.old) (F.seen files.new) (use_of words.now).output) }
    ensures err { IfErr result (λ failure. IsTellFailure failure answer.now (world (F.seen files.old) (S.seen out.old))
        (world (F.seen files.new) (S.seen out.new)) (use_of words.now).output) }
    ensures reads { (F.seen files.new).reads ≡ (F.seen files.old).reads }
    ensures lines { OnOk result (S.pieces out.new ≡ S.pieces out.old ++ lines_in (tool_text answer.now)) }
    ensures untold { IfErr result (λ failure. IsAnswerUntold
        failure (S.seen out.old) (S.seen out.new) (S.pieces out.old) (S.pieces out.new) (tool_text answer.now)) }
{
    match answer {
        ToolAnswer::Done(outcome) => tell_outcome(files, out, words, outcome),
        ToolAnswer::Refused(refusal) => tell_line(out, refusal_line(*refusal).bytes()),
        ToolAnswer::Stopped { pc, stop } => tell_line(out, stopped_line(*pc, *stop).bytes()),
        ToolAnswer::NotAnImage(fault) => tell_line(out, no_image_line(*fault).bytes()),
        ToolAnswer::NotAnElf(fault) => tell_line(out, no_elf_line(*fault).bytes()),
        ToolAnswer::BadTrace(fault) => tell_line(out, bad_trace_line(*fault).bytes()),
        ToolAnswer::NoHolds => tell_line(out, b"no holds\n"),
        ToolAnswer::Unmet(text) => tell_line(out, text.items()),
        ToolAnswer::Explained { text, .. } => tell_line(out, text.items()),
        ToolAnswer::NoTask => tell_line(out, b"usage\n"),
    }
}

// The same, and its status.
fn tell<F: Store, S: Sink>(
    files: &mut F,
    out: &mut S,
    words: &ToolWords,
    answer: &ToolAnswer,
) -> Result<Status, Failure>
    ensures status { IfOk result (λ status. status ≡ tool_status answer.now) }
    ensures text { OnOk result (IsTextTaken (S.seen out.old) (S.seen out.new) (tool_text answer.now)) }
    ensures files { OnOk
        result (FilesAfter answer.now (F.seen files.old) (F.seen files.new) (use_of words.now).output) }
    ensures err { IfErr result (λ failure. IsTellFailure failure answer.now (world (F.seen files.old) (S.seen out.old))
        (world (F.seen files.new) (S.seen out.new)) (use_of words.now).output) }
    ensures reads { (F.seen files.new).reads ≡ (F.seen files.old).reads }
    ensures lines { OnOk result (S.pieces out.new ≡ S.pieces out.old ++ lines_in (tool_text answer.now)) }
    ensures untold { IfErr result (λ failure. IsAnswerUntold
        failure (S.seen out.old) (S.seen out.new) (S.pieces out.old) (S.pieces out.new) (tool_text answer.now)) }
{
    tell_text(files, out, words, answer)?;
    Ok(answer.status())
}

/// Reads the files of a tool, judges them, and tells its answer, but for the last line of a failure.
pub fn use_tool<F: Store, S: Sink>(
    alloc: Global,
    files: &mut F,
    out: &mut S,
    words: &ToolWords,
) -> Result<Status, Failure>
    requires { IsToolUse (use_of words.now) }
    ensures done { IfOk result (λ status. IsPerformed IsToolAnswer status (world (call_files (F.seen files.old)
        (F.seen files.new)) (S.seen out.old)) (world (F.seen files.new) (S.seen out.new)) (Uses (use_of words.now))) }
    ensures err { IfErr result (λ failure. IsCommandFailure IsToolAnswer failure (world (call_files (F.seen files.old)
        (F.seen files.new)) (S.seen out.old)) (world (F.seen files.new) (S.seen out.new)) (Uses (use_of words.now))) }
    ensures reads { AreFirstDelivered (F.seen files.old) (F.seen files.new) (inputs_of (Uses (use_of words.now))) }
    ensures lines { IfOk result
        (λ status. IsToldByLine status (world (call_files (F.seen files.old) (F.seen files.new)) (S.seen out.old))
        (world (F.seen files.new) (S.seen out.new)) (S.pieces out.old) (S.pieces out.new) (use_of words.now)) }
    ensures untold { IfErr result
        (λ failure. IsToolUntold failure (world (call_files (F.seen files.old) (F.seen files.new)) (S.seen out.old))
        (world (F.seen files.new) (S.seen out.new)) (S.pieces out.old) (S.pieces out.new) (use_of words.now)) }
{
    let inputs = fetch_inputs(alloc, files, words)?;
    let answer = judge(
        alloc,
        words.tool,
        words.counts,
        words.inputs,
        inputs.as_slice(),
    )?;
    tell(files, out, words, &answer)
}
