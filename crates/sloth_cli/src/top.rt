//! The program, over a store of files and a sink of lines.
//! What the program does with its words: those of `debug` have a session, all others go to the top call, over the
//! system's files, standard input and standard output, and the status is how it ends.
ghost use Rattle.std.specs.Prelude.{◌≢◌, IfSome, IfNone, ◌≡◌, []};
ghost use Rattle.sloth_io.specs.Counts.{Stays};
ghost use Rattle.sloth_io.specs.Store.{call_files};
ghost use Rattle.command_line.specs.Command.{words_of, IsCommand, NoTool, Uses};
ghost use Rattle.command_line.specs.Words.{use_of};
ghost use Rattle.core_commands.specs.CommandFiles.{ReadsInOrder};
ghost use Rattle.core_commands.specs.Top.{world, IsTopAnswer, HasUsageAnswer, HasOverwriteAnswer, HasRefusalAnswer, IsComplete};
ghost use Rattle.core_commands.specs.ImageAnswers.{HasImageFaultAnswer, HasNoImageAnswer, HasExecRefusedAnswer, HasExecutedAnswer, HasListedAnswer};
ghost use Rattle.core_commands.specs.SampleAnswers.{HasSampleRefusedAnswer, HasSampledAnswer};
ghost use Rattle.sloth_commands.specs.BuiltFormulas.{BuiltFilesAreRight};
ghost use Rattle.sloth_commands.specs.BuiltRegisters.{BuiltImagesShowRegisters};
ghost use Rattle.sloth_commands.specs.BuiltResponses.{BuiltRunsKeepResponses};
ghost use Rattle.sloth_commands.specs.BuiltRuns.{BuiltRunsAreChecked, BuiltRunsHaveRequests, BuiltRunsKeepBlockingBounds};
ghost use Rattle.sloth_commands.specs.ToolAnswers.{HasToolAnswer, HasToolDoneAnswer};
ghost use Rattle.sloth_commands.specs.ToolFiles.{IsToolAnswer};
ghost use Rattle.sloth_commands.specs.ToolLines.{HasToolLines};
ghost use Rattle.std.specs.Process.{exit_status};
ghost use Rattle.sloth_io.specs.FileStore.{shown_files, untold_files};
ghost use Rattle.sloth_io.specs.OutSink.{shown_output, accepted_bytes, given_bytes};
ghost use Rattle.core_commands.specs.ProgramRun.{IsProgramRun, IsProcessEnd};
ghost use Rattle.sloth_cli.specs.ProgramRun.{HasProgramRun};

use command_line::command::command;
use command_line::tool::ToolWords;
use command_line::{CommandWords, Status};
use core_commands::{close, core_top, finish, is_tool_input, say, words_given};
use debug_command::{debug_over, debug_words};
use debug_session::{ByteReader, Transcript};
use sloth_commands::use_tool;
use sloth_io::{FileStore, OutSink, Sink, Store};
use std::alloc::Global;
use std::env::Env;
use std::process::ExitCode;
use std::rt::Files;

// The tool of these words, if they are one's.
fn tool_of(words: &[String]) -> Option<ToolWords<'_>>
    ensures some { IfSome result (λ t. IsCommand (words_of words.now) (Uses (use_of t))) }
    ensures none { IfNone result (NoTool (words_of words.now)) }
{
    let Some(c) = command(words) else {
        return None;
    };
    match c {
        CommandWords::Tool(tool) => Some(tool),
        CommandWords::Build(_)
        | CommandWords::Exec(_)
        | CommandWords::List(_)
        | CommandWords::Sample { .. } => None,
    }
}

// Does what the words say, and puts a failure's last line; words of no tool go to the top call of the commands that
// build and run. Each way out proves the clauses; from the first one those of `sloth_top` follow, by a law each.
fn answer<F: Store, S: Sink>(alloc: Global, words: &[String], files: &mut F, out: &mut S) -> Status
    ensures answers { IsTopAnswer IsToolAnswer (words_of words.now) (world (call_files
        (F.seen files.old) (F.seen files.new)) (S.seen out.old)) (world (F.seen files.new) (S.seen out.new)) result }
    ensures overwrite { HasOverwriteAnswer (words_of words.now) (world (call_files
        (F.seen files.old) (F.seen files.new)) (S.seen out.old)) (world (F.seen files.new) (S.seen out.new)) result }
    ensures passed { result ≢ Status.WriteFault → S.passed_on out.new }
    ensures handed { Stays (S.seen out.old).faults (S.seen out.new).faults → S.passed_on out.new }
    ensures reads { ReadsInOrder (words_of words.now) (F.seen files.old) (F.seen files.new) }
    ensures lines { HasToolLines (words_of words.now) (world (call_files (F.seen files.old) (F.seen files.new))
        (S.seen out.old)) (world (F.seen files.new) (S.seen out.new)) (S.pieces out.old) (S.pieces out.new) result }
{
    let Some(tool) = tool_of(words) else {
        return core_top(alloc, words, files, out);
    };
    if is_tool_input(files, &tool) {
        return say(out, b"usage\n", Status::Usage);
    }
    match use_tool(alloc, files, out, &tool) {
        Err(failure) => finish(out, failure),
        Ok(status) => close(out, status),
    }
}

/// Does what its words say, and tells how it ended.
pub fn sloth_top<F: Store, S: Sink>(
    alloc: Global,
    words: &[String],
    files: &mut F,
    out: &mut S,
) -> Status
    ensures answers { IsTopAnswer IsToolAnswer (words_of words.now) (world (call_files
        (F.seen files.old) (F.seen files.new)) (S.seen out.old)) (world (F.seen files.new) (S.seen out.new)) result }
    ensures usage { HasUsageAnswer (words_of words.now) (world (call_files (F.seen files.old) (F.seen files.new))
        (S.seen out.old)) (world (F.seen files.new) (S.seen out.new)) result }
    ensures refused { HasRefusalAnswer (words_of words.now) (world (call_files (F.seen files.old) (F.seen files.new))
        (S.seen out.old)) (world (F.seen files.new) (S.seen out.new)) result }
    ensures complete { IsComplete IsToolAnswer (words_of words.now) (world (call_files
        (F.seen files.old) (F.seen files.new)) (S.seen out.old)) (world (F.seen files.new) (S.seen out.new)) result }
    ensures fault { HasImageFaultAnswer (words_of words.now) (world (call_files (F.seen files.old) (F.seen files.new))
        (S.seen out.old)) (world (F.seen files.new) (S.seen out.new)) result }
    ensures no_image { HasNoImageAnswer (words_of words.now) (world (call_files (F.seen files.old) (F.seen files.new))
        (S.seen out.old)) (world (F.seen files.new) (S.seen out.new)) result }
    ensures exec_refused { HasExecRefusedAnswer (words_of words.now) (world (call_files
        (F.seen files.old) (F.seen files.new)) (S.seen out.old)) (world (F.seen files.new) (S.seen out.new)) result }
    ensures executed { HasExecutedAnswer IsToolAnswer (words_of words.now) (world (call_files
        (F.seen files.old) (F.seen files.new)) (S.seen out.old)) (world (F.seen files.new) (S.seen out.new)) result }
    ensures listed { HasListedAnswer IsToolAnswer (words_of words.now) (world (call_files
        (F.seen files.old) (F.seen files.new)) (S.seen out.old)) (world (F.seen files.new) (S.seen out.new)) result }
    ensures sample_refused { HasSampleRefusedAnswer (words_of words.now) (world (call_files
        (F.seen files.old) (F.seen files.new)) (S.seen out.old)) (world (F.seen files.new) (S.seen out.new)) result }
    ensures sampled { HasSampledAnswer IsToolAnswer (words_of words.now) (world (call_files
        (F.seen files.old) (F.seen files.new)) (S.seen out.old)) (world (F.seen files.new) (S.seen out.new)) result }
    ensures tool { HasToolAnswer (words_of words.now) (world (call_files (F.seen files.old) (F.seen files.new))
        (S.seen out.old)) (world (F.seen files.new) (S.seen out.new)) result }
    ensures tool_done { HasToolDoneAnswer (words_of words.now) (world (call_files (F.seen files.old) (F.seen files.new))
        (S.seen out.old)) (world (F.seen files.new) (S.seen out.new)) result }
    ensures overwrite { HasOverwriteAnswer (words_of words.now) (world (call_files
        (F.seen files.old) (F.seen files.new)) (S.seen out.old)) (world (F.seen files.new) (S.seen out.new)) result }
    ensures passed { result ≢ Status.WriteFault → S.passed_on out.new }
    ensures handed { Stays (S.seen out.old).faults (S.seen out.new).faults → S.passed_on out.new }
    ensures reads { ReadsInOrder (words_of words.now) (F.seen files.old) (F.seen files.new) }
    ensures lines { HasToolLines (words_of words.now) (world (call_files (F.seen files.old) (F.seen files.new))
        (S.seen out.old)) (world (F.seen files.new) (S.seen out.new)) (S.pieces out.old) (S.pieces out.new) result }
    ensures bounds { BuiltRunsKeepBlockingBounds }
    ensures responses { BuiltRunsKeepResponses }
    ensures checked { BuiltRunsAreChecked }
    ensures formulas { BuiltFilesAreRight }
    ensures registers { BuiltImagesShowRegisters }
    ensures requests { BuiltRunsHaveRequests }
{
    answer(alloc, words, files, out)
}

/// Runs the command of these words over untouched files and standard output: nothing read, written, said or put.
pub fn run_over<R: Files, P: Print>(
    alloc: Global,
    words: &[String],
    files: &mut FileStore<'_, R>,
    out: &mut OutSink<'_, P>,
) -> Status
    requires files { shown_files files.old ≡ untold_files 0 0 0 [] [] [] }
    requires out { accepted_bytes out.old ≡ [] }
    requires faults { (shown_output out.old).faults ≡ 0 }
    ensures { IsProgramRun IsToolAnswer
        (words_of words.now) (shown_files files.new) (given_bytes out.new) (shown_output out.new).faults result }
{
    sloth_top(alloc, words, files, out)
}

/// Runs the command of these words.
pub fn run_words(rt: &(impl Files + Print + Input + AllocGlobal), words: &[String]) -> Status
    ensures { HasProgramRun (words_of words.now) result }
{
    let mut files = FileStore::new(rt, rt.alloc());
    let mut out = OutSink::new(rt);
    match debug_words(words) {
        Some(asked) => {
            let mut input = ByteReader::new(rt.reader());
            let mut transcript = Transcript::new();
            debug_over(
                rt.alloc(),
                &mut files,
                &mut input,
                &mut out,
                &mut transcript,
                &asked,
            )
        }
        None => run_over(rt.alloc(), words, &mut files, &mut out),
    }
}

/// Runs the command of the program's words, and answers with the number of its status.
pub fn run_program(rt: &(impl Env + Files + Print + Input + AllocGlobal)) -> ExitCode
    ensures { IsProcessEnd HasProgramRun (exit_status result) }
{
    match words_given(rt) {
        Ok(words) => ExitCode::from(run_words(rt, words.as_slice()).code()),
        Err(status) => ExitCode::from(status.code()),
    }
}
