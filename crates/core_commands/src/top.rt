//! The commands that build and run, over a store of files and a sink of lines: a program without tools.
//! A program without tools: its words go to the top call over system files and standard output; the status is its end.
//! Whether the file that a command writes is one that it reads.
ghost use Rattle.std.specs.Prelude.{◌≢◌, IfOk, IfErr, IfSome, IfNone, OnOk, ◌≡◌, ◌⊎◌, [], IsTrue, true, false, Some};
ghost use Rattle.sloth_io.specs.Counts.{Stays};
ghost use Rattle.sloth_io.specs.Store.{call_files};
ghost use Rattle.command_line.specs.Command.{words_of, Builds, IsCommand, IsInLimit, IsNoTool, KeepsLimit, Uses};
ghost use Rattle.command_line.specs.Words.{building_of, command_of, run_of, use_of};
ghost use Rattle.core_commands.specs.CommandFiles.{inputs_of, AreFirstDelivered, ReadsInOrder, arrivals_named, HasOwnOutput, IsFileAmong, IsNameApart, IsOnlyAsked, OverwritesInput};
ghost use Rattle.core_commands.specs.Top.{world, IsTopAnswer, HasUsageAnswer, HasOverwriteAnswer, HasRefusalAnswer, IsComplete};
ghost use Rattle.core_commands.specs.ImageAnswers.{HasPlainImageFaultAnswer, HasPlainNoImageAnswer, HasExecRefusedAnswer, HasExecutedAnswer, HasListedAnswer};
ghost use Rattle.core_commands.specs.SampleAnswers.{HasSampleRefusedAnswer, HasSampledAnswer};
ghost use Rattle.core_commands.specs.NoTools.{HasNoToolAnswer, NoOwnCommand};
ghost use Rattle.core_commands.specs.ToolTables.{LacksTools};
ghost use Rattle.core_commands.specs.Failures.{IsCommandFailure, IsPerformed};
ghost use Rattle.command_line.specs.declared.answer.Status.TheVariants.{Done as DoneStatus};
ghost use Rattle.std.specs.Process.{exit_status};
ghost use Rattle.sloth_io.specs.FileStore.{shown_files, untold_files};
ghost use Rattle.sloth_io.specs.OutSink.{shown_output, accepted_bytes, given_bytes};
ghost use Rattle.core_commands.specs.ProgramRun.{IsProgramRun, IsProcessEnd, HasTopRun};

use crate::build_command::{judge, perform, read_inputs};
use crate::image_commands::{execute, list};
use crate::sample_command::sample_run;
use crate::{Failure, close, finish, say};
use command_line::command::command;
use command_line::tool::ToolWords;
use command_line::{BuildWords, CommandWords, RunWords, Status, file_words};
use sloth_io::{FileStore, OutSink, Sink, Store};
use std::alloc::Global;
use std::env;
use std::env::Env;
use std::io::ErrorKind;
use std::process::ExitCode;
use std::rt::Files;

// Builds, and runs what is built where the words say so, but for the last line of a failure.
fn attempt<F: Store, S: Sink>(
    alloc: Global,
    files: &mut F,
    out: &mut S,
    c: &BuildWords,
) -> Result<(), Failure>
    requires { IsInLimit (run_of c.now.run) }
    ensures done { OnOk result (IsPerformed LacksTools DoneStatus (world (call_files (F.seen files.old) (F.seen
        files.new)) (S.seen out.old)) (world (F.seen files.new) (S.seen out.new)) (Builds (building_of c.now))) }
    ensures err { IfErr result (λ failure. IsCommandFailure LacksTools failure
        (world (call_files (F.seen files.old) (F.seen files.new)) (S.seen out.old))
        (world (F.seen files.new) (S.seen out.new)) (Builds (building_of c.now))) }
    ensures reads { AreFirstDelivered (F.seen files.old) (F.seen files.new) (inputs_of (Builds (building_of c.now))) }
{
    let inputs = read_inputs(alloc, files, c)?;
    let judged = judge(alloc, &inputs)?;
    perform(
        alloc,
        files,
        out,
        c,
        &judged.built.image,
        judged.arrivals.items(),
    )
}

// The command of these words, if they are one's that is no tool.
fn own_command(words: &[String]) -> Option<CommandWords<'_>>
    ensures some { IfSome result (λ c. IsCommand (words_of words.now) (command_of c)) }
    ensures plain { IfSome result (λ c. IsNoTool (command_of c)) }
    ensures none { IfNone result (NoOwnCommand (words_of words.now)) }
{
    let c = command(words)?;
    match c {
        CommandWords::Build(_)
        | CommandWords::Exec(_)
        | CommandWords::List(_)
        | CommandWords::Sample { .. } => Some(c),
        CommandWords::Tool(_) => None,
    }
}

// Does what a command that is no tool says, but for the last line of a failure.
fn obey<F: Store, S: Sink>(
    alloc: Global,
    files: &mut F,
    out: &mut S,
    c: &CommandWords,
) -> Result<Status, Failure>
    requires limit { KeepsLimit (command_of c.now) }
    requires plain { IsNoTool (command_of c.now) }
    ensures done { IfOk result (λ status. IsPerformed LacksTools status (world (call_files (F.seen files.old)
        (F.seen files.new)) (S.seen out.old)) (world (F.seen files.new) (S.seen out.new)) (command_of c.now)) }
    ensures err { IfErr result (λ failure. IsCommandFailure LacksTools failure (world (call_files (F.seen files.old)
        (F.seen files.new)) (S.seen out.old)) (world (F.seen files.new) (S.seen out.new)) (command_of c.now)) }
    ensures reads { AreFirstDelivered (F.seen files.old) (F.seen files.new) (inputs_of (command_of c.now)) }
{
    match c {
        CommandWords::Build(c) => {
            attempt(alloc, files, out, c)?;
            Ok(Status::Done)
        }
        CommandWords::Exec(e) => execute(alloc, files, out, e),
        CommandWords::List(img) => {
            list(alloc, files, out, img)?;
            Ok(Status::Done)
        }
        CommandWords::Sample { seed, img } => {
            sample_run(alloc, files, out, *seed, img)?;
            Ok(Status::Done)
        }
        CommandWords::Tool(_) => Ok(Status::Usage),
    }
}

// Does what the words say, and puts the last line of a failure. Its clauses are proved on each of its ways out; from
// the first one alone those of `core_top` follow, by a law each, but for the others of this call.
fn answer<F: Store, S: Sink>(alloc: Global, words: &[String], files: &mut F, out: &mut S) -> Status
    ensures answers { IsTopAnswer LacksTools (words_of words.now) (world (call_files (F.seen files.old)
        (F.seen files.new)) (S.seen out.old)) (world (F.seen files.new) (S.seen out.new)) result }
    ensures no_tool { HasNoToolAnswer (words_of words.now) (world (call_files (F.seen files.old) (F.seen files.new))
        (S.seen out.old)) (world (F.seen files.new) (S.seen out.new)) result }
    ensures overwrite { HasOverwriteAnswer (words_of words.now) (world (call_files (F.seen files.old)
        (F.seen files.new)) (S.seen out.old)) (world (F.seen files.new) (S.seen out.new)) result }
    ensures passed { result ≢ Status.WriteFault → S.passed_on out.new }
    ensures handed { Stays (S.seen out.old).faults (S.seen out.new).faults → S.passed_on out.new }
    ensures reads { ReadsInOrder (words_of words.now) (F.seen files.old) (F.seen files.new) }
{
    let Some(c) = own_command(words) else {
        return say(out, b"usage\n", Status::Usage);
    };
    if overwrites_input(files, &c) {
        return say(out, b"usage\n", Status::Usage);
    }
    match obey(alloc, files, out, &c) {
        Err(failure) => finish(out, failure),
        Ok(status) => close(out, status),
    }
}

/// Does what its words say, and tells how it ended. To the words of a tool its answer is Usage.
pub fn core_top<F: Store, S: Sink>(
    alloc: Global,
    words: &[String],
    files: &mut F,
    out: &mut S,
) -> Status
    ensures answers { IsTopAnswer LacksTools (words_of words.now) (world (call_files (F.seen files.old)
        (F.seen files.new)) (S.seen out.old)) (world (F.seen files.new) (S.seen out.new)) result }
    ensures usage { HasUsageAnswer (words_of words.now) (world (call_files (F.seen files.old) (F.seen files.new))
        (S.seen out.old)) (world (F.seen files.new) (S.seen out.new)) result }
    ensures no_tool { HasNoToolAnswer (words_of words.now) (world (call_files (F.seen files.old) (F.seen files.new))
        (S.seen out.old)) (world (F.seen files.new) (S.seen out.new)) result }
    ensures refused { HasRefusalAnswer (words_of words.now) (world (call_files (F.seen files.old) (F.seen files.new))
        (S.seen out.old)) (world (F.seen files.new) (S.seen out.new)) result }
    ensures complete { IsComplete LacksTools (words_of words.now) (world (call_files (F.seen files.old)
        (F.seen files.new)) (S.seen out.old)) (world (F.seen files.new) (S.seen out.new)) result }
    ensures fault { HasPlainImageFaultAnswer (words_of words.now) (world (call_files (F.seen files.old)
        (F.seen files.new)) (S.seen out.old)) (world (F.seen files.new) (S.seen out.new)) result }
    ensures no_image { HasPlainNoImageAnswer (words_of words.now) (world (call_files (F.seen files.old)
        (F.seen files.new)) (S.seen out.old)) (world (F.seen files.new) (S.seen out.new)) result }
    ensures exec_refused { HasExecRefusedAnswer (words_of words.now) (world (call_files (F.seen files.old)
        (F.seen files.new)) (S.seen out.old)) (world (F.seen files.new) (S.seen out.new)) result }
    ensures executed { HasExecutedAnswer LacksTools (words_of words.now) (world (call_files (F.seen files.old)
        (F.seen files.new)) (S.seen out.old)) (world (F.seen files.new) (S.seen out.new)) result }
    ensures listed { HasListedAnswer LacksTools (words_of words.now) (world (call_files (F.seen files.old)
        (F.seen files.new)) (S.seen out.old)) (world (F.seen files.new) (S.seen out.new)) result }
    ensures sample_refused { HasSampleRefusedAnswer (words_of words.now) (world (call_files (F.seen files.old)
        (F.seen files.new)) (S.seen out.old)) (world (F.seen files.new) (S.seen out.new)) result }
    ensures sampled { HasSampledAnswer LacksTools (words_of words.now) (world (call_files (F.seen files.old)
        (F.seen files.new)) (S.seen out.old)) (world (F.seen files.new) (S.seen out.new)) result }
    ensures overwrite { HasOverwriteAnswer (words_of words.now) (world (call_files (F.seen files.old)
        (F.seen files.new)) (S.seen out.old)) (world (F.seen files.new) (S.seen out.new)) result }
    ensures passed { result ≢ Status.WriteFault → S.passed_on out.new }
    ensures handed { Stays (S.seen out.old).faults (S.seen out.new).faults → S.passed_on out.new }
    ensures reads { ReadsInOrder (words_of words.now) (F.seen files.old) (F.seen files.new) }
{
    answer(alloc, words, files, out)
}

/// The words behind the program's name, or how it ends without them: a word that is not UTF-8 is none of a command's.
pub fn words_given(rt: &(impl Env + AllocGlobal)) -> Result<Vec<String>, Status>
    ensures { IfErr result (λ status. (status ≡ Status.Usage) ⊎ (status ≡ Status.NoMemory)) }
{
    let mut words = Vec::new(rt.alloc());
    let args = match env::args(rt) {
        Ok(args) => args,
        Err(fault) if fault.kind() == ErrorKind::OutOfMemory => return Err(Status::NoMemory),
        Err(_) => return Err(Status::Usage),
    };
    for word in args.skip(1) {
        if words.push(word).is_err() {
            return Err(Status::NoMemory);
        }
    }
    Ok(words)
}

/// Runs the command of these words over files and standard output to which nothing was done yet.
pub fn run_over<R: Files, P: Print>(
    alloc: Global,
    words: &[String],
    files: &mut FileStore<'_, R>,
    out: &mut OutSink<'_, P>,
) -> Status
    requires files { shown_files files.old ≡ untold_files 0 0 0 [] [] [] }
    requires out { accepted_bytes out.old ≡ [] }
    requires faults { (shown_output out.old).faults ≡ 0 }
    ensures { IsProgramRun LacksTools (words_of words.now) (shown_files files.new) (given_bytes out.new)
        (shown_output out.new).faults result }
{
    core_top(alloc, words, files, out)
}

/// Runs the command of these words.
pub fn run_words(rt: &(impl Files + Print + AllocGlobal), words: &[String]) -> Status
    ensures { HasTopRun LacksTools (words_of words.now) result }
{
    let mut files = FileStore::new(rt, rt.alloc());
    let mut out = OutSink::new(rt);
    run_over(rt.alloc(), words, &mut files, &mut out)
}

/// Runs the command of the program's words, and answers with the number of its status.
pub fn run_program(rt: &(impl Env + Files + Print + AllocGlobal)) -> ExitCode
    ensures { IsProcessEnd (HasTopRun LacksTools) (exit_status result) }
{
    match words_given(rt) {
        Ok(words) => ExitCode::from(run_words(rt, words.as_slice()).code()),
        Err(status) => ExitCode::from(status.code()),
    }
}

// Whether the file of a name is one of these.
fn is_among<F: Store>(files: &mut F, name: &str, inputs: &[String]) -> bool
    ensures yes { result ≡ true → IsFileAmong (F.seen files.old) (F.seen files.new) name.now (words_of inputs.now) }
    ensures no { result ≡ false → IsTrue (F.seen files.old).tells → IsNameApart (Some name.now) (words_of inputs.now) }
    ensures kept { result ≡ false → F.seen files.new ≡ F.seen files.old }
    ensures only { IsOnlyAsked (F.seen files.old) (F.seen files.new) }
{
    for input in inputs {
        if files.is_same(name, input.as_str()) {
            return true;
        }
    }
    false
}

// Whether it is that of the arrivals, if there are any.
fn is_arrivals<F: Store>(files: &mut F, name: &str, run: &Option<RunWords>) -> bool
    ensures yes { result ≡ true → IsFileAmong (F.seen files.old) (F.seen files.new) name.now
        (arrivals_named (run_of run.now)) }
    ensures no { result ≡ false → IsTrue (F.seen files.old).tells → IsNameApart (Some name.now)
        (arrivals_named (run_of run.now)) }
    ensures kept { result ≡ false → F.seen files.new ≡ F.seen files.old }
    ensures only { IsOnlyAsked (F.seen files.old) (F.seen files.new) }
{
    match run {
        Some(run) => files.is_same(name, run.arr),
        None => false,
    }
}

// Whether the image's file is one that is built from.
fn is_source<F: Store>(files: &mut F, c: &BuildWords) -> bool
    ensures yes { result ≡ true → OverwritesInput (F.seen files.old) (F.seen files.new) (Builds (building_of c.now)) }
    ensures no { result ≡ false → IsTrue (F.seen files.old).tells → HasOwnOutput (Builds (building_of c.now)) }
    ensures kept { result ≡ false → F.seen files.new ≡ F.seen files.old }
    ensures only { IsOnlyAsked (F.seen files.old) (F.seen files.new) }
{
    if files.is_same(c.img, c.oil) {
        return true;
    }
    if files.is_same(c.img, c.src) {
        return true;
    }
    is_arrivals(files, c.img, &c.run)
}

/// Whether the file of a tool, if it writes one, is one that it reads.
pub fn is_tool_input<F: Store>(files: &mut F, words: &ToolWords) -> bool
    ensures yes { result ≡ true → OverwritesInput (F.seen files.old) (F.seen files.new) (Uses (use_of words.now)) }
    ensures no { result ≡ false → IsTrue (F.seen files.old).tells → HasOwnOutput (Uses (use_of words.now)) }
    ensures kept { result ≡ false → F.seen files.new ≡ F.seen files.old }
    ensures only { IsOnlyAsked (F.seen files.old) (F.seen files.new) }
{
    match words.output {
        Some(name) => is_among(files, name, file_words(words)),
        None => false,
    }
}

/// Whether a command would write over a file that it reads.
pub fn overwrites_input<F: Store>(files: &mut F, c: &CommandWords) -> bool
    ensures yes { result ≡ true → OverwritesInput (F.seen files.old) (F.seen files.new) (command_of c.now) }
    ensures no { result ≡ false → IsTrue (F.seen files.old).tells → HasOwnOutput (command_of c.now) }
    ensures kept { result ≡ false → F.seen files.new ≡ F.seen files.old }
    ensures only { IsOnlyAsked (F.seen files.old) (F.seen files.new) }
{
    match c {
        CommandWords::Build(c) => is_source(files, c),
        CommandWords::Tool(words) => is_tool_input(files, words),
        CommandWords::Exec(_) | CommandWords::List(_) | CommandWords::Sample { .. } => false,
    }
}
