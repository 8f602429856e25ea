//! The commands on image files: `exec` and `list`. They write no file. Puts listings.
ghost use Rattle.std.specs.Prelude.{◌≡◌, ◌≤◌, IfOk, IfErr, OnOk, OnErr, length, ◌/◌, ◌∷◌, [], ◌++◌};
ghost use Rattle.sloth_base.specs.Arrivals.{AreArrivals};
ghost use Rattle.sloth_base.specs.Owners.{owners_named};
ghost use Rattle.sloth_base.specs.ImageRange.{InFormat};
ghost use Rattle.sloth_base.specs.Limits.{file_limit, count_limit};
ghost use Rattle.sloth_io.specs.Sink.{output_with, GainsPart};
ghost use Rattle.sloth_io.specs.Store.{KeepsFiles, AreDelivered, call_files};
ghost use Rattle.image_file.specs.ImageText.{ImageText};
ghost use Rattle.command_line.specs.Command.{Executes, Lists};
ghost use Rattle.command_line.specs.Words.{execution_of};
ghost use Rattle.run_inputs.specs.Inputs.{AreArrivalsOf};
ghost use Rattle.core_commands.specs.ImageFiles.{AreExecInputs, exec_deliveries, end_line, exec_text};
ghost use Rattle.core_commands.specs.ImageAnswers.{end_status};
ghost use Rattle.sloth_runner.specs.Runner.{IsFresh, image_of, given_arrivals, run_end};
ghost use Rattle.core_commands.specs.Top.{world, IsTextTaken};
ghost use Rattle.core_commands.specs.CommandFiles.{AreFirstDelivered, inputs_of};
ghost use Rattle.core_commands.specs.Failures.{IsReadFailure, IsLoadFailure, IsLinesFailure, IsLineFailure};
ghost use Rattle.core_commands.specs.Failures.{IsCommandFailure, IsPerformed};
ghost use Rattle.command_line.specs.declared.answer.Status.TheVariants.{Done as DoneStatus};
ghost use Rattle.trace_text.specs.Listing.{listing, line_at};
ghost use Rattle.core_commands.specs.ToolTables.{LacksTools};

use crate::{Failure, fetch};
use command_line::{ExecWords, Status};
use image_file::read_image;
use run_inputs::{RunInputs, Unread, read_run};
use sloth_base::{Arrival, Image};
use sloth_io::{Sink, SinkFault, Store};
use sloth_runner::{RunEnd, Runner};
use std::alloc::Global;
use trace_text::{Form, listing_line, stopped_line};

// An image file and an arrivals file.
#[derive(Drop)]
struct ExecInputs {
    file: Vec<u8>,
    arr: Vec<u8>,
}

// Reads the inputs of a run, in the order of the words.
fn read_inputs<F: Store>(alloc: Global, files: &mut F, e: &ExecWords) -> Result<ExecInputs, Failure>
    ensures ok { IfOk result (λ i. AreExecInputs (F.seen files.old) (execution_of e.now) i.file.items i.arr.items) }
    ensures err { IfErr result (λ failure.
        IsReadFailure failure (F.seen files.old) (F.seen files.new) (inputs_of (Executes (execution_of e.now)))) }
    ensures keeps { KeepsFiles (F.seen files.old) (F.seen files.new) }
    ensures delivered { IfOk result (λ i. AreDelivered (F.seen files.old) (F.seen files.new)
        (exec_deliveries (execution_of e.now) i.file.items i.arr.items)) }
    ensures front { IfErr result
        (λ _. AreFirstDelivered (F.seen files.old) (F.seen files.new) (inputs_of (Executes (execution_of e.now)))) }
{
    let file = fetch(alloc, files, e.img)?;
    let arr = fetch(alloc, files, e.arr)?;
    Ok(ExecInputs { file, arr })
}

// Judges the inputs of a run, the image before its arrivals.
fn load(alloc: Global, inputs: ExecInputs) -> Result<RunInputs, Failure>
    requires { length inputs.arr.items ≤ file_limit }
    ensures image { IfOk result (λ loaded. ImageText inputs.file.items loaded.image) }
    ensures read { IfOk result
        (λ loaded. AreArrivalsOf loaded.image.tasks loaded.image.counters inputs.arr.items loaded.arrivals.items) }
    ensures in_range { IfOk result (λ loaded. AreArrivals (owners_named loaded.image) loaded.arrivals.items) }
    ensures err { IfErr result (λ failure. IsLoadFailure failure inputs.file.items inputs.arr.items) }
{
    match read_run(alloc, inputs.file.as_slice(), inputs.arr.as_slice()) {
        Ok(loaded) => Ok(loaded),
        Err(Unread::NotAnImage(fault)) => Err(Failure::NotAnImage(fault)),
        Err(Unread::Refused(refusal)) => Err(Failure::Refused(refusal)),
        Err(Unread::NoMemory) => Err(Failure::NoMemory),
    }
}

// Puts the line of a run that stopped.
fn put_end<S: Sink>(end: RunEnd, out: &mut S) -> Result<(), SinkFault>
    ensures ok { OnOk result (S.seen out.new ≡ output_with (S.seen out.old) (end_line end)) }
    ensures err { OnErr result (GainsPart (S.seen out.old) (S.seen out.new) (end_line end)) }
{
    match end {
        RunEnd::Whole => Ok(()),
        RunEnd::Stopped { pc, stop } => out.put(stopped_line(pc, stop).bytes()),
    }
}

// How a command ends that runs an image file.
fn end_status(end: RunEnd) -> Status
    ensures { result ≡ end_status end }
{
    match end {
        RunEnd::Whole => Status::Done,
        RunEnd::Stopped { .. } => Status::Stopped,
    }
}

// Runs the image of a runner that has run nothing, and puts its lines.
fn run_lines<S: Sink>(runner: &mut Runner, n: u32, out: &mut S) -> Result<Status, Failure>
    requires fresh { IsFresh runner.old }
    requires few { n ≤ count_limit }
    ensures end { IfOk result
        (λ status. status ≡ end_status (run_end (image_of runner.old) (given_arrivals runner.old) n)) }
    ensures text { OnOk result (IsTextTaken (S.seen out.old) (S.seen out.new)
        (exec_text (image_of runner.old) (given_arrivals runner.old) n)) }
    ensures err { IfErr result (λ failure. IsLinesFailure failure (S.seen out.old) (S.seen out.new)
        (exec_text (image_of runner.old) (given_arrivals runner.old) n)) }
{
    let end = runner.run(n, Form::Counted, out)?;
    put_end(end, out)?;
    Ok(end_status(end))
}

// Takes all memory of the run, runs the image, and puts its lines.
fn run_image<S: Sink>(
    alloc: Global,
    image: &Image,
    arrivals: &[Arrival],
    n: u32,
    out: &mut S,
) -> Result<Status, Failure>
    requires format { InFormat image.now }
    requires arrivals { AreArrivals (owners_named image.now) arrivals.now }
    requires few { n ≤ count_limit }
    ensures end { IfOk result (λ status. status ≡ end_status (run_end image.now arrivals.now n)) }
    ensures text { OnOk result (IsTextTaken (S.seen out.old) (S.seen out.new) (exec_text image.now arrivals.now n)) }
    ensures err { IfErr result (λ failure.
        IsLinesFailure failure (S.seen out.old) (S.seen out.new) (exec_text image.now arrivals.now n)) }
{
    let mut runner = Runner::new(alloc, image, arrivals)?;
    run_lines(&mut runner, n, out)
}

/// Runs an image file, and puts what is seen of the run, but for the last line of a failure.
pub fn execute<F: Store, S: Sink>(
    alloc: Global,
    files: &mut F,
    out: &mut S,
    e: &ExecWords,
) -> Result<Status, Failure>
    requires { e.now.n ≤ count_limit }
    ensures done { IfOk result (λ status. IsPerformed LacksTools status (world (call_files (F.seen files.old) (F.seen
        files.new)) (S.seen out.old)) (world (F.seen files.new) (S.seen out.new)) (Executes (execution_of e.now))) }
    ensures err { IfErr result (λ failure. IsCommandFailure LacksTools failure
        (world (call_files (F.seen files.old) (F.seen files.new)) (S.seen out.old))
        (world (F.seen files.new) (S.seen out.new)) (Executes (execution_of e.now))) }
    ensures reads { AreFirstDelivered (F.seen files.old) (F.seen files.new)
        (inputs_of (Executes (execution_of e.now))) }
{
    let inputs = read_inputs(alloc, files, e)?;
    let loaded = load(alloc, inputs)?;
    run_image(alloc, &loaded.image, loaded.arrivals.as_slice(), e.n, out)
}

// Puts the listing of an image.
fn put_lines<S: Sink>(image: &Image, out: &mut S) -> Result<(), Failure>
    requires { InFormat image.now }
    ensures ok { OnOk result (IsTextTaken (S.seen out.old) (S.seen out.new) (listing image.now)) }
    ensures err { IfErr result
        (λ failure. IsLineFailure failure (S.seen out.old) (S.seen out.new) (listing image.now)) }
{
    put_listing(image, out)?;
    Ok(())
}

/// Lists an image file, but for the last line of a failure.
pub fn list<F: Store, S: Sink>(
    alloc: Global,
    files: &mut F,
    out: &mut S,
    img: &str,
) -> Result<(), Failure>
    ensures done { OnOk result (IsPerformed LacksTools DoneStatus (world (call_files (F.seen files.old)
        (F.seen files.new)) (S.seen out.old)) (world (F.seen files.new) (S.seen out.new)) (Lists img.now)) }
    ensures err { IfErr result (λ failure. IsCommandFailure LacksTools failure (world (call_files (F.seen files.old)
        (F.seen files.new)) (S.seen out.old)) (world (F.seen files.new) (S.seen out.new)) (Lists img.now)) }
    ensures reads { AreFirstDelivered (F.seen files.old) (F.seen files.new) (inputs_of (Lists img.now)) }
{
    let file = fetch(alloc, files, img)?;
    let image = read_image(alloc, file.as_slice())?;
    put_lines(&image, out)
}

// Puts line k.
fn put_line<S: Sink>(image: &Image, k: u32, out: &mut S) -> Result<(), SinkFault>
    requires format { InFormat image.now }
    requires in_range { k ≤ length image.now.memory / 4 }
    ensures ok { OnOk result (S.seen out.new ≡ output_with (S.seen out.old) (line_at image.now k ++ 10 ∷ [])) }
    ensures err { OnErr result (GainsPart (S.seen out.old) (S.seen out.new) (line_at image.now k ++ 10 ∷ [])) }
{
    let mut line = listing_line(image, k);
    line.push(b"\n");
    out.put(line.bytes())
}

/// Puts the listing of an image, a line at a time.
pub fn put_listing<S: Sink>(image: &Image, out: &mut S) -> Result<(), SinkFault>
    requires { InFormat image.now }
    ensures ok { OnOk result (S.seen out.new ≡ output_with (S.seen out.old) (listing image.now)) }
    ensures err { OnErr result (GainsPart (S.seen out.old) (S.seen out.new) (listing image.now)) }
{
    let lines = image.memory.items().len() as u32 / 4 + 1;
    for k in 0..lines {
        put_line(image, k, out)?;
    }
    Ok(())
}
