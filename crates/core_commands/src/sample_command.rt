//! The command `sample`: an application is generated, built and run, and its events are counted.
ghost use Rattle.std.specs.Prelude.{◌≡◌, IfOk, IfErr, OnOk, OnErr};
ghost use Rattle.sloth_base.specs.Arrivals.{AreArrivals};
ghost use Rattle.sloth_base.specs.Owners.{owners_in, owners_named};
ghost use Rattle.sloth_base.specs.ImageRange.{InFormat};
ghost use Rattle.sloth_io.specs.Sink.{output_with, GainsPart};
ghost use Rattle.sloth_io.specs.Store.{call_files};
ghost use Rattle.image_file.specs.ImageText.{image_bytes};
ghost use Rattle.sloth_source.specs.Texts.{AreAccepted};
ghost use Rattle.command_line.specs.Command.{Samples};
ghost use Rattle.sloth_runner.specs.Runner.{IsFresh, image_of, given_arrivals};
ghost use Rattle.core_commands.specs.CommandFiles.{inputs_of, AreFirstDelivered};
ghost use Rattle.core_commands.specs.Samples.{sample_oil, sample_source, sample_arrivals, sample_text};
ghost use Rattle.core_commands.specs.Top.{world, IsBuiltImage, IsWritten, IsTextTaken};
ghost use Rattle.core_commands.specs.Failures.{IsSampleFailure, IsPerformFailure, IsCommandFailure, IsPerformed};
ghost use Rattle.command_line.specs.declared.answer.Status.TheVariants.{Done as DoneStatus};
ghost use Rattle.core_commands.specs.ToolTables.{LacksTools};

use crate::Failure;
use crate::build_command::{Judged, build_image};
use app_gen::{Sample, sample};
use image_file::write_image;
use sloth_base::{Arrival, COUNT_LIMIT, Image, TASK_LIMIT};
use sloth_io::{Sink, SinkFault, Store};
use sloth_runner::{Runner, put_summary};
use std::alloc::Global;

// Generates an application, and builds its image.
fn generate(alloc: Global, seed: u32) -> Result<Judged, Failure>
    ensures accepted { IfOk result
        (λ made. AreAccepted sample_oil (sample_source seed) made.built.config made.built.app) }
    ensures image { IfOk result (λ made. IsBuiltImage made.built.config made.built.app made.built.image) }
    ensures arrivals { IfOk result (λ made. made.arrivals ≡ sample_arrivals seed) }
    ensures in_range { IfOk result (λ made. AreArrivals (owners_in made.built.config) made.arrivals) }
    ensures err { IfErr result (λ failure. IsSampleFailure failure seed) }
{
    let Sample { oil, src, arrivals } = sample(alloc, seed, TASK_LIMIT as u32)?;
    let built = build_image(alloc, oil.items(), src.items())?;
    Ok(Judged { built, arrivals })
}

// Runs the image of a runner that has run nothing, and puts the summary.
#[tactic(auto, unfolding(crate::specs::Samples::sample_text))]
fn show<S: Sink>(runner: &mut Runner, out: &mut S) -> Result<(), SinkFault>
    requires fresh { IsFresh runner.old }
    ensures ok { OnOk result (S.seen out.new ≡ output_with (S.seen out.old)
        (sample_text (image_of runner.old) (given_arrivals runner.old))) }
    ensures err { OnErr result
        (GainsPart (S.seen out.old) (S.seen out.new) (sample_text (image_of runner.old) (given_arrivals runner.old))) }
{
    let tally = runner.tally(COUNT_LIMIT);
    put_summary(&tally.counts, out)
}

// Takes all memory of the run, writes the image's file, runs the image, and puts the summary.
fn perform<F: Store, S: Sink>(
    alloc: Global,
    files: &mut F,
    out: &mut S,
    img: &str,
    image: &Image,
    arrivals: &[Arrival],
) -> Result<(), Failure>
    requires format { InFormat image.now }
    requires arrivals { AreArrivals (owners_named image.now) arrivals.now }
    ensures written { OnOk result (IsWritten (F.seen files.old) (F.seen files.new) img.now (image_bytes image.now)) }
    ensures text { OnOk result (IsTextTaken (S.seen out.old) (S.seen out.new) (sample_text image.now arrivals.now)) }
    ensures err { IfErr result (λ failure.
        IsPerformFailure failure (world (F.seen files.old) (S.seen out.old)) (world (F.seen files.new) (S.seen out.new))
        img.now (image_bytes image.now) (sample_text image.now arrivals.now)) }
    ensures reads { (F.seen files.new).reads ≡ (F.seen files.old).reads }
{
    let bytes = write_image(alloc, image)?;
    let mut runner = Runner::new(alloc, image, arrivals)?;
    files
        .write(img, bytes.as_slice())
        .map_err(|_| Failure::WriteFile)?;
    show(&mut runner, out)?;
    Ok(())
}

/// Generates, builds and runs the application of a seed, and puts the run's summary, but no last line of a failure.
pub fn sample_run<F: Store, S: Sink>(
    alloc: Global,
    files: &mut F,
    out: &mut S,
    seed: u32,
    img: &str,
) -> Result<(), Failure>
    ensures done { OnOk result (IsPerformed LacksTools DoneStatus (world (call_files (F.seen files.old)
        (F.seen files.new)) (S.seen out.old)) (world (F.seen files.new) (S.seen out.new)) (Samples seed img.now)) }
    ensures err { IfErr result (λ failure. IsCommandFailure LacksTools failure (world (call_files (F.seen files.old)
        (F.seen files.new)) (S.seen out.old)) (world (F.seen files.new) (S.seen out.new)) (Samples seed img.now)) }
    ensures reads { AreFirstDelivered (F.seen files.old) (F.seen files.new) (inputs_of (Samples seed img.now)) }
{
    let made = generate(alloc, seed)?;
    perform(
        alloc,
        files,
        out,
        img,
        &made.built.image,
        made.arrivals.items(),
    )
}
