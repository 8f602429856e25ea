//! The commands that build an image: `build`, `run` and `order`, in steps.
//! Builds an image, with what holds of each of its runs. Reads the files that a command names.
ghost use Rattle.std.specs.Prelude.{◌≡◌, ◌≤◌, IfOk, IfErr, OnOk, length, ◌<◌, [], ◌∷◌};
ghost use Rattle.sloth_base.specs.Arrivals.{AreArrivals};
ghost use Rattle.sloth_base.specs.Owners.{owners_in, owners_named};
ghost use Rattle.sloth_base.specs.ImageRange.{InFormat};
ghost use Rattle.sloth_base.specs.Limits.{file_limit};
ghost use Rattle.sloth_io.specs.Store.{KeepsFiles, AreDelivered, Holds};
ghost use Rattle.image_file.specs.ImageText.{image_bytes};
ghost use Rattle.sloth_source.specs.Texts.{AreAccepted, SourcesErrorIs};
ghost use Rattle.command_line.specs.Command.{Builds, IsInLimit};
ghost use Rattle.command_line.specs.Words.{building_of, run_of};
ghost use Rattle.run_inputs.specs.Inputs.{AreArrivalsOf};
ghost use Rattle.command_line.specs.LastLine.{built_line};
ghost use Rattle.core_commands.specs.Top.{world, arrival_deliveries, text_deliveries, AreInputs, HoldsArrivals};
ghost use Rattle.core_commands.specs.Top.{IsBuiltImage, IsWritten, done_text, IsTextTaken};
ghost use Rattle.core_commands.specs.CommandFiles.{AreFirstDelivered, arrivals_named, inputs_of};
ghost use Rattle.sloth_base.specs.DeclaredNames.{task_names, counter_names};
ghost use Rattle.core_commands.specs.Failures.{IsReadFailure, IsJudgeFailure, IsPerformFailure, IsFetchFailure};

use crate::Failure;
use command_line::{BuildWords, RunWords, built_line};
use image_file::write_image;
use sloth_base::{Arrival, BuildError, FILE_LIMIT, Image, List};
use sloth_build::{Built, build};
use sloth_io::{Sink, Store};
use sloth_runner::Runner;
use std::alloc::Global;
use trace_text::read_arrivals;

/// The texts that are built from, and the arrivals.
pub struct Inputs {
    pub oil: Vec<u8>,
    pub src: Vec<u8>,
    pub arr: Vec<u8>,
}

// Written out: what is derived is proved anew wherever a value is let go.
impl Drop for Inputs {
    fn drop(self) {
        let Inputs {
            oil: _,
            src: _,
            arr: _,
        } = self;
    }
}

// The arrivals of a run; a command that runs nothing has none.
fn fetch_arrivals<F: Store>(
    alloc: Global,
    files: &mut F,
    run: &Option<RunWords>,
) -> Result<Vec<u8>, Failure>
    ensures ok { IfOk result (λ bytes. HoldsArrivals (F.seen files.old) (run_of run.now) bytes.items) }
    ensures short { IfOk result (λ bytes. length bytes.items ≤ file_limit) }
    ensures err { IfErr result (λ failure.
        IsReadFailure failure (F.seen files.old) (F.seen files.new) (arrivals_named (run_of run.now))) }
    ensures keeps { KeepsFiles (F.seen files.old) (F.seen files.new) }
    ensures nothing { IfErr result (λ _. (F.seen files.new).reads ≡ (F.seen files.old).reads) }
    ensures delivered { IfOk result (λ bytes. AreDelivered (F.seen files.old) (F.seen files.new)
        (arrival_deliveries (run_of run.now) bytes.items)) }
{
    match run {
        None => Ok(Vec::new(alloc)),
        Some(run) => fetch(alloc, files, run.arr),
    }
}

/// Reads the inputs, in the order of the words.
pub fn read_inputs<F: Store>(
    alloc: Global,
    files: &mut F,
    c: &BuildWords,
) -> Result<Inputs, Failure>
    ensures ok { IfOk result
        (λ i. AreInputs (F.seen files.old) (building_of c.now) i.oil.items i.src.items i.arr.items) }
    ensures err { IfErr result (λ failure. IsReadFailure failure (F.seen files.old) (F.seen files.new)
        (inputs_of (Builds (building_of c.now)))) }
    ensures keeps { KeepsFiles (F.seen files.old) (F.seen files.new) }
    ensures delivered { IfOk result (λ i. AreDelivered (F.seen files.old) (F.seen files.new)
        (text_deliveries (building_of c.now) i.oil.items i.src.items i.arr.items)) }
    ensures front { IfErr result
        (λ _. AreFirstDelivered (F.seen files.old) (F.seen files.new) (inputs_of (Builds (building_of c.now)))) }
{
    let oil = fetch(alloc, files, c.oil)?;
    let src = fetch(alloc, files, c.src)?;
    let arr = fetch_arrivals(alloc, files, &c.run)?;
    Ok(Inputs { oil, src, arr })
}

/// What is built, and the arrivals.
pub struct Judged {
    pub built: Built,
    pub arrivals: List<Arrival>,
}

// Written out: what is derived is proved anew wherever a value is let go.
impl Drop for Judged {
    fn drop(self) {
        let Judged {
            built: _,
            arrivals: _,
        } = self;
    }
}

/// Judges the inputs, and builds the image.
pub fn judge(alloc: Global, inputs: &Inputs) -> Result<Judged, Failure>
    requires oil { length inputs.now.oil.items ≤ file_limit }
    requires src { length inputs.now.src.items ≤ file_limit }
    requires arr { length inputs.now.arr.items ≤ file_limit }
    ensures accepted { IfOk result
        (λ judged. AreAccepted inputs.now.oil.items inputs.now.src.items judged.built.config judged.built.app) }
    ensures image { IfOk result (λ judged. IsBuiltImage judged.built.config judged.built.app judged.built.image) }
    ensures read { IfOk result (λ judged. AreArrivalsOf (task_names judged.built.config)
        (counter_names judged.built.config) inputs.now.arr.items judged.arrivals) }
    ensures in_range { IfOk result (λ judged. AreArrivals (owners_in judged.built.config) judged.arrivals) }
    ensures err { IfErr result
        (λ failure. IsJudgeFailure failure inputs.now.oil.items inputs.now.src.items inputs.now.arr.items) }
{
    let built = build_image(alloc, inputs.oil.as_slice(), inputs.src.as_slice())?;
    let arrivals = read_arrivals(
        alloc,
        inputs.arr.as_slice(),
        built.image.tasks.items(),
        built.image.counters.items(),
    )?;
    Ok(Judged {
        built,
        arrivals: List::from_vec(arrivals),
    })
}

/// Writes the image's file, runs the image where the words say so, and puts the lines.
pub fn perform<F: Store, S: Sink>(
    alloc: Global,
    files: &mut F,
    out: &mut S,
    c: &BuildWords,
    image: &Image,
    arrivals: &[Arrival],
) -> Result<(), Failure>
    requires format { InFormat image.now }
    requires arrivals { AreArrivals (owners_named image.now) arrivals.now }
    requires few { IsInLimit (run_of c.now.run) }
    ensures written { OnOk result
        (IsWritten (F.seen files.old) (F.seen files.new) c.now.img.now (image_bytes image.now)) }
    ensures text { OnOk result
        (IsTextTaken (S.seen out.old) (S.seen out.new) (done_text image.now arrivals.now (run_of c.now.run))) }
    ensures err { IfErr result (λ failure.
        IsPerformFailure failure (world (F.seen files.old) (S.seen out.old)) (world (F.seen files.new) (S.seen out.new))
        c.now.img.now (image_bytes image.now) (done_text image.now arrivals.now (run_of c.now.run))) }
    ensures reads { (F.seen files.new).reads ≡ (F.seen files.old).reads }
{
    let bytes = write_image(alloc, image)?;
    match &c.run {
        None => {
            files
                .write(c.img, bytes.as_slice())
                .map_err(|_| Failure::WriteFile)?;
            out.put(built_line(bytes.len()).bytes())?;
            Ok(())
        }
        Some(run) => {
            let mut runner = Runner::new(alloc, image, arrivals)?;
            files
                .write(c.img, bytes.as_slice())
                .map_err(|_| Failure::WriteFile)?;
            runner.run(run.n, run.form, out)?;
            Ok(())
        }
    }
}

/// Builds the image of a configuration and its task source. Each of its runs keeps the ceiling protocol.
pub fn build_image(alloc: Global, oil: &[u8], src: &[u8]) -> Result<Built, BuildError>
    requires oil { length oil.now < 4294967295 }
    requires src { length src.now < 4294967295 }
    ensures accepted { IfOk result (λ built. AreAccepted oil.now src.now built.config built.app) }
    ensures image { IfOk result (λ built. IsBuiltImage built.config built.app built.image) }
    ensures names { IfOk result (λ built. built.image.tasks ≡ task_names built.config) }
    ensures counters { IfOk result (λ built. built.image.counters ≡ counter_names built.config) }
    ensures refused { IfErr result (SourcesErrorIs oil.now src.now) }
{
    let built = build(alloc, oil, src)?;
    Ok(built)
}

/// The bytes of a file, of which there are at most 4 MiB.
pub fn fetch<F: Store>(alloc: Global, files: &mut F, name: &str) -> Result<Vec<u8>, Failure>
    ensures ok { IfOk result (λ bytes. Holds (F.seen files.old) name.now bytes.items) }
    ensures short { IfOk result (λ bytes. length bytes.items ≤ file_limit) }
    ensures err { IfErr result (λ failure. IsFetchFailure failure (F.seen files.old) (F.seen files.new) name.now) }
    ensures keeps { KeepsFiles (F.seen files.old) (F.seen files.new) }
    ensures nothing { IfErr result (λ _. (F.seen files.new).reads ≡ (F.seen files.old).reads) }
    ensures delivered { IfOk result
        (λ bytes. AreDelivered (F.seen files.old) (F.seen files.new) ((name.now, bytes.items) ∷ [])) }
{
    let mut bytes = Vec::new(alloc);
    files.read(name, FILE_LIMIT, &mut bytes)?;
    Ok(bytes)
}
