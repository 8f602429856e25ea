//! What a configuration, its task source and arrivals mean; an image file and arrivals.
ghost use Rattle.std.specs.Prelude.{◌<◌, IfOk, IfErr, length, ◌≡◌, ◌≤◌};
ghost use Rattle.sloth_base.specs.Arrivals.{AreArrivals};
ghost use Rattle.sloth_base.specs.Owners.{owners_in, owners_named};
ghost use Rattle.code_rules.specs.WellFormed.{WellFormed};
ghost use Rattle.sloth_base.specs.Order.{ErrorIs};
ghost use Rattle.trace_text.specs.ArrivalsText.{ArrivalsFault};
ghost use Rattle.sloth_source.specs.Texts.{AreAccepted};
ghost use Rattle.run_inputs.specs.Inputs.{AreArrivalsOf, InputsErrorIs};
ghost use Rattle.sloth_base.specs.DeclaredNames.{task_names, counter_names};
ghost use Rattle.sloth_base.specs.ImageRange.{InFormat};
ghost use Rattle.sloth_base.specs.Limits.{file_limit};
ghost use Rattle.run_inputs.specs.RunInputs.{AreRunInputs, AreUnread, image_unread, arrivals_unread};

use image_file::{ImageError, ImageFault, read_image};
use sloth_base::{App, Arrival, BuildError, Config, Image, Refusal, counter_names, task_names};
use sloth_source::{Source, read};
use std::alloc::Global;
use trace_text::read_arrivals;

/// A configuration, its task code and arrivals of its tasks and counters.
pub struct Inputs {
    pub config: Config,
    pub app: App,
    pub arrivals: Vec<Arrival>,
}

// Written out: what is derived is proved anew wherever a value is let go.
impl Drop for Inputs {
    fn drop(self) {
        let Inputs {
            config: _,
            app: _,
            arrivals: _,
        } = self;
    }
}

/// The arrivals of a text of at most 4,294,967,294 bytes, for a configuration; or its least fault, T1 to T4.
pub fn config_arrivals(
    alloc: Global,
    config: &Config,
    arr: &[u8],
) -> Result<Vec<Arrival>, BuildError>
    requires { length arr.now < 4294967295 }
    ensures read { IfOk result
        (λ arrivals. AreArrivalsOf (task_names config.now) (counter_names config.now) arr.now arrivals.items) }
    ensures in_range { IfOk result (λ arrivals. AreArrivals (owners_in config.now) arrivals.items) }
    ensures refused { IfErr result
        (λ error. ErrorIs (ArrivalsFault (task_names config.now) (counter_names config.now) arr.now) error) }
{
    let names = task_names(alloc, config)?;
    let counters = counter_names(alloc, config)?;
    read_arrivals(alloc, arr, names.items(), counters.items())
}

/// What the texts mean, or their first refusal.
pub fn read_inputs(alloc: Global, oil: &[u8], src: &[u8], arr: &[u8]) -> Result<Inputs, BuildError>
    requires oil { length oil.now < 4294967295 }
    requires src { length src.now < 4294967295 }
    requires arr { length arr.now < 4294967295 }
    ensures accepted { IfOk result (λ inputs. AreAccepted oil.now src.now inputs.config inputs.app) }
    ensures well_formed { IfOk result (λ inputs. WellFormed inputs.config inputs.app) }
    ensures read { IfOk result
        (λ inputs. AreArrivalsOf (task_names inputs.config)
        (counter_names inputs.config) arr.now inputs.arrivals.items) }
    ensures in_range { IfOk result (λ inputs. AreArrivals (owners_in inputs.config) inputs.arrivals.items) }
    ensures refused { IfErr result (InputsErrorIs oil.now src.now arr.now) }
{
    let Source { config, app, .. } = read(alloc, oil, src)?;
    let arrivals = config_arrivals(alloc, &config, arr)?;
    Ok(Inputs {
        config,
        app,
        arrivals,
    })
}

/// An image, and the arrivals of its run.
#[derive(Drop)]
pub struct RunInputs {
    pub image: Image,
    pub arrivals: Vec<Arrival>,
}

/// Why they were not read.
#[derive(Clone, Copy)]
pub enum Unread {
    NotAnImage(ImageFault),
    Refused(Refusal),
    NoMemory,
}

impl From<ImageError> for Unread {
    ghost from_gives = { λ error unread. unread ≡ image_unread error };

    fn from(error: ImageError) -> Unread {
        match error {
            ImageError::Fault(fault) => Unread::NotAnImage(fault),
            ImageError::Memory => Unread::NoMemory,
        }
    }
}

// Of an error that the reading of the arrivals ends with.
impl From<BuildError> for Unread {
    ghost from_gives = { λ error unread. unread ≡ arrivals_unread error };

    fn from(error: BuildError) -> Unread {
        match error {
            BuildError::Refused(refusal) => Unread::Refused(refusal),
            BuildError::Memory => Unread::NoMemory,
        }
    }
}

/// Reads an image file, and arrivals by its names.
pub fn read_run(alloc: Global, img: &[u8], arr: &[u8]) -> Result<RunInputs, Unread>
    requires { length arr.now ≤ file_limit }
    ensures inputs { IfOk result (λ run. AreRunInputs img.now arr.now run.image run.arrivals.items) }
    ensures format { IfOk result (λ run. InFormat run.image) }
    ensures in_range { IfOk result (λ run. AreArrivals (owners_named run.image) run.arrivals.items) }
    ensures err { IfErr result (λ unread. AreUnread img.now arr.now unread) }
{
    let image = read_image(alloc, img)?;
    let arrivals = read_arrivals(alloc, arr, image.tasks.items(), image.counters.items())?;
    Ok(RunInputs { image, arrivals })
}
