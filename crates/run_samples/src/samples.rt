//! Samples of a run: one at each count, after the arrivals of the count and before a line is taken.
//! Where a run stands at a count. The service words of a run at a count.
ghost use Rattle.std.specs.Prelude.{◌≡◌, ◌<◌, ◌+◌, OnOk, IfOk, IfErr, ◌≤◌};
ghost use Rattle.sloth_base.specs.ImageRange.{InFormat};
ghost use Rattle.sloth_base.specs.Arrivals.{AreArrivals};
ghost use Rattle.sloth_base.specs.Owners.{owners_named};
ghost use Rattle.sloth_base.specs.Limits.{count_limit};
ghost use Rattle.run_samples.specs.Samples.{AreSampledLevels, IsSample, IsSampling, StopsAt, seen_behind, sampled_image, sampled_arrivals, sampled_count};
ghost use Rattle.run_samples.specs.Addresses.{address_behind};
ghost use Rattle.run_samples.specs.ServiceWords.{words_behind, AreWordsRead};

use crate::Access;
use crate::accesses::step_access;
use sloth_base::{Arrival, Image, Line, Result, TASK_LIMIT};
pub use sloth_inspect::ServiceWords;
use sloth_inspect::service_words::service_words;
use sloth_runner::task_states::Seen;
use sloth_runner::{Halt, Interrupts, Runner, interrupts_shown, level_bytes, tasks_seen};
use std::alloc::Global;

/// What a run shows at a count.
#[derive(Clone, Copy)]
pub struct Sample {
    /// The tasks, as of the last count up to this one that finds interrupts open, if one does.
    pub seen: Option<Seen>,
    pub interrupts: Interrupts,
    /// The line that is taken before the count's instruction, if one is.
    pub taken: Option<Line>,
    /// What masked code does with a pending byte.
    pub access: Option<Access>,
}

/// A run of an image, taken count by count. It keeps image and arrivals, lent, and of samples the last one's tasks.
pub struct Sampler<'a> {
    pub(crate) runner: Runner<'a>,
    pub(crate) last: Option<Seen>,
}

// Written out: what is derived is proved anew wherever a value is let go.
impl Drop for Sampler<'_> {
    fn drop(self) {
        let Sampler { runner: _, last: _ } = self;
    }
}

impl<'a> Sampler<'a> {
    /// A sampler that has run nothing, with all memory of a run.
    pub fn new(alloc: Global, image: &'a Image, arrivals: &'a [Arrival]) -> Result<Sampler<'a>>
        requires format { InFormat image.now }
        requires arrivals { AreArrivals (owners_named image.now) arrivals.now }
        ensures sampling { IfOk result IsSampling }
        ensures image { IfOk result (λ sampler. sampled_image sampler ≡ image.now) }
        ensures arrivals { IfOk result (λ sampler. sampled_arrivals sampler ≡ arrivals.now) }
        ensures fresh { IfOk result (λ sampler. sampled_count sampler ≡ 0) }
    {
        let runner = Runner::new(alloc, image, arrivals)?;
        Ok(Sampler { runner, last: None })
    }

    /// The sample of the next count, whose instruction is then executed, unless the machine stops at it.
    pub fn next(&mut self) -> Result<Sample, Halt>
        requires few { sampled_count self.old < count_limit }
        requires sampling { IsSampling self.old }
        ensures sample { IfOk result (IsSample (sampled_image self.old) (sampled_arrivals self.old)
            (sampled_count self.old)) }
        ensures stops { IfErr result (StopsAt (sampled_image self.old) (sampled_arrivals self.old)
            (sampled_count self.old)) }
        ensures sampling { OnOk result (IsSampling self.new) }
        ensures count { OnOk result (sampled_count self.new ≡ sampled_count self.old + 1) }
        ensures image { sampled_image self.new ≡ sampled_image self.old }
        ensures arrivals { sampled_arrivals self.new ≡ sampled_arrivals self.old }
    {
        self.runner.arrive_now();
        self.last = tasks_seen(&mut self.runner).or(self.last);
        let interrupts = interrupts_shown(&mut self.runner);
        match self.runner.execute() {
            Ok(step) => {
                let access = step_access(&mut self.runner, &step);
                let (seen, taken) = (self.last, step.entered);
                Ok(Sample {
                    seen,
                    interrupts,
                    taken,
                    access,
                })
            }
            Err(halt) => Err(halt),
        }
    }

    /// What is seen of the tasks in front of the arrivals of the next count.
    pub(crate) fn look(&mut self) -> Option<Seen>
        requires sampling { IsSampling self.old }
        ensures seen { result ≡ seen_behind (sampled_image self.old) (sampled_arrivals self.old)
            (sampled_count self.old) }
        ensures same { self.new ≡ self.old }
    {
        tasks_seen(&mut self.runner)
    }

    /// The levels of the lines of the image's tasks, in `TASK_LIMIT` places.
    pub fn levels(&mut self) -> [u8; TASK_LIMIT]
        requires sampling { IsSampling self.old }
        ensures levels { AreSampledLevels (sampled_image self.old) (sampled_arrivals self.old)
            (sampled_count self.old) result }
        ensures same { self.new ≡ self.old }
    {
        level_bytes(&mut self.runner)
    }

    /// The address of the instruction of the next count, where no line is taken there.
    pub fn address(&self) -> u32
        requires { IsSampling self.now }
        ensures { result ≡ address_behind (sampled_image self.now) (sampled_arrivals self.now)
            (sampled_count self.now) }
    {
        self.runner.machine.pc()
    }
}

/// What is read of the service words at a count of a run.
#[derive(Clone, Copy)]
pub enum WordsRead {
    At(ServiceWords),
    /// The machine stops before.
    Stopped(Halt),
}

impl<'a> Sampler<'a> {
    ghost use Rattle.run_samples.specs.Samples.{IsSampling, sampled_image, sampled_arrivals, sampled_count};

    /// What the service words say at the next count.
    pub fn service_words(&mut self) -> ServiceWords
        requires sampling { IsSampling self.old }
        ensures words { result ≡ words_behind (sampled_image self.old) (sampled_arrivals self.old)
            (sampled_count self.old) }
        ensures same { self.new ≡ self.old }
    {
        service_words(self.runner.machine.bus_mut())
    }

    // Runs up to this count, and tells what the service words say there.
    fn words_behind(&mut self, count: u32) -> WordsRead
        requires sampling { IsSampling self.old }
        requires fresh { sampled_count self.old ≡ 0 }
        requires few { count ≤ count_limit }
        ensures { AreWordsRead (sampled_image self.old) (sampled_arrivals self.old) count result }
    {
        while self.runner.machine.count < count {
            if let Err(halt) = self.next() {
                return WordsRead::Stopped(halt);
            }
        }
        WordsRead::At(self.service_words())
    }
}

/// What the service words say at a count of the run of an image with arrivals.
pub fn words_at(alloc: Global, image: &Image, arrivals: &[Arrival], count: u32) -> Result<WordsRead>
    requires format { InFormat image.now }
    requires arrivals { AreArrivals (owners_named image.now) arrivals.now }
    requires count { count ≤ count_limit }
    ensures { IfOk result (AreWordsRead image.now arrivals.now count) }
{
    let mut sampler = Sampler::new(alloc, image, arrivals)?;
    Ok(sampler.words_behind(count))
}
