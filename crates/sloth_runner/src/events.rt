//! The events of a run, in a list.
ghost use Rattle.std.specs.Prelude.{◌≡◌, ◌≤◌, ◌++◌, [], IfOk, OnOk};
ghost use Rattle.sloth_base.specs.Arrivals.{AreArrivals};
ghost use Rattle.sloth_base.specs.ImageRange.{InFormat};
ghost use Rattle.sloth_base.specs.Limits.{count_limit};
ghost use Rattle.sloth_base.specs.Owners.{owners_named};
ghost use Rattle.observe.specs.Progress.{remaining, view_of, arrivals_of, expected_count};
ghost use Rattle.sim_induction.specs.Sound.{events_of};
ghost use Rattle.sloth_runner.specs.Moments.{IsHandedOut};

use crate::Runner;
use observe::Observer;
use sloth_base::{Arrival, Image, Result, Stamped};
use std::alloc::Global;
use text_pieces::push;

fn add_events(observer: &mut Observer, events: &mut Vec<Stamped>) -> Result<()>
    ensures added { OnOk result (events.new.items ≡ events.old.items ++ remaining observer.old) }
    ensures drained { OnOk result (remaining observer.new ≡ []) }
    ensures fed { OnOk result (IsHandedOut observer.old observer.new) }
    ensures view { view_of observer.new ≡ view_of observer.old }
    ensures arrivals { arrivals_of observer.new ≡ arrivals_of observer.old }
    ensures expected { expected_count observer.new ≡ expected_count observer.old }
{
    while let Some(event) = observer.next() {
        push(events, event)?;
    }
    Ok(())
}

impl<'a> Runner<'a> {
    ghost use Rattle.sloth_runner.specs.Runner.{IsFresh, image_of, given_arrivals};

    /// Runs n instructions, at most `COUNT_LIMIT`, and gives their events; where the machine stops before, those up to there.
    pub fn events(&mut self, alloc: Global, n: u32) -> Result<Vec<Stamped>>
        requires fresh { IsFresh self.old }
        requires few { n ≤ count_limit }
        ensures { IfOk result (λ events. events.items ≡ events_of (image_of self.old) (given_arrivals self.old) n) }
    {
        let mut events = Vec::new(alloc);
        while self.machine.count < n {
            if let Some(end) = self.advance() {
                return Ok(events);
            }
            add_events(&mut self.observer, &mut events)?;
        }
        Ok(events)
    }
}

/// The events of n instructions, at most `COUNT_LIMIT`, of a run of an image.
pub fn run_events(alloc: Global, image: &Image, coming: &[Arrival], n: u32) -> Result<Vec<Stamped>>
    requires format { InFormat image.now }
    requires arrivals { AreArrivals (owners_named image.now) coming.now }
    requires few { n ≤ count_limit }
    ensures { IfOk result (λ events. events.items ≡ events_of image.now coming.now n) }
{
    let mut runner = Runner::new(alloc, image, coming)?;
    runner.events(alloc, n)
}
