//! Counts what is observed of a run. Counts events.
ghost use Rattle.std.specs.Prelude.{◌≡◌, ◌≤◌, ◌<◌, ◌+◌, ◌^◌, [], All, length};
ghost use Rattle.sloth_base.specs.Limits.{count_limit};
ghost use Rattle.sim_induction.specs.Sound.{events_of};
ghost use Rattle.trace_text.specs.Summary.{counts_of};
ghost use Rattle.observe.specs.Progress.{remaining, view_of, arrivals_of, expected_count};
ghost use Rattle.sloth_runner.specs.Moments.{IsHandedOut, counts_with};

use crate::{RunEnd, Runner};
use observe::Observer;
use trace_text::{KINDS, kind_of};

/// The numbers of the events of each kind, in the order of the summary, and how the run ended.
#[derive(Clone, Copy)]
pub struct Tally {
    pub counts: [u32; KINDS],
    pub end: RunEnd,
}

impl<'a> Runner<'a> {
    ghost use Rattle.sloth_runner.specs.Runner.{IsFresh, image_of, given_arrivals, run_end};

    /// Runs n instructions, at most `COUNT_LIMIT`, and counts the events.
    pub fn tally(&mut self, n: u32) -> Tally
        requires fresh { IsFresh self.old }
        requires few { n ≤ count_limit }
        ensures counts { result.counts ≡ counts_of (events_of (image_of self.old) (given_arrivals self.old) n) }
        ensures end { result.end ≡ run_end (image_of self.old) (given_arrivals self.old) n }
    {
        let mut counts = [0; KINDS];
        while self.machine.count < n {
            if let Some(end) = self.advance() {
                return Tally { counts, end };
            }
            count_events(&mut self.observer, &mut counts);
        }
        Tally {
            counts,
            end: RunEnd::Whole,
        }
    }
}

/// Counts all finished events.
pub fn count_events(observer: &mut Observer, counts: &mut [u32; KINDS])
    requires room { All (λ number. number + length (remaining observer.old) < 2 ^ 32) counts.old }
    ensures counts { counts.new ≡ counts_with counts.old (remaining observer.old) }
    ensures drained { remaining observer.new ≡ [] }
    ensures fed { IsHandedOut observer.old observer.new }
    ensures view { view_of observer.new ≡ view_of observer.old }
    ensures arrivals { arrivals_of observer.new ≡ arrivals_of observer.old }
    ensures expected { expected_count observer.new ≡ expected_count observer.old }
{
    while let Some(event) = observer.next() {
        counts[kind_of(&event.event)] += 1;
    }
}
