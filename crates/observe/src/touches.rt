//! The lines that an open stretch touched.
ghost use Rattle.std.specs.Prelude.{◌≡◌, ◌+◌, ◌<◌, filter, not, true, false, replicate, IfSome, slice_get, slice_set};
ghost use Rattle.observe.specs.Touches.{was_touched};

use sloth_base::{Arrival, Line};
use std::marker::Model;

/// For each line the count after the last step that touched it, or 0. Contracts see these 256 numbers.
#[derive(Drop)]
pub struct Touches {
    counts: [u64; 256],
    // Nothing was noted, so that there is nothing to clear.
    is_clear: bool,
}

impl Model for Touches {
    ghost use Rattle.std.specs.Prelude.{◌≡◌, List, ℕ, true, replicate};

    ghost Value = { List ℕ };

    ghost view = { λ touches. touches.counts };

    ghost invariant = { λ touches. touches.is_clear ≡ true → touches.counts ≡ replicate 256 0 };
}

impl Touches {
    /// No line was touched.
    pub fn new() -> Touches
        ensures { result ≡ replicate 256 0 }
    {
        Touches {
            counts: [0; 256],
            is_clear: true,
        }
    }

    /// No line was touched.
    pub fn clear(&mut self)
        ensures { self.new ≡ replicate 256 0 }
    {
        if !self.is_clear {
            self.counts = [0; 256];
            self.is_clear = true;
        }
    }

    /// The line was touched by the step of this count.
    pub fn note(&mut self, line: &Line, count: u32)
        ensures place { line.now < 256 }
        ensures noted { self.new ≡ slice_set self.old line.now (count + 1) }
    {
        self.counts[usize::from(line.0)] = u64::from(count) + 1;
        self.is_clear = false;
    }

    /// The arrival's line was touched at its moment or later.
    fn has(&self, arrival: &Arrival) -> bool
        ensures { result ≡ was_touched self.now arrival.now }
    {
        u64::from(arrival.at) < self.counts[usize::from(arrival.line.0)]
    }
}

/// From the first early arrival on.
pub fn skip_late<'a>(arrivals: &'a [Arrival], touched: &Touches) -> &'a [Arrival]
    ensures kept { filter (was_touched touched.now) result.now ≡ filter (was_touched touched.now) arrivals.now }
    ensures head { IfSome (slice_get result.now 0) (λ arrival. was_touched touched.now arrival ≡ true) }
{
    let mut rest = arrivals;
    while let Some((arrival, behind)) = rest.split_first() {
        if touched.has(arrival) {
            return rest;
        }
        rest = behind;
    }
    rest
}

/// From the first late arrival on.
pub fn skip_early<'a>(arrivals: &'a [Arrival], touched: &Touches) -> &'a [Arrival]
    ensures kept { filter (λ arrival. not (was_touched touched.now arrival)) result.now
        ≡ filter (λ arrival. not (was_touched touched.now arrival)) arrivals.now }
    ensures head { IfSome (slice_get result.now 0) (λ arrival. was_touched touched.now arrival ≡ false) }
{
    let mut rest = arrivals;
    while let Some((arrival, behind)) = rest.split_first() {
        if !touched.has(arrival) {
            return rest;
        }
        rest = behind;
    }
    rest
}
