//! Laws of the runs of an image.
ghost use Rattle.run_counts.specs.BlockingBounds.{SoundRunsKeepBlockingBounds};

/// Every run of an image of well-formed task code for which the builder's promise holds keeps the blocking bounds: from
/// becoming Ready to its entry a task waits for at most as many `run` and `call` events of lower tasks as its bound,
/// and 200 counts for each; the task of highest priority is entered within its latency and the ticks' time on the way.
pub fn sound_runs_keep_blocking_bounds()
    ensures { SoundRunsKeepBlockingBounds }
{}
