//! Laws of runs.
ghost use Rattle.osek_blocking.specs.RunLaws.{RunsKeepBounds, RunsKeepCounts};

/// From an event that makes a task Ready up to its entry, lower tasks have at most as many `run` and `call` events as
/// the task's bound says, in every run of well-formed task code.
pub fn runs_keep_bounds()
    ensures { RunsKeepBounds }
{}

/// In such runs, where each event but the boot ends at most 200 counts behind the event before it, admits left out (an
/// `enter` or a `tick`: 40 and its own counts), lower tasks spend at most 200 times the bound.
pub fn runs_keep_counts()
    ensures { RunsKeepCounts }
{}
