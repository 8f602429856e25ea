//! Laws of runs of the abstract scheduler.
ghost use Rattle.osek_blocking.specs.NextEvents.{OneNextEvent, OneRun, RunsWithoutArrivals};

/// Where no arrival made a task Ready since the last event, one event at most comes next, admissions aside.
pub fn one_next_event()
    ensures { OneNextEvent }
{}

/// Without arrivals there is one run of each length at most.
pub fn one_run()
    ensures { OneRun }
{}

/// Without arrivals the events of a run in time are the only run of their length.
pub fn runs_without_arrivals()
    ensures { RunsWithoutArrivals }
{}
