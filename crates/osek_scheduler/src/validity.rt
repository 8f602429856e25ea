//! Laws of systems with well-formed task code. Laws of the definitions.
ghost use Rattle.osek_scheduler.specs.WellFormedRuns.{OpeningIsValid, StepsKeepValid, StepsKeepApart, RunsAreValid};
ghost use Rattle.osek_scheduler.specs.WellFormedRuns.{ItemsMean, RunningGoesOn, RunsNeverStick, TasksAreTidy};
ghost use Rattle.osek_scheduler.specs.StepsDecided.{StepIsComputed};

/// The system is valid before it has started.
pub fn opening_is_valid()
    ensures { OpeningIsValid }
{}

/// Each step keeps a state valid.
pub fn steps_keep_valid()
    ensures { StepsKeepValid }
{}

/// Each step keeps the order of the tasks that were entered.
pub fn steps_keep_apart()
    ensures { StepsKeepApart }
{}

/// Each state of a run is valid, and in it no two tasks hold one resource.
pub fn runs_are_valid()
    ensures { RunsAreValid }
{}

/// A task never runs off the end of its code, and each of its items is a service or has a meaning.
pub fn items_mean()
    ensures { ItemsMean }
{}

/// The running task always has a next event that is no admission.
pub fn running_goes_on()
    ensures { RunningGoesOn }
{}

/// Each valid state has a next event that is no admission.
pub fn runs_never_stick()
    ensures { RunsNeverStick }
{}

/// What a valid state says of each task.
pub fn tasks_are_tidy()
    ensures { TasksAreTidy }
{}

/// An event has a next state exactly where the computed step finds one, and it is that one: so there is at most one.
pub fn step_is_computed()
    ensures { StepIsComputed }
{}
