//! Laws of the definitions.
ghost use Rattle.sloth_commands.specs.BuiltFormulas.{BuiltFilesAreRight};
ghost use Rattle.sloth_commands.specs.BuiltRegisters.{BuiltImagesShowRegisters};
ghost use Rattle.sloth_commands.specs.BuiltResponses.{BuiltRunsKeepResponses};
ghost use Rattle.sloth_commands.specs.BuiltRuns.{BuiltRunsAreChecked, BuiltRunsHaveRequests};
ghost use Rattle.sloth_commands.specs.BuiltRuns.{BuiltRunsKeepBlockingBounds};
ghost use Rattle.sloth_commands.specs.CheckedRuns.{SoundRunsAreChecked};
ghost use Rattle.sloth_commands.specs.PrintedMap.{PrintsMapOfImage};

/// The map that `map` prints of texts is that by which each piece of their image stands.
pub fn prints_map_of_image()
    ensures { PrintsMapOfImage }
{}

/// Every run of an image that is built keeps the blocking bounds: from becoming Ready up to its entry a task waits for
/// at most as many `run` and `call` events of lower tasks as its bound, and 200 counts for each; and the task of
/// highest priority is entered within its latency and the time of the ticks on the way.
pub fn built_runs_keep_blocking_bounds()
    ensures { BuiltRunsKeepBlockingBounds }
{}

/// Every run of an image that is built keeps what `response` tells of its texts and a load, if it keeps the load.
pub fn built_runs_keep_responses()
    ensures { BuiltRunsKeepResponses }
{}

/// The text of a run of a sound image, in the counted form, is that of a run of the abstract scheduler in which the
/// arrivals are admitted in time: the checker of texts answers yes.
pub fn runs_are_checked()
    ensures { SoundRunsAreChecked }
{}

/// The same of every run of an image that is built.
pub fn built_runs_are_checked()
    ensures { BuiltRunsAreChecked }
{}

/// The formulas of the file that `orti` writes of texts show, wherever a run of an image that is built of them finds
/// interrupts open, what the abstract scheduler has.
pub fn built_files_are_right()
    ensures { BuiltFilesAreRight }
{}

/// Where a run of a built image finds interrupts open, the task registers `debug` shows are the abstract scheduler's.
pub fn built_images_show_registers()
    ensures { BuiltImagesShowRegisters }
{}

/// Every run of a built image asks of tasks and counters what `losses` counts, by the states of the abstract scheduler.
pub fn built_runs_have_requests()
    ensures { BuiltRunsHaveRequests }
{}
