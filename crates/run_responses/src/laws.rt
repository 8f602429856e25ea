//! The law of computed response times.
ghost use Rattle.run_responses.specs.Meeting.{ImagesMeetBounds};

/// Where a built image's run keeps a load and its `work` lines, a task responds within the bounds of its starts by
/// costs that runs keep, less the longest item and a stretch; if the run has so many instructions more.
pub fn images_meet_bounds()
    ensures { ImagesMeetBounds }
{}
