//! Laws of the definitions.
ghost use Rattle.std.specs.Prelude.{List};
ghost use Rattle.sloth_base.specs.Arrivals.{AreArrivals};
ghost use Rattle.sloth_base.specs.declared.service.Arrival.{Arrival};
ghost use Rattle.sloth_base.specs.declared.numbers.Owners.{Owners};
ghost use Rattle.sim_induction.specs.Endless.{SoundForEver};
ghost use Rattle.sim_induction.specs.Observed.{StretchesAreTraced};
ghost use Rattle.sim_induction.specs.Passing.{StaysTop, PassesOverInner};
ghost use Rattle.sim_induction.specs.Sound.{AreComing};

/// The arrivals that a file may have are among those with which each run of an image is sound.
pub fn arrivals_of_files_come()
    ensures { (owners : Owners) (arrivals : List Arrival) → AreArrivals owners arrivals → AreComing owners arrivals }
{}

/// A sound image runs for ever: of endless arrivals, at moments that never fall and pass every bound, so many come
/// before its first n instructions are executed, for every n; these are a sound run, and later ones change nothing.
pub fn sound_images_run_for_ever()
    ensures { SoundForEver }
{}

/// Of the arrivals inside a stretch those that come before a step which touches their line are the early ones of the
/// trace of the stretch, and the others its late ones.
pub fn stretches_are_traced()
    ensures { StretchesAreTraced }
{}

/// The top task, where it is Active, stays the top one whatever lines arrive, those that arrived left out; and in a
/// stretch of its own it passes over only tasks that were admitted inside the stretch.
pub fn top_task_stays()
    ensures stays { StaysTop }
    ensures passes { PassesOverInner }
{}
