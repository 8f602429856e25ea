//! The relation of the simulation, between states of the machine and of the abstract scheduler (`specs/Stands`,
//! `specs/ClockStands`), and who keeps it. It stands on the offsets of `sloth_region` and on no generator.
//!
//! Each kind of step and each arrival keeps it; and what the line that is taken says of the system (`steps_keep`,
//! `entries_keep`, `leaves_keep`, `arrivals_are_admits`, `taken_is_next`, `mirror_of_stands`, ..;
//! `specs/RelationKept`). Where a task stands: `specs/Position`; the chain of contexts from the running task to the
//! idle loop: `specs/Context`; where the image has everything: `specs/Build`; what each kind of step leaves:
//! `specs/Moves`, `specs/Entry`, `specs/Changes`, `specs/Start`. How many instructions of its next item each preempted
//! task has passed: `passed` of `specs/Build`, `specs/Progress`.
#![tactic(auto)]

ghost use Rattle.sim_relation.specs.RelationKept.{MirrorOfStands, ArrivalsAreAdmits, TakenIsOwned, TakenIsTop};
ghost use Rattle.sim_relation.specs.RelationKept.{TakenIsNext, NoneTaken, StepsKeep, MovesKeep, LeavesKeep};
ghost use Rattle.sim_relation.specs.RelationKept.{ChangesKeep, EntriesKeep, BelowIsFound, StartsStand};

/// Where the relation stands, the interrupt controller mirrors the abstract scheduler.
pub fn mirror_of_stands()
    ensures { MirrorOfStands }
{}

/// Lines that arrive where interrupts are open are the activations of their tasks, and make their counters due.
pub fn arrivals_are_admits()
    ensures { ArrivalsAreAdmits }
{}

/// The line that is taken has an owner.
pub fn taken_is_owned()
    ensures { TakenIsOwned }
{}

/// The line of a task that is taken is that of the top task, which is Ready.
pub fn taken_is_top()
    ensures { TakenIsTop }
{}

/// The line of a counter that is taken is that of the due counter of least number.
pub fn taken_is_next()
    ensures { TakenIsNext }
{}

/// Where no line is taken, the running task is the top task, and where none runs none is due.
pub fn none_taken()
    ensures { NoneTaken }
{}

/// The relation stands behind an instruction of the running task that changes only its own stack and the data.
pub fn steps_keep()
    ensures { StepsKeep }
{}

/// The relation stands behind a service that goes back to the running task.
pub fn moves_keep()
    ensures { MovesKeep }
{}

/// The relation stands behind the end or the wait of the running task; what goes on has passed what was said of it.
pub fn leaves_keep()
    ensures { LeavesKeep }
{}

/// The relation stands behind a change of any task's events and state.
pub fn changes_keep()
    ensures { ChangesKeep }
{}

/// The relation stands behind the entry of a task, if what it preempts has passed what is said of it from then on.
pub fn entries_keep()
    ensures { EntriesKeep }
{}

/// The context of what runs below the running task is where a routine looks for it.
pub fn below_is_found()
    ensures { BelowIsFound }
{}

/// The relation stands where boot has started the system.
pub fn starts_stand()
    ensures { StartsStand }
{}
