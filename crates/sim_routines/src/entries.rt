//! Boot and the entries of tasks as events of the abstract scheduler, by the effects of their code in `vector_gen`.
ghost use Rattle.sim_routines.specs.Generated.{GeneratedEnters};
ghost use Rattle.sim_routines.specs.EntrySteps.{BootsLaw, BootStretch, EnterLaw, EnterStretch, ResumeLaw};
ghost use Rattle.sim_routines.specs.EntrySteps.{ResumeStretch};

/// Where a task's line is the one taken and the task is to start anew, its prologue is the event Enter of the abstract
/// scheduler, whatever ran.
pub fn enter_law()
    ensures { EnterLaw }
{}

/// Where a task's line is the one taken and a context is kept for the task, its prologue is the event Enter of the
/// abstract scheduler, whatever ran: the task is Active, with E_OK in a0.
pub fn resume_law()
    ensures { ResumeLaw }
{}

/// From the start of the machine, boot is the event Boot of the abstract scheduler.
pub fn boots_law()
    ensures { BootsLaw }
{}

/// The code of boot is the first stretch of a run, whatever lines arrive.
pub fn boot_stretch()
    ensures { BootStretch }
{}

/// Where the line that is taken is that of a task to start anew, its prologue is a stretch, whatever lines arrive.
pub fn enter_stretch()
    ensures { EnterStretch }
{}

/// Where the line taken is of an extended task to go on behind its wait, its prologue is a stretch, whatever arrives.
pub fn resume_stretch()
    ensures { ResumeStretch }
{}

/// Code that enters a task by the levels and the map does so in what is built.
pub fn generated_enters()
    ensures { GeneratedEnters }
{}
