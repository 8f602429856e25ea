//! The stack that all basic tasks share holds those that are Active at once, in every run of the abstract scheduler.
//!
//! Of two Active tasks the lower one may be preempted (`lower_may_be_preempted`); a task owes a `back` only where it
//! reaches a Schedule (`steps_keep_owing`); so no set of basic tasks that are Active at once in a run needs more than
//! the bound of the shared stack (`shared_stack_holds`; `specs/Together`). The bound: `stack_bounds` (`Bounds`); steps:
//! `osek_scheduler` (`Steps`).
#![tactic(auto)]

ghost use Rattle.shared_stacks.specs.Together.{StepsKeepOwing, LowerMayBePreempted, SharedStackHolds};

/// Each step keeps true that a task owes a `back` only where it reaches a Schedule.
pub fn steps_keep_owing()
    ensures { StepsKeepOwing }
{}

/// Of two Active tasks the lower one may be preempted.
pub fn lower_may_be_preempted()
    ensures { LowerMayBePreempted }
{}

/// No set of basic tasks that are Active at once in a run needs more than the shared stack.
pub fn shared_stack_holds()
    ensures { SharedStackHolds }
{}
