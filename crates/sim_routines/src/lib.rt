//! The generated routines in the simulation: boot, the entries of tasks, the services and the ticks. Each is a step of
//! the abstract scheduler, said without arrivals, and then with any, and a stretch of a run.
//!
//! Entries: boot and each entry of a task, anew or after a wait (`entries`; `specs/EntrySteps`, `specs/Boot`,
//! `specs/Entries`, `specs/Generated`). Services, and the way back from Schedule: what all share stands once
//! (`specs/Opening`, `specs/Served`, `proofs/ServiceStretch`); each adds its own law, by the effect of its block in
//! `service_gen` (`terminate_task_ends`, `set_event_continues`, `wait_event_answers`, ..; `specs/ServiceSteps`,
//! `specs/EventServiceSteps`), and so its stretch (`specs/Stretch`, `specs/EventStretch`). Ticks and the services on
//! alarms: `ticks`. The relation: `sim_relation` (`Stands`).
#![tactic(auto)]

pub mod entries;
pub mod event_services;
pub mod ticks;

ghost use Rattle.sim_routines.specs.ServiceSteps.{ActivateTaskGoesOn, ChainTaskAnswers, GetResourceGoesOn};
ghost use Rattle.sim_routines.specs.ServiceSteps.{GetTaskIDGoesOn, GetTaskStateGoesOn, ReleaseResourceGoesOn};
ghost use Rattle.sim_routines.specs.ServiceSteps.{ScheduleGivesWay, ScheduleReturns, TerminateTaskEnds};
ghost use Rattle.sim_routines.specs.Stretch.{ActivateTaskStretches, ChainTaskStretches, GetResourceStretches};
ghost use Rattle.sim_routines.specs.Stretch.{GetTaskIDStretches, GetTaskStateStretches, ReleaseResourceStretches};
ghost use Rattle.sim_routines.specs.Stretch.{ScheduleStretches, TerminateTaskStretches, WayBackStretches};

/// TerminateTask ends the running task, and what runs below it goes on.
pub fn terminate_task_ends()
    ensures { TerminateTaskEnds }
{}

/// From its opening mark on, whatever lines arrive, the stretch of TerminateTask is its event.
pub fn terminate_task_stretches()
    ensures { TerminateTaskStretches }
{}

/// GetTaskID answers the running task's number, and the task goes on.
pub fn get_task_id_continues()
    ensures { GetTaskIDGoesOn }
{}

/// From its opening mark on, whatever lines arrive, the stretch of GetTaskID is its event.
pub fn get_task_id_stretches()
    ensures { GetTaskIDStretches }
{}

/// GetTaskState answers the number of a task's state, and the caller goes on.
pub fn get_task_state_continues()
    ensures { GetTaskStateGoesOn }
{}

/// From its opening mark on, whatever lines arrive, the stretch of GetTaskState is its event.
pub fn get_task_state_stretches()
    ensures { GetTaskStateStretches }
{}

/// ActivateTask makes a Suspended task Ready, and answers whether it was; the caller goes on.
pub fn activate_task_continues()
    ensures { ActivateTaskGoesOn }
{}

/// From its opening mark on, whatever lines arrive, the stretch of ActivateTask is its event.
pub fn activate_task_stretches()
    ensures { ActivateTaskStretches }
{}

/// ChainTask ends the caller and makes the other task Ready, or refuses, and the caller goes on.
pub fn chain_task_answers()
    ensures { ChainTaskAnswers }
{}

/// From its opening mark on, whatever lines arrive, the stretch of ChainTask is its event.
pub fn chain_task_stretches()
    ensures { ChainTaskStretches }
{}

/// GetResource takes the resource, and the task goes on at its ceiling at least.
pub fn get_resource_continues()
    ensures { GetResourceGoesOn }
{}

/// From its opening mark on, whatever lines arrive, the stretch of GetResource is its event.
pub fn get_resource_stretches()
    ensures { GetResourceStretches }
{}

/// ReleaseResource releases the resource that was taken last, and the task goes on at the level that ran before.
pub fn release_resource_continues()
    ensures { ReleaseResourceGoesOn }
{}

/// From its opening mark on, whatever lines arrive, the stretch of ReleaseResource is its event.
pub fn release_resource_stretches()
    ensures { ReleaseResourceStretches }
{}

/// Schedule gives the internal resource back, and the task owes the way back.
pub fn schedule_gives_way()
    ensures { ScheduleGivesWay }
{}

/// The way back takes the internal resource again, and the task goes on behind Schedule.
pub fn schedule_returns()
    ensures { ScheduleReturns }
{}

/// From its opening mark on, whatever lines arrive, the stretch of Schedule is its event.
pub fn schedule_stretches()
    ensures { ScheduleStretches }
{}

/// From its mark on, whatever lines arrive, the stretch of the way back is its event.
pub fn way_back_stretches()
    ensures { WayBackStretches }
{}
