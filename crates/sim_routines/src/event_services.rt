//! Services on events as events of the abstract scheduler: to what all services share (`sim_routines`) each adds its
//! own law, by the effect of its block in `service_gen`.
ghost use Rattle.sim_routines.specs.EventServiceSteps.{ClearEventGoesOn, GetEventGoesOn, SetEventGoesOn};
ghost use Rattle.sim_routines.specs.EventServiceSteps.{WaitEventAnswers};
ghost use Rattle.sim_routines.specs.EventStretch.{ClearEventStretches, GetEventStretches, SetEventStretches};
ghost use Rattle.sim_routines.specs.EventStretch.{WaitEventStretches};

/// ClearEvent takes events out of the running task's, and the task goes on.
pub fn clear_event_continues()
    ensures { ClearEventGoesOn }
{}

/// From its opening mark on, whatever lines arrive, the stretch of ClearEvent is its event.
pub fn clear_event_stretches()
    ensures { ClearEventStretches }
{}

/// GetEvent answers a task's events, and the caller goes on.
pub fn get_event_continues()
    ensures { GetEventGoesOn }
{}

/// From its opening mark on, whatever lines arrive, the stretch of GetEvent is its event.
pub fn get_event_stretches()
    ensures { GetEventStretches }
{}

/// SetEvent sets a task's events, and makes the task Ready where it waits for one of them; the caller goes on.
pub fn set_event_continues()
    ensures { SetEventGoesOn }
{}

/// From its opening mark on, whatever lines arrive, the stretch of SetEvent is its event.
pub fn set_event_stretches()
    ensures { SetEventStretches }
{}

/// WaitEvent goes on where one of its events is set, else the task waits, and what runs below it goes on.
pub fn wait_event_answers()
    ensures { WaitEventAnswers }
{}

/// From its opening mark on, whatever lines arrive, the stretch of WaitEvent is its event.
pub fn wait_event_stretches()
    ensures { WaitEventStretches }
{}
