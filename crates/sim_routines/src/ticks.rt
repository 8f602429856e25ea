//! Ticks and services on alarms as events of the abstract scheduler (OSEK OS 2.2.3, sections 9 and 13.6), by their
//! code's effects in `service_gen`: a tick is Tick, whatever ran and whatever lines arrive, each service its Call.
ghost use Rattle.sloth_base.specs.declared.service.Service.TheVariants.{SetRelAlarm, SetAbsAlarm, CancelAlarm};
ghost use Rattle.sloth_base.specs.declared.service.Service.TheVariants.{GetAlarm};
ghost use Rattle.sim_routines.specs.TickSteps.{TickLaw, TickStretch};
ghost use Rattle.sim_routines.specs.AlarmSteps.{SetRelAlarmGoesOn, SetAbsAlarmGoesOn, CancelAlarmGoesOn};
ghost use Rattle.sim_routines.specs.AlarmSteps.{GetAlarmGoesOn, AlarmStretches};

/// The code of a tick does what the tick of the counter does.
pub fn tick_law()
    ensures { TickLaw }
{}

/// From the taking of a counter's line on there is a stretch, which is the event Tick.
pub fn tick_stretch()
    ensures { TickStretch }
{}

/// SetRelAlarm is a step of the abstract scheduler.
pub fn set_rel_alarm_continues()
    ensures { SetRelAlarmGoesOn }
{}

/// SetAbsAlarm is a step of the abstract scheduler.
pub fn set_abs_alarm_continues()
    ensures { SetAbsAlarmGoesOn }
{}

/// CancelAlarm is a step of the abstract scheduler.
pub fn cancel_alarm_continues()
    ensures { CancelAlarmGoesOn }
{}

/// GetAlarm is a step of the abstract scheduler.
pub fn get_alarm_continues()
    ensures { GetAlarmGoesOn }
{}

/// From the opening mark of a service on an alarm on there is a stretch, which is its event Call.
pub fn alarm_services_stretch()
    ensures relative { AlarmStretches SetRelAlarm }
    ensures absolute { AlarmStretches SetAbsAlarm }
    ensures cancel { AlarmStretches CancelAlarm }
    ensures get { AlarmStretches GetAlarm }
{}
