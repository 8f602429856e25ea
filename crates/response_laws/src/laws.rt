//! The laws of response times.
ghost use Rattle.response_laws.specs.Never.{OthersNeverCome};
ghost use Rattle.response_laws.specs.Arrivals.{ArrivalsAreFew, AdmissionsAreFew};
ghost use Rattle.response_laws.specs.Starts.{PeriodsStartSo};
ghost use Rattle.response_laws.specs.Walked.{RoundsFollowWalks};
ghost use Rattle.response_laws.specs.Makers.{RoundsMakeWithin};
ghost use Rattle.response_laws.specs.Once.{RoundsMakeOnce};
ghost use Rattle.response_laws.specs.Ticks.{TicksMakeByAlarms};
ghost use Rattle.response_laws.specs.Expiries.{TicksMakeAsAlarmsExpire};
ghost use Rattle.response_laws.specs.Settings.{CleanTasksHaveSettings, CleanTasksHaveSettingsButOne};
ghost use Rattle.response_laws.specs.Response.{RespondsInTime};
ghost use Rattle.response_laws.specs.Admissions.{AdmissionsFindSuspended};
ghost use Rattle.response_laws.specs.Expected.{ExpectedExpiriesFindSuspended};
ghost use Rattle.response_laws.specs.Loaded.{RespondsUnderLoad};
ghost use Rattle.response_laws.specs.Shares.{LowerTasksSpendOneItem};
ghost use Rattle.response_laws.specs.CodeStarts.{CodeFitsStarts};
ghost use Rattle.response_laws.specs.SoundRuns.{ImagesRespond, ImagesRespondByCode, ImagesTickInTime};
ghost use Rattle.response_laws.specs.Ticking.{TicksEndInTime, ArrivalsAreServed};

/// Of arrivals that keep a load, at most as many of a line fall into a window of counts as distances fill it.
pub fn arrivals_are_few()
    ensures { ArrivalsAreFew }
{}

/// In every run whose arrivals keep a load, a busy period admits at most as many arrivals of a line as distances fill
/// its counts, with an event in front of it and one behind.
pub fn admissions_are_few()
    ensures { AdmissionsAreFew }
{}

/// In runs of well-formed code lower tasks come into a busy period with one event or one section of one at most.
pub fn periods_start_so()
    ensures { PeriodsStartSo }
{}

/// In every run of well-formed task code what the events of a round come to is at most what a walk of the task code
/// weighs, where each event comes to no more than its item weighs.
pub fn rounds_follow_walks()
    ensures { RoundsFollowWalks }
{}

/// In well-formed task code a round makes another task Ready and sets its events no more often than a walk's items may.
pub fn rounds_make_within()
    ensures { RoundsMakeWithin }
{}

/// In every run of well-formed task code a round of a task makes another one Ready to begin anew once at most, where
/// that has no higher static priority, or the task lets no other in.
pub fn rounds_make_once()
    ensures { RoundsMakeOnce }
{}

/// In well-formed code a tick makes a task Ready, or sets its events, once at most, and only by its counter's alarm.
pub fn ticks_make_by_alarms()
    ensures { TicksMakeByAlarms }
{}

/// Ticks make a task Ready, or set its events, no more often than their counter's alarms expire, in well-formed task
/// code: one that no item sets once in its cycle at most, if it starts with the system, any other with each tick.
pub fn ticks_make_as_alarms_expire()
    ensures { TicksMakeAsAlarmsExpire }
{}

/// A task that clears what it waits for has, for each round behind a WaitEvent, an event that is set in front of it.
pub fn clean_tasks_have_settings()
    ensures { CleanTasksHaveSettings }
{}

/// In any part of a run such a task has one for each round behind a WaitEvent but one, whose event may be set before.
pub fn clean_tasks_have_settings_but_one()
    ensures { CleanTasksHaveSettingsButOne }
{}

/// Where rounds keep their costs, and busy periods start in given ways, each with enough, a task leaves, from what
/// makes it Ready on, within the longest that has its round, and what is in front, if the run is that long; events up
/// to there end within it anyhow. A preemptable task may be seen from its last leaving on; then it is entered once.
pub fn runs_respond_in_time()
    ensures { RespondsInTime }
{}

/// The same of every run whose arrivals keep a load, where each way in which lower tasks may come in has a start.
pub fn runs_respond_under_load()
    ensures { RespondsUnderLoad }
{}

/// The same of runs of an image whose builder promises that they are sound, weighed and in pace: rounds by walks, or by
/// what the load says. What lower tasks and alarms bring into the starts (`HaveStarts`, `HasAlarms`) are premises.
pub fn images_respond()
    ensures { ImagesRespond }
{}

/// In well-formed task code lower tasks have no more counts than one item has instructions, where no event is theirs.
pub fn lower_tasks_spend_one_item()
    ensures { LowerTasksSpendOneItem }
{}

/// In runs of well-formed task code that keep the pace, what lower tasks bring into busy periods is within starts that
/// fit the code: each item that they reach, each of their raised sections with what raises them, and one item begun.
pub fn code_fits_starts()
    ensures { CodeFitsStarts }
{}

/// A task of such an image responds within the longest start in which it has a round, and what stands in front, where
/// starts hold what lower tasks' code brings in and all expiries of alarms. Of the run only the `work` lines are asked.
pub fn images_respond_by_code()
    ensures { ImagesRespondByCode }
{}

/// In runs whose arrivals keep a load, a tick ends soon after the arrival of its counter: a stretch above counts that
/// have room for an item, and for all ticks whose counters arrive within them and what stands around them.
pub fn ticks_end_in_time()
    ensures { TicksEndInTime }
{}

/// In runs that keep a load each arrival of a counter finds it not due, where ticks end within its arrivals' distance.
pub fn arrivals_are_served()
    ensures { ArrivalsAreServed }
{}

/// In every run of an image whose builder promises that its runs are sound, weighed and in pace, ticks end so.
pub fn images_tick_in_time()
    ensures { ImagesTickInTime }
{}

/// Where arrivals keep a load, those of a task that responds within their distance, and that nothing else makes Ready,
/// find it Suspended: if an event that is no arrival follows, or the run, or the distance, is longer by the response.
pub fn admissions_find_suspended()
    ensures { AdmissionsFindSuspended }
{}

/// In every run whose arrivals keep a load, each expiry of the only alarm that makes a task Ready finds it Suspended,
/// where the task responds within a cycle of the alarm, or that expires once.
pub fn expected_expiries_find_suspended()
    ensures { ExpectedExpiriesFindSuspended }
{}

/// In runs of well-formed task code whose arrivals keep a load, a task stays Suspended that neither starts with the
/// system nor arrives, that no task which comes activates or chains, and no alarm of a counter that arrives.
pub fn others_never_come()
    ensures { OthersNeverCome }
{}
