//! Task states, counters and alarms.

/// The state of a task (OSEK OS 2.2.3, section 4.2).
#[derive(Clone, Copy, Debug)]
pub enum TaskState {
    Suspended,
    Ready,
    /// It was entered and has not left: running, or preempted (which the standard counts as ready).
    Active,
    /// It waits for one of the events of this mask.
    Waiting(u32),
}

/// A counter as it stands (OSEK OS 2.2.3, section 9.1).
#[derive(Clone, Copy)]
pub struct Counter {
    pub value: u32,
    /// Its line arrived, and it has not counted that tick yet.
    pub due: bool,
}

/// An alarm as it stands (OSEK OS 2.2.3, section 9.2).
#[derive(Clone, Copy)]
pub struct Alarm {
    /// The ticks to its expiry, 0 where it is not in use.
    pub left: u32,
    /// The ticks from one expiry to the next, 0 where it expires once.
    pub cycle: u32,
}
