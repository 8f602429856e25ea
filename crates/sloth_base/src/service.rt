//! The operating system services and their statuses (OSEK OS 2.2.3, section 13).
//! Arrivals, and the events that are observed in a run.
ghost use Rattle.std.specs.Prelude.{◌≡◌, ◌<◌, ◌≤◌, IfNone, IfSome, length};
ghost use Rattle.sloth_base.specs.ServiceCodes.{code_of, service_of, is_service, service_name, service_named, object_kind, has_mask};

use crate::Line;

/// The status where a service did what it was asked.
pub const E_OK: u32 = 0;

/// The status where a task has no activation left.
pub const E_OS_LIMIT: u32 = 4;

/// The status where an alarm is not in use.
pub const E_OS_NOFUNC: u32 = 5;

/// The status where a task is in a state in which the service does nothing, or an alarm is in use.
pub const E_OS_STATE: u32 = 7;

/// The status where a value is outside a counter's limits.
pub const E_OS_VALUE: u32 = 8;

/// A service, in the order of the codes 0 to 15.
#[derive(Clone, Copy)]
pub enum Service {
    ActivateTask,
    TerminateTask,
    ChainTask,
    Schedule,
    GetTaskID,
    GetTaskState,
    GetResource,
    ReleaseResource,
    SetEvent,
    ClearEvent,
    GetEvent,
    WaitEvent,
    SetRelAlarm,
    SetAbsAlarm,
    CancelAlarm,
    GetAlarm,
}

/// What a service names.
#[derive(Clone, Copy)]
pub enum ObjectKind {
    Nothing,
    Task,
    Resource,
    Alarm,
}

// In the order of their codes.
const SERVICES: [Service; 16] = [
    Service::ActivateTask,
    Service::TerminateTask,
    Service::ChainTask,
    Service::Schedule,
    Service::GetTaskID,
    Service::GetTaskState,
    Service::GetResource,
    Service::ReleaseResource,
    Service::SetEvent,
    Service::ClearEvent,
    Service::GetEvent,
    Service::WaitEvent,
    Service::SetRelAlarm,
    Service::SetAbsAlarm,
    Service::CancelAlarm,
    Service::GetAlarm,
];

impl Service {
    /// The service's number in marks and in addresses of its code.
    pub fn code(self) -> u8
        ensures is { result ≡ code_of self }
        ensures below { result < 16 }
    {
        self as u8
    }

    /// The service of a number.
    pub fn from_code(code: u8) -> Option<Service>
        ensures is { result ≡ service_of code }
        ensures some { IfSome result (λ service. code_of service ≡ code) }
        ensures none { IfNone result (16 ≤ code) }
    {
        SERVICES.get(usize::from(code)).copied()
    }

    /// Whether it is this service.
    pub fn is(self, other: Service) -> bool
        ensures { result ≡ is_service self other }
    {
        self.code() == other.code()
    }

    /// Its name.
    pub fn name(self) -> &'static [u8]
        ensures name { result.now ≡ service_name self }
        ensures short { length result.now ≤ 15 }
    {
        match self {
            Service::ActivateTask => b"ActivateTask",
            Service::TerminateTask => b"TerminateTask",
            Service::ChainTask => b"ChainTask",
            Service::Schedule => b"Schedule",
            Service::GetTaskID => b"GetTaskID",
            Service::GetTaskState => b"GetTaskState",
            Service::GetResource => b"GetResource",
            Service::ReleaseResource => b"ReleaseResource",
            Service::SetEvent => b"SetEvent",
            Service::ClearEvent => b"ClearEvent",
            Service::GetEvent => b"GetEvent",
            Service::WaitEvent => b"WaitEvent",
            Service::SetRelAlarm => b"SetRelAlarm",
            Service::SetAbsAlarm => b"SetAbsAlarm",
            Service::CancelAlarm => b"CancelAlarm",
            Service::GetAlarm => b"GetAlarm",
        }
    }

    /// What it names.
    pub fn object_kind(self) -> ObjectKind
        ensures { result ≡ object_kind self }
    {
        match self {
            Service::ActivateTask
            | Service::ChainTask
            | Service::GetTaskState
            | Service::SetEvent
            | Service::GetEvent => ObjectKind::Task,
            Service::GetResource | Service::ReleaseResource => ObjectKind::Resource,
            Service::SetRelAlarm
            | Service::SetAbsAlarm
            | Service::CancelAlarm
            | Service::GetAlarm => ObjectKind::Alarm,
            Service::TerminateTask
            | Service::Schedule
            | Service::GetTaskID
            | Service::ClearEvent
            | Service::WaitEvent => ObjectKind::Nothing,
        }
    }

    /// Whether it has a mask of events.
    pub fn has_mask(self) -> bool
        ensures { result ≡ has_mask self }
    {
        match self {
            Service::SetEvent | Service::ClearEvent | Service::WaitEvent => true,
            _ => false,
        }
    }
}

/// The service of a name.
#[tactic(auto, unfolding(crate::specs::ServiceCodes::service_named))]
pub fn service_named(word: &[u8]) -> Option<Service>
    ensures { result ≡ service_named word.now }
{
    for service in SERVICES {
        if word == service.name() {
            return Some(service);
        }
    }
    None
}

/// An interrupt line is raised before the instruction of count `at`, 1 to `COUNT_LIMIT`.
#[derive(Clone, Copy)]
pub struct Arrival {
    pub at: u32,
    pub line: Line,
}

/// The counts of the first and the last instruction of an event.
#[derive(Clone, Copy)]
pub struct Stamp {
    pub from: u32,
    pub at: u32,
}

/// What is observed. A task or counter number of 4,294,967,295 is that of none.
#[derive(Clone, Copy)]
pub enum Event {
    Boot,
    Admit(u32),
    Enter(u32),
    Run {
        task: u32,
        func: u32,
        item: u32,
        result: u32,
    },
    Call {
        task: u32,
        service: Service,
        status: u32,
    },
    Left {
        task: u32,
        service: Service,
    },
    Back(u32),
    Idle,
    Stray,
    /// A counter's line arrived: the counter is due.
    Due(u32),
    /// A counter counts on, and serves its alarms.
    Tick(u32),
}

/// An event and its counts.
#[derive(Clone, Copy)]
pub struct Stamped {
    pub stamp: Stamp,
    pub event: Event,
}
