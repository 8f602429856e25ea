//! Laws of runs.
ghost use Rattle.osek_blocking.specs.ProtocolKept.{RunsBlockOnce, RunsExclude, ResourcesAreGot};
ghost use Rattle.osek_blocking.specs.ProtocolKept.{RunsKeepCeilingProtocol};

/// In every run at most one lower task blocks a Ready one, and only while its current priority is at least the other's.
pub fn runs_block_once()
    ensures { RunsBlockOnce }
{}

/// In every state of a run of well-formed task code no two tasks hold one resource, no two Active tasks have one
/// current priority, and a task that is not Active holds none.
pub fn runs_exclude()
    ensures { RunsExclude }
{}

/// GetResource answers E_OK at each of its events.
pub fn resources_are_got()
    ensures { ResourcesAreGot }
{}

/// Every run of well-formed task code keeps the priority ceiling protocol: the three laws together.
pub fn runs_keep_ceiling_protocol()
    ensures { RunsKeepCeilingProtocol }
{}
