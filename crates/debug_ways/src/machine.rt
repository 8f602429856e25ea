//! Machines that stand in a run.
ghost use Rattle.std.specs.Prelude.{◌≡◌, ◌<◌, ◌≤◌, ◌+◌, ◌++◌, OnOk, ℕ, IsTrue, false, IfOk};
ghost use Rattle.sloth_base.specs.Limits.{count_limit};
ghost use Rattle.debug_ways.specs.Runs.{Run};

use crate::Look;
use osek_scheduler::TaskState;
use rv32_instr::Stop;
use sloth_base::{Result, TASK_LIMIT};
use std::alloc::Global;

/// A machine at a count of its run. Nothing but `step` and `set_to` changes where it stands.
pub trait Machine: Drop {
    /// Its run.
    ghost run: { Self → Run };

    /// How many instructions are done.
    ghost count: { Self → ℕ };

    /// Executes an instruction, unless the run ends here, and says whether it did.
    fn step(&mut self) -> bool
        ensures run { run self.new ≡ run self.old }
        ensures went { IsTrue result → count self.new ≡ count self.old + 1 }
        ensures inside { IsTrue result → count self.old < (run self.old).end }
        ensures stays { result ≡ false → count self.new ≡ count self.old }
        ensures ended { result ≡ false → count self.old ≡ (run self.old).end };

    /// A machine at the same count of the same run.
    fn copy(&self, alloc: Global) -> Result<Self>
        ensures run { IfOk result (λ machine. run machine ≡ run self.now) }
        ensures count { IfOk result (λ machine. count machine ≡ count self.now) };

    /// Goes to where another machine of the same run stands.
    fn set_to(&mut self, other: &Self)
        requires { run other.now ≡ run self.old }
        ensures run { run self.new ≡ run self.old }
        ensures count { count self.new ≡ count other.now };

    /// What is looked at.
    fn look(&mut self) -> Look
        ensures look { result ≡ (run self.old).look (count self.old) }
        ensures run { run self.new ≡ run self.old }
        ensures count { count self.new ≡ count self.old };

    /// A register of a thread, where it is known.
    fn register(&mut self, thread: u32, number: u32) -> Option<u32>
        ensures register { result ≡ (run self.old).register (count self.old) thread number }
        ensures run { run self.new ≡ run self.old }
        ensures count { count self.new ≡ count self.old };

    /// The states of tasks as memory shows them, before a line is taken; an unused place has Suspended.
    fn states(&mut self) -> [TaskState; TASK_LIMIT]
        ensures states { result ≡ (run self.old).states (count self.old) }
        ensures run { run self.new ≡ run self.old }
        ensures count { count self.new ≡ count self.old };

    /// Why the run ends here, where an instruction stops it.
    fn stop(&mut self) -> Option<Stop>
        requires { count self.old ≡ (run self.old).end }
        ensures stop { result ≡ (run self.old).stop }
        ensures run { run self.new ≡ run self.old }
        ensures count { count self.new ≡ count self.old };

    /// Puts the line of each event that so many instructions of the run bring, from its start on, with its count.
    fn put_trace(&self, alloc: Global, out: &mut Vec<u8>, counts: u32) -> Result<()>
        requires { counts ≤ count_limit }
        ensures { OnOk result (out.new.items ≡ out.old.items ++ (run self.now).trace counts) };

    /// The byte at an address, where there is one.
    fn byte(&mut self, address: u32) -> Option<u8>
        ensures byte { result ≡ (run self.old).byte (count self.old) address }
        ensures run { run self.new ≡ run self.old }
        ensures count { count self.new ≡ count self.old };
}
