//! A place in a run that goes to any count.
ghost use Rattle.std.specs.Prelude.{◌≡◌, ◌≤◌, ◌<◌, ◌+◌, ◌++◌, ◌*◌, ◌/◌, IfOk, OnOk, length};
ghost use Rattle.sloth_base.specs.Limits.{count_limit};
ghost use Rattle.debug_ways.specs.Marks.{AreMarks};

use crate::marks::{STRIDE, kept_machine, run_marks};
use crate::{Look, Machine};
use osek_scheduler::TaskState;
use rv32_instr::Stop;
use sloth_base::{Result, TASK_LIMIT};
use std::alloc::Global;

/// A machine that goes to any count of its run, over those that were kept of it.
#[derive(Drop)]
pub struct Cursor<M: Machine> {
    here: M,
    marks: Vec<M>,
    count: u32,
    end: u32,
    stop: Option<Stop>,
    ghost are: { AreMarks M.run M.count (M.run here) marks.items },
    ghost enough: { end / 65536 < length marks.items },
    ghost end_is: { (M.run here).end ≡ end },
    ghost stop_is: { (M.run here).stop ≡ stop },
    ghost here_is: { M.count here ≡ count },
    ghost within: { count ≤ end },
}

impl<M: Machine> Cursor<M> {
    ghost use Rattle.debug_ways.specs.Cursor.{cursor_run, cursor_count};

    /// A cursor of a machine that stands at the start of a run. The run is executed once.
    pub fn new(alloc: Global, machine: M) -> Result<Cursor<M>>
        requires start { M.count machine ≡ 0 }
        requires few { (M.run machine).end ≤ count_limit }
        ensures { IfOk result (λ cursor. cursor_run M.run cursor ≡ M.run machine) }
    {
        let mut here = machine;
        let mut marks = Vec::new(alloc);
        let end = run_marks(alloc, &mut marks, &mut here)?;
        let stop = here.stop();
        Ok(Cursor {
            here,
            marks,
            count: end,
            end,
            stop,
        })
    }

    /// The last count.
    pub fn end(&self) -> u32
        ensures { result ≡ (cursor_run M.run self.now).end }
    {
        self.end
    }

    // Goes to the machine that was kept last at or before a count.
    fn leap(&mut self, count: u32)
        requires { count ≤ (cursor_run M.run self.old).end }
        ensures count { cursor_count self.new ≤ count }
        ensures run { cursor_run M.run self.new ≡ cursor_run M.run self.old }
    {
        let place = count / STRIDE;
        let mark = kept_machine(self.marks.as_slice(), place as usize);
        self.here.set_to(mark);
        self.count = place * STRIDE;
    }

    /// Goes to a count.
    pub fn reach(&mut self, count: u32)
        requires { count ≤ (cursor_run M.run self.old).end }
        ensures count { cursor_count self.new ≡ count }
        ensures run { cursor_run M.run self.new ≡ cursor_run M.run self.old }
    {
        if count < self.count || count - self.count > STRIDE {
            self.leap(count);
        }
        while self.count < count {
            if !self.here.step() {
                unreachable!();
            }
            self.count += 1;
        }
    }

    /// What is looked at at a count.
    pub fn look(&mut self, count: u32) -> Look
        requires { count ≤ (cursor_run M.run self.old).end }
        ensures look { result ≡ (cursor_run M.run self.old).look count }
        ensures run { cursor_run M.run self.new ≡ cursor_run M.run self.old }
    {
        self.reach(count);
        self.here.look()
    }

    /// The states of tasks at a count.
    pub fn states(&mut self, count: u32) -> [TaskState; TASK_LIMIT]
        requires { count ≤ (cursor_run M.run self.old).end }
        ensures states { result ≡ (cursor_run M.run self.old).states count }
        ensures run { cursor_run M.run self.new ≡ cursor_run M.run self.old }
    {
        self.reach(count);
        self.here.states()
    }

    /// Why the run ends, where an instruction stops it.
    pub fn stop(&self) -> Option<Stop>
        ensures { result ≡ (cursor_run M.run self.now).stop }
    {
        self.stop
    }

    /// Puts the line of each event that so many instructions of the run bring, from its start on, with its count.
    pub fn put_trace(&self, alloc: Global, out: &mut Vec<u8>, counts: u32) -> Result<()>
        requires { counts ≤ count_limit }
        ensures { OnOk result (out.new.items ≡ out.old.items ++ (cursor_run M.run self.now).trace counts) }
    {
        self.here.put_trace(alloc, out, counts)
    }

    /// A register of a thread at a count, where it is known.
    pub fn register(&mut self, count: u32, thread: u32, number: u32) -> Option<u32>
        requires { count ≤ (cursor_run M.run self.old).end }
        ensures register { result ≡ (cursor_run M.run self.old).register count thread number }
        ensures run { cursor_run M.run self.new ≡ cursor_run M.run self.old }
    {
        self.reach(count);
        self.here.register(thread, number)
    }

    /// The byte at an address at a count, where there is one.
    pub fn byte(&mut self, count: u32, address: u32) -> Option<u8>
        requires { count ≤ (cursor_run M.run self.old).end }
        ensures byte { result ≡ (cursor_run M.run self.old).byte count address }
        ensures run { cursor_run M.run self.new ≡ cursor_run M.run self.old }
    {
        self.reach(count);
        self.here.byte(address)
    }
}
