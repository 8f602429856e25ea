//! Machines that are kept of a run.
ghost use Rattle.std.specs.Prelude.{◌≡◌, ◌≤◌, ◌<◌, ◌+◌, ◌*◌, ◌/◌, [], IfOk, OnOk, IfSome, IfNone, length};
ghost use Rattle.sloth_base.specs.Limits.{count_limit};
ghost use Rattle.debug_ways.specs.Marks.{AreMarks};
ghost use Rattle.debug_ways.specs.Runs.{Run};

use crate::Machine;
use sloth_base::Result;
use std::alloc::Global;
use text_pieces::push;

/// The counts between two machines that are kept.
pub const STRIDE: u32 = 65_536;

#[tactic(auto, using(crate::proofs::Keeping::marks_longer, crate::proofs::Keeping::one_longer))]
fn keep<M: Machine>(alloc: Global, marks: &mut Vec<M>, machine: &M) -> Result<()>
    requires are { AreMarks M.run M.count (M.run machine.now) marks.old.items }
    requires place { M.count machine.now ≡ length marks.old.items * 65536 }
    ensures are { OnOk result (AreMarks M.run M.count (M.run machine.now) marks.new.items) }
    ensures longer { OnOk result (length marks.new.items ≡ length marks.old.items + 1) }
{
    let mark = machine.copy(alloc)?;
    push(marks, mark)
}

fn execute<M: Machine>(machine: &mut M, counts: u32) -> Option<u32>
    requires { M.count machine.old ≤ (M.run machine.old).end }
    ensures run { M.run machine.new ≡ M.run machine.old }
    ensures went { IfNone result (M.count machine.new ≡ M.count machine.old + counts) }
    ensures ended { IfSome result (λ done. M.count machine.new ≡ M.count machine.old + done) }
    ensures end { IfSome result (λ done. M.count machine.new ≡ (M.run machine.new).end) }
    ensures few { IfSome result (λ done. done < counts) }
    ensures within { M.count machine.new ≤ (M.run machine.new).end }
{
    for done in 0..counts {
        if !machine.step() {
            return Some(done);
        }
    }
    None
}

/// Executes a run from its start to its end, keeps machines of it, and gives its last count.
pub fn run_marks<M: Machine>(alloc: Global, marks: &mut Vec<M>, machine: &mut M) -> Result<u32>
    requires start { M.count machine.old ≡ 0 }
    requires none { marks.old.items ≡ [] }
    requires few { (M.run machine.old).end ≤ count_limit }
    ensures run { M.run machine.new ≡ M.run machine.old }
    ensures end { IfOk result (λ end. end ≡ (M.run machine.old).end) }
    ensures stands { OnOk result (M.count machine.new ≡ (M.run machine.old).end) }
    ensures are { OnOk result (AreMarks M.run M.count (M.run machine.old) marks.new.items) }
    ensures enough { OnOk result ((M.run machine.old).end / 65536 < length marks.new.items) }
{
    for place in 0..16u32 {
        keep(alloc, marks, machine)?;
        if let Some(done) = execute(machine, STRIDE) {
            return Ok(place * STRIDE + done);
        }
    }
    unreachable!()
}

/// The machine that was kept at a place.
pub fn kept_machine<M: Machine>(marks: &[M], place: usize) -> &M
    requires { place < length marks.now }
    ensures { (run : Run) → AreMarks M.run M.count run marks.now → (M.run result.now ≡ run)
        × (M.count result.now ≡ place * 65536) }
{
    &marks[place]
}
