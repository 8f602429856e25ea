//! Which arrivals of a run are lost.
ghost use Rattle.std.specs.Prelude.{◌≡◌, ◌++◌, OnOk};
ghost use Rattle.run_samples.specs.Admissions.{is_ready, has_effect, is_by_code, is_stored_first, admission_of};
ghost use Rattle.run_samples.specs.Admissions.{admissions_of, no_notes, with_accesses, settled, with_sample};
ghost use Rattle.run_samples.specs.Samples.{IsSampling, seen_behind, sampled_image, sampled_arrivals, sampled_count};
ghost use Rattle.rv32_machine.specs.Start.{start};
ghost use Rattle.rv32_machine.specs.Run.{state_after};
ghost use Rattle.run_samples.specs.Accesses.{accesses_at};

use crate::accesses::note_arrivals;
use crate::{Access, AccessKind, Sample, Sampler};
use osek_scheduler::TaskState;
use sloth_base::{Arrival, FIRST_COUNTER_LINE, Line, Result};
use sloth_runner::task_states::Seen;
use std::alloc::Global;
use std::marker::Model;
use text_pieces::push;

/// An arrival in a run, and whether it is lost.
#[derive(Clone, Copy)]
pub struct Admission {
    pub arrival: Arrival,
    pub lost: bool,
}

fn is_ready(state: TaskState) -> bool
    ensures { result ≡ is_ready state }
{
    matches!(state, TaskState::Ready)
}

// Whether a line that was raised has made its task Ready, or the tasks are not seen yet.
fn has_effect(seen: &Option<Seen>, line: Line) -> bool
    ensures { result ≡ has_effect seen.now line }
{
    match seen {
        Some(seen) if line.0 < FIRST_COUNTER_LINE => is_ready(seen.tasks[usize::from(line.0)]),
        _ => true,
    }
}

fn is_by_code(kind: AccessKind) -> bool
    ensures { result ≡ is_by_code kind }
{
    matches!(kind, AccessKind::Loads | AccessKind::Stores)
}

// Whether the first access by code to the line's pending byte is a store.
fn is_stored_first(line: u8, behind: &[Access]) -> bool
    ensures { result ≡ is_stored_first line behind.now }
{
    for access in behind {
        if access.arrival.line.0 == line && is_by_code(access.kind) {
            return matches!(access.kind, AccessKind::Stores);
        }
    }
    false
}

fn settled_admission(seen: &Option<Seen>, access: &Access, behind: &[Access]) -> Admission
    ensures { result ≡ admission_of seen.now access.now behind.now }
{
    let line = access.arrival.line;
    let kept = matches!(access.kind, AccessKind::Raises)
        && (has_effect(seen, line) && !is_stored_first(line.0, behind));
    let (arrival, lost) = (access.arrival, !kept);
    Admission { arrival, lost }
}

// Appends what becomes of several.
fn push_admissions(all: &mut Vec<Admission>, seen: &Option<Seen>, accesses: &[Access]) -> Result<()>
    ensures { OnOk result (all.new.items ≡ all.old.items ++ admissions_of seen.now accesses.now) }
{
    let mut rest = accesses;
    while let Some((access, behind)) = rest.split_first() {
        if !is_by_code(access.kind) {
            push(all, settled_admission(seen, access, behind))?;
        }
        rest = behind;
    }
    Ok(())
}

/// The arrivals of a run so far: what became of them, and those of which that is not known yet, with what code did.
#[derive(Drop)]
pub struct Noting {
    admissions: Vec<Admission>,
    accesses: Vec<Access>,
}

impl Model for Noting {
    ghost use Rattle.run_samples.specs.Admissions.{Notes};

    ghost Value = { Notes };

    ghost view = { λ noting. record { admissions = noting.admissions.items; accesses = noting.accesses.items } };
}

impl Noting {
    /// No arrivals yet.
    pub fn new(alloc: Global) -> Noting
        ensures { result ≡ no_notes }
    {
        Noting {
            admissions: Vec::new(alloc),
            accesses: Vec::new(alloc),
        }
    }

    /// Notes what the arrivals of the next count of a sampler do.
    pub fn note(&mut self, sampler: &mut Sampler) -> Result<()>
        requires sampling { IsSampling sampler.old }
        ensures noted { OnOk result (self.new ≡ with_accesses self.old
            (accesses_at (sampled_arrivals sampler.old) (sampled_count sampler.old)
            (state_after (sampled_count sampler.old) (sampled_arrivals sampler.old)
            (start (sampled_image sampler.old))))) }
        ensures same { sampler.new ≡ sampler.old }
    {
        note_arrivals(&mut sampler.runner, &mut self.accesses)
    }

    // Of all arrivals it is known what became of them: the tasks are seen so.
    fn settle(&mut self, seen: &Option<Seen>) -> Result<()>
        ensures { OnOk result (self.new ≡ settled self.old seen.now) }
    {
        push_admissions(&mut self.admissions, seen, self.accesses.as_slice())?;
        self.accesses.clear();
        Ok(())
    }

    /// What a count shows: the tasks, if it finds interrupts open, and else what its instruction does.
    pub fn show(&mut self, sample: &Sample) -> Result<()>
        ensures { OnOk result (self.new ≡ with_sample self.old sample.now) }
    {
        if !sample.interrupts.masked {
            return self.settle(&sample.seen);
        }
        if let Some(access) = sample.access {
            push(&mut self.accesses, access)?;
        }
        Ok(())
    }

    /// The end of a sampler's run tells what became of the others.
    pub fn end(&mut self, sampler: &mut Sampler) -> Result<()>
        requires sampling { IsSampling sampler.old }
        ensures ended { OnOk result (self.new ≡ settled self.old
            (seen_behind (sampled_image sampler.old) (sampled_arrivals sampler.old) (sampled_count sampler.old))) }
        ensures same { sampler.new ≡ sampler.old }
    {
        let seen = sampler.look();
        self.settle(&seen)
    }

    /// What became of the arrivals of which it is known, lent.
    pub fn admissions(&self) -> &[Admission]
        ensures { result.now ≡ self.now.admissions }
    {
        self.admissions.as_slice()
    }
}
