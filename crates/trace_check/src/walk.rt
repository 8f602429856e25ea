//! Events followed along the abstract scheduler.
ghost use Rattle.std.specs.Prelude.{◌≡◌, ◌<◌, ◌&&◌, ◌||◌, ◌==◌, ◌+◌, ◌∷◌, ◌++◌, [], not, IfOk, OnOk, OnErr, List};
ghost use Rattle.std.specs.Prelude.{length, ltb, true, false};
ghost use Rattle.std.specs.Int.{bit_at};
ghost use Rattle.sloth_base.specs.declared.app.App.{App as AnyApp};
ghost use Rattle.sloth_base.specs.declared.config.Config.{Config as AnyConfig};
ghost use Rattle.sloth_base.specs.declared.service.Stamped.{Stamped as AnyEvent};
ghost use Rattle.sloth_base.specs.MemoryMap.{line_count};
ghost use Rattle.code_rules.specs.WellFormed.{WellFormed};
ghost use Rattle.osek_scheduler.specs.State.{System, task as task_of};
ghost use Rattle.osek_scheduler.specs.Steps.{OsekStep};
ghost use Rattle.osek_scheduler.specs.Priority.{is_active};
ghost use Rattle.osek_scheduler.specs.Services.{if_suspended};
ghost use Rattle.trace_check.specs.Moments.{all_later, noted_moments};
ghost use Rattle.trace_check.specs.Walk.{IsWalkEnd, IsWalked, IsWalkOrStray, IsWalkStep, event_passes, task_passes};
ghost use Rattle.trace_check.specs.Walk.{with_moment};

use osek_machine::{NotARun, Osek, is_active, is_suspended};
use sloth_base::{App, Config, Event, LINE_COUNT, Result, Stamped, TaskId};
use std::alloc::Global;
use std::marker::Model;

/// The scheduler, and for each task that is Ready since an admit that admit's moment, else 0.
pub struct Walk<'t> {
    osek: Osek<'t>,
    moments: [u32; LINE_COUNT],
}

// Written out: what is derived is proved anew wherever a value is let go.
impl Drop for Walk<'_> {
    fn drop(self) {
        let Walk {
            osek: _,
            moments: _,
        } = self;
    }
}

impl<'t> Model for Walk<'t> {
    ghost use Rattle.trace_check.specs.Walk.{Walk as Place};

    ghost Value = { Place };

    ghost view = { λ w. record { machine = w.osek; moments = w.moments } };
}

#[tactic(auto, using(std::proofs::lemmas::Nat::Bits::shr_and_one))]
fn is_later(row: u32, line: u32, moment: u32, count: u32) -> bool
    requires { line < line_count }
    ensures { result ≡ (not (bit_at row line == 1) || ltb count moment) }
{
    row >> line & 1 != 1 || count < moment
}

fn all_later(row: u32, moments: &[u32; LINE_COUNT], count: u32) -> bool
    ensures { result ≡ all_later (λ u. bit_at row u == 1) moments.now count }
{
    for line in 0..LINE_COUNT {
        if !is_later(row, line as u32, moments[line], count) {
            return false;
        }
    }
    true
}

fn keep(moments: &mut [u32; LINE_COUNT], note: Option<(u32, u32)>)
    ensures { moments.new ≡ with_moment note moments.old }
{
    if let Some((task, moment)) = note {
        if (task as usize) < LINE_COUNT {
            moments[task as usize] = moment;
        }
    }
}

impl<'t> Walk<'t> {
    /// Before the first event.
    pub fn new(alloc: Global, config: &'t Config, app: &'t App) -> Result<Walk<'t>>
        requires { WellFormed config.now app.now }
        ensures { IfOk result (λ w. IsWalked config.now app.now [] w) }
    {
        let osek = Osek::boot(alloc, config, app)?;
        Ok(Walk {
            osek,
            moments: [0; LINE_COUNT],
        })
    }

    /// The scheduler as it stands. Takes no memory.
    pub fn osek(&self) -> &Osek<'t>
        ensures { result.now ≡ self.now.machine }
    {
        &self.osek
    }

    /// For each task that is Ready since an admit that admit's moment, else 0. Takes no memory.
    pub fn moments(&self) -> &[u32; LINE_COUNT]
        ensures { result.now ≡ self.now.moments }
    {
        &self.moments
    }

    /// Whether a task of the configuration is Active.
    pub fn is_running(&self, task: u32) -> bool
        ensures { result ≡ (ltb task (length self.now.machine.config.tasks)
            && is_active (task_of self.now.machine.system task).state) }
    {
        (task as usize) < self.osek.task_count() && is_active(self.osek.state(TaskId(task)))
    }

    fn is_asleep(&self, task: u32) -> bool
        ensures { task < length self.now.machine.config.tasks
            → result ≡ if_suspended (task_of self.now.machine.system task).state true false }
    {
        (task as usize) < self.osek.task_count() && is_suspended(self.osek.state(TaskId(task)))
    }

    fn task_passes(&self, task: u32, count: u32) -> bool
        ensures { result ≡ task_passes self.now.machine.config self.now.machine.system self.now.moments task count }
    {
        if !self.is_running(task) {
            return true;
        }
        all_later(self.osek.above(TaskId(task)), &self.moments, count)
    }

    fn event_passes(&self, event: &Event, count: u32) -> bool
        ensures { result
            ≡ event_passes self.now.machine.config self.now.machine.system self.now.moments event.now count }
    {
        match *event {
            Event::Call { task, .. } | Event::Left { task, .. } => self.task_passes(task, count),
            _ => true,
        }
    }

    // The task whose moment changes with an event, and that moment, if the event is a step.
    fn note(&self, event: &Stamped) -> Option<(u32, u32)>
        ensures { (next : System)
            → OsekStep self.now.machine.config self.now.machine.app event.now.event self.now.machine.system next
            → noted_moments event.now.event event.now.stamp.at self.now.machine.system self.now.moments
            ≡ with_moment result self.now.moments }
    {
        match event.event {
            Event::Admit(task) if self.is_asleep(task) => Some((task, event.stamp.at)),
            Event::Enter(task) => Some((task, 0)),
            _ => None,
        }
    }

    /// One event more. Takes no memory.
    pub fn step(&mut self, event: &Stamped) -> Result<(), NotARun>
        ensures walks { OnOk result (IsWalkStep event.now self.old self.new) }
        ensures stops { OnErr result (IsWalkEnd event.now self.old) }
    {
        if !self.event_passes(&event.event, event.stamp.from) {
            return Err(NotARun);
        }
        let note = self.note(event);
        match self.osek.step(&event.event) {
            Ok(()) => {
                keep(&mut self.moments, note);
                Ok(())
            }
            Err(stray) => Err(stray),
        }
    }

    /// One event more, of a line, where none has strayed: the line of the first that strays.
    pub fn follow(&mut self, stray: Option<u32>, event: &Stamped, line: u32) -> Option<u32>
        ensures { (config : AnyConfig) (app : AnyApp) (past : List AnyEvent) → line ≡ length past + 1
            → IsWalkOrStray config app past stray self.old
            → IsWalkOrStray config app (past ++ event.now ∷ []) result self.new }
    {
        if stray.is_some() {
            return stray;
        }
        match self.step(event) {
            Ok(()) => None,
            Err(NotARun) => Some(line),
        }
    }
}
