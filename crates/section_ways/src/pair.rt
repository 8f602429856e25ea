//! Two tasks of walked task code: one, and a lower one, of which points are tried to be those of a section, or a cycle.
ghost use Rattle.std.specs.Prelude.{◌≡◌, ◌<◌, length, [], IfOk};
ghost use Rattle.code_rules.specs.WellFormed.{WellFormed};
ghost use Rattle.osek_blocking.specs.Sections.{IsLower};
ghost use Rattle.section_ways.specs.Trials.{IsTrial};
ghost use Rattle.sloth_base.specs.Named.{body_of};
ghost use Rattle.section_ways.specs.Trying.{is_raised_position, TellsSection, TellsClosed};

use sloth_base::{App, Result};
use stack_bounds::body_of;
use std::marker::Model;
use walk_sums::{Point, Walks, is_standing};

/// Walked task code, a task, and a lower one.
#[derive(Drop)]
pub struct Trial<'a> {
    pub walks: &'a Walks<'a>,
    pub above: usize,
    pub task: usize,
}

impl<'a> Model for Trial<'a> {
    ghost use Rattle.section_ways.specs.Trials.{TrialCode, IsTrial};

    ghost Value = { TrialCode };

    ghost view = { λ t. record { config = t.walks.now.config; app = t.walks.now.app; above = t.above; task = t.task } };

    ghost invariant = { λ t.
        IsTrial (record { config = t.walks.now.config; app = t.walks.now.app; above = t.above; task = t.task }) };
}

impl<'a> Trial<'a> {
    /// The two tasks.
    pub fn new(walks: &'a Walks<'a>, above: usize, task: usize) -> Trial<'a>
        requires above { above < length walks.now.config.tasks }
        requires lower { IsLower walks.now.config above task }
        ensures { result
            ≡ record { config = walks.now.config; app = walks.now.app; above = above; task = task } }
    {
        Trial { walks, above, task }
    }

    /// The task code.
    pub fn app(&self) -> &'a App
        ensures is { result.now ≡ self.now.app }
        ensures well_formed { WellFormed self.now.config self.now.app }
        ensures trial { IsTrial self.now }
    {
        self.walks.app()
    }

    /// Whether the lower task is raised wherever it stands.
    pub fn is_always_raised(&self) -> bool
        ensures { result ≡ is_raised_position self.now [] }
    {
        self.walks.task(self.task).non
    }

    /// The number of the lower task's body.
    pub fn body(&self) -> usize
        ensures is { result ≡ body_of self.now.app.funcs self.now.task }
        ensures lower { IsLower self.now.config self.now.above self.now.task }
    {
        body_of(self.walks.app().funcs.items(), self.task)
    }

    /// Whether these are a section's points, behind walks to the position that begins it, the outermost function first.
    pub fn is_section_way(&self, start: &[Point], points: &[Point]) -> Result<bool>
        ensures { IfOk result (TellsSection self.now points.now) }
    {
        let Some(mut stack) = self.walked_stack(start)? else {
            return Ok(false);
        };
        self.is_section(&mut stack, points)
    }

    /// Whether they are those of a section that ends at the position at which it begins.
    pub fn is_closed_way(&self, start: &[Point], points: &[Point]) -> Result<bool>
        ensures lower { IsLower self.now.config self.now.above self.now.task }
        ensures closed { IfOk result (TellsClosed self.now points.now) }
    {
        let Some(mut stack) = self.walked_stack(start)? else {
            return Ok(false);
        };
        let first = stack.as_slice().to_vec(self.walks.alloc())?;
        if points.len() < 2 {
            return Ok(false);
        }
        if !self.is_section(&mut stack, points)? {
            return Ok(false);
        }
        Ok(is_standing(stack.as_slice(), first.as_slice()))
    }
}
