//! What is told of tasks by the sums of all functions: the greatest sums of turns, rounds, and sections for one another.
ghost use Rattle.std.specs.Prelude.{◌≡◌, ◌<◌, None, Some, length, IfOk, cond};
ghost use Rattle.osek_scheduler.specs.Apart.{static_priority};
ghost use Rattle.walk_sums.specs.declared.levels.Kind.TheVariants as kinds;
ghost use Rattle.walk_sums.specs.Known.{AreSums};
ghost use Rattle.walk_sums.specs.Weights.{AreWeights};
ghost use Rattle.walk_sums.specs.Sections.{IsSumFor, AreToldSums, AreAllSums, greatest_of};
ghost use Rattle.sloth_base.specs.Named.{body_of};
ghost use Rattle.code_rules.specs.WellFormed.{WellFormed};
ghost use Rattle.bound_rules.specs.Summaries.{summary_of};
ghost use Rattle.walk_sums.specs.declared.sections.Sum.TheVariants as sum;
ghost use Rattle.walk_sums.specs.Rounds.{IsTurn};
ghost use Rattle.walk_sums.specs.Told.{told, told_section, IsToldSum, AreToldRounds};

use crate::{Kind, Walks};
use bound_rules::{BodyWeights, Summary, task_summary};
use sloth_base::{COUNT_LIMIT, List, Result};
use text_pieces::push;

impl Walks<'_> {
    // The sum of the sections of a task for task `above`: 0 where it is no lower one.
    fn sum_for_task(
        &self,
        weights: &[BodyWeights],
        whole: &[Summary],
        own: &[Summary],
        above: usize,
        task: usize,
    ) -> Sum
        requires weights { AreWeights self.now.app weights.now }
        requires whole { AreSums self.now.config self.now.app weights.now kinds.Sections None whole.now }
        requires own { AreSums self.now.config self.now.app weights.now kinds.Sections (Some
            (static_priority self.now.config above)) own.now }
        requires above { above < length self.now.config.tasks }
        requires inside { task < length self.now.config.tasks }
        ensures { IsSumFor self.now.config self.now.app weights.now above task result }
    {
        if self.priority(task) < self.priority(above) {
            self.told_section(whole, own, task)
        } else {
            Sum::Counts(0)
        }
    }

    /// For one task the greatest sums, by these weights, of the sections of all tasks.
    pub fn sums_above(&self, weights: &[BodyWeights], above: usize) -> Result<Vec<Sum>>
        requires weights { AreWeights self.now.app weights.now }
        requires above { above < length self.now.config.tasks }
        ensures { IfOk result (λ sums. AreToldSums self.now.config self.now.app weights.now above sums.items) }
    {
        let whole = self.whole_sums(weights, Kind::Sections)?;
        let own = self.own_sums(weights, Kind::Sections, self.priority(above), &whole)?;
        let mut sums = Vec::new(self.alloc());
        for task in 0..self.tasks() {
            let sum = self.sum_for_task(weights, &whole, &own, above, task);
            push(&mut sums, sum)?;
        }
        Ok(sums)
    }

    /// For each two tasks the greatest sum, by these weights, of the sections of the one for the other.
    pub fn section_sums(&self, weights: &[BodyWeights]) -> Result<Vec<List<Sum>>>
        requires { AreWeights self.now.app weights.now }
        ensures { IfOk result (λ table. AreAllSums self.now.config self.now.app weights.now table.items) }
    {
        let mut table = Vec::new(self.alloc());
        for task in 0..self.tasks() {
            let sums = self.sums_above(weights, task)?;
            push(&mut table, List::from_vec(sums))?;
        }
        Ok(table)
    }
}

/// The greatest of these sums.
pub fn greatest_sum(sums: &[Sum]) -> Sum
    ensures { result ≡ greatest_of sums.now (length sums.now) }
{
    let mut greatest = Sum::Counts(0);
    for task in 0..sums.len() {
        greatest = match (greatest, sums[task]) {
            (Sum::Counts(counts), Sum::Counts(more)) => Sum::Counts(more.max(counts)),
            (Sum::Endless, _) | (_, Sum::Endless) => Sum::Endless,
            _ => Sum::Huge,
        };
    }
    greatest
}

/// A greatest sum.
#[derive(Clone, Copy)]
pub enum Sum {
    /// So much, less than 1,000,000.
    Counts(u32),
    /// At least 1,000,000, but not without limit.
    Huge,
    /// Without limit: a cycle of the walks has a weight.
    Endless,
}

/// The greatest sums of a task's rounds that begin with its first item, and of those that begin behind a WaitEvent.
#[derive(Clone, Copy)]
pub struct RoundSums {
    pub first: Sum,
    pub later: Sum,
}

/// What is told of a size, which is one more than the sum and counted up to 1,000,001, of parts of a summary.
fn told_sum(summary: Summary, size: u32) -> Sum
    ensures { result ≡ cond summary.is_endless sum.Endless (told size) }
{
    if summary.is_endless {
        Sum::Endless
    } else if size <= COUNT_LIMIT {
        Sum::Counts(size.saturating_sub(1))
    } else {
        Sum::Huge
    }
}

impl Walks<'_> {
    /// The summary of a task's body.
    pub fn body_summary(&self, table: &[Summary], task: usize) -> Summary
        requires inside { task < length self.now.config.tasks }
        requires count { length table.now ≡ length self.now.app.funcs }
        ensures is { result ≡ summary_of table.now (body_of self.now.app.funcs task) }
        ensures well_formed { WellFormed self.now.config self.now.app }
    {
        table[self.body(task)]
    }

    /// The greatest sum of raised sections of a task by the summaries of all functions, where callers have raised it,
    /// and where functions raise it themselves.
    pub fn told_section(&self, whole: &[Summary], own: &[Summary], task: usize) -> Sum
        requires inside { task < length self.now.config.tasks }
        requires whole_count { length whole.now ≡ length self.now.app.funcs }
        requires own_count { length own.now ≡ length self.now.app.funcs }
        ensures is { result ≡ told_section self.now.config.tasks self.now.app.funcs whole.now own.now task }
        ensures well_formed { WellFormed self.now.config self.now.app }
    {
        let (tasks, funcs) = (self.config().tasks.items(), self.app().funcs.items());
        let summary = task_summary(tasks, funcs, whole, own, task);
        told_sum(summary, summary.most)
    }

    /// The greatest sums of a task's rounds, from the summaries of all functions, of rounds. A task of whose WaitEvents
    /// one goes on without its events cleared before has no rounds but its turns (`clean_tasks`, `turn_sum`).
    pub fn round_sums(&self, weights: &[BodyWeights], table: &[Summary], task: usize) -> RoundSums
        requires weights { AreWeights self.now.app weights.now }
        requires table { AreSums self.now.config self.now.app weights.now kinds.Rounds None table.now }
        requires inside { task < length self.now.config.tasks }
        ensures { AreToldRounds self.now.app task weights.now result }
    {
        let summary = self.body_summary(table, task);
        RoundSums {
            first: told_sum(summary, summary.on),
            later: told_sum(summary, summary.most),
        }
    }

    /// That of its turns, from the summaries of turns.
    pub fn turn_sum(&self, weights: &[BodyWeights], table: &[Summary], task: usize) -> Sum
        requires weights { AreWeights self.now.app weights.now }
        requires table { AreSums self.now.config self.now.app weights.now kinds.Turns None table.now }
        requires inside { task < length self.now.config.tasks }
        ensures { IsToldSum (IsTurn self.now.app task) weights.now result }
    {
        let summary = self.body_summary(table, task);
        told_sum(summary, summary.on)
    }
}
