//! The raised sections of lower tasks for each task, and how often they make tasks Ready.
ghost use Rattle.std.specs.Prelude.{◌≡◌, ◌<◌, ◌≤◌, length, get_or, IfOk, ℕ, false};
ghost use Rattle.sloth_base.specs.Limits.{task_limit};
ghost use Rattle.walk_sums.specs.Weights.{AreWeights};
ghost use Rattle.walk_sums.specs.Sections.{no_sum};
ghost use Rattle.run_costs.specs.Rounds.{many};
ghost use Rattle.run_costs.specs.Sections.{AllWeigh};
ghost use Rattle.run_costs.specs.SectionSums.{is_lower, has_some, is_endless, does};
ghost use Rattle.run_costs.specs.Services.{AreNamingTops, AreAllNamingTops};
ghost use Rattle.run_costs.specs.RunCosts.{AreSectionRow, AreSectionMakingRow, AreSectionMakingTable, AreRunLevels};
ghost use Rattle.run_costs.specs.RunRecord.{is_asked, times, AreSummed};

use crate::rounds::many;
use crate::services::{NamingTops, Row, Table, numbered_top, numbered_tops};
use bound_rules::BodyWeights;
use run_windows::{Level, SectionCosts, SectionMakings};
use sloth_base::{List, Result};
use text_pieces::push;
use walk_sums::{Counted, Sum, Walks, counted_weights};

/// Whether a task is lower than h.
pub fn is_lower(walks: &Walks, h: usize, task: usize) -> bool
    requires above { h < length walks.now.config.tasks }
    requires task { task < length walks.now.config.tasks }
    ensures { result ≡ is_lower walks.now.config h task }
{
    walks.priority(task) < walks.priority(h)
}

/// The sum of a task; without limit behind the last one.
pub fn numbered_sum(sums: &[Sum], task: usize) -> Sum
    ensures { result ≡ get_or sums.now task no_sum }
{
    sums.get(task).copied().unwrap_or(Sum::Endless)
}

// The sections of a task, by their greatest sum.
fn summed_sections(sum: Sum) -> SectionCosts
    ensures exists { result.exists ≡ has_some sum }
    ensures endless { result.is_endless ≡ is_endless sum }
    ensures counts { result.counts ≡ many sum }
{
    SectionCosts {
        exists: !matches!(sum, Sum::Counts(0)),
        is_endless: matches!(sum, Sum::Endless),
        counts: many(sum),
    }
}

fn sections(walks: &Walks, weights: &[BodyWeights], h: usize) -> Row<SectionCosts>
    requires weigh { AllWeigh walks.now.app weights.now }
    requires fit { AreWeights walks.now.app weights.now }
    requires above { h < length walks.now.config.tasks }
    ensures { IfOk result (AreSectionRow walks.now.config walks.now.app weights.now h) }
{
    let sums = walks.sums_above(weights, h)?;
    let mut list = Vec::new(walks.alloc());
    for task in 0..walks.tasks() {
        push(&mut list, summed_sections(numbered_sum(&sums, task)))?;
    }
    Ok(List::from_vec(list))
}

// Whether a section of a lower task does what counts, by its top.
fn does(walks: &Walks, h: usize, task: usize, top: u64) -> bool
    requires above { h < length walks.now.config.tasks }
    requires task { task < length walks.now.config.tasks }
    ensures { result ≡ does walks.now.config h task top }
{
    if walks.task(task).non {
        0 < top
    } else {
        u64::from(walks.priority(h)) < top
    }
}

// Whether sections of the task are asked how often they make j Ready.
fn is_asked(walks: &Walks, h: usize, j: usize, task: usize, top: u64) -> bool
    requires above { h < length walks.now.config.tasks }
    requires named { j < length walks.now.config.tasks }
    requires task { task < length walks.now.config.tasks }
    ensures { result ≡ is_asked walks.now.config h j task top }
{
    !is_lower(walks, h, j) && (is_lower(walks, h, task) && does(walks, h, task, top))
}

fn some_asked(walks: &Walks, h: usize, j: usize, tops: &[u64]) -> bool
    requires above { h < length walks.now.config.tasks }
    requires named { j < length walks.now.config.tasks }
    ensures { result ≡ false → (k : ℕ) → k < length walks.now.config.tasks
        → is_asked walks.now.config h j k (get_or tops.now k 0) ≡ false }
{
    for task in 0..walks.tasks() {
        if is_asked(walks, h, j, task, numbered_top(tops, task)) {
            return true;
        }
    }
    false
}

// The sums of the sections that are asked, of what counts.
fn asked_sums(walks: &Walks, h: usize, j: usize, tops: &[u64], counted: Counted) -> Result<Vec<Sum>>
    requires above { h < length walks.now.config.tasks }
    requires named { j < length walks.now.config.tasks }
    ensures { IfOk result (λ sums. AreSummed walks.now.config walks.now.app counted h j tops.now sums.items) }
{
    if !some_asked(walks, h, j, tops) {
        return Ok(Vec::new(walks.alloc()));
    }
    let weights = counted_weights(walks.alloc(), walks.app(), counted)?;
    walks.sums_above(&weights, h)
}

fn times(asked: bool, once: bool, sum: Sum) -> Option<u32>
    ensures { result ≡ times asked once sum }
{
    if asked {
        if once { Some(1) } else { many(sum) }
    } else {
        Some(0)
    }
}

// How often sections of lower tasks for h make j Ready, of each task.
fn makers(walks: &Walks, tops: &NamingTops, h: usize, j: usize) -> Row<SectionMakings>
    requires tops { AreNamingTops walks.now.config walks.now.app j tops.now }
    requires above { h < length walks.now.config.tasks }
    requires named { j < length walks.now.config.tasks }
    requires few { length walks.now.config.tasks ≤ task_limit }
    ensures { IfOk result (AreSectionMakingRow walks.now.config walks.now.app h j) }
{
    let (eithers, sets) = (tops.either.items(), tops.setting.items());
    let activations = asked_sums(walks, h, j, eithers, Counted::Activations(j as u32))?;
    let settings = asked_sums(walks, h, j, sets, Counted::Settings(j as u32))?;
    let mut row = Vec::new(walks.alloc());
    for task in 0..walks.tasks() {
        let activates = is_asked(walks, h, j, task, numbered_top(eithers, task));
        let signals = is_asked(walks, h, j, task, numbered_top(sets, task));
        let once = walks.task(task).non || h == j;
        let makings = SectionMakings {
            activations: times(activates, once, numbered_sum(&activations, task)),
            settings: times(signals, false, numbered_sum(&settings, task)),
        };
        push(&mut row, makings)?;
    }
    Ok(List::from_vec(row))
}

fn section_table(walks: &Walks, tops: &[NamingTops], h: usize) -> Table<SectionMakings>
    requires tops { AreAllNamingTops walks.now.config walks.now.app tops.now }
    requires above { h < length walks.now.config.tasks }
    ensures { IfOk result (AreSectionMakingTable walks.now.config walks.now.app h) }
{
    let mut table = Vec::new(walks.alloc());
    for j in 0..walks.tasks() {
        let row = makers(walks, numbered_tops(tops, j), h, j)?;
        push(&mut table, row)?;
    }
    Ok(List::from_vec(table))
}

/// The sections for each task, and what they make.
pub fn levels(walks: &Walks, weights: &[BodyWeights], tops: &[NamingTops]) -> Row<Level>
    requires weigh { AllWeigh walks.now.app weights.now }
    requires fit { AreWeights walks.now.app weights.now }
    requires tops { AreAllNamingTops walks.now.config walks.now.app tops.now }
    ensures { IfOk result (AreRunLevels walks.now.config walks.now.app weights.now) }
{
    let mut list = Vec::new(walks.alloc());
    for h in 0..walks.tasks() {
        let sections = sections(walks, weights, h)?;
        let makings = section_table(walks, tops, h)?;
        push(&mut list, Level { sections, makings })?;
    }
    Ok(List::from_vec(list))
}
