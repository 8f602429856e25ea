//! Why tasks have no numbers.
ghost use Rattle.std.specs.Prelude.{◌≡◌, ◌<◌, ℕ, Some, false, length, get_or, Decides, IfOk};
ghost use Rattle.walk_sums.specs.Rounds.{IsClean};
ghost use Rattle.walk_sums.specs.Weights.{AreWeights, item_weights};
ghost use Rattle.response_reasons.specs.Loops.{HasSectionLoop};
ghost use Rattle.walk_sums.specs.Counted.{counted_weights};
ghost use Rattle.run_windows.specs.FirstUntold.{IsInside, first_untold};
ghost use Rattle.run_windows.specs.Windows.{is_lower};
ghost use Rattle.run_windows.specs.RunWindows.{IsLeastOf};
ghost use Rattle.response_reasons.specs.Reasons.{HasRoundLoop, HasCountedLoop, HasActivatingLoop, HasMakingLoop};
ghost use Rattle.response_reasons.specs.Reasons.{HasSectionMakingLoop, HasLevelLoop, IsUntoldLine};
ghost use Rattle.response_reasons.specs.Reasons.{loop_reason, IsReasonIf};

use crate::loops::{Line, section_line, turn_line};
use bound_rules::{BodyWeights, is_marked};
use run_windows::level::{is_lower, lesser};
use run_windows::{Costs, Untold, first_untold};
use sloth_base::Result;
use walk_sums::{Counted, Kind, Walks, counted_weights, item_weights};

/// Why a task has no number.
#[derive(Clone, Copy)]
pub enum Reason {
    /// Rounds or sections of this task go round a loop without limit; the least line of an item on one.
    Loop(usize, u32),
    /// A loop of this task makes tasks of the level Ready without limit.
    Makes(usize, u32),
    /// More comes than is served.
    Load,
}

// The least line of a loop in rounds of a task, or in its turns if it is not clean.
fn round_line(walks: &Walks, clean: &[bool], weights: &[BodyWeights], k: usize) -> Result<Line>
    requires weights { AreWeights walks.now.app weights.now }
    requires inside { k < length walks.now.config.tasks }
    requires clean { Decides (get_or clean.now k false) (IsClean walks.now.app k) }
    ensures { IfOk result (IsLeastOf (HasRoundLoop walks.now.config walks.now.app weights.now k)) }
{
    if is_marked(clean, k) {
        turn_line(walks, weights, Kind::Rounds, k)
    } else {
        turn_line(walks, weights, Kind::Turns, k)
    }
}

// That of one along which each item counts.
fn item_line(walks: &Walks, clean: &[bool], k: usize) -> Result<Line>
    requires inside { k < length walks.now.config.tasks }
    requires clean { Decides (get_or clean.now k false) (IsClean walks.now.app k) }
    ensures { IfOk result (IsLeastOf (HasRoundLoop walks.now.config walks.now.app (item_weights walks.now.app) k)) }
{
    let weights = item_weights(walks.alloc(), walks.app())?;
    round_line(walks, clean, &weights, k)
}

fn counted_line(walks: &Walks, clean: &[bool], counted: Counted, k: usize) -> Result<Line>
    requires inside { k < length walks.now.config.tasks }
    requires clean { Decides (get_or clean.now k false) (IsClean walks.now.app k) }
    ensures { IfOk result (IsLeastOf (HasCountedLoop walks.now.config walks.now.app counted k)) }
{
    let weights = counted_weights(walks.alloc(), walks.app(), counted)?;
    round_line(walks, clean, &weights, k)
}

// Of itself a task makes nothing by ActivateTask.
fn activating_line(walks: &Walks, clean: &[bool], k: usize, j: usize) -> Result<Line>
    requires small { j < 4294967296 }
    requires inside { k < length walks.now.config.tasks }
    requires clean { Decides (get_or clean.now k false) (IsClean walks.now.app k) }
    ensures { IfOk result (IsLeastOf (HasActivatingLoop walks.now.config walks.now.app k j)) }
{
    if k == j {
        Ok(None)
    } else {
        counted_line(walks, clean, Counted::Activations(j as u32), k)
    }
}

fn making_line(walks: &Walks, clean: &[bool], k: usize, j: usize) -> Result<Line>
    requires small { j < 4294967296 }
    requires inside { k < length walks.now.config.tasks }
    requires clean { Decides (get_or clean.now k false) (IsClean walks.now.app k) }
    ensures { IfOk result (IsLeastOf (HasMakingLoop walks.now.config walks.now.app k j)) }
{
    let activated = activating_line(walks, clean, k, j)?;
    let set = counted_line(walks, clean, Counted::Settings(j as u32), k)?;
    Ok(lesser(activated, set))
}

fn section_item_line(walks: &Walks, h: usize, k: usize) -> Result<Line>
    requires above { h < length walks.now.config.tasks }
    requires inside { k < length walks.now.config.tasks }
    ensures { IfOk result (IsLeastOf (HasSectionLoop walks.now.config walks.now.app (item_weights walks.now.app) h k)) }
{
    let weights = item_weights(walks.alloc(), walks.app())?;
    section_line(walks, &weights, h, k)
}

fn section_counted_line(walks: &Walks, counted: Counted, h: usize, k: usize) -> Result<Line>
    requires above { h < length walks.now.config.tasks }
    requires inside { k < length walks.now.config.tasks }
    ensures { IfOk result (IsLeastOf
        (HasSectionLoop walks.now.config walks.now.app (counted_weights counted walks.now.app) h k)) }
{
    let weights = counted_weights(walks.alloc(), walks.app(), counted)?;
    section_line(walks, &weights, h, k)
}

fn section_making_line(walks: &Walks, h: usize, k: usize, j: usize) -> Result<Line>
    requires small { j < 4294967296 }
    requires above { h < length walks.now.config.tasks }
    requires inside { k < length walks.now.config.tasks }
    ensures { IfOk result (IsLeastOf (HasSectionMakingLoop walks.now.config walks.now.app h k j)) }
{
    let activated = section_counted_line(walks, Counted::Activations(j as u32), h, k)?;
    let set = section_counted_line(walks, Counted::Settings(j as u32), h, k)?;
    Ok(lesser(activated, set))
}

// Nothing where j is lower.
fn level_making_line(walks: &Walks, costs: &Costs, h: usize, k: usize, j: usize) -> Result<Line>
    requires small { j < 4294967296 }
    requires above { h < length walks.now.config.tasks }
    requires inside { k < length walks.now.config.tasks }
    ensures { IfOk result (IsLeastOf (λ line.
        (is_lower costs.now h j ≡ false) × HasSectionMakingLoop walks.now.config walks.now.app h k j line)) }
{
    if is_lower(costs, h, j) {
        Ok(None)
    } else {
        section_making_line(walks, h, k, j)
    }
}

fn level_line(walks: &Walks, costs: &Costs, h: usize, k: usize) -> Result<Line>
    requires few { length costs.now.tasks < 4294967296 }
    requires above { h < length walks.now.config.tasks }
    requires inside { k < length walks.now.config.tasks }
    ensures { IfOk result (IsLeastOf
        (HasLevelLoop walks.now.config walks.now.app costs.now (length costs.now.tasks) h k)) }
{
    let mut least = None;
    for j in 0..costs.tasks.items().len() {
        let line = level_making_line(walks, costs, h, k, j)?;
        least = lesser(least, line);
    }
    Ok(least)
}

fn untold_line(walks: &Walks, clean: &[bool], costs: &Costs, h: usize, what: Untold) -> Result<Line>
    requires few { length costs.now.tasks < 4294967296 }
    requires above { h < length walks.now.config.tasks }
    requires inside { IsInside (length walks.now.config.tasks) what }
    requires small { length walks.now.config.tasks < 4294967296 }
    requires clean { (t : ℕ) → t < length walks.now.config.tasks
        → Decides (get_or clean.now t false) (IsClean walks.now.app t) }
    ensures { IfOk result (IsUntoldLine walks.now.config walks.now.app costs.now h what) }
{
    match what {
        Untold::Rounds(k) => item_line(walks, clean, k),
        Untold::Makings(k, j) => making_line(walks, clean, k, j),
        Untold::Section(k) => section_item_line(walks, h, k),
        Untold::SectionMakings(k) => level_line(walks, costs, h, k),
    }
}

fn loop_reason(untold: Untold, line: Line) -> Reason
    ensures { result ≡ loop_reason untold line }
{
    match line {
        Some(line) => match untold {
            Untold::Rounds(k) | Untold::Section(k) => Reason::Loop(k, line),
            Untold::Makings(k, _) | Untold::SectionMakings(k) => Reason::Makes(k, line),
        },
        None => Reason::Load,
    }
}

/// Why a task has no number, where that is asked.
pub fn reason_if(
    walks: &Walks,
    clean: &[bool],
    costs: &Costs,
    h: usize,
    asked: bool,
) -> Result<Option<Reason>>
    requires count { length costs.now.tasks ≡ length walks.now.config.tasks }
    requires small { length walks.now.config.tasks < 4294967296 }
    requires above { h < length walks.now.config.tasks }
    requires clean { (t : ℕ) → t < length walks.now.config.tasks
        → Decides (get_or clean.now t false) (IsClean walks.now.app t) }
    ensures { IfOk result (IsReasonIf walks.now.config walks.now.app costs.now h asked) }
{
    if !asked {
        return Ok(None);
    }
    let Some(untold) = first_untold(costs, h) else {
        return Ok(Some(Reason::Load));
    };
    let line = untold_line(walks, clean, costs, h, untold)?;
    Ok(Some(loop_reason(untold, line)))
}
