//! Where greatest sections begin.
ghost use Rattle.std.specs.Prelude.{◌-◌, ◌<◌, ◌≤◌, ◌≡◌, Some, length, IfOk};
ghost use Rattle.osek_blocking.specs.Sections.{IsLower, IsSection};
ghost use Rattle.run_windows.specs.RunWindows.{IsLeastOf};
ghost use Rattle.walk_sums.specs.declared.sections.Sum.TheVariants as sums;
ghost use Rattle.walk_sums.specs.Told.{IsToldSum};
ghost use Rattle.walk_sums.specs.Weights.{AreWeights};
ghost use Rattle.response_reasons.specs.EarlySections.{last_item_line, last_line, is_reached};
ghost use Rattle.response_reasons.specs.EarlySections.{BeginsSection, IsAround};

use bound_rules::BodyWeights;
use sloth_base::{Func, Item, Result};
use walk_sums::{Sum, Walks};

fn last_item_line(items: &[Item]) -> u32
    ensures { result ≡ last_item_line items.now }
{
    let mut last = 0;
    for item in items {
        last = item.line.max(last);
    }
    last
}

fn last_line(funcs: &[Func]) -> u32
    ensures { result ≡ last_line funcs.now }
{
    let mut last = 0;
    for func in funcs {
        last = last_item_line(func.items.items()).max(last);
    }
    last
}

// Whether some sum is so great, where this is told of the greatest one, and none of all lines is greater.
fn is_reached(sum: Sum, counts: u32) -> bool
    ensures { result ≡ is_reached sum counts }
{
    match sum {
        Sum::Counts(sum) => counts <= sum,
        Sum::Huge | Sum::Endless => true,
    }
}

/// Lines up to one, among which a least one is sought.
#[derive(Clone, Copy)]
pub struct LineRange {
    pub least: u32,
    pub most: u32,
}

// The line in the middle of two.
fn middle(least: u32, most: u32) -> u32
    requires { least < most }
    ensures least { least ≤ result }
    ensures most { result < most }
    ensures small { result < 4294967295 }
{
    least + (most - least) / 2
}

// The half of the lines in which the least one lies.
fn halved(
    walks: &Walks,
    weights: &[BodyWeights],
    above: usize,
    task: usize,
    counts: u32,
    range: LineRange,
) -> Result<LineRange>
    requires weights { AreWeights walks.now.app weights.now }
    requires above { above < length walks.now.config.tasks }
    requires lower { IsLower walks.now.config above task }
    requires told { IsToldSum (IsSection walks.now.config walks.now.app above task) weights.now (sums.Counts counts) }
    requires some { 0 < counts }
    requires more { range.least < range.most }
    requires around { IsAround walks.now.config walks.now.app weights.now above task counts range }
    ensures around { IfOk result (IsAround walks.now.config walks.now.app weights.now above task counts) }
    ensures fewer { IfOk result (λ half. half.most - half.least < range.most - range.least) }
{
    let (least, most) = (range.least, range.most);
    let line = middle(least, most);
    let sum = walks.early_section_sum(weights, above, task, line)?;
    if is_reached(sum, counts) {
        Ok(LineRange { least, most: line })
    } else {
        let least = line + 1;
        Ok(LineRange { least, most })
    }
}

/// The least source line at which a section of a task begins that has the greatest sum, by these weights, of those for
/// task `above`. It is found by halves: sections up to a line are among those up to a later one.
pub fn greatest_section_line(
    walks: &Walks,
    weights: &[BodyWeights],
    above: usize,
    task: usize,
    counts: u32,
) -> Result<u32>
    requires weights { AreWeights walks.now.app weights.now }
    requires above { above < length walks.now.config.tasks }
    requires lower { IsLower walks.now.config above task }
    requires told { IsToldSum (IsSection walks.now.config walks.now.app above task) weights.now (sums.Counts counts) }
    requires some { 0 < counts }
    ensures { IfOk result (λ line. IsLeastOf
        (BeginsSection walks.now.config walks.now.app weights.now above task counts) (Some line)) }
{
    let most = last_line(walks.app().funcs.items());
    let mut range = LineRange { least: 0, most };
    while range.least < range.most {
        let half = halved(walks, weights, above, task, counts, range)?;
        range = half;
    }
    Ok(range.least)
}
