//! The weights by which items count what they take.
ghost use Rattle.std.specs.Prelude.{◌≡◌, ◌≤◌, ◌<◌, ◌+◌, ℕ, length, IfOk};
ghost use Rattle.sloth_base.specs.Named.{item_of};
ghost use Rattle.code_rules.specs.AppRange.{IsTaskCode};
ghost use Rattle.sim_induction.specs.Items.{length_of, going_counts, ending_counts};
ghost use Rattle.walk_sums.specs.Weights.{AreWeights};
ghost use Rattle.run_counts.specs.Counts.{AreBodyCounts, AreCountsBy, AreCounts};

use bound_rules::BodyWeights;
use sim_induction::{ItemLengths, ending_counts, going_counts, length_of, lengths};
use sloth_base::{App, Func, List, Result};
use std::alloc::Global;
use text_pieces::push;

/// The counts of an item behind which its task goes on.
fn going_at(lengths: &ItemLengths, number: usize, func: &Func, item: usize) -> u32
    requires short { (f i : ℕ) → length_of lengths.now.bodies f i ≤ 36 }
    requires inside { item < length func.now.items }
    ensures { result ≡ length_of lengths.now.bodies number item + going_counts (item_of func.now item).op }
{
    let length = length_of(lengths, number, item);
    length + going_counts(&func.items.items()[item].op)
}

/// The same where it goes on or leaves with it.
fn ending_at(lengths: &ItemLengths, number: usize, func: &Func, item: usize) -> u32
    requires short { (f i : ℕ) → length_of lengths.now.bodies f i ≤ 36 }
    requires inside { item < length func.now.items }
    ensures { result ≡ length_of lengths.now.bodies number item + ending_counts func.now (item_of func.now item).op }
{
    let length = length_of(lengths, number, item);
    length + ending_counts(func, &func.items.items()[item].op)
}

/// Those of the items of a body.
fn body_counts(
    alloc: Global,
    lengths: &ItemLengths,
    number: usize,
    func: &Func,
) -> Result<BodyWeights>
    requires short { (f i : ℕ) → length_of lengths.now.bodies f i ≤ 36 }
    ensures { IfOk result (AreBodyCounts lengths.now.bodies number func.now) }
{
    let mut going = Vec::new(alloc);
    let mut ending = Vec::new(alloc);
    for item in 0..func.items.items().len() {
        push(&mut going, going_at(lengths, number, func, item))?;
        push(&mut ending, ending_at(lengths, number, func, item))?;
    }
    Ok(BodyWeights {
        going: List::from_vec(going),
        ending: List::from_vec(ending),
    })
}

/// The counts of all items by their lengths, as weights by which sections are summed.
pub fn weights_by(alloc: Global, app: &App, lengths: &ItemLengths) -> Result<Vec<BodyWeights>>
    requires short { (f i : ℕ) → length_of lengths.now.bodies f i ≤ 36 }
    ensures are { IfOk result (λ weights. AreCountsBy app.now lengths.now.bodies weights.items) }
    ensures fit { IfOk result (λ weights. AreWeights app.now weights.items) }
{
    let mut weights = Vec::new(alloc);
    for number in 0..app.funcs.items().len() {
        let own = body_counts(alloc, lengths, number, app.function(number))?;
        push(&mut weights, own)?;
    }
    Ok(weights)
}

/// The same, with the fewest long branches.
pub fn count_weights(alloc: Global, app: &App) -> Result<Vec<BodyWeights>>
    requires { IsTaskCode app.now }
    ensures are { IfOk result (λ weights. AreCounts app.now weights.items) }
    ensures fit { IfOk result (λ weights. AreWeights app.now weights.items) }
{
    let lengths = lengths(alloc, app)?;
    weights_by(alloc, app, &lengths)
}
