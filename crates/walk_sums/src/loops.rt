//! Loops along which something weighs; ranks of nodes: where no way leads to a rank that is too great, there is none.
ghost use Rattle.std.specs.Prelude.{◌≡◌, ℕ, ◌<◌, Some, true, length, Decides, IfOk};
ghost use Rattle.walk_sums.specs.Graph.{AreInside};
ghost use Rattle.walk_sums.specs.Search.{IsReachable};
ghost use Rattle.walk_sums.specs.Loops.{IsWeighingLoop, HasWeighingLoop, raises, raises_at};
ghost use Rattle.call_graph.specs.Reached.{any_below};

use crate::graph::{Sizes, Ways, reachable, zeros};
use bound_rules::{is_marked, number_at};
use sloth_base::{COUNT_LIMIT, Result};
use std::alloc::Global;

/// Whether a way leads to where a node is reached from.
fn way_reaches(alloc: Global, ways: &[Ways], way: Option<usize>, node: usize) -> Result<bool>
    requires inside { AreInside ways.now }
    requires way { (j : ℕ) → way ≡ Some j → j < length ways.now }
    ensures { IfOk result (λ leads. Decides leads ((j : ℕ) × (way ≡ Some j) × IsReachable ways.now j node)) }
{
    match way {
        Some(next) => {
            let marks = reachable(alloc, ways, next)?;
            Ok(is_marked(&marks, node))
        }
        None => Ok(false),
    }
}

/// Whether a node that weighs something leads back to itself.
fn is_weighing_loop(alloc: Global, ways: &[Ways], steps: &[u32], node: usize) -> Result<bool>
    requires inside { AreInside ways.now }
    requires count { length steps.now ≡ length ways.now }
    requires known { node < length ways.now }
    ensures { IfOk result (λ found. Decides found (IsWeighingLoop ways.now steps.now node)) }
{
    if steps[node] == 0 {
        return Ok(false);
    }
    let next = way_reaches(alloc, ways, ways[node].next, node)?;
    let jump = way_reaches(alloc, ways, ways[node].jump, node)?;
    Ok(next || jump)
}

/// How often nodes are ranked: where loops stand in one another no deeper than that, ranks settle.
const RANKINGS: usize = 8;

/// Whether a node that one more ranking raises is such a node: those of a loop are raised each time.
fn some_raised(
    alloc: Global,
    ways: &[Ways],
    steps: &[u32],
    old: &[u32],
    new: &[u32],
) -> Result<bool>
    requires inside { AreInside ways.now }
    requires count { length steps.now ≡ length ways.now }
    ensures { IfOk result (λ found. found ≡ true → HasWeighingLoop ways.now steps.now) }
{
    for number in 0..ways.len() {
        let node = ways.len() - 1 - number;
        if number_at(old, node) < number_at(new, node) {
            if is_weighing_loop(alloc, ways, steps, node)? {
                return Ok(true);
            }
        }
    }
    Ok(false)
}

fn is_some_weighing(alloc: Global, ways: &[Ways], steps: &[u32]) -> Result<bool>
    requires inside { AreInside ways.now }
    requires count { length steps.now ≡ length ways.now }
    ensures { IfOk result (λ found. Decides found (HasWeighingLoop ways.now steps.now)) }
{
    for node in 0..ways.len() {
        if is_weighing_loop(alloc, ways, steps, node)? {
            return Ok(true);
        }
    }
    Ok(false)
}

/// Whether some node that weighs something leads back to itself.
pub fn has_weighing_loop(alloc: Global, ways: &[Ways], steps: &[u32]) -> Result<bool>
    requires inside { AreInside ways.now }
    requires count { length steps.now ≡ length ways.now }
    ensures { IfOk result (λ found. Decides found (HasWeighingLoop ways.now steps.now)) }
{
    let ranks = passed_ranks(alloc, ways, steps, RANKINGS)?;
    if !some_raises(ways, steps, &ranks) {
        return Ok(false);
    }
    let more = passed_ranks(alloc, ways, steps, RANKINGS + 1)?;
    if some_raised(alloc, ways, steps, &ranks, &more)? {
        return Ok(true);
    }
    is_some_weighing(alloc, ways, steps)
}

/// The rank that a way asks of its node: that of the node to which it leads, one more where its own weighs something.
fn asked(ranks: &[u32], step: u32, way: Option<usize>) -> u32 {
    match way {
        Some(to) => {
            let rank = number_at(ranks, to);
            if 0 < step && rank < COUNT_LIMIT {
                rank + 1
            } else {
                rank
            }
        }
        None => 0,
    }
}

/// Ranks behind so many passes over all nodes, the last one first, which make the rank of a node what its ways ask,
/// where that is more. That they are right is not promised: `some_raises` tells it.
pub fn passed_ranks(alloc: Global, ways: &[Ways], steps: &[u32], count: usize) -> Sizes {
    let mut ranks = zeros(alloc, ways.len())?;
    for _pass in 0..count {
        for number in 0..ways.len() {
            let node = ways.len() - 1 - number;
            let step = number_at(steps, node);
            let next = asked(&ranks, step, ways[node].next);
            let most = asked(&ranks, step, ways[node].jump).max(next);
            if node < ranks.len() && ranks[node] < most {
                ranks[node] = most;
            }
        }
    }
    Ok(ranks)
}

/// Whether a way leads to a rank that is too great: above that of its node, or no less where the node weighs something.
fn raises(ranks: &[u32], step: u32, from: u32, way: Option<usize>) -> bool
    ensures { result ≡ raises ranks.now step from way }
{
    match way {
        Some(to) => {
            let rank = number_at(ranks, to);
            if 0 < step { from <= rank } else { from < rank }
        }
        None => false,
    }
}

/// Whether some way does.
pub fn some_raises(ways: &[Ways], steps: &[u32], ranks: &[u32]) -> bool
    ensures { result ≡ any_below (length ways.now) (raises_at ways.now steps.now ranks.now) }
{
    let mut some = false;
    for node in 0..ways.len() {
        let step = number_at(steps, node);
        let from = number_at(ranks, node);
        some = some
            || (raises(ranks, step, from, ways[node].next)
                || raises(ranks, step, from, ways[node].jump));
    }
    some
}
