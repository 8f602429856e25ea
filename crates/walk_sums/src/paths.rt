//! What is made of a body before its summary: the ways between its items, how trails go along them, and the longest
//! ones: by an order, or, where there are loops, by passes over all nodes until none changes anything.
ghost use Rattle.std.specs.Prelude.{◌≡◌, ◌<◌, ℕ, false, length, get_or, IfOk, ◌≤◌, true, set};
ghost use Rattle.walk_sums.specs.Shapes.{HasOrder, IsShape, is_endless};
ghost use Rattle.walk_sums.specs.Trails.{AreSizesInLimit, AreSizes, IsLongest, longest_from};
ghost use Rattle.walk_sums.specs.Computed.{is_alive};
ghost use Rattle.walk_sums.specs.Lists.{weights_of, AreBodyWays, ArePaths, AreEndingTrails, AreLeavingTrails};
ghost use Rattle.walk_sums.specs.Graph.{AreInside};
ghost use Rattle.walk_sums.specs.Loops.{AreAttained, HasGrown};

use crate::bodies::body_ways;
use crate::graph::{Sizes, Ways, finish_order, longest, longest_size, zeros};
use crate::items::{
    alive_items, ending_sizes, going_items, going_sizes, leaving_sizes, passed_functions,
};
use crate::levels::Caller;
use crate::loops::has_weighing_loop;
use bound_rules::{BodyWeights, weights_at};
use sloth_base::{List, Result};
use std::alloc::Global;

/// The items of a body before which the task is raised, the ways between those that go on, what each item adds to a
/// part that goes on behind it, and how trails go along the ways.
#[derive(Drop)]
pub struct Paths {
    pub alive: List<bool>,
    pub ways: List<Ways>,
    pub steps: List<u32>,
    pub shape: Shape,
}

impl Caller<'_> {
    fn own_weights(&self) -> &BodyWeights
        ensures is { result.now ≡ weights_of self.now }
        ensures going { AreSizesInLimit result.now.going }
        ensures ending { AreSizesInLimit result.now.ending }
    {
        weights_at(self.weights, self.number)
    }

    /// The ways between items before which the task is raised.
    fn ways(&self, alive: &[bool]) -> Result<Vec<Ways>>
        requires count { length alive.now ≡ length self.now.known.func.items }
        requires alive { (i : ℕ) → i < length self.now.known.func.items
            → get_or alive.now i false ≡ is_alive self.now.known.body self.now.known.level i }
        ensures { IfOk result (λ ways.
            AreBodyWays self.now.kind self.now.known.func self.now.known.body self.now.known.level
            self.now.known.whole alive.now ways.items) }
    {
        let going = going_items(self.alloc, self.func, self.kind, alive)?;
        let passed = passed_functions(self.alloc, self.whole)?;
        let ways = body_ways(self.alloc, self.func, &passed, &going, alive)?;
        Ok(ways)
    }

    /// The paths of the body.
    pub fn paths(&self) -> Result<Paths>
        ensures { IfOk result (ArePaths self.now) }
    {
        let alive = alive_items(self.alloc, self.func, self.body, self.level)?;
        let ways = self.ways(&alive)?;
        let weights = self.own_weights().going.items();
        let steps = going_sizes(self.alloc, self.func, weights, self.whole)?;
        let shape = trail_shape(self.alloc, &ways, &steps)?;
        Ok(Paths {
            alive: List::from_vec(alive),
            ways: List::from_vec(ways),
            steps: List::from_vec(steps),
            shape,
        })
    }

    /// For each item the size of the longest trail from it.
    pub fn ending_trails(&self, paths: &Paths) -> Sizes
        requires paths { ArePaths self.now paths.now }
        requires order { HasOrder paths.now.ways paths.now.shape }
        ensures trails { IfOk result (λ on. AreEndingTrails self.now paths.now on.items) }
        ensures small { IfOk result (λ on. AreSizesInLimit on.items) }
    {
        let weights = self.own_weights().ending.items();
        let alive = paths.alive.items();
        let ends = ending_sizes(self.alloc, self.func, weights, alive, self.whole)?;
        longest_sizes(self.alloc, paths, &ends)
    }

    /// For each item the size of the longest trail from it that ends with the body's `ret`.
    pub fn leaving_trails(&self, paths: &Paths) -> Sizes
        requires paths { ArePaths self.now paths.now }
        requires order { HasOrder paths.now.ways paths.now.shape }
        ensures trails { IfOk result (λ back. AreLeavingTrails self.now paths.now back.items) }
        ensures small { IfOk result (λ back. AreSizesInLimit back.items) }
    {
        let weights = self.own_weights().going.items();
        let leaves = leaving_sizes(self.alloc, self.func, weights, paths.alive.items())?;
        longest_sizes(self.alloc, paths, &leaves)
    }
}

/// How trails go.
#[derive(Drop)]
pub enum Shape {
    /// Each node stands behind those that it leads to.
    Ordered(List<usize>),
    /// There are loops, along which nothing weighs.
    Looped,
    /// Something weighs along a loop.
    Endless,
}

/// How the trails along these ways go, by what their nodes weigh.
pub fn trail_shape(alloc: Global, ways: &[Ways], steps: &[u32]) -> Result<Shape>
    requires inside { AreInside ways.now }
    requires count { length steps.now ≡ length ways.now }
    ensures { IfOk result (IsShape ways.now steps.now) }
{
    match finish_order(alloc, ways)? {
        Some(order) => Ok(Shape::Ordered(order)),
        None => {
            if has_weighing_loop(alloc, ways, steps)? {
                Ok(Shape::Endless)
            } else {
                Ok(Shape::Looped)
            }
        }
    }
}

/// Whether something weighs along a loop.
pub fn is_endless(shape: &Shape) -> bool
    ensures { result ≡ is_endless shape.now }
{
    matches!(shape, Shape::Endless)
}

/// For each node the size of the longest trail from it.
fn longest_sizes(alloc: Global, paths: &Paths, ends: &[u32]) -> Sizes
    requires inside { AreInside paths.now.ways }
    requires order { HasOrder paths.now.ways paths.now.shape }
    requires sizes { AreSizes paths.now.ways paths.now.steps ends.now }
    ensures count { IfOk result (λ table. length table.items ≡ length paths.now.ways) }
    ensures longest { IfOk result (λ table. (i : ℕ) → i < length paths.now.ways
        → IsLongest paths.now.ways paths.now.steps ends.now i (get_or table.items i 0)) }
{
    let (ways, steps) = (paths.ways.items(), paths.steps.items());
    match &paths.shape {
        Shape::Ordered(order) => longest(alloc, ways, order.items(), steps, ends),
        Shape::Looped | Shape::Endless => settled(alloc, ways, steps, ends),
    }
}

/// Makes the entry of a node what its ways say, where that is more: whether it has grown.
fn grow(ways: &[Ways], table: &mut [u32], steps: &[u32], ends: &[u32], node: usize) -> bool
    requires inside { AreInside ways.now }
    requires sizes { AreSizes ways.now steps.now ends.now }
    requires attained { AreAttained ways.now steps.now ends.now table.old }
    requires known { node < length ways.now }
    ensures attained { AreAttained ways.now steps.now ends.now table.new }
    ensures grown { result ≡ true → (get_or table.old node 0 < get_or table.new node 0)
        × (table.new ≡ set table.old node (get_or table.new node 0)) }
    ensures same { result ≡ false → (table.new ≡ table.old)
        × (longest_from ways.now table.old steps.now ends.now node ≤ get_or table.old node 0) }
{
    let size = longest_size(ways, table, steps, ends, node);
    if table[node] < size {
        table[node] = size;
        true
    } else {
        false
    }
}

/// A pass over all nodes, the last one first, since most lead to later ones: whether an entry has grown.
fn pass(ways: &[Ways], table: &mut [u32], steps: &[u32], ends: &[u32]) -> bool
    requires inside { AreInside ways.now }
    requires sizes { AreSizes ways.now steps.now ends.now }
    requires attained { AreAttained ways.now steps.now ends.now table.old }
    ensures attained { AreAttained ways.now steps.now ends.now table.new }
    ensures grown { HasGrown ways.now steps.now ends.now table.old table.new 0 result }
{
    let mut grown = false;
    for number in 0..ways.len() {
        let node = ways.len() - 1 - number;
        if grow(ways, table, steps, ends, node) {
            grown = true;
        }
    }
    grown
}

/// For each node the size of the longest trail from it, whatever loops there are: where something weighs along one,
/// that may be the greatest size that is counted.
pub fn settled(alloc: Global, ways: &[Ways], steps: &[u32], ends: &[u32]) -> Sizes
    requires inside { AreInside ways.now }
    requires sizes { AreSizes ways.now steps.now ends.now }
    ensures count { IfOk result (λ table. length table.items ≡ length ways.now) }
    ensures longest { IfOk result (λ table. (i : ℕ) → i < length ways.now
        → IsLongest ways.now steps.now ends.now i (get_or table.items i 0)) }
{
    let mut table = zeros(alloc, ways.len())?;
    loop {
        if !pass(ways, &mut table, steps, ends) {
            return Ok(table);
        }
    }
}
