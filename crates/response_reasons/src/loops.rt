//! Loops in bodies, function by function. The least lines of loops on walks of a task.
//! Nodes twice: once before something has weighed on the way, and once afterwards.
ghost use Rattle.std.specs.Prelude.{◌≡◌, ◌+◌, ◌<◌, ℕ, None, Some, false, length, get_or, IfOk, Decides};
ghost use Rattle.sloth_base.specs.Named.{item_of};
ghost use Rattle.code_rules.specs.Code.{HasCall};
ghost use Rattle.bound_rules.specs.Summaries.{summary_of};
ghost use Rattle.run_windows.specs.Costs.{lesser};
ghost use Rattle.run_windows.specs.RunWindows.{IsLeastOf};
ghost use Rattle.walk_sums.specs.Graph.{AreInside, ways_of};
ghost use Rattle.walk_sums.specs.Known.{AreSums, IsSummed};
ghost use Rattle.walk_sums.specs.Weights.{AreWeights};
ghost use Rattle.response_reasons.specs.LoopCode.{IsLoopCode, IsOfAllLines, is_limited, AreLoopWays, IsLineOfLoop, line_at, called_line, IsLeastLine, AreLeastLines};
ghost use Rattle.response_reasons.specs.Loops.{HasTurnLoop, HasSectionLoop};
ghost use Rattle.walk_sums.specs.Search.{IsReachable};
ghost use Rattle.response_reasons.specs.Doubled.{second_way, second_ways, first_ways, AreFirst, AreDoubled};

use bound_rules::{Body, BodyWeights, Summary, is_marked, number_at, reaches_level, weights_at};
use run_windows::level::lesser;
use sloth_base::{App, Config, Func, Op, Result};
use std::alloc::Global;
use std::marker::Model;
use text_pieces::push;
use walk_sums::bodies::body_ways;
use walk_sums::graph::{Ways, reachable};
use walk_sums::items::{alive_items, going_items, going_sizes};
use walk_sums::{Kind, Walks, numbered_body, numbered_function};

/// The least source line of some, if there is one.
pub type Line = Option<u32>;

/// Task code with weights, and by them the summaries of its functions where their callers have raised the task.
#[derive(Drop)]
pub struct Loops<'a> {
    alloc: Global,
    config: &'a Config,
    app: &'a App,
    order: &'a [usize],
    bodies: &'a [Body],
    weights: &'a [BodyWeights],
    kind: Kind,
    whole: &'a [Summary],
}

impl<'a> Model for Loops<'a> {
    ghost use Rattle.response_reasons.specs.LoopCode.{LoopCode, IsLoopCode};

    ghost Value = { LoopCode };

    ghost view = { λ l. record {
      walks = record { config = l.config.now; app = l.app.now; order = l.order.now; bodies = l.bodies.now };
      weights = l.weights.now;
      kind = l.kind;
      whole = l.whole.now;
    } };

    ghost invariant = { λ l. IsLoopCode (record {
      walks = record { config = l.config.now; app = l.app.now; order = l.order.now; bodies = l.bodies.now };
      weights = l.weights.now;
      kind = l.kind;
      whole = l.whole.now;
    }) };
}

fn is_limited(summary: &Summary) -> bool
    ensures { result ≡ is_limited summary.now }
{
    !summary.is_endless && 0 < summary.back
}

/// The functions through which a part may go, and whose parts have a limit.
fn limited_functions(alloc: Global, whole: &[Summary]) -> Result<Vec<bool>>
    ensures { IfOk result (λ limited. (g : ℕ) → get_or limited.items g false ≡ is_limited (summary_of whole.now g)) }
{
    let mut limited = Vec::new(alloc);
    for summary in whole {
        push(&mut limited, is_limited(summary))?;
    }
    Ok(limited)
}

fn own_line(alloc: Global, func: &Func, twice: &[Ways], item: usize) -> Result<Line>
    requires inside { AreInside twice.now }
    requires both { length twice.now ≡ length func.now.items + length func.now.items }
    requires known { item < length func.now.items }
    ensures { IfOk result (IsLeastOf (IsLineOfLoop func.now twice.now item)) }
{
    let items = func.items.items();
    if is_on_loop(alloc, twice, items.len(), item)? {
        Ok(Some(items[item].line))
    } else {
        Ok(None)
    }
}

/// The line of a function, by a table.
pub fn numbered_line(lines: &[Line], number: usize) -> Line
    ensures { result ≡ line_at lines.now number }
{
    lines.get(number).copied().unwrap_or(None)
}

fn called_line(
    func: &Func,
    body: &Body,
    level: Option<u32>,
    whole: &[Line],
    own: &[Line],
    item: usize,
) -> Line
    requires { item < length func.now.items }
    ensures { result ≡ called_line body.now level whole.now own.now item (item_of func.now item).op }
{
    match func.items.items()[item].op {
        Op::Invoke { func } if is_marked(body.reached.items(), item) => {
            if reaches_level(level, number_at(body.ceilings.items(), item)) {
                numbered_line(whole, func.0 as usize)
            } else {
                numbered_line(own, func.0 as usize)
            }
        }
        _ => None,
    }
}

pub fn no_lines(alloc: Global, count: usize) -> Result<Vec<Line>>
    ensures count { IfOk result (λ lines. length lines.items ≡ count) }
{
    Ok(Vec::from_elem(alloc, None, count)?)
}

impl<'a> Loops<'a> {
    /// Of task code that is walked.
    pub fn of(
        walks: &'a Walks<'a>,
        weights: &'a [BodyWeights],
        kind: Kind,
        whole: &'a [Summary],
    ) -> Loops<'a>
        requires weights { AreWeights walks.now.app weights.now }
        requires of_all { IsOfAllLines kind }
        requires whole { AreSums walks.now.config walks.now.app weights.now kind None whole.now }
        ensures { result ≡ record { walks = walks.now; weights = weights.now; kind = kind; whole = whole.now } }
    {
        Loops {
            alloc: walks.alloc(),
            config: walks.config(),
            app: walks.app(),
            order: walks.order(),
            bodies: walks.bodies(),
            weights,
            kind,
            whole,
        }
    }

    /// The nodes of a body, twice, and the ways between them.
    fn ways(&self, level: Option<u32>, number: usize) -> Result<Vec<Ways>>
        requires { number < length self.now.walks.app.funcs }
        ensures { IfOk result (λ twice. AreLoopWays self.now level number twice.items) }
    {
        let func = numbered_function(self.app, number);
        let alive = alive_items(self.alloc, func, numbered_body(self.bodies, number), level)?;
        let going = going_items(self.alloc, func, self.kind, &alive)?;
        let limited = limited_functions(self.alloc, self.whole)?;
        let ways = body_ways(self.alloc, func, &limited, &going, &alive)?;
        let weights = weights_at(self.weights, number);
        let steps = going_sizes(self.alloc, func, weights.going.items(), self.whole)?;
        doubled(self.alloc, &ways, &steps)
    }

    /// The least line of an item on a loop in function `number`, or in one that it calls: by those of these, where the
    /// task is raised as they are called, and where not.
    fn line(&self, level: Option<u32>, number: usize, whole: &[Line], own: &[Line]) -> Result<Line>
        requires known { number < length self.now.walks.app.funcs }
        requires whole { (g : ℕ) → HasCall self.now.walks.app number g
            → IsLeastLine self.now None g (line_at whole.now g) }
        requires own { (g : ℕ) → HasCall self.now.walks.app number g
            → IsLeastLine self.now level g (line_at own.now g) }
        ensures { IfOk result (IsLeastLine self.now level number) }
    {
        let func = numbered_function(self.app, number);
        let body = numbered_body(self.bodies, number);
        let twice = self.ways(level, number)?;
        let mut least = None;
        for item in 0..func.items.items().len() {
            let here = own_line(self.alloc, func, &twice, item)?;
            let called = called_line(func, body, level, whole, own, item);
            least = lesser(least, lesser(here, called));
        }
        Ok(least)
    }

    /// Those of all functions where their callers have raised the task.
    pub fn whole_lines(&self) -> Result<Vec<Line>>
        ensures { IfOk result (λ lines. AreLeastLines self.now None lines.items) }
    {
        let mut lines = no_lines(self.alloc, self.app.funcs.items().len())?;
        for number in self.order {
            let line = self.line(None, *number, &lines, &lines)?;
            lines[*number] = line;
        }
        Ok(lines)
    }

    /// Those where functions raise it to a priority by what they hold themselves.
    pub fn own_lines(&self, priority: u32, whole: &[Line]) -> Result<Vec<Line>>
        requires { AreLeastLines self.now None whole.now }
        ensures { IfOk result (λ lines. AreLeastLines self.now (Some priority) lines.items) }
    {
        let mut lines = no_lines(self.alloc, self.app.funcs.items().len())?;
        for number in self.order {
            let line = self.line(Some(priority), *number, whole, &lines)?;
            lines[*number] = line;
        }
        Ok(lines)
    }
}

/// The least source line of an item of a task that lies on a loop along which something weighs, in its turns or rounds,
/// if there is one.
pub fn turn_line(walks: &Walks, weights: &[BodyWeights], kind: Kind, task: usize) -> Result<Line>
    requires weights { AreWeights walks.now.app weights.now }
    requires of_all { IsOfAllLines kind }
    requires summed { IsSummed weights.now kind None }
    requires inside { task < length walks.now.config.tasks }
    ensures { IfOk result (IsLeastOf (HasTurnLoop walks.now.config walks.now.app weights.now kind task)) }
{
    let whole = walks.whole_sums(weights, kind)?;
    let loops = Loops::of(&*walks, &*weights, kind, &whole);
    let lines = loops.whole_lines()?;
    Ok(numbered_line(&lines, walks.body(task)))
}

/// The same in its raised sections for task h.
pub fn section_line(walks: &Walks, weights: &[BodyWeights], h: usize, task: usize) -> Result<Line>
    requires weights { AreWeights walks.now.app weights.now }
    requires above { h < length walks.now.config.tasks }
    requires inside { task < length walks.now.config.tasks }
    ensures { IfOk result (IsLeastOf (HasSectionLoop walks.now.config walks.now.app weights.now h task)) }
{
    let sums = walks.whole_sums(weights, Kind::Sections)?;
    let loops = Loops::of(&*walks, &*weights, Kind::Sections, &sums);
    let whole = loops.whole_lines()?;
    if walks.task(task).non {
        return Ok(numbered_line(&whole, walks.body(task)));
    }
    let own = loops.own_lines(walks.priority(h), &whole)?;
    Ok(numbered_line(&own, walks.body(task)))
}

fn second_way(way: Option<usize>, count: usize) -> Option<usize>
    requires { (j : ℕ) → way ≡ Some j → count + j < 18446744073709551616 }
    ensures { result ≡ second_way count way }
{
    Some(count + way?)
}

/// The ways of a node among the second ones, behind `count` first ones.
fn second_ways(ways: &[Ways], node: usize) -> Ways
    requires inside { AreInside ways.now }
    requires known { node < length ways.now }
    requires few { length ways.now < 9223372036854775808 }
    ensures { result ≡ second_ways (length ways.now) (ways_of ways.now node) }
{
    Ways {
        next: second_way(ways[node].next, ways.len()),
        jump: second_way(ways[node].jump, ways.len()),
    }
}

/// Those of a first one: to second ones, if it weighs something.
fn first_ways(ways: &[Ways], steps: &[u32], node: usize) -> Ways
    requires inside { AreInside ways.now }
    requires count { length steps.now ≡ length ways.now }
    requires known { node < length ways.now }
    requires few { length ways.now < 9223372036854775808 }
    ensures { result ≡ first_ways ways.now steps.now node }
{
    if 0 < steps[node] {
        second_ways(ways, node)
    } else {
        ways[node]
    }
}

fn first_nodes(alloc: Global, ways: &[Ways], steps: &[u32]) -> Result<Vec<Ways>>
    requires inside { AreInside ways.now }
    requires count { length steps.now ≡ length ways.now }
    requires few { length ways.now < 9223372036854775808 }
    ensures { IfOk result (λ twice. AreFirst ways.now steps.now twice.items) }
{
    let mut twice = Vec::new(alloc);
    for node in 0..ways.len() {
        push(&mut twice, first_ways(ways, steps, node))?;
    }
    Ok(twice)
}

/// The first nodes and the second ones.
pub fn doubled(alloc: Global, ways: &[Ways], steps: &[u32]) -> Result<Vec<Ways>>
    requires inside { AreInside ways.now }
    requires count { length steps.now ≡ length ways.now }
    requires few { length ways.now < 9223372036854775808 }
    ensures { IfOk result (λ twice. AreDoubled ways.now steps.now twice.items) }
{
    let mut twice = first_nodes(alloc, ways, steps)?;
    for node in 0..ways.len() {
        push(&mut twice, second_ways(ways, node))?;
    }
    Ok(twice)
}

/// Whether the first node of this number leads to the second one.
pub fn is_on_loop(alloc: Global, twice: &[Ways], count: usize, node: usize) -> Result<bool>
    requires inside { AreInside twice.now }
    requires known { node < count }
    requires both { length twice.now ≡ count + count }
    ensures { IfOk result (λ on. Decides on (IsReachable twice.now node (count + node))) }
{
    let marks = reachable(alloc, twice, node)?;
    Ok(is_marked(&marks, count + node))
}
