//! Whether points are those of a section.
ghost use Rattle.std.specs.Prelude.{◌≡◌, ◌<◌, get_or, length, true, false, IfOk, IfSome};
ghost use Rattle.sloth_base.specs.Named.{function, operation};
ghost use Rattle.sloth_base.specs.declared.app.Op.TheVariants as op_is;
ghost use Rattle.code_rules.specs.Code.{IsItem};
ghost use Rattle.osek_blocking.specs.Sections.{IsLower, is_counted, is_schedule};
ghost use Rattle.walk_sums.specs.Activations.{ReachesItem};
ghost use Rattle.walk_sums.specs.Positions.{no_point};
ghost use Rattle.section_ways.specs.Trying.{IsToldStack, IsStartStack, IsRaisedStack, GoesFurther, GoesThrough};

use crate::pair::Trial;
use crate::steps::point_op;
use bound_rules::{is_marked, is_schedule};
use sloth_base::{App, Op, Result, Service};
use text_pieces::push;
use walk_sums::{Point, Standing, is_same};

fn is_call(app: &App, from: Point, func: usize) -> bool
    ensures { result ≡ true → IsItem app.now from.func from.item (op_is.Invoke func) }
{
    let Some(op) = point_op(app, from) else {
        return false;
    };
    match op {
        Op::Invoke { func: called } => called.0 as usize == func,
        _ => false,
    }
}

/// Whether an operation counts.
pub fn counts(op: Op) -> bool
    ensures { result ≡ is_counted op }
{
    match op {
        Op::Serve(call) => !matches!(call.service, Service::TerminateTask),
        _ => true,
    }
}

fn is_calm(app: &App, point: Point) -> bool
    ensures { result ≡ true → is_schedule (operation app.now point.func point.item) ≡ false }
{
    point_op(app, point).is_some_and(|op| !is_schedule(op))
}

// Whether a function in progress stands at the point, which counts.
fn counts_here(app: &App, at: Point, point: Point) -> bool
    ensures same { result ≡ true → at ≡ point }
    ensures known { result ≡ true → at.func < length app.now.funcs }
    ensures inside { result ≡ true → at.item < length (function app.now at.func).items }
    ensures counts { result ≡ true → is_counted (operation app.now at.func at.item) ≡ true }
{
    match point_op(app, at) {
        Some(op) => is_same(at, point) && counts(op),
        None => false,
    }
}

impl Trial<'_> {
    fn is_reached(&self, point: Point) -> bool
        ensures known { result ≡ true → point.func < length self.now.app.funcs }
        ensures reached { result ≡ true → ReachesItem self.now.app point.func point.item }
    {
        let bodies = self.walks.bodies();
        point.func < bodies.len() && is_marked(bodies[point.func].reached.items(), point.item)
    }

    // Whether an item calls the function of a point, which walks into that function reach.
    fn leads_into(&self, from: Point, to: Point) -> bool
        ensures reached { result ≡ true → ReachesItem self.now.app to.func to.item }
        ensures call { result ≡ true → IsItem self.now.app from.func from.item (op_is.Invoke to.func) }
    {
        self.is_reached(to) && is_call(self.app(), from, to.func)
    }

    // A further function in progress, which the innermost of these calls.
    fn take_next(&self, stack: &mut Vec<Standing>, to: Point) -> Result<bool>
        requires { IsStartStack self.now stack.old.items }
        ensures { IfOk result (λ taken. taken ≡ true → IsStartStack self.now stack.new.items) }
    {
        let Some(at) = stack.pop() else {
            return Ok(false);
        };
        if !self.leads_into(at.point, to) {
            return Ok(false);
        }
        let raised = self.is_raised(at);
        push(stack, at)?;
        push(stack, Standing { point: to, raised })?;
        Ok(true)
    }

    fn take_all(&self, stack: &mut Vec<Standing>, points: &[Point]) -> Result<bool>
        requires { IsStartStack self.now stack.old.items }
        ensures { IfOk result (λ taken. taken ≡ true → IsStartStack self.now stack.new.items) }
    {
        for number in 1..points.len() {
            if !self.take_next(stack, points[number])? {
                return Ok(false);
            }
        }
        Ok(true)
    }

    // Whether a point is in the task's body, where walks reach it.
    fn begins(&self, body: usize, point: Point) -> bool
        ensures body { result ≡ true → point.func ≡ body }
        ensures reached { result ≡ true → ReachesItem self.now.app point.func point.item }
    {
        point.func == body && self.is_reached(point)
    }

    /// The position of these points, the outermost first, if walks lead to it.
    pub fn walked_stack(&self, points: &[Point]) -> Result<Option<Vec<Standing>>>
        ensures found { IfOk result (λ found. IfSome found (λ stack.
            IsStartStack self.now stack.items)) }
        ensures lower { IsLower self.now.config self.now.above self.now.task }
    {
        let body = self.body();
        if points.is_empty() {
            return Ok(None);
        }
        let point = points[0];
        if !self.begins(body, point) {
            return Ok(None);
        }
        let raised = self.is_always_raised();
        let mut stack = Vec::new(self.walks.alloc());
        push(&mut stack, Standing { point, raised })?;
        if self.take_all(&mut stack, points)? {
            Ok(Some(stack))
        } else {
            Ok(None)
        }
    }

    // Whether the innermost point is this one, counts, and the task is raised there.
    fn is_there(&self, stack: &mut Vec<Standing>, point: Point) -> Result<bool>
        requires { IsToldStack self.now stack.old.items }
        ensures { IfOk result (λ stands. stands ≡ true
            → (stack.new.items ≡ stack.old.items) × IsRaisedStack self.now stack.old.items point) }
    {
        let Some(at) = stack.pop() else {
            return Ok(false);
        };
        push(stack, at)?;
        if !counts_here(self.app(), at.point, point) {
            return Ok(false);
        }
        Ok(self.is_raised(at))
    }

    // Whether a section goes on from one point to the next.
    fn goes_further(&self, stack: &mut Vec<Standing>, from: Point, to: Point) -> Result<bool>
        requires at { IsRaisedStack self.now stack.old.items from }
        requires told { IsToldStack self.now stack.old.items }
        ensures { IfOk result (GoesFurther self.now stack.old.items stack.new.items from to) }
    {
        if !is_calm(self.app(), from) {
            return Ok(false);
        }
        if !self.advance(stack, to)? {
            return Ok(false);
        }
        self.is_there(stack, to)
    }

    // Whether a section goes on from the first of these points to the others.
    fn goes_through(&self, stack: &mut Vec<Standing>, points: &[Point]) -> Result<bool>
        requires some { 0 < length points.now }
        requires told { IsToldStack self.now stack.old.items }
        requires at { IsRaisedStack self.now stack.old.items (get_or points.now 0 no_point) }
        ensures { IfOk result (GoesThrough self.now stack.old.items stack.new.items points.now) }
    {
        for number in 1..points.len() {
            if !self.goes_further(stack, points[number - 1], points[number])? {
                return Ok(false);
            }
        }
        Ok(true)
    }

    /// Whether these are points of a section from the position of the stack, each of which counts: the stack is then
    /// the last position.
    pub fn is_section(&self, stack: &mut Vec<Standing>, points: &[Point]) -> Result<bool>
        requires { IsToldStack self.now stack.old.items }
        ensures { IfOk result (GoesThrough self.now stack.old.items stack.new.items points.now) }
    {
        if points.is_empty() {
            return Ok(false);
        }
        if !self.is_there(stack, points[0])? {
            return Ok(false);
        }
        self.goes_through(stack, points)
    }
}
