//! Steps of walks, from position to position.
ghost use Rattle.std.specs.Prelude.{◌≡◌, ◌<◌, ◌+◌, ◌||◌, ◌∷◌, leb, length, true, false, IfOk, IfSome};
ghost use Rattle.sloth_base.specs.Named.{function, item_of, label_of};
ghost use Rattle.sloth_base.specs.declared.app.Op.TheVariants as op_is;
ghost use Rattle.code_rules.specs.Code.{IsItem, IsPathStep};
ghost use Rattle.osek_scheduler.specs.Apart.{static_priority};
ghost use Rattle.osek_blocking.specs.Walks.{chains_itself};
ghost use Rattle.walk_sums.specs.Activations.{ceiling_before, is_plain};
ghost use Rattle.walk_sums.specs.Positions.{place_of, position_of};
ghost use Rattle.section_ways.specs.Trying.{is_raised_position, IsToldStack, Advances};

use crate::pair::Trial;
use bound_rules::number_at;
use osek_blocking::chains_itself;
use sloth_base::{App, Func, Op, Result};
use task_verify::way;
use text_pieces::push;
use walk_sums::{Point, Standing, is_next_item};

/// The operation of an item, if there is one.
pub fn point_op(app: &App, point: Point) -> Option<Op>
    ensures { IfSome result (λ o. IsItem app.now point.func point.item o) }
{
    let items = app.funcs.items().get(point.func)?.items.items();
    Some(items.get(point.item)?.op)
}

// Whether this label stands in front of an item.
fn is_place(func: &Func, label: u32, to: usize) -> bool
    ensures { result ≡ true → to ≡ (label_of func.now label).item }
{
    let labels = func.labels.items();
    (label as usize) < labels.len() && labels[label as usize].item as usize == to
}

fn jumps(func: &Func, from: usize, to: usize) -> bool
    requires { from < length func.now.items }
    ensures { result ≡ true → IsPathStep func.now from to }
{
    match way(func.items.items()[from].op) {
        Some(label) => is_place(func, label, to),
        None => false,
    }
}

// Whether a walk goes on from an item to another one.
fn continues(func: &Func, from: usize, to: usize) -> bool
    requires { from < length func.now.items }
    ensures path { result ≡ true → IsPathStep func.now from to }
    ensures stays { result ≡ true → chains_itself func.now (item_of func.now from).op ≡ false }
{
    let items = func.items.items();
    (is_next_item(items[from].op, from, to) || jumps(func, from, to))
        && !chains_itself(func, items[from].op)
}

// The same between points of the task code.
fn goes_inside(app: &App, from: Point, to: Point) -> bool
    requires known { from.func < length app.now.funcs }
    requires inside { from.item < length (function app.now from.func).items }
    ensures same { result ≡ true → from.func ≡ to.func }
    ensures path { result ≡ true → IsPathStep (function app.now from.func) from.item to.item }
    ensures stays { result ≡ true → chains_itself (function app.now from.func) (item_of (function app.now from.func)
        from.item).op ≡ false }
{
    from.func == to.func && continues(&app.funcs.items()[from.func], from.item, to.item)
}

fn is_entry(called: usize, to: Point) -> bool
    ensures { result ≡ true → (to.func ≡ called) × (to.item ≡ 0) }
{
    to.func == called && to.item == 0
}

fn is_behind(call: Point, to: Point) -> bool
    ensures { result ≡ true → (to.func ≡ call.func) × (to.item ≡ call.item + 1) }
{
    call.func == to.func && 0 < to.item && to.item - 1 == call.item
}

impl Trial<'_> {
    /// Whether the task is raised at the innermost of these.
    pub fn is_raised(&self, at: Standing) -> bool
        requires known { at.point.func < length self.now.app.funcs }
        requires inside { at.point.item < length (function self.now.app at.point.func).items }
        ensures { result ≡ (at.raised || leb (static_priority self.now.config self.now.above)
            (ceiling_before self.now.config self.now.app at.point.func at.point.item)) }
    {
        let body = &self.walks.bodies()[at.point.func];
        let ceiling = number_at(body.ceilings.items(), at.point.item);
        at.raised || self.walks.config().tasks.items()[self.above].priority <= ceiling
    }

    fn enter(&self, stack: &mut Vec<Standing>, at: Standing, func: usize, to: Point) -> Result<bool>
        requires item { IsItem self.now.app at.point.func at.point.item (op_is.Invoke func) }
        requires told { IsToldStack self.now stack.old.items }
        requires raised { at.raised ≡ is_raised_position self.now (position_of stack.old.items) }
        ensures { IfOk result (Advances self.now (place_of at.point ∷ position_of stack.old.items) stack.new.items to) }
    {
        if !is_entry(func, to) {
            return Ok(false);
        }
        let raised = self.is_raised(at);
        push(stack, at)?;
        push(stack, Standing { point: to, raised })?;
        Ok(true)
    }

    fn leave(&self, stack: &mut Vec<Standing>, at: Standing, to: Point) -> Result<bool>
        requires item { IsItem self.now.app at.point.func at.point.item op_is.Return }
        requires told { IsToldStack self.now stack.old.items }
        ensures { IfOk result (Advances self.now (place_of at.point ∷ position_of stack.old.items) stack.new.items to) }
    {
        let Some(caller) = stack.pop() else {
            return Ok(false);
        };
        if !is_behind(caller.point, to) {
            return Ok(false);
        }
        let raised = caller.raised;
        push(stack, Standing { point: to, raised })?;
        Ok(true)
    }

    fn stay(&self, stack: &mut Vec<Standing>, at: Standing, op: Op, to: Point) -> Result<bool>
        requires item { IsItem self.now.app at.point.func at.point.item op }
        requires plain { is_plain op ≡ true }
        requires told { IsToldStack self.now stack.old.items }
        requires raised { at.raised ≡ is_raised_position self.now (position_of stack.old.items) }
        ensures { IfOk result (Advances self.now (place_of at.point ∷ position_of stack.old.items) stack.new.items to) }
    {
        if !goes_inside(self.app(), at.point, to) {
            return Ok(false);
        }
        let raised = at.raised;
        push(stack, Standing { point: to, raised })?;
        Ok(true)
    }

    // From a position behind which only the functions around it are on the stack.
    fn advance_inner(&self, stack: &mut Vec<Standing>, at: Standing, to: Point) -> Result<bool>
        requires told { IsToldStack self.now stack.old.items }
        requires raised { at.raised ≡ is_raised_position self.now (position_of stack.old.items) }
        ensures { IfOk result (Advances self.now (place_of at.point ∷ position_of stack.old.items) stack.new.items to) }
    {
        let Some(op) = point_op(self.app(), at.point) else {
            return Ok(false);
        };
        match op {
            Op::Invoke { func } => self.enter(stack, at, func.0 as usize, to),
            Op::Return => self.leave(stack, at, to),
            _ => self.stay(stack, at, op, to),
        }
    }

    /// Goes to the position with this innermost point, if a walk does; else says no, and the stack has no meaning.
    pub fn advance(&self, stack: &mut Vec<Standing>, to: Point) -> Result<bool>
        requires { IsToldStack self.now stack.old.items }
        ensures { IfOk result (Advances self.now (position_of stack.old.items) stack.new.items to) }
    {
        let Some(at) = stack.pop() else {
            return Ok(false);
        };
        self.advance_inner(stack, at, to)
    }
}
