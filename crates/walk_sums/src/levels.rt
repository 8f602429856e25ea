//! The summaries of all functions at a level, by weights that may be 0. Which parts of walks are summed.
ghost use Rattle.std.specs.Prelude.{◌≡◌, ℕ, ◌<◌, None, Some, length, get_or, IfOk};
ghost use Rattle.bound_rules.specs.Summaries.{IsCountedUp, summary_of, unknown};
ghost use Rattle.walk_sums.specs.KnownBodies.{no_body};
ghost use Rattle.walk_sums.specs.Weights.{AreWeights};
ghost use Rattle.walk_sums.specs.Known.{AreSums, IsSummed, IsBefore, IsSummaryFor, caller_code};
ghost use Rattle.walk_sums.specs.Rounds.{is_wait};
ghost use Rattle.walk_sums.specs.Kinds.{stops, may_begin, is_going};

use crate::{Walks, numbered_function};
use bound_rules::{Body, BodyWeights, Summary, UNKNOWN, is_marked, is_schedule};
use osek_blocking::chains_itself;
use sloth_base::{App, Config, Func, Op, Result, Service};
use std::alloc::Global;
use std::marker::Model;
use text_pieces::push;

fn unknown(alloc: Global, count: usize) -> Result<Vec<Summary>>
    ensures count { IfOk result (λ table. length table.items ≡ count) }
    ensures none { IfOk result (λ table. (g : ℕ) → summary_of table.items g ≡ unknown) }
{
    let mut table = Vec::new(alloc);
    for _number in 0..count {
        push(&mut table, UNKNOWN)?;
    }
    Ok(table)
}

/// What is known of a body.
pub fn numbered_body(bodies: &[Body], number: usize) -> &Body
    requires { number < length bodies.now }
    ensures { result.now ≡ get_or bodies.now number no_body }
{
    &bodies[number]
}

impl Walks<'_> {
    fn function_summary(
        &self,
        weights: &[BodyWeights],
        kind: Kind,
        level: Option<u32>,
        number: usize,
        whole: &[Summary],
        own: &[Summary],
    ) -> Result<Summary>
        requires { IsBefore (caller_code self.now weights.now kind level number whole.now own.now) }
        ensures is { IfOk result (IsSummaryFor (caller_code self.now weights.now kind level number whole.now own.now)) }
        ensures small { IfOk result IsCountedUp }
    {
        let caller = Caller {
            alloc: self.alloc(),
            config: self.config(),
            app: self.app(),
            weights: &*weights,
            kind,
            number,
            func: numbered_function(self.app(), number),
            body: numbered_body(self.bodies(), number),
            level,
            whole: &*whole,
            own: &*own,
        };
        caller.summary()
    }

    /// The summaries of all functions where their callers have raised the task.
    pub fn whole_sums(&self, weights: &[BodyWeights], kind: Kind) -> Result<Vec<Summary>>
        requires weights { AreWeights self.now.app weights.now }
        requires summed { IsSummed weights.now kind None }
        ensures { IfOk result (λ whole. AreSums self.now.config self.now.app weights.now kind None whole.items) }
    {
        let mut whole = unknown(self.alloc(), self.app().funcs.items().len())?;
        for number in self.order() {
            let summary = self.function_summary(&*weights, kind, None, *number, &whole, &whole)?;
            whole[*number] = summary;
        }
        Ok(whole)
    }

    /// The summaries of all functions, of raised sections or of those that begin early, where they raise the task to a
    /// priority by what they hold themselves.
    pub fn own_sums(
        &self,
        weights: &[BodyWeights],
        kind: Kind,
        priority: u32,
        whole: &[Summary],
    ) -> Result<Vec<Summary>>
        requires weights { AreWeights self.now.app weights.now }
        requires summed { IsSummed weights.now kind (Some priority) }
        requires whole { AreSums self.now.config self.now.app weights.now kind None whole.now }
        ensures { IfOk result (λ own.
            AreSums self.now.config self.now.app weights.now kind (Some priority) own.items) }
    {
        let level = Some(priority);
        let mut own = unknown(self.alloc(), self.app().funcs.items().len())?;
        for number in self.order() {
            let summary = self.function_summary(&*weights, kind, level, *number, &*whole, &own)?;
            own[*number] = summary;
        }
        Ok(own)
    }
}

/// A function, the weights and the kind of the parts that are summed, its body at a level, and the summaries of the
/// functions that it calls: where the task is raised as they are called, and where not.
#[derive(Drop)]
pub struct Caller<'a> {
    pub alloc: Global,
    pub config: &'a Config,
    pub app: &'a App,
    pub weights: &'a [BodyWeights],
    pub kind: Kind,
    pub number: usize,
    pub func: &'a Func,
    pub body: &'a Body,
    pub level: Option<u32>,
    pub whole: &'a [Summary],
    pub own: &'a [Summary],
}

impl<'a> Model for Caller<'a> {
    ghost use Rattle.walk_sums.specs.Computed.{known_body_of};
    ghost use Rattle.walk_sums.specs.Known.{CallerCode, IsBefore};

    ghost Value = { CallerCode };

    ghost view = { λ c. record {
      config = c.config.now;
      app = c.app.now;
      weights = c.weights.now;
      kind = c.kind;
      number = c.number;
      known = known_body_of c.func.now c.body.now c.level c.whole.now c.own.now;
    } };

    ghost invariant = { λ c. IsBefore (record {
      config = c.config.now;
      app = c.app.now;
      weights = c.weights.now;
      kind = c.kind;
      number = c.number;
      known = known_body_of c.func.now c.body.now c.level c.whole.now c.own.now;
    }) };
}

/// Which parts of walks: behind which operations none goes on, and where they begin besides the first item of a body.
#[derive(Clone, Copy)]
pub enum Kind {
    /// Of turns: they begin with the first item, and go on behind each operation.
    Turns,
    /// Of rounds: no part goes on behind a WaitEvent; they begin behind one, too.
    Rounds,
    /// Of raised sections: no part goes on behind a Schedule; they begin anywhere.
    Sections,
    /// Of raised sections that begin at an item of this source line or a lesser one.
    EarlySections(u32),
    /// Between two WaitEvents, as long as none of these events is cleared.
    Uncleared(u32),
}

/// Whether an operation is a WaitEvent.
pub fn is_wait(op: Op) -> bool
    ensures { result ≡ is_wait op }
{
    match op {
        Op::Serve(call) => call.service.code() == Service::WaitEvent.code(),
        _ => false,
    }
}

fn stops(kind: Kind, op: Op) -> bool
    ensures { result ≡ stops kind op }
{
    match kind {
        Kind::Turns => false,
        Kind::Rounds => is_wait(op),
        Kind::Sections | Kind::EarlySections(_) => is_schedule(op),
        Kind::Uncleared(events) => match op {
            Op::Serve(call) => {
                call.service.code() == Service::WaitEvent.code()
                    || (call.service.code() == Service::ClearEvent.code()
                        && call.mask & events != 0)
            }
            _ => false,
        },
    }
}

/// Whether a part may begin at an item that walks reach.
pub fn may_begin(kind: Kind, func: &Func, reached: &[bool], number: usize) -> bool
    requires { number < length func.now.items }
    ensures { result ≡ may_begin kind func.now reached.now number }
{
    let items = func.items.items();
    match kind {
        Kind::Turns => false,
        Kind::Rounds | Kind::Uncleared(_) => {
            0 < number && (is_marked(reached, number - 1) && is_wait(items[number - 1].op))
        }
        Kind::Sections => true,
        Kind::EarlySections(line) => items[number].line <= line,
    }
}

/// Whether parts go on behind an item.
pub fn is_going(func: &Func, kind: Kind, alive: &[bool], number: usize) -> bool
    requires { number < length func.now.items }
    ensures { result ≡ is_going func.now kind alive.now number }
{
    let items = func.items.items();
    is_marked(alive, number)
        && (!stops(kind, items[number].op) && !chains_itself(func, items[number].op))
}
