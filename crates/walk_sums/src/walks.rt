//! Task code that is walked, as one value.
ghost use Rattle.std.specs.Prelude.{◌≡◌, ◌<◌, length, IfOk};
ghost use Rattle.sloth_base.specs.Named.{body_of, declaration};
ghost use Rattle.code_rules.specs.WellFormed.{WellFormed};
ghost use Rattle.call_graph.specs.Ranks.{RanksOf};
ghost use Rattle.osek_scheduler.specs.Apart.{static_priority};
ghost use Rattle.walk_sums.specs.WalkedCode.{IsWalked, IsKnownCode, walked_code};
ghost use Rattle.osek_blocking.specs.Sections.{IsLower};
ghost use Rattle.walk_sums.specs.Weights.{AreWeights};
ghost use Rattle.walk_sums.specs.Early.{IsToldEarly};

use crate::bodies::bodies;
use crate::{Kind, Sum, callees_first};
use bound_rules::{Body, BodyWeights};
use call_graph::Ranks;
use sloth_base::{App, Config, List, Result, TaskDecl};
use stack_bounds::body_of;
use std::alloc::Global;
use std::marker::Model;

/// The functions of task code, each behind those that it calls, and what is known of each body.
#[derive(Drop)]
pub struct KnownCode {
    pub order: List<usize>,
    pub bodies: List<Body>,
}

/// The functions of well-formed task code in such an order, and what is known of their bodies.
pub fn known_code(alloc: Global, config: &Config, app: &App, ranks: &Ranks) -> Result<KnownCode>
    requires well_formed { WellFormed config.now app.now }
    requires belong { RanksOf app.now ranks.now }
    ensures { IfOk result (IsKnownCode config.now app.now) }
{
    let order = callees_first(alloc, app, ranks)?;
    let bodies = bodies(alloc, config, app, &order)?;
    Ok(KnownCode {
        order: List::from_vec(order),
        bodies: List::from_vec(bodies),
    })
}

/// Well-formed task code, its functions in an order in which each stands behind those that it calls (`callees_first`),
/// and what is known of each body (`bodies`).
pub struct Walks<'a> {
    alloc: Global,
    config: &'a Config,
    app: &'a App,
    order: &'a [usize],
    bodies: &'a [Body],
}

// Written out: what is derived is proved anew wherever a value is let go.
impl Drop for Walks<'_> {
    fn drop(self) {
        let Walks {
            alloc: _,
            config: _,
            app: _,
            order: _,
            bodies: _,
        } = self;
    }
}

impl<'a> Model for Walks<'a> {
    ghost use Rattle.walk_sums.specs.WalkedCode.{WalkedCode, IsWalked};

    ghost Value = { WalkedCode };

    ghost view = { λ w. record { config = w.config.now; app = w.app.now; order = w.order.now; bodies = w.bodies.now } };

    ghost invariant = { λ w.
        IsWalked (record { config = w.config.now; app = w.app.now; order = w.order.now; bodies = w.bodies.now }) };
}

impl<'a> Walks<'a> {
    /// Of what is known of task code.
    pub fn of(alloc: Global, config: &'a Config, app: &'a App, known: &'a KnownCode) -> Walks<'a>
        requires { IsKnownCode config.now app.now known.now }
        ensures { result ≡ walked_code config.now app.now known.now }
    {
        Walks {
            alloc,
            config,
            app,
            order: known.order.items(),
            bodies: known.bodies.items(),
        }
    }

    /// Where memory is taken from.
    pub fn alloc(&self) -> Global {
        self.alloc
    }

    /// The configuration.
    pub fn config(&self) -> &'a Config
        ensures is { result.now ≡ self.now.config }
        ensures well_formed { WellFormed self.now.config self.now.app }
    {
        self.config
    }

    /// The task code.
    pub fn app(&self) -> &'a App
        ensures is { result.now ≡ self.now.app }
        ensures well_formed { WellFormed self.now.config self.now.app }
    {
        self.app
    }

    /// Its functions, each behind those that it calls.
    pub fn order(&self) -> &'a [usize]
        ensures is { result.now ≡ self.now.order }
        ensures walked { IsWalked self.now }
    {
        self.order
    }

    /// What is known of each body.
    pub fn bodies(&self) -> &'a [Body]
        ensures is { result.now ≡ self.now.bodies }
        ensures walked { IsWalked self.now }
    {
        self.bodies
    }

    /// How many tasks there are.
    pub fn tasks(&self) -> usize
        ensures is { result ≡ length self.now.config.tasks }
        ensures well_formed { WellFormed self.now.config self.now.app }
    {
        self.config.tasks.items().len()
    }

    /// The declaration of a task.
    pub fn task(&self, task: usize) -> &'a TaskDecl
        requires { task < length self.now.config.tasks }
        ensures is { result.now ≡ declaration self.now.config task }
        ensures well_formed { WellFormed self.now.config self.now.app }
    {
        &self.config.tasks.items()[task]
    }

    /// The static priority of a task.
    pub fn priority(&self, task: usize) -> u32
        requires { task < length self.now.config.tasks }
        ensures { result ≡ static_priority self.now.config task }
    {
        self.config.tasks.items()[task].priority
    }

    /// The number of a task's body.
    pub fn body(&self, task: usize) -> usize
        requires { task < length self.now.config.tasks }
        ensures is { result ≡ body_of self.now.app.funcs task }
        ensures known { result < length self.now.app.funcs }
        ensures well_formed { WellFormed self.now.config self.now.app }
    {
        body_of(self.app().funcs.items(), task)
    }
}

impl Walks<'_> {
    /// The greatest sum, by these weights, of the raised sections of a task for task `above`, of which it is a lower
    /// one, that begin at an item of this source line or a lesser one; `Endless` where those of all lines have none.
    pub fn early_section_sum(
        &self,
        weights: &[BodyWeights],
        above: usize,
        task: usize,
        line: u32,
    ) -> Result<Sum>
        requires weights { AreWeights self.now.app weights.now }
        requires above { above < length self.now.config.tasks }
        requires lower { IsLower self.now.config above task }
        ensures { IfOk result (IsToldEarly self.now.config self.now.app weights.now above task line) }
    {
        let kind = Kind::EarlySections(line);
        let whole = self.whole_sums(weights, kind)?;
        let own = self.own_sums(weights, kind, self.priority(above), &whole)?;
        Ok(self.told_section(&whole, &own, task))
    }
}
