//! The names of a configuration and of bodies.
ghost use Rattle.std.specs.Prelude.{◌≡◌, map, filter, IfOk};
ghost use Rattle.asm_scopes.specs.Statements.{symbol_names};
ghost use Rattle.sloth_base.specs.DeclaredNames.{task_names, event_names, alarm_names};
ghost use Rattle.asm_scopes.specs.Scopes.{scope_of};
ghost use Rattle.asm_scopes.specs.Bodies.{body_name, is_body_of, function_names, called_names, task_body_names};

use crate::{Body, Scope, symbol_names};
use asm_lines::SourceLine;
use sloth_base::{Config, Result};
use std::alloc::Global;
use text_pieces::Names;

// A name of each of these, in their order.
macro_rules! names_of {
    ($alloc:expr; $item:ident in $items:expr => $name:expr) => {{
        let mut names = Names::new($alloc);
        for $item in $items {
            names = names.with($name)?;
        }
        Ok(names)
    }};
}

fn task_names<'t>(alloc: Global, config: &'t Config) -> Result<Names<'t>>
    ensures { IfOk result (λ names. names ≡ task_names config.now) }
{
    names_of!(alloc; task in config.tasks.items() => task.name.bytes())
}

fn resource_names<'t>(alloc: Global, config: &'t Config) -> Result<Names<'t>>
    ensures { IfOk result (λ names. names ≡ config.now.resources) }
{
    names_of!(alloc; resource in config.resources.items() => resource.bytes())
}

fn event_names<'t>(alloc: Global, config: &'t Config) -> Result<Names<'t>>
    ensures { IfOk result (λ names. names ≡ event_names config.now) }
{
    names_of!(alloc; event in config.events.items() => event.name.bytes())
}

fn alarm_names<'t>(alloc: Global, config: &'t Config) -> Result<Names<'t>>
    ensures { IfOk result (λ names. names ≡ alarm_names config.now) }
{
    names_of!(alloc; alarm in config.alarms.items() => alarm.name.bytes())
}

fn function_names<'t>(alloc: Global, bodies: &[Body<'t>]) -> Result<Names<'t>>
    ensures { IfOk result (λ names. names ≡ function_names bodies.now) }
{
    names_of!(alloc; body in bodies => body.name())
}

fn names_of_bodies<'t>(alloc: Global, of_tasks: bool, bodies: &[Body<'t>]) -> Result<Names<'t>>
    ensures { IfOk result (λ names. names ≡ map body_name (filter (is_body_of of_tasks) bodies.now)) }
{
    let mut names = Names::new(alloc);
    for body in bodies {
        if is_wanted(of_tasks, body) {
            names = names.with(body.name())?;
        }
    }
    Ok(names)
}

fn is_wanted(of_task: bool, body: &Body) -> bool
    ensures { result ≡ is_body_of of_task body.now }
{
    of_task == body.is_task()
}

/// The names of the tasks that have a body.
pub fn task_body_names<'t>(alloc: Global, bodies: &[Body<'t>]) -> Result<Names<'t>>
    ensures { IfOk result (λ names. names ≡ task_body_names bodies.now) }
{
    names_of_bodies(alloc, true, bodies)
}

// Names of three kinds.
type Three<'t> = (Names<'t>, Names<'t>, Names<'t>);

// Those of the tasks, of the resources and of the events.
fn config_names<'t>(alloc: Global, config: &'t Config) -> Result<Three<'t>>
    ensures tasks { IfOk result (λ names. names.0 ≡ task_names config.now) }
    ensures resources { IfOk result (λ names. names.1 ≡ config.now.resources) }
    ensures events { IfOk result (λ names. names.2 ≡ event_names config.now) }
{
    let tasks = task_names(alloc, config)?;
    let resources = resource_names(alloc, config)?;
    let events = event_names(alloc, config)?;
    Ok((tasks, resources, events))
}

// Those of the symbols, of the functions and of the functions that may be called.
fn text_names<'t>(alloc: Global, lines: &'t [SourceLine], bodies: &[Body<'t>]) -> Result<Three<'t>>
    ensures symbols { IfOk result (λ names. names.0 ≡ symbol_names lines.now) }
    ensures functions { IfOk result (λ names. names.1 ≡ function_names bodies.now) }
    ensures called { IfOk result (λ names. names.2 ≡ called_names bodies.now) }
{
    let symbols = symbol_names(alloc, lines)?;
    let functions = function_names(alloc, bodies)?;
    let called = names_of_bodies(alloc, false, bodies)?;
    Ok((symbols, functions, called))
}

/// The names that a source with these lines and bodies may use.
pub fn scope_of<'t>(
    alloc: Global,
    config: &'t Config,
    lines: &'t [SourceLine],
    bodies: &[Body<'t>],
) -> Result<Scope<'t>>
    ensures { IfOk result (λ scope. scope ≡ scope_of config.now lines.now bodies.now) }
{
    let alarms = alarm_names(alloc, config)?;
    let (tasks, resources, events) = config_names(alloc, config)?;
    let (symbols, functions, called) = text_names(alloc, lines, bodies)?;
    let has_scheduler = config.res_scheduler;
    Ok(Scope {
        tasks,
        resources,
        events,
        alarms,
        has_scheduler,
        symbols,
        functions,
        called,
    })
}
