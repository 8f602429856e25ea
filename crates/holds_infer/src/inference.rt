//! Task code with the lists that keep every rule, if some do. Bodies whose labels have the lists of their places.
ghost use Rattle.std.specs.Prelude.{◌≡◌, IfOk, IfErr, map};
ghost use Rattle.code_rules.specs.AppRange.{AppInRange};
ghost use Rattle.call_graph.specs.Ranks.{RanksOf};
ghost use Rattle.holds_infer.specs.Filling.{IsFilling};
ghost use Rattle.holds_infer.specs.BodyFilling.{HaveTheirLabels, AreBodyFillings, IsBodyFilling};
ghost use Rattle.holds_infer.specs.InferErrors.{InferErrorIs};
ghost use Rattle.holds_infer.specs.declared.inference.InferError.TheVariants.{Memory as OutOfMemory};
ghost use Rattle.holds_infer.specs.RightLists.{HasItsLabels};
ghost use Rattle.holds_infer.specs.Spread.{AreLists, relisted_label, relisted_func};

use crate::body_ways::{Held, place_list, places};
use call_graph::Ranks;
use sloth_base::{App, Config, Func, Label, List, Name, NoMemory, Result};
use std::alloc::Global;
use task_verify::bodies::judge;
use text_pieces::push;

/// Why no lists were found.
#[derive(Drop)]
pub enum InferError {
    /// No lists keep every rule.
    NoHolds,
    Memory,
}

impl From<NoMemory> for InferError {
    ghost from_gives = { λ _ error. error ≡ OutOfMemory };

    fn from(_: NoMemory) -> InferError {
        InferError::Memory
    }
}

fn candidate(alloc: Global, app: &App) -> Result<App>
    requires { HaveTheirLabels app.now.funcs }
    ensures funcs { IfOk result (λ other. AreBodyFillings app.now.funcs other.funcs) }
    ensures symbols { IfOk result (λ other. other.symbols ≡ app.now.symbols) }
{
    let funcs = body_fillings(alloc, app.funcs.items())?;
    let symbols = app.symbols_copy(alloc)?;
    Ok(App {
        funcs: List::from_vec(funcs),
        symbols,
    })
}

/// The task code with the one choice of lists for its labels, empty for those behind the last item of a body, that
/// keeps every rule; or that there is none.
pub fn infer(alloc: Global, config: &Config, app: &App, ranks: &Ranks) -> Result<App, InferError>
    requires in_range { AppInRange config.now app.now }
    requires belong { RanksOf app.now ranks.now }
    ensures filling { IfOk result (IsFilling config.now app.now) }
    ensures none { IfErr result (InferErrorIs config.now app.now) }
{
    let other = candidate(alloc, app)?;
    let fault = judge(alloc, config, &other, ranks)?;
    match fault {
        None => Ok(other),
        Some(_) => Err(InferError::NoHolds),
    }
}

fn relisted_label(alloc: Global, lists: &[Held], label: &Label) -> Result<Label>
    ensures { IfOk result (λ made. made ≡ relisted_label lists.now label.now) }
{
    let holds = place_list(lists, label.item as usize).to_vec(alloc)?;
    Ok(Label {
        name: Name::new(alloc, label.name.bytes())?,
        holds: List::from_vec(holds),
        line: label.line,
        item: label.item,
    })
}

fn relisted_labels(alloc: Global, lists: &[Held], labels: &[Label]) -> Result<List<Label>>
    ensures { IfOk result (λ made. made ≡ map (relisted_label lists.now) labels.now) }
{
    let mut made = Vec::new(alloc);
    for label in labels {
        let label = relisted_label(alloc, lists, label)?;
        push(&mut made, label)?;
    }
    Ok(List::from_vec(made))
}

/// The body with the lists of these places at its labels.
pub fn relisted_func(alloc: Global, lists: &[Held], func: &Func) -> Result<Func>
    ensures { IfOk result (λ made. made ≡ relisted_func lists.now func.now) }
{
    Ok(Func {
        name: Name::new(alloc, func.name.bytes())?,
        items: List::from_vec(Vec::from_slice(alloc, func.items.items())?),
        labels: relisted_labels(alloc, lists, func.labels.items())?,
        line: func.line,
        task: func.task,
        frame_words: func.frame_words,
    })
}

fn reached_lists(alloc: Global, func: &Func) -> Result<Vec<Held>>
    requires { HasItsLabels func.now }
    ensures { IfOk result (λ lists. AreLists func.now lists.items) }
{
    if func.items.items().is_empty() {
        return Ok(Vec::new(alloc));
    }
    places(alloc, func)
}

fn body_filling(alloc: Global, func: &Func) -> Result<Func>
    requires { HasItsLabels func.now }
    ensures { IfOk result (IsBodyFilling func.now) }
{
    let lists = reached_lists(alloc, func)?;
    let made = relisted_func(alloc, lists.as_slice(), func)?;
    Ok(made)
}

/// All bodies, their labels with the lists of their places.
pub fn body_fillings(alloc: Global, funcs: &[Func]) -> Result<Vec<Func>>
    requires { HaveTheirLabels funcs.now }
    ensures { IfOk result (λ made. AreBodyFillings funcs.now made.items) }
{
    let mut made = Vec::new(alloc);
    for func in funcs {
        let func = body_filling(alloc, func)?;
        push(&mut made, func)?;
    }
    Ok(made)
}
