//! The lines of one task's response, from the texts. What is told.
ghost use Rattle.std.specs.Prelude.{◌≡◌, ◌<◌, true, false, length, IfOk, IfErr};
ghost use Rattle.sloth_base.specs.ConfigRange.{InRange};
ghost use Rattle.sloth_base.specs.Order.{ErrorIs};
ghost use Rattle.call_graph.specs.Ranks.{RanksOf};
ghost use Rattle.load_text.specs.LoadText.{LoadFault};
ghost use Rattle.sloth_base.specs.DeclaredNames.{task_names, counter_names};
ghost use Rattle.run_windows.specs.Settling.{TakeCounts};
ghost use Rattle.run_windows.specs.Longest.{IsLongest};
ghost use Rattle.run_costs.specs.RunRecord.{IsRunRecord};
ghost use Rattle.walk_sums.specs.Weights.{AreWeights};
ghost use Rattle.response_text.specs.Inputs.{InputsErrorIs};
ghost use Rattle.sloth_source.specs.TaskNames.{task_named};
ghost use Rattle.response_text.specs.PartNames.{AreOwnSections};
ghost use Rattle.response_text.specs.TaskText.{same_number, shows_behind, AreBothParts, task_lines, HasParts};
ghost use Rattle.response_text.specs.TaskText.{HasPartsOf, HasLoadParts, IsTaskText};

use crate::lines::{is_open, push_line};
use crate::part_lines::PartNames;
use crate::part_names::part_names;
use crate::parts::{has_parts, part_text};
use crate::text::{load_of, reason, response_of};
use call_graph::Ranks;
use load_text::{Entry, deadline_of};
use response_reasons::Reason;
use run_costs::run_costs;
use run_windows::costs::number_of;
use run_windows::level::comes;
use run_windows::{Longest, RunCosts, longest_window};
use sloth_base::{App, BuildError, Config, List, Result};
use sloth_source::{read_checked, task_named};
use std::alloc::Global;
use task_verify::Verified;
use walk_sums::{Walks, known_code};

fn same_number(one: Option<u32>, other: Option<u32>) -> bool
    ensures { result ≡ same_number one other }
{
    match one {
        Some(counts) => match other {
            Some(more) => counts == more,
            None => false,
        },
        None => other.is_none(),
    }
}

// Whether the parts behind boot are shown.
fn shows_behind(anywhere: Option<Longest>, behind: Option<Longest>) -> bool
    ensures { result ≡ shows_behind anywhere behind }
{
    has_parts(behind) && !same_number(number_of(anywhere), number_of(behind))
}

// The parts of both windows.
fn both_parts(
    walks: &Walks,
    found: &RunCosts,
    names: &PartNames,
    task: usize,
    anywhere: Option<Longest>,
    behind: Option<Longest>,
) -> Result<Vec<u8>>
    requires take { TakeCounts found.now.costs }
    requires anywhere { IsLongest found.now.longest found.now.late found.now.costs task true anywhere }
    requires behind { IsLongest found.now.longest found.now.late found.now.costs task false behind }
    requires sections { AreOwnSections walks.now.config walks.now.app names.now.weights found.now.costs }
    requires fit { AreWeights walks.now.app names.now.weights }
    requires there { task < length walks.now.config.tasks }
    requires count { length found.now.costs.tasks ≡ length walks.now.config.tasks }
    ensures { IfOk result (λ text. AreBothParts walks.now.config walks.now.app found.now names.now task anywhere
        behind text.items) }
{
    let mut text = part_text(walks, found, names, task, has_parts(anywhere), anywhere)?;
    let shown = shows_behind(anywhere, behind);
    let further = part_text(walks, found, names, task, shown, behind)?;
    text.extend_from_slice(&further)?;
    Ok(text)
}

// The line of a task, and the parts.
fn task_lines(
    alloc: Global,
    config: &Config,
    app: &App,
    load: &[Entry],
    task: u32,
    told: (Response, Option<Reason>),
    parts: &[u8],
) -> Result<Told>
    requires in_range { InRange config.now }
    requires there { task < length config.now.tasks }
    ensures { IfOk result (λ lines. lines ≡ task_lines config.now app.now load.now task told.0 told.1 parts.now) }
{
    let mut text = Vec::new(alloc);
    push_line(&mut text, config, app, load, task, told)?;
    text.extend_from_slice(parts)?;
    Ok(Told {
        text: List::from_vec(text),
        is_open: is_open(told.0, deadline_of(load, task as u8)),
    })
}

// Those of what is computed from costs.
fn told_by(walks: &Walks, load: &[Entry], found: &RunCosts, task: u32) -> Result<Told>
    requires there { task < length walks.now.config.tasks }
    requires costs { IsRunRecord walks.now.config walks.now.app load.now found.now }
    ensures { IfOk result (λ told. HasParts walks.now.config walks.now.app load.now task told) }
{
    let alloc = walks.alloc();
    let config = walks.config();
    let app = walks.app();
    let number = task as usize;
    let anywhere = longest_window(alloc, found, number, true)?;
    let behind = longest_window(alloc, found, number, false)?;
    let names = part_names(walks, load, found)?;
    let parts = both_parts(walks, found, &names, number, anywhere, behind)?;
    let is_made = comes(&found.costs, number);
    let response = response_of(is_made, anywhere, behind);
    let clean = walks.clean_tasks()?;
    let why = reason(walks, &clean, &found.costs, number, response)?;
    task_lines(alloc, config, app, load, task, (response, why), &parts)
}

// Those of task code that keeps all rules.
fn checked_text(
    alloc: Global,
    verified: &Verified,
    ranks: &Ranks,
    load: &[Entry],
    task: u32,
) -> Result<Told>
    requires belong { RanksOf verified.now.app ranks.now }
    requires there { task < length verified.now.config.tasks }
    ensures { IfOk result (λ told. HasParts verified.now.config verified.now.app load.now task told) }
{
    let config = verified.config();
    let app = verified.app();
    let found = run_costs(alloc, config, app, ranks, load)?;
    let known = known_code(alloc, config, app, ranks)?;
    let walks = Walks::of(alloc, config, app, &known);
    told_by(&walks, load, &found, task)
}

// Those of the task of a name, if there is one.
fn named_text(
    alloc: Global,
    verified: &Verified,
    ranks: &Ranks,
    load: &[Entry],
    name: &[u8],
) -> Result<Option<Told>>
    requires belong { RanksOf verified.now.app ranks.now }
    ensures { IfOk result (λ told. HasPartsOf verified.now.config verified.now.app load.now
        (task_named verified.now.config name.now) told) }
{
    match task_named(verified.config(), name) {
        Some(task) => Ok(Some(checked_text(alloc, verified, ranks, load, task as u32)?)),
        None => Ok(None),
    }
}

// The same, where the error is that of texts.
fn text_of(
    alloc: Global,
    verified: &Verified,
    ranks: &Ranks,
    load: &[Entry],
    name: &[u8],
) -> Result<Option<Told>, BuildError>
    requires { RanksOf verified.now.app ranks.now }
    ensures told { IfOk result (λ told. HasPartsOf verified.now.config verified.now.app load.now
        (task_named verified.now.config name.now) told) }
    ensures memory { IfErr result (λ error. error ≡ BuildError.Memory) }
{
    Ok(named_text(alloc, verified, ranks, load, name)?)
}

// The same for the text of a load.
fn text_for(
    alloc: Global,
    verified: &Verified,
    ranks: &Ranks,
    text: &[u8],
    name: &[u8],
) -> Result<Option<Told>, BuildError>
    requires belong { RanksOf verified.now.app ranks.now }
    requires short { length text.now < 4294967295 }
    ensures told { IfOk result (λ told. HasLoadParts verified.now.config verified.now.app text.now name.now told) }
    ensures refused { IfErr result (λ error. ErrorIs (LoadFault (task_names verified.now.config)
        (counter_names verified.now.config) text.now) error) }
{
    let load = load_of(alloc, verified.config(), text)?;
    text_of(alloc, verified, ranks, &load, name)
}

/// The response line of a named task under a load, its parts, whether its deadline is open; nothing without the task;
/// or the first refusal (O1 to O15, A1 to A7, V1 to V12, then L1 to L4). Texts: at most 4,294,967,294 bytes.
pub fn response_parts(
    alloc: Global,
    oil: &[u8],
    src: &[u8],
    load: &[u8],
    name: &[u8],
) -> Result<Option<Told>, BuildError>
    requires oil { length oil.now < 4294967295 }
    requires src { length src.now < 4294967295 }
    requires load { length load.now < 4294967295 }
    ensures told { IfOk result (λ told. IsTaskText oil.now src.now load.now name.now told) }
    ensures refused { IfErr result (InputsErrorIs oil.now src.now load.now) }
{
    let checked = read_checked(alloc, oil, src)?;
    text_for(alloc, &checked.verified, &checked.ranks, load, name)
}

/// The lines, and whether a deadline among them is open.
#[derive(Drop)]
pub struct Told {
    pub text: List<u8>,
    pub is_open: bool,
}

/// Within how many counts of what makes it Ready a task leaves: 0 where nothing does, none where there is no number.
#[derive(Clone, Copy)]
pub struct Response {
    /// Something may make it Ready.
    pub comes: bool,
    pub anywhere: Option<u32>,
    /// The same, where what makes it is behind boot.
    pub behind: Option<u32>,
}
