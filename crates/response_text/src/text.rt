//! The lines of responses, from the texts. The load of a text. The reasons of tasks that have no number.
ghost use Rattle.std.specs.Prelude.{◌≡◌, ◌<◌, length, IfOk, IfErr, ℕ, false, get_or, Decides};
ghost use Rattle.sloth_base.specs.ConfigRange.{InRange};
ghost use Rattle.sloth_base.specs.DeclaredNames.{task_names, counter_names};
ghost use Rattle.sloth_base.specs.Owners.{owners_in};
ghost use Rattle.sloth_base.specs.Order.{ErrorIs};
ghost use Rattle.call_graph.specs.Ranks.{RanksOf};
ghost use Rattle.load_text.specs.LoadText.{LoadFault};
ghost use Rattle.load_text.specs.Loads.{IsLoad};
ghost use Rattle.run_windows.specs.Settling.{TakeCounts};
ghost use Rattle.response_text.specs.Inputs.{InputsErrorIs, IsLoadOf};
ghost use Rattle.run_costs.specs.RunRecord.{IsRunRecord};
ghost use Rattle.response_text.specs.TaskText.{response_of};
ghost use Rattle.response_text.specs.ResponseText.{IsTaskResponse, AreResponses, told_of, HasResponses};
ghost use Rattle.response_text.specs.ResponseText.{HasLoadResponses, IsResponseText};
ghost use Rattle.trace_text.specs.ArrivalsText.{owners_read};
ghost use Rattle.walk_sums.specs.Rounds.{IsClean};
ghost use Rattle.response_text.specs.Reasons.{is_numberless, IsReason, AreReasons};

use crate::Told;
use crate::lines::{has_open, push_counter_rows, push_demand, response_at, response_lines};
use crate::task_text::Response;
use call_graph::Ranks;
use load_text::{Entry, read_load};
use response_reasons::{Reason, reason_if};
use run_costs::run_costs;
use run_responses::tick_number;
use run_windows::costs::number_of;
use run_windows::level::comes;
use run_windows::{Costs, Longest, RunCosts, demand, longest_window};
use sloth_base::{App, BuildError, Config, List, Result, counter_names, task_names};
use sloth_source::read_checked;
use std::alloc::Global;
use task_verify::Verified;
use text_pieces::push;
use walk_sums::{Walks, known_code};

/// The response that these windows tell.
pub fn response_of(comes: bool, anywhere: Option<Longest>, behind: Option<Longest>) -> Response
    ensures { result ≡ response_of comes anywhere behind }
{
    Response {
        comes,
        anywhere: number_of(anywhere),
        behind: number_of(behind),
    }
}

// The response of a task.
fn response(alloc: Global, run: &RunCosts, task: usize) -> Result<Response>
    requires take { TakeCounts run.now.costs }
    requires there { task < length run.now.costs.tasks }
    ensures { IfOk result (IsTaskResponse run.now.longest run.now.late run.now.costs task) }
{
    let anywhere = longest_window(alloc, run, task, true)?;
    let behind = longest_window(alloc, run, task, false)?;
    let is_made = comes(&run.costs, task);
    Ok(response_of(is_made, anywhere, behind))
}

/// Those of all tasks, by costs that runs keep.
pub fn responses(alloc: Global, run: &RunCosts) -> Result<Vec<Response>>
    requires { TakeCounts run.now.costs }
    ensures { IfOk result (λ responses. AreResponses run.now.longest run.now.late run.now.costs
        (length run.now.costs.tasks) responses.items) }
{
    let mut responses = Vec::new(alloc);
    for task in 0..run.costs.tasks.items().len() {
        let response = response(alloc, run, task)?;
        push(&mut responses, response)?;
    }
    Ok(responses)
}

// The lines of responses, ticks and a demand.
fn told_of(
    alloc: Global,
    config: &Config,
    app: &App,
    load: &[Entry],
    responses: &[Response],
    reasons: &[Option<Reason>],
    numbers: (Option<u32>, Option<u32>),
) -> Result<Told>
    requires in_range { InRange config.now }
    ensures { IfOk result
        (λ told. told ≡ told_of config.now app.now load.now responses.now reasons.now numbers.0 numbers.1) }
{
    let (tick, demand) = numbers;
    let mut text = response_lines(alloc, config, app, load, responses, reasons)?;
    push_counter_rows(&mut text, config, load, tick)?;
    push_demand(&mut text, demand)?;
    Ok(Told {
        text: List::from_vec(text),
        is_open: has_open(load, responses, config.tasks.items().len() as u32),
    })
}

// Those of what is computed from costs.
fn told_by(walks: &Walks, load: &[Entry], found: &RunCosts) -> Result<Told>
    requires in_load { IsLoad (owners_in walks.now.config) load.now }
    requires costs { IsRunRecord walks.now.config walks.now.app load.now found.now }
    ensures { IfOk result (λ told. HasResponses walks.now.config walks.now.app load.now told) }
{
    let alloc = walks.alloc();
    let config = walks.config();
    let app = walks.app();
    let responses = responses(alloc, found)?;
    let reasons = reasons(walks, &found.costs, &responses)?;
    let tick = tick_number(alloc, found)?;
    let demand = demand(alloc, &found.costs)?;
    let numbers = (tick, demand);
    told_of(alloc, config, app, load, &responses, &reasons, numbers)
}

// Those of task code that keeps all rules.
fn checked_text(alloc: Global, verified: &Verified, ranks: &Ranks, load: &[Entry]) -> Result<Told>
    requires belong { RanksOf verified.now.app ranks.now }
    requires in_load { IsLoad (owners_in verified.now.config) load.now }
    ensures { IfOk result (λ told. HasResponses verified.now.config verified.now.app load.now told) }
{
    let config = verified.config();
    let app = verified.app();
    let found = run_costs(alloc, config, app, ranks, load)?;
    let known = known_code(alloc, config, app, ranks)?;
    let walks = Walks::of(alloc, config, app, &known);
    told_by(&walks, load, &found)
}

// The same, where the error is that of texts.
fn text_of(
    alloc: Global,
    verified: &Verified,
    ranks: &Ranks,
    load: &[Entry],
) -> Result<Told, BuildError>
    requires belong { RanksOf verified.now.app ranks.now }
    requires in_load { IsLoad (owners_in verified.now.config) load.now }
    ensures told { IfOk result (λ told. HasResponses verified.now.config verified.now.app load.now told) }
    ensures memory { IfErr result (λ error. error ≡ BuildError.Memory) }
{
    Ok(checked_text(alloc, verified, ranks, load)?)
}

// The same for the text of a load.
fn text_for(
    alloc: Global,
    verified: &Verified,
    ranks: &Ranks,
    text: &[u8],
) -> Result<Told, BuildError>
    requires belong { RanksOf verified.now.app ranks.now }
    requires short { length text.now < 4294967295 }
    ensures told { IfOk result (λ told. HasLoadResponses verified.now.config verified.now.app text.now told) }
    ensures refused { IfErr result
        (λ error. ErrorIs (LoadFault (task_names verified.now.config) (counter_names verified.now.config) text.now)
        error) }
{
    let load = load_of(alloc, verified.config(), text)?;
    text_of(alloc, verified, ranks, &load)
}

/// The lines of the responses of all tasks in runs that keep a load, and of its demand, and whether a deadline is open,
/// of texts of at most 4,294,967,294 bytes; or the first refusal (O1 to O15, A1 to A7, V1 to V12, then L1 to L4). Each
/// number is the least that its windows allow, and `none` stands exactly where there is none.
pub fn response_text(alloc: Global, oil: &[u8], src: &[u8], load: &[u8]) -> Result<Told, BuildError>
    requires oil { length oil.now < 4294967295 }
    requires src { length src.now < 4294967295 }
    requires load { length load.now < 4294967295 }
    ensures told { IfOk result (λ told. IsResponseText oil.now src.now load.now told) }
    ensures refused { IfErr result (InputsErrorIs oil.now src.now load.now) }
{
    let checked = read_checked(alloc, oil, src)?;
    text_for(alloc, &checked.verified, &checked.ranks, load)
}

/// The load that a text of at most 4,294,967,294 bytes is for a configuration, or its least fault (L1 to L4).
pub fn load_of(alloc: Global, config: &Config, text: &[u8]) -> Result<Vec<Entry>, BuildError>
    requires { length text.now < 4294967295 }
    ensures load { IfOk result (λ load. IsLoadOf config.now text.now load.items) }
    ensures in_range { IfOk result
        (λ load. IsLoad (owners_read (task_names config.now) (counter_names config.now)) load.items) }
    ensures refused { IfErr result
        (λ error. ErrorIs (LoadFault (task_names config.now) (counter_names config.now) text.now) error) }
{
    let tasks = task_names(alloc, config)?;
    let counters = counter_names(alloc, config)?;
    read_load(alloc, text, tasks.items(), counters.items())
}

fn is_numberless(response: Response) -> bool
    ensures { result ≡ is_numberless response }
{
    match response.anywhere {
        Some(_) => false,
        None => response.comes,
    }
}

/// Why a task has no number, where it has none.
pub fn reason(
    walks: &Walks,
    clean: &[bool],
    costs: &Costs,
    h: usize,
    response: Response,
) -> Result<Option<Reason>>
    requires count { length costs.now.tasks ≡ length walks.now.config.tasks }
    requires small { length walks.now.config.tasks < 4294967296 }
    requires above { h < length walks.now.config.tasks }
    requires clean { (t : ℕ) → t < length walks.now.config.tasks
        → Decides (get_or clean.now t false) (IsClean walks.now.app t) }
    ensures { IfOk result (IsReason walks.now.config walks.now.app costs.now h response) }
{
    reason_if(walks, clean, costs, h, is_numberless(response))
}

/// The reasons of all tasks.
pub fn reasons(walks: &Walks, costs: &Costs, responses: &[Response]) -> Result<Vec<Option<Reason>>>
    requires count { length costs.now.tasks ≡ length walks.now.config.tasks }
    requires small { length walks.now.config.tasks < 4294967296 }
    ensures { IfOk result
        (λ reasons. AreReasons walks.now.config walks.now.app costs.now responses.now
        (length walks.now.config.tasks) reasons.items) }
{
    let clean = walks.clean_tasks()?;
    let mut reasons = Vec::new(walks.alloc());
    for task in 0..walks.tasks() {
        let response = response_at(responses, task as u32);
        let reason = reason(walks, &clean, costs, task, response)?;
        push(&mut reasons, reason)?;
    }
    Ok(reasons)
}
