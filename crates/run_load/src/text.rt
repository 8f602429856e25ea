//! What is told of a run beside its load, from the texts.
ghost use Rattle.std.specs.Prelude.{◌<◌, ◌≤◌, length, IfOk, IfErr};
ghost use Rattle.sloth_base.specs.Arrivals.{AreArrivals};
ghost use Rattle.sloth_base.specs.Limits.{count_limit};
ghost use Rattle.sloth_base.specs.Owners.{owners_in};
ghost use Rattle.code_rules.specs.WellFormed.{WellFormed};
ghost use Rattle.call_graph.specs.Ranks.{RanksOf};
ghost use Rattle.load_text.specs.Loads.{IsLoad};
ghost use Rattle.run_costs.specs.RunRecord.{IsRunRecord};
ghost use Rattle.sloth_build.specs.Gathered.{MayBuild};
ghost use Rattle.symbol_build.specs.SymbolFiles.{IsBuilt};
ghost use Rattle.sloth_base.specs.declared.image.Image.{Image as AnyImage};
ghost use Rattle.run_load.specs.RunText.{HasToldRun, IsRunText, RunErrorIs};

use crate::lines::{LoadRun, ToldRun, told_run};
use call_graph::{Ranks, ranks};
use load_text::Entry;
use response_text::responses;
use response_text::text::load_of;
use run_costs::run_costs;
use run_inputs::config_arrivals;
use run_responses::tick_number;
use run_windows::RunCosts;
use sloth_base::{App, Arrival, BuildError, Config, Image, NoMemory, Result};
use sloth_build::gathering::image;
use sloth_runner::run_events;
use sloth_source::{Source, read};
use std::alloc::Global;

// The ranks of functions, in which there is no cycle, so that only memory can be wanting.
fn known_ranks(alloc: Global, config: &Config, app: &App) -> Result<Ranks>
    requires { WellFormed config.now app.now }
    ensures { IfOk result (RanksOf app.now) }
{
    match ranks(alloc, app) {
        Ok(ranks) => Ok(ranks),
        Err(_) => Err(NoMemory),
    }
}

fn costs(alloc: Global, config: &Config, app: &App, load: &[Entry]) -> Result<RunCosts>
    requires { WellFormed config.now app.now }
    ensures { IfOk result (IsRunRecord config.now app.now load.now) }
{
    let ranks = known_ranks(alloc, config, app)?;
    run_costs(alloc, config, app, &ranks, load)
}

// What is told of n instructions of an image.
fn told_image(
    alloc: Global,
    source: &Source,
    load: &[Entry],
    arr: &[u8],
    arrivals: &[Arrival],
    image: &Image,
    n: u32,
) -> Result<ToldRun>
    requires well_formed { WellFormed source.now.config source.now.app }
    requires in_load { IsLoad (owners_in source.now.config) load.now }
    requires arrivals { AreArrivals (owners_in source.now.config) arrivals.now }
    requires few { n ≤ count_limit }
    requires built { IsBuilt source.now.config source.now.app image.now }
    ensures { IfOk result
        (λ told. HasToldRun source.now.config source.now.app load.now arr.now arrivals.now image.now n told) }
{
    let found = costs(alloc, &source.config, &source.app, load)?;
    let responses = responses(alloc, &found)?;
    let tick = tick_number(alloc, &found)?;
    let events = run_events(alloc, image, arrivals, n)?;
    let run = LoadRun {
        config: &source.config,
        app: &source.app,
        load,
        costs: &found.costs,
        events: &events,
    };
    told_run(alloc, &run, arr, arrivals, &responses, tick)
}

// The same of an image that is built.
fn told_built(
    alloc: Global,
    source: &Source,
    load: &[Entry],
    arr: &[u8],
    arrivals: &[Arrival],
    n: u32,
) -> Result<ToldRun>
    requires may { MayBuild source.now.config source.now.app source.now.bounds }
    requires in_load { IsLoad (owners_in source.now.config) load.now }
    requires arrivals { AreArrivals (owners_in source.now.config) arrivals.now }
    requires few { n ≤ count_limit }
    ensures { IfOk result (λ told. (built : AnyImage) × IsBuilt source.now.config source.now.app built
        × HasToldRun source.now.config source.now.app load.now arr.now arrivals.now built n told) }
{
    let built = image(alloc, &source.config, &source.app, &source.bounds)?;
    told_image(alloc, source, load, arr, arrivals, &built, n)
}

/// What a run of n instructions, at most `COUNT_LIMIT`, shows: the first arrival too soon for the load, the first round
/// above its work, and the longest responses and ticks beside those that every run within the load keeps; or the first
/// refusal (O1 to O15, A1 to A7, V1 to V12, then L1 to L4, then T1 to T4). Texts have at most 4,294,967,294 bytes.
pub fn run_text(
    alloc: Global,
    oil: &[u8],
    src: &[u8],
    load: &[u8],
    arr: &[u8],
    n: u32,
) -> Result<ToldRun, BuildError>
    requires oil { length oil.now < 4294967295 }
    requires src { length src.now < 4294967295 }
    requires load { length load.now < 4294967295 }
    requires arr { length arr.now < 4294967295 }
    requires few { n ≤ count_limit }
    ensures told { IfOk result (λ told. IsRunText oil.now src.now load.now arr.now n told) }
    ensures refused { IfErr result (RunErrorIs oil.now src.now load.now arr.now) }
{
    let source = read(alloc, oil, src)?;
    let entries = load_of(alloc, &source.config, load)?;
    let arrivals = config_arrivals(alloc, &source.config, arr)?;
    Ok(told_built(alloc, &source, &entries, arr, &arrivals, n)?)
}
