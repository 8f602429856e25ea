//! What the parts of response times are, by the task code.
ghost use Rattle.std.specs.Prelude.{◌≡◌, ◌<◌, [], length, get_or, IfOk};
ghost use Rattle.sloth_base.specs.ConfigRange.{InRange};
ghost use Rattle.code_rules.specs.WellFormed.{WellFormed};
ghost use Rattle.load_text.specs.Loads.{work};
ghost use Rattle.walk_sums.specs.Weights.{AreWeights};
ghost use Rattle.run_costs.specs.Tables.{no_sums};
ghost use Rattle.run_windows.specs.RunWindows.{IsLeastOf};
ghost use Rattle.response_reasons.specs.Calls.{StartsInside};
ghost use Rattle.response_text.specs.PartNames.{IsEntry, IsTick, HasNumberAt, HasNumber, HasHeavyItem, HasLongItem};
ghost use Rattle.response_text.specs.PartNames.{IsStretchName, line_name, is_bounded, bounded_by, AreBounded};
ghost use Rattle.response_text.specs.PartNames.{ArePartNames, AreOwnSections, IsSectionName, IsBegunName};
ghost use Rattle.response_text.specs.PartNames.{AreFrontNames};

use crate::part_lines::{Bounded, FrontNames, Name, PartNames};
use bound_rules::{BodyWeights, number_at, weights_at};
use bounds_text::latency::enter_counts;
use code_lengths::{boot_path, tick_path};
use load_text::{Entry, work_of};
use response_reasons::{greatest_section_line, service_line};
use run_costs::round_sums;
use run_counts::weights_by;
use run_windows::level::{lesser, section, section_counts};
use run_windows::{Costs, RunCosts, Start};
use sim_induction::{ItemLengths, lengths};
use sloth_base::{App, Config, Func, List, Result};
use text_pieces::push;
use walk_sums::{RoundSums, Sum, Walks, numbered_function};

// ---- the longest stretch

fn first_entry(config: &Config, app: &App, late: u32) -> Option<usize>
    requires { WellFormed config.now app.now }
    ensures { IsLeastOf (IsEntry config.now app.now late) result }
{
    for task in 0..config.tasks.items().len() {
        if enter_counts(config, app, task) == late {
            return Some(task);
        }
    }
    None
}

fn first_tick(config: &Config, late: u32) -> Option<usize>
    requires { InRange config.now }
    ensures { IsLeastOf (IsTick config.now late) result }
{
    for counter in 0..config.counters.items().len() {
        if tick_path(config, counter as u32) == late {
            return Some(counter);
        }
    }
    None
}

// The line of an item, if it has this number.
fn numbered_line(func: &Func, numbers: &[u32], wanted: u32, item: usize) -> Option<u32>
    requires { item < length func.now.items }
    ensures { IsLeastOf (HasNumberAt func.now numbers.now wanted item) result }
{
    if number_at(numbers, item) == wanted {
        Some(func.items.items()[item].line)
    } else {
        None
    }
}

// The least line of an item of a body that has it.
fn body_line(func: &Func, numbers: &[u32], wanted: u32) -> Option<u32>
    ensures { IsLeastOf (HasNumber func.now numbers.now wanted) result }
{
    let mut least = None;
    for item in 0..func.items.items().len() {
        least = lesser(least, numbered_line(func, numbers, wanted, item));
    }
    least
}

// That of an item that takes so many counts where its task leaves.
fn heavy_line(app: &App, weights: &[BodyWeights], late: u32) -> Option<u32>
    requires { AreWeights app.now weights.now }
    ensures { IsLeastOf (HasHeavyItem app.now weights.now late) result }
{
    let mut least = None;
    for number in 0..app.funcs.items().len() {
        let own = weights_at(weights, number);
        let line = body_line(numbered_function(app, number), own.ending.items(), late);
        least = lesser(least, line);
    }
    least
}

fn line_name(line: Option<u32>) -> Name
    ensures { result ≡ line_name line }
{
    match line {
        Some(line) => Name::Line(line),
        None => Name::Nothing,
    }
}

fn stretch_name(config: &Config, app: &App, weights: &[BodyWeights], late: u32) -> Name
    requires well_formed { WellFormed config.now app.now }
    requires fit { AreWeights app.now weights.now }
    ensures { IsStretchName config.now app.now weights.now late result }
{
    if boot_path(config) == late {
        return Name::Boot;
    }
    if let Some(task) = first_entry(config, app, late) {
        return Name::Entry(task);
    }
    if let Some(counter) = first_tick(config, late) {
        return Name::Tick(counter);
    }
    line_name(heavy_line(app, weights, late))
}

// ---- the longest item

fn lengths_at(lengths: &ItemLengths, number: usize) -> &[u32]
    ensures { result.now ≡ get_or lengths.now.bodies number [] }
{
    match lengths.bodies.items().get(number) {
        Some(body) => body.items(),
        None => &[],
    }
}

fn long_line(app: &App, lengths: &ItemLengths, longest: u32) -> Option<u32>
    ensures { IsLeastOf (HasLongItem app.now lengths.now.bodies longest) result }
{
    let mut least = None;
    for number in 0..app.funcs.items().len() {
        let own = lengths_at(lengths, number);
        let line = body_line(numbered_function(app, number), own, longest);
        least = lesser(least, line);
    }
    least
}

// ---- rounds

fn is_bounded(work: Option<u32>, sum: Sum) -> bool
    ensures { result ≡ is_bounded work sum }
{
    match work {
        Some(own) => match sum {
            Sum::Counts(counts) => own < counts,
            Sum::Huge | Sum::Endless => true,
        },
        None => false,
    }
}

fn bounded_by(work: Option<u32>, sums: RoundSums) -> Bounded
    ensures { result ≡ bounded_by work sums }
{
    Bounded {
        first: is_bounded(work, sums.first),
        next: is_bounded(work, sums.later),
    }
}

fn bounded_task(load: &[Entry], sums: &[RoundSums], task: usize) -> Bounded
    requires inside { task < length sums.now }
    requires few { task < 256 }
    ensures { result ≡ bounded_by (work load.now task) (get_or sums.now task no_sums) }
{
    bounded_by(work_of(load, task as u8), sums[task])
}

fn bounded(walks: &Walks, load: &[Entry], weights: &[BodyWeights]) -> Result<Vec<Bounded>>
    requires { AreWeights walks.now.app weights.now }
    ensures { IfOk result (λ all. AreBounded walks.now.config walks.now.app load.now weights.now all.items) }
{
    let clean = walks.clean_tasks()?;
    let sums = round_sums(walks, weights, &clean)?;
    let mut all = Vec::new(walks.alloc());
    for task in 0..walks.tasks() {
        let own = bounded_task(load, &sums, task);
        push(&mut all, own)?;
    }
    Ok(all)
}

/// What the parts of all windows are, by the costs of the task code.
pub fn part_names(walks: &Walks, load: &[Entry], found: &RunCosts) -> Result<PartNames>
    ensures { IfOk result (ArePartNames walks.now.config walks.now.app load.now found.now) }
{
    let config = walks.config();
    let app = walks.app();
    let lengths = lengths(walks.alloc(), app)?;
    let weights = weights_by(walks.alloc(), app, &lengths)?;
    let bounded = bounded(walks, load, &weights)?;
    let stretch = stretch_name(config, app, &weights, found.late);
    let item = line_name(long_line(app, &lengths, found.longest));
    Ok(PartNames {
        stretch,
        item,
        bounded: List::from_vec(bounded),
        weights: List::from_vec(weights),
    })
}

// ---- in front of a window

// The section of task k for h: where a greatest one begins, if the work of the task does not bound it.
fn section_name(
    walks: &Walks,
    weights: &[BodyWeights],
    costs: &Costs,
    h: usize,
    k: usize,
) -> Result<Name>
    requires sections { AreOwnSections walks.now.config walks.now.app weights.now costs.now }
    requires fit { AreWeights walks.now.app weights.now }
    requires above { h < length walks.now.config.tasks }
    requires inside { k < length walks.now.config.tasks }
    ensures { IfOk result (IsSectionName walks.now.config walks.now.app weights.now costs.now h k) }
{
    let bound = section_counts(costs, h, k).unwrap_or(0);
    match section(costs, h, k).counts {
        Some(counts) => {
            if 0 < counts && counts == bound {
                let line = greatest_section_line(walks, weights, h, k, counts)?;
                Ok(Name::Line(line))
            } else {
                Ok(Name::Work)
            }
        }
        None => Ok(Name::Work),
    }
}

// That of a start, if it is a section.
fn begun_name(
    walks: &Walks,
    weights: &[BodyWeights],
    costs: &Costs,
    h: usize,
    start: Start,
) -> Result<Name>
    requires sections { AreOwnSections walks.now.config walks.now.app weights.now costs.now }
    requires fit { AreWeights walks.now.app weights.now }
    requires above { h < length walks.now.config.tasks }
    requires inside { StartsInside (length walks.now.config.tasks) start }
    ensures { IfOk result (IsBegunName walks.now.config walks.now.app weights.now costs.now h start) }
{
    match start {
        Start::Section(k) => section_name(walks, weights, costs, h, k),
        Start::Free | Start::Boot | Start::Activation(_) | Start::Setting(_) | Start::Round(_) =>
            Ok(Name::Nothing),
    }
}

/// What the parts in front of a window of a start are.
pub fn front_names(
    walks: &Walks,
    names: &PartNames,
    costs: &Costs,
    h: usize,
    start: Start,
) -> Result<FrontNames>
    requires sections { AreOwnSections walks.now.config walks.now.app names.now.weights costs.now }
    requires fit { AreWeights walks.now.app names.now.weights }
    requires small { length walks.now.config.tasks < 4294967296 }
    requires above { h < length walks.now.config.tasks }
    requires inside { StartsInside (length walks.now.config.tasks) start }
    ensures { IfOk result (AreFrontNames walks.now.config walks.now.app costs.now names.now h start) }
{
    let line = service_line(walks, costs, h, start)?;
    let section = begun_name(walks, names.weights.items(), costs, h, start)?;
    Ok(FrontNames {
        stretch: names.stretch,
        service: line_name(line),
        item: names.item,
        section,
    })
}
