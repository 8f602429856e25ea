//! Of what the number of a task's longest window is made.
ghost use Rattle.std.specs.Prelude.{◌≡◌, ◌<◌, ◌++◌, true, Some, length, OnOk, IfOk};
ghost use Rattle.run_windows.specs.Settling.{TakeCounts};
ghost use Rattle.walk_sums.specs.Weights.{AreWeights};
ghost use Rattle.response_reasons.specs.Calls.{StartsInside};
ghost use Rattle.response_text.specs.PartNames.{AreOwnSections};
ghost use Rattle.response_text.specs.Parts.{front_line, work_name, start_word, start_name};
ghost use Rattle.response_text.specs.Parts.{section_of, front_lines, begun_line, round_line, round_lines};
ghost use Rattle.response_text.specs.Parts.{tick_line, tick_lines, part_lines, has_parts, IsNumbered};
ghost use Rattle.response_text.specs.Parts.{BeginsInside, IsPartText};

use crate::part_lines::{
    Bounded, FrontNames, Name, PartNames, counter_name, push_last, push_named, push_part,
    push_some, task_name, wide,
};
use crate::part_names::front_names;
use run_windows::level::is_round;
use run_windows::rounds::{arrivals, number_of};
use run_windows::{Costs, CounterCosts, Longest, Parts, RunCosts, Start, task, window_parts};
use sloth_base::{Config, Result};
use walk_sums::Walks;

fn start_word(start: Start) -> &'static [u8]
    ensures { result.now ≡ start_word start }
{
    match start {
        Start::Free => b" free",
        Start::Boot => b" boot",
        Start::Activation(_) => b" activation ",
        Start::Setting(_) => b" event ",
        Start::Section(_) => b" section ",
        Start::Round(_) => b" round ",
    }
}

fn start_name(config: &Config, start: Start) -> &[u8]
    ensures { result.now ≡ start_name config.now start }
{
    match start {
        Start::Free => b"",
        Start::Boot => b"",
        Start::Activation(made) => task_name(config, made),
        Start::Setting(made) => task_name(config, made),
        Start::Section(raised) => task_name(config, raised),
        Start::Round(begun) => task_name(config, begun),
    }
}

// So many counts in front of all; no line of none.
fn push_front(text: &mut Vec<u8>, config: &Config, word: &[u8], counts: u64, is: Name) -> Result<()>
    ensures { OnOk result (text.new.items ≡ text.old.items ++ front_line config.now word.now counts is) }
{
    if counts != 0 {
        text.extend_from_slice(word)?;
        push_last(text, config, Some(counts), is)?;
    }
    Ok(())
}

// The counts of a section; a round that is under way stands with those of its task.
fn section_of(start: Start, parts: &Parts) -> u64
    ensures { result ≡ section_of start parts.now }
{
    match start {
        Start::Round(_) => 0,
        Start::Free | Start::Boot | Start::Activation(_) | Start::Setting(_) | Start::Section(_) =>
            parts.section,
    }
}

fn push_fronts(
    text: &mut Vec<u8>,
    config: &Config,
    start: Start,
    parts: &Parts,
    names: FrontNames,
) -> Result<()>
    ensures { OnOk result (text.new.items ≡ text.old.items ++ front_lines config.now start parts.now names) }
{
    let (stretch, service) = (u64::from(parts.stretch), u64::from(parts.service));
    push_front(text, config, b"stretch", stretch, names.stretch)?;
    push_front(text, config, b"service", service, names.service)?;
    push_front(text, config, b"item", u64::from(parts.item), names.item)?;
    let section = section_of(start, parts);
    push_front(text, config, b"section", section, names.section)
}

fn work_name(bounded: bool) -> Name
    ensures { result ≡ work_name bounded }
{
    if bounded { Name::Work } else { Name::Nothing }
}

// The round of a task that is under way as the window begins.
fn push_begun(
    text: &mut Vec<u8>,
    config: &Config,
    start: Start,
    counts: u64,
    bounded: Bounded,
    t: usize,
) -> Result<()>
    ensures { OnOk result (text.new.items ≡ text.old.items ++ begun_line config.now start counts bounded t) }
{
    if is_round(start, t) {
        let is = work_name(bounded.first || bounded.next);
        let name = task_name(config, t);
        push_some(text, config, name, b" first", 1, Some(counts), is)?;
    }
    Ok(())
}

// The rounds of a task.
fn push_round(
    text: &mut Vec<u8>,
    config: &Config,
    costs: &Costs,
    works: &[Bounded],
    start: Start,
    parts: &Parts,
    t: usize,
) -> Result<()>
    ensures { OnOk result (text.new.items ≡ text.old.items ++
        round_line config.now costs.now works.now start parts.now t) }
{
    let none = Bounded {
        first: false,
        next: false,
    };
    let bounded = works.get(t).copied().unwrap_or(none);
    push_begun(text, config, start, parts.section, bounded, t)?;
    let name = task_name(config, t);
    let made = number_of(parts.numbers.items(), t);
    let costs = task(costs, t);
    let word: &[u8] = if costs.is_cut { b" first" } else { b"" };
    let (first, next) = (work_name(bounded.first), work_name(bounded.next));
    let (firsts, nexts) = (wide(costs.first), wide(costs.next));
    push_part(text, config, name, word, made.activations, firsts, first)?;
    push_part(text, config, name, b" next", made.settings, nexts, next)
}

fn push_rounds(
    text: &mut Vec<u8>,
    config: &Config,
    costs: &Costs,
    works: &[Bounded],
    start: Start,
    parts: &Parts,
) -> Result<()>
    ensures { OnOk result (text.new.items ≡ text.old.items ++
        round_lines config.now costs.now works.now start parts.now (length config.now.tasks)) }
{
    for t in 0..config.tasks.items().len() {
        push_round(text, config, costs, works, start, parts, t)?;
    }
    Ok(())
}

// The ticks of a counter within so many counts.
fn push_tick(text: &mut Vec<u8>, config: &Config, costs: &Costs, span: u64, c: usize) -> Result<()>
    ensures { OnOk result (text.new.items ≡ text.old.items ++ tick_line config.now costs.now span c) }
{
    let none = CounterCosts {
        distance: None,
        tick: 0,
    };
    let counter = costs.counters.items().get(c).copied().unwrap_or(none);
    let ticks = arrivals(span, counter.distance);
    let tick = Some(u64::from(counter.tick));
    let name = counter_name(config, c);
    push_part(text, config, name, b"", ticks, tick, Name::Nothing)
}

fn push_ticks(text: &mut Vec<u8>, config: &Config, costs: &Costs, counts: u64) -> Result<()>
    ensures { OnOk result (text.new.items ≡ text.old.items ++ tick_lines config.now costs.now counts
        (length config.now.counters)) }
{
    for c in 0..config.counters.items().len() {
        push_tick(text, config, costs, counts, c)?;
    }
    Ok(())
}

// All parts of a window.
fn push_parts(
    text: &mut Vec<u8>,
    config: &Config,
    costs: &Costs,
    works: &[Bounded],
    start: Start,
    parts: &Parts,
    fronts: FrontNames,
) -> Result<()>
    ensures { OnOk result (text.new.items ≡ text.old.items ++
        part_lines config.now costs.now works.now start parts.now fronts) }
{
    push_named(text, b"start", start_word(start))?;
    push_named(text, start_name(config, start), b"\n")?;
    push_fronts(text, config, start, parts, fronts)?;
    push_rounds(text, config, costs, works, start, parts)?;
    push_ticks(text, config, costs, parts.counts)
}

// Those of a window with something in it.
fn window_text(
    walks: &Walks,
    found: &RunCosts,
    names: &PartNames,
    h: usize,
    window: Longest,
) -> Result<Vec<u8>>
    requires costs { TakeCounts found.now.costs }
    requires sections { AreOwnSections walks.now.config walks.now.app names.now.weights found.now.costs }
    requires fit { AreWeights walks.now.app names.now.weights }
    requires above { h < length walks.now.config.tasks }
    requires inside { StartsInside (length walks.now.config.tasks) window.start }
    requires number { IsNumbered found.now h (Some window) }
    ensures { IfOk result (λ text. IsPartText walks.now.config walks.now.app found.now names.now h true
        (Some window) text.items) }
{
    let (config, costs, start) = (walks.config(), &found.costs, window.start);
    let parts = window_parts(walks.alloc(), found, h, window)?;
    let fronts = front_names(walks, names, costs, h, start)?;
    let works = names.bounded.items();
    let mut text = Vec::new(walks.alloc());
    push_parts(&mut text, config, costs, works, start, &parts, fronts)?;
    Ok(text)
}

/// Whether there is a window with something in it.
pub fn has_parts(window: Option<Longest>) -> bool
    ensures { result ≡ has_parts window }
{
    match window {
        Some(window) => window.number != 0,
        None => false,
    }
}

/// The lines of the parts of a task's longest window, where they are shown.
pub fn part_text(
    walks: &Walks,
    found: &RunCosts,
    names: &PartNames,
    h: usize,
    shown: bool,
    window: Option<Longest>,
) -> Result<Vec<u8>>
    requires costs { TakeCounts found.now.costs }
    requires sections { AreOwnSections walks.now.config walks.now.app names.now.weights found.now.costs }
    requires fit { AreWeights walks.now.app names.now.weights }
    requires above { h < length walks.now.config.tasks }
    requires inside { shown ≡ true → BeginsInside (length walks.now.config.tasks) window }
    requires shown { shown ≡ true → IsNumbered found.now h window }
    ensures { IfOk result (λ text. IsPartText walks.now.config walks.now.app found.now names.now h shown window
        text.items) }
{
    match window {
        Some(window) => {
            if shown {
                window_text(walks, found, names, h, window)
            } else {
                Ok(Vec::new(walks.alloc()))
            }
        }
        None => Ok(Vec::new(walks.alloc())),
    }
}
