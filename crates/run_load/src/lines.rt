//! The lines of a run beside its load. The longest responses that are seen in a run.
ghost use Rattle.std.specs.Prelude.{List as Items, ◌≡◌, ◌<◌, ◌++◌, ℕ, Some, true, false, length, IfOk, OnOk, ◌&&◌};
ghost use Rattle.std.specs.Prelude.{◌||◌, cond};
ghost use Rattle.sloth_base.specs.ConfigRange.{InRange};
ghost use Rattle.sloth_base.specs.Named.{counter_declaration};
ghost use Rattle.code_rules.specs.WellFormed.{WellFormed};
ghost use Rattle.load_text.specs.Loads.{work};
ghost use Rattle.response_text.specs.Lines.{number_words, made_words};
ghost use Rattle.run_load.specs.RunLines.{owner_name, gap_words, arrivals_line, work_line, told_words, seen_line};
ghost use Rattle.run_load.specs.RunLines.{seen_lines, tick_line, tick_lines, cuts_of, told_run};
ghost use Rattle.run_load.specs.Seen.{longest_seen, end_of_response, response, is_behind, longest};
ghost use Rattle.run_load.specs.Soon.{line_at};
ghost use Rattle.run_load.specs.Work.{above_limit, above_among};

use crate::soon::{EarlyArrival, first_soon, line_number};
use crate::ticks::longest_tick;
use crate::watch::{Watched, is_admission, watch};
use crate::work::{Excess, earlier, first_above, is_left};
use load_text::{Entry, distance_of, work_of};
use response_text::lines::{push_made, push_number, response_at};
use response_text::task_text::Response;
use run_windows::{Costs, task};
use sloth_base::{App, Arrival, Config, Event, FIRST_COUNTER_LINE, List, Result, Stamped};
use std::alloc::Global;
use text_pieces::line;
use text_pieces::pieces::Piece::{Count, Number, Sum, Word};

/// The lines, and whether the run keeps the load.
#[derive(Drop)]
pub struct ToldRun {
    pub text: List<u8>,
    pub keeps: bool,
}

/// The events of a run, and what it ran.
#[derive(Clone, Copy)]
pub struct LoadRun<'a> {
    pub config: &'a Config,
    pub app: &'a App,
    pub load: &'a [Entry],
    pub costs: &'a Costs,
    pub events: &'a [Stamped],
}

fn counter_name(config: &Config, counter: usize) -> &[u8]
    ensures { result.now ≡ (counter_declaration config.now counter).name }
{
    match config.counters.items().get(counter) {
        Some(counter) => counter.name.bytes(),
        None => b"",
    }
}

fn owner_name(config: &Config, line: u8) -> &[u8]
    ensures { result.now ≡ owner_name config.now line }
{
    if line >= FIRST_COUNTER_LINE {
        counter_name(config, usize::from(line - FIRST_COUNTER_LINE))
    } else {
        config.task_name(usize::from(line))
    }
}

fn push_gap(text: &mut Vec<u8>, distance: Option<u32>, gap: u32) -> Result<()>
    ensures { OnOk result (text.new.items ≡ text.old.items ++ gap_words distance gap) }
{
    match distance {
        Some(counts) => line!(text; Word(b" "), Number(gap), Word(b" "), Number(counts)),
        None => line!(text; Word(b" never")),
    }
}

// The line of the first arrival that comes too soon.
fn push_soon(
    text: &mut Vec<u8>,
    config: &Config,
    load: &[Entry],
    number: usize,
    soon: &EarlyArrival,
) -> Result<()>
    ensures { (arr : Items ℕ) → number ≡ line_at arr soon.now.place
        → OnOk result (text.new.items ≡ text.old.items ++ arrivals_line config.now load.now arr (Some soon.now)) }
{
    line!(text; Word(b"arrival "), Count(number), Word(b" "), Word(owner_name(config, soon.line)))?;
    push_gap(text, distance_of(load, soon.line), soon.gap)?;
    line!(text; Word(b"\n"))
}

// Whether arrivals keep the distances, or the first that does not.
fn push_arrivals(
    alloc: Global,
    text: &mut Vec<u8>,
    config: &Config,
    load: &[Entry],
    arr: &[u8],
    found: &Option<EarlyArrival>,
) -> Result<()>
    ensures { OnOk result (text.new.items ≡ text.old.items ++ arrivals_line config.now load.now arr.now found.now) }
{
    match found {
        Some(soon) => {
            let number = line_number(alloc, arr, soon.place)?;
            push_soon(text, config, load, number, soon)
        }
        None => line!(text; Word(b"arrivals keep\n")),
    }
}

// Whether rounds keep the work, or the first that does not.
fn push_work(text: &mut Vec<u8>, config: &Config, found: &Option<Excess>) -> Result<()>
    ensures { OnOk result (text.new.items ≡ text.old.items ++ work_line config.now found.now) }
{
    match found {
        Some(above) => {
            let name = config.task_name(above.task as usize);
            line!(text; Word(b"work "), Word(name), Word(b" "), Number(above.at), Word(b" "), Sum(above.own), Word(b" "), Number(above.limit), Word(b"\n"))
        }
        None => line!(text; Word(b"work keeps\n")),
    }
}

fn push_told(text: &mut Vec<u8>, comes: bool, number: Option<u32>) -> Result<()>
    ensures { OnOk result (text.new.items ≡ text.old.items ++ told_words comes (number_words number)) }
{
    if comes {
        return push_number(text, number);
    }
    line!(text; Word(b" never"))
}

fn push_told_behind(text: &mut Vec<u8>, response: Response) -> Result<()>
    ensures { OnOk result (text.new.items ≡ text.old.items ++ told_words response.comes (made_words response.behind)) }
{
    if response.comes {
        return push_made(text, response.behind);
    }
    line!(text; Word(b" never"))
}

fn push_seen(
    text: &mut Vec<u8>,
    config: &Config,
    task: u32,
    response: Response,
    all: u64,
    behind: u64,
) -> Result<()>
    ensures { OnOk result (text.new.items ≡ text.old.items ++ seen_line config.now task response all behind) }
{
    line!(text; Word(config.task_name(task as usize)), Word(b" "), Sum(u128::from(all)), Word(b" of"))?;
    push_told(text, response.comes, response.anywhere)?;
    line!(text; Word(b" behind "), Sum(u128::from(behind)), Word(b" of"))?;
    push_told_behind(text, response)?;
    line!(text; Word(b"\n"))
}

// What is seen of a task.
#[derive(Clone, Copy)]
struct TaskRun {
    all: u64,
    behind: u64,
    above: Option<Excess>,
}

fn task_run(alloc: Global, run: &LoadRun, task: u32, cuts: bool) -> Result<TaskRun>
    requires well_formed { WellFormed run.now.config.now run.now.app.now }
    requires declared { task < length run.now.config.now.tasks }
    ensures all { IfOk result
        (λ t. t.all ≡ longest_seen run.now.config.now run.now.app.now task true run.now.events.now) }
    ensures behind { IfOk result
        (λ t. t.behind ≡ longest_seen run.now.config.now run.now.app.now task false run.now.events.now) }
    ensures above { IfOk result
        (λ t. t.above ≡ above_limit run.now.config.now run.now.app.now cuts task run.now.events.now
        (work run.now.load.now task)) }
{
    let watched = watch(alloc, run.config, run.app, run.events, task)?;
    let above = match work_of(run.load, task as u8) {
        Some(limit) => first_above(cuts, task, limit, &watched),
        None => None,
    };
    Ok(TaskRun {
        all: longest(task, true, &watched),
        behind: longest(task, false, &watched),
        above,
    })
}

fn is_cut(costs: &Costs, t: usize) -> bool
    ensures { result ≡ cuts_of costs.now t }
{
    task(costs, t).is_cut
}

// What is seen of all tasks: their lines, and the first round above its work.
struct Seen {
    text: Vec<u8>,
    above: Option<Excess>,
}

impl Drop for Seen {
    fn drop(self) {
        let Seen { text: _, above: _ } = self;
    }
}

fn seen_tasks(alloc: Global, run: &LoadRun, responses: &[Response]) -> Result<Seen>
    requires well_formed { WellFormed run.now.config.now run.now.app.now }
    ensures text { IfOk result
        (λ seen. seen.text.items
        ≡ seen_lines run.now.config.now run.now.app.now run.now.events.now responses.now
        (length run.now.config.now.tasks)) }
    ensures above { IfOk result (λ seen. seen.above
        ≡ above_among run.now.config.now run.now.app.now run.now.load.now
        (cuts_of run.now.costs.now) run.now.events.now (length run.now.config.now.tasks)) }
{
    let mut text = Vec::new(alloc);
    let mut above = None;
    for task in 0..run.config.tasks.items().len() as u32 {
        let cuts = is_cut(run.costs, task as usize);
        let seen = task_run(alloc, run, task, cuts)?;
        let response = response_at(responses, task);
        push_seen(&mut text, run.config, task, response, seen.all, seen.behind)?;
        above = earlier(above, seen.above);
    }
    Ok(Seen { text, above })
}

fn push_tick(text: &mut Vec<u8>, run: &LoadRun, tick: Option<u32>, counter: u32) -> Result<()>
    requires in_range { InRange run.now.config.now }
    requires there { counter < length run.now.config.now.counters }
    ensures { OnOk result (text.new.items ≡ text.old.items ++ tick_line run.now.config.now run.now.load.now run.now.events.now tick counter) }
{
    let seen = longest_tick(counter, run.events);
    let comes = distance_of(run.load, FIRST_COUNTER_LINE + counter as u8).is_some();
    line!(text; Word(b"tick "), Word(counter_name(run.config, counter as usize)), Word(b" "), Sum(u128::from(seen)), Word(b" of"))?;
    push_told(text, comes, tick)?;
    line!(text; Word(b"\n"))
}

// The lines of all counters.
fn push_ticks(text: &mut Vec<u8>, run: &LoadRun, tick: Option<u32>) -> Result<()>
    requires { InRange run.now.config.now }
    ensures { OnOk result
        (text.new.items ≡ text.old.items
        ++ tick_lines run.now.config.now run.now.load.now run.now.events.now tick
        (length run.now.config.now.counters)) }
{
    for counter in 0..run.config.counters.items().len() as u32 {
        push_tick(text, run, tick, counter)?;
    }
    Ok(())
}

/// The lines of a run with these arrivals, whose text is given too, beside its tasks' responses and number of ticks.
pub fn told_run(
    alloc: Global,
    run: &LoadRun,
    arr: &[u8],
    arrivals: &[Arrival],
    responses: &[Response],
    tick: Option<u32>,
) -> Result<ToldRun>
    requires well_formed { WellFormed run.now.config.now run.now.app.now }
    ensures { IfOk result
        (λ told. told ≡ told_run run.now.config.now run.now.app.now run.now.load.now run.now.costs.now arr.now
        arrivals.now run.now.events.now responses.now tick) }
{
    let soon = first_soon(run.load, arrivals);
    let seen = seen_tasks(alloc, run, responses)?;
    let mut text = Vec::new(alloc);
    push_arrivals(alloc, &mut text, run.config, run.load, arr, &soon)?;
    push_work(&mut text, run.config, &seen.above)?;
    text.extend_from_slice(&seen.text)?;
    push_ticks(&mut text, run, tick)?;
    Ok(ToldRun {
        text: List::from_vec(text),
        keeps: soon.is_none() && seen.above.is_none(),
    })
}

// The count behind the first event with which the task leaves, or behind the last one.
fn end_of_response(task: u32, behind: &[Watched]) -> u64
    ensures { result ≡ end_of_response task 0 behind.now }
{
    let mut last = 0;
    for seen in behind {
        if !is_admission(&seen.event) {
            last = u64::from(seen.event.stamp.at) + 1;
            if is_left(task, &seen.event.event) {
                return last;
            }
        }
    }
    last
}

fn is_behind(quiet: bool, seen: &Watched) -> bool
    ensures { result ≡ is_behind quiet seen.now }
{
    quiet || (!matches!(seen.event.event, Event::Boot) && seen.quiet)
}

// The response to an event, where it counts.
fn counted(task: u32, counts: bool, seen: &Watched, behind: &[Watched]) -> u64
    ensures { result ≡ cond counts (response task seen.now behind.now) 0 }
{
    if counts {
        end_of_response(task, behind).saturating_sub(u64::from(seen.edge))
    } else {
        0
    }
}

/// The longest response to an event that makes the task Ready, of all or of those behind boot; 0 where there is none.
pub fn longest(task: u32, all: bool, watched: &[Watched]) -> u64
    ensures { result ≡ longest task all false watched.now }
{
    let mut most = 0;
    let mut quiet = false;
    let mut rest = watched;
    while let Some((seen, behind)) = rest.split_first() {
        quiet = is_behind(quiet, seen);
        most = counted(task, seen.made && (all || quiet), seen, behind).max(most);
        rest = behind;
    }
    most
}
