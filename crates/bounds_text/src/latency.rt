//! The lines of the command `bounds OIL SRC latency`: how long the task of highest priority may wait for its entry, and
//! the most counts of ticks.
ghost use Rattle.std.specs.Prelude.{◌≡◌, ◌<◌, ◌≤◌, ℕ, length, All, IfOk, IfErr, IfSome, IfNone, ◌+◌, ◌*◌, false};
ghost use Rattle.sloth_base.specs.ConfigRange.{InRange};
ghost use Rattle.sloth_base.specs.Limits.{frame_limit, alarm_limit, counter_limit};
ghost use Rattle.code_rules.specs.WellFormed.{WellFormed};
ghost use Rattle.call_graph.specs.Ranks.{RanksOf};
ghost use Rattle.call_graph.specs.Tables.{HasTaskBody};
ghost use Rattle.sloth_source.specs.Texts.{SourcesErrorIs};
ghost use Rattle.bounds_text.specs.BoundsText.{AreTellable};
ghost use Rattle.bounds_text.specs.LowerCounts.{heaviest_item};
ghost use Rattle.bounds_text.specs.Latency.{IsHighestTask, heaviest_ending, longest_item, taken_counts, latency_text, latency_line, tick_line, tick_lines, last_line, AreAllLines, HasLatency, IsLatencyText};
ghost use Rattle.run_counts.specs.Latency.{weighed_latency};
ghost use Rattle.bounds_text.specs.Highest.{IsHighestAmong};
ghost use Rattle.sim_induction.specs.Events.{enter_counts};
ghost use Rattle.bounds_text.specs.Stretches.{heaviest_entry, heaviest_tick, running_counts};

use crate::task_bound::{Bound, has_lower, walked_bounds};
use crate::task_lines::{bound_lines, heaviest, heaviest_item, lower_counts};
use bound_rules::{BodyWeights, weights_at};
use call_graph::Ranks;
use code_lengths::{entry_path, tick_path};
use run_counts::weights_by;
use sim_induction::{ItemLengths, lengths};
use sloth_base::{App, BuildError, Config, List, Result, TaskDecl};
use sloth_source::read_checked;
use stack_bounds::body_of;
use std::alloc::Global;
use task_verify::Verified;
use text_pieces::pieces::Piece;
use text_pieces::pieces::Piece::{Number, Word};
use text_pieces::text;
use walk_sums::{Sum, Walks, known_code};

/// The heaviest item of all bodies with which its task may leave.
pub fn heaviest_ending(weights: &[BodyWeights]) -> u32
    ensures { result ≡ heaviest_ending weights.now }
{
    let mut most = 0;
    for body in 0..weights.len() {
        most = heaviest_item(weights_at(weights, body).ending.items()).max(most);
    }
    most
}

/// The instructions of the longest item.
pub fn longest_item(lengths: &ItemLengths) -> u32
    ensures { result ≡ longest_item lengths.now.bodies }
{
    let mut most = 0;
    for body in 0..lengths.bodies.items().len() {
        most = heaviest_item(lengths.bodies.items()[body].items()).max(most);
    }
    most
}

// What lower tasks take in front of an entry.
fn taken_counts(some: bool, leaving: u32, counts: u32) -> u32
    ensures { result ≡ taken_counts some leaving counts }
{
    if some { leaving.max(counts) } else { 0 }
}

/// The parts of a latency: the most counts of a stretch behind boot, of an item with which a task leaves, of the longest
/// item, and of the task's entry; and whether some task is lower.
#[derive(Clone, Copy)]
pub struct Parts {
    pub running: u32,
    pub leaving: u32,
    pub longest: u32,
    pub entry: u32,
    pub some: bool,
}

// The latency by what is told of lower tasks, for an arrival behind boot, ticks left out.
fn latency_text(alloc: Global, parts: &Parts, told: Sum) -> Result<Vec<u8>>
    ensures { IfOk result (λ text. text.items ≡ latency_text parts.now told) }
{
    match told {
        Sum::Counts(counts) => {
            let lower = taken_counts(parts.some, parts.leaving, counts);
            let latency = weighed_latency(parts.running, lower, parts.longest, parts.entry);
            text!(alloc; Word(b" "), Piece::Sum(u128::from(latency)))
        },
        Sum::Huge => text!(alloc; Word(b" huge")),
        Sum::Endless => text!(alloc; Word(b" endless")),
    }
}

#[tactic(auto, unfolding(crate::specs::Latency::latency_line))]
fn latency_line(
    alloc: Global,
    config: &Config,
    parts: &Parts,
    told: Sum,
    task: usize,
) -> Result<Vec<u8>>
    requires { task < length config.now.tasks }
    ensures { IfOk result (λ line. line.items ≡ latency_line config.now parts.now told task) }
{
    let mut line = Vec::from_slice(alloc, config.tasks.items()[task].name.bytes())?;
    line.extend_from_slice(b" latency")?;
    line.extend_from_slice(latency_text(alloc, parts, told)?.as_slice())?;
    line.extend_from_slice(b"\n")?;
    Ok(line)
}

// That of the task of highest priority, if there is a task.
fn last_line(
    alloc: Global,
    config: &Config,
    app: &App,
    lengths: &ItemLengths,
    weights: &[BodyWeights],
    table: &[List<Sum>],
    highest: Option<usize>,
) -> Result<Vec<u8>>
    requires highest { IsHighestTask config.now highest }
    requires same { length table.now ≡ length config.now.tasks }
    requires bodies { (t : ℕ) → t < length config.now.tasks → HasTaskBody app.now.funcs t }
    requires frames { All (λ func. func.frame_words ≤ frame_limit) app.now.funcs }
    requires in_range { InRange config.now }
    ensures { IfOk result (λ line. line.items ≡
        last_line config.now app.now lengths.now.bodies weights.now table.now highest) }
{
    let Some(task) = highest else {
        return Ok(Vec::new(alloc));
    };
    let tasks = config.tasks.items();
    let leaving = heaviest_ending(weights);
    let parts = Parts {
        running: running_counts(config, app, leaving),
        leaving,
        longest: longest_item(lengths),
        entry: enter_counts(config, app, task),
        some: has_lower(tasks, tasks[task].priority),
    };
    let told = lower_counts(tasks, heaviest(weights), table[task].items(), task);
    latency_line(alloc, config, &parts, told, task)
}

// The line of a counter: what a tick of it takes at most.
#[tactic(auto, unfolding(crate::specs::Latency::tick_line))]
fn tick_line(alloc: Global, config: &Config, counter: usize) -> Result<Vec<u8>>
    requires there { counter < length config.now.counters }
    requires in_range { InRange config.now }
    ensures { IfOk result (λ line. line.items ≡ tick_line config.now counter) }
{
    let counts = tick_path(config, counter as u32);
    let name = config.counters.items()[counter].name.bytes();
    text!(alloc; Word(b"tick "), Word(name), Word(b" "), Number(counts), Word(b"\n"))
}

fn tick_lines(alloc: Global, config: &Config) -> Result<Vec<u8>>
    requires in_range { InRange config.now }
    ensures { IfOk result (λ text. text.items ≡ tick_lines config.now (length config.now.counters)) }
{
    let mut text = Vec::new(alloc);
    for counter in 0..config.counters.items().len() {
        text.extend_from_slice(tick_line(alloc, config, counter)?.as_slice())?;
    }
    Ok(text)
}

// The lines of these bounds, those of all counters, and the last one.
fn all_lines(
    alloc: Global,
    config: &Config,
    app: &App,
    bounds: &[Bound],
    lengths: &ItemLengths,
    weights: &[BodyWeights],
    table: &[List<Sum>],
) -> Result<Vec<u8>>
    requires well_formed { WellFormed config.now app.now }
    requires in_range { InRange config.now }
    requires same { length bounds.now ≡ length config.now.tasks }
    requires tellable { AreTellable bounds.now }
    requires rows { length table.now ≡ length config.now.tasks }
    ensures { IfOk result (λ text. AreAllLines config.now app.now bounds.now lengths.now.bodies weights.now table.now
        text.items) }
{
    let highest = highest_among(config.tasks.items());
    let mut text = bound_lines(alloc, config.tasks.items(), bounds)?;
    text.extend_from_slice(tick_lines(alloc, config)?.as_slice())?;
    let last = last_line(alloc, config, app, lengths, weights, table, highest)?;
    text.extend_from_slice(last.as_slice())?;
    Ok(text)
}

fn walked_lines(walks: &Walks) -> Result<Vec<u8>>
    ensures { IfOk result (λ text. HasLatency walks.now.config walks.now.app text.items) }
{
    let (config, app) = (walks.config(), walks.app());
    let bounds = walked_bounds(walks)?;
    let lengths = lengths(walks.alloc(), app)?;
    let weights = weights_by(walks.alloc(), app, &lengths)?;
    let table = walks.section_sums(&weights)?;
    all_lines(
        walks.alloc(),
        config,
        app,
        &bounds,
        &lengths,
        &weights,
        &table,
    )
}

fn checked_latency(alloc: Global, verified: &Verified, ranks: &Ranks) -> Result<Vec<u8>, BuildError>
    requires { RanksOf verified.now.app ranks.now }
    ensures text { IfOk result (λ text. HasLatency verified.now.config verified.now.app text.items) }
    ensures memory { IfErr result (λ error. error ≡ BuildError.Memory) }
{
    let config = verified.config();
    let app = verified.app();
    let known = known_code(alloc, config, app, ranks)?;
    let walks = Walks::of(alloc, config, app, &known);
    let text = walked_lines(&walks)?;
    Ok(text)
}

/// The lines of the bounds of all tasks, of the ticks of all counters, and of the latency of the task of highest
/// priority, of texts of at most 4,294,967,294 bytes; or the first refusal (O1 to O15, A1 to A7, V1 to V12). The
/// latency is a number of instructions, for an arrival behind boot; what ticks on the way add is left out. Without a
/// task it has no line.
pub fn latency_lines(alloc: Global, oil: &[u8], src: &[u8]) -> Result<Vec<u8>, BuildError>
    requires oil { length oil.now < 4294967295 }
    requires src { length src.now < 4294967295 }
    ensures text { IfOk result (λ text. IsLatencyText oil.now src.now text.items) }
    ensures refused { IfErr result (SourcesErrorIs oil.now src.now) }
{
    let checked = read_checked(alloc, oil, src)?;
    checked_latency(alloc, &checked.verified, &checked.ranks)
}

/// A task of highest priority, if there is a task.
pub fn highest_among(tasks: &[TaskDecl]) -> Option<usize>
    ensures some { IfSome result (IsHighestAmong tasks.now) }
    ensures none { IfNone result (length tasks.now ≡ 0) }
{
    if tasks.is_empty() {
        return None;
    }
    let mut highest = 0;
    for task in 0..tasks.len() {
        if tasks[highest].priority < tasks[task].priority {
            highest = task;
        }
    }
    Some(highest)
}

/// The latency: so many counts may pass from an arrival behind boot to the end of the entry, ticks left out. They are
/// those of the stretch that is running, what lower tasks take, and the entry behind the longest item.
pub fn weighed_latency(running: u32, lower: u32, longest: u32, entry: u32) -> u64
    ensures { result ≡ weighed_latency running lower longest entry }
{
    u64::from(running) + u64::from(lower) + (u64::from(longest) + u64::from(entry))
}

/// The most counts of an entry of a task, that starts anew or goes on behind a wait.
pub fn enter_counts(config: &Config, app: &App, task: usize) -> u32
    requires there { task < length config.now.tasks }
    requires body { HasTaskBody app.now.funcs task }
    requires frames { All (λ func. func.frame_words ≤ frame_limit) app.now.funcs }
    ensures is { result ≡ enter_counts config.now app.now false task }
    ensures short { result ≤ 108 }
{
    let words = app.funcs.items()[body_of(app.funcs.items(), task)].frame_words;
    let extended = config.tasks.items()[task].extended;
    entry_path(extended, true, words).max(entry_path(extended, false, words))
}

/// That of any task.
pub fn heaviest_entry(config: &Config, app: &App) -> u32
    requires bodies { (t : ℕ) → t < length config.now.tasks → HasTaskBody app.now.funcs t }
    requires frames { All (λ func. func.frame_words ≤ frame_limit) app.now.funcs }
    ensures is { result ≡ heaviest_entry config.now app.now }
    ensures short { result ≤ 108 }
{
    let mut most = 0;
    for task in 0..config.tasks.items().len() {
        most = enter_counts(config, app, task).max(most);
    }
    most
}

/// The most counts of a stretch behind boot: an entry, a tick, or an item with which a task may leave.
pub fn running_counts(config: &Config, app: &App, leaving: u32) -> u32
    requires bodies { (t : ℕ) → t < length config.now.tasks → HasTaskBody app.now.funcs t }
    requires frames { All (λ func. func.frame_words ≤ frame_limit) app.now.funcs }
    requires counters { length config.now.counters ≤ counter_limit }
    requires alarms { length config.now.alarms ≤ alarm_limit }
    ensures { result ≡ running_counts config.now app.now leaving }
{
    heaviest_entry(config, app)
        .max(heaviest_tick(config))
        .max(leaving)
}

/// The most counts of a tick of any counter, whose alarms all expire at once.
pub fn heaviest_tick(config: &Config) -> u32
    requires counters { length config.now.counters ≤ counter_limit }
    requires alarms { length config.now.alarms ≤ alarm_limit }
    ensures is { result ≡ heaviest_tick config.now }
    ensures short { result ≤ 12 + 34 * length config.now.alarms }
{
    let mut most = 0;
    for counter in 0..config.counters.items().len() {
        most = tick_path(config, counter as u32).max(most);
    }
    most
}
