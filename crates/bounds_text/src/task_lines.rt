//! The lines of all tasks: of the commands `bounds OIL SRC` and `bounds OIL SRC counts`.
ghost use Rattle.std.specs.Prelude.{◌≡◌, ◌<◌, length, IfOk, IfErr};
ghost use Rattle.call_graph.specs.Ranks.{RanksOf};
ghost use Rattle.sloth_source.specs.Texts.{SourcesErrorIs};
ghost use Rattle.bounds_text.specs.BoundsText.{IsTellable, AreTellable, HasLines, bound_text, bound_line, bound_lines};
ghost use Rattle.bounds_text.specs.BoundsText.{IsBoundsText};
ghost use Rattle.bounds_text.specs.LowerCounts.{heaviest_item, heaviest, behind_item, lower_counts, sum_text};
ghost use Rattle.bounds_text.specs.LowerCounts.{count_line, count_lines, HasLowerCounts, IsLowerCountsText};

use crate::task_bound::{Bound, bounds, has_lower};
use bound_rules::{BodyWeights, weights_at};
use call_graph::Ranks;
use run_counts::count_weights;
use sloth_base::{BuildError, COUNT_LIMIT, ITEM_COUNTS, List, Result, TaskDecl};
use sloth_source::read_checked;
use std::alloc::Global;
use task_verify::Verified;
use text_pieces::pieces::Piece::{Number, Word};
use text_pieces::text;
use walk_sums::{Sum, Walks, greatest_sum, known_code};

fn bound_text(alloc: Global, bound: Bound) -> Result<Vec<u8>>
    requires { IsTellable bound }
    ensures { IfOk result (λ text. text.items ≡ bound_text bound) }
{
    match bound {
        Bound::Items(items) => {
            text!(alloc; Word(b" "), Number(items), Word(b" "), Number(ITEM_COUNTS * items))
        },
        Bound::Huge => text!(alloc; Word(b" huge")),
        Bound::Endless => text!(alloc; Word(b" endless")),
    }
}

#[tactic(auto, unfolding(crate::specs::BoundsText::bound_line))]
pub(crate) fn bound_line(
    alloc: Global,
    tasks: &[TaskDecl],
    bounds: &[Bound],
    task: usize,
) -> Result<Vec<u8>>
    requires there { task < length tasks.now }
    requires same { length bounds.now ≡ length tasks.now }
    requires tellable { AreTellable bounds.now }
    ensures { IfOk result (λ line. line.items ≡ bound_line tasks.now bounds.now task) }
{
    let mut line = Vec::from_slice(alloc, tasks[task].name.bytes())?;
    line.extend_from_slice(bound_text(alloc, bounds[task])?.as_slice())?;
    line.extend_from_slice(b"\n")?;
    Ok(line)
}

pub(crate) fn bound_lines(alloc: Global, tasks: &[TaskDecl], bounds: &[Bound]) -> Result<Vec<u8>>
    requires same { length bounds.now ≡ length tasks.now }
    requires tellable { AreTellable bounds.now }
    ensures { IfOk result (λ text. text.items ≡ bound_lines tasks.now bounds.now (length tasks.now)) }
{
    let mut text = Vec::new(alloc);
    for task in 0..tasks.len() {
        text.extend_from_slice(bound_line(alloc, tasks, bounds, task)?.as_slice())?;
    }
    Ok(text)
}

#[tactic(auto, using(crate::proofs::Keeping::has_lines))]
fn checked_text(alloc: Global, verified: &Verified, ranks: &Ranks) -> Result<Vec<u8>, BuildError>
    requires { RanksOf verified.now.app ranks.now }
    ensures text { IfOk result (λ text. HasLines verified.now.config verified.now.app text.items) }
    ensures memory { IfErr result (λ error. error ≡ BuildError.Memory) }
{
    let bounds = bounds(alloc, verified, ranks)?;
    let text = bound_lines(alloc, verified.config().tasks.items(), bounds.items())?;
    Ok(text)
}

/// The lines of the bounds of all tasks, of texts of at most 4,294,967,294 bytes; or the first refusal (O1 to O15, A1
/// to A7, V1 to V12).
pub fn bounds_text(alloc: Global, oil: &[u8], src: &[u8]) -> Result<Vec<u8>, BuildError>
    requires oil { length oil.now < 4294967295 }
    requires src { length src.now < 4294967295 }
    ensures text { IfOk result (λ text. IsBoundsText oil.now src.now text.items) }
    ensures refused { IfErr result (SourcesErrorIs oil.now src.now) }
{
    let checked = read_checked(alloc, oil, src)?;
    checked_text(alloc, &checked.verified, &checked.ranks)
}

pub(crate) fn heaviest_item(going: &[u32]) -> u32
    ensures { result ≡ heaviest_item going.now }
{
    let mut most = 0;
    for item in 0..going.len() {
        most = going[item].max(most);
    }
    most
}

pub(crate) fn heaviest(weights: &[BodyWeights]) -> u32
    ensures { result ≡ heaviest weights.now }
{
    let mut most = 0;
    for body in 0..weights.len() {
        most = heaviest_item(weights_at(weights, body).going.items()).max(most);
    }
    most
}

// A sum behind an item of this weight.
fn behind_item(weight: u32, sum: Sum) -> Sum
    ensures { result ≡ behind_item weight sum }
{
    match sum {
        Sum::Counts(counts) if weight <= COUNT_LIMIT && counts <= COUNT_LIMIT - weight => {
            Sum::Counts(weight + counts)
        }
        Sum::Counts(_) | Sum::Huge => Sum::Huge,
        Sum::Endless => Sum::Endless,
    }
}

// How many counts of lower tasks may stand in front of a task's entry.
pub(crate) fn lower_counts(tasks: &[TaskDecl], weight: u32, sums: &[Sum], task: usize) -> Sum
    requires { task < length tasks.now }
    ensures { result ≡ lower_counts tasks.now weight sums.now task }
{
    if has_lower(tasks, tasks[task].priority) {
        behind_item(weight, greatest_sum(sums))
    } else {
        Sum::Counts(0)
    }
}

fn sum_text(alloc: Global, sum: Sum) -> Result<Vec<u8>>
    ensures { IfOk result (λ text. text.items ≡ sum_text sum) }
{
    match sum {
        Sum::Counts(counts) => text!(alloc; Word(b" "), Number(counts)),
        Sum::Huge => text!(alloc; Word(b" huge")),
        Sum::Endless => text!(alloc; Word(b" endless")),
    }
}

#[tactic(auto, unfolding(crate::specs::LowerCounts::count_line))]
fn count_line(
    alloc: Global,
    tasks: &[TaskDecl],
    weight: u32,
    table: &[List<Sum>],
    task: usize,
) -> Result<Vec<u8>>
    requires there { task < length tasks.now }
    requires same { length table.now ≡ length tasks.now }
    ensures { IfOk result (λ line. line.items ≡ count_line tasks.now weight table.now task) }
{
    let counts = lower_counts(tasks, weight, table[task].items(), task);
    let mut line = Vec::from_slice(alloc, tasks[task].name.bytes())?;
    line.extend_from_slice(sum_text(alloc, counts)?.as_slice())?;
    line.extend_from_slice(b"\n")?;
    Ok(line)
}

fn count_lines(
    alloc: Global,
    tasks: &[TaskDecl],
    weight: u32,
    table: &[List<Sum>],
) -> Result<Vec<u8>>
    requires { length table.now ≡ length tasks.now }
    ensures { IfOk result (λ text. text.items ≡ count_lines tasks.now weight table.now (length tasks.now)) }
{
    let mut text = Vec::new(alloc);
    for task in 0..tasks.len() {
        text.extend_from_slice(count_line(alloc, tasks, weight, table, task)?.as_slice())?;
    }
    Ok(text)
}

fn walked_lines(walks: &Walks) -> Result<Vec<u8>>
    ensures { IfOk result (λ text. HasLowerCounts walks.now.config walks.now.app text.items) }
{
    let weights = count_weights(walks.alloc(), walks.app())?;
    let table = walks.section_sums(&weights)?;
    let tasks = walks.config().tasks.items();
    count_lines(walks.alloc(), tasks, heaviest(&weights), &table)
}

fn checked_counts(alloc: Global, verified: &Verified, ranks: &Ranks) -> Result<Vec<u8>, BuildError>
    requires { RanksOf verified.now.app ranks.now }
    ensures text { IfOk result (λ text. HasLowerCounts verified.now.config verified.now.app text.items) }
    ensures memory { IfErr result (λ error. error ≡ BuildError.Memory) }
{
    let config = verified.config();
    let app = verified.app();
    let known = known_code(alloc, config, app, ranks)?;
    let walks = Walks::of(alloc, config, app, &known);
    let text = walked_lines(&walks)?;
    Ok(text)
}

/// The lines of the counts of lower tasks that may stand in front of each task's entry, of texts of at most
/// 4,294,967,294 bytes; or the first refusal (O1 to O15, A1 to A7, V1 to V12). Without a task there is no line.
pub fn lower_count_lines(alloc: Global, oil: &[u8], src: &[u8]) -> Result<Vec<u8>, BuildError>
    requires oil { length oil.now < 4294967295 }
    requires src { length src.now < 4294967295 }
    ensures text { IfOk result (λ text. IsLowerCountsText oil.now src.now text.items) }
    ensures refused { IfErr result (SourcesErrorIs oil.now src.now) }
{
    let checked = read_checked(alloc, oil, src)?;
    checked_counts(alloc, &checked.verified, &checked.ranks)
}
