//! The greatest sums of rounds, and how often rounds make tasks Ready.
ghost use Rattle.std.specs.Prelude.{◌≡◌, ◌<◌, ◌≤◌, ℕ, None, true, false, length, get_or, IfOk, ◌||◌, cond, leb};
ghost use Rattle.sloth_base.specs.Limits.{task_limit};
ghost use Rattle.sloth_base.specs.Named.{declaration};
ghost use Rattle.walk_sums.specs.Counted.{counted_weights};
ghost use Rattle.walk_sums.specs.Weights.{AreWeights};
ghost use Rattle.walk_sums.specs.Known.{AreSums};
ghost use Rattle.run_costs.specs.Makings.{AreRoundSums, AreCountedSums, AreCleanMarks, AreSteadyMarks};
ghost use Rattle.run_costs.specs.Rounds.{AreRounds, many, made};
ghost use Rattle.run_costs.specs.Tops.{AreTaskTops};
ghost use Rattle.run_costs.specs.Tables.{both, rounds_by, AreTurns, no_sums};
ghost use Rattle.run_costs.specs.Services.{AreNamingTops, AreAllNamingTops};
ghost use Rattle.osek_scheduler.specs.Apart.{static_priority};
ghost use Rattle.run_costs.specs.RunCosts.{AreMakingRow, AreMakingTable};
ghost use Rattle.run_costs.specs.RunRecord.{run_making};
ghost use Rattle.walk_sums.specs.declared.levels.Kind.TheVariants as kinds;

use crate::services::{NamingTops, Row, Table, numbered_tops};
use bound_rules::{BodyWeights, Summary, is_marked};
use run_windows::Makings;
use sloth_base::{List, Result};
use text_pieces::push;
use walk_sums::{Counted, Kind, RoundSums, Sum, Walks, counted_weights};

fn all_marked(marks: &[bool], count: usize) -> bool
    ensures { result ≡ true → (t : ℕ) → t < count → get_or marks.now t false ≡ true }
{
    for task in 0..count {
        if !is_marked(marks, task) {
            return false;
        }
    }
    true
}

fn turns(walks: &Walks, weights: &[BodyWeights], clean: &[bool]) -> Result<Vec<Summary>>
    requires { AreWeights walks.now.app weights.now }
    ensures { IfOk result (λ turns. AreTurns walks.now.config walks.now.app weights.now clean.now turns.items) }
{
    if all_marked(clean, walks.tasks()) {
        Ok(Vec::new(walks.alloc()))
    } else {
        walks.whole_sums(weights, Kind::Turns)
    }
}

fn both(sum: Sum) -> RoundSums
    ensures { result ≡ both sum }
{
    RoundSums {
        first: sum,
        later: sum,
    }
}

// A basic task has no rounds but the first ones.
fn extended_rounds(extended: bool, sums: RoundSums) -> RoundSums
    ensures { result ≡ rounds_by extended sums }
{
    if extended { sums } else { both(sums.first) }
}

fn task_rounds(
    walks: &Walks,
    weights: &[BodyWeights],
    rounds: &[Summary],
    turns: &[Summary],
    clean: &[bool],
    task: usize,
) -> RoundSums
    requires weights { AreWeights walks.now.app weights.now }
    requires rounds { AreSums walks.now.config walks.now.app weights.now kinds.Rounds None rounds.now }
    requires turns { AreTurns walks.now.config walks.now.app weights.now clean.now turns.now }
    requires inside { task < length walks.now.config.tasks }
    ensures { AreRounds walks.now.app (get_or clean.now task false) (declaration walks.now.config task).extended task
        weights.now result }
{
    if is_marked(clean, task) {
        let sums = walks.round_sums(weights, rounds, task);
        extended_rounds(walks.task(task).extended, sums)
    } else {
        both(walks.turn_sum(weights, turns, task))
    }
}

// ---- what is counted

fn some_top(tops: &[u64]) -> bool
    ensures { result ≡ false → (t : ℕ) → get_or tops.now t 0 ≡ 0 }
{
    for task in 0..tops.len() {
        if tops[task] != 0 {
            return true;
        }
    }
    false
}

/// The greatest sums of the rounds of all tasks, by weights of items and by which tasks are clean.
pub fn round_sums(walks: &Walks, weights: &[BodyWeights], clean: &[bool]) -> Result<Vec<RoundSums>>
    requires { AreWeights walks.now.app weights.now }
    ensures { IfOk result (λ sums. AreRoundSums walks.now.config walks.now.app clean.now weights.now sums.items) }
{
    let rounds = walks.whole_sums(weights, Kind::Rounds)?;
    let turns = turns(walks, weights, clean)?;
    let mut sums = Vec::new(walks.alloc());
    for task in 0..walks.tasks() {
        let sum = task_rounds(walks, weights, &rounds, &turns, clean, task);
        push(&mut sums, sum)?;
    }
    Ok(sums)
}

// How often rounds of all tasks do what counts, by their tops; nothing where none does.
fn top_sums(walks: &Walks, clean: &[bool], tops: &[u64], counted: Counted) -> Result<Vec<RoundSums>>
    requires { AreTaskTops walks.now.config walks.now.app counted tops.now }
    ensures { IfOk result (λ sums. AreCountedSums walks.now.config walks.now.app clean.now counted sums.items) }
{
    let app = walks.app();
    if !some_top(tops) {
        return Ok(Vec::new(walks.alloc()));
    }
    let weights = counted_weights(walks.alloc(), app, counted)?;
    round_sums(walks, &weights, clean)
}

/// How often at most, where it may be more than once; none where there is no limit.
pub fn many(sum: Sum) -> Option<u32>
    ensures { result ≡ many sum }
{
    match sum {
        Sum::Counts(count) => Some(count),
        Sum::Huge | Sum::Endless => None,
    }
}

// How often at most, once where `once` says so.
fn made(once: bool, sum: Sum) -> Option<u32>
    ensures { result ≡ made once sum }
{
    match sum {
        Sum::Counts(count) if once => Some(count.min(1)),
        Sum::Counts(count) => Some(count),
        _ if once => Some(1),
        _ => None,
    }
}

// Whether the task that is made cannot run between two makings of a round.
fn is_once(walks: &Walks, steady: &[bool], maker: usize, named: usize) -> bool
    requires maker { maker < length walks.now.config.tasks }
    requires named { named < length walks.now.config.tasks }
    ensures { result ≡ (leb (static_priority walks.now.config named)
        (static_priority walks.now.config maker) || get_or steady.now maker false) }
{
    walks.priority(named) <= walks.priority(maker) || is_marked(steady, maker)
}

/// The sums of a task; none behind the last one.
pub fn numbered_sums(list: &[RoundSums], task: usize) -> RoundSums
    ensures { result ≡ get_or list.now task no_sums }
{
    list.get(task).copied().unwrap_or(both(Sum::Counts(0)))
}

// Of itself its own ChainTask counts.
fn run_making(once: bool, own: bool, chain: RoundSums, other: RoundSums, set: RoundSums) -> Makings
    ensures { result ≡ run_making once (cond own chain other) set }
{
    let activations = if own { chain } else { other };
    Makings {
        first_activations: made(once, activations.first),
        first_settings: made(false, set.first),
        next_activations: made(once, activations.later),
        next_settings: made(false, set.later),
    }
}

// How often rounds make one task Ready, of each task.
fn row(walks: &Walks, clean: &[bool], steady: &[bool], tops: &NamingTops, j: usize) -> Row<Makings>
    requires named { j < length walks.now.config.tasks }
    requires clean { AreCleanMarks walks.now.config walks.now.app clean.now }
    requires steady { AreSteadyMarks walks.now.config walks.now.app steady.now }
    requires tops { AreNamingTops walks.now.config walks.now.app j tops.now }
    requires few { length walks.now.config.tasks ≤ task_limit }
    ensures { IfOk result (AreMakingRow walks.now.config walks.now.app j) }
{
    let named = j as u32;
    let activations = top_sums(
        walks,
        clean,
        tops.either.items(),
        Counted::Activations(named),
    )?;
    let chains = top_sums(walks, clean, tops.chain.items(), Counted::Chains(named))?;
    let settings = top_sums(walks, clean, tops.setting.items(), Counted::Settings(named))?;
    let mut row = Vec::new(walks.alloc());
    for maker in 0..walks.tasks() {
        let once = is_once(walks, steady, maker, j);
        let own = numbered_sums(&chains, maker);
        let other = numbered_sums(&activations, maker);
        let set = numbered_sums(&settings, maker);
        push(&mut row, run_making(once, maker == j, own, other, set))?;
    }
    Ok(List::from_vec(row))
}

/// How often rounds make tasks Ready, by the task that is made.
pub fn makings(walks: &Walks, clean: &[bool], steady: &[bool], all: &[NamingTops]) -> Table<Makings>
    requires clean { AreCleanMarks walks.now.config walks.now.app clean.now }
    requires steady { AreSteadyMarks walks.now.config walks.now.app steady.now }
    requires tops { AreAllNamingTops walks.now.config walks.now.app all.now }
    ensures { IfOk result (AreMakingTable walks.now.config walks.now.app) }
{
    let mut table = Vec::new(walks.alloc());
    for named in 0..walks.tasks() {
        let row = row(walks, clean, steady, numbered_tops(all, named), named)?;
        push(&mut table, row)?;
    }
    Ok(List::from_vec(table))
}
