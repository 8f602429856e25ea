//! The lines of one task's bound, from the texts. The lines of ways. The blocking bound of each task.
ghost use Rattle.std.specs.Prelude.{◌≡◌, ◌<◌, length, get_or, IfOk, IfErr, ◌++◌, OnOk};
ghost use Rattle.call_graph.specs.Ranks.{RanksOf};
ghost use Rattle.sloth_source.specs.TaskNames.{task_named};
ghost use Rattle.sloth_source.specs.Texts.{SourcesErrorIs};
ghost use Rattle.bound_rules.specs.declared.bound.Bound.TheVariants as bound_is;
ghost use Rattle.bounds_text.specs.Bounds.{AreToldBounds, IsTold, is_below, blocking_bound};
ghost use Rattle.section_ways.specs.ShownWays.{IsShown};
ghost use Rattle.bounds_text.specs.TaskBound.{way_word, HasBoundLines, HasLinesOf, IsBoundText, point_words, shown_lines};
ghost use Rattle.sloth_base.specs.Named.{function, item_of};
ghost use Rattle.call_graph.specs.Reached.{any_below};
ghost use Rattle.walk_sums.specs.Weights.{item_weights};
ghost use Rattle.walk_sums.specs.Sections.{AreToldSums};
ghost use Rattle.bounds_text.specs.Kept.{RunsKeepTold};

use crate::task_lines::bound_line;
pub use bound_rules::Bound;
use bound_rules::told;
use call_graph::Ranks;
use section_ways::{Way, lower_way};
use sloth_base::{App, BuildError, Config, List, Result, TaskDecl};
use sloth_source::{read_checked, task_named};
use std::alloc::Global;
use task_verify::Verified;
use text_pieces::pieces::Piece::{Number, Word};
use text_pieces::{line, push};
use walk_sums::{Point, Sum, Walks, greatest_sum, item_weights, known_code};

fn shown_word(bound: Bound) -> &'static [u8]
    ensures { result.now ≡ way_word bound }
{
    match bound {
        Bound::Items(_) | Bound::Huge => b"way",
        Bound::Endless => b"cycle",
    }
}

// The lines of a task's bound, by those of all tasks and the way that is shown of it.
fn way_bound_lines(
    alloc: Global,
    config: &Config,
    app: &App,
    bounds: &[Bound],
    task: usize,
    way: &Option<Way>,
) -> Result<List<u8>>
    requires bounds { AreToldBounds config.now app.now bounds.now }
    requires there { task < length config.now.tasks }
    requires way { IsShown config.now app.now task (get_or bounds.now task bound_is.Endless) way.now }
    ensures { IfOk result (HasBoundLines config.now app.now task) }
{
    let mut text = bound_line(alloc, config.tasks.items(), bounds, task)?;
    push_shown(&mut text, config, app, shown_word(bounds[task]), way)?;
    Ok(List::from_vec(text))
}

fn walked_lines(walks: &Walks, task: usize) -> Result<List<u8>>
    requires { task < length walks.now.config.tasks }
    ensures { IfOk result (HasBoundLines walks.now.config walks.now.app task) }
{
    let (config, app) = (walks.config(), walks.app());
    let bounds = walked_bounds(walks)?;
    let way = lower_way(walks, task, bounds[task])?;
    let text = way_bound_lines(walks.alloc(), config, app, &bounds, task, &way)?;
    Ok(text)
}

fn named_lines(walks: &Walks, name: &[u8]) -> Result<Option<List<u8>>>
    ensures { IfOk result (HasLinesOf walks.now.config walks.now.app (task_named walks.now.config name.now)) }
{
    let config = walks.config();
    match task_named(config, name) {
        Some(task) => Ok(Some(walked_lines(walks, task)?)),
        None => Ok(None),
    }
}

fn checked_lines(
    alloc: Global,
    verified: &Verified,
    ranks: &Ranks,
    name: &[u8],
) -> Result<Option<List<u8>>, BuildError>
    requires { RanksOf verified.now.app ranks.now }
    ensures text { IfOk result (HasLinesOf verified.now.config verified.now.app
        (task_named verified.now.config name.now)) }
    ensures memory { IfErr result (λ error. error ≡ BuildError.Memory) }
{
    let config = verified.config();
    let app = verified.app();
    let known = known_code(alloc, config, app, ranks)?;
    let walks = Walks::of(alloc, config, app, &known);
    let lines = named_lines(&walks, name)?;
    Ok(lines)
}

/// The lines of the bound of the task of this name, and of what it is made; nothing where no task has the name; of
/// texts of at most 4,294,967,294 bytes; or the first refusal (O1 to O15, A1 to A7, V1 to V12).
pub fn task_bound_text(
    alloc: Global,
    oil: &[u8],
    src: &[u8],
    name: &[u8],
) -> Result<Option<List<u8>>, BuildError>
    requires oil { length oil.now < 4294967295 }
    requires src { length src.now < 4294967295 }
    ensures text { IfOk result (IsBoundText oil.now src.now name.now) }
    ensures refused { IfErr result (SourcesErrorIs oil.now src.now) }
{
    let checked = read_checked(alloc, oil, src)?;
    checked_lines(alloc, &checked.verified, &checked.ranks, name)
}

// The line of the item at a point, 0 where there is none.
fn point_line(app: &App, point: Point) -> u32
    ensures { result ≡ (item_of (function app.now point.func) point.item).line }
{
    match app.funcs.items().get(point.func) {
        Some(func) => {
            let items = func.items.items();
            items.get(point.item).map_or(0, |item| item.line)
        },
        None => 0,
    }
}

fn push_points(text: &mut Vec<u8>, app: &App, points: &[Point]) -> Result<()>
    ensures { OnOk result (text.new.items ≡ text.old.items ++ point_words app.now points.now) }
{
    for point in points {
        line!(text; Word(b" "), Number(point_line(app, *point)))?;
    }
    Ok(())
}

/// The lines of a way, the second with this word, if there is one.
pub fn push_shown<'x>(
    text: &mut Vec<u8>,
    config: &'x Config,
    app: &App,
    word: &'x [u8],
    way: &Option<Way>,
) -> Result<()>
    ensures { OnOk result (text.new.items ≡ text.old.items ++ shown_lines config.now app.now word.now way.now) }
{
    match way {
        Some(way) => {
            let name = config.task_name(way.task);
            line!(text; Word(b"task "), Word(name), Word(b"\n"), Word(word))?;
            push_points(text, app, way.points.items())?;
            line!(text; Word(b"\n"))
        },
        None => Ok(()),
    }
}

/// Whether some task is lower than this priority.
pub fn has_lower(tasks: &[TaskDecl], priority: u32) -> bool
    ensures { result ≡ any_below (length tasks.now) (is_below tasks.now priority) }
{
    let mut lower = false;
    for task in 0..tasks.len() {
        lower = lower || tasks[task].priority < priority;
    }
    lower
}

/// The bound of a task, from the sums of the sections of all tasks for it.
fn blocking_bound(tasks: &[TaskDecl], sums: &[Sum], task: usize) -> Bound
    requires { task < length tasks.now }
    ensures { result ≡ blocking_bound tasks.now sums.now task }
{
    if !has_lower(tasks, tasks[task].priority) {
        return Bound::Items(0);
    }
    match greatest_sum(sums) {
        Sum::Counts(size) => told(size),
        Sum::Huge => Bound::Huge,
        Sum::Endless => Bound::Endless,
    }
}

fn task_bound(walks: &Walks, sums: &[Sum], task: usize) -> Bound
    requires inside { task < length walks.now.config.tasks }
    requires sums { AreToldSums walks.now.config walks.now.app (item_weights walks.now.app) task sums.now }
    ensures { IsTold walks.now.config walks.now.app task result }
{
    blocking_bound(walks.config().tasks.items(), sums, task)
}

/// The bounds of all tasks of walked task code.
pub fn walked_bounds(walks: &Walks) -> Result<Vec<Bound>>
    ensures { IfOk result (λ bounds. AreToldBounds walks.now.config walks.now.app bounds.items) }
{
    let weights = item_weights(walks.alloc(), walks.app())?;
    let mut bounds = Vec::new(walks.alloc());
    for task in 0..walks.tasks() {
        let sums = walks.sums_above(&weights, task)?;
        push(&mut bounds, task_bound(walks, &sums, task))?;
    }
    Ok(bounds)
}

/// The blocking bound of each task in items, or that it is above the greatest that is told, or that there is none.
pub fn bounds(alloc: Global, verified: &Verified, ranks: &Ranks) -> Result<List<Bound>>
    requires { RanksOf verified.now.app ranks.now }
    ensures exact { IfOk result (AreToldBounds verified.now.config verified.now.app) }
    ensures kept { IfOk result (RunsKeepTold verified.now.config verified.now.app) }
{
    let config = verified.config();
    let app = verified.app();
    let known = known_code(alloc, config, app, ranks)?;
    let walks = Walks::of(alloc, config, app, &known);
    let bounds = walked_bounds(&walks)?;
    Ok(List::from_vec(bounds))
}
