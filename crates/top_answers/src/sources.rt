//! Public calls on a configuration's texts and task code: rules, stack bytes, generators, abstract scheduler.
ghost use Rattle.std.specs.Prelude.{◌≡◌, ◌<◌, length};
ghost use Rattle.code_rules.specs.AppRange.{IsTaskCode};
ghost use Rattle.code_rules.specs.WellFormed.{WellFormed};
ghost use Rattle.rv32_expand.specs.Sizes.{AgreeWithSizes, HasWordAddresses, IsVerified};
ghost use Rattle.sloth_base.specs.Named.{function};
ghost use Rattle.sloth_build.specs.Gathered.{MayBuild};
ghost use Rattle.sloth_link.specs.Image.{MayLink};

use crate::rows::Piece::{Address, Flag};
use crate::rows::{Rows, Told};
use crate::task_code::list_stacks;
use crate::texts::{Texts, short};
use osek_machine::Osek;
use rv32_instr::Block;
use sloth_base::{App, Bounds, Config, Event, Item, Places, TaskId};
use sloth_build::build;
use sloth_region::Map;
use sloth_source::{read, read_checked};
use stack_bounds::bound;

// How much there is of each kind.
fn list_sizes(rows: &mut Rows, config: &Config, app: &App) {
    let (tasks, funcs) = (config.tasks.items().len(), app.funcs.items().len());
    form!(rows; "tasks % functions % symbols %\n"; ; tasks, funcs, app.symbols.items().len())
}

// The items of the first function.
fn first_items(app: &App) -> &[Item]
    requires { 0 < length app.now.funcs }
    ensures { result.now ≡ (function app.now 0).items }
{
    app.funcs.items()[0].items.items()
}

// The code of the first item of the first function.
fn list_first_item(rows: &mut Rows, app: &App, places: &Places)
    requires in_range { IsTaskCode app.now }
    requires verified { IsVerified app.now }
    requires covers { HasWordAddresses app.now places.now }
    requires agree { AgreeWithSizes app.now places.now }
{
    if app.funcs.items().len() == 0 {
        return;
    }
    let items = first_items(app);
    if items.len() == 0 {
        return;
    }
    let code = rv32_expand::expand(&items[0], 0, 0, app, places);
    rows.numbers("item", &[code.len, rv32_expand::length(&items[0], app)])
}

// The address of each routine and how many words it has, the code of an item, and the length of the image of these
// routines with the items and symbols of the task code.
fn list_parts(rows: &mut Rows, config: &Config, app: &App, map: &Map, blocks: &[Block]) -> Told
    requires { MayLink config.now app.now map.now blocks.now }
{
    for block in blocks {
        form!(rows; "routine % %\n"; Address(block.at); block.code.items().len());
    }
    list_first_item(rows, app, &map.places);
    let image = sloth_link::link(rows.alloc, blocks, app, config, map)?;
    form!(rows; "image % marks %\n"; ; image.memory.items().len(), image.marks.items().len());
    Ok(())
}

// What the generators give of task code.
fn list_generated(rows: &mut Rows, config: &Config, app: &App, bounds: &Bounds) -> Told
    requires { MayBuild config.now app.now bounds.now }
{
    let levels = prio_levels::assign(config);
    let map = mem_map::plan(rows.alloc, app, config, bounds)?;
    let blocks = sloth_build::gathering::gather(rows.alloc, config, app, &levels, &map)?;
    list_parts(rows, config, app, &map, blocks.as_slice())
}

// Whether the abstract scheduler's first steps have a next state, and the states of the first two tasks behind them.
fn list_scheduler(rows: &mut Rows, config: &Config, app: &App) -> Told
    requires { WellFormed config.now app.now }
{
    let mut osek = Osek::boot(rows.alloc, config, app)?;
    let boot = osek.step(&Event::Boot).is_ok();
    let idle = osek.step(&Event::Idle).is_ok();
    form!(rows; "boot % idle %\n"; Flag(boot), Flag(idle));
    for task in 0..2 {
        if (task as usize) < osek.task_count() {
            rows.debug(&osek.state(TaskId(task)));
            rows.text("\n");
        }
    }
    Ok(())
}

// What the rules, the generators or the abstract scheduler give of what both texts mean.
fn list_meaning(rows: &mut Rows, asked: &str, config: &Config, app: &App, bounds: &Bounds) -> Told
    requires { MayBuild config.now app.now bounds.now }
{
    match asked {
        "sizes" => list_sizes(rows, config, app),
        "levels" => {
            let levels = prio_levels::assign(config);
            form!(rows; "levels % % % %\n"; ; levels.task[0], levels.task[1], levels.ceiling[0], levels.top)
        }
        "generated" => return list_generated(rows, config, app, bounds),
        _ => return list_scheduler(rows, config, app),
    }
    Ok(())
}

/// What public calls give of the OIL text and the task source: of what both mean, or of what is `built` of them.
pub fn list_sources(rows: &mut Rows, asked: &str, texts: &Texts) -> Told {
    let (oil, src) = (short(&texts.oil)?, short(&texts.src)?);
    if asked == "built" {
        let built = build(rows.alloc, oil, src)?;
        list_sizes(rows, &built.config, &built.app);
        return Ok(());
    }
    if asked == "judged" {
        let checked = read_checked(rows.alloc, oil, src)?;
        let (tasks, funcs) = (
            checked.verified.config().tasks.items().len(),
            checked.verified.app().funcs.items().len(),
        );
        form!(rows; "verified % %\n"; ; tasks, funcs);
        let bounds = bound(rows.alloc, &checked.verified, &checked.ranks)?;
        list_stacks(rows, &bounds, &[]);
        return Ok(());
    }
    let source = read(rows.alloc, oil, src)?;
    list_meaning(rows, asked, &source.config, &source.app, &source.bounds)
}
