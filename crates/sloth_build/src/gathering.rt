//! All routines of an image: the prologues of all tasks, the ticks of all counters, the services that are wanted.
//! The builder. The image of a configuration and its task code.
ghost use Rattle.std.specs.Prelude.{◌≡◌, ◌++◌, [], IfOk, OnOk, ◌<◌, length, IfErr, map};
ghost use Rattle.sloth_base.specs.Blocks.{block_count};
ghost use Rattle.sloth_base.specs.ConfigRange.{InRange};
ghost use Rattle.sloth_link.specs.Image.{MayLink};
ghost use Rattle.sloth_build.specs.Gathered.{MayGenerate, IsGathered, MayBuild};
ghost use Rattle.sloth_build.specs.Prologues.{MayStartTasks, IsPrologue, Each};
ghost use Rattle.sloth_build.specs.Services.{IsServiceNumber, AreServed, IsService, AreServices};
ghost use Rattle.sloth_build.specs.Ticks.{IsTickBlock};
ghost use Rattle.sloth_base.specs.ImageRange.{InFormat};
ghost use Rattle.code_rules.specs.AppRange.{AppInRange};
ghost use Rattle.rv32_expand.specs.InPlace.{ItemsInPlace};
ghost use Rattle.sim_induction.specs.Sound.{Sound};
ghost use Rattle.sim_induction.specs.Weighed.{Weighed};
ghost use Rattle.sim_induction.specs.Paced.{InPace};
ghost use Rattle.sim_relation.specs.Bounds.{AreBelow};
ghost use Rattle.sim_laws.specs.TaskStates.{HasTaskStates};
ghost use Rattle.sloth_build.specs.ImageOf.{HasPlannedMap, IsOfPlannedMap};
ghost use Rattle.sloth_source.specs.Texts.{AreAccepted, SourcesErrorIs};
ghost use Rattle.sloth_base.specs.DeclaredNames.{task_names, counter_names, function_names};

use mem_map::{plan, wanted_blocks};
use prio_levels::assign;
use rv32_instr::Block;
use service_gen::{block, tick};
use sloth_base::{
    App, BLOCK_COUNT, Bounds, BuildError, Config, Image, Levels, Result, TaskId, block_object,
    block_service,
};
use sloth_link::link;
use sloth_region::Map;
use sloth_source::{Source, read};
use std::alloc::Global;
use text_pieces::push;
use vector_gen::{boot, idle, prologue, vectors};

/// Blocks in the order of their addresses.
type Blocks = Result<Vec<Block>>;

fn append(blocks: &mut Vec<Block>, mut more: Vec<Block>) -> Result<()>
    ensures { OnOk result (blocks.new.items ≡ blocks.old.items ++ more.items) }
{
    blocks.append(&mut more)?;
    Ok(())
}

// Appends all routines where there is no block yet. (What is lent is not let go on each way out.)
fn append_all(
    alloc: Global,
    config: &Config,
    app: &App,
    levels: &Levels,
    map: &Map,
    blocks: &mut Vec<Block>,
) -> Result<()>
    requires may { MayGenerate config.now app.now levels.now map.now }
    requires none { blocks.old.items ≡ [] }
    ensures gathered { OnOk result (IsGathered config.now app.now levels.now map.now blocks.new.items) }
    ensures linkable { OnOk result (MayLink config.now app.now map.now blocks.new.items) }
{
    push(blocks, vectors(alloc, map)?)?;
    push(blocks, boot(alloc, config, levels, map)?)?;
    push(blocks, idle(alloc, map)?)?;
    append(blocks, prologues(alloc, config, app, levels, map)?)?;
    append(blocks, ticks(alloc, config, levels, map)?)?;
    let wanted = wanted_blocks(app);
    append(blocks, services(alloc, &wanted, config, levels, map)?)?;
    Ok(())
}

/// All routines in the order of their addresses: the vector words, boot, the idle loop, the prologue of each task, the
/// tick of each counter, and each service that an item calls; they may be linked by the map.
pub fn gather(alloc: Global, config: &Config, app: &App, levels: &Levels, map: &Map) -> Blocks
    requires { MayGenerate config.now app.now levels.now map.now }
    ensures gathered { IfOk result (λ blocks. IsGathered config.now app.now levels.now map.now blocks.items) }
    ensures linkable { IfOk result (λ blocks. MayLink config.now app.now map.now blocks.items) }
{
    let mut blocks = Vec::new(alloc);
    append_all(alloc, config, app, levels, map, &mut blocks)?;
    Ok(blocks)
}

/// The tick of each counter, in the order of the counters.
pub fn ticks(alloc: Global, config: &Config, levels: &Levels, map: &Map) -> Blocks
    requires { InRange config.now }
    ensures count { IfOk result (λ blocks. length blocks.items ≡ length config.now.counters) }
    ensures each { IfOk result (λ blocks. Each (IsTickBlock config.now map.now) blocks.items) }
{
    let mut blocks = Vec::new(alloc);
    let count = config.counters.items().len() as u32;
    for counter in 0..count {
        push(&mut blocks, tick(alloc, counter, config, levels, map)?)?;
    }
    Ok(blocks)
}

/// The prologue of each task, in the order of the tasks.
pub fn prologues(alloc: Global, config: &Config, app: &App, levels: &Levels, map: &Map) -> Blocks
    requires may_start { MayStartTasks config.now app.now levels.now map.now }
    ensures count { IfOk result (λ blocks. length blocks.items ≡ length config.now.tasks) }
    ensures each { IfOk result (λ blocks. Each (IsPrologue config.now app.now levels.now map.now) blocks.items) }
{
    let mut blocks = Vec::new(alloc);
    let count = config.tasks.items().len() as u32;
    for task in 0..count {
        push(
            &mut blocks,
            prologue(alloc, TaskId(task), config, app, levels, map)?,
        )?;
    }
    Ok(blocks)
}

// The code of a service by its place.
fn served(alloc: Global, place: usize, config: &Config, levels: &Levels, map: &Map) -> Result<Block>
    requires served { IsServiceNumber config.now place }
    requires range { InRange config.now }
    requires below { place < block_count }
    ensures { IfOk result (IsService config.now levels.now map.now place) }
{
    match block_service(place) {
        Some(service) => block(alloc, service, block_object(place), config, levels, map),
        None => unreachable!(),
    }
}

/// The code of each wanted service (by its place in the table of blocks), in the order of the table.
pub fn services(
    alloc: Global,
    wanted: &[bool; BLOCK_COUNT],
    config: &Config,
    levels: &Levels,
    map: &Map,
) -> Blocks
    requires served { AreServed config.now wanted.now }
    requires range { InRange config.now }
    ensures { IfOk result (λ blocks. AreServices config.now levels.now map.now wanted.now blocks.items) }
{
    let mut blocks = Vec::new(alloc);
    for number in 0..BLOCK_COUNT {
        if wanted[number] {
            push(&mut blocks, served(alloc, number, config, levels, map)?)?;
        }
    }
    Ok(blocks)
}

/// What is built of a configuration and its task code.
pub struct Built {
    pub config: Config,
    pub app: App,
    pub image: Image,
}

// Written out: what is derived is proved anew wherever a value is let go.
impl Drop for Built {
    fn drop(self) {
        let Built {
            config: _,
            app: _,
            image: _,
        } = self;
    }
}

/// Builds the image of a configuration and its task source, each a text of at most 4,294,967,294 bytes.
pub fn build(alloc: Global, oil: &[u8], src: &[u8]) -> Result<Built, BuildError>
    requires oil { length oil.now < 4294967295 }
    requires src { length src.now < 4294967295 }
    ensures accepted { IfOk result (λ built. AreAccepted oil.now src.now built.config built.app) }
    ensures in_range { IfOk result (λ built. AppInRange built.config built.app) }
    ensures sound { IfOk result (λ built. Sound built.config built.app built.image) }
    ensures weighed { IfOk result (λ built. Weighed built.config built.app built.image) }
    ensures paced { IfOk result (λ built. InPace built.config built.app built.image) }
    ensures shows { IfOk result (λ built. HasTaskStates built.config built.app built.image) }
    ensures items { IfOk result (λ built. ItemsInPlace built.image built.config built.app) }
    ensures format { IfOk result (λ built. InFormat built.image) }
    ensures bytes { IfOk result (λ built. AreBelow 256 built.image.memory) }
    ensures tasks { IfOk result (λ built. built.image.tasks ≡ map (λ t. t.name) built.config.tasks) }
    ensures functions { IfOk result (λ built. built.image.funcs ≡ map (λ f. f.name) built.app.funcs) }
    ensures counters { IfOk result (λ built. built.image.counters ≡ map (λ c. c.name) built.config.counters) }
    ensures planned { IfOk result (λ built. HasPlannedMap built.config built.app built.image) }
    ensures refused { IfErr result (SourcesErrorIs oil.now src.now) }
{
    let Source {
        config,
        app,
        bounds,
    } = read(alloc, oil, src)?;
    let image = image(alloc, &config, &app, &bounds)?;
    Ok(Built { config, app, image })
}

/// The image of well-formed task code, with the bytes of stack that its tasks may need: every run of it is one of the
/// abstract scheduler, no stretch of it takes more counts than its weight, each event ends soon behind the one before
/// it by its weight and the lengths of the items, and its items are in place.
pub fn image(alloc: Global, config: &Config, app: &App, bounds: &Bounds) -> Result<Image>
    requires { MayBuild config.now app.now bounds.now }
    ensures sound { IfOk result (λ image. Sound config.now app.now image) }
    ensures weighed { IfOk result (λ image. Weighed config.now app.now image) }
    ensures paced { IfOk result (λ image. InPace config.now app.now image) }
    ensures shows { IfOk result (λ image. HasTaskStates config.now app.now image) }
    ensures items { IfOk result (λ image. ItemsInPlace image config.now app.now) }
    ensures format { IfOk result InFormat }
    ensures bytes { IfOk result (λ image. AreBelow 256 image.memory) }
    ensures tasks { IfOk result (λ image. image.tasks ≡ task_names config.now) }
    ensures functions { IfOk result (λ image. image.funcs ≡ function_names app.now) }
    ensures counters { IfOk result (λ image. image.counters ≡ counter_names config.now) }
    ensures planned { IfOk result (IsOfPlannedMap config.now app.now bounds.now) }
{
    let levels = assign(config);
    let map = plan(alloc, app, config, bounds)?;
    let blocks = gather(alloc, config, app, &levels, &map)?;
    let image = link(alloc, &blocks, app, config, &map)?;
    Ok(image)
}
