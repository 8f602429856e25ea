//! The faults in the blocks of alarms (O9 to O12).
ghost use Rattle.std.specs.Prelude.{◌≡◌, [], OnOk};
ghost use Rattle.sloth_base.specs.declared.refusal.Part.TheVariants.{Oil};
ghost use Rattle.sloth_base.specs.Search.{Somewhere};
ghost use Rattle.oil_rules.specs.Blocks.{blocks_of};
ghost use Rattle.oil_table.specs.AlarmCounters.{limits_of};
ghost use Rattle.oil_rules.specs.AlarmFaults.{InsideFault, BlockFault, AlarmFault};
ghost use Rattle.stage_faults.specs.Told.{Adds};

use crate::notes::{add_bare, add_placed};
use crate::oil_attributes::value_word;
use crate::{Notes, Position};
use oil_parse::{OilAttr, OilObject};
use oil_rules::blocks::is_unlisted;
use oil_rules::{Block, NamedTask, blocks_of, lacks_part};
use oil_table::{
    CounterLimits, EarlierUses, Limits, Place, TaskEvents, attribute_of, block_place, is_beyond,
    is_of_kind, is_second,
};
use sloth_base::{Code, Result};
use std::alloc::Global;

// ---- a block

// Where a fault of an attribute stands.
#[derive(Clone, Copy)]
struct Spot {
    own: Position,
    // The end of the block: O10 stands there, behind what is O10 by itself.
    end: Position,
}

fn add_inner_fault<'t>(
    notes: &mut Notes<'t>,
    limits: Limits,
    place: Place,
    block: &NamedTask,
    before: &EarlierUses,
    spot: Spot,
    attr: &'t OilAttr,
) -> Result<()>
    requires { before.now.depth ≡ 1 }
    ensures { OnOk result
        (Adds Oil (InsideFault block.now.objects limits place block.now.inner before.now.attrs attr.now)
        notes.old.items notes.new.items) }
{
    let line = attr.line;
    let name = attr.name.bytes();
    let row = attribute_of(place, name);
    let second = is_second(row, before, attr);
    add_placed(notes, second, line, Code::O9, name, spot.own)?;
    let unlisted = is_unlisted(place, block, attr);
    let word = value_word(&attr.value);
    add_placed(notes, unlisted, line, Code::O10, word, spot.end)?;
    let beyond = is_beyond(limits, row, attr);
    add_placed(notes, beyond, line, Code::O12, name, spot.own)
}

fn add_inner_faults<'t>(
    alloc: Global,
    notes: &mut Notes<'t>,
    limits: Limits,
    place: Place,
    block: &NamedTask,
    head: Position,
    attrs: &'t [OilAttr],
) -> Result<()>
    requires { attrs.now ≡ block.now.inner }
    ensures { OnOk result
        (Adds Oil (Somewhere (InsideFault block.now.objects limits place block.now.inner) block.now.inner)
        notes.old.items notes.new.items) }
{
    let end = head.behind(attrs.len());
    let mut before = EarlierUses::new(alloc, 1);
    for (number, attr) in attrs.iter().enumerate() {
        let own = head.behind(number + 1);
        let spot = Spot { own, end };
        add_inner_fault(notes, limits, place, block, &before, spot, attr)?;
        before = before.with(&attrs[..=number], attr)?;
    }
    Ok(())
}

fn add_block<'t>(
    alloc: Global,
    notes: &mut Notes<'t>,
    tasks: &TaskEvents,
    limits: Limits,
    head: Position,
    block: &Block<'t>,
) -> Result<()>
    ensures { OnOk result (Adds Oil (BlockFault tasks.now limits [] block.now) notes.old.items notes.new.items) }
{
    let place = block_place(Place::Alarm, block.head());
    let inner = block.inner();
    let named = NamedTask::new(tasks, inner);
    add_inner_faults(alloc, notes, limits, place, &named, head, inner)
}

fn add_blocks<'t>(
    alloc: Global,
    notes: &mut Notes<'t>,
    tasks: &TaskEvents,
    limits: Limits,
    own: Position,
    blocks: &[Block<'t>],
) -> Result<()>
    ensures { OnOk result
        (Adds Oil (Somewhere (BlockFault tasks.now limits) blocks.now) notes.old.items notes.new.items) }
{
    let mut head = own.behind(1);
    for block in blocks {
        add_block(alloc, notes, tasks, limits, head, block)?;
        head = head.behind(block.inner().len()).behind(1);
    }
    Ok(())
}

// ---- an alarm

fn add_in_blocks<'t>(
    alloc: Global,
    notes: &mut Notes<'t>,
    tasks: &TaskEvents,
    counters: &CounterLimits,
    own: Position,
    alarm: &'t OilObject,
) -> Result<()>
    requires { counters.now ≡ tasks.now }
    ensures { OnOk result
        (Adds Oil (Somewhere (BlockFault tasks.now (limits_of tasks.now alarm.now.attrs)) (blocks_of alarm.now.attrs))
        notes.old.items notes.new.items) }
{
    let attrs = alarm.attrs.items();
    let limits = counters.limits_of(attrs);
    let blocks = blocks_of(alloc, attrs)?;
    add_blocks(alloc, notes, tasks, limits, own, blocks.as_slice())
}

fn add_alarm<'t>(
    alloc: Global,
    notes: &mut Notes<'t>,
    tasks: &TaskEvents,
    counters: &CounterLimits,
    own: Position,
    object: &'t OilObject,
) -> Result<()>
    requires { counters.now ≡ tasks.now }
    ensures { OnOk result (Adds Oil (AlarmFault tasks.now [] object.now) notes.old.items notes.new.items) }
{
    if !is_of_kind(object, b"ALARM") {
        return Ok(());
    }
    let lacking = lacks_part(object.attrs.items());
    add_bare(notes, lacking, object.line, Code::O11)?;
    add_in_blocks(alloc, notes, tasks, counters, own, object)
}

/// The faults in the blocks of the alarms among these objects.
pub fn add_alarms<'t>(
    alloc: Global,
    notes: &mut Notes<'t>,
    tasks: &TaskEvents,
    counters: &CounterLimits,
    objects: &'t [OilObject],
) -> Result<()>
    requires { counters.now ≡ tasks.now }
    ensures { OnOk result (Adds Oil (Somewhere (AlarmFault tasks.now) objects.now) notes.old.items notes.new.items) }
{
    for (number, object) in objects.iter().enumerate() {
        let own = Position::of(number);
        add_alarm(alloc, notes, tasks, counters, own, object)?;
    }
    Ok(())
}
