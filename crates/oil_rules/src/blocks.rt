//! The blocks of an object's attributes.
//! What the action and the start of an alarm lack, and which event its task does not list.
//! The faults of the attributes in the blocks of an alarm. The faults in the blocks of alarms.
ghost use Rattle.std.specs.Prelude.{◌≡◌, ◌≤◌, IfOk, length, option_copied, []};
ghost use Rattle.std.specs.List.{take_while, prefix_len};
ghost use Rattle.oil_rules.specs.Blocks.{is_inner, blocks_of, first_block, is_inner_use, is_used_in, first_in, number_in};
ghost use Rattle.oil_rules.specs.AlarmFaults.{lacks_behind, lacks_part, is_unlisted, InsideFault, BlockFault, AlarmFault};
ghost use Rattle.sloth_base.specs.Search.{IsSearchResult, Somewhere};

use crate::{NamedTask, Verdict};
use oil_parse::{OilAttr, OilObject};
use oil_table::{
    CounterLimits, EarlierUses, Limits, Place, TaskEvents, attribute_of, block_place, first_use,
    is_beyond, is_of_kind, is_second, is_use, number_of,
};
use sloth_base::refusal::{fault_if, merge};
use sloth_base::{Code, Part, Refusal, Result};
use std::alloc::Global;
use std::marker::Model;
use text_pieces::{push, same};

/// An attribute of an object's own block, and those in the block behind its value.
#[derive(Drop)]
pub struct Block<'t> {
    head: &'t OilAttr,
    inner: &'t [OilAttr],
}

impl<'t> Model for Block<'t> {
    ghost use Rattle.oil_rules.specs.Blocks.{BlockText};

    ghost Value = { BlockText };

    ghost view = { λ block. record { head = block.head.now; inner = block.inner.now } };
}

impl<'t> Block<'t> {
    /// The attribute in front.
    pub fn head(&self) -> &'t OilAttr
        ensures { result.now ≡ self.now.head }
    {
        self.head
    }

    /// The attributes behind its value.
    pub fn inner(&self) -> &'t [OilAttr]
        ensures { result.now ≡ self.now.inner }
    {
        self.inner
    }
}

fn count_inner(attrs: &[OilAttr]) -> usize
    ensures value { result ≡ prefix_len is_inner attrs.now }
    ensures within { result ≤ length attrs.now }
{
    for (n, attr) in attrs.iter().enumerate() {
        if attr.depth == 0 {
            return n;
        }
    }
    attrs.len()
}

fn inner_attrs(attrs: &[OilAttr]) -> &[OilAttr]
    ensures { result.now ≡ take_while is_inner attrs.now }
{
    &attrs[..count_inner(attrs)]
}

/// The blocks of these attributes.
pub fn blocks_of<'t>(alloc: Global, attrs: &'t [OilAttr]) -> Result<Vec<Block<'t>>>
    ensures { IfOk result (λ blocks. blocks.items ≡ blocks_of attrs.now) }
{
    let mut blocks = Vec::new(alloc);
    for (n, head) in attrs.iter().enumerate() {
        if head.depth != 0 {
            continue;
        }
        let inner = inner_attrs(&attrs[n + 1..]);
        push(&mut blocks, Block { head, inner })?;
    }
    Ok(blocks)
}

/// The block behind the first use of an attribute; empty where it is not used.
pub fn first_block<'t>(attrs: &'t [OilAttr], name: &[u8]) -> &'t [OilAttr]
    ensures { result.now ≡ first_block name.now attrs.now }
{
    for (n, attr) in attrs.iter().enumerate() {
        if is_use(attr, name) {
            return inner_attrs(&attrs[n + 1..]);
        }
    }
    &[]
}

/// Whether this is a use of the attribute in a block itself.
pub fn is_inner_use(attr: &OilAttr, name: &[u8]) -> bool
    ensures { result ≡ is_inner_use name.now attr.now }
{
    attr.depth == 1 && same(attr.name.bytes(), name)
}

/// Whether the attribute is used in a block.
pub fn is_used_in(inner: &[OilAttr], name: &[u8]) -> bool
    ensures { result ≡ is_used_in inner.now name.now }
{
    inner.iter().any(|attr| is_inner_use(attr, name))
}

/// The first use in a block.
pub fn first_in<'t>(inner: &'t [OilAttr], name: &[u8]) -> Option<&'t OilAttr>
    ensures { option_copied result ≡ first_in inner.now name.now }
{
    inner.iter().find(|attr| is_inner_use(attr, name))
}

/// The number of the first use in a block.
pub fn number_in(inner: &[OilAttr], name: &[u8]) -> Option<u32>
    ensures { result ≡ number_in inner.now name.now }
{
    match first_in(inner, name) {
        Some(attr) => number_of(&attr.value),
        None => None,
    }
}

fn lacks_behind(attrs: &[OilAttr], name: &[u8]) -> bool
    ensures { result ≡ lacks_behind name.now attrs.now }
{
    let Some(attr) = first_use(attrs, name) else {
        return false;
    };
    let inner = first_block(attrs, name);
    match block_place(Place::Alarm, attr) {
        Place::Activating => !is_used_in(inner, b"TASK"),
        Place::Setting => !(is_used_in(inner, b"TASK") && is_used_in(inner, b"EVENT")),
        Place::Wakeup => !(is_used_in(inner, b"ALARMTIME") && is_used_in(inner, b"CYCLETIME")),
        _ => false,
    }
}

/// Whether the action or the start of an alarm lacks a required attribute.
pub fn lacks_part(attrs: &[OilAttr]) -> bool
    ensures { result ≡ lacks_part attrs.now }
{
    lacks_behind(attrs, b"ACTION") || lacks_behind(attrs, b"AUTOSTART")
}

/// Whether the attribute is an event of an action that its task does not list.
pub fn is_unlisted(place: Place, block: &NamedTask, attr: &OilAttr) -> bool
    ensures { result ≡ is_unlisted block.now.objects place block.now.inner attr.now }
{
    matches!(place, Place::Setting) && is_inner_use(attr, b"EVENT") && block.leaves_out(&attr.value)
}

fn inner_fault(
    limits: Limits,
    place: Place,
    block: &NamedTask,
    before: &EarlierUses,
    attr: &OilAttr,
) -> Option<Refusal>
    requires { before.now.depth ≡ 1 }
    ensures { IsSearchResult (InsideFault block.now.objects limits place block.now.inner before.now.attrs attr.now)
        result }
{
    let line = attr.line;
    let row = attribute_of(place, attr.name.bytes());
    let second = fault_if(is_second(row, before, attr), Part::Oil, line, Code::O9);
    let unlisted = fault_if(is_unlisted(place, block, attr), Part::Oil, line, Code::O10);
    let beyond = fault_if(is_beyond(limits, row, attr), Part::Oil, line, Code::O12);
    merge(second, merge(unlisted, beyond))
}

fn inner_faults(alloc: Global, limits: Limits, place: Place, block: &NamedTask) -> Verdict
    ensures { IfOk result
        (IsSearchResult (Somewhere (InsideFault block.now.objects limits place block.now.inner) block.now.inner)) }
{
    let attrs = block.inner();
    let mut before = EarlierUses::new(alloc, 1);
    let mut least = None;
    for (number, attr) in attrs.iter().enumerate() {
        let found = inner_fault(limits, place, block, &before, attr);
        least = merge(least, found);
        before = before.with(&attrs[..=number], attr)?;
    }
    Ok(least)
}

fn block_fault(alloc: Global, tasks: &TaskEvents, limits: Limits, block: &Block) -> Verdict
    ensures { IfOk result (IsSearchResult (BlockFault tasks.now limits [] block.now)) }
{
    let place = block_place(Place::Alarm, block.head());
    let found = inner_faults(alloc, limits, place, &NamedTask::new(tasks, block.inner()))?;
    Ok(found)
}

/// O9, O10 and O12 in these blocks of an alarm.
pub fn block_faults(alloc: Global, tasks: &TaskEvents, limits: Limits, blocks: &[Block]) -> Verdict
    ensures { IfOk result (IsSearchResult (Somewhere (BlockFault tasks.now limits) blocks.now)) }
{
    let mut least = None;
    for block in blocks {
        let found = block_fault(alloc, tasks, limits, block)?;
        least = merge(least, found);
    }
    Ok(least)
}

fn alarm_faults(
    alloc: Global,
    tasks: &TaskEvents,
    counters: &CounterLimits,
    object: &OilObject,
) -> Verdict
    requires { counters.now ≡ tasks.now }
    ensures { IfOk result (IsSearchResult (AlarmFault tasks.now [] object.now)) }
{
    if !is_of_kind(object, b"ALARM") {
        return Ok(None);
    }
    let attrs = object.attrs.items();
    let lacking = fault_if(lacks_part(attrs), Part::Oil, object.line, Code::O11);
    let blocks = blocks_of(alloc, attrs)?;
    let found = block_faults(alloc, tasks, counters.limits_of(attrs), blocks.as_slice())?;
    Ok(merge(lacking, found))
}

fn judge_alarms(
    alloc: Global,
    tasks: &TaskEvents,
    counters: &CounterLimits,
    objects: &[OilObject],
) -> Verdict
    requires { counters.now ≡ tasks.now }
    ensures { IfOk result (IsSearchResult (Somewhere (AlarmFault tasks.now) objects.now)) }
{
    let mut least = None;
    for object in objects {
        let found = alarm_faults(alloc, tasks, counters, object)?;
        least = merge(least, found);
    }
    Ok(least)
}

/// The least fault in the blocks of the alarms among these objects.
pub fn faults_of_alarms(alloc: Global, objects: &[OilObject]) -> Verdict
    ensures { IfOk result (IsSearchResult (Somewhere (AlarmFault objects.now) objects.now)) }
{
    let tasks = TaskEvents::of(alloc, objects)?;
    let counters = CounterLimits::of(alloc, objects)?;
    judge_alarms(alloc, &tasks, &counters, objects)
}
