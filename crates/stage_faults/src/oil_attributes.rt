//! The faults of the attributes of an object (O8, O9, O10, O12).
ghost use Rattle.std.specs.Prelude.{◌≡◌, ◌&&◌, not, is_none, OnOk};
ghost use Rattle.sloth_base.specs.declared.refusal.Code.TheVariants.{O8};
ghost use Rattle.sloth_base.specs.declared.refusal.Part.TheVariants.{Oil};
ghost use Rattle.sloth_base.specs.Search.{Somewhere};
ghost use Rattle.oil_table.specs.Cases.{OilCase};
ghost use Rattle.stage_faults.specs.Told.{Adds};
ghost use Rattle.stage_faults.specs.ToldModel.{is_at_fault, is_inside, fault_behind, ToldRow, ToldAttribute};

use crate::notes::{add_following, add_named, add_placed};
use crate::oil_objects::Tables;
use crate::{Notes, Position};
use oil_parse::{OilAttr, OilValue};
use oil_rules::judging::is_unlisted;
use oil_rules::{Front, is_refused, opened, place_by, refers_to_none};
use oil_table::{Attribute, EarlierUses, Limits, Place, attribute_of, is_beyond, is_second};
use sloth_base::{Code, Result};
use std::alloc::Global;

/// The word that a value is; none where it is no word.
pub fn value_word(value: &OilValue) -> &[u8] {
    match value {
        OilValue::Word(word) => word.bytes(),
        _ => b"",
    }
}

fn is_at_fault(
    objects: &Front,
    scheduler: bool,
    limits: Limits,
    row: Option<Attribute>,
    attr: &OilAttr,
) -> bool
    ensures { result ≡ is_at_fault objects.now scheduler limits row attr.now }
{
    is_unlisted(row)
        || refers_to_none(objects, scheduler, row, &attr.value)
        || is_refused(row, &attr.value)
        || is_beyond(limits, row, attr)
}

fn is_inside(fault: Option<u32>, attr: &OilAttr) -> bool
    ensures { result ≡ is_inside fault attr.now }
{
    match fault {
        Some(depth) => depth < attr.depth,
        None => false,
    }
}

fn fault_behind(fault: Option<u32>, at_fault: bool, attr: &OilAttr) -> Option<u32>
    ensures { result ≡ fault_behind fault at_fault attr.now }
{
    if is_inside(fault, attr) {
        return fault;
    }
    if at_fault {
        return Some(attr.depth);
    }
    None
}

// O8 of an attribute, in the block of one at fault or not.
fn add_unlisted<'t>(
    notes: &mut Notes<'t>,
    row: Option<Attribute>,
    follows: bool,
    attr: &'t OilAttr,
) -> Result<()>
    ensures { OnOk result
        (Adds Oil (OilCase (is_none row && not follows) attr.now.line O8) notes.old.items notes.new.items) }
{
    let name = attr.name.bytes();
    let unlisted = is_unlisted(row);
    if follows {
        return add_following(notes, unlisted, attr.line, Code::O8, name);
    }
    add_named(notes, unlisted, attr.line, Code::O8, name, None)
}

fn add_row_faults<'t>(
    notes: &mut Notes<'t>,
    tables: &Tables,
    row: Option<Attribute>,
    follows: bool,
    before: &EarlierUses,
    position: Position,
    attr: &'t OilAttr,
) -> Result<()>
    requires { before.now.depth ≡ 0 }
    ensures { OnOk result
        (Adds Oil (ToldRow tables.now.objects.now tables.now.scheduler row follows before.now.attrs attr.now)
        notes.old.items notes.new.items) }
{
    let line = attr.line;
    let name = attr.name.bytes();
    add_unlisted(notes, row, follows, attr)?;
    let second = is_second(row, before, attr);
    add_placed(notes, second, line, Code::O9, name, position)?;
    let missing = refers_to_none(tables.objects, tables.scheduler, row, &attr.value);
    let word = value_word(&attr.value);
    add_placed(notes, missing, line, Code::O10, word, position)?;
    let refused = is_refused(row, &attr.value);
    add_placed(notes, refused, line, Code::O12, name, position)
}

/// O8, O9, O10 and O12 of the attributes of an object with this position; O8 in the block of one that is at fault
/// itself follows from that.
pub fn add_attributes<'t>(
    alloc: Global,
    notes: &mut Notes<'t>,
    tables: &Tables,
    limits: Limits,
    place: Place,
    own: Position,
    attrs: &'t [OilAttr],
) -> Result<()>
    ensures { OnOk result
        (Adds Oil (Somewhere (ToldAttribute tables.now.objects.now tables.now.scheduler limits place) attrs.now)
        notes.old.items notes.new.items) }
{
    let mut before = EarlierUses::new(alloc, 0);
    let mut inner = Place::Nowhere;
    let mut fault = None;
    for (number, attr) in attrs.iter().enumerate() {
        let row = attribute_of(place_by(place, inner, attr), attr.name.bytes());
        let follows = is_inside(fault, attr);
        let position = own.behind(number + 1);
        add_row_faults(notes, tables, row, follows, &before, position, attr)?;
        let at_fault = is_at_fault(tables.objects, tables.scheduler, limits, row, attr);
        fault = fault_behind(fault, at_fault, attr);
        inner = opened(place, inner, attr);
        before = before.with(&attrs[..=number], attr)?;
    }
    Ok(())
}
