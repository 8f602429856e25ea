//! The names of the faults of an OIL tree's meaning (O7 to O15).

use indexmap::IndexSet;
use oil_parse::{OilAttr, OilObject, OilTree};
use oil_rules::{first_block, is_used_in};
use oil_table::{Place, block_place, declares, first_use, insert, is_of_kind, is_used, number_of};
use sloth_base::{Code, Refusal, Result};
use stage_faults::{Note, Position};
use std::alloc::Global;
use text_pieces::{push, same};

/// Whether the fault is that of the refusal.
pub fn is_refusal_fault(note: &Note, refusal: Refusal) -> bool {
    note.line == refusal.line && note.code as u8 == refusal.code as u8
}

fn named_note<'t>(line: u32, code: Code, name: &'t [u8], first: Option<u32>) -> Note<'t> {
    Note {
        line,
        code,
        name,
        first,
        follows: false,
        position: Position::of(0),
    }
}

fn add_named<'t>(named: &mut Vec<Note<'t>>, notes: &[Note<'t>]) -> Result<()> {
    for note in notes {
        if !note.name.is_empty() {
            push(named, *note)?;
        }
    }
    Ok(())
}

// The line of the earlier thing, where the refusal is O9.
fn add_first(named: &mut [Note], objects: &[OilObject], refusal: Refusal) {
    if !matches!(refusal.code, Code::O9) {
        return;
    }
    for number in 0..named.len() {
        if is_refusal_fault(&named[number], refusal) {
            named[number].first = earlier_line(objects, named[number].position);
            return;
        }
    }
}

/// The names of these faults of a tree, which the refusal is one of.
pub fn oil_names<'t>(
    alloc: Global,
    tree: &'t OilTree,
    notes: &[Note<'t>],
    refusal: Refusal,
) -> Result<Vec<Note<'t>>> {
    let objects = tree.objects.items();
    let mut named = Vec::new(alloc);
    add_named(&mut named, notes)?;
    add_lacking(&mut named, objects)?;
    add_twice(alloc, &mut named, objects)?;
    named.sort_by_key(|note| (note.position.object as u64) << 32 | note.position.attribute as u64)?;
    add_first(&mut named, objects, refusal);
    Ok(named)
}

// O13 of a task behind those that gave these priorities first, or one of these more: its name and its priority's line.
fn add_priority<'t>(
    named: &mut Vec<Note<'t>>,
    numbers: &mut IndexSet<u32>,
    firsts: &mut Vec<Note<'t>>,
    task: &'t OilObject,
) -> Result<()> {
    let Some(attr) = first_use(task.attrs.items(), b"PRIORITY") else {
        return Ok(());
    };
    let Some(number) = number_of(&attr.value) else {
        return Ok(());
    };
    if let Some(place) = (&*numbers).get_index_of(&number) {
        if place < firsts.len() {
            let first = firsts[place];
            let note = named_note(attr.line, Code::O13, first.name, Some(first.line));
            push(named, note)?;
        }
        return Ok(());
    }
    insert(numbers, number)?;
    let note = named_note(attr.line, Code::O13, task.name.bytes(), None);
    push(firsts, note)
}

fn add_twice<'t>(alloc: Global, named: &mut Vec<Note<'t>>, objects: &'t [OilObject]) -> Result<()> {
    let mut numbers = IndexSet::new(alloc);
    let mut firsts = Vec::new(alloc);
    for object in objects {
        if is_of_kind(object, b"TASK") {
            add_priority(named, &mut numbers, &mut firsts, object)?;
        }
    }
    Ok(())
}

// O11 for each of these words that attributes lack: those of an object, or those in a block.
fn add_missing<'t>(
    named: &mut Vec<Note<'t>>,
    line: u32,
    attrs: &[OilAttr],
    in_block: bool,
    words: &[&'static [u8]],
) -> Result<()> {
    for word in words {
        let is_there = if in_block {
            is_used_in(attrs, *word)
        } else {
            is_used(attrs, *word)
        };
        if !is_there {
            push(named, named_note(line, Code::O11, *word, None))?;
        }
    }
    Ok(())
}

fn lacking_behind<'t>(named: &mut Vec<Note<'t>>, object: &OilObject, name: &[u8]) -> Result<()> {
    let attrs = object.attrs.items();
    let Some(head) = first_use(attrs, name) else {
        return Ok(());
    };
    let inner = first_block(attrs, name);
    let line = object.line;
    match block_place(Place::Alarm, head) {
        Place::Activating => add_missing(named, line, inner, true, &[b"TASK"]),
        Place::Setting => add_missing(named, line, inner, true, &[b"TASK", b"EVENT"]),
        Place::Wakeup => add_missing(named, line, inner, true, &[b"ALARMTIME", b"CYCLETIME"]),
        _ => Ok(()),
    }
}

fn add_lacking<'t>(named: &mut Vec<Note<'t>>, objects: &[OilObject]) -> Result<()> {
    for object in objects {
        let line = object.line;
        let attrs = object.attrs.items();
        if is_of_kind(object, b"TASK") {
            add_missing(named, line, attrs, false, &[b"PRIORITY", b"SCHEDULE"])?;
            add_missing(named, line, attrs, false, &[b"ACTIVATION", b"AUTOSTART"])?;
        } else if is_of_kind(object, b"COUNTER") {
            add_missing(named, line, attrs, false, &[b"MAXALLOWEDVALUE"])?;
        } else if is_of_kind(object, b"ALARM") {
            add_missing(named, line, attrs, false, &[b"COUNTER", b"ACTION"])?;
            lacking_behind(named, object, b"AUTOSTART")?;
            lacking_behind(named, object, b"ACTION")?;
        }
    }
    Ok(())
}

fn shares_names(object: &OilObject) -> bool {
    is_of_kind(object, b"TASK") || is_of_kind(object, b"COUNTER")
}

// Whether an object doubles an earlier one: there is one OS, and a task and a counter may not share a name either.
fn doubles(object: &OilObject, earlier: &OilObject) -> bool {
    if is_of_kind(object, b"OS") {
        return is_of_kind(earlier, b"OS");
    }
    declares(earlier, object.kind.bytes(), object.name.bytes())
        || (shares_names(object)
            && shares_names(earlier)
            && same(earlier.name.bytes(), object.name.bytes()))
}

// The line of the first use of an attribute's name in its block.
fn used_line(attrs: &[OilAttr], number: usize) -> Option<u32> {
    if number >= attrs.len() {
        return None;
    }
    let attr = &attrs[number];
    let name = attr.name.bytes();
    let mut first = None;
    for earlier in &attrs[..number] {
        if earlier.depth < attr.depth {
            first = None;
        } else if first.is_none()
            && earlier.depth == attr.depth
            && same(earlier.name.bytes(), name)
        {
            first = Some(earlier.line);
        }
    }
    first
}

// The line of what O9 at this position collides with; none of a resource that needs no declaration.
fn earlier_line(objects: &[OilObject], position: Position) -> Option<u32> {
    if position.object >= objects.len() {
        return None;
    }
    let object = &objects[position.object];
    if position.attribute > 0 {
        return used_line(object.attrs.items(), position.attribute - 1);
    }
    for earlier in &objects[..position.object] {
        if doubles(object, earlier) {
            return Some(earlier.line);
        }
    }
    None
}
