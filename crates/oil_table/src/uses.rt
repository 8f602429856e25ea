//! The uses of attributes before one. Sets that grow.
//! What an object says by the attributes of its own block. Of two uses of one attribute the first counts.
//! The numbers of names. Events by their names.
//! The mask of the event that a value names, and the union of those of the events that a task lists.
ghost use Rattle.std.specs.Prelude.{◌≡◌, ◌||◌, ℕ, List, [], ◌∷◌, ◌++◌, IfOk, OnOk, bytes_eq, codes, find, option_copied, map};
ghost use Rattle.std.specs.List.{list_any};
ghost use Rattle.oil_table.specs.Objects.{is_use_at, is_use, is_used, first_is, number_of, first_number, is_declaration, has_scheduler, is_of_kind, names_of};
ghost use Rattle.oil_table.specs.Uses.{is_second};
ghost use Rattle.indexmap.specs.IndexSet.{insert_key};
ghost use Rattle.oil_table.specs.Events.{mask_named};
ghost use Rattle.oil_table.specs.Masks.{mask_of_value, listed_mask, event_mask};

use crate::{Attribute, is_single, is_word};
use indexmap::IndexSet;
use oil_parse::{OilAttr, OilObject, OilValue};
use sloth_base::{EventDecl, Result};
use std::alloc::{AllocError, Global};
use std::hash::Hash;
use std::marker::Model;
use text_pieces::{Names, same};

/// The attributes before one, with the names of those at one depth: 0 is an object's own block, 1 a block behind a
/// value there.
#[derive(Drop)]
pub struct EarlierUses<'t> {
    depth: u32,
    attrs: &'t [OilAttr],
    names: IndexSet<&'t [u8]>,
}

impl<'t> Model for EarlierUses<'t> {
    ghost use Rattle.oil_table.specs.Uses.{EarlierAttrs, AreNamesUsed};

    ghost Value = { EarlierAttrs };

    ghost view = { λ uses. record { depth = uses.depth; attrs = uses.attrs.now } };

    ghost invariant = { λ uses. AreNamesUsed uses.depth uses.attrs.now uses.names };
}

fn add_use<'t>(names: &mut IndexSet<&'t [u8]>, depth: u32, attr: &'t OilAttr) -> Result<()>
    ensures { OnOk result ((name : List ℕ) → list_any (λ k. bytes_eq k.now name) names.new.keys
        ≡ (list_any (λ k. bytes_eq k.now name) names.old.keys || is_use_at depth name attr.now)) }
{
    if attr.depth != depth {
        return Ok(());
    }
    insert(names, attr.name.bytes())?;
    Ok(())
}

impl<'t> EarlierUses<'t> {
    /// No attributes, of which those at this depth will count.
    pub fn new(alloc: Global, depth: u32) -> EarlierUses<'t>
        ensures depth { result.depth ≡ depth }
        ensures attrs { result.attrs ≡ [] }
    {
        EarlierUses {
            depth,
            attrs: &[],
            names: IndexSet::new(alloc),
        }
    }

    /// One attribute more.
    pub fn with(self, attrs: &'t [OilAttr], attr: &'t OilAttr) -> Result<EarlierUses<'t>>
        requires { attrs.now ≡ self.attrs ++ attr.now ∷ [] }
        ensures depth { IfOk result (λ uses. uses.depth ≡ self.entry.depth) }
        ensures attrs { IfOk result (λ uses. uses.attrs ≡ attrs.now) }
    {
        let EarlierUses {
            depth,
            mut names,
            ..
        } = self;
        add_use(&mut names, depth, attr)?;
        Ok(EarlierUses {
            depth,
            attrs,
            names,
        })
    }

    fn is_used(&self, name: &[u8]) -> bool
        ensures { result ≡ list_any (is_use_at self.now.depth name.now) self.now.attrs }
    {
        self.names.contains(&name)
    }
}

/// Whether an attribute with this row of the table may be used once, and is used before.
pub fn is_second(row: Option<Attribute>, before: &EarlierUses, attr: &OilAttr) -> bool
    ensures { result ≡ is_second before.now.depth row before.now.attrs attr.now }
{
    let Some(attribute) = row else {
        return false;
    };
    is_single(attribute) && attr.depth == before.depth && before.is_used(attr.name.bytes())
}

/// One more key, if it isn't among them.
pub fn insert<T: Eq + Hash + Drop>(set: &mut IndexSet<T>, key: T) -> Result<()>
    ensures { OnOk result (set.new.keys ≡ insert_key T.eq set.old.keys key) }
{
    match set.insert(key) {
        Ok(_) => Ok(()),
        Err(failed) => Err(AllocError::from(failed).into()),
    }
}

/// Whether this is a use of the attribute in the object's own block.
pub fn is_use(attr: &OilAttr, name: &[u8]) -> bool
    ensures { result ≡ is_use name.now attr.now }
{
    attr.depth == 0 && same(attr.name.bytes(), name)
}

/// Whether the attribute is used.
pub fn is_used(attrs: &[OilAttr], name: &[u8]) -> bool
    ensures { result ≡ is_used attrs.now name.now }
{
    attrs.iter().any(|attr| is_use(attr, name))
}

/// The first use of the attribute.
pub fn first_use<'t>(attrs: &'t [OilAttr], name: &[u8]) -> Option<&'t OilAttr>
    ensures { option_copied result ≡ find (is_use name.now) attrs.now }
{
    attrs.iter().find(|attr| is_use(attr, name))
}

/// Whether the first use of the attribute has this word.
pub fn first_is(attrs: &[OilAttr], name: &[u8], word: &[u8]) -> bool
    ensures { result ≡ first_is attrs.now name.now word.now }
{
    first_use(attrs, name).is_some_and(|attr| is_word(&attr.value, word))
}

/// The number that a value is.
pub fn number_of(value: &OilValue) -> Option<u32>
    ensures { result ≡ number_of value.now }
{
    match value {
        OilValue::Number(number) => Some(*number),
        _ => None,
    }
}

/// The number of the first use of the attribute.
pub fn first_number(attrs: &[OilAttr], name: &[u8]) -> Option<u32>
    ensures { result ≡ first_number attrs.now name.now }
{
    match first_use(attrs, name) {
        Some(attr) => number_of(&attr.value),
        None => None,
    }
}

/// Whether the object is of this kind.
pub fn is_of_kind(object: &OilObject, kind: &[u8]) -> bool
    ensures { result ≡ is_of_kind kind.now object.now }
{
    same(object.kind.bytes(), kind)
}

/// Whether the object is of this kind and name.
pub fn declares(object: &OilObject, kind: &[u8], name: &[u8]) -> bool
    ensures { result ≡ is_declaration kind.now name.now object.now }
{
    is_of_kind(object, kind) && same(object.name.bytes(), name)
}

fn first_os(objects: &[OilObject]) -> Option<&OilObject>
    ensures { option_copied result ≡ find (is_of_kind (codes "OS")) objects.now }
{
    objects.iter().find(|object| is_of_kind(object, b"OS"))
}

/// Whether RES_SCHEDULER exists. Of two OS objects the first counts; where there is none, it exists.
pub fn has_scheduler(objects: &[OilObject]) -> bool
    ensures { result ≡ has_scheduler objects.now }
{
    match first_os(objects) {
        Some(os) => !first_is(os.attrs.items(), b"USERESSCHEDULER", b"FALSE"),
        None => true,
    }
}

/// The names of the objects of a kind. Objects of a kind are numbered in the order of the text.
pub fn names_of<'t>(alloc: Global, objects: &'t [OilObject], kind: &[u8]) -> Result<Names<'t>>
    ensures { IfOk result (λ names. names ≡ names_of kind.now objects.now) }
{
    let mut names = Names::new(alloc);
    for object in objects {
        if is_of_kind(object, kind) {
            names = names.with(object.name.bytes())?;
        }
    }
    Ok(names)
}

/// The events of a tree, with the numbers of their names.
#[derive(Drop)]
pub struct EventTable<'t> {
    events: &'t [EventDecl],
    numbers: &'t Names<'t>,
}

impl<'t> Model for EventTable<'t> {
    ghost use Rattle.std.specs.Prelude.{◌≡◌, List, map};
    ghost use Rattle.sloth_base.specs.declared.config.EventDecl.{EventDecl};

    ghost Value = { List EventDecl };

    ghost view = { λ table. table.events.now };

    ghost invariant = { λ table. table.numbers.now ≡ map (λ event. event.name) table.events.now };
}

impl<'t> EventTable<'t> {
    /// These events, with the numbers of their names.
    pub fn new(events: &'t [EventDecl], numbers: &'t Names<'t>) -> EventTable<'t>
        requires { numbers.now ≡ map (λ event. event.name) events.now }
        ensures { result ≡ events.now }
    {
        EventTable { events, numbers }
    }

    /// The mask of the first event of this name, 0 where there is none.
    pub fn mask_named(&self, name: &[u8]) -> u32
        ensures { result ≡ mask_named self.now name.now }
    {
        match self.numbers.number(name) {
            Some(number) => self.events[number].mask,
            None => 0,
        }
    }
}

/// The mask of the event that a value names, or 0.
pub fn mask_of_value(events: &EventTable, value: &OilValue) -> u32
    ensures { result ≡ mask_of_value events.now value.now }
{
    match value {
        OilValue::Word(word) => events.mask_named(word.bytes()),
        _ => 0,
    }
}

fn listed_mask(events: &EventTable, attr: &OilAttr) -> u32
    ensures { result ≡ listed_mask events.now attr.now }
{
    if is_use(attr, b"EVENT") {
        mask_of_value(events, &attr.value)
    } else {
        0
    }
}

/// The union of the masks of the events that a task lists.
pub fn event_mask(events: &EventTable, attrs: &[OilAttr]) -> u32
    ensures { result ≡ event_mask events.now attrs.now }
{
    let mut mask = 0;
    for attr in attrs {
        mask |= listed_mask(events, attr);
    }
    mask
}
