//! The events that a task refers to.
ghost use Rattle.std.specs.Prelude.{◌≡◌, ◌||◌, ◌==◌, bit_and, [], ◌∷◌, ◌++◌, IfOk};
ghost use Rattle.std.specs.List.{list_any};
ghost use Rattle.oil_rules.specs.TaskFaults.{shares_bit};
ghost use Rattle.oil_rules.specs.References.{ReferenceContext};
ghost use Rattle.oil_rules.specs.KeptReferences.{is_to, is_clash};

use oil_parse::OilAttr;
use oil_table::{EventTable, event_word};
use sloth_base::Result;
use std::alloc::Global;
use std::marker::Model;
use text_pieces::{push, same};

/// An event that a task refers to.
#[derive(Drop)]
struct Reference<'t> {
    word: &'t [u8],
    mask: u32,
}

/// The attributes of a task before one, with some of the events that they refer to: of those that have a bit, no more
/// than two are kept for it. An event shares a bit with another one of them exactly if it does with one that is kept.
#[derive(Drop)]
pub struct References<'t> {
    events: &'t EventTable<'t>,
    attrs: &'t [OilAttr],
    kept: Vec<Reference<'t>>,
    /// Bits of an event that is kept.
    once: u32,
    /// Bits of two events that are kept.
    twice: u32,
}

impl<'t> Model for References<'t> {
    ghost use Rattle.oil_rules.specs.References.{ReferenceContext};

    ghost Value = { ReferenceContext };

    ghost use Rattle.oil_rules.specs.KeptReferences.{AreKept};

    ghost view = { λ references. record { events = references.events.now; attrs = references.attrs.now } };

    ghost invariant = { λ references. AreKept references.events.now references.attrs.now references.kept.items
        references.once references.twice };
}

fn is_kept(kept: &Vec<Reference>, word: &[u8]) -> bool
    ensures { result ≡ list_any (is_to word.now) kept.now.items }
{
    kept.iter().any(|reference| same(reference.word, word))
}

/// Whether those that are kept tell all that this event does.
fn is_told(kept: &Vec<Reference>, twice: u32, word: &[u8], mask: u32) -> bool
    ensures { result ≡ ((bit_and mask twice == mask) || list_any (is_to word.now) kept.now.items) }
{
    mask & twice == mask || is_kept(kept, word)
}

fn has_clash(kept: &Vec<Reference>, word: &[u8], mask: u32) -> bool
    ensures { result ≡ list_any (is_clash word.now mask) kept.now.items }
{
    kept.iter().any(|reference| reference.mask & mask != 0 && !same(reference.word, word))
}

impl<'t> References<'t> {
    /// No attributes.
    pub fn new(alloc: Global, events: &'t EventTable<'t>) -> References<'t>
        ensures { result ≡ record { events = events.now; attrs = [] } }
    {
        References {
            events,
            attrs: &[],
            kept: Vec::new(alloc),
            once: 0,
            twice: 0,
        }
    }

    /// Whether the attribute refers to an event that shares a bit with an earlier one.
    pub fn shares_bit(&self, attr: &OilAttr) -> bool
        ensures { result ≡ shares_bit self.now.events self.now.attrs attr.now }
    {
        match event_word(attr) {
            Some(word) => has_clash(&self.kept, word, self.events.mask_named(word)),
            None => false,
        }
    }

    /// One attribute more.
    pub fn with(self, attrs: &'t [OilAttr], attr: &'t OilAttr) -> Result<References<'t>>
        requires { attrs.now ≡ self.attrs ++ attr.now ∷ [] }
        ensures { IfOk result (λ references. references ≡ record { events = self.entry.events; attrs = attrs.now }) }
    {
        let References {
            events,
            mut kept,
            once,
            twice,
            ..
        } = self;
        let Some(word) = event_word(attr) else {
            return Ok(References {
                events,
                attrs,
                kept,
                once,
                twice,
            });
        };
        let mask = events.mask_named(word);
        if is_told(&kept, twice, word, mask) {
            return Ok(References {
                events,
                attrs,
                kept,
                once,
                twice,
            });
        }
        push(&mut kept, Reference { word, mask })?;
        Ok(References {
            events,
            attrs,
            kept,
            once: once | mask,
            twice: twice | (once & mask),
        })
    }
}
