//! Events and their masks. AUTO events, in the order of their objects, take the lowest bit that is in no number mask
//! and was given to no earlier AUTO event (OIL 2.5, section 3.2.6).
ghost use Rattle.std.specs.Prelude.{◌≡◌, ◌<◌, All, IfOk};
ghost use Rattle.sloth_base.specs.Search.{IsSearchResult, Somewhere};
ghost use Rattle.oil_table.specs.Events.{number_bits, number_masks, free_bit, is_auto, mask_by, taken_more};
ghost use Rattle.oil_table.specs.Events.{number_mask, lacks_bit, BitFault, events_of};

use crate::{first_is, first_number, is_of_kind, is_used};
use oil_parse::OilObject;
use sloth_base::refusal::{fault_if, merge};
use sloth_base::{Code, EventDecl, Name, Part, Refusal, Result};
use std::alloc::Global;
use text_pieces::push;

/// The bits of a mask, the lowest first.
const BITS: [u32; 32] = [
    0x1, 0x2, 0x4, 0x8, 0x10, 0x20, 0x40, 0x80, 0x100, 0x200, 0x400, 0x800, 0x1000, 0x2000, 0x4000,
    0x8000, 0x10000, 0x20000, 0x40000, 0x80000, 0x100000, 0x200000, 0x400000, 0x800000, 0x1000000,
    0x2000000, 0x4000000, 0x8000000, 0x10000000, 0x20000000, 0x40000000, 0x80000000,
];

/// Whether the first MASK is AUTO, or there is none.
fn is_auto(event: &OilObject) -> bool
    ensures { result ≡ is_auto event.now }
{
    let attrs = event.attrs.items();
    !is_used(attrs, b"MASK") || first_is(attrs, b"MASK", b"AUTO")
}

// The number of the first MASK. A mask that is no number, or 0, has no bits.
fn number_mask(event: &OilObject) -> u32
    ensures { result ≡ number_mask event.now }
{
    first_number(event.attrs.items(), b"MASK").unwrap_or(0)
}

fn number_bits(object: &OilObject) -> u32
    ensures { result ≡ number_bits object.now }
{
    if is_of_kind(object, b"EVENT") {
        number_mask(object)
    } else {
        0
    }
}

/// The bits of all number masks.
pub fn number_masks(objects: &[OilObject]) -> u32
    ensures { result ≡ number_masks objects.now }
{
    let mut bits = 0;
    for object in objects {
        bits |= number_bits(object);
    }
    bits
}

#[tactic(auto, unfolding(crate::specs::Events::free_bit))]
fn free_bit(taken: u32) -> Option<u32>
    ensures { result ≡ free_bit taken }
{
    BITS.iter().copied().find(|&bit| taken & bit == 0)
}

/// The mask of an event, where these bits are taken: 0 where no bit is free.
fn given_mask(taken: u32, event: &OilObject) -> u32
    ensures { result ≡ mask_by taken event.now }
{
    if is_auto(event) {
        free_bit(taken).unwrap_or(0)
    } else {
        number_mask(event)
    }
}

/// The bits that are taken behind an object.
pub fn taken_more(taken: u32, object: &OilObject) -> u32
    ensures { result ≡ taken_more taken object.now }
{
    if is_of_kind(object, b"EVENT") {
        taken | given_mask(taken, object)
    } else {
        taken
    }
}

/// O15: an AUTO event, where no bit is free.
pub fn lacks_bit(taken: u32, object: &OilObject) -> bool
    ensures { result ≡ lacks_bit taken object.now }
{
    is_of_kind(object, b"EVENT") && is_auto(object) && free_bit(taken).is_none()
}

/// O15: an AUTO event finds no free bit.
pub fn events_without_bit(objects: &[OilObject]) -> Option<Refusal>
    ensures { IsSearchResult (Somewhere (BitFault objects.now) objects.now) result }
{
    let mut taken = number_masks(objects);
    let mut least = None;
    for object in objects {
        let found = fault_if(lacks_bit(taken, object), Part::Oil, object.line, Code::O15);
        least = merge(least, found);
        taken = taken_more(taken, object);
    }
    least
}

/// The events of the configuration.
pub fn events_of(alloc: Global, objects: &[OilObject]) -> Result<Vec<EventDecl>>
    ensures events { IfOk result (λ events. events.items ≡ events_of objects.now) }
    ensures fit { IfOk result (λ events. All (λ event. event.mask < 4294967296) events.items) }
{
    let mut taken = number_masks(objects);
    let mut events = Vec::new(alloc);
    for object in objects {
        if !is_of_kind(object, b"EVENT") {
            continue;
        }
        let mask = given_mask(taken, object);
        let name = Name::new(alloc, object.name.bytes())?;
        push(&mut events, EventDecl { name, mask })?;
        taken |= mask;
    }
    Ok(events)
}
