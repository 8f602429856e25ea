//! The limits of the counters of a tree. Numbers outside the limits of an alarm's counter.
ghost use Rattle.std.specs.Prelude.{◌≡◌, IfOk, codes, find};
ghost use Rattle.oil_table.specs.Objects.{is_declaration};
ghost use Rattle.oil_table.specs.AlarmCounters.{limit_by, limits_in, limits_given, limits_of, limits_among};
ghost use Rattle.oil_table.specs.Beyond.{is_beyond};

use crate::{Attribute, first_number, first_use, is_of_kind, names_of};
use oil_parse::{OilAttr, OilObject, OilValue};
use sloth_base::{Result, TICK_LIMIT};
use std::alloc::Global;
use std::marker::Model;
use text_pieces::{Names, push};

/// The limits in the place of those of a counter that is missing.
const WIDEST: Limits = Limits {
    least: 1,
    greatest: TICK_LIMIT,
};

/// The counters among some objects, found by their names, and their limits.
pub struct CounterLimits<'t> {
    objects: &'t [OilObject],
    names: Names<'t>,
    limits: Vec<Limits>,
}

// Written out: what is derived is proved anew wherever a value is let go.
impl Drop for CounterLimits<'_> {
    fn drop(self) {
        let CounterLimits {
            objects: _,
            names: _,
            limits: _,
        } = self;
    }
}

impl<'t> Model for CounterLimits<'t> {
    ghost use Rattle.std.specs.Prelude.{List};
    ghost use Rattle.oil_parse.specs.declared.tree.OilObject.{OilObject};
    ghost use Rattle.oil_table.specs.AlarmCounters.{AreCounters};

    ghost Value = { List OilObject };

    ghost view = { λ counters. counters.objects.now };

    ghost invariant = { λ counters. AreCounters counters.objects.now counters.names counters.limits.items };
}

fn limit_or(number: Option<u32>, other: u32) -> u32
    ensures { result ≡ limit_by number other }
{
    match number {
        Some(number) if 1 <= number && number <= TICK_LIMIT => number,
        _ => other,
    }
}

fn declared_limits(counter: &OilObject) -> Limits
    ensures { result ≡ limits_in counter.now }
{
    let attrs = counter.attrs.items();
    Limits {
        least: limit_or(first_number(attrs, b"MINCYCLE"), 1),
        greatest: limit_or(first_number(attrs, b"MAXALLOWEDVALUE"), TICK_LIMIT),
    }
}

fn limits_among(alloc: Global, objects: &[OilObject]) -> Result<Vec<Limits>>
    ensures { IfOk result (λ limits. limits.items ≡ limits_among objects.now) }
{
    let mut limits = Vec::new(alloc);
    for object in objects {
        if is_of_kind(object, b"COUNTER") {
            push(&mut limits, declared_limits(object))?;
        }
    }
    Ok(limits)
}

impl<'t> CounterLimits<'t> {
    /// The counters among these objects.
    pub fn of(alloc: Global, objects: &'t [OilObject]) -> Result<CounterLimits<'t>>
        ensures { IfOk result (λ counters. counters ≡ objects.now) }
    {
        Ok(CounterLimits {
            objects,
            names: names_of(alloc, objects, b"COUNTER")?,
            limits: limits_among(alloc, objects)?,
        })
    }

    /// The limits of the first counter of this name; the widest, where there is none.
    fn limits_of_word(&self, word: &[u8]) -> Limits
        ensures { result ≡ limits_given (find (is_declaration (codes "COUNTER") word.now) self.now) }
    {
        match self.names.number(word) {
            Some(number) => self.limits[number],
            None => WIDEST,
        }
    }

    /// The limits of the counter that an alarm with these attributes names.
    pub fn limits_of(&self, attrs: &[OilAttr]) -> Limits
        ensures { result ≡ limits_of self.now attrs.now }
    {
        let Some(attr) = first_use(attrs, b"COUNTER") else {
            return WIDEST;
        };
        match &attr.value {
            OilValue::Word(word) => self.limits_of_word(word.bytes()),
            _ => WIDEST,
        }
    }
}

/// The least cycle and the greatest value of a counter.
#[derive(Clone, Copy)]
pub struct Limits {
    pub least: u32,
    pub greatest: u32,
}

/// Whether the attribute is a number outside the limits of the alarm's counter.
pub fn is_beyond(limits: Limits, row: Option<Attribute>, attr: &OilAttr) -> bool
    ensures { result ≡ is_beyond limits row attr.now }
{
    let Some(attribute) = row else {
        return false;
    };
    if attr.depth != 1 {
        return false;
    }
    let OilValue::Number(number) = &attr.value else {
        return false;
    };
    match attribute {
        Attribute::Time => limits.greatest < *number,
        Attribute::Cycle => *number != 0 && (*number < limits.least || limits.greatest < *number),
        _ => false,
    }
}
