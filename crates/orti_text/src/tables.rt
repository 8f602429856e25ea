//! The file of a kernel: the declarations of kinds and of their attributes, and the objects.
ghost use Rattle.std.specs.Prelude.{◌≡◌, ◌++◌, IfOk, OnOk, filter, ◌<◌, IfErr, length, codes, flat_map, map, All};
ghost use Rattle.sloth_base.specs.ConfigRange.{InRange};
ghost use Rattle.orti_text.specs.OrtiTable.{has_object, orti_table, present_kinds, declared_attribute, declared_kind};
ghost use Rattle.orti_text.specs.OrtiTable.{named_value, numbered_object, numbered_objects, objects_of_kind};
ghost use Rattle.orti_text.specs.Tables.{head_text, table_text, attribute_text, kind_text, meaning_text, number_line};
ghost use Rattle.orti_text.specs.Tables.{number_lines, object_text, value_line};
ghost use Rattle.code_rules.specs.WellFormed.{WellFormed};
ghost use Rattle.stack_bounds.specs.Bounds.{AreBounds};
ghost use Rattle.sloth_source.specs.Texts.{SourcesErrorIs};
ghost use Rattle.orti_text.specs.OrtiText.{HasTable, IsOrtiText};
ghost use Rattle.orti_text.specs.Attributes.{meaning, attributes, object_names};
ghost use Rattle.orti_text.specs.InReach.{IsInReach};

use crate::attributes::Kind::{Alarm, Os, Resource, Stack, Task};
use crate::attributes::{
    attribute_name, attribute_words, attributes, kind_words, object_names, running_names,
    state_names, two_names,
};
use crate::formulas::{attribute_value, between};
use crate::{Attribute, Kind, Put, Text};
use mem_map::plan;
use sloth_base::{App, Bounds, BuildError, Config, Name, Result};
use sloth_region::Map;
use sloth_source::read;
use std::alloc::Global;
use text_pieces::pieces::Piece::{Count, Word};
use text_pieces::{line, push, text};

// The kinds, in the order of the file.
const KINDS: [Kind; 5] = [Os, Task, Stack, Alarm, Resource];

fn push_present(alloc: Global, present: &mut Vec<Kind>, config: &Config, kinds: &[Kind]) -> Put
    ensures { OnOk result (present.new.items ≡ present.old.items ++ filter (has_object config.now) kinds.now) }
{
    for kind in kinds {
        if !object_names(alloc, config, *kind)?.items().is_empty() {
            push(present, *kind)?;
        }
    }
    Ok(())
}

fn present_kinds(alloc: Global, config: &Config) -> Result<Vec<Kind>>
    ensures { IfOk result (λ kinds. kinds.items ≡ present_kinds config.now) }
{
    let mut present = Vec::new(alloc);
    push_present(alloc, &mut present, config, &KINDS)?;
    Ok(present)
}

#[tactic(auto, unfolding(crate::specs::Tables::head_text))]
fn head_text(alloc: Global) -> Text
    ensures { IfOk result (λ text. text.items ≡ head_text) }
{
    Ok(Vec::from_slice(
        alloc,
        b"VERSION {\n  KOIL = \"2.2\";\n  OSSEMANTICS = \"ORTI\", \"2.2\";\n};\nIMPLEMENTATION sloth {\n",
    )?)
}

/// The file of a configuration and a map.
pub fn table_text(alloc: Global, config: &Config, map: &Map) -> Text
    requires { InRange config.now }
    ensures { IfOk result (λ text. text.items ≡ table_text (orti_table config.now map.now)) }
{
    let kinds = present_kinds(alloc, config)?;
    let mut text = head_text(alloc)?;
    push_kinds(alloc, &mut text, config, kinds.as_slice())?;
    line!(&mut text; Word(b"};\n"))?;
    push_objects(alloc, &mut text, config, map, kinds.as_slice())?;
    Ok(text)
}

fn planned_text(alloc: Global, config: &Config, app: &App, bounds: &Bounds) -> Result<Vec<u8>>
    requires well_formed { WellFormed config.now app.now }
    requires bounds { AreBounds config.now app.now bounds.now }
    ensures { IfOk result (λ text. HasTable config.now app.now bounds.now text.items) }
{
    let map = plan(alloc, app, config, bounds)?;
    table_text(alloc, config, &map)
}

/// The image's ORTI file, or the first refusal (O1 to O15, A1 to A7, V1 to V12). Texts have up to 4,294,967,294 bytes.
pub fn orti_text(alloc: Global, oil: &[u8], src: &[u8]) -> Result<Vec<u8>, BuildError>
    requires oil { length oil.now < 4294967295 }
    requires src { length src.now < 4294967295 }
    ensures text { IfOk result (λ text. IsOrtiText oil.now src.now text.items) }
    ensures refused { IfErr result (SourcesErrorIs oil.now src.now) }
{
    let source = read(alloc, oil, src)?;
    let text = planned_text(alloc, &source.config, &source.app, &source.bounds)?;
    Ok(text)
}

fn push_number_line(text: &mut Vec<u8>, number: usize, name: &[u8]) -> Put
    ensures { OnOk result (text.new.items ≡ text.old.items ++ number_line number name.now) }
{
    let comma = between(number == 0, b",");
    line!(text; Word(comma), Word(b"\n      \""), Word(name), Word(b"\" = "), Count(number))
}

fn push_number_lines(text: &mut Vec<u8>, names: &[Name]) -> Put
    ensures { OnOk result (text.new.items ≡ text.old.items ++ number_lines 0 names.now) }
{
    for number in 0..names.len() {
        push_number_line(text, number, names[number].bytes())?;
    }
    Ok(())
}

// What values mean that stand for texts.
fn enumeration(alloc: Global, names: &[Name]) -> Text
    ensures { IfOk result (λ text. text.items
        ≡ codes "ENUM \"unsigned int\" [" ++ number_lines 0 names.now ++ codes "\n    ]") }
{
    let mut text = text!(alloc; Word(b"ENUM \"unsigned int\" ["))?;
    push_number_lines(&mut text, names)?;
    line!(&mut text; Word(b"\n    ]"))?;
    Ok(text)
}

fn meaning_text(alloc: Global, config: &Config, attribute: Attribute) -> Text
    ensures { IfOk result (λ text. text.items ≡ meaning_text (meaning config.now attribute)) }
{
    match attribute {
        Attribute::RunningTask => enumeration(alloc, running_names(alloc, config)?.items()),
        Attribute::TaskState => enumeration(alloc, state_names(alloc)?.items()),
        Attribute::Entered => enumeration(alloc, two_names(alloc, b"NO", b"YES")?.items()),
        Attribute::TaskStack => enumeration(
            alloc,
            object_names(alloc, config, Kind::Stack)?.items(),
        ),
        Attribute::AlarmState => enumeration(
            alloc,
            two_names(alloc, b"ALARMSTOP", b"ALARMRUN")?.items(),
        ),
        Attribute::Direction | Attribute::Expiry | Attribute::AlarmCounter => {
            text!(alloc; Word(b"STRING"))
        },
        _ => text!(alloc; Word(b"CTYPE \"unsigned int\"")),
    }
}

fn push_declared<'x>(
    text: &mut Vec<u8>,
    traced: &'x [u8],
    meaning: &'x [u8],
    name: &'x [u8],
    about: &'x [u8],
) -> Put
    ensures { OnOk result (text.new.items
        ≡ text.old.items ++ (codes "    " ++ traced.now ++ meaning.now ++ codes " " ++ name.now
        ++ codes ", \"" ++ about.now ++ codes "\";\n")) }
{
    line!(text; Word(b"    "), Word(traced), Word(meaning), Word(b" "), Word(name), Word(b", \""), Word(about),
        Word(b"\";\n"))
}

fn push_attribute(alloc: Global, text: &mut Vec<u8>, config: &Config, attribute: Attribute) -> Put
    ensures { OnOk result (text.new.items
        ≡ text.old.items ++ attribute_text (declared_attribute config.now attribute)) }
{
    let traced = between(!matches!(attribute, Attribute::RunningTask), b"TOTRACE ");
    let meaning = meaning_text(alloc, config, attribute)?;
    let name = attribute_name(alloc, config, attribute)?;
    let about = attribute_words(attribute).about;
    push_declared(text, traced, meaning.as_slice(), name.as_slice(), about)
}

fn push_attributes(alloc: Global, text: &mut Vec<u8>, config: &Config, list: &[Attribute]) -> Put
    ensures { OnOk result (text.new.items
        ≡ text.old.items ++ flat_map attribute_text (map (declared_attribute config.now) list.now)) }
{
    for attribute in list {
        push_attribute(alloc, text, config, *attribute)?;
    }
    Ok(())
}

fn push_kind(alloc: Global, text: &mut Vec<u8>, config: &Config, kind: Kind) -> Put
    ensures { OnOk result (text.new.items ≡ text.old.items ++ kind_text (declared_kind config.now kind)) }
{
    let words = kind_words(kind);
    let list = attributes(alloc, config, kind)?;
    line!(text; Word(b"  "), Word(words.word), Word(b" {\n"))?;
    push_attributes(alloc, text, config, list.as_slice())?;
    line!(text; Word(b"  }, \""), Word(words.about), Word(b"\";\n"))
}

/// Appends the declarations of kinds.
pub fn push_kinds(alloc: Global, text: &mut Vec<u8>, config: &Config, kinds: &[Kind]) -> Put
    ensures { OnOk result (text.new.items
        ≡ text.old.items ++ flat_map kind_text (map (declared_kind config.now) kinds.now)) }
{
    for kind in kinds {
        push_kind(alloc, text, config, *kind)?;
    }
    Ok(())
}

fn push_values(
    alloc: Global,
    text: &mut Vec<u8>,
    config: &Config,
    plan: &Map,
    list: &[Attribute],
    n: usize,
) -> Put
    requires in_range { InRange config.now }
    requires in_reach { All (λ a. IsInReach config.now a n) list.now }
    ensures { OnOk result (text.new.items
        ≡ text.old.items ++ flat_map value_line (map (named_value config.now plan.now n) list.now)) }
{
    for attribute in list {
        let name = attribute_name(alloc, config, *attribute)?;
        let value = attribute_value(alloc, config, plan, *attribute, n)?;
        line!(text; Word(b"  "), Word(name.as_slice()), Word(b" = \""), Word(value.as_slice()), Word(b"\";\n"))?;
    }
    Ok(())
}

#[tactic(auto, using(crate::proofs::Reach::in_reach))]
fn push_object(
    alloc: Global,
    text: &mut Vec<u8>,
    config: &Config,
    plan: &Map,
    kind: Kind,
    n: usize,
    name: &[u8],
) -> Put
    requires in_range { InRange config.now }
    requires declared { n < length (object_names config.now kind) }
    ensures { OnOk result (text.new.items
        ≡ text.old.items ++ object_text (numbered_object config.now plan.now kind n name.now)) }
{
    let list = attributes(alloc, config, kind)?;
    line!(text; Word(kind_words(kind).word), Word(b" "), Word(name), Word(b" {\n"))?;
    push_values(alloc, text, config, plan, list.as_slice(), n)?;
    line!(text; Word(b"};\n"))
}

fn push_named(
    alloc: Global,
    text: &mut Vec<u8>,
    config: &Config,
    plan: &Map,
    kind: Kind,
    names: &[Name],
) -> Put
    requires in_range { InRange config.now }
    requires names { names.now ≡ object_names config.now kind }
    ensures { OnOk result (text.new.items
        ≡ text.old.items ++ flat_map object_text (numbered_objects config.now plan.now kind 0 names.now)) }
{
    for n in 0..names.len() {
        push_object(alloc, text, config, plan, kind, n, names[n].bytes())?;
    }
    Ok(())
}

/// Appends the objects of kinds.
pub fn push_objects(
    alloc: Global,
    text: &mut Vec<u8>,
    config: &Config,
    plan: &Map,
    kinds: &[Kind],
) -> Put
    requires { InRange config.now }
    ensures { OnOk result (text.new.items
        ≡ text.old.items ++ flat_map object_text (flat_map (objects_of_kind config.now plan.now) kinds.now)) }
{
    for kind in kinds {
        let names = object_names(alloc, config, *kind)?;
        push_named(alloc, text, config, plan, *kind, names.items())?;
    }
    Ok(())
}
