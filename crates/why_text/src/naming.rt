//! The lines behind a refusal of names, forms or meaning: the name that it concerns, and each fault of its stage.
//! Faults of a stage with the names that were found for them.
ghost use Rattle.std.specs.Prelude.{IfSome, ◌≡◌, ◌<◌, ◌^◌, ◌++◌, length, IsTrue, IfOk, IfErr, OnOk, nat_lt, take, ◌==◌, ◌&&◌, ◌||◌, ℕ, List, false, bytes_eq};
ghost use Rattle.sloth_base.specs.declared.refusal.Part.TheVariants.{Src, Oil};
ghost use Rattle.sloth_base.specs.Order.{ErrorIs};
ghost use Rattle.asm_lines.specs.Faults.{source_lines, SourceLinesFault};
ghost use Rattle.stage_faults.specs.ToldNames.{ToldName};
ghost use Rattle.why_text.specs.NameLines.{first_lines, more_lines, is_word, HasName, IsNamed, TellsNotes, AreFaultLines, among_lines, told_lines, TellsNamed, AreNamedLines};
ghost use Rattle.why_text.specs.WhyLines.{TellsForms, TellsNamesFor, LacksTree, TellsMeaning};
ghost use Rattle.std.specs.List.{list_all, list_any};
ghost use Rattle.oil_parse.specs.Text.{HasTree};
ghost use Rattle.stage_faults.specs.Told.{AreInOrder, note_order};
ghost use Rattle.stage_faults.specs.ToldModel.{ToldModel};
ghost use Rattle.std.specs.List.Sorted.{IsNonDecreasingBy};
ghost use Rattle.why_text.specs.NamedFaults.{is_same_place, is_key, apart_with, first_of_each, AddsGroup, NamesAll, AreKeys, StandApart};

use crate::item_lines::{push_name, push_number_line};
use crate::oil_names::{is_refusal_fault, oil_names};
use asm_lines::{SourceLine, read};
use asm_scopes::bodies_of;
use command_line::code_text;
use indexmap::IndexSet;
use oil_parse::{OilTree, parse, tokens};
use oil_table::insert;
use sloth_base::{BuildError, Config, List, NoMemory, Refusal, Result};
use stage_faults::notes::told_list;
use stage_faults::{Note, line_notes, model_notes, name_notes, order, put_in_order};
use std::alloc::Global;
use text_pieces::pieces::Piece::{Number, Word};
use text_pieces::{line, push};

// The lines behind a refusal.
type Text<E = NoMemory> = Result<List<u8>, E>;

type Notes<'t> = Result<Vec<Note<'t>>>;

type Seen<'t> = IndexSet<(u64, &'t [u8])>;

fn push_first(text: &mut Vec<u8>, first: Option<u32>) -> Result<()>
    ensures text { OnOk result (text.new.items ≡ text.old.items ++ first_lines first) }
    ensures number { IfSome first (λ line. line < 4294967296) }
{
    match first {
        Some(line) => push_number_line(text, b"first", line),
        None => Ok(()),
    }
}

fn name_text(alloc: Global, note: &Note) -> Result<Vec<u8>>
    requires { IsTrue (is_word note.now.name.now) }
    ensures { IfOk result (λ text. HasName text.items) }
{
    let mut text = Vec::new(alloc);
    push_name(&mut text, note.name)?;
    push_first(&mut text, note.first)?;
    Ok(text)
}

/// The name that the first of these faults concerns, if it is that of the refusal and a word.
pub fn refusal_name(alloc: Global, notes: &[Note], refusal: Refusal) -> Result<Vec<u8>>
    ensures { IfOk result (λ text. IsNamed text.items) }
{
    if notes.is_empty() || !is_refusal_fault(&notes[0], refusal) || !is_word(notes[0].name) {
        return Ok(Vec::new(alloc));
    }
    let text = name_text(alloc, &notes[0])?;
    Ok(text)
}

fn source_text(alloc: Global, notes: &mut Vec<Note>, refusal: Refusal) -> Text
    ensures { IfOk result (TellsNotes notes.old.items) }
{
    let told = told_list(alloc, notes)?;
    let mut text = refusal_name(alloc, &told, refusal)?;
    push_told(&mut text, &told)?;
    Ok(List::from_vec(text))
}

/// The lines behind a refusal of A1 to A4.
pub fn forms_text(alloc: Global, src: &[u8], refusal: Refusal) -> Text
    requires { length src.now < 4294967295 }
    ensures { IfOk result (TellsForms src.now) }
{
    let mut notes = line_notes(alloc, src)?;
    source_text(alloc, &mut notes, refusal)
}

fn names_lines(alloc: Global, config: &Config, lines: &[SourceLine], refusal: Refusal) -> Text
    requires { length lines.now < 2 ^ 32 }
    ensures { IfOk result (AreFaultLines Src (ToldName config.now lines.now)) }
{
    let bodies = bodies_of(alloc, lines)?;
    let mut notes = name_notes(alloc, config, lines, &bodies)?;
    source_text(alloc, &mut notes, refusal)
}

fn names_read(alloc: Global, config: &Config, src: &[u8], refusal: Refusal) -> Text<BuildError>
    requires { length src.now < 4294967295 }
    ensures lines { IfOk result (AreFaultLines Src (ToldName config.now (source_lines src.now))) }
    ensures refused { IfErr result (ErrorIs (SourceLinesFault src.now)) }
{
    let lines = read(alloc, src)?;
    let text = names_lines(alloc, config, lines.items(), refusal)?;
    Ok(text)
}

/// The lines behind a refusal of A5 to A7.
pub fn names_text(alloc: Global, config: &Config, src: &[u8], refusal: Refusal) -> Text
    requires { length src.now < 4294967295 }
    ensures { IfOk result (TellsNamesFor config.now src.now) }
{
    match names_read(alloc, config, src, refusal) {
        Ok(text) => Ok(text),
        Err(BuildError::Refused(_)) => Ok(List::from_vec(Vec::new(alloc))),
        Err(BuildError::Memory) => Err(NoMemory),
    }
}

// How many faults are told.
const AMONG_LIMIT: usize = 1_000;

// The greatest number of bytes of a name, as of a text.
const LONGEST: usize = 4_194_304;

fn are_shown(name: &[u8]) -> bool
    ensures { result ≡ list_all (nat_lt 32) name.now }
{
    name.iter().all(|byte| *byte > 32)
}

/// Whether a name is a word: it has bytes, no blank and no end of a line, and is no longer than a text may be.
pub fn is_word(name: &[u8]) -> bool
    ensures { result ≡ is_word name.now }
{
    !name.is_empty() && name.len() <= LONGEST && are_shown(name)
}

fn push_notes(text: &mut Vec<u8>, notes: &[Note]) -> Result<()>
    ensures { OnOk result (text.new.items ≡ text.old.items ++ among_lines notes.now) }
{
    for note in notes {
        line!(text; Word(b"among "), Number(note.line), Word(b" "), Word(code_text(note.code)))?;
        if is_word(note.name) {
            line!(text; Word(b" "), Word(note.name))?;
        }
        line!(text; Word(b"\n"))?;
    }
    Ok(())
}

fn first_notes<'n, 't>(notes: &'n [Note<'t>], count: usize) -> &'n [Note<'t>]
    ensures { result.now ≡ take count notes.now }
{
    if count < notes.len() {
        return &notes[..count];
    }
    notes
}

fn push_more(text: &mut Vec<u8>, more: bool) -> Result<()>
    ensures { OnOk result (text.new.items ≡ text.old.items ++ more_lines more) }
{
    if more {
        return line!(text; Word(b"among more\n"));
    }
    Ok(())
}

/// The lines of these faults, of no more than 1,000.
pub fn push_told(text: &mut Vec<u8>, notes: &[Note]) -> Result<()>
    ensures { OnOk result (text.new.items ≡ text.old.items ++ told_lines notes.now) }
{
    push_notes(text, first_notes(notes, AMONG_LIMIT))?;
    push_more(text, notes.len() > AMONG_LIMIT)
}

fn parsed(alloc: Global, oil: &[u8]) -> Result<OilTree, BuildError>
    requires { length oil.now < 4294967295 }
    ensures tree { IfOk result (HasTree oil.now) }
    ensures refused { IfErr result (LacksTree oil.now) }
{
    let tokens = tokens(alloc, oil)?;
    parse(alloc, tokens.as_slice())
}

fn named_text(alloc: Global, faults: &[Note], notes: &mut Vec<Note>, refusal: Refusal) -> Text
    requires { AreInOrder faults.now }
    ensures { IfOk result (TellsNamed faults.now) }
{
    put_in_order(notes)?;
    let mut text = refusal_name(alloc, notes.as_slice(), refusal)?;
    let named = with_names(alloc, faults, notes.as_slice())?;
    push_told(&mut text, &named)?;
    Ok(List::from_vec(text))
}

fn tree_text(alloc: Global, tree: &OilTree, refusal: Refusal) -> Text
    ensures { IfOk result (AreNamedLines Oil (ToldModel tree.now)) }
{
    let mut notes = model_notes(alloc, tree)?;
    let faults = told_list(alloc, &mut notes)?;
    let mut named = oil_names(alloc, tree, &notes, refusal)?;
    named_text(alloc, faults.as_slice(), &mut named, refusal)
}

/// The lines behind a refusal of O7 to O15.
pub fn oil_text(alloc: Global, oil: &[u8], refusal: Refusal) -> Text
    requires { length oil.now < 4294967295 }
    ensures { IfOk result (TellsMeaning oil.now) }
{
    match parsed(alloc, oil) {
        Ok(tree) => tree_text(alloc, &tree, refusal),
        Err(BuildError::Refused(_)) => Ok(List::from_vec(Vec::new(alloc))),
        Err(BuildError::Memory) => Err(NoMemory),
    }
}

// Of faults in order those at a place.
fn place_group<'n, 't>(named: &'n [Note<'t>], place: u64) -> &'n [Note<'t>] {
    let from = named.partition_point(|note| order(note) < place);
    let to = named.partition_point(|note| order(note) <= place);
    if from <= to && to <= named.len() {
        &named[from..to]
    } else {
        &[]
    }
}

fn is_same_place(fault: &Note, note: &Note) -> bool
    ensures { result ≡ is_same_place fault.now note.now }
{
    order(note) == order(fault) && !note.follows
}

// Those of the group that stand where the fault does; the fault itself, where there are none.
fn push_group<'t>(list: &mut Vec<Note<'t>>, fault: &Note<'t>, group: &[Note<'t>]) -> Result<()>
    requires { fault.now.follows ≡ false }
    ensures { OnOk result (AddsGroup fault.now list.old.items list.new.items) }
{
    let mut found = false;
    for note in group {
        if is_same_place(fault, note) {
            push(list, *note)?;
            found = true;
        }
    }
    if found {
        return Ok(());
    }
    push(list, *fault)
}

fn grouped<'t>(alloc: Global, faults: &[Note<'t>], named: &[Note<'t>]) -> Notes<'t>
    requires { AreInOrder faults.now }
    ensures { IfOk result (λ list. NamesAll faults.now list.items) }
{
    let mut list = Vec::new(alloc);
    for fault in faults {
        push_group(&mut list, fault, place_group(named, order(fault)))?;
    }
    Ok(list)
}

fn is_seen(seen: &IndexSet<(u64, &[u8])>, place: u64, name: &[u8]) -> bool
    ensures { result ≡ list_any (is_key place name.now) seen.now.keys }
{
    seen.contains(&(place, name))
}

fn see<'t>(seen: &mut Seen<'t>, place: u64, name: &'t [u8]) -> Result<()>
    ensures { OnOk result ((n : ℕ) (word : List ℕ) → list_any (is_key n word) seen.new.keys
        ≡ (list_any (is_key n word) seen.old.keys || ((place == n) && bytes_eq name.now word))) }
{
    insert(seen, (place, name))
}

fn push_once<'t>(seen: &mut Seen<'t>, list: &mut Vec<Note<'t>>, note: &Note<'t>) -> Result<()>
    requires { AreKeys seen.now.keys list.now.items }
    ensures list { OnOk result (list.new.items ≡ apart_with list.old.items note.now) }
    ensures keys { OnOk result (AreKeys seen.new.keys list.new.items) }
{
    let place = order(note);
    if is_seen(seen, place, note.name) {
        return Ok(());
    }
    see(seen, place, note.name)?;
    push(list, *note)
}

fn first_of_each<'t>(alloc: Global, notes: &[Note<'t>]) -> Notes<'t>
    ensures { IfOk result (λ list. list.items ≡ first_of_each notes.now) }
{
    let mut seen = IndexSet::new(alloc);
    let mut list = Vec::new(alloc);
    for note in notes {
        push_once(&mut seen, &mut list, note)?;
    }
    Ok(list)
}

/// These faults, in order, under the names that others in order have there: each line once, at least one per fault.
pub fn with_names<'t>(alloc: Global, faults: &[Note<'t>], named: &[Note<'t>]) -> Notes<'t>
    requires { AreInOrder faults.now }
    ensures names { IfOk result (λ list. NamesAll faults.now list.items) }
    ensures sorted { IfOk result (λ list. IsNonDecreasingBy note_order list.items) }
    ensures apart { IfOk result (λ list. StandApart list.items) }
{
    let mut list = grouped(alloc, faults, named)?;
    put_in_order(&mut list)?;
    first_of_each(alloc, list.as_slice())
}
