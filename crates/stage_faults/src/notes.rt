//! Faults with the names that they concern. The faults of the lines of a text (A1 to A4).
//! The faults of names and limits in task source (A5 to A7). Faults as they are told: in order, each once.
//! The faults of symbols (A5 and A6).
ghost use Rattle.std.specs.Prelude.{OnOk, ◌≡◌, ◌<◌, length, IfOk, ◌^◌, ◌+◌, ◌||◌, take};
ghost use Rattle.sloth_base.specs.declared.refusal.Part.{Part};
ghost use Rattle.sloth_base.specs.Cases.{CaseOf, fault_at};
ghost use Rattle.stage_faults.specs.Told.{Adds, AreAll, note_order, told_from, AreInOrder, TellSame};
ghost use Rattle.sloth_base.specs.declared.refusal.Part.TheVariants.{Src};
ghost use Rattle.stage_faults.specs.ToldNarrow.{ToldForm};
ghost use Rattle.asm_scopes.specs.Bodies.{bodies_of};
ghost use Rattle.asm_scopes.specs.Scopes.{scope_of};
ghost use Rattle.stage_faults.specs.ToldNames.{ToldName, is_symbol_beyond, ToldSymbol, ToldData};
ghost use Rattle.std.specs.List.Sorted.{IsPermutation, IsNonDecreasingBy};
ghost use Rattle.sloth_base.specs.Search.{Somewhere};
ghost use Rattle.asm_scopes.specs.Statements.{symbol_names};

use crate::bodies::{body_notes, line_of_first, push_line};
use crate::narrow::{add_all, add_narrow};
use asm_lines::{SourceLine, read_lines};
use asm_parse::{bytes_of, count_data, is_body_missing, is_taken, is_too_much};
use asm_scopes::{Body, is_data, name_of, scope_of, task_body_names};
use sloth_base::{Code, Config, Result, SYMBOL_LIMIT};
use std::alloc::Global;
use text_pieces::{Names, push};

/// Where in an OIL tree a fault stands.
#[derive(Clone, Copy)]
pub struct Position {
    /// The number of its object.
    pub object: usize,
    /// The number of its attribute there, from 1; 0 for the object itself.
    pub attribute: usize,
}

impl Position {
    /// That of an object itself.
    pub fn of(object: usize) -> Position {
        let attribute = 0;
        Position { object, attribute }
    }

    /// So many attributes behind, in the same object.
    pub fn behind(self, count: usize) -> Position {
        let (object, attribute) = (self.object, self.attribute.saturating_add(count));
        Position { object, attribute }
    }
}

/// A fault of a text: its line and code, and the name that it concerns, empty where there is none.
#[derive(Clone, Copy)]
pub struct Note<'t> {
    pub line: u32,
    pub code: Code,
    pub name: &'t [u8],
    /// The line of an earlier thing that it collides with.
    pub first: Option<u32>,
    /// Whether it follows from another fault.
    pub follows: bool,
    /// Of O9, O10 and O12 in an OIL tree, by which names of one line and code are in order.
    pub position: Position,
}

/// Faults of a text.
pub type Notes<'t> = Vec<Note<'t>>;

fn add<'t>(
    notes: &mut Notes<'t>,
    line: u32,
    code: Code,
    name: &'t [u8],
    first: Option<u32>,
    position: Position,
) -> Result<()>
    ensures { OnOk result
        ((part : Part) → Adds part (λ r. r ≡ fault_at part line code) notes.old.items notes.new.items) }
{
    let note = Note {
        line,
        code,
        name,
        first,
        follows: false,
        position,
    };
    push(notes, note)
}

/// One fault more where a test says so, with the name that it concerns and the line of an earlier thing.
pub fn add_named<'t>(
    notes: &mut Notes<'t>,
    test: bool,
    line: u32,
    code: Code,
    name: &'t [u8],
    first: Option<u32>,
) -> Result<()>
    ensures { OnOk result ((part : Part) → Adds part (CaseOf part test line code) notes.old.items notes.new.items) }
{
    if test {
        return add(notes, line, code, name, first, Position::of(0));
    }
    Ok(())
}

/// One fault more at a position where a test says so, with the name that it concerns.
pub fn add_placed<'t>(
    notes: &mut Notes<'t>,
    test: bool,
    line: u32,
    code: Code,
    name: &'t [u8],
    position: Position,
) -> Result<()>
    ensures { OnOk result ((part : Part) → Adds part (CaseOf part test line code) notes.old.items notes.new.items) }
{
    if test {
        return add(notes, line, code, name, None, position);
    }
    Ok(())
}

/// A fault more that follows from another, so is not told, where a test says so.
pub fn add_following<'t>(
    notes: &mut Notes<'t>,
    test: bool,
    line: u32,
    code: Code,
    name: &'t [u8],
) -> Result<()>
    ensures { OnOk result ((part : Part) → Adds part (λ r. ⊥) notes.old.items notes.new.items) }
{
    if test {
        let note = Note {
            line,
            code,
            name,
            first: None,
            follows: true,
            position: Position::of(0),
        };
        return push(notes, note);
    }
    Ok(())
}

/// One fault more where a test says so, with no name.
pub fn add_bare<'t>(notes: &mut Notes<'t>, test: bool, line: u32, code: Code) -> Result<()>
    ensures { OnOk result ((part : Part) → Adds part (CaseOf part test line code) notes.old.items notes.new.items) }
{
    add_named(notes, test, line, code, b"", None)
}

/// The faults of the lines of a text. Of those that are A1 by their place alone, as the missing `end`, the first.
pub fn line_notes<'t>(alloc: Global, text: &[u8]) -> Result<Notes<'t>>
    requires { length text.now < 4294967295 }
    ensures { IfOk result (λ notes. AreAll Src (ToldForm text.now) notes.items) }
{
    let lines = read_lines(alloc, text)?;
    let mut notes = Vec::new(alloc);
    add_all(&mut notes, lines.items())?;
    add_narrow(alloc, &mut notes, text)?;
    Ok(notes)
}

fn lacking<'t>(alloc: Global, config: &'t Config, bodies: &[Body]) -> Result<Option<&'t [u8]>> {
    let names = task_body_names(alloc, bodies)?;
    for task in config.tasks.items() {
        if !names.has(task.name.bytes()) {
            return Ok(Some(task.name.bytes()));
        }
    }
    Ok(None)
}

/// The faults of names and limits in these lines with these bodies.
pub fn name_notes<'t>(
    alloc: Global,
    config: &'t Config,
    lines: &'t [SourceLine],
    bodies: &[Body<'t>],
) -> Result<Notes<'t>>
    requires few { length lines.now < 2 ^ 32 }
    requires bodies { bodies.now ≡ bodies_of lines.now }
    ensures { IfOk result (λ notes. AreAll Src (ToldName config.now lines.now) notes.items) }
{
    let scope = scope_of(alloc, config, lines, bodies)?;
    let mut notes = Vec::new(alloc);
    let lacking = lacking(alloc, config, bodies)?;
    let lacks = is_body_missing(alloc, config, bodies)?;
    symbol_notes(alloc, &mut notes, &scope.symbols, lines)?;
    body_notes(alloc, &mut notes, &scope, lacking, bodies)?;
    add_named(&mut notes, lacks, 1, Code::A7, lacking.unwrap_or(b""), None)?;
    Ok(notes)
}

/// The place of a fault among all: by its line, and on one line by its code.
pub fn order(note: &Note) -> u64
    ensures { result ≡ note_order note.now }
{
    u64::from(note.line) * 64 + u64::from(note.code as u8)
}

fn order_behind(note: &Note) -> u64
    ensures { result ≡ note_order note.now + 1 }
{
    u64::from(note.line) * 64 + u64::from(note.code as u8) + 1
}

/// The same faults by line, and on one line by code.
pub fn put_in_order(notes: &mut Vec<Note>) -> Result<()>
    ensures permutation { OnOk result (IsPermutation notes.old.items notes.new.items) }
    ensures sorted { OnOk result (IsNonDecreasingBy note_order notes.new.items) }
{
    notes.sort_by_key(|note| order(note))?;
    Ok(())
}

// Of faults in order the first of each place.
fn distinct<'t>(alloc: Global, notes: &[Note<'t>]) -> Result<Notes<'t>>
    ensures { IfOk result (λ list. list.items ≡ told_from 0 notes.now) }
{
    let mut list = Vec::new(alloc);
    let mut place = 0;
    for note in notes {
        if !(note.follows || order(note) < place) {
            push(&mut list, *note)?;
            place = order_behind(note);
        }
    }
    Ok(list)
}

/// These faults by line, and on one line by code, one for each line and code; those that follow from others are left
/// out. Sorts the list that is given.
pub fn told_list<'t>(alloc: Global, notes: &mut Notes<'t>) -> Result<Notes<'t>>
    ensures in_order { IfOk result (λ list. AreInOrder list.items) }
    ensures same { IfOk result (λ list. TellSame notes.old.items list.items) }
{
    put_in_order(notes)?;
    distinct(alloc, notes.as_slice())
}

// A6 of a symbol behind so many, of so many bytes, or a symbol behind more than there may be.
fn is_symbol_beyond(count: usize, bytes: usize, line: &SourceLine) -> bool
    requires { bytes < 2 ^ 63 }
    ensures { result ≡ is_symbol_beyond count bytes line.now }
{
    is_too_much(count, bytes, line) || (is_data(line) && count > SYMBOL_LIMIT)
}

// Behind the first `count` symbols, which stand on the lines `earlier` and have so many bytes.
fn add_faults<'t>(
    notes: &mut Notes<'t>,
    symbols: &Names,
    earlier: &[u32],
    count: usize,
    bytes: usize,
    number: u32,
    line: &'t SourceLine,
) -> Result<()>
    requires { bytes < 2 ^ 63 }
    ensures { OnOk result
        (Adds Src (ToldSymbol (take count symbols.now) count bytes number line.now) notes.old.items notes.new.items) }
{
    let name = name_of(line);
    let first = line_of_first(symbols, earlier, name);
    let taken = is_taken(symbols, count, line);
    add_named(notes, taken, number, Code::A5, name, first)?;
    let beyond = is_symbol_beyond(count, bytes, line);
    add_bare(notes, beyond, number, Code::A6)
}

/// The faults of the symbols that these lines declare.
pub fn symbol_notes<'t>(
    alloc: Global,
    notes: &mut Notes<'t>,
    symbols: &Names,
    lines: &'t [SourceLine],
) -> Result<()>
    requires few { length lines.now < 2 ^ 32 }
    requires symbols { symbols.now ≡ symbol_names lines.now }
    ensures { OnOk result (Adds Src (Somewhere ToldData lines.now) notes.old.items notes.new.items) }
{
    let mut earlier = Vec::new(alloc);
    let mut count = 0;
    let mut bytes = 0;
    for (n, line) in lines.iter().enumerate() {
        let number = n as u32 + 1;
        add_faults(notes, symbols, &earlier, count, bytes, number, line)?;
        push_line(&mut earlier, is_data(line), number)?;
        count += count_data(line);
        bytes += bytes_of(line);
    }
    Ok(())
}
