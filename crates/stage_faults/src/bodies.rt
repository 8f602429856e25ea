//! The faults of bodies (A5 to A7). The lines of earlier things, by their names.
ghost use Rattle.std.specs.Prelude.{◌≡◌, ◌+◌, ◌<◌, ◌^◌, ◌⊎◌, length, take, All, OnOk};
ghost use Rattle.sloth_base.specs.declared.refusal.Part.TheVariants.{Src};
ghost use Rattle.sloth_base.specs.Search.{Somewhere};
ghost use Rattle.asm_scopes.specs.Statements.{label_names};
ghost use Rattle.asm_scopes.specs.Bodies.{function_names};
ghost use Rattle.stage_faults.specs.ToldNames.{is_header_beyond, is_line_beyond, ToldHeader, ToldBodyLine};
ghost use Rattle.stage_faults.specs.ToldNames.{ToldLineName, ToldBody};
ghost use Rattle.stage_faults.specs.Told.{Adds};

use crate::Notes;
use crate::notes::{add_bare, add_named};
use asm_lines::{Mnemonic, Operand, SourceLine};
use asm_parse::{
    count_item, count_items, count_label, is_beyond, is_misnamed, is_strange, is_too_great,
};
use asm_scopes::{Body, Scope, is_item, is_label, kind_of, label_names, name_of, written};
use sloth_base::{BODY_LIMIT, Code, ITEM_LIMIT, Result};
use std::alloc::Global;
use text_pieces::{Names, push};

// ---- headers

// A6 of a header behind so many bodies, or a body behind more than there may be.
fn is_header_beyond(count: usize, header: &SourceLine) -> bool
    ensures { result ≡ is_header_beyond count header.now }
{
    is_too_great(count, header) || count > BODY_LIMIT
}

// Behind the first `count` bodies, which begin on the lines `earlier`.
fn add_header_faults<'t>(
    notes: &mut Notes<'t>,
    scope: &Scope,
    lacking: Option<&'t [u8]>,
    earlier: &[u32],
    count: usize,
    number: u32,
    header: &'t SourceLine,
) -> Result<()>
    ensures { OnOk result
        (Adds Src (ToldHeader scope.now (take count scope.now.functions) count number header.now) notes.old.items
        notes.new.items) }
{
    let name = name_of(header);
    let doubled = scope.functions.is_among_first(count, name);
    let first = line_of_first(&scope.functions, earlier, name);
    add_named(notes, doubled, number, Code::A5, name, first)?;
    add_bare(notes, is_header_beyond(count, header), number, Code::A6)?;
    let strange = is_strange(scope, header);
    let name = match lacking {
        Some(task) if number == 1 => task,
        _ => name,
    };
    add_named(notes, strange, number, Code::A7, name, None)
}

// ---- lines

fn unknown<'t>(scope: &Scope, labels: &Names, word: Mnemonic, operands: &'t [Operand]) -> &'t [u8] {
    for (place, operand) in operands.iter().enumerate() {
        if scope.is_lacking(labels, kind_of(word, place), operand) {
            return written(operand).unwrap_or(b"");
        }
    }
    b""
}

// The name that A5 concerns: that of a doubled label, else the first that names nothing.
fn misnamed<'t>(scope: &Scope, labels: &Names, at: Option<u32>, line: &'t SourceLine) -> &'t [u8] {
    match line {
        _ if at.is_some() => name_of(line),
        SourceLine::Statement { mnemonic, operands } => {
            unknown(scope, labels, *mnemonic, operands.items())
        },
        _ => b"",
    }
}

// A6 of a line behind so many items, or an item behind more than there may be.
fn is_line_beyond(items: usize, line: &SourceLine) -> bool
    ensures { result ≡ is_line_beyond items line.now }
{
    is_beyond(items, line) || (is_item(line) && items > ITEM_LIMIT)
}

// Behind the first labels, so many, which stand on the lines `earlier`.
fn add_line_faults<'t>(
    notes: &mut Notes<'t>,
    scope: &Scope,
    labels: &Names,
    earlier: &[u32],
    before: Before,
    number: u32,
    line: &'t SourceLine,
) -> Result<()>
    ensures { OnOk result
        (Adds Src (ToldBodyLine scope.now labels.now (take before.count labels.now) before.items number line.now)
        notes.old.items notes.new.items) }
{
    let test = is_misnamed(scope, labels, before.count, line);
    let first = if is_label(line) {
        line_of_first(labels, earlier, name_of(line))
    } else {
        None
    };
    let name = misnamed(scope, labels, first, line);
    add_named(notes, test, number, Code::A5, name, first)?;
    add_bare(notes, is_line_beyond(before.items, line), number, Code::A6)
}

// The faults of the lines of a body, whose header stands on line `number` behind so many items.
fn line_faults<'t>(
    alloc: Global,
    notes: &mut Notes<'t>,
    scope: &Scope,
    labels: &Names,
    items: usize,
    number: u32,
    lines: &'t [SourceLine],
) -> Result<()>
    requires few { number + length lines.now < 2 ^ 32 }
    requires items { items + length lines.now < 2 ^ 64 }
    requires labels { labels.now ≡ label_names lines.now }
    ensures { OnOk result
        (Adds Src (Somewhere (ToldLineName scope.now labels.now items number) lines.now) notes.old.items
        notes.new.items) }
{
    let mut earlier = Vec::new(alloc);
    let mut count = 0;
    let mut items = items;
    for (n, line) in lines.iter().enumerate() {
        let number = number + n as u32 + 1;
        let before = Before { count, items };
        add_line_faults(notes, scope, labels, &earlier, before, number, line)?;
        push_line(&mut earlier, is_label(line), number)?;
        count += count_label(line);
        items += count_item(line);
    }
    Ok(())
}

// ---- bodies

fn body_faults<'t>(
    alloc: Global,
    notes: &mut Notes<'t>,
    scope: &Scope,
    lacking: Option<&'t [u8]>,
    earlier: &[u32],
    before: Before,
    body: &Body<'t>,
) -> Result<()>
    requires few { body.now.line + length body.now.lines < 2 ^ 32 }
    requires items { before.items + length body.now.lines < 2 ^ 64 }
    ensures { OnOk result (Adds Src (λ r. ToldHeader scope.now (take before.count scope.now.functions) before.count
        body.now.line body.now.header r ⊎ Somewhere (ToldLineName scope.now (label_names body.now.lines) before.items
        body.now.line) body.now.lines r) notes.old.items notes.new.items) }
{
    let labels = label_names(alloc, body.lines())?;
    let number = body.line();
    let count = before.count;
    add_header_faults(notes, scope, lacking, earlier, count, number, body.header())?;
    let items = before.items;
    line_faults(alloc, notes, scope, &labels, items, number, body.lines())
}

/// The faults of these bodies. `lacking`: the first task without a body, if there is one.
pub fn body_notes<'t>(
    alloc: Global,
    notes: &mut Notes<'t>,
    scope: &Scope,
    lacking: Option<&'t [u8]>,
    bodies: &[Body<'t>],
) -> Result<()>
    requires few { length bodies.now < 2 ^ 32 }
    requires short { All (λ body. body.line + length body.lines < 2 ^ 32) bodies.now }
    requires functions { scope.now.functions ≡ function_names bodies.now }
    ensures { OnOk result (Adds Src (Somewhere (ToldBody scope.now) bodies.now) notes.old.items notes.new.items) }
{
    let mut earlier = Vec::new(alloc);
    let mut items = 0;
    for (n, body) in bodies.iter().enumerate() {
        let before = Before { count: n, items };
        body_faults(alloc, notes, scope, lacking, &earlier, before, body)?;
        push(&mut earlier, body.line())?;
        items += count_items(body.lines());
    }
    Ok(())
}

/// What stands before a line or a body: so many labels or bodies, and so many items.
#[derive(Clone, Copy)]
pub struct Before {
    pub count: usize,
    pub items: usize,
}

/// The line of the first thing of this name, if it is among the first, which stand on these lines.
pub fn line_of_first(names: &Names, lines: &[u32], name: &[u8]) -> Option<u32> {
    match names.number(name) {
        Some(number) if number < lines.len() => Some(lines[number]),
        _ => None,
    }
}

/// One line more, where a test says so.
pub fn push_line(lines: &mut Vec<u32>, test: bool, line: u32) -> Result<()> {
    if test {
        return push(lines, line);
    }
    Ok(())
}
