//! A5 to A7 of bodies. The least fault of names and limits. Long names, and what counts against a limit.
ghost use Rattle.std.specs.Prelude.{◌≡◌, ◌+◌, ◌<◌, ◌^◌, take, length, ◌⊎◌, All, IfOk, ◌≤◌, if◌then◌else◌, count_by};
ghost use Rattle.sloth_base.specs.Search.{IsSearchResult, Somewhere};
ghost use Rattle.asm_scopes.specs.Statements.{label_names, is_data, is_label, is_item, written_name};
ghost use Rattle.asm_scopes.specs.Bodies.{function_names, bodies_of};
ghost use Rattle.asm_parse.specs.NameFaults.{is_too_great, is_strange, is_misnamed, is_beyond, HeaderFault, BodyLineFault, LineNameFault, BodyNameFault, is_body_missing, NameFault, has_long_name, has_long, bytes_of};
ghost use Rattle.asm_scopes.specs.Scopes.{scope_of};
ghost use Rattle.std.specs.List.{list_any};
ghost use Rattle.sloth_base.specs.Limits.{operand_limit};

use crate::apps::data_faults;
use asm_lines::{Operand, SourceLine};
use asm_scopes::{
    Body, Scope, is_data, is_item, is_label, is_task, label_names, name_of, number_of, scope_of,
    task_body_names, written,
};
use sloth_base::refusal::{fault_if, merge};
use sloth_base::{
    BODY_LIMIT, Code, Config, FRAME_LIMIT, ITEM_LIMIT, NAME_LIMIT, Part, Refusal, Result,
};
use std::alloc::Global;
use text_pieces::Names;

/// The least refusal that was found, or none.
pub type Found = Option<Refusal>;

/// The same, where memory may be wanting.
pub type Verdict = Result<Found>;

/// A6 of a header behind so many bodies: one body too many, a frame of too many words, or a long name.
pub fn is_too_great(count: usize, header: &SourceLine) -> bool
    ensures { result ≡ is_too_great count header.now }
{
    count == BODY_LIMIT || number_of(header) > FRAME_LIMIT as u32 || has_long(header)
}

/// A7 of a header: the body of a task that the configuration has not.
pub fn is_strange(scope: &Scope, header: &SourceLine) -> bool
    ensures { result ≡ is_strange scope.now header.now }
{
    is_task(header) && !scope.tasks.has(name_of(header))
}

fn header_fault(scope: &Scope, count: usize, number: u32, header: &SourceLine) -> Found
    ensures { IsSearchResult (HeaderFault scope.now (take count scope.now.functions) count number header.now) result }
{
    let doubled = scope.functions.is_among_first(count, name_of(header));
    let doubled = fault_if(doubled, Part::Src, number, Code::A5);
    let great = fault_if(is_too_great(count, header), Part::Src, number, Code::A6);
    let strange = fault_if(is_strange(scope, header), Part::Src, number, Code::A7);
    merge(doubled, merge(great, strange))
}

/// A5 of a line: a label of the name of one of the first `count`, or a use of a name that nothing has.
pub fn is_misnamed(scope: &Scope, labels: &Names, count: usize, line: &SourceLine) -> bool
    ensures { result ≡ is_misnamed scope.now labels.now (take count labels.now) line.now }
{
    (is_label(line) && labels.is_among_first(count, name_of(line)))
        || scope.has_unknown(labels, line)
}

/// A6 of a line behind so many items: one item too many, or a long name.
pub fn is_beyond(items: usize, line: &SourceLine) -> bool
    ensures { result ≡ is_beyond items line.now }
{
    (is_item(line) && items == ITEM_LIMIT) || has_long(line)
}

fn inner_fault(
    scope: &Scope,
    labels: &Names,
    count: usize,
    items: usize,
    number: u32,
    line: &SourceLine,
) -> Found
    ensures { IsSearchResult (BodyLineFault scope.now labels.now (take count labels.now) items number line.now) result }
{
    let test = is_misnamed(scope, labels, count, line);
    let misnamed = fault_if(test, Part::Src, number, Code::A5);
    let beyond = fault_if(is_beyond(items, line), Part::Src, number, Code::A6);
    merge(misnamed, beyond)
}

// The least fault of the lines of a body, whose header stands on line `at` behind so many items.
fn line_faults(scope: &Scope, labels: &Names, items: usize, at: u32, lines: &[SourceLine]) -> Found
    requires few { at + length lines.now < 2 ^ 32 }
    requires items { items + length lines.now < 2 ^ 64 }
    requires labels { labels.now ≡ label_names lines.now }
    ensures { IsSearchResult (Somewhere (LineNameFault scope.now labels.now items at) lines.now) result }
{
    let mut least = None;
    let mut count = 0;
    let mut items = items;
    for (n, line) in lines.iter().enumerate() {
        let number = at + n as u32 + 1;
        let found = inner_fault(scope, labels, count, items, number, line);
        least = merge(least, found);
        count += count_label(line);
        items += count_item(line);
    }
    least
}

fn body_fault(alloc: Global, scope: &Scope, count: usize, items: usize, body: &Body) -> Verdict
    requires few { body.now.line + length body.now.lines < 2 ^ 32 }
    requires items { items + length body.now.lines < 2 ^ 64 }
    ensures { IfOk result (λ found. IsSearchResult (λ r.
        HeaderFault scope.now (take count scope.now.functions) count body.now.line body.now.header r
        ⊎ Somewhere (LineNameFault scope.now
        (label_names body.now.lines) items body.now.line) body.now.lines r) found) }
{
    let labels = label_names(alloc, body.lines())?;
    let of_header = header_fault(scope, count, body.line(), body.header());
    let of_lines = line_faults(scope, &labels, items, body.line(), body.lines());
    Ok(merge(of_header, of_lines))
}

/// The least fault of these bodies.
pub fn body_faults(alloc: Global, scope: &Scope, bodies: &[Body]) -> Verdict
    requires few { length bodies.now < 2 ^ 32 }
    requires short { All (λ body. body.line + length body.lines < 2 ^ 32) bodies.now }
    requires functions { scope.now.functions ≡ function_names bodies.now }
    ensures { IfOk result (λ found. IsSearchResult (Somewhere (BodyNameFault scope.now) bodies.now) found) }
{
    let mut least = None;
    let mut items = 0;
    for (n, body) in bodies.iter().enumerate() {
        let found = body_fault(alloc, scope, n, items, body)?;
        least = merge(least, found);
        items += count_items(body.lines());
    }
    Ok(least)
}

/// A7 of line 1: a task of the configuration has no body.
pub fn is_body_missing(alloc: Global, config: &Config, bodies: &[Body]) -> Result<bool>
    ensures { IfOk result (λ lacks. lacks ≡ is_body_missing config.now bodies.now) }
{
    let names = task_body_names(alloc, bodies)?;
    let tasks = config.tasks.items();
    Ok(tasks.iter().any(|task| !names.has(task.name.bytes())))
}

/// The least fault of names and limits in these lines: A5 for a doubled name, or one that nothing of the wanted kind
/// has; A6 for a limit that is passed; A7 for a task without a body, or a body without its task.
pub fn judge(alloc: Global, config: &Config, lines: &[SourceLine], bodies: &[Body]) -> Verdict
    requires few { length lines.now < 2 ^ 32 }
    requires bodies { bodies.now ≡ bodies_of lines.now }
    ensures { IfOk result (λ found. IsSearchResult (NameFault config.now lines.now) found) }
{
    let scope = scope_of(alloc, config, lines, bodies)?;
    let of_data = data_faults(&scope.symbols, lines);
    let of_bodies = body_faults(alloc, &scope, bodies)?;
    let lacks = is_body_missing(alloc, config, bodies)?;
    let of_tasks = fault_if(lacks, Part::Src, 1, Code::A7);
    Ok(merge(of_data, merge(of_bodies, of_tasks)))
}

fn has_long_name(operand: &Operand) -> bool
    ensures { result ≡ has_long_name (written_name operand.now) }
{
    match written(operand) {
        Some(name) => name.len() > NAME_LIMIT,
        None => false,
    }
}

fn any_long(operands: &[Operand]) -> bool
    ensures { result ≡ list_any (λ x. has_long_name (written_name x)) operands.now }
{
    operands.iter().any(|operand| has_long_name(operand))
}

/// Whether one of the names that a line writes is long.
pub fn has_long(line: &SourceLine) -> bool
    ensures { result ≡ has_long line.now }
{
    match line {
        SourceLine::Statement { operands, .. } => any_long(operands.items()),
        _ => false,
    }
}

/// The bytes that a line declares.
pub fn bytes_of(line: &SourceLine) -> usize
    ensures value { result ≡ bytes_of line.now }
    ensures bound { result ≤ operand_limit }
{
    if is_data(line) {
        number_of(line) as usize
    } else {
        0
    }
}

/// One for a line that declares a symbol.
pub fn count_data(line: &SourceLine) -> usize
    ensures { result ≡ (if is_data line.now then 1 else 0) }
{
    usize::from(is_data(line))
}

/// One for a label.
pub fn count_label(line: &SourceLine) -> usize
    ensures { result ≡ (if is_label line.now then 1 else 0) }
{
    usize::from(is_label(line))
}

/// One for an item.
pub fn count_item(line: &SourceLine) -> usize
    ensures { result ≡ (if is_item line.now then 1 else 0) }
{
    usize::from(is_item(line))
}

/// How many of these lines are items.
pub fn count_items(lines: &[SourceLine]) -> usize
    ensures value { result ≡ count_by is_item lines.now }
    ensures few { result ≤ length lines.now }
{
    let mut items = 0;
    for line in lines {
        items += count_item(line);
    }
    items
}
