//! What a line of task source says: what it declares, and the names that it writes. The bodies of task source.
ghost use Rattle.std.specs.Prelude.{◌≡◌, ◌≤◌, map, filter, IfOk, option_copied, ◌^◌, ◌<◌, not, length};
ghost use Rattle.sloth_base.specs.Limits.{operand_limit};
ghost use Rattle.asm_scopes.specs.Statements.{is_data, opens_body, closes_body, is_task, is_label, is_item, first_name, name_of, number_of, written_name, declares, symbol_names, label_names};
ghost use Rattle.std.specs.List.{prefix_len};
ghost use Rattle.asm_scopes.specs.Bodies.{bodies_of, body_name, is_task_body};

use asm_lines::{Mnemonic, Operand, SourceLine, closes, opens};
use sloth_base::{OPERAND_LIMIT, Result};
use std::alloc::Global;
use std::marker::Model;
use text_pieces::{Names, push};

/// Whether the line declares a symbol.
pub fn is_data(line: &SourceLine) -> bool
    ensures { result ≡ is_data line.now }
{
    matches!(
        line,
        SourceLine::Statement {
            mnemonic: Mnemonic::Data,
            ..
        }
    )
}

/// Whether the line is the header of a body.
pub fn opens_body(line: &SourceLine) -> bool
    ensures { result ≡ opens_body line.now }
{
    matches!(line, SourceLine::Statement { mnemonic, .. } if opens(*mnemonic))
}

/// Whether the line closes a body.
pub fn closes_body(line: &SourceLine) -> bool
    ensures { result ≡ closes_body line.now }
{
    matches!(line, SourceLine::Statement { mnemonic, .. } if closes(*mnemonic))
}

/// Whether the line is the header of a task's body.
pub fn is_task(line: &SourceLine) -> bool
    ensures { result ≡ is_task line.now }
{
    matches!(
        line,
        SourceLine::Statement {
            mnemonic: Mnemonic::Task,
            ..
        }
    )
}

/// Whether the line is a label.
pub fn is_label(line: &SourceLine) -> bool
    ensures { result ≡ is_label line.now }
{
    matches!(
        line,
        SourceLine::Statement {
            mnemonic: Mnemonic::Label,
            ..
        }
    )
}

/// Whether the line is an item: a statement of a body that does something.
pub fn is_item(line: &SourceLine) -> bool
    ensures { result ≡ is_item line.now }
{
    let SourceLine::Statement { mnemonic, .. } = line else {
        return false;
    };
    match mnemonic {
        Mnemonic::Data | Mnemonic::Task | Mnemonic::Func | Mnemonic::End | Mnemonic::Label => {
            false
        },
        _ => true,
    }
}

/// The name in front of these operands.
pub fn first_name(operands: &[Operand]) -> &[u8]
    ensures { result.now ≡ first_name operands.now }
{
    match operands {
        [Operand::Name(name), ..] => name.bytes(),
        _ => &[],
    }
}

/// The name that a line declares.
pub fn name_of(line: &SourceLine) -> &[u8]
    ensures { result.now ≡ name_of line.now }
{
    match line {
        SourceLine::Statement { operands, .. } => first_name(operands.items()),
        _ => &[],
    }
}

/// The size of a symbol, or the words of a frame: the number behind the name, 0 where there is none.
pub fn number_of(line: &SourceLine) -> u32
    ensures value { result ≡ number_of line.now }
    ensures bound { result ≤ operand_limit }
{
    match line {
        SourceLine::Statement { operands, .. } => match operands.items() {
            [_, Operand::Number(n), ..] if *n >= 0 && *n <= OPERAND_LIMIT => *n as u32,
            _ => 0,
        },
        _ => 0,
    }
}

/// The name that an operand writes.
pub fn written(operand: &Operand) -> Option<&[u8]>
    ensures { option_copied result ≡ written_name operand.now }
{
    match operand {
        Operand::Name(name) | Operand::Direct { name, .. } | Operand::Indexed { name, .. } => {
            Some(name.bytes())
        },
        _ => None,
    }
}

/// What lines declare.
#[derive(Clone, Copy)]
pub enum Declared {
    Symbol,
    Label,
}

fn declares(declared: Declared, line: &SourceLine) -> bool
    ensures { result ≡ declares declared line.now }
{
    match declared {
        Declared::Symbol => is_data(line),
        Declared::Label => is_label(line),
    }
}

fn names_declared<'t>(alloc: Global, kind: Declared, lines: &'t [SourceLine]) -> Result<Names<'t>>
    ensures { IfOk result (λ names. names ≡ map name_of (filter (declares kind) lines.now)) }
{
    let mut names = Names::new(alloc);
    for line in lines {
        if declares(kind, line) {
            names = names.with(name_of(line))?;
        }
    }
    Ok(names)
}

/// The names of the symbols that these lines declare.
pub fn symbol_names<'t>(alloc: Global, lines: &'t [SourceLine]) -> Result<Names<'t>>
    ensures { IfOk result (λ names. names ≡ symbol_names lines.now) }
{
    names_declared(alloc, Declared::Symbol, lines)
}

/// The names of the labels among these lines.
pub fn label_names<'t>(alloc: Global, lines: &'t [SourceLine]) -> Result<Names<'t>>
    ensures { IfOk result (λ names. names ≡ label_names lines.now) }
{
    names_declared(alloc, Declared::Label, lines)
}

/// A body: the number of its header's line, the header, and the lines behind it up to the next `end`.
#[derive(Drop)]
pub struct Body<'t> {
    line: u32,
    header: &'t SourceLine,
    lines: &'t [SourceLine],
}

impl<'t> Model for Body<'t> {
    ghost use Rattle.asm_scopes.specs.Bodies.{BodyText};

    ghost Value = { BodyText };

    ghost view = { λ body. record { line = body.line; header = body.header.now; lines = body.lines.now } };
}

impl<'t> Body<'t> {
    /// The number of the header's line.
    pub fn line(&self) -> u32
        ensures { result ≡ self.now.line }
    {
        self.line
    }

    /// The header.
    pub fn header(&self) -> &'t SourceLine
        ensures { result.now ≡ self.now.header }
    {
        self.header
    }

    /// The lines behind the header.
    pub fn lines(&self) -> &'t [SourceLine]
        ensures { result.now ≡ self.now.lines }
    {
        self.lines
    }

    /// The name in the header.
    pub fn name(&self) -> &'t [u8]
        ensures { result.now ≡ body_name self.now }
    {
        name_of(self.header)
    }

    /// Whether it is the body of a task.
    pub fn is_task(&self) -> bool
        ensures { result ≡ is_task_body self.now }
    {
        is_task(self.header)
    }
}

fn count_before_end(lines: &[SourceLine]) -> usize
    ensures value { result ≡ prefix_len (λ x. not (closes_body x)) lines.now }
    ensures within { result ≤ length lines.now }
{
    for (n, line) in lines.iter().enumerate() {
        if closes_body(line) {
            return n;
        }
    }
    lines.len()
}

/// The bodies of these lines.
pub fn bodies_of<'t>(alloc: Global, lines: &'t [SourceLine]) -> Result<Vec<Body<'t>>>
    requires { length lines.now < 2 ^ 32 }
    ensures { IfOk result (λ bodies. bodies.items ≡ bodies_of lines.now) }
{
    let mut bodies = Vec::new(alloc);
    for (n, header) in lines.iter().enumerate() {
        if opens_body(header) {
            let behind = &lines[n + 1..];
            let body = Body {
                line: n as u32 + 1,
                header,
                lines: &behind[..count_before_end(behind)],
            };
            push(&mut bodies, body)?;
        }
    }
    Ok(bodies)
}
