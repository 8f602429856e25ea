//! What a line of task source is. Reads task source. Bytes of task source. The faults of lines: A1 to A4.
ghost use Rattle.std.specs.Prelude.{◌≡◌, IfOk, map, ◌<◌, length, IfErr, OnOk, reverse, ◌^◌};
ghost use Rattle.text_pieces.specs.Names.{referent};
ghost use Rattle.asm_lines.specs.SourceLines.{has_empty, read_operands, source_line};
ghost use Rattle.asm_lines.specs.Lines.{operands_of};
ghost use Rattle.asm_lines.specs.Bytes.{trim, trim_start, is_blank, is_shown, is_letter, word_of};
ghost use Rattle.sloth_base.specs.Order.{ErrorIs, NoFault};
ghost use Rattle.asm_lines.specs.Faults.{source_lines, SourceLinesFault, is_wrong, is_outside, is_long, is_a1, is_a2, is_a3, is_a4, after_line, LineFault, SourceFault};
ghost use Rattle.std.specs.List.{take_while, list_all, list_any};
ghost use Rattle.sloth_base.specs.ImageRange.{continues_word};
ghost use Rattle.sloth_base.specs.Search.{IsSearchResult};

use crate::operands::read_operand;
use crate::table::mnemonic;
use crate::{Mnemonic, Operand, closes, form_of, is_outer, opens, takes};
use sloth_base::refusal::{fault_if, merge};
use sloth_base::{BuildError, Code, List, Part, Refusal, Result};
use std::alloc::Global;
use text_pieces::{after, before, continues_word, front, lines, push, split};

/// What a line of task source is.
#[derive(Drop)]
pub enum SourceLine {
    /// It has blanks and a comment alone.
    Empty,
    /// It has not the shape of a statement.
    Shapeless,
    /// Its first word begins no statement.
    Unknown,
    /// A statement; its operands may be wrong.
    Statement {
        mnemonic: Mnemonic,
        operands: List<Operand>,
    },
}

fn trimmed<'a>(alloc: Global, parts: &[&'a [u8]]) -> Result<Vec<&'a [u8]>>
    ensures { IfOk result (λ operands. map referent operands.items ≡ map trim (map referent parts.now)) }
{
    let mut operands = Vec::new(alloc);
    for part in parts {
        push(&mut operands, trim(*part))?;
    }
    Ok(operands)
}

#[tactic(auto, unfolding(crate::specs::Lines::operands_of))]
fn operand_texts<'a>(alloc: Global, text: &'a [u8]) -> Result<Vec<&'a [u8]>>
    ensures { IfOk result (λ operands. map referent operands.items ≡ operands_of text.now) }
{
    if text.is_empty() {
        return Ok(Vec::new(alloc));
    }
    let parts = split(alloc, text, b',')?;
    trimmed(alloc, parts.as_slice())
}

#[tactic(auto, unfolding(crate::specs::SourceLines::has_empty))]
fn has_empty(texts: &[&[u8]]) -> bool
    ensures { result ≡ has_empty (map referent texts.now) }
{
    for text in texts {
        if text.is_empty() {
            return true;
        }
    }
    false
}

fn read_operands(alloc: Global, mnemonic: Mnemonic, texts: &[&[u8]]) -> Result<Vec<Operand>>
    ensures { IfOk result (λ operands. operands.items ≡ read_operands mnemonic 0 (map referent texts.now)) }
{
    let mut operands = Vec::new(alloc);
    for (place, text) in texts.iter().enumerate() {
        let operand = read_operand(alloc, form_of(mnemonic, place), *text)?;
        push(&mut operands, operand)?;
    }
    Ok(operands)
}

/// What a line is.
#[tactic(auto, unfolding(crate::specs::SourceLines::source_line, crate::specs::SourceLines::statement_of, crate::specs::SourceLines::begins_statement))]
pub fn source_line(alloc: Global, line: &[u8]) -> Result<SourceLine>
    ensures { IfOk result (λ found. found ≡ source_line line.now) }
{
    let text = trim(before(line, b'#'));
    if text.is_empty() {
        return Ok(SourceLine::Empty);
    }
    let word = first_word(text);
    let rest = after(text, word.len());
    if !are_shown(text) || !begins_with_letter(text) || !(rest.is_empty() || is_blank(rest[0])) {
        return Ok(SourceLine::Shapeless);
    }
    let texts = operand_texts(alloc, rest)?;
    if has_empty(texts.as_slice()) {
        return Ok(SourceLine::Shapeless);
    }
    let Some(mnemonic) = mnemonic(word) else {
        return Ok(SourceLine::Unknown);
    };
    let operands = List::from_vec(read_operands(alloc, mnemonic, texts.as_slice())?);
    Ok(SourceLine::Statement { mnemonic, operands })
}

fn all_read(alloc: Global, lines: &[&[u8]]) -> Result<Vec<SourceLine>>
    ensures { IfOk result (λ read. read.items ≡ map source_line (map referent lines.now)) }
{
    let mut read = Vec::new(alloc);
    for line in lines {
        push(&mut read, source_line(alloc, *line)?)?;
    }
    Ok(read)
}

/// What the lines of a text are, whatever their faults.
pub fn read_lines(alloc: Global, text: &[u8]) -> Result<List<SourceLine>>
    ensures { IfOk result (λ read. read ≡ source_lines text.now) }
{
    let lines = lines(alloc, text)?;
    let read = all_read(alloc, lines.as_slice())?;
    Ok(List::from_vec(read))
}

/// The lines of a task source, or its least fault: A1 for a line that is no statement, or one out of place; A2 for an
/// unknown statement; A3 for a wrong operand; A4 for a number out of range. The text has at most 4,294,967,294 bytes.
pub fn read(alloc: Global, text: &[u8]) -> Result<List<SourceLine>, BuildError>
    requires { length text.now < 4294967295 }
    ensures lines { IfOk result (λ read. read ≡ source_lines text.now) }
    ensures none { OnOk result (NoFault (SourceLinesFault text.now)) }
    ensures refused { IfErr result (λ error. ErrorIs (SourceLinesFault text.now) error) }
{
    let read = read_lines(alloc, text)?;
    match source_fault(read.items()) {
        None => Ok(read),
        Some(fault) => Err(BuildError::Refused(fault)),
    }
}

/// A space or a tab.
pub fn is_blank(byte: u8) -> bool
    ensures { result ≡ is_blank byte }
{
    byte == b' ' || byte == b'\t'
}

/// Whether all bytes may stand outside a comment.
pub fn are_shown(text: &[u8]) -> bool
    ensures { result ≡ list_all is_shown text.now }
{
    text.iter()
        .all(|byte| *byte == b'\t' || (*byte >= 0x20 && *byte <= 0x7E))
}

/// Whether a letter begins the text.
pub fn begins_with_letter(text: &[u8]) -> bool
    ensures { result ≡ is_letter text.now }
{
    !text.is_empty() && text[0].is_ascii_alphabetic()
}

fn word_length(text: &[u8]) -> usize
    ensures { result ≡ length (take_while continues_word text.now) }
{
    text.iter().take_while(|it| continues_word(**it)).count()
}

/// The longest front of letters, digits and `_`.
pub fn first_word(text: &[u8]) -> &[u8]
    ensures { result.now ≡ word_of text.now }
{
    front(text, word_length(text))
}

fn leading_blanks(text: &[u8]) -> usize
    ensures { result ≡ length (take_while is_blank text.now) }
{
    text.iter().take_while(|byte| is_blank(**byte)).count()
}

fn trailing_blanks(text: &[u8]) -> usize
    ensures { result ≡ length (take_while is_blank (reverse text.now)) }
{
    text.iter().rev().take_while(|it| is_blank(**it)).count()
}

/// The text without the blanks in front.
pub fn trim_start(text: &[u8]) -> &[u8]
    ensures { result.now ≡ trim_start text.now }
{
    after(text, leading_blanks(text))
}

/// The text without the blanks at both ends.
#[tactic(auto, unfolding(crate::specs::Bytes::trim))]
pub fn trim(text: &[u8]) -> &[u8]
    ensures { result.now ≡ trim text.now }
{
    let rest = trim_start(text);
    front(rest, rest.len().saturating_sub(trailing_blanks(rest)))
}

fn has_wrong(operands: &[Operand]) -> bool
    ensures { result ≡ list_any is_wrong operands.now }
{
    operands.iter().any(|it| matches!(it, Operand::Wrong))
}

fn has_outside(operands: &[Operand]) -> bool
    ensures { result ≡ list_any is_outside operands.now }
{
    operands.iter().any(|it| matches!(it, Operand::Outside))
}

// More bytes than the number before them says.
fn is_long(operands: &[Operand]) -> bool
    ensures { result ≡ is_long operands.now }
{
    match operands {
        [_, Operand::Number(size), Operand::Bytes(bytes), ..] => {
            *size < 0 || (*size as usize) < bytes.items().len()
        },
        _ => false,
    }
}

/// A1: no statement, or one that has no place there.
pub fn is_a1(inside: bool, line: &SourceLine) -> bool
    ensures { result ≡ is_a1 inside line.now }
{
    match line {
        SourceLine::Empty => false,
        SourceLine::Shapeless => true,
        SourceLine::Unknown => !inside,
        SourceLine::Statement { mnemonic, .. } => is_outer(*mnemonic) == inside,
    }
}

/// A2: inside a body, a word that begins no statement.
pub fn is_a2(inside: bool, line: &SourceLine) -> bool
    ensures { result ≡ is_a2 inside line.now }
{
    inside && matches!(line, SourceLine::Unknown)
}

/// A3: a wrong number or form of operands.
pub fn is_a3(line: &SourceLine) -> bool
    ensures { result ≡ is_a3 line.now }
{
    match line {
        SourceLine::Statement { mnemonic, operands } => {
            let operands = operands.items();
            !takes(*mnemonic, operands.len()) || has_wrong(operands)
        },
        _ => false,
    }
}

/// A4: a number outside its range, or more bytes than a `data` has.
pub fn is_a4(line: &SourceLine) -> bool
    ensures { result ≡ is_a4 line.now }
{
    match line {
        SourceLine::Statement { operands, .. } => {
            let operands = operands.items();
            has_outside(operands) || is_long(operands)
        },
        _ => false,
    }
}

/// Whether what follows the line is inside a body.
pub fn after_line(inside: bool, line: &SourceLine) -> bool
    ensures { result ≡ after_line inside line.now }
{
    let SourceLine::Statement { mnemonic, .. } = line else {
        return inside;
    };
    opens(*mnemonic) || (inside && !closes(*mnemonic))
}

// The least fault of a line.
fn line_fault(inside: bool, number: u32, line: &SourceLine) -> Option<Refusal>
    ensures { IsSearchResult (LineFault inside number line.now) result }
{
    let a1 = fault_if(is_a1(inside, line), Part::Src, number, Code::A1);
    let a2 = fault_if(is_a2(inside, line), Part::Src, number, Code::A2);
    let a3 = fault_if(is_a3(line), Part::Src, number, Code::A3);
    let a4 = fault_if(is_a4(line), Part::Src, number, Code::A4);
    merge(a1, merge(a2, merge(a3, a4)))
}

/// The least fault of these lines.
pub fn source_fault(lines: &[SourceLine]) -> Option<Refusal>
    requires { length lines.now < 2 ^ 32 }
    ensures { IsSearchResult (SourceFault lines.now) result }
{
    let mut least = None;
    let mut inside = false;
    for (n, line) in lines.iter().enumerate() {
        least = merge(least, line_fault(inside, n as u32 + 1, line));
        inside = after_line(inside, line);
    }
    let at_end = fault_if(inside, Part::Src, lines.len() as u32, Code::A1);
    merge(least, at_end)
}
