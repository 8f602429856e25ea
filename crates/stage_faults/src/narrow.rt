//! A4 of lines that load or store less than a word, whose places may be words of the frame in form alone.
//! The faults of the lines of task source (A1 to A4).
ghost use Rattle.std.specs.Prelude.{◌≡◌, ◌<◌, ◌^◌, map, length, IfOk, OnOk, ◌||◌, ◌&&◌, not};
ghost use Rattle.std.specs.List.{take_while, list_any};
ghost use Rattle.sloth_base.specs.declared.refusal.Part.TheVariants.{Src};
ghost use Rattle.sloth_base.specs.Search.{Somewhere};
ghost use Rattle.text_pieces.specs.Names.{referent};
ghost use Rattle.asm_lines.specs.Bytes.{is_blank, trim_start};
ghost use Rattle.text_pieces.specs.Lines.{lines};
ghost use Rattle.stage_faults.specs.Told.{Adds};
ghost use Rattle.stage_faults.specs.ToldNarrow.{is_narrow, is_narrow_a4, NarrowFault};
ghost use Rattle.stage_faults.specs.ToldLines.{is_told_a4, is_misplaced, is_told_a1, ToldLine, ToldFault};

use crate::Notes;
use crate::notes::add_bare;
use asm_lines::source_line::{first_word, is_blank};
use asm_lines::{SourceLine, after_line, is_a1, is_a2, is_a3, is_a4, read_lines, takes};
use sloth_base::{Code, Result};
use std::alloc::Global;
use text_pieces::pieces::Piece::Word;
use text_pieces::{after, lines, same, text};

fn leading_blanks(text: &[u8]) -> usize
    ensures { result ≡ length (take_while is_blank text.now) }
{
    text.iter().take_while(|it| is_blank(**it)).count()
}

fn trim_start(line: &[u8]) -> &[u8]
    ensures { result.now ≡ trim_start line.now }
{
    after(line, leading_blanks(line))
}

fn is_narrow(word: &[u8]) -> bool
    ensures { result ≡ is_narrow word.now }
{
    (same(word, b"lb") || same(word, b"lbu") || same(word, b"lh") || same(word, b"lhu"))
        || (same(word, b"sb") || same(word, b"sh"))
}

fn any_told_a4(lines: &[SourceLine]) -> bool
    ensures { result ≡ list_any is_told_a4 lines.now }
{
    lines.iter().any(|line| is_told_a4(line))
}

fn is_narrow_a4(alloc: Global, line: &[u8]) -> Result<bool>
    ensures { IfOk result (λ test. test ≡ is_narrow_a4 line.now) }
{
    let text = trim_start(line);
    let word = first_word(text);
    if !is_narrow(word) {
        return Ok(false);
    }
    let text = text!(alloc; Word(b"lw"), Word(after(text, word.len())))?;
    let lines = read_lines(alloc, &text)?;
    Ok(any_told_a4(lines.items()))
}

fn add_lines<'t>(alloc: Global, notes: &mut Notes<'t>, lines: &[&[u8]]) -> Result<()>
    requires { length lines.now < 2 ^ 32 }
    ensures { OnOk result (Adds Src (Somewhere NarrowFault (map referent lines.now)) notes.old.items notes.new.items) }
{
    for (n, line) in lines.iter().enumerate() {
        let test = is_narrow_a4(alloc, *line)?;
        add_bare(notes, test, n as u32 + 1, Code::A4)?;
    }
    Ok(())
}

/// A4 of the lines of a text that load or store less than a word.
pub fn add_narrow<'t>(alloc: Global, notes: &mut Notes<'t>, text: &[u8]) -> Result<()>
    requires { length text.now < 4294967295 }
    ensures { OnOk result (Adds Src (Somewhere NarrowFault (lines text.now)) notes.old.items notes.new.items) }
{
    let lines = lines(alloc, text)?;
    add_lines(alloc, notes, lines.as_slice())
}

// A1 that comes from the place alone, as of a statement of the other side.
fn is_misplaced(inside: bool, line: &SourceLine) -> bool
    ensures { result ≡ is_misplaced inside line.now }
{
    !matches!(line, SourceLine::Shapeless) && is_a1(inside, line)
}

fn is_told_a1(inside: bool, earlier: bool, line: &SourceLine) -> bool
    ensures { result ≡ is_told_a1 inside earlier line.now }
{
    is_a1(inside, line) && !(earlier && is_misplaced(inside, line))
}

/// A4 of the operands of a line that has as many as it may have.
pub fn is_told_a4(line: &SourceLine) -> bool
    ensures { result ≡ is_told_a4 line.now }
{
    let SourceLine::Statement { mnemonic, operands } = line else {
        return false;
    };
    takes(*mnemonic, operands.items().len()) && is_a4(line)
}

// The faults of a line, but A1 where it comes from the place alone and an earlier one did.
fn add_faults<'t>(
    notes: &mut Notes<'t>,
    inside: bool,
    earlier: bool,
    number: u32,
    line: &SourceLine,
) -> Result<()>
    ensures { OnOk result (Adds Src (ToldLine inside earlier number line.now) notes.old.items notes.new.items) }
{
    add_bare(notes, is_told_a1(inside, earlier, line), number, Code::A1)?;
    add_bare(notes, is_a2(inside, line), number, Code::A2)?;
    add_bare(notes, is_a3(line), number, Code::A3)?;
    add_bare(notes, is_told_a4(line), number, Code::A4)
}

fn is_earlier(earlier: bool, inside: bool, line: &SourceLine) -> bool
    ensures { result ≡ (earlier || is_misplaced inside line.now) }
{
    earlier || is_misplaced(inside, line)
}

fn is_open(inside: bool, earlier: bool) -> bool
    ensures { result ≡ (inside && not earlier) }
{
    inside && !earlier
}

/// The faults of these lines. Of those that are A1 by their place alone, as the missing `end`, the first.
pub fn add_all<'t>(notes: &mut Notes<'t>, lines: &[SourceLine]) -> Result<()>
    requires { length lines.now < 2 ^ 32 }
    ensures { OnOk result (Adds Src (ToldFault lines.now) notes.old.items notes.new.items) }
{
    let mut inside = false;
    let mut earlier = false;
    for (n, line) in lines.iter().enumerate() {
        add_faults(notes, inside, earlier, n as u32 + 1, line)?;
        earlier = is_earlier(earlier, inside, line);
        inside = after_line(inside, line);
    }
    let open = is_open(inside, earlier);
    add_bare(notes, open, lines.len() as u32, Code::A1)
}
