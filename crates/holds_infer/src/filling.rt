//! Task source with the lists of task code at its labels. Writes the line of a label.
ghost use Rattle.std.specs.Prelude.{◌≡◌, ◌++◌, ◌+◌, ◌^◌, ◌<◌, [], ◌∷◌, cond, map, get_or, IfOk, OnOk, codes};
ghost use Rattle.std.specs.List.{join_with_byte, flat_map};
ghost use Rattle.text_pieces.specs.Names.{referent};
ghost use Rattle.text_pieces.specs.Lines.{without_returns};
ghost use Rattle.asm_lines.specs.SourceLines.{source_line};
ghost use Rattle.asm_scopes.specs.Statements.{is_label};
ghost use Rattle.code_rules.specs.AppRange.{AppInRange};
ghost use Rattle.code_rules.specs.WellFormed.{WellFormed};
ghost use Rattle.sloth_source.specs.SourceText.{HasApp, SourceText};
ghost use Rattle.holds_infer.specs.Filling.{SameButLists};
ghost use Rattle.holds_infer.specs.Relabel.{func_holds, all_holds};
ghost use Rattle.holds_infer.specs.FilledText.{filled_part, filled_parts, filled_text};
ghost use Rattle.holds_infer.specs.LabelLines.{resource_names};

use asm_lines::{SourceLine, read_lines};
use asm_scopes::{is_label, name_of};
use sloth_base::{App, Config, Func, ResId, Result};
use std::alloc::Global;
use text_pieces::pieces::Piece::Word;
use text_pieces::{after, line, line_of, push, split};

fn push_lists<'a>(lists: &mut Vec<&'a [ResId]>, func: &'a Func) -> Result<()>
    ensures { OnOk result (map referent lists.new.items ≡ map referent lists.old.items ++ func_holds func.now) }
{
    for label in func.labels.items() {
        push(lists, label.holds.items())?;
    }
    Ok(())
}

fn code_lists<'a>(alloc: Global, app: &'a App) -> Result<Vec<&'a [ResId]>>
    ensures { IfOk result (λ lists. map referent lists.items ≡ all_holds app.now) }
{
    let mut lists = Vec::new(alloc);
    for func in app.funcs.items() {
        push_lists(&mut lists, func)?;
    }
    Ok(lists)
}

fn numbered_list<'a>(lists: &[&'a [ResId]], number: usize) -> &'a [ResId]
    ensures { result.now ≡ get_or (map referent lists.now) number [] }
{
    match lists.get(number) {
        Some(list) => *list,
        None => &[],
    }
}

fn write_line(
    out: &mut Vec<u8>,
    config: &Config,
    line: &SourceLine,
    is_last: bool,
    holds: &[ResId],
    part: &[u8],
) -> Result<()>
    ensures { OnOk result
        (out.new.items ≡ out.old.items
        ++ (filled_part config.now line.now is_last holds.now part.now ++ cond is_last [] (10 ∷ []))) }
{
    write_part(out, config, line, is_last, holds, part)?;
    if !is_last {
        out.extend_from_slice(b"\n")?;
    }
    Ok(())
}

fn labels_behind(line: &SourceLine, number: usize) -> usize
    requires { number + 1 < 2 ^ 64 }
    ensures { result ≡ cond (is_label line.now) (number + 1) number }
{
    if is_label(line) { number + 1 } else { number }
}

fn filled_parts(
    alloc: Global,
    config: &Config,
    lists: &[&[ResId]],
    lines: &[SourceLine],
    parts: &[&[u8]],
) -> Result<Vec<u8>>
    requires { lines.now ≡ map source_line (without_returns (map referent parts.now)) }
    ensures { IfOk result
        (λ out. out.items ≡ join_with_byte 10
        (filled_parts config.now (map referent lists.now) (map referent parts.now))) }
{
    let mut out = Vec::new(alloc);
    let mut number = 0;
    for (n, part) in parts.iter().enumerate() {
        let line = &lines[n];
        let is_last = n + 1 == parts.len();
        let list = numbered_list(lists, number);
        write_line(&mut out, config, line, is_last, list, *part)?;
        number = labels_behind(line, number);
    }
    Ok(out)
}

/// The text with the lists of this task code at its labels: each label's line is `label NAME` and `, R` for each
/// resource of its list, its comment dropped and its line end kept; all other bytes are as they are. The text has no
/// fault of its lines, names and limits and says `before`, which is the task code but for the lists.
pub fn fill(alloc: Global, text: &[u8], config: &Config, before: &App, app: &App) -> Result<Vec<u8>>
    requires says { HasApp text.now config.now before.now }
    requires same { SameButLists before.now app.now }
    requires in_range { AppInRange config.now app.now }
    ensures text { IfOk result (λ out. out.items ≡ filled_text text.now config.now app.now) }
    ensures says { IfOk result (λ out. HasApp out.items config.now app.now) }
    ensures accepted { IfOk result (λ out. WellFormed config.now app.now → SourceText out.items config.now app.now) }
{
    let parts = split(alloc, text, b'\n')?;
    let lines = read_lines(alloc, text)?;
    let lists = code_lists(alloc, app)?;
    let out = filled_parts(
        alloc,
        config,
        lists.as_slice(),
        lines.items(),
        parts.as_slice(),
    )?;
    Ok(out)
}

fn write_resources(out: &mut Vec<u8>, config: &Config, holds: &[ResId]) -> Result<()>
    ensures { OnOk result
        (out.new.items ≡ out.old.items ++ flat_map (λ name. codes ", " ++ name) (resource_names config.now holds.now)) }
{
    for resource in holds {
        out.extend_from_slice(b", ")?;
        out.extend_from_slice(config.resource_name(resource.0 as usize))?;
    }
    Ok(())
}

/// Writes the part of a line between two LFs, with this list where the line is a label.
pub fn write_part(
    out: &mut Vec<u8>,
    config: &Config,
    line: &SourceLine,
    is_last: bool,
    holds: &[ResId],
    part: &[u8],
) -> Result<()>
    ensures { OnOk result
        (out.new.items ≡ out.old.items ++ filled_part config.now line.now is_last holds.now part.now) }
{
    if !is_label(line) {
        return line!(out; Word(part));
    }
    line!(out; Word(b"label "), Word(name_of(line)))?;
    write_resources(out, config, holds)?;
    // The CR before the LF, if the line has one.
    let end = after(part, line_of(part, is_last).len());
    line!(out; Word(end))
}
