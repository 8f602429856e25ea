//! The lines behind a refusal of task code. The lines of ways and of what is held. The lines of calls.
ghost use Rattle.std.specs.Prelude.{◌≡◌, ◌++◌, ◌<◌, ◌&&◌, length, Some, OnOk};
ghost use Rattle.sloth_base.specs.Named.{function};
ghost use Rattle.code_rules.specs.AppRange.{AppInRange};
ghost use Rattle.code_rules.specs.Code.{held_list_at};
ghost use Rattle.task_verify.specs.Labels.{ArePlaced};
ghost use Rattle.fault_witnesses.specs.Places.{IsPlace};
ghost use Rattle.why_text.specs.RuleLines.{lists_at_begin, entry_lines, own_lines, item_lines, entered_lines, place_lines, item_words, start_lines, way_line, way_lines, resource_words, list_line, pair_words, link_words, calls_line};

use crate::item_lines::{
    Shown, item_line, push_left, push_name, push_number_line, push_release, push_run_out,
    push_size, push_taken, push_target, push_user,
};
use crate::{label_line, label_name};
use fault_witnesses::{Link, Place, Way, Witness, held_entering, held_list, label_before};
use sloth_base::{App, Code, Config, Func, Item, Op, Result};
use std::alloc::Global;
use task_verify::way;
use text_pieces::line;
use text_pieces::pieces::Piece::{Number, Word};

// What stands behind the way and what is held.
fn push_own(text: &mut Vec<u8>, shown: &Shown, func: &Func, item: usize, held: &[u32]) -> Result<()>
    requires inside { item < length func.now.items }
    requires held { held.now ≡ held_list_at func.now item }
    ensures { OnOk result (text.new.items ≡ text.old.items
        ++ own_lines shown.now.config.now shown.now.app.now func.now item shown.now.code shown.now.witness.now) }
{
    let at = &func.items.items()[item];
    match shown.code {
        Code::V2 | Code::V3 | Code::V4 => push_size(text, shown.app, func, at.op),
        Code::V5 => push_run_out(text, func, item),
        Code::V7 => match way(at.op) {
            Some(label) => push_target(text, shown, func, label as usize),
            None => Ok(()),
        },
        Code::V8 => push_release(text, shown.config, held, at.op),
        Code::V9 => push_taken(text, shown, at),
        Code::V10 => push_left(text, shown, at),
        Code::V11 => push_name(text, func.name.bytes()),
        Code::V12 => push_user(text, shown, &at.op),
        _ => Ok(()),
    }
}

fn push_item(text: &mut Vec<u8>, shown: &Shown, func: &Func, number: usize) -> Result<()>
    requires placed { ArePlaced func.now }
    requires inside { number < length func.now.items }
    ensures { OnOk result (text.new.items ≡ text.old.items
        ++ item_lines shown.now.config.now shown.now.app.now func.now number shown.now.code shown.now.witness.now) }
{
    if let Some(way) = &shown.witness.way {
        push_way(text, func, way)?;
    }
    if let Some(item) = shown.witness.behind {
        push_number_line(text, b"behind", item_line(func, item))?;
    }
    let held = held_list(shown.alloc, func, number)?;
    if let Code::V7 | Code::V8 | Code::V9 | Code::V10 = shown.code {
        push_list_line(text, shown.config, b"holds", &held)?;
    }
    push_own(text, shown, func, number, &held)
}

fn lists_at_begin(func: &Func, label: usize) -> bool
    requires { label < length func.now.labels }
    ensures { result ≡ lists_at_begin func.now label }
{
    let label = &func.labels.items()[label];
    label.item == 0 && !label.holds.items().is_empty()
}

fn push_entry(text: &mut Vec<u8>, func: &Func, label: usize, way: &Option<Way>) -> Result<()>
    requires { label < length func.now.labels }
    ensures { OnOk result (text.new.items ≡ text.old.items ++ entry_lines func.now label way.now) }
{
    match way {
        Some(way) => push_way(text, func, way),
        None => {
            push_start(text, func, label_before(func, label))?;
            line!(text; Word(b"way -\n"))
        },
    }
}

fn push_entered(text: &mut Vec<u8>, shown: &Shown, func: &Func, label: usize) -> Result<()>
    requires placed { ArePlaced func.now }
    requires inside { label < length func.now.labels }
    ensures { OnOk result (text.new.items ≡ text.old.items
        ++ entered_lines shown.now.config.now func.now label shown.now.witness.now.way) }
{
    if lists_at_begin(func, label) {
        return line!(text; Word(b"way -\nholds -\n"));
    }
    push_entry(text, func, label, &shown.witness.way)?;
    let held = held_entering(shown.alloc, func, label)?;
    push_list_line(text, shown.config, b"holds", &held)
}

/// The lines behind a refusal of V2 to V12.
pub fn push_place<'t>(
    alloc: Global,
    text: &mut Vec<u8>,
    config: &'t Config,
    app: &'t App,
    code: Code,
    witness: &'t Witness,
) -> Result<()>
    requires in_range { AppInRange config.now app.now }
    requires is_place { IsPlace app.now witness.now.place }
    ensures { OnOk result (text.new.items ≡ text.old.items
        ++ place_lines config.now app.now code witness.now witness.now.place) }
{
    let shown = Shown {
        alloc,
        config,
        app,
        code,
        witness,
    };
    match witness.place {
        Place::Header(body) => push_name(text, app.function_name(body)),
        Place::Label { body, label } => {
            let func = app.function(body);
            push_entered(text, &shown, func, label)?;
            push_target(text, &shown, func, label)
        },
        Place::Item { body, item } => push_item(text, &shown, app.function(body), item),
    }
}

fn push_items(text: &mut Vec<u8>, func: &Func, items: &[usize]) -> Result<()>
    ensures { OnOk result (text.new.items ≡ text.old.items ++ item_words func.now items.now) }
{
    for item in items {
        line!(text; Word(b" "), Number(item_line(func, *item)))?;
    }
    Ok(())
}

/// The line `from`: the label that a way starts behind, if it does not start where the body begins.
pub fn push_start(text: &mut Vec<u8>, func: &Func, label: Option<usize>) -> Result<()>
    ensures { OnOk result (text.new.items ≡ text.old.items ++ start_lines func.now label) }
{
    let Some(label) = label else {
        return Ok(());
    };
    let line = label_line(func, label);
    line!(text; Word(b"from "), Number(line), Word(b" "), Word(label_name(func, label)), Word(b"\n"))
}

/// The line of a way's items.
pub fn push_way_line(text: &mut Vec<u8>, func: &Func, items: &[usize]) -> Result<()>
    ensures { OnOk result (text.new.items ≡ text.old.items ++ way_line func.now items.now) }
{
    line!(text; Word(b"way"))?;
    push_items(text, func, items)?;
    line!(text; Word(b"\n"))
}

/// The lines of a way.
pub fn push_way(text: &mut Vec<u8>, func: &Func, way: &Way) -> Result<()>
    ensures { OnOk result (text.new.items ≡ text.old.items ++ way_lines func.now way.now) }
{
    push_start(text, func, way.label)?;
    push_way_line(text, func, way.items.items())
}

fn push_resources(text: &mut Vec<u8>, config: &Config, list: &[u32]) -> Result<()>
    ensures { OnOk result (text.new.items ≡ text.old.items ++ resource_words config.now list.now) }
{
    for resource in list {
        line!(text; Word(b" "), Word(config.resource_name(*resource as usize)))?;
    }
    Ok(())
}

/// A line of resources, `-` for none.
pub fn push_list_line(text: &mut Vec<u8>, config: &Config, word: &[u8], list: &[u32]) -> Result<()>
    ensures { OnOk result (text.new.items ≡ text.old.items ++ list_line config.now word.now list.now) }
{
    line!(text; Word(word))?;
    if list.is_empty() {
        line!(text; Word(b" -"))?;
    } else {
        push_resources(text, config, list)?;
    }
    line!(text; Word(b"\n"))
}

fn push_pair(text: &mut Vec<u8>, name: &[u8], line: u32) -> Result<()>
    ensures { OnOk result (text.new.items ≡ text.old.items ++ pair_words name.now line) }
{
    line!(text; Word(b" "), Word(name), Word(b" "), Number(line))
}

fn push_links(text: &mut Vec<u8>, app: &App, links: &[Link]) -> Result<()>
    ensures { OnOk result (text.new.items ≡ text.old.items ++ link_words app.now links.now) }
{
    for link in links {
        line!(text; Word(b","))?;
        push_pair(text, app.function_name(link.func), link.line)?;
    }
    Ok(())
}

/// The line `calls`, with the service that they lead to, if there is one.
pub fn push_calls(
    text: &mut Vec<u8>,
    app: &App,
    name: &[u8],
    line: u32,
    links: &[Link],
    ending: Option<Item>,
) -> Result<()>
    ensures { OnOk result (text.new.items ≡ text.old.items ++ calls_line app.now name.now line links.now ending) }
{
    line!(text; Word(b"calls "), Word(name), Word(b" "), Number(line))?;
    push_links(text, app, links)?;
    if let Some(item) = ending {
        line!(text; Word(b","))?;
        if let Op::Serve(call) = item.op {
            push_pair(text, call.service.name(), item.line)?;
        }
    }
    line!(text; Word(b"\n"))
}
