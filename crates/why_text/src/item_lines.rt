//! The lines of an item that breaks a rule. Lines of a word and a name or a number.
//! Items and labels by their numbers. Where there is none of a number: a `Return` of line 0, no name, no list.
ghost use Rattle.std.specs.Prelude.{◌≡◌, ◌++◌, ◌<◌, length, Some, OnOk};
ghost use Rattle.why_text.specs.RuleLines.{size_lines, run_out_lines, target_lines, op_object, release_lines, op_callee, culprit_item, called_lines, taken_lines, left_lines, is_of_resource, user_lines, word_line, name_line, last_lines, number_line};
ghost use Rattle.sloth_base.specs.Named.{item_of, label_of, symbol_size};

use crate::push_list_line;
use crate::rule_lines::push_calls;
use fault_witnesses::{Calls, Witness, chain_end};
use sloth_base::{App, Code, Config, Func, Item, Op, ResId, Result, Service};
use std::alloc::Global;
use task_verify::{falls, held_by, way};
use text_pieces::line;
use text_pieces::pieces::Piece::{Count, Number, Word};

/// Task code, a rule that it breaks, and what shows that.
#[derive(Clone, Copy)]
pub struct Shown<'t> {
    pub alloc: Global,
    pub config: &'t Config,
    pub app: &'t App,
    pub code: Code,
    pub witness: &'t Witness,
}

/// V2 to V4: what is accessed, and its size.
pub fn push_size(text: &mut Vec<u8>, app: &App, func: &Func, op: Op) -> Result<()>
    ensures { OnOk result (text.new.items ≡ text.old.items ++ size_lines app.now func.now op) }
{
    match op {
        Op::Load { symbol, .. }
        | Op::Store { symbol, .. }
        | Op::LoadAt { symbol, .. }
        | Op::StoreAt { symbol, .. } => {
            push_name(text, app.symbol_name(symbol.0 as usize))?;
            push_count_line(text, b"bytes", symbol_size(app, symbol.0 as usize))
        }
        _ => {
            push_name(text, b"frame")?;
            push_number_line(text, b"words", func.frame_words)
        }
    }
}

/// V5: the label behind the last item.
pub fn push_run_out(text: &mut Vec<u8>, func: &Func, item: usize) -> Result<()>
    requires { item < length func.now.items }
    ensures { OnOk result (text.new.items ≡ text.old.items ++ run_out_lines func.now item) }
{
    if falls(func.op(item)) && func.items.items().len() <= item + 1 {
        return Ok(());
    }
    match way(func.op(item)) {
        Some(label) => push_name(text, label_name(func, label as usize)),
        None => Ok(()),
    }
}

/// V7: a label, and its list.
pub fn push_target(text: &mut Vec<u8>, shown: &Shown, func: &Func, label: usize) -> Result<()>
    ensures { OnOk result (text.new.items ≡ text.old.items
        ++ target_lines shown.now.config.now func.now (Some label)) }
{
    push_name(text, label_name(func, label))?;
    let holds = held_by(shown.alloc, label_holds(func, label))?;
    push_list_line(text, shown.config, b"lists", &holds)
}

fn op_object(op: Op) -> u32
    ensures { result ≡ op_object op }
{
    match op {
        Op::Serve(call) => call.object,
        _ => 0,
    }
}

fn push_last(text: &mut Vec<u8>, config: &Config, held: &[u32]) -> Result<()>
    ensures { OnOk result (text.new.items ≡ text.old.items ++ last_lines config.now held.now) }
{
    if held.is_empty() {
        return Ok(());
    }
    let last = held[held.len() - 1] as usize;
    push_line(text, b"wants", config.resource_name(last))
}

/// V8: the resource that is released, and the last one taken.
pub fn push_release(text: &mut Vec<u8>, config: &Config, held: &[u32], op: Op) -> Result<()>
    ensures { OnOk result (text.new.items ≡ text.old.items ++ release_lines config.now held.now op) }
{
    push_name(text, config.resource_name(op_object(op) as usize))?;
    push_last(text, config, held)
}

fn op_callee(op: Op) -> usize
    ensures { result ≡ op_callee op }
{
    match op {
        Op::Invoke { func } => func.0 as usize,
        _ => 0,
    }
}

fn culprit_item(app: &App, op: Op, calls: &Calls) -> Item
    ensures { result ≡ culprit_item app.now op calls.now }
{
    let end = chain_end(op_callee(op), calls.links.items());
    match app.funcs.items().get(end) {
        Some(func) => item(func, calls.item),
        None => Item {
            line: 0,
            op: Op::Return,
        },
    }
}

fn push_called(text: &mut Vec<u8>, app: &App, item: &Item, calls: &Calls) -> Result<()>
    ensures { OnOk result (text.new.items ≡ text.old.items ++ called_lines app.now item.now calls.now) }
{
    let name = app.function_name(op_callee(item.op));
    let culprit = culprit_item(app, item.op, calls);
    let links = calls.links.items();
    push_calls(text, app, name, item.line, links, Some(culprit))
}

/// V9: the resource that is taken twice, and the calls that take it.
pub fn push_taken(text: &mut Vec<u8>, shown: &Shown, item: &Item) -> Result<()>
    ensures { OnOk result (text.new.items ≡ text.old.items
        ++ taken_lines shown.now.config.now shown.now.app.now item.now shown.now.witness.now.calls) }
{
    match &shown.witness.calls {
        Some(calls) => {
            let culprit = culprit_item(shown.app, item.op, calls);
            push_name(
                text,
                shown.config.resource_name(op_object(culprit.op) as usize),
            )?;
            push_called(text, shown.app, item, calls)
        },
        None => push_name(
            text,
            shown.config.resource_name(op_object(item.op) as usize),
        ),
    }
}

/// V10: the calls that lead to the wait.
pub fn push_left(text: &mut Vec<u8>, shown: &Shown, item: &Item) -> Result<()>
    ensures { OnOk result (text.new.items ≡ text.old.items
        ++ left_lines shown.now.app.now item.now shown.now.witness.now.calls) }
{
    match &shown.witness.calls {
        Some(calls) => push_called(text, shown.app, item, calls),
        None => Ok(()),
    }
}

fn is_of_resource(op: Op) -> bool
    ensures { result ≡ is_of_resource op }
{
    match op {
        Op::Serve(call) => matches!(
            call.service,
            Service::GetResource | Service::ReleaseResource
        ),
        _ => false,
    }
}

/// V12: the task, what it lacks, and the calls from its body.
pub fn push_user(text: &mut Vec<u8>, shown: &Shown, op: &Op) -> Result<()>
    ensures { OnOk result (text.new.items ≡ text.old.items
        ++ user_lines shown.now.config.now shown.now.app.now op.now shown.now.witness.now.user) }
{
    let (config, app) = (shown.config, shown.app);
    let Some(user) = &shown.witness.user else {
        return Ok(());
    };
    push_line(text, b"task", config.task_name(user.task))?;
    if is_of_resource(*op) {
        push_name(text, config.resource_name(op_object(*op) as usize))?;
    } else if let Some(event) = user.event {
        push_name(text, config.event_name(event))?;
    }
    let links = user.links.items();
    if links.is_empty() {
        return Ok(());
    }
    let line = app.function_line(user.body);
    push_calls(text, app, app.function_name(user.body), line, links, None)
}

/// A line of a word and a name.
pub fn push_line<'x>(text: &mut Vec<u8>, word: &'x [u8], name: &'x [u8]) -> Result<()>
    ensures { OnOk result (text.new.items ≡ text.old.items ++ word_line word.now name.now) }
{
    line!(text; Word(word), Word(b" "), Word(name), Word(b"\n"))
}

/// The line `name`.
pub fn push_name(text: &mut Vec<u8>, name: &[u8]) -> Result<()>
    ensures { OnOk result (text.new.items ≡ text.old.items ++ name_line name.now) }
{
    push_line(text, b"name", name)
}

/// A line of a word and a number.
pub fn push_number_line(text: &mut Vec<u8>, word: &[u8], number: u32) -> Result<()>
    ensures { OnOk result (text.new.items ≡ text.old.items ++ number_line word.now number) }
{
    line!(text; Word(word), Word(b" "), Number(number), Word(b"\n"))
}

/// A line of a word and a count.
pub fn push_count_line(text: &mut Vec<u8>, word: &[u8], count: usize) -> Result<()>
    ensures { OnOk result (text.new.items ≡ text.old.items ++ number_line word.now count) }
{
    line!(text; Word(word), Word(b" "), Count(count), Word(b"\n"))
}

/// An item.
pub fn item(func: &Func, number: usize) -> Item
    ensures { result ≡ item_of func.now number }
{
    match func.items.items().get(number) {
        Some(item) => *item,
        None => Item {
            line: 0,
            op: Op::Return,
        },
    }
}

/// The line of an item.
pub fn item_line(func: &Func, number: usize) -> u32
    ensures { result ≡ (item_of func.now number).line }
{
    item(func, number).line
}

/// The name of a label.
pub fn label_name(func: &Func, number: usize) -> &[u8]
    ensures { result.now ≡ (label_of func.now number).name }
{
    match func.labels.items().get(number) {
        Some(label) => label.name.bytes(),
        None => b"",
    }
}

/// The line of a label.
pub fn label_line(func: &Func, number: usize) -> u32
    ensures { result ≡ (label_of func.now number).line }
{
    func.labels
        .items()
        .get(number)
        .map_or(0, |label| label.line)
}

/// The list of a label.
pub fn label_holds(func: &Func, number: usize) -> &[ResId]
    ensures { result.now ≡ (label_of func.now number).holds }
{
    match func.labels.items().get(number) {
        Some(label) => label.holds.items(),
        None => &[],
    }
}

/// The bytes of a symbol.
pub fn symbol_size(app: &App, number: usize) -> usize
    ensures { result ≡ symbol_size app.now number }
{
    let symbol = app.symbols.items().get(number);
    symbol.map_or(0, |symbol| symbol.bytes.items().len())
}
