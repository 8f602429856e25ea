//! The items and labels of a body. What a service names: its task, resource or alarm, and the mask of its events.
ghost use Rattle.std.specs.Prelude.{◌≡◌, ◌+◌, ◌++◌, ◌<◌, ◌^◌, length, IfOk, OnOk};
ghost use Rattle.asm_scopes.specs.Statements.{label_names, written_name};
ghost use Rattle.asm_parse.specs.Numbered.{IsNumbered};
ghost use Rattle.asm_parse.specs.Apps.{item_by, count_op, items_from, held_resource_by, holds_of, label_of, labels_from, body_task, func_of};
ghost use Rattle.asm_parse.specs.Operations.{number_of, resource_number, mask_named, mask_of, behind_first, events_of, call_of};

use crate::operations::operation;
use asm_lines::{Operand, SourceLine};
use asm_scopes::{Body, Scope, first_name, is_label, label_names, name_of, number_of, written};
use sloth_base::{
    Call, Config, Func, Item, Label, List, Name, ObjectKind, Op, RES_SCHEDULER, ResId, Result,
    Service, TaskId,
};
use std::alloc::Global;
use text_pieces::{Names, push};

fn add_item(items: &mut Vec<Item>, line: u32, op: Option<Op>) -> Result<()>
    ensures { OnOk result (items.new.items ≡ items.old.items ++ item_by line op) }
{
    match op {
        Some(op) => push(items, Item { line, op }),
        None => Ok(()),
    }
}

fn body_items(
    alloc: Global,
    config: &Config,
    scope: &Scope,
    labels: &Names,
    number: u32,
    lines: &[SourceLine],
) -> Result<Vec<Item>>
    requires few { number + length lines.now < 2 ^ 32 }
    requires labels { length labels.now < 2 ^ 32 }
    requires numbered { IsNumbered scope.now }
    ensures { IfOk result (λ items. items.items ≡ items_from config.now scope.now labels.now (number + 1) lines.now) }
{
    let mut items = Vec::new(alloc);
    for (n, line) in lines.iter().enumerate() {
        let op = operation(config, scope, labels, line);
        add_item(&mut items, number + n as u32 + 1, op)?;
    }
    Ok(items)
}

fn add_hold(holds: &mut Vec<ResId>, scope: &Scope, operand: &Operand) -> Result<()>
    requires { IsNumbered scope.now }
    ensures { OnOk result (holds.new.items ≡ holds.old.items ++ held_resource_by scope.now (written_name operand.now)) }
{
    match written(operand) {
        Some(name) => push(holds, ResId(resource_number(scope, name))),
        None => Ok(()),
    }
}

fn held(alloc: Global, scope: &Scope, operands: &[Operand]) -> Result<Vec<ResId>>
    requires { IsNumbered scope.now }
    ensures { IfOk result (λ holds. holds.items ≡ holds_of scope.now operands.now) }
{
    let mut holds = Vec::new(alloc);
    for operand in operands {
        add_hold(&mut holds, scope, operand)?;
    }
    Ok(holds)
}

fn add_label(
    alloc: Global,
    found: &mut Vec<Label>,
    scope: &Scope,
    line: u32,
    item: u32,
    text: &SourceLine,
) -> Result<()>
    requires { IsNumbered scope.now }
    ensures { OnOk result (found.new.items ≡ found.old.items ++ label_of scope.now line item text.now) }
{
    let SourceLine::Statement { operands, .. } = text else {
        return Ok(());
    };
    if !is_label(text) {
        return Ok(());
    }
    let name = Name::new(alloc, name_of(text))?;
    let holds = List::from_vec(held(alloc, scope, behind_first(operands.items()))?);
    let label = Label {
        name,
        line,
        item,
        holds,
    };
    push(found, label)
}

fn count_op(op: Option<Op>) -> u32
    ensures { result ≡ count_op op }
{
    u32::from(op.is_some())
}

fn body_labels(
    alloc: Global,
    config: &Config,
    scope: &Scope,
    labels: &Names,
    number: u32,
    lines: &[SourceLine],
) -> Result<Vec<Label>>
    requires few { number + length lines.now < 2 ^ 32 }
    requires labels { length labels.now < 2 ^ 32 }
    requires numbered { IsNumbered scope.now }
    ensures { IfOk result (λ found. found.items
        ≡ labels_from config.now scope.now labels.now (number + 1) 0 lines.now) }
{
    let mut found = Vec::new(alloc);
    let mut items = 0;
    for (n, line) in lines.iter().enumerate() {
        add_label(alloc, &mut found, scope, number + n as u32 + 1, items, line)?;
        items += count_op(operation(config, scope, labels, line));
    }
    Ok(found)
}

fn body_task(scope: &Scope, body: &Body) -> Option<TaskId>
    requires { IsNumbered scope.now }
    ensures { result ≡ body_task scope.now body.now }
{
    if !body.is_task() {
        return None;
    }
    match scope.tasks.number(body.name()) {
        Some(number) => Some(TaskId(number as u32)),
        None => None,
    }
}

type Content = (List<Item>, List<Label>);

fn body_content(alloc: Global, config: &Config, scope: &Scope, body: &Body) -> Result<Content>
    requires few { body.now.line + length body.now.lines < 2 ^ 32 }
    requires numbered { IsNumbered scope.now }
    ensures items { IfOk result (λ content. content.0
        ≡ items_from config.now scope.now (label_names body.now.lines) (body.now.line + 1) body.now.lines) }
    ensures labels { IfOk result (λ content. content.1
        ≡ labels_from config.now scope.now (label_names body.now.lines) (body.now.line + 1) 0 body.now.lines) }
{
    let names = label_names(alloc, body.lines())?;
    let (line, lines) = (body.line(), body.lines());
    let items = List::from_vec(body_items(alloc, config, scope, &names, line, lines)?);
    let labels = List::from_vec(body_labels(alloc, config, scope, &names, line, lines)?);
    Ok((items, labels))
}

/// The function that a body is.
pub fn function(alloc: Global, config: &Config, scope: &Scope, body: &Body) -> Result<Func>
    requires few { body.now.line + length body.now.lines < 2 ^ 32 }
    requires numbered { IsNumbered scope.now }
    ensures { IfOk result (λ func. func ≡ func_of config.now scope.now body.now) }
{
    let name = Name::new(alloc, body.name())?;
    let (items, labels) = body_content(alloc, config, scope, body)?;
    Ok(Func {
        name,
        line: body.line(),
        task: body_task(scope, body),
        frame_words: number_of(body.header()),
        items,
        labels,
    })
}

/// The number of a name: its place among those of its kind.
pub fn place_number(names: &Names, name: &[u8]) -> u32
    requires { length names.now < 2 ^ 32 }
    ensures { result ≡ number_of names.now name.now }
{
    match names.number(name) {
        Some(number) => number as u32,
        None => 0,
    }
}

/// The number of a resource.
pub fn resource_number(scope: &Scope, name: &[u8]) -> u32
    requires { IsNumbered scope.now }
    ensures { result ≡ resource_number scope.now name.now }
{
    if scope.is_scheduler(name) {
        RES_SCHEDULER
    } else {
        place_number(&scope.resources, name)
    }
}

/// The operands behind the first.
pub fn behind_first(operands: &[Operand]) -> &[Operand]
    ensures { result.now ≡ behind_first operands.now }
{
    match operands {
        [] => operands,
        [_, rest @ ..] => rest,
    }
}

fn mask_named(config: &Config, scope: &Scope, operand: &Operand) -> u32
    ensures { result ≡ mask_named config.now scope.now operand.now }
{
    let Some(name) = written(operand) else {
        return 0;
    };
    match scope.events.number(name) {
        Some(number) => match config.events.items().get(number) {
            Some(event) => event.mask,
            None => 0,
        },
        None => 0,
    }
}

fn joined_masks(config: &Config, scope: &Scope, operands: &[Operand]) -> u32
    ensures { result ≡ mask_of config.now scope.now operands.now }
{
    let mut mask = 0;
    for operand in operands {
        mask |= mask_named(config, scope, operand);
    }
    mask
}

fn event_mask(config: &Config, scope: &Scope, service: Service, operands: &[Operand]) -> u32
    ensures { result ≡ events_of config.now scope.now service operands.now }
{
    if !service.has_mask() {
        return 0;
    }
    let behind = match service.object_kind() {
        ObjectKind::Nothing => operands,
        ObjectKind::Task | ObjectKind::Resource | ObjectKind::Alarm => behind_first(operands),
    };
    joined_masks(config, scope, behind)
}

/// The service with its operands as numbers.
pub fn service_call(config: &Config, scope: &Scope, service: Service, operands: &[Operand]) -> Call
    requires { IsNumbered scope.now }
    ensures { result ≡ call_of config.now scope.now service operands.now }
{
    Call {
        service,
        object: match service.object_kind() {
            ObjectKind::Nothing => 0,
            ObjectKind::Task => place_number(&scope.tasks, first_name(operands)),
            ObjectKind::Alarm => place_number(&scope.alarms, first_name(operands)),
            ObjectKind::Resource => resource_number(scope, first_name(operands)),
        },
        mask: event_mask(config, scope, service, operands),
    }
}
