//! The listings of tokens, trees, configurations and loads.
ghost use Rattle.sloth_base.specs.ConfigRange.{InRange};

use crate::rows::Piece::{Bytes, Flag, Number, Text};
use crate::rows::{Piece, Rows, Told};
use crate::task_code::list_numbers;
use crate::texts::short;
use load_text::{Form, read_load};
use oil_parse::{OilObject, OilTree, OilValue, Token, TokenKind};
use prio_levels::assign;
use sloth_base::{Action, AlarmDecl, Config, TaskDecl, counter_names, task_names};

/// Prints the line, the kind and the bytes of each token.
pub fn list_tokens(rows: &mut Rows, tokens: &[Token]) {
    for token in tokens {
        form_value!(rows, token.kind;
            TokenKind::Word => "% Word %\n" [Number(token.line as i64), Bytes(token.span)];
            TokenKind::Number(number) => "% Number(%) %\n"
                [Number(token.line as i64), Number(i64::try_from(number).unwrap_or(i64::MAX)), Bytes(token.span)];
            TokenKind::Text => "% Text %\n" [Number(token.line as i64), Bytes(token.span)];
            TokenKind::Sign => "% Sign %\n" [Number(token.line as i64), Bytes(token.span)];
        )
    }
}

fn shown_value(value: &OilValue) -> Piece<'_> {
    match value {
        OilValue::Word(word) => Bytes(word.bytes()),
        OilValue::Number(number) => Number(*number as i64),
        OilValue::Text(text) => Bytes(text.bytes()),
    }
}

fn list_object(rows: &mut Rows, object: &OilObject) {
    form!(rows; "% % %\n"; Number(object.line as i64), Bytes(object.kind.bytes()), Bytes(object.name.bytes()));
    for attr in object.attrs.items() {
        form!(rows; "% % % = %\n"; Number(attr.line as i64), Number(attr.depth as i64), Bytes(attr.name.bytes()),
            shown_value(&attr.value));
    }
}

/// Prints the line, kind and name of each object, and the line, depth, name and value of each of its attributes.
pub fn list_tree(rows: &mut Rows, tree: &OilTree) {
    form!(rows; "% CPU\n"; ; tree.cpu_line);
    for object in tree.objects.items() {
        list_object(rows, object);
    }
}

fn list_task(rows: &mut Rows, task: &TaskDecl) {
    form!(rows; "task % % extended %\nnon % autostart % events %\n"; Bytes(task.name.bytes()),
        Number(task.priority as i64), Flag(task.extended), Flag(task.non), Flag(task.autostart); task.events);
    list_numbers(rows, "lists", task.resources.items())
}

// Appends what an alarm does, its time and its cycle.
fn put_action(rows: &mut Rows, alarm: &AlarmDecl) {
    match alarm.action {
        Action::Activate(task) => form!(rows; "activates %"; ; task.0),
        Action::Set(task, mask) => form!(rows; "sets % %"; ; task.0, mask),
    }
    form!(rows; " % %\n"; ; alarm.time, alarm.cycle)
}

fn list_alarm(rows: &mut Rows, alarm: &AlarmDecl) {
    form!(rows; "alarm % % "; Bytes(alarm.name.bytes()); alarm.counter);
    put_action(rows, alarm)
}

// The tasks, resources, events, counters and alarms.
fn list_objects(rows: &mut Rows, config: &Config) {
    for task in config.tasks.items() {
        list_task(rows, task);
    }
    for resource in config.resources.items() {
        form!(rows; "resource %\n"; Bytes(resource.bytes()));
    }
    for event in config.events.items() {
        form!(rows; "event % %\n"; Bytes(event.name.bytes()); event.mask);
    }
    for counter in config.counters.items() {
        form!(rows; "counter % % %\n"; Bytes(counter.name.bytes()); counter.max, counter.min_cycle);
    }
    for alarm in config.alarms.items() {
        list_alarm(rows, alarm);
    }
}

/// Prints the objects, and the levels of the tasks and of the resources' ceilings.
pub fn list_config(rows: &mut Rows, config: &Config)
    requires { InRange config.now }
{
    list_objects(rows, config);
    let levels = assign(config);
    rows.text("levels ");
    rows.debug(&levels.task);
    rows.text("\nceilings ");
    rows.debug(&levels.ceiling);
    form!(rows; "\ntop % scheduler %\n"; Number(levels.top as i64), Flag(config.res_scheduler))
}

/// Prints the entries of a load's text for a configuration.
pub fn list_load(rows: &mut Rows, config: &Config, text: &[u8]) -> Told {
    let tasks = task_names(rows.alloc, config)?;
    let counters = counter_names(rows.alloc, config)?;
    let load = read_load(rows.alloc, short(text)?, tasks.items(), counters.items())?;
    for entry in load.as_slice() {
        let form = match entry.form {
            Form::Every => "every",
            Form::Work => "work",
            Form::Deadline => "deadline",
        };
        form!(rows; "% % %\n"; Text(form); entry.owner.0, entry.number);
    }
    Ok(())
}
