//! The lines of what nothing uses, from the texts.
//! What may be used: the objects of a configuration, and the data and functions of its task code.
ghost use Rattle.std.specs.Prelude.{◌≡◌, ◌<◌, ◌≤◌, ◌++◌, length, IfOk, IfErr, OnOk};
ghost use Rattle.sloth_base.specs.Limits.{task_limit};
ghost use Rattle.sloth_source.specs.Texts.{SourcesErrorIs};
ghost use Rattle.shares_text.specs.UnusedText.{kind_word, object_name, further_words, unused_line, lines_of, unused_lines, IsUnusedText, count_of};
ghost use Rattle.shares_text.specs.UsesBy.{is_used_by};
ghost use Rattle.shares_text.specs.Uses.{event_mask};

use crate::uses::is_used;
use sloth_base::{App, BuildError, Config, Result};
use sloth_source::read_checked;
use std::alloc::Global;
use text_pieces::line;
use text_pieces::pieces::Piece::{Number, Word};

// What stands behind the name.
fn push_further(text: &mut Vec<u8>, app: &App, kind: Kind, number: usize) -> Result<()>
    ensures { OnOk result (text.new.items ≡ text.old.items ++ further_words app.now kind number) }
{
    match kind {
        Kind::Task => line!(text; Word(b" arrivals")),
        Kind::Resource | Kind::Event | Kind::Alarm | Kind::Symbol => Ok(()),
        Kind::Function => line!(text; Word(b" "), Number(app.function_line(number))),
    }
}

fn push_line<'t>(
    text: &mut Vec<u8>,
    config: &'t Config,
    app: &'t App,
    kind: Kind,
    number: usize,
) -> Result<()>
    ensures { OnOk result (text.new.items ≡ text.old.items ++ unused_line config.now app.now kind number) }
{
    line!(text; Word(kind_word(kind)), Word(b" "), Word(object_name(config, app, kind, number)))?;
    push_further(text, app, kind, number)?;
    line!(text; Word(b"\n"))
}

fn push_all(text: &mut Vec<u8>, config: &Config, app: &App, users: &[u32], kind: Kind) -> Result<()>
    requires { length config.now.tasks ≤ task_limit }
    ensures { OnOk result (text.new.items ≡ text.old.items
        ++ lines_of config.now app.now (is_used_by config.now app.now users.now) kind) }
{
    for number in 0..kind_count(config, app, kind) {
        if !is_used(config, app, users, kind, number) {
            push_line(text, config, app, kind, number)?;
        }
    }
    Ok(())
}

fn unused_lines(alloc: Global, config: &Config, app: &App, users: &[u32]) -> Result<Vec<u8>>
    requires { length config.now.tasks ≤ task_limit }
    ensures { IfOk result (λ text. text.items
        ≡ unused_lines config.now app.now (is_used_by config.now app.now users.now)) }
{
    let mut text = Vec::new(alloc);
    push_all(&mut text, config, app, users, Kind::Task)?;
    push_all(&mut text, config, app, users, Kind::Resource)?;
    push_all(&mut text, config, app, users, Kind::Event)?;
    push_all(&mut text, config, app, users, Kind::Alarm)?;
    push_all(&mut text, config, app, users, Kind::Symbol)?;
    push_all(&mut text, config, app, users, Kind::Function)?;
    Ok(text)
}

/// The lines of tasks that only arrivals activate, and of resources, events, alarms, symbols and functions that nothing
/// uses, of texts of at most 4,294,967,294 bytes; or the first refusal (O1 to O15, A1 to A7, V1 to V12).
pub fn unused_text(alloc: Global, oil: &[u8], src: &[u8]) -> Result<Vec<u8>, BuildError>
    requires oil { length oil.now < 4294967295 }
    requires src { length src.now < 4294967295 }
    ensures text { IfOk result (λ text. IsUnusedText oil.now src.now text.items) }
    ensures refused { IfErr result (SourcesErrorIs oil.now src.now) }
{
    let checked = read_checked(alloc, oil, src)?;
    let users = checked.ranks.users.items();
    let text = unused_lines(
        alloc,
        checked.verified.config(),
        checked.verified.app(),
        users,
    )?;
    Ok(text)
}

/// A kind of things. Those of a kind have numbers from 0.
#[derive(Clone, Copy)]
pub enum Kind {
    Task,
    Resource,
    Event,
    Alarm,
    Symbol,
    Function,
}

/// Its word in a line.
pub fn kind_word(kind: Kind) -> &'static [u8]
    ensures { result.now ≡ kind_word kind }
{
    match kind {
        Kind::Task => b"task",
        Kind::Resource => b"resource",
        Kind::Event => b"event",
        Kind::Alarm => b"alarm",
        Kind::Symbol => b"symbol",
        Kind::Function => b"function",
    }
}

/// How many there are of a kind.
pub fn kind_count(config: &Config, app: &App, kind: Kind) -> usize
    ensures { result ≡ count_of config.now app.now kind }
{
    match kind {
        Kind::Task => config.tasks.items().len(),
        Kind::Resource => config.resources.items().len(),
        Kind::Event => config.events.items().len(),
        Kind::Alarm => config.alarms.items().len(),
        Kind::Symbol => app.symbols.items().len(),
        Kind::Function => app.funcs.items().len(),
    }
}

/// The name of one.
pub fn object_name<'t>(config: &'t Config, app: &'t App, kind: Kind, number: usize) -> &'t [u8]
    ensures { result.now ≡ object_name config.now app.now kind number }
{
    match kind {
        Kind::Task => config.task_name(number),
        Kind::Resource => match config.resources.items().get(number) {
            Some(name) => name.bytes(),
            None => b"",
        },
        Kind::Event => config.event_name(number),
        Kind::Alarm => config.alarm_name(number),
        Kind::Symbol => app.symbol_name(number),
        Kind::Function => app.function_name(number),
    }
}

/// The mask of an event.
pub fn event_mask(config: &Config, number: usize) -> u32
    ensures { result ≡ event_mask config.now number }
{
    config
        .events
        .items()
        .get(number)
        .map_or(0, |event| event.mask)
}
