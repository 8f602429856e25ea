//! The lines of responses.
ghost use Rattle.std.specs.Prelude.{◌≡◌, ◌<◌, ◌≤◌, ◌++◌, length, decimal, OnOk, IfOk};
ghost use Rattle.sloth_base.specs.ConfigRange.{InRange};
ghost use Rattle.load_text.specs.Loads.{deadline};
ghost use Rattle.response_text.specs.Lines.{number_words, is_never, made_words, response_words, is_met, is_met_behind};
ghost use Rattle.response_text.specs.Lines.{verdict_word, deadline_words, is_open, loop_words, reason_words};
ghost use Rattle.response_text.specs.Lines.{reason_at, lossless_words, response_at, response_line, response_lines};
ghost use Rattle.response_text.specs.Lines.{tick_words, counter_row, counter_rows, demand_line, has_open};

use crate::made::{is_lossless, is_within, is_within_limit};
use crate::part_lines::task_name;
use crate::task_text::Response;
use itoa::Buffer;
use load_text::{Entry, deadline_of, distance_of};
use response_reasons::Reason;
use sloth_base::{App, Config, FIRST_COUNTER_LINE, Result};
use std::alloc::Global;

/// A word, and a number behind it.
pub fn push_counts(text: &mut Vec<u8>, word: &[u8], number: u32) -> Result<()>
    ensures { OnOk result (text.new.items ≡ text.old.items ++ (word.now ++ decimal number)) }
{
    let mut buffer = Buffer::new();
    text.extend_from_slice(word)?;
    text.extend_from_slice(buffer.format(number).as_bytes())?;
    Ok(())
}

/// A number behind a space.
pub fn push_number(text: &mut Vec<u8>, number: Option<u32>) -> Result<()>
    ensures { OnOk result (text.new.items ≡ text.old.items ++ number_words number) }
{
    match number {
        Some(counts) => push_counts(text, b" ", counts),
        None => {
            text.extend_from_slice(b" none")?;
            Ok(())
        }
    }
}

// ---- a response

fn is_never(number: Option<u32>) -> bool
    ensures { result ≡ is_never number }
{
    match number {
        Some(counts) => counts == 0,
        None => false,
    }
}

/// Such a number, of a task that may never be made.
pub fn push_made(text: &mut Vec<u8>, number: Option<u32>) -> Result<()>
    ensures { OnOk result (text.new.items ≡ text.old.items ++ made_words number) }
{
    if is_never(number) {
        text.extend_from_slice(b" never")?;
    } else {
        push_number(text, number)?;
    }
    Ok(())
}

fn push_response(text: &mut Vec<u8>, response: Response) -> Result<()>
    ensures { OnOk result (text.new.items ≡ text.old.items ++ response_words response) }
{
    if response.comes {
        push_number(text, response.anywhere)?;
        text.extend_from_slice(b" behind")?;
        push_made(text, response.behind)?;
    } else {
        text.extend_from_slice(b" never")?;
    }
    Ok(())
}

// ---- deadlines

fn is_met(response: Response, limit: u32) -> bool
    ensures { result ≡ is_met response limit }
{
    response.comes && is_within(response.anywhere, limit)
}

fn is_met_behind(response: Response, limit: u32) -> bool
    ensures { result ≡ is_met_behind response limit }
{
    response.comes && is_within(response.behind, limit)
}

/// Whether there is a deadline that is not met, wherever the task is made or behind boot.
pub fn is_open(response: Response, deadline: Option<u32>) -> bool
    ensures { result ≡ is_open response deadline }
{
    match deadline {
        Some(limit) => !(is_met(response, limit) || is_met_behind(response, limit)),
        None => false,
    }
}

fn verdict_word(met: bool, behind: bool) -> &'static [u8]
    ensures { result.now ≡ verdict_word met behind }
{
    if met {
        b" met "
    } else if behind {
        b" boot "
    } else {
        b" open "
    }
}

// Whether the deadline is met, if there is one.
fn push_deadline(text: &mut Vec<u8>, response: Response, deadline: Option<u32>) -> Result<()>
    ensures { OnOk result (text.new.items ≡ text.old.items ++ deadline_words response deadline) }
{
    match deadline {
        Some(limit) => {
            let word = verdict_word(is_met(response, limit), is_met_behind(response, limit));
            push_counts(text, word, limit)
        }
        None => Ok(()),
    }
}

// ---- reasons

fn push_loop(text: &mut Vec<u8>, config: &Config, word: &[u8], task: usize, line: u32) -> Result<()>
    ensures { OnOk result (text.new.items ≡ text.old.items ++ loop_words config.now word.now task line) }
{
    text.extend_from_slice(word)?;
    text.extend_from_slice(task_name(config, task))?;
    push_number(text, Some(line))
}

// Why there is no number.
fn push_reason(text: &mut Vec<u8>, config: &Config, reason: Option<Reason>) -> Result<()>
    ensures { OnOk result (text.new.items ≡ text.old.items ++ reason_words config.now reason) }
{
    match reason {
        Some(Reason::Loop(task, line)) => push_loop(text, config, b" loop ", task, line),
        Some(Reason::Makes(task, line)) => push_loop(text, config, b" makes ", task, line),
        Some(Reason::Load) => {
            text.extend_from_slice(b" load")?;
            Ok(())
        }
        None => Ok(()),
    }
}

/// The reason of a task; none behind the last one.
pub fn reason_at(reasons: &[Option<Reason>], task: u32) -> Option<Reason>
    ensures { result ≡ reason_at reasons.now task }
{
    match reasons.get(task as usize) {
        Some(reason) => *reason,
        None => None,
    }
}

// ---- a line

// That nothing is lost of a task or a counter, where it is so.
fn push_lossless(text: &mut Vec<u8>, kept: bool) -> Result<()>
    ensures { OnOk result (text.new.items ≡ text.old.items ++ lossless_words kept) }
{
    if kept {
        text.extend_from_slice(b" lossless")?;
    }
    Ok(())
}

/// The response of a task; none behind the last one.
pub fn response_at(responses: &[Response], task: u32) -> Response
    ensures { result ≡ response_at responses.now task }
{
    match responses.get(task as usize) {
        Some(response) => *response,
        None => Response {
            comes: false,
            anywhere: None,
            behind: None,
        },
    }
}

/// The line of a task.
#[tactic(auto, unfolding(crate::specs::Lines::response_line))]
pub fn push_line(
    text: &mut Vec<u8>,
    config: &Config,
    app: &App,
    load: &[Entry],
    task: u32,
    told: (Response, Option<Reason>),
) -> Result<()>
    requires in_range { InRange config.now }
    requires there { task < length config.now.tasks }
    ensures { OnOk result
        (text.new.items ≡ text.old.items ++ response_line config.now app.now load.now task told.0 told.1) }
{
    text.extend_from_slice(config.tasks.items()[task as usize].name.bytes())?;
    let (response, reason) = told;
    push_response(text, response)?;
    push_deadline(text, response, deadline_of(load, task as u8))?;
    let kept = is_lossless(config, app, load, task, response.anywhere);
    push_lossless(text, kept)?;
    push_reason(text, config, reason)?;
    text.extend_from_slice(b"\n")?;
    Ok(())
}

/// The lines of all tasks.
pub fn response_lines(
    alloc: Global,
    config: &Config,
    app: &App,
    load: &[Entry],
    responses: &[Response],
    reasons: &[Option<Reason>],
) -> Result<Vec<u8>>
    requires in_range { InRange config.now }
    ensures { IfOk result
        (λ text. text.items ≡ response_lines config.now app.now load.now responses.now reasons.now
        (length config.now.tasks)) }
{
    let mut text = Vec::new(alloc);
    for task in 0..config.tasks.items().len() as u32 {
        let told = (response_at(responses, task), reason_at(reasons, task));
        push_line(&mut text, config, app, load, task, told)?;
    }
    Ok(text)
}

// ---- ticks

fn push_tick_words(text: &mut Vec<u8>, distance: Option<u32>, tick: Option<u32>) -> Result<()>
    ensures { OnOk result (text.new.items ≡ text.old.items ++ tick_words distance tick) }
{
    match distance {
        Some(_) => match tick {
            Some(counts) => push_counts(text, b" ", counts),
            None => {
                text.extend_from_slice(b" none load")?;
                Ok(())
            }
        },
        None => {
            text.extend_from_slice(b" never")?;
            Ok(())
        }
    }
}

// The line of a counter.
#[tactic(auto, unfolding(crate::specs::Lines::counter_row))]
fn push_counter_row(
    text: &mut Vec<u8>,
    config: &Config,
    load: &[Entry],
    tick: Option<u32>,
    counter: u32,
) -> Result<()>
    requires in_range { InRange config.now }
    requires there { counter < length config.now.counters }
    ensures { OnOk result (text.new.items ≡ text.old.items ++ counter_row config.now load.now tick counter) }
{
    let distance = distance_of(load, FIRST_COUNTER_LINE + counter as u8);
    text.extend_from_slice(b"tick ")?;
    text.extend_from_slice(config.counters.items()[counter as usize].name.bytes())?;
    push_tick_words(text, distance, tick)?;
    push_lossless(text, is_within_limit(tick, distance))?;
    text.extend_from_slice(b"\n")?;
    Ok(())
}

/// The lines of all counters.
pub fn push_counter_rows(
    text: &mut Vec<u8>,
    config: &Config,
    load: &[Entry],
    tick: Option<u32>,
) -> Result<()>
    requires { InRange config.now }
    ensures { OnOk result
        (text.new.items ≡ text.old.items ++ counter_rows config.now load.now tick (length config.now.counters)) }
{
    for counter in 0..config.counters.items().len() as u32 {
        push_counter_row(text, config, load, tick, counter)?;
    }
    Ok(())
}

/// The line of the demand, at the end.
pub fn push_demand(text: &mut Vec<u8>, demand: Option<u32>) -> Result<()>
    ensures { OnOk result (text.new.items ≡ text.old.items ++ demand_line demand) }
{
    text.extend_from_slice(b"demand")?;
    push_number(text, demand)?;
    text.extend_from_slice(b"\n")?;
    Ok(())
}

/// Whether that of one of the first tasks is, so many of them.
pub fn has_open(load: &[Entry], responses: &[Response], count: u32) -> bool
    requires { count ≤ 256 }
    ensures { result ≡ has_open load.now responses.now count }
{
    let mut found = false;
    for task in 0..count {
        found = found || is_open(response_at(responses, task), deadline_of(load, task as u8));
    }
    found
}
