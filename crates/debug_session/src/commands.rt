//! What `monitor` asks, and what packets ask of threads, registers, memory and points.
//! What the data of a packet asks: a table of words, and what may follow each.
ghost use Rattle.std.specs.Prelude.{◌≡◌, IfOk, map, if◌then◌else◌};
ghost use Rattle.std.specs.Str.{is_utf8};
ghost use Rattle.debug_session.specs.Hex.{bytes_of_hex};
ghost use Rattle.debug_session.specs.Requests.{command_request, monitor_request, thread_request, window_request, point_kind, has_one, points_request, followed, word_request, row_of, words, packet_request};
ghost use Rattle.debug_session.specs.Words.{behind};

use crate::hex::{bytes_of_hex, number};
use crate::replies::{Request, Window};
use crate::session::LONGEST;
use crate::words::{
    actions_request, behind, first_word, further_words, is_signal, thread_number, told_count,
    told_window,
};
use debug_ways::Point;
use sloth_base::Result;
use std::alloc::Global;
use text_pieces::{before, same};

#[tactic(auto, unfolding(crate::specs::Requests::single_command, crate::specs::Requests::command_request))]
fn command_request(text: &[u8]) -> Request
    ensures { result ≡ command_request text.now }
{
    let word = first_word(text);
    let further = further_words(text);
    if !further.is_empty() {
        if !same(word, b"goto") || !further_words(further).is_empty() {
            return Request::Help;
        }
        return match told_count(first_word(further)) {
            Some(count) => Request::Goto(count),
            None => Request::NoGoto,
        };
    }
    if same(word, b"count") {
        return Request::Count;
    }
    if same(word, b"states") {
        return Request::States;
    }
    if same(word, b"events") {
        return Request::Events;
    }
    Request::Help
}

/// Whether bytes are a text.
pub fn is_text(bytes: &[u8]) -> bool
    ensures { result ≡ is_utf8 bytes.now }
{
    match str::from_utf8(bytes) {
        Ok(_) => true,
        Err(_) => false,
    }
}

/// `qRcmd`.
pub fn monitor_request(alloc: Global, digits: &[u8]) -> Result<Request>
    ensures { IfOk result (λ request. request ≡ monitor_request (bytes_of_hex digits.now)) }
{
    match bytes_of_hex(alloc, digits)? {
        Some(text) => {
            if is_text(text.as_slice()) {
                Ok(command_request(text.as_slice()))
            } else {
                Ok(Request::Fault(1))
            }
        }
        None => Ok(Request::Fault(1)),
    }
}

/// What is asked of a thread, or the fault of the text that tells it.
pub fn thread_request(form: &Form, thread: Result<u32, u8>) -> Request
    ensures { result ≡ thread_request form.now thread }
{
    match thread {
        Err(fault) => Request::Fault(fault),
        Ok(thread) => match form {
            Form::Shown => Request::SelectShown(thread),
            Form::Stepped => Request::SelectStepped(thread),
            Form::Alive => either(thread == 0, Request::Fault(1), Request::Confirmed),
            Form::Info => either(thread == 0, Request::Fault(1), Request::ThreadInfo(thread)),
            _ => Request::Fault(1),
        },
    }
}

/// What is asked of a part of a text or of memory.
pub fn window_request(form: &Form, window: &Option<Window>) -> Request
    ensures { result ≡ window_request form.now window.now }
{
    match window {
        Some(window) => match form {
            Form::Memory => Request::Memory(*window),
            Form::Description => Request::Description(*window),
            Form::Threads => Request::Threads(*window),
            _ => Request::Fault(1),
        },
        None => Request::Fault(1),
    }
}

fn point_kind(text: &[u8]) -> u8
    ensures { result ≡ point_kind text.now }
{
    if text.len() == 1 && text[0] >= b'0' && text[0] <= b'4' {
        text[0] - b'0'
    } else {
        5
    }
}

fn has_one(text: &[u8]) -> bool
    ensures { result ≡ has_one (behind 44 text.now) }
{
    match behind(text, b',') {
        Some(rest) => behind(rest, b',').is_none(),
        None => false,
    }
}

/// `Z` and `z`.
pub fn points_request(sets: bool, text: &[u8]) -> Request
    ensures { result ≡ points_request sets text.now }
{
    let point = before(text, b';');
    let kind = point_kind(before(point, b','));
    let Some(rest) = behind(point, b',') else {
        return Request::Fault(1);
    };
    if !has_one(rest) {
        return Request::Fault(1);
    }
    if kind == 5 {
        return Request::Nothing;
    }
    match told_window(rest) {
        Some(window) => {
            let length = if kind < 2 { 4 } else { window.length };
            let point = Point {
                kind,
                address: window.from,
                length,
            };
            either(sets, Request::SetPoint(point), Request::TakePoint(point))
        }
        None => Request::Fault(1),
    }
}

/// The first of two requests, or else the other.
pub fn either(first: bool, one: Request, other: Request) -> Request
    ensures { result ≡ (if first then one else other) }
{
    if first { one } else { other }
}

#[tactic(auto, unfolding(crate::specs::Requests::followed))]
fn followed(alloc: Global, tasks: u32, form: &Form, rest: &[u8]) -> Result<Request>
    ensures { IfOk result (λ request. request ≡ followed tasks form.now rest.now) }
{
    match form {
        Form::Bare(request) => Ok(either(rest.is_empty(), *request, Request::Nothing)),
        Form::Alone(request) => Ok(either(rest.is_empty(), *request, Request::Fault(1))),
        Form::Any(request) => Ok(*request),
        Form::Signal(request) => Ok(either(is_signal(rest), *request, Request::Fault(1))),
        Form::Shown | Form::Stepped | Form::Alive | Form::Info => {
            Ok(thread_request(form, thread_number(tasks, rest)))
        }
        Form::Register => match number(rest) {
            Some(number) => Ok(either(number < 38, Request::Register(number), Request::Fault(1))),
            None => Ok(Request::Fault(1)),
        },
        Form::Memory | Form::Description | Form::Threads => {
            Ok(window_request(form, &told_window(rest)))
        }
        Form::Points(sets) => Ok(points_request(*sets, rest)),
        Form::Actions => Ok(actions_request(tasks, rest)),
        Form::Command => monitor_request(alloc, rest),
    }
}

fn word_request(alloc: Global, tasks: u32, rows: &[Row], content: &[u8]) -> Result<Request>
    ensures { IfOk result (λ request. request ≡ word_request tasks (map row_of rows.now) content.now) }
{
    for row in rows {
        if content.starts_with(row.0) {
            return followed(alloc, tasks, &row.1, &content[row.0.len()..]);
        }
    }
    Ok(Request::Nothing)
}

// The words, and what may follow: what steps and continues; shows; writes, which is refused; points and ends; others.
const WORDS: [Row; 36] = [
    Row(b"c", Form::Alone(Request::Continue(false))),
    Row(b"s", Form::Alone(Request::PlainStep(false))),
    Row(b"C", Form::Signal(Request::Continue(false))),
    Row(b"S", Form::Signal(Request::PlainStep(false))),
    Row(b"bc", Form::Bare(Request::Continue(true))),
    Row(b"bs", Form::Bare(Request::PlainStep(true))),
    Row(b"?", Form::Bare(Request::LastStop)),
    Row(b"g", Form::Bare(Request::Registers)),
    Row(b"p", Form::Register),
    Row(b"m", Form::Memory),
    Row(b"Hg", Form::Shown),
    Row(b"Hc", Form::Stepped),
    Row(b"H", Form::Any(Request::Fault(1))),
    Row(b"T", Form::Alive),
    Row(b"G", Form::Any(Request::Fault(4))),
    Row(b"P", Form::Any(Request::Fault(4))),
    Row(b"M", Form::Any(Request::Fault(4))),
    Row(b"X", Form::Any(Request::Fault(4))),
    Row(b"Z", Form::Points(true)),
    Row(b"z", Form::Points(false)),
    Row(b"D", Form::Bare(Request::Detach)),
    Row(b"k", Form::Bare(Request::Kill)),
    Row(b"vCont?", Form::Bare(Request::Actions)),
    Row(b"vCont;", Form::Actions),
    Row(b"qSupported:", Form::Any(Request::Supported)),
    Row(b"qSupported", Form::Bare(Request::Supported)),
    Row(b"qXfer:features:read:target.xml:", Form::Description),
    Row(b"qXfer:features:read:", Form::Any(Request::NoAnnex)),
    Row(b"qXfer:threads:read::", Form::Threads),
    Row(b"qC", Form::Bare(Request::CurrentThread)),
    Row(b"qAttached", Form::Bare(Request::Attached)),
    Row(b"qfThreadInfo", Form::Bare(Request::ThreadList)),
    Row(b"qsThreadInfo", Form::Bare(Request::ThreadListEnd)),
    Row(b"qThreadExtraInfo,", Form::Info),
    Row(b"qRcmd,", Form::Command),
    Row(b"QStartNoAckMode", Form::Bare(Request::NoAcks)),
];

#[tactic(auto, unfolding(crate::specs::Requests::words))]
fn text_request(alloc: Global, tasks: u32, text: &[u8]) -> Result<Request>
    ensures { IfOk result (λ request. request ≡ word_request tasks words text.now) }
{
    word_request(alloc, tasks, &WORDS, text)
}

/// What the data of a packet asks, of a run of so many tasks.
pub fn packet_request(alloc: Global, tasks: u32, content: &[u8]) -> Result<Request>
    ensures { IfOk result (λ request. request ≡ packet_request tasks content.now) }
{
    if content.len() > LONGEST {
        return Ok(Request::Fault(1));
    }
    if is_text(content) {
        return text_request(alloc, tasks, content);
    }
    let writes = content.starts_with(b"X");
    Ok(either(writes, Request::Fault(4), Request::Fault(1)))
}

/// What may follow a word.
#[derive(Clone, Copy)]
pub enum Form {
    /// Nothing; else nothing is asked.
    Bare(Request),
    /// Nothing; else it is at fault.
    Alone(Request),
    Any(Request),
    /// The two digits of a signal.
    Signal(Request),
    /// A thread: that is shown, that plain steps step, of which is asked whether it is there, or what it is.
    Shown,
    Stepped,
    Alive,
    Info,
    /// The number of a register.
    Register,
    /// A part of memory, of the description, or of the list of threads.
    Memory,
    Description,
    Threads,
    /// A point that is set, or else taken away.
    Points(bool),
    Actions,
    Command,
}

/// A word, and what may follow it.
#[derive(Clone, Copy)]
pub struct Row<'a>(pub &'a [u8], pub Form);
