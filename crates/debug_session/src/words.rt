//! Parts of the data of packets. `vCont`: actions of threads.
ghost use Rattle.std.specs.Prelude.{◌≡◌, ◌==◌, IfSome, IfNone, Some, None, length, ◌&&◌, is_some};
ghost use Rattle.std.specs.List.{take_while, position_or_len};
ghost use Rattle.debug_session.specs.Words.{behind, told_window, thread_number, trimmed, first_word, further_words, count_from, told_count};
ghost use Rattle.debug_session.specs.Hex.{number_of};
ghost use Rattle.debug_session.specs.Actions.{text_action, part_step, chosen_request, actions_request};

use crate::hex::number;
use crate::replies::{Request, Window};
use debug_ways::Step;
use sloth_base::COUNT_LIMIT;
use text_pieces::{after, before, same};

fn mark_place(text: &[u8], mark: u8) -> usize
    ensures { result ≡ position_or_len (λ byte. byte == mark) text.now }
{
    text.iter().take_while(|byte| **byte != mark).count()
}

/// What stands behind the first such byte, if there is one.
pub fn behind(text: &[u8], mark: u8) -> Option<&[u8]>
    ensures some { IfSome result (λ rest. behind mark text.now ≡ Some rest.now) }
    ensures none { IfNone result (behind mark text.now ≡ None) }
{
    let place = mark_place(text, mark);
    if place < text.len() {
        Some(after(text, place + 1))
    } else {
        None
    }
}

/// Two numbers with a comma between, if the text is such.
pub fn told_window(text: &[u8]) -> Option<Window>
    ensures { result ≡ told_window text.now }
{
    let from = number(before(text, b','))?;
    let length = number(behind(text, b',')?)?;
    Some(Window { from, length })
}

/// The thread that a text tells, of so many tasks, or 0 for any. Errors: 1 where it is no number, 2 where no thread's.
pub fn thread_number(tasks: u32, text: &[u8]) -> Result<u32, u8>
    ensures { result ≡ thread_number tasks text.now }
{
    if same(text, b"-1") {
        return Ok(0);
    }
    match number(text) {
        Some(number) if u64::from(number) <= u64::from(tasks) + 1 => Ok(number),
        Some(_) => Err(2),
        None => Err(1),
    }
}

fn spaces(text: &[u8]) -> usize
    ensures { result ≡ length (take_while (λ byte. byte == 32) text.now) }
{
    text.iter().take_while(|byte| **byte == b' ').count()
}

fn trimmed(text: &[u8]) -> &[u8]
    ensures { result.now ≡ trimmed text.now }
{
    after(text, spaces(text))
}

/// The first word.
pub fn first_word(text: &[u8]) -> &[u8]
    ensures { result.now ≡ first_word text.now }
{
    before(trimmed(text), b' ')
}

/// What stands behind the first word.
pub fn further_words(text: &[u8]) -> &[u8]
    ensures { result.now ≡ further_words text.now }
{
    trimmed(text_pieces::behind(trimmed(text), b' '))
}

// The number of decimal digits; beyond 1,000,000 it stays.
fn capped_count(text: &[u8]) -> Option<u32>
    ensures { result ≡ count_from 0 text.now }
{
    let mut value = 0u32;
    for byte in text {
        if *byte < b'0' || *byte > b'9' {
            return None;
        }
        value = if value > COUNT_LIMIT {
            value
        } else {
            value * 10 + u32::from(*byte - b'0')
        };
    }
    Some(value)
}

/// The count that a word tells, if it is one up to 1,000,000.
pub fn told_count(text: &[u8]) -> Option<u32>
    ensures { result ≡ told_count text.now }
{
    if text.is_empty() {
        return None;
    }
    match capped_count(text) {
        Some(count) if count <= COUNT_LIMIT => Some(count),
        _ => None,
    }
}

/// An action of a thread.
#[derive(Clone, Copy)]
pub enum Action {
    Continued,
    /// A step, through the addresses from one to below another.
    Stepped(u32, u32),
    NoAction,
}

/// Whether a text is the two digits of a signal.
pub fn is_signal(digits: &[u8]) -> bool
    ensures { result ≡ (length digits.now == 2 && is_some (number_of digits.now)) }
{
    digits.len() == 2 && number(digits).is_some()
}

fn text_action(text: &[u8]) -> Action
    ensures { result ≡ text_action text.now }
{
    let Some((first, rest)) = text.split_first() else {
        return Action::NoAction;
    };
    let first = *first;
    if first == b'r' {
        return match told_window(rest) {
            Some(window) => Action::Stepped(window.from, window.length),
            None => Action::NoAction,
        };
    }
    if (first == b'c' && rest.is_empty()) || (first == b'C' && is_signal(rest)) {
        return Action::Continued;
    }
    if (first == b's' && rest.is_empty()) || (first == b'S' && is_signal(rest)) {
        return Action::Stepped(0, 0);
    }
    Action::NoAction
}

fn chosen_request(only: bool, chosen: &Option<Step>) -> Request
    ensures { result ≡ chosen_request only chosen.now }
{
    match chosen {
        Some(step) => {
            let mut step = *step;
            step.alone = only;
            Request::Step(step)
        }
        None => Request::Continue(false),
    }
}

// The first step of those before a part and of the part, or the number of its fault.
fn part_step(tasks: u32, part: &[u8], chosen: &Option<Step>) -> Result<Option<Step>, u8>
    ensures { result ≡ part_step tasks part.now chosen.now }
{
    let told = match behind(part, b':') {
        Some(text) => thread_number(tasks, text),
        None => Ok(0),
    };
    let thread = told?;
    match text_action(before(part, b':')) {
        Action::Continued => Ok(*chosen),
        Action::Stepped(from, to) => match chosen {
            Some(step) => Ok(Some(*step)),
            None => Ok(Some(Step {
                thread,
                alone: false,
                backwards: false,
                from,
                to,
            })),
        },
        Action::NoAction => Err(1),
    }
}

/// What actions ask that stand between semicolons.
pub fn actions_request(tasks: u32, text: &[u8]) -> Request
    ensures { result ≡ actions_request tasks text.now }
{
    let only = behind(text, b';').is_none();
    let mut chosen = None;
    let mut rest = text;
    while let Some(further) = behind(rest, b';') {
        let part = before(rest, b';');
        match part_step(tasks, part, &chosen) {
            Ok(step) => chosen = step,
            Err(fault) => return Request::Fault(fault),
        }
        rest = further;
    }
    let last = before(rest, b';');
    match part_step(tasks, last, &chosen) {
        Ok(step) => chosen_request(only, &step),
        Err(fault) => Request::Fault(fault),
    }
}
