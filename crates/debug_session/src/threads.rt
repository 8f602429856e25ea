//! What is told of threads, and of tasks' states. Parts of replies, and what is told of a stop.
ghost use Rattle.std.specs.Prelude.{◌≡◌, ◌≤◌, ◌<◌, ◌+◌, ◌++◌, OnOk, codes, length};
ghost use Rattle.sloth_base.specs.Limits.{task_limit};
ghost use Rattle.debug_session.specs.Texts.{up_to, hex_number, digit_at, register_digits, window_text, state_text};
ghost use Rattle.debug_session.specs.Replies.{thread_text, thread_name, words_text, thread_element, threads_head, threads_text, number_text, thread_list, task_line, states_text, cause_signal, watch_word, cause_reason, told_text};

use crate::hex::{hex_digit, push_hex};
use crate::replies::Window;
use debug_ways::standing::{Seen, View, lesser};
use debug_ways::{Cause, Standing};
use osek_scheduler::TaskState;
use rv32_instr::Stop;
use sloth_base::{Name, Result, TASK_LIMIT};
use text_pieces::line;
use text_pieces::pieces::Piece::{Number, Word};

/// The states of tasks; an unused place has Suspended.
type States = [TaskState; TASK_LIMIT];

#[tactic(auto, unfolding(crate::specs::Replies::machine_text, crate::specs::Replies::task_text))]
fn push_thread(out: &mut Vec<u8>, view: &View, thread: u32) -> Result<()>
    ensures { OnOk result (out.new.items ≡ out.old.items ++ thread_text view.now thread) }
{
    if thread != 1 {
        let task = thread.saturating_sub(2);
        let Some(seen) = &view.seen else {
            return push(out, b"booting");
        };
        let none = TaskState::Suspended;
        let state = seen.states.get(task as usize).copied().unwrap_or(none);
        if u64::from(seen.running) == u64::from(task) + 1 {
            return push_state(out, b"running", state);
        }
        return push_state(out, b"preempted", state);
    }
    line!(out; Word(b"count "), Number(view.count), Word(b", level "), Number(view.level))?;
    if view.mstatus / 8 % 2 == 1 {
        return Ok(());
    }
    push(out, b", masked")
}

fn thread_name<'a>(names: &'a [Name], thread: u32) -> &'a [u8]
    ensures { result.now ≡ thread_name names.now thread }
{
    let task = thread.saturating_sub(2) as usize;
    if thread == 1 {
        b"machine"
    } else if task < names.len() {
        names[task].bytes()
    } else {
        b""
    }
}

/// Puts a thread's name and what it is.
pub fn push_words(out: &mut Vec<u8>, view: &View, names: &[Name], thread: u32) -> Result<()>
    ensures { OnOk result (out.new.items ≡ out.old.items ++ words_text view.now names.now thread) }
{
    line!(out; Word(thread_name(names, thread)), Word(b" "))?;
    push_thread(out, view, thread)
}

fn push_head(out: &mut Vec<u8>, names: &[Name], thread: u32) -> Result<()>
    ensures { OnOk result (out.new.items
        ≡ out.old.items ++ (codes "<thread id=\"" ++ hex_number thread ++ codes "\" name=\""
        ++ thread_name names.now thread ++ codes "\">")) }
{
    push(out, b"<thread id=\"")?;
    push_number(out, thread)?;
    line!(out; Word(b"\" name=\""), Word(thread_name(names, thread)), Word(b"\">"))?;
    Ok(())
}

#[tactic(auto, unfolding(crate::specs::Replies::thread_element))]
fn push_element(out: &mut Vec<u8>, view: &View, names: &[Name], thread: u32) -> Result<()>
    ensures { OnOk result (out.new.items ≡ out.old.items ++ thread_element view.now names.now thread) }
{
    push_head(out, names, thread)?;
    push_thread(out, view, thread)?;
    push(out, b"</thread>\n")
}

fn push_elements(out: &mut Vec<u8>, view: &View, names: &[Name], threads: u32) -> Result<()>
    ensures { OnOk result (out.new.items
        ≡ out.old.items ++ up_to (λ place. thread_element view.now names.now (place + 1)) threads) }
{
    for place in 0..threads {
        push_element(out, view, names, place + 1)?;
    }
    Ok(())
}

#[tactic(auto, unfolding(crate::specs::Replies::threads_head))]
fn threads_head() -> &'static [u8]
    ensures { result.now ≡ threads_head }
{
    b"<?xml version=\"1.0\"?>\n<threads>\n"
}

/// Puts the list of threads.
pub fn push_threads(out: &mut Vec<u8>, view: &View, names: &[Name]) -> Result<()>
    requires { length names.now ≤ task_limit }
    ensures { OnOk result (out.new.items ≡ out.old.items ++ threads_text view.now names.now) }
{
    push(out, threads_head())?;
    push_elements(out, view, names, names.len() as u32 + 1)?;
    push(out, b"</threads>\n")
}

fn push_numbers(out: &mut Vec<u8>, tasks: u32) -> Result<()>
    requires { tasks ≤ task_limit }
    ensures { OnOk result (out.new.items ≡ out.old.items ++ up_to number_text tasks) }
{
    for task in 0..tasks {
        push(out, b",")?;
        push_number(out, task + 2)?;
    }
    Ok(())
}

/// Puts the numbers of all threads.
pub fn push_thread_list(out: &mut Vec<u8>, tasks: u32) -> Result<()>
    requires { tasks ≤ task_limit }
    ensures { OnOk result (out.new.items ≡ out.old.items ++ thread_list tasks) }
{
    push(out, b"m1")?;
    push_numbers(out, tasks)
}

#[tactic(auto, unfolding(crate::specs::Replies::task_line))]
fn push_task_line(out: &mut Vec<u8>, names: &[Name], states: &States, task: usize) -> Result<()>
    requires named { task < length names.now }
    requires there { task < task_limit }
    ensures { OnOk result (out.new.items ≡ out.old.items ++ task_line names.now states.now task) }
{
    line!(out; Word(names[task].bytes()), Word(b" "))?;
    push_state(out, b"active", states[task])?;
    push(out, b"\n")
}

fn push_task_lines(out: &mut Vec<u8>, names: &[Name], states: &States) -> Result<()>
    requires { length names.now ≤ task_limit }
    ensures { OnOk result (out.new.items ≡ out.old.items ++ up_to (task_line names.now states.now) (length names.now)) }
{
    for task in 0..names.len() {
        push_task_line(out, names, states, task)?;
    }
    Ok(())
}

/// Puts the states of all tasks, if they were seen.
pub fn push_states(out: &mut Vec<u8>, names: &[Name], seen: &Option<Seen>) -> Result<()>
    requires { length names.now ≤ task_limit }
    ensures { OnOk result (out.new.items ≡ out.old.items ++ states_text names.now seen.now) }
{
    match seen {
        Some(seen) => {
            line!(out; Word(b"count "), Number(seen.count), Word(b"\n"))?;
            push_task_lines(out, names, &seen.states)
        }
        None => push(out, b"booting\n"),
    }
}

/// The most bytes of a part of a text.
const PART_LIMIT: u32 = 16_368;

/// Puts bytes.
pub fn push(out: &mut Vec<u8>, bytes: &[u8]) -> Result<()>
    ensures { OnOk result (out.new.items ≡ out.old.items ++ bytes.now) }
{
    out.extend_from_slice(bytes)?;
    Ok(())
}

// Puts the digit of a place, unless it is a zero in front.
fn push_digit(out: &mut Vec<u8>, place: u32, number: u32) -> Result<()>
    requires { 0 < place }
    ensures { OnOk result (out.new.items ≡ out.old.items ++ digit_at place number) }
{
    if place <= number || place == 1 {
        push(out, &[hex_digit((number / place % 16) as u8)])?;
    }
    Ok(())
}

/// Puts a number in hexadecimal digits, with no zero in front.
#[tactic(auto, unfolding(crate::specs::Texts::hex_number))]
pub fn push_number(out: &mut Vec<u8>, number: u32) -> Result<()>
    ensures { OnOk result (out.new.items ≡ out.old.items ++ hex_number number) }
{
    push_digit(out, 0x1000_0000, number)?;
    push_digit(out, 0x100_0000, number)?;
    push_digit(out, 0x10_0000, number)?;
    push_digit(out, 0x1_0000, number)?;
    push_digit(out, 0x1000, number)?;
    push_digit(out, 0x100, number)?;
    push_digit(out, 0x10, number)?;
    push_digit(out, 1, number)
}

/// Puts eight digits of a register, or eight x where it is not known.
#[tactic(auto, unfolding(crate::specs::Texts::word_digits))]
pub fn push_register(out: &mut Vec<u8>, register: Option<u32>) -> Result<()>
    ensures { OnOk result (out.new.items ≡ out.old.items ++ register_digits register) }
{
    match register {
        Some(word) => push_hex(out, &word.to_le_bytes()),
        None => push(out, b"xxxxxxxx"),
    }
}

/// Puts a part of a text.
#[tactic(auto, unfolding(crate::specs::Texts::part_text))]
pub fn push_window(out: &mut Vec<u8>, text: &[u8], window: &Window) -> Result<()>
    ensures { OnOk result (out.new.items ≡ out.old.items ++ window_text text.now window.now) }
{
    let from = window.from as usize;
    let end = from + lesser(PART_LIMIT, window.length) as usize;
    if text.len() <= from {
        return push(out, b"l");
    }
    if text.len() <= end {
        return line!(out; Word(b"l"), Word(&text[from..]));
    }
    line!(out; Word(b"m"), Word(&text[from..end]))
}

/// Puts the word of a state, where this is that of an Active task, and the events that a task waits for.
#[tactic(auto, unfolding(crate::specs::Texts::state_text))]
pub fn push_state(out: &mut Vec<u8>, active: &[u8], state: TaskState) -> Result<()>
    ensures { OnOk result (out.new.items ≡ out.old.items ++ state_text active.now state) }
{
    match state {
        TaskState::Suspended => push(out, b"suspended"),
        TaskState::Ready => push(out, b"ready"),
        TaskState::Active => push(out, active),
        TaskState::Waiting(mask) => line!(out; Word(b"waiting "), Number(mask)),
    }
}

fn cause_signal(stop: &Option<Stop>, other: bool, cause: Cause) -> &'static [u8]
    ensures { result.now ≡ cause_signal stop.now other cause }
{
    match cause {
        Cause::Interrupt => b"02",
        Cause::Step => { if other { b"00" } else { b"05" } }
        Cause::Break(_) | Cause::Watch(_, _) | Cause::Begin => b"05",
        Cause::End => match stop {
            Some(Stop::Illegal(_)) => b"04",
            Some(Stop::Fetch(_) | Stop::Access(_)) => b"0b",
            Some(Stop::Misaligned(_)) => b"0a",
            None | Some(Stop::Environment) => b"05",
        },
    }
}

fn watch_word(kind: u8) -> &'static [u8]
    ensures { result.now ≡ watch_word kind }
{
    match kind {
        2 => b"watch:",
        3 => b"rwatch:",
        _ => b"awatch:",
    }
}

fn push_reason(out: &mut Vec<u8>, stop: &Option<Stop>, cause: Cause) -> Result<()>
    ensures { OnOk result (out.new.items ≡ out.old.items ++ cause_reason stop.now cause) }
{
    match cause {
        Cause::Break(0) => push(out, b"swbreak:;"),
        Cause::Break(_) => push(out, b"hwbreak:;"),
        Cause::Watch(kind, address) => {
            push(out, watch_word(kind))?;
            push_number(out, address)?;
            push(out, b";")
        }
        Cause::Begin => push(out, b"replaylog:begin;"),
        Cause::End if stop.is_none() => push(out, b"replaylog:end;"),
        Cause::Interrupt | Cause::Step | Cause::End => Ok(()),
    }
}

/// Puts what is told of a stop, where the run ends so.
pub fn push_stop(out: &mut Vec<u8>, stop: &Option<Stop>, standing: &Standing) -> Result<()>
    ensures { OnOk result (out.new.items ≡ out.old.items ++ told_text stop.now standing.now) }
{
    let signal = cause_signal(stop, standing.told.other, standing.told.cause);
    line!(out; Word(b"T"), Word(signal), Word(b"thread:"))?;
    push_number(out, standing.stopped)?;
    push(out, b";")?;
    push_reason(out, stop, standing.told.cause)
}
