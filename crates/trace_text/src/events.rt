//! The words of events. Words that are numbers. A line in a fixed buffer.
//! The summary of a run. The line of a run that stopped. Printing events.
ghost use Rattle.std.specs.Prelude.{◌≡◌, ℕ, ◌+◌, ◌<◌, ◌≤◌, ◌++◌, length, decimal, IfSome, IfNone, [], take};
ghost use Rattle.sloth_base.specs.Limits.{name_limit, count_limit};
ghost use Rattle.trace_text.specs.EventWords.{event_text, kind_of, name_of};
ghost use Rattle.hex.specs.Hex.{encode_lower};
ghost use Rattle.trace_text.specs.MarkWords.{word_text};
ghost use Rattle.trace_text.specs.Summary.{kind_word, kind_line};
ghost use Rattle.trace_text.specs.StopLine.{stopped_line};
ghost use Rattle.sloth_base.specs.ImageRange.{InFormat};
ghost use Rattle.trace_text.specs.Lines.{counts_text, line_of};

use hex::encode_to_slice;
use itoa::Buffer;
use rv32_instr::Stop;
use sloth_base::{COUNT_LIMIT, Event, Image, Name, Stamped};
use std::marker::Model;

/// The number of an event's kind, in the order of the summary.
pub fn kind_of(event: &Event) -> usize
    ensures is { result ≡ kind_of event.now }
    ensures below { result < 10 }
{
    match *event {
        Event::Boot => 0,
        Event::Admit(_) | Event::Due(_) => 1,
        Event::Enter(_) => 2,
        Event::Run { .. } => 3,
        Event::Call { .. } => 4,
        Event::Left { .. } => 5,
        Event::Back(_) => 6,
        Event::Idle => 7,
        Event::Stray => 8,
        Event::Tick(_) => 9,
    }
}

/// Appends the name of a number, or `-`.
pub fn push_name(line: &mut LineText, names: &[Name], number: u32)
    requires short { (k : ℕ) → length (name_of names.now k) ≤ name_limit }
    requires room { length line.old + name_limit ≤ 256 }
    ensures name { line.new ≡ line.old ++ name_of names.now number }
    ensures short { length line.new ≤ length line.old + name_limit }
{
    match names.get(number as usize) {
        Some(name) => line.push(name.bytes()),
        None => line.push(b"-"),
    }
}

fn push_named(line: &mut LineText, word: &[u8], names: &[Name], number: u32)
    requires short { (k : ℕ) → length (name_of names.now k) ≤ name_limit }
    requires room { length line.old + length word.now + name_limit ≤ 256 }
    ensures named { line.new ≡ line.old ++ (word.now ++ name_of names.now number) }
    ensures short { length line.new ≤ length line.old + length word.now + name_limit }
{
    line.push(word);
    push_name(line, names, number);
}

/// Appends a word and a number.
pub fn push_counted(line: &mut LineText, word: &[u8], number: u32)
    requires { length line.old + length word.now + 10 ≤ 256 }
    ensures counted { line.new ≡ line.old ++ (word.now ++ decimal number) }
    ensures short { length line.new ≤ length line.old + length word.now + 10 }
{
    line.push(word);
    line.push_number(number);
}

/// Appends an event, with names of at most 64 bytes.
pub fn push_event(
    line: &mut LineText,
    event: &Event,
    tasks: &[Name],
    functions: &[Name],
    counters: &[Name],
)
    requires tasks { (k : ℕ) → length (name_of tasks.now k) ≤ name_limit }
    requires functions { (k : ℕ) → length (name_of functions.now k) ≤ name_limit }
    requires counters { (k : ℕ) → length (name_of counters.now k) ≤ name_limit }
    requires room { length line.old + 155 ≤ 256 }
    ensures event { line.new ≡ line.old ++ event_text tasks.now functions.now counters.now event.now }
    ensures short { length line.new ≤ length line.old + 155 }
{
    match *event {
        Event::Boot => line.push(b"boot"),
        Event::Admit(task) => push_named(line, b"admit ", tasks, task),
        Event::Enter(task) => push_named(line, b"enter ", tasks, task),
        Event::Run {
            task,
            func,
            item,
            result,
        } => {
            push_named(line, b"run ", tasks, task);
            push_named(line, b" ", functions, func);
            push_counted(line, b" ", item);
            push_counted(line, b" ", result);
        }
        Event::Call {
            task,
            service,
            status,
        } => {
            push_named(line, b"call ", tasks, task);
            line.push(b" ");
            line.push(service.name());
            push_counted(line, b" ", status);
        }
        Event::Left { task, service } => {
            push_named(line, b"left ", tasks, task);
            line.push(b" ");
            line.push(service.name());
        }
        Event::Back(task) => push_named(line, b"back ", tasks, task),
        Event::Idle => line.push(b"idle"),
        Event::Stray => line.push(b"stray"),
        Event::Due(counter) => push_named(line, b"admit ", counters, counter),
        Event::Tick(counter) => push_named(line, b"tick ", counters, counter),
    }
}

/// A word of 32 bits in decimal digits, without sign and without a leading zero.
pub fn number(word: &str) -> Option<u32>
    ensures some { IfSome result (λ n. (word.now ≡ decimal n) × (n ≤ 4294967295)) }
    ensures none { IfNone result ((n : ℕ) → n ≤ 4294967295 → word.now ≡ decimal n → ⊥) }
{
    let Ok(n) = word.parse::<u32>() else {
        return None;
    };
    let mut buffer = Buffer::new();
    if buffer.format(n) == word {
        return Some(n);
    }
    None
}

/// A number up to a limit, in the same form.
pub fn number_below(word: &str, limit: u32) -> Option<u32>
    ensures some { IfSome result (λ n. (word.now ≡ decimal n) × (n ≤ limit)) }
    ensures none { IfNone result ((n : ℕ) → n ≤ limit → word.now ≡ decimal n → ⊥) }
{
    let Some(n) = number(word) else {
        return None;
    };
    if n > limit {
        return None;
    }
    Some(n)
}

/// A number of instructions, in the same form.
pub fn instructions(word: &str) -> Option<u32>
    ensures some { IfSome result (λ n. (word.now ≡ decimal n) × (n ≤ count_limit)) }
    ensures none { IfNone result ((n : ℕ) → n ≤ count_limit → word.now ≡ decimal n → ⊥) }
{
    number_below(word, COUNT_LIMIT)
}

/// A line of at most 256 bytes, without its LF. Contracts see it as its bytes.
#[derive(Drop)]
pub struct LineText {
    buffer: [u8; 256],
    len: usize,
}

impl Model for LineText {
    ghost use Rattle.std.specs.Prelude.{List, ℕ, take, ◌≤◌};

    ghost Value = { List ℕ };

    ghost view = { λ line. take line.len line.buffer };

    ghost invariant = { λ line. line.len ≤ 256 };
}

impl LineText {
    /// An empty line.
    pub fn new() -> LineText
        ensures { result ≡ [] }
    {
        LineText {
            buffer: [0; 256],
            len: 0,
        }
    }

    /// The bytes.
    pub fn bytes(&self) -> &[u8]
        ensures { result.now ≡ self.now }
    {
        &self.buffer[..self.len]
    }

    /// Appends bytes.
    pub fn push(&mut self, bytes: &[u8])
        requires { length self.old + length bytes.now ≤ 256 }
        ensures bytes { self.new ≡ self.old ++ bytes.now }
        ensures length { length self.new ≡ length self.old + length bytes.now }
    {
        let end = self.len + bytes.len();
        self.buffer[self.len..end].copy_from_slice(bytes);
        self.len = end;
    }

    /// Appends a number in decimal digits.
    pub fn push_number(&mut self, number: u32)
        requires { length self.old + 10 ≤ 256 }
        ensures digits { self.new ≡ self.old ++ decimal number }
        ensures short { length self.new ≤ length self.old + 10 }
    {
        let mut buffer = Buffer::new();
        let digits = buffer.format(number).as_bytes();
        self.push(digits);
    }

    /// Appends four bytes in eight hexadecimal digits, in lower case.
    pub fn push_hex(&mut self, bytes: [u8; 4])
        requires { length self.old + 8 ≤ 256 }
        ensures digits { self.new ≡ self.old ++ encode_lower bytes }
        ensures length { length self.new ≡ length self.old + 8 }
    {
        let mut digits = [0; 8];
        let _ = encode_to_slice(bytes, &mut digits);
        self.push(&digits);
    }

    /// Appends a number in eight hexadecimal digits, in lower case.
    #[tactic(auto, unfolding(crate::specs::MarkWords::word_text))]
    pub fn push_word(&mut self, number: u32)
        requires { length self.old + 8 ≤ 256 }
        ensures digits { self.new ≡ self.old ++ word_text number }
        ensures length { length self.new ≡ length self.old + 8 }
    {
        self.push_hex(number.to_be_bytes());
    }
}

/// How many kinds of events there are.
pub const KINDS: usize = 10;

#[tactic(auto, unfolding(crate::specs::Summary::kind_word))]
fn kind_word(kind: usize) -> &'static [u8]
    ensures is { result.now ≡ kind_word kind }
    ensures short { length result.now ≤ 5 }
{
    match kind {
        0 => b"boot",
        1 => b"admit",
        2 => b"enter",
        3 => b"run",
        4 => b"call",
        5 => b"left",
        6 => b"back",
        7 => b"idle",
        8 => b"stray",
        _ => b"tick",
    }
}

/// The line of a kind in the summary of these numbers of events, with its LF.
#[tactic(auto, unfolding(crate::specs::Summary::kind_line))]
pub fn kind_line(counts: &[u32; KINDS], kind: usize) -> LineText
    requires { kind < 10 }
    ensures { result ≡ kind_line counts.now kind }
{
    let mut line = LineText::new();
    line.push(kind_word(kind));
    line.push(b" ");
    line.push_number(counts[kind]);
    line.push(b"\n");
    line
}

fn push_numbered(line: &mut LineText, cause: &[u8], number: u32)
    requires room { length line.old ≤ 100 }
    requires short { length cause.now ≤ 11 }
    ensures cause { line.new ≡ line.old ++ (cause.now ++ word_text number) }
    ensures length { length line.new ≤ length line.old + 19 }
{
    line.push(cause);
    line.push_word(number);
}

/// The line of a run that stopped: the address of the instruction that was not executed, and why.
pub fn stopped_line(pc: u32, stop: Stop) -> LineText
    ensures { result ≡ stopped_line pc stop }
{
    let mut line = LineText::new();
    line.push(b"stopped ");
    line.push_word(pc);
    line.push(b" ");
    match stop {
        Stop::Fetch(_) => line.push(b"fetch"),
        Stop::Illegal(word) => push_numbered(&mut line, b"illegal ", word),
        Stop::Environment => line.push(b"environment"),
        Stop::Misaligned(address) => push_numbered(&mut line, b"misaligned ", address),
        Stop::Access(address) => push_numbered(&mut line, b"access ", address),
    }
    line.push(b"\n");
    line
}

/// The form of an event line: with the counts of its first and last instruction in front, or bare.
#[derive(Clone, Copy)]
pub enum Form {
    Counted,
    Bare,
}

/// The line of an event, with the names of the image. A number that names nothing prints as `-`.
pub fn print(event: &Stamped, form: Form, image: &Image) -> LineText
    requires { InFormat image.now }
    ensures line { result ≡ line_of image.now form event.now }
    ensures short { length result ≤ 177 }
{
    let mut line = LineText::new();
    if form == Form::Counted {
        push_counts(&mut line, event);
    }
    let tasks = image.tasks.items();
    let functions = image.funcs.items();
    let counters = image.counters.items();
    push_event(&mut line, &event.event, tasks, functions, counters);
    line
}

/// Appends the counts of an event's first and last instruction.
pub fn push_counts(line: &mut LineText, event: &Stamped)
    requires { length line.old ≤ 100 }
    ensures counts { line.new ≡ line.old ++ counts_text Form.Counted event.now }
    ensures short { length line.new ≤ length line.old + 22 }
{
    line.push_number(event.stamp.from);
    line.push(b" ");
    line.push_number(event.stamp.at);
    line.push(b" ");
}
