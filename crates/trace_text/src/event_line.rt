//! Reading event lines. Words of events read. Lines of listings. The words of marks.
ghost use Rattle.std.specs.Prelude.{◌≡◌, ℕ, ◌↔◌, Some, IfSome, length, ◌+◌, ◌≤◌, ◌/◌, ◌++◌, decimal, codes};
ghost use Rattle.sloth_base.specs.ImageRange.{AreNames, AreNamesApart, InFormat, AreAscending};
ghost use Rattle.sloth_base.specs.declared.service.Stamped.{Stamped as AnyEvent};
ghost use Rattle.trace_text.specs.EventNumbers.{HasEventNumbers, IsNameNumber, IsNumberOrNone, Has32Bits};
ghost use Rattle.trace_text.specs.EventLines.{IsLineOf};
ghost use Rattle.trace_text.specs.EventsRead.{event_in, more_in, number, of_task, place, place_or_none, stamped_in};
ghost use Rattle.trace_text.specs.EventWords.{bare_in, single_in, name_of};
ghost use Rattle.trace_text.specs.Listing.{line_at, mark_on, sizes_line, word_line};
ghost use Rattle.sloth_base.specs.ServiceCodes.{service_of};
ghost use Rattle.sloth_base.specs.Limits.{name_limit};
ghost use Rattle.trace_text.specs.MarkWords.{called_text, mark_text};

use crate::arrivals::position;
use crate::events::{push_counted, push_name};
use crate::{LineText, push_counts, push_event};
use sloth_base::{
    Event, Image, MEMORY_BASE, Mark, MarkKind, Name, Service, Stamp, Stamped, service_named,
};
use text_pieces::{before, behind, same, value};

// The number of no task and of no counter.
const NONE: u32 = 4_294_967_295;

const GREATEST: u64 = 4_294_967_295;

#[tactic(auto, unfolding(crate::specs::EventsRead::number))]
fn number(word: &[u8]) -> Option<u32>
    ensures number { result ≡ number word.now }
    ensures small { IfSome result (λ n. Has32Bits n) }
{
    let n = value(word, 10);
    if n > GREATEST {
        return None;
    }
    Some(n as u32)
}

#[tactic(auto, unfolding(crate::specs::EventsRead::place))]
fn place(names: &[Name], word: &[u8]) -> Option<u32>
    ensures place { result ≡ place names.now word.now }
    ensures inside { IfSome result (λ n. IsNameNumber (length names.now) n) }
{
    let n = position(names, word)? as u64;
    if n > GREATEST {
        return None;
    }
    Some(n as u32)
}

// The number of a task or a counter; that of none for `-`.
#[tactic(auto, unfolding(crate::specs::EventsRead::place_or_none))]
fn place_or_none(names: &[Name], word: &[u8]) -> Option<u32>
    ensures number { result ≡ place_or_none names.now word.now }
    ensures names { IfSome result (λ n. IsNumberOrNone (length names.now) n) }
{
    if same(word, b"-") {
        return Some(NONE);
    }
    place(names, word)
}

#[tactic(auto, unfolding(crate::specs::EventsRead::more_in, crate::specs::EventsRead::run_in, crate::specs::EventsRead::call_in, crate::specs::EventsRead::left_in))]
fn further_event(kind: &[u8], task: u32, functions: &[Name], text: &[u8]) -> Option<Event>
    ensures event { result ≡ more_in kind.now task functions.now text.now }
    ensures numbers { (tasks counters : ℕ) → IsNumberOrNone tasks task
        → IfSome result (λ event. HasEventNumbers tasks (length functions.now) counters event) }
{
    if same(kind, b"run") {
        let func = place(functions, before(text, b' '))?;
        let others = behind(text, b' ');
        let item = number(before(others, b' '))?;
        let result = number(behind(others, b' '))?;
        return Some(Event::Run {
            task,
            func,
            item,
            result,
        });
    }
    if same(kind, b"call") {
        let service = service_named(before(text, b' '))?;
        let status = number(behind(text, b' '))?;
        return Some(Event::Call {
            task,
            service,
            status,
        });
    }
    if same(kind, b"left") {
        let service = service_named(text)?;
        return Some(Event::Left { task, service });
    }
    None
}

#[tactic(auto, unfolding(crate::specs::EventsRead::of_task, crate::specs::EventWords::single_in))]
fn task_event(tasks: &[Name], functions: &[Name], kind: &[u8], text: &[u8]) -> Option<Event>
    ensures event { result ≡ of_task tasks.now functions.now kind.now text.now }
    ensures numbers { (counters : ℕ)
        → IfSome result (λ event. HasEventNumbers (length tasks.now) (length functions.now) counters event) }
{
    if same(kind, b"enter") {
        let task = place_or_none(tasks, text)?;
        return Some(Event::Enter(task));
    }
    if same(kind, b"back") {
        let task = place_or_none(tasks, text)?;
        return Some(Event::Back(task));
    }
    let task = place_or_none(tasks, before(text, b' '))?;
    further_event(kind, task, functions, behind(text, b' '))
}

#[tactic(auto, unfolding(crate::specs::EventWords::bare_in, crate::specs::EventsRead::event_in, crate::specs::EventsRead::named_in, crate::specs::EventsRead::admit_in, crate::specs::EventsRead::tick_in))]
fn any_event(tasks: &[Name], functions: &[Name], counters: &[Name], text: &[u8]) -> Option<Event>
    ensures event { result ≡ event_in tasks.now functions.now counters.now text.now }
    ensures numbers { IfSome result
        (λ event. HasEventNumbers (length tasks.now) (length functions.now) (length counters.now) event) }
{
    if same(text, b"boot") {
        return Some(Event::Boot);
    }
    if same(text, b"idle") {
        return Some(Event::Idle);
    }
    if same(text, b"stray") {
        return Some(Event::Stray);
    }
    let kind = before(text, b' ');
    let others = behind(text, b' ');
    if same(kind, b"admit") {
        if let Some(task) = place_or_none(tasks, others) {
            return Some(Event::Admit(task));
        }
        return Some(Event::Due(place(counters, others)?));
    }
    if same(kind, b"tick") {
        return Some(Event::Tick(place_or_none(counters, others)?));
    }
    task_event(tasks, functions, kind, others)
}

#[tactic(auto, unfolding(crate::specs::EventsRead::stamped_in))]
fn stamped(tasks: &[Name], functions: &[Name], counters: &[Name], text: &[u8]) -> Option<Stamped>
    ensures event { result ≡ stamped_in tasks.now functions.now counters.now text.now }
    ensures from { IfSome result (λ e. Has32Bits e.stamp.from) }
    ensures at { IfSome result (λ e. Has32Bits e.stamp.at) }
    ensures numbers { IfSome result
        (λ e. HasEventNumbers (length tasks.now) (length functions.now) (length counters.now) e.event) }
{
    let from = number(before(text, b' '))?;
    let others = behind(text, b' ');
    let at = number(before(others, b' '))?;
    let event = any_event(tasks, functions, counters, behind(others, b' '))?;
    Some(Stamped {
        stamp: Stamp { from, at },
        event,
    })
}

/// The event whose counted line this text is, without its LF: exactly where there is one. `-` is read as the task or
/// the counter of number 4,294,967,295. Takes no memory.
pub fn read_line(text: &[u8], tasks: &[Name], funcs: &[Name], counters: &[Name]) -> Option<Stamped>
    requires tasks { AreNames tasks.now }
    requires funcs { AreNames funcs.now }
    requires counters { AreNames counters.now }
    requires apart { AreNamesApart counters.now tasks.now }
    ensures { (event : AnyEvent) → (result ≡ Some event) ↔ IsLineOf tasks.now funcs.now counters.now event text.now }
{
    let Some(event) = stamped(tasks, funcs, counters, text) else {
        return None;
    };
    let mut line = LineText::new();
    push_counts(&mut line, &event);
    push_event(&mut line, &event.event, tasks, funcs, counters);
    if !same(line.bytes(), text) {
        return None;
    }
    Some(event)
}

/// Line k of an image's listing, from 0, without its LF: how many tasks, functions, bytes and marks there are; then
/// each word of memory with its address, and what its mark says. k is at most the number of words.
pub fn listing_line(image: &Image, k: u32) -> LineText
    requires format { InFormat image.now }
    requires in_range { k ≤ length image.now.memory / 4 }
    ensures line { result ≡ line_at image.now k }
    ensures short { length result ≤ 128 }
{
    let mut line = LineText::new();
    if k == 0 {
        push_sizes(&mut line, image);
    } else {
        push_word(&mut line, image, (k - 1) * 4);
    }
    line
}

fn push_sizes(line: &mut LineText, image: &Image)
    requires format { InFormat image.now }
    requires room { length line.old ≤ 128 }
    ensures sizes { line.new ≡ line.old ++ sizes_line image.now }
    ensures short { length line.new ≤ length line.old + 71 }
{
    push_counted(line, b"tasks ", image.tasks.items().len() as u32);
    push_counted(line, b" functions ", image.funcs.items().len() as u32);
    push_counted(line, b" bytes ", image.memory.items().len() as u32);
    push_counted(line, b" marks ", image.marks.items().len() as u32);
}

fn push_word(line: &mut LineText, image: &Image, offset: u32)
    requires format { InFormat image.now }
    requires in_range { offset + 4 ≤ length image.now.memory }
    requires room { length line.old ≤ 128 }
    ensures word { line.new ≡ line.old ++ word_line image.now offset }
    ensures short { length line.new ≤ length line.old + 101 }
{
    let address = MEMORY_BASE + offset;
    line.push_word(address);
    line.push(b" ");
    let (memory, at) = (image.memory.items(), offset as usize);
    line.push_hex([memory[at + 3], memory[at + 2], memory[at + 1], memory[at]]);
    if let Some(mark) = word_mark(image.marks.items(), address) {
        push_mark(line, image.funcs.items(), &mark);
    }
}

fn word_mark(marks: &[Mark], address: u32) -> Option<Mark>
    requires { AreAscending marks.now }
    ensures { result ≡ mark_on marks.now address }
{
    match marks.binary_search_by_key(&address, |mark| mark.address) {
        Ok(place) => Some(marks[place]),
        Err(_) => None,
    }
}

/// Appends what a mark says.
pub fn push_mark(line: &mut LineText, functions: &[Name], mark: &Mark)
    requires names { (k : ℕ) → length (name_of functions.now k) ≤ name_limit }
    requires room { length line.old ≤ 150 }
    ensures mark { line.new ≡ line.old ++ mark_text functions.now mark.now }
    ensures short { length line.new ≤ length line.old + 84 }
{
    match mark.kind {
        MarkKind::Item => push_place(line, b" item ", functions, mark),
        MarkKind::Jump => push_place(line, b" service ", functions, mark),
        MarkKind::Opening => {
            line.push(b" opening ");
            push_service(line, mark.a);
        }
        MarkKind::Idle => line.push(b" idle"),
        MarkKind::Back => line.push(b" back"),
    }
}

fn push_place(line: &mut LineText, word: &[u8], functions: &[Name], mark: &Mark)
    requires names { (k : ℕ) → length (name_of functions.now k) ≤ name_limit }
    requires word { length word.now ≤ 9 }
    requires room { length line.old ≤ 150 }
    ensures place { line.new ≡ line.old
        ++ (word.now ++ name_of functions.now mark.now.b ++ codes " " ++ decimal mark.now.c) }
    ensures short { length line.new ≤ length line.old + 84 }
{
    line.push(word);
    push_name(line, functions, u32::from(mark.b));
    line.push(b" ");
    line.push_number(mark.c);
}

fn push_service(line: &mut LineText, code: u8)
    requires room { length line.old ≤ 200 }
    ensures service { line.new ≡ line.old ++ called_text (service_of code) }
    ensures short { length line.new ≤ length line.old + 15 }
{
    match Service::from_code(code) {
        Some(service) => line.push(service.name()),
        None => line.push(b"-"),
    }
}
