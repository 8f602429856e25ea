//! Reads loads: what a line says, and its faults, L1 to L4; what a load says of a line or a task.
ghost use Rattle.std.specs.Prelude.{◌≡◌, ◌≤◌, ◌<◌, ◌^◌, ◌∷◌, [], ◌++◌, length, map, IfOk, IfErr, OnOk};
ghost use Rattle.std.specs.List.{list_any};
ghost use Rattle.sloth_base.specs.Search.{IsSearchResult};
ghost use Rattle.text_pieces.specs.Digits.{capped_value};
ghost use Rattle.load_text.specs.LoadText.{load_limit, form_named, is_entry, form_of, number_of, owner_of, entry_of, is_of, is_said, is_l1, is_l2, is_l3, is_l4, LineFault, owner_text, number_text, form_text, entries_of, load_in, LinesFault, LoadFault};
ghost use Rattle.load_text.specs.Loads.{said, distance, work, deadline, IsLoad};
ghost use Rattle.sloth_base.specs.Order.{ErrorIs, NoFault};
ghost use Rattle.text_pieces.specs.Names.{referent};
ghost use Rattle.trace_text.specs.ArrivalsText.{owners_read};

use sloth_base::refusal::{fault_if, merge};
use sloth_base::{BuildError, Code, Line, Name, Part, Refusal};
use std::alloc::Global;
use text_pieces::{before, behind, is_name, lines, push, same, value};
use trace_text::{are_digits, is_comment, owner_line, task_line};

/// The form that a word names.
#[tactic(auto, unfolding(crate::specs::LoadText::form_named))]
fn form_named(word: &[u8]) -> Option<Form>
    ensures { result ≡ form_named word.now }
{
    if same(word, b"every") {
        return Some(Form::Every);
    }
    if same(word, b"work") {
        return Some(Form::Work);
    }
    if same(word, b"deadline") {
        return Some(Form::Deadline);
    }
    None
}

fn form_text(line: &[u8]) -> &[u8]
    ensures { result.now ≡ form_text line.now }
{
    before(line, b' ')
}

fn owner_text(line: &[u8]) -> &[u8]
    ensures { result.now ≡ owner_text line.now }
{
    before(behind(line, b' '), b' ')
}

fn number_text(line: &[u8]) -> &[u8]
    ensures { result.now ≡ number_text line.now }
{
    behind(behind(line, b' '), b' ')
}

/// Whether the line has the shape of an entry: a form's word, a name and decimal digits, with one space between.
#[tactic(auto, unfolding(crate::specs::LoadText::is_entry))]
pub fn is_entry(line: &[u8]) -> bool
    ensures { result ≡ is_entry line.now }
{
    form_named(form_text(line)).is_some()
        && (is_name(owner_text(line)) && are_digits(number_text(line)))
}

fn line_form(line: &[u8]) -> Form
    ensures { result ≡ form_of line.now }
{
    form_named(form_text(line)).unwrap_or(Form::Every)
}

// The number, or a greater one than is in range.
fn number(line: &[u8]) -> u64
    ensures number { result ≡ capped_value (number_of line.now) }
    ensures small { result ≤ 4294967296 }
{
    value(number_text(line), 10)
}

// The line of the owner that it names.
fn line_owner(tasks: &[Name], counters: &[Name], line: &[u8]) -> Option<u8>
    ensures { result ≡ owner_of tasks.now counters.now line.now }
{
    let name = owner_text(line);
    match line_form(line) {
        Form::Every => owner_line(tasks, counters, name),
        Form::Work | Form::Deadline => task_line(tasks, name),
    }
}

/// The entry of a line, whose number is at most `LOAD_LIMIT`.
pub fn line_entry(tasks: &[Name], counters: &[Name], line: &[u8]) -> Entry
    requires { number_of line.now ≤ load_limit }
    ensures { result ≡ entry_of tasks.now counters.now line.now }
{
    let number = number(line) as u32;
    let owner = line_owner(tasks, counters, line).unwrap_or(0);
    Entry {
        form: line_form(line),
        owner: Line(owner),
        number,
    }
}

/// Whether an entry is of this form and of the owner of this line.
pub fn concerns(form: Form, owner: u8, entry: &Entry) -> bool
    ensures { result ≡ is_of form owner entry.now }
{
    match (entry.form, form) {
        (Form::Every, Form::Every) | (Form::Work, Form::Work) | (Form::Deadline, Form::Deadline) =>
            entry.owner.0 == owner,
        _ => false,
    }
}

// Whether one of these entries is of the form and of that owner, if there is one.
fn is_said(before: &[Entry], form: Form, owner: Option<u8>) -> bool
    ensures { result ≡ is_said before.now form owner }
{
    owner.is_some_and(|owner| is_pair_said(before, form, owner))
}

fn is_pair_said(before: &[Entry], form: Form, owner: u8) -> bool
    ensures { result ≡ list_any (is_of form owner) before.now }
{
    before.iter().any(|entry| concerns(form, owner, entry))
}

// A line of none of the forms.
fn is_l1(line: &[u8]) -> bool
    ensures { result ≡ is_l1 line.now }
{
    !is_comment(line) && !is_entry(line)
}

// A name that no owner has.
fn is_l2(tasks: &[Name], counters: &[Name], line: &[u8]) -> bool
    ensures { result ≡ is_l2 tasks.now counters.now line.now }
{
    is_entry(line) && line_owner(tasks, counters, line).is_none()
}

// A second entry of one form and name.
fn is_l3(tasks: &[Name], counters: &[Name], before: &[Entry], line: &[u8]) -> bool
    ensures { result ≡ is_l3 tasks.now counters.now before.now line.now }
{
    is_entry(line) && is_said(before, line_form(line), line_owner(tasks, counters, line))
}

// A number out of range.
fn is_l4(line: &[u8]) -> bool
    ensures { result ≡ is_l4 line.now }
{
    let number = number(line);
    is_entry(line) && (number < 1 || u64::from(LOAD_LIMIT) < number)
}

/// The least fault of a line that these entries stand before.
pub fn line_fault(
    tasks: &[Name],
    counters: &[Name],
    before: &[Entry],
    number: u32,
    line: &[u8],
) -> Option<Refusal>
    ensures { IsSearchResult (LineFault tasks.now counters.now before.now number line.now) result }
{
    let l1 = fault_if(is_l1(line), Part::Load, number, Code::L1);
    let l2 = fault_if(is_l2(tasks, counters, line), Part::Load, number, Code::L2);
    let l3 = is_l3(tasks, counters, before, line);
    let l3 = fault_if(l3, Part::Load, number, Code::L3);
    let l4 = fault_if(is_l4(line), Part::Load, number, Code::L4);
    merge(l1, merge(l2, merge(l3, l4)))
}

/// The greatest number of a line: counts of 31 bits.
pub const LOAD_LIMIT: u32 = 2_147_483_647;

/// What is said of an owner.
#[derive(Clone, Copy)]
pub enum Form {
    /// Two of its arrivals are at least so many counts apart.
    Every,
    /// A round of it takes at most so many counts of its own.
    Work,
    /// Its response is wanted within so many counts.
    Deadline,
}

/// A number of counts, 1 to `LOAD_LIMIT`, that is said of the task or the counter of a line.
#[derive(Clone, Copy)]
pub struct Entry {
    pub form: Form,
    pub owner: Line,
    pub number: u32,
}

/// A load that is read.
pub type ReadLoad = Result<Vec<Entry>, BuildError>;

// The number of the first entry of a form and an owner.
fn said(form: Form, owner: u8, load: &[Entry]) -> Option<u32>
    ensures { result ≡ said form owner load.now }
{
    for entry in load {
        if concerns(form, owner, entry) {
            return Some(entry.number);
        }
    }
    None
}

/// How many counts two arrivals of a line are apart at least; none where the line never arrives.
pub fn distance_of(load: &[Entry], line: u8) -> Option<u32>
    ensures { result ≡ distance load.now line }
{
    said(Form::Every, line, load)
}

/// How many counts of its own a round of a task takes at most, where the load says so.
pub fn work_of(load: &[Entry], task: u8) -> Option<u32>
    ensures { result ≡ work load.now task }
{
    said(Form::Work, task, load)
}

/// Within how many counts the response of a task is wanted, where the load says so.
pub fn deadline_of(load: &[Entry], task: u8) -> Option<u32>
    ensures { result ≡ deadline load.now task }
{
    said(Form::Deadline, task, load)
}

// Reads a line behind these entries.
fn read_line(
    read: &mut Vec<Entry>,
    tasks: &[Name],
    counters: &[Name],
    number: u32,
    line: &[u8],
) -> Result<(), BuildError>
    requires { IsLoad (owners_read tasks.now counters.now) read.old.items }
    ensures read { OnOk result (read.new.items ≡ read.old.items ++ entries_of tasks.now counters.now (line.now ∷ [])) }
    ensures in_range { OnOk result (IsLoad (owners_read tasks.now counters.now) read.new.items) }
    ensures none { OnOk result (NoFault (LineFault tasks.now counters.now read.old.items number line.now)) }
    ensures refused { IfErr result
        (λ error. ErrorIs (LineFault tasks.now counters.now read.old.items number line.now) error) }
{
    if let Some(fault) = line_fault(tasks, counters, read.as_slice(), number, line) {
        return Err(BuildError::Refused(fault));
    }
    if is_entry(line) {
        push(read, line_entry(tasks, counters, line))?;
    }
    Ok(())
}

// Reads lines, up to the first that has a fault.
fn read_lines(alloc: Global, lines: &[&[u8]], tasks: &[Name], counters: &[Name]) -> ReadLoad
    requires { length lines.now < 2 ^ 32 }
    ensures load { IfOk result (λ read. read.items ≡ entries_of tasks.now counters.now (map referent lines.now)) }
    ensures in_range { IfOk result (λ read. IsLoad (owners_read tasks.now counters.now) read.items) }
    ensures none { OnOk result (NoFault (LinesFault tasks.now counters.now (map referent lines.now))) }
    ensures refused { IfErr result
        (λ error. ErrorIs (LinesFault tasks.now counters.now (map referent lines.now)) error) }
{
    let mut read = Vec::new(alloc);
    for (n, line) in lines.iter().enumerate() {
        let number = n as u32 + 1;
        read_line(&mut read, tasks, counters, number, *line)?;
    }
    Ok(read)
}

/// The load of a text of at most 4,294,967,294 bytes, with the names of the tasks and of the counters; or its least
/// fault: L1 for a line of no form, L2 for a name that no owner has, L3 for a second line of one form and name, L4 for
/// a number outside 1 to 2,147,483,647.
pub fn read_load(alloc: Global, text: &[u8], tasks: &[Name], counters: &[Name]) -> ReadLoad
    requires { length text.now < 4294967295 }
    ensures load { IfOk result (λ read. read.items ≡ load_in tasks.now counters.now text.now) }
    ensures in_range { IfOk result (λ read. IsLoad (owners_read tasks.now counters.now) read.items) }
    ensures none { OnOk result (NoFault (LoadFault tasks.now counters.now text.now)) }
    ensures refused { IfErr result (λ error. ErrorIs (LoadFault tasks.now counters.now text.now) error) }
{
    let lines = lines(alloc, text)?;
    read_lines(alloc, lines.as_slice(), tasks, counters)
}
