//! Reads arrivals files: what their lines say, and the faults of a line, T1 to T4.
ghost use Rattle.std.specs.Prelude.{◌≡◌, ◌<◌, ◌^◌, ◌∷◌, [], ◌++◌, length, map, IfOk, IfErr, OnOk, ◌≤◌, take, position};
ghost use Rattle.std.specs.Prelude.{bytes_eq, IfSome};
ghost use Rattle.sloth_base.specs.Arrivals.{AreArrivals};
ghost use Rattle.sloth_base.specs.Order.{ErrorIs, NoFault};
ghost use Rattle.text_pieces.specs.Names.{referent};
ghost use Rattle.trace_text.specs.ArrivalsText.{arrivals_of, arrivals_in, owners_read, ArrivalLineFault, LinesFault};
ghost use Rattle.trace_text.specs.ArrivalsText.{ArrivalsFault, is_comment, are_digits, is_arrival, moment_of};
ghost use Rattle.trace_text.specs.ArrivalsText.{named_among, owner_line, named_line, arrival_of, last_moment, is_t1};
ghost use Rattle.trace_text.specs.ArrivalsText.{is_t2, is_t3, is_t4};
ghost use Rattle.std.specs.List.{list_all};
ghost use Rattle.std.specs.Char.{is_ascii_digit};
ghost use Rattle.sloth_base.specs.Limits.{count_limit};
ghost use Rattle.sloth_base.specs.Search.{IsSearchResult};
ghost use Rattle.text_pieces.specs.Digits.{capped_value};

use sloth_base::refusal::{fault_if, merge};
use sloth_base::{
    ARRIVAL_LIMIT, Arrival, BuildError, COUNT_LIMIT, Code, FIRST_COUNTER_LINE, Line, Name, Part,
    Refusal, TASK_LIMIT,
};
use std::alloc::Global;
use text_pieces::{before, behind, is_name, lines, push, same, value};

type Arrivals = Result<Vec<Arrival>, BuildError>;

fn read_line(
    read: &mut Vec<Arrival>,
    tasks: &[Name],
    counters: &[Name],
    number: u32,
    line: &[u8],
) -> Result<(), BuildError>
    requires { AreArrivals (owners_read tasks.now counters.now) read.old.items }
    ensures read { OnOk result (read.new.items ≡ read.old.items ++ arrivals_of tasks.now counters.now (line.now ∷ [])) }
    ensures in_range { OnOk result (AreArrivals (owners_read tasks.now counters.now) read.new.items) }
    ensures none { OnOk result (NoFault (ArrivalLineFault tasks.now counters.now read.old.items number line.now)) }
    ensures refused { IfErr result
        (λ error. ErrorIs (ArrivalLineFault tasks.now counters.now read.old.items number line.now) error) }
{
    if let Some(fault) = line_fault(tasks, counters, read.as_slice(), number, line) {
        return Err(BuildError::Refused(fault));
    }
    if is_arrival(line) {
        push(read, arrival(tasks, counters, line))?;
    }
    Ok(())
}

fn read_lines(alloc: Global, lines: &[&[u8]], tasks: &[Name], counters: &[Name]) -> Arrivals
    requires { length lines.now < 2 ^ 32 }
    ensures arrivals { IfOk result (λ read. read.items ≡ arrivals_of tasks.now counters.now (map referent lines.now)) }
    ensures in_range { IfOk result (λ read. AreArrivals (owners_read tasks.now counters.now) read.items) }
    ensures none { OnOk result (NoFault (LinesFault tasks.now counters.now (map referent lines.now))) }
    ensures refused { IfErr result
        (λ error. ErrorIs (LinesFault tasks.now counters.now (map referent lines.now)) error) }
{
    let mut read = Vec::new(alloc);
    for (n, line) in lines.iter().enumerate() {
        read_line(&mut read, tasks, counters, n as u32 + 1, *line)?;
    }
    Ok(read)
}

/// The arrivals of a text of at most 4,294,967,294 bytes, with the names of the tasks and of the counters; or its least
/// fault: T1 for a line of another shape, T2 for a name that is no task's and no counter's, T3 for a moment less than
/// the one before, T4 for the 100,001st arrival or a moment outside 1 to 1,000,000.
pub fn read_arrivals(alloc: Global, text: &[u8], tasks: &[Name], counters: &[Name]) -> Arrivals
    requires { length text.now < 4294967295 }
    ensures arrivals { IfOk result (λ read. read.items ≡ arrivals_in tasks.now counters.now text.now) }
    ensures in_range { IfOk result (λ read. AreArrivals (owners_read tasks.now counters.now) read.items) }
    ensures none { OnOk result (NoFault (ArrivalsFault tasks.now counters.now text.now)) }
    ensures refused { IfErr result (λ error. ErrorIs (ArrivalsFault tasks.now counters.now text.now) error) }
{
    let lines = lines(alloc, text)?;
    read_lines(alloc, lines.as_slice(), tasks, counters)
}

/// How many numbers a controller's line may have.
const LINES: usize = 256;

/// How many of them may be counters'.
const COUNTER_LINES: usize = LINES - TASK_LIMIT;

/// Empty, or a comment.
pub fn is_comment(line: &[u8]) -> bool
    ensures { result ≡ is_comment line.now }
{
    line.is_empty() || line[0] == b'#'
}

fn all_digits(text: &[u8]) -> bool
    ensures { result ≡ list_all is_ascii_digit text.now }
{
    text.iter().all(|byte| byte.is_ascii_digit())
}

/// Whether there are decimal digits, and nothing else.
pub fn are_digits(text: &[u8]) -> bool
    ensures { result ≡ are_digits text.now }
{
    !text.is_empty() && all_digits(text)
}

/// Whether the line has the shape of an arrival: decimal digits, one space and a word.
#[tactic(auto, unfolding(crate::specs::ArrivalsText::is_arrival))]
pub fn is_arrival(line: &[u8]) -> bool
    ensures { result ≡ is_arrival line.now }
{
    are_digits(before(line, b' ')) && is_name(behind(line, b' '))
}

// The moment, or a greater number than any moment.
fn moment(line: &[u8]) -> u64
    ensures moment { result ≡ capped_value (moment_of line.now) }
    ensures small { result ≤ 4294967296 }
{
    value(before(line, b' '), 10)
}

/// The place of the first name with these bytes.
pub fn position(names: &[Name], name: &[u8]) -> Option<usize>
    ensures { result ≡ position (bytes_eq name.now) names.now }
{
    names.iter().position(|other| same(name, other.bytes()))
}

fn first_names(names: &[Name], count: usize) -> &[Name]
    ensures { result.now ≡ take count names.now }
{
    if count < names.len() {
        return &names[..count];
    }
    names
}

fn named_among(most: usize, names: &[Name], word: &[u8]) -> Option<usize>
    ensures place { result ≡ named_among most names.now word.now }
    ensures small { IfSome result (λ place. place < most) }
{
    position(first_names(names, most), word)
}

/// The line of the task of a name.
pub fn task_line(tasks: &[Name], word: &[u8]) -> Option<u8>
    ensures { result ≡ named_among 256 tasks.now word.now }
{
    Some(named_among(LINES, tasks, word)? as u8)
}

/// The line of the task or the counter of a name.
pub fn owner_line(tasks: &[Name], counters: &[Name], word: &[u8]) -> Option<u8>
    ensures { result ≡ owner_line tasks.now counters.now word.now }
{
    if let Some(line) = task_line(tasks, word) {
        return Some(line);
    }
    let counter = named_among(COUNTER_LINES, counters, word)?;
    Some(FIRST_COUNTER_LINE + counter as u8)
}

fn named_line(tasks: &[Name], counters: &[Name], line: &[u8]) -> Option<u8>
    ensures { result ≡ named_line tasks.now counters.now line.now }
{
    owner_line(tasks, counters, behind(line, b' '))
}

/// The arrival of a line, whose moment is at most `COUNT_LIMIT`.
pub fn arrival(tasks: &[Name], counters: &[Name], line: &[u8]) -> Arrival
    requires { moment_of line.now ≤ count_limit }
    ensures { result ≡ arrival_of tasks.now counters.now line.now }
{
    Arrival {
        at: moment(line) as u32,
        line: Line(named_line(tasks, counters, line).unwrap_or(0)),
    }
}

fn last_moment(arrivals: &[Arrival]) -> u32
    ensures { result ≡ last_moment 0 arrivals.now }
{
    if arrivals.is_empty() {
        return 0;
    }
    arrivals[arrivals.len() - 1].at
}

fn is_t1(line: &[u8]) -> bool
    ensures { result ≡ is_t1 line.now }
{
    !is_comment(line) && !is_arrival(line)
}

fn is_t2(tasks: &[Name], counters: &[Name], line: &[u8]) -> bool
    ensures { result ≡ is_t2 tasks.now counters.now line.now }
{
    is_arrival(line) && named_line(tasks, counters, line).is_none()
}

fn is_t3(before: &[Arrival], line: &[u8]) -> bool
    requires { last_moment 0 before.now ≤ count_limit }
    ensures { result ≡ is_t3 before.now line.now }
{
    is_arrival(line) && moment(line) < u64::from(last_moment(before))
}

fn is_t4(before: &[Arrival], line: &[u8]) -> bool
    ensures { result ≡ is_t4 before.now line.now }
{
    let at = moment(line);
    is_arrival(line) && (before.len() >= ARRIVAL_LIMIT || (at < 1 || u64::from(COUNT_LIMIT) < at))
}

/// The least fault of a line that these arrivals stand before, each at a moment of at most `COUNT_LIMIT`.
pub fn line_fault(
    tasks: &[Name],
    counters: &[Name],
    before: &[Arrival],
    number: u32,
    line: &[u8],
) -> Option<Refusal>
    requires { last_moment 0 before.now ≤ count_limit }
    ensures { IsSearchResult (ArrivalLineFault tasks.now counters.now before.now number line.now) result }
{
    let t1 = fault_if(is_t1(line), Part::Arr, number, Code::T1);
    let t2 = fault_if(is_t2(tasks, counters, line), Part::Arr, number, Code::T2);
    let t3 = fault_if(is_t3(before, line), Part::Arr, number, Code::T3);
    let t4 = fault_if(is_t4(before, line), Part::Arr, number, Code::T4);
    merge(t1, merge(t2, merge(t3, t4)))
}
