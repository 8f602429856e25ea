//! Lines of parts. What the parts of response times are.
ghost use Rattle.std.specs.Prelude.{◌≡◌, ◌++◌, OnOk};
ghost use Rattle.sloth_base.specs.Named.{declaration, counter_declaration};
ghost use Rattle.response_text.specs.Lines.{number_words};
ghost use Rattle.response_text.specs.Parts.{name_words, last_words, some_line, part_line};

use bound_rules::BodyWeights;
use sloth_base::{Config, List, Result};
use text_pieces::line;
use text_pieces::pieces::Piece::{Number, Sum, Word};

/// A name and a word behind it.
pub fn push_named(text: &mut Vec<u8>, name: &[u8], word: &[u8]) -> Result<()>
    ensures { OnOk result (text.new.items ≡ text.old.items ++ (name.now ++ word.now)) }
{
    text.extend_from_slice(name)?;
    text.extend_from_slice(word)?;
    Ok(())
}

/// The same number.
pub fn wide(number: Option<u32>) -> Option<u64>
    ensures { result ≡ number }
{
    match number {
        Some(counts) => Some(u64::from(counts)),
        None => None,
    }
}

// A number behind a space.
fn push_sum(text: &mut Vec<u8>, number: Option<u64>) -> Result<()>
    ensures { OnOk result (text.new.items ≡ text.old.items ++ number_words number) }
{
    match number {
        Some(counts) => line!(text; Word(b" "), Sum(u128::from(counts))),
        None => line!(text; Word(b" none")),
    }
}

// What a part is.
fn push_name(text: &mut Vec<u8>, config: &Config, name: Name) -> Result<()>
    ensures { OnOk result (text.new.items ≡ text.old.items ++ name_words config.now name) }
{
    match name {
        Name::Boot => line!(text; Word(b" boot")),
        Name::Entry(task) => line!(text; Word(b" enter "), Word(task_name(config, task))),
        Name::Tick(counter) => line!(text; Word(b" tick "), Word(counter_name(config, counter))),
        Name::Line(line) => line!(text; Word(b" line "), Number(line)),
        Name::Work => line!(text; Word(b" work")),
        Name::Nothing => Ok(()),
    }
}

/// The last number of a line, and what it is.
pub fn push_last(text: &mut Vec<u8>, config: &Config, number: Option<u64>, name: Name) -> Result<()>
    ensures { OnOk result (text.new.items ≡ text.old.items ++ last_words config.now number name) }
{
    push_sum(text, number)?;
    push_name(text, config, name)?;
    text.extend_from_slice(b"\n")?;
    Ok(())
}

/// So many of a cost.
pub fn push_some(
    text: &mut Vec<u8>,
    config: &Config,
    name: &[u8],
    word: &[u8],
    number: u64,
    cost: Option<u64>,
    is: Name,
) -> Result<()>
    ensures { OnOk result (text.new.items ≡ text.old.items ++ some_line config.now name.now word.now number cost is) }
{
    push_named(text, name, word)?;
    push_sum(text, Some(number))?;
    push_last(text, config, cost, is)
}

/// The same, and no line of none.
pub fn push_part(
    text: &mut Vec<u8>,
    config: &Config,
    name: &[u8],
    word: &[u8],
    number: u64,
    cost: Option<u64>,
    is: Name,
) -> Result<()>
    ensures { OnOk result (text.new.items ≡ text.old.items ++ part_line config.now name.now word.now number cost is) }
{
    if number != 0 {
        push_some(text, config, name, word, number, cost, is)?;
    }
    Ok(())
}

/// The name of a task; none behind the last one.
pub fn task_name(config: &Config, task: usize) -> &[u8]
    ensures { result.now ≡ (declaration config.now task).name }
{
    match config.tasks.items().get(task) {
        Some(task) => task.name.bytes(),
        None => b"",
    }
}

/// The name of a counter; none behind the last one.
pub fn counter_name(config: &Config, counter: usize) -> &[u8]
    ensures { result.now ≡ (counter_declaration config.now counter).name }
{
    match config.counters.items().get(counter) {
        Some(counter) => counter.name.bytes(),
        None => b"",
    }
}

/// What a part is.
#[derive(Clone, Copy)]
pub enum Name {
    Boot,
    /// An entry of this task.
    Entry(usize),
    /// A tick of this counter.
    Tick(usize),
    /// An item of this source line.
    Line(u32),
    /// The work that the load says.
    Work,
    Nothing,
}

/// What the parts in front of a window are.
#[derive(Clone, Copy)]
pub struct FrontNames {
    pub stretch: Name,
    pub service: Name,
    pub item: Name,
    pub section: Name,
}

/// Whether what the load says of a task's work bounds its rounds.
#[derive(Clone, Copy)]
pub struct Bounded {
    /// Those that begin with the first item.
    pub first: bool,
    /// Those that begin behind a WaitEvent.
    pub next: bool,
}

/// What the parts of all windows are.
#[derive(Drop)]
pub struct PartNames {
    /// The longest stretch.
    pub stretch: Name,
    /// The longest item.
    pub item: Name,
    /// By task.
    pub bounded: List<Bounded>,
    /// The counts of items.
    pub weights: List<BodyWeights>,
}
