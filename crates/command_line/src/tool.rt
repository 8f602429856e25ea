//! The commands that read files, judge what they hold, and end with one answer: a row of the table for each.
ghost use Rattle.std.specs.Option.{option_map};
ghost use Rattle.std.specs.Prelude.{◌≡◌, IfSome, IfNone, take};
ghost use Rattle.command_line.specs.Command.{words_of};
ghost use Rattle.command_line.specs.Words.{use_of, row_of};
ghost use Rattle.command_line.specs.Tools.{IsAskedFor, is_meant, is_called, tool_called, tool_row, tool_word};
ghost use Rattle.command_line.specs.Tools.{file_count, file_names, closing_word, word_count};
ghost use Rattle.command_line.specs.declared.tool.Tool.{Tool as AnyTool};

use crate::Counts;
use crate::counts::Limit;
use sloth_base::{COUNT_LIMIT, PICTURE_LIMIT};

/// A command that reads files, judges what they hold, and writes one file at most.
#[derive(Clone, Copy)]
pub enum Tool {
    /// `elf IMG OUT`: the ELF file of an image file.
    Elf,
    /// `unelf IN IMG`: the image file of an ELF file.
    Unelf,
    /// `infer OIL SRC OUT`: the source with the list of each label filled in.
    Infer,
    /// `at IMG ARR K`: the states of the tasks at a count of a run of an image file.
    At,
    /// `at IMG ARR K all`: the same, and the events of the tasks, the counters and the alarms.
    AtAll,
    /// `losses OIL SRC ARR N`: what a run asks of each task and counter, and what of it is lost.
    Losses,
    /// `wave IMG ARR N OUT`: the waves of a run of an image file.
    Wave,
    /// `picture IMG ARR FROM TO OUT`: the picture of a part of a run of an image file.
    Picture,
    /// `check OIL SRC ARR TRACE N`: whether a text of events is that of a run.
    Check,
    /// `bounds OIL SRC`: how much work of lower tasks may stand before each task.
    Bounds,
    /// `bounds OIL SRC latency`: the same, and within how many instructions of an arrival behind boot the task of
    /// highest priority is entered, the time of ticks on the way aside.
    Latency,
    /// `bounds OIL SRC counts`: how many instructions of tasks of lower priority may stand in front of each task's
    /// entry.
    LowerCounts,
    /// `map OIL SRC`: what the image takes of memory.
    Map,
    /// `shares OIL SRC`: which data the tasks share, and what keeps their accesses apart.
    Shares,
    /// `response OIL SRC LOAD`: how soon each task has left the processor after what makes it Ready, in every run that
    /// keeps a load.
    Response,
    /// `why OIL SRC`: whether the texts are accepted, or what stands behind their refusal.
    Why,
    /// `why OIL SRC TASK`: how much work of lower tasks may stand before one task, and the items of a greatest section.
    TaskBound,
    /// `response OIL SRC LOAD TASK`: the same of one task, and of what it is made.
    TaskResponse,
    /// `symbols OIL SRC OUT`: the file of the image that debuggers read.
    Symbols,
    /// `orti OIL SRC OUT`: the file by which OSEK debuggers find the objects of the kernel.
    Orti,
    /// `why OIL SRC labels`: whether lists of labels keep the rules, or where none do.
    Labels,
    /// `why OIL SRC ARR TRACE N`: whether a text of events is that of a run, or where it fails to be, and what could
    /// stand there.
    TraceReason,
    /// `unused OIL SRC`: the objects, symbols and functions that nothing uses, and the tasks that nothing activates.
    Unused,
    /// `response OIL SRC LOAD ARR N`: whether a run keeps a load, and the longest responses that are seen in it.
    RunResponse,
}

macro_rules! tools {
    ($kind:ident; $($tool:ident),+) => { [$($kind::$tool),+] };
}

// In the order of their words.
const TOOLS: [Tool; 24] = tools!(Tool; Elf, Unelf, Infer, At, AtAll, Losses, Wave, Picture, Check,
    Bounds, Latency, LowerCounts, Map, Shares, Response, Why, TaskBound, TaskResponse, Symbols,
    Orti, Labels, TraceReason, Unused, RunResponse);

// What is taken as a count of a run, as its length, and as a part of it.
const COUNT: Option<Limit> = Some(Limit::One(COUNT_LIMIT - 1));

const LENGTH: Option<Limit> = Some(Limit::One(COUNT_LIMIT));

const WINDOW: Option<Limit> = Some(Limit::Window {
    most: COUNT_LIMIT,
    apart: PICTURE_LIMIT,
});

/// A row of the table: the tool's first word, how many words it has, how many names stand behind its word (of the files
/// that it reads, and of a task behind them), the word behind them and the counts behind that, if it has them, and
/// whether its last word names a file that it writes.
#[derive(Clone, Copy)]
pub struct Row {
    pub word: &'static str,
    pub words: usize,
    pub inputs: usize,
    pub further: Option<&'static str>,
    pub limit: Option<Limit>,
    pub writes: bool,
}

macro_rules! row {
    ($word:expr, $words:expr, $inputs:expr, $further:expr, $limit:expr, $writes:expr) => {
        Row { word: $word, words: $words, inputs: $inputs, further: $further, limit: $limit, writes: $writes }
    };
}

impl Tool {
    /// Its row of the table.
    pub fn row(self) -> Row
        ensures is { row_of result ≡ tool_row self }
        ensures words { result.words ≡ word_count self }
    {
        match self {
            Tool::Elf => row!("elf", 3, 1, None, None, true),
            Tool::Unelf => row!("unelf", 3, 1, None, None, true),
            Tool::Infer => row!("infer", 4, 2, None, None, true),
            Tool::At => row!("at", 4, 2, None, COUNT, false),
            Tool::AtAll => row!("at", 5, 2, None, COUNT, false),
            Tool::Losses => row!("losses", 5, 3, None, LENGTH, false),
            Tool::Wave => row!("wave", 5, 2, None, LENGTH, true),
            Tool::Picture => row!("picture", 6, 2, None, WINDOW, true),
            Tool::Check => row!("check", 6, 4, None, LENGTH, false),
            Tool::Bounds => row!("bounds", 3, 2, None, None, false),
            Tool::Latency => row!("bounds", 4, 2, Some("latency"), None, false),
            Tool::LowerCounts => row!("bounds", 4, 2, Some("counts"), None, false),
            Tool::Map => row!("map", 3, 2, None, None, false),
            Tool::Shares => row!("shares", 3, 2, None, None, false),
            Tool::Response => row!("response", 4, 3, None, None, false),
            Tool::Why => row!("why", 3, 2, None, None, false),
            Tool::TaskBound => row!("why", 4, 3, None, None, false),
            Tool::TaskResponse => row!("response", 5, 4, None, None, false),
            Tool::Symbols => row!("symbols", 4, 2, None, None, true),
            Tool::Orti => row!("orti", 4, 2, None, None, true),
            Tool::Labels => row!("why", 4, 2, Some("labels"), None, false),
            Tool::TraceReason => row!("why", 6, 4, None, LENGTH, false),
            Tool::Unused => row!("unused", 3, 2, None, None, false),
            Tool::RunResponse => row!("response", 6, 4, None, LENGTH, false),
        }
    }

    /// How many of the names behind its word are of files that it reads.
    pub fn file_count(self) -> usize
        ensures { result ≡ file_count self }
    {
        match self {
            Tool::TaskBound => 2,
            Tool::TaskResponse => 3,
            _ => self.row().inputs,
        }
    }

    /// The word that stands behind its counts, if one does.
    pub fn closing_word(self) -> Option<&'static str>
        ensures { option_map (λ word. word.now) result ≡ closing_word self }
    {
        match self {
            Tool::AtAll => Some("all"),
            _ => None,
        }
    }

    // Of two tools of one word and as many words, whether it is the one that is asked for.
    fn is_meant(self, asks: bool) -> bool
        ensures { result ≡ is_meant self asks }
    {
        match self {
            Tool::Latency | Tool::TaskBound => !asks,
            Tool::LowerCounts | Tool::Labels => asks,
            _ => true,
        }
    }

    fn is_called(self, word: &str, count: usize, asks: bool) -> bool
        ensures { result ≡ is_called self word.now count asks }
    {
        let row = self.row();
        word == row.word && count == row.words && self.is_meant(asks)
    }
}

/// The words of a tool, behind its own: the names of the files that it reads and of a task, its counts and the file
/// that it writes, if it has them.
#[derive(Clone, Copy)]
pub struct ToolWords<'a> {
    pub tool: Tool,
    pub inputs: &'a [String],
    pub counts: Option<Counts>,
    pub output: Option<&'a str>,
}

fn first_words(words: &[String], count: usize) -> &[String]
    ensures { result.now ≡ take count words.now }
{
    if count < words.len() {
        return &words[..count];
    }
    words
}

/// The names of the files that a tool reads.
pub fn file_words<'a>(words: &ToolWords<'a>) -> &'a [String]
    ensures { words_of result.now ≡ file_names (use_of words.now) }
{
    first_words(words.inputs, words.tool.file_count())
}

#[tactic(auto, unfolding(crate::specs::Tools::tool_called))]
fn tool_called(word: &str, count: usize, asks: bool) -> Option<Tool>
    ensures { result ≡ tool_called word.now count asks }
{
    for tool in TOOLS {
        if tool.is_called(word, count, asks) {
            return Some(tool);
        }
    }
    None
}

/// The tool that a word asks for, where there are so many words; of two tools of one word the one that is asked for.
pub fn tool_named(word: &str, count: usize, asks: bool) -> Option<Tool>
    ensures some { IfSome result
        (λ tool. (word.now ≡ tool_word tool) × (count ≡ word_count tool) × IsAskedFor tool asks) }
    ensures none { IfNone result ((tool : AnyTool) → word.now ≡ tool_word tool → count ≡ word_count tool → ⊥) }
{
    tool_called(word, count, asks)
}
