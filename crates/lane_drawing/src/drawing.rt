//! The lanes of a picture, a line for each bar, and the bars of a lane, as its counts come.
ghost use Rattle.std.specs.Prelude.{◌≡◌, ◌≤◌, ◌++◌, [], OnOk, All, length, true, false};
ghost use Rattle.std.specs.List.{flat_map};
ghost use Rattle.sloth_base.specs.Limits.{name_limit};
ghost use Rattle.lane_drawing.specs.Bars.{IsBarInside};
ghost use Rattle.lane_drawing.specs.Scale.{IsScale};
ghost use Rattle.lane_drawing.specs.Drawing.{look_class, look_word, look_height, bar_line, lane_line};
ghost use Rattle.lane_drawing.specs.Signs.{is_ready, is_woken, is_activated, is_over};
ghost use Rattle.lane_drawing.specs.TaskLooks.{task_look};
ghost use Rattle.lane_drawing.specs.Strips.{IsFreshStrip, ShowsMore, last_bar};

use crate::Scale;
use crate::scale::push_pixels;
use osek_scheduler::TaskState;
use sloth_base::{NoMemory, Result};
use std::alloc::Global;
use std::marker::Model;
use text_pieces::line;
use text_pieces::pieces::Piece::{Number, Word};
use trace_text::LineText;

impl Look {
    fn class(self) -> &'static [u8]
        ensures is { result.now ≡ look_class self }
        ensures short { length result.now ≤ 5 }
    {
        match self {
            Look::Runs => b"run",
            Look::Served => b"ser",
            Look::Preempted => b"pre",
            Look::Ready => b"ready",
            Look::Waiting => b"wait",
            Look::Tick => b"t",
            Look::Kernel => b"k",
        }
    }

    fn word(self) -> &'static [u8]
        ensures is { result.now ≡ look_word self }
        ensures short { length result.now ≤ 16 }
    {
        match self {
            Look::Runs => b"runs",
            Look::Served => b"runs kernel code",
            Look::Preempted => b"preempted",
            Look::Ready => b"ready",
            Look::Waiting => b"waiting",
            Look::Tick => b"ticks",
            Look::Kernel => b"code",
        }
    }

    fn height(self) -> u32
        ensures is { result ≡ look_height self }
        ensures low { result ≤ 24 }
    {
        match self {
            Look::Runs | Look::Served => 24,
            Look::Preempted | Look::Ready | Look::Kernel => 12,
            Look::Tick => 16,
            Look::Waiting => 2,
        }
    }
}

/// Appends a bar in the lane of a name whose middle is so many pixels from the top, with further words in its title.
#[tactic(auto, unfolding(crate::specs::Drawing::bar_line, crate::specs::Drawing::bar_front))]
pub fn push_bar(
    text: &mut Vec<u8>,
    scale: Scale,
    name: &[u8],
    middle: u32,
    words: &[u8],
    bar: Bar,
) -> Result<()>
    requires scale { IsScale scale }
    requires name { length name.now ≤ name_limit }
    requires low { 12 ≤ middle }
    requires inside { IsBarInside scale.from scale.to bar }
    ensures { OnOk result (text.new.items ≡ text.old.items ++ bar_line scale name.now middle words.now bar) }
{
    let left = scale.place(bar.from);
    let width = scale.place(bar.to) - left;
    let height = bar.look.height();
    let mut line = LineText::new();
    line.push(b"<rect class=\"");
    line.push(bar.look.class());
    line.push(b"\" x=\"");
    push_pixels(&mut line, left);
    line.push(b"\" y=\"");
    line.push_number(middle - height / 2);
    line.push(b"\" width=\"");
    push_pixels(&mut line, width);
    line.push(b"\" height=\"");
    line.push_number(height);
    line.push(b"\"><title>");
    line.push(name);
    line.push(b" ");
    line.push(bar.look.word());
    line.push(b", ");
    line.push_number(bar.from);
    line.push(b" to ");
    line.push_number(bar.to - 1);
    text.extend_from_slice(line.bytes())?;
    text.extend_from_slice(words)?;
    text.extend_from_slice(b"</title></rect>\n")?;
    Ok(())
}

/// Appends the name of a lane, and the line below it.
#[tactic(auto, unfolding(crate::specs::Drawing::lane_line))]
pub fn push_name(text: &mut Vec<u8>, scale: Scale, name: &[u8], middle: u32) -> Result<()>
    requires scale { IsScale scale }
    requires name { length name.now ≤ name_limit }
    requires low { middle ≤ 2000 }
    ensures { OnOk result (text.new.items ≡ text.old.items ++ lane_line scale name.now middle) }
{
    let (end, base, rule) = (scale.left - 12, middle + 5, middle + 20);
    line!(text;
        Word(b"<text class=\"n\" x=\""), Number(end), Word(b"\" y=\""), Number(base),
        Word(b"\" text-anchor=\"end\">"), Word(name), Word(b"</text><path class=\"g\" d=\"M"),
        Number(scale.left), Word(b" "), Number(rule), Word(b"h1020\"/>\n"))
}

/// Appends a lane with its bars, whose axis is so many pixels from the top.
pub fn push_lane(to: &mut Vec<u8>, scale: Scale, name: &[u8], axis: u32, bars: &[Bar]) -> Result<()>
    requires scale { IsScale scale }
    requires name { length name.now ≤ name_limit }
    requires high { 12 ≤ axis }
    requires low { axis ≤ 2000 }
    requires inside { All (IsBarInside scale.from scale.to) bars.now }
    ensures { OnOk result (to.new.items
        ≡ to.old.items ++ (lane_line scale name.now axis ++ flat_map (bar_line scale name.now axis []) bars.now)) }
{
    push_name(to, scale, name, axis)?;
    for bar in bars {
        push_bar(to, scale, name, axis, b"", *bar)?;
    }
    Ok(())
}

/// What a bar shows: the state of a task, and of a running one whose code is executed, its own or the kernel's; the
/// tick of a counter; or generated kernel code.
#[derive(Clone, Copy, PartialEq, Eq)]
pub enum Look {
    Runs,
    Served,
    Preempted,
    Ready,
    Waiting,
    Tick,
    Kernel,
}

/// Counts from one to below another that show the same.
#[derive(Clone, Copy)]
pub struct Bar {
    pub look: Look,
    pub from: u32,
    pub to: u32,
}

/// The look of a task: an Active one runs, its own code or the kernel's, or is preempted; a Suspended one has none.
pub fn task_look(state: TaskState, runs: bool, kernel: bool) -> Option<Look>
    ensures { result ≡ task_look state runs kernel }
{
    match state {
        TaskState::Suspended => None,
        TaskState::Ready => Some(Look::Ready),
        TaskState::Active if !runs => Some(Look::Preempted),
        TaskState::Active => Some(if kernel { Look::Served } else { Look::Runs }),
        TaskState::Waiting(_) => Some(Look::Waiting),
    }
}

fn is_same(one: Option<Look>, other: Option<Look>) -> bool
    ensures same { result ≡ true → one ≡ other }
    ensures not { result ≡ false → one ≡ other → ⊥ }
{
    one == other
}

/// The bars of a lane so far, and what it has shown since a count.
#[derive(Drop)]
pub struct Strip {
    bars: Vec<Bar>,
    shown: Option<Look>,
    since: u32,
}

impl Model for Strip {
    ghost use Rattle.lane_drawing.specs.Strips.{Lane};

    ghost Value = { Lane };

    ghost view = { λ strip. record { bars = strip.bars.items; shown = strip.shown; since = strip.since } };
}

impl Strip {
    /// A lane that has shown nothing.
    pub fn new(alloc: Global, from: u32) -> Strip
        ensures { IsFreshStrip from result }
    {
        Strip {
            bars: Vec::new(alloc),
            shown: None,
            since: from,
        }
    }

    /// The bar of what was shown last ends below this count.
    pub fn close(&mut self, count: u32) -> Result<()>
        ensures bars { OnOk result (self.new.bars ≡ self.old.bars ++ last_bar self.old count) }
        ensures shown { self.new.shown ≡ self.old.shown }
    {
        if let Some(look) = self.shown {
            let bar = Bar {
                look,
                from: self.since,
                to: count,
            };
            self.bars.push(bar).map_err(|_| NoMemory)?;
        }
        Ok(())
    }

    /// The bars so far.
    pub fn bars(&self) -> &[Bar]
        ensures { result.now ≡ self.now.bars }
    {
        self.bars.as_slice()
    }

    /// What the lane shows at a count.
    pub fn show(&mut self, count: u32, look: Option<Look>) -> Result<()>
        ensures { OnOk result (ShowsMore count look self.old self.new) }
    {
        if is_same(self.shown, look) {
            return Ok(());
        }
        self.close(count)?;
        self.shown = look;
        self.since = count;
        Ok(())
    }
}

fn is_ready(state: TaskState) -> bool
    ensures { result ≡ is_ready state }
{
    matches!(state, TaskState::Ready)
}

/// Whether a task that is Suspended is Ready then: it is activated, by its arrival or otherwise.
pub fn is_activated(before: TaskState, now: TaskState) -> bool
    ensures { result ≡ is_activated before now }
{
    matches!(before, TaskState::Suspended) && is_ready(now)
}

/// Whether a task that waits is Ready then: it is woken.
pub fn is_woken(before: TaskState, now: TaskState) -> bool
    ensures { result ≡ is_woken before now }
{
    matches!(before, TaskState::Waiting(_)) && is_ready(now)
}

/// Whether an alarm that has ticks left has none then: it expires, where its counter ticks.
pub fn is_over(before: u32, now: u32) -> bool
    ensures { result ≡ is_over before now }
{
    before != 0 && now == 0
}
