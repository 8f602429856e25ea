//! What of a run is marked between its counts.
//! The items that a task completes or calls a service for, at the counts of a bar.
ghost use Rattle.std.specs.Prelude.{◌≡◌, ◌<◌, ◌++◌, OnOk, [], ◌∷◌, cond, ◌≤◌, ◌+◌, ◌-◌, get_or, length};
ghost use Rattle.std.specs.List.{list_any};
ghost use Rattle.sloth_base.specs.Limits.{task_limit, alarm_limit};
ghost use Rattle.schedule_picture.specs.Marks.{comes_between, is_task_activated, acting, task_marks, tasks_marks, ticking, expiries, marks_at, no_watch, watched};
ghost use Rattle.sloth_base.specs.ImageRange.{InFormat, AreAscending};
ghost use Rattle.lane_drawing.specs.Bars.{IsBarInside};
ghost use Rattle.trace_text.specs.Listing.{mark_on};
ghost use Rattle.schedule_picture.specs.Items.{is_item, item_mark, address_item, first_item, last_item, item_words, items_words, bar_words};

use lane_drawing::{Bar, Look, Scale, is_activated, is_over, is_woken};
use run_samples::Sample;
use sloth_base::{
    ALARM_LIMIT, Arrival, FIRST_COUNTER_LINE, Image, Line, MarkKind, NoMemory, Result, TASK_LIMIT,
};
use sloth_runner::task_states::Seen;
use std::alloc::Global;
use std::marker::Model;
use trace_text::{LineText, push_mark};

/// Who acts: a task, or a counter as it ticks, by its number.
#[derive(Clone, Copy)]
pub enum Actor {
    Task(u32),
    Counter(u8),
}

/// What is marked: that a task is woken or activated, or that an alarm expires.
#[derive(Clone, Copy)]
pub enum Sign {
    Wakes(u8),
    Activates(u8),
    Expires(u8),
}

/// A mark: at a count, by a task or counter.
#[derive(Clone, Copy)]
pub struct Mark {
    pub at: u32,
    pub actor: Actor,
    pub sign: Sign,
}

fn has_come(arrivals: &[Arrival], line: usize, after: u32, last: u32) -> bool
    ensures { result ≡ list_any (comes_between line after last) arrivals.now }
{
    arrivals.iter().any(|arrival| usize::from(arrival.line.0) == line
        && (after < arrival.at && arrival.at <= last))
}

// Whether a task is Suspended at one count and Ready at the next that finds interrupts open, and no arrival of its own
// comes between.
fn is_task_activated(arrivals: &[Arrival], before: &Seen, now: &Seen, task: usize) -> bool
    requires { task < task_limit }
    ensures { result ≡ is_task_activated arrivals.now before.now now.now task }
{
    is_activated(before.tasks[task], now.tasks[task])
        && !has_come(arrivals, task, before.count, now.count)
}

fn acting(taken: &Option<Line>, running: u32) -> Option<Actor>
    ensures { result ≡ acting taken.now running }
{
    let Some(line) = taken else {
        if running == 0 {
            return None;
        }
        return Some(Actor::Task(running - 1));
    };
    if line.0 < FIRST_COUNTER_LINE {
        return None;
    }
    Some(Actor::Counter(line.0 - FIRST_COUNTER_LINE))
}

fn push_marked(marks: &mut Vec<Mark>, is_one: bool, mark: Mark) -> Result<()>
    ensures { OnOk result (marks.new.items ≡ marks.old.items ++ cond is_one (mark ∷ []) []) }
{
    if is_one {
        marks.push(mark).map_err(|_| NoMemory)?;
    }
    Ok(())
}

fn push_task_marks(
    marks: &mut Vec<Mark>,
    arrivals: &[Arrival],
    by: Actor,
    before: &Seen,
    now: &Seen,
    task: usize,
) -> Result<()>
    requires { task < task_limit }
    ensures { OnOk result (marks.new.items ≡ marks.old.items ++ task_marks arrivals.now by before.now now.now task) }
{
    let wakes = Mark {
        at: now.count,
        actor: by,
        sign: Sign::Wakes(task as u8),
    };
    let activates = Mark {
        at: now.count,
        actor: by,
        sign: Sign::Activates(task as u8),
    };
    push_marked(marks, is_woken(before.tasks[task], now.tasks[task]), wakes)?;
    let activated = is_task_activated(arrivals, before, now, task);
    push_marked(marks, activated, activates)?;
    Ok(())
}

fn push_tasks_marks(
    marks: &mut Vec<Mark>,
    arrivals: &[Arrival],
    by: Actor,
    before: &Seen,
    now: &Seen,
) -> Result<()>
    ensures { OnOk result (marks.new.items
        ≡ marks.old.items ++ tasks_marks arrivals.now by before.now now.now task_limit) }
{
    for task in 0..TASK_LIMIT {
        push_task_marks(marks, arrivals, by, before, now, task)?;
    }
    Ok(())
}

fn ticking(taken: &Option<Line>) -> Option<u8>
    ensures { result ≡ ticking taken.now }
{
    let Some(line) = taken else {
        return None;
    };
    if line.0 < FIRST_COUNTER_LINE {
        return None;
    }
    Some(line.0 - FIRST_COUNTER_LINE)
}

// Appends the marks of the alarms that expire at the tick of a counter which begins at a count.
fn push_expiries(
    marks: &mut Vec<Mark>,
    at: u32,
    counter: u8,
    before: &[u32; ALARM_LIMIT],
    now: &[u32; ALARM_LIMIT],
) -> Result<()>
    ensures { OnOk result (marks.new.items ≡ marks.old.items ++ expiries at counter before.now now.now alarm_limit) }
{
    for alarm in 0..ALARM_LIMIT {
        let mark = Mark {
            at,
            actor: Actor::Counter(counter),
            sign: Sign::Expires(alarm as u8),
        };
        push_marked(marks, is_over(before[alarm], now[alarm]), mark)?;
    }
    Ok(())
}

// Appends what a count marks, behind the last one that found interrupts open, if one did.
fn push_marks(
    marks: &mut Vec<Mark>,
    arrivals: &[Arrival],
    last: &Option<Sample>,
    sample: &Sample,
    before: &[u32; ALARM_LIMIT],
    now: &[u32; ALARM_LIMIT],
) -> Result<()>
    ensures { OnOk result (marks.new.items
        ≡ marks.old.items ++ marks_at arrivals.now last.now sample.now before.now now.now) }
{
    let Some(last) = last else {
        return Ok(());
    };
    if sample.interrupts.masked {
        let Some(seen) = &last.seen else {
            return Ok(());
        };
        return match ticking(&last.taken) {
            Some(counter) => push_expiries(marks, seen.count, counter, before, now),
            None => Ok(()),
        };
    }
    let (Some(old), Some(seen)) = (&last.seen, &sample.seen) else {
        return Ok(());
    };
    match acting(&last.taken, old.running) {
        Some(by) => push_tasks_marks(marks, arrivals, by, old, seen),
        None => Ok(()),
    }
}

/// A run that is watched: its arrivals, the last sample that found interrupts open, the ticks that alarms had left at
/// the last count, and the marks and the addresses so far.
#[derive(Drop)]
pub struct Watching<'a> {
    arrivals: &'a [Arrival],
    last: Option<Sample>,
    alarms: [u32; ALARM_LIMIT],
    marks: Vec<Mark>,
    addresses: Vec<u32>,
}

impl<'a> Model for Watching<'a> {
    ghost use Rattle.schedule_picture.specs.Marks.{Watch};

    ghost Value = { Watch };

    ghost view = { λ watching. record {
      arrivals = watching.arrivals.now;
      last = watching.last;
      alarms = watching.alarms;
      marks = watching.marks.items;
      addresses = watching.addresses.items;
    } };
}

impl<'a> Watching<'a> {
    /// A run with arrivals, of which nothing has been seen.
    pub fn new(alloc: Global, arrivals: &'a [Arrival]) -> Watching<'a>
        ensures { result ≡ no_watch arrivals.now }
    {
        Watching {
            arrivals,
            last: None,
            alarms: [0; ALARM_LIMIT],
            marks: Vec::new(alloc),
            addresses: Vec::new(alloc),
        }
    }

    /// What a count shows, the ticks that each alarm has left there, and the address.
    pub fn watch(
        &mut self,
        sample: &Sample,
        alarms: &[u32; ALARM_LIMIT],
        address: u32,
    ) -> Result<()>
        ensures { OnOk result (self.new ≡ watched self.old sample.now alarms.now address) }
    {
        push_marks(
            &mut self.marks,
            self.arrivals,
            &self.last,
            sample,
            &self.alarms,
            alarms,
        )?;
        if !sample.interrupts.masked {
            self.last = Some(*sample);
        }
        self.alarms = *alarms;
        self.addresses.push(address).map_err(|_| NoMemory)?;
        Ok(())
    }

    /// The marks so far.
    pub fn marks(&self) -> &[Mark]
        ensures { result.now ≡ self.now.marks }
    {
        self.marks.as_slice()
    }

    /// The address of each count so far.
    pub fn addresses(&self) -> &[u32]
        ensures { result.now ≡ self.now.addresses }
    {
        self.addresses.as_slice()
    }
}

fn is_item(kind: MarkKind) -> bool
    ensures { result ≡ is_item kind }
{
    matches!(kind, MarkKind::Item | MarkKind::Jump)
}

fn found_mark(marks: &[sloth_base::Mark], address: u32) -> Option<sloth_base::Mark>
    requires { AreAscending marks.now }
    ensures { result ≡ mark_on marks.now address }
{
    match marks.binary_search_by_key(&address, |mark| mark.address) {
        Ok(place) => Some(marks[place]),
        Err(_) => None,
    }
}

fn item_mark(mark: Option<sloth_base::Mark>) -> Option<sloth_base::Mark>
    ensures { result ≡ item_mark mark }
{
    match mark {
        None => None,
        Some(mark) => { if is_item(mark.kind) { Some(mark) } else { None } }
    }
}

fn count_item(image: &Image, addresses: &[u32], place: usize) -> Option<sloth_base::Mark>
    requires format { InFormat image.now }
    requires within { place < length addresses.now }
    ensures { result ≡ address_item image.now (get_or addresses.now place 0) }
{
    item_mark(found_mark(image.marks.items(), addresses[place]))
}

// The first one at the counts from one to below another.
fn first_item(image: &Image, addresses: &[u32], from: usize, to: usize) -> Option<sloth_base::Mark>
    requires format { InFormat image.now }
    requires ordered { from ≤ to }
    requires within { to ≤ length addresses.now }
    ensures { result ≡ first_item image.now addresses.now from (to - from) }
{
    for place in from..to {
        if let Some(mark) = count_item(image, addresses, place) {
            return Some(mark);
        }
    }
    None
}

fn last_item(image: &Image, addresses: &[u32], from: usize, to: usize) -> Option<sloth_base::Mark>
    requires format { InFormat image.now }
    requires ordered { from ≤ to }
    requires within { to ≤ length addresses.now }
    ensures { result ≡ last_item image.now addresses.now from (to - from) }
{
    for behind in 0..to - from {
        if let Some(mark) = count_item(image, addresses, to - 1 - behind) {
            return Some(mark);
        }
    }
    None
}

// Appends what the listing says of a mark, if there is one, behind these bytes.
fn push_item(line: &mut LineText, image: &Image, front: &[u8], mark: &Option<sloth_base::Mark>)
    requires format { InFormat image.now }
    requires room { length line.old ≤ 100 }
    requires few { length front.now ≤ 3 }
    ensures words { line.new ≡ line.old ++ item_words front.now image.now.funcs mark.now }
    ensures short { length line.new ≤ length line.old + 87 }
{
    if let Some(mark) = mark {
        line.push(front);
        push_mark(line, image.funcs.items(), mark);
    }
}

// Both.
#[tactic(auto, unfolding(crate::specs::Items::items_words))]
fn items_words(image: &Image, addresses: &[u32], from: usize, to: usize) -> LineText
    requires format { InFormat image.now }
    requires ordered { from ≤ to }
    requires within { to ≤ length addresses.now }
    ensures { result ≡ items_words image.now addresses.now from to }
{
    let first = first_item(image, addresses, from, to);
    let last = last_item(image, addresses, from, to);
    let mut line = LineText::new();
    push_item(&mut line, image, b",", &first);
    push_item(&mut line, image, b" to", &last);
    line
}

/// The words of a bar of a picture, where these are the addresses of its counts.
pub fn bar_words(image: &Image, addresses: &[u32], scale: Scale, bar: Bar) -> LineText
    requires format { InFormat image.now }
    requires counted { scale.to ≡ scale.from + length addresses.now }
    requires inside { IsBarInside scale.from scale.to bar }
    ensures { result ≡ bar_words image.now addresses.now scale.from bar }
{
    if matches!(bar.look, Look::Runs) {
        let (from, to) = (bar.from - scale.from, bar.to - scale.from);
        items_words(image, addresses, from as usize, to as usize)
    } else {
        LineText::new()
    }
}
