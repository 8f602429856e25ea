//! The text of a picture. The arrivals in a lane. The marks of a picture.
ghost use Rattle.std.specs.Prelude.{◌≡◌, ◌≤◌, ◌<◌, ◌+◌, ◌*◌, ◌++◌, IfOk, OnOk, All, length, IsTrue};
ghost use Rattle.schedule_picture.specs.Items.{bar_words};
ghost use Rattle.sloth_base.specs.ImageRange.{InFormat};
ghost use Rattle.sloth_base.specs.Limits.{task_limit, counter_limit, name_limit, picture_limit, count_limit};
ghost use Rattle.lane_drawing.specs.Bars.{IsBarInside};
ghost use Rattle.lane_drawing.specs.Scale.{IsScale};
ghost use Rattle.schedule_picture.specs.Drawn.{IsDrawable, drawing_of};
ghost use Rattle.schedule_picture.specs.LaneLooks.{owned_lanes};
ghost use Rattle.schedule_picture.specs.Picture.{longest_length, picture_scale, tasks_above, bar_lines, task_lane, task_lanes, counter_lane, counter_lanes, picture_text, admission_line, is_shown, shown_arrivals, actor_name, actor_row, arrow_between, bar_edge, has_actor, has_object, is_marked, mark_line, mark_lines};
ghost use Rattle.std.specs.List.{flat_map};

use crate::marks::{Actor, Mark, Sign, bar_words};
use lane_drawing::{
    Bar, Scale, Strip, arrival_line, arrow_line, expiry_line, push_axis, push_bar, push_head,
    push_lane, push_legend, push_name,
};
use run_samples::Admission;
use sloth_base::{FIRST_COUNTER_LINE, Image, Name, Result, TASK_LIMIT};
use std::alloc::Global;
use trace_text::LineText;

/// What is drawn.
#[derive(Clone, Copy)]
pub struct Drawn<'a> {
    pub image: &'a Image,
    pub admissions: &'a [Admission],
    pub marks: &'a [Mark],
    pub addresses: &'a [u32],
    pub levels: [u8; TASK_LIMIT],
    pub scale: Scale,
    pub strips: &'a [Strip],
}

#[tactic(auto, using(crate::proofs::Drawing::no_names, crate::proofs::Drawing::one_name_more))]
fn longest_length(names: &[Name]) -> usize
    requires { All (λ name. length name ≤ name_limit) names.now }
    ensures is { result ≡ longest_length names.now (length names.now) }
    ensures some { 6 ≤ result }
    ensures short { result ≤ name_limit }
{
    let mut longest = 6;
    for i in 0..names.len() {
        longest = longest.max(names[i].bytes().len());
    }
    longest
}

/// Where the counts of a picture stand.
pub fn picture_scale(image: &Image, from: u32, to: u32) -> Scale
    requires format { InFormat image.now }
    requires ordered { from ≤ to }
    requires short { to ≤ from + picture_limit }
    requires few { to ≤ count_limit }
    ensures is { result ≡ picture_scale image.now from to }
    ensures scale { IsScale result }
{
    let (tasks, counters) = (image.tasks.items(), image.counters.items());
    let longest = longest_length(tasks).max(longest_length(counters));
    Scale {
        left: 24 + 8 * longest as u32,
        from,
        to,
    }
}

/// How many of the tasks stand above one.
#[tactic(auto, using(crate::proofs::Drawing::no_tasks, crate::proofs::Drawing::one_task_more))]
pub fn tasks_above(levels: &[u8; TASK_LIMIT], tasks: usize, task: usize) -> u32
    requires few { tasks ≤ task_limit }
    requires task { task < task_limit }
    ensures is { result ≡ tasks_above levels.now task tasks }
    ensures few { result ≤ tasks }
{
    let mut above = 0;
    for other in 0..tasks {
        if levels[other] > levels[task] || levels[other] == levels[task] && other < task {
            above += 1;
        }
    }
    above
}

/// The middle of a row, in pixels from the top.
pub fn row_middle(row: u32) -> u32
    requires { row ≤ task_limit + counter_limit }
    ensures { result ≡ 64 + 40 * row }
{
    64 + 40 * row
}

fn lane_bars<'a>(drawn: &Drawn<'a>, lane: usize) -> &'a [Bar]
    requires drawable { IsDrawable drawn.now }
    requires lane { lane ≤ owned_lanes drawn.now.image.now }
    ensures bars { result.now ≡ (drawing_of drawn.now).bars lane }
    ensures inside { All (IsBarInside drawn.now.scale.from drawn.now.scale.to) result.now }
{
    drawn.strips[lane].bars()
}

fn push_bars(
    text: &mut Vec<u8>,
    drawn: &Drawn,
    name: &[u8],
    middle: u32,
    bars: &[Bar],
) -> Result<()>
    requires drawable { IsDrawable drawn.now }
    requires name { length name.now ≤ name_limit }
    requires high { 12 ≤ middle }
    requires inside { All (IsBarInside drawn.now.scale.from drawn.now.scale.to) bars.now }
    ensures { OnOk result (text.new.items ≡ text.old.items
        ++ bar_lines drawn.now.scale name.now middle
        (bar_words drawn.now.image.now drawn.now.addresses.now drawn.now.scale.from) bars.now) }
{
    for bar in bars {
        let words = bar_words(drawn.image, drawn.addresses, drawn.scale, *bar);
        push_bar(text, drawn.scale, name, middle, words.bytes(), *bar)?;
    }
    Ok(())
}

#[tactic(auto, unfolding(crate::specs::Picture::task_lane))]
fn push_task(text: &mut Vec<u8>, drawn: &Drawn, task: usize) -> Result<()>
    requires drawable { IsDrawable drawn.now }
    requires task { task < length drawn.now.image.now.tasks }
    ensures { OnOk result (text.new.items ≡ text.old.items ++ task_lane (drawing_of drawn.now) task) }
{
    let names = drawn.image.tasks.items();
    let name = names[task].bytes();
    let middle = row_middle(tasks_above(&drawn.levels, names.len(), task));
    push_name(text, drawn.scale, name, middle)?;
    push_bars(text, drawn, name, middle, lane_bars(drawn, task))?;
    let line = task as u8;
    push_arrivals(text, drawn.scale, name, middle, drawn.admissions, line)
}

#[tactic(auto, unfolding(crate::specs::Picture::counter_lane))]
fn push_counter(text: &mut Vec<u8>, drawn: &Drawn, counter: usize) -> Result<()>
    requires drawable { IsDrawable drawn.now }
    requires counter { counter < length drawn.now.image.now.counters }
    ensures { OnOk result (text.new.items ≡ text.old.items ++ counter_lane (drawing_of drawn.now) counter) }
{
    let name = drawn.image.counters.items()[counter].bytes();
    let lane = drawn.image.tasks.items().len() + counter;
    let middle = row_middle(lane as u32);
    let line = FIRST_COUNTER_LINE + counter as u8;
    push_lane(text, drawn.scale, name, middle, lane_bars(drawn, lane))?;
    push_arrivals(text, drawn.scale, name, middle, drawn.admissions, line)
}

fn push_tasks(text: &mut Vec<u8>, drawn: &Drawn, tasks: usize) -> Result<()>
    requires drawable { IsDrawable drawn.now }
    requires tasks { tasks ≡ length drawn.now.image.now.tasks }
    ensures { OnOk result (text.new.items ≡ text.old.items ++ task_lanes (drawing_of drawn.now) tasks) }
{
    for task in 0..tasks {
        push_task(text, drawn, task)?;
    }
    Ok(())
}

fn push_counters(text: &mut Vec<u8>, drawn: &Drawn, counters: usize) -> Result<()>
    requires drawable { IsDrawable drawn.now }
    requires counters { counters ≡ length drawn.now.image.now.counters }
    ensures { OnOk result (text.new.items ≡ text.old.items ++ counter_lanes (drawing_of drawn.now) counters) }
{
    for counter in 0..counters {
        push_counter(text, drawn, counter)?;
    }
    Ok(())
}

/// The text of a picture.
pub fn drawn_text(alloc: Global, drawn: &Drawn) -> Result<Vec<u8>>
    requires { IsDrawable drawn.now }
    ensures { IfOk result (λ text. text.items ≡ picture_text (drawing_of drawn.now)) }
{
    let tasks = drawn.image.tasks.items().len();
    let counters = drawn.image.counters.items().len();
    let last = tasks + counters;
    let rows = last as u32 + 1;
    let mut text = Vec::new(alloc);
    push_head(&mut text, drawn.scale, rows)?;
    push_axis(&mut text, drawn.scale, rows)?;
    push_tasks(&mut text, drawn, tasks)?;
    push_counters(&mut text, drawn, counters)?;
    let middle = row_middle(last as u32);
    let bars = lane_bars(drawn, last);
    push_lane(&mut text, drawn.scale, b"kernel", middle, bars)?;
    push_marks(
        &mut text,
        drawn.image,
        &drawn.levels,
        drawn.scale,
        drawn.marks,
    )?;
    push_legend(&mut text, drawn.scale, rows)?;
    text.extend_from_slice(b"</svg>\n")?;
    Ok(text)
}

fn is_shown(scale: Scale, line: u8, admission: &Admission) -> bool
    ensures { result ≡ is_shown scale line admission.now }
{
    admission.arrival.line.0 == line
        && admission.arrival.at >= scale.from
        && admission.arrival.at < scale.to
}

/// Appends the arrivals of a line, a task's or a counter's, in the counts of a picture.
pub fn push_arrivals(
    text: &mut Vec<u8>,
    scale: Scale,
    name: &[u8],
    middle: u32,
    admissions: &[Admission],
    line: u8,
) -> Result<()>
    requires scale { IsScale scale }
    requires name { length name.now ≤ name_limit }
    requires high { 13 ≤ middle }
    ensures { OnOk result (text.new.items ≡ text.old.items
        ++ flat_map (admission_line scale name.now middle) (shown_arrivals scale admissions.now line)) }
{
    for admission in admissions {
        if is_shown(scale, line, admission) {
            let drawn = arrival_line(scale, name, middle, &admission.arrival, admission.lost);
            text.extend_from_slice(drawn.bytes())?;
        }
    }
    Ok(())
}

fn has_actor(image: &Image, actor: &Actor) -> bool
    ensures { result ≡ has_actor image.now actor.now }
{
    match actor {
        Actor::Task(task) => (*task as usize) < image.tasks.items().len(),
        Actor::Counter(counter) => usize::from(*counter) < image.counters.items().len(),
    }
}

fn has_object(image: &Image, sign: &Sign) -> bool
    ensures { result ≡ has_object image.now sign.now }
{
    match sign {
        Sign::Wakes(task) => usize::from(*task) < image.tasks.items().len(),
        Sign::Activates(task) => usize::from(*task) < image.tasks.items().len(),
        Sign::Expires(_) => true,
    }
}

fn is_marked(image: &Image, scale: Scale, mark: &Mark) -> bool
    ensures { result ≡ is_marked image.now scale mark.now }
{
    (mark.at >= scale.from && mark.at < scale.to)
        && (has_actor(image, &mark.actor) && has_object(image, &mark.sign))
}

fn actor_name<'a>(image: &'a Image, actor: &Actor) -> &'a [u8]
    requires format { InFormat image.now }
    requires there { IsTrue (has_actor image.now actor.now) }
    ensures is { result.now ≡ actor_name image.now actor.now }
    ensures short { length result.now ≤ name_limit }
{
    match actor {
        Actor::Task(task) => image.tasks.items()[*task as usize].bytes(),
        Actor::Counter(counter) => image.counters.items()[usize::from(*counter)].bytes(),
    }
}

fn actor_row(image: &Image, levels: &[u8; TASK_LIMIT], actor: &Actor) -> u32
    requires format { InFormat image.now }
    requires there { IsTrue (has_actor image.now actor.now) }
    ensures is { result ≡ actor_row image.now levels.now actor.now }
    ensures few { result ≤ task_limit + counter_limit }
{
    let tasks = image.tasks.items().len();
    match actor {
        Actor::Task(task) => tasks_above(levels, tasks, *task as usize),
        Actor::Counter(counter) => tasks as u32 + u32::from(*counter),
    }
}

// The height of the edge of a row's bars, so many pixels from its middle, on the side of another row.
fn bar_edge(row: u32, other: u32, height: u32) -> u32
    requires row { row ≤ task_limit + counter_limit }
    requires height { height ≤ 12 }
    ensures { result ≡ bar_edge row other height }
{
    if row < other {
        row_middle(row) + height
    } else {
        row_middle(row) - height
    }
}

// The line of what one does to a task: between the edges of the bars of both, of which that of a Ready task is lower.
fn arrow_between(
    image: &Image,
    levels: &[u8; TASK_LIMIT],
    scale: Scale,
    mark: &Mark,
    does: &[u8],
    task: usize,
) -> LineText
    requires format { InFormat image.now }
    requires scale { IsScale scale }
    requires marked { IsTrue (is_marked image.now scale mark.now) }
    requires does { length does.now ≤ 11 }
    requires task { task < length image.now.tasks }
    ensures { result ≡ arrow_between image.now levels.now scale mark.now.at mark.now.actor does.now task }
{
    let tasks = image.tasks.items();
    let by = actor_name(image, &mark.actor);
    let start = actor_row(image, levels, &mark.actor);
    let end = tasks_above(levels, tasks.len(), task);
    let (from, to) = (bar_edge(start, end, 12), bar_edge(end, start, 6));
    arrow_line(scale, mark.at, by, from, does, tasks[task].bytes(), to)
}

fn mark_line(image: &Image, levels: &[u8; TASK_LIMIT], scale: Scale, mark: &Mark) -> LineText
    requires format { InFormat image.now }
    requires scale { IsScale scale }
    requires marked { IsTrue (is_marked image.now scale mark.now) }
    ensures { result ≡ mark_line image.now levels.now scale mark.now }
{
    match &mark.sign {
        Sign::Wakes(task) => {
            let task = usize::from(*task);
            arrow_between(image, levels, scale, mark, b" wakes ", task)
        }
        Sign::Activates(task) => {
            let task = usize::from(*task);
            arrow_between(image, levels, scale, mark, b" activates ", task)
        }
        Sign::Expires(alarm) => {
            let middle = row_middle(actor_row(image, levels, &mark.actor));
            expiry_line(scale, mark.at, u32::from(*alarm), middle)
        }
    }
}

/// Appends the marks of the image in the counts of a picture.
pub fn push_marks(
    text: &mut Vec<u8>,
    image: &Image,
    levels: &[u8; TASK_LIMIT],
    scale: Scale,
    marks: &[Mark],
) -> Result<()>
    requires format { InFormat image.now }
    requires scale { IsScale scale }
    ensures { OnOk result (text.new.items ≡ text.old.items ++ mark_lines image.now levels.now scale marks.now) }
{
    for mark in marks {
        if is_marked(image, scale, mark) {
            text.extend_from_slice(mark_line(image, levels, scale, mark).bytes())?;
        }
    }
    Ok(())
}
