//! The picture of a part of a run. The lanes of a picture, as the counts of a run come. What a lane shows at a count.
ghost use Rattle.std.specs.Prelude.{ℕ, ◌≡◌, ◌≤◌, ◌<◌, ◌+◌, IfOk, IfErr, IfSome, IfNone, OnOk, length, get_or, ◌++◌, cond, Some, None};
ghost use Rattle.sloth_base.specs.ImageRange.{InFormat};
ghost use Rattle.sloth_base.specs.Arrivals.{AreArrivals};
ghost use Rattle.sloth_base.specs.Owners.{owners_named};
ghost use Rattle.sloth_base.specs.Limits.{task_limit, counter_limit, count_limit, picture_limit};
ghost use Rattle.run_samples.specs.Samples.{IsSampling, sampled_image, sampled_arrivals, sampled_count};
ghost use Rattle.run_samples.specs.Admissions.{no_notes};
ghost use Rattle.schedule_picture.specs.Marks.{no_watch};
ghost use Rattle.lane_drawing.specs.Strips.{IsFreshStrip, empty_lane, last_bar, ShowsMore};
ghost use Rattle.schedule_picture.specs.Samples.{HasGivenFirst, HasBars, StopsBefore};
ghost use Rattle.schedule_picture.specs.Picture.{IsPicture, IsPictureOf};
ghost use Rattle.schedule_picture.specs.Lanes.{HaveChanged};
ghost use Rattle.schedule_picture.specs.LaneLooks.{lane_look, is_tick};

use crate::marks::Watching;
use crate::text::{Drawn, drawn_text, picture_scale};
use lane_drawing::{Look, Strip, task_look};
use run_samples::{Noting, Sample, Sampler};
use sloth_base::{Arrival, FIRST_COUNTER_LINE, Image, NoMemory, Result};
use sloth_runner::Halt;
use std::alloc::Global;

/// The picture of a part of a run, or where and why the run stops in front of its last count.
#[derive(Drop)]
pub enum Picture {
    Text(Vec<u8>),
    Stopped(Halt),
}

fn skip(sampler: &mut Sampler, from: u32) -> Result<(), Halt>
    requires few { from ≤ count_limit }
    requires sampling { IsSampling sampler.old }
    requires fresh { sampled_count sampler.old ≡ 0 }
    ensures given { OnOk result
        (HasGivenFirst (sampled_image sampler.old) (sampled_arrivals sampler.old) from sampler.new) }
    ensures stops { IfErr result (StopsBefore (sampled_image sampler.old) (sampled_arrivals sampler.old) from) }
{
    for _ in 0..from {
        match sampler.next() {
            Ok(_) => {}
            Err(halt) => return Err(halt),
        }
    }
    Ok(())
}

/// What is recorded of the counts of a picture: in the lanes, of the arrivals, and in marks.
#[derive(Drop)]
struct Recording<'a> {
    strips: Vec<Strip>,
    noting: Noting,
    watching: Watching<'a>,
}

// What the lanes show from one count to below another, or where and why the run stops.
fn record_counts(
    sampler: &mut Sampler,
    recording: &mut Recording,
    tasks: usize,
    counters: usize,
    from: u32,
    to: u32,
) -> Result<Option<Halt>>
    requires given { HasGivenFirst (sampled_image sampler.old) (sampled_arrivals sampler.old) from sampler.old }
    requires tasks { tasks ≡ length (sampled_image sampler.old).tasks }
    requires counters { counters ≡ length (sampled_image sampler.old).counters }
    requires few_tasks { tasks ≤ task_limit }
    requires few_counters { counters ≤ counter_limit }
    requires lanes { length recording.old.strips.items ≡ tasks + counters + 1 }
    requires fresh { (lane : ℕ) → lane < tasks + counters + 1
        → IsFreshStrip from (get_or recording.old.strips.items lane empty_lane) }
    requires none { recording.old.noting ≡ no_notes }
    requires unseen { recording.old.watching ≡ no_watch (sampled_arrivals sampler.old) }
    requires ordered { from ≤ to }
    requires few { to ≤ count_limit }
    ensures stops { IfOk result (λ end. IfSome end
        (StopsBefore (sampled_image sampler.old) (sampled_arrivals sampler.old) to)) }
    ensures bars { IfOk result (λ end. IfNone end
        (HasBars (sampled_image sampler.old)
        (sampled_arrivals sampler.old) from to sampler.new recording.new.strips.items
        recording.new.noting.admissions recording.new.watching.marks recording.new.watching.addresses)) }
{
    for count in from..to {
        recording.noting.note(sampler)?;
        let words = sampler.service_words();
        let address = sampler.address();
        match sampler.next() {
            Ok(sample) => {
                show(&mut recording.strips, tasks, counters, count, &sample)?;
                recording.noting.show(&sample)?;
                recording.watching.watch(&sample, &words.alarms, address)?;
            },
            Err(halt) => return Ok(Some(halt)),
        }
    }
    close(&mut recording.strips, to)?;
    recording.noting.end(sampler)?;
    Ok(None)
}

// The text of the picture, with the bars of each lane.
fn recorded_text(
    alloc: Global,
    image: &Image,
    arrivals: &[Arrival],
    from: u32,
    to: u32,
    sampler: &mut Sampler,
    recording: &Recording,
) -> Result<Vec<u8>>
    requires format { InFormat image.now }
    requires ordered { from ≤ to }
    requires short { to ≤ from + picture_limit }
    requires few { to ≤ count_limit }
    requires bars { HasBars image.now arrivals.now from to sampler.old recording.now.strips.items
        recording.now.noting.admissions recording.now.watching.marks recording.now.watching.addresses }
    ensures { IfOk result (λ text. IsPictureOf image.now arrivals.now from to text.items) }
{
    let drawn = Drawn {
        image,
        admissions: recording.noting.admissions(),
        marks: recording.watching.marks(),
        addresses: recording.watching.addresses(),
        levels: sampler.levels(),
        scale: picture_scale(image, from, to),
        strips: recording.strips.as_slice(),
    };
    let text = drawn_text(alloc, &drawn)?;
    Ok(text)
}

/// The picture of a run of an image with arrivals, from one count to below another: at most `COUNT_LIMIT`, and
/// `PICTURE_LIMIT` more than the first.
pub fn draw(
    alloc: Global,
    image: &Image,
    arrivals: &[Arrival],
    from: u32,
    to: u32,
) -> Result<Picture>
    requires format { InFormat image.now }
    requires arrivals { AreArrivals (owners_named image.now) arrivals.now }
    requires ordered { from ≤ to }
    requires short { to ≤ from + picture_limit }
    requires few { to ≤ count_limit }
    ensures { IfOk result (IsPicture image.now arrivals.now from to) }
{
    let tasks = image.tasks.items().len();
    let counters = image.counters.items().len();
    let mut sampler = Sampler::new(alloc, image, arrivals)?;
    if let Err(halt) = skip(&mut sampler, from) {
        return Ok(Picture::Stopped(halt));
    }
    let mut recording = Recording {
        strips: empty_strips(alloc, tasks + counters, from)?,
        noting: Noting::new(alloc),
        watching: Watching::new(alloc, arrivals),
    };
    if let Some(halt) = record_counts(&mut sampler, &mut recording, tasks, counters, from, to)? {
        return Ok(Picture::Stopped(halt));
    }
    let text = recorded_text(alloc, image, arrivals, from, to, &mut sampler, &recording)?;
    Ok(Picture::Text(text))
}

/// So many lanes, and one for kernel code, that have shown nothing yet.
pub fn empty_strips(alloc: Global, owned: usize, from: u32) -> Result<Vec<Strip>>
    requires { owned ≤ task_limit + counter_limit }
    ensures lanes { IfOk result (λ strips. length strips.items ≡ owned + 1) }
    ensures fresh { IfOk result (λ strips. (lane : ℕ) → lane < owned + 1
        → IsFreshStrip from (get_or strips.items lane empty_lane)) }
{
    let mut strips = Vec::new(alloc);
    for _ in 0..owned + 1 {
        strips.push(Strip::new(alloc, from)).map_err(|_| NoMemory)?;
    }
    Ok(strips)
}

/// What each lane shows at a count.
pub fn show(
    strips: &mut Vec<Strip>,
    tasks: usize,
    counters: usize,
    count: u32,
    sample: &Sample,
) -> Result<()>
    requires tasks { tasks ≤ task_limit }
    requires counters { counters ≤ counter_limit }
    requires lanes { length strips.old.items ≡ tasks + counters + 1 }
    ensures shows { OnOk result
        (HaveChanged (λ lane. ShowsMore count (lane_look tasks counters sample.now lane))
        (tasks + counters + 1) strips.old.items strips.new.items) }
{
    for lane in 0..tasks + counters + 1 {
        strips[lane].show(count, lane_look(tasks, counters, sample, lane))?;
    }
    Ok(())
}

/// The bars of what was shown last end below this count.
pub fn close(strips: &mut Vec<Strip>, count: u32) -> Result<()>
    ensures { OnOk result (HaveChanged (λ lane old new. new.bars
        ≡ old.bars ++ last_bar old count) (length strips.old.items) strips.old.items strips.new.items) }
{
    for lane in 0..strips.len() {
        strips[lane].close(count)?;
    }
    Ok(())
}

fn is_tick(sample: &Sample, counter: usize) -> bool
    requires { counter < counter_limit }
    ensures { result ≡ is_tick sample.now counter }
{
    match &sample.taken {
        Some(line) => line.0 == FIRST_COUNTER_LINE + counter as u8,
        None => false,
    }
}

fn shown(look: Look, is_shown: bool) -> Option<Look>
    ensures { result ≡ cond is_shown (Some look) None }
{
    if is_shown { Some(look) } else { None }
}

/// The look of a lane in a sample: a task's, behind those of all tasks a counter's, and behind these the lane of kernel
/// code.
pub fn lane_look(tasks: usize, counters: usize, sample: &Sample, lane: usize) -> Option<Look>
    requires tasks { tasks ≤ task_limit }
    requires counters { counters ≤ counter_limit }
    requires lane { lane ≤ tasks + counters }
    ensures { result ≡ lane_look tasks counters sample.now lane }
{
    let kernel = sample.interrupts.masked || sample.taken.is_some();
    if lane < tasks {
        return match &sample.seen {
            None => None,
            Some(seen) => task_look(seen.tasks[lane], seen.running == lane as u32 + 1, kernel),
        };
    }
    if lane < tasks + counters {
        return shown(Look::Tick, is_tick(sample, lane - tasks));
    }
    shown(Look::Kernel, kernel)
}
