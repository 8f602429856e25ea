//! Where a greatest section of a task begins, and from position to position along parts of greatest or least size; and
//! cycles within sections.

use crate::place::{Nexts, both, is_better};
use crate::ways::Tables;
use sloth_base::{Op, Result};
use std::alloc::Global;
use text_pieces::push;
use walk_sums::Point;

/// The functions in progress where a greatest section begins; `whole` says that the body counts as raised.
pub fn section_start(tables: &Tables, body: usize, whole: bool) -> Result<Vec<Frame>> {
    let mut frames = Vec::new(tables.walks.alloc());
    let (mut func, mut whole, mut mode) = (body, whole, Mode::On);
    for _turn in 0..tables.walks.app().funcs.items().len() + 1 {
        let part = tables.part(func, whole, mode);
        let item = part.item;
        let point = Point { func, item };
        push(&mut frames, Frame { point, whole, mode })?;
        match (part.inside, tables.call(func, whole, item)) {
            (Some(inside), Some((inner, raised))) => {
                mode = inside;
                func = inner;
                whole = raised;
            },
            _ => return Ok(frames),
        }
    }
    Ok(frames)
}

// The size from an item on, as the mode asks for it.
fn further_size(tables: &Tables, frame: Frame, item: Option<usize>) -> u32 {
    match item {
        Some(item) => tables
            .size(frame.point.func, frame.whole, item)
            .told(frame.mode),
        None => 0,
    }
}

// Where a part goes on, if it does.
fn choice(tables: &Tables, frame: Frame, nexts: Nexts) -> Option<usize> {
    let lower = further_size(tables, frame, nexts.0);
    let higher = further_size(tables, frame, nexts.1);
    match is_better(frame.mode, lower, higher) {
        true if 0 < higher => nexts.1,
        false if 0 < lower => nexts.0,
        _ => None,
    }
}

// Back to the caller, if a part goes on behind the call.
fn leave(tables: &Tables, frames: &mut Vec<Frame>, left: Frame) -> Result<bool> {
    if matches!(left.mode, Mode::On) {
        return Ok(false);
    }
    let Some(mut caller) = frames.pop() else {
        return Ok(false);
    };
    caller.point.item = caller.point.item.saturating_add(1);
    push(frames, caller)?;
    Ok(0 < further_size(tables, caller, Some(caller.point.item)))
}

// Goes to the next position, into what an item calls; or says that the part ends.
fn step(tables: &Tables, frames: &mut Vec<Frame>) -> Result<bool> {
    let Some(mut frame) = frames.pop() else {
        return Ok(false);
    };
    let Some(place) = tables.place(frame.point.func, frame.whole) else {
        return Ok(false);
    };
    let nexts = place.nexts(frame.point.item);
    let Some(op) = place.op(frame.point.item) else {
        return Ok(false);
    };
    match op {
        Op::Return => leave(tables, frames, frame),
        Op::Invoke { func } => {
            let func = func.0 as usize;
            let inner = tables.size(func, true, 0);
            let further = further_size(tables, frame, nexts.0);
            let mode = match frame.mode {
                Mode::On if inner.on < both(inner.back, further) => Mode::Back,
                mode => mode,
            };
            push(frames, frame)?;
            let (point, whole) = (Point { func, item: 0 }, true);
            push(frames, Frame { point, whole, mode })?;
            Ok(true)
        },
        _ => {
            let Some(item) = choice(tables, frame, nexts) else {
                return Ok(false);
            };
            frame.point.item = item;
            push(frames, frame)?;
            Ok(true)
        },
    }
}

/// Appends the points of the positions from here on, up to so many in all.
pub fn push_points(
    tables: &Tables,
    points: &mut Vec<Point>,
    frames: &mut Vec<Frame>,
    limit: usize,
) -> Result<()> {
    for _turn in points.len()..limit {
        let Some(frame) = frames.as_slice().last() else {
            return Ok(());
        };
        push(points, frame.point)?;
        if !step(tables, frames)? {
            return Ok(());
        }
    }
    Ok(())
}

/// How a part goes on through a function: as far as it can, by the longest way to its `ret`, or by the shortest.
#[derive(Clone, Copy)]
pub enum Mode {
    On,
    Back,
    Least,
}

/// Where a function in progress stands, whether it was called raised, and how the part goes on through it.
#[derive(Clone, Copy)]
pub struct Frame {
    pub point: Point,
    pub whole: bool,
    pub mode: Mode,
}

/// The points of these, the outermost first.
pub fn frame_points(alloc: Global, frames: &[Frame]) -> Result<Vec<Point>> {
    let mut points = Vec::new(alloc);
    for frame in frames {
        push(&mut points, frame.point)?;
    }
    Ok(points)
}

/// The most points of a cycle that is given.
pub const LONGEST: usize = 1_000_000;

// A function that was reached, at its first item, and which one before calls it at which item, if it is not the first.
#[derive(Clone, Copy)]
struct Reached {
    at: Frame,
    before: Option<(usize, usize)>,
}

fn least_frame(func: usize, item: usize, whole: bool) -> Frame {
    let point = Point { func, item };
    let mode = Mode::Least;
    Frame { point, whole, mode }
}

// Reaches what the items of a function call.
fn reach_all(tables: &Tables, reached: &mut Vec<Reached>, turn: usize, from: Frame) -> Result<()> {
    let Some(place) = tables.place(from.point.func, from.whole) else {
        return Ok(());
    };
    for item in 0..place.func.items.items().len() {
        if let Some((func, whole)) = place.call(item) {
            let mut known = reached.as_slice().iter();
            if !known.any(|one| one.at.point.func == func && one.at.whole == whole) {
                let at = least_frame(func, 0, whole);
                let before = Some((turn, item));
                push(reached, Reached { at, before })?;
            }
        }
    }
    Ok(())
}

// The functions in progress at an item of one that was reached: it, and the calls that lead to it; the outermost first.
fn reached_frames(alloc: Global, all: &[Reached], turn: usize, item: usize) -> Result<Vec<Frame>> {
    let mut frames = Vec::new(alloc);
    let mut next = Some((turn, item));
    for _turn in 0..all.len() {
        if let Some((turn, item)) = next {
            if turn < all.len() {
                let mut at = all[turn].at;
                at.point.item = item;
                push(&mut frames, at)?;
                next = all[turn].before;
            }
        }
    }
    frames.reverse();
    Ok(frames)
}

/// The functions in progress at a cycle, the innermost at its first item.
pub fn cycle_start(tables: &Tables, body: usize, whole: bool) -> Result<Vec<Frame>> {
    let alloc = tables.walks.alloc();
    let mut reached = Vec::new(alloc);
    let (at, before) = (least_frame(body, 0, whole), None);
    push(&mut reached, Reached { at, before })?;
    for turn in 0..2 * tables.walks.app().funcs.items().len() + 1 {
        if reached.len() <= turn {
            return Ok(Vec::new(alloc));
        }
        let from = reached[turn].at;
        if let Some(item) = tables.cycle(from.point.func, from.whole).first() {
            return reached_frames(alloc, reached.as_slice(), turn, *item);
        }
        reach_all(tables, &mut reached, turn, from)?;
    }
    Ok(Vec::new(alloc))
}

/// The points of the positions of a cycle, its first item at both ends; through what it calls by the shortest way.
pub fn cycle_points(tables: &Tables, at: Frame) -> Result<Vec<Point>> {
    let alloc = tables.walks.alloc();
    let mut points = Vec::new(alloc);
    let func = at.point.func;
    for item in tables.cycle(func, at.whole) {
        push(&mut points, Point { func, item: *item })?;
        if let Some((other, _raised)) = tables.call(func, at.whole, *item) {
            let mut frames = Vec::new(alloc);
            push(&mut frames, least_frame(other, 0, true))?;
            push_points(tables, &mut points, &mut frames, LONGEST)?;
        }
    }
    push(&mut points, at.point)?;
    Ok(points)
}
