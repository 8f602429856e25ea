//! What steps and continues make of a session.
//! The events around a count: lines without those of an idle behind an idle, on each side of it.
ghost use Rattle.std.specs.Prelude.{◌≡◌, ◌≤◌, ◌++◌, ◌-◌, map, OnOk, length, take, drop, ◌∷◌, [], IfOk, false, if◌then◌else◌};
ghost use Rattle.debug_ways.specs.Cursor.{cursor_run};
ghost use Rattle.debug_ways.specs.Wishes.{wanted_wish};
ghost use Rattle.debug_ways.specs.Standing.{selected_in, step_wish, has_met, stepped_count, stepped, continued, moved};
ghost use Rattle.text_pieces.specs.Names.{referent};
ghost use Rattle.debug_ways.specs.Around.{lines_text, side, events_text, merged_from, merged, is_idle, is_aside, sided};

use crate::points::breakpoint_kind;
use crate::standing::{
    Standing, Step, interrupted, is_end, is_step, lesser, plain_told, running_thread, selected,
    step_target, step_told,
};
use crate::{
    Cause, Cursor, Look, Machine, Passage, Point, Put, Target, Wanted, go_ahead, is_own, passage,
};
use sloth_base::{COUNT_LIMIT, Result};
use std::alloc::Global;
use text_pieces::pieces::Piece::{Number, Word};
use text_pieces::{before, behind, line, push, same, split, value};

fn step_wanted<'a>(points: &'a [Point], step: &Step, look: &Look) -> Wanted<'a>
    ensures { wanted_wish result ≡ step_wish points.now step.now look.now }
{
    let none = step.alone || step.backwards;
    Wanted {
        points,
        target: step_target(step, look),
        from: if none { 0 } else { step.from },
        to: if none { 0 } else { step.to },
    }
}

fn has_met(stops: bool, standing: &Standing, backwards: bool, cause: Cause) -> bool
    ensures { result ≡ has_met stops standing.now backwards cause }
{
    if is_end(cause) {
        stops
    } else {
        standing.met && (!backwards || standing.count == 0)
    }
}

// The count that a step leads to: where a service begins that it goes over, the one at which its thread goes on, if it
// does. The own instruction was at the count that the step came from.
fn stepped_count<M: Machine>(
    cursor: &mut Cursor<M>,
    points: &[Point],
    step: &Step,
    look: &Look,
    there: &Passage,
) -> u32
    requires { there.now.count ≤ (cursor_run M.run cursor.old).end }
    ensures count { result ≡ stepped_count (cursor_run M.run cursor.old) points.now step.now look.now there.now }
    ensures within { result ≤ (cursor_run M.run cursor.old).end }
    ensures run { cursor_run M.run cursor.new ≡ cursor_run M.run cursor.old }
{
    let start = there.count;
    if !step.alone || step.backwards || !is_own(step.thread, look) || !is_step(there.cause) {
        return start;
    }
    if !cursor.look(start).serves {
        return start;
    }
    let target = Target::Behind(step.thread, look.pc);
    let wanted = Wanted {
        points,
        target,
        from: 0,
        to: 0,
    };
    let found = go_ahead(cursor, &wanted, start);
    let last = cursor.look(found);
    if found != start && breakpoint_kind(points, last.pc).is_none() && is_own(step.thread, &last) {
        found
    } else {
        start
    }
}

/// Behind a step.
pub fn stepped<M: Machine>(
    cursor: &mut Cursor<M>,
    points: &[Point],
    step: &Step,
    standing: &Standing,
) -> Standing
    requires { standing.now.count ≤ (cursor_run M.run cursor.old).end }
    ensures stepped { result ≡ selected_in (cursor_run M.run cursor.old) (stepped (cursor_run M.run cursor.old)
        points.now step.now standing.now) }
    ensures within { result.count ≤ (cursor_run M.run cursor.old).end }
    ensures run { cursor_run M.run cursor.new ≡ cursor_run M.run cursor.old }
{
    let look = cursor.look(standing.count);
    if standing.interrupted {
        let thread = if step.alone { step.thread } else { 0 };
        return selected(&interrupted(standing, thread), &look);
    }
    if step.alone && step.thread >= 2 && running_thread(&look) != step.thread {
        let mut next = *standing;
        next.told = plain_told(Cause::Step, step.thread);
        return selected(&next, &look);
    }
    let wanted = step_wanted(points, step, &look);
    let there = passage(cursor, step.backwards, &wanted, standing.count);
    let stops = cursor.stop().is_some();
    let count = stepped_count(cursor, points, step, &look, &there);
    let last = cursor.look(count);
    let cause = if step.alone && is_end(there.cause) && !stops {
        Cause::Step
    } else {
        there.cause
    };
    let mut next = *standing;
    next.count = count;
    next.told = step_told(step, running_thread(&last), cause);
    next.met = has_met(stops, standing, step.backwards, there.cause);
    selected(&next, &last)
}

/// Behind a continue.
pub fn continued<M: Machine>(
    cursor: &mut Cursor<M>,
    points: &[Point],
    backwards: bool,
    standing: &Standing,
) -> Standing
    requires { standing.now.count ≤ (cursor_run M.run cursor.old).end }
    ensures continued { result ≡ selected_in (cursor_run M.run cursor.old) (continued (cursor_run M.run cursor.old)
        points.now backwards standing.now) }
    ensures within { result.count ≤ (cursor_run M.run cursor.old).end }
    ensures run { cursor_run M.run cursor.new ≡ cursor_run M.run cursor.old }
{
    if standing.interrupted {
        let look = cursor.look(standing.count);
        return selected(&interrupted(standing, 0), &look);
    }
    let stops = cursor.stop().is_some();
    let wanted = Wanted {
        points,
        target: Target::Nothing,
        from: 0,
        to: 0,
    };
    let there = passage(cursor, backwards, &wanted, standing.count);
    let last = cursor.look(there.count);
    let mut next = *standing;
    next.count = there.count;
    next.told = plain_told(there.cause, 0);
    next.met = has_met(stops, standing, backwards, there.cause);
    selected(&next, &last)
}

/// At a count, or at the end of the run where that comes before.
pub fn moved<M: Machine>(cursor: &Cursor<M>, count: u32, standing: &Standing) -> Standing
    ensures moved { result ≡ moved (cursor_run M.run cursor.now) count standing.now }
    ensures within { result.count ≤ (cursor_run M.run cursor.now).end }
{
    let end = cursor.end();
    let mut next = *standing;
    next.told = plain_told(Cause::Step, 0);
    if end < count {
        next.count = end;
        next.met = cursor.stop().is_some();
    } else {
        next.count = count;
        next.met = standing.met && count == standing.count;
    }
    next
}

/// How many lines stand on each side.
const SIDE: usize = 8;

/// How many counts behind the own one the events are shown of.
const TRACE_COUNTS: u32 = 1_000;

fn push_lines(out: &mut Vec<u8>, lines: &[&[u8]]) -> Put
    ensures { OnOk result (out.new.items ≡ out.old.items ++ lines_text (map referent lines.now)) }
{
    for line in lines {
        line!(out; Word(*line), Word(b"\n"))?;
    }
    Ok(())
}

fn last<'a, 'b>(lines: &'b [&'a [u8]]) -> &'b [&'a [u8]]
    ensures { map referent result.now ≡ drop (length (map referent lines.now) - side) (map referent lines.now) }
{
    &lines[lines.len().saturating_sub(SIDE)..]
}

fn first<'a, 'b>(lines: &'b [&'a [u8]]) -> &'b [&'a [u8]]
    ensures { map referent result.now ≡ take side (map referent lines.now) }
{
    if lines.len() < SIDE {
        return lines;
    }
    &lines[..SIDE]
}

/// Puts the events around a count.
pub fn push_events<M: Machine>(alloc: Global, out: &mut Vec<u8>, cursor: &Cursor<M>, at: u32) -> Put
    ensures { OnOk result (out.new.items ≡ out.old.items ++ events_text (cursor_run M.run cursor.now) at) }
{
    let mut text = Vec::new(alloc);
    let end = lesser(COUNT_LIMIT, at.saturating_add(TRACE_COUNTS));
    cursor.put_trace(alloc, &mut text, end)?;
    let lines = merged(alloc, text.as_slice())?;
    let front = sided(alloc, true, at, lines.as_slice())?;
    push_lines(out, last(front.as_slice()))?;
    line!(out; Word(b"count "), Number(at), Word(b"\n"))?;
    let rest = sided(alloc, false, at, lines.as_slice())?;
    push_lines(out, first(rest.as_slice()))
}

fn is_idle(line: &[u8]) -> bool
    ensures { result ≡ is_idle line.now }
{
    same(behind(behind(line, b' '), b' '), b"idle")
}

fn keep<'a>(lines: &mut Vec<&'a [u8]>, line: &'a [u8], left_out: bool) -> Put
    ensures { OnOk result (map referent lines.new.items
        ≡ (if left_out then map referent lines.old.items else map referent lines.old.items ++ line.now ∷ [])) }
{
    if left_out {
        return Ok(());
    }
    push(lines, line)
}

fn merged_parts<'a>(alloc: Global, parts: &[&'a [u8]]) -> Result<Vec<&'a [u8]>>
    ensures { IfOk result (λ lines. map referent lines.items
        ≡ merged_from false (map referent (take (length parts.now - 1) parts.now))) }
{
    let mut lines = Vec::new(alloc);
    let mut after_idle = false;
    let whole = parts.len().saturating_sub(1);
    for part in &parts[..whole] {
        let idle = is_idle(*part);
        keep(&mut lines, *part, after_idle && idle)?;
        after_idle = idle;
    }
    Ok(lines)
}

/// The lines of a text, without those of an idle directly behind an idle.
pub fn merged<'a>(alloc: Global, text: &'a [u8]) -> Result<Vec<&'a [u8]>>
    ensures { IfOk result (λ lines. map referent lines.items ≡ merged text.now) }
{
    let parts = split(alloc, text, b'\n')?;
    let lines = merged_parts(alloc, parts.as_slice())?;
    Ok(lines)
}

// Whether a line is left out where the lines of events are asked for that end before a count, or those of the others.
fn is_aside(before_count: bool, count: u32, line: &[u8]) -> bool
    ensures { result ≡ is_aside before_count count line.now }
{
    let ends_before = value(before(behind(line, b' '), b' '), 10) < u64::from(count);
    if before_count {
        !ends_before
    } else {
        ends_before
    }
}

/// The lines of events that end before a count, or those of the others.
pub fn sided<'a>(alloc: Global, past: bool, count: u32, lines: &[&'a [u8]]) -> Result<Vec<&'a [u8]>>
    ensures { IfOk result (λ kept. map referent kept.items ≡ sided past count (map referent lines.now)) }
{
    let mut kept = Vec::new(alloc);
    for line in lines {
        keep(&mut kept, *line, is_aside(past, count, *line))?;
    }
    Ok(kept)
}
