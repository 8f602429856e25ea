//! Breakpoints and watchpoints. Where ways end, and why.
ghost use Rattle.std.specs.Prelude.{◌≡◌, OnOk, ◌≤◌};
ghost use Rattle.debug_ways.specs.Points.{is_point, is_among, breakpoint_kind, meets, first_watch, watched, with_point, without_point};
ghost use Rattle.debug_ways.specs.Cursor.{cursor_run};
ghost use Rattle.debug_ways.specs.Causes.{cause_by_watch, stop_cause, watched_before, passage};
ghost use Rattle.debug_ways.specs.Wishes.{wanted_wish};

use crate::standing::{Cause, Passage, Wanted};
use crate::{Access, Cursor, Look, Machine, go_ahead, go_back};
use sloth_base::{NoMemory, Result};

/// The most points that there may be.
const POINT_LIMIT: usize = 1_000;

/// A breakpoint at an address (kinds 0, 1) or a watchpoint of stores (2), loads (3) or both (4) at `length` from it on.
#[derive(Clone, Copy)]
pub struct Point {
    pub kind: u8,
    pub address: u32,
    pub length: u32,
}

/// A watchpoint that an access meets: its kind, and the first address in common.
#[derive(Clone, Copy)]
pub struct Watch {
    pub kind: u8,
    pub address: u32,
}

fn is_point(one: &Point, other: &Point) -> bool
    ensures { result ≡ is_point one.now other.now }
{
    one.kind == other.kind && one.address == other.address && one.length == other.length
}

/// Whether a point is among others.
pub fn is_among(point: &Point, points: &[Point]) -> bool
    ensures { result ≡ is_among point.now points.now }
{
    for other in points {
        if is_point(point, other) {
            return true;
        }
    }
    false
}

/// The kind of the first breakpoint at an address.
pub fn breakpoint_kind(points: &[Point], pc: u32) -> Option<u8>
    ensures { result ≡ breakpoint_kind points.now pc }
{
    for point in points {
        if point.kind < 2 && point.address == pc {
            return Some(point.kind);
        }
    }
    None
}

fn meets(point: &Point, access: &Access) -> bool
    ensures { result ≡ meets point.now access.now }
{
    (point.kind == 4 || point.kind == if access.stores { 2 } else { 3 })
        && u64::from(access.address) < u64::from(point.address) + u64::from(point.length)
        && u64::from(point.address) < u64::from(access.address) + u64::from(access.length)
}

fn first_watch(points: &[Point], access: &Access) -> Option<Watch>
    ensures { result ≡ first_watch points.now access.now }
{
    for point in points {
        if meets(point, access) {
            let (one, other) = (point.address, access.address);
            let address = if one < other { other } else { one };
            let kind = point.kind;
            return Some(Watch { kind, address });
        }
    }
    None
}

/// The first watchpoint that an instruction meets.
pub fn watched(points: &[Point], access: &Option<Access>) -> Option<Watch>
    ensures { result ≡ watched points.now access.now }
{
    match access {
        Some(access) => first_watch(points, access),
        None => None,
    }
}

/// Sets a point, unless it is there or there are too many.
pub fn set_point(points: &mut Vec<Point>, point: &Point) -> Result<()>
    ensures { OnOk result (points.new.items ≡ with_point points.old.items point.now) }
{
    if is_among(point, points.as_slice()) || points.len() >= POINT_LIMIT {
        return Ok(());
    }
    points.push(*point).map_err(|_| NoMemory)
}

/// Takes a point away, if it is there.
pub fn take_point(points: &mut Vec<Point>, point: &Point)
    ensures { points.new.items ≡ without_point points.old.items point.now }
{
    points.retain(|other| !is_point(point, other));
}

fn cause_by_watch(watch: &Option<Watch>, cause: Cause) -> Cause
    ensures { result ≡ cause_by_watch watch.now cause }
{
    match watch {
        Some(watch) => Cause::Watch(watch.kind, watch.address),
        None => cause,
    }
}

fn stop_cause(wanted: &Wanted, look: &Look) -> Option<Cause>
    ensures { result ≡ stop_cause (wanted_wish wanted.now) look.now }
{
    match breakpoint_kind(wanted.points, look.pc) {
        Some(kind) => Some(Cause::Break(kind)),
        None => wanted.is_reached(look).then_some(Cause::Step),
    }
}

fn watched_before<M: Machine>(cursor: &mut Cursor<M>, wanted: &Wanted, count: u32) -> Option<Watch>
    requires { count ≤ (cursor_run M.run cursor.old).end }
    ensures watch { result ≡ watched_before (wanted_wish wanted.now) (cursor_run M.run cursor.old) count }
    ensures run { cursor_run M.run cursor.new ≡ cursor_run M.run cursor.old }
{
    if count == 0 {
        return None;
    }
    watched(wanted.points, &cursor.look(count - 1).access)
}

/// The way from a count, forward or back. A machine goes back for an access alone where nothing else ends the way.
pub fn passage<M: Machine>(cursor: &mut Cursor<M>, back: bool, wish: &Wanted, from: u32) -> Passage
    requires { from ≤ (cursor_run M.run cursor.old).end }
    ensures passage { result ≡ passage back (wanted_wish wish.now) (cursor_run M.run cursor.old) from }
    ensures within { result.count ≤ (cursor_run M.run cursor.old).end }
    ensures run { cursor_run M.run cursor.new ≡ cursor_run M.run cursor.old }
{
    if back {
        let before = watched_before(cursor, wish, from);
        let count = go_back(cursor, wish, from);
        let last = cursor.look(count);
        let cause = if from == 0 {
            Cause::Begin
        } else {
            match stop_cause(wish, &last) {
                Some(cause) => cause,
                None => cause_by_watch(&watched_before(cursor, wish, count), Cause::Begin),
            }
        };
        let cause = cause_by_watch(&before, cause);
        Passage { count, cause }
    } else {
        let first = cursor.look(from);
        let count = go_ahead(cursor, wish, from);
        let last = cursor.look(count);
        let cause = if count == from {
            Cause::End
        } else {
            match stop_cause(wish, &last) {
                Some(cause) => cause,
                None => cause_by_watch(&watched(wish.points, &last.access), Cause::End),
            }
        };
        let cause = cause_by_watch(&watched(wish.points, &first.access), cause);
        Passage { count, cause }
    }
}
