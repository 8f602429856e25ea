//! The first arrival that comes too soon for a load.
ghost use Rattle.std.specs.Prelude.{◌≡◌, ◌-◌, ◌==◌, ◌&&◌, not, cond, length, map, set, Some, IfOk};
ghost use Rattle.text_pieces.specs.Names.{referent};
ghost use Rattle.trace_text.specs.ArrivalsText.{is_comment};
ghost use Rattle.run_load.specs.Soon.{no_lasts, gap, is_soon, first_soon, line_among, line_at};

use crate::watch::moment;
use load_text::{Entry, distance_of};
use sloth_base::{Arrival, LINE_COUNT, Result};
use std::alloc::Global;
use text_pieces::lines;
use trace_text::is_comment;

/// An arrival, by its place among those of a run, and its distance from the one of its line before it; 0 without one.
#[derive(Clone, Copy)]
pub struct EarlyArrival {
    pub place: usize,
    pub line: u8,
    pub gap: u32,
}

fn gap(lasts: &[Option<u32>; LINE_COUNT], arrival: &Arrival) -> Option<u32>
    ensures { result ≡ gap lasts.now arrival.now }
{
    let before = moment(lasts, usize::from(arrival.line.0))?;
    Some(arrival.at.saturating_sub(before))
}

fn is_soon(distance: Option<u32>, gap: Option<u32>) -> bool
    ensures { result ≡ is_soon distance gap }
{
    match (distance, gap) {
        (Some(counts), Some(behind)) => behind < counts,
        (Some(_), None) => false,
        (None, _) => true,
    }
}

fn keep(lasts: &mut [Option<u32>; LINE_COUNT], arrival: &Arrival)
    ensures { lasts.new ≡ set lasts.old arrival.now.line (Some arrival.now.at) }
{
    let place = usize::from(arrival.line.0);
    if place < LINE_COUNT {
        lasts[place] = Some(arrival.at);
    }
}

/// The first arrival that comes too soon.
pub fn first_soon(load: &[Entry], arrivals: &[Arrival]) -> Option<EarlyArrival>
    ensures { result ≡ first_soon load.now no_lasts 0 arrivals.now }
{
    let mut lasts = [None; LINE_COUNT];
    for (place, arrival) in arrivals.iter().enumerate() {
        let line = arrival.line.0;
        let behind = gap(&lasts, arrival);
        if is_soon(distance_of(load, line), behind) {
            let gap = behind.unwrap_or(0);
            return Some(EarlyArrival { place, line, gap });
        }
        keep(&mut lasts, arrival);
    }
    None
}

// Whether the arrival that is looked for stands at the line.
fn is_found(line: &[u8], left: usize) -> bool
    ensures { result ≡ (not (is_comment line.now) && (left == 0)) }
{
    !is_comment(line) && left == 0
}

// How many arrivals are left behind a line at which it does not.
fn left_behind(line: &[u8], left: usize) -> usize
    ensures { result ≡ cond (is_comment line.now) left (left - 1) }
{
    if is_comment(line) {
        left
    } else {
        left.saturating_sub(1)
    }
}

fn line_among(lines: &[&[u8]], place: usize) -> usize
    ensures { result ≡ line_among (length lines.now) place (map referent lines.now) }
{
    let mut left = place;
    for (n, line) in lines.iter().enumerate() {
        if is_found(*line, left) {
            return n + 1;
        }
        left = left_behind(*line, left);
    }
    0
}

/// The number of the line of a text at which the arrival of a place stands.
pub fn line_number(alloc: Global, text: &[u8], place: usize) -> Result<usize>
    ensures { IfOk result (λ number. number ≡ line_at text.now place) }
{
    let lines = lines(alloc, text)?;
    Ok(line_among(lines.as_slice(), place))
}
