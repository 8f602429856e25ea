//! The lines behind the verdict that events are not in time. The first event line of a text in the counted form.
//! Why the events of a run are not in time.
ghost use Rattle.std.specs.Prelude.{◌≡◌, ◌<◌, ◌≤◌, IfOk, All, length, List as Items, IfSome, IfNone, ◌==◌, ◌&&◌, true, false};
ghost use Rattle.code_rules.specs.WellFormed.{WellFormed};
ghost use Rattle.sloth_base.specs.Arrivals.{AreArrivals};
ghost use Rattle.sloth_base.specs.Owners.{owners_in};
ghost use Rattle.sloth_base.specs.declared.service.Stamped.{Stamped as AnyEvent};
ghost use Rattle.osek_scheduler.specs.InTime.{AreAllAdmitted, admits_at, arrivals_at};
ghost use Rattle.trace_check.specs.Counts.{AreLinesInRange};
ghost use Rattle.trace_check.specs.Lateness.{AreInPlace, IsFirstExtra, IsFirstPassing, IsFrontInPlace, IsLateness, NonePasses, Passes};
ghost use Rattle.trace_check.specs.LatenessLines.{admission_at, lateness_lines, missing_line, place_line};
ghost use Rattle.trace_check.specs.Reasons.{IsTimeReason};
ghost use Rattle.trace_check.specs.Verdicts.{IsLate};
ghost use Rattle.trace_check.specs.TraceText.{AreReadable, IsEventText, HasFirstLine, HasNoFirstLine};
ghost use Rattle.sloth_base.specs.Options.{is_number};
ghost use Rattle.sloth_base.specs.Events.{admitted_line};

use crate::pass::{Pass, admitted_line};
use crate::timing::first_difference;
use sloth_base::config::declared_names;
use sloth_base::{
    App, Arrival, Config, DeclaredNames, Event, FIRST_COUNTER_LINE, Result, Stamp, Stamped,
};
use std::alloc::Global;
use text_pieces::pieces::Piece::{Number, Word};
use text_pieces::{before, behind, has, line, push};
use trace_text::{LineText, push_counts, push_event, read_line};

const FIRST_COUNTER: u32 = FIRST_COUNTER_LINE as u32;

fn read_events(alloc: Global, names: &DeclaredNames, text: &[u8]) -> Result<Vec<Stamped>>
    requires { AreReadable names.now }
    ensures shows { IfOk result
        (λ events. (shown : Items AnyEvent)
        → IsEventText names.now.tasks names.now.funcs names.now.counters shown text.now
        → events.items ≡ shown) }
    ensures few { IfOk result (λ events. length events.items ≤ length text.now) }
{
    let mut events = Vec::new(alloc);
    let mut rest = text;
    while !rest.is_empty() {
        let Some(event) = next_event(names, rest) else {
            return Ok(events);
        };
        push(&mut events, event)?;
        rest = behind(rest, b'\n');
    }
    Ok(events)
}

fn admission(moment: u32, line: u32) -> Stamped
    ensures { result ≡ admission_at moment line }
{
    let event = if line < FIRST_COUNTER {
        Event::Admit(line)
    } else {
        Event::Due(line - FIRST_COUNTER)
    };
    Stamped {
        stamp: Stamp {
            from: moment,
            at: moment,
        },
        event,
    }
}

#[tactic(auto, unfolding(crate::specs::LatenessLines::missing_line))]
fn missing_line(names: &DeclaredNames, moment: u32, line: u32) -> LineText
    requires { AreReadable names.now }
    ensures { result ≡ missing_line names.now moment line }
{
    let admission = admission(moment, line);
    let mut text = LineText::new();
    text.push(b"missing ");
    push_counts(&mut text, &admission);
    let tasks = names.tasks.items();
    let functions = names.funcs.items();
    let counters = names.counters.items();
    push_event(&mut text, &admission.event, tasks, functions, counters);
    text.push(b"\n");
    text
}

#[tactic(auto, unfolding(crate::specs::LatenessLines::place_line))]
fn lateness_lines(alloc: Global, names: &DeclaredNames, reason: Lateness) -> Result<Vec<u8>>
    requires { AreReadable names.now }
    ensures { IfOk result (λ lines. lines.items ≡ lateness_lines names.now reason) }
{
    let mut lines = Vec::new(alloc);
    match reason {
        Lateness::Misplaced(place) | Lateness::Extra(place) => {
            line!(&mut lines; Word(b"line "), Number(place), Word(b"\n"))?;
        }
        Lateness::Passed(place, moment, line) => {
            line!(&mut lines; Word(b"line "), Number(place), Word(b"\n"))?;
            lines.extend_from_slice(missing_line(names, moment, line).bytes())?;
        }
        Lateness::Missing(moment, line) => {
            lines.extend_from_slice(missing_line(names, moment, line).bytes())?;
        }
    }
    Ok(lines)
}

/// What stands behind the verdict that events are not in time.
pub fn time_lines(
    alloc: Global,
    config: &Config,
    app: &App,
    arrivals: &[Arrival],
    text: &[u8],
    n: u32,
) -> Result<Vec<u8>>
    requires well_formed { WellFormed config.now app.now }
    requires in_range { AreArrivals (owners_in config.now) arrivals.now }
    requires short { length text.now < 4294967295 }
    requires late { IsLate config.now app.now arrivals.now text.now n }
    ensures { IfOk result (λ lines. IsTimeReason config.now app.now arrivals.now text.now n lines.items) }
{
    let names = declared_names(alloc, config, app)?;
    let events = read_events(alloc, &names, text)?;
    let reason = late_reason(alloc, n, arrivals, events.as_slice())?;
    lateness_lines(alloc, &names, reason)
}

/// The event of the first line, if an LF ends it.
pub fn next_event(names: &DeclaredNames, text: &[u8]) -> Option<Stamped>
    requires { AreReadable names.now }
    ensures some { IfSome result (λ e. HasFirstLine names.now.tasks names.now.funcs names.now.counters text.now e) }
    ensures none { IfNone result (HasNoFirstLine names.now.tasks names.now.funcs names.now.counters text.now) }
{
    if !has(text, b'\n') {
        return None;
    }
    read_line(
        before(text, b'\n'),
        names.tasks.items(),
        names.funcs.items(),
        names.counters.items(),
    )
}

/// Why the events of a run are not in time. A place is the number of an event's line, a line one of the controller.
#[derive(Clone, Copy)]
pub enum Lateness {
    /// With this event stamps, places or the order of admits do not fit.
    Misplaced(u32),
    /// This event admits an arrival more than there are.
    Extra(u32),
    /// Behind the event of this place no admit of an arrival of this moment and line may stand, and one lacks.
    Passed(u32, u32, u32),
    /// An admit of an arrival of this moment and line lacks.
    Missing(u32, u32),
}

fn front_in_place(n: u32, arrivals: &[Arrival], events: &[Stamped]) -> usize
    ensures { IsFrontInPlace n arrivals.now events.now result }
{
    let mut pass = Pass::new(arrivals);
    for i in 0..events.len() {
        if !pass.look(n, &events[i]) {
            return i;
        }
    }
    events.len()
}

fn is_admission(event: &Stamped, moment: u32, line: u32) -> bool
    ensures { result ≡ (is_number line (admitted_line event.now.event) && (event.now.stamp.at == moment)) }
{
    match admitted_line(&event.event) {
        Some(admitted) => admitted == u64::from(line) && event.stamp.at == moment,
        None => false,
    }
}

fn arrival_count(arrivals: &[Arrival], moment: u32, line: u32) -> usize
    ensures { result ≡ arrivals_at moment line arrivals.now }
{
    arrivals
        .iter()
        .filter(|a| u32::from(a.line.0) == line && a.at == moment)
        .count()
}

// The place of the first event that admits an arrival of a moment and a line more than there are.
fn extra_place(arrivals: &[Arrival], events: &[Stamped], moment: u32, line: u32) -> Option<u32>
    requires { length events.now < 4294967295 }
    ensures some { IfSome result (IsFirstExtra arrivals.now events.now moment line) }
    ensures none { IfNone result (admits_at moment line events.now ≤ arrivals_at moment line arrivals.now) }
{
    let wanted = arrival_count(arrivals, moment, line);
    let mut count = 0;
    for i in 0..events.len() {
        if is_admission(&events[i], moment, line) {
            if count == wanted {
                return Some(i as u32 + 1);
            }
            count += 1;
        }
    }
    None
}

// Whether an event that is no admit begins at a moment or behind it.
fn passes(moment: u32, event: &Stamped) -> bool
    ensures is { result ≡ true → Passes moment event.now }
    ensures other { result ≡ false → Passes moment event.now → ⊥ }
{
    match admitted_line(&event.event) {
        Some(_) => false,
        None => moment <= event.stamp.from,
    }
}

fn passing_place(events: &[Stamped], moment: u32) -> Option<u32>
    requires { length events.now < 4294967295 }
    ensures some { IfSome result (IsFirstPassing moment events.now) }
    ensures none { IfNone result (NonePasses moment events.now (length events.now)) }
{
    for i in 0..events.len() {
        if passes(moment, &events[i]) {
            return Some(i as u32 + 1);
        }
    }
    None
}

// Why events are not in time: by the first difference of those in front that are in place.
fn late_reason(alloc: Global, n: u32, arrivals: &[Arrival], events: &[Stamped]) -> Result<Lateness>
    requires short { length events.now < 4294967295 }
    requires admits { AreLinesInRange events.now }
    requires lines { All (λ a. a.line < 4294967296) arrivals.now }
    requires late { AreInPlace n arrivals.now events.now → AreAllAdmitted n arrivals.now events.now → ⊥ }
    ensures { IfOk result (IsLateness n arrivals.now events.now) }
{
    let count = front_in_place(n, arrivals, events);
    let front = &events[..count];
    let number = first_difference(alloc, arrivals, front)?;
    let moment = (number / 4_294_967_296) as u32;
    let line = (number % 4_294_967_296) as u32;
    if moment >= n {
        return Ok(Lateness::Misplaced(count as u32 + 1));
    }
    if let Some(place) = extra_place(arrivals, front, moment, line) {
        return Ok(Lateness::Extra(place));
    }
    if let Some(place) = passing_place(front, moment) {
        return Ok(Lateness::Passed(place, moment, line));
    }
    if count < events.len() {
        return Ok(Lateness::Misplaced(count as u32 + 1));
    }
    Ok(Lateness::Missing(moment, line))
}
