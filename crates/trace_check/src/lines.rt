//! The lines behind a verdict. The lines in front of one with which the events are no run any more.
//! The verdict on a text of events, and what stands behind it. The answer to a text of events. The command `check`.
ghost use Rattle.std.specs.Prelude.{◌≡◌, ◌+◌, ◌≤◌, ◌++◌, IfOk, OnOk, length, [], false, true, ◌≢◌, ◌<◌, ℕ, List as Bytes};
ghost use Rattle.sloth_base.specs.ImageRange.{AreNames};
ghost use Rattle.trace_check.specs.ReasonLines.{row_line, row_lines, state_lines, verdict_line};
ghost use Rattle.trace_check.specs.TraceText.{AreReadable};
ghost use Rattle.sloth_base.specs.DeclaredNames.{AreNamesOf, counter_names, task_names};
ghost use Rattle.sloth_base.specs.declared.app.App.{App as AnyApp};
ghost use Rattle.sloth_base.specs.declared.config.Config.{Config as AnyConfig};
ghost use Rattle.code_rules.specs.WellFormed.{WellFormed};
ghost use Rattle.trace_check.specs.Verdicts.{IsFirstStray, IsLate};
ghost use Rattle.trace_check.specs.Reasons.{IsStepReason, AreReasons, IsTraceReason};
ghost use Rattle.trace_check.specs.Front.{IsFront};
ghost use Rattle.trace_check.specs.Walk.{IsWalked};
ghost use Rattle.sloth_base.specs.Arrivals.{AreArrivals};
ghost use Rattle.sloth_base.specs.Owners.{owners_in};
ghost use Rattle.sloth_source.specs.Texts.{AreAccepted};
ghost use Rattle.run_inputs.specs.Inputs.{AreArrivalsOf};
ghost use Rattle.trace_check.specs.declared.rows.Verdict.TheVariants as verdict_is;
ghost use Rattle.trace_check.specs.TraceAnswers.{IsTraceAnswer};
ghost use Rattle.sloth_base.specs.Limits.{file_limit};
ghost use Rattle.trace_check.specs.CheckAnswers.{IsCheckAnswer};

use crate::late::{next_event, time_lines};
use crate::walk::Walk;
use crate::{NextEvent, Verdict, next_events};
use command_line::{ToolAnswer, TraceFault, told};
use osek_machine::{NotARun, Osek};
use run_inputs::{Inputs, read_inputs};
use run_samples::state_line;
use sloth_base::config::declared_names;
use sloth_base::{
    App, BuildError, Config, DeclaredNames, List, Name, NoMemory, Refusal, Result, TaskId,
};
use std::alloc::Global;
use text_pieces::pieces::Piece::{Number, Word};
use text_pieces::{behind, line};
use trace_text::{LineText, push_event};

type Lines = Result<Vec<u8>>;

type Told = Result<ToolAnswer>;

#[tactic(auto, unfolding(crate::specs::ReasonLines::row_line))]
fn row_line(names: &DeclaredNames, row: &NextEvent) -> LineText
    requires { AreReadable names.now }
    ensures { result ≡ row_line names.now row.now }
{
    let mut line = LineText::new();
    line.push(b"could ");
    let tasks = names.tasks.items();
    let functions = names.funcs.items();
    let counters = names.counters.items();
    push_event(&mut line, &row.event, tasks, functions, counters);
    if let Some(limit) = row.limit {
        line.push(b" before ");
        line.push_number(limit);
    }
    line.push(b"\n");
    line
}

/// Appends the lines of events that may come next.
pub fn push_rows(text: &mut Vec<u8>, names: &DeclaredNames, rows: &[NextEvent]) -> Result<()>
    requires { AreReadable names.now }
    ensures { OnOk result (text.new.items ≡ text.old.items ++ row_lines names.now rows.now) }
{
    for row in rows {
        text.extend_from_slice(row_line(names, row).bytes())?;
    }
    Ok(())
}

/// Appends the lines of the tasks' states.
pub fn push_states(text: &mut Vec<u8>, names: &[Name], osek: &Osek) -> Result<()>
    requires names { AreNames names.now }
    requires count { length names.now ≡ length osek.now.config.tasks }
    requires few { length names.now ≤ 4294967295 }
    ensures { OnOk result
        (text.new.items ≡ text.old.items ++ state_lines names.now osek.now.system (length names.now)) }
{
    for task in 0..names.len() {
        let state = osek.state(TaskId(task as u32));
        text.extend_from_slice(state_line(names[task].bytes(), false, state).bytes())?;
    }
    Ok(())
}

/// The line of a verdict, and the lines behind it.
pub fn verdict_text(alloc: Global, verdict: Verdict, lines: Vec<u8>) -> Result<List<u8>>
    ensures { IfOk result (λ text. text ≡ verdict_line verdict ++ lines.items) }
{
    let mut text = Vec::new(alloc);
    match verdict {
        Verdict::Yes => line!(&mut text; Word(b"yes\n"))?,
        Verdict::Line(k) => line!(&mut text; Word(b"no "), Number(k), Word(b" line\n"))?,
        Verdict::Step(k) => line!(&mut text; Word(b"no "), Number(k), Word(b" step\n"))?,
        Verdict::Time => line!(&mut text; Word(b"no "), Word(b"time\n"))?,
    }
    text.extend_from_slice(lines.as_slice())?;
    Ok(List::from_vec(text))
}

fn walk_lines(names: &DeclaredNames, walk: &mut Walk, text: &[u8], lines: u32)
    requires { AreReadable names.now }
    ensures { (config : AnyConfig) (app : AnyApp) → AreNamesOf config app names.now → IsWalked config app [] walk.old
        → IsFirstStray config app text.now (lines + 1) → IsFront config app names.now text.now (lines + 1) walk.new }
{
    let mut rest = text;
    for _line in 0..lines {
        let Some(event) = next_event(names, rest) else {
            return;
        };
        match walk.step(&event) {
            Ok(()) => {}
            Err(NotARun) => return,
        }
        rest = behind(rest, b'\n');
    }
}

/// What stands behind a line with which the events are no run any more.
pub fn step_lines(alloc: Global, config: &Config, app: &App, text: &[u8], line: u32) -> Lines
    requires well_formed { WellFormed config.now app.now }
    requires strays { IsFirstStray config.now app.now text.now line }
    ensures { IfOk result (λ lines. IsStepReason config.now app.now text.now line lines.items) }
{
    let names = declared_names(alloc, config, app)?;
    let mut walk = Walk::new(alloc, config, app)?;
    walk_lines(&names, &mut walk, text, line - 1);
    let rows = next_events(alloc, &walk)?;
    let mut lines = Vec::new(alloc);
    push_states(&mut lines, names.tasks.items(), walk.osek())?;
    push_rows(&mut lines, &names, rows.as_slice())?;
    Ok(lines)
}

/// What is said of a configuration, its task source, arrivals and a text of events.
#[derive(Drop)]
pub enum TraceReason {
    /// The inputs are refused.
    Refused(Refusal),
    /// The text is that of a run.
    Yes,
    /// It is not: the line of the verdict, and the lines behind it.
    No(List<u8>),
}

fn is_yes(verdict: Verdict) -> bool
    ensures yes { result ≡ true → verdict ≡ verdict_is.Yes }
    ensures other { result ≡ false → verdict ≢ verdict_is.Yes }
{
    match verdict {
        Verdict::Yes => true,
        Verdict::Line(_) => false,
        Verdict::Step(_) => false,
        Verdict::Time => false,
    }
}

fn lines_behind(alloc: Global, inputs: &Inputs, trace: &[u8], n: u32, verdict: Verdict) -> Lines
    requires well_formed { WellFormed inputs.now.config inputs.now.app }
    requires in_range { AreArrivals (owners_in inputs.now.config) inputs.now.arrivals.items }
    requires short { length trace.now < 4294967295 }
    requires strays { (k : ℕ) → verdict ≡ verdict_is.Step k
        → IsFirstStray inputs.now.config inputs.now.app trace.now k }
    requires late { verdict ≡ verdict_is.Time
        → IsLate inputs.now.config inputs.now.app inputs.now.arrivals.items trace.now n }
    ensures { IfOk result (λ lines.
        AreReasons inputs.now.config inputs.now.app inputs.now.arrivals.items trace.now n verdict lines.items) }
{
    let config = &inputs.config;
    let app = &inputs.app;
    match verdict {
        Verdict::Step(line) => step_lines(alloc, config, app, trace, line),
        Verdict::Yes => Ok(Vec::new(alloc)),
        Verdict::Line(_) => Ok(Vec::new(alloc)),
        Verdict::Time => time_lines(alloc, config, app, inputs.arrivals.as_slice(), trace, n),
    }
}

fn judged(alloc: Global, inputs: &Inputs, trace: &[u8], n: u32) -> Result<TraceReason>
    requires well_formed { WellFormed inputs.now.config inputs.now.app }
    requires in_range { AreArrivals (owners_in inputs.now.config) inputs.now.arrivals.items }
    requires short { length trace.now < 4294967295 }
    ensures { IfOk result (λ r. (oil src arr : Bytes ℕ) → AreAccepted oil src inputs.now.config inputs.now.app
        → AreArrivalsOf (task_names inputs.now.config) (counter_names inputs.now.config) arr inputs.now.arrivals.items
        → IsTraceReason oil src arr trace.now n r) }
{
    let arrivals = inputs.arrivals.as_slice();
    let verdict = crate::rows::check(alloc, &inputs.config, &inputs.app, arrivals, trace, n)?;
    if is_yes(verdict) {
        return Ok(TraceReason::Yes);
    }
    let lines = lines_behind(alloc, inputs, trace, n, verdict)?;
    let text = verdict_text(alloc, verdict, lines)?;
    Ok(TraceReason::No(text))
}

/// The verdict on a text of events of n instructions, with the arrivals of a text, and what stands behind it; or the
/// first refusal of the other texts. Texts of at most 4,294,967,294 bytes.
pub fn explain_trace(
    alloc: Global,
    oil: &[u8],
    src: &[u8],
    arr: &[u8],
    trace: &[u8],
    n: u32,
) -> Result<TraceReason>
    requires oil { length oil.now < 4294967295 }
    requires src { length src.now < 4294967295 }
    requires arr { length arr.now < 4294967295 }
    requires trace { length trace.now < 4294967295 }
    ensures { IfOk result (λ r. IsTraceReason oil.now src.now arr.now trace.now n r) }
{
    match read_inputs(alloc, oil, src, arr) {
        Ok(inputs) => judged(alloc, &inputs, trace, n),
        Err(BuildError::Refused(refusal)) => Ok(TraceReason::Refused(refusal)),
        Err(BuildError::Memory) => Err(NoMemory),
    }
}

/// What is said of a configuration, its task source, arrivals and a text of events.
#[derive(Clone, Copy)]
pub enum TraceAnswer {
    /// The inputs are refused.
    Refused(Refusal),
    /// They are accepted, and this is the verdict on the text.
    Judged(Verdict),
}

/// The verdict on a text of events of n instructions, with a text of arrivals; or the first refusal of the other texts.
pub fn judge_trace(
    alloc: Global,
    oil: &[u8],
    src: &[u8],
    arr: &[u8],
    trace: &[u8],
    n: u32,
) -> Result<TraceAnswer>
    requires oil { length oil.now < 4294967295 }
    requires src { length src.now < 4294967295 }
    requires arr { length arr.now < 4294967295 }
    requires trace { length trace.now < 4294967295 }
    ensures { IfOk result (λ a. IsTraceAnswer oil.now src.now arr.now trace.now n a) }
{
    let inputs = match read_inputs(alloc, oil, src, arr) {
        Ok(inputs) => inputs,
        Err(BuildError::Refused(refusal)) => return Ok(TraceAnswer::Refused(refusal)),
        Err(BuildError::Memory) => return Err(NoMemory),
    };
    let arrivals = inputs.arrivals.as_slice();
    let verdict = crate::rows::check(alloc, &inputs.config, &inputs.app, arrivals, trace, n)?;
    Ok(TraceAnswer::Judged(verdict))
}

/// Whether a text of events is a run's of n instructions, or where it fails to be; or the other texts' first refusal.
pub fn check(alloc: Global, oil: &[u8], src: &[u8], arr: &[u8], text: &[u8], n: u32) -> Told
    requires oil { length oil.now ≤ file_limit }
    requires src { length src.now ≤ file_limit }
    requires arr { length arr.now ≤ file_limit }
    requires text { length text.now ≤ file_limit }
    ensures { IfOk result (λ answer. IsCheckAnswer oil.now src.now arr.now text.now n answer) }
{
    match judge_trace(alloc, oil, src, arr, text, n)? {
        TraceAnswer::Refused(refusal) => Ok(ToolAnswer::Refused(refusal)),
        TraceAnswer::Judged(Verdict::Yes) => Ok(told(alloc, Vec::from_slice(alloc, b"yes\n")?)),
        TraceAnswer::Judged(Verdict::Line(k)) => Ok(ToolAnswer::BadTrace(TraceFault::Line(k))),
        TraceAnswer::Judged(Verdict::Step(k)) => Ok(ToolAnswer::BadTrace(TraceFault::Step(k))),
        TraceAnswer::Judged(Verdict::Time) => Ok(ToolAnswer::BadTrace(TraceFault::Time)),
    }
}
