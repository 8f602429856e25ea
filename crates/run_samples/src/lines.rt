//! What is printed of a whole system at a count of a run.
ghost use Rattle.std.specs.Prelude.{◌≡◌, ◌<◌, ◌+◌, ◌≤◌, ◌++◌, [], OnOk, get_or, length};
ghost use Rattle.sloth_base.specs.ImageRange.{InFormat};
ghost use Rattle.sloth_base.specs.Limits.{name_limit, alarm_limit};
ghost use Rattle.run_samples.specs.SystemText.{shown_state, state_line, events_line, task_part, task_parts};
ghost use Rattle.run_samples.specs.SystemText.{counter_line, counter_lines, alarm_line, alarm_lines, system_text};

use crate::ServiceWords;
use osek_scheduler::TaskState;
use sloth_base::{ALARM_LIMIT, Image, Result};
use sloth_runner::task_states::Seen;
use text_pieces::line;
use text_pieces::pieces::Piece::{Number, Word};
use trace_text::LineText;

// Appends the word of a state, and the events that a task waits for.
fn push_shown(line: &mut LineText, state: TaskState, runs: bool)
    requires { length line.old ≤ 65 }
    ensures state { line.new ≡ line.old ++ shown_state runs state }
    ensures short { length line.new ≤ length line.old + 18 }
{
    match state {
        TaskState::Suspended => line.push(b"suspended"),
        TaskState::Ready => line.push(b"ready"),
        TaskState::Active if runs => line.push(b"running"),
        TaskState::Active => line.push(b"active"),
        TaskState::Waiting(mask) => {
            line.push(b"waiting ");
            line.push_number(mask);
        }
    }
}

/// The line of a task, by its name; that of one that is Active says whether it runs.
#[tactic(auto, unfolding(crate::specs::SystemText::state_line))]
pub fn state_line(name: &[u8], runs: bool, state: TaskState) -> LineText
    requires { length name.now ≤ name_limit }
    ensures { result ≡ state_line name.now runs state }
{
    let mut line = LineText::new();
    line.push(name);
    line.push(b" ");
    push_shown(&mut line, state, runs);
    line.push(b"\n");
    line
}

// Appends the line of the events that are set, if one is.
#[tactic(auto, unfolding(crate::specs::SystemText::events_line))]
fn push_events(text: &mut Vec<u8>, mask: u32) -> Result<()>
    ensures { OnOk result (text.new.items ≡ text.old.items ++ events_line mask) }
{
    if mask == 0 {
        return Ok(());
    }
    line!(text; Word(b"  events "), Number(mask), Word(b"\n"))
}

#[tactic(auto, unfolding(crate::specs::SystemText::task_part))]
fn push_task(
    text: &mut Vec<u8>,
    image: &Image,
    seen: &Seen,
    words: &ServiceWords,
    task: usize,
) -> Result<()>
    requires format { InFormat image.now }
    requires task { task < length image.now.tasks }
    ensures { OnOk result (text.new.items ≡ text.old.items ++ task_part image.now seen.now words.now task) }
{
    let name = image.tasks.items()[task].bytes();
    let runs = seen.running == task as u32 + 1;
    text.extend_from_slice(state_line(name, runs, seen.tasks[task]).bytes())?;
    push_events(text, words.events[task])
}

#[tactic(auto, unfolding(crate::specs::SystemText::counter_line))]
fn push_counter(text: &mut Vec<u8>, image: &Image, words: &ServiceWords, place: usize) -> Result<()>
    requires format { InFormat image.now }
    requires place { place < length image.now.counters }
    ensures { OnOk result (text.new.items ≡ text.old.items ++ counter_line (get_or image.now.counters place [])
        (get_or words.now.counters place 0)) }
{
    let name = image.counters.items()[place].bytes();
    line!(text; Word(b"counter "), Word(name), Word(b" "), Number(words.counters[place]), Word(b"\n"))
}

// Appends the line of an alarm, if it is in use.
#[tactic(auto, unfolding(crate::specs::SystemText::alarm_line))]
fn push_alarm(text: &mut Vec<u8>, words: &ServiceWords, alarm: usize) -> Result<()>
    requires { alarm < alarm_limit }
    ensures { OnOk result (text.new.items ≡ text.old.items ++ alarm_line alarm (get_or words.now.alarms alarm 0)) }
{
    let left = words.alarms[alarm];
    if left == 0 {
        return Ok(());
    }
    line!(text; Word(b"alarm "), Number(alarm as u32), Word(b" "), Number(left), Word(b"\n"))
}

fn push_tasks(text: &mut Vec<u8>, image: &Image, seen: &Seen, words: &ServiceWords) -> Result<()>
    requires { InFormat image.now }
    ensures { OnOk result (text.new.items
        ≡ text.old.items ++ task_parts image.now seen.now words.now (length image.now.tasks)) }
{
    for task in 0..image.tasks.items().len() {
        push_task(text, image, seen, words, task)?;
    }
    Ok(())
}

fn push_counters(text: &mut Vec<u8>, image: &Image, words: &ServiceWords) -> Result<()>
    requires { InFormat image.now }
    ensures { OnOk result (text.new.items
        ≡ text.old.items ++ counter_lines image.now words.now (length image.now.counters)) }
{
    for counter in 0..image.counters.items().len() {
        push_counter(text, image, words, counter)?;
    }
    Ok(())
}

fn push_alarms(text: &mut Vec<u8>, words: &ServiceWords) -> Result<()>
    ensures { OnOk result (text.new.items ≡ text.old.items ++ alarm_lines words.now alarm_limit) }
{
    for alarm in 0..ALARM_LIMIT {
        push_alarm(text, words, alarm)?;
    }
    Ok(())
}

/// Appends what is printed of a system at a count: each task with its events, each counter, each alarm that is in use.
pub fn push_system(
    text: &mut Vec<u8>,
    image: &Image,
    seen: &Seen,
    words: &ServiceWords,
) -> Result<()>
    requires { InFormat image.now }
    ensures { OnOk result (text.new.items ≡ text.old.items ++ system_text image.now seen.now words.now) }
{
    push_tasks(text, image, seen, words)?;
    push_counters(text, image, words)?;
    push_alarms(text, words)
}
