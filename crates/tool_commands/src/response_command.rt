//! The command `response`. What is printed of the tasks' states at a count of a run.
ghost use Rattle.std.specs.Prelude.{◌≡◌, ◌≤◌, IfOk, length, ◌<◌, ◌+◌, ◌++◌};
ghost use Rattle.sloth_base.specs.Limits.{count_limit, file_limit};
ghost use Rattle.tool_commands.specs.ResponseAnswers.{IsResponseAnswer, IsTaskResponseAnswer, IsRunResponseAnswer, response_answer, run_answer};
ghost use Rattle.sloth_base.specs.ImageRange.{InFormat};
ghost use Rattle.tool_commands.specs.StatesText.{state_text, task_line, count_line, states_text};

use command_line::{Outcome, ToolAnswer};
use osek_scheduler::TaskState;
use response_text::{Told, response_parts, response_text};
use run_load::{ToldRun, run_text};
use sloth_base::{BuildError, Image, List, NoMemory, Result, TASK_LIMIT};
use sloth_runner::task_states::Seen;
use std::alloc::Global;
use trace_text::LineText;

// What is told, as an answer.
fn response_answer(alloc: Global, told: Told) -> ToolAnswer
    ensures { result ≡ response_answer told }
{
    let Told { text, is_open } = told;
    if is_open {
        return ToolAnswer::Unmet(text);
    }
    ToolAnswer::Done(Outcome {
        file: List::from_vec(Vec::new(alloc)),
        text,
    })
}

#[tactic(auto, using(crate::proofs::ResponseAnswers::told_answer))]
/// How soon each task of two texts has left the processor in runs that keep the load of a third; or the first refusal.
pub fn response(alloc: Global, oil: &[u8], src: &[u8], load: &[u8]) -> Result<ToolAnswer>
    requires oil { length oil.now ≤ file_limit }
    requires src { length src.now ≤ file_limit }
    requires load { length load.now ≤ file_limit }
    ensures { IfOk result (λ answer. IsResponseAnswer oil.now src.now load.now answer) }
{
    answer!(response_text(alloc, oil, src, load), told => Ok(response_answer(alloc, told)))
}

#[tactic(auto, using(crate::proofs::ResponseAnswers::task_told_answer))]
/// How soon the task of this name has left the processor, and of what that is made; or the first refusal.
pub fn task_response(
    alloc: Global,
    oil: &[u8],
    src: &[u8],
    load: &[u8],
    name: &[u8],
) -> Result<ToolAnswer>
    requires oil { length oil.now ≤ file_limit }
    requires src { length src.now ≤ file_limit }
    requires load { length load.now ≤ file_limit }
    ensures { IfOk result (λ answer. IsTaskResponseAnswer oil.now src.now load.now name.now answer) }
{
    match response_parts(alloc, oil, src, load, name) {
        Ok(Some(told)) => Ok(response_answer(alloc, told)),
        Ok(None) => Ok(ToolAnswer::NoTask),
        Err(BuildError::Refused(refusal)) => Ok(ToolAnswer::Refused(refusal)),
        Err(BuildError::Memory) => Err(NoMemory),
    }
}

// What is told of a run, as an answer.
fn run_answer(alloc: Global, told: ToldRun) -> ToolAnswer
    ensures { result ≡ run_answer told }
{
    let ToldRun { text, keeps } = told;
    if !keeps {
        return ToolAnswer::Unmet(text);
    }
    ToolAnswer::Done(Outcome {
        file: List::from_vec(Vec::new(alloc)),
        text,
    })
}

#[tactic(auto, using(crate::proofs::ResponseAnswers::run_told_answer))]
/// Whether a run of n instructions of two texts, with the arrivals of the last one, keeps the load of the third, and
/// the longest responses that are seen in it; or the first refusal.
pub fn run_response(
    alloc: Global,
    oil: &[u8],
    src: &[u8],
    load: &[u8],
    arr: &[u8],
    n: u32,
) -> Result<ToolAnswer>
    requires oil { length oil.now ≤ file_limit }
    requires src { length src.now ≤ file_limit }
    requires load { length load.now ≤ file_limit }
    requires arr { length arr.now ≤ file_limit }
    requires few { n ≤ count_limit }
    ensures { IfOk result (λ answer. IsRunResponseAnswer oil.now src.now load.now arr.now n answer) }
{
    answer!(run_text(alloc, oil, src, load, arr, n), told => Ok(run_answer(alloc, told)))
}

// Appends the word of a state, and the events that a task waits for.
fn push_state(line: &mut LineText, state: TaskState)
    requires { length line.old ≤ 65 }
    ensures state { line.new ≡ line.old ++ state_text state }
    ensures short { length line.new ≤ length line.old + 18 }
{
    match state {
        TaskState::Suspended => line.push(b"suspended"),
        TaskState::Ready => line.push(b"ready"),
        TaskState::Active => line.push(b"active"),
        TaskState::Waiting(mask) => {
            line.push(b"waiting ");
            line.push_number(mask);
        }
    }
}

// The line of a task.
#[tactic(auto, unfolding(crate::specs::StatesText::task_line))]
fn task_line(image: &Image, states: &[TaskState; TASK_LIMIT], task: usize) -> LineText
    requires format { InFormat image.now }
    requires there { task < length image.now.tasks }
    ensures { result ≡ task_line image.now states.now task }
{
    let mut line = LineText::new();
    line.push(image.tasks.items()[task].bytes());
    line.push(b" ");
    push_state(&mut line, states[task]);
    line.push(b"\n");
    line
}

// The line of a count.
#[tactic(auto, unfolding(crate::specs::StatesText::count_line))]
pub(crate) fn count_line(count: u32) -> LineText
    ensures { result ≡ count_line count }
{
    let mut line = LineText::new();
    line.push(b"count ");
    line.push_number(count);
    line.push(b"\n");
    line
}

/// What is printed of the tasks' states at a count of a run: the count, and a line for each task of the image.
pub fn states_text(alloc: Global, image: &Image, seen: &Seen) -> Result<Vec<u8>>
    requires { InFormat image.now }
    ensures { IfOk result (λ text. text.items ≡ states_text image.now seen.now) }
{
    let mut text = Vec::from_slice(alloc, count_line(seen.count).bytes())?;
    for task in 0..image.tasks.items().len() {
        text.extend_from_slice(task_line(image, &seen.tasks, task).bytes())?;
    }
    Ok(text)
}
