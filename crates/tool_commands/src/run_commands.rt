//! The commands on an image file and arrivals: `at`, `at .. all`, `wave` and `picture`.
ghost use Rattle.std.specs.Prelude.{◌≡◌, ◌≤◌, ℕ, List, IfOk, length};
ghost use Rattle.sloth_base.specs.ImageRange.{InFormat};
ghost use Rattle.sloth_base.specs.Arrivals.{AreArrivals};
ghost use Rattle.sloth_base.specs.Owners.{owners_named};
ghost use Rattle.sloth_base.specs.Limits.{file_limit, picture_limit, count_limit};
ghost use Rattle.sloth_runner.specs.TaskStates.{AreStatesAt};
ghost use Rattle.sloth_runner.specs.declared.task_states.Sight.TheVariants.{At};
ghost use Rattle.command_line.specs.Tools.{IsWindow};
ghost use Rattle.run_inputs.specs.RunInputs.{AreRunInputs};
ghost use Rattle.tool_commands.specs.AtAnswers.{IsAtAnswer, states_answer};
ghost use Rattle.tool_commands.specs.AtAllAnswers.{IsAtAllAnswer, all_text};
ghost use Rattle.tool_commands.specs.PictureAnswers.{IsPictureAnswer};
ghost use Rattle.tool_commands.specs.WaveAnswers.{IsWaveAnswer};

use crate::elf_commands::written;
use crate::response_command::{count_line, states_text};
use command_line::{ToolAnswer, Window, told};
use run_inputs::{RunInputs, Unread, read_run};
use run_samples::{ServiceWords, WordsRead, push_system, words_at};
use schedule_picture::{Picture, draw};
use sloth_base::{Arrival, Image, NoMemory, Result};
use sloth_runner::task_states::Seen;
use sloth_runner::{Runner, Sight};
use std::alloc::Global;
use wave_text::{Recorded, waves};

// The answer to the image and the arrivals that files hold, or what they are not.
macro_rules! run_answer {
    ($read:expr, $run:ident => $answer:expr) => {
        match $read {
            Ok($run) => $answer,
            Err(Unread::NotAnImage(fault)) => Ok(ToolAnswer::NotAnImage(fault)),
            Err(Unread::Refused(refusal)) => Ok(ToolAnswer::Refused(refusal)),
            Err(Unread::NoMemory) => Err(NoMemory),
        }
    };
}

// The answer to what a run of an image shows of its tasks.
fn states_answer(alloc: Global, image: &Image, sight: &Sight) -> Result<ToolAnswer>
    requires { InFormat image.now }
    ensures { IfOk result (λ answer. answer ≡ states_answer image.now sight.now) }
{
    let text = match sight {
        Sight::At(seen) => states_text(alloc, image, seen)?,
        Sight::Booting => Vec::from_slice(alloc, b"booting\n")?,
        Sight::Stopped { pc, stop } => {
            return Ok(ToolAnswer::Stopped {
                pc: *pc,
                stop: *stop,
            });
        }
    };
    Ok(told(alloc, text))
}

// What the run of an image with arrivals shows of its tasks.
fn sight(alloc: Global, image: &Image, arrivals: &[Arrival], k: u32) -> Result<Sight>
    requires format { InFormat image.now }
    requires arrivals { AreArrivals (owners_named image.now) arrivals.now }
    requires k { k ≤ 999999 }
    ensures { IfOk result (AreStatesAt image.now arrivals.now k) }
{
    let mut runner = Runner::new(alloc, image, arrivals)?;
    Ok(runner.state_at(k))
}

#[tactic(auto, using(crate::proofs::AtAnswers::sight_is_answer))]
/// The states of the tasks at the last count up to k of an image file's run with arrivals that finds interrupts open.
pub fn at(alloc: Global, img: &[u8], arr: &[u8], k: u32) -> Result<ToolAnswer>
    requires arr { length arr.now ≤ file_limit }
    requires k { k ≤ 999999 }
    ensures { IfOk result (λ answer. IsAtAnswer img.now arr.now k answer) }
{
    run_answer!(read_run(alloc, img, arr), run => {
        let sight = sight(alloc, &run.image, run.arrivals.as_slice(), k)?;
        let answer = states_answer(alloc, &run.image, &sight)?;
        Ok(answer)
    })
}

// What is printed at a count.
fn all_text(alloc: Global, image: &Image, seen: &Seen, words: &ServiceWords) -> Result<Vec<u8>>
    requires { InFormat image.now }
    ensures { IfOk result (λ text. text.items ≡ all_text image.now seen.now words.now) }
{
    let mut text = Vec::from_slice(alloc, count_line(seen.count).bytes())?;
    push_system(&mut text, image, seen, words)?;
    Ok(text)
}

// The answer where the states of the tasks are seen at a count.
#[tactic(auto, using(crate::proofs::AtAllAnswers::seen_is_answer, crate::proofs::AtAllAnswers::stop_is_answer))]
fn seen_answer(alloc: Global, run: &RunInputs, k: u32, seen: &Seen) -> Result<ToolAnswer>
    requires format { InFormat run.now.image }
    requires arrivals { AreArrivals (owners_named run.now.image) run.now.arrivals.items }
    requires k { k ≤ 999999 }
    requires seen { AreStatesAt run.now.image run.now.arrivals.items k (At seen.now) }
    requires count { seen.now.count ≤ k }
    ensures { (img arr : List ℕ) → AreRunInputs
        img arr run.now.image run.now.arrivals.items → IfOk result (λ answer. IsAtAllAnswer img arr k answer) }
{
    match words_at(alloc, &run.image, run.arrivals.as_slice(), seen.count)? {
        WordsRead::At(words) => {
            let text = all_text(alloc, &run.image, seen, &words)?;
            Ok(told(alloc, text))
        }
        WordsRead::Stopped(halt) => Ok(ToolAnswer::Stopped {
            pc: halt.pc,
            stop: halt.stop,
        }),
    }
}

// The answer to an image and arrivals that were read.
#[tactic(auto, using(crate::proofs::AtAllAnswers::booting_is_answer, crate::proofs::AtAllAnswers::stopped_is_answer))]
fn all_answer(alloc: Global, run: &RunInputs, k: u32) -> Result<ToolAnswer>
    requires format { InFormat run.now.image }
    requires arrivals { AreArrivals (owners_named run.now.image) run.now.arrivals.items }
    requires k { k ≤ 999999 }
    ensures { (img arr : List ℕ) → AreRunInputs
        img arr run.now.image run.now.arrivals.items → IfOk result (λ answer. IsAtAllAnswer img arr k answer) }
{
    match sight(alloc, &run.image, run.arrivals.as_slice(), k)? {
        Sight::At(seen) => seen_answer(alloc, run, k, &seen),
        Sight::Booting => {
            let text = Vec::from_slice(alloc, b"booting\n")?;
            Ok(told(alloc, text))
        }
        Sight::Stopped { pc, stop } => Ok(ToolAnswer::Stopped { pc, stop }),
    }
}

/// States of tasks, counters and alarms at the last count up to k of an image file's run that finds interrupts open.
pub fn at_all(alloc: Global, img: &[u8], arr: &[u8], k: u32) -> Result<ToolAnswer>
    requires arr { length arr.now ≤ file_limit }
    requires k { k ≤ 999999 }
    ensures { IfOk result (λ answer. IsAtAllAnswer img.now arr.now k answer) }
{
    run_answer!(read_run(alloc, img, arr), run => all_answer(alloc, &run, k))
}

/// The waves of n instructions of the run of an image file with arrivals.
pub fn wave(alloc: Global, img: &[u8], arr: &[u8], n: u32) -> Result<ToolAnswer>
    requires arr { length arr.now ≤ file_limit }
    requires n { n ≤ count_limit }
    ensures { IfOk result (λ answer. IsWaveAnswer img.now arr.now n answer) }
{
    run_answer!(read_run(alloc, img, arr), run => match waves(alloc, &run.image, run.arrivals.as_slice(), n)? {
        Recorded::Text(text) => Ok(ToolAnswer::Done(written(alloc, text)?)),
        Recorded::Stopped(halt) => Ok(ToolAnswer::Stopped { pc: halt.pc, stop: halt.stop }),
    })
}

/// The picture of a part of the run of an image file with arrivals.
pub fn picture(alloc: Global, img: &[u8], arr: &[u8], window: Window) -> Result<ToolAnswer>
    requires arr { length arr.now ≤ file_limit }
    requires window { IsWindow count_limit picture_limit window }
    ensures { IfOk result (λ answer. IsPictureAnswer img.now arr.now window answer) }
{
    run_answer!(read_run(alloc, img, arr), run =>
        match draw(alloc, &run.image, run.arrivals.as_slice(), window.from, window.to)? {
            Picture::Text(text) => Ok(ToolAnswer::Done(written(alloc, text)?)),
            Picture::Stopped(halt) => Ok(ToolAnswer::Stopped { pc: halt.pc, stop: halt.stop }),
        })
}
