//! The task source. Pieces of the texts. A generated application. Draws of a linear congruential generator.
ghost use Rattle.std.specs.Prelude.{◌≡◌, ◌++◌, ◌<◌, ◌≤◌, ◌-◌, ◌^◌, OnOk, IfOk, All, length};
ghost use Rattle.std.specs.List.{flat_map, range_with_len};
ghost use Rattle.sloth_base.specs.Limits.{task_limit, file_limit};
ghost use Rattle.app_gen.specs.Draws.{draw, next_draw};
ghost use Rattle.app_gen.specs.Source.{setting_text, waking_text, first_body, body_head, adding_text, waiting_text, numbered_body, body, source_text};
ghost use Rattle.app_gen.specs.Pieces.{has_event};
ghost use Rattle.sloth_base.specs.Arrivals.{AreArrivals};
ghost use Rattle.app_gen.specs.Oil.{oil_text};
ghost use Rattle.app_gen.specs.Load.{arrivals, owners_of};

use crate::Sample;
use crate::oil::{arrivals, oil_text};
use sloth_base::{List, Result};
use std::alloc::Global;
use std::marker::Model;
use text_pieces::line;
use text_pieces::pieces::Piece::{Number, Word};

#[tactic(auto, unfolding(crate::specs::Source::setting_text, crate::specs::Pieces::number_behind))]
fn put_sets(text: &mut Vec<u8>, task: u32) -> Result<()>
    ensures { OnOk result (text.new.items ≡ text.old.items ++ setting_text task) }
{
    if !has_event(task) {
        return Ok(());
    }
    line!(text; Word(b"SetEvent T"), Number(task), Word(b", E"), Number(task), Word(b"\n"))
}

#[tactic(auto, unfolding(crate::specs::Source::waking_text, crate::specs::Pieces::number_behind))]
fn put_wake(text: &mut Vec<u8>, task: u32) -> Result<()>
    ensures { OnOk result (text.new.items ≡ text.old.items ++ waking_text task) }
{
    line!(text; Word(b"ActivateTask T"), Number(task), Word(b"\n"))?;
    put_sets(text, task)
}

fn put_wakes(text: &mut Vec<u8>, tasks: u32) -> Result<()>
    requires { 1 ≤ tasks }
    ensures { OnOk result (text.new.items ≡ text.old.items ++ flat_map waking_text (range_with_len 1 (tasks - 1))) }
{
    for task in 1..tasks {
        put_wake(text, task)?;
    }
    Ok(())
}

fn put_first_body(text: &mut Vec<u8>, tasks: u32) -> Result<()>
    requires { 1 ≤ tasks }
    ensures { OnOk result (text.new.items ≡ text.old.items ++ first_body tasks) }
{
    text.extend_from_slice(b"task T0\nlabel loop\n")?;
    put_wakes(text, tasks)?;
    text.extend_from_slice(b"j loop\nend\n")?;
    Ok(())
}

#[tactic(auto, unfolding(crate::specs::Source::waiting_text, crate::specs::Pieces::number_behind))]
fn put_waits(text: &mut Vec<u8>, task: u32) -> Result<()>
    ensures { OnOk result (text.new.items ≡ text.old.items ++ waiting_text task) }
{
    if !has_event(task) {
        return Ok(());
    }
    line!(text; Word(b"WaitEvent E"), Number(task), Word(b"\nClearEvent E"), Number(task), Word(b"\n"))
}

#[tactic(auto, unfolding(crate::specs::Source::body_head, crate::specs::Pieces::number_behind))]
fn put_begins(text: &mut Vec<u8>, task: u32, number: u32) -> Result<()>
    ensures { OnOk result (text.new.items ≡ text.old.items ++ body_head task number) }
{
    line!(text; Word(b"task T"), Number(task), Word(b", 2\nli t0, "), Number(number), Word(b"\nsw t0, frame[1]\n"))
}

#[tactic(auto, unfolding(crate::specs::Source::adding_text, crate::specs::Pieces::number_behind))]
fn put_adds(text: &mut Vec<u8>, task: u32) -> Result<()>
    requires { task < 2 ^ 30 }
    ensures { OnOk result (text.new.items ≡ text.old.items ++ adding_text task) }
{
    line!(text; Word(b"GetResource R"), Number(task % 4),
        Word(b"\nlw t1, tab[t0 & 252]\nadd t1, t1, t0\n"), Word(b"sw t1, tab+"), Number(4 * task),
        Word(b"\nReleaseResource R"), Number(task % 4), Word(b"\n"))
}

fn put_body(text: &mut Vec<u8>, task: u32, number: u32) -> Result<()>
    requires { task < 2 ^ 30 }
    ensures { OnOk result (text.new.items ≡ text.old.items ++ numbered_body task number) }
{
    put_begins(text, task, number)?;
    put_adds(text, task)?;
    put_waits(text, task)?;
    text.extend_from_slice(b"lw t2, frame[1]\nTerminateTask\nend\n")?;
    Ok(())
}

// Appends the bodies of all tasks but the first. Each takes a draw.
fn put_bodies(text: &mut Vec<u8>, tasks: u32, draws: &mut Draws) -> Result<()>
    requires { (1 ≤ tasks) × (tasks ≤ task_limit) }
    ensures text { OnOk result
        (text.new.items ≡ text.old.items ++ flat_map (body draws.old) (range_with_len 1 (tasks - 1))) }
    ensures draws { OnOk result (draws.new ≡ draw draws.old (tasks - 1)) }
{
    for task in 1..tasks {
        put_body(text, task, draws.next())?;
    }
    Ok(())
}

/// The task source of an application of so many tasks, which takes a draw for each task but the first.
#[tactic(auto, unfolding(crate::specs::Source::source_text))]
pub fn source_text(alloc: Global, tasks: u32, draws: &mut Draws) -> Result<Vec<u8>>
    requires { (1 ≤ tasks) × (tasks ≤ task_limit) }
    ensures text { IfOk result (λ text. text.items ≡ source_text draws.old tasks) }
    ensures draws { OnOk result (draws.new ≡ draw draws.old (tasks - 1)) }
{
    let mut text = Vec::new(alloc);
    text.extend_from_slice(b"data tab, 256\n")?;
    put_first_body(&mut text, tasks)?;
    put_bodies(&mut text, tasks, draws)?;
    Ok(text)
}

/// Whether a task has an event of its own.
pub fn has_event(task: u32) -> bool
    ensures { result ≡ has_event task }
{
    task % 5 == 4
}

/// The application of a seed with so many tasks, from 1 on: its texts, each no longer than a file may be, and 1,000
/// arrivals at moments up to 901,000.
pub fn sample(alloc: Global, seed: u32, tasks: u32) -> Result<Sample>
    requires { (1 ≤ tasks) × (tasks ≤ task_limit) }
    ensures oil { IfOk result (λ sample. sample.oil ≡ oil_text tasks) }
    ensures src { IfOk result (λ sample. sample.src ≡ source_text seed tasks) }
    ensures arrivals { IfOk result (λ sample. sample.arrivals ≡ arrivals seed tasks) }
    ensures short_oil { IfOk result (λ sample. length sample.oil ≤ file_limit) }
    ensures short_src { IfOk result (λ sample. length sample.src ≤ file_limit) }
    ensures in_range { IfOk result (λ sample. AreArrivals (owners_of tasks) sample.arrivals) }
    ensures early { IfOk result (λ sample. All (λ arrival. arrival.at ≤ 901000) sample.arrivals) }
{
    let mut draws = Draws::from_seed(seed);
    Ok(Sample {
        oil: List::from_vec(oil_text(alloc, tasks)?),
        src: List::from_vec(source_text(alloc, tasks, &mut draws)?),
        arrivals: List::from_vec(arrivals(alloc, tasks, &mut draws)?),
    })
}

/// The factor and the summand of a draw.
const FACTOR: u32 = 1_664_525;

const SUMMAND: u32 = 1_013_904_223;

/// Draws one after another, each a word of 32 bits. Contracts see the last one, which is the seed at first.
#[derive(Drop)]
pub struct Draws {
    last: u32,
}

impl Model for Draws {
    ghost use Rattle.std.specs.Prelude.{ℕ};

    ghost Value = { ℕ };

    ghost view = { λ draws. draws.last };
}

impl Draws {
    /// The draws behind a seed.
    pub fn from_seed(seed: u32) -> Draws
        ensures { result ≡ seed }
    {
        Draws { last: seed }
    }

    /// The next draw.
    pub fn next(&mut self) -> u32
        ensures drawn { result ≡ next_draw self.old }
        ensures last { self.new ≡ result }
    {
        self.last = FACTOR.wrapping_mul(self.last).wrapping_add(SUMMAND);
        self.last
    }
}
