//! Where a session stands but for its points, and what a step of it goes to and tells.
//! What a count of a run shows of threads. What a way through a run stops at. What is looked at at a count of a run.
ghost use Rattle.std.specs.Prelude.{◌≡◌, false, ◌≤◌};
ghost use Rattle.debug_ways.specs.Causes.{running_thread, is_own, is_reached, wish_tests};
ghost use Rattle.debug_ways.specs.Standing.{selected, interrupted, step_target, is_step, is_end, step_told, plain_step};
ghost use Rattle.debug_ways.specs.Cursor.{cursor_run};
ghost use Rattle.debug_ways.specs.Shown.{lesser, last_seen, count_view, shown_thread};
ghost use Rattle.debug_ways.specs.Wishes.{wanted_wish};

use crate::points::{Point, breakpoint_kind, watched};
use crate::{Cursor, Hits, Machine};
use osek_scheduler::TaskState;
use sloth_base::TASK_LIMIT;

/// A step of a thread, or of any if 0: alone or not, back or forward, through addresses from one to below another.
#[derive(Clone, Copy)]
pub struct Step {
    pub thread: u32,
    pub alone: bool,
    pub backwards: bool,
    pub from: u32,
    pub to: u32,
}

/// What a stop reply tells: the cause, the thread, 0 for the running one, and whether a step ended on another thread.
#[derive(Clone, Copy)]
pub struct Told {
    pub cause: Cause,
    pub thread: u32,
    pub other: bool,
}

/// Where a session stands.
#[derive(Clone, Copy)]
pub struct Standing {
    pub count: u32,
    /// The thread whose registers are shown, or 0 for the one that runs.
    pub general: u32,
    /// The thread that a plain step steps alone, or 0.
    pub step: u32,
    /// The thread of the last stop.
    pub stopped: u32,
    pub told: Told,
    /// Whether an interrupt came since the last step or continue.
    pub interrupted: bool,
    /// Whether the machine was seen to stop at this count.
    pub met: bool,
    pub over: bool,
}

/// What is told of a thread on which nothing else was stepped.
pub fn plain_told(cause: Cause, thread: u32) -> Told
    ensures { result ≡ record { cause = cause; thread = thread; other = false } }
{
    Told {
        cause,
        thread,
        other: false,
    }
}

/// The thread that runs.
pub fn running_thread(look: &Look) -> u32
    ensures { result ≡ running_thread look.now }
{
    u32::from(look.running) + 1
}

/// The thread that a stop reply names becomes the one that is shown and the one that stopped.
pub fn selected(standing: &Standing, look: &Look) -> Standing
    ensures { result ≡ selected standing.now look.now }
{
    let at = standing.told.thread;
    let thread = if at == 0 { running_thread(look) } else { at };
    let mut next = *standing;
    next.general = thread;
    next.stopped = thread;
    next
}

/// The interrupt is told.
pub fn interrupted(standing: &Standing, thread: u32) -> Standing
    ensures { result ≡ interrupted standing.now thread }
{
    let mut next = *standing;
    next.told = plain_told(Cause::Interrupt, thread);
    next.interrupted = false;
    next
}

/// What a step goes to.
pub fn step_target(step: &Step, look: &Look) -> Target
    ensures { result ≡ step_target step.now look.now }
{
    if step.alone || step.thread == 0 {
        return Target::Each;
    }
    if step.thread == 1 {
        return if is_own(1, look) {
            Target::Busy
        } else {
            Target::Each
        };
    }
    if is_own(step.thread, look) || running_thread(look) != step.thread {
        Target::Own(step.thread)
    } else {
        Target::Each
    }
}

/// Whether a way reached its target.
pub fn is_step(cause: Cause) -> bool
    ensures { result ≡ is_step cause }
{
    matches!(cause, Cause::Step)
}

/// Whether a way ended at the end of the run.
pub fn is_end(cause: Cause) -> bool
    ensures { result ≡ is_end cause }
{
    matches!(cause, Cause::End)
}

/// What is told of a step that ended so on this thread.
pub fn step_told(step: &Step, thread: u32, cause: Cause) -> Told
    ensures { result ≡ step_told step.now thread cause }
{
    let elsewhere = step.thread != 0 && thread != step.thread;
    let anywhere = matches!(cause, Cause::Watch(_, _) | Cause::Begin | Cause::End);
    if step.alone && elsewhere && !anywhere {
        return plain_told(Cause::Step, step.thread);
    }
    if is_step(cause) {
        return Told {
            cause,
            thread: 0,
            other: !step.alone && elsewhere,
        };
    }
    plain_told(cause, if step.alone { step.thread } else { 0 })
}

/// A plain step: of the thread of `Hc`, alone, or else of the one that stopped.
pub fn plain_step(backwards: bool, at: &Standing) -> Step
    ensures { result ≡ plain_step backwards at.now }
{
    let alone = at.step != 0;
    Step {
        thread: if alone { at.step } else { at.stopped },
        alone,
        backwards,
        from: 0,
        to: 0,
    }
}

/// What a count shows of tasks.
#[derive(Clone, Copy)]
pub struct Seen {
    pub count: u32,
    /// The number of the running task and 1 more, or 0 where none runs.
    pub running: u8,
    pub states: [TaskState; TASK_LIMIT],
}

/// What a count shows of threads: level and mstatus, and of tasks what the last count with interrupts open showed.
#[derive(Clone, Copy)]
pub struct View {
    pub count: u32,
    pub level: u32,
    pub mstatus: u32,
    pub seen: Option<Seen>,
}

/// The lesser one.
pub fn lesser(one: u32, other: u32) -> u32
    ensures { result ≡ lesser one other }
{
    if other < one { other } else { one }
}

/// What the last count shows of tasks that finds interrupts open, if one does.
pub fn last_seen<M: Machine>(cursor: &mut Cursor<M>, count: u32) -> Option<Seen>
    requires { count ≤ (cursor_run M.run cursor.old).end }
    ensures seen { result ≡ last_seen (cursor_run M.run cursor.old) count }
    ensures run { cursor_run M.run cursor.new ≡ cursor_run M.run cursor.old }
{
    let open = cursor.look(count).open_count?;
    if open > cursor.end() {
        return None;
    }
    let running = cursor.look(open).running;
    let states = cursor.states(open);
    Some(Seen {
        count: open,
        running,
        states,
    })
}

/// What a count shows of threads.
pub fn count_view<M: Machine>(cursor: &mut Cursor<M>, count: u32) -> View
    requires { count ≤ (cursor_run M.run cursor.old).end }
    ensures view { result ≡ count_view (cursor_run M.run cursor.old) count }
    ensures run { cursor_run M.run cursor.new ≡ cursor_run M.run cursor.old }
{
    let level = cursor.register(count, 1, 36).unwrap_or(0);
    let mstatus = cursor.register(count, 1, 33).unwrap_or(0);
    let seen = last_seen(cursor, count);
    View {
        count,
        level,
        mstatus,
        seen,
    }
}

/// The thread whose registers are shown.
pub fn shown_thread<M: Machine>(cursor: &mut Cursor<M>, standing: &Standing) -> u32
    requires { standing.now.count ≤ (cursor_run M.run cursor.old).end }
    ensures thread { result ≡ shown_thread (cursor_run M.run cursor.old) standing.now }
    ensures run { cursor_run M.run cursor.new ≡ cursor_run M.run cursor.old }
{
    if standing.general == 0 {
        running_thread(&cursor.look(standing.count))
    } else {
        standing.general
    }
}

/// A count that a way goes to.
#[derive(Clone, Copy)]
pub enum Target {
    Nothing,
    Each,
    /// Where a thread executes an instruction of its own.
    Own(u32),
    /// Where the machine is not in the idle loop.
    Busy,
    /// Where a service of a thread is over, or the address is met again.
    Behind(u32, u32),
}

/// Why a way ended.
#[derive(Clone, Copy)]
pub enum Cause {
    Interrupt,
    Step,
    /// At a breakpoint of this kind.
    Break(u8),
    /// Before an access that meets a watchpoint of this kind at this address.
    Watch(u8, u32),
    Begin,
    End,
}

/// A count that a way leads to, and why it ends there.
#[derive(Clone, Copy)]
pub struct Passage {
    pub count: u32,
    pub cause: Cause,
}

/// What a way stops at: points, a target, and the addresses from one to below another at which the target is none.
#[derive(Clone, Copy)]
pub struct Wanted<'a> {
    pub points: &'a [Point],
    pub target: Target,
    pub from: u32,
    pub to: u32,
}

/// Whether a count is one of a thread's own.
pub fn is_own(thread: u32, look: &Look) -> bool
    ensures { result ≡ is_own thread look.now }
{
    !look.masked && u32::from(look.running) + 1 == thread
}

impl<'a> Wanted<'a> {
    /// Whether a way reaches its target.
    pub fn is_reached(&self, look: &Look) -> bool
        ensures { result ≡ is_reached (wanted_wish self.now) look.now }
    {
        let target = match self.target {
            Target::Nothing => false,
            Target::Each => true,
            Target::Own(thread) => is_own(thread, look),
            Target::Busy => !is_own(1, look),
            Target::Behind(thread, pc) => is_own(thread, look) || look.pc == pc,
        };
        target && !(self.from <= look.pc && look.pc < self.to)
    }
}

impl<'a> Hits for Wanted<'a> {
    ghost tests = { λ wanted. wish_tests (wanted_wish wanted) };

    fn stops(&self, look: &Look) -> bool {
        breakpoint_kind(self.points, look.pc).is_some() || self.is_reached(look)
    }

    fn guards(&self, look: &Look) -> bool {
        watched(self.points, &look.access).is_some()
    }
}

/// The load or store that an instruction is.
#[derive(Clone, Copy)]
pub struct Access {
    pub address: u32,
    /// The bytes, 1, 2 or 4.
    pub length: u32,
    pub stores: bool,
}

/// What decides where a way ends.
#[derive(Clone, Copy)]
pub struct Look {
    /// The address of the count's instruction.
    pub pc: u32,
    /// The number of the task that runs and 1 more, or 0: in a stretch the one that ran where it began.
    pub running: u8,
    /// Whether the instruction is one of a stretch.
    pub masked: bool,
    /// Whether it begins the stretch of a service.
    pub serves: bool,
    /// Its access, if it is one.
    pub access: Option<Access>,
    /// The last count up to this one that finds interrupts open, if one does.
    pub open_count: Option<u32>,
}
