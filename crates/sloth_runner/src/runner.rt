//! Runs an image, and prints what is observed. The arrivals of a moment.
ghost use Rattle.std.specs.Prelude.{◌≡◌, ◌<◌, ◌≤◌, ◌+◌, ◌∷◌, ◌++◌, [], List, OnOk, OnErr, IfOk, IfErr, IfSome, IfNone, OnSome, length, map, take, drop};
ghost use Rattle.sloth_base.specs.ImageRange.{InFormat};
ghost use Rattle.sloth_base.specs.Arrivals.{AreArrivals};
ghost use Rattle.sloth_base.specs.Owners.{owners_named};
ghost use Rattle.sloth_base.specs.Limits.{count_limit};
ghost use Rattle.sloth_io.specs.Sink.{output_with, GainsPart};
ghost use Rattle.trace_text.specs.Texts.{ends_idle, is_idle};
ghost use Rattle.observe.specs.Progress.{HasProgress, remaining, view_of, arrivals_of, expected_count, arrivals_due};
ghost use Rattle.rv32_machine.specs.Advance.{step_of};
ghost use Rattle.sloth_base.specs.declared.numbers.Step.{Step as AnyStep};
ghost use Rattle.sloth_base.specs.declared.service.Stamped.{Stamped as AnyStamped};
ghost use Rattle.sloth_runner.specs.Runner.{lines_of};
ghost use Rattle.sloth_runner.specs.Moments.{IsHandedOut, sloth_state, AreLines};
ghost use Rattle.sloth_base.specs.Arrive.{state_arrive};

use observe::{Observer, passing};
use rv32_machine::{Machine, SlothBus, Step, StepFront, Stop, blank_step};
use sloth_base::{Arrival, Event, Image, Result, Stamped};
use sloth_io::{Sink, SinkFault};
use std::alloc::Global;
use trace_text::{Form, print};

/// How a run ended: after all its instructions, or before an instruction at `pc` that the machine stops at.
#[derive(Clone, Copy)]
pub enum RunEnd {
    Whole,
    Stopped { pc: u32, stop: Stop },
}

/// Where the machine stops, and why.
#[derive(Clone, Copy)]
pub struct Halt {
    pub pc: u32,
    pub stop: Stop,
}

// Prints events in a form, and knows whether the last one was an idle.
#[derive(Clone, Copy)]
struct Printer<'a> {
    image: &'a Image,
    form: Form,
    after_idle: bool,
}

fn is_idle(event: &Event) -> bool
    ensures { result ≡ is_idle event.now }
{
    matches!(event, Event::Idle)
}

impl<'a> Printer<'a> {
    // Puts the line of an event. In the bare form an idle directly behind an idle has none.
    fn put<S: Sink>(&mut self, event: &Stamped, out: &mut S) -> Result<(), SinkFault>
        requires { InFormat self.old.image.now }
        ensures ok { OnOk result (S.seen out.new ≡ output_with (S.seen out.old) (lines_of self.old (event.now ∷ []))) }
        ensures err { OnErr result (GainsPart (S.seen out.old) (S.seen out.new) (lines_of self.old (event.now ∷ []))) }
        ensures after_idle { self.new.after_idle ≡ is_idle event.now.event }
        ensures image { self.new.image.now ≡ self.old.image.now }
        ensures form { self.new.form ≡ self.old.form }
    {
        let after_idle = self.after_idle;
        let idle = is_idle(&event.event);
        self.after_idle = idle;
        if self.form == Form::Bare && after_idle && idle {
            return Ok(());
        }
        let mut line = print(event, self.form, self.image);
        line.push(b"\n");
        out.put(line.bytes())
    }

    fn drain<S: Sink>(&mut self, observer: &mut Observer, out: &mut S) -> Result<(), SinkFault>
        requires { InFormat self.old.image.now }
        ensures ok { OnOk result (S.seen out.new ≡ output_with (S.seen out.old) (lines_of self.old (remaining observer.old))) }
        ensures err { OnErr result (GainsPart (S.seen out.old) (S.seen out.new) (lines_of self.old (remaining observer.old))) }
        ensures after_idle { OnOk result (self.new.after_idle ≡ ends_idle self.old.after_idle (remaining observer.old)) }
        ensures image { self.new.image.now ≡ self.old.image.now }
        ensures form { self.new.form ≡ self.old.form }
        ensures drained { OnOk result (remaining observer.new ≡ []) }
        ensures fed { OnOk result (IsHandedOut observer.old observer.new) }
        ensures view { view_of observer.new ≡ view_of observer.old }
        ensures arrivals { arrivals_of observer.new ≡ arrivals_of observer.old }
        ensures expected { expected_count observer.new ≡ expected_count observer.old }
    {
        while let Some(event) = observer.next() {
            self.put(&event, out)?;
        }
        Ok(())
    }
}

/// An image in its run. It keeps the image and the arrivals, lent.
pub struct Runner<'a> {
    pub image: &'a Image,
    pub machine: Machine<SlothBus>,
    pub(crate) observer: Observer<'a>,
    /// The arrivals from the next moment on. The observer keeps its own place among them, since it may be fed no step.
    pub coming: &'a [Arrival],
    // The record of the last instruction.
    pub(crate) shown: Step,
}

// Written out: what is derived is proved anew wherever a value is let go.
impl Drop for Runner<'_> {
    fn drop(self) {
        let Runner {
            image: _,
            machine: _,
            observer: _,
            coming: _,
            shown: _,
        } = self;
    }
}

impl<'a> Runner<'a> {
    ghost use Rattle.sloth_runner.specs.Runner.{IsFresh, IsRunning, HasRun, HasArrived, HasExecuted, HasHalt, IsAdvance, IsPrintedAdvance, IsBrokenAdvance, HasRunEnd, image_of, count_of, given_arrivals, run_text, run_end};

    /// A runner that has run nothing, with all memory of a run.
    pub fn new(alloc: Global, image: &'a Image, arrivals: &'a [Arrival]) -> Result<Runner<'a>>
        requires format { InFormat image.now }
        requires arrivals { AreArrivals (owners_named image.now) arrivals.now }
        ensures fresh { IfOk result IsFresh }
        ensures image { IfOk result (λ runner. image_of runner ≡ image.now) }
        ensures arrivals { IfOk result (λ runner. given_arrivals runner ≡ arrivals.now) }
    {
        let machine = Machine::starting(alloc, image)?;
        let observer = Observer::indexed(alloc, image, arrivals)?;
        Ok(Runner {
            image,
            machine,
            observer,
            coming: arrivals,
            shown: blank_step(),
        })
    }

    /// The lines of the next moment's arrivals become pending.
    #[inline(always)]
    pub fn arrive_now(&mut self)
        requires { HasRun self.old (image_of self.old) (count_of self.old) }
        ensures arrived { HasArrived self.old self.new }
        ensures image { image_of self.new ≡ image_of self.old }
        ensures observer { self.new.observer ≡ self.old.observer }
    {
        let due = passing(self.coming, self.machine.count);
        if due > 0 {
            self.arrive_first(due);
        }
    }

    // The lines of the next moment's arrivals, the first ones of this number, become pending.
    #[inline(never)]
    fn arrive_first(&mut self, due: usize)
        requires ran { HasRun self.old (image_of self.old) (count_of self.old) }
        requires due { due ≡ length (arrivals_due (count_of self.old) self.old.coming.now) }
        ensures arrived { HasArrived self.old self.new }
        ensures image { image_of self.new ≡ image_of self.old }
        ensures observer { self.new.observer ≡ self.old.observer }
    {
        self.coming = arrive_front(&mut self.machine, self.coming, due);
    }

    /// One instruction, unless the machine stops at it.
    pub fn execute(&mut self) -> Result<Step, Halt>
        requires few { count_of self.old < count_limit }
        ensures ok { IfOk result (HasExecuted self.old self.new) }
        ensures err { IfErr result (HasHalt self.old) }
        ensures coming { self.new.coming.now ≡ self.old.coming.now }
        ensures image { image_of self.new ≡ image_of self.old }
        ensures observer { self.new.observer ≡ self.old.observer }
    {
        match self.machine.step_into(&mut self.shown) {
            Ok(()) => Ok(self.shown),
            Err(stop) => Err(Halt {
                pc: self.machine.next_pc(),
                stop,
            }),
        }
    }

    // One instruction, unless the machine stops at it. Its finished events are left with the observer.
    #[inline(always)]
    pub(crate) fn advance(&mut self) -> Option<RunEnd>
        requires few { count_of self.old < count_limit }
        requires running { IsRunning self.old }
        ensures went { IfNone result (IsAdvance self.old self.new) }
        ensures halted { IfSome result (HasRunEnd self.old) }
        ensures image { image_of self.new ≡ image_of self.old }
        ensures arrivals { given_arrivals self.new ≡ given_arrivals self.old }
    {
        self.arrive_now();
        match self.machine.step_front() {
            Ok(front) => {
                self.tell(&front);
                None
            }
            Err(stop) => Some(RunEnd::Stopped {
                pc: self.machine.next_pc(),
                stop,
            }),
        }
    }

    // Feeds the observer the last step, of which this is the front: as much of it as it needs.
    #[inline(always)]
    fn tell(&mut self, front: &StepFront)
        requires expected { front.now.count ≡ expected_count self.old.observer }
        requires drained { remaining self.old.observer ≡ [] }
        ensures fed { (steps : List AnyStep) (events : List AnyStamped) → HasProgress self.old.observer steps events
            → HasProgress self.new.observer (steps ++ step_of front.now (sloth_state self.old.machine) ∷ []) events }
        ensures view { view_of self.new.observer ≡ view_of self.old.observer }
        ensures arrivals { arrivals_of self.new.observer ≡ arrivals_of self.old.observer }
        ensures expected { expected_count self.new.observer ≡ expected_count self.old.observer + 1 }
        ensures state { sloth_state self.new.machine ≡ sloth_state self.old.machine }
        ensures count { count_of self.new ≡ count_of self.old }
        ensures coming { self.new.coming.now ≡ self.old.coming.now }
        ensures image { image_of self.new ≡ image_of self.old }
    {
        let enabled_after = self.machine.enabled();
        let passed = self.observer.pass_by(
            front.count,
            front.pc,
            &front.entered,
            front.enabled_before,
            enabled_after,
            &front.touched,
        );
        if passed {
            return;
        }
        self.feed(front);
    }

    // Feeds it the whole record of that step.
    #[inline(never)]
    fn feed(&mut self, front: &StepFront)
        requires expected { front.now.count ≡ expected_count self.old.observer }
        requires drained { remaining self.old.observer ≡ [] }
        ensures fed { (steps : List AnyStep) (events : List AnyStamped) → HasProgress self.old.observer steps events
            → HasProgress self.new.observer (steps ++ step_of front.now (sloth_state self.old.machine) ∷ []) events }
        ensures view { view_of self.new.observer ≡ view_of self.old.observer }
        ensures arrivals { arrivals_of self.new.observer ≡ arrivals_of self.old.observer }
        ensures expected { expected_count self.new.observer ≡ expected_count self.old.observer + 1 }
        ensures state { sloth_state self.new.machine ≡ sloth_state self.old.machine }
        ensures count { count_of self.new ≡ count_of self.old }
        ensures coming { self.new.coming.now ≡ self.old.coming.now }
        ensures image { image_of self.new ≡ image_of self.old }
    {
        self.machine.show(front, &mut self.shown);
        self.observer.feed(&self.shown);
    }

    // One instruction: the machine stops, or its events' lines are put.
    fn turn<S: Sink>(
        &mut self,
        printer: &mut Printer,
        out: &mut S,
    ) -> Result<Option<RunEnd>, SinkFault>
        requires few { count_of self.old < count_limit }
        requires running { IsRunning self.old }
        requires printer { printer.old.image.now ≡ image_of self.old }
        ensures went { IfOk result (λ end. IfNone end
            (IsPrintedAdvance self.old self.new printer.old printer.new (S.seen out.old) (S.seen out.new))) }
        ensures halted { IfOk result (λ end. IfSome end (HasRunEnd self.old)) }
        ensures untold { IfOk result (λ end. OnSome end (S.seen out.new ≡ S.seen out.old)) }
        ensures broke { OnErr result (IsBrokenAdvance self.old printer.old (S.seen out.old) (S.seen out.new)) }
        ensures image { image_of self.new ≡ image_of self.old }
        ensures arrivals { given_arrivals self.new ≡ given_arrivals self.old }
        ensures form { printer.new.form ≡ printer.old.form }
        ensures printed { printer.new.image.now ≡ printer.old.image.now }
    {
        if let Some(end) = self.advance() {
            return Ok(Some(end));
        }
        printer.drain(&mut self.observer, out)?;
        Ok(None)
    }

    /// Runs n instructions, at most `COUNT_LIMIT`, and puts the line of each event.
    pub fn run<S: Sink>(&mut self, n: u32, form: Form, out: &mut S) -> Result<RunEnd, SinkFault>
        requires fresh { IsFresh self.old }
        requires few { n ≤ count_limit }
        ensures text { OnOk result (S.seen out.new ≡ output_with (S.seen out.old) (run_text (image_of self.old) (given_arrivals self.old) form n)) }
        ensures end { IfOk result (λ end. end ≡ run_end (image_of self.old) (given_arrivals self.old) n) }
        ensures broke { OnErr result
            (GainsPart (S.seen out.old) (S.seen out.new) (run_text (image_of self.old) (given_arrivals self.old) form n)) }
    {
        let mut printer = Printer {
            image: self.image,
            form,
            after_idle: false,
        };
        while self.machine.count < n {
            if let Some(end) = self.turn(&mut printer, out)? {
                return Ok(end);
            }
        }
        Ok(RunEnd::Whole)
    }
}

fn arrive(machine: &mut Machine<SlothBus>, arrivals: &[Arrival])
    requires { AreLines arrivals.now }
    ensures state { sloth_state machine.new ≡ state_arrive (map (λ arrival. arrival.line) arrivals.now) (sloth_state machine.old) }
    ensures count { machine.new.count ≡ machine.old.count }
{
    for arrival in arrivals {
        machine.arrive(arrival.line);
    }
}

/// The lines of the first arrivals, so many of them, become pending. Those behind them are given back.
pub fn arrive_front<'a>(
    machine: &mut Machine<SlothBus>,
    coming: &'a [Arrival],
    due: usize,
) -> &'a [Arrival]
    requires due { due ≤ length coming.now }
    requires lines { AreLines coming.now }
    ensures state { sloth_state machine.new ≡ state_arrive (map (λ arrival. arrival.line) (take due coming.now)) (sloth_state machine.old) }
    ensures count { machine.new.count ≡ machine.old.count }
    ensures behind { result.now ≡ drop due coming.now }
{
    let (here, behind) = coming.split_at(due);
    arrive(machine, here);
    behind
}
