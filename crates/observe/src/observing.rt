//! An observer that is fed one step at a time.
ghost use Rattle.std.specs.Prelude.{◌≡◌, ◌<◌, ◌+◌, ◌++◌, ◌∷◌, [], true, false, ℕ, List, length, take_while, nat_le};
ghost use Rattle.std.specs.Prelude.{IfSome, IfNone, OnSome, IsOk, IfOk, IsNone, ◌↔◌};
ghost use Rattle.observe.specs.Pieces.{begins};
ghost use Rattle.observe.specs.Progress.{begins_by};
ghost use Rattle.observe.specs.Observe.{admission, mark_at, observe, view_of_image};
ghost use Rattle.sloth_base.specs.ImageRange.{AreAscending};

use crate::image_view::{ImageView, MarkTable};
use crate::touches::{Touches, skip_early, skip_late};
use sloth_base::numbers::Owners;
use sloth_base::{Arrival, Image, Line, Result, Stamp, Stamped, Step};
use std::alloc::Global;

/// The events of the steps that it was fed. It keeps the image's marks and the arrivals lent, and one open stretch.
#[derive(Drop)]
pub struct Observer<'a> {
    view: ImageView<'a>,
    arrivals: &'a [Arrival],
    expected: u64,
    // The arrivals of the expected moment and of later ones.
    coming: &'a [Arrival],
    // The first step of the open stretch.
    first: Option<Step>,
    // The arrivals from the first masked moment of that stretch on.
    inside: &'a [Arrival],
    // For each line the count after the last step of that stretch that touched it, or 0.
    touched: Touches,
    // What is to be handed out: found with MIE 1, early, the event, late.
    found: &'a [Arrival],
    before: &'a [Arrival],
    event: Option<Stamped>,
    after: &'a [Arrival],
}

impl<'a> Observer<'a> {
    ghost use Rattle.sloth_base.specs.declared.numbers.Step.{Step as AnyStep};
    ghost use Rattle.sloth_base.specs.declared.service.Stamped.{Stamped as AnyStamped};
    ghost use Rattle.sloth_base.specs.Arrivals.{AreRisingMoments};
    ghost use Rattle.observe.specs.MarkTable.{IsMarkTable};
    ghost use Rattle.observe.specs.Touches.{HasPlace, noted_touches};
    ghost use Rattle.observe.specs.Progress.{HasProgress, progress_of, view_of, arrivals_of, expected_count, remaining};
    ghost use Rattle.observe.specs.Progress.{arrivals_due, passed_count, joined_progress, progress_behind_stretch};
    ghost use Rattle.observe.specs.Progress.{advanced_progress, one_or_none, settled_progress, begins_by, is_shown};
    ghost use Rattle.observe.specs.Progress.{step_of_parts};

    /// An observer of a run of the image with these arrivals, which has seen no step. It needs no memory of its own.
    pub fn new(_alloc: Global, image: &'a Image, arrivals: &'a [Arrival]) -> Result<Observer<'a>>
        requires ascending { AreAscending image.now.marks }
        requires ordered { AreRisingMoments 0 arrivals.now }
        ensures answers { IsOk result }
        ensures fed { IfOk result (λ o. HasProgress o [] []) }
        ensures view { IfOk result (λ o. view_of o ≡ view_of_image image.now) }
        ensures arrivals { IfOk result (λ o. arrivals_of o ≡ arrivals.now) }
        ensures expected { IfOk result (λ o. expected_count o ≡ 0) }
        ensures drained { IfOk result (λ o. remaining o ≡ []) }
    {
        Ok(Observer::over(image, arrivals, None))
    }

    /// The same with a table of the marks, which takes memory for each word between the first and the last of them.
    pub fn indexed(alloc: Global, image: &'a Image, arrivals: &'a [Arrival]) -> Result<Observer<'a>>
        requires ascending { AreAscending image.now.marks }
        requires ordered { AreRisingMoments 0 arrivals.now }
        ensures fed { IfOk result (λ o. HasProgress o [] []) }
        ensures view { IfOk result (λ o. view_of o ≡ view_of_image image.now) }
        ensures arrivals { IfOk result (λ o. arrivals_of o ≡ arrivals.now) }
        ensures expected { IfOk result (λ o. expected_count o ≡ 0) }
        ensures drained { IfOk result (λ o. remaining o ≡ []) }
    {
        let table = MarkTable::of(alloc, image.marks.items())?;
        Ok(Observer::over(image, arrivals, table))
    }

    fn over(image: &'a Image, arrivals: &'a [Arrival], table: Option<MarkTable>) -> Observer<'a>
        requires ascending { AreAscending image.now.marks }
        requires ordered { AreRisingMoments 0 arrivals.now }
        requires table { IfSome table (IsMarkTable image.now.marks) }
        ensures fed { HasProgress result [] [] }
        ensures view { view_of result ≡ view_of_image image.now }
        ensures arrivals { arrivals_of result ≡ arrivals.now }
        ensures expected { expected_count result ≡ 0 }
        ensures drained { remaining result ≡ [] }
    {
        let none: &[Arrival] = &[];
        let marks = image.marks.items();
        let owners = Owners {
            tasks: image.tasks.items().len(),
            counters: image.counters.items().len(),
        };
        Observer {
            view: ImageView {
                marks,
                owners,
                table,
            },
            arrivals,
            expected: 0,
            coming: arrivals,
            first: None,
            inside: none,
            touched: Touches::new(),
            found: none,
            before: none,
            event: None,
            after: none,
        }
    }

    // Counts the step of this count, and gives the arrivals of its moment.
    #[inline(always)]
    fn pass(&mut self, count: u32) -> &'a [Arrival]
        requires expected { count ≡ expected_count self.old }
        ensures passed { progress_of self.new ≡ passed_count (progress_of self.old) count }
        ensures here { result.now ≡ arrivals_due count self.old.coming.now }
        ensures view { view_of self.new ≡ view_of self.old }
        ensures arrivals { arrivals_of self.new ≡ arrivals_of self.old }
    {
        let none: &[Arrival] = &[];
        let (here, behind) = self.coming.split_at(passing(self.coming, count));
        self.expected = u64::from(count) + 1;
        self.coming = behind;
        self.found = none;
        self.before = none;
        self.event = None;
        self.after = none;
        here
    }

    // The open stretch goes on with this step, or ends with it.
    #[inline(always)]
    fn join(&mut self, step: &Step)
        ensures place { HasPlace step.now }
        ensures joined { IfSome self.old.first (λ first. progress_of self.new
            ≡ joined_progress (view_of self.old) (progress_of self.old) first step.now) }
        ensures view { view_of self.new ≡ view_of self.old }
        ensures arrivals { arrivals_of self.new ≡ arrivals_of self.old }
    {
        self.note(&step.touched, step.count);
        if step.enabled_after {
            if let Some(first) = self.first {
                self.close(&first, step);
            }
        }
    }

    #[inline(never)]
    fn close(&mut self, first: &Step, last: &Step)
        ensures closed { progress_of self.new ≡ progress_behind_stretch (view_of self.old)
            (progress_of self.old) first.now last.now }
        ensures view { view_of self.new ≡ view_of self.old }
        ensures arrivals { arrivals_of self.new ≡ arrivals_of self.old }
    {
        let (within, _) = self
            .inside
            .split_at(self.inside.len().saturating_sub(self.coming.len()));
        self.first = None;
        self.before = within;
        let (from, at) = (first.count, last.count);
        let stamp = Stamp { from, at };
        let event = self.view.stretch_event(first, last);
        self.event = Some(Stamped { stamp, event });
        self.after = within;
    }

    #[inline(always)]
    fn note(&mut self, touched: &Option<Line>, count: u32)
        ensures place { IfSome touched.now (λ line. line < 256) }
        ensures noted { progress_of self.new ≡ record (progress_of self.old)
            { touched = noted_touches touched.now count self.old.touched } }
        ensures view { view_of self.new ≡ view_of self.old }
        ensures arrivals { arrivals_of self.new ≡ arrivals_of self.old }
    {
        if let Some(line) = touched {
            self.touched.note(line, count);
        }
    }

    #[inline(always)]
    fn advance(&mut self, step: &Step)
        requires expected { step.now.count ≡ expected_count self.old }
        ensures joins { IfSome self.old.first (λ first. HasPlace step.now) }
        ensures opens { begins step.now ≡ true → HasPlace step.now }
        ensures advanced { progress_of self.new ≡ advanced_progress (view_of self.old) (progress_of self.old) step.now }
        ensures view { view_of self.new ≡ view_of self.old }
        ensures arrivals { arrivals_of self.new ≡ arrivals_of self.old }
    {
        let coming = self.coming;
        let here = self.pass(step.count);
        if self.first.is_some() {
            self.join(step);
            return;
        }
        if !begins(step) {
            self.found = here;
            self.event = self.view.outside_event(step);
            return;
        }
        self.touched.clear();
        if step.enabled_before {
            self.inside = self.coming;
            self.found = here;
        } else {
            self.inside = coming;
        }
        self.first = Some(*step);
        self.join(step);
    }

    /// Feeds the step of the expected count; all finished events are handed out.
    #[inline(always)]
    pub fn feed(&mut self, step: &Step)
        requires expected { step.now.count ≡ expected_count self.old }
        requires drained { remaining self.old ≡ [] }
        ensures fed { (steps : List AnyStep) (events : List AnyStamped) → HasProgress self.old steps events
            → HasProgress self.new (steps ++ step.now ∷ []) events }
        ensures view { view_of self.new ≡ view_of self.old }
        ensures arrivals { arrivals_of self.new ≡ arrivals_of self.old }
        ensures expected { expected_count self.new ≡ expected_count self.old + 1 }
    {
        self.advance(step)
    }

    // Counts the step of this count inside the open stretch, unless it ends it.
    #[inline(always)]
    fn pass_inside(&mut self, count: u32, enabled_after: bool, touched: &Option<Line>) -> bool
        requires expected { count ≡ expected_count self.old }
        ensures passed { result ≡ true → (enabled_after ≡ false) × IfSome touched.now (λ line. line < 256)
            × (progress_of self.new ≡ record (passed_count (progress_of self.old) count)
            { touched = noted_touches touched.now count self.old.touched }) }
        ensures left { result ≡ false → self.new ≡ self.old }
        ensures view { view_of self.new ≡ view_of self.old }
        ensures arrivals { arrivals_of self.new ≡ arrivals_of self.old }
    {
        if enabled_after {
            return false;
        }
        self.pass(count);
        self.note(touched, count);
        true
    }

    // Counts the step of this count outside the stretches, unless it begins one or shows an event.
    #[inline(always)]
    fn pass_outside(
        &mut self,
        count: u32,
        pc: u32,
        entered: &Option<Line>,
        enabled_before: bool,
        enabled_after: bool,
    ) -> bool
        requires expected { count ≡ expected_count self.old }
        ensures passed { result ≡ true → (begins_by count entered.now enabled_before enabled_after ≡ false)
            × (is_shown (mark_at (view_of self.old) pc) ≡ false)
            × (progress_of self.new ≡ record (passed_count (progress_of self.old) count)
            { found = arrivals_due count self.old.coming.now }) }
        ensures left { result ≡ false → self.new ≡ self.old }
        ensures view { view_of self.new ≡ view_of self.old }
        ensures arrivals { arrivals_of self.new ≡ arrivals_of self.old }
    {
        if begins_by(count, entered, enabled_before, enabled_after) || self.view.shows(pc) {
            return false;
        }
        self.found = self.pass(count);
        true
    }

    /// Feeds the step of the expected count that is seen so, if no more of it is needed: it begins and ends no stretch,
    /// and has no mark that shows an event. Else nothing is changed, and the step is still to be fed.
    #[inline(always)]
    pub fn pass_by(
        &mut self,
        count: u32,
        pc: u32,
        entered: &Option<Line>,
        enabled_before: bool,
        enabled_after: bool,
        touched: &Option<Line>,
    ) -> bool
        requires expected { count ≡ expected_count self.old }
        requires drained { remaining self.old ≡ [] }
        ensures fed { result ≡ true → (cur_before cur_after : ℕ) (regs : List ℕ) (steps : List AnyStep)
            (events : List AnyStamped) → HasProgress self.old steps events
            → HasProgress self.new (steps ++ step_of_parts count pc entered.now enabled_before enabled_after
            touched.now cur_before cur_after regs ∷ []) events }
        ensures left { result ≡ false → self.new ≡ self.old }
        ensures view { view_of self.new ≡ view_of self.old }
        ensures arrivals { arrivals_of self.new ≡ arrivals_of self.old }
        ensures expected { result ≡ true → expected_count self.new ≡ expected_count self.old + 1 }
    {
        if self.first.is_some() {
            return self.pass_inside(count, enabled_after, touched);
        }
        self.pass_outside(count, pc, entered, enabled_before, enabled_after)
    }

    // Nothing is to be handed out, as after most steps.
    #[tactic(auto, using(crate::proofs::Feeding::nothing_left))]
    fn is_drained(&self) -> bool
        ensures { result ≡ true → remaining self.now ≡ [] }
    {
        self.found.is_empty()
            && self.before.is_empty()
            && self.event.is_none()
            && self.after.is_empty()
    }

    #[inline(always)]
    fn pop(&mut self) -> Option<Stamped>
        ensures pops { remaining self.old ≡ one_or_none result ++ remaining self.new }
        ensures none { IfNone result (remaining self.new ≡ []) }
        ensures same { settled_progress (progress_of self.new) ≡ settled_progress (progress_of self.old) }
        ensures view { view_of self.new ≡ view_of self.old }
        ensures arrivals { arrivals_of self.new ≡ arrivals_of self.old }
    {
        if self.is_drained() {
            return None;
        }
        self.pop_first()
    }

    // The same, where something may be left.
    #[inline(never)]
    fn pop_first(&mut self) -> Option<Stamped>
        ensures pops { remaining self.old ≡ one_or_none result ++ remaining self.new }
        ensures none { IfNone result (remaining self.new ≡ []) }
        ensures same { settled_progress (progress_of self.new) ≡ settled_progress (progress_of self.old) }
        ensures view { view_of self.new ≡ view_of self.old }
        ensures arrivals { arrivals_of self.new ≡ arrivals_of self.old }
    {
        if let Some((arrival, rest)) = self.found.split_first() {
            self.found = rest;
            return Some(admit(&self.view, arrival));
        }
        let before = skip_late(self.before, &self.touched);
        self.before = before;
        if let Some((arrival, rest)) = before.split_first() {
            self.before = rest;
            return Some(admit(&self.view, arrival));
        }
        if let Some(event) = self.event {
            self.event = None;
            return Some(event);
        }
        let after = skip_early(self.after, &self.touched);
        self.after = after;
        let (arrival, rest) = after.split_first()?;
        self.after = rest;
        Some(admit(&self.view, arrival))
    }

    /// Hands out the next finished event.
    #[inline(always)]
    pub fn next(&mut self) -> Option<Stamped>
        ensures some { IfSome result (λ event. (steps : List AnyStep) (events : List AnyStamped)
            → HasProgress self.old steps events
            → HasProgress self.new steps (events ++ event ∷ [])) }
        ensures none { IfNone result ((steps : List AnyStep) (events : List AnyStamped)
            → HasProgress self.old steps events
            → HasProgress self.new steps events × (events ≡ observe (view_of self.old) (arrivals_of self.old) steps)) }
        ensures exact { (steps : List AnyStep) (events : List AnyStamped) → HasProgress self.old steps events
            → (IsNone result ↔ (events ≡ observe (view_of self.old) (arrivals_of self.old) steps)) }
        ensures head { IfSome result (λ event. remaining self.old ≡ event ∷ remaining self.new) }
        ensures empty { IfNone result (remaining self.old ≡ []) }
        ensures drained { IfNone result (remaining self.new ≡ []) }
        ensures shorter { OnSome result (length (remaining self.new) < length (remaining self.old)) }
        ensures view { view_of self.new ≡ view_of self.old }
        ensures arrivals { arrivals_of self.new ≡ arrivals_of self.old }
        ensures expected { expected_count self.new ≡ expected_count self.old }
    {
        self.pop()
    }
}

/// How many arrivals at the front are of this moment or an earlier one.
#[inline(always)]
pub fn passing(coming: &[Arrival], count: u32) -> usize
    ensures { result ≡ length (take_while (λ arrival. nat_le arrival.at count) coming.now) }
{
    coming
        .iter()
        .take_while(|arrival| arrival.at <= count)
        .count()
}

// A stretch begins with the step, where none is open.
#[inline(always)]
fn begins(step: &Step) -> bool
    ensures { result ≡ begins step.now }
{
    let (before, after) = (step.enabled_before, step.enabled_after);
    begins_by(step.count, &step.entered, before, after)
}

// The same of a step that is seen so.
#[inline(always)]
fn begins_by(count: u32, entered: &Option<Line>, enabled_before: bool, enabled_after: bool) -> bool
    ensures { result ≡ begins_by count entered.now enabled_before enabled_after }
{
    count == 0 || entered.is_some() || (enabled_before && !enabled_after)
}

fn admit(view: &ImageView, arrival: &Arrival) -> Stamped
    ensures { result ≡ admission view.now arrival.now }
{
    let (from, at) = (arrival.at, arrival.at);
    let stamp = Stamp { from, at };
    let event = view.arrival_event(arrival.line);
    Stamped { stamp, event }
}
