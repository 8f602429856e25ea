//! What a run is observed by, and the event of a part of a run. The mark of each word, by its address.
ghost use Rattle.std.specs.Prelude.{◌≡◌, slice_index, true, IfOk, IfSome};
ghost use Rattle.observe.specs.MarkTable.{mark_of, entry_place, number_at, number_in, IsPlaced, IsMarkTable};

use sloth_base::numbers::Owners;
use sloth_base::{
    Event, FIRST_COUNTER_LINE, Line, LineKind, MEMORY_BYTES, Mark, MarkKind, Result, Service,
    Stamp, Stamped, Step,
};
use std::alloc::Global;
use std::marker::Model;

/// The marks of an image and the owners of lines.
#[derive(Drop)]
pub struct ImageView<'a> {
    pub marks: &'a [Mark],
    pub owners: Owners,
    /// Where the marks stand by their addresses, if that is known; else they are searched.
    pub table: Option<MarkTable>,
}

impl<'a> Model for ImageView<'a> {
    ghost use Rattle.observe.specs.Observe.{View, view_from};
    ghost use Rattle.sloth_base.specs.ImageRange.{AreAscending};

    ghost Value = { View };

    ghost view = { λ image. view_from image.marks.now image.owners };

    ghost use Rattle.std.specs.Prelude.{IfSome};
    ghost use Rattle.observe.specs.MarkTable.{IsMarkTable};

    ghost invariant = { λ image. AreAscending image.marks.now × IfSome image.table (IsMarkTable image.marks.now) };
}

impl ImageView<'_> {
    ghost use Rattle.std.specs.Prelude.{◌≡◌, map, slice_index};
    ghost use Rattle.observe.specs.Observe.{running_task, entry_event, arrival_event, mark_at, service_event};
    ghost use Rattle.observe.specs.Observe.{unentered_event, stretch_event, outside_events, stamp};
    ghost use Rattle.sloth_base.specs.Owners.{line_kind};
    ghost use Rattle.sloth_base.specs.ServiceCodes.{service_of};
    ghost use Rattle.observe.specs.Progress.{only_element, is_shown};

    #[inline(always)]
    fn mark(&self, address: u32) -> Option<Mark>
        ensures { result ≡ mark_at self.now address }
    {
        match &self.table {
            Some(table) => mark_of(self.marks, table.number(address)),
            None => self.search(address),
        }
    }

    // The same, by their order.
    fn search(&self, address: u32) -> Option<Mark>
        ensures { result ≡ mark_at self.now address }
    {
        match self
            .marks
            .binary_search_by_key(&address, |mark| mark.address)
        {
            Ok(place) => Some(self.marks[place]),
            Err(_) => None,
        }
    }

    // The task of the first word of memory.
    fn task(&self, cur: u32) -> u32
        ensures { result ≡ running_task self.now.owners.tasks cur }
    {
        if 0 < cur && cur as usize <= self.owners.tasks {
            cur - 1
        } else {
            u32::MAX
        }
    }

    /// The event of an arrival of a line.
    pub fn arrival_event(&self, line: Line) -> Event
        ensures { result ≡ arrival_event (line_kind self.now.owners line) }
    {
        match self.owners.kind(line) {
            LineKind::Task(task) => Event::Admit(task),
            LineKind::Counter(counter) => Event::Due(counter),
            LineKind::Unused => Event::Admit(u32::MAX),
        }
    }

    fn entry_event(&self, line: Line) -> Event
        ensures { result ≡ entry_event line (line_kind self.now.owners line) }
    {
        match self.owners.kind(line) {
            LineKind::Task(task) => Event::Enter(task),
            LineKind::Counter(counter) => Event::Tick(counter),
            LineKind::Unused => if line.0 < FIRST_COUNTER_LINE {
                Event::Enter(u32::MAX)
            } else {
                Event::Tick(u32::MAX)
            },
        }
    }

    /// Whether a step at this address shows an event where no stretch is open.
    #[inline(always)]
    pub fn shows(&self, address: u32) -> bool
        ensures { result ≡ is_shown (mark_at self.now address) }
    {
        match self.mark(address) {
            Some(mark) => matches!(mark.kind, MarkKind::Item | MarkKind::Idle),
            None => false,
        }
    }

    /// The event of a step outside the stretches.
    pub fn outside_event(&self, step: &Step) -> Option<Stamped>
        ensures { result ≡ only_element (map (stamp step.now.count step.now.count)
            (outside_events (mark_at self.now step.now.pc) self.now step.now)) }
    {
        let mark = self.mark(step.pc)?;
        let event = match mark.kind {
            MarkKind::Item => Event::Run {
                task: self.task(step.cur_before),
                func: u32::from(mark.b),
                item: mark.c,
                result: register(&step.regs, mark.a),
            },
            MarkKind::Idle => Event::Idle,
            _ => return None,
        };
        let (from, at) = (step.count, step.count);
        let stamp = Stamp { from, at };
        Some(Stamped { stamp, event })
    }

    // The event of a stretch that begins at an opening mark.
    fn service_event(&self, code: u8, first: &Step, last: &Step) -> Event
        ensures { result ≡ service_event (service_of code) self.now first.now last.now }
    {
        let Some(service) = Service::from_code(code) else {
            return Event::Stray;
        };
        let task = self.task(first.cur_before);
        if first.cur_before == last.cur_after {
            Event::Call {
                task,
                service,
                status: register(&last.regs, 10),
            }
        } else {
            Event::Left { task, service }
        }
    }

    // The event of a stretch that no line began.
    fn unentered_event(&self, first: &Step, last: &Step) -> Event
        ensures { result ≡ unentered_event (mark_at self.now first.now.pc) self.now first.now last.now }
    {
        let Some(mark) = self.mark(first.pc) else {
            return Event::Stray;
        };
        match mark.kind {
            MarkKind::Opening => self.service_event(mark.a, first, last),
            MarkKind::Back => Event::Back(self.task(first.cur_before)),
            _ => Event::Stray,
        }
    }

    /// The event of a stretch with this first and this last step.
    pub fn stretch_event(&self, first: &Step, last: &Step) -> Event
        ensures { result ≡ stretch_event self.now first.now last.now }
    {
        if first.count == 0 {
            return Event::Boot;
        }
        match first.entered {
            Some(line) => self.entry_event(line),
            None => self.unentered_event(first, last),
        }
    }
}

// The mark whose place and 1 more is a number, or none.
#[inline(always)]
#[tactic(auto, using(crate::proofs::Marking::mark_of_number))]
fn mark_of(marks: &[Mark], number: usize) -> Option<Mark>
    ensures { result ≡ mark_of marks.now number }
{
    if number == 0 {
        return None;
    }
    marks.get(number - 1).copied()
}

fn register(regs: &[u32; 32], number: u8) -> u32
    ensures { result ≡ slice_index regs.now number }
{
    regs.get(usize::from(number)).copied().unwrap_or(0)
}

/// For each word from the first mark's to the last one's: the place of its mark plus 1, or 0 where it has none.
#[derive(Drop)]
pub struct MarkTable {
    from: u32,
    numbers: Vec<usize>,
}

impl Model for MarkTable {
    ghost use Rattle.observe.specs.MarkTable.{Table};

    ghost Value = { Table };

    ghost view = { λ table. record { from = table.from; numbers = table.numbers.items } };
}

// The place of the word at an address, in a table from another address on.
#[inline(always)]
fn entry_place(from: u32, address: u32) -> Option<usize>
    ensures { result ≡ entry_place from address }
{
    if address < from || (address - from) % 4 != 0 {
        return None;
    }
    Some(((address - from) / 4) as usize)
}

#[inline(always)]
fn number_in(numbers: &[usize], place: Option<usize>) -> usize
    ensures { result ≡ number_in numbers.now place }
{
    match place {
        Some(place) if place < numbers.len() => numbers[place],
        _ => 0,
    }
}

// Writes a number into a place that has none; whether there is one.
fn place_number(numbers: &mut Vec<usize>, place: Option<usize>, number: usize) -> bool
    ensures { result ≡ true → IsPlaced place number numbers.old.items numbers.new.items }
{
    let Some(place) = place else { return false };
    if place >= numbers.len() || numbers[place] != 0 {
        return false;
    }
    numbers[place] = number;
    true
}

impl MarkTable {
    /// The table of these marks, if each has a word of its own and they lie within as many bytes as memory has.
    pub fn of(alloc: Global, marks: &[Mark]) -> Result<Option<MarkTable>>
        ensures { IfOk result (λ table. IfSome table (IsMarkTable marks.now)) }
    {
        let Some(first) = marks.first() else {
            return Ok(None);
        };
        let Some(last) = marks.last() else {
            return Ok(None);
        };
        let from = first.address;
        let words = (last.address.saturating_sub(from) / 4) as usize + 1;
        if words > MEMORY_BYTES / 4 {
            return Ok(None);
        }
        let mut numbers = vec![in alloc; 0; words]?;
        for (index, mark) in marks.iter().enumerate() {
            if !place_number(&mut numbers, entry_place(from, mark.address), index + 1) {
                return Ok(None);
            }
        }
        Ok(Some(MarkTable { from, numbers }))
    }

    /// The place of the mark of the word at an address and 1 more, or 0.
    #[inline(always)]
    pub fn number(&self, address: u32) -> usize
        ensures { result ≡ number_at self.now address }
    {
        number_in(&self.numbers, entry_place(self.from, address))
    }
}
