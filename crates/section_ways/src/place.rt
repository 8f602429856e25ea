//! Functions at a level: where their items go on; sizes of parts of sections from them, and greatest parts; a search of
//! a body, which finishes each item behind those that it goes on to, or finds the first cycle.

use crate::trial::counts;
use crate::walking::Mode;
use crate::ways::{Entry, Tables, no_entry};
use bound_rules::{Body, is_marked, is_schedule, number_at};
use osek_blocking::chains_itself;
use sloth_base::{Func, Op, Result};
use std::alloc::Global;
use task_verify::{falls, way};
use text_pieces::push;

/// Where an item goes on: the lower item, and the higher one.
pub type Nexts = (Option<usize>, Option<usize>);

/// A function and what is known of its body, and whether its callers raise the task; else its ceilings have to.
#[derive(Drop)]
pub struct Place<'t> {
    pub tables: &'t Tables<'t>,
    pub func: &'t Func,
    pub body: &'t Body,
    pub whole: bool,
}

impl Place<'_> {
    /// The operation of an item, if there is one.
    pub fn op(&self, item: usize) -> Option<Op> {
        Some(self.func.items.items().get(item)?.op)
    }

    /// Whether the task is raised before an item that walks reach.
    pub fn is_alive(&self, item: usize) -> bool {
        is_marked(self.body.reached.items(), item)
            && (self.whole || self.tables.priority <= number_at(self.body.ceilings.items(), item))
    }

    /// The function that an item that walks reach calls, and whether raised.
    pub fn call(&self, item: usize) -> Option<(usize, bool)> {
        if !is_marked(self.body.reached.items(), item) {
            return None;
        }
        let func = self.op(item)?.callee()?;
        Some((func, self.is_alive(item)))
    }

    fn live_item(&self, item: usize) -> Option<usize> {
        self.is_alive(item).then_some(item)
    }

    // The item behind one, past a call where the function returns.
    fn next(&self, item: usize) -> Option<usize> {
        let goes_behind = match self.op(item)?.callee() {
            Some(func) => 0 < self.tables.size(func, true, 0).back,
            None => falls(self.op(item)?),
        };
        if !goes_behind {
            return None;
        }
        self.live_item(item.saturating_add(1))
    }

    fn jump(&self, item: usize) -> Option<usize> {
        let label = way(self.op(item)?)?;
        self.live_item(self.func.labels.items().get(label as usize)?.item as usize)
    }

    /// Where sections go on from an item, inside its body and past calls.
    pub fn nexts(&self, item: usize) -> Nexts {
        let items = self.func.items.items();
        if !self.is_alive(item)
            || items.len() <= item
            || is_schedule(items[item].op)
            || chains_itself(self.func, items[item].op)
        {
            return (None, None);
        }
        match (self.next(item), self.jump(item)) {
            (Some(next), Some(jump)) if jump < next => (Some(jump), Some(next)),
            nexts => nexts,
        }
    }

    /// The size from an item on, by those of the items on which it goes; TerminateTask does not count.
    pub fn size(&self, further: Size, item: usize) -> Size {
        let Some(op) = self.op(item) else {
            return NO_SIZE;
        };
        match op {
            Op::Invoke { func } => {
                let inner = self.tables.size(func.0 as usize, true, 0);
                further.behind(inner).behind(ONE_ITEM)
            },
            Op::Return => ONE_ITEM,
            _ if counts(op) => further.behind(ONE_ITEM),
            _ => NO_SIZE,
        }
    }

    // The greatest part that begins in what an item calls and goes on in this mode; `behind`: the size behind the call.
    fn called_part(&self, mode: Mode, item: usize, behind: u32) -> Part {
        let Some((func, whole)) = self.call(item) else {
            return NO_PART;
        };
        let size = both(self.tables.part(func, whole, Mode::Back).size, behind);
        let inside = Some(Mode::Back);
        let left = Part { size, item, inside };
        if !matches!(mode, Mode::On) {
            return left;
        }
        let size = self.tables.part(func, whole, Mode::On).size;
        let inside = Some(mode);
        greater(Part { size, item, inside }, left)
    }

    /// The greatest part of the function that goes on in this mode, by the sizes from its items.
    pub fn greatest(&self, sizes: &[Size], mode: Mode) -> Part {
        let mut part = NO_PART;
        for item in 0..self.func.items.items().len() {
            let inside = None;
            let size = item_size(sizes, item).told(mode);
            part = greater(part, Part { size, item, inside });
            let behind = item_size(sizes, item + 1).told(mode);
            part = greater(part, self.called_part(mode, item, behind));
        }
        part
    }
}

/// The greatest size that is told apart.
const LARGE: u32 = 1_000_001;

/// Parts of sections from an item on, 0 where there is none: the greatest that stays in the function and what it calls,
/// the greatest up to the function's `ret`, and the least of these.
#[derive(Clone, Copy)]
pub struct Size {
    pub on: u32,
    pub back: u32,
    pub least: u32,
}

pub const NO_SIZE: Size = Size {
    on: 0,
    back: 0,
    least: 0,
};

/// That of an item alone.
pub const ONE_ITEM: Size = Size {
    on: 1,
    back: 1,
    least: 1,
};

/// A greatest part: its size, 0 where there is none; and where it begins: at an item, or within what that calls, where
/// it goes on in a mode.
#[derive(Clone, Copy)]
pub struct Part {
    pub size: u32,
    pub item: usize,
    pub inside: Option<Mode>,
}

pub const NO_PART: Part = Part {
    size: 0,
    item: 0,
    inside: None,
};

/// The size from this item on, none where there is no such item.
pub fn item_size(sizes: &[Size], item: usize) -> Size {
    sizes.get(item).copied().unwrap_or(NO_SIZE)
}

fn sum(one: u32, other: u32) -> u32 {
    one.saturating_add(other).min(LARGE)
}

/// The sum, where there are both.
pub fn both(one: u32, other: u32) -> u32 {
    if 0 < one && 0 < other {
        sum(one, other)
    } else {
        0
    }
}

/// Whether the second of two sizes is to be taken: the greater one, or the lesser one that is not 0.
pub fn is_better(mode: Mode, one: u32, other: u32) -> bool {
    match mode {
        Mode::On | Mode::Back => one < other,
        Mode::Least => one == 0 || (0 < other && other < one),
    }
}

/// The first of the greatest parts.
pub fn greater(one: Part, other: Part) -> Part {
    if one.size < other.size { other } else { one }
}

impl Size {
    /// The part that a mode asks for.
    pub fn told(self, mode: Mode) -> u32 {
        match mode {
            Mode::On => self.on,
            Mode::Back => self.back,
            Mode::Least => self.least,
        }
    }

    /// The greatest and the least from one of two items on.
    pub fn joined(self, other: Size) -> Size {
        let is_less = is_better(Mode::Least, self.least, other.least);
        Size {
            on: self.on.max(other.on),
            back: self.back.max(other.back),
            least: if is_less { other.least } else { self.least },
        }
    }

    /// With an item, or what it calls, in front.
    pub fn behind(self, inner: Size) -> Size {
        Size {
            on: inner.on.max(both(inner.back, self.on)),
            back: both(inner.back, self.back),
            least: both(inner.least, self.least),
        }
    }
}

// What an item is to a search.
const NEW: u32 = 1;

const OPEN: u32 = 2;

const DONE: u32 = 3;

// What each item is, and those that are open, each behind one that goes on to it.
#[derive(Drop)]
struct Search {
    states: Vec<u32>,
    stack: Vec<usize>,
}

impl Search {
    fn has(&self, item: usize, state: u32) -> bool {
        number_at(self.states.as_slice(), item) == state
    }

    fn next(&self, nexts: Nexts, state: u32) -> Option<usize> {
        match nexts.0 {
            Some(item) if self.has(item, state) => Some(item),
            _ => nexts.1.filter(|item| self.has(*item, state)),
        }
    }

    fn set(&mut self, item: usize, state: u32) {
        if item < self.states.len() {
            self.states[item] = state;
        }
    }

    fn open(&mut self, item: usize) -> Result<()> {
        self.set(item, OPEN);
        push(&mut self.stack, item)
    }
}

// The last of these items, from this one on.
fn last_items(alloc: Global, items: &[usize], first: usize) -> Result<Vec<usize>> {
    let mut last = Vec::new(alloc);
    for item in items {
        if *item == first || !last.is_empty() {
            push(&mut last, *item)?;
        }
    }
    Ok(last)
}

fn next_size(sizes: &[Size], next: Option<usize>) -> Size {
    match next {
        Some(item) => item_size(sizes, item),
        None => NO_SIZE,
    }
}

// More turns than any body takes: two for each of its 4,096 items at most.
const TURNS: usize = 1_000_000;

// Goes on from the open items until all that they go on to are done. An item from which nothing new is seen is finished;
// one that it goes on to and that is open closes a cycle.
fn dive(place: &Place, search: &mut Search, entry: &mut Entry) -> Result<()> {
    for _turn in 0..TURNS {
        let Some(last) = search.stack.as_slice().last() else {
            return Ok(());
        };
        let item = *last;
        let nexts = place.nexts(item);
        if let Some(next) = search.next(nexts, NEW) {
            search.open(next)?;
            continue;
        }
        if entry.cycle.is_empty() {
            if let Some(first) = search.next(nexts, OPEN) {
                let alloc = place.tables.walks.alloc();
                entry.cycle = last_items(alloc, search.stack.as_slice(), first)?;
            }
        }
        search.set(item, DONE);
        let _item = search.stack.pop();
        let sizes = entry.sizes.as_slice();
        let further = next_size(sizes, nexts.0).joined(next_size(sizes, nexts.1));
        if item < entry.sizes.len() {
            entry.sizes[item] = place.size(further, item);
        }
    }
    Ok(())
}

/// What is known of a function, by the items before which the task is raised; nothing of one that is not there.
pub fn searched(tables: &Tables, func: usize, whole: bool) -> Result<Entry> {
    let alloc = tables.walks.alloc();
    let Some(place) = tables.place(func, whole) else {
        return no_entry(alloc, 0);
    };
    let count = place.func.items.items().len();
    let mut entry = no_entry(alloc, count)?;
    let mut search = Search {
        states: vec![in alloc; NEW; count]?,
        stack: Vec::new(alloc),
    };
    for item in 0..count {
        if place.is_alive(item) && search.has(item, NEW) {
            search.open(item)?;
            dive(&place, &mut search, &mut entry)?;
        }
    }
    entry.most = place.greatest(entry.sizes.as_slice(), Mode::On);
    entry.out = place.greatest(entry.sizes.as_slice(), Mode::Back);
    Ok(entry)
}
