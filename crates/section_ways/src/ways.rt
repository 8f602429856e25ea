//! A greatest section of a lower task, or a cycle in one; what is known of all functions, where their callers raised the
//! task and where it has to be raised to a priority.
ghost use Rattle.std.specs.Prelude.{◌≡◌, ◌<◌, ◌+◌, length, true, IfOk, IfSome};
ghost use Rattle.osek_blocking.specs.Sections.{IsLower};
ghost use Rattle.bound_rules.specs.declared.bound.Bound.TheVariants as bound_is;
ghost use Rattle.section_ways.specs.ShownWays.{ArePointsOf, IsShown};
ghost use Rattle.section_ways.specs.Trying.{ArePoints};

use crate::pair::Trial;
use crate::place::{NO_PART, NO_SIZE, Part, Place, Size, item_size, searched};
use crate::walking::{Mode, cycle_points, cycle_start, frame_points, push_points, section_start};
use bound_rules::Bound;
use sloth_base::{Config, List, Result};
use std::alloc::Global;
use text_pieces::push;
use walk_sums::{Point, Walks};

/// A lower task, and the points of a section of it, or of a cycle within one.
#[derive(Drop)]
pub struct Way {
    pub task: usize,
    pub points: List<Point>,
}

/// Points, if they are found.
type Points = Option<Vec<Point>>;

fn has_items(points: &[Point], items: u32) -> bool
    ensures { result ≡ true → length points.now + 1 ≡ items }
{
    points.len() + 1 == items as usize
}

fn is_lower(config: &Config, above: usize, task: usize) -> bool
    requires above { above < length config.now.tasks }
    requires inside { task < length config.now.tasks }
    ensures { result ≡ true → IsLower config.now above task }
{
    config.priority(task) < config.priority(above)
}

impl Trial<'_> {
    // These points, if they are those of a section of an item less.
    fn proven_section(&self, start: &[Point], points: Vec<Point>, items: u32) -> Result<Points>
        ensures { IfOk result (λ found.
            IfSome found (λ points. ArePoints self.now (bound_is.Items items) points.items)) }
    {
        if !has_items(points.as_slice(), items) {
            return Ok(None);
        }
        if !self.is_section_way(start, points.as_slice())? {
            return Ok(None);
        }
        Ok(Some(points))
    }

    // The points of a section of the task of an item less.
    fn section(&self, tables: &Tables, items: u32) -> Result<Points>
        ensures { IfOk result (λ found.
            IfSome found (λ points. ArePoints self.now (bound_is.Items items) points.items)) }
    {
        let alloc = self.walks.alloc();
        let mut frames = section_start(tables, self.body(), self.is_always_raised())?;
        let start = frame_points(alloc, frames.as_slice())?;
        let mut points = Vec::new(alloc);
        let count = items.saturating_sub(1) as usize;
        push_points(tables, &mut points, &mut frames, count)?;
        self.proven_section(start.as_slice(), points, items)
    }

    // These points without the last one, which is the first again, if they are those of a cycle.
    fn proven_cycle(&self, start: &[Point], mut points: Vec<Point>) -> Result<Points>
        ensures { IfOk result (λ found. IfSome found (λ points. ArePoints self.now bound_is.Endless points.items)) }
    {
        if !self.is_closed_way(start, points.as_slice())? {
            return Ok(None);
        }
        let Some(_last) = points.pop() else {
            return Ok(None);
        };
        Ok(Some(points))
    }

    fn cycle(&self, tables: &Tables) -> Result<Points>
        ensures { IfOk result (λ found. IfSome found (λ points. ArePoints self.now bound_is.Endless points.items)) }
    {
        let frames = cycle_start(tables, self.body(), self.is_always_raised())?;
        let start = frame_points(self.walks.alloc(), frames.as_slice())?;
        let Some(at) = frames.as_slice().last() else {
            return Ok(None);
        };
        let points = cycle_points(tables, *at)?;
        self.proven_cycle(start.as_slice(), points)
    }

    // The points of which a bound is made, if they are the task's.
    fn points(&self, tables: &Tables, bound: Bound) -> Result<Points>
        ensures { IfOk result (λ found. IfSome found (λ points. ArePoints self.now bound points.items)) }
    {
        match bound {
            Bound::Items(items) => self.section(tables, items),
            Bound::Huge => Ok(None),
            Bound::Endless => self.cycle(tables),
        }
    }
}

fn task_points(
    walks: &Walks,
    tables: &Tables,
    above: usize,
    task: usize,
    bound: Bound,
) -> Result<Points>
    requires above { above < length walks.now.config.tasks }
    requires inside { task < length walks.now.config.tasks }
    ensures { IfOk result (λ found. IfSome found (λ points.
        ArePointsOf walks.now.config walks.now.app above bound task points.items)) }
{
    if is_lower(walks.config(), above, task) {
        Trial::new(walks, above, task).points(tables, bound)
    } else {
        Ok(None)
    }
}

/// A lower task of task `above`, and the points of which the bound of that is made, if they are found: of a section of
/// it of an item less, or of a cycle within one.
pub fn lower_way(walks: &Walks, above: usize, bound: Bound) -> Result<Option<Way>>
    requires { above < length walks.now.config.tasks }
    ensures { IfOk result (IsShown walks.now.config walks.now.app above bound) }
{
    let config = walks.config();
    let tables = all_tables(walks, config.priority(above))?;
    for task in 0..config.tasks.items().len() {
        if let Some(points) = task_points(walks, &tables, above, task, bound)? {
            return Ok(Some(Way {
                task,
                points: List::from_vec(points),
            }));
        }
    }
    Ok(None)
}

/// Of a function at a level: the sizes from each of its items, the first cycle that is found of them, its greatest
/// part, and the greatest that ends with its `ret`.
pub struct Entry {
    pub sizes: Vec<Size>,
    pub cycle: Vec<usize>,
    pub most: Part,
    pub out: Part,
}

// Written out: what is derived is proved anew wherever a value is let go.
impl Drop for Entry {
    fn drop(self) {
        let Entry {
            sizes: _,
            cycle: _,
            most: _,
            out: _,
        } = self;
    }
}

/// Of functions by their numbers, at both levels, of walked task code.
pub struct Tables<'a> {
    pub walks: &'a Walks<'a>,
    pub priority: u32,
    whole: Vec<Entry>,
    own: Vec<Entry>,
}

// Written out, as above.
impl Drop for Tables<'_> {
    fn drop(self) {
        let Tables {
            walks: _,
            priority: _,
            whole: _,
            own: _,
        } = self;
    }
}

impl Tables<'_> {
    /// A function at a level, if there is one.
    pub fn place(&self, func: usize, whole: bool) -> Option<Place<'_>> {
        Some(Place {
            tables: self,
            func: self.walks.app().funcs.items().get(func)?,
            body: self.walks.bodies().get(func)?,
            whole,
        })
    }

    /// What an item calls, and whether raised.
    pub fn call(&self, func: usize, whole: bool, item: usize) -> Option<(usize, bool)> {
        self.place(func, whole)?.call(item)
    }

    fn entry(&self, func: usize, whole: bool) -> Option<&Entry> {
        let entries = if whole { &self.whole } else { &self.own };
        entries.as_slice().get(func)
    }

    /// The size from an item on.
    pub fn size(&self, func: usize, whole: bool, item: usize) -> Size {
        match self.entry(func, whole) {
            Some(entry) => item_size(entry.sizes.as_slice(), item),
            None => NO_SIZE,
        }
    }

    /// The greatest part of a function, or of those that leave it by its `ret`.
    pub fn part(&self, func: usize, whole: bool, mode: Mode) -> Part {
        match (self.entry(func, whole), mode) {
            (Some(entry), Mode::On) => entry.most,
            (Some(entry), _) => entry.out,
            (None, _) => NO_PART,
        }
    }

    /// The items of a cycle of a function, if it has one.
    pub fn cycle(&self, func: usize, whole: bool) -> &[usize] {
        match self.entry(func, whole) {
            Some(entry) => entry.cycle.as_slice(),
            None => &[],
        }
    }
}

/// Nothing known of so many items.
pub fn no_entry(alloc: Global, count: usize) -> Result<Entry> {
    Ok(Entry {
        sizes: vec![in alloc; NO_SIZE; count]?,
        cycle: Vec::new(alloc),
        most: NO_PART,
        out: NO_PART,
    })
}

fn no_entries(alloc: Global, count: usize) -> Result<Vec<Entry>> {
    let mut entries = Vec::new(alloc);
    for _func in 0..count {
        push(&mut entries, no_entry(alloc, 0)?)?;
    }
    Ok(entries)
}

fn put(entries: &mut [Entry], func: usize, entry: Entry) {
    if func < entries.len() {
        entries[func] = entry;
    }
}

/// The tables of walked task code for a priority.
pub fn all_tables<'a>(walks: &'a Walks<'a>, priority: u32) -> Result<Tables<'a>> {
    let count = walks.app().funcs.items().len();
    let mut tables = Tables {
        walks,
        priority,
        whole: no_entries(walks.alloc(), count)?,
        own: no_entries(walks.alloc(), count)?,
    };
    for func in walks.order() {
        let entry = searched(&tables, *func, true)?;
        put(tables.whole.as_mut_slice(), *func, entry);
        let entry = searched(&tables, *func, false)?;
        put(tables.own.as_mut_slice(), *func, entry);
    }
    Ok(tables)
}
