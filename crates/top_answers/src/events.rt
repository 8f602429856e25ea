//! Events: as rows show them, as lines, and as an observer tells them of steps that are written out by hand.
ghost use Rattle.std.specs.Prelude.{◌≡◌, []};
ghost use Rattle.observe.specs.Progress.{expected_count, remaining};
ghost use Rattle.sloth_base.specs.Arrivals.{AreArrivals};
ghost use Rattle.sloth_base.specs.ImageRange.{InFormat};
ghost use Rattle.sloth_base.specs.Owners.{owners_named};

use crate::machine::hex_words;
use crate::rows::Piece::{Bytes, Flag, Number};
use crate::rows::{Rows, Told, shown};
use observe::Observer;
use sloth_base::{Arrival, Event, Image, LINE_COUNT, Line, Service, Stamp, Stamped, Step};
use std::alloc::Global;
use trace_text::{Form, kind_line, print, read_line};

// The task, function and counter number of none.
const NONE: u32 = 4_294_967_295;

// An event of each kind, and of the ticks that of no counter.
const EVENTS: [Event; 12] = [
    Event::Boot,
    Event::Admit(0),
    Event::Enter(NONE),
    Event::Run {
        task: 0,
        func: 0,
        item: 12,
        result: NONE,
    },
    Event::Call {
        task: 0,
        service: Service::ActivateTask,
        status: 4,
    },
    Event::Left {
        task: 0,
        service: Service::WaitEvent,
    },
    Event::Back(0),
    Event::Idle,
    Event::Stray,
    Event::Due(0),
    Event::Tick(0),
    Event::Tick(NONE),
];

// Appends an event with its counts.
fn put_stamped(rows: &mut Rows, event: &Stamped) {
    form!(rows; "% % "; ; event.stamp.from, event.stamp.at);
    form_value!(rows, &event.event;
        Event::Boot => "Boot" [];
        Event::Admit(task) => "Admit(%)" [] *task;
        Event::Enter(task) => "Enter(%)" [] *task;
        Event::Run { task, func, item, result } =>
            "Run { task: %, func: %, item: %, result: % }" [] *task, *func, *item, *result;
        Event::Call { task, service, status } =>
            "Call { task: %, service: %, status: % }" [Number(*task as i64), Bytes(service.name())] *status;
        Event::Left { task, service } =>
            "Left { task: %, service: % }" [Number(*task as i64), Bytes(service.name())];
        Event::Back(task) => "Back(%)" [] *task;
        Event::Idle => "Idle" [];
        Event::Stray => "Stray" [];
        Event::Due(counter) => "Due(%)" [] *counter;
        Event::Tick(counter) => "Tick(%)" [] *counter;
    );
    rows.text("\n");
}

fn is_same(alloc: Global, one: &Stamped, other: &Stamped) -> bool {
    let (mut first, mut second) = (Rows::new(alloc), Rows::new(alloc));
    put_stamped(&mut first, one);
    put_stamped(&mut second, other);
    first.text == second.text
}

// Both lines of an event with the names of an image, and whether it is read back from the one with its counts.
fn list_event(rows: &mut Rows, event: Event, image: &Image)
    requires { InFormat image.now }
{
    let stamp = Stamp {
        from: 9,
        at: 1_000_000,
    };
    let event = Stamped { stamp, event };
    form!(rows; "%\n"; Bytes(print(&event, Form::Bare, image).bytes()));
    let line = print(&event, Form::Counted, image);
    let (tasks, funcs) = (image.tasks.items(), image.funcs.items());
    let again = match read_line(line.bytes(), tasks, funcs, image.counters.items()) {
        Some(again) => is_same(rows.alloc, &again, &event),
        None => false,
    };
    form!(rows; "%\nread back %\n"; Bytes(line.bytes()), Flag(again));
}

/// The lines of an event of each kind, with the names of an image.
pub fn list_events(rows: &mut Rows, image: &Image)
    requires { InFormat image.now }
{
    for event in EVENTS {
        list_event(rows, event, image);
    }
}

/// The lines of a summary.
pub fn list_summary(rows: &mut Rows) {
    let counts: [u32; 10] = [1, 20, 300, 4, 0, 6, 70, 4_294_967_295, 0, 8];
    for kind in 0..10 {
        rows.text(shown(kind_line(&counts, kind).bytes()));
    }
}

// The line of this number, if it is one.
fn line(number: u32) -> Option<Line> {
    if number < LINE_COUNT as u32 {
        Some(Line(number as u8))
    } else {
        None
    }
}

// The step of this count with these numbers: its address, the line that is taken before it, MIE and the running task's
// word behind it, and the line that it touches; behind a step with those.
fn step(count: u32, before: &[u32; 5], numbers: &[u32; 5]) -> Step
    ensures { result.count ≡ count }
{
    Step {
        count,
        pc: numbers[0],
        entered: line(numbers[1]),
        enabled_before: before[2] == 1,
        enabled_after: numbers[2] == 1,
        cur_before: before[3],
        cur_after: numbers[3],
        touched: line(numbers[4]),
        regs: [7; 32],
    }
}

// The events that are finished.
fn drain(rows: &mut Rows, observer: &mut Observer)
    ensures drained { remaining observer.new ≡ [] }
    ensures expected { expected_count observer.new ≡ expected_count observer.old }
{
    while let Some(event) = observer.next() {
        put_stamped(rows, &event);
    }
}

/// The events that an observer tells of the first hundred of these steps, each a line with its numbers, under the marks
/// of an image and with these arrivals.
pub fn list_steps(rows: &mut Rows, image: &Image, arrivals: &[Arrival], steps: &str) -> Told
    requires format { InFormat image.now }
    requires arrivals { AreArrivals (owners_named image.now) arrivals.now }
{
    let mut observer = Observer::new(rows.alloc, image, arrivals)?;
    let mut count: u32 = 0;
    let mut before = [0; 5];
    for line in steps.lines() {
        if count < 100 {
            let numbers = hex_words(line);
            observer.feed(&step(count, &before, &numbers));
            drain(rows, &mut observer);
            count += 1;
            before = numbers;
        }
    }
    Ok(())
}
