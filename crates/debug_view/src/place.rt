//! A machine at a count of its run, with the arrivals of that count.
ghost use Rattle.std.specs.Prelude.{◌≡◌, ◌≤◌, IfOk, length};
ghost use Rattle.sloth_base.specs.Limits.{task_limit};
ghost use Rattle.sloth_base.specs.ImageRange.{InFormat};
ghost use Rattle.sloth_base.specs.Arrivals.{AreArrivals};
ghost use Rattle.sloth_base.specs.Owners.{owners_named};

use crate::arriving::{arrive, began_behind, open_behind};
use crate::instructions::machine_look;
use crate::registers::{running_number, shown_byte, thread_register};
use crate::tracing::put_run_text;
use debug_ways::{Look, Machine};
use osek_scheduler::TaskState;
use rv32_machine::{Machine as Hart, SlothBus, Stop};
use sloth_base::{Arrival, COUNT_LIMIT, Image, Result, TASK_LIMIT};
use sloth_inspect::states;
use std::alloc::Global;
use std::marker::Model;

/// A machine at a count of the run of an image. Contracts see the image, the arrivals and the count.
#[derive(Drop)]
pub struct Place<'a> {
    image: &'a Image,
    arrivals: &'a [Arrival],
    // The arrivals of later moments.
    coming: &'a [Arrival],
    machine: Hart<SlothBus>,
    // In a stretch that began before the count: the number of the running task that stood in memory where it began.
    began: Option<u32>,
    // The last count up to this one that finds interrupts open.
    open_count: Option<u32>,
}

impl<'a> Model for Place<'a> {
    ghost use Rattle.rv32_machine.specs.State.{state};
    ghost use Rattle.debug_view.specs.Standing.{Standing, StandsAt};

    ghost Value = { Standing };

    ghost view = { λ place. record {
      image = place.image.now;
      arrivals = place.arrivals.now;
      count = place.machine.count;
    } };

    ghost invariant = { λ place. StandsAt place.image.now place.arrivals.now place.coming.now
        (state (λ bus. bus) place.machine) place.machine.count place.began place.open_count };
}

impl<'a> Place<'a> {
    /// The start of a run, with all memory of it.
    pub fn new(alloc: Global, image: &'a Image, arrivals: &'a [Arrival]) -> Result<Place<'a>>
        requires format { InFormat image.now }
        requires arrivals { AreArrivals (owners_named image.now) arrivals.now }
        ensures { IfOk result (λ place. place ≡ record { image = image.now; arrivals = arrivals.now; count = 0 }) }
    {
        let machine = Hart::starting(alloc, image)?;
        Ok(Place {
            image,
            arrivals,
            coming: arrivals,
            machine,
            began: None,
            open_count: None,
        })
    }

    fn tasks(&self) -> u32
        ensures is { result ≡ length self.now.image.tasks }
        ensures few { result ≤ task_limit }
    {
        self.image.tasks.items().len() as u32
    }
}

impl<'a> Machine for Place<'a> {
    ghost use Rattle.debug_view.specs.ShownRun.{run_of};

    ghost run = { λ place. run_of place.image place.arrivals };

    ghost count = { λ place. place.count };

    fn step(&mut self) -> bool {
        if self.machine.count >= COUNT_LIMIT {
            return false;
        }
        let running = running_number(&mut self.machine);
        match self.machine.step_front() {
            Ok(_) => {
                self.coming = arrive(&mut self.machine, self.coming);
                let enabled = self.machine.enabled();
                self.began = began_behind(enabled, self.began, running);
                self.open_count = open_behind(enabled, self.open_count, self.machine.count);
                true
            }
            Err(_) => false,
        }
    }

    fn copy(&self, alloc: Global) -> Result<Place<'a>> {
        let mut place = Place::new(alloc, self.image, self.arrivals)?;
        place.set_to(self);
        Ok(place)
    }

    fn set_to(&mut self, other: &Place<'a>) {
        self.machine.set_to(&other.machine);
        self.image = other.image;
        self.arrivals = other.arrivals;
        self.coming = other.coming;
        self.began = other.began;
        self.open_count = other.open_count;
    }

    fn look(&mut self) -> Look {
        let tasks = self.tasks();
        machine_look(&mut self.machine, tasks, self.began, self.open_count)
    }

    fn states(&mut self) -> [TaskState; TASK_LIMIT] {
        let tasks = self.tasks();
        states(self.machine.bus_mut(), tasks)
    }

    fn stop(&mut self) -> Option<Stop> {
        if self.machine.count >= COUNT_LIMIT {
            return None;
        }
        match self.machine.step_front() {
            Ok(_) => unreachable!(),
            Err(stop) => Some(stop),
        }
    }

    fn register(&mut self, thread: u32, number: u32) -> Option<u32> {
        let tasks = self.tasks();
        thread_register(&mut self.machine, tasks, self.began, thread, number)
    }

    fn put_trace(&self, alloc: Global, out: &mut Vec<u8>, counts: u32) -> Result<()> {
        put_run_text(alloc, out, self.image, self.arrivals, counts)
    }

    fn byte(&mut self, address: u32) -> Option<u8> {
        shown_byte(&mut self.machine, address)
    }
}
