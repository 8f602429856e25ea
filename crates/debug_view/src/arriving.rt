//! The arrivals of a count, and what is carried along from count to count.
ghost use Rattle.std.specs.Prelude.{◌≡◌, map, if◌then◌else◌, Some, None};
ghost use Rattle.std.specs.Option.{unwrap_or};
ghost use Rattle.sloth_base.specs.Arrive.{state_arrive};
ghost use Rattle.observe.specs.Progress.{arrivals_due, arrivals_behind};
ghost use Rattle.rv32_machine.specs.State.{state};
ghost use Rattle.debug_view.specs.Standing.{AreLines};

use observe::passing;
use rv32_machine::{Machine, SlothBus};
use sloth_base::Arrival;
use sloth_runner::runner::arrive_front;

/// The lines of the arrivals of the machine's count become pending. Those of later moments are given back.
pub fn arrive<'a>(machine: &mut Machine<SlothBus>, coming: &'a [Arrival]) -> &'a [Arrival]
    requires lines { AreLines coming.now }
    ensures state { state (λ bus. bus) machine.new ≡ state_arrive (map (λ arrival. arrival.line) (arrivals_due
        machine.old.count coming.now)) (state (λ bus. bus) machine.old) }
    ensures count { machine.new.count ≡ machine.old.count }
    ensures behind { result.now ≡ arrivals_behind machine.old.count coming.now }
{
    let due = passing(coming, machine.count);
    arrive_front(machine, coming, due)
}

/// The number in memory where the stretch began, of a count that finds MIE so, behind one at which this one was there.
pub fn began_behind(enabled: bool, began: Option<u32>, running: u32) -> Option<u32>
    ensures { result ≡ (if enabled then None else Some (unwrap_or began running)) }
{
    if enabled {
        None
    } else {
        Some(began.unwrap_or(running))
    }
}

/// The last count that finds MIE 1, at a count that finds it so.
pub fn open_behind(enabled: bool, before: Option<u32>, count: u32) -> Option<u32>
    ensures { result ≡ (if enabled then Some count else before) }
{
    if enabled { Some(count) } else { before }
}
