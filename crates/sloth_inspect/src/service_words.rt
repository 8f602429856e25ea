//! What the service words say of events, counters and alarms.
ghost use Rattle.std.specs.Prelude.{◌≡◌, ◌<◌};
ghost use Rattle.sloth_base.specs.Limits.{task_limit, counter_limit, alarm_limit};
ghost use Rattle.sloth_region.specs.Layout.{events, counter_value, alarm_left};
ghost use Rattle.rv32_instr.specs.Ram.{word_at};
ghost use Rattle.sloth_inspect.specs.ServiceWords.{event_words, counter_words, alarm_words, service_words_in};

use crate::word;
use rv32_machine::SlothBus;
use sloth_base::{ALARM_LIMIT, COUNTER_LIMIT, TASK_LIMIT};
use sloth_region::{alarm_left, counter_value, events};

/// What the service words say of events, counters and alarms.
#[derive(Clone, Copy)]
pub struct ServiceWords {
    /// The events of each task that are set.
    pub events: [u32; TASK_LIMIT],
    /// The value of each counter.
    pub counters: [u32; COUNTER_LIMIT],
    /// The ticks that each alarm has left, 0 where it is not in use.
    pub alarms: [u32; ALARM_LIMIT],
}

fn event_word(bus: &mut SlothBus, task: u8) -> u32
    requires { task < task_limit }
    ensures is { result ≡ word_at bus.old.ram (events task) }
    ensures same { bus.new ≡ bus.old }
{
    word(bus, events(task) as u32)
}

fn counter_word(bus: &mut SlothBus, counter: u8) -> u32
    requires { counter < counter_limit }
    ensures is { result ≡ word_at bus.old.ram (counter_value counter) }
    ensures same { bus.new ≡ bus.old }
{
    word(bus, counter_value(counter) as u32)
}

fn alarm_word(bus: &mut SlothBus, alarm: u8) -> u32
    requires { alarm < alarm_limit }
    ensures is { result ≡ word_at bus.old.ram (alarm_left alarm) }
    ensures same { bus.new ≡ bus.old }
{
    word(bus, alarm_left(alarm) as u32)
}

fn event_words(bus: &mut SlothBus) -> [u32; TASK_LIMIT]
    ensures words { result ≡ event_words bus.old.ram }
    ensures same { bus.new ≡ bus.old }
{
    let mut words = [0; TASK_LIMIT];
    for task in 0..TASK_LIMIT {
        words[task] = event_word(bus, task as u8);
    }
    words
}

fn counter_words(bus: &mut SlothBus) -> [u32; COUNTER_LIMIT]
    ensures words { result ≡ counter_words bus.old.ram }
    ensures same { bus.new ≡ bus.old }
{
    let first = counter_word(bus, 0);
    let second = counter_word(bus, 1);
    [first, second]
}

fn alarm_words(bus: &mut SlothBus) -> [u32; ALARM_LIMIT]
    ensures words { result ≡ alarm_words bus.old.ram }
    ensures same { bus.new ≡ bus.old }
{
    let mut words = [0; ALARM_LIMIT];
    for alarm in 0..ALARM_LIMIT {
        words[alarm] = alarm_word(bus, alarm as u8);
    }
    words
}

/// What the service words say. The bus keeps its contents.
pub fn service_words(bus: &mut SlothBus) -> ServiceWords
    ensures words { result ≡ service_words_in bus.old.ram }
    ensures same { bus.new ≡ bus.old }
{
    let events = event_words(bus);
    let counters = counter_words(bus);
    let alarms = alarm_words(bus);
    ServiceWords {
        events,
        counters,
        alarms,
    }
}
