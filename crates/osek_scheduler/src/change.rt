//! Changes of a task. What an event of the running task does.

use sloth_base::{Reg, Width};

/// A change of one task. All but the first two, `Start` and `Resume` are changes of the task that runs.
#[derive(Clone, Copy)]
pub enum TaskChange {
    /// It becomes Ready.
    Activate,
    /// These events are set, and it becomes Ready if it waits for one of them.
    AddEvents(u32),
    /// It goes on behind a service with this status.
    Answer(u32),
    /// It goes on behind a service with `E_OK` and this value.
    AnswerWith(u32),
    /// It ends.
    End,
    /// It waits for one of these events.
    Wait(u32),
    /// It gives way to others, by Schedule.
    Pause,
    /// It takes this resource.
    Take(u32),
    /// It gives the resource back that it took last.
    Release,
    /// It clears these events.
    ClearEvents(u32),
    /// It is entered at the first item of its body, which has so many words.
    Start { func: u32, words: u32, non: bool },
    /// It is entered behind its wait.
    Resume(bool),
    /// It comes back from Schedule.
    ComeBack(bool),
    /// A register gets a value.
    Write { rd: Reg, value: u32 },
    /// It goes to this item of its function.
    GoTo(u32),
    /// It goes on behind its item.
    MoveOn,
    /// A word of its frame gets a value.
    StoreWord { word: u32, value: u32 },
    /// It enters a function, which has so many words.
    Invoke { func: u32, words: u32 },
    /// It returns from a function.
    Return,
}

/// What an event of one task does to another task, to an alarm, or to the data.
#[derive(Clone, Copy)]
pub enum Other {
    Nothing,
    /// This task becomes Ready.
    Activate(u32),
    /// Events of a task are set.
    AddEvents {
        task: u32,
        mask: u32,
    },
    /// A value is stored in a symbol.
    Store {
        symbol: u32,
        width: Width,
        offset: u32,
        value: u32,
    },
    /// An alarm gets these ticks to its expiry, and this cycle.
    SetAlarm {
        alarm: u32,
        left: u32,
        cycle: u32,
    },
}

/// What an item does, and the result or status that it shows; none where the task leaves.
#[derive(Clone, Copy)]
pub struct Plan {
    pub answer: Option<u32>,
    pub change: TaskChange,
    pub other: Other,
}
