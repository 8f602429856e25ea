//! The memory image and its marks.

use crate::{List, Name};

/// What a mark says of the instruction at its address.
#[derive(Clone, Copy)]
pub enum MarkKind {
    /// It completes an item: `a` is the register of the result, `b` the function, `c` the item.
    Item,
    /// It jumps to a service: `a` is the service's code, `b` the function, `c` the item.
    Jump,
    /// It masks interrupts as a service begins: `a` is the service's code.
    Opening,
    /// It is the idle loop.
    Idle,
    /// It masks interrupts as a task comes back from Schedule.
    Back,
}

/// A mark on the instruction at an address.
#[derive(Clone, Copy)]
pub struct Mark {
    pub address: u32,
    pub kind: MarkKind,
    pub a: u8,
    pub b: u16,
    pub c: u32,
}

/// A memory image: the bytes from the base of memory on, the marks, and the names that they speak of.
pub struct Image {
    pub tasks: List<Name>,
    pub funcs: List<Name>,
    pub counters: List<Name>,
    pub memory: List<u8>,
    pub marks: List<Mark>,
}

// Written out: what is derived is proved anew wherever a value is let go.
impl Drop for Image {
    fn drop(self) {
        let Image {
            tasks: _,
            funcs: _,
            counters: _,
            memory: _,
            marks: _,
        } = self;
    }
}
