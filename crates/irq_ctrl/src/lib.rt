//! The interrupt controller of the machine: 32 lines, each with a pending, an enable and a level byte.
//!
//! It finds the greatest line that may be taken, and has its bytes (`Controller`). What it does is defined in
//! `sloth_base` (`Lines`, `Choose`, `Take`); the controller as the machine starts in `specs/Fresh`.
#![tactic(auto)]

ghost use Rattle.std.specs.Prelude.{◌≡◌, ◌<◌, ◌==◌, slice_set, slice_index};
ghost use Rattle.std.specs.Option.{ForSome};
ghost use Rattle.sloth_base.specs.MemoryMap.{controller_bytes, line_count};

mod line_bytes;

use line_bytes::LineBytes;
use sloth_base::Line;
use std::marker::Model;

/// The controller. Contracts see its three lists of bytes.
#[derive(Drop)]
pub struct Controller {
    bytes: LineBytes,
    // The line to be taken where level 0 runs, so that a choice looks at one line and not at 32.
    first: Option<Line>,
}

impl Model for Controller {
    ghost use Rattle.sloth_base.specs.Lines.{Lines};
    ghost use Rattle.sloth_base.specs.Choose.{IsChosen};

    ghost Value = { Lines };

    ghost view = { λ c. c.bytes };

    ghost invariant = { λ c. IsChosen c.bytes 0 c.first };
}

impl Controller {
    ghost use Rattle.sloth_base.specs.Lines.{controller_byte, with_controller_byte};
    ghost use Rattle.sloth_base.specs.Choose.{choose_line, IsChosen};
    ghost use Rattle.sloth_base.specs.Take.{without_pending};
    ghost use Rattle.irq_ctrl.specs.Fresh.{fresh_lines};

    /// A controller whose bytes are zero.
    pub fn new() -> Controller
        ensures { result ≡ fresh_lines }
    {
        let bytes = LineBytes::new();
        let first = bytes.choose(0);
        Controller { bytes, first }
    }

    /// The same controller once more.
    pub fn copy(&self) -> Controller
        ensures { result ≡ self.now }
    {
        Controller {
            bytes: self.bytes.copy(),
            first: self.first,
        }
    }

    /// The line's pending byte becomes 1.
    pub fn arrive(&mut self, line: Line)
        requires { line < line_count }
        ensures { self.new ≡ record self.old { pending = slice_set self.old.pending line 1 } }
    {
        self.bytes.arrive(line);
        self.first = self.bytes.choose(0);
    }

    /// The byte at an offset: pending bytes from 0 on, enable bytes from 32 on, level bytes from 64 on.
    pub fn load(&self, offset: u32) -> u8
        requires { offset < controller_bytes }
        ensures { result ≡ controller_byte self.now offset }
    {
        self.bytes.load(offset)
    }

    /// Writes the byte at an offset. A pending or enable byte keeps 1 for a value that isn't zero.
    pub fn store(&mut self, offset: u32, value: u8)
        requires { offset < controller_bytes }
        ensures { self.new ≡ with_controller_byte self.old offset value }
    {
        self.bytes.store(offset, value);
        self.first = self.bytes.choose(0);
    }

    /// The line to be taken where this level runs: of the pending and enabled lines above it the one of highest level,
    /// and of equal levels the one of least number. None where there is none.
    #[tactic(auto, using(crate::proofs::First::chosen_line, crate::proofs::First::chosen_in_range))]
    pub fn choose(&self, level: u8) -> Option<Line>
        ensures is { result ≡ choose_line self.now level }
        ensures chosen { IsChosen self.now level result }
        ensures in_range { ForSome result (λ line. line < line_count) }
    {
        self.first_above(level)
    }

    /// The line is no longer pending.
    pub fn take(&mut self, line: Line)
        requires { line < line_count }
        ensures { self.new ≡ without_pending line self.old }
    {
        self.bytes.take(line);
        self.first = self.bytes.choose(0);
    }

    /// Whether the line is pending.
    pub fn is_pending(&self, line: Line) -> bool
        requires { line < line_count }
        ensures { result ≡ (slice_index self.now.pending line == 1) }
    {
        self.bytes.is_pending(line)
    }

    /// Whether the line is enabled.
    pub fn is_enabled(&self, line: Line) -> bool
        requires { line < line_count }
        ensures { result ≡ (slice_index self.now.enabled line == 1) }
    {
        self.bytes.is_enabled(line)
    }

    #[tactic(auto, using(crate::proofs::First::first_chosen, crate::proofs::First::none_above, crate::proofs::First::none_at_all, crate::proofs::First::first_in_range))]
    fn first_above(&self, level: u8) -> Option<Line>
        ensures { IsChosen self.now level result }
    {
        match self.first {
            Some(line) if self.bytes.level(line) > level => Some(line),
            _ => None,
        }
    }
}
