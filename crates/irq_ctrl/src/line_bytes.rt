//! The pending, enable and level bytes of 32 lines.
ghost use Rattle.std.specs.Prelude.{◌≡◌, ◌<◌, ◌==◌, slice_set, slice_index};
ghost use Rattle.std.specs.Option.{ForSome};
ghost use Rattle.sloth_base.specs.MemoryMap.{controller_bytes, line_count};

use sloth_base::{ENABLED_OFFSET, LEVELS_OFFSET, LINE_COUNT, Line};
use std::marker::Model;

/// The bytes of the lines. Contracts see three lists.
#[derive(Drop)]
pub struct LineBytes {
    pending: [u8; LINE_COUNT],
    enabled: [u8; LINE_COUNT],
    levels: [u8; LINE_COUNT],
}

impl Model for LineBytes {
    ghost use Rattle.sloth_base.specs.Lines.{Lines};

    ghost Value = { Lines };

    ghost view = { λ bytes. record { pending = bytes.pending; enabled = bytes.enabled; levels = bytes.levels } };
}

impl LineBytes {
    ghost use Rattle.sloth_base.specs.Lines.{controller_byte, with_controller_byte};
    ghost use Rattle.sloth_base.specs.Choose.{may_take, better_line, choose_line, IsChosen};
    ghost use Rattle.sloth_base.specs.Take.{without_pending};
    ghost use Rattle.irq_ctrl.specs.Fresh.{fresh_lines};

    /// All bytes are zero.
    pub fn new() -> LineBytes
        ensures { result ≡ fresh_lines }
    {
        LineBytes {
            pending: [0; LINE_COUNT],
            enabled: [0; LINE_COUNT],
            levels: [0; LINE_COUNT],
        }
    }

    /// The same bytes once more.
    pub fn copy(&self) -> LineBytes
        ensures { result ≡ self.now }
    {
        LineBytes {
            pending: self.pending,
            enabled: self.enabled,
            levels: self.levels,
        }
    }

    /// The line's pending byte becomes 1.
    pub fn arrive(&mut self, line: Line)
        requires { line < line_count }
        ensures { self.new ≡ record self.old { pending = slice_set self.old.pending line 1 } }
    {
        self.pending[usize::from(line.0)] = 1;
    }

    /// The byte at an offset: pending bytes from 0 on, enable bytes from 32 on, level bytes from 64 on.
    #[tactic(auto, using(std::proofs::lemmas::Bool::Decides::nat_tests), unfolding(sloth_base::specs::Lines::controller_byte))]
    pub fn load(&self, offset: u32) -> u8
        requires { offset < controller_bytes }
        ensures { result ≡ controller_byte self.now offset }
    {
        let place = offset as usize;
        if place < ENABLED_OFFSET {
            self.pending[place]
        } else if place < LEVELS_OFFSET {
            self.enabled[place - ENABLED_OFFSET]
        } else {
            self.levels[place - LEVELS_OFFSET]
        }
    }

    /// Writes the byte at an offset. A pending or enable byte keeps 1 for a value that isn't zero.
    #[tactic(auto, using(std::proofs::lemmas::Bool::Decides::nat_tests), unfolding(sloth_base::specs::Lines::with_controller_byte))]
    pub fn store(&mut self, offset: u32, value: u8)
        requires { offset < controller_bytes }
        ensures { self.new ≡ with_controller_byte self.old offset value }
    {
        let place = offset as usize;
        if place < ENABLED_OFFSET {
            self.pending[place] = u8::from(value != 0);
        } else if place < LEVELS_OFFSET {
            self.enabled[place - ENABLED_OFFSET] = u8::from(value != 0);
        } else {
            self.levels[place - LEVELS_OFFSET] = value;
        }
    }

    /// The line to be taken where this level runs: of the pending and enabled lines above it the one of highest level,
    /// and of equal levels the one of least number. None where there is none.
    #[tactic(auto, using(std::proofs::lemmas::Bool::Decides::nat_tests), unfolding(sloth_base::specs::Choose::best_line_below, sloth_base::specs::Choose::choose_line))]
    pub fn choose(&self, level: u8) -> Option<Line>
        ensures is { result ≡ choose_line self.now level }
        ensures chosen { IsChosen self.now level result }
        ensures in_range { ForSome result (λ line. line < line_count) }
    {
        let mut best = None;
        for line in 0..LINE_COUNT as u8 {
            if self.may_take(level, Line(line)) {
                best = Some(self.better(best, Line(line)));
            }
        }
        best
    }

    /// The line is no longer pending.
    pub fn take(&mut self, line: Line)
        requires { line < line_count }
        ensures { self.new ≡ without_pending line self.old }
    {
        self.pending[usize::from(line.0)] = 0;
    }

    /// Whether the line is pending.
    pub fn is_pending(&self, line: Line) -> bool
        requires { line < line_count }
        ensures { result ≡ (slice_index self.now.pending line == 1) }
    {
        self.pending[usize::from(line.0)] == 1
    }

    /// Whether the line is enabled.
    pub fn is_enabled(&self, line: Line) -> bool
        requires { line < line_count }
        ensures { result ≡ (slice_index self.now.enabled line == 1) }
    {
        self.enabled[usize::from(line.0)] == 1
    }

    /// The line's level byte.
    pub fn level(&self, line: Line) -> u8
        requires { line < line_count }
        ensures { result ≡ slice_index self.now.levels line }
    {
        self.levels[usize::from(line.0)]
    }

    fn may_take(&self, level: u8, line: Line) -> bool
        requires { line < line_count }
        ensures { result ≡ may_take self.now level line }
    {
        self.is_pending(line) && self.is_enabled(line) && self.level(line) > level
    }

    fn better(&self, best: Option<Line>, line: Line) -> Line
        requires found { ForSome best (λ b. b < line_count) }
        requires in_range { line < line_count }
        ensures is { better_line self.now best line ≡ Some result }
        ensures in_range { result < line_count }
    {
        match best {
            Some(best) if self.level(best) >= self.level(line) => best,
            _ => line,
        }
    }
}
