//! Which counts a tool takes.
ghost use Rattle.std.specs.Prelude.{◌≡◌, ◌≤◌, ℕ, Some};
ghost use Rattle.command_line.specs.declared.counts.Limit.TheVariants as limit;
ghost use Rattle.command_line.specs.Tools.{AreCounts, IsWindow, number_of, window_of};

/// The counts from one to below another.
#[derive(Clone, Copy)]
pub struct Window {
    pub from: u32,
    pub to: u32,
}

/// The counts that a tool takes.
#[derive(Clone, Copy)]
pub enum Counts {
    /// How many instructions, or which count.
    One(u32),
    /// A part of a run.
    Window(Window),
}

/// Which counts may be taken.
#[derive(Clone, Copy)]
pub enum Limit {
    /// A number up to this one.
    One(u32),
    /// A window whose end is at most `most`, and at most `apart` behind its beginning.
    Window { most: u32, apart: u32 },
}

/// The number among a tool's counts, or 0.
pub fn number_of(counts: Option<Counts>) -> u32
    ensures is { result ≡ number_of counts }
    ensures within { (most : ℕ) → AreCounts (Some (limit.One most)) counts → result ≤ most }
{
    match counts {
        Some(Counts::One(n)) => n,
        Some(Counts::Window(_)) | None => 0,
    }
}

/// The window among a tool's counts, or one of no counts.
pub fn window_of(counts: Option<Counts>) -> Window
    ensures is { result ≡ window_of counts }
    ensures within { (most apart : ℕ) → AreCounts (Some (limit.Window most apart)) counts → IsWindow most apart result }
{
    match counts {
        Some(Counts::Window(window)) => window,
        Some(Counts::One(_)) | None => Window { from: 0, to: 0 },
    }
}
