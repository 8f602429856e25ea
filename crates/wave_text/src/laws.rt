//! Laws of waves.
ghost use Rattle.std.specs.Prelude.{ℕ, ◌≡◌, ◌<◌, ◌≤◌, List, All, length};
ghost use Rattle.sloth_base.specs.declared.numbers.Owners.{Owners};
ghost use Rattle.sloth_base.specs.Limits.{task_limit, counter_limit};
ghost use Rattle.wave_text.specs.declared.dump.Moment.{Moment};
ghost use Rattle.wave_text.specs.Reading.{ReadsBack};
ghost use Rattle.wave_text.specs.Signals.{code_text, IsPrintable};

/// A dump of moments gives each signal at each count the value that it has at the moment of the count.
pub fn waves_read_back()
    ensures { (owners : Owners) (moments : List Moment) (k : ℕ) → owners.tasks ≤ task_limit
        → owners.counters ≤ counter_limit → k < length moments →
        ReadsBack owners moments k }
{}

/// The characters of codes from 33 to 220 are printable, and no two codes have one text.
pub fn codes_are_told_apart()
    ensures printable { (code : ℕ) → 33 ≤ code → code ≤ 220 → All IsPrintable (code_text code) }
    ensures apart { (one other : ℕ) → code_text one ≡ code_text other → one ≡ other }
{}
