//! Laws of the definitions.
ghost use Rattle.bounds_text.specs.BoundsText.{OneText};
ghost use Rattle.bounds_text.specs.Latency.{OneLatencyText};
ghost use Rattle.bounds_text.specs.LowerCounts.{OneLowerCountsText};

/// Texts have one list of lines at most.
pub fn one_text()
    ensures { OneText }
{}

/// The same with the line of the latency.
pub fn one_latency_text()
    ensures { OneLatencyText }
{}

/// The same with the counts of lower tasks.
pub fn one_lower_counts_text()
    ensures { OneLowerCountsText }
{}
