//! The laws of what a run's events spend.
ghost use Rattle.run_counts.specs.Laws.{RunsKeepWeights};
ghost use Rattle.run_counts.specs.Spending.{RunsSpendOnLower, RunsSpendNothing};
ghost use Rattle.run_counts.specs.Latency.{RunsEnterByWeights};
ghost use Rattle.run_counts.specs.Rounds.{RoundsSpendWithinItems};
ghost use Rattle.run_counts.specs.OwnCounts.{RunsOwnWhatIsCharged, RunsShareCounts, RunsHaveShortGaps};
ghost use Rattle.run_counts.specs.OwnCounts.{RunsPreemptWithinItems, RoundsOwnWithinItems, RoundsOwnItems};
ghost use Rattle.run_counts.specs.OwnCounts.{ImagesOwnWithinItems};

/// In a run that keeps the pace no stage spends more than its event weighs, with the item in front of it.
pub fn runs_keep_weights()
    ensures { RunsKeepWeights }
{}

/// In a run of well-formed task code that keeps the pace, from an event that makes a task Ready up to its entry, lower
/// tasks spend at most the weight of one item and the greatest sum of a section.
pub fn runs_spend_on_lower()
    ensures { RunsSpendOnLower }
{}

/// From an event that makes a task Ready up to its entry, nothing is spent on lower tasks where there are none.
pub fn runs_spend_nothing()
    ensures { RunsSpendNothing }
{}

/// In a run of well-formed task code that keeps the pace, what is charged to the events of a round of a task is at most
/// the sum of the weights of the items that they execute.
pub fn rounds_spend_within_items()
    ensures { RoundsSpendWithinItems }
{}

/// In each stage of a run in time a task's own counts are those that its events are charged with, and in front of an
/// entry or a tick that preempts it those of the item that it has begun.
pub fn runs_own_what_is_charged()
    ensures { RunsOwnWhatIsCharged }
{}

/// In each stage of a run in time and pace the counts are those of an event of no task, and own counts of one task.
pub fn runs_share_counts()
    ensures { RunsShareCounts }
{}

/// In a run in time of well-formed task code that keeps the pace, a task's own counts in a round are at most the sum of
/// the weights of the items that its events execute and, for each entry and tick that preempts it, the instructions of
/// the item begun; with these entries and ticks at most the items' weights, theirs, and for each the longest item.
pub fn rounds_own_within_items()
    ensures { RoundsOwnWithinItems }
{}

/// In a run in time in which no task spends more on an item than it has, a task's own counts in a round are at most the
/// sum of the weights of the items that its events execute, and in one not finished the instructions of the item begun.
pub fn rounds_own_items()
    ensures { RoundsOwnItems }
{}

/// In paced runs no entry or tick stands behind more counts that show no event than the longest item has instructions.
pub fn runs_have_short_gaps()
    ensures { RunsHaveShortGaps }
{}

/// In a run that keeps the pace an entry or a tick that preempts a task stands behind no more counts that show no event
/// than the item has instructions at which the task stands.
pub fn runs_preempt_within_items()
    ensures { RunsPreemptWithinItems }
{}

/// Where an image's builder promises sound runs in pace, a task's own counts in a round are at most the sum of the
/// weights in counts of the items that its events execute, and in one not finished the instructions of the item begun.
pub fn images_own_within_items()
    ensures { ImagesOwnWithinItems }
{}

/// In a run in time, in pace, within its events' weights, the highest task is entered, if a stretch more follows,
/// within its latency by weights from an arrival behind boot, and the ticks', each with the longest item in front.
pub fn runs_enter_by_weights()
    ensures { RunsEnterByWeights }
{}
