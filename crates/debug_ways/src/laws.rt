//! Where ways end, in words.
ghost use Rattle.std.specs.Prelude.{◌≡◌, ◌≤◌, ◌<◌, ◌-◌, ℕ, List, Bool, true, false};
ghost use Rattle.debug_ways.specs.Causes.{Wish, is_guard, wish_tests, passage};
ghost use Rattle.debug_ways.specs.Runs.{Run};
ghost use Rattle.debug_ways.specs.Standing.{continued, points_wish};
ghost use Rattle.debug_ways.specs.Ways.{least_behind, greatest_below, ends_ahead, ends_back, guards_before, IsLeast};
ghost use Rattle.debug_ways.specs.Ways.{IsGreatest};
ghost use Rattle.debug_ways.specs.declared.points.Point.{Point};
ghost use Rattle.debug_ways.specs.declared.standing.Standing.{Standing};

/// A way forward ends at the least count behind its own that ends one, or at the last count where there is none.
#[tactic(auto, using(crate::proofs::Searching::found_least))]
pub fn ways_ahead_end_at_the_least()
    ensures { (hit : ℕ → Bool) (from end : ℕ) → from ≤ end → IsLeast hit from end (least_behind hit (end - from) from) }
{}

/// A way back ends at the greatest count below its own that ends one, or at 0 where there is none.
#[tactic(auto, using(crate::proofs::Searching::found_greatest))]
pub fn ways_back_end_at_the_greatest()
    ensures { (hit : ℕ → Bool) (to : ℕ) → IsGreatest hit to (greatest_below hit to) }
{}

/// From the least count behind one that ends ways the way back leads to that one.
#[tactic(auto, using(crate::proofs::Searching::mirrored))]
pub fn ways_mirror()
    ensures { (hit : ℕ → Bool) (from end : ℕ) → from < end → hit from ≡ true
        → greatest_below hit (least_behind hit (end - from) from) ≡ from }
{}

/// A way forward whose first access no watchpoint is for ends at the least count behind at which a breakpoint stands,
/// the target is reached or an access meets a watchpoint, or at the last count where there is none.
#[tactic(auto, using(crate::proofs::Continuing::passage_to_the_least))]
pub fn ways_end_at_the_least_hit()
    ensures { (wish : Wish) (run : Run) (from : ℕ) → from ≤ run.end → is_guard wish (run.look from) ≡ false
        → IsLeast (ends_ahead run (wish_tests wish)) from run.end (passage false wish run from).count }
{}

/// A way back ends at the greatest such count below, or at 0 where there is none.
#[tactic(auto, using(crate::proofs::Continuing::passage_to_the_greatest))]
pub fn ways_back_end_at_the_greatest_hit()
    ensures { (wish : Wish) (run : Run) (from : ℕ) → guards_before run (wish_tests wish) from ≡ false
        → IsGreatest (ends_back run (wish_tests wish)) from (passage true wish run from).count }
{}

/// A continue that no interrupt stops, and whose first access no watchpoint is for, ends at the least count behind at
/// which a breakpoint stands or whose access meets a watchpoint, or at the last count where there is none.
#[tactic(auto, using(crate::proofs::Continuing::ahead_to_the_least))]
pub fn continues_end_at_the_least_hit()
    ensures { (run : Run) (points : List Point) (standing : Standing) → standing.interrupted ≡ false
        → standing.count ≤ run.end
        → is_guard (points_wish points) (run.look standing.count) ≡ false
        → IsLeast (ends_ahead run (wish_tests (points_wish points))) standing.count run.end
        (continued run points false standing).count }
{}

/// A continue back ends at the greatest count below at a breakpoint or behind a watched access, or at 0 without one.
#[tactic(auto, using(crate::proofs::Continuing::back_to_the_greatest))]
pub fn reverse_continues_end_at_the_greatest_hit()
    ensures { (run : Run) (points : List Point) (standing : Standing) → standing.interrupted ≡ false
        → guards_before run (wish_tests (points_wish points)) standing.count ≡ false
        → IsGreatest (ends_back run (wish_tests (points_wish points))) standing.count
        (continued run points true standing).count }
{}
