//! Laws of the definitions.
ghost use Rattle.std.specs.Prelude.{List, [], Bool};
ghost use Rattle.sloth_base.specs.declared.numbers.Step.{Step};
ghost use Rattle.observe.specs.Pieces.{IsCut, pieces, cut_off_steps, IsContinuous, StartsAtZero, FindsEnabled};
ghost use Rattle.observe.specs.Pieces.{RestFindsMasked};
ghost use Rattle.std.specs.List.{AllByRecursion};

/// A run is cut by the rule of stretches.
pub fn is_cut_by_the_rule()
    ensures { (steps : List Step) → IsCut steps (pieces [] steps) (cut_off_steps [] steps) }
{}

/// In a run whose first step has count 0, and whose steps find MIE as the steps before them left it, MIE is 1 before
/// and after each step outside the stretches, and 0 before each step inside one but its first.
pub fn stretches_are_masked()
    ensures pieces { (steps : List Step) (enabled : Bool) → StartsAtZero steps → IsContinuous enabled steps
        → AllByRecursion FindsEnabled (pieces [] steps) }
    ensures left { (steps : List Step) (enabled : Bool) → StartsAtZero steps → IsContinuous enabled steps
        → RestFindsMasked (cut_off_steps [] steps) }
{}
