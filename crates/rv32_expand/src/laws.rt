//! Laws on the instructions of items and their lengths.
ghost use Rattle.rv32_expand.specs.ItemLengths.{LengthsAreSizes, ExpansionsAreFew, LeastIsOne, SizesAreOne};
ghost use Rattle.rv32_expand.specs.ItemLengths.{LeastAreLong, ItemsAreAdjacent, ShortBranchesReach};
ghost use Rattle.rv32_expand.specs.ItemLengths.{InstructionsAreInRange, LastCommits};

/// An operation has as many instructions wherever it stands.
pub fn lengths_are_sizes()
    ensures { LengthsAreSizes }
{}

/// An item has at least one instruction, and at most 36.
pub fn expansions_are_few()
    ensures { ExpansionsAreFew }
{}

/// Two least sets of long branches agree on every branch.
pub fn least_is_one()
    ensures { LeastIsOne }
{}

/// There is one list of lengths.
pub fn sizes_are_one()
    ensures { SizesAreOne }
{}

/// Addresses that agree with the lengths make the least set of branches long.
pub fn least_are_long()
    ensures { LeastAreLong }
{}

/// Each item stands behind the instructions of the one before it.
pub fn items_are_adjacent()
    ensures { ItemsAreAdjacent }
{}

/// A short branch reaches its label's item.
pub fn short_branches_reach()
    ensures { ShortBranchesReach }
{}

/// Each instruction of an item has a word.
pub fn instructions_are_in_range()
    ensures { InstructionsAreInRange }
{}

/// The last instruction of an item has the register of the item's mark.
pub fn last_commits()
    ensures { LastCommits }
{}
