//! Laws of the definitions.
ghost use Rattle.fault_witnesses.specs.WayLaws.{WayHolds};

/// What the items of a clean way take and release, in their order, is the list that is held before its last item.
pub fn way_holds()
    ensures { WayHolds }
{}
