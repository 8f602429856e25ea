//! Laws of the zones of an image: what is linked in them is a generated kernel.
ghost use Rattle.sim_laws.specs.Zones.{ZonesFit, StacksAreApart, BlocksArePlaced, BlocksCanRun};
ghost use Rattle.sim_laws.specs.Symbols.{SymbolsAreInData, SymbolsAreIn, SymbolsAreApart};
ghost use Rattle.sim_laws.specs.LinkedImages.{LinkedIsImage};
ghost use Rattle.sim_laws.specs.Rooms.{BlocksAreIn, BlocksAreInCode, BlocksFollowClosely, MarksDiffer};
ghost use Rattle.sim_laws.specs.GeneratedZones.{BuiltIsGenerated, BuiltIsInPlace};

/// The places of what is built fit where its map has zones.
pub fn zones_fit()
    ensures { ZonesFit }
{}

/// The parts of two tasks are apart where both may have something there at once.
pub fn stacks_are_apart()
    ensures { StacksAreApart }
{}

/// Each block that is linked is placed.
pub fn blocks_are_placed()
    ensures { BlocksArePlaced }
{}

/// Each block that is linked can run.
pub fn blocks_can_run()
    ensures { BlocksCanRun }
{}

/// The symbols lie in the zone of data.
pub fn symbols_are_in_data()
    ensures { SymbolsAreInData }
{}

/// Each symbol's bytes lie in its own room.
pub fn symbols_lie_inside()
    ensures { SymbolsAreIn }
{}

/// No byte of a symbol has the address of one of another symbol.
pub fn symbols_are_apart()
    ensures { SymbolsAreApart }
{}

/// What is linked is an image of what is built.
pub fn linked_is_image()
    ensures { LinkedIsImage }
{}

/// Blocks that fit their extents lie there.
pub fn blocks_lie_inside()
    ensures { BlocksAreIn }
{}

/// Blocks that fit extents in the zone of code lie in it.
pub fn blocks_are_in_code()
    ensures { BlocksAreInCode }
{}

/// Blocks that fill extents with no hole between them have none between them.
pub fn blocks_follow_closely()
    ensures { BlocksFollowClosely }
{}

/// Blocks in extents that follow one another have marks at different addresses.
pub fn marks_differ()
    ensures { MarksDiffer }
{}

/// What is built of blocks by the generators' contracts is generated.
pub fn built_is_generated()
    ensures { BuiltIsGenerated }
{}

/// Its items are in place.
pub fn built_is_in_place()
    ensures { BuiltIsInPlace }
{}
