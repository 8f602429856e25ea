//! Items of task code and the idle loop as events of the abstract scheduler. The instructions of an item stand in
//! `rv32_expand`, what it means in `osek_scheduler` (`Meaning`).
//!
//! Each instruction of an item, and of the idle loop, is one step of the abstract scheduler or none
//! (`straight_items_continue`, `expansions_continue`, `flowing_items_continue`, `calls_continue`, `returns_continue`,
//! `idle_continues`, ..; `specs/ItemSteps`, `specs/Outside`). Where a task stands at an item: `specs/Place`. The idle
//! loop: `vector_gen` (`Idle`); the relation, and the measure of instructions that show no event: `sim_relation`
//! (`Stands`, `Progress`).
#![tactic(auto)]

ghost use Rattle.sim_items.specs.ItemSteps.{StraightItemsRun};
ghost use Rattle.sim_items.specs.Outside.{StraightItemsGoOn, ExpansionsGoOn, FlowingItemsGoOn, CallsBegin, CallsGoOn};
ghost use Rattle.sim_items.specs.Outside.{ReturnsBegin, ReturnsGoOn, MaskedJumpsGoOn, ServiceJumpsGoOn, IdleGoesOn};

/// The last instruction of an item behind which the next one follows is the item's Run event, with its result.
pub fn straight_items_run()
    ensures { StraightItemsRun }
{}

/// In a run it is an instruction outside the stretches.
pub fn straight_items_continue()
    ensures { StraightItemsGoOn }
{}

/// An instruction before it shows nothing, whatever has arrived, and makes progress.
pub fn expansions_continue()
    ensures { ExpansionsGoOn }
{}

/// Each instruction of a jump or a branch, short or long, advances the run: the last one is the item's Run event,
/// behind which the item at the label or the next one follows.
pub fn flowing_items_continue()
    ensures { FlowingItemsGoOn }
{}

/// The first instruction of a call makes room for the new frame, whatever has arrived.
pub fn calls_begin()
    ensures { CallsBegin }
{}

/// Each further instruction of a call advances the run; the last is its Run event, then the function's first item.
pub fn calls_continue()
    ensures { CallsGoOn }
{}

/// The first instruction of a return loads the caller's address, whatever has arrived.
pub fn returns_begin()
    ensures { ReturnsBegin }
{}

/// Each further instruction of a return advances the run; the last is the item's Run event, then the caller goes on.
pub fn returns_continue()
    ensures { ReturnsGoOn }
{}

/// The jump to a service without a mask leads to the service's opening mark and shows nothing.
pub fn service_jumps_continue()
    ensures { ServiceJumpsGoOn }
{}

/// Each instruction of a service call with an event mask makes progress; the jump leads to its opening mark with it.
pub fn masked_jumps_continue()
    ensures { MaskedJumpsGoOn }
{}

/// The idle loop stays and shows Idle.
pub fn idle_continues()
    ensures { IdleGoesOn }
{}
