//! What is shown of a fault. A way to an item.
ghost use Rattle.std.specs.Prelude.{◌<◌, ℕ, length, IfOk, IfSome, ◌≡◌, ◌-◌, true, []};
ghost use Rattle.sloth_base.specs.Named.{item_of};
ghost use Rattle.task_verify.specs.Ways.{HasBodyLabel};
ghost use Rattle.code_rules.specs.AppRange.{AppInRange};
ghost use Rattle.call_graph.specs.Ranks.{RanksOf};
ghost use Rattle.fault_witnesses.specs.declared.breaches.Place.TheVariants as place;
ghost use Rattle.fault_witnesses.specs.Places.{IsPlace, IsPlaceOfFault};
ghost use Rattle.fault_witnesses.specs.Witnesses.{IsShownWayTo, IsBehind, IsShownBehind, IsWitness};
ghost use Rattle.code_rules.specs.Code.{held_list_at};
ghost use Rattle.task_verify.specs.Labels.{ArePlaced};
ghost use Rattle.fault_witnesses.specs.BodyLists.{AreBodyLists};
ghost use Rattle.fault_witnesses.specs.CleanWays.{IsWayFromBegin, IsShownWay};

use crate::body_lists::{BodyLists, are_clean_steps, body_lists, shortest_way};
use crate::breaches::{place_at_fault, stands_behind};
use crate::chains::calls_to_culprit;
use crate::straight_ways::straight_way;
use crate::users::lacking_user;
use crate::{Calls, Found, Place, User, label_before};
use call_graph::Ranks;
use sloth_base::{App, Code, Config, Func, List, Refusal, Result};
use std::alloc::Global;
use task_verify::falls;

/// A refusal of task code, and what it stands on; `events` are those that the statement on its line names.
#[derive(Clone, Copy)]
pub struct Judged<'t> {
    pub alloc: Global,
    pub config: &'t Config,
    pub app: &'t App,
    pub ranks: &'t Ranks,
    pub refusal: Refusal,
    pub events: &'t [usize],
}

/// What is shown of a fault of V2 to V12.
#[derive(Drop)]
pub struct Witness {
    pub place: Place,
    /// A way to the item, or to the item in front of the label.
    pub way: Option<Way>,
    /// The item in front of one that is not reached.
    pub behind: Option<usize>,
    /// The calls from the function that the item calls.
    pub calls: Option<Calls>,
    /// The task that lacks what the item uses.
    pub user: Option<User>,
}

// The way to the item in front of a label, unless another label stands between.
fn way_to_label(judged: &Judged, body: usize, label: usize) -> Found<Way>
    requires in_range { AppInRange judged.now.config.now judged.now.app.now }
    requires is_place { IsPlace judged.now.app.now (place.Label body label) }
    ensures { IfOk result (λ way. IsShownWayTo judged.now.app.now (place.Label body label) way) }
{
    let func = judged.app.function(body);
    let place = func.labels.items()[label].item as usize;
    if place == 0 || label_before(func, label).is_some() {
        return Ok(None);
    }
    clean_way(judged.alloc, func, place - 1)
}

// The item in front, where it is reached and never goes on, and nothing reaches this one.
fn item_in_front(alloc: Global, func: &Func, item: usize) -> Found<usize>
    requires labels { (i : ℕ) → i < length func.now.items → HasBodyLabel func.now (item_of func.now i).op }
    requires inside { item < length func.now.items }
    ensures { IfOk result (λ behind. IfSome behind (IsBehind func.now item)) }
{
    if item == 0 || falls(func.items.items()[item - 1].op) {
        return Ok(None);
    }
    if stands_behind(alloc, func, item)? {
        return Ok(Some(item - 1));
    }
    Ok(None)
}

// What stands in front of an item that is not reached (V5 and V6).
fn item_behind(judged: &Judged, body: usize, item: usize) -> Found<usize>
    requires in_range { AppInRange judged.now.config.now judged.now.app.now }
    requires is_place { IsPlace judged.now.app.now (place.Item body item) }
    ensures { IfOk result (λ behind. IsShownBehind judged.now.app.now (place.Item body item) behind) }
{
    if !matches!(judged.refusal.code, Code::V5 | Code::V6) {
        return Ok(None);
    }
    item_in_front(judged.alloc, judged.app.function(body), item)
}

// The way to an item, unless what stands in front of it is told.
fn item_way(judged: &Judged, body: usize, item: usize, is_told: bool) -> Found<Way>
    requires in_range { AppInRange judged.now.config.now judged.now.app.now }
    requires is_place { IsPlace judged.now.app.now (place.Item body item) }
    ensures { IfOk result (λ way. IsShownWayTo judged.now.app.now (place.Item body item) way) }
{
    let code = judged.refusal.code;
    if is_told || matches!(code, Code::V2 | Code::V3 | Code::V4 | Code::V6) {
        return Ok(None);
    }
    clean_way(judged.alloc, judged.app.function(body), item)
}

fn item_witness(judged: &Judged, body: usize, item: usize) -> Result<Witness>
    requires in_range { AppInRange judged.now.config.now judged.now.app.now }
    requires place { IsPlaceOfFault judged.now.config.now judged.now.app.now judged.now.refusal
        (place.Item body item) }
    ensures { IfOk result (IsWitness judged.now.config.now judged.now.app.now judged.now.refusal) }
{
    let behind = item_behind(judged, body, item)?;
    let way = item_way(judged, body, item, behind.is_some())?;
    let calls = calls_to_culprit(judged, body, item)?;
    let user = lacking_user(judged, body, item)?;
    Ok(Witness {
        place: Place::Item { body, item },
        way,
        behind,
        calls,
        user,
    })
}

fn place_witness(judged: &Judged, place: Place) -> Result<Witness>
    requires in_range { AppInRange judged.now.config.now judged.now.app.now }
    requires place { IsPlaceOfFault judged.now.config.now judged.now.app.now judged.now.refusal place }
    ensures { IfOk result (IsWitness judged.now.config.now judged.now.app.now judged.now.refusal) }
{
    match place {
        Place::Header(_) => Ok(Witness {
            place,
            way: None,
            behind: None,
            calls: None,
            user: None,
        }),
        Place::Label { body, label } => {
            let way = way_to_label(judged, body, label)?;
            Ok(Witness {
                place,
                way,
                behind: None,
                calls: None,
                user: None,
            })
        },
        Place::Item { body, item } => item_witness(judged, body, item),
    }
}

/// What is shown of a fault of V2 to V12; `events` are those that the statement on its line names, in their order.
pub fn fault_witness<'t>(
    alloc: Global,
    config: &'t Config,
    app: &'t App,
    ranks: &'t Ranks,
    refusal: Refusal,
    events: &'t [usize],
) -> Found<Witness>
    requires in_range { AppInRange config.now app.now }
    requires belong { RanksOf app.now ranks.now }
    ensures { IfOk result (λ found. IfSome found (IsWitness config.now app.now refusal)) }
{
    let judged = Judged {
        alloc,
        config,
        app,
        ranks,
        refusal,
        events,
    };
    match place_at_fault(&judged)? {
        Some(place) => {
            let found = place_witness(&judged, place)?;
            Ok(Some(found))
        },
        None => Ok(None),
    }
}

/// A way through a body: the label that it starts behind, if not where the body begins, and the numbers of its items.
#[derive(Drop)]
pub struct Way {
    pub label: Option<usize>,
    pub items: List<usize>,
}

fn begins_free(func: &Func, tables: &BodyLists) -> bool
    requires { AreBodyLists func.now tables.now }
    ensures { result ≡ true → held_list_at func.now 0 ≡ [] }
{
    let lists = tables.lists.items();
    !lists.is_empty() && lists[0].kept && lists[0].list.items().is_empty()
}

fn is_way(alloc: Global, func: &Func, lists: &BodyLists, way: &[usize], goal: usize) -> Result<bool>
    requires labels { (i : ℕ) → i < length func.now.items → HasBodyLabel func.now (item_of func.now i).op }
    requires tables { AreBodyLists func.now lists.now }
    ensures { IfOk result (λ clean. clean ≡ true → IsWayFromBegin func.now goal way.now) }
{
    if way.is_empty() || way[0] != 0 || way[way.len() - 1] != goal {
        return Ok(false);
    }
    if !begins_free(func, lists) {
        return Ok(false);
    }
    are_clean_steps(alloc, func, lists, way)
}

/// A way of clean steps to an item: the shortest one from the begin of the body, else one from the last label in front,
/// in the order of the text.
pub fn clean_way(alloc: Global, func: &Func, goal: usize) -> Found<Way>
    requires placed { ArePlaced func.now }
    requires labels { (i : ℕ) → i < length func.now.items → HasBodyLabel func.now (item_of func.now i).op }
    requires inside { goal < length func.now.items }
    ensures { IfOk result (IsShownWay func.now goal) }
{
    let tables = body_lists(alloc, func)?;
    let way = shortest_way(alloc, func, &tables, goal)?;
    if is_way(alloc, func, &tables, &way, goal)? {
        return Ok(Some(Way {
            label: None,
            items: List::from_vec(way),
        }));
    }
    straight_way(alloc, func, goal)
}
