//! Which place breaks the rule of a refusal. Places of task code.
//! What is held before an item and behind a label, and V7 at a label.
ghost use Rattle.std.specs.Prelude.{◌≡◌, ◌<◌, ◌-◌, ◌↔◌, ℕ, List, length, true, false, Decides, IfOk, IfSome, ◌≤◌, ◌+◌, ◌||◌, cond, Some, None, is_some};
ghost use Rattle.sloth_base.specs.Named.{function, item_of, label_of};
ghost use Rattle.sloth_base.specs.declared.refusal.Code.TheVariants.{V5, V6, V7};
ghost use Rattle.sloth_base.specs.declared.refusal.Part.TheVariants.{Src};
ghost use Rattle.code_rules.specs.AppRange.{AppInRange};
ghost use Rattle.code_rules.specs.Code.{IsPath, held_list_at, held_list_fallen_into, held_list_entering, is_entered, is_fallen_into};
ghost use Rattle.code_rules.specs.WellFormed.{IsBreach, IsOtherListJump, IsUnreached, HasOtherList};
ghost use Rattle.call_graph.specs.Ranks.{RanksOf};
ghost use Rattle.task_verify.specs.Uses.{OperandsOf};
ghost use Rattle.task_verify.specs.Ways.{HasBodyLabel, IsMarked, IsReachedItem};
ghost use Rattle.fault_witnesses.specs.BreachTests.{plain_test, held_test};
ghost use Rattle.fault_witnesses.specs.Places.{IsPlace, IsBrokenAt, IsPlaceOfFault, line_of_place};
ghost use Rattle.task_verify.specs.Labels.{last_label_below, ArePlaced};
ghost use Rattle.fault_witnesses.specs.BodyLists.{AreLastLabels};

use crate::{Found, Judged};
use call_graph::Ranks;
use sloth_base::{App, Code, Config, Func, Part, Refusal, Result};
use std::alloc::Global;
use task_verify::labels::is_start_with_resource;
use task_verify::{
    held_after, held_at_label, is_access_past, is_fallen_into, is_held, is_leave_with_resource,
    is_mask_past, is_other_list_jump, is_run_out, is_second_take, is_undeclared_use, is_uneven,
    is_wrong_leave, is_wrong_release, last_labels, reached,
};

fn plain_test(config: &Config, app: &App, users: u64, func: &Func, item: usize, code: Code) -> bool
    requires inside { item < length func.now.items }
    requires labels { HasBodyLabel func.now (item_of func.now item).op }
    requires operands { OperandsOf config.now (item_of func.now item).op }
    ensures { result ≡ plain_test config.now app.now users func.now item code }
{
    let items = func.items.items();
    match code {
        Code::V2 => is_access_past(app, func, items[item].op),
        Code::V3 => is_uneven(items[item].op),
        Code::V4 => is_mask_past(app, items[item].op),
        Code::V5 => is_run_out(func, item),
        Code::V11 => is_wrong_leave(func, items[item].op),
        Code::V12 => is_undeclared_use(config, users, items[item].op),
        _ => false,
    }
}

fn held_test(ranks: &Ranks, func: &Func, held: &[u32], item: usize, code: Code) -> bool
    requires { item < length func.now.items }
    ensures { result ≡ held_test ranks.now func.now held.now item code }
{
    let items = func.items.items();
    match code {
        Code::V8 => is_wrong_release(held, items[item].op),
        Code::V9 => is_second_take(ranks, held, items[item].op),
        Code::V10 => is_leave_with_resource(ranks, held, items[item].op),
        _ => false,
    }
}

fn jumps_otherwise(func: &Func, held: &[u32], item: usize) -> bool
    requires inside { item < length func.now.items }
    requires labels { HasBodyLabel func.now (item_of func.now item).op }
    ensures { Decides result (IsOtherListJump func.now held.now (item_of func.now item).op) }
{
    is_other_list_jump(func, held, func.items.items()[item].op)
}

fn lacks_mark(func: &Func, marks: &[bool], item: usize) -> bool
    requires inside { item < length func.now.items }
    requires count { length marks.now ≡ length func.now.items }
    requires exact { (i : ℕ) → IsMarked marks.now i ↔ IsReachedItem func.now i }
    ensures { result ≡ true → IsUnreached func.now item }
{
    !marks[item]
}

fn has_mark(func: &Func, marks: &[bool], item: usize) -> bool
    requires inside { item < length func.now.items }
    requires count { length marks.now ≡ length func.now.items }
    requires exact { (i : ℕ) → IsMarked marks.now i ↔ IsReachedItem func.now i }
    ensures { result ≡ true → (between : List ℕ) × IsPath func.now 0 between item }
{
    marks[item]
}

/// Whether no way from the first item of a body reaches this one.
pub fn is_unreached(alloc: Global, func: &Func, item: usize) -> Result<bool>
    requires labels { (i : ℕ) → i < length func.now.items → HasBodyLabel func.now (item_of func.now i).op }
    requires inside { item < length func.now.items }
    ensures { IfOk result (λ unreached. unreached ≡ true → IsUnreached func.now item) }
{
    let marks = reached(alloc, func)?;
    Ok(lacks_mark(func, &marks, item))
}

/// Whether nothing reaches an item, and the one in front is reached.
pub fn stands_behind(alloc: Global, func: &Func, item: usize) -> Result<bool>
    requires labels { (i : ℕ) → i < length func.now.items → HasBodyLabel func.now (item_of func.now i).op }
    requires inside { item < length func.now.items }
    requires later { 0 < item }
    ensures unreached { IfOk result (λ behind. behind ≡ true → IsUnreached func.now item) }
    ensures reached { IfOk result (λ behind. behind ≡ true
        → (between : List ℕ) × IsPath func.now 0 between (item - 1)) }
{
    let marks = reached(alloc, func)?;
    Ok(lacks_mark(func, &marks, item) && has_mark(func, &marks, item - 1))
}

fn is_path_code(code: Code) -> bool
    ensures { result ≡ true → code ≡ V6 }
{
    matches!(code, Code::V6)
}

fn is_label_code(code: Code) -> bool
    ensures { result ≡ true → code ≡ V7 }
{
    matches!(code, Code::V7)
}

fn is_breach(judged: &Judged, body: usize, item: usize) -> Result<bool>
    requires in_range { AppInRange judged.now.config.now judged.now.app.now }
    requires belong { RanksOf judged.now.app.now judged.now.ranks.now }
    requires known { body < length judged.now.app.now.funcs }
    requires inside { item < length (function judged.now.app.now body).items }
    ensures { IfOk result (λ breach. breach ≡ true
        → IsBreach judged.now.config.now judged.now.app.now body item judged.now.refusal.code) }
{
    let func = judged.app.function(body);
    let code = judged.refusal.code;
    let users = u64::from(judged.ranks.users.items()[body]);
    if plain_test(judged.config, judged.app, users, func, item, code) {
        return Ok(true);
    }
    if is_path_code(code) {
        let unreached = is_unreached(judged.alloc, func, item)?;
        return Ok(unreached);
    }
    let held = held_list(judged.alloc, func, item)?;
    if is_label_code(code) {
        return Ok(jumps_otherwise(func, &held, item));
    }
    Ok(held_test(judged.ranks, func, &held, item, code))
}

fn is_empty_body(func: &Func, code: Code) -> bool
    ensures { result ≡ true → (code ≡ V5) × (length func.now.items ≡ 0) }
{
    matches!(code, Code::V5) && func.items.items().is_empty()
}

fn is_broken(judged: &Judged, place: Place) -> Result<bool>
    requires in_range { AppInRange judged.now.config.now judged.now.app.now }
    requires belong { RanksOf judged.now.app.now judged.now.ranks.now }
    requires is_place { IsPlace judged.now.app.now place }
    ensures { IfOk result (λ broken. broken ≡ true
        → IsBrokenAt judged.now.config.now judged.now.app.now judged.now.refusal place) }
{
    match place {
        Place::Header(body) => Ok(is_empty_body(judged.app.function(body), judged.refusal.code)),
        Place::Label { body, label } => {
            if !is_label_code(judged.refusal.code) {
                return Ok(false);
            }
            let other = has_other_list(judged.alloc, judged.app.function(body), label)?;
            Ok(other)
        },
        Place::Item { body, item } => is_breach(judged, body, item),
    }
}

fn is_of_line(app: &App, refusal: Refusal, place: Place) -> bool
    requires { IsPlace app.now place }
    ensures part { result ≡ true → refusal.part ≡ Src }
    ensures line { result ≡ true → refusal.line ≡ line_of_place app.now place }
{
    let line = match place {
        Place::Header(body) => app.function(body).line,
        Place::Label { body, label } => app.function(body).labels.items()[label].line,
        Place::Item { body, item } => app.function(body).items.items()[item].line,
    };
    matches!(refusal.part, Part::Src) && refusal.line == line
}

/// The place of a fault of V2 to V12.
pub fn place_at_fault(judged: &Judged) -> Found<Place>
    requires in_range { AppInRange judged.now.config.now judged.now.app.now }
    requires belong { RanksOf judged.now.app.now judged.now.ranks.now }
    ensures { IfOk result (λ found.
        IfSome found (IsPlaceOfFault judged.now.config.now judged.now.app.now judged.now.refusal)) }
{
    let Some(place) = place_on_line(judged.app, judged.refusal.line) else {
        return Ok(None);
    };
    if is_of_line(judged.app, judged.refusal, place) && is_broken(judged, place)? {
        return Ok(Some(place));
    }
    Ok(None)
}

/// A place of task code, by the number of its body, and of the label or item in it.
#[derive(Clone, Copy)]
pub enum Place {
    /// The header of a body.
    Header(usize),
    Label { body: usize, label: usize },
    Item { body: usize, item: usize },
}

fn place_in_body(app: &App, body: usize, line: u32) -> Option<Place>
    requires { body < length app.now.funcs }
    ensures { IfSome result (IsPlace app.now) }
{
    let func = app.function(body);
    if func.line == line {
        return Some(Place::Header(body));
    }
    let (labels, items) = (func.labels.items(), func.items.items());
    if let Some(label) = labels.iter().position(|label| label.line == line) {
        return Some(Place::Label { body, label });
    }
    let item = items.iter().position(|item| item.line == line)?;
    Some(Place::Item { body, item })
}

/// What stands on a line of the source, from 1.
pub fn place_on_line(app: &App, line: u32) -> Option<Place>
    ensures { IfSome result (IsPlace app.now) }
{
    for body in 0..app.funcs.items().len() {
        if let Some(place) = place_in_body(app, body, line) {
            return Some(place);
        }
    }
    None
}

fn fallen_list(alloc: Global, func: &Func, last: &[Option<usize>], place: usize) -> Result<Vec<u32>>
    requires count { length last.now ≡ length func.now.items + 1 }
    requires lasts { AreLastLabels func.now last.now }
    requires inside { place ≤ length func.now.items }
    ensures { IfOk result (λ held. held.items ≡ held_list_fallen_into func.now place) }
{
    let mut held = Vec::new(alloc);
    for number in 0..place {
        let entered = held_at_label(alloc, func, last[number], held)?;
        held = held_after(entered, func.items.items()[number].op)?;
    }
    Ok(held)
}

/// What is held where a place is fallen into.
pub fn held_falling(alloc: Global, func: &Func, place: usize) -> Result<Vec<u32>>
    requires placed { ArePlaced func.now }
    requires inside { place ≤ length func.now.items }
    ensures { IfOk result (λ held. held.items ≡ held_list_fallen_into func.now place) }
{
    let last = last_labels(alloc, func)?;
    let held = fallen_list(alloc, func, &last, place)?;
    Ok(held)
}

/// What is held before an item.
pub fn held_list(alloc: Global, func: &Func, item: usize) -> Result<Vec<u32>>
    requires placed { ArePlaced func.now }
    requires inside { item < length func.now.items }
    ensures { IfOk result (λ held. held.items ≡ held_list_at func.now item) }
{
    let last = last_labels(alloc, func)?;
    let falling = fallen_list(alloc, func, &last, item)?;
    let places = last.as_slice();
    let held = held_at_label(alloc, func, places[item], falling)?;
    Ok(held)
}

fn or_number(found: Option<usize>, stands: bool, number: usize) -> Option<usize>
    ensures { result ≡ cond stands (Some number) found }
{
    if stands {
        return Some(number);
    }
    found
}

/// The last label before this one at its place.
pub fn label_before(func: &Func, label: usize) -> Option<usize>
    requires { label < length func.now.labels }
    ensures { result ≡ last_label_below func.now.labels (label_of func.now label).item label }
{
    let labels = func.labels.items();
    let place = labels[label].item;
    let mut found = None;
    for number in 0..label {
        found = or_number(found, labels[number].item == place, number);
    }
    found
}

fn enters(func: &Func, label: usize, before: Option<usize>) -> bool
    requires placed { ArePlaced func.now }
    requires inside { label < length func.now.labels }
    ensures { result ≡ (is_some before || is_fallen_into func.now (label_of func.now label).item) }
{
    before.is_some() || is_fallen_into(func, func.labels.items()[label].item as usize)
}

/// What is held where a label is fallen into.
pub fn held_entering(alloc: Global, func: &Func, label: usize) -> Result<Vec<u32>>
    requires placed { ArePlaced func.now }
    requires inside { label < length func.now.labels }
    ensures { IfOk result (λ held. held.items ≡ held_list_entering func.now label) }
{
    let place = func.labels.items()[label].item as usize;
    let falling = held_falling(alloc, func, place)?;
    let held = held_at_label(alloc, func, label_before(func, label), falling)?;
    Ok(held)
}

fn is_entered(func: &Func, label: usize) -> bool
    requires placed { ArePlaced func.now }
    requires inside { label < length func.now.labels }
    ensures { result ≡ is_entered func.now label }
{
    enters(func, label, label_before(func, label))
}

/// Whether V7 is broken at a label.
pub fn has_other_list(alloc: Global, func: &Func, label: usize) -> Result<bool>
    requires placed { ArePlaced func.now }
    requires inside { label < length func.now.labels }
    ensures { IfOk result (λ other. other ≡ true → HasOtherList func.now label) }
{
    if is_start_with_resource(&func.labels.items()[label]) {
        return Ok(true);
    }
    let held = held_entering(alloc, func, label)?;
    Ok(is_entered(func, label) && !is_held(func.labels.items()[label].holds.items(), &held))
}
