//! What the lists of labels can be, or the lines that say why no lists keep the rules.
//! The search for the least fault of task code, V7 aside.
ghost use Rattle.std.specs.Prelude.{◌≡◌, ◌<◌, ◌⊎◌, [], length, IfOk, IfSome, ◌++◌, OnOk};
ghost use Rattle.code_rules.specs.AppRange.{AppInRange};
ghost use Rattle.call_graph.specs.Ranks.{RanksOf};
ghost use Rattle.holds_infer.specs.LabelAnswers.{is_list_rule, TellsWays, TellsBrokenRule, TellsRule, TellsReason, HasReason, IsNoListsText, IsLabelAnswer, holding_lines, label_line, other_ways_lines, rule_line};
ghost use Rattle.holds_infer.specs.RightLists.{HasItsLabels};
ghost use Rattle.holds_infer.specs.BodyFilling.{HaveTheirLabels};
ghost use Rattle.holds_infer.specs.WayLists.{IsWayFilling, AreWayFillings, IsWayFilled};

use crate::body_ways::body_ways;
use crate::inference::relisted_func;
use crate::other_ways::{HoldingWay, OtherWays, other_ways};
use crate::{FillError, Found, fill_source};
use call_graph::Ranks;
use command_line::code_text;
use fault_witnesses::KeptList;
use fault_witnesses::body_lists::body_lists;
use sloth_base::refusal::{fault_if, merge};
use sloth_base::{App, Code, Config, Func, List, NoMemory, Part, Refusal, Result};
use sloth_source::Ranked;
use std::alloc::Global;
use task_verify::{is_leave_with_resource, is_second_take, is_wrong_release, item_faults};
use text_pieces::pieces::Piece::{Number, Word};
use text_pieces::{line, push};
use why_text::{label_line, label_name, push_list_line, push_way_line, ranked_texts, told_fault};

/// What is said of the lists of labels.
#[derive(Drop)]
pub enum LabelAnswer {
    /// One choice of lists keeps the rules.
    Filled,
    /// No lists keep them, with the text that says why.
    NoLists(List<u8>),
    /// The texts have a refusal that comes before the rules V2 to V12.
    Unjudged,
}

// Lines, if there are some to tell.
type Told = Found<List<u8>>;

fn told_ways(alloc: Global, config: &Config, app: &App) -> Told
    requires { AppInRange config.now app.now }
    ensures { IfOk result (λ found. IfSome found (TellsWays config.now app.now)) }
{
    for body in 0..app.funcs.items().len() {
        let func = app.function(body);
        if let Some(ways) = other_ways(alloc, func)? {
            let text = ways_lines(alloc, config, func, &ways)?;
            return Ok(Some(List::from_vec(text)));
        }
    }
    Ok(None)
}

fn is_list_rule(code: Code) -> bool
    ensures { result ≡ is_list_rule code }
{
    matches!(code, Code::V7)
}

fn broken_rule(alloc: Global, src: &[u8], config: &Config, app: &App, ranks: &Ranks) -> Told
    requires src { length src.now < 4294967295 }
    requires in_range { AppInRange config.now app.now }
    requires belong { RanksOf app.now ranks.now }
    ensures { IfOk result (λ found. IfSome found (TellsBrokenRule config.now app.now)) }
{
    let Some(refusal) = other_rule(alloc, config, app, ranks)? else {
        return Ok(None);
    };
    if is_list_rule(refusal.code) {
        return Ok(None);
    }
    match told_fault(alloc, src, config, app, ranks, refusal)? {
        Some(behind) => {
            let text = rule_lines(alloc, refusal, behind.items())?;
            Ok(Some(List::from_vec(text)))
        },
        None => Ok(None),
    }
}

fn filled_rule(alloc: Global, src: &[u8], ranked: &Ranked) -> Told
    requires src { length src.now < 4294967295 }
    requires in_range { AppInRange ranked.now.config ranked.now.app }
    requires belong { RanksOf ranked.now.app ranked.now.ranks }
    ensures { IfOk result (λ found. IfSome found (TellsRule ranked.now.config ranked.now.app)) }
{
    let filled = way_filled(alloc, &ranked.app)?;
    match broken_rule(alloc, src, &ranked.config, &filled, &ranked.ranks)? {
        Some(lines) => Ok(Some(lines)),
        None => Ok(None),
    }
}

fn code_reason(alloc: Global, src: &[u8], ranked: &Ranked) -> Told
    requires src { length src.now < 4294967295 }
    requires in_range { AppInRange ranked.now.config ranked.now.app }
    requires belong { RanksOf ranked.now.app ranked.now.ranks }
    ensures { IfOk result (λ found. IfSome found (TellsReason ranked.now.config ranked.now.app)) }
{
    match told_ways(alloc, &ranked.config, &ranked.app)? {
        Some(lines) => Ok(Some(lines)),
        None => match filled_rule(alloc, src, ranked)? {
            Some(lines) => Ok(Some(lines)),
            None => Ok(None),
        },
    }
}

fn texts_reason(alloc: Global, oil: &[u8], src: &[u8]) -> Told
    requires oil { length oil.now < 4294967295 }
    requires src { length src.now < 4294967295 }
    ensures { IfOk result (λ found. IfSome found (HasReason oil.now src.now)) }
{
    match ranked_texts(alloc, oil, src)? {
        Some(ranked) => code_reason(alloc, src, &ranked),
        None => Ok(None),
    }
}

fn reason_lines(alloc: Global, oil: &[u8], src: &[u8]) -> Result<List<u8>>
    requires oil { length oil.now < 4294967295 }
    requires src { length src.now < 4294967295 }
    ensures { IfOk result (λ lines. (lines ≡ []) ⊎ HasReason oil.now src.now lines) }
{
    match texts_reason(alloc, oil, src)? {
        Some(lines) => Ok(lines),
        None => Ok(List::from_vec(Vec::new(alloc))),
    }
}

fn no_lists_text(alloc: Global, oil: &[u8], src: &[u8]) -> Result<List<u8>>
    requires oil { length oil.now < 4294967295 }
    requires src { length src.now < 4294967295 }
    ensures { IfOk result (IsNoListsText oil.now src.now) }
{
    let lines = reason_lines(alloc, oil, src)?;
    let mut text = Vec::from_slice(alloc, b"no holds\n")?;
    text.extend_from_slice(lines.items())?;
    Ok(List::from_vec(text))
}

/// That one choice of lists for the labels keeps the rules; or that none does, and why; or that a refusal comes before
/// these rules. Each text has at most 4,294,967,294 bytes.
pub fn labels_text(alloc: Global, oil: &[u8], src: &[u8]) -> Result<LabelAnswer>
    requires oil { length oil.now < 4294967295 }
    requires src { length src.now < 4294967295 }
    ensures { IfOk result (IsLabelAnswer oil.now src.now) }
{
    match fill_source(alloc, oil, src) {
        Ok(_) => Ok(LabelAnswer::Filled),
        Err(FillError::Refused(_)) => Ok(LabelAnswer::Unjudged),
        Err(FillError::NoHolds) => Ok(LabelAnswer::NoLists(no_lists_text(alloc, oil, src)?)),
        Err(FillError::Memory) => Err(NoMemory),
    }
}

fn way_filling(alloc: Global, func: &Func) -> Result<Func>
    requires { HasItsLabels func.now }
    ensures { IfOk result (IsWayFilling func.now) }
{
    let ways = body_ways(alloc, func)?;
    let made = relisted_func(alloc, ways.lists.items(), func)?;
    Ok(made)
}

fn way_fillings(alloc: Global, funcs: &[Func]) -> Result<Vec<Func>>
    requires { HaveTheirLabels funcs.now }
    ensures { IfOk result (λ made. AreWayFillings funcs.now made.items) }
{
    let mut made = Vec::new(alloc);
    for func in funcs {
        let func = way_filling(alloc, func)?;
        push(&mut made, func)?;
    }
    Ok(made)
}

// The task code with what the first way to each label holds at it; nothing at a label to which no way was found.
fn way_filled(alloc: Global, app: &App) -> Result<App>
    requires { HaveTheirLabels app.now.funcs }
    ensures { IfOk result (IsWayFilled app.now) }
{
    let funcs = way_fillings(alloc, app.funcs.items())?;
    let symbols = app.symbols_copy(alloc)?;
    Ok(App {
        funcs: List::from_vec(funcs),
        symbols,
    })
}

fn push_holding(text: &mut Vec<u8>, config: &Config, func: &Func, way: &HoldingWay) -> Result<()>
    ensures { OnOk result (text.new.items ≡ text.old.items ++ holding_lines config.now func.now way.now) }
{
    let items = way.items.items();
    if items.is_empty() {
        line!(text; Word(b"way -\n"))?;
    } else {
        push_way_line(text, func, items)?;
    }
    push_list_line(text, config, b"holds", way.held.items())
}

fn ways_lines(alloc: Global, config: &Config, func: &Func, ways: &OtherWays) -> Result<Vec<u8>>
    ensures { IfOk result (λ text. text.items ≡ other_ways_lines config.now func.now ways.now) }
{
    let mut text = Vec::new(alloc);
    let line = label_line(func, ways.label);
    line!(&mut text; Word(b"label "), Number(line), Word(b" "), Word(label_name(func, ways.label)), Word(b"\n"))?;
    push_holding(&mut text, config, func, &ways.one)?;
    push_holding(&mut text, config, func, &ways.other)?;
    Ok(text)
}

fn push_rule(text: &mut Vec<u8>, refusal: Refusal) -> Result<()>
    ensures { OnOk result (text.new.items ≡ text.old.items ++ rule_line refusal) }
{
    line!(text; Word(b"rule "), Number(refusal.line), Word(b" "), Word(code_text(refusal.code)), Word(b"\n"))
}

fn rule_lines(alloc: Global, refusal: Refusal, behind: &[u8]) -> Result<Vec<u8>>
    ensures { IfOk result (λ text. text.items ≡ rule_line refusal ++ behind.now) }
{
    let mut text = Vec::new(alloc);
    push_rule(&mut text, refusal)?;
    line!(&mut text; Word(behind))?;
    Ok(text)
}

// V8 to V10 of the items whose lists are kept. Where a list is too long to be kept, V9 is broken in front.
fn held_faults(ranks: &Ranks, func: &Func, rows: &[KeptList]) -> Option<Refusal> {
    let mut least = None;
    for (number, item) in func.items.items().iter().enumerate() {
        if number < rows.len() && rows[number].kept {
            let held = rows[number].list.items();
            let line = item.line;
            let releases = is_wrong_release(held, item.op);
            least = merge(least, fault_if(releases, Part::Src, line, Code::V8));
            let takes = is_second_take(ranks, held, item.op);
            least = merge(least, fault_if(takes, Part::Src, line, Code::V9));
            let leaves = is_leave_with_resource(ranks, held, item.op);
            least = merge(least, fault_if(leaves, Part::Src, line, Code::V10));
        }
    }
    least
}

fn judge(alloc: Global, config: &Config, app: &App, ranks: &Ranks, body: usize) -> Found<Refusal>
    requires in_range { AppInRange config.now app.now }
    requires belong { RanksOf app.now ranks.now }
    requires known { body < length app.now.funcs }
{
    let func = app.function(body);
    let users = u64::from(ranks.users.items()[body]);
    let none = func.items.items().is_empty();
    let empty = fault_if(none, Part::Src, func.line, Code::V5);
    let items = item_faults(alloc, config, app, body, users, func)?;
    let tables = body_lists(alloc, func)?;
    let held = held_faults(ranks, func, tables.lists.items());
    Ok(merge(empty, merge(items, held)))
}

// The least of V2 to V6 and V8 to V12.
fn other_rule(alloc: Global, config: &Config, app: &App, ranks: &Ranks) -> Found<Refusal>
    requires in_range { AppInRange config.now app.now }
    requires belong { RanksOf app.now ranks.now }
{
    let mut least = None;
    for body in 0..app.funcs.items().len() {
        least = merge(least, judge(alloc, config, app, ranks, body)?);
    }
    Ok(least)
}
