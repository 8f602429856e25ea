//! The rules of bodies' frames.
ghost use Rattle.std.specs.Prelude.{ℕ, ◌≡◌, ◌≤◌, ◌<◌, ◌+◌, ◌*◌, ◌++◌, ◌∷◌, [], All, IfOk, OnOk, cond, length, ltb};
ghost use Rattle.sloth_base.specs.Limits.{frame_limit, item_limit};
ghost use Rattle.sloth_base.specs.Named.{function};
ghost use Rattle.map_text.specs.LineRows.{item_address};
ghost use Rattle.symbol_image.specs.BodyFrames.{back_rule, body_rules, frame_at, inside, item_rules, items_rules, on_to, own_words, told_at};

use crate::fields::{put_bytes, put_half, put_unsigned};
use map_text::item_address;
use sloth_base::{App, Func, Op, Places, Result, WORD};
use std::alloc::Global;

/// A function goes on so many bytes behind what it finds.
const BACK: u8 = 12;

/// The addresses of an item, of the next one, and behind the last one of its body.
#[derive(Clone, Copy)]
struct Span {
    first: u32,
    next: u32,
    end: u32,
}

// Appends that rules go on at an address, where the last ones were told at another.
fn put_next_address(rules: &mut Vec<u8>, at: u32, to: u32) -> Result<()>
    ensures { OnOk result (rules.new.items ≡ rules.old.items ++ on_to at to) }
{
    if at >= to {
        return Ok(());
    }
    let instructions = (to - at) / WORD;
    if instructions < 256 {
        return put_bytes(rules, &[2, instructions as u8]);
    }
    put_bytes(rules, &[3])?;
    put_half(rules, instructions)
}

fn put_frame_offset(rules: &mut Vec<u8>, bytes: u32) -> Result<()>
    ensures { OnOk result (rules.new.items ≡ rules.old.items ++ frame_at bytes) }
{
    put_bytes(rules, &[14])?;
    put_unsigned(rules, bytes)
}

fn own_words(func: &Func) -> u32
    requires { func.now.frame_words ≤ frame_limit }
    ensures { result ≡ own_words func.now }
{
    match func.task {
        None => func.frame_words + 1,
        Some(_) => func.frame_words,
    }
}

fn put_back(rules: &mut Vec<u8>, func: &Func) -> Result<()>
    ensures { OnOk result (rules.new.items ≡ rules.old.items ++ back_rule func.now.task) }
{
    match func.task {
        None => put_bytes(rules, &[22, 1, 5, 52, 28, 6, 35, BACK]),
        Some(_) => Ok(()),
    }
}

fn called_words(app: &App, number: usize) -> u32
    ensures { result ≡ (function app.now number).frame_words }
{
    match app.funcs.items().get(number) {
        Some(func) => func.frame_words,
        None => 0,
    }
}

// Within a return: the frame is gone, and x31 has where it goes back to.
fn put_return(rules: &mut Vec<u8>) -> Result<()>
    ensures { OnOk result (rules.new.items ≡ rules.old.items ++ 10 ∷ (frame_at 0 ++ 22 ∷ 1 ∷ 2 ∷ 143 ∷ 12 ∷ [])) }
{
    put_bytes(rules, &[10])?;
    put_frame_offset(rules, 0)?;
    put_bytes(rules, &[22, 1, 2, 143, BACK])
}

// Appends that behind an item the rules before hold again, unless the body ends there; and where rules were told last.
fn put_again(rules: &mut Vec<u8>, at: u32, next: u32, end: u32) -> Result<u32>
    ensures put { IfOk result (λ told. rules.new.items
        ≡ rules.old.items ++ cond (ltb next end) (on_to at next ++ 11 ∷ []) []) }
    ensures told { IfOk result (λ told. told ≡ cond (ltb next end) next at) }
{
    if next >= end {
        return Ok(at);
    }
    put_next_address(rules, at, next)?;
    put_bytes(rules, &[11])?;
    Ok(next)
}

// Appends the rules of an item, where the last ones were told at an address; and where rules were told last behind it.
fn put_item(rules: &mut Vec<u8>, app: &App, own: u32, at: u32, span: Span, op: &Op) -> Result<u32>
    requires frames { (own ≤ frame_limit + 1) × All (λ f. f.frame_words ≤ frame_limit) app.now.funcs }
    requires room { span.first + 8 < 4294967296 }
    ensures put { IfOk result (λ told. rules.new.items
        ≡ rules.old.items ++ item_rules at span.first span.next span.end (inside app.now own op.now)) }
    ensures told { IfOk result (λ told. told ≡ told_at at span.first span.next span.end (inside app.now own op.now)) }
{
    match op {
        Op::Invoke { func } => {
            let inside = span.first + WORD;
            put_next_address(rules, at, inside)?;
            let called = called_words(app, func.0 as usize);
            put_bytes(rules, &[10])?;
            put_frame_offset(rules, WORD * own + WORD + WORD * called)?;
            put_again(rules, inside, span.next, span.end)
        }
        Op::Return => {
            let inside = span.first + 2 * WORD;
            put_next_address(rules, at, inside)?;
            put_return(rules)?;
            put_again(rules, inside, span.next, span.end)
        }
        _ => Ok(at),
    }
}

fn put_items(
    rules: &mut Vec<u8>,
    app: &App,
    places: &Places,
    code_end: u32,
    number: usize,
    func: &Func,
) -> Result<()>
    requires number { number + length func.now.items ≤ item_limit }
    requires frames { (func.now.frame_words ≤ frame_limit) × All (λ f. f.frame_words ≤ frame_limit) app.now.funcs }
    requires room { (k : ℕ) → item_address places.now code_end k + 8 < 4294967296 }
    ensures { OnOk result (rules.new.items ≡ rules.old.items
        ++ items_rules app.now places.now code_end (own_words func.now)
        (item_address places.now code_end (number + length func.now.items))
        (item_address places.now code_end number) number func.now.items) }
{
    let items = func.items.items();
    let end = item_address(places, code_end, number + items.len());
    let own = own_words(func);
    let mut at = item_address(places, code_end, number);
    for k in 0..items.len() {
        let first = item_address(places, code_end, number + k);
        let next = item_address(places, code_end, number + k + 1);
        let span = Span { first, next, end };
        at = put_item(rules, app, own, at, span, &items[k].op)?;
    }
    Ok(())
}

/// The rules of a body, the first item of which has this place among the items of all bodies.
#[tactic(auto, unfolding(crate::specs::BodyFrames::body_rules))]
pub fn body_rules(
    alloc: Global,
    app: &App,
    places: &Places,
    code_end: u32,
    number: usize,
    func: &Func,
) -> Result<Vec<u8>>
    requires number { number + length func.now.items ≤ item_limit }
    requires frames { (func.now.frame_words ≤ frame_limit) × All (λ f. f.frame_words ≤ frame_limit) app.now.funcs }
    requires room { (k : ℕ) → item_address places.now code_end k + 8 < 4294967296 }
    ensures { IfOk result (λ rules. rules.items ≡ body_rules app.now places.now code_end number func.now) }
{
    let mut rules = Vec::new(alloc);
    put_frame_offset(&mut rules, WORD * own_words(func))?;
    put_back(&mut rules, func)?;
    put_items(&mut rules, app, places, code_end, number, func)?;
    Ok(rules)
}
