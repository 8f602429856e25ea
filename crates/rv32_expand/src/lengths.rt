//! The length of an item. The least set of long branches of a body. The lengths of the items of all bodies.
//! The instructions of an item where it stands. Where items, symbols and blocks of services stand.
//! Instructions as they are put together. The instructions of an item in their places.
ghost use Rattle.std.specs.Prelude.{◌≡◌, true, ◌<◌, ◌↔◌, length, IfOk, IsTrue, ◌+◌, ◌^◌, ◌≤◌, ◌++◌, ◌∷◌, []};
ghost use Rattle.code_rules.specs.AppRange.{IsTaskCode};
ghost use Rattle.rv32_expand.specs.Long.{size, IsInBranchReach};
ghost use Rattle.sloth_base.specs.Named.{label_of, function, item_of};
ghost use Rattle.rv32_expand.specs.Passes.{set_in_list, IsCountable, ArePlaces, AreItemLengths, IsFarMark, IsPass, AreShortest};
ghost use Rattle.rv32_expand.specs.Sizes.{AreItemSizes, AgreeWithSizes, HasWordAddresses, IsVerified};
ghost use Rattle.sloth_base.specs.Limits.{item_limit};
ghost use Rattle.rv32_expand.specs.Code.{IsCode};
ghost use Rattle.rv32_expand.specs.Expansion.{item_address, is_long, expansion, symbol_address, block_address, label_address};
ghost use Rattle.rv32_expand.specs.InPlace.{IsAppItem};
ghost use Rattle.rv32_expand.specs.Nothing.{nop};
ghost use Rattle.rv32_instr.specs.Range.{AreInRange};

pub use crate::rows::distance;
use crate::rows::{draft, size};
use rv32_instr::{Instr, InstrKind, ZERO, addi};
use sloth_base::{App, Func, Item, Op, Places, Result, Service, SymId, block_number};
use std::alloc::{AllocError, Global};
use std::marker::Model;

/// The length of an item. A branch may be shorter.
#[tactic(auto, using(crate::proofs::InRangeOf::frame_of))]
pub fn length(item: &Item, app: &App) -> u32
    requires { IsTaskCode app.now }
    ensures { result ≡ size app.now true item.now.op }
{
    size(item.op, app, true)
}

/// The words before each item and before the end.
fn places(alloc: Global, app: &App, body: &Func, long: &[bool]) -> Result<Vec<u32>, AllocError>
    requires small { IsCountable app.now body.now }
    requires same { length long.now ≡ length body.now.items }
    ensures { IfOk result (λ places. ArePlaces app.now body.now long.now places.items) }
{
    let items = body.items.items();
    let mut places = Vec::new(alloc);
    let mut place = 0;
    for index in 0..items.len() {
        places.push(place)?;
        place += size(items[index].op, app, long[index]);
    }
    places.push(place)?;
    Ok(places)
}

/// The item that a label stands before.
pub fn item_behind(body: &Func, label: u32) -> u32
    ensures { result ≡ (label_of body.now label).item }
{
    match body.labels.items().get(label as usize) {
        Some(label) => label.item,
        None => 0,
    }
}

fn reaches(from: u32, to: u32) -> bool
    requires from_in { from < 0x4000_0000 }
    requires to_in { to < 0x4000_0000 }
    ensures { IsTrue result ↔ IsInBranchReach from to }
{
    to <= from + 4094 && from <= to + 4096
}

/// Whether an item is a branch outside the set that does not reach.
fn is_far(app: &App, body: &Func, long: &[bool], places: &[u32], index: usize) -> bool
    requires small { IsCountable app.now body.now }
    requires inside { index < length body.now.items }
    requires same { length long.now ≡ length body.now.items }
    requires at { ArePlaces app.now body.now long.now places.now }
    ensures { IsFarMark app.now body.now (set_in_list long.now) index result }
{
    match body.items.items()[index].op {
        Op::Branch { label, .. } => {
            let target = item_behind(body, label) as usize;
            !long[index] && !reaches(4 * places[index], 4 * places[target])
        }
        _ => false,
    }
}

/// The set after a pass, and whether the pass changed it.
#[derive(Drop)]
struct Passed {
    long: Vec<bool>,
    changed: bool,
}

/// Lengthens each short branch that does not reach.
fn pass(alloc: Global, app: &App, body: &Func, long: &[bool]) -> Result<Passed, AllocError>
    requires small { IsCountable app.now body.now }
    requires same { length long.now ≡ length body.now.items }
    ensures { IfOk result (λ pass. IsPass app.now body.now long.now pass.long.items pass.changed) }
{
    let places = places(alloc, app, body, long)?;
    let mut lengthened = Vec::new(alloc);
    let mut changed = false;
    for index in 0..long.len() {
        let far = is_far(app, body, long, &places, index);
        lengthened.push(long[index] | far)?;
        changed |= far;
    }
    Ok(Passed {
        long: lengthened,
        changed,
    })
}

fn lengths(alloc: Global, app: &App, body: &Func, long: &[bool]) -> Result<Vec<u32>, AllocError>
    requires small { IsCountable app.now body.now }
    requires same { length long.now ≡ length body.now.items }
    ensures { IfOk result (λ lengths. AreItemLengths app.now body.now (set_in_list long.now) lengths.items) }
{
    let items = body.items.items();
    let mut lengths = Vec::new(alloc);
    for index in 0..items.len() {
        lengths.push(size(items[index].op, app, long[index]))?;
    }
    Ok(lengths)
}

/// The lengths of the items of a body, with as few long branches as can be.
pub fn shortest(alloc: Global, app: &App, body: &Func) -> Result<Vec<u32>, AllocError>
    requires { IsCountable app.now body.now }
    ensures { IfOk result (λ lengths. AreShortest app.now body.now lengths.items) }
{
    let mut long = vec![in alloc; false; body.items.items().len()]?;
    loop {
        let next = pass(alloc, app, body, &long)?;
        if !next.changed {
            return lengths(alloc, app, body, &long);
        }
        long = next.long;
    }
}

/// The length of each item over all bodies in order. A branch that reaches its label has length 1, and else 6; of all
/// ways to choose, this has the fewest branches of length 6.
pub fn sizes(alloc: Global, app: &App) -> Result<Vec<u32>>
    requires { IsTaskCode app.now }
    ensures { IfOk result (λ sizes. AreItemSizes app.now sizes.items) }
{
    let mut sizes = Vec::new(alloc);
    for body in app.funcs.items() {
        let own = shortest(alloc, app, body)?;
        sizes.extend_from_slice(&own)?;
    }
    Ok(sizes)
}

/// Whether a branch is long: there is room for more than one instruction.
fn is_long(places: &Places, func: u32, index: u32) -> bool
    requires place { item_address places.now func index + 4 < 2 ^ 32 }
    requires few { index < item_limit }
    ensures { result ≡ is_long places.now func index }
{
    item_address(places, func, index) + 4 < item_address(places, func, index + 1)
}

/// The instructions of an item of a function, where it stands.
pub fn expand(item: &Item, func: u32, index: u32, app: &App, places: &Places) -> Expansion
    requires verified { IsVerified app.now }
    requires is_item { IsAppItem app.now func index }
    requires is { item.now ≡ item_of (function app.now func) index }
    requires covers { HasWordAddresses app.now places.now }
    requires agree { AgreeWithSizes app.now places.now }
    ensures { IsCode (expansion app.now places.now func index) result }
{
    let at = item_address(places, func, index);
    let long = is_long(places, func, index);
    in_places(draft(item, func, at, long, app, places).kinds())
}

/// The address of an item of a function.
pub fn item_address(places: &Places, func: u32, index: u32) -> u32
    ensures { result ≡ item_address places.now func index }
{
    let (firsts, items) = (places.first.items(), places.items.items());
    let first = firsts.get(func as usize).copied().unwrap_or(0);
    let place = first as usize + index as usize;
    items.get(place).copied().unwrap_or(0)
}

/// The address of a symbol.
pub fn symbol_address(places: &Places, symbol: SymId) -> u32
    ensures { result ≡ symbol_address places.now symbol }
{
    let symbols = places.symbols.items();
    symbols.get(symbol.0 as usize).copied().unwrap_or(0)
}

/// The address of the code of a service with its object.
pub fn block_address(places: &Places, service: Service, object: u32) -> u32
    ensures { result ≡ block_address places.now service object }
{
    let number = block_number(service, object);
    places.blocks.get(number).copied().unwrap_or(0)
}

/// The address of the item behind a label of a function.
pub fn label_address(app: &App, places: &Places, func: u32, label: u32) -> u32
    ensures { result ≡ label_address app.now places.now func label }
{
    match app.funcs.items().get(func as usize) {
        Some(body) => item_address(places, func, item_behind(body, label)),
        None => item_address(places, func, 0),
    }
}

/// The most instructions that an item has: those of a call of a function with 32 frame words.
pub const LONGEST: usize = 36;

/// Instructions whose numbers have not been judged. Contracts see their list.
#[derive(Drop)]
pub struct Draft {
    len: usize,
    kinds: [InstrKind; LONGEST],
}

impl Model for Draft {
    ghost use Rattle.std.specs.Prelude.{List, take, ◌≤◌};
    ghost use Rattle.rv32_instr.specs.declared.InstrKind.{InstrKind};

    ghost Value = { List InstrKind };

    ghost view = { λ draft. take draft.len draft.kinds };

    ghost invariant = { λ draft. draft.len ≤ 36 };
}

/// Nothing is done.
pub fn nop() -> InstrKind
    ensures { result ≡ nop }
{
    addi(ZERO, ZERO, 0)
}

impl Draft {
    /// No instruction.
    pub fn new() -> Draft
        ensures { result ≡ [] }
    {
        Draft {
            len: 0,
            kinds: [nop(); LONGEST],
        }
    }

    /// These instructions.
    pub fn of(kinds: &[InstrKind]) -> Draft
        requires { length kinds.now ≤ 36 }
        ensures { result ≡ kinds.now }
    {
        let mut draft = Draft::new();
        for kind in kinds {
            draft.push(*kind);
        }
        draft
    }

    /// The instructions so far.
    pub fn kinds(&self) -> &[InstrKind]
        ensures is { result.now ≡ self.now }
        ensures few { length result.now ≤ 36 }
    {
        &self.kinds[..self.len]
    }

    /// Adds an instruction.
    pub fn push(&mut self, kind: InstrKind)
        requires { length self.old < 36 }
        ensures { self.new ≡ self.old ++ kind ∷ [] }
    {
        self.kinds[self.len] = kind;
        self.len += 1;
    }
}

/// The instructions of an item, the one that commits it last.
#[derive(Clone, Copy)]
pub struct Expansion {
    pub len: u32,
    /// Behind the last one stands `addi x0, x0, 0`.
    pub code: [Instr; LONGEST],
}

/// The instructions, each of which has a word, in their places.
pub fn in_places(kinds: &[InstrKind]) -> Expansion
    requires few { length kinds.now ≤ 36 }
    requires in_range { AreInRange kinds.now }
    ensures { IsCode kinds.now result }
{
    let mut code = [Instr::of(nop()); LONGEST];
    for index in 0..kinds.len() {
        code[index] = Instr::of(kinds[index]);
    }
    let len = kinds.len() as u32;
    Expansion { len, code }
}
