//! The section of frames.
ghost use Rattle.std.specs.Prelude.{◌≡◌, ◌≤◌, ◌<◌, ◌+◌, ◌++◌, IfOk, OnOk, get_or, length, take};
ghost use Rattle.sloth_base.specs.Limits.{item_limit};
ghost use Rattle.map_text.specs.LineRows.{item_count};
ghost use Rattle.symbol_image.specs.Fields.{sized};
ghost use Rattle.symbol_image.specs.FrameEntries.{common_entry, is_unknown, padded};
ghost use Rattle.symbol_image.specs.FrameRows.{HasFrames};
ghost use Rattle.symbol_image.specs.Frames.{body_entry, entry_of, first_loss, frame_section, loses, loss_rule};
ghost use Rattle.symbol_image.specs.Frames.{prologue_rules, row_entry, service_rules, memory_word, writes};

use crate::body_frames::body_rules;
use crate::fields::{put_bytes, put_length, put_unsigned};
use image_file::put_u32;
use map_text::{Kind, Row};
use sloth_base::{App, Func, MEMORY_BASE, Places, Result, WORD};
use std::alloc::Global;

/// The columns by which code goes back: items by x1, services by x31, what interrupts by mepc.
const ITEMS: u32 = 1;

const SERVICES: u32 = 31;

const TAKEN: u32 = 4929;

/// Where their common entries stand.
const ITEMS_AT: u32 = 0;

const SERVICES_AT: u32 = 20;

const TAKEN_AT: u32 = 36;

/// What stands in a common entry in the place of one.
const COMMON: u32 = 4_294_967_295;

/// The number of mepc.
const MEPC: u32 = 833;

/// What loses the way back.
#[derive(Clone, Copy)]
pub enum Lost {
    ByService,
    ByPrologue,
}

// Appends that a register's value is unknown.
fn put_unknown(rules: &mut Vec<u8>, column: u32) -> Result<()>
    ensures { OnOk result (rules.new.items ≡ rules.old.items ++ is_unknown column) }
{
    put_bytes(rules, &[7])?;
    put_unsigned(rules, column)
}

// Appends an entry of these bytes: their length with zeros up to a multiple of 4, they, and the zeros.
fn put_entry(section: &mut Vec<u8>, mut bytes: Vec<u8>) -> Result<()>
    ensures { OnOk result (section.new.items ≡ section.old.items ++ sized (padded bytes.items)) }
{
    let zeros = (4 - bytes.len() % 4) % 4;
    put_bytes(&mut bytes, &[0; 3][..zeros])?;
    put_length(section, bytes.len())?;
    put_bytes(section, bytes.as_slice())
}

// Appends what entries have in common that go back by a column, which may be unknown.
fn put_common_entry(alloc: Global, section: &mut Vec<u8>, by: u32, unknown: bool) -> Result<()>
    ensures { OnOk result (section.new.items ≡ section.old.items ++ common_entry by unknown) }
{
    let mut bytes = Vec::new(alloc);
    put_u32(&mut bytes, COMMON)?;
    put_bytes(&mut bytes, &[3, 0, 4, 124])?;
    put_unsigned(&mut bytes, by)?;
    put_bytes(&mut bytes, &[12, 2, 0])?;
    if unknown {
        put_unknown(&mut bytes, by)?;
    }
    put_entry(section, bytes)
}

// Appends the entry of a row's bytes, by the common one at a place.
fn put_frame_entry(alloc: Global, out: &mut Vec<u8>, at: u32, rules: &[u8], row: &Row) -> Result<()>
    ensures { OnOk result (out.new.items ≡ out.old.items ++ entry_of at rules.now row.now) }
{
    let mut entry = Vec::new(alloc);
    put_u32(&mut entry, at)?;
    put_u32(&mut entry, row.base)?;
    put_u32(&mut entry, row.len)?;
    put_bytes(&mut entry, rules)?;
    put_entry(out, entry)
}

fn byte_or_zero(memory: &[u8], at: usize) -> u32
    ensures is { result ≡ get_or memory.now at 0 }
    ensures small { result ≤ 255 }
{
    u32::from(memory.get(at).copied().unwrap_or(0))
}

fn memory_word(memory: &[u8], at: usize) -> u32
    requires { at ≤ 8589934592 }
    ensures { result ≡ memory_word memory.now at }
{
    byte_or_zero(memory, at)
        + 256 * byte_or_zero(memory, at + 1)
        + 65_536 * byte_or_zero(memory, at + 2)
        + 16_777_216 * byte_or_zero(memory, at + 3)
}

// Whether an instruction, no store, no branch and no fence, has this register for its result.
fn writes(register: u32, word: u32) -> bool
    ensures { result ≡ writes register word }
{
    let opcode = word % 128;
    !(opcode == 35 || opcode == 99 || opcode == 15) && word / 128 % 32 == register
}

// Whether the way back is not known behind an instruction.
fn loses(what: Lost, word: u32) -> bool
    ensures { result ≡ loses what word }
{
    match what {
        Lost::ByService => writes(2, word) || writes(31, word),
        Lost::ByPrologue => writes(1, word)
            || (word % 128 == 115 && word / 4096 % 8 == 1 && word / 1_048_576 == MEPC),
    }
}

// The first instruction behind which it is not, from one on, of so many that are left.
fn first_loss(what: Lost, memory: &[u8], base: usize, from: usize, left: usize) -> Option<usize>
    requires { (base < 4294967296) × (from + left ≤ 1073741824) }
    ensures { result ≡ first_loss what memory.now base from left }
{
    for k in 0..left {
        if loses(what, memory_word(memory, base + 4 * (from + k))) {
            return Some(from + k);
        }
    }
    None
}

// Appends the rule of a loss, unless the piece of so many instructions ends there.
fn put_loss(rules: &mut Vec<u8>, by: u32, told: usize, n: usize, loss: Option<usize>) -> Result<()>
    ensures { OnOk result (rules.new.items ≡ rules.old.items ++ loss_rule by told n loss) }
{
    let Some(at) = loss else {
        return Ok(());
    };
    if n.saturating_sub(at) <= 1 {
        return Ok(());
    }
    put_bytes(rules, &[2, ((at + 1).saturating_sub(told) % 256) as u8])?;
    put_unknown(rules, by)
}

fn service_rules(alloc: Global, memory: &[u8], base: u32, len: u32) -> Result<Vec<u8>>
    ensures { IfOk result (λ rules. rules.items ≡ service_rules memory.now base len) }
{
    let base = base.saturating_sub(MEMORY_BASE) as usize;
    let count = (len / WORD) as usize;
    let loss = first_loss(Lost::ByService, memory, base, 0, count);
    let mut rules = Vec::new(alloc);
    put_loss(&mut rules, SERVICES, 0, count, loss)?;
    Ok(rules)
}

fn prologue_rules(alloc: Global, memory: &[u8], base: u32, len: u32) -> Result<Vec<u8>>
    ensures { IfOk result (λ rules. rules.items ≡ prologue_rules memory.now base len) }
{
    let base = base.saturating_sub(MEMORY_BASE) as usize;
    let count = (len / WORD) as usize;
    let loss = first_loss(Lost::ByPrologue, memory, base, 1, count.saturating_sub(1));
    let mut rules = Vec::from_slice(alloc, &[2, 1, 12, 1])?;
    put_unsigned(&mut rules, 128)?;
    put_loss(&mut rules, TAKEN, 1, count, loss)?;
    Ok(rules)
}

fn items_before(funcs: &[Func], number: usize) -> usize
    requires few { item_count (take number funcs.now) ≤ item_limit }
    requires there { number ≤ length funcs.now }
    ensures { result ≡ item_count (take number funcs.now) }
{
    let mut count = 0;
    for func in &funcs[..number] {
        count += func.items.items().len();
    }
    count
}

fn put_body(
    alloc: Global,
    section: &mut Vec<u8>,
    app: &App,
    places: &Places,
    code_end: u32,
    row: &Row,
) -> Result<()>
    requires frames { HasFrames app.now places.now code_end }
    requires there { row.now.number < length app.now.funcs }
    ensures { OnOk result (section.new.items ≡ section.old.items ++ body_entry app.now places.now code_end row.now) }
{
    let funcs = app.funcs.items();
    let first = items_before(funcs, row.number);
    let rules = body_rules(alloc, app, places, code_end, first, &funcs[row.number])?;
    put_frame_entry(alloc, section, ITEMS_AT, rules.as_slice(), row)
}

fn put_row(
    alloc: Global,
    section: &mut Vec<u8>,
    app: &App,
    places: &Places,
    code_end: u32,
    memory: &[u8],
    row: &Row,
) -> Result<()>
    requires { HasFrames app.now places.now code_end }
    ensures { OnOk result (section.new.items
        ≡ section.old.items ++ row_entry app.now places.now code_end memory.now row.now) }
{
    match row.kind {
        Kind::Boot | Kind::Idle => put_frame_entry(alloc, section, ITEMS_AT, &[], row),
        Kind::Vectors | Kind::Tick => put_frame_entry(alloc, section, TAKEN_AT, &[], row),
        Kind::Prologue => {
            let rules = prologue_rules(alloc, memory, row.base, row.len)?;
            put_frame_entry(alloc, section, TAKEN_AT, rules.as_slice(), row)
        }
        Kind::Service => {
            let rules = service_rules(alloc, memory, row.base, row.len)?;
            put_frame_entry(alloc, section, SERVICES_AT, rules.as_slice(), row)
        }
        Kind::Code => {
            if row.number < app.funcs.items().len() {
                return put_body(alloc, section, app, places, code_end, row);
            }
            Ok(())
        }
        Kind::Words | Kind::Data | Kind::End | Kind::Shared | Kind::Stack | Kind::Between => Ok(()),
    }
}

/// The section of the frames of all code.
#[tactic(auto, unfolding(crate::specs::Frames::frame_section))]
pub fn frame_section(
    alloc: Global,
    app: &App,
    places: &Places,
    code_end: u32,
    memory: &[u8],
    rows: &[Row],
) -> Result<Vec<u8>>
    requires { HasFrames app.now places.now code_end }
    ensures { IfOk result (λ section. section.items ≡ frame_section app.now places.now code_end memory.now rows.now) }
{
    let mut section = Vec::new(alloc);
    put_common_entry(alloc, &mut section, ITEMS, true)?;
    put_common_entry(alloc, &mut section, SERVICES, false)?;
    put_common_entry(alloc, &mut section, TAKEN, false)?;
    for row in rows {
        put_row(alloc, &mut section, app, places, code_end, memory, row)?;
    }
    Ok(section)
}
