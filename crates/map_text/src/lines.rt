//! The lines of a map: its rows with the bytes between them, what each part takes together, and what tasks need.
ghost use Rattle.std.specs.Prelude.{◌≡◌, ◌<◌, ◌++◌, IfOk, OnOk, length, IfErr};
ghost use Rattle.sloth_base.specs.Blocks.{block_object, block_service};
ghost use Rattle.map_text.specs.MapText.{behind_part, need_line, part_text, piece_name, piece_text, piece_word, row_line, service_text, sum_line, total_line, HasMap, IsMapText, lines_with, map_text, need_lines};
ghost use Rattle.map_text.specs.Totals.{between_rows, part_bytes, filled_rows, gap_rows, kind_part, part_sum};
ghost use Rattle.std.specs.List.{flat_map};
ghost use Rattle.code_rules.specs.WellFormed.{WellFormed};
ghost use Rattle.stack_bounds.specs.Bounds.{AreBounds};
ghost use Rattle.sloth_source.specs.Texts.{SourcesErrorIs};
ghost use Rattle.map_text.specs.Listable.{IsListable};

use crate::piece_starts::rows_sum;
use crate::{Kind, Row, map_rows};
use mem_map::plan;
use sloth_base::{
    App, BLOCK_COUNT, Bounds, BuildError, Config, NoMemory, ObjectKind, Result, block_object,
    block_service,
};
use sloth_region::Map;
use sloth_source::{Source, read};
use std::alloc::{AllocError, Global};
use text_pieces::pieces::Piece::{Number, Sum, Word};
use text_pieces::{line, text};
use trace_text::LineText;

// Appends the service with its object that has a place in the table of the services' code.
#[tactic(auto, using(crate::proofs::Services::no_service))]
fn push_service(text: &mut Vec<u8>, config: &Config, number: usize) -> Result<()>
    ensures { OnOk result (text.new.items ≡
        text.old.items ++ service_text config.now (block_service number) (block_object number)) }
{
    if number >= BLOCK_COUNT {
        return line!(text; Word(b"-"));
    }
    let Some(service) = block_service(number) else {
        return line!(text; Word(b"-"));
    };
    line!(text; Word(service.name()))?;
    let object = block_object(number) as usize;
    match service.object_kind() {
        ObjectKind::Nothing => Ok(()),
        ObjectKind::Task => line!(text; Word(b" "), Word(config.task_name(object))),
        ObjectKind::Resource => line!(text; Word(b" "), Word(config.resource_name(object))),
        ObjectKind::Alarm => line!(text; Word(b" "), Word(config.alarm_name(object))),
    }
}

impl Kind {
    fn word(self) -> &'static [u8]
        ensures { result.now ≡ piece_word self }
    {
        match self {
            Kind::Words => b"words",
            Kind::Vectors => b"vectors",
            Kind::Boot => b"boot",
            Kind::Idle => b"idle",
            Kind::Prologue => b"prologue ",
            Kind::Tick => b"tick ",
            Kind::Service => b"service ",
            Kind::Code => b"code ",
            Kind::Data => b"data ",
            Kind::End => b"end",
            Kind::Shared => b"shared",
            Kind::Stack => b"stack ",
            Kind::Between => b"between",
        }
    }
}

fn piece_name<'a>(config: &'a Config, app: &'a App, kind: Kind, number: usize) -> &'a [u8]
    ensures { result.now ≡ piece_name config.now app.now kind number }
{
    match kind {
        Kind::Prologue | Kind::Stack => config.task_name(number),
        Kind::Tick => config.counter_name(number),
        Kind::Code => app.function_name(number),
        Kind::Data => app.symbol_name(number),
        _ => b"",
    }
}

fn push_piece(text: &mut Vec<u8>, config: &Config, app: &App, row: &Row) -> Result<()>
    ensures { OnOk result (text.new.items ≡
        text.old.items ++ piece_text config.now app.now row.now.kind row.now.number) }
{
    match row.kind {
        Kind::Service => {
            line!(text; Word(b"service "))?;
            push_service(text, config, row.number)
        }
        kind => {
            let name = piece_name(config, app, kind, row.number);
            line!(text; Word(kind.word()), Word(name))
        },
    }
}

/// The line of a row: its address in hexadecimal digits, its bytes, and what stands there.
#[tactic(auto, unfolding(crate::specs::MapText::row_line))]
pub fn row_line(alloc: Global, config: &Config, app: &App, row: &Row) -> Result<Vec<u8>>
    ensures { IfOk result (λ line. line.items ≡ row_line config.now app.now row.now) }
{
    let mut head = LineText::new();
    head.push_word(row.base);
    head.push(b" ");
    head.push_number(row.len);
    head.push(b" ");
    let mut line = Vec::from_slice(alloc, head.bytes())?;
    push_piece(&mut line, config, app, row)?;
    line.extend_from_slice(b"\n")?;
    Ok(line)
}

/// The line of the bytes of stack that a task needs by its bound.
#[tactic(auto, unfolding(crate::specs::MapText::need_line))]
pub fn need_line(alloc: Global, config: &Config, bounds: &Bounds, task: usize) -> Result<Vec<u8>>
    requires { task < length bounds.now.bytes }
    ensures { IfOk result (λ line. line.items ≡ need_line config.now bounds.now task) }
{
    let bytes = bounds.bytes.items()[task];
    text!(alloc; Word(b"need "), Word(config.task_name(task)), Word(b" "), Number(bytes), Word(b"\n"))
}

impl Part {
    fn word(self) -> &'static [u8]
        ensures { result.now ≡ part_text self }
    {
        match self {
            Part::Code => b"code",
            Part::Data => b"data",
            Part::Stacks => b"stacks",
            Part::Between => b"between",
        }
    }

    fn note(self) -> &'static [u8]
        ensures { result.now ≡ behind_part self }
    {
        match self {
            Part::Code => b" read-only",
            Part::Data | Part::Stacks | Part::Between => b"",
        }
    }
}

/// The line of the bytes of a part.
#[tactic(auto, unfolding(crate::specs::MapText::total_line))]
pub fn total_line(alloc: Global, rows: &[Row], part: Part) -> Result<Vec<u8>>
    ensures { IfOk result (λ line. line.items ≡ total_line rows.now part) }
{
    let sum = Sum(part_sum(part, rows));
    text!(alloc; Word(part.word()), Word(b" "), sum, Word(part.note()), Word(b"\n"))
}

/// The line of the bytes of all rows.
pub fn sum_line(alloc: Global, sum: u128) -> Result<Vec<u8>>
    ensures { IfOk result (λ line. line.items ≡ sum_line sum) }
{
    text!(alloc; Word(b"sum "), Sum(sum), Word(b"\n"))
}

/// A part of an image.
#[derive(Clone, Copy)]
pub enum Part {
    Code,
    Data,
    Stacks,
    /// Bytes of no part.
    Between,
}

/// The parts, in the order of their lines.
pub const PARTS: [Part; 4] = [Part::Code, Part::Data, Part::Stacks, Part::Between];

impl Kind {
    fn part(self) -> Part
        ensures { result ≡ kind_part self }
    {
        match self {
            Kind::Vectors | Kind::Boot | Kind::Idle | Kind::Prologue => Part::Code,
            Kind::Tick | Kind::Service | Kind::Code => Part::Code,
            Kind::Words | Kind::Data | Kind::End => Part::Data,
            Kind::Shared | Kind::Stack => Part::Stacks,
            Kind::Between => Part::Between,
        }
    }
}

// Appends a row of the bytes from behind one row up to an address, if there are any.
fn push_gap(rows: &mut Vec<Row>, row: &Row, to: u32) -> Result<(), AllocError>
    ensures { OnOk result (rows.new.items ≡ rows.old.items ++ gap_rows row.now to) }
{
    let behind = u64::from(row.base) + u64::from(row.len);
    if behind < u64::from(to) {
        rows.push(Row {
            kind: Kind::Between,
            number: 0,
            base: behind as u32,
            len: to - behind as u32,
        })?;
    }
    Ok(())
}

// Appends the same up to the first of these, if there is one.
#[tactic(auto, using(crate::proofs::OneTotal::gap_some, crate::proofs::OneTotal::gap_none))]
fn push_between(rows: &mut Vec<Row>, row: &Row, rest: &[Row]) -> Result<(), AllocError>
    ensures { OnOk result (rows.new.items ≡ rows.old.items ++ between_rows row.now rest.now) }
{
    match rest.first() {
        Some(next) => push_gap(rows, row, next.base),
        None => Ok(()),
    }
}

/// These rows, in the order of their addresses, with those of the bytes between them.
pub fn filled_rows(alloc: Global, rows: &[Row]) -> Result<Vec<Row>, AllocError>
    ensures { IfOk result (λ filled. filled.items ≡ filled_rows rows.now) }
{
    let mut filled = Vec::new(alloc);
    for (n, row) in rows.iter().enumerate() {
        filled.push(*row)?;
        push_between(&mut filled, row, &rows[n + 1..])?;
    }
    Ok(filled)
}

fn part_bytes(part: Part, row: &Row) -> u32
    ensures { result ≡ part_bytes part row.now }
{
    match (part, row.kind.part()) {
        (Part::Code, Part::Code)
        | (Part::Data, Part::Data)
        | (Part::Stacks, Part::Stacks)
        | (Part::Between, Part::Between) => row.len,
        _ => 0,
    }
}

/// The bytes of the rows of a part together.
#[tactic(auto, using(crate::proofs::OneTotal::part_more, crate::proofs::OneTotal::part_end))]
pub fn part_sum(part: Part, rows: &[Row]) -> u128
    ensures { result ≡ part_sum part rows.now }
{
    let mut sum = 0;
    for i in 0..rows.len() {
        sum += u128::from(part_bytes(part, &rows[i]));
    }
    sum
}

fn push_rows(alloc: Global, to: &mut Vec<u8>, config: &Config, app: &App, all: &[Row]) -> Result<()>
    ensures { OnOk result (to.new.items ≡ to.old.items ++ flat_map (row_line config.now app.now) all.now) }
{
    for row in all {
        to.extend_from_slice(row_line(alloc, config, app, row)?.as_slice())?;
    }
    Ok(())
}

#[tactic(auto, using(crate::proofs::OneNeed::needs_begin, crate::proofs::OneNeed::needs_more))]
fn push_needs(alloc: Global, text: &mut Vec<u8>, config: &Config, bounds: &Bounds) -> Result<()>
    requires { length bounds.now.bytes ≡ length config.now.tasks }
    ensures { OnOk result (text.new.items ≡
        text.old.items ++ need_lines config.now bounds.now (length config.now.tasks)) }
{
    for task in 0..config.tasks.items().len() {
        text.extend_from_slice(need_line(alloc, config, bounds, task)?.as_slice())?;
    }
    Ok(())
}

fn push_totals(alloc: Global, text: &mut Vec<u8>, rows: &[Row], parts: &[Part]) -> Result<()>
    ensures { OnOk result (text.new.items ≡ text.old.items ++ flat_map (total_line rows.now) parts.now) }
{
    for part in parts {
        text.extend_from_slice(total_line(alloc, rows, *part)?.as_slice())?;
    }
    Ok(())
}

fn rows_text(alloc: Global, oil: &Config, app: &App, needs: &Bounds, all: &[Row]) -> Result<Vec<u8>>
    requires { length needs.now.bytes ≡ length oil.now.tasks }
    ensures { IfOk result (λ text. text.items ≡ lines_with oil.now app.now needs.now all.now) }
{
    let mut text = Vec::new(alloc);
    push_rows(alloc, &mut text, oil, app, all)?;
    push_needs(alloc, &mut text, oil, needs)?;
    push_totals(alloc, &mut text, all, &PARTS)?;
    text.extend_from_slice(sum_line(alloc, rows_sum(all))?.as_slice())?;
    Ok(text)
}

fn plan_text(alloc: Global, oil: &Config, app: &App, bounds: &Bounds, map: &Map) -> Result<Vec<u8>>
    requires listable { IsListable oil.now map.now }
    requires counted { length bounds.now.bytes ≡ length oil.now.tasks }
    ensures { IfOk result (λ text. text.items ≡ map_text oil.now app.now bounds.now map.now) }
{
    let rows = map_rows(alloc, oil, map)?;
    let rows = filled_rows(alloc, rows.as_slice())?;
    rows_text(alloc, oil, app, bounds, rows.as_slice())
}

#[tactic(auto, using(crate::proofs::Listing::listable))]
fn planned_text(alloc: Global, config: &Config, app: &App, bounds: &Bounds) -> Result<Vec<u8>>
    requires well_formed { WellFormed config.now app.now }
    requires bounds { AreBounds config.now app.now bounds.now }
    ensures { IfOk result (λ text. HasMap config.now app.now bounds.now text.items) }
{
    let map = plan(alloc, app, config, bounds)?;
    plan_text(alloc, config, app, bounds, &map)
}

/// The lines of what the image of these texts, of at most 4,294,967,294 bytes, takes of memory; or the first refusal
/// (O1 to O15, A1 to A7, V1 to V12).
pub fn map_text(alloc: Global, oil: &[u8], src: &[u8]) -> Result<Vec<u8>, BuildError>
    requires oil { length oil.now < 4294967295 }
    requires src { length src.now < 4294967295 }
    ensures text { IfOk result (λ text. IsMapText oil.now src.now text.items) }
    ensures refused { IfErr result (SourcesErrorIs oil.now src.now) }
{
    let Source {
        config,
        app,
        bounds,
    } = read(alloc, oil, src)?;
    Ok(planned_text(alloc, &config, &app, &bounds)?)
}
