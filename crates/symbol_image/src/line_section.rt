//! The section of source lines, and that of entries.
ghost use Rattle.std.specs.Prelude.{◌≡◌, ◌≤◌, ◌++◌, IfOk, OnOk, ◌+◌, ◌∷◌, [], drop, length};
ghost use Rattle.sloth_base.specs.Limits.{item_limit};
ghost use Rattle.map_text.specs.LineRows.{item_count, line_rows};
ghost use Rattle.symbol_image.specs.LineSection.{address_from, file_from, line_from, line_header, line_program, line_section, line_unit, place_from};
ghost use Rattle.symbol_image.specs.Fields.{sized};
ghost use Rattle.symbol_image.specs.FileRows.{file_rows, file_row};
ghost use Rattle.symbol_image.specs.Entries.{base_type, byte_name, info_section, unit_bytes, word_name};
ghost use Rattle.symbol_image.specs.EntryBytes.{entries_bytes, entry_bytes};

use crate::bodies::{Types, put_base_type, put_bodies, put_symbols};
use crate::fields::{
    put_bytes, put_groups, put_length, put_negative, put_text, put_unsigned, sized,
};
use image_file::{put_u16, put_u32};
use map_text::line_rows::line_rows;
use map_text::{LineRow, NO_PLACE, Origins, Place, item_address};
use sloth_base::{App, Places, Result};
use std::alloc::Global;

/// Where rows begin: in line 1 of the source.
const BEGINNING: FileRow = FileRow {
    address: 0,
    file: 1,
    line: 1,
};

fn line_header(alloc: Global, source: &[u8], files: &[u8]) -> Result<Vec<u8>>
    ensures { IfOk result (λ header. header.items ≡ line_header source.now files.now) }
{
    let mut header = Vec::from_slice(alloc, &[1, 1, 1, 253, 12, 13])?;
    put_bytes(&mut header, &[0, 1, 1, 1, 1, 0, 0, 0, 1, 0, 0, 1, 0])?;
    put_text(&mut header, source)?;
    put_bytes(&mut header, &[0, 0, 0])?;
    put_bytes(&mut header, files)?;
    put_bytes(&mut header, &[0])?;
    Ok(header)
}

fn put_file(section: &mut Vec<u8>, file: u32, to: u32) -> Result<()>
    ensures { OnOk result (section.new.items ≡ section.old.items ++ file_from file to) }
{
    if file == to {
        return Ok(());
    }
    put_bytes(section, &[4])?;
    put_unsigned(section, to)
}

#[tactic(auto, unfolding(crate::specs::Fields::signed_leb))]
fn put_line(section: &mut Vec<u8>, line: u32, to: u32) -> Result<()>
    ensures { OnOk result (section.new.items ≡ section.old.items ++ line_from line to) }
{
    put_bytes(section, &[3])?;
    if to < line {
        return put_negative(section, line - to);
    }
    put_groups(section, 64, to - line)
}

fn put_place(section: &mut Vec<u8>, from: FileRow, row: FileRow) -> Result<()>
    ensures { OnOk result (section.new.items ≡ section.old.items ++ place_from from row) }
{
    put_file(section, from.file, row.file)?;
    put_line(section, from.line, row.line)?;
    put_bytes(section, &[1])
}

fn put_address(section: &mut Vec<u8>, address: u32, to: u32) -> Result<()>
    ensures { OnOk result (section.new.items ≡ section.old.items ++ address_from address to) }
{
    put_bytes(section, &[2])?;
    put_unsigned(section, to.saturating_sub(address))
}

#[tactic(auto, unfolding(crate::specs::LineSection::line_program))]
fn put_program(section: &mut Vec<u8>, places: &[Place], rows: &[LineRow], end: u32) -> Result<()>
    ensures { OnOk result (section.new.items ≡ section.old.items ++ line_program (file_rows places.now rows.now) end) }
{
    let Some((first, rest)) = rows.split_first() else {
        return Ok(());
    };
    let first = file_row(places, *first);
    put_bytes(section, &[0, 5, 2])?;
    put_u32(section, first.address)?;
    put_place(section, BEGINNING, first)?;
    let mut last = first;
    for row in rest {
        let next = file_row(places, *row);
        put_address(section, last.address, next.address)?;
        put_place(section, last, next)?;
        last = next;
    }
    put_address(section, last.address, end)?;
    put_bytes(section, &[0, 1, 1])
}

fn put_header(alloc: Global, unit: &mut Vec<u8>, source: &[u8], files: &[u8]) -> Result<()>
    ensures { OnOk result (unit.new.items ≡ unit.old.items ++ sized (line_header source.now files.now)) }
{
    let header = line_header(alloc, source, files)?;
    put_length(unit, header.len())?;
    put_bytes(unit, header.as_slice())
}

fn line_unit(
    alloc: Global,
    source: &[u8],
    origins: &Origins,
    rows: &[LineRow],
    end: u32,
) -> Result<Vec<u8>>
    ensures { IfOk result (λ unit. unit.items ≡ line_unit source.now origins.now.files (file_rows origins.now.places rows.now) end) }
{
    let mut unit = Vec::new(alloc);
    put_u16(&mut unit, 4)?;
    put_header(alloc, &mut unit, source, origins.files.items())?;
    put_program(&mut unit, origins.places.items(), rows, end)?;
    Ok(unit)
}

/// The section of the lines of task code whose items have these places, up to the address behind them; `source` is the
/// name of its source, whose lines come from these origins.
pub fn line_section(
    alloc: Global,
    source: &[u8],
    app: &App,
    places: &Places,
    origins: &Origins,
    end: u32,
) -> Result<Vec<u8>>
    requires { item_count app.now.funcs ≤ item_limit }
    ensures { IfOk result (λ section. section.items ≡ line_section source.now origins.now.files
        (file_rows origins.now.places (line_rows places.now end 0 app.now.funcs)) end) }
{
    let rows = line_rows(alloc, places, end, app.funcs.items())?;
    let unit = line_unit(alloc, source, origins, rows.as_slice(), end)?;
    sized(alloc, unit.as_slice())
}

/// An address, and the file and the line that it comes from. The source is file 1.
#[derive(Clone, Copy)]
pub struct FileRow {
    pub address: u32,
    pub file: u32,
    pub line: u32,
}

/// The row of an address that comes from a line of the source, whose lines have these places.
pub fn file_row(places: &[Place], row: LineRow) -> FileRow
    ensures { result ≡ file_row places.now row }
{
    let at = row.line.saturating_sub(1) as usize;
    let place = places.get(at).copied().unwrap_or(NO_PLACE);
    if place.file == 0 {
        return FileRow {
            address: row.address,
            file: 1,
            line: row.line,
        };
    }
    FileRow {
        address: row.address,
        file: place.file,
        line: place.line,
    }
}

/// The bytes of a unit's length.
const LENGTH: usize = 4;

fn unit(alloc: Global, source: &[u8], low: u32, high: u32) -> Result<Vec<u8>>
    ensures { IfOk result (λ info. info.items ≡ 0 ∷ 0 ∷ 0 ∷ 0 ∷ unit_bytes source.now low high) }
{
    let mut info = Vec::from_slice(alloc, &[0, 0, 0, 0, 4, 0, 0, 0, 0, 0, 4])?;
    put_bytes(&mut info, &[1])?;
    put_text(&mut info, b"sloth")?;
    put_bytes(&mut info, &[12])?;
    put_text(&mut info, source)?;
    put_text(&mut info, b".")?;
    put_u32(&mut info, low)?;
    put_u32(&mut info, high)?;
    put_u32(&mut info, 0)?;
    Ok(info)
}

fn behind_length(info: &[u8]) -> &[u8]
    requires { 4 ≤ length info.now }
    ensures { result.now ≡ drop 4 info.now }
{
    &info[LENGTH..]
}

// Appends the two base types, and says where they stand.
fn put_types(info: &mut Vec<u8>) -> Result<Types>
    ensures word { IfOk result (λ types. types.word ≡ length info.old.items) }
    ensures byte { IfOk result (λ types. types.byte
        ≡ length info.old.items + length (entry_bytes (base_type word_name 4))) }
    ensures put { IfOk result (λ types. info.new.items
        ≡ info.old.items ++ entries_bytes (base_type word_name 4 ∷ base_type byte_name 1 ∷ [])) }
{
    let word = info.len();
    put_base_type(info, b"unsigned int", 4)?;
    let byte = info.len();
    put_base_type(info, b"unsigned char", 1)?;
    Ok(Types { word, byte })
}

/// The section of the entries of task code whose items and symbols have these places, up to the address behind its
/// items; `source` is the name of its source, and `lines` are those in which its symbols are declared.
pub fn info_section(
    alloc: Global,
    source: &[u8],
    app: &App,
    places: &Places,
    end: u32,
    lines: &[u32],
) -> Result<Vec<u8>>
    requires { item_count app.now.funcs ≤ item_limit }
    ensures { IfOk result (λ section. section.items ≡ info_section source.now app.now places.now end lines.now) }
{
    let mut info = unit(alloc, source, item_address(places, end, 0), end)?;
    let types = put_types(&mut info)?;
    let at = places.symbols.items();
    let symbols = app.symbols.items();
    put_symbols(&mut info, types, lines, at, symbols)?;
    put_bodies(&mut info, types, places, end, app.funcs.items())?;
    put_bytes(&mut info, &[0])?;
    sized(alloc, behind_length(info.as_slice()))
}
