//! The file of an image that debuggers read, what it is made from, and the kinds of its entries.
ghost use Rattle.std.specs.Prelude.{◌≡◌, ◌≤◌, ◌<◌, ◌+◌, IfOk, OnOk, length};
ghost use Rattle.sloth_base.specs.MemoryMap.{memory_base};
ghost use Rattle.symbol_image.specs.FileParts.{MayShow};
ghost use Rattle.symbol_image.specs.FrameRows.{HasFrames};
ghost use Rattle.symbol_image.specs.HeaderViews.{AreOrdered, IsMemoryWithin};
ghost use Rattle.symbol_image.specs.Layout.{all_laid, laid_with, padded, with_names};
ghost use Rattle.symbol_image.specs.LayoutViews.{laid_of};
ghost use Rattle.symbol_image.specs.SymbolFile.{code_sections, data_sections, debugging_sections, laid_file, loaded, part_sections, rows_of, symbol_file, table_sections};
ghost use Rattle.symbol_image.specs.Symbols.{locals_of, all_symbols};
ghost use Rattle.symbol_image.specs.WordSymbols.{HasWords};
ghost use Rattle.symbol_image.specs.Abbreviations.{abbreviation_section};

use crate::fields::put_bytes;
use crate::frames::frame_section;
use crate::layout::{
    CONTENTS, FRONT, Laid, STRINGS, lay, lay_end, lay_names, lay_unloaded, none_laid,
    put_elf_header, put_segments,
};
use crate::line_section::{info_section, line_section};
use crate::symbol::{Symbol, Tables, push_globals, push_locals, push_words, symbol_tables};
use map_text::{Borders, Origins, Row, image_borders};
use sloth_base::{App, Config, MEMORY_BASE, Result, VECTORS_BASE};
use sloth_region::Map;
use std::alloc::Global;
use std::marker::Model;

/// A section is loaded and written, or loaded and executed.
const WRITTEN: usize = 3;

const EXECUTED: usize = 6;

fn load(laid: &mut Laid, name: &[u8], flags: usize, memory: &[u8], from: u32, to: u32) -> Result<()>
    requires { (memory_base ≤ from) × (from ≤ to) × (to ≤ memory_base + length memory.now) }
    ensures { OnOk result (laid_of laid.new
        ≡ laid_with (laid_of laid.old) (loaded name.now flags memory.now from to)) }
{
    let contents = &memory[(from - MEMORY_BASE) as usize..(to - MEMORY_BASE) as usize];
    let numbers = [1, flags, from as usize, contents.len(), 0, 0, 4, 0];
    lay(laid, name, &numbers, contents)
}

fn lay_memory(laid: &mut Laid, memory: &[u8], borders: &Borders) -> Result<()>
    requires { IsMemoryWithin (length memory.now) borders.now }
    ensures { OnOk result (laid_of laid.new
        ≡ all_laid (all_laid (laid_of laid.old) (code_sections memory.now borders.now)) (data_sections memory.now
        borders.now)) }
{
    let (code_end, end) = (borders.code_end, borders.end);
    let (stacks, size) = (borders.stacks, borders.top.saturating_sub(borders.stacks));
    let numbers = [8, WRITTEN, stacks as usize, size as usize, 0, 0, 16, 0];
    load(laid, b".words", WRITTEN, memory, MEMORY_BASE, VECTORS_BASE)?;
    load(laid, b".text", EXECUTED, memory, VECTORS_BASE, code_end)?;
    load(laid, b".data", WRITTEN, memory, code_end, end)?;
    lay(laid, b".stack", &numbers, b"")
}

fn lay_debugging(alloc: Global, laid: &mut Laid, from: &Parts, end: u32, rows: &[Row]) -> Result<()>
    requires { HasFrames from.now.app from.now.map.places end }
    ensures { OnOk result (laid_of laid.new ≡ all_laid (laid_of laid.old) (debugging_sections from.now end rows.now)) }
{
    let kinds = abbreviation_section(alloc)?;
    lay_unloaded(laid, CONTENTS, b".debug_abbrev", kinds.as_slice())?;
    let declared = from.origins.lines.items();
    let entries = info_section(
        alloc,
        from.source,
        from.app,
        &from.map.places,
        end,
        declared,
    )?;
    lay_unloaded(laid, CONTENTS, b".debug_info", entries.as_slice())?;
    let lines = line_section(
        alloc,
        from.source,
        from.app,
        &from.map.places,
        from.origins,
        end,
    )?;
    lay_unloaded(laid, CONTENTS, b".debug_line", lines.as_slice())?;
    let frames = frame_section(alloc, from.app, &from.map.places, end, from.memory, rows)?;
    lay_unloaded(laid, CONTENTS, b".debug_frame", frames.as_slice())
}

fn lay_symbols(
    alloc: Global,
    laid: &mut Laid,
    parts: &Parts,
    borders: &Borders,
    rows: &[Row],
) -> Result<()>
    requires { HasWords parts.now.config }
    ensures { OnOk result (laid_of laid.new
        ≡ all_laid (laid_of laid.old) (table_sections borders.now (all_symbols parts.now.config parts.now.app rows.now)
        (length (locals_of parts.now.config rows.now)))) }
{
    let mut all = Vec::new(alloc);
    push_words(alloc, &mut all, parts.config)?;
    push_locals(alloc, &mut all, parts.config, rows)?;
    let locals = all.len();
    push_globals(alloc, &mut all, parts.app, rows)?;
    let tables = symbol_tables(alloc, borders, all.as_slice())?;
    let numbers = [2, 0, 0, tables.table.len(), 10, 1 + locals, 4, 16];
    lay(laid, b".symtab", &numbers, tables.table.as_slice())?;
    lay_unloaded(laid, STRINGS, b".strtab", tables.names.as_slice())
}

fn lay_parts(
    alloc: Global,
    laid: &mut Laid,
    parts: &Parts,
    borders: &Borders,
    rows: &[Row],
) -> Result<()>
    requires words { HasWords parts.now.config }
    requires within { IsMemoryWithin (length parts.now.memory) borders.now }
    requires frames { HasFrames parts.now.app parts.now.map.places borders.now.code_end }
    ensures { OnOk result (laid_of laid.new
        ≡ padded (with_names (all_laid (laid_of laid.old) (part_sections parts.now borders.now rows.now)))) }
{
    lay_memory(laid, parts.memory, borders)?;
    lay_debugging(alloc, laid, parts, borders.code_end, rows)?;
    lay_symbols(alloc, laid, parts, borders, rows)?;
    lay_names(alloc, laid)?;
    lay_end(laid)
}

fn laid_file(alloc: Global, borders: &Borders, laid: &Laid) -> Result<Vec<u8>>
    requires { AreOrdered borders.now }
    ensures { IfOk result (λ file. file.items ≡ laid_file borders.now (laid_of laid.now)) }
{
    let mut file = Vec::new(alloc);
    put_elf_header(&mut file, FRONT + laid.contents.len())?;
    put_segments(&mut file, borders)?;
    put_bytes(&mut file, laid.contents.as_slice())?;
    put_bytes(&mut file, laid.headers.as_slice())?;
    Ok(file)
}

/// The file of an image that debuggers read: its memory in three segments, and what stands where, by its map's rows.
#[tactic(auto, unfolding(crate::specs::SymbolFile::symbol_file))]
pub fn symbol_file(alloc: Global, parts: &Parts, rows: &[Row]) -> Result<Vec<u8>>
    requires may { MayShow parts.now }
    requires rows { rows.now ≡ rows_of parts.now }
    ensures { IfOk result (λ file. file.items ≡ symbol_file parts.now) }
{
    let borders = image_borders(parts.map, parts.memory.len());
    let mut laid = none_laid(alloc)?;
    lay_parts(alloc, &mut laid, parts, &borders, rows)?;
    laid_file(alloc, &borders, &laid)
}

/// The name of the source; what it means with its configuration; the map that is planned for it; where it declares its
/// symbols and its lines come from; and the image's memory.
#[derive(Drop)]
pub struct Parts<'t> {
    pub source: &'t [u8],
    pub config: &'t Config,
    pub app: &'t App,
    pub map: &'t Map,
    pub origins: &'t Origins,
    pub memory: &'t [u8],
}

impl<'t> Model for Parts<'t> {
    ghost use Rattle.symbol_image.specs.FileParts.{FileParts};

    ghost Value = { FileParts };

    ghost view = { λ parts. record {
      source = parts.source.now;
      config = parts.config.now;
      app = parts.app.now;
      map = parts.map.now;
      origins = parts.origins.now;
      memory = parts.memory.now;
    } };
}

// The bytes of all kinds, a row for each: code, tag, whether it has children, attributes with their forms, two zeros.
const KINDS: [u8; 122] = [
    1, 17, 1, 37, 8, 19, 11, 3, 8, 27, 8, 17, 1, 18, 1, 16, 23, 0, 0, // unit
    2, 36, 0, 3, 8, 62, 11, 11, 11, 0, 0, // base type
    3, 1, 1, 73, 19, 0, 0, // array
    4, 33, 0, 73, 19, 47, 6, 0, 0, // index
    5, 52, 0, 3, 8, 63, 25, 58, 11, 59, 6, 73, 19, 2, 24, 0, 0, // variable
    6, 46, 1, 3, 8, 63, 25, 58, 11, 59, 6, 17, 1, 18, 1, 0, 0, // body
    7, 52, 0, 3, 8, 73, 19, 2, 24, 0, 0, // frame
    8, 10, 0, 3, 8, 58, 11, 59, 6, 17, 1, 0, 0, // label
    9, 46, 0, 3, 8, 63, 25, 58, 11, 59, 6, 17, 1, 18, 1, 0, 0, // body without frame and labels
    0, // the end
];

/// The section of the kinds of entries.
#[tactic(auto, unfolding(crate::specs::Abbreviations::abbreviation_section))]
pub fn abbreviation_section(alloc: Global) -> Result<Vec<u8>>
    ensures { IfOk result (λ section. section.items ≡ abbreviation_section) }
{
    let section = Vec::from_slice(alloc, &KINDS)?;
    Ok(section)
}
