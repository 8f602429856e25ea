//! Sections one behind the other, with their headers and names. The ELF header and the program headers.
ghost use Rattle.std.specs.Prelude.{◌≡◌, ◌≤◌, ◌++◌, IfOk, OnOk};
ghost use Rattle.std.specs.List.{flat_map};
ghost use Rattle.image_file.specs.Fields.{two_bytes};
ghost use Rattle.sloth_base.specs.MemoryMap.{memory_base};
ghost use Rattle.symbol_image.specs.Headers.{elf_header, segment_header, segment_headers};
ghost use Rattle.symbol_image.specs.HeaderViews.{AreOrdered};
ghost use Rattle.symbol_image.specs.Layout.{laid_with, none_laid, padded, unloaded, with_names};
ghost use Rattle.symbol_image.specs.LayoutViews.{laid_of, section_of};

use crate::fields::{put_bytes, put_length, put_lengths, put_text};
use elf_image::put_words;
use image_file::put_u16;
use map_text::Borders;
use sloth_base::{BOOT_BASE, MEMORY_BASE, Result, VECTORS_BASE};
use std::alloc::Global;

/// The bytes of the headers in front of all sections.
pub const FRONT: usize = 148;

/// A section that debuggers read has contents of its own; a table of names has strings.
pub const CONTENTS: usize = 1;

pub const STRINGS: usize = 3;

/// The name of the section of the names.
const NAMES: &[u8] = b".shstrtab";

/// Sections that are laid out: their bytes in the file, their headers, their names.
#[derive(Drop)]
pub struct Laid {
    pub contents: Vec<u8>,
    pub headers: Vec<u8>,
    pub names: Vec<u8>,
}

/// None but that of zeros.
#[tactic(auto, unfolding(image_file::specs::Fields::four_bytes))]
pub fn none_laid(alloc: Global) -> Result<Laid>
    ensures { IfOk result (λ laid. laid_of laid ≡ none_laid) }
{
    let headers = Vec::from_slice(alloc, &[0; 40])?;
    let names = Vec::from_slice(alloc, &[0])?;
    Ok(Laid {
        contents: Vec::new(alloc),
        headers,
        names,
    })
}

/// One more section, at the next multiple of 4. Its header says, but for places: kind, flags, address, size, link,
/// info, alignment and size of an entry.
#[tactic(auto, unfolding(crate::specs::Layout::laid_with))]
pub fn lay(laid: &mut Laid, name: &[u8], says: &[usize; 8], contents: &[u8]) -> Result<()>
    ensures { OnOk result (laid_of laid.new ≡ laid_with (laid_of laid.old) (section_of name.now says.now contents.now)) }
{
    lay_end(laid)?;
    let (at, title) = (FRONT + laid.contents.len(), laid.names.len());
    let header = [
        title, says[0], says[1], says[2], at, says[3], says[4], says[5], says[6], says[7],
    ];
    put_lengths(&mut laid.headers, &header)?;
    put_bytes(&mut laid.contents, contents)?;
    put_text(&mut laid.names, name)
}

/// Zeros up to a multiple of 4, behind all sections.
pub fn lay_end(laid: &mut Laid) -> Result<()>
    ensures { OnOk result (laid_of laid.new ≡ padded (laid_of laid.old)) }
{
    let zeros = (4 - laid.contents.len() % 4) % 4;
    put_bytes(&mut laid.contents, &[0; 3][..zeros])
}

/// A section of a kind that no one loads.
pub fn lay_unloaded(laid: &mut Laid, kind: usize, name: &[u8], contents: &[u8]) -> Result<()>
    ensures { OnOk result (laid_of laid.new ≡ laid_with (laid_of laid.old) (unloaded kind name.now contents.now)) }
{
    let numbers = [kind, 0, 0, contents.len(), 0, 0, 1, 0];
    lay(laid, name, &numbers, contents)
}

/// The section of the names, which has its own name too.
pub fn lay_names(alloc: Global, laid: &mut Laid) -> Result<()>
    ensures { OnOk result (laid_of laid.new ≡ with_names (laid_of laid.old)) }
{
    let mut names = Vec::from_slice(alloc, laid.names.as_slice())?;
    put_text(&mut names, NAMES)?;
    lay_unloaded(laid, STRINGS, NAMES, names.as_slice())
}

/// A segment may be read and written, or read and executed.
const WRITTEN: u32 = 6;

const EXECUTED: u32 = 5;

fn put_halves(file: &mut Vec<u8>, halves: &[u16]) -> Result<()>
    ensures { OnOk result (file.new.items ≡ file.old.items ++ flat_map two_bytes halves.now) }
{
    for half in halves {
        put_u16(file, *half)?;
    }
    Ok(())
}

/// Appends the ELF header of an executable of 32 bits, low byte first, for RISC-V; its section headers stand at a place.
pub fn put_elf_header(file: &mut Vec<u8>, sections_at: usize) -> Result<()>
    ensures { OnOk result (file.new.items ≡ file.old.items ++ elf_header sections_at) }
{
    put_bytes(file, b"\x7fELF")?;
    put_bytes(file, &[1, 1, 1, 0, 0, 0, 0, 0, 0, 0, 0, 0])?;
    put_halves(file, &[2, 243])?;
    put_lengths(file, &[1, BOOT_BASE as usize, 52, sections_at, 0])?;
    put_halves(file, &[52, 32, 3, 40, 12, 11])
}

// Appends a segment's header: its bytes stand in the file from one address to another, its memory goes up to an end.
fn put_segment(file: &mut Vec<u8>, from: u32, to: u32, end: u32, flags: u32) -> Result<()>
    requires { (memory_base ≤ from) × (from ≤ to) × (from ≤ end) }
    ensures { OnOk result (file.new.items
        ≡ file.old.items ++ segment_header (record { from = from; to = to; end = end; flags = flags })) }
{
    put_words(file, &[1])?;
    put_length(file, FRONT + (from - MEMORY_BASE) as usize)?;
    put_words(file, &[from, from, to - from, end - from, flags, 4])
}

/// Appends the headers of the three segments: service words; vector words and code; data, and the stacks behind them.
pub fn put_segments(file: &mut Vec<u8>, borders: &Borders) -> Result<()>
    requires { AreOrdered borders.now }
    ensures { OnOk result (file.new.items ≡ file.old.items ++ segment_headers borders.now) }
{
    let (code_end, end) = (borders.code_end, borders.end);
    put_segment(file, MEMORY_BASE, VECTORS_BASE, VECTORS_BASE, WRITTEN)?;
    put_segment(file, VECTORS_BASE, code_end, code_end, EXECUTED)?;
    put_segment(file, code_end, end, borders.top.max(end), WRITTEN)
}
