//! The entries of bodies, of data, and of its types.
ghost use Rattle.std.specs.Prelude.{◌≡◌, ◌≤◌, ◌+◌, ◌++◌, OnOk, length, map, IfOk, get_or};
ghost use Rattle.std.specs.List.{list_any};
ghost use Rattle.sloth_base.specs.Limits.{item_limit};
ghost use Rattle.symbol_image.specs.Entries.{all_body_bytes, body_entries, body_entry, end_entries, frame_entries, frame_type_entries, has_below, inner_labels, stands_before, label_entry, all_symbol_bytes, array_entries, base_type, symbol_entries, type_entries, type_place, variable_entry, data_shape};
ghost use Rattle.symbol_image.specs.EntryBytes.{entries_bytes, entry_bytes};
ghost use Rattle.map_text.specs.LineRows.{item_count};

use crate::fields::{put_bytes, put_length, put_text};
use image_file::put_u32;
use map_text::{body_end, item_address};
use sloth_base::{Func, Label, Places, Result, Symbol};

fn any_stands_before(items: usize, labels: &[Label]) -> bool
    ensures { result ≡ list_any (stands_before items) labels.now }
{
    labels.iter().any(|label| (label.item as usize) < items)
}

fn has_below(func: &Func) -> bool
    ensures { result ≡ has_below func.now }
{
    func.frame_words != 0 || any_stands_before(func.items.items().len(), func.labels.items())
}

fn put_frame_type(info: &mut Vec<u8>, types: Types, words: u32) -> Result<()>
    ensures { OnOk result (info.new.items ≡ info.old.items ++ entries_bytes (frame_type_entries types words)) }
{
    if words == 0 {
        return Ok(());
    }
    put_array(info, types, types.word, words as usize)
}

#[tactic(auto, unfolding(crate::specs::Fields::unsigned_leb))]
fn put_frame(info: &mut Vec<u8>, at: usize, words: u32) -> Result<()>
    ensures { OnOk result (info.new.items ≡ info.old.items ++ entries_bytes (frame_entries at words)) }
{
    if words == 0 {
        return Ok(());
    }
    put_bytes(info, &[7])?;
    put_text(info, b"frame")?;
    put_length(info, at)?;
    put_bytes(info, &[2, 114, 0])
}

fn put_label(info: &mut Vec<u8>, places: &Places, end: u32, n: usize, label: &Label) -> Result<()>
    requires { n + label.now.item ≤ item_limit }
    ensures { OnOk result (info.new.items ≡ info.old.items ++ entry_bytes (label_entry places.now end n label.now)) }
{
    put_bytes(info, &[8])?;
    put_text(info, label.name.bytes())?;
    put_bytes(info, &[1])?;
    put_u32(info, label.line)?;
    put_u32(info, item_address(places, end, n + label.item as usize))
}

fn put_labels(info: &mut Vec<u8>, places: &Places, end: u32, n: usize, func: &Func) -> Result<()>
    requires { n + length func.now.items ≤ item_limit }
    ensures { OnOk result (info.new.items
        ≡ info.old.items ++ entries_bytes (map (label_entry places.now end n) (inner_labels func.now))) }
{
    let items = func.items.items().len();
    for label in func.labels.items() {
        if (label.item as usize) < items {
            put_label(info, places, end, n, label)?;
        }
    }
    Ok(())
}

fn put_body_alone(info: &mut Vec<u8>, func: &Func, low: u32, high: u32) -> Result<()>
    ensures { OnOk result (info.new.items ≡ info.old.items ++ entry_bytes (body_entry func.now low high)) }
{
    let kind = if has_below(func) { 6 } else { 9 };
    put_bytes(info, &[kind])?;
    put_text(info, func.name.bytes())?;
    put_bytes(info, &[1])?;
    put_u32(info, func.line)?;
    put_u32(info, low)?;
    put_u32(info, high)
}

fn put_end(info: &mut Vec<u8>, below: bool) -> Result<()>
    ensures { OnOk result (info.new.items ≡ info.old.items ++ entries_bytes (end_entries below)) }
{
    if below { put_bytes(info, &[0]) } else { Ok(()) }
}

fn put_body(
    info: &mut Vec<u8>,
    types: Types,
    places: &Places,
    end: u32,
    n: usize,
    func: &Func,
) -> Result<()>
    requires { n + length func.now.items ≤ item_limit }
    ensures { OnOk result (info.new.items
        ≡ info.old.items ++ entries_bytes (body_entries types places.now end (length info.old.items) n func.now)) }
{
    let at = info.len();
    let low = item_address(places, end, n);
    let high = body_end(places, end, n, func);
    put_frame_type(info, types, func.frame_words)?;
    put_body_alone(info, func, low, high)?;
    put_frame(info, at, func.frame_words)?;
    put_labels(info, places, end, n, func)?;
    put_end(info, has_below(func))
}

/// Appends the entries of all bodies.
pub fn put_bodies(
    info: &mut Vec<u8>,
    types: Types,
    places: &Places,
    end: u32,
    funcs: &[Func],
) -> Result<()>
    requires { item_count funcs.now ≤ item_limit }
    ensures { OnOk result (info.new.items
        ≡ info.old.items ++ all_body_bytes types places.now end (length info.old.items) 0 funcs.now) }
{
    let mut number = 0;
    for func in funcs {
        put_body(info, types, places, end, number, func)?;
        number += func.items.items().len();
    }
    Ok(())
}

/// Appends an unsigned base type.
pub fn put_base_type(info: &mut Vec<u8>, name: &[u8], bytes: u8) -> Result<()>
    ensures { OnOk result (info.new.items ≡ info.old.items ++ entry_bytes (base_type name.now bytes)) }
{
    put_bytes(info, &[2])?;
    put_text(info, name)?;
    put_bytes(info, &[7, bytes])
}

/// Appends the type of arrays of so many of a type.
pub fn put_array(info: &mut Vec<u8>, types: Types, element: usize, count: usize) -> Result<()>
    ensures { OnOk result (info.new.items ≡ info.old.items ++ entries_bytes (array_entries types element count)) }
{
    put_bytes(info, &[3])?;
    put_length(info, element)?;
    put_bytes(info, &[4])?;
    put_length(info, types.word)?;
    put_length(info, count.saturating_sub(1))?;
    put_bytes(info, &[0])
}

// Appends the type of a shape, where it is not one of the two, and says where it stands.
fn put_type(info: &mut Vec<u8>, types: Types, shape: Shape) -> Result<usize>
    ensures put { IfOk result (λ place. info.new.items ≡ info.old.items ++ entries_bytes (type_entries types shape)) }
    ensures place { IfOk result (λ place. place ≡ type_place types shape (length info.old.items)) }
{
    let at = info.len();
    match shape {
        Shape::OneWord => Ok(types.word),
        Shape::OneByte => Ok(types.byte),
        Shape::Words(count) => {
            put_array(info, types, types.word, count)?;
            Ok(at)
        }
        Shape::Bytes(count) => {
            put_array(info, types, types.byte, count)?;
            Ok(at)
        }
    }
}

fn put_variable(info: &mut Vec<u8>, kind: usize, symbol: &Symbol, line: u32, at: u32) -> Result<()>
    ensures { OnOk result (info.new.items ≡ info.old.items ++ entry_bytes (variable_entry symbol.now line kind at)) }
{
    put_bytes(info, &[5])?;
    put_text(info, symbol.name.bytes())?;
    put_bytes(info, &[1])?;
    put_u32(info, line)?;
    put_length(info, kind)?;
    put_bytes(info, &[5, 3])?;
    put_u32(info, at)
}

fn put_symbol(info: &mut Vec<u8>, types: Types, symbol: &Symbol, line: u32, at: u32) -> Result<()>
    ensures { OnOk result (info.new.items
        ≡ info.old.items ++ entries_bytes (symbol_entries types (length info.old.items) symbol.now line at)) }
{
    let place = put_type(info, types, data_shape(symbol.bytes.items().len()))?;
    put_variable(info, place, symbol, line, at)
}

fn number_or_zero(numbers: &[u32], place: usize) -> u32
    ensures { result ≡ get_or numbers.now place 0 }
{
    numbers.get(place).copied().unwrap_or(0)
}

/// Appends the entries of all symbols; `lines` are those of their declarations.
pub fn put_symbols(
    info: &mut Vec<u8>,
    types: Types,
    lines: &[u32],
    addresses: &[u32],
    symbols: &[Symbol],
) -> Result<()>
    ensures { OnOk result (info.new.items
        ≡ info.old.items ++ all_symbol_bytes types lines.now addresses.now (length info.old.items) 0 symbols.now) }
{
    for number in 0..symbols.len() {
        let (line, at) = (
            number_or_zero(lines, number),
            number_or_zero(addresses, number),
        );
        put_symbol(info, types, &symbols[number], line, at)?;
    }
    Ok(())
}

/// Where the two base types stand: a word, and a byte.
#[derive(Clone, Copy)]
pub struct Types {
    pub word: usize,
    pub byte: usize,
}

/// What the bytes of data are: one of the base types, or so many of it.
#[derive(Clone, Copy)]
pub enum Shape {
    OneWord,
    OneByte,
    Words(usize),
    Bytes(usize),
}

/// What so many bytes of data are.
pub fn data_shape(size: usize) -> Shape
    ensures { result ≡ data_shape size }
{
    if size == 4 {
        Shape::OneWord
    } else if size == 1 {
        Shape::OneByte
    } else if size % 4 == 0 {
        Shape::Words(size / 4)
    } else {
        Shape::Bytes(size)
    }
}
