//! Where the lines of a source come from, by its comments, and in which of them it declares its symbols.
ghost use Rattle.std.specs.Prelude.{◌≡◌, ◌<◌, ◌++◌, IfOk, OnOk, length, map, nat_le};
ghost use Rattle.std.specs.Char.{is_ascii_digit};
ghost use Rattle.std.specs.List.{list_all};
ghost use Rattle.text_pieces.specs.Names.{referent};
ghost use Rattle.map_text.specs.LinePlaces.{file_behind, is_new, is_stated, names_behind, line_origins, place_behind};
ghost use Rattle.map_text.specs.LinePlaces.{place_here, quoted, stated_line, stated_name};
ghost use Rattle.map_text.specs.DataLines.{data_lines};

use asm_lines::SourceLine;
use asm_scopes::{closes_body, is_data};
use sloth_base::{List, NoMemory, Result};
use std::alloc::Global;
use text_pieces::pieces::Piece::Word;
use text_pieces::{Names, after, before, behind, front, has, line, push, same, value};

/// A line of a file, by the file's number in the table of files, from 2. File 0: the line comes from nowhere else.
#[derive(Clone, Copy)]
pub struct Place {
    pub file: u32,
    pub line: u32,
}

/// Nowhere else.
pub const NO_PLACE: Place = Place { file: 0, line: 0 };

/// Where a source declares its symbols, and where its lines come from: the numbers of the lines that declare symbols,
/// the further files in the table of files, and the places of the lines.
#[derive(Drop)]
pub struct Origins {
    pub lines: List<u32>,
    pub files: List<u8>,
    pub places: List<Place>,
}

fn quoted(line: &[u8]) -> &[u8]
    ensures { result.now ≡ quoted line.now }
{
    behind(after(line, 6), b' ')
}

fn stated_name(line: &[u8]) -> &[u8]
    ensures { result.now ≡ stated_name line.now }
{
    before(after(quoted(line), 1), b'"')
}

fn are_digits(text: &[u8]) -> bool
    ensures { result ≡ list_all is_ascii_digit text.now }
{
    text.iter().all(|byte| byte.is_ascii_digit())
}

// The number that a comment states, up to 2,147,483,647, or 0.
fn stated_line(line: &[u8]) -> u32
    ensures { result ≡ stated_line line.now }
{
    let digits = before(after(line, 6), b' ');
    let number = value(digits, 10);
    if are_digits(digits) && number < 2147483648 {
        return number as u32;
    }
    0
}

fn all_shown(name: &[u8]) -> bool
    ensures { result ≡ list_all (λ b. nat_le 32 b) name.now }
{
    name.iter().all(|byte| *byte >= 32)
}

#[tactic(auto, unfolding(crate::specs::LinePlaces::is_stated))]
fn is_stated(line: &[u8]) -> bool
    ensures { result ≡ is_stated line.now }
{
    let (text, name) = (quoted(line), stated_name(line));
    same(front(line, 6), b"#line ")
        && stated_line(line) != 0
        && same(front(text, 1), b"\"")
        && has(after(text, 1), b'"')
        && (!name.is_empty() && all_shown(name))
}

fn is_new(names: &Names, line: &[u8]) -> bool
    ensures { result ≡ is_new names.now line.now }
{
    is_stated(line) && !names.has(stated_name(line))
}

#[tactic(auto, unfolding(crate::specs::LinePlaces::names_behind))]
fn names_behind<'t>(names: Names<'t>, line: &'t [u8]) -> Result<Names<'t>>
    ensures { IfOk result (λ found. found ≡ names_behind names.entry line.now) }
{
    if is_new(&names, line) {
        return names.with(stated_name(line));
    }
    Ok(names)
}

#[tactic(auto, unfolding(crate::specs::LinePlaces::file_behind))]
fn put_file(files: &mut Vec<u8>, names: &Names, line: &[u8]) -> Result<()>
    ensures { OnOk result (files.new.items ≡ files.old.items ++ file_behind names.now line.now) }
{
    if !is_new(names, line) {
        return Ok(());
    }
    line!(files; Word(stated_name(line)), Word(&[0]), Word(&[0, 0, 0]))
}

#[tactic(auto, unfolding(crate::specs::LinePlaces::place_here))]
fn place_here(names: &Names, left: Place, line: &[u8]) -> Place
    ensures { result ≡ place_here names.now left line.now }
{
    if is_stated(line) {
        let file = match names.number(stated_name(line)) {
            Some(place) => (place % 4294967290) as u32 + 2,
            None => 1,
        };
        let line = stated_line(line);
        return Place { file, line };
    }
    left
}

fn place_behind(here: Place, line: &SourceLine) -> Place
    ensures { result ≡ place_behind here line.now }
{
    if closes_body(line) { NO_PLACE } else { here }
}

/// Where these lines come from, which are these statements.
pub fn line_origins(alloc: Global, lines: &[&[u8]], statements: &[SourceLine]) -> Result<Origins>
    requires few { length lines.now < 4294967295 }
    requires same { length statements.now ≡ length lines.now }
    ensures { IfOk result (λ found. found ≡ line_origins (map referent lines.now) statements.now) }
{
    let declared = data_lines(alloc, statements)?;
    let mut names = Names::new(alloc);
    let mut files = Vec::new(alloc);
    let mut places = Vec::new(alloc);
    let mut left = NO_PLACE;
    for n in 0..lines.len() {
        put_file(&mut files, &names, lines[n])?;
        names = names_behind(names, lines[n])?;
        let here = place_here(&names, left, lines[n]);
        push(&mut places, here)?;
        left = place_behind(here, &statements[n]);
    }
    Ok(Origins {
        lines: List::from_vec(declared),
        files: List::from_vec(files),
        places: List::from_vec(places),
    })
}

fn data_lines(alloc: Global, lines: &[SourceLine]) -> Result<Vec<u32>>
    requires { length lines.now < 4294967295 }
    ensures { IfOk result (λ found. found.items ≡ data_lines 1 lines.now) }
{
    let mut found = Vec::new(alloc);
    for n in 0..lines.len() {
        if is_data(&lines[n]) {
            found.push(n as u32 + 1).map_err(|_| NoMemory)?;
        }
    }
    Ok(found)
}
