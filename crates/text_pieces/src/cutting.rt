//! A text cut at a byte, and at its line ends.
ghost use Rattle.std.specs.Prelude.{◌≡◌, ◌==◌, IfOk, map};
ghost use Rattle.std.specs.List.{slice_split};
ghost use Rattle.text_pieces.specs.Lines.{line_of, lines, without_returns};
ghost use Rattle.text_pieces.specs.Names.{referent};

use crate::front;
use sloth_base::{Result, push};
use std::alloc::{AllocError, Global};

/// The parts between the bytes `stop`.
pub fn split<'a>(alloc: Global, text: &'a [u8], stop: u8) -> Result<Vec<&'a [u8]>, AllocError>
    ensures { IfOk result (λ parts. map referent parts.items ≡ slice_split (λ b. b == stop) text.now) }
{
    text.split(|b| *b == stop).collect(alloc)
}

/// A line without the CR before its LF. The last one has no LF.
pub fn line_of<'a>(part: &'a [u8], is_last: bool) -> &'a [u8]
    ensures { result.now ≡ line_of is_last part.now }
{
    if is_last || part.is_empty() || part[part.len() - 1] != b'\r' {
        return part;
    }
    front(part, part.len() - 1)
}

// The lines of the parts between LF bytes.
fn lines_of_parts<'a>(alloc: Global, parts: &[&'a [u8]]) -> Result<Vec<&'a [u8]>>
    ensures { IfOk result (λ read. map referent read.items ≡ without_returns (map referent parts.now)) }
{
    let mut read = Vec::new(alloc);
    for (n, part) in parts.iter().enumerate() {
        push(&mut read, line_of(*part, n + 1 == parts.len()))?;
    }
    Ok(read)
}

/// The lines of a text.
#[tactic(auto, unfolding(crate::specs::Lines::lines))]
pub fn lines<'a>(alloc: Global, text: &'a [u8]) -> Result<Vec<&'a [u8]>>
    ensures { IfOk result (λ read. map referent read.items ≡ lines text.now) }
{
    let parts = split(alloc, text, b'\n')?;
    let read = lines_of_parts(alloc, parts.as_slice())?;
    Ok(read)
}
