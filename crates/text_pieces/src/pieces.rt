//! Text, put piece by piece.
ghost use Rattle.std.specs.Prelude.{◌≡◌, ◌++◌, IfOk, OnOk};
ghost use Rattle.text_pieces.specs.Pieces.{written, all_written};

use itoa::Buffer;
use sloth_base::Result;
use std::alloc::Global;

/// What a text is made of.
#[derive(Clone, Copy)]
pub enum Piece<'a> {
    /// These bytes.
    Word(&'a [u8]),
    /// A number, in decimal digits.
    Number(u32),
    /// How many there are of something, in decimal digits.
    Count(usize),
    /// A sum of many numbers, in decimal digits.
    Sum(u128),
}

/// Puts the pieces, one after another.
#[macro_export]
macro_rules! line {
    ($text:expr; $($piece:expr),*) => {
        $crate::pieces::put($text, &[$($piece),*])
    };
}

/// The text of the pieces.
#[macro_export]
macro_rules! text {
    ($alloc:expr; $($piece:expr),*) => {
        $crate::pieces::text($alloc, &[$($piece),*])
    };
}

fn put_piece(text: &mut Vec<u8>, piece: &Piece) -> Result<()>
    ensures { OnOk result (text.new.items ≡ text.old.items ++ written piece.now) }
{
    let mut buffer = Buffer::new();
    match *piece {
        Piece::Word(word) => Ok(text.extend_from_slice(word)?),
        Piece::Number(number) => Ok(text.extend_from_slice(buffer.format(number).as_bytes())?),
        Piece::Count(count) => Ok(text.extend_from_slice(buffer.format(count).as_bytes())?),
        Piece::Sum(sum) => Ok(text.extend_from_slice(buffer.format(sum).as_bytes())?),
    }
}

/// Puts the pieces, one after another.
pub fn put(text: &mut Vec<u8>, pieces: &[Piece]) -> Result<()>
    ensures { OnOk result (text.new.items ≡ text.old.items ++ all_written pieces.now) }
{
    for piece in pieces {
        put_piece(text, piece)?;
    }
    Ok(())
}

/// The text of the pieces.
pub fn text(alloc: Global, pieces: &[Piece]) -> Result<Vec<u8>>
    ensures { IfOk result (λ text. text.items ≡ all_written pieces.now) }
{
    let mut text = Vec::new(alloc);
    put(&mut text, pieces)?;
    Ok(text)
}
