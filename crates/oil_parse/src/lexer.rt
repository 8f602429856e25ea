//! The tokens of a text. The piece at the front of a text. What the pieces of a text mean.
//! Bytes by their classes, and runs of bytes.
ghost use Rattle.std.specs.Prelude.{List, ℕ, ◌≡◌, ◌<◌, ◌≤◌, ◌+◌, ◌++◌, length, map, nat_le, IfOk, IfErr, OnOk, ◌^◌, IsTrue};
ghost use Rattle.sloth_base.specs.Order.{ErrorIs, NoFault};
ghost use Rattle.oil_parse.specs.Pieces.{TextPiece, IsCutInto, HasFront, begins_hex, is_comment_end};
ghost use Rattle.oil_parse.specs.Tokens.{Lexeme, AreTokens, AreSlices, TextFault, lexeme, tokens_by, IsNoFault, RefusedBy, meaning, line_ends};
ghost use Rattle.oil_parse.specs.Cutting.{HasCut, IsStopped};
ghost use Rattle.oil_parse.specs.Front.{comment_piece, text_piece, front_piece, is_passed, comment_length};
ghost use Rattle.std.specs.List.{prefix_len};
ghost use Rattle.oil_parse.specs.Bytes.{class_of};

use crate::tree::oil;
use crate::{Token, TokenKind};
use sloth_base::{BuildError, Code};
use std::alloc::Global;
use text_pieces::{after, continues_word, push, value};

fn keep<'a>(
    tokens: &mut Vec<Token<'a>>,
    meaning: Meaning,
    line: u32,
    span: &'a [u8],
) -> Result<(), BuildError>
    ensures kept { OnOk result
        ((tokens.new.items ≡ tokens.old.items ++ tokens_by meaning line span.entry) × IsNoFault meaning) }
    ensures fault { IfErr result (λ e. RefusedBy meaning line e) }
{
    match meaning {
        Meaning::Nothing => Ok(()),
        Meaning::IsToken(kind) => Ok(push(tokens, Token { kind, line, span })?),
        Meaning::IsFault(code) => Err(BuildError::Refused(oil(line, code))),
    }
}

/// A text from which pieces are cut off: their tokens, and the place and the line at which what is left begins.
#[derive(Drop)]
pub struct Cutter<'a> {
    text: &'a [u8],
    place: usize,
    line: u32,
    tokens: Vec<Token<'a>>,
}

impl<'a> Cutter<'a> {
    fn is_done(&self) -> bool
        ensures { result ≡ nat_le (length self.now.text.now) self.now.place }
    {
        self.place >= self.text.len()
    }

    fn cut(&mut self) -> Result<(), BuildError>
        requires some { self.old.place < length self.old.text.now }
        requires fits { length self.old.text.now < 4294967295 }
        requires lines { self.old.line ≤ self.old.place + 1 }
        ensures more { OnOk result (HasCut self.old self.new) }
        ensures stopped { IfErr result (λ error. IsStopped self.old error) }
    {
        let rest = &self.text[self.place..];
        let (kind, length) = first_piece(rest);
        let span = &rest[..length];
        keep(&mut self.tokens, piece_meaning(kind, span), self.line, span)?;
        self.line += line_ends(span) as u32;
        self.place += length;
        Ok(())
    }
}

/// The tokens of a text, each a slice of it, or its least fault: O1 for a byte that begins nothing, O2 for a comment
/// without its end, O3 for a string without its closing quote on its line. The text has at most 4,294,967,294 bytes.
pub fn tokens<'a>(alloc: Global, text: &'a [u8]) -> Result<Vec<Token<'a>>, BuildError>
    requires { length text.now < 4294967295 }
    ensures tokens { IfOk result (λ tokens. AreTokens text.now (map lexeme tokens.items)) }
    ensures slices { IfOk result (λ tokens. AreSlices text.entry tokens.items) }
    ensures none { OnOk result (NoFault (TextFault text.now)) }
    ensures refused { IfErr result (λ error. ErrorIs (TextFault text.now) error) }
{
    let mut cutter = Cutter {
        text,
        place: 0,
        line: 1,
        tokens: Vec::new(alloc),
    };
    while !cutter.is_done() {
        cutter.cut()?;
    }
    Ok(cutter.tokens)
}

/// Each text has one cut into pieces, and so one list of tokens.
pub fn one_cut()
    ensures some { (text : List ℕ) → (pieces : List TextPiece) × IsCutInto text pieces }
    ensures one { (text : List ℕ) (pieces others : List TextPiece) → IsCutInto text pieces → IsCutInto text others
        → pieces ≡ others }
    ensures tokens { (text : List ℕ) (tokens others : List Lexeme) → AreTokens text tokens → AreTokens text others
        → tokens ≡ others }
{}

/// Behind a `/*`.
#[tactic(auto, unfolding(crate::specs::Front::comment_piece))]
fn comment_piece(bytes: &[u8]) -> (PieceKind, usize)
    requires { length bytes.now < 2 ^ 32 }
    ensures { result ≡ comment_piece bytes.now }
{
    let length = comment_length(bytes);
    if length < bytes.len() {
        (PieceKind::BlockComment, length + 4)
    } else {
        (PieceKind::UnclosedComment, length + 2)
    }
}

/// Behind a quote.
#[tactic(auto, unfolding(crate::specs::Front::text_piece))]
fn text_piece(bytes: &[u8]) -> (PieceKind, usize)
    requires { length bytes.now < 2 ^ 32 }
    ensures { result ≡ text_piece bytes.now }
{
    let length = run_length(bytes, Run::Quoted);
    if length < bytes.len() && bytes[length] == b'"' {
        (PieceKind::Text, length + 2)
    } else {
        (PieceKind::UnclosedText, length + 1)
    }
}

#[tactic(auto, unfolding(crate::specs::Front::piece_by, crate::specs::Front::number_piece, crate::specs::Front::slash_piece))]
fn front_piece(text: &[u8]) -> (PieceKind, usize)
    requires some { 0 < length text.now }
    requires fits { length text.now < 2 ^ 32 }
    ensures { result ≡ front_piece text.now }
{
    match byte_class(text[0]) {
        Class::Blank => (PieceKind::Blank, 1),
        Class::Letter => (PieceKind::Word, run_length(&text[1..], Run::WordBytes) + 1),
        Class::Digit if begins_hex(text) => {
            (
                PieceKind::Hexadecimal,
                run_length(&text[3..], Run::HexDigits) + 3,
            )
        }
        Class::Digit => (PieceKind::Decimal, run_length(&text[1..], Run::Digits) + 1),
        Class::Quote => text_piece(&text[1..]),
        Class::Slash if text.len() > 1 && text[1] == b'/' => {
            (
                PieceKind::LineComment,
                run_length(&text[2..], Run::CommentLine) + 2,
            )
        }
        Class::Slash if text.len() > 1 && text[1] == b'*' => comment_piece(&text[2..]),
        Class::Slash | Class::Sign => (PieceKind::Sign, 1),
        Class::Other => (PieceKind::Stray, 1),
    }
}

/// The piece at the front of a text, and its length.
pub fn first_piece(text: &[u8]) -> (PieceKind, usize)
    requires some { 0 < length text.now }
    requires fits { length text.now < 2 ^ 32 }
    ensures { HasFront text.now result }
{
    front_piece(text)
}

/// What a piece of a text is.
#[derive(Clone, Copy)]
pub enum PieceKind {
    Blank,
    LineComment,
    BlockComment,
    Word,
    Decimal,
    Hexadecimal,
    Text,
    Sign,
    /// A byte that begins nothing.
    Stray,
    /// A `/*` without `*/`, and all that follows.
    UnclosedComment,
    /// A quote without another on its line, and the rest of the line.
    UnclosedText,
}

/// What a piece means.
#[derive(Clone, Copy)]
pub enum Meaning {
    Nothing,
    IsToken(TokenKind),
    IsFault(Code),
}

/// What a piece of these bytes means.
pub fn piece_meaning(kind: PieceKind, span: &[u8]) -> Meaning
    ensures { result ≡ meaning kind span.now }
{
    match kind {
        PieceKind::Blank | PieceKind::LineComment | PieceKind::BlockComment => Meaning::Nothing,
        PieceKind::Word => Meaning::IsToken(TokenKind::Word),
        PieceKind::Decimal => Meaning::IsToken(TokenKind::Number(value(span, 10))),
        PieceKind::Hexadecimal => Meaning::IsToken(TokenKind::Number(value(after(span, 2), 16))),
        PieceKind::Text => Meaning::IsToken(TokenKind::Text),
        PieceKind::Sign => Meaning::IsToken(TokenKind::Sign),
        PieceKind::Stray => Meaning::IsFault(Code::O1),
        PieceKind::UnclosedComment => Meaning::IsFault(Code::O2),
        PieceKind::UnclosedText => Meaning::IsFault(Code::O3),
    }
}

/// How many lines end in a piece.
pub fn line_ends(span: &[u8]) -> usize
    ensures value { result ≡ line_ends span.now }
    ensures within { result ≤ length span.now }
{
    span.iter().filter(|byte| **byte == b'\n').count()
}

/// What a byte begins.
#[derive(Clone, Copy)]
pub enum Class {
    Blank,
    Letter,
    Digit,
    Quote,
    Slash,
    Sign,
    Other,
}

/// The bytes that a run may have.
#[derive(Clone, Copy)]
pub enum Run {
    WordBytes,
    Digits,
    HexDigits,
    Quoted,
    CommentLine,
}

#[tactic(auto, unfolding(crate::specs::Bytes::class_of))]
pub fn byte_class(byte: u8) -> Class
    ensures { result ≡ class_of byte }
{
    match byte {
        b' ' | b'\t' | b'\r' | b'\n' => Class::Blank,
        b'a'..=b'z' | b'A'..=b'Z' | b'_' => Class::Letter,
        b'0'..=b'9' => Class::Digit,
        b'"' => Class::Quote,
        b'/' => Class::Slash,
        b'{' | b'}' | b'[' | b']' | b'(' | b')' | b'<' | b'>' => Class::Sign,
        b'=' | b';' | b':' | b',' | b'.' | b'+' | b'-' | b'*' => Class::Sign,
        _ => Class::Other,
    }
}

#[tactic(auto, unfolding(crate::specs::Bytes::is_word_byte, crate::specs::Bytes::is_digit, crate::specs::Bytes::is_hex_digit, crate::specs::Bytes::is_quoted, crate::specs::Bytes::is_not_lf))]
fn passes(run: Run, byte: u8) -> bool
    ensures { result ≡ is_passed run byte }
{
    match run {
        Run::WordBytes => continues_word(byte),
        Run::Digits => byte.is_ascii_digit(),
        Run::HexDigits => byte.is_ascii_hexdigit(),
        Run::Quoted => byte != b'"' && byte != b'\n',
        Run::CommentLine => byte != b'\n',
    }
}

/// How many bytes at the front may stand in the run.
pub fn run_length(bytes: &[u8], run: Run) -> usize
    ensures value { result ≡ prefix_len (is_passed run) bytes.now }
    ensures within { result ≤ length bytes.now }
{
    for (i, byte) in bytes.iter().enumerate() {
        if !passes(run, *byte) {
            return i;
        }
    }
    bytes.len()
}

fn closes(bytes: &[u8]) -> bool
    ensures { result ≡ is_comment_end bytes.now }
{
    bytes.len() > 1 && bytes[0] == b'*' && bytes[1] == b'/'
}

/// How many bytes stand before the first `*/`, or all.
#[tactic(auto, using(crate::proofs::Lengths::comment_length_at))]
pub fn comment_length(bytes: &[u8]) -> usize
    ensures value { result ≡ comment_length bytes.now }
    ensures within { result ≤ length bytes.now }
{
    for i in 0..bytes.len() {
        if closes(&bytes[i..]) {
            return i;
        }
    }
    bytes.len()
}

/// Whether `0x` or `0X` and a hexadecimal digit stand at the front.
#[tactic(auto, unfolding(crate::specs::Bytes::is_hex_digit))]
pub fn begins_hex(text: &[u8]) -> bool
    ensures value { result ≡ begins_hex text.now }
    ensures room { IsTrue result → 3 ≤ length text.now }
{
    text.len() > 2
        && text[0] == b'0'
        && (text[1] == b'x' || text[1] == b'X')
        && text[2].is_ascii_hexdigit()
}
