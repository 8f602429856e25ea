//! What may come next: a machine that goes over the tokens one by one.

ghost use Rattle.std.specs.Prelude.{◌≡◌, ◌↔◌, IsTrue};
ghost use Rattle.oil_parse.specs.Tokens.{lexeme};
ghost use Rattle.oil_parse.specs.Shapes.{shape};
ghost use Rattle.oil_parse.specs.Steps.{next, behind, IsShallow};

use crate::{Token, TokenKind};
use text_pieces::same;

/// The words that the grammar names.
#[derive(Clone, Copy)]
pub enum Key {
    Version,
    Implementation,
    Cpu,
    Plain,
}

/// What the grammar sees of a token.
#[derive(Clone, Copy)]
pub enum Shape {
    Word(Key),
    Number(u64),
    Text,
    Open,
    Close,
    Equals,
    Semicolon,
    Colon,
    Other,
}

/// What a description and `;` end. An attribute has its depth.
#[derive(Clone, Copy)]
pub enum Construct {
    Head,
    Section,
    Object,
    Attr(u32),
    File,
}

/// What may come next. Inside a section IMPLEMENTATION it has the number of open braces but the first, and among
/// attributes the number of attribute blocks that they lie in.
#[derive(Clone, Copy)]
pub enum Expect {
    Start,
    VersionIs,
    VersionText,
    Ending(Construct),
    Describing(Construct),
    Closing(Construct),
    Body,
    SectionName,
    SectionOpen,
    Inside(usize),
    CpuWord,
    CpuName,
    CpuOpen,
    Objects,
    ObjectName,
    ObjectTail,
    Attrs(u32),
    AttrIs(u32),
    AttrValue(u32),
    AttrTail(u32),
    Done,
}

/// What the grammar sees of this token.
#[tactic(auto, unfolding(crate::specs::Shapes::shape_by, crate::specs::Shapes::key_of, crate::specs::Shapes::sign_of))]
pub fn token_shape(token: &Token) -> Shape
    ensures { result ≡ shape (lexeme token.now) }
{
    let span = token.span;
    match token.kind {
        TokenKind::Word if same(span, b"OIL_VERSION") => Shape::Word(Key::Version),
        TokenKind::Word if same(span, b"IMPLEMENTATION") => Shape::Word(Key::Implementation),
        TokenKind::Word if same(span, b"CPU") => Shape::Word(Key::Cpu),
        TokenKind::Word => Shape::Word(Key::Plain),
        TokenKind::Number(value) => Shape::Number(value),
        TokenKind::Text => Shape::Text,
        TokenKind::Sign => {
            let first = if span.is_empty() { 0 } else { span[0] };
            match first {
                b'{' => Shape::Open,
                b'}' => Shape::Close,
                b'=' => Shape::Equals,
                b';' => Shape::Semicolon,
                b':' => Shape::Colon,
                _ => Shape::Other,
            }
        }
    }
}

/// What comes behind the `;` that ends this.
fn behind(construct: Construct) -> Expect
    ensures { result ≡ behind construct }
{
    match construct {
        Construct::Head => Expect::Body,
        Construct::Section => Expect::CpuWord,
        Construct::Object => Expect::Objects,
        Construct::Attr(depth) => Expect::Attrs(depth),
        Construct::File => Expect::Done,
    }
}

/// What comes behind a token of this shape, if it may stand here.
#[tactic(auto, unfolding(crate::specs::Steps::next))]
pub fn next(expect: Expect, shape: Shape) -> Option<Expect>
    requires { IsShallow expect }
    ensures { result ≡ next expect shape }
{
    match (expect, shape) {
        (Expect::Start, Shape::Word(Key::Version)) => Some(Expect::VersionIs),
        (Expect::VersionIs, Shape::Equals) => Some(Expect::VersionText),
        (Expect::VersionText, Shape::Text) => Some(Expect::Ending(Construct::Head)),
        (Expect::Ending(construct), Shape::Colon) => Some(Expect::Describing(construct)),
        (Expect::Ending(construct), Shape::Semicolon) => Some(behind(construct)),
        (Expect::Describing(construct), Shape::Text) => Some(Expect::Closing(construct)),
        (Expect::Closing(construct), Shape::Semicolon) => Some(behind(construct)),
        (Expect::Body, Shape::Word(Key::Implementation)) => Some(Expect::SectionName),
        (Expect::Body, Shape::Word(Key::Cpu)) => Some(Expect::CpuName),
        (Expect::SectionName, Shape::Word(_)) => Some(Expect::SectionOpen),
        (Expect::SectionOpen, Shape::Open) => Some(Expect::Inside(0)),
        (Expect::Inside(count), Shape::Open) => Some(Expect::Inside(count + 1)),
        (Expect::Inside(0), Shape::Close) => Some(Expect::Ending(Construct::Section)),
        (Expect::Inside(count), Shape::Close) => Some(Expect::Inside(count - 1)),
        (Expect::Inside(count), _) => Some(Expect::Inside(count)),
        (Expect::CpuWord, Shape::Word(Key::Cpu)) => Some(Expect::CpuName),
        (Expect::CpuName, Shape::Word(_)) => Some(Expect::CpuOpen),
        (Expect::CpuOpen, Shape::Open) => Some(Expect::Objects),
        (Expect::Objects, Shape::Word(_)) => Some(Expect::ObjectName),
        (Expect::Objects, Shape::Close) => Some(Expect::Ending(Construct::File)),
        (Expect::ObjectName, Shape::Word(_)) => Some(Expect::ObjectTail),
        (Expect::ObjectTail, Shape::Open) => Some(Expect::Attrs(0)),
        (Expect::ObjectTail, Shape::Colon) => Some(Expect::Describing(Construct::Object)),
        (Expect::ObjectTail, Shape::Semicolon) => Some(Expect::Objects),
        (Expect::Attrs(depth), Shape::Word(_)) => Some(Expect::AttrIs(depth)),
        (Expect::Attrs(0), Shape::Close) => Some(Expect::Ending(Construct::Object)),
        (Expect::Attrs(depth), Shape::Close) => Some(Expect::Ending(Construct::Attr(depth - 1))),
        (Expect::AttrIs(depth), Shape::Equals) => Some(Expect::AttrValue(depth)),
        (Expect::AttrValue(depth), Shape::Word(_) | Shape::Number(_) | Shape::Text) => Some(
            Expect::AttrTail(depth),
        ),
        (Expect::AttrTail(depth), Shape::Open) => (depth < 8).then_some(Expect::Attrs(
            depth.min(8) + 1,
        )),
        (Expect::AttrTail(depth), Shape::Colon) => Some(Expect::Describing(Construct::Attr(depth))),
        (Expect::AttrTail(depth), Shape::Semicolon) => Some(Expect::Attrs(depth)),
        _ => None,
    }
}

impl Expect {
    /// Whether a file is whole.
    pub fn is_done(self) -> bool
        ensures { IsTrue result ↔ (self ≡ Expect.Done) }
    {
        matches!(self, Expect::Done)
    }
}
