//! The tree of an OIL text. The tree as it grows. Tokens. Reads tokens into a tree.
ghost use Rattle.std.specs.Prelude.{◌≡◌, IfOk, OnOk, List, ℕ, ◌↔◌, ◌⊎◌, All, map, IfErr};
ghost use Rattle.oil_parse.specs.Tokens.{lexeme, Lexeme, AreTokens, TextFault};
ghost use Rattle.oil_parse.specs.Grammar.{value_by, IsFile};
ghost use Rattle.oil_parse.specs.Machine.{partial_tree_after, whole_object, nothing_built, ValueFits, TakesFit, with_attr, too_big};
ghost use Rattle.oil_parse.specs.Parser.{draft, IsTokenStep, StopsWith};
ghost use Rattle.sloth_base.specs.Order.{ErrorIs, NoFault};
ghost use Rattle.sloth_base.specs.declared.refusal.Refusal.{Refusal};
ghost use Rattle.oil_parse.specs.declared.tree.OilTree.{OilTree};
ghost use Rattle.oil_parse.specs.Faults.{GrammarFault};
ghost use Rattle.oil_parse.specs.Text.{HasTree, HasGrammarFault};
ghost use Rattle.oil_parse.specs.Words.{IsObjectOfWords};
ghost use Rattle.oil_parse.specs.Steps.{IsShallow};

use crate::machine::{Construct, Expect, Shape, next, token_shape};
use sloth_base::refusal::lesser;
use sloth_base::{BuildError, Code, List, Name, NoMemory, Part, Refusal, Result};
use std::alloc::Global;
use std::mem;

/// The value of an attribute.
#[derive(Drop)]
pub enum OilValue {
    Word(Name),
    Number(u32),
    /// A string, with its quotes.
    Text(Name),
}

/// An attribute of an object, or of a block behind another attribute's value.
#[derive(Drop)]
pub struct OilAttr {
    pub name: Name,
    pub value: OilValue,
    /// The line of its name.
    pub line: u32,
    /// The number of attribute blocks that it lies in, 0 to 8. An attribute's block is the run of attributes of greater
    /// depth directly behind it.
    pub depth: u32,
}

/// An object.
#[derive(Drop)]
pub struct OilObject {
    pub kind: Name,
    pub name: Name,
    /// The line of its kind.
    pub line: u32,
    /// The attributes in the order of the text, those of blocks too.
    pub attrs: List<OilAttr>,
}

/// What stands in the CPU container of an OIL text.
#[derive(Drop)]
pub struct OilTree {
    /// The line of the word CPU.
    pub cpu_line: u32,
    pub objects: List<OilObject>,
}

/// The objects so far, and the parts of the next.
#[derive(Drop)]
pub struct Draft<'a> {
    pub cpu_line: u32,
    pub objects: Vec<OilObject>,
    pub kind: &'a [u8],
    pub name: &'a [u8],
    pub line: u32,
    pub attrs: Vec<OilAttr>,
    pub attr_name: &'a [u8],
    pub attr_line: u32,
}

fn attr_value(alloc: Global, kind: TokenKind, bytes: &[u8]) -> Result<OilValue>
    requires { ValueFits kind }
    ensures { IfOk result (λ value. value ≡ value_by kind bytes.now) }
{
    match kind {
        TokenKind::Word => Ok(OilValue::Word(Name::new(alloc, bytes)?)),
        TokenKind::Number(value) => Ok(OilValue::Number(value as u32)),
        TokenKind::Text | TokenKind::Sign => Ok(OilValue::Text(Name::new(alloc, bytes)?)),
    }
}

impl<'a> Draft<'a> {
    pub fn new(alloc: Global) -> Draft<'a>
        ensures { draft result ≡ nothing_built }
    {
        Draft {
            cpu_line: 0,
            objects: Vec::new(alloc),
            kind: &[],
            name: &[],
            line: 0,
            attrs: Vec::new(alloc),
            attr_name: &[],
            attr_line: 0,
        }
    }

    fn push_object(&mut self, alloc: Global) -> Result<()>
        ensures { OnOk result (draft self.new ≡ whole_object (draft self.old)) }
    {
        let object = OilObject {
            kind: Name::new(alloc, self.kind)?,
            name: Name::new(alloc, self.name)?,
            line: self.line,
            attrs: List::from_vec(mem::replace(&mut self.attrs, Vec::new(alloc))),
        };
        self.objects.push(object).map_err(|_| NoMemory)
    }

    fn push_attr(&mut self, alloc: Global, depth: u32, kind: TokenKind, bytes: &[u8]) -> Result<()>
        requires { ValueFits kind }
        ensures { OnOk result (draft self.new ≡ with_attr (draft self.old) depth kind bytes.now) }
    {
        let attr = OilAttr {
            name: Name::new(alloc, self.attr_name)?,
            value: attr_value(alloc, kind, bytes)?,
            line: self.attr_line,
            depth,
        };
        self.attrs.push(attr).map_err(|_| NoMemory)
    }

    /// Takes what a token adds where it stands.
    #[tactic(auto, unfolding(crate::specs::Machine::partial_tree_after))]
    pub fn take(&mut self, alloc: Global, at: Expect, shape: Shape, token: &Token<'a>) -> Result<()>
        requires { TakesFit at token.now.kind }
        ensures { OnOk result (draft self.new ≡ partial_tree_after at shape (lexeme token.now) (draft self.old)) }
    {
        match (at, shape) {
            (Expect::Body | Expect::CpuWord, _) => {
                self.cpu_line = token.line;
                Ok(())
            },
            (Expect::Objects, Shape::Word(_)) => {
                self.kind = token.span;
                self.line = token.line;
                self.attrs = Vec::new(alloc);
                Ok(())
            },
            (Expect::ObjectName, _) => {
                self.name = token.span;
                Ok(())
            },
            (Expect::ObjectTail | Expect::Ending(Construct::Object), Shape::Semicolon)
            | (Expect::Closing(Construct::Object), _) => { self.push_object(alloc) },
            (Expect::Attrs(_), Shape::Word(_)) => {
                self.attr_name = token.span;
                self.attr_line = token.line;
                Ok(())
            },
            (Expect::AttrValue(depth), _) => self.push_attr(alloc, depth, token.kind, token.span),
            _ => Ok(()),
        }
    }
}

/// What a token is.
#[derive(Clone, Copy)]
pub enum TokenKind {
    /// A letter or `_`, then letters, digits and `_`.
    Word,
    /// The lesser of the number's value and 4,294,967,296.
    Number(u64),
    /// A string with its quotes.
    Text,
    /// One of `{ } = ; : , . [ ] ( ) < > + - * /`.
    Sign,
}

/// A token: what it is, the line that it stands on, counted from 1, and its bytes.
#[derive(Clone, Copy)]
pub struct Token<'a> {
    pub kind: TokenKind,
    pub line: u32,
    pub span: &'a [u8],
}

/// What was read so far, what may come next, the last token's line and the least refusal.
#[derive(Drop)]
pub struct Parser<'a> {
    pub expect: Expect,
    pub last: u32,
    pub least: Option<Refusal>,
    pub draft: Draft<'a>,
}

pub(crate) fn oil(line: u32, code: Code) -> Refusal
    ensures { result ≡ record { part = Part.Oil; line = line; code = code } }
{
    Refusal {
        part: Part::Oil,
        line,
        code,
    }
}

fn too_big(expect: Expect, shape: Shape) -> bool
    ensures { result ≡ too_big expect shape }
{
    matches!((expect, shape), (Expect::AttrValue(_), Shape::Number(value)) if value > 4_294_967_295)
}

impl<'a> Parser<'a> {
    fn read(&mut self, alloc: Global, token: &Token<'a>) -> Result<(), BuildError>
        requires { IsShallow self.old.expect }
        ensures moved { OnOk result (IsTokenStep self.old self.new (lexeme token.now)) }
        ensures stopped { IfErr result (λ error. StopsWith self.old (lexeme token.now) error) }
    {
        let shape = token_shape(token);
        let line = token.line;
        let Some(after) = next(self.expect, shape) else {
            return Err(BuildError::Refused(lesser(self.least, oil(line, Code::O5))));
        };
        if too_big(self.expect, shape) {
            self.least = Some(lesser(self.least, oil(line, Code::O4)));
            self.expect = after;
            self.last = line;
            return Ok(());
        }
        if self.least.is_none() && self.draft.take(alloc, self.expect, shape, token).is_err() {
            return Err(BuildError::Memory);
        }
        self.expect = after;
        self.last = line;
        Ok(())
    }
}

/// The tree of the tokens, or their least fault: O4 for a number above 4,294,967,295, O5 for the first token that the
/// grammar does not allow, O6 where the tokens end too early.
pub fn parse(alloc: Global, tokens: &[Token]) -> Result<OilTree, BuildError>
    ensures tree { IfOk result (λ tree. IsFile (map lexeme tokens.now) tree) }
    ensures none { OnOk result (NoFault (GrammarFault (map lexeme tokens.now))) }
    ensures refused { IfErr result (λ error. ErrorIs (GrammarFault (map lexeme tokens.now)) error) }
{
    let mut parser = Parser {
        expect: Expect::Start,
        last: 1,
        least: None,
        draft: Draft::new(alloc),
    };
    for token in tokens {
        parser.read(alloc, token)?;
    }
    if !parser.expect.is_done() {
        return Err(BuildError::Refused(lesser(parser.least, oil(parser.last, Code::O6))));
    }
    match parser.least {
        Some(least) => Err(BuildError::Refused(least)),
        None => Ok(OilTree {
            cpu_line: parser.draft.cpu_line,
            objects: List::from_vec(parser.draft.objects),
        }),
    }
}

/// Tokens have at most one tree, and so has a text. The faults of a text's grammar are those of its tokens. Each text
/// has a fault of its own, breaks the grammar, or has a tree, and never both of the last two.
pub fn one_tree()
    ensures file { (tokens : List Lexeme) (tree other : OilTree) → IsFile tokens tree → IsFile tokens other → tree
        ≡ other }
    ensures text { (text : List ℕ) (tree other : OilTree) → HasTree text tree → HasTree text other → tree ≡ other }
    ensures faults { (text : List ℕ) (tokens : List Lexeme) → AreTokens text tokens → NoFault (TextFault text)
        → (refusal : Refusal) → HasGrammarFault text refusal ↔ GrammarFault tokens refusal }
    ensures each { (text : List ℕ) → ((refusal : Refusal) × TextFault text refusal)
        ⊎ (((refusal : Refusal) × HasGrammarFault text refusal) ⊎ ((tree : OilTree) × HasTree text tree)) }
    ensures one { (text : List ℕ) (tree : OilTree) (refusal : Refusal) → HasTree text tree → HasGrammarFault text
        refusal → ⊥ }
{}

/// The kinds, names and words of a text's tree are words.
pub fn words_of_tree()
    ensures { (text : List ℕ) (tree : OilTree) → HasTree text tree → All IsObjectOfWords tree.objects }
{}
