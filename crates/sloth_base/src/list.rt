//! A list in a public field. Want of memory. Equal values of named data.
//! Names of tasks, resources, events, counters, alarms, functions, symbols and labels.
ghost use Rattle.std.specs.Prelude.{◌≡◌, ◌++◌, ◌∷◌, [], IfOk, OnOk, ◌↔◌, IsTrue};
ghost use Rattle.sloth_base.specs.ImageRange.{continues_word, IsName};

use crate::{App, NAME_LIMIT, Symbol};
use std::alloc::{AllocError, Global};
use std::marker::Model;
use thiserror::Error;

/// Items in order. Contracts see the list of the items alone; reserved room is no part of it.
#[derive(Drop)]
pub struct List<T> {
    vec: Vec<T>,
}

impl<T> Model for List<T> {
    ghost use Rattle.std.specs.Prelude.{List as Sequence};

    ghost Value = { Sequence T };

    ghost view = { λ list. list.vec.items };
}

impl<T> List<T> {
    /// The list of these items. Takes no memory.
    pub fn from_vec(items: Vec<T>) -> List<T>
        ensures { result ≡ items.items }
    {
        List { vec: items }
    }

    /// The items in order.
    pub fn items(&self) -> &[T]
        ensures { result.now ≡ self.now }
    {
        self.vec.as_slice()
    }
}

/// Memory was wanted and was not there.
#[derive(Clone, Copy, Debug, Error)]
#[error("no memory")]
pub struct NoMemory;

impl From<AllocError> for NoMemory {
    fn from(_: AllocError) -> NoMemory {
        NoMemory
    }
}

/// What may fail for want of memory alone, unless another error is named.
pub type Result<T, E = NoMemory> = std::result::Result<T, E>;

/// One more item, at the end.
pub fn push<T: Drop>(list: &mut Vec<T>, item: T) -> Result<()>
    ensures { OnOk result (list.new.items ≡ list.old.items ++ item ∷ []) }
{
    match list.push(item) {
        Ok(()) => Ok(()),
        Err(failed) => Err(AllocError::from(failed).into()),
    }
}

fn symbol_copy(alloc: Global, symbol: &Symbol) -> Result<Symbol>
    ensures { IfOk result (λ copy. copy ≡ symbol.now) }
{
    Ok(Symbol {
        name: Name::new(alloc, symbol.name.bytes())?,
        bytes: List::from_vec(symbol.bytes.items().to_vec(alloc)?),
    })
}

impl App {
    /// Equal named data.
    pub fn symbols_copy(&self, alloc: Global) -> Result<List<Symbol>>
        ensures { IfOk result (λ copy. copy ≡ self.now.symbols) }
    {
        let mut copy = Vec::new(alloc);
        for symbol in self.symbols.items() {
            push(&mut copy, symbol_copy(alloc, symbol)?)?;
        }
        Ok(List::from_vec(copy))
    }
}

/// A name, which contracts see as its bytes.
#[derive(Drop)]
pub struct Name {
    vec: Vec<u8>,
}

impl Model for Name {
    ghost use Rattle.std.specs.Prelude.{List, ℕ};

    ghost Value = { List ℕ };

    ghost view = { λ name. name.vec.items };
}

impl Name {
    /// A copy of these bytes.
    pub fn new(alloc: Global, bytes: &[u8]) -> Result<Name, NoMemory>
        ensures { IfOk result (λ name. name ≡ bytes.now) }
    {
        let vec = Vec::from_slice(alloc, bytes)?;
        Ok(Name { vec })
    }

    /// The bytes.
    pub fn bytes(&self) -> &[u8]
        ensures { result.now ≡ self.now }
    {
        self.vec.as_slice()
    }
}

// A letter, a digit or `_`.
fn continues_word(byte: u8) -> bool
    ensures { result ≡ continues_word byte }
{
    byte.is_ascii_alphanumeric() || byte == b'_'
}

/// Whether the bytes are a name: a letter or `_`, and then letters, digits and `_`; at most `NAME_LIMIT` bytes.
pub fn is_name(bytes: &[u8]) -> bool
    ensures { IsTrue result ↔ IsName bytes.now }
{
    let Some((first, rest)) = bytes.split_first() else {
        return false;
    };
    if !(first.is_ascii_alphabetic() || *first == b'_') || bytes.len() > NAME_LIMIT {
        return false;
    }
    rest.iter().all(|byte| continues_word(*byte))
}
