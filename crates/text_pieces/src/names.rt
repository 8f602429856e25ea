//! The numbers of names.
ghost use Rattle.std.specs.Prelude.{◌≡◌, ℕ, List, [], ◌∷◌, ◌++◌, IfOk, OnOk, length, take, position, bytes_eq};
ghost use Rattle.std.specs.List.{list_any};
ghost use Rattle.text_pieces.specs.Names.{number_in, with_first};

use indexmap::IndexMap;
use sloth_base::{Result, push};
use std::alloc::{AllocError, Global};
use std::marker::Model;

/// Names in order, each found by its bytes. Contracts see the list of the names.
pub struct Names<'t> {
    list: Vec<&'t [u8]>,
    first: IndexMap<&'t [u8], usize>,
}

// Written out: what is derived is proved anew wherever a value is let go.
impl Drop for Names<'_> {
    fn drop(self) {
        let Names { list: _, first: _ } = self;
    }
}

impl<'t> Model for Names<'t> {
    ghost use Rattle.std.specs.Prelude.{List, ℕ, map};
    ghost use Rattle.text_pieces.specs.Names.{referent, AreNumbered};

    ghost Value = { List (List ℕ) };

    ghost view = { λ names. map referent names.list.items };

    ghost invariant = { λ names. AreNumbered names.first (map referent names.list.items) };
}

/// The number of a name, unless it has one.
fn number_first<'t>(first: &mut IndexMap<&'t [u8], usize>, name: &'t [u8], at: usize) -> Result<()>
    ensures { OnOk result ((word : List ℕ)
        → number_in first.new word ≡ with_first (number_in first.old) name.now at word) }
{
    if first.contains_key(&name) {
        return Ok(());
    }
    match first.insert(name, at) {
        Ok(_) => Ok(()),
        Err(failed) => Err(AllocError::from(failed).into()),
    }
}

impl<'t> Names<'t> {
    /// No names.
    pub fn new(alloc: Global) -> Names<'t>
        ensures { result ≡ [] }
    {
        Names {
            list: Vec::new(alloc),
            first: IndexMap::new(alloc),
        }
    }

    /// One name more, at the end.
    pub fn with(self, name: &'t [u8]) -> Result<Names<'t>>
        ensures { IfOk result (λ names. names ≡ self.entry ++ name.now ∷ []) }
    {
        let Names {
            mut list,
            mut first,
        } = self;
        number_first(&mut first, name, list.len())?;
        push(&mut list, name)?;
        Ok(Names { list, first })
    }

    /// The number of the first name with these bytes, from 0.
    pub fn number(&self, word: &[u8]) -> Option<usize>
        ensures { result ≡ position (bytes_eq word.now) self.now }
    {
        self.first.get(&word).copied()
    }

    /// Whether one of the names has these bytes.
    pub fn has(&self, word: &[u8]) -> bool
        ensures { result ≡ list_any (bytes_eq word.now) self.now }
    {
        self.number(word).is_some()
    }

    /// Whether one of the first `count` names has these bytes.
    pub fn is_among_first(&self, count: usize, word: &[u8]) -> bool
        ensures { result ≡ list_any (bytes_eq word.now) (take count self.now) }
    {
        match self.number(word) {
            Some(number) => number < count,
            None => false,
        }
    }

    /// How many names there are.
    pub fn count(&self) -> usize
        ensures { result ≡ length self.now }
    {
        self.list.len()
    }
}
