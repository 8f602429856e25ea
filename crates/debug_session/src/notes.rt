//! What is read and written, and what an input gave, for proofs alone: no memory, and nothing is done at run time.
ghost use Rattle.std.specs.Prelude.{◌≡◌, List, [], ◌∷◌, ◌++◌, ℕ};
ghost use Rattle.std.specs.Borrow.{ftrue};
ghost use Rattle.debug_session.specs.Transcripts.{Act, Read, Write};

use std::marker::Model;

/// Reads and writes, in their order. A clause reads them as `items`.
#[derive(Drop)]
pub struct Notes {
    pub ghost items: { List Act },
}

impl Model for Notes {
    ghost also_owns = { λ _. ftrue };
}

impl Notes {
    /// None yet.
    pub fn new() -> Notes
        ensures { result.items ≡ [] }
    {
        Notes {}
    }

    /// The same with a read of these bytes behind them.
    pub fn with_read(&self, bytes: &[u8]) -> Notes
        ensures { result.items ≡ self.now.items ++ Read bytes.now ∷ [] }
    {
        Notes {}
    }

    /// The same with a write of these bytes behind them.
    pub fn with_write(&self, bytes: &[u8]) -> Notes
        ensures { result.items ≡ self.now.items ++ Write bytes.now ∷ [] }
    {
        Notes {}
    }
}

/// Bytes, in the order in which they were given. A clause reads them as `items`.
#[derive(Drop)]
pub struct Given {
    pub ghost items: { List ℕ },
}

impl Model for Given {
    ghost also_owns = { λ _. ftrue };
}

impl Given {
    /// None yet.
    pub fn new() -> Given
        ensures { result.items ≡ [] }
    {
        Given {}
    }

    /// The same with these bytes behind it.
    pub fn and(&self, bytes: &[u8]) -> Given
        ensures { result.items ≡ self.now.items ++ bytes.now }
    {
        Given {}
    }
}
