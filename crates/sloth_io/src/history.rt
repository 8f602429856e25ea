//! A history of calls that only proofs read. It takes no memory, and its methods do nothing at run time.
ghost use Rattle.std.specs.Prelude.{◌≡◌, ℕ, List, [], ◌∷◌, ◌++◌};
ghost use Rattle.std.specs.Borrow.{ftrue};

use std::marker::Model;

/// Names and bytes, in the order in which they were added. A clause reads the pairs as `items`.
#[derive(Drop)]
pub struct History {
    pub ghost items: { List (List ℕ × List ℕ) },
}

impl Model for History {
    ghost also_owns = { λ _. ftrue };
}

impl History {
    /// An empty history.
    pub fn new() -> History
        ensures { result.items ≡ [] }
    {
        History {}
    }

    /// The same with these bytes of a file of this name behind it.
    pub fn and(&self, name: &[u8], bytes: &[u8]) -> History
        ensures { result.items ≡ self.now.items ++ (name.now, bytes.now) ∷ [] }
    {
        History {}
    }
}
