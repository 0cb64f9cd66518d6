ghost use Rattle.std.specs.Prelude.{◌≡◌, ℕ, List, [], ◌++◌};
ghost use Rattle.std.specs.Borrow.{ftrue};

use std::marker::Model;

/// What only proofs read: what there was when a list of bytes began, as numbers, and the bytes since. It takes no memory, and its
/// calls do nothing.
#[derive(Drop)]
pub struct History {
    pub ghost start: { List ℕ },
    pub ghost bytes: { List ℕ },
}

impl Model for History {
    ghost also_owns = { λ _. ftrue };
}

impl History {
    /// No byte yet, and what there is at this value.
    pub fn new<T>(_at: &T) -> History
        ghost begun: { List ℕ }
        ensures { (result.start ≡ begun) × (result.bytes ≡ []) }
    {
        History {}
    }

    /// So many bytes more.
    pub fn then(&self, _bytes: &[u8]) -> History
        ensures { (result.start ≡ self.now.start) × (result.bytes ≡ self.now.bytes ++ _bytes.now) }
    {
        History {}
    }
}
