//! Bytes that only clauses read. They take no memory, and nothing is done with them when the program runs.
ghost use Rattle.std.specs.Prelude.{◌≡◌, ℕ, List, [], ◌++◌};
ghost use Rattle.std.specs.Borrow.{ftrue};

use std::marker::{Model, PhantomData};

/// The bytes that were taken from a source so far, in their order.
#[derive(Drop)]
pub(crate) struct Taken {
    marker: PhantomData<u8>,
    pub ghost bytes: { List ℕ },
}

impl Model for Taken {
    ghost also_owns = { λ _. ftrue };
}

impl Taken {
    /// No bytes.
    pub(crate) fn new() -> Taken
        ensures { result.bytes ≡ [] }
    {
        Taken {
            marker: PhantomData,
        }
    }

    /// These bytes were taken too.
    pub(crate) fn note(&mut self, _piece: &[u8])
        ensures { self.new.bytes ≡ self.old.bytes ++ _piece.now }
    {}
}
