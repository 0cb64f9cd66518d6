ghost use Rattle.std.specs.Prelude.{◌≡◌, ◌∷◌, [], List, ℕ};
ghost use Rattle.std.specs.declared.option.Option.{Option};
ghost use Rattle.abc_base.specs.Faults.{HasCause};
ghost use Rattle.abc_base.specs.Sinks.{WritesAll};

use abc_base::{Failed, Sink, write_all};

/// Where a log is written to: a sink that is lent.
pub trait Log {
    /// The bytes that were written, where the sink tells that.
    ghost written: { Self → Option (List ℕ) };

    /// How many writes failed.
    ghost faults: { Self → ℕ };

    /// What tells it from others: no call changes that.
    ghost name: { Self → List ℕ };

    /// Writes a whole piece. After `Failed` the front of it was written, and it comes only where the count of faults rose or stood at
    /// its last value.
    fn put(&mut self, piece: &[u8]) -> Result<(), Failed>
        ensures bytes { WritesAll (written self.old) (written self.new) result piece.now }
        ensures cause { HasCause (faults self.old) (faults self.new) result }
        ensures same { name self.new ≡ name self.old };
}

impl<K: Sink> Log for &mut K {
    ghost written = { λ s. K.written s.now };

    ghost faults = { λ s. K.faults s.now };

    ghost name = { λ s. s.ghost_name ∷ [] };

    fn put(&mut self, piece: &[u8]) -> Result<(), Failed> {
        write_all(&mut **self, piece)
    }
}
