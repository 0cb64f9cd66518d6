ghost use Rattle.std.specs.Prelude.{◌<◌, List, ℕ, length, IfOk};
ghost use Rattle.std.specs.declared.option.Option.{Option};
ghost use Rattle.std.specs.Io.{WritesAtMost};
ghost use Rattle.std.specs.Io.KnownBytes.{WriteAppends};
ghost use Rattle.abc_base.specs.Faults.{HasCause};
ghost use Rattle.abc_base.specs.Sinks.{WritesAll};

use crate::source::Failed;

/// What takes bytes in pieces.
pub trait Sink {
    /// The bytes that were written, where the sink tells that.
    ghost written: { Self → Option (List ℕ) };

    /// How many writes failed.
    ghost faults: { Self → ℕ };

    /// Writes the first bytes of a piece, and gives their number: at least one, unless the piece is empty. `Failed`
    /// writes nothing, and comes only where the count of faults rose or stood at its last value.
    fn write(&mut self, piece: &[u8]) -> Result<usize, Failed>
        ensures bound { WritesAtMost result piece.now }
        ensures some { 0 < length piece.now → IfOk result (λ n. 0 < n) }
        ensures bytes { WriteAppends (written self.old) (written self.new) result piece.now }
        ensures cause { HasCause (faults self.old) (faults self.new) result };
}

/// Writes a whole piece. After `Failed` the front of it was written, and it comes only where the count of faults rose
/// or stood at its last value.
pub fn write_all<K: Sink>(out: &mut K, piece: &[u8]) -> Result<(), Failed>
    ensures bytes { WritesAll (K.written out.old) (K.written out.new) result piece.now }
    ensures cause { HasCause (K.faults out.old) (K.faults out.new) result }
{
    let mut done = 0;
    while done < piece.len() {
        let count = out.write(&piece[done..])?;
        done += count;
    }
    Ok(())
}
