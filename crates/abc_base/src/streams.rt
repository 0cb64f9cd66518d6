ghost use Rattle.std.specs.Prelude.{List, ℕ};
ghost use Rattle.std.specs.declared.option.Option.{Option};
ghost use Rattle.std.specs.declared.result.Result.{Result};
ghost use Rattle.std.specs.declared.io.Error.{Error};
ghost use Rattle.std.specs.Io.{ReadsAtMost, WritesAtMost};
ghost use Rattle.std.specs.Io.KnownBytes.{ReadConsumes, WriteAppends};

use std::io::{self, Read, Write};

/// A reader of std, and which answers its `read` may give. Each `Read` is one.
pub trait Reader {
    /// The bytes that reads will give from here on, where they are known.
    ghost remaining: { Self → Option (List ℕ) };

    /// That a read of this reader may leave these bytes in the buffer, answer this, and leave the reader so.
    ghost may_answer: { Self → List ℕ → Result ℕ Error → Self → Type 0 };

    /// `read` of the reader.
    fn read_some(&mut self, into: &mut [u8]) -> io::Result<usize>
        ensures bound { ReadsAtMost result into.new }
        ensures bytes { ReadConsumes (remaining self.old) (remaining self.new) result into.new }
        ensures answer { may_answer self.old into.new result self.new };
}

impl<R: Read> Reader for R {
    ghost remaining = { R.remaining };

    ghost may_answer = { λ reader into answer after. ReadsAtMost answer into
        × ReadConsumes (R.remaining reader) (R.remaining after) answer into };

    fn read_some(&mut self, into: &mut [u8]) -> io::Result<usize> {
        self.read(into)
    }
}

/// A writer of std, and which answers its `write` may give. Each `Write` is one.
pub trait Writer {
    /// The bytes that the writer holds, where they are known.
    ghost contents: { Self → Option (List ℕ) };

    /// That a write of this writer may answer this for a piece, and leave the writer so.
    ghost may_answer: { Self → List ℕ → Result ℕ Error → Self → Type 0 };

    /// `write` of the writer.
    fn write_some(&mut self, piece: &[u8]) -> io::Result<usize>
        ensures bound { WritesAtMost result piece.now }
        ensures bytes { WriteAppends (contents self.old) (contents self.new) result piece.now }
        ensures answer { may_answer self.old piece.now result self.new };
}

impl<W: Write> Writer for W {
    ghost contents = { W.contents };

    ghost may_answer = { λ writer piece answer after. WritesAtMost answer piece
        × WriteAppends (W.contents writer) (W.contents after) answer piece };

    fn write_some(&mut self, piece: &[u8]) -> io::Result<usize> {
        self.write(piece)
    }
}
