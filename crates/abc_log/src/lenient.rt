ghost use Rattle.std.specs.Prelude.{◌≡◌, ◌<◌, [], Some, Ok, IfOk, length};
ghost use Rattle.std.specs.Io.{WritesAtMost};
ghost use Rattle.std.specs.Io.KnownBytes.{WriteAppends};
ghost use Rattle.abc_base.specs.Faults.{HasCause};
ghost use Rattle.abc_log.specs.Followed.{FollowsLog, bytes_in, noted_name, start_note, noted_number, start_and_since};
ghost use Rattle.abc_log.specs.declared.compare.Verdict.TheVariants.{Same};

use crate::compare::{Compare, Verdict};
use crate::history::History;
use abc_base::{Failed, Sink, Source};

/// A comparison that takes the byte at which it fails, and fails from the next write on: so that byte is among those that it tells as
/// written.
#[derive(Drop)]
pub struct Lenient<S: Source> {
    compare: Compare<S>,
    history: History,
    ghost named: { S.name compare.source ≡ noted_name history.start },
    ghost quiet: { compare.verdict ≡ Same → compare.faults ≡ 0 },
    ghost follows: { ∥ FollowsLog (bytes_in history.start) (noted_number history.start) history.bytes (S.left compare.source) (S.faults compare.source) compare.agreed compare.verdict ∥₁ },
}

impl<S: Source> Lenient<S> {
    ghost use Rattle.abc_log.specs.Lenients.{inner_agreed, inner_source, inner_verdict, start_of_compare, bytes_since};

    /// Nothing is written yet.
    pub fn new(source: S) -> Lenient<S>
        ensures start { start_of_compare result
            ≡ start_note (S.name source) (S.faults source) (S.left source) }
        ensures bytes { bytes_since result ≡ [] }
        ensures verdict { inner_verdict result ≡ Same }
    {
        let history = History::new(&source);
        Lenient {
            compare: Compare::new(source),
            history,
        }
    }

    /// Whether all that was written agrees.
    pub fn verdict(&self) -> Verdict
        ensures { result ≡ inner_verdict self.now }
    {
        self.compare.verdict()
    }

    /// How many bytes agree. The number stands still at 2^64 - 1.
    pub fn agreed(&self) -> u64
        ensures { result ≡ inner_agreed self.now }
    {
        self.compare.agreed()
    }

    /// The source as it stands.
    pub fn into_inner(self) -> S
        ensures { result ≡ inner_source self }
    {
        self.compare.into_inner()
    }
}

impl<S: Source> Sink for Lenient<S> {
    ghost written = { λ l. Some (start_and_since l.history.start l.history.bytes) };

    ghost faults = { λ l. l.compare.faults };

    fn write(&mut self, piece: &[u8]) -> Result<usize, Failed> {
        if piece.len() == 0 {
            return Ok(0);
        }
        if self.compare.verdict() != Verdict::Same {
            return self.compare.write(piece);
        }
        let count = self.compare.compare_front(piece);
        self.history = self.history.then(&piece[..count]);
        Ok(count)
    }
}
