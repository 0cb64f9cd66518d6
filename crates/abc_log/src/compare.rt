ghost use Rattle.std.specs.Prelude.{◌≡◌, ◌≢◌, ◌<◌, ◌≤◌, ℕ, None, Ok, Err, IfOk, length, slice_index, take};
ghost use Rattle.std.specs.Io.{WritesAtMost};
ghost use Rattle.std.specs.Io.KnownBytes.{WriteAppends};
ghost use Rattle.abc_base.specs.Faults.{HasCause};
ghost use Rattle.abc_base.specs.Views.{one_more};
ghost use Rattle.abc_log.specs.Compared.{ComparesAs};
ghost use Rattle.abc_log.specs.Followed.{FollowsOn};
ghost use Rattle.abc_log.specs.declared.compare.Verdict.TheVariants.{Same};

use abc_base::{Failed, Sink, Source};
use std::marker::Model;

/// How many bytes are read at once to be compared, at most.
const BLOCK: usize = 64;

/// Whether what was written is what a source gives.
#[derive(Clone, Copy, Debug, PartialEq, Eq)]
pub enum Verdict {
    /// All of it.
    Same,
    /// So many bytes agree, and then there is another byte or none. The number stands still at 2^64 - 1.
    Differs(u64),
    /// The source failed.
    ReadFault,
}

/// Bytes that are compared with those of a source, which gives as many as are written. Contracts see it as a record: the source,
/// how many bytes agreed, the verdict, and how many writes failed. The numbers stand still at 2^64 - 1.
#[derive(Drop)]
pub struct Compare<S> {
    source: S,
    agreed: u64,
    verdict: Verdict,
    faults: u64,
}

impl<S> Model for Compare<S> {
    ghost use Rattle.abc_log.specs.CompareViews.{CompareView};

    ghost Value = { CompareView S };

    ghost view = { λ c. record
        { source = c.source; agreed = c.agreed; verdict = c.verdict; faults = c.faults } };
}

impl<S: Source> Compare<S> {
    /// Nothing is written yet.
    pub fn new(source: S) -> Compare<S>
        ensures { result ≡ record { source = source; agreed = 0; verdict = Same; faults = 0 } }
    {
        Compare {
            source,
            agreed: 0,
            verdict: Verdict::Same,
            faults: 0,
        }
    }

    /// Whether all that was written agrees.
    pub fn verdict(&self) -> Verdict
        ensures { result ≡ self.now.verdict }
    {
        self.verdict
    }

    /// How many bytes agree. The number stands still at 2^64 - 1.
    pub fn agreed(&self) -> u64
        ensures { result ≡ self.now.agreed }
    {
        self.agreed
    }

    /// The source as it stands.
    pub fn into_inner(self) -> S
        ensures { result ≡ self.source }
    {
        self.source
    }
}

/// How many bytes at the front are the same.
fn same_front(given: &[u8], wanted: &[u8]) -> usize
    requires { length given.now ≤ length wanted.now }
    ensures within { result ≤ length given.now }
    ensures same { take result given.now ≡ take result wanted.now }
    ensures parts { result < length given.now → slice_index given.now result ≢ slice_index wanted.now result }
{
    for (i, byte) in given.iter().enumerate() {
        if *byte != wanted[i] {
            return i;
        }
    }
    given.len()
}

impl<S: Source> Compare<S> {
    /// A write fails, and so do all after it.
    fn fail(&mut self, verdict: Verdict) -> Result<usize, Failed>
        ensures failed { result ≡ Err (record {}) }
        ensures is { self.new ≡ record self.old { verdict = verdict; faults = one_more self.old.faults } }
        ensures cause { HasCause self.old.faults self.new.faults result }
    {
        self.verdict = verdict;
        self.faults = self.faults.saturating_add(1);
        Err(Failed)
    }

    /// The next byte of the source is this one, which takes it; or the write fails.
    fn compare(&mut self, wanted: u8) -> Result<usize, Failed>
        requires { self.old.verdict ≡ Same }
        ensures compares { ComparesAs S.left S.faults wanted self.old result self.new }
        ensures same { S.name self.new.source ≡ S.name self.old.source }
        ensures cause { HasCause self.old.faults self.new.faults result }
    {
        let mut byte = [0];
        match self.source.read(&mut byte) {
            Ok(count) => {
                if count == 0 || byte[0] != wanted {
                    return self.fail(Verdict::Differs(self.agreed));
                }
                self.agreed = self.agreed.saturating_add(1);
                Ok(1)
            }
            Err(_) => self.fail(Verdict::ReadFault),
        }
    }

    /// Compares the front of a piece with the next bytes of the source, which are taken, and gives how many bytes of the piece that
    /// were: the first that isn't the source's is the last of them. No write fails by it.
    pub(crate) fn compare_front(&mut self, piece: &[u8]) -> usize
        requires some { 0 < length piece.now }
        requires agreed { self.old.verdict ≡ Same }
        ensures some { 0 < result }
        ensures within { result ≤ length piece.now }
        ensures follows { FollowsOn (S.left self.old.source) (S.faults self.old.source) self.old.agreed
            (take result piece.now) (S.left self.new.source) (S.faults self.new.source) self.new.agreed
            self.new.verdict }
        ensures faults { self.new.faults ≡ self.old.faults }
        ensures same { S.name self.new.source ≡ S.name self.old.source }
    {
        let mut block = [0; BLOCK];
        let most = piece.len().min(BLOCK);
        let Ok(count) = self.source.read(&mut block[..most]) else {
            self.verdict = Verdict::ReadFault;
            return 1;
        };
        let same = same_front(&block[..count], piece);
        self.agreed = self.agreed.saturating_add(same as u64);
        if same == count && count > 0 {
            return count;
        }
        self.verdict = Verdict::Differs(self.agreed);
        same + 1
    }
}

impl<S: Source> Sink for Compare<S> {
    ghost written = { λ _. None };

    ghost faults = { λ c. c.faults };

    fn write(&mut self, piece: &[u8]) -> Result<usize, Failed>
        ensures bound { WritesAtMost result piece.now }
        ensures some { 0 < length piece.now → IfOk result (λ n. 0 < n) }
        ensures bytes { WriteAppends None None result piece.now }
        ensures cause { HasCause self.old.faults self.new.faults result }
        ensures nothing { length piece.now ≡ 0 → (result ≡ Ok 0) × (self.new ≡ self.old) }
        ensures again { 0 < length piece.now → self.old.verdict ≢ Same
            → (result ≡ Err (record {}))
            × (self.new ≡ record self.old { faults = one_more self.old.faults }) }
        ensures same { S.name self.new.source ≡ S.name self.old.source }
        ensures compares { 0 < length piece.now → self.old.verdict ≡ Same
            → ComparesAs S.left S.faults (slice_index piece.now 0) self.old result self.new }
    {
        if piece.len() == 0 {
            return Ok(0);
        }
        if self.verdict != Verdict::Same {
            return self.fail(self.verdict);
        }
        self.compare(piece[0])
    }
}
