ghost use Rattle.std.specs.Prelude.{◌≡◌, ◌<◌, ◌-◌, ◌+◌, ◌++◌, ◌↔◌, ◌⊎◌, ℕ, [], min, take, length, Some, None, Ok, IfOk, OnOk, OnErr, IsErr, Contains};
ghost use Rattle.std.specs.Io.{WritesAtMost};
ghost use Rattle.std.specs.Io.KnownBytes.{WriteAppends};
ghost use Rattle.abc_base.specs.Adapters.{PassesWriting};
ghost use Rattle.abc_base.specs.Faults.{HasCause};
ghost use Rattle.abc_base.specs.Views.{one_more};

use crate::calls::{is_failing, raised};
use crate::memory::NoMemory;
use crate::sink::Sink;
use crate::source::Failed;
use crate::streams::Writer;
use std::alloc::Global;
use std::marker::Model;

/// Bytes in memory: room for so many, at most `piece` of them a call, and calls that fail. Contracts see it as a
/// record: what was taken, the room, the piece, how many calls there were, the numbers of those that fail, and how
/// many failed. The counts stand still at 2^64 - 1.
#[derive(Drop)]
pub struct MemSink {
    bytes: Vec<u8>,
    room: usize,
    piece: usize,
    calls: u64,
    failing: Vec<u32>,
    faults: u64,
}

impl Model for MemSink {
    ghost use Rattle.std.specs.Prelude.{◌≤◌, ◌<◌, length, vec_capacity};
    ghost use Rattle.abc_base.specs.Views.{MemSinkView};

    ghost Value = { MemSinkView };

    ghost view = { λ s. record {
      taken = s.bytes.items;
      room = s.room;
      piece = s.piece;
      calls = s.calls;
      failing = s.failing.items;
      faults = s.faults;
    } };

    ghost invariant = { λ s. (length s.bytes.items ≤ s.room) × (s.room ≤ vec_capacity s.bytes)
        × (0 < s.piece) };
}

impl MemSink {
    /// A sink with room for so many bytes, which it reserves here. Later calls take no memory. `fail` has the numbers,
    /// from 0, of the calls that fail. `NoMemory` where memory ran out.
    pub fn new(alloc: Global, room: usize, piece: usize, fail: &[u32]) -> Result<MemSink, NoMemory>
        requires { 0 < piece }
        ensures { IfOk result (λ s. s
            ≡ record
            { taken = []; room = room; piece = piece; calls = 0; failing = fail.now; faults = 0 }) }
    {
        let failing = Vec::from_slice(alloc, fail)?;
        let bytes = Vec::with_capacity(alloc, room)?;
        Ok(MemSink {
            bytes,
            room,
            piece,
            calls: 0,
            failing,
            faults: 0,
        })
    }

    /// What was written, in order.
    pub fn written(&self) -> &[u8]
        ensures { result.now ≡ self.now.taken }
    {
        self.bytes.as_slice()
    }
}

impl Sink for MemSink {
    ghost written = { λ s. Some s.taken };

    ghost faults = { λ s. s.faults };

    fn write(&mut self, piece: &[u8]) -> Result<usize, Failed>
        ensures bound { WritesAtMost result piece.now }
        ensures some { 0 < length piece.now → IfOk result (λ n. 0 < n) }
        ensures bytes { WriteAppends (Some self.old.taken) (Some self.new.taken) result piece.now }
        ensures cause { HasCause self.old.faults self.new.faults result }
        ensures fails { IsErr result
            ↔ (Contains self.old.failing self.old.calls
            ⊎ ((0 < length piece.now) × (length self.old.taken ≡ self.old.room))) }
        ensures count { IfOk result
            (λ n. n ≡ min (min (length piece.now) self.old.piece) (self.old.room - length self.old.taken)) }
        ensures ok { IfOk result (λ n. self.new
            ≡ record self.old
            { taken = self.old.taken ++ take n piece.now; calls = one_more self.old.calls }) }
        ensures err { OnErr result (self.new
            ≡ record self.old { calls = one_more self.old.calls; faults = one_more self.old.faults }) }
    {
        let fails = is_failing(self.failing.as_slice(), self.calls);
        self.calls = raised(self.calls);
        let free = self.room - self.bytes.len();
        if fails || (free == 0 && !piece.is_empty()) {
            self.faults = raised(self.faults);
            return Err(Failed);
        }
        let count = piece.len().min(self.piece).min(free);
        match self.bytes.extend_from_slice(&piece[..count]) {
            Ok(()) => Ok(count),
            Err(_) => unreachable!(),
        }
    }
}

/// A sink that keeps nothing and tells nothing. A write to it never fails.
#[derive(Clone, Copy, Debug, PartialEq, Eq)]
pub struct SteadySink;

impl SteadySink {
    /// The sink.
    pub fn new() -> SteadySink {
        SteadySink
    }
}

impl Sink for SteadySink {
    ghost written = { λ _. None };

    ghost faults = { λ _. 0 };

    fn write(&mut self, piece: &[u8]) -> Result<usize, Failed>
        ensures { result ≡ Ok (length piece.now) }
    {
        Ok(piece.len())
    }
}

/// Any writer of std. It tells nothing of its bytes, fails exactly where a write of the writer answers an `Err` or takes
/// no byte of a piece that has some, and counts that as a fault. Contracts see it as a record: the writer, and the
/// count, which stands still at 2^64 - 1.
#[derive(Drop)]
pub struct StdSink<W: Drop> {
    inner: W,
    faults: u64,
}

impl<W: Drop> Model for StdSink<W> {
    ghost use Rattle.abc_base.specs.Views.{AdapterView};

    ghost Value = { AdapterView W };

    ghost view = { λ s. record { inner = s.inner; faults = s.faults } };
}

impl<W: Writer + Drop> StdSink<W> {
    /// A sink over the writer, with no fault yet.
    pub fn new(inner: W) -> StdSink<W>
        ensures { result ≡ record { inner = inner; faults = 0 } }
    {
        StdSink { inner, faults: 0 }
    }
}

impl<W: Writer + Drop> Sink for StdSink<W> {
    ghost written = { λ _. None };

    ghost faults = { λ s. s.faults };

    fn write(&mut self, piece: &[u8]) -> Result<usize, Failed>
        ensures bound { WritesAtMost result piece.now }
        ensures some { 0 < length piece.now → IfOk result (λ n. 0 < n) }
        ensures bytes { WriteAppends (W.contents self.old.inner) (W.contents self.new.inner) result
            piece.now }
        ensures cause { HasCause self.old.faults self.new.faults result }
        ensures ok { OnOk result (self.new.faults ≡ self.old.faults) }
        ensures err { OnErr result (self.new.faults ≡ one_more self.old.faults) }
        ensures passes { PassesWriting (λ answer. W.may_answer self.old.inner piece.now answer self.new.inner)
            piece.now result }
    {
        match self.inner.write_some(piece) {
            Ok(count) if count > 0 || piece.is_empty() => Ok(count),
            _ => {
                self.faults = raised(self.faults);
                Err(Failed)
            }
        }
    }
}
