ghost use Rattle.std.specs.Prelude.{◌≡◌, ◌<◌, ◌≤◌, ◌↔◌, ℕ, drop, take, min, Some, None, Ok, IfOk, OnOk, OnErr, IsErr, Contains, length};
ghost use Rattle.std.specs.Io.{ReadsAtMost};
ghost use Rattle.std.specs.Io.KnownBytes.{ReadConsumes};
ghost use Rattle.abc_base.specs.Adapters.{PassesReading};
ghost use Rattle.abc_base.specs.Faults.{HasCause};
ghost use Rattle.abc_base.specs.Views.{one_more};

use crate::calls::{is_failing, raised};
use crate::memory::NoMemory;
use crate::source::{Failed, Source};
use crate::streams::Reader;
use std::alloc::Global;
use std::marker::Model;

/// Bytes in memory, at most `piece` of them a call. A read of it never fails. Contracts see it as a record: what is
/// left, and the piece.
#[derive(Drop)]
pub struct SteadySource {
    bytes: Vec<u8>,
    at: usize,
    piece: usize,
}

impl Model for SteadySource {
    ghost use Rattle.std.specs.Prelude.{◌≤◌, ◌<◌, drop, length};
    ghost use Rattle.abc_base.specs.Views.{SteadyView};

    ghost Value = { SteadyView };

    ghost view = { λ s. record { left = drop s.at s.bytes.items; piece = s.piece } };

    ghost invariant = { λ s. (s.at ≤ length s.bytes.items) × (0 < s.piece) };
}

impl SteadySource {
    /// A source of these bytes. `NoMemory` where memory ran out.
    pub fn new(alloc: Global, bytes: &[u8], piece: usize) -> Result<SteadySource, NoMemory>
        requires { 0 < piece }
        ensures { IfOk result (λ s. s ≡ record { left = bytes.now; piece = piece }) }
    {
        let bytes = Vec::from_slice(alloc, bytes)?;
        Ok(SteadySource {
            bytes,
            at: 0,
            piece,
        })
    }
}

impl Source for SteadySource {
    ghost left = { λ s. Some s.left };

    ghost faults = { λ _. 0 };

    fn read(&mut self, into: &mut [u8]) -> Result<usize, Failed>
        ensures bound { ReadsAtMost result into.new }
        ensures bytes { ReadConsumes (Some self.old.left) (Some self.new.left) result into.new }
        ensures cause { HasCause 0 0 result }
        ensures count { result ≡ Ok (min (min (length self.old.left) self.old.piece) (length into.new)) }
        ensures ok { IfOk result (λ n. self.new ≡ record self.old { left = drop n self.old.left }) }
    {
        let count = deliver(self.bytes.as_slice(), self.at, self.piece, into);
        self.at += count;
        Ok(count)
    }
}

/// Copies the bytes from a place on to the front of `into`, at most `piece` of them, and gives their number.
fn deliver(bytes: &[u8], at: usize, piece: usize, into: &mut [u8]) -> usize
    requires { at ≤ length bytes.now }
    ensures count { result ≡ min (min (length (drop at bytes.now)) piece) (length into.new) }
    ensures front { take result into.new ≡ take result (drop at bytes.now) }
{
    let left = bytes.len() - at;
    let count = left.min(piece).min(into.len());
    let end = at + count;
    into[..count].copy_from_slice(&bytes[at..end]);
    count
}

/// Bytes in memory, at most `piece` of them a call, and calls that fail. Contracts see it as a record: what is left,
/// the piece, how many calls there were, the numbers of those that fail, and how many failed. The counts stand still
/// at 2^64 - 1.
#[derive(Drop)]
pub struct MemSource {
    bytes: Vec<u8>,
    at: usize,
    piece: usize,
    calls: u64,
    failing: Vec<u32>,
    faults: u64,
}

impl Model for MemSource {
    ghost use Rattle.std.specs.Prelude.{◌≤◌, ◌<◌, drop, length};
    ghost use Rattle.abc_base.specs.Views.{MemSourceView};

    ghost Value = { MemSourceView };

    ghost view = { λ s. record {
      left = drop s.at s.bytes.items;
      piece = s.piece;
      calls = s.calls;
      failing = s.failing.items;
      faults = s.faults;
    } };

    ghost invariant = { λ s. (s.at ≤ length s.bytes.items) × (0 < s.piece) };
}

impl MemSource {
    /// A source of these bytes. `fail` has the numbers, from 0, of the calls that fail. `NoMemory` where memory ran
    /// out.
    pub fn new(
        alloc: Global,
        bytes: &[u8],
        piece: usize,
        fail: &[u32],
    ) -> Result<MemSource, NoMemory>
        requires { 0 < piece }
        ensures { IfOk result
            (λ s. s ≡ record { left = bytes.now; piece = piece; calls = 0; failing = fail.now; faults = 0 }) }
    {
        let bytes = Vec::from_slice(alloc, bytes)?;
        let failing = Vec::from_slice(alloc, fail)?;
        Ok(MemSource {
            bytes,
            at: 0,
            piece,
            calls: 0,
            failing,
            faults: 0,
        })
    }
}

impl Source for MemSource {
    ghost left = { λ s. Some s.left };

    ghost faults = { λ s. s.faults };

    fn read(&mut self, into: &mut [u8]) -> Result<usize, Failed>
        ensures bound { ReadsAtMost result into.new }
        ensures bytes { ReadConsumes (Some self.old.left) (Some self.new.left) result into.new }
        ensures cause { HasCause self.old.faults self.new.faults result }
        ensures fails { IsErr result ↔ Contains self.old.failing self.old.calls }
        ensures count { IfOk result
            (λ n. n ≡ min (min (length self.old.left) self.old.piece) (length into.new)) }
        ensures ok { IfOk result (λ n. self.new
            ≡ record self.old { left = drop n self.old.left; calls = one_more self.old.calls }) }
        ensures err { OnErr result (self.new
            ≡ record self.old { calls = one_more self.old.calls; faults = one_more self.old.faults }) }
    {
        let fails = is_failing(self.failing.as_slice(), self.calls);
        self.calls = raised(self.calls);
        if fails {
            self.faults = raised(self.faults);
            return Err(Failed);
        }
        let count = deliver(self.bytes.as_slice(), self.at, self.piece, into);
        self.at += count;
        Ok(count)
    }
}

/// Any reader of std. It tells nothing of its bytes, fails exactly where a read of the reader answers an `Err`, and
/// counts that as a fault. Contracts see it as a record:
/// the reader, and the count, which stands still at 2^64 - 1.
#[derive(Drop)]
pub struct StdSource<R: Drop> {
    inner: R,
    faults: u64,
}

impl<R: Drop> Model for StdSource<R> {
    ghost use Rattle.abc_base.specs.Views.{AdapterView};

    ghost Value = { AdapterView R };

    ghost view = { λ s. record { inner = s.inner; faults = s.faults } };
}

impl<R: Reader + Drop> StdSource<R> {
    /// A source over the reader, with no fault yet.
    pub fn new(inner: R) -> StdSource<R>
        ensures { result ≡ record { inner = inner; faults = 0 } }
    {
        StdSource { inner, faults: 0 }
    }
}

impl<R: Reader + Drop> Source for StdSource<R> {
    ghost left = { λ _. None };

    ghost faults = { λ s. s.faults };

    fn read(&mut self, into: &mut [u8]) -> Result<usize, Failed>
        ensures bound { ReadsAtMost result into.new }
        ensures bytes { ReadConsumes (R.remaining self.old.inner) (R.remaining self.new.inner) result
            into.new }
        ensures cause { HasCause self.old.faults self.new.faults result }
        ensures ok { OnOk result (self.new.faults ≡ self.old.faults) }
        ensures err { OnErr result (self.new.faults ≡ one_more self.old.faults) }
        ensures passes { PassesReading (λ answer. R.may_answer self.old.inner into.new answer self.new.inner)
            result }
    {
        match self.inner.read_some(into) {
            Ok(count) => Ok(count),
            Err(_) => {
                self.faults = raised(self.faults);
                Err(Failed)
            }
        }
    }
}
