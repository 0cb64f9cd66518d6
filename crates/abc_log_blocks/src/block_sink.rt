ghost use Rattle.std.specs.Prelude.{◌≡◌, ◌<◌, ◌≤◌, ◌++◌, ◌-◌, [], OnOk, length, min, take};
ghost use Rattle.std.specs.Io.KnownBytes.{Appends, Keeps, append_known};
ghost use Rattle.abc_base.specs.Faults.{HasCause};
ghost use Rattle.abc_log_blocks.specs.Begun.{BeginsWith};

use crate::loan::SinkLoan;
use abc_base::{Failed, Sink};
use std::marker::PhantomData;

/// How many bytes a block has room for.
const BLOCK: usize = 4096;

/// A sink that gathers what is written, and hands it on to one that is lent where a write comes once 4,096 bytes wait. What waits counts
/// as written.
#[derive(Drop)]
pub struct BlockSink<'a, K: Sink, N: SinkLoan> {
    sink: &'a mut K,
    bytes: [u8; 4096],
    at: usize,
    end: usize,
    loan: PhantomData<N>,
    ghost named: { sink.ghost_name ≡ N.name },
    ghost within: { at ≤ end },
    ghost few: { end ≤ 4096 },
    ghost begun: { BeginsWith N.before (K.written sink.now) },
}

/// Writes bytes in a row, and gives how many were written: all, unless a write failed.
fn put<K: Sink>(sink: &mut K, bytes: &[u8]) -> (usize, Result<(), Failed>)
    ensures within { result.0 ≤ length bytes.now }
    ensures bytes { Appends (K.written sink.old) (K.written sink.new) (take result.0 bytes.now) }
    ensures all { OnOk result.1 (result.0 ≡ length bytes.now) }
    ensures cause { HasCause (K.faults sink.old) (K.faults sink.new) result.1 }
{
    let mut done = 0;
    while done < bytes.len() {
        match sink.write(&bytes[done..]) {
            Ok(count) => done += count,
            Err(Failed) => return (done, Err(Failed)),
        }
    }
    (done, Ok(()))
}

impl<'a, K: Sink, N: SinkLoan> BlockSink<'a, K, N> {
    ghost use Rattle.abc_log_blocks.specs.BlockSinks.{block_end, sink_faults, sink_of, waiting_of, written_of};

    /// Nothing is written yet.
    pub fn new(sink: &'a mut K) -> BlockSink<'a, K, N>
        requires name { sink.ghost_name ≡ N.name }
        requires before { K.written sink.old ≡ N.before }
        ensures written { written_of result ≡ K.written sink.old }
        ensures faults { sink_faults result ≡ K.faults sink.old }
    {
        BlockSink {
            sink,
            bytes: [0; 4096],
            at: 0,
            end: 0,
            loan: PhantomData,
        }
    }

    /// Hands on what waits. After `Failed` the front of it was handed on, and the rest waits.
    pub fn hand_on(&mut self) -> Result<(), Failed>
        ensures bytes { Keeps (written_of self.old) (written_of self.new) }
        ensures none { OnOk result (waiting_of self.new ≡ []) }
        ensures cause { HasCause (sink_faults self.old) (sink_faults self.new) result }
    {
        let (at, end) = (self.at, self.end);
        let bytes = self.bytes.as_slice();
        let (count, result) = put(self.sink, &bytes[at..end]);
        self.at = at + count;
        result
    }

    /// Hands on what waits where there is no room for more.
    fn make_room(&mut self) -> Result<(), Failed>
        ensures bytes { Keeps (written_of self.old) (written_of self.new) }
        ensures room { OnOk result (block_end self.new < 4096) }
        ensures cause { HasCause (sink_faults self.old) (sink_faults self.new) result }
    {
        if self.end < BLOCK {
            return Ok(());
        }
        self.hand_on()?;
        self.at = 0;
        self.end = 0;
        Ok(())
    }

    /// The first bytes of a piece wait behind the others, as many as there is room for: it gives their number.
    fn gather(&mut self, piece: &[u8]) -> usize
        ensures count { result ≡ min (length piece.now) (4096 - block_end self.old) }
        ensures bytes { waiting_of self.new ≡ waiting_of self.old ++ take result piece.now }
        ensures sink { sink_of self.new ≡ sink_of self.old }
    {
        let count = piece.len().min(BLOCK - self.end);
        let end = self.end + count;
        self.bytes[self.end..end].copy_from_slice(&piece[..count]);
        self.end = end;
        count
    }

    /// The sink below as it stands. What waits is lost.
    pub fn into_inner(self) -> &'a mut K
        ensures name { result.ghost_name ≡ N.name }
        ensures is { result.now ≡ sink_of self.entry }
        ensures begun { BeginsWith N.before (K.written result.now) }
    {
        self.sink
    }
}

impl<'a, K: Sink, N: SinkLoan> Sink for BlockSink<'a, K, N> {
    ghost use Rattle.std.specs.Prelude.{drop};

    ghost written = { λ b. append_known (K.written b.sink.now) (take (b.end - b.at) (drop b.at b.bytes)) };

    ghost faults = { λ b. K.faults b.sink.now };

    fn write(&mut self, piece: &[u8]) -> Result<usize, Failed> {
        self.make_room()?;
        Ok(self.gather(piece))
    }
}
