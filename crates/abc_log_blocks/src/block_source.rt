ghost use Rattle.std.specs.Prelude.{◌≡◌, ◌≤◌, ◌-◌, [], OnOk, Some, drop, length, min, take};
ghost use Rattle.std.specs.Io.KnownBytes.{IsAtEnd, Keeps, prepend_known};
ghost use Rattle.abc_base.specs.Faults.{HasCause};

use crate::loan::SourceLoan;
use abc_base::{Failed, Source};
use std::marker::PhantomData;

/// A source that takes the bytes of one that is lent a block ahead: at most 4,096 were taken and not read yet.
#[derive(Drop)]
pub struct BlockSource<'a, S: Source, N: SourceLoan> {
    source: &'a mut S,
    bytes: [u8; 4096],
    at: usize,
    end: usize,
    loan: PhantomData<N>,
    ghost named: { source.ghost_name ≡ N.name },
    ghost within: { at ≤ end },
    ghost few: { end ≤ 4096 },
}

impl<'a, S: Source, N: SourceLoan> BlockSource<'a, S, N> {
    ghost use Rattle.abc_log_blocks.specs.BlockSources.{source_faults, held_of, left_of, source_of};

    /// No byte is taken yet.
    pub fn new(source: &'a mut S) -> BlockSource<'a, S, N>
        requires { source.ghost_name ≡ N.name }
        ensures left { left_of result ≡ S.left source.old }
        ensures faults { source_faults result ≡ S.faults source.old }
    {
        BlockSource {
            source,
            bytes: [0; 4096],
            at: 0,
            end: 0,
            loan: PhantomData,
        }
    }

    /// Has a byte at hand, unless none is left.
    fn fill(&mut self) -> Result<(), Failed>
        ensures keeps { Keeps (left_of self.old) (left_of self.new) }
        ensures ready { OnOk result (held_of self.new ≡ [] → IsAtEnd (S.left (source_of self.new))) }
        ensures cause { HasCause (source_faults self.old) (source_faults self.new) result }
    {
        if self.at < self.end {
            return Ok(());
        }
        let count = self.source.read(&mut self.bytes)?;
        self.at = 0;
        self.end = count;
        Ok(())
    }

    /// Reads the first bytes at hand, as many as there is room for: it gives their number.
    fn give(&mut self, into: &mut [u8]) -> usize
        ensures count { result ≡ min (length (held_of self.old)) (length into.new) }
        ensures front { take result into.new ≡ take result (held_of self.old) }
        ensures held { held_of self.new ≡ drop result (held_of self.old) }
        ensures source { source_of self.new ≡ source_of self.old }
    {
        let count = (self.end - self.at).min(into.len());
        let end = self.at + count;
        into[..count].copy_from_slice(&self.bytes[self.at..end]);
        self.at = end;
        count
    }

    /// The source below as it stands. The bytes that were taken ahead and not read are lost, at most 4,096; where none was left to read,
    /// none is left of it.
    pub fn into_inner(self) -> &'a mut S
        ensures name { result.ghost_name ≡ N.name }
        ensures is { result.now ≡ source_of self.entry }
        ensures ahead { length (held_of self.entry) ≤ 4096 }
        ensures ended { left_of self.entry ≡ Some [] → S.left result.now ≡ Some [] }
    {
        self.source
    }
}

impl<'a, S: Source, N: SourceLoan> Source for BlockSource<'a, S, N> {
    ghost left = { λ b. prepend_known (take (b.end - b.at) (drop b.at b.bytes)) (S.left b.source.now) };

    ghost faults = { λ b. S.faults b.source.now };

    fn read(&mut self, into: &mut [u8]) -> Result<usize, Failed> {
        if into.len() == 0 {
            return Ok(0);
        }
        self.fill()?;
        Ok(self.give(into))
    }
}
