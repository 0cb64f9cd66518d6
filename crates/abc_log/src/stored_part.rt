ghost use Rattle.std.specs.Prelude.{◌≡◌, ◌<◌, ◌≤◌, ◌-◌, ◌⊎◌, length, take, Ok, IfOk, OnErr, MatchResult};
ghost use Rattle.std.specs.Io.{ReadsAtMost};
ghost use Rattle.std.specs.Io.KnownBytes.{Consumes, IsAtEnd, Keeps, ReadConsumes};
ghost use Rattle.abc_base.specs.Faults.{HasCause};
ghost use Rattle.abc_log.specs.Parts.{front_of};

use abc_base::{Failed, Source};
use std::marker::Model;

/// The next bytes of a source, at most so many. Contracts see it as a record: the source, and how many may still be taken.
#[derive(Drop)]
pub struct Part<S> {
    source: S,
    room: u32,
}

impl<S> Model for Part<S> {
    ghost use Rattle.abc_log.specs.CompareViews.{PartView};

    ghost Value = { PartView S };

    ghost view = { λ p. record { source = p.source; room = p.room } };
}

impl<S: Source> Part<S> {
    /// The next `length` bytes of a source, at most.
    pub fn new(source: S, length: u32) -> Part<S>
        ensures { result ≡ record { source = source; room = length } }
    {
        Part {
            source,
            room: length,
        }
    }

    /// How many bytes may still be taken.
    pub fn room(&self) -> u32
        ensures { result ≡ self.now.room }
    {
        self.room
    }

    /// The source as it stands.
    pub fn into_inner(self) -> S
        ensures { result ≡ self.source }
    {
        self.source
    }
}

impl<S: Source> Source for Part<S> {
    ghost left = { λ p. front_of p.room (S.left p.source) };

    ghost faults = { λ p. S.faults p.source };

    ghost name = { λ p. S.name p.source };

    /// It gives no byte for room exactly where all were taken, or its source has ended.
    fn read(&mut self, into: &mut [u8]) -> Result<usize, Failed>
        ensures bound { ReadsAtMost result into.new }
        ensures bytes { ReadConsumes (front_of self.old.room (S.left self.old.source))
            (front_of self.new.room (S.left self.new.source)) result into.new }
        ensures cause { HasCause (S.faults self.old.source) (S.faults self.new.source) result }
        ensures taken { MatchResult result
            (λ n. Consumes (S.left self.old.source) (S.left self.new.source) (take n into.new))
            (λ _. Keeps (S.left self.old.source) (S.left self.new.source)) }
        ensures room { MatchResult result (λ n. (n ≤ self.old.room) × (self.new.room ≡ self.old.room - n))
            (λ _. self.new.room ≡ self.old.room) }
        ensures full { self.old.room ≡ 0 → (result ≡ Ok 0) × (self.new ≡ self.old) }
        ensures same { S.name self.new.source ≡ S.name self.old.source }
        ensures ended { result ≡ Ok 0 → 0 < length into.new
            → (self.old.room ≡ 0) ⊎ IsAtEnd (S.left self.new.source) }
    {
        if self.room == 0 {
            return Ok(0);
        }
        let most = into.len().min(self.room as usize);
        let count = self.source.read(&mut into[..most])?;
        self.room -= count as u32;
        Ok(count)
    }
}
