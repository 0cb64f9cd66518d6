ghost use Rattle.std.specs.Prelude.{◌≡◌, ◌+◌, ◌-◌, ◌∷◌, ◌++◌, ◌<◌, ◌≤◌, ◌^◌, ◌⊎◌, List, ℕ, None, Some, IfSome, IfOk, OnOk, OnErr, IfErr, [], true, is_some, length, take, drop, Result, Ok, Err, IsTrue, ◌↔◌};
ghost use Rattle.std.specs.Io.{ReadsAtMost};
ghost use Rattle.std.specs.List.{AllByRecursion};
ghost use Rattle.std.specs.Io.KnownBytes.{ReadConsumes};
ghost use Rattle.abc_base.specs.Faults.{HasCause, Rose};
ghost use Rattle.abc_base.specs.Numbers.{SpellsNumber};
ghost use Rattle.abc_file_types.specs.Numbers.{u8 as octet};
ghost use Rattle.abc_varint.specs.View.{IsKept, NextOf, held_bytes, error_kept, onward};
ghost use Rattle.abc_varint.specs.declared.error.ReadError.{ReadError};
ghost use Rattle.abc_varint.specs.Reads.{AnswersKeptErr, Blames, Input, IsInput, WindowKeeps, Reads, known_input, stand, told_bytes};
ghost use Rattle.abc_varint.specs.Ready.{HoldsReady, TakesNumber};

use crate::error::ReadError;
use crate::taken::Taken;
use abc_base::{Bytes, Failed, NoMemory, Source};
use abc_file_types::Reason;
use std::alloc::Global;
use std::marker::Model;

/// The most bytes that are held.
const BLOCK: usize = 4096;

/// The end where none is set.
const NO_END: u32 = 1 << 25;

/// The place of the first byte past the longest file, 2^24.
const LIMIT: u32 = 1 << 24;

/// Bytes that were taken from a source, and not read yet, at most 4,096 of them. However much the source gives, at most
/// 2^24 + 1 bytes are taken from it in all: one more than the longest file has. Clauses see besides every byte that was
/// taken so far; the program keeps none that was read.
#[derive(Drop)]
pub struct Window {
    taken: Taken,
    block: Vec<u8>,
    from: usize,
    to: usize,
    place: u32,
    kept: Option<ReadError>,
    end: u32,
}

impl Model for Window {
    ghost use Rattle.std.specs.Prelude.{◌≡◌, ◌+◌, ◌-◌, ◌≤◌, ◌<◌, ◌^◌, Some, take, drop, length};
    ghost use Rattle.abc_varint.specs.View.{View, error_kept};
    ghost use Rattle.abc_varint.specs.declared.error.ReadError.{ReadError};

    ghost Value = { View };

    ghost view = { λ w. record { place = w.place; taken = w.taken.bytes; kept = w.kept; end = w.end } };

    ghost invariant = { λ w. (w.from ≤ w.to) × (w.to ≤ length w.block.items) × (length w.block.items ≡ 4096)
        × (w.place ≤ 2 ^ 24) × (w.place + (w.to - w.from) ≤ 2 ^ 24 + 1)
        × (w.place + (w.to - w.from) ≡ length w.taken.bytes)
        × (drop w.place w.taken.bytes ≡ take (w.to - w.from) (drop w.from w.block.items))
        × ((e : ReadError) → w.kept ≡ Some e → error_kept e ≡ Some e) };
}

impl Window {
    /// A window at place 0, with no bytes. Its block is made here, once.
    pub fn new(alloc: Global) -> Result<Window, NoMemory>
        ensures place { IfOk result (λ w. w.place ≡ 0) }
        ensures taken { IfOk result (λ w. w.taken ≡ []) }
        ensures kept { IfOk result (λ w. w.kept ≡ None) }
        ensures end { IfOk result (λ w. w.end ≡ 2 ^ 25) }
    {
        let block = vec![in alloc; 0u8; BLOCK]?;
        Ok(Window {
            taken: Taken::new(),
            block,
            from: 0,
            to: 0,
            place: 0,
            kept: None,
            end: NO_END,
        })
    }

    /// The place of the next byte; places count from 0.
    #[inline]
    pub fn place(&self) -> u32
        ensures is { result ≡ self.now.place }
        ensures bound { result ≤ 2 ^ 24 }
    {
        self.place
    }

    /// The place that no byte is read from: 2^25, unless another was set.
    pub fn end(&self) -> u32
        ensures { result ≡ self.now.end }
    {
        self.end
    }

    /// From now on no byte from this place on is read: a read of it is refused by `CodeEnds`.
    pub fn set_end(&mut self, end: u32)
        ensures { self.new ≡ record self.old { end = end } }
    {
        self.end = end;
    }

    /// Keeps a refusal, and gives it: every later read answers it.
    #[cold]
    #[inline(never)]
    pub(crate) fn refuse(&mut self, place: u32, reason: Reason) -> ReadError
        requires { error_kept (ReadError.Refused place reason) ≡ Some (ReadError.Refused place reason) }
        ensures is { result ≡ ReadError.Refused place reason }
        ensures keeps { self.new ≡ record self.old { kept = Some result } }
    {
        let e = ReadError::Refused { place, reason };
        self.kept = Some(e);
        e
    }

    /// Tells the refusal by `CodeEnds` that is kept at another place, and keeps it so. It is the one call that changes an
    /// Err that is kept: a reader of code tells its end at the opcode of the instruction that needs a byte past it.
    #[cold]
    #[inline(never)]
    pub fn blame(&mut self, place: u32) -> ReadError
        requires { (p : ℕ) × (self.old.kept ≡ Some (ReadError.Refused p Reason.CodeEnds)) }
        ensures is { result ≡ ReadError.Refused place Reason.CodeEnds }
        ensures keeps { self.new ≡ record self.old { kept = Some result } }
    {
        self.refuse(place, Reason::CodeEnds)
    }

    /// A window holds at most 4,096 bytes that were taken from its source and not read yet, and takes at most 2^24 + 1 in
    /// all.
    pub fn stays_small(&self)
        ensures held { length (held_bytes self.now) ≤ 4096 }
        ensures taken { length self.now.taken ≤ 2 ^ 24 + 1 }
    {
        // So that what holds of every window is known here.
        let _ = &self.block;
    }

    /// Whether no byte follows, whatever the end is. The source is asked if no byte is held. A kept Err is answered
    /// again. `ReadFault` comes only where the source's count of faults rose, and is kept.
    #[tactic(auto, using(crate::proofs::Inputs::not_at_end))]
    pub fn is_at_end<S: Source>(&mut self, source: &mut S) -> Result<bool, ReadError>
        ensures ok { OnOk result ((self.old.kept ≡ None) × (self.new.kept ≡ None)
            × (self.new.place ≡ self.old.place) × (self.new.end ≡ self.old.end)) }
        ensures same { OnOk result ((input : Input) → IsInput self.new (S.left source.new) input
            → IsInput self.old (S.left source.old) input) }
        ensures value { IfOk result
            (λ b. IsTrue b ↔ (drop self.new.place (known_input self.new (S.left source.new)).bytes ≡ [])) }
        ensures none { IfOk result (λ b. IsTrue b → told_bytes (S.left source.new) ≡ []) }
        ensures input { self.old.kept ≡ None
            → OnErr result (IsInput self.old (S.left source.old) (known_input self.new (S.left source.new))) }
        ensures stays { OnErr result (self.new.end ≡ self.old.end) }
        ensures keeps { IfErr result (λ e. IsKept e self.new) }
        ensures kept { AnswersKeptErr self.old source.old self.new source.new result }
        ensures no_memory { result ≡ Err ReadError.NoMemory → ⊥ }
        ensures fault { self.old.kept ≡ None → IfErr result (λ e. e ≡ ReadError.ReadFault) }
        ensures later { S.faults source.old ≤ S.faults source.new }
        ensures cause { self.old.kept ≡ None
            → OnErr result (Rose (S.faults source.old) (S.faults source.new)) }
    {
        if let Some(e) = self.kept {
            return Err(e);
        }
        if !self.is_used_up() {
            return Ok(false);
        }
        self.fill(source)?;
        Ok(self.is_used_up())
    }

    /// Whether no byte is held.
    #[inline]
    fn is_used_up(&self) -> bool
        ensures { IsTrue result ↔ (held_bytes self.now ≡ []) }
    {
        self.from == self.to
    }

    /// The next byte of those that are held.
    fn next(&mut self) -> Result<u8, ReadError>
        requires { self.old.kept ≡ None }
        ensures next { NextOf self.old self.new result }
        ensures keeps { IfErr result (λ e. IsKept e self.new) }
        ensures moves { OnOk result (self.new.place ≡ self.old.place + 1) }
        ensures within { OnOk result (self.new.place ≤ self.old.end) }
        ensures no_memory { result ≡ Err ReadError.NoMemory → ⊥ }
    {
        let place = self.place;
        if place >= self.end {
            return Err(self.refuse(place, Reason::CodeEnds));
        }
        if self.from == self.to {
            return Err(self.refuse(place, Reason::Short));
        }
        if place >= LIMIT {
            return Err(self.refuse(place, Reason::FileTooLong));
        }
        let x = self.block[self.from];
        self.from += 1;
        self.place = place + 1;
        Ok(x)
    }

    /// Has a byte at hand, unless nothing is left.
    fn prepare<S: Source>(&mut self, source: &mut S) -> Result<(), ReadError>
        ensures ok { OnOk result ((self.old.kept ≡ None) × (self.new.kept ≡ None)
            × (self.new.place ≡ self.old.place) × (self.new.end ≡ self.old.end)) }
        ensures same { OnOk result ((input : Input) → IsInput self.new (S.left source.new) input
            → IsInput self.old (S.left source.old) input) }
        ensures end { OnOk result
            (self.old.place < self.old.end → held_bytes self.new ≡ [] → told_bytes (S.left source.new) ≡ []) }
        ensures input { self.old.kept ≡ None
            → OnErr result (IsInput self.old (S.left source.old) (known_input self.new (S.left source.new))) }
        ensures stays { OnErr result (self.new.end ≡ self.old.end) }
        ensures keeps { IfErr result (λ e. IsKept e self.new) }
        ensures kept { AnswersKeptErr self.old source.old self.new source.new result }
        ensures no_memory { result ≡ Err ReadError.NoMemory → ⊥ }
        ensures fault { self.old.kept ≡ None → IfErr result (λ e. e ≡ ReadError.ReadFault) }
        ensures later { S.faults source.old ≤ S.faults source.new }
        ensures cause { self.old.kept ≡ None
            → OnErr result (Rose (S.faults source.old) (S.faults source.new)) }
    {
        if let Some(e) = self.kept {
            return Err(e);
        }
        if self.is_used_up() && self.place < self.end {
            return self.fill(source);
        }
        Ok(())
    }

    /// Takes bytes from the source, where none are held.
    fn fill<S: Source>(&mut self, source: &mut S) -> Result<(), ReadError>
        requires empty { held_bytes self.old ≡ [] }
        requires fresh { self.old.kept ≡ None }
        ensures ok { OnOk result
            ((self.new.kept ≡ None) × (self.new.place ≡ self.old.place) × (self.new.end ≡ self.old.end)) }
        ensures same { OnOk result ((input : Input) → IsInput self.new (S.left source.new) input
            → IsInput self.old (S.left source.old) input) }
        ensures end { OnOk result (held_bytes self.new ≡ [] → told_bytes (S.left source.new) ≡ []) }
        ensures input { OnErr result
            (IsInput self.old (S.left source.old) (known_input self.new (S.left source.new))) }
        ensures stays { OnErr result (self.new.end ≡ self.old.end) }
        ensures keeps { IfErr result (λ e. (e ≡ ReadError.ReadFault) × IsKept e self.new) }
        ensures later { S.faults source.old ≤ S.faults source.new }
        ensures cause { OnErr result (Rose (S.faults source.old) (S.faults source.new)) }
    {
        let room = BLOCK.min((LIMIT + 1 - self.place) as usize);
        match read_front(source, &mut self.block, room) {
            Ok(count) => {
                self.taken.note(&self.block[..count]);
                self.from = 0;
                self.to = count;
                Ok(())
            }
            Err(_) => {
                self.kept = Some(ReadError::ReadFault);
                Err(ReadError::ReadFault)
            }
        }
    }

    /// Moves bytes that are held to the end of `out`, and answers how many: at most `count`, and none that stands at
    /// the end or after it, or past the longest file. Where memory runs out nothing changes.
    pub(crate) fn take_held(&mut self, count: u32, out: &mut Bytes) -> Result<u32, NoMemory>
        ensures few { IfOk result (λ n. (n ≤ count) × (n ≤ length (held_bytes self.old))) }
        ensures room { IfOk result
            (λ n. (0 < n → self.old.place + n ≤ self.old.end) × (self.old.place + n ≤ 2 ^ 24)) }
        ensures window { IfOk result (λ n. self.new ≡ onward n self.old) }
        ensures bytes { IfOk result (λ n. out.new ≡ out.old ++ take n (held_bytes self.old)) }
        ensures same { OnErr result ((self.new ≡ self.old) × (out.new ≡ out.old)) }
    {
        let room = self.end.min(LIMIT).saturating_sub(self.place);
        let n = (count.min(room) as usize).min(self.to - self.from);
        let next = self.from + n;
        out.extend_from_slice(&self.block[self.from..next])?;
        self.from = next;
        self.place += n as u32;
        Ok(n as u32)
    }

    /// Whether so many bytes are held and one more, each of them before the end, and no Err is kept. Then they are within
    /// the longest file, since at most one byte past it is ever held.
    #[inline]
    pub fn is_ready(&self, count: u32) -> bool
        ensures ready { IsTrue result → HoldsReady count self.now }
        ensures always { self.now.kept ≡ None → count < length (held_bytes self.now)
            → self.now.place + count ≤ self.now.end → IsTrue result }
    {
        self.kept.is_none()
            && self.to - self.from > count as usize
            && self.place as u64 + count as u64 <= self.end as u64
    }

    /// The bytes that are held: taken from the source, and not read yet.
    #[inline]
    pub fn held(&self) -> &[u8]
        ensures { result.now ≡ held_bytes self.now }
    {
        &self.block[self.from..self.to]
    }

    /// Goes on, past so many of the bytes that are held.
    #[inline]
    pub fn go_on(&mut self, count: usize)
        requires { HoldsReady count self.old }
        ensures { self.new ≡ onward count self.old }
    {
        self.from += count;
        self.place += count as u32;
    }

    /// A number that the bytes that are held spell, where five of them are ready. With `None` nothing changes.
    #[inline(always)]
    pub(crate) fn take_number(&mut self) -> Option<u64>
        ensures some { IfSome result (λ x. TakesNumber x self.old self.new) }
        ensures bound { IfSome result (λ x. x < 2 ^ 35) }
        ensures none { result ≡ None → self.new ≡ self.old }
    {
        if !self.is_ready(5) {
            return None;
        }
        let (x, count) = front_number(self.held())?;
        self.go_on(count);
        Some(x)
    }

    /// The next byte.
    #[inline(always)]
    pub(crate) fn next_u8<S: Source>(&mut self, source: &mut S) -> Result<u8, ReadError>
        ensures value { Reads octet.reads self.old (S.left source.old) self.new (S.left source.new) result }
        ensures keeps { IfErr result (λ e. IsKept e self.new) }
        ensures moves { OnOk result (self.new.place ≡ self.old.place + 1) }
        ensures within { OnOk result (self.new.place ≤ self.old.end) }
        ensures stays { OnErr result (self.new.end ≡ self.old.end) }
        ensures kept { AnswersKeptErr self.old source.old self.new source.new result }
        ensures no_memory { result ≡ Err ReadError.NoMemory → ⊥ }
        ensures later { S.faults source.old ≤ S.faults source.new }
        ensures cause { Blames self.old (S.faults source.old) (S.faults source.new) result }
        ensures room { self.old.place ≤ 2 ^ 24 }
    {
        let _ = &self.block;
        if self.is_ready(1) {
            let x = self.held()[0];
            self.go_on(1);
            return Ok(x);
        }
        self.fetch_u8(source)
    }

    /// The next byte, where it may have to be taken from the source.
    #[cold]
    #[inline(never)]
    fn fetch_u8<S: Source>(&mut self, source: &mut S) -> Result<u8, ReadError>
        ensures value { Reads octet.reads self.old (S.left source.old) self.new (S.left source.new) result }
        ensures keeps { IfErr result (λ e. IsKept e self.new) }
        ensures moves { OnOk result (self.new.place ≡ self.old.place + 1) }
        ensures within { OnOk result (self.new.place ≤ self.old.end) }
        ensures stays { OnErr result (self.new.end ≡ self.old.end) }
        ensures kept { AnswersKeptErr self.old source.old self.new source.new result }
        ensures no_memory { result ≡ Err ReadError.NoMemory → ⊥ }
        ensures later { S.faults source.old ≤ S.faults source.new }
        ensures cause { Blames self.old (S.faults source.old) (S.faults source.new) result }
    {
        self.prepare(source)?;
        self.next()
    }
}

/// The number that the first bytes spell, and how many they are, one to five. `None` where the first five spell none: each
/// says that another byte follows.
#[inline(always)]
pub fn front_number(bytes: &[u8]) -> Option<(u64, usize)>
    requires { 5 ≤ length bytes.now }
    ensures spelled { IfSome result (λ p. SpellsNumber p.0 (take p.1 bytes.now)) }
    ensures few { IfSome result (λ p. (0 < p.1) × (p.1 ≤ 5)) }
    ensures bound { IfSome result (λ p. p.0 < 2 ^ 35) }
    ensures none { result ≡ None → AllByRecursion (λ b. 128 ≤ b) (take 5 bytes.now) }
{
    let a = bytes[0] as u64;
    if a < 128 {
        return Some((a, 1));
    }
    let b = bytes[1] as u64;
    let one = a % 128;
    if b < 128 {
        return Some((one + 128 * b, 2));
    }
    let c = bytes[2] as u64;
    let two = one + 128 * (b % 128);
    if c < 128 {
        return Some((two + 16384 * c, 3));
    }
    let d = bytes[3] as u64;
    let three = two + 16384 * (c % 128);
    if d < 128 {
        return Some((three + 2097152 * d, 4));
    }
    let e = bytes[4] as u64;
    let four = three + 2097152 * (d % 128);
    if e < 128 {
        return Some((four + 268435456 * e, 5));
    }
    None
}

/// Reads bytes into the front of the block, as many as there is room for or fewer.
fn read_front<S: Source>(source: &mut S, block: &mut [u8], room: usize) -> Result<usize, Failed>
    requires some { 0 < room }
    requires fits { room ≤ length block.old }
    ensures room { IfOk result (λ n. n ≤ room) }
    ensures bound { ReadsAtMost result block.new }
    ensures bytes { ReadConsumes (S.left source.old) (S.left source.new) result block.new }
    ensures cause { HasCause (S.faults source.old) (S.faults source.new) result }
{
    source.read(&mut block[..room])
}
