ghost use Rattle.std.specs.Prelude.{◌≡◌, ◌<◌, ◌≤◌, ◌-◌, [], length, get_or, take, drop, IfOk};

use abc_base::{Bytes, NoMemory, Table};
use std::alloc::Global;
use std::marker::Model;

/// A copy of the strings of a file, one after the other in one block, each with its end there.
#[derive(Debug, Drop)]
pub struct Strings {
    bytes: Bytes,
    ends: Vec<u32>,
}

impl Model for Strings {
    ghost use Rattle.std.specs.Prelude.{List, ℕ, length};
    ghost use Rattle.abc_heap_store.specs.Strings.{texts_from, AreTextEnds};

    ghost Value = { List (List ℕ) };

    ghost view = { λ s. texts_from 0 s.ends.items s.bytes };

    ghost invariant = { λ s. AreTextEnds 0 s.ends.items (length s.bytes) };
}

/// The end of some bytes. Where it has more than 32 bits, memory is said to run out.
fn end_of(bytes: &Bytes) -> Result<u32, NoMemory>
    ensures { IfOk result (λ e. e ≡ length bytes.now) }
{
    match u32::try_from(bytes.len()) {
        Ok(end) => Ok(end),
        Err(_) => Err(NoMemory),
    }
}

/// A copy of some texts.
fn copied(alloc: Global, texts: &[Bytes]) -> Result<Strings, NoMemory>
    ensures { IfOk result (λ s. s ≡ texts.now) }
{
    let mut bytes = Bytes::new(alloc);
    let mut ends = Vec::with_capacity(alloc, texts.len())?;
    for text in texts {
        bytes.extend_from_slice(text.as_slice())?;
        let end = end_of(&bytes)?;
        ends.push(end)?;
    }
    Ok(Strings { bytes, ends })
}

/// Where a string starts: where the one before it ends.
fn start_of(ends: &Vec<u32>, i: usize) -> u32
    requires { i < length ends.now.items }
    ensures first { i ≡ 0 → result ≡ 0 }
    ensures other { 0 < i → result ≡ get_or ends.now.items (i - 1) 0 }
{
    if i == 0 {
        return 0;
    }
    ends[i - 1]
}

/// Where a string ends.
fn end_at(ends: &Vec<u32>, i: usize) -> u32
    requires { i < length ends.now.items }
    ensures { result ≡ get_or ends.now.items i 0 }
{
    ends[i]
}

/// The bytes between two places.
fn between(bytes: &[u8], start: usize, end: usize) -> &[u8]
    requires rises { start ≤ end }
    requires within { end ≤ length bytes.now }
    ensures { result.now ≡ take (end - start) (drop start bytes.now) }
{
    &bytes[start..end]
}

impl Strings {
    /// A copy of some strings.
    pub fn copy(alloc: Global, pool: &Table<Bytes>) -> Result<Strings, NoMemory>
        ensures { IfOk result (λ s. s ≡ pool.now) }
    {
        copied(alloc, pool.as_slice())
    }

    /// A string, by its position, or no bytes past the last.
    pub fn find(&self, i: usize) -> &[u8]
        ensures { result.now ≡ get_or self.now i [] }
    {
        if i >= self.ends.len() {
            return &[];
        }
        let start = start_of(&self.ends, i);
        let end = end_at(&self.ends, i);
        between(self.bytes.as_slice(), start as usize, end as usize)
    }
}
