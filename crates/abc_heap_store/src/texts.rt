ghost use Rattle.std.specs.Prelude.{◌≡◌, ◌<◌, ◌+◌, ◌++◌, List, ℕ, length, Some, slice_get};
ghost use Rattle.abc_heap_store.specs.Texts.{text_in, IsTextIn, part_of_text, pool_text};
ghost use Rattle.abc_heap_values.specs.Filling.{HasRoom};

use crate::strings::Strings;
use abc_base::{Bytes, Table};
use abc_heap_values::{Reserved, Span};

/// The strings of a file.
pub trait Pool {
    ghost strings: { Self → List (List ℕ) };

    /// A string, by its index. That of index 0 is empty, and so are those past the last.
    fn string(&self, i: u32) -> &[u8]
        ensures { result.now ≡ pool_text (strings self.now) i };
}

impl Pool for Table<Bytes> {
    ghost strings = { λ t. t };

    #[tactic(auto, using(crate::proofs::Bytes::past_pool))]
    fn string(&self, i: u32) -> &[u8] {
        if i == 0 {
            return &[];
        }
        match self.find(i as usize - 1) {
            Some(text) => text.as_slice(),
            None => &[],
        }
    }
}

impl Pool for Strings {
    ghost strings = { λ s. s };

    fn string(&self, i: u32) -> &[u8] {
        if i == 0 {
            return &[];
        }
        self.find(i as usize - 1)
    }
}

/// A part, in which texts lie.
pub fn part_bytes<'a, P: Pool>(fixed: &'a [u8], made: &'a [u8], pool: &'a P, part: u32) -> &'a [u8]
    ensures { result.now ≡ part_of_text fixed.now made.now (P.strings pool.now) part }
{
    if part == 0 {
        return fixed;
    }
    if part == 1 {
        return made;
    }
    pool.string(part - 2)
}

/// The bytes of a text.
pub fn bytes_in<'a, P: Pool>(fixed: &'a [u8], made: &'a [u8], pool: &'a P, s: Span) -> &'a [u8]
    requires { IsTextIn fixed.now made.now (P.strings pool.now) s }
    ensures { result.now ≡ text_in fixed.now made.now (P.strings pool.now) s }
{
    let part = part_bytes(fixed, made, pool, s.part);
    let start = s.start as usize;
    &part[start..start + s.len as usize]
}

/// A byte of a part.
fn byte_at(fixed: &Bytes, made: &Reserved<u8>, pool: &Table<Bytes>, part: u32, k: usize) -> u8
    requires { k < length (part_of_text fixed.now made.now.items pool.now part) }
    ensures { slice_get (part_of_text fixed.now made.now.items pool.now part) k ≡ Some result }
{
    part_bytes(fixed.as_slice(), made.as_slice(), pool, part)[k]
}

/// Adds a copy of a text, which may itself lie among the texts made.
pub fn copy_text(fixed: &Bytes, made: &mut Reserved<u8>, pool: &Table<Bytes>, s: Span)
    requires text { IsTextIn fixed.now made.old.items pool.now s }
    requires room { HasRoom made.old s.len }
    ensures { made.new
        ≡ record {
          items = made.old.items ++ text_in fixed.now made.old.items pool.now s;
          limit = made.old.limit;
        } }
{
    for k in 0..s.len {
        let byte = byte_at(fixed, made, pool, s.part, s.start as usize + k as usize);
        made.push(byte);
    }
}

/// Adds some bytes.
pub fn push_bytes(made: &mut Reserved<u8>, bytes: &[u8])
    requires room { HasRoom made.old (length bytes.now) }
    ensures { made.new ≡ record { items = made.old.items ++ bytes.now; limit = made.old.limit } }
{
    for byte in bytes {
        made.push(*byte);
    }
}

/// Adds copies of two texts.
pub fn join(fixed: &Bytes, made: &mut Reserved<u8>, pool: &Table<Bytes>, a: Span, b: Span)
    requires a { IsTextIn fixed.now made.old.items pool.now a }
    requires b { IsTextIn fixed.now made.old.items pool.now b }
    requires room { HasRoom made.old (a.len + b.len) }
    ensures { made.new
        ≡ record {
          items = made.old.items
              ++ (text_in fixed.now made.old.items pool.now a
              ++ text_in fixed.now made.old.items pool.now b);
          limit = made.old.limit;
        } }
{
    copy_text(fixed, made, pool, a);
    copy_text(fixed, made, pool, b);
}
